// What is seen of a transaction's items, read from the front to the end. Nothing is judged here: a row of items that is no transaction ends in the stage `Not`,
// and what to refuse is decided behind the last item.
ghost use Rattle.std.specs.Prelude.{◌≡◌, ◌+◌, ◌<◌, ◌^◌};
ghost use Rattle.layout.specs.Answer.{pick};
ghost use Rattle.wire.specs.Container.{container_at};
ghost use Rattle.network.specs.Packet.{packet_at};
ghost use Rattle.network.specs.Inner.{Sees};
ghost use Rattle.network.specs.Translated.{none_seen, both, five_whole, next_container, next_packet, noted, piece_size, look_container, look_packet};

use crate::packet;
use crate::packet::Packet;
use wire::{Container, Cursor, Part, Read};

// How far a row of items is a transaction: nothing yet; a Command or request; start data; all data; a Response; or it is none.
#[derive(Clone, Copy)]
pub(crate) enum Stage {
    First,
    Asked,
    Started,
    Whole,
    Answered,
    Not,
}

// The fields of the last item of their kind: `code`, `number` and `params` of the Command, `response` and `results` of the Response. `payload` is a Data container's,
// `total` what start data announces, and `sum` the bytes of data and end data. `same`: all have the Command's number. `has`: there are data.
#[derive(Drop)]
pub(crate) struct Seen {
    pub stage: Stage,
    pub same: bool,
    pub has: bool,
    pub code: u64,
    pub number: u64,
    pub params: Part,
    pub payload: Part,
    pub response: u64,
    pub results: Part,
    pub total: u64,
    pub sum: usize,
}

// Choices are calls, so that a turn of a loop has no branch and its proof no cases.
fn and(a: bool, b: bool) -> bool
    ensures { result ≡ both a b }
{
    if a { b } else { false }
}

fn stage_if(test: bool, x: Stage, y: Stage) -> Stage
    ensures { result ≡ pick test x y }
{
    if test { x } else { y }
}

pub(crate) fn size_if(test: bool, x: usize, y: usize) -> usize
    ensures { result ≡ pick test x y }
{
    if test { x } else { y }
}

fn choose<T: Copy>(test: bool, x: T, y: T) -> T
    ensures { result ≡ pick test x y }
{
    if test { x } else { y }
}

// A parameter payload: at most five whole u32s.
fn five_whole(n: usize) -> bool
    ensures { result ≡ five_whole n }
{
    and(n <= 20, n % 4 == 0)
}

// Command, then at most one Data with the Command's code, then Response, and no more.
fn next_container(k: Stage, ours: u64, kind: u16, code: u64, count: usize) -> Stage
    ensures { result ≡ next_container k ours kind code count }
{
    let answers = stage_if(
        and(kind == 3, five_whole(count)),
        Stage::Answered,
        Stage::Not,
    );
    match k {
        Stage::First => stage_if(and(kind == 1, five_whole(count)), Stage::Asked, Stage::Not),
        Stage::Asked => stage_if(and(kind == 2, code == ours), Stage::Whole, answers),
        Stage::Started => Stage::Not,
        Stage::Whole => answers,
        Stage::Answered => Stage::Not,
        Stage::Not => Stage::Not,
    }
}

// Request and response; or request, start data, data packets, end data, response.
fn next_packet(k: Stage, kind: u32, count: usize) -> Stage
    ensures { result ≡ next_packet k kind count }
{
    let answers = stage_if(and(kind == 7, count <= 20), Stage::Answered, Stage::Not);
    match k {
        Stage::First => stage_if(and(kind == 6, count <= 20), Stage::Asked, Stage::Not),
        Stage::Asked => stage_if(kind == 9, Stage::Started, answers),
        Stage::Started => stage_if(
            kind == 10,
            Stage::Started,
            stage_if(kind == 12, Stage::Whole, Stage::Not),
        ),
        Stage::Whole => answers,
        Stage::Answered => Stage::Not,
        Stage::Not => Stage::Not,
    }
}

// One more item, of which `more` bytes are data: the Command (`asks`), what begins the data (`holds`), the Response (`answers`), or none of them.
fn note(
    next: Stage,
    asks: bool,
    holds: bool,
    answers: bool,
    code: u64,
    number: u64,
    body: Part,
    total: u64,
    more: usize,
    t: Seen,
) -> Seen
    requires { t.sum + more < 2 ^ 64 }
    ensures { result ≡ noted next asks holds answers code number body total more t }
{
    let ours = choose(asks, number, t.number);
    let params = t.params;
    let payload = t.payload;
    let results = t.results;
    Seen {
        stage: next,
        same: and(t.same, number == ours),
        has: choose(holds, true, t.has),
        code: choose(asks, code, t.code),
        number: ours,
        params: choose(asks, body, params),
        payload: choose(holds, body, payload),
        response: choose(answers, code, t.response),
        results: choose(answers, body, results),
        total: choose(holds, total, t.total),
        sum: t.sum + more,
    }
}

fn look_container(t: Seen, x: Container) -> Seen
    requires { t.sum < 2 ^ 64 }
    ensures { result ≡ look_container t x }
{
    let k = t.stage;
    let kind = x.kind;
    let code = x.code as u64;
    let body = x.payload;
    note(
        next_container(k, t.code, kind, code, body.count),
        kind == 1,
        kind == 2,
        kind == 3,
        code,
        x.number as u64,
        body,
        0,
        0,
        t,
    )
}

// How many bytes of data a packet has.
pub(crate) fn piece_size(x: Packet) -> usize
    ensures { result ≡ piece_size x }
{
    let body = x.body;
    size_if(
        x.kind == 10,
        body.count,
        size_if(x.kind == 12, body.count, 0),
    )
}

fn look_packet(t: Seen, x: Packet) -> Seen
    requires { t.sum + piece_size x < 2 ^ 64 }
    ensures { result ≡ look_packet t x }
{
    let k = t.stage;
    let kind = x.kind;
    let body = x.body;
    note(
        next_packet(k, kind, body.count),
        kind == 6,
        kind == 9,
        kind == 7,
        x.code as u64,
        x.number as u64,
        body,
        x.total,
        piece_size(x),
        t,
    )
}

fn none_seen() -> Seen
    ensures { result ≡ none_seen }
{
    let none = Part { start: 0, count: 0 };
    Seen {
        stage: Stage::First,
        same: true,
        has: false,
        code: 0,
        number: 0,
        params: none,
        payload: none,
        response: 0,
        results: none,
        total: 0,
        sum: 0,
    }
}

// All items and the place after them, or the first refusal.
#[tactic(auto, using(crate::proofs::ItemsLaws::seeing, crate::proofs::ItemsLaws::rest_none, crate::proofs::ItemsLaws::rest_refused, crate::proofs::SeenLoop::container_seen))]
pub(crate) fn see_containers(s: &[u8]) -> Read<Seen>
    ensures { Sees container_at look_container s.now result }
{
    let mut at: usize = 0;
    let mut t = none_seen();
    // No range: each of them says itself where the next one starts.
    while at < s.len() {
        let (x, next) = wire::read_container(s, Cursor { at })?;
        t = look_container(t, x);
        at = next.at;
    }
    Ok((t, Cursor { at }))
}

#[tactic(auto, using(crate::proofs::ItemsLaws::seeing, crate::proofs::ItemsLaws::rest_none, crate::proofs::ItemsLaws::rest_refused, crate::proofs::SeenLoop::packet_seen))]
pub(crate) fn see_packets(s: &[u8]) -> Read<Seen>
    ensures { Sees packet_at look_packet s.now result }
{
    let mut at: usize = 0;
    let mut t = none_seen();
    // No range: each of them says itself where the next one starts.
    while at < s.len() {
        let (x, next) = packet::read_packet(s, Cursor { at })?;
        t = look_packet(t, x);
        at = next.at;
    }
    Ok((t, Cursor { at }))
}
