// One transaction's containers as packets, and back. All items are judged before a byte is written.
ghost use Rattle.layout.specs.Answer.{says_count};
ghost use Rattle.std.specs.Prelude.{◌≡◌, ◌+◌, ◌≤◌, length};
ghost use Rattle.layout.specs.Answer.{pick};
ghost use Rattle.layout.specs.Written.{Wrote, Put};
ghost use Rattle.wire.specs.Returned.{part_of};
ghost use Rattle.network.specs.Transaction.{tidy_word, containers_word};
ghost use Rattle.network.specs.Inner.{Within, AllPackets, data_of, phase_if};
ghost use Rattle.network.specs.Translated.{is_answered, seen_in, to_judged, from_judged, to_said, from_said};

use crate::see::{Seen, Stage};
use crate::{put, see};
use layout::Refusal;

// From the camera, or to it.
#[derive(Drop)]
pub enum Direction {
    In,
    Out,
}

fn is_answered(k: Stage) -> bool
    ensures { result ≡ is_answered k }
{
    match k {
        Stage::First => false,
        Stage::Asked => false,
        Stage::Started => false,
        Stage::Whole => false,
        Stage::Answered => true,
        Stage::Not => false,
    }
}

// The data phase: 1 without data or from the camera, 2 to it.
fn phase_of(d: Direction, has: bool) -> u64
    ensures { result ≡ phase_if d has }
{
    if !has {
        return 1;
    }
    match d {
        Direction::In => 1,
        Direction::Out => 2,
    }
}

fn put_packets(s: &[u8], d: Direction, t: Seen, out: &mut [u8]) -> usize
    requires { Within s.now t × (32 + t.params.count + pick t.has (32 + t.payload.count) 0 + t.results.count ≤ length out.old) }
    ensures { Put out.old 0 (tidy_word d (seen_in s.now t (part_of s.now t.payload))) out.new result }
{
    let params = t.params;
    let payload = t.payload;
    let results = t.results;
    let a = put::put_packet(
        out,
        0,
        6,
        phase_of(d, t.has),
        t.code,
        t.number,
        0,
        s,
        params,
    );
    let b = put::put_data(out, a, t.has, t.number, s, payload);
    put::put_packet(out, b, 7, 0, t.response, t.number, 0, s, results)
}

// What was seen, in the order of the tests: 22, 7, then 9.
fn write_packets(s: &[u8], d: Direction, t: Seen, out: &mut [u8]) -> Result<usize, Refusal>
    requires { Within s.now t }
    ensures { Wrote (to_judged d s.now t) out.old (says_count result) out.new }
{
    if !is_answered(t.stage) {
        return Err(layout::plain(crate::TRANSACTION));
    }
    if !t.same {
        return Err(layout::plain(layout::TID));
    }
    if !put::has_room(
        out.len(),
        see::size_if(t.has, 64, 32),
        t.params.count,
        see::size_if(t.has, t.payload.count, 0),
        t.results.count,
    ) {
        return Err(layout::plain(layout::ROOM));
    }
    Ok(put_packets(s, d, t, out))
}

// One transaction's containers as packets: start data and end data for its Data, and all data in end data.
#[tactic(auto, using(crate::proofs::TranslatedLaws::to_seen))]
pub fn to_network(s: &[u8], d: Direction, out: &mut [u8]) -> Result<usize, Refusal>
    ensures { Wrote (to_said d s.now) out.old (says_count result) out.new }
{
    let (t, _) = see::see_containers(s)?;
    write_packets(s, d, t, out)
}

fn put_containers(s: &[u8], t: Seen, out: &mut [u8]) -> usize
    requires { Within s.now t × AllPackets s.now × (t.sum ≡ length (data_of s.now)) × (24 + t.params.count + pick t.has (12 + t.sum) 0 + t.results.count ≤ length out.old) }
    ensures { Put out.old 0 (containers_word (seen_in s.now t (data_of s.now))) out.new result }
{
    let params = t.params;
    let results = t.results;
    let a = put::put_container(out, 0, 1, t.code, t.number, s, params);
    let b = put::put_joined(s, out, a, t.has, t.code, t.number, t.sum);
    put::put_container(out, b, 3, t.response, t.number, s, results)
}

// The same, back: 22, 21, 7, 10, then 9.
fn write_containers(s: &[u8], t: Seen, out: &mut [u8]) -> Result<usize, Refusal>
    requires { Within s.now t × AllPackets s.now × (t.sum ≡ length (data_of s.now)) }
    ensures { Wrote (from_judged s.now t (data_of s.now)) out.old (says_count result) out.new }
{
    if !is_answered(t.stage) {
        return Err(layout::plain(crate::TRANSACTION));
    }
    if t.sum as u64 != t.total {
        return Err(layout::plain(crate::FIELDS));
    }
    if !t.same {
        return Err(layout::plain(layout::TID));
    }
    if t.sum > 4294967283 {
        return Err(layout::plain(layout::COUNT));
    }
    if !put::has_room(
        out.len(),
        24,
        t.params.count,
        see::size_if(t.has, 12 + t.sum, 0),
        t.results.count,
    ) {
        return Err(layout::plain(layout::ROOM));
    }
    Ok(put_containers(s, t, out))
}

// One transaction's packets as containers: data packets of any lengths join into one Data.
#[tactic(auto, using(crate::proofs::TranslatedLaws::from_seen))]
pub fn from_network(s: &[u8], out: &mut [u8]) -> Result<usize, Refusal>
    ensures { Wrote (from_said s.now) out.old (says_count result) out.new }
{
    let (t, _) = see::see_packets(s)?;
    write_containers(s, t, out)
}
