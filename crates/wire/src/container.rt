// Containers: read, and written.
ghost use Rattle.wire.specs.Read.{says_read};
ghost use Rattle.layout.specs.Answer.{says_count};
ghost use Rattle.std.specs.Prelude.{◌≡◌, ◌*◌, ◌≤◌, length};
ghost use Rattle.layout.specs.Written.{Wrote, Put};
ghost use Rattle.wire.specs.Container.{is_kind, header_rest, header_at, container_at, container_said, param_bytes, command_said};

use crate::{Cursor, Part, Read, field};
use layout::Refusal;

#[derive(Drop)]
pub struct Header {
    pub kind: u16,
    pub code: u16,
    pub number: u32,
    pub payload_len: u32,
}

// A container's payload by its place.
#[derive(Drop)]
pub struct Container {
    pub kind: u16,
    pub code: u16,
    pub number: u32,
    pub payload: Part,
}

// Only the first count of the parameters are meant.
#[derive(Drop)]
pub struct Command {
    pub code: u16,
    pub params: [u32; 5],
    pub count: usize,
}

#[tactic(auto, unfolding(crate::specs::Container::is_kind), using(std::proofs::lemmas::Bool::Decides::nat_tests))]
fn is_kind(kind: u16) -> bool
    ensures { result ≡ is_kind kind }
{
    if kind < 1 {
        return false;
    }
    kind <= 4
}

// What follows the kind.
#[tactic(auto, unfolding(crate::specs::Container::header_rest, layout::specs::Answer::field_at, layout::specs::Answer::after), using(layout::proofs::laws::Reading::two_there))]
fn header_rest(s: &[u8], c: Cursor, len: u32, kind: u16) -> Read<Header>
    ensures { says_read result ≡ header_rest len kind s.now c.at }
{
    let at = c.at;
    let next = field::two_at(s, at, 2, 4)?;
    if len < 12 {
        return Err(layout::plain(layout::LENGTH));
    }
    let code = field::word(s, at, 2) as u16;
    let number = field::word(s, at + 2, 4) as u32;
    let payload_len = len - 12;
    Ok((
        Header {
            kind,
            code,
            number,
            payload_len,
        },
        next,
    ))
}

#[tactic(auto, unfolding(crate::specs::Container::header_at, layout::specs::Answer::field_at, layout::specs::Answer::after))]
pub fn read_header(s: &[u8], c: Cursor) -> Read<Header>
    ensures { says_read result ≡ header_at s.now c.at }
{
    let at = c.at;
    let rest = field::two_at(s, at, 4, 2)?;
    let kind = field::word(s, at + 4, 2) as u16;
    if !is_kind(kind) {
        return Err(layout::plain(layout::KIND));
    }
    header_rest(s, rest, field::word(s, at, 4) as u32, kind)
}

#[tactic(auto, unfolding(crate::specs::Container::container_at, layout::specs::Answer::span_at, layout::specs::Answer::after))]
pub fn read_container(s: &[u8], c: Cursor) -> Read<Container>
    ensures { says_read result ≡ container_at s.now c.at }
{
    let (h, body) = read_header(s, c)?;
    let start = body.at;
    let count = h.payload_len as usize;
    let Ok(next) = field::span_at(s, start, start, count) else {
        return Err(layout::plain(layout::SIZE));
    };
    Ok((
        Container {
            kind: h.kind,
            code: h.code,
            number: h.number,
            payload: Part { start, count },
        },
        next,
    ))
}

pub fn write_container(
    kind: u16,
    code: u16,
    number: u32,
    payload: &[u8],
    out: &mut [u8],
) -> Result<usize, Refusal>
    ensures { Wrote (container_said kind code number payload.now) out.old (says_count result) out.new }
{
    if !is_kind(kind) {
        return Err(layout::plain(layout::KIND));
    }
    if payload.len() > 4294967283 {
        return Err(layout::plain(layout::COUNT));
    }
    let whole = 12 + payload.len();
    if out.len() < whole {
        return Err(layout::plain(layout::ROOM));
    }
    let a = layout::store(out, 0, 4, whole as u64);
    let b = layout::store(out, a, 2, kind as u64);
    let c = layout::store(out, b, 2, code as u64);
    let d = layout::store(out, c, 4, number as u64);
    Ok(layout::copy(payload, 0, payload.len(), out, d))
}

// The first count of the parameters.
fn put_params(params: &[u32; 5], count: usize, out: &mut [u8]) -> usize
    requires { (count ≤ 5) × (count * 4 ≤ length out.old) }
    ensures { Put out.old 0 (param_bytes count params.now) out.new result }
{
    let mut o = 0;
    for param in &params[..count] {
        o = layout::store(out, o, 4, u64::from(*param));
    }
    o
}

pub fn write_command(c: Command, number: u32, out: &mut [u8]) -> Result<usize, Refusal>
    ensures { Wrote (command_said c number) out.old (says_count result) out.new }
{
    let count = c.count;
    if count > 5 {
        return Err(layout::plain(layout::COUNT));
    }
    let params = c.params;
    let mut payload = [0u8; 20];
    let n = put_params(&params, count, &mut payload);
    write_container(1, c.code, number, &payload[..n], out)
}
