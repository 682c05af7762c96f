// The words of packets and containers, into room that is there.
ghost use Rattle.std.specs.Prelude.{◌≡◌, ◌++◌, ◌+◌, ◌≤◌, leb, length};
ghost use Rattle.std.proofs.Math.Option.{some, none};
ghost use Rattle.layout.specs.Answer.{pick};
ghost use Rattle.layout.specs.Bytes.{bytes};
ghost use Rattle.layout.specs.Written.{Put};
ghost use Rattle.wire.specs.Container.{container_word};
ghost use Rattle.wire.specs.Returned.{part_of};
ghost use Rattle.network.specs.Packet.{head_size, packet_word};
ghost use Rattle.network.specs.Transaction.{data_packets, data_container};
ghost use Rattle.network.specs.Inner.{AllPackets, data_of};

use crate::{packet, see};
use wire::{Cursor, Part};

// A packet of any kind; a field that the kind has not takes no bytes.
pub(crate) fn put_packet(
    out: &mut [u8],
    at: usize,
    kind: u32,
    phase: u64,
    code: u64,
    number: u64,
    total: u64,
    s: &[u8],
    body: Part,
) -> usize
    requires { (body.start + body.count ≤ length s.now) × (at + (head_size kind + body.count) ≤ length out.old) }
    ensures { Put out.old at (packet_word kind phase code number total (part_of s.now body)) out.new result }
{
    let whole = packet::head_size(kind) + body.count;
    let a = layout::store(out, at, 4, whole as u64);
    let b = layout::store(out, a, 4, kind as u64);
    let c = layout::store(out, b, packet::phase_size(kind), phase);
    let d = layout::store(out, c, packet::code_size(kind), code);
    let e = layout::store(out, d, 4, number);
    let f = layout::store(out, e, packet::total_size(kind), total);
    layout::copy(s, body.start, body.count, out, f)
}

// Start data and end data, where there are data.
pub(crate) fn put_data(
    out: &mut [u8],
    at: usize,
    has: bool,
    number: u64,
    s: &[u8],
    body: Part,
) -> usize
    requires { (body.start + body.count ≤ length s.now) × (at + pick has (32 + body.count) 0 ≤ length out.old) }
    ensures { Put out.old at (data_packets number (pick has (some (part_of s.now body)) none)) out.new result }
{
    if !has {
        return at;
    }
    let none = Part { start: 0, count: 0 };
    let a = put_packet(out, at, 9, 0, 0, number, body.count as u64, s, none);
    put_packet(out, a, 12, 0, 0, number, 0, s, body)
}

// A container's twelve bytes before its payload. The payload that packets bring comes in pieces, so they are written apart from it.
fn put_container_head(
    out: &mut [u8],
    at: usize,
    kind: u64,
    code: u64,
    number: u64,
    count: usize,
) -> usize
    requires { at + (12 + count) ≤ length out.old }
    ensures { Put out.old at (bytes 4 (12 + count) ++ bytes 2 kind ++ bytes 2 code ++ bytes 4 number) out.new result }
{
    let whole = 12 + count;
    let a = layout::store(out, at, 4, whole as u64);
    let b = layout::store(out, a, 2, kind);
    let c = layout::store(out, b, 2, code);
    layout::store(out, c, 4, number)
}

pub(crate) fn put_container(
    out: &mut [u8],
    at: usize,
    kind: u64,
    code: u64,
    number: u64,
    s: &[u8],
    body: Part,
) -> usize
    requires { (body.start + body.count ≤ length s.now) × (at + (12 + body.count) ≤ length out.old) }
    ensures { Put out.old at (container_word kind code number (part_of s.now body)) out.new result }
{
    let a = put_container_head(out, at, kind, code, number, body.count);
    layout::copy(s, body.start, body.count, out, a)
}

// The bytes of data and end data, joined.
#[tactic(auto, using(crate::proofs::PutLaws::piecing, crate::proofs::PutLaws::piece_next, crate::proofs::PutLaws::piece_never, crate::proofs::PutLaws::piece_end))]
fn put_pieces(s: &[u8], out: &mut [u8], at: usize) -> usize
    requires { AllPackets s.now × (at + length (data_of s.now) ≤ length out.old) }
    ensures { Put out.old at (data_of s.now) out.new result }
{
    let mut o = at;
    let mut i: usize = 0;
    // No range: each packet says itself where the next one starts.
    while i < s.len() {
        // never refused: all are packets
        let Ok((x, next)) = packet::read_packet(s, Cursor { at: i }) else {
            return o;
        };
        o = layout::copy(s, x.body.start, see::piece_size(x), out, o);
        i = next.at;
    }
    o
}

// A Data container of them, where there are data.
pub(crate) fn put_joined(
    s: &[u8],
    out: &mut [u8],
    at: usize,
    has: bool,
    code: u64,
    number: u64,
    sum: usize,
) -> usize
    requires { AllPackets s.now × (sum ≡ length (data_of s.now)) × (at + pick has (12 + sum) 0 ≤ length out.old) }
    ensures { Put out.old at (data_container code number (pick has (some (data_of s.now)) none)) out.new result }
{
    if !has {
        return at;
    }
    let a = put_container_head(out, at, 2, code, number, sum);
    put_pieces(s, out, a)
}

// Whether the four together have room. Their sum may not fit a usize, so each is taken from what is left.
pub(crate) fn has_room(room: usize, k: usize, a: usize, b: usize, c: usize) -> bool
    ensures { result ≡ leb (k + a + b + c) room }
{
    if room < k {
        return false;
    }
    if room - k < a {
        return false;
    }
    if room - k - a < b {
        return false;
    }
    c <= room - k - a - b
}
