// Packets: one layout for all kinds, in which a field that a kind has not is of no bytes.
ghost use Rattle.wire.specs.Read.{says_read};
ghost use Rattle.std.specs.Prelude.{◌≡◌, ◌+◌, ◌≤◌, length};
ghost use Rattle.network.specs.Packet.{is_packet, phase_size, code_size, total_size, head_size, whole_fields, packet_in, packet_rest, packet_at};

use layout::Refusal;
use wire::{Cursor, Part, Read};

// A packet of any kind, its parameters or data by their place; a number that its kind has not is 0.
#[derive(Clone, Copy)]
pub struct Packet {
    pub kind: u32,
    pub phase: u32,
    pub code: u16,
    pub number: u32,
    pub total: u64,
    pub body: Part,
}

fn is_packet(kind: u32) -> bool
    ensures { result ≡ is_packet kind }
{
    if kind == 6 {
        return true;
    }
    if kind == 7 {
        return true;
    }
    if kind == 9 {
        return true;
    }
    if kind == 10 {
        return true;
    }
    kind == 12
}

pub(crate) fn phase_size(kind: u32) -> usize
    ensures { result ≡ phase_size kind }
{
    if kind == 6 { 4 } else { 0 }
}

pub(crate) fn code_size(kind: u32) -> usize
    ensures { result ≡ code_size kind }
{
    if kind == 6 {
        return 2;
    }
    if kind == 7 { 2 } else { 0 }
}

pub(crate) fn total_size(kind: u32) -> usize
    ensures { result ≡ total_size kind }
{
    if kind == 9 { 8 } else { 0 }
}

// All before the parameters or the data.
pub(crate) fn head_size(kind: u32) -> usize
    ensures { result ≡ head_size kind }
{
    12 + phase_size(kind) + code_size(kind) + total_size(kind)
}

// Whether a length is of whole fields.
fn whole_fields(kind: u32, len: usize) -> bool
    ensures { result ≡ whole_fields kind len }
{
    let head = head_size(kind);
    if len < head {
        return false;
    }
    if kind == 9 {
        return len == head;
    }
    if kind == 6 {
        return (len - head) % 4 == 0;
    }
    if kind == 7 {
        return (len - head) % 4 == 0;
    }
    true
}

// The packet that is whole. Its widths are known when the program runs, so `wire`'s number of any width is taken.
fn packet_in(s: &[u8], at: usize, kind: u32, len: usize) -> Packet
    requires { (head_size kind ≤ len) × (at + len ≤ length s.now) }
    ensures { result ≡ packet_in s.now at kind len }
{
    let p = phase_size(kind);
    let c = code_size(kind);
    let t = total_size(kind);
    Packet {
        kind,
        phase: wire::number_of(s, at + 8, p) as u32,
        code: wire::number_of(s, at + 8 + p, c) as u16,
        number: wire::number_of(s, at + 8 + p + c, 4) as u32,
        total: wire::number_of(s, at + 12 + p + c, t),
        body: Part {
            start: at + (12 + p + c + t),
            count: len - (12 + p + c + t),
        },
    }
}

// What follows length and kind.
#[tactic(auto, unfolding(crate::specs::Packet::packet_rest), using(crate::proofs::PacketLaws::whole_head))]
fn packet_rest(s: &[u8], at: usize, len: usize, kind: u32) -> Read<Packet>
    requires { at + 8 ≤ length s.now }
    ensures { says_read result ≡ packet_rest len kind s.now at }
{
    if !is_packet(kind) {
        return Err(layout::plain(crate::PACKET));
    }
    if !whole_fields(kind, len) {
        return Err(layout::plain(crate::FIELDS));
    }
    if s.len() - at < len {
        return Err(layout::end_at(at + 8));
    }
    Ok((packet_in(s, at, kind, len), Cursor { at: at + len }))
}

// The packet at a place.
#[tactic(auto, unfolding(crate::specs::Packet::packet_at, layout::specs::Answer::after))]
pub fn read_packet(s: &[u8], c: Cursor) -> Read<Packet>
    ensures { says_read result ≡ packet_at s.now c.at }
{
    let at = c.at;
    let (len, next) = c.u32(s)?;
    let (kind, _) = next.u32(s)?;
    packet_rest(s, at, len as usize, kind)
}
