// Lines, piece by piece.
ghost use Rattle.std.specs.Prelude.{◌≡◌, ◌+◌, ◌≤◌, length};
ghost use Rattle.layout.specs.Written.{Put};
ghost use Rattle.names.specs.Names.{name_bytes, given};
ghost use Rattle.names.specs.Says.{says_name, bytes_at, Inside};
ghost use Rattle.recording.specs.Record.{record_from};
ghost use Rattle.listing.specs.Lines.{heading, hex_code, way_text, kind_text, name_for, code_text, counts_text, container_line, note_line, record_line, ending};

use crate::decimal;
use names::Name;
use recording::Record;
use wire::Container;

// Bytes that have room at a place, and the place after them.
fn put_bytes(text: &[u8], out: &mut [u8], at: usize) -> usize
    requires { at + length text.now ≤ length out.old }
    ensures { Put out.old at text.now out.new result }
{
    let end = at + text.len();
    out[at..end].copy_from_slice(text);
    end
}

// The same of n bytes to twice as many, by the first n and the last n: where n is a constant each is one move, and no library is called.
fn put_ends(text: &[u8], n: usize, out: &mut [u8], at: usize) -> usize
    requires { (n ≤ length text.now) × (length text.now ≤ n + n) × (at + length text.now ≤ length out.old) }
    ensures { Put out.old at text.now out.new result }
{
    let rest = text.len() - n;
    put_bytes(&text[..n], out, at);
    put_bytes(&text[rest..], out, at + rest)
}

// A name: most have eight bytes to sixteen, and the commonest, Ok, has two.
fn put_name(name: &[u8], out: &mut [u8], at: usize) -> usize
    requires { at + length name.now ≤ length out.old }
    ensures { Put out.old at name.now out.new result }
{
    if name.len() > 16 {
        return put_bytes(name, out, at);
    }
    if name.len() >= 8 {
        return put_ends(name, 8, out, at);
    }
    if name.len() == 2 {
        return put_ends(name, 2, out, at);
    }
    put_bytes(name, out, at)
}

fn put_hex(code: u16, out: &mut [u8], at: usize) -> usize
    requires { at + length (hex_code code) ≤ length out.old }
    ensures { Put out.old at (hex_code code) out.new result }
{
    let mut text = [0u8; 16];
    let k = io::hex(code as u64, 4, &mut text);
    let a = layout::copy(b"0x", 0, 2, out, at);
    layout::copy(&text[..k], 0, k, out, a)
}

fn put_way(kind: u16, out: &mut [u8], at: usize) -> usize
    requires { at + length (way_text kind) ≤ length out.old }
    ensures { Put out.old at (way_text kind) out.new result }
{
    if kind == 1 {
        return put_bytes(b" in ", out, at);
    }
    put_bytes(b" out ", out, at)
}

fn put_kind(kind: u16, out: &mut [u8], at: usize) -> usize
    requires { at + length (kind_text kind) ≤ length out.old }
    ensures { Put out.old at (kind_text kind) out.new result }
{
    if kind == 1 {
        return put_bytes(b"Command ", out, at);
    }
    if kind == 2 {
        return put_bytes(b"Data ", out, at);
    }
    if kind == 3 {
        return put_bytes(b"Response ", out, at);
    }
    put_bytes(b"Event ", out, at)
}

// Where the name stands of a code in a container of that kind.
#[tactic(auto, unfolding(crate::specs::Lines::name_for), using(names::proofs::laws::Spells::response_spells, names::proofs::laws::Spells::command_spells, names::proofs::laws::Spells::response_inside, names::proofs::laws::Spells::command_inside))]
fn name_of(kind: u16, code: u16) -> Option<Name>
    ensures { (given bytes_at (says_name result) ≡ name_for kind code) × Inside (says_name result) }
{
    if kind == 3 {
        return names::response_name(code);
    }
    if kind == 4 {
        return None;
    }
    names::command_name(code)
}

fn put_code(kind: u16, code: u16, names: &[u8], out: &mut [u8], at: usize) -> usize
    requires { (names.now ≡ name_bytes) × (at + length (code_text kind code) ≤ length out.old) }
    ensures { Put out.old at (code_text kind code) out.new result }
{
    match name_of(kind, code) {
        Some(p) => put_name(&names[p.start..p.start + p.len], out, at),
        None => put_hex(code, out, at),
    }
}

fn put_counts(number: u64, count: u64, out: &mut [u8], at: usize) -> usize
    requires { at + length (counts_text number count) ≤ length out.old }
    ensures { Put out.old at (counts_text number count) out.new result }
{
    let a = put_bytes(b" ", out, at);
    let b = decimal::put(number, out, a);
    let c = put_bytes(b" ", out, b);
    let d = decimal::put(count, out, c);
    put_bytes(b"\n", out, d)
}

fn put_container(
    place: u64,
    kind: u16,
    x: Container,
    names: &[u8],
    out: &mut [u8],
    at: usize,
) -> usize
    requires { (names.now ≡ name_bytes) × (at + length (container_line place kind x) ≤ length out.old) }
    ensures { Put out.old at (container_line place kind x) out.new result }
{
    let a = decimal::put_place(place, out, at);
    let b = put_way(kind, out, a);
    let c = put_kind(x.kind, out, b);
    let d = put_code(x.kind, x.code, names, out, c);
    put_counts(x.number as u64, x.payload.count as u64, out, d)
}

fn put_note(place: u64, count: u64, out: &mut [u8], at: usize) -> usize
    requires { at + length (note_line place count) ≤ length out.old }
    ensures { Put out.old at (note_line place count) out.new result }
{
    let a = decimal::put_place(place, out, at);
    let b = put_bytes(b" old-note ", out, a);
    let c = decimal::put(count, out, b);
    put_bytes(b"\n", out, c)
}

pub(crate) fn put_record(place: u64, x: Record, names: &[u8], out: &mut [u8], at: usize) -> usize
    requires { (names.now ≡ name_bytes) × (at + length (record_line place (record_from x)) ≤ length out.old) }
    ensures { Put out.old at (record_line place (record_from x)) out.new result }
{
    match x.content {
        None => put_note(place, x.body.count as u64, out, at),
        Some(held) => put_container(place, x.kind, held, names, out, at),
    }
}

pub(crate) fn put_heading(out: &mut [u8]) -> usize
    requires { 30 ≤ length out.old }
    ensures { Put out.old 0 heading out.new result }
{
    put_bytes(b"place way kind code tid bytes\n", out, 0)
}

pub(crate) fn put_ending(records: u64, count: u64, out: &mut [u8]) -> usize
    requires { 64 ≤ length out.old }
    ensures { Put out.old 0 (ending records count) out.new result × (result ≤ 64) }
{
    let a = put_bytes(b"records ", out, 0);
    let b = decimal::put(records, out, a);
    let c = put_bytes(b" bytes ", out, b);
    let d = decimal::put(count, out, c);
    put_bytes(b"\n", out, d)
}
