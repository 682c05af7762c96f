// One entry, read test by test in the paper's order.
ghost use Rattle.wire.specs.Read.{says_read};
ghost use Rattle.std.specs.Prelude.{◌≡◌, ◌+◌, ◌≤◌, length};
ghost use Rattle.wire.specs.Property.{bytes_of};
ghost use Rattle.settings.specs.Layout.{knows};
ghost use Rattle.settings.specs.Entry.{serial_at, typed_at, fields_at, rest_at, whole_at, tidy_text, serial_tidy, word_tidy, value_tidy, is_tidy, tidy_at, entry_at, alone_in, key_slot, Within};

use layout::Refusal;
use wire::{Cursor, Part, Read, Slot};

// Which kinds are known: 16 in the first, 16 and 17 in the second.
#[derive(Clone, Copy)]
pub enum Edition {
    One,
    Two,
}

// An entry that starts at a place: its numbers, and its serial and its value by their places. An entry for any serial has no units.
#[derive(Clone, Copy)]
pub struct Entry {
    pub start: usize,
    pub kind: u16,
    pub vendor: u32,
    pub property: u16,
    pub serial: Part,
    pub code: u16,
    pub value: Slot,
}

fn is_known(edition: Edition, kind: u16) -> bool
    ensures { result ≡ knows edition kind }
{
    match edition {
        Edition::One => kind == crate::ANY,
        Edition::Two => {
            if kind == crate::ANY {
                true
            } else {
                kind == crate::OWN
            }
        }
    }
}

#[tactic(auto, unfolding(crate::specs::Entry::serial_at))]
fn serial_at(kind: u16, s: &[u8], at: usize) -> Read<Part>
    ensures { says_read result ≡ serial_at kind s.now at }
{
    if kind != crate::OWN {
        return Ok((
            Part {
                start: at,
                count: 0,
            },
            Cursor { at },
        ));
    }
    (Cursor { at }).text(s)
}

// Type and value, after the key.
#[tactic(auto, unfolding(crate::specs::Entry::typed_at, layout::specs::Answer::after))]
fn typed_at(
    start: usize,
    kind: u16,
    vendor: u32,
    property: u16,
    serial: Part,
    s: &[u8],
    at: usize,
) -> Read<Entry>
    ensures { says_read result ≡ typed_at start kind vendor property serial s.now at }
{
    let (code, from) = Cursor { at }.u16(s)?;
    let (_, next) = from.value(s, code)?;
    let len = next.at - from.at;
    let value = Slot {
        start: from.at,
        len,
    };
    Ok((
        Entry {
            start,
            kind,
            vendor,
            property,
            serial,
            code,
            value,
        },
        next,
    ))
}

// The fields after the kind, in bytes that end with the entry.
#[tactic(auto, unfolding(crate::specs::Entry::fields_at, layout::specs::Answer::after))]
fn fields_at(start: usize, kind: u16, s: &[u8], at: usize) -> Read<Entry>
    ensures { says_read result ≡ fields_at start kind s.now at }
{
    let (vendor, next) = Cursor { at }.u32(s)?;
    let (property, key) = next.u16(s)?;
    let (serial, c) = serial_at(kind, s, key.at)?;
    typed_at(start, kind, vendor, property, serial, s, c.at)
}

// What follows the six bytes of an entry of that length and kind.
#[tactic(auto, unfolding(crate::specs::Entry::rest_at, layout::specs::Answer::after), using(layout::proofs::laws::Make::span_there, layout::proofs::laws::Make::span_short))]
fn rest_at(start: usize, len: u32, kind: u16, s: &[u8], at: usize) -> Read<Entry>
    requires { at ≤ length s.now }
    ensures { says_read result ≡ rest_at start len kind s.now at }
{
    if len < 6 {
        return Err(layout::plain(layout::RECORD));
    }
    let count = (len - 6) as usize;
    if s.len() - at < count {
        return Err(layout::end_at(at));
    }
    let end = at + count;
    let (x, next) = fields_at(start, kind, &s[..end], at)?;
    if next.at != end {
        return Err(layout::plain(layout::TRAIL));
    }
    Ok((x, next))
}

// The entry at a place, by all tests but the last.
#[tactic(auto, unfolding(crate::specs::Entry::whole_at, layout::specs::Answer::after))]
fn whole_at(edition: Edition, s: &[u8], at: usize) -> Read<Entry>
    ensures { says_read result ≡ whole_at edition s.now at }
{
    let (len, next) = Cursor { at }.u32(s)?;
    let (kind, rest) = next.u16(s)?;
    if !is_known(edition, kind) {
        return Err(layout::plain(crate::EDITION));
    }
    rest_at(at, len, kind, s, rest.at)
}

// Of a string's bytes: its count is not 1, and its last unit is 0.
fn tidy_text(w: &[u8]) -> bool
    ensures { result ≡ tidy_text w.now }
{
    if w.len() <= 1 {
        return true;
    }
    if w[0] == 1 {
        return false;
    }
    if w[w.len() - 2] != 0 {
        return false;
    }
    w[w.len() - 1] == 0
}

fn serial_tidy(s: &[u8], x: Entry) -> bool
    requires { Within s.now x }
    ensures { result ≡ serial_tidy s.now x }
{
    if x.kind != crate::OWN {
        return true;
    }
    let from = x.start + 12;
    let till = x.value.start - 2;
    tidy_text(&s[from..till])
}

// Of a value's bytes: nothing but a string has a second spelling.
pub(crate) fn word_tidy(code: u16, w: &[u8]) -> bool
    ensures { result ≡ word_tidy code w.now }
{
    if code != wire::STRING {
        return true;
    }
    tidy_text(w)
}

fn value_tidy(s: &[u8], x: Entry) -> bool
    requires { Within s.now x }
    ensures { result ≡ value_tidy s.now x }
{
    let from = x.value.start;
    let till = from + x.value.len;
    word_tidy(x.code, &s[from..till])
}

fn is_tidy(s: &[u8], x: Entry) -> bool
    requires { Within s.now x }
    ensures { result ≡ is_tidy s.now x }
{
    if !serial_tidy(s, x) {
        return false;
    }
    value_tidy(s, x)
}

// An entry that was read, unless it is untidy.
#[tactic(auto, unfolding(crate::specs::Entry::tidy_at))]
fn tidy_at(s: &[u8], x: Entry, next: Cursor) -> Read<Entry>
    requires { Within s.now x }
    ensures { says_read result ≡ tidy_at s.now x next.at }
{
    if !is_tidy(s, x) {
        return Err(layout::plain(layout::RECORD));
    }
    Ok((x, next))
}

// The bytes of an entry's key: from behind its length up to its type. Two entries have one key exactly where these are the same.
pub(crate) fn key_of<'a>(s: &'a [u8], x: Entry) -> &'a [u8]
    requires { Within s.now x }
    ensures { result.now ≡ bytes_of s.now (key_slot x) }
{
    let from = x.start + 4;
    let till = x.value.start - 2;
    &s[from..till]
}

// The entry at a place. Its places, and that of a refusal, count in the bytes that are lent.
#[tactic(auto, unfolding(crate::specs::Entry::entry_at, layout::specs::Answer::after))]
pub fn entry_at(edition: Edition, s: &[u8], at: usize) -> Read<Entry>
    ensures { says_read result ≡ entry_at edition s.now at }
{
    let (x, next) = whole_at(edition, s, at)?;
    tidy_at(s, x, next)
}

// The entry that the bytes are: 3 where bytes follow it.
#[tactic(auto, unfolding(crate::specs::Entry::alone_in, layout::specs::Answer::after))]
pub(crate) fn alone(edition: Edition, s: &[u8]) -> Read<Entry>
    ensures { says_read result ≡ alone_in edition s.now }
{
    let (x, next) = whole_at(edition, s, 0)?;
    next.end(s)?;
    tidy_at(s, x, next)
}
