// A row of entries, read whole before any question is answered.
ghost use Rattle.std.specs.Prelude.{◌≡◌, ◌+◌, ◌≤◌, length, ◌++◌};
ghost use Rattle.layout.specs.Bytes.{bytes};
ghost use Rattle.layout.specs.Written.{Put};
ghost use Rattle.settings.specs.Row.{row_of, count_read, any_key, own_key, asked_key, found_in};
ghost use Rattle.settings.specs.Search.{TellsAt, Chained, Places, Seeks, Spells, Best, held_at, told_end};

use crate::{Edition, Entry, entry};
use layout::Refusal;
use wire::Cursor;

// The most entries of a row.
pub(crate) const LIMIT: usize = 256;

// Whether the key stands at a place. From its last byte on, where keys differ most.
fn same_at(s: &[u8], at: usize, key: &[u8]) -> bool
    requires { at + length key.now ≤ length s.now }
    ensures { TellsAt s.now at key.now result }
{
    for i in (0..key.len()).rev() {
        if s[at + i] != key[i] {
            return false;
        }
    }
    true
}

// Whether the bytes have the key at a place.
fn has_at(s: &[u8], at: usize, key: &[u8]) -> bool
    ensures { TellsAt s.now at key.now result }
{
    if s.len() < at {
        return key.len() == 0;
    }
    if s.len() - at < key.len() {
        return false;
    }
    same_at(s, at, key)
}

// Where the entry ends that starts at a place, by the length in its first four bytes; the bytes' end where these are not there.
pub(crate) fn end_of(s: &[u8], at: usize) -> usize
    requires { told_end s.now at ≤ length s.now }
    ensures { result ≡ told_end s.now at }
{
    match (Cursor { at }).u32(s) {
        Ok((len, _)) => at + len as usize,
        Err(_) => s.len(),
    }
}

// Where the first of the entries up to a place starts that has the key; that place where none has it.
pub(crate) fn seek(s: &[u8], upto: usize, key: &[u8]) -> usize
    requires { Chained s.now upto }
    ensures { Seeks s.now upto key.now result }
{
    let mut at = 0;
    // No range: each entry says itself where the next one starts.
    while at < upto {
        if has_at(s, at + 4, key) {
            return at;
        }
        at = end_of(s, at);
    }
    upto
}

// How many entries the row has; 13 where a key stands twice, 18 at the 257th.
pub fn check_row(edition: Edition, row: &[u8]) -> Result<usize, Refusal>
    ensures { result ≡ count_read (row_of edition row.now) }
{
    let mut at = 0;
    let mut count = 0;
    // No range: each entry says itself where the next one starts.
    while at < row.len() {
        let (x, next) = entry::entry_at(edition, row, at)?;
        if seek(row, at, entry::key_of(row, x)) < at {
            return Err(layout::plain(layout::RECORD));
        }
        if LIMIT <= count {
            return Err(layout::plain(crate::FULL));
        }
        at = next.at;
        count += 1;
    }
    Ok(count)
}

// The front of a key's word, at a place.
pub(crate) fn put_front_at(
    kind: u16,
    vendor: u32,
    property: u16,
    out: &mut [u8],
    at: usize,
) -> usize
    requires { at + 8 ≤ length out.old }
    ensures { Put out.old at (bytes 2 kind ++ bytes 4 vendor ++ bytes 2 property) out.new result }
{
    let a = layout::store(out, at, 2, kind as u64);
    let b = layout::store(out, a, 4, vendor as u64);
    layout::store(out, b, 2, property as u64)
}

// The front of a key's word.
fn put_front(kind: u16, vendor: u32, property: u16, out: &mut [u8]) -> usize
    requires { 8 ≤ length out.old }
    ensures { Put out.old 0 (bytes 2 kind ++ bytes 4 vendor ++ bytes 2 property) out.new result }
{
    put_front_at(kind, vendor, property, out, 0)
}

// Where the entry for any serial starts.
fn any_place(row: &[u8], vendor: u32, property: u16) -> usize
    requires { Chained row.now (length row.now) }
    ensures { Places row.now (length row.now) (any_key vendor property) result }
{
    let mut key = [0u8; 8];
    put_front(crate::ANY, vendor, property, &mut key);
    seek(row, row.len(), &key)
}

// The word of the key of a serial's own entry, at the front of a part that has room for the longest.
fn put_own(vendor: u32, property: u16, serial: &[u16], out: &mut [u8]) -> Result<usize, Refusal>
    requires { 519 ≤ length out.old }
    ensures { Spells (own_key vendor property serial.now) out.new result }
{
    let n = wire::write_text(serial, &mut out[8..])?;
    let a = put_front(crate::OWN, vendor, property, out);
    Ok(a + n)
}

// Where the serial's own entry starts. What no serial can be, no entry has.
fn own_place(row: &[u8], vendor: u32, property: u16, serial: &[u16]) -> usize
    requires { Chained row.now (length row.now) }
    ensures { Places row.now (length row.now) (own_key vendor property serial.now) result }
{
    let mut key = [0u8; 519];
    match put_own(vendor, property, serial, &mut key) {
        Ok(n) => seek(row, row.len(), &key[..n]),
        Err(_) => row.len(),
    }
}

// Where the entry of that key starts, for one serial or for any.
pub(crate) fn key_place(row: &[u8], vendor: u32, property: u16, own: bool, serial: &[u16]) -> usize
    requires { Chained row.now (length row.now) }
    ensures { Places row.now (length row.now) (asked_key own vendor property serial.now) result }
{
    if own {
        return own_place(row, vendor, property, serial);
    }
    any_place(row, vendor, property)
}

// Where the entry starts that is found: a serial's own wins.
fn best_place(edition: Edition, row: &[u8], vendor: u32, property: u16, serial: &[u16]) -> usize
    requires { Chained row.now (length row.now) }
    ensures { Best edition vendor property serial.now row.now result }
{
    match edition {
        Edition::One => any_place(row, vendor, property),
        Edition::Two => {
            let own = own_place(row, vendor, property, serial);
            if own < row.len() {
                return own;
            }
            any_place(row, vendor, property)
        }
    }
}

// The entry that starts at a place; none at the row's end.
#[tactic(auto, unfolding(crate::specs::Search::held_at))]
fn held_at(edition: Edition, row: &[u8], at: usize) -> Option<Entry>
    ensures { result ≡ held_at edition row.now at }
{
    if row.len() <= at {
        return None;
    }
    let (x, _) = entry::entry_at(edition, row, at).ok()?;
    Some(x)
}

// The entry that is kept of a property, by its places in the row: in edition 2 for the serial, else for any.
pub fn find(
    edition: Edition,
    row: &[u8],
    vendor: u32,
    property: u16,
    serial: &[u16],
) -> Result<Option<Entry>, Refusal>
    ensures { result ≡ found_in edition vendor property serial.now row.now }
{
    check_row(edition, row)?;
    let at = best_place(edition, row, vendor, property, serial);
    Ok(held_at(edition, row, at))
}
