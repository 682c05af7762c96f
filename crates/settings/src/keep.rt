// An entry stored: the row with it in place of the one that had its key, or after its last; or taken out. Everything is judged before the first byte is written.
ghost use Rattle.layout.specs.Answer.{says_count};
ghost use Rattle.std.specs.Prelude.{◌≡◌, ◌++◌, ℕ, ◌≤◌, length, take, drop, false, leb, ltb};
ghost use Rattle.layout.specs.Answer.{got, pick};
ghost use Rattle.settings.specs.Layout.{limit};
ghost use Rattle.layout.specs.Written.{Wrote, says};
ghost use Rattle.settings.specs.Entry.{alone_in};
ghost use Rattle.settings.specs.Row.{Whole, asked_key};
ghost use Rattle.settings.specs.Store.{store_said, remove_said, settings_of, setting_of};
ghost use Rattle.settings.specs.Search.{end_of};

use crate::{Edition, Entry, entry, row};
use layout::Refusal;

// The row with the entry in place of what stands from a place up to another.
fn replaced(
    row: &[u8],
    from: usize,
    till: usize,
    entry: &[u8],
    out: &mut [u8],
) -> Result<usize, Refusal>
    requires { (from ≤ till) × (till ≤ length row.now) }
    ensures { Wrote (says (take from row.now ++ entry.now ++ drop till row.now)) out.old (says_count result) out.new }
{
    let after = row.len() - till;
    if out.len() < from {
        return Err(layout::plain(layout::ROOM));
    }
    let left = out.len() - from;
    if left < entry.len() {
        return Err(layout::plain(layout::ROOM));
    }
    if left - entry.len() < after {
        return Err(layout::plain(layout::ROOM));
    }
    let a = layout::copy(row, 0, from, out, 0);
    let b = layout::copy(entry, 0, entry.len(), out, a);
    Ok(layout::copy(row, till, after, out, b))
}

// Where the entry ends that starts at a place; the place itself at the row's end.
fn end_of(edition: Edition, row: &[u8], at: usize) -> usize
    ensures { result ≡ end_of edition row.now at }
{
    match entry::entry_at(edition, row, at) {
        Ok((_, next)) => next.at,
        Err(_) => at,
    }
}

// Whether there is no room for one more: the key is new, found at the row's end, and the row has as many as it can.
fn is_full(count: usize, place: usize, end: usize) -> bool
    ensures { result ≡ pick (ltb place end) false (leb limit count) }
{
    if place < end {
        return false;
    }
    row::LIMIT <= count
}

// The entry x, which the bytes are, in a row of so many entries.
fn put_in(
    edition: Edition,
    row: &[u8],
    count: usize,
    entry: &[u8],
    x: Entry,
    out: &mut [u8],
) -> Result<usize, Refusal>
    requires { Whole edition row.now count × ((n : ℕ) × (alone_in edition entry.now ≡ got x n)) }
    ensures { Wrote (store_said (settings_of edition row.now) (setting_of edition entry.now)) out.old (says_count result) out.new }
{
    let place = row::seek(row, row.len(), entry::key_of(entry, x));
    if is_full(count, place, row.len()) {
        return Err(layout::plain(crate::FULL));
    }
    replaced(row, place, end_of(edition, row, place), entry, out)
}

// The new row, written whole to the front of the part lent to it. A refused store changes nothing.
pub fn store(edition: Edition, row: &[u8], entry: &[u8], out: &mut [u8]) -> Result<usize, Refusal>
    ensures { Wrote (store_said (settings_of edition row.now) (setting_of edition entry.now)) out.old (says_count result) out.new }
{
    let count = row::check_row(edition, row)?;
    let (x, _) = entry::alone(edition, entry)?;
    put_in(edition, row, count, entry, x, out)
}

// The row without the entry of the key.
fn take_out(
    edition: Edition,
    row: &[u8],
    vendor: u32,
    property: u16,
    own: bool,
    serial: &[u16],
    out: &mut [u8],
) -> Result<usize, Refusal>
    requires { (count : ℕ) × Whole edition row.now count }
    ensures { Wrote (remove_said (settings_of edition row.now) (asked_key own vendor property serial.now)) out.old (says_count result) out.new }
{
    let place = row::key_place(row, vendor, property, own, serial);
    replaced(row, place, row::end_of(row, place), &row[0..0], out)
}

// The new row, without the entry of that key: the row itself where none has it.
pub fn remove(
    edition: Edition,
    row: &[u8],
    vendor: u32,
    property: u16,
    own: bool,
    serial: &[u16],
    out: &mut [u8],
) -> Result<usize, Refusal>
    ensures { Wrote (remove_said (settings_of edition row.now) (asked_key own vendor property serial.now)) out.old (says_count result) out.new }
{
    row::check_row(edition, row)?;
    take_out(edition, row, vendor, property, own, serial, out)
}
