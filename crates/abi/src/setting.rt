// Settings kept from reel to reel. The caller names the edition: the second where `second` is true.
ghost use Rattle.layout.specs.Answer.{says_count};
ghost use Rattle.std.specs.Prelude.{◌≡◌, ◌∷◌};
ghost use Rattle.layout.specs.Written.{Wrote};
ghost use Rattle.settings.specs.Entry.{entry_at};
ghost use Rattle.settings.specs.Row.{row_of, found_in, asked_key};
ghost use Rattle.settings.specs.Spell.{entry_said};
ghost use Rattle.settings.specs.Store.{store_said, remove_said, settings_of, setting_of};
ghost use Rattle.abi.specs.Answered.{word, Gives, given};
ghost use Rattle.abi.specs.Settings.{edition_of, counted, entry_row, found_said};

use crate::answer;
use layout::Refusal;
use settings::{Edition, Entry};

fn edition(second: bool) -> Edition
    ensures { result ≡ edition_of second }
{
    if second { Edition::Two } else { Edition::One }
}

// How many entries the row has.
#[tactic(auto, using(crate::proofs::Kept::counted_told))]
#[unsafe(no_mangle)]
pub extern "C" fn ptp_settings_check(second: bool, row: &[u8]) -> u64
    ensures { result ≡ word (counted (row_of (edition_of second) row.now)) }
{
    answer::told(settings::check_row(edition(second), row))
}

fn entry_row(x: Entry, next: usize) -> [u64; 9]
    ensures { result ≡ next ∷ entry_row x }
{
    [
        next as u64,
        x.kind as u64,
        x.vendor as u64,
        x.property as u64,
        x.serial.start as u64,
        x.serial.count as u64,
        x.code as u64,
        x.value.start as u64,
        x.value.len as u64,
    ]
}

fn give_entry(e: Edition, s: &[u8], at: usize, out: &mut [u64]) -> Result<usize, Refusal>
    ensures { Wrote (given entry_row (entry_at e s.now at)) out.old (says_count result) out.new }
{
    let (x, next) = settings::entry_at(e, s, at)?;
    answer::give(&entry_row(x, next.at), out)
}

// Of the entry at a place: the place after it, its kind, vendor and property, its serial's start and count of units, its type, its value's start and length.
#[unsafe(no_mangle)]
pub extern "C" fn ptp_settings_entry(second: bool, s: &[u8], at: usize, out: &mut [u64]) -> u64
    ensures { Gives (given entry_row (entry_at (edition_of second) s.now at)) out.old result out.new }
{
    answer::told(give_entry(edition(second), s, at, out))
}

fn give_found(
    e: Edition,
    row: &[u8],
    vendor: u32,
    property: u16,
    serial: &[u16],
    out: &mut [u64],
) -> Result<usize, Refusal>
    ensures { Wrote (found_said (found_in e vendor property serial.now row.now)) out.old (says_count result) out.new }
{
    let Some(x) = settings::find(e, row, vendor, property, serial)? else {
        return Ok(0);
    };
    answer::give(
        &[
            x.kind as u64,
            x.code as u64,
            x.value.start as u64,
            x.value.len as u64,
        ],
        out,
    )
}

// Of the entry that is kept: its kind, its type, its value's start and length in the row. No number where none is kept.
#[unsafe(no_mangle)]
pub extern "C" fn ptp_settings_find(
    second: bool,
    row: &[u8],
    vendor: u32,
    property: u16,
    serial: &[u16],
    out: &mut [u64],
) -> u64
    ensures { Gives (found_said (found_in (edition_of second) vendor property serial.now row.now)) out.old result out.new }
{
    answer::told(give_found(edition(second), row, vendor, property, serial, out))
}

// The row with the entry stored.
#[unsafe(no_mangle)]
pub extern "C" fn ptp_settings_store(second: bool, row: &[u8], entry: &[u8], out: &mut [u8]) -> u64
    ensures { Gives (store_said (settings_of (edition_of second) row.now) (setting_of (edition_of second) entry.now)) out.old result out.new }
{
    answer::told(settings::store(edition(second), row, entry, out))
}

// The entry of these fields: for the serial where `own`, else for any.
#[unsafe(no_mangle)]
pub extern "C" fn ptp_settings_write(
    vendor: u32,
    property: u16,
    code: u16,
    value: &[u8],
    own: bool,
    serial: &[u16],
    out: &mut [u8],
) -> u64
    ensures { Gives (entry_said vendor property code value.now own serial.now) out.old result out.new }
{
    answer::told(settings::write_entry(vendor, property, code, value, own, serial, out))
}

// The row without the entry of that key; the row itself where none has it.
#[unsafe(no_mangle)]
pub extern "C" fn ptp_settings_remove(
    second: bool,
    row: &[u8],
    vendor: u32,
    property: u16,
    own: bool,
    serial: &[u16],
    out: &mut [u8],
) -> u64
    ensures { Gives (remove_said (settings_of (edition_of second) row.now) (asked_key own vendor property serial.now)) out.old result out.new }
{
    answer::told(settings::remove(edition(second), row, vendor, property, own, serial, out))
}
