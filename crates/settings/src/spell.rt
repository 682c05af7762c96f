// An entry written from its fields: its one spelling.
ghost use Rattle.layout.specs.Answer.{says_count};
ghost use Rattle.std.specs.Prelude.{◌≡◌, ◌+◌, ◌≤◌, length};
ghost use Rattle.layout.specs.Written.{Wrote, Put, says};
ghost use Rattle.settings.specs.Spell.{kind_of, serial_said, is_value, entry_bytes, spelled_said, entry_said};

use crate::{entry, row};
use layout::Refusal;
use wire::Cursor;

// The longest serial's bytes: a count, 254 units and a 0.
const SERIAL: usize = 511;

// The most that an entry's length can be.
const MOST: usize = 0xFFFF_FFFF;

fn kind_of(own: bool) -> u16
    ensures { result ≡ kind_of own }
{
    if own { crate::OWN } else { crate::ANY }
}

// Whether the bytes are exactly one tidy value of the type.
#[tactic(auto, using(crate::proofs::SpellLaws::value_longer, crate::proofs::SpellLaws::value_tested, crate::proofs::SpellLaws::value_none))]
fn is_value(code: u16, w: &[u8]) -> bool
    ensures { result ≡ is_value code w.now }
{
    let Ok((_, next)) = (Cursor { at: 0 }).value(w, code) else {
        return false;
    };
    if next.at != w.len() {
        return false;
    }
    entry::word_tidy(code, w)
}

#[tactic(auto, unfolding(crate::specs::Spell::serial_said, layout::specs::Written::answer_of, layout::specs::Written::left_of))]
fn put_serial(own: bool, serial: &[u16], out: &mut [u8]) -> Result<usize, Refusal>
    ensures { Wrote (serial_said own serial.now) out.old (says_count result) out.new }
{
    if own {
        return wire::write_text(serial, out);
    }
    Ok(0)
}

// The fields one after the other, where there is room.
fn put_fields(
    kind: u16,
    vendor: u32,
    property: u16,
    serial: &[u8],
    code: u16,
    value: &[u8],
    out: &mut [u8],
) -> usize
    requires { (14 + length serial.now + length value.now ≤ length out.old) × (14 + length serial.now + length value.now ≤ 4294967295) }
    ensures { Put out.old 0 (entry_bytes kind vendor property serial.now code value.now) out.new result }
{
    let size = 14 + serial.len() + value.len();
    let a = layout::store(out, 0, 4, size as u64);
    let b = row::put_front_at(kind, vendor, property, out, a);
    let c = layout::copy(serial, 0, serial.len(), out, b);
    let d = layout::store(out, c, 2, code as u64);
    layout::copy(value, 0, value.len(), out, d)
}

// The entry with these bytes for its serial.
#[tactic(auto, unfolding(crate::specs::Spell::spelled_said, layout::specs::Written::answer_of, layout::specs::Written::left_of))]
fn put_entry(
    own: bool,
    vendor: u32,
    property: u16,
    serial: &[u8],
    code: u16,
    value: &[u8],
    out: &mut [u8],
) -> Result<usize, Refusal>
    requires { length serial.now ≤ 511 }
    ensures { Wrote (spelled_said own vendor property code value.now (says serial.now)) out.old (says_count result) out.new }
{
    if !is_value(code, value) {
        return Err(layout::plain(layout::RECORD));
    }
    if MOST - 14 - serial.len() < value.len() {
        return Err(layout::plain(layout::RECORD));
    }
    if out.len() < 14 + serial.len() + value.len() {
        return Err(layout::plain(layout::ROOM));
    }
    Ok(put_fields(kind_of(own), vendor, property, serial, code, value, out))
}

// The entry for the serial where `own`, else for any, and then the serial is not looked at. 2 and 10 of the serial, 13 for what is no tidy value of the type, then 9.
pub fn write_entry(
    vendor: u32,
    property: u16,
    code: u16,
    value: &[u8],
    own: bool,
    serial: &[u16],
    out: &mut [u8],
) -> Result<usize, Refusal>
    ensures { Wrote (entry_said vendor property code value.now own serial.now) out.old (says_count result) out.new }
{
    let mut word = [0u8; SERIAL];
    let n = put_serial(own, serial, &mut word)?;
    put_entry(own, vendor, property, &word[..n], code, value, out)
}
