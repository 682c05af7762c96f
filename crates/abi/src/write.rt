// What a caller writes: integers, strings, arrays, tidy values and records, containers, records of a recording.
ghost use Rattle.layout.specs.Answer.{says_count};
ghost use Rattle.std.specs.Prelude.{◌≡◌};
ghost use Rattle.layout.specs.Written.{Wrote, tidied};
ghost use Rattle.recording.specs.Record.{record_said};
ghost use Rattle.wire.specs.Codecs.{value, row};
ghost use Rattle.wire.specs.Container.{container_said};
ghost use Rattle.wire.specs.Given.{text_said, array_said};
ghost use Rattle.wire.specs.Layout.{device, object, storage};
ghost use Rattle.abi.specs.Answered.{Gives};
ghost use Rattle.abi.specs.Integers.{integer_width, integer_said};

use crate::answer;
use layout::Refusal;

fn integer_width(code: u16) -> usize
    ensures { result ≡ integer_width code }
{
    if code == 0 {
        return 0;
    }
    if code <= 2 {
        return 1;
    }
    if code <= 4 {
        return 2;
    }
    if code <= 6 {
        return 4;
    }
    if code <= 8 {
        return 8;
    }
    if code <= 10 { 16 } else { 0 }
}

fn put_integer(code: u16, low: u64, high: u64, out: &mut [u8]) -> Result<usize, Refusal>
    ensures { Wrote (integer_said code low high) out.old (says_count result) out.new }
{
    let w = integer_width(code);
    if w == 0 {
        return Err(layout::plain(layout::PLACE));
    }
    if out.len() < w {
        return Err(layout::plain(layout::ROOM));
    }
    if w == 16 {
        let half = layout::store(out, 0, 8, low);
        return Ok(layout::store(out, half, 8, high));
    }
    Ok(layout::store(out, 0, w, low))
}

// An integer of one of the types 1 to 10 by the low bytes of its word, of 128 bits by two words.
#[unsafe(no_mangle)]
pub extern "C" fn ptp_write_integer(code: u16, low: u64, high: u64, out: &mut [u8]) -> u64
    ensures { Gives (integer_said code low high) out.old result out.new }
{
    answer::told(put_integer(code, low, high, out))
}

#[unsafe(no_mangle)]
pub extern "C" fn ptp_write_text(units: &[u16], out: &mut [u8]) -> u64
    ensures { Gives (text_said units.now) out.old result out.new }
{
    answer::told(wire::write_text(units, out))
}

// From the array's type code and the bytes of its items.
#[unsafe(no_mangle)]
pub extern "C" fn ptp_write_array(code: u16, items: &[u8], out: &mut [u8]) -> u64
    ensures { Gives (array_said code items.now) out.old result out.new }
{
    answer::told(wire::write_array(code, items, out))
}

#[unsafe(no_mangle)]
pub extern "C" fn ptp_tidy_value(code: u16, s: &[u8], out: &mut [u8]) -> u64
    ensures { Gives (tidied (value code) s.now) out.old result out.new }
{
    answer::told(wire::tidy_value(code, s, out))
}

#[unsafe(no_mangle)]
pub extern "C" fn ptp_tidy_device(s: &[u8], out: &mut [u8]) -> u64
    ensures { Gives (tidied (row device) s.now) out.old result out.new }
{
    answer::told(wire::tidy_device(s, out))
}

#[unsafe(no_mangle)]
pub extern "C" fn ptp_tidy_object(s: &[u8], out: &mut [u8]) -> u64
    ensures { Gives (tidied (row object) s.now) out.old result out.new }
{
    answer::told(wire::tidy_object(s, out))
}

#[unsafe(no_mangle)]
pub extern "C" fn ptp_tidy_storage(s: &[u8], out: &mut [u8]) -> u64
    ensures { Gives (tidied (row storage) s.now) out.old result out.new }
{
    answer::told(wire::tidy_storage(s, out))
}

#[unsafe(no_mangle)]
pub extern "C" fn ptp_write_container(
    kind: u16,
    code: u16,
    number: u32,
    payload: &[u8],
    out: &mut [u8],
) -> u64
    ensures { Gives (container_said kind code number payload.now) out.old result out.new }
{
    answer::told(wire::write_container(kind, code, number, payload, out))
}

#[unsafe(no_mangle)]
pub extern "C" fn ptp_write_record(kind: u16, body: &[u8], out: &mut [u8]) -> u64
    ensures { Gives (record_said kind body.now) out.old result out.new }
{
    answer::told(recording::write_record(kind, body, out))
}
