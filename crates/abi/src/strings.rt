// A string at a place: where its units stand, and the string in UTF-8.
ghost use Rattle.layout.specs.Answer.{says_count};
ghost use Rattle.layout.specs.Answer.{means};
ghost use Rattle.layout.specs.Written.{Wrote, said_of};
ghost use Rattle.std.specs.Prelude.{length};
ghost use Rattle.wire.specs.Places.{text_at};
ghost use Rattle.wire.specs.Utf8.{utf8_at};
ghost use Rattle.abi.specs.Answered.{Gives, given};
ghost use Rattle.abi.specs.Rows.{number_row, part_row};

use crate::answer;
use layout::Refusal;
use wire::Cursor;

fn give_text(s: &[u8], at: usize, out: &mut [u64]) -> Result<usize, Refusal>
    ensures { Wrote (given part_row (text_at s.now at)) out.old (says_count result) out.new }
{
    let (p, next) = (Cursor { at }).text(s)?;
    answer::give(&[next.at as u64, p.start as u64, p.count as u64], out)
}

// The place after it, then where its units begin and how many they are.
#[unsafe(no_mangle)]
pub extern "C" fn ptp_text(s: &[u8], at: usize, out: &mut [u64]) -> u64
    ensures { Gives (given part_row (text_at s.now at)) out.old result out.new }
{
    answer::told(give_text(s, at, out))
}

fn give_utf8_len(s: &[u8], at: usize, out: &mut [u64]) -> Result<usize, Refusal>
    ensures { Wrote (given number_row (means length (utf8_at s.now at))) out.old (says_count result) out.new }
{
    let (len, next) = (Cursor { at }).utf8_len(s)?;
    answer::give(&[next.at as u64, len as u64], out)
}

// The place after it, and its length in UTF-8.
#[unsafe(no_mangle)]
pub extern "C" fn ptp_utf8_len(s: &[u8], at: usize, out: &mut [u64]) -> u64
    ensures { Gives (given number_row (means length (utf8_at s.now at))) out.old result out.new }
{
    answer::told(give_utf8_len(s, at, out))
}

#[unsafe(no_mangle)]
pub extern "C" fn ptp_utf8(s: &[u8], at: usize, out: &mut [u8]) -> u64
    ensures { Gives (said_of (utf8_at s.now at)) out.old result out.new }
{
    answer::told((Cursor { at }).utf8(s, out))
}
