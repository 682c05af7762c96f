// The payloads of camera calls that must be filled: 3 where bytes follow.
ghost use Rattle.layout.specs.Answer.{says_count};
ghost use Rattle.layout.specs.Written.{Wrote};
ghost use Rattle.session.specs.Payloads.{handles_payload, count_payload, storage_payload};
ghost use Rattle.abi.specs.Answered.{Gives, given};
ghost use Rattle.abi.specs.Rows.{fields_row, number_row, part_row};

use crate::{answer, dataset};
use layout::Refusal;

fn give_handles(s: &[u8], out: &mut [u64]) -> Result<usize, Refusal>
    ensures { Wrote (given part_row (handles_payload s.now)) out.old (says_count result) out.new }
{
    let (p, next) = session::object_handles(s)?;
    answer::give(&[next.at as u64, p.start as u64, p.count as u64], out)
}

// Handles or storage IDs: the place after them, then where they begin, four bytes each, and how many they are.
#[unsafe(no_mangle)]
pub extern "C" fn ptp_handles(s: &[u8], out: &mut [u64]) -> u64
    ensures { Gives (given part_row (handles_payload s.now)) out.old result out.new }
{
    answer::told(give_handles(s, out))
}

fn give_count(s: &[u8], out: &mut [u64]) -> Result<usize, Refusal>
    ensures { Wrote (given number_row (count_payload s.now)) out.old (says_count result) out.new }
{
    let (n, next) = session::object_count(s)?;
    answer::give(&[next.at as u64, n as u64], out)
}

// The place after it, and the number of objects.
#[unsafe(no_mangle)]
pub extern "C" fn ptp_object_count(s: &[u8], out: &mut [u64]) -> u64
    ensures { Gives (given number_row (count_payload s.now)) out.old result out.new }
{
    answer::told(give_count(s, out))
}

// A storage record that fills the bytes, as `ptp_storage_info` gives it.
#[unsafe(no_mangle)]
pub extern "C" fn ptp_storage_payload(s: &[u8], out: &mut [u64]) -> u64
    ensures { Gives (given fields_row (storage_payload s.now)) out.old result out.new }
{
    dataset::storage(&*s, true, out)
}
