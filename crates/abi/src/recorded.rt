// A recording as a whole.
ghost use Rattle.layout.specs.Answer.{says_count};
ghost use Rattle.std.specs.Prelude.{length};
ghost use Rattle.layout.specs.Answer.{means};
ghost use Rattle.layout.specs.Written.{Wrote};
ghost use Rattle.recording.specs.Row.{row_of};
ghost use Rattle.abi.specs.Answered.{Gives};
ghost use Rattle.abi.specs.Recorded.{counted};

use crate::answer;
use layout::Refusal;

fn give_records(s: &[u8], out: &mut [u64]) -> Result<usize, Refusal>
    ensures { Wrote (counted (means length (row_of s.now))) out.old (says_count result) out.new }
{
    let (n, _) = recording::read_recording(s)?;
    answer::give(&[n as u64], out)
}

// How many records there are, from end to end.
#[unsafe(no_mangle)]
pub extern "C" fn ptp_read_recording(s: &[u8], out: &mut [u64]) -> u64
    ensures { Gives (counted (means length (row_of s.now))) out.old result out.new }
{
    answer::told(give_records(s, out))
}
