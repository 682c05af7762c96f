// A recording copied without its notes.
ghost use Rattle.layout.specs.Answer.{says_count};
ghost use Rattle.std.specs.Prelude.{◌≡◌};
ghost use Rattle.abi.specs.Answered.{Tells};
ghost use Rattle.abi.specs.Copied.{unroomed, CopiesInto};

use crate::answer;
use layout::Refusal;

// Into no room: the recording's own refusal, else 9.
fn refuse_copy(s: &[u8]) -> Result<usize, Refusal>
    ensures { says_count result ≡ unroomed s.now }
{
    let mut none: [u8; 0] = [];
    recording::copy_records(s, &mut none)?;
    Err(layout::plain(layout::ROOM))
}

// The copy, and the number of records and of bytes that were left out.
#[unsafe(no_mangle)]
pub extern "C" fn ptp_copy_recording(s: &[u8], out: &mut [u8], left: &mut [u64]) -> u64
    ensures { Tells (CopiesInto s.now out.old left.old out.new left.new) result }
{
    if left.len() < 2 {
        return answer::told(refuse_copy(s));
    }
    match recording::copy_records(s, out) {
        Ok((n, l)) => {
            // two numbers have room
            let _ = answer::give(&[l.records as u64, l.bytes as u64], left);
            answer::told(Ok(n))
        }
        Err(f) => answer::told(Err(f)),
    }
}
