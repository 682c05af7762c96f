// A damaged recording mended.
ghost use Rattle.abi.specs.Answered.{Tells};
ghost use Rattle.abi.specs.Mended.{MendsCounted};

use crate::answer;

// The kept records go to `out`, the dropped stretches by start and length to `starts` and `lengths`; the answer is how many bytes were written,
// and the number at the front of `counts` how many stretches.
#[unsafe(no_mangle)]
pub extern "C" fn ptp_mend_recording(
    s: &[u8],
    out: &mut [u8],
    starts: &mut [u64],
    lengths: &mut [u64],
    counts: &mut [u64],
) -> u64
    ensures { Tells (MendsCounted s.now out.old starts.old lengths.old counts.old out.new starts.new lengths.new counts.new) result }
{
    if counts.len() == 0 {
        return answer::told(Err(layout::plain(layout::ROOM)));
    }
    match mending::mend(s, out, starts, lengths) {
        Ok((n, stretches)) => {
            counts[0] = stretches as u64;
            answer::told(Ok(n))
        }
        Err(f) => answer::told(Err(f)),
    }
}
