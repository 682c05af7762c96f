// The listing of a recording, window by window.
ghost use Rattle.std.specs.Prelude.{length};
ghost use Rattle.layout.specs.Written.{says};
ghost use Rattle.listing.specs.Lines.{heading, ending};
ghost use Rattle.listing.specs.Window.{window_of};
ghost use Rattle.abi.specs.Answered.{Tells, Gives};
ghost use Rattle.abi.specs.Listed.{ListsInto};

use crate::answer;
use listing::Tally;

#[unsafe(no_mangle)]
pub extern "C" fn ptp_write_heading(out: &mut [u8]) -> u64
    ensures { Gives (says heading) out.old result out.new }
{
    answer::told(listing::write_heading(out))
}

// The lines of the window's whole records, as many as have room; `last` says that the recording ends with the window. The numbers are: the bytes
// used of the window, the place and the number of records after it, and whether a refusal ended the listing.
#[unsafe(no_mangle)]
pub extern "C" fn ptp_list_window(
    s: &[u8],
    last: bool,
    place: u64,
    records: u64,
    out: &mut [u8],
    counts: &mut [u64],
) -> u64
    ensures { Tells (ListsInto (window_of last (length out.old) s.now place records) out.old counts.old out.new counts.new) result }
{
    if counts.len() < 4 {
        return answer::told(Err(layout::plain(layout::ROOM)));
    }
    let w = listing::list_window(s, last, Tally { place, records }, out);
    let after = w.tally;
    // four numbers have room
    let _ = answer::give(
        &[w.used as u64, after.place, after.records, w.stopped as u64],
        counts,
    );
    answer::told(Ok(w.written))
}

// The last line: so many whole records, and their bytes.
#[unsafe(no_mangle)]
pub extern "C" fn ptp_write_ending(records: u64, place: u64, out: &mut [u8]) -> u64
    ensures { Gives (says (ending records place)) out.old result out.new }
{
    answer::told(listing::write_ending(Tally { place, records }, out))
}
