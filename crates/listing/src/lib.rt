// The listing of a recording, window by window. What is printed stands in specs/.
#![tactic(auto)]

ghost use Rattle.layout.specs.Answer.{says_count};
ghost use Rattle.std.specs.Prelude.{◌≡◌, length};
ghost use Rattle.layout.specs.Written.{Wrote, says};
ghost use Rattle.names.specs.Names.{name_bytes};
ghost use Rattle.listing.specs.Lines.{heading, ending};
ghost use Rattle.listing.specs.Window.{answered, window_of, Lists};

mod decimal;
mod line;
mod turn;

use layout::Refusal;
use recording::ReadFront;
pub use turn::{Stage, Stand, Turn, join, start, take_turn};

// How far the listing has come: the place of the next record, and the whole records before it.
#[derive(Drop)]
pub struct Tally {
    pub place: u64,
    pub records: u64,
}

// What was listed of a window: the bytes used of it and written of the output, and whether a refusal ended the listing.
#[derive(Drop)]
pub struct Listed {
    pub used: usize,
    pub written: usize,
    pub tally: Tally,
    pub stopped: bool,
}

// Room that any line has.
const LINE_ROOM: usize = 128;

// The first line.
pub fn write_heading(out: &mut [u8]) -> Result<usize, Refusal>
    ensures { Wrote (says heading) out.old (says_count result) out.new }
{
    if out.len() < 30 {
        return Err(layout::plain(layout::ROOM));
    }
    Ok(line::put_heading(out))
}

fn answer(used: usize, written: usize, place: u64, records: u64, stopped: bool) -> Listed
    ensures { result ≡ answered used written place records stopped }
{
    Listed {
        used,
        written,
        tally: Tally { place, records },
        stopped,
    }
}

fn list_from(s: &[u8], last: bool, start: u64, count: u64, names: &[u8], out: &mut [u8]) -> Listed
    requires { names.now ≡ name_bytes }
    ensures { Lists (window_of last (length out.old) s.now start count) out.old result out.new }
{
    let mut used = 0;
    let mut written = 0;
    let mut place = start;
    let mut records = count;
    // No range: each record says itself where the next one starts.
    while out.len() - written >= LINE_ROOM {
        let part = &s[used..];
        match recording::read_front(part, last) {
            ReadFront::Got(x, next) => {
                let taken = next.at;
                written = line::put_record(place, x, names, out, written);
                used += taken;
                place = std::num::wrapping_add_u64(place, taken as u64);
                records = std::num::wrapping_add_u64(records, 1);
            }
            ReadFront::Cut(_) => {
                return answer(used, written, place, records, false);
            }
            ReadFront::Refused(f) => {
                if part.len() == 0 {
                    return answer(used, written, place, records, false);
                }
                written = text::put_refusal(place, f, out, written);
                return answer(used, written, place, records, true);
            }
        }
    }
    answer(used, written, place, records, false)
}

// Lists the whole records of a window of the recording, as long as 128 bytes of room are left. `last` says that the input ends with the
// window: then a record that is cut is refused, and else it waits for more bytes.
// With less than 128 bytes of room it lists nothing and refuses nothing: room that is used up is how a long listing goes on, in the next
// call's output, and a caller with room for no line at all sees that nothing was used.
pub fn list_window(s: &[u8], last: bool, from: Tally, out: &mut [u8]) -> Listed
    ensures { Lists (window_of last (length out.old) s.now from.place from.records) out.old result out.new }
{
    let names = names::name_bytes();
    list_from(s, last, from.place, from.records, &names, out)
}

// The last line: the whole records and their bytes.
pub fn write_ending(tally: Tally, out: &mut [u8]) -> Result<usize, Refusal>
    ensures { Wrote (says (ending tally.records tally.place)) out.old (says_count result) out.new }
{
    let mut text = [0u8; 64];
    let n = line::put_ending(tally.records, tally.place, &mut text);
    if out.len() < n {
        return Err(layout::plain(layout::ROOM));
    }
    Ok(layout::copy(&text[..n], 0, n, out, 0))
}
