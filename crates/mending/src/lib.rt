// A damaged recording, mended: every record that can still be read is kept as it stands, and what was dropped is told by place and length.
// What is right stands in specs/.
#![tactic(auto)]

ghost use Rattle.std.specs.Prelude.{◌≡◌, ◌-◌, length};
ghost use Rattle.mending.specs.Mended.{mend_said, stretch, dropped_of, Mends, says_mended};

mod report;
mod search;
mod turn;
mod window;

use layout::Refusal;
pub use turn::{Stand, Turn, begin, join, take_turn};
pub use window::{Swept, Tally, mend_window, start};

// How many bytes come out, and how many stretches are told.
#[derive(Drop)]
struct Need {
    bytes: usize,
    stretches: usize,
}

// None or one, for the bytes from a place up to another.
fn stretches_in(from: usize, to: usize) -> usize
    ensures { result ≡ length (stretch to (to - from)) }
{
    if from < to { 1 } else { 0 }
}

// The first pass: a stretch and the records behind it, at each turn.
fn mend_need(s: &[u8]) -> Need
    ensures { (result.bytes ≡ length (mend_said s.now)) × (result.stretches ≡ length (dropped_of s.now)) }
{
    let mut at = 0;
    let mut bytes = 0;
    let mut stretches = 0;
    // No range: each stretch says itself where the next one starts.
    while at < s.len() {
        let gap = search::gap_end(s, at, true);
        stretches += stretches_in(at, gap);
        let run = search::run_end(s, gap, s.len());
        bytes += run.end - gap;
        at = run.end;
    }
    Need { bytes, stretches }
}

// Mends the recording: the kept records at the front of `out`, the dropped stretches by start and length at the fronts of `starts` and `lengths`.
pub fn mend(
    s: &[u8],
    out: &mut [u8],
    starts: &mut [u64],
    lengths: &mut [u64],
) -> Result<(usize, usize), Refusal>
    ensures { Mends s.now out.old starts.old lengths.old (says_mended result) out.new starts.new lengths.new }
{
    let need = mend_need(s);
    if out.len() < need.bytes {
        return Err(layout::plain(layout::ROOM));
    }
    if layout::least(starts.len(), lengths.len()) < need.stretches {
        return Err(layout::plain(layout::ROOM));
    }
    let done = window::sweep(s, true, window::start(), out, starts, lengths);
    Ok((done.written, done.stretches))
}
