// The turns of a program that mends a recording as it comes: what to write and to tell, and then whether to go on, to read or to stop. The
// program does what it is told and reckons nothing: specs/Turn.antt says what a turn is; what a row of turns gives stands in `turns`.
ghost use Rattle.std.specs.Prelude.{◌≡◌, ◌≤◌, length};
ghost use Rattle.layout.specs.Written.{Put};
ghost use Rattle.turns.specs.Held.{holds, rest};
ghost use Rattle.turns.specs.Turn.{turn_of};
ghost use Rattle.mending.specs.Mended.{least};
ghost use Rattle.mending.specs.Window.{window_of, Sweeps};
ghost use Rattle.mending.specs.Turn.{begun, joins, went_on, turned, stood, state, last_line, step_of, Turns};

use crate::{Swept, Tally, report};
use turns::{Hold, Next};

// What is held of the window is still to be mended; so many stretches were told.
#[derive(Drop)]
pub struct Stand {
    pub hold: Hold,
    pub stretches: u64,
    pub tally: Tally,
}

// The first `written` bytes of the output are the turn's, and the first `reported` of the report.
#[derive(Drop)]
pub struct Turn {
    pub written: usize,
    pub reported: usize,
    pub next: Next,
    pub stand: Stand,
}

// Before the first turn.
pub fn begin() -> Stand
    ensures { result ≡ begun }
{
    let hold = turns::nothing();
    let tally = crate::start();
    Stand {
        hold,
        stretches: 0,
        tally,
    }
}

// After n bytes came where the turn said, or none: the input has ended.
pub fn join(s: Stand, n: usize) -> Stand
    ensures { result ≡ joins s n }
{
    let hold = turns::join(s.hold, n);
    let tally = s.tally;
    Stand {
        hold,
        stretches: s.stretches,
        tally,
    }
}

fn standing(from: usize, held: usize, ended: bool, stretches: u64, tally: Tally) -> Stand
    ensures { result ≡ stood (holds from held ended) (state stretches tally) }
{
    let hold = Hold { from, held, ended };
    Stand {
        hold,
        stretches,
        tally,
    }
}

fn answer(written: usize, reported: usize, next: Next, stand: Stand) -> Turn
    ensures { result ≡ turned written reported next stand }
{
    Turn {
        written,
        reported,
        next,
        stand,
    }
}

// Whether bytes were used, or a stretch was told.
fn went_on(used: usize, told: usize) -> bool
    ensures { result ≡ went_on used told }
{
    if 0 < used {
        return true;
    }
    0 < told
}

// Mends what is held.
fn mend_held(
    window: &[u8],
    hold: Hold,
    tally: Tally,
    out: &mut [u8],
    starts: &mut [u64],
    lengths: &mut [u64],
) -> Swept
    ensures { Sweeps (window_of hold.ended (length out.old) (least (length starts.old) (length lengths.old)) (rest window.now hold.from hold.held) tally) out.old starts.old lengths.old result out.new starts.new lengths.new }
{
    crate::mend_window(
        turns::rest_of(window, hold.from, hold.held),
        hold.ended,
        tally,
        out,
        starts,
        lengths,
    )
}

// The last line, of a program that ends here.
fn put_last(stretches: u64, t: Tally, report: &mut [u8]) -> usize
    requires { 140 ≤ length report.old }
    ensures { Put report.old 0 (last_line (state stretches t)) report.new result × (result ≤ length report.old) }
{
    let dropped = t.place.wrapping_sub(t.bytes);
    report::put_counts(t.records, t.bytes, stretches, dropped, report)
}

// One turn. Its bytes stand at the front of the output, its stretches at the fronts of the two lists, and its lines at the front of the report.
pub fn take_turn(
    s: Stand,
    window: &mut [u8; 65536],
    out: &mut [u8; 65536],
    starts: &mut [u64; 1024],
    lengths: &mut [u64; 1024],
    report: &mut [u8; 65536],
) -> Turn
    ensures { Turns (turn_of step_of window.old s.hold (state s.stretches s.tally)) out.old starts.old lengths.old report.old result window.new out.new starts.new lengths.new report.new }
{
    let hold = s.hold;
    let held = hold.held;
    let ended = hold.ended;
    let done = mend_held(window, hold, s.tally, out, starts, lengths);
    let tally = done.tally;
    let from = hold.from + done.used;
    let all = s.stretches.wrapping_add(done.stretches as u64);
    if went_on(done.used, done.stretches) {
        let n = report::put_lines(done.stretches, starts, lengths, report);
        let on = standing(from, held, ended, all, tally);
        return answer(done.written, n, Next::Again, on);
    }
    if ended {
        let n = put_last(all, tally, report);
        let over = standing(hold.from, held, ended, all, tally);
        return answer(done.written, n, Next::Stop, over);
    }
    let kept = turns::keep(window, from, held);
    let more = standing(0, kept, false, all, tally);
    answer(done.written, 0, Next::Read, more)
}
