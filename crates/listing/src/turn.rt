// The turns of a program that lists a recording as it comes: what to write, and then whether to go on, to read or to stop. The program does
// what it is told and reckons nothing: specs/Turn.antt says what a turn is; what a row of turns gives stands in `turns`.
ghost use Rattle.std.specs.Prelude.{◌≡◌, length};
ghost use Rattle.turns.specs.Held.{holds, rest};
ghost use Rattle.turns.specs.Turn.{turn_of};
ghost use Rattle.listing.specs.Window.{window_of, Lists};
ghost use Rattle.listing.specs.Turn.{Turns, begun, joins, turned, stood, state, step_of, lines_turn};

use crate::{Listed, Tally, line};
use turns::{Hold, Next};

// What the next turn writes.
#[derive(Drop)]
pub enum Stage {
    Heading,
    Lines,
    Ending,
}

// What is held of the window is still to be listed.
#[derive(Drop)]
pub struct Stand {
    pub hold: Hold,
    pub stage: Stage,
    pub tally: Tally,
}

// The first `written` bytes of the output are the turn's text.
#[derive(Drop)]
pub struct Turn {
    pub written: usize,
    pub next: Next,
    pub stand: Stand,
}

// Before the first turn.
pub fn start() -> Stand
    ensures { result ≡ begun }
{
    let hold = turns::nothing();
    Stand {
        hold,
        stage: Stage::Heading,
        tally: Tally {
            place: 0,
            records: 0,
        },
    }
}

// After n bytes came where the turn said, or none: the input has ended.
pub fn join(s: Stand, n: usize) -> Stand
    ensures { result ≡ joins s n }
{
    let hold = turns::join(s.hold, n);
    let stage = s.stage;
    let tally = s.tally;
    Stand { hold, stage, tally }
}

fn list_held(
    window: &[u8],
    from: usize,
    held: usize,
    last: bool,
    tally: Tally,
    out: &mut [u8],
) -> Listed
    ensures { Lists (window_of last (length out.old) (rest window.now from held) tally.place tally.records) out.old result out.new }
{
    crate::list_window(turns::rest_of(window, from, held), last, tally, out)
}

fn standing(from: usize, held: usize, ended: bool, stage: Stage, tally: Tally) -> Stand
    ensures { result ≡ stood (holds from held ended) (state stage tally) }
{
    let hold = Hold { from, held, ended };
    Stand { hold, stage, tally }
}

fn answer(written: usize, next: Next, stand: Stand) -> Turn
    ensures { result ≡ turned written next stand }
{
    Turn {
        written,
        next,
        stand,
    }
}

// A turn of lines: those that have room are listed; where none can be, more is to be read after what is left.
fn lines_turn(hold: Hold, tally: Tally, window: &mut [u8; 65536], out: &mut [u8; 65536]) -> Turn
    ensures { Turns (lines_turn window.old hold tally) out.old result window.new out.new }
{
    let held = hold.held;
    let ended = hold.ended;
    let done = list_held(window, hold.from, held, ended, tally, out);
    let from = hold.from + done.used;
    let after = done.tally;
    if done.stopped {
        return answer(
            done.written,
            Next::Again,
            standing(from, held, ended, Stage::Ending, after),
        );
    }
    if done.used > 0 {
        return answer(
            done.written,
            Next::Again,
            standing(from, held, ended, Stage::Lines, after),
        );
    }
    if ended {
        return answer(
            done.written,
            Next::Again,
            standing(from, held, ended, Stage::Ending, after),
        );
    }
    let kept = turns::keep(window, from, held);
    answer(
        done.written,
        Next::Read,
        standing(0, kept, false, Stage::Lines, after),
    )
}

// One turn. Its text stands at the front of the output, whose other bytes are as they were.
pub fn take_turn(s: Stand, window: &mut [u8; 65536], out: &mut [u8; 65536]) -> Turn
    ensures { Turns (turn_of step_of window.old s.hold (state s.stage s.tally)) out.old result window.new out.new }
{
    let hold = s.hold;
    let stage = s.stage;
    let tally = s.tally;
    match stage {
        Stage::Heading => {
            let n = line::put_heading(out);
            answer(
                n,
                Next::Again,
                standing(hold.from, hold.held, hold.ended, Stage::Lines, tally),
            )
        }
        Stage::Lines => lines_turn(hold, tally, window, out),
        Stage::Ending => {
            let n = line::put_ending(tally.records, tally.place, out);
            answer(
                n,
                Next::Stop,
                standing(hold.from, hold.held, hold.ended, Stage::Ending, tally),
            )
        }
    }
}
