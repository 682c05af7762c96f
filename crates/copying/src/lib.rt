// The turns of a program that copies a recording as it comes, without its notes: what to write, and then whether to go on, to read or to stop.
// The program does what it is told and reckons nothing: specs/Turn.antt says what a turn is; what a row of turns gives stands in `turns`.
#![tactic(auto)]

ghost use Rattle.std.specs.Prelude.{◌≡◌, nat_lt};
ghost use Rattle.layout.specs.Answer.{pick};
ghost use Rattle.turns.specs.Held.{holds, rest};
ghost use Rattle.turns.specs.Turn.{turn_of};
ghost use Rattle.recording.specs.Copied.{CopiesFront};
ghost use Rattle.copying.specs.Turn.{begun, joins, outcome_of, passed, turned, stood, step_of, Turns};

mod report;

use layout::Refusal;
use recording::{Front, Left, ReadFront};
use turns::{Hold, Next};

// How far the copy has come: the place of the next record, and what was left out before it, records and their bytes.
#[derive(Clone, Copy)]
pub struct Tally {
    pub place: u64,
    pub records: u64,
    pub bytes: u64,
}

// How it ended, if it has: with the recording, or at a record that is refused.
#[derive(Drop)]
enum Fate {
    Going,
    Whole,
    Refused(Refusal),
}

// What is held of the window is still to be copied.
#[derive(Drop)]
pub struct Stand {
    pub hold: Hold,
    pub tally: Tally,
}

// The first `written` bytes of the output are the turn's, and the first `reported` of the report.
#[derive(Drop)]
pub struct Turn {
    pub written: usize,
    pub reported: usize,
    pub next: Next,
    pub stand: Stand,
}

// Before the first turn.
pub fn begin() -> Stand
    ensures { result ≡ begun }
{
    let hold = turns::nothing();
    Stand {
        hold,
        tally: Tally {
            place: 0,
            records: 0,
            bytes: 0,
        },
    }
}

// After n bytes came where the turn said, or none: the input has ended.
pub fn join(s: Stand, n: usize) -> Stand
    ensures { result ≡ joins s n }
{
    let hold = turns::join(s.hold, n);
    let tally = s.tally;
    Stand { hold, tally }
}

// Of bytes at whose front no whole record stands: whether bytes that follow may change that, and how the copy ends if they do not.
#[derive(Drop)]
struct Outcome {
    waits: bool,
    fate: Fate,
}

fn fate_of(size: usize, f: Refusal) -> Fate
    ensures { result ≡ pick (nat_lt 0 size) (Fate.Refused f) Fate.Whole }
{
    if size == 0 {
        return Fate::Whole;
    }
    Fate::Refused(f)
}

fn look(s: &[u8], last: bool) -> Outcome
    ensures { result ≡ outcome_of last s.now }
{
    match recording::read_front(s, last) {
        ReadFront::Got(_, _) => Outcome {
            waits: false,
            fate: Fate::Going,
        },
        ReadFront::Refused(f) => Outcome {
            waits: false,
            fate: fate_of(s.len(), f),
        },
        ReadFront::Cut(f) => Outcome {
            waits: true,
            fate: fate_of(s.len(), f),
        },
    }
}

// Past n bytes, of which so much was left out.
fn past(t: Tally, n: usize, left: Left) -> Tally
    ensures { result ≡ passed t n left }
{
    Tally {
        place: t.place.wrapping_add(n as u64),
        records: t.records.wrapping_add(left.records as u64),
        bytes: t.bytes.wrapping_add(left.bytes as u64),
    }
}

fn standing(from: usize, held: usize, ended: bool, tally: Tally) -> Stand
    ensures { result ≡ stood (holds from held ended) tally }
{
    let hold = Hold { from, held, ended };
    Stand { hold, tally }
}

fn answer(written: usize, reported: usize, next: Next, stand: Stand) -> Turn
    ensures { result ≡ turned written reported next stand }
{
    Turn {
        written,
        reported,
        next,
        stand,
    }
}

fn copy_held(window: &[u8], hold: Hold, out: &mut [u8]) -> Front
    ensures { CopiesFront (rest window.now hold.from hold.held) out.old result out.new }
{
    recording::copy_front(turns::rest_of(window, hold.from, hold.held), out)
}

fn look_held(window: &[u8], hold: Hold) -> Outcome
    ensures { result ≡ outcome_of hold.ended (rest window.now hold.from hold.held) }
{
    look(turns::rest_of(window, hold.from, hold.held), hold.ended)
}

// One turn. Its bytes stand at the front of the output, which has room for all that is held, and the line that it reports, if any, at the
// front of the report. All their other bytes are as they were.
pub fn take_turn(
    s: Stand,
    window: &mut [u8; 65536],
    out: &mut [u8; 65536],
    report: &mut [u8; 128],
) -> Turn
    ensures { Turns (turn_of step_of window.old s.hold s.tally) out.old report.old result window.new out.new report.new }
{
    let hold = s.hold;
    let front = copy_held(window, hold, out);
    let used = front.used;
    let Ok((n, left)) = front.copied else {
        return answer(0, 0, Next::Stop, s);
    };
    let tally = past(s.tally, used, left);
    let from = hold.from + used;
    if 0 < used {
        let on = standing(from, hold.held, hold.ended, tally);
        return answer(n, 0, Next::Again, on);
    }
    let seen = look_held(window, hold);
    if seen.waits {
        let kept = turns::keep(window, from, hold.held);
        return answer(n, 0, Next::Read, standing(0, kept, false, tally));
    }
    let fate = seen.fate;
    let told = report::put_line(fate, tally, report);
    let over = standing(hold.from, hold.held, hold.ended, tally);
    answer(n, told, Next::Stop, over)
}
