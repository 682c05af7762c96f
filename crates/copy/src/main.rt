// Copies a recording that comes on standard input, of any size, to standard output without its notes. The buffers are made once and lent;
// `copying` says at each turn what to write and to report and whether to read, and this does so. One line on standard error says what was left
// out, or which record is refused: where a read or a write fails there is none, so what stands on standard output is the whole copy exactly
// where that line begins `left out`.
#![tactic(auto)]

ghost use Rattle.std.specs.Prelude.{◌≤◌, length, ⊤};

use copying::Stand;
use std::process::ExitCode;
use stream::{Stopped, Turns};
use turns::Next;

// Reads what comes after the bytes that are held.
fn read_on(rt: &HostRuntime, s: Stand, window: &mut [u8]) -> Result<Stand, Stopped>
    requires { s.hold.held ≤ length window.old }
{
    let held = s.hold.held;
    let n = stream::read_some(
        &mut rt.stdin(),
        &mut window[held..],
        b"copy: reading standard input",
        &rt.stderr(),
    )?;
    Ok(copying::join(s, n))
}

// Writes a turn's bytes.
fn show(rt: &HostRuntime, out: &[u8], n: usize) -> Result<(), Stopped>
    requires { n ≤ length out.now }
{
    stream::write_all(
        &mut rt.stdout(),
        &out[..n],
        b"copy: writing standard output",
        &rt.stderr(),
    )
}

// Tells a turn's line, if there is one, after its bytes are written.
fn tell(rt: &HostRuntime, report: &[u8], n: usize) -> Result<(), Stopped>
    requires { n ≤ length report.now }
{
    stream::write_all(
        &mut rt.stderr(),
        &report[..n],
        b"copy: writing standard error",
        &rt.stderr(),
    )
}

// What a turn is taken with, made once and lent.
#[derive(Drop)]
struct Copier<'a> {
    rt: &'a HostRuntime,
    window: &'a mut [u8; 65536],
    out: &'a mut [u8; 65536],
    report: &'a mut [u8; 128],
}

impl Turns for Copier<'_> {
    type Stand = Stand;

    // Any: a read or a write may fail or not, which no contract can say.
    ghost answers = { λ _ _ _. ⊤ };

    fn take_turn(&mut self, s: Stand) -> Result<Option<Stand>, Stopped> {
        let turn = copying::take_turn(s, self.window, self.out, self.report);
        show(self.rt, self.out, turn.written)?;
        tell(self.rt, self.report, turn.reported)?;
        let next = turn.next;
        let stand = turn.stand;
        match next {
            Next::Again => Ok(Some(stand)),
            Next::Read => read_on(self.rt, stand, self.window).map(Some),
            Next::Stop => Ok(None),
        }
    }
}

fn main(rt: HostRuntime) -> ExitCode {
    let mut window = io::large_buffer();
    let mut out = io::large_buffer();
    let mut report = [0u8; 128];
    let turns = Copier {
        rt: &rt,
        window: &mut window,
        out: &mut out,
        report: &mut report,
    };
    stream::run(turns, copying::begin())
}
