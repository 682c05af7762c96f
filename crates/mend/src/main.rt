// Mends a recording that comes on standard input, of any size: every record that can still be read goes to standard output as it stands, and
// what was dropped is told on standard error, a line a stretch, `PLACE dropped BYTES`; the last line counts both. The buffers are made once and
// lent; `mending` says at each turn what to write and to report and whether to read, and this does so. Where a read or a write fails it stops:
// so what stands on standard output is the whole mended recording exactly where the last line is told.
#![tactic(auto)]

ghost use Rattle.std.specs.Prelude.{◌≤◌, length, ⊤};

use mending::Stand;
use std::process::ExitCode;
use stream::{Stopped, Turns};
use turns::Next;

// Room for the stretches of a turn.
fn stretch_room() -> [u64; 1024] {
    [0; 1024]
}

// Reads what comes after the bytes that are held.
fn read_on(rt: &HostRuntime, s: Stand, window: &mut [u8]) -> Result<Stand, Stopped>
    requires { s.hold.held ≤ length window.old }
{
    let held = s.hold.held;
    let n = stream::read_some(
        &mut rt.stdin(),
        &mut window[held..],
        b"mend: reading standard input",
        &rt.stderr(),
    )?;
    Ok(mending::join(s, n))
}

// Writes a turn's bytes.
fn show(rt: &HostRuntime, out: &[u8], n: usize) -> Result<(), Stopped>
    requires { n ≤ length out.now }
{
    stream::write_all(
        &mut rt.stdout(),
        &out[..n],
        b"mend: writing standard output",
        &rt.stderr(),
    )
}

// Tells a turn's lines, after its bytes are written.
fn tell(rt: &HostRuntime, report: &[u8], n: usize) -> Result<(), Stopped>
    requires { n ≤ length report.now }
{
    stream::write_all(
        &mut rt.stderr(),
        &report[..n],
        b"mend: writing standard error",
        &rt.stderr(),
    )
}

// What a turn is taken with, made once and lent.
#[derive(Drop)]
struct Mender<'a> {
    rt: &'a HostRuntime,
    window: &'a mut [u8; 65536],
    out: &'a mut [u8; 65536],
    starts: &'a mut [u64; 1024],
    lengths: &'a mut [u64; 1024],
    report: &'a mut [u8; 65536],
}

impl Turns for Mender<'_> {
    type Stand = Stand;

    // Any: a read or a write may fail or not, which no contract can say.
    ghost answers = { λ _ _ _. ⊤ };

    fn take_turn(&mut self, s: Stand) -> Result<Option<Stand>, Stopped> {
        let turn = mending::take_turn(
            s,
            self.window,
            self.out,
            self.starts,
            self.lengths,
            self.report,
        );
        show(self.rt, self.out, turn.written)?;
        tell(self.rt, self.report, turn.reported)?;
        let next = turn.next;
        let stand = turn.stand;
        match next {
            Next::Again => Ok(Some(stand)),
            Next::Read => read_on(self.rt, stand, self.window).map(Some),
            Next::Stop => Ok(None),
        }
    }
}

fn main(rt: HostRuntime) -> ExitCode {
    let mut window = io::large_buffer();
    let mut out = io::large_buffer();
    let mut starts = stretch_room();
    let mut lengths = stretch_room();
    let mut report = io::large_buffer();
    let turns = Mender {
        rt: &rt,
        window: &mut window,
        out: &mut out,
        starts: &mut starts,
        lengths: &mut lengths,
        report: &mut report,
    };
    stream::run(turns, mending::begin())
}
