// Lists a recording that comes on standard input, of any size. Two buffers are made once and lent; `listing` says at each turn what to write
// and whether to read, and this does so. Where a read or a write fails it stops: so the last line stands exactly where the input was read to
// its end, or to a refused record, and every line before it was written.
#![tactic(auto)]

ghost use Rattle.std.specs.Prelude.{◌≤◌, length, ⊤};

use listing::Stand;
use std::process::ExitCode;
use stream::{Stopped, Turns};
use turns::Next;

// Reads what comes after the bytes that are held.
fn read_on(rt: &HostRuntime, s: Stand, window: &mut [u8]) -> Result<Stand, Stopped>
    requires { s.hold.held ≤ length window.old }
{
    let held = s.hold.held;
    let n = stream::read_some(
        &mut rt.stdin(),
        &mut window[held..],
        b"list: reading standard input",
        &rt.stderr(),
    )?;
    Ok(listing::join(s, n))
}

// Writes a turn's text.
fn show(rt: &HostRuntime, out: &[u8], n: usize) -> Result<(), Stopped>
    requires { n ≤ length out.now }
{
    stream::write_all(
        &mut rt.stdout(),
        &out[..n],
        b"list: writing standard output",
        &rt.stderr(),
    )
}

// What a turn is taken with, made once and lent.
// The window has room for the longest record, 65,006 bytes, with 530 to spare: one that still waits in a full window would be taken for the
// input's end.
#[derive(Drop)]
struct Lister<'a> {
    rt: &'a HostRuntime,
    window: &'a mut [u8; 65536],
    out: &'a mut [u8; 65536],
}

impl Turns for Lister<'_> {
    type Stand = Stand;

    // Any: a read or a write may fail or not, which no contract can say.
    ghost answers = { λ _ _ _. ⊤ };

    fn take_turn(&mut self, s: Stand) -> Result<Option<Stand>, Stopped> {
        let turn = listing::take_turn(s, self.window, self.out);
        show(self.rt, self.out, turn.written)?;
        let next = turn.next;
        let stand = turn.stand;
        match next {
            Next::Again => Ok(Some(stand)),
            Next::Read => read_on(self.rt, stand, self.window).map(Some),
            Next::Stop => Ok(None),
        }
    }
}

fn main(rt: HostRuntime) -> ExitCode {
    let mut window = io::large_buffer();
    let mut out = io::large_buffer();
    let turns = Lister {
        rt: &rt,
        window: &mut window,
        out: &mut out,
    };
    stream::run(turns, listing::start())
}
