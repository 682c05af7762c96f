// Reading and writing where every failure is told. A call that a signal interrupted is made again, and a write that took less goes on with
// the rest. Of any other failure one sentence goes to where failures are told, what failed and the system's text for why, and the caller stops;
// but a reader that has gone away is not told of, as `cat` does not. What is read and written no contract can say.
#![tactic(auto)]

ghost use Rattle.stream.specs.Came.{within, at_once, EndsBy};
ghost use Rattle.std.specs.Prelude.{◌<◌, ◌≤◌, length, is_ok, IfOk, Option};
ghost use Rattle.std.specs.declared.result.Result.{Result};
ghost use Rattle.stream.specs.declared.Stopped.{Stopped};

mod reason;

use reason::Reason;
use std::io::{Error, ErrorKind, Print, Read, Write};
use std::process::ExitCode;

// Why a program stops: a read or a write failed, which is told; or the reader has gone away, which is not.
#[derive(Clone, Copy, PartialEq, Eq, Debug, Drop)]
pub enum Stopped {
    Failed,
    Gone,
}

// What a program ends with where its reader has gone away. To a shell it is then as one that the signal SIGPIPE ended: a program does not get
// that signal, so that the write fails in its place.
pub const GONE: u8 = 141;

// Reads what comes, as much as has room: so many bytes at its front, none where the input has ended. `what` begins the sentence on a failure,
// which goes to `told`.
pub fn read_some<R: Read, P: Print>(
    from: &mut R,
    room: &mut [u8],
    what: &[u8],
    told: &P,
) -> Result<usize, Stopped>
    ensures { within (length room.old) result }
{
    // A bound that no run reaches, though signals interrupt the call: a loop must have one.
    for _ in 0..u64::MAX {
        match from.read(room) {
            Ok(n) => return Ok(n),
            Err(e) => {
                if e.kind() != ErrorKind::Interrupted {
                    fail(what, &e, told);
                    return Err(Stopped::Failed);
                }
            }
        }
    }
    Err(Stopped::Failed)
}

// Tells of a failure. Where that cannot be written either, nobody is there to be told.
fn fail<P: Print>(what: &[u8], error: &Error, told: &P) {
    let reason = Reason::of(error);
    let _ = told.write_all(what);
    let _ = told.write_all(b": ");
    let _ = told.write_all(reason.text());
    let _ = told.write_all(b"\n");
}

// Tells of a write that took nothing and said no reason.
fn tell_of_none<P: Print>(what: &[u8], told: &P) {
    let _ = told.write_all(what);
    let _ = told.write_all(b": nothing was taken\n");
}

// One write: how many bytes it took, or how it failed, which is told.
fn write_some<W: Write, P: Print>(
    to: &mut W,
    bytes: &[u8],
    what: &[u8],
    told: &P,
) -> Result<usize, Stopped>
    ensures { IfOk result (λ n. (0 < n) × (n ≤ length bytes.now)) }
{
    // A bound that no run reaches, though signals interrupt the call: a loop must have one.
    for _ in 0..u64::MAX {
        match to.write(bytes) {
            Ok(n) => {
                if n == 0 {
                    tell_of_none(what, told);
                    return Err(Stopped::Failed);
                }
                return Ok(n);
            }
            Err(e) => {
                let kind = e.kind();
                if kind == ErrorKind::BrokenPipe {
                    return Err(Stopped::Gone);
                }
                if kind != ErrorKind::Interrupted {
                    fail(what, &e, told);
                    return Err(Stopped::Failed);
                }
            }
        }
    }
    Err(Stopped::Failed)
}

// Writes all of the bytes, or says why not. `what` begins the sentence on a failure, which goes to `told`.
pub fn write_all<W: Write, P: Print>(
    to: &mut W,
    bytes: &[u8],
    what: &[u8],
    told: &P,
) -> Result<(), Stopped>
    ensures { at_once bytes.now (is_ok result) }
{
    // Counted by hand: each write says itself how far it comes.
    let mut done = 0;
    while done < bytes.len() {
        done += write_some(to, &bytes[done..], what, told)?;
    }
    Ok(())
}

// What takes a program's turns, and holds what is lent for them.
pub trait Turns: Drop {
    // Where a program stands between two turns.
    type Stand: Drop;

    // The answers that a turn may give, by what takes it and where it begins.
    ghost answers: { Self → Self.Stand → Result (Option Self.Stand) Stopped → Type 0 };

    // One turn: where the next one begins, none where it was the last, or why the program stops.
    fn take_turn(&mut self, stand: Self::Stand) -> Result<Option<Self::Stand>, Stopped>
        ensures { answers self.old stand result };
}

// Takes turns from a stand on, each from what the one before it gave, until one gives none or stops, and answers what the program ends with.
pub fn run<T: Turns>(mut turns: T, start: T::Stand) -> ExitCode
    ensures { EndsBy T.answers result }
{
    let mut stand = start;
    // A bound that no run reaches: a loop must have one.
    for _ in 0..u64::MAX {
        match turns.take_turn(stand) {
            Ok(Some(next)) => stand = next,
            Ok(None) | Err(Stopped::Failed) => return ExitCode::SUCCESS,
            Err(Stopped::Gone) => return ExitCode::from(GONE),
        }
    }
    ExitCode::SUCCESS
}
