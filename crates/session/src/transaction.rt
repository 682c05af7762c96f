// Transactions: a command that is made uses the session's number, or 0 where it opens one, and hands on the session after it.
ghost use Rattle.layout.specs.Answer.{says_count};
ghost use Rattle.std.specs.Prelude.{◌≡◌};
ghost use Rattle.layout.specs.Answer.{means};
ghost use Rattle.layout.specs.Written.{Wrote};
ghost use Rattle.wire.specs.Container.{command_said};
ghost use Rattle.session.specs.Transaction.{fresh_session, number_sent, turn, with_data, Makes, says_made};

use layout::Refusal;
use wire::Command;

const OPEN_SESSION: u16 = 0x1002;

const CLOSE_SESSION: u16 = 0x1003;

const LAST_NUMBER: u32 = 4_294_967_294;

// Closed where its number is 0.
#[derive(Drop)]
pub struct Session {
    pub number: u32,
}

// The number that the command uses, the session after it, and how many bytes were written.
// A refused command uses none: the session stays as it was.
#[derive(Drop)]
pub struct Made {
    pub number: u32,
    pub next: Session,
    pub count: usize,
}

pub fn fresh() -> Session
    ensures { result ≡ fresh_session }
{
    Session { number: 0 }
}

fn number_sent(state: u32, code: u16) -> u32
    ensures { result ≡ number_sent state code }
{
    if code == OPEN_SESSION { 0 } else { state }
}

#[tactic(auto, unfolding(crate::specs::Transaction::next_number))]
fn following(session: Session, code: u16) -> Session
    ensures { result ≡ (turn session code).next }
{
    if code == OPEN_SESSION {
        return Session { number: 1 };
    }
    if session.number == 0 {
        return session;
    }
    if code == CLOSE_SESSION {
        return fresh();
    }
    if session.number < LAST_NUMBER {
        return Session {
            number: session.number + 1,
        };
    }
    Session { number: 1 }
}

// What was written, as a command made.
#[tactic(auto, unfolding(layout::specs::Answer::means))]
fn with_turn(session: Session, code: u16, w: Result<usize, Refusal>) -> Result<Made, Refusal>
    ensures { says_made result ≡ means (λ _. turn session code) (says_count w) }
{
    let count = w?;
    Ok(Made {
        number: number_sent(session.number, code),
        next: following(session, code),
        count,
    })
}

pub fn command(session: Session, c: Command, out: &mut [u8]) -> Result<Made, Refusal>
    ensures { Makes session c.code (command_said c) out.old (says_made result) out.new }
{
    let code = c.code;
    let number = number_sent(session.number, code);
    with_turn(session, code, wire::write_command(c, number, out))
}

// The command's bytes are made apart, and its data are written first where they are to stand:
// so each refusal comes in its order, before a byte of the output is changed.
fn write_both(c: Command, number: u32, payload: &[u8], out: &mut [u8]) -> Result<usize, Refusal>
    ensures { Wrote (with_data c payload.now number) out.old (says_count result) out.new }
{
    let code = c.code;
    let mut front = [0u8; 32];
    let n = wire::write_command(c, number, &mut front)?;
    let start = layout::least(n, out.len());
    let m = wire::write_container(2, code, number, payload, &mut out[start..])?;
    Ok(layout::copy(&front, 0, n, out, 0) + m)
}

// The command, and its data behind it.
pub fn command_with_data(
    session: Session,
    c: Command,
    payload: &[u8],
    out: &mut [u8],
) -> Result<Made, Refusal>
    ensures { Makes session c.code (with_data c payload.now) out.old (says_made result) out.new }
{
    let code = c.code;
    let number = number_sent(session.number, code);
    with_turn(session, code, write_both(c, number, payload, out))
}
