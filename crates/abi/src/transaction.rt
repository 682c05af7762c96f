// A command made, and its answer found.
ghost use Rattle.layout.specs.Answer.{says_count};
ghost use Rattle.std.specs.Prelude.{◌≡◌, ◌∷◌, length};
ghost use Rattle.layout.specs.Written.{Wrote};
ghost use Rattle.session.specs.Calls.{command_of};
ghost use Rattle.session.specs.Needs.{Needs};
ghost use Rattle.session.specs.Search.{answer_in, reply_from, response_in};
ghost use Rattle.session.specs.Transaction.{Makes, says_made};
ghost use Rattle.wire.specs.Property.{has_enable};
ghost use Rattle.panel.specs.Panel.{panel_said};
ghost use Rattle.abi.specs.Answered.{word, Tells, Gives, given};
ghost use Rattle.abi.specs.Rows.{layout_of, reply_row, response_row};
ghost use Rattle.abi.specs.Sent.{command_due, session_at, number_after, command_end, end_after, Parts};

use crate::{answer, dataset};
use layout::Refusal;
use session::{Found, Made, Response, Session};

fn made(
    number: u32,
    code: u16,
    params: &[u32],
    payload: &[u8],
    with_data: bool,
    out: &mut [u8],
) -> Result<Made, Refusal>
    ensures { Makes (session_at number) code (command_due with_data (command_of code params.now) payload.now) out.old (says_made result) out.new }
{
    let session = Session { number };
    if with_data {
        return session::command_with_data(session, session::command_of(code, params), payload, out);
    }
    session::command(session, session::command_of(code, params), out)
}

// The number of the session after a command, and where the Command ends, or both as they were where it was refused; and the answer's word.
#[derive(Drop)]
struct Said {
    number: u32,
    end: usize,
    word: u64,
}

fn spoken(number: u32, end: usize, params: usize, m: Result<Made, Refusal>) -> Said
    ensures { (result.number ≡ number_after number (says_made m)) × (result.end ≡ end_after end (command_end params) (says_made m)) × (result.word ≡ word (says_made m)) }
{
    match m {
        Ok(made) => Said {
            number: made.next.number,
            end: 12 + 4 * layout::least(params, 5),
            word: answer::told(Ok(made.count)),
        },
        Err(f) => Said {
            number,
            end,
            word: answer::told(Err(f)),
        },
    }
}

// The command, with its data behind it where it has any; `number` is the session's, 0 where it is closed, and that of the session after it on success.
// `end` is where the Command ends then, and its Data begins: two transfers, and two records of a recording.
#[unsafe(no_mangle)]
pub extern "C" fn ptp_command(
    number: &mut u32,
    end: &mut usize,
    code: u16,
    params: &[u32],
    payload: &[u8],
    with_data: bool,
    out: &mut [u8],
) -> u64
    ensures { Tells (Parts number.old end.old code (length params.now) (command_due with_data (command_of code params.now) payload.now) out.old number.new end.new out.new) result }
{
    let s = spoken(
        *number,
        *end,
        params.len(),
        made(*number, code, params, payload, with_data, out),
    );
    *number = s.number;
    *end = s.end;
    s.word
}

// SetDevicePropValue of a value that the description allows, with its data behind it; `number` and `end` as `ptp_command` has them.
#[unsafe(no_mangle)]
pub extern "C" fn ptp_set_value(
    book: bool,
    number: &mut u32,
    end: &mut usize,
    description: &[u8],
    code: u16,
    value: &[u8],
    out: &mut [u8],
) -> u64
    ensures { Tells (Parts number.old end.old 0x1016 1 (panel_said (has_enable (layout_of book)) description.now code value.now) out.old number.new end.new out.new) result }
{
    let session = Session { number: *number };
    let s = spoken(
        *number,
        *end,
        1,
        panel::set_value(dataset::named(book), session, description, code, value, out),
    );
    *number = s.number;
    *end = s.end;
    s.word
}

fn answer_row(found: Found, next: usize) -> [u64; 4]
    ensures { result ≡ next ∷ reply_row (reply_from found) }
{
    match found {
        Found::Payload(p) => [next as u64, 0x2001, p.start as u64, p.count as u64],
        Found::Response(code) => [next as u64, code as u64, 0, 0],
    }
}

fn give_answer(s: &[u8], number: u32, out: &mut [u64]) -> Result<usize, Refusal>
    ensures { Wrote (given reply_row (answer_in number s.now)) out.old (says_count result) out.new }
{
    let (x, next) = session::find_answer(s, number)?;
    answer::give(&answer_row(x, next.at), out)
}

// The place after the Response, its code, and the start and length of the last Data payload.
#[unsafe(no_mangle)]
pub extern "C" fn ptp_find_answer(s: &[u8], number: u32, out: &mut [u64]) -> u64
    ensures { Gives (given reply_row (answer_in number s.now)) out.old result out.new }
{
    answer::told(give_answer(s, number, out))
}

fn response_numbers(x: Response, next: usize) -> [u64; 6]
    ensures { result ≡ next ∷ response_row x }
{
    let last = x.last;
    let payload = x.payload;
    let count = (payload.count / 4) as u64;
    if x.code == 0x2001 {
        return [
            next as u64,
            0x2001,
            last.start as u64,
            last.count as u64,
            payload.start as u64,
            count,
        ];
    }
    [
        next as u64,
        x.code as u64,
        0,
        0,
        payload.start as u64,
        count,
    ]
}

fn give_response(s: &[u8], number: u32, out: &mut [u64]) -> Result<usize, Refusal>
    ensures { Wrote (given response_row (response_in number s.now)) out.old (says_count result) out.new }
{
    let (x, next) = session::find_response(s, number)?;
    answer::give(&response_numbers(x, next.at), out)
}

// The numbers of `ptp_find_answer`; then where the Response's own parameters start, and how many of four bytes there are.
#[unsafe(no_mangle)]
pub extern "C" fn ptp_find_response(s: &[u8], number: u32, out: &mut [u64]) -> u64
    ensures { Gives (given response_row (response_in number s.now)) out.old result out.new }
{
    answer::told(give_response(s, number, out))
}

// How many bytes must follow at least before anything can be said of the answer: 0 where `ptp_find_answer` answers, or refuses with something that no bytes can change.
#[unsafe(no_mangle)]
pub extern "C" fn ptp_needed(s: &[u8], number: u32) -> u64
    ensures { Needs number s.now result }
{
    session::needed(s, number) as u64
}
