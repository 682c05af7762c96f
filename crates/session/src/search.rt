// Looking for a transaction's answer.
ghost use Rattle.wire.specs.Read.{says_read};
ghost use Rattle.std.specs.Prelude.{◌≡◌};
ghost use Rattle.session.specs.Search.{newer, reply_to, answer_in, reply_from, says_found, response_in};
ghost use Rattle.session.specs.Answered.{Ends};

use layout::Refusal;
use wire::{Container, Cursor, Part, Read};

// What the Response told: for Ok where the last Data payload stands, else the Response's code.
#[derive(Drop)]
pub enum Found {
    Payload(Part),
    Response(u16),
}

// A Response: its code, its own payload, and the last Data payload before it, whatever the code.
#[derive(Drop)]
pub struct Response {
    pub code: u16,
    pub payload: Part,
    pub last: Part,
}

// Where a search ends: at a Response, with the last Data payload before it and the place after it; or with a refusal of what starts at a place.
pub(crate) type Ending = Result<(Container, Part, Cursor), (Refusal, usize)>;

// The last Data payload, now that this container was passed.
fn latest(last: Part, x: Container) -> Part
    ensures { result ≡ newer last x }
{
    let payload = x.payload;
    if x.kind == 2 { payload } else { last }
}

fn reply(code: u16, last: Part) -> Found
    ensures { reply_from result ≡ reply_to code last }
{
    if code == 0x2001 {
        Found::Payload(last)
    } else {
        Found::Response(code)
    }
}

// Containers of that number are passed over up to a Response, or to where none of that number stands.
#[tactic(auto, using(crate::proofs::Answered::none_passed, crate::proofs::Answered::ends_none, crate::proofs::Answered::ends_unread, crate::proofs::Answered::ends_another, crate::proofs::Answered::ends_response, crate::proofs::Answered::passed_more, crate::proofs::Answered::goes_on))]
pub(crate) fn search(s: &[u8], number: u32) -> Ending
    ensures { Ends number s.now result }
{
    let mut at: usize = 0;
    let mut last = Part { start: 0, count: 0 };
    // No range: each container says itself where the next one starts.
    while at < s.len() {
        let (x, next) = wire::read_container(s, Cursor { at }).map_err(|f| (f, at))?;
        if x.number != number {
            return Err((layout::plain(layout::TID), at));
        }
        if x.kind == 3 {
            return Ok((x, last, next));
        }
        last = latest(last, x);
        at = next.at;
    }
    Err((layout::plain(layout::NOPHASE), at))
}

// The answer to the command of that number, in containers that lie end to end from the start.
#[tactic(auto, using(crate::proofs::Answered::ended_answer, crate::proofs::Answered::stopped_answer))]
pub fn find_answer(s: &[u8], number: u32) -> Read<Found>
    ensures { says_found result ≡ answer_in number s.now }
{
    let (x, last, next) = search(s, number).map_err(|(f, _)| f)?;
    Ok((reply(x.code, last), next))
}

// The Response to the command of that number, with its own payload, which is its parameters, and the last Data payload before it.
#[tactic(auto, using(crate::proofs::Answered::ended_response, crate::proofs::Answered::stopped_response))]
pub fn find_response(s: &[u8], number: u32) -> Read<Response>
    ensures { says_read result ≡ response_in number s.now }
{
    let (x, last, next) = search(s, number).map_err(|(f, _)| f)?;
    Ok((
        Response {
            code: x.code,
            payload: x.payload,
            last,
        },
        next,
    ))
}
