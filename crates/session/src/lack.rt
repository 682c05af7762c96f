// How many bytes an answer still needs.
ghost use Rattle.std.specs.Prelude.{◌≡◌, ◌-◌, true, length, drop, ◌==◌, Err};
ghost use Rattle.layout.specs.Answer.{pick};
ghost use Rattle.layout.specs.Refusals.{END, SIZE};
ghost use Rattle.session.specs.Answered.{Ends};
ghost use Rattle.session.specs.Needs.{Cut, Lacks, Needs, whole_in};

use crate::search;
use layout::Refusal;
use wire::{Cursor, Header};

// The six bytes of a container that have its kind.
const KIND_END: usize = 6;

const HEADER: usize = 12;

// Of a container whose header is cut: how many bytes there are up to its end.
#[tactic(auto, using(crate::proofs::NeedsRead::cut_size, crate::proofs::NeedsRead::short_whole, crate::proofs::NeedsRead::long_whole, crate::proofs::NeedsRead::length_there))]
fn header_lacks(s: &[u8], at: usize) -> usize
    requires { Cut (drop at s.now) }
    ensures { result ≡ whole_in (drop at s.now) - length (drop at s.now) }
{
    // never refused: six bytes are there
    let Ok((len, _)) = (Cursor { at }).u32(s) else {
        return 0;
    };
    let left = s.len() - at;
    if (len as usize) < HEADER {
        return HEADER - left;
    }
    len as usize - left
}

// What is needed of the next container, where one is passed over.
fn next_lacks(h: Header, number: u32) -> usize
    ensures { result ≡ pick (h.number == number) (pick (h.kind == 3) 0 6) 0 }
{
    if h.number != number {
        return 0;
    }
    if h.kind == 3 { 0 } else { KIND_END }
}

// Of a container that is cut behind its kind.
#[tactic(auto, using(crate::proofs::NeedsRead::cut_size, crate::proofs::NeedsRead::header_whole, crate::proofs::NeedsRead::next_few, crate::proofs::NeedsRead::got_lacks, crate::proofs::NeedsRead::refused_lacks))]
fn rest_lacks(s: &[u8], number: u32, at: usize) -> usize
    requires { Cut (drop at s.now) }
    ensures { Lacks number (drop at s.now) result }
{
    let Ok((h, _)) = wire::read_header(s, Cursor { at }) else {
        return header_lacks(s, at);
    };
    let left = s.len() - at;
    h.payload_len as usize + HEADER - left + next_lacks(h, number)
}

fn is_cut(why: Refusal) -> bool
    ensures { result ≡ pick (why.no == END) true (why.no == SIZE) }
{
    if why.no == layout::END {
        return true;
    }
    why.no == layout::SIZE
}

// Where the search stopped.
#[tactic(auto, using(crate::specs::Needs::head, crate::proofs::NeedsRead::stop_within, crate::proofs::NeedsRead::stop_lacks, crate::proofs::NeedsRead::stop_cut, crate::proofs::NeedsRead::stop_closed))]
fn lacking(s: &[u8], number: u32, at: usize, why: Refusal) -> usize
    requires { Ends number s.now (Err (why, at)) }
    ensures { Needs number s.now result }
{
    let left = s.len() - at;
    if left < KIND_END {
        return KIND_END - left;
    }
    if is_cut(why) {
        return rest_lacks(s, number, at);
    }
    0
}

// The least number of bytes that must follow before anything can be said of the answer to the command of that number: 0 where `find_answer` answers, or refuses
// with something that no bytes can change.
#[tactic(auto, using(crate::proofs::NeedsRead::found_needs))]
pub fn needed(s: &[u8], number: u32) -> usize
    ensures { Needs number s.now result }
{
    match search::search(s, number) {
        Ok(_) => 0,
        Err((why, at)) => lacking(s, number, at, why),
    }
}
