// A list of values, compared by their meaning.
ghost use Rattle.std.specs.Prelude.{◌≡◌, true, false};
ghost use Rattle.panel.specs.Words.{core_of, rest, Gives, Finds};

use crate::{STR, scan};

// The bytes by which a value is compared: of a string the units before the last, else all of them.
fn core<'a>(code: u16, word: &'a [u8]) -> &'a [u8]
    ensures { result.now ≡ core_of code word.now }
{
    if code != STR {
        return word;
    }
    if word.len() < 3 {
        return &word[0..0];
    }
    let end = word.len() - 2;
    &word[1..end]
}

// Whether one of the `count` values from a place on is the one that the chosen bytes are, a step at a time.
fn is_member_by_steps(
    description: &[u8],
    code: u16,
    first: usize,
    count: u16,
    chosen: &[u8],
) -> bool
    requires { Gives code (rest description code first count) }
    ensures { Finds code (rest description.entry code first count) chosen.now result }
{
    let wanted = core(code, chosen);
    let mut at = first;
    let mut left = count;
    while let Some(step) = wire::step_at(description, code, at, left, 0) {
        if core(code, &description[at..step.at]) == wanted {
            return true;
        }
        at = step.at;
        left = step.left;
    }
    false
}

// The same; numbers of up to 64 bits stand in a row, and are looked through as words.
pub(crate) fn is_member(
    description: &[u8],
    code: u16,
    first: usize,
    count: u16,
    chosen: &[u8],
) -> bool
    requires { Gives code (rest description code first count) }
    ensures { Finds code (rest description.entry code first count) chosen.now result }
{
    let w = scan::plain_width(code);
    if scan::laid_out(w, count, first, description.len(), chosen.len()) {
        return scan::holds(description, first, count as usize, w, chosen);
    }
    is_member_by_steps(description, code, first, count, chosen)
}
