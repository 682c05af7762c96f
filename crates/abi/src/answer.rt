// What every exported function answers, and how it gives its numbers.
ghost use Rattle.layout.specs.Answer.{says_count};
ghost use Rattle.std.specs.Prelude.{◌≡◌};
ghost use Rattle.layout.specs.Written.{Wrote, says};
ghost use Rattle.abi.specs.Answered.{number_and_place, word};

use layout::Refusal;

// 2^55 - 1: no bytes that are lent have a place there, but a caller may ask for one. With it a refusal stays below 0.
const FARTHEST: usize = 36028797018963967;

// A refusal's number and 256 times its place, or the farthest one that is told.
fn number_and_place(f: Refusal) -> u64
    ensures { result ≡ number_and_place f }
{
    256 * (layout::least(f.at, FARTHEST) as u64) + f.no as u64
}

// How many were given; or minus (the refusal's number and 256 times its place), as a machine word has it.
pub fn told(w: Result<usize, Refusal>) -> u64
    ensures { result ≡ word (says_count w) }
{
    match w {
        Ok(n) => n as u64,
        Err(f) => std::num::wrapping_sub_u64(0, number_and_place(f)),
    }
}

// These numbers at the front of what was lent; 9 where it is shorter.
#[tactic(auto, unfolding(layout::specs::Written::answer_of, layout::specs::Written::left_of))]
pub fn give(row: &[u64], out: &mut [u64]) -> Result<usize, Refusal>
    ensures { Wrote (says row.now) out.old (says_count result) out.new }
{
    if out.len() < row.len() {
        return Err(layout::plain(layout::ROOM));
    }
    out[..row.len()].copy_from_slice(row);
    Ok(row.len())
}
