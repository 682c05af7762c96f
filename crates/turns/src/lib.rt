// What a program holds of an input that it reads piece by piece: bytes of a window, from a place of it on. What is left there moves to the
// window's front, and what comes next joins it. specs/Run.antt says what a row of turns gives, for any step.
#![tactic(auto)]

ghost use Rattle.std.specs.Prelude.{◌≡◌};
ghost use Rattle.turns.specs.Held.{none, joined, rest, Kept};

// What is to be done after a turn's text is written: take the next turn, or read into the window from `held` on before it, or stop.
#[derive(Drop)]
pub enum Next {
    Again,
    Read,
    Stop,
}

// The bytes of the window from `from` up to `held` are still to be treated; `ended` says that no more will come.
#[derive(Clone, Copy)]
pub struct Hold {
    pub from: usize,
    pub held: usize,
    pub ended: bool,
}

// Before the first turn.
pub fn nothing() -> Hold
    ensures { result ≡ none }
{
    Hold {
        from: 0,
        held: 0,
        ended: false,
    }
}

// After n bytes came where the turn said, or none: the input has ended.
pub fn join(h: Hold, n: usize) -> Hold
    ensures { result ≡ joined h n }
{
    Hold {
        from: h.from,
        held: h.held.wrapping_add(n),
        ended: n == 0,
    }
}

// Moves the bytes from `from` up to `held` to the window's front: how many they are.
#[tactic(auto, using(crate::proofs::Moving::kept_is))]
pub fn keep(window: &mut [u8], from: usize, held: usize) -> usize
    ensures { Kept window.old from held result window.new }
{
    let end = held.min(window.len());
    let start = from.min(end);
    window.copy_within(start..end, 0);
    end - start
}

// The bytes that are still to be treated.
#[tactic(auto, using(crate::proofs::Moving::part_is))]
pub fn rest_of(window: &[u8], from: usize, held: usize) -> &[u8]
    ensures { result.now ≡ rest window.now from held }
{
    let end = held.min(window.len());
    let start = from.min(end);
    &window[start..end]
}
