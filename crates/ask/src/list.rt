// A description's list, by the struct that the library hands out: it is stepped through to its end.
ghost use Rattle.std.specs.Prelude.{◌≡◌};
ghost use Rattle.wire.specs.List.{place_of, step_at, says_step};
ghost use Rattle.wire.specs.Property.{has_enable};

use crate::args::Args;
use crate::print::Answers;
use crate::told::Told;
use crate::{reads, show, told};
use wire::{Place, PropLayout, Step, Values};

// The step from the list's beginning.
fn first(l: PropLayout, src: &[u8]) -> Option<Step>
    ensures { says_step result ≡ step_at src.now (place_of (has_enable l) src.now).ty (place_of (has_enable l) src.now).at (place_of (has_enable l) src.now).left (place_of (has_enable l) src.now).refusal }
{
    wire::next(wire::list_of(l, src))
}

// The step from where the one before it ended.
fn later(src: &[u8], ty: u16, at: usize, left: u16, refusal: u8) -> Option<Step>
    ensures { says_step result ≡ step_at src.now ty at left refusal }
{
    wire::next(wire::moved(
        Values {
            src,
            ty,
            at: 0,
            left: 0,
            refusal,
        },
        at,
        left,
    ))
}

// How many steps there are before the end: no list has more than 65,535 values.
fn steps(l: PropLayout, src: &[u8], ty: u16, refusal: u8) -> u64 {
    let mut step = first(l, src);
    for n in 0..65536 {
        match step {
            Some(x) => {
                step = later(src, ty, x.at, x.left, refusal);
            }
            None => return n,
        }
    }
    65536
}

fn print_steps(
    l: PropLayout,
    src: &[u8],
    ty: u16,
    refusal: u8,
    text: &mut Answers,
    to: usize,
) -> usize {
    let mut step = first(l, src);
    let mut o = to;
    for _ in 0..65536 {
        match step {
            Some(x) => {
                o = show::put_value(text, o, src, ty, x.value);
                step = later(src, ty, x.at, x.left, refusal);
            }
            None => return o,
        }
    }
    o
}

// Of a refused description the list has the place that the refusal tells.
fn head(p: Place, steps: u64) -> Told {
    let t = told::ok().number(p.refusal as u64);
    if p.refusal != 0 {
        return t.number(p.at as u64).number(steps);
    }
    t.number(steps)
}

pub(crate) fn answer(a: Args, src: &[u8], text: &mut Answers, at: usize) -> usize {
    let p = wire::place_of(reads::layout(a), src);
    let ty = p.ty;
    let refusal = p.refusal;
    let n = steps(reads::layout(a), src, ty, refusal);
    let o = show::tell(text, at, src, head(p, n));
    print_steps(reads::layout(a), src, ty, refusal, text, o)
}
