// A range of integers of 8 to 64 bits.
ghost use Rattle.std.specs.Prelude.{◌≡◌, ◌+◌, ◌-◌, ◌%◌, ◌^◌};
ghost use Rattle.wire.specs.Codecs.{unsigned};
ghost use Rattle.wire.specs.Places.{value_at};
ghost use Rattle.wire.specs.Says.{located};
ghost use Rattle.panel.specs.Words.{whole_of, whole_from, at_most, at_end, at_step, whole_range};

use wire::{Cursor, Value};

// An integer: whether it is below 0, and its word of 64 bits, two's complement.
#[derive(Clone, Copy)]
pub struct Whole {
    pub below: bool,
    pub word: u64,
}

// An integer's word of 64 bits, two's complement.
pub fn word_of(z: i64) -> u64
    ensures { result ≡ unsigned (2 ^ 64) z }
{
    z.cast_unsigned()
}

pub(crate) fn whole_of(v: Value) -> Whole
    ensures { result ≡ whole_of (located v) }
{
    match v {
        Value::Int(z) => Whole {
            below: z < 0,
            word: word_of(z),
        },
        Value::Nat(n) => Whole {
            below: false,
            word: n,
        },
        Value::Wide(_) => Whole {
            below: false,
            word: 0,
        },
        Value::Items(_) => Whole {
            below: false,
            word: 0,
        },
        Value::Text(_) => Whole {
            below: false,
            word: 0,
        },
        Value::Undef => Whole {
            below: false,
            word: 0,
        },
    }
}

pub(crate) fn whole_at(s: &[u8], code: u16, at: usize) -> Whole
    ensures { result ≡ whole_from (value_at code s.now at) }
{
    let Ok((v, _)) = (Cursor { at }).value(s, code) else {
        return Whole {
            below: false,
            word: 0,
        };
    };
    whole_of(v)
}

fn at_most(a: Whole, b: Whole) -> bool
    ensures { result ≡ at_most a b }
{
    if a.below {
        if b.below { a.word <= b.word } else { true }
    } else {
        if b.below { false } else { a.word <= b.word }
    }
}

fn at_end(low: Whole, high: Whole, v: Whole) -> bool
    ensures { result ≡ at_end low high v }
{
    if v.word == low.word {
        return true;
    }
    v.word == high.word
}

// How far v is above low. By wrapping: from the lowest INT64 to the highest it is 2^64 - 1, which the word holds and the type does not.
fn span(low: Whole, v: Whole) -> u64
    ensures { result ≡ (v.word + (2 ^ 64 - low.word)) % 2 ^ 64 }
{
    v.word.wrapping_sub(low.word)
}

// A whole number of steps above the minimum; the ends where there is no step.
fn at_step(low: Whole, high: Whole, step: Whole, v: Whole) -> bool
    ensures { result ≡ at_step low high step v }
{
    if step.below {
        return at_end(low, high, v);
    }
    if step.word == 0 {
        return at_end(low, high, v);
    }
    span(low, v) % step.word == 0
}

pub(crate) fn in_range(low: Whole, high: Whole, step: Whole, v: Whole) -> bool
    ensures { result ≡ whole_range low high step v }
{
    if !at_most(low, v) {
        return false;
    }
    if !at_most(v, high) {
        return false;
    }
    at_step(low, high, step, v)
}
