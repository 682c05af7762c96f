// A value at a place by its type code, what is asked of one, and a list of them step by step or, of integers, all at once.
ghost use Rattle.layout.specs.Answer.{says_count};
ghost use Rattle.std.specs.Prelude.{◌≡◌, ◌∷◌};
ghost use Rattle.layout.specs.Written.{Wrote, said_of};
ghost use Rattle.wire.specs.Codecs.{text};
ghost use Rattle.wire.specs.List.{step_at};
ghost use Rattle.wire.specs.Numbers.{numbers_at};
ghost use Rattle.wire.specs.Places.{value_at, unit_at, item_at};
ghost use Rattle.wire.specs.Says.{located, says_value};
ghost use Rattle.abi.specs.Answered.{Gives, given};
ghost use Rattle.abi.specs.Rows.{number_row, value_row, step_said};

use crate::answer;
use layout::Refusal;
use wire::{Cursor, Read, Value};

fn value_row(v: Value) -> [u64; 3]
    ensures { result ≡ value_row (located v) }
{
    match v {
        Value::Int(z) => [1, wire::signed_word(z), 0],
        Value::Nat(n) => [2, n, 0],
        Value::Wide(p) => [3, p.low, p.high],
        Value::Items(p) => [4, p.start as u64, p.count as u64],
        Value::Text(p) => [5, p.start as u64, p.count as u64],
        Value::Undef => [0, 0, 0],
    }
}

fn placed_row(v: Value, next: usize) -> [u64; 4]
    ensures { result ≡ next ∷ value_row (located v) }
{
    let x = value_row(v);
    [next as u64, x[0], x[1], x[2]]
}

fn give_read(r: Read<Value>, out: &mut [u64]) -> Result<usize, Refusal>
    ensures { Wrote (given value_row (says_value r)) out.old (says_count result) out.new }
{
    let (v, next) = r?;
    answer::give(&placed_row(v, next.at), out)
}

// The place after it, what it is, and its two numbers.
#[unsafe(no_mangle)]
pub extern "C" fn ptp_value(s: &[u8], at: usize, code: u16, out: &mut [u64]) -> u64
    ensures { Gives (given value_row (value_at code s.now at)) out.old result out.new }
{
    answer::told(give_read((Cursor { at }).value(s, code), out))
}

// The n-th item of the array at a place, as a value.
#[unsafe(no_mangle)]
pub extern "C" fn ptp_item(s: &[u8], at: usize, code: u16, n: usize, out: &mut [u64]) -> u64
    ensures { Gives (given value_row (item_at code n s.now at)) out.old result out.new }
{
    answer::told(give_read((Cursor { at }).item(s, code, n), out))
}

fn give_unit(s: &[u8], at: usize, n: usize, out: &mut [u64]) -> Result<usize, Refusal>
    ensures { Wrote (given number_row (unit_at n s.now at)) out.old (says_count result) out.new }
{
    let (u, next) = (Cursor { at }).unit(s, n)?;
    answer::give(&[next.at as u64, u as u64], out)
}

// Of the n-th unit of the string at a place: the place after it, and the unit.
#[unsafe(no_mangle)]
pub extern "C" fn ptp_unit(s: &[u8], at: usize, n: usize, out: &mut [u64]) -> u64
    ensures { Gives (given number_row (unit_at n s.now at)) out.old result out.new }
{
    answer::told(give_unit(s, at, n, out))
}

fn step_row(v: Value, next: usize, left: u16) -> [u64; 5]
    ensures { result ≡ next ∷ left ∷ value_row (located v) }
{
    let x = value_row(v);
    [next as u64, left as u64, x[0], x[1], x[2]]
}

fn give_step(s: &[u8], code: u16, at: usize, left: u16, out: &mut [u64]) -> Result<usize, Refusal>
    ensures { Wrote (step_said (step_at s.now code at left 0)) out.old (says_count result) out.new }
{
    match wire::step_at(s, code, at, left, 0) {
        Some(step) => answer::give(&step_row(step.value, step.at, step.left), out),
        None => Ok(0),
    }
}

// The next of a list's values, from a place on with so many left: the place after it, how many are left then, and the value. No number: the list
// has ended.
#[unsafe(no_mangle)]
pub extern "C" fn ptp_next_value(s: &[u8], code: u16, at: usize, left: u16, out: &mut [u64]) -> u64
    ensures { Gives (step_said (step_at s.now code at left 0)) out.old result out.new }
{
    answer::told(give_step(s, code, at, left, out))
}

// All integers of a row, of a type of 8 to 64 bits, from a place on: each as the number that `ptp_value` gives first.
#[unsafe(no_mangle)]
pub extern "C" fn ptp_list_numbers(
    s: &[u8],
    at: usize,
    code: u16,
    count: usize,
    out: &mut [u64],
) -> u64
    ensures { Gives (said_of (numbers_at code count s.now at)) out.old result out.new }
{
    answer::told(wire::list_numbers(s, at, code, count, out))
}

// The units of the string at a place, as numbers.
#[unsafe(no_mangle)]
pub extern "C" fn ptp_units(s: &[u8], at: usize, out: &mut [u16]) -> u64
    ensures { Gives (said_of (text.read s.now at)) out.old result out.new }
{
    answer::told((Cursor { at }).units(s, out))
}
