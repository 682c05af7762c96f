// Words of many: bytes, and lists of numbers.
ghost use Rattle.std.specs.Prelude.{◌<◌, IfSome};

use crate::{number, slice};

// A number of a list stands at most so often.
const MOST_TIMES: u64 = 4096;

// A hexadecimal digit's value.
fn digit(b: u8) -> Option<u8>
    ensures { IfSome result (λ d. d < 16) }
{
    Some(char::from(b).to_digit(16)? as u8)
}

// The byte that two digits spell.
fn byte(high: u8, low: u8) -> Option<u8> {
    Some(digit(high)? * 16 + digit(low)?)
}

// Puts the bytes that the digits spell where they stand: at least one byte, two digits for each. How many bytes.
fn decode(w: &mut [u8]) -> Option<usize> {
    let count = w.len() / 2;
    if count == 0 || w.len() % 2 == 1 {
        return None;
    }
    for i in 0..count {
        w[i] = byte(w[2 * i], w[2 * i + 1])?;
    }
    Some(count)
}

pub(crate) fn hex_bytes(w: &mut [u8]) -> Option<usize> {
    match w {
        [b'-'] => Some(0),
        _ => decode(w),
    }
}

// A number, and how often it stands.
#[derive(Clone, Copy)]
struct Run {
    number: u32,
    times: usize,
}

// A number up to the most; behind a star how often, 1 time at least.
fn read_run(w: &[u8], most: u32) -> Option<Run> {
    let star = slice::find(w, b'*');
    let number = number::parse(&w[..star], u64::from(most))? as u32;
    if star == w.len() {
        return Some(Run { number, times: 1 });
    }
    let times = number::parse(&w[star + 1..], MOST_TIMES).filter(|n| *n > 0)?;
    Some(Run {
        number,
        times: times as usize,
    })
}

// Numbers up to the most, joined by commas, put into a list that has room for as many as there may be. How many numbers.
pub(crate) fn list(w: &[u8], most: u32, list: &mut [u32]) -> Option<usize> {
    if let [b'-'] = w {
        return Some(0);
    }
    let mut n = 0;
    for word in w.split(|b| *b == b',') {
        let run = read_run(word, most)?;
        list.get_mut(n..)?.get_mut(..run.times)?.fill(run.number);
        n += run.times;
    }
    Some(n)
}
