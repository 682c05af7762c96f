// The text of the answers, which goes to standard output, and the place after what stands in it. Where the text is full it is written out and
// begun again, so every function here takes the place and answers the next. Where it could not be written, the place is one behind
// the text's room from then on, and nothing more is put or written.
use crate::slice;
use std::io::{Stderr, Stdout};
use stream::Stopped;

const FILLING: u8 = 0xa5;

// Eight bytes of it.
const FILLING_64: u64 = 0xa5a5_a5a5_a5a5_a5a5;

const LOST: usize = 0xFFFF_FFFF_FFFF_FFFF;

#[derive(Drop)]
pub(crate) struct Answers {
    text: [u8; 65536],
    to: Stdout,
    told: Stderr,
    is_gone: bool,
}

pub(crate) fn empty(rt: &HostRuntime) -> Answers {
    Answers {
        text: io::large_buffer(),
        to: rt.stdout(),
        told: rt.stderr(),
        is_gone: false,
    }
}

// The one function that writes: whether all before the place was written. What failed is told.
fn write(text: &mut Answers, at: usize) -> bool {
    let written = stream::write_all(
        &mut text.to,
        slice::front(&text.text, at),
        b"ask: writing standard output",
        &text.told,
    );
    if written == Err(Stopped::Gone) {
        text.is_gone = true;
    }
    written.is_ok()
}

// Whether the reader of the answers has gone away.
pub(crate) fn is_gone(text: &Answers) -> bool {
    text.is_gone
}

pub(crate) fn is_lost(text: &Answers, at: usize) -> bool {
    text.text.len() < at
}

pub(crate) fn put(text: &mut Answers, at: usize, b: u8) -> usize {
    if at < text.text.len() {
        text.text[at] = b;
        return at + 1;
    }
    if is_lost(text, at) || !write(text, at) {
        return LOST;
    }
    text.text[0] = b;
    1
}

pub(crate) fn put_all(text: &mut Answers, at: usize, s: &[u8]) -> usize {
    let mut o = at;
    for b in s {
        o = put(text, o, *b);
    }
    o
}

pub(crate) fn decimal(text: &mut Answers, at: usize, n: u64) -> usize {
    let mut digits = [0u8; 20];
    let k = io::decimal(n, &mut digits);
    put_all(text, at, &digits[..k])
}

const DIGITS: [u8; 16] = *b"0123456789abcdef";

pub(crate) fn hex(text: &mut Answers, at: usize, b: u8) -> usize {
    let o = put(text, at, DIGITS[usize::from(b / 16)]);
    put(text, o, DIGITS[usize::from(b % 16)])
}

// Two digits a byte, `-` for none.
pub(crate) fn bytes(text: &mut Answers, at: usize, s: &[u8]) -> usize {
    if s.is_empty() {
        return put(text, at, b'-');
    }
    let mut o = at;
    for b in s {
        o = hex(text, o, *b);
    }
    o
}

// What is put between the items of a list: nothing before the first.
pub(crate) fn between(text: &mut Answers, at: usize, i: usize, b: u8) -> usize {
    if i == 0 {
        return at;
    }
    put(text, at, b)
}

// A number and, where it stands more than once, how often.
fn run(text: &mut Answers, at: usize, n: u64, times: usize) -> usize {
    let o = decimal(text, at, n);
    if times < 2 {
        return o;
    }
    let a = put(text, o, b'*');
    decimal(text, a, times as u64)
}

// Joined by commas, equal neighbours as one with their count, `-` for none.
fn runs<T: Copy + PartialEq + Into<u64>>(text: &mut Answers, at: usize, list: &[T]) -> usize {
    if list.is_empty() {
        return put(text, at, b'-');
    }
    let mut o = at;
    for (i, equals) in list.chunk_by(|a, b| *a == *b).enumerate() {
        if let Some(n) = equals.first() {
            o = between(text, o, i, b',');
            o = run(text, o, (*n).into(), equals.len());
        }
    }
    o
}

// A space and the list.
pub(crate) fn put_list<T: Copy + PartialEq + Into<u64>>(
    text: &mut Answers,
    at: usize,
    list: &[T],
) -> usize {
    let o = put(text, at, b' ');
    runs(text, o, list)
}

// Writes what stands before the place: whether all is written.
pub(crate) fn flush(text: &mut Answers, at: usize) -> bool {
    if is_lost(text, at) {
        return false;
    }
    write(text, at)
}

pub(crate) fn unknown(text: &mut Answers, at: usize) -> usize {
    put(text, at, b'?')
}

// The output for a writer, of so many bytes, filled.
pub(crate) fn page(out: &mut [u8], size: usize) -> &mut [u8] {
    let p = slice::front_mut(out, size);
    p.fill(FILLING);
    p
}

// The same of numbers, so many.
pub(crate) fn report(list: &mut [u64], size: usize) -> &mut [u64] {
    let p = slice::front_mut(list, size);
    p.fill(FILLING_64);
    p
}

// A space and the bytes.
pub(crate) fn output(text: &mut Answers, at: usize, out: &[u8]) -> usize {
    let o = put(text, at, b' ');
    bytes(text, o, out)
}
