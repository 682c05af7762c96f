// A recording's listing, window by window, with its line ends escaped.
use crate::print::Answers;
use crate::{print, slice};
use layout::Refusal;
use listing::Tally;

// The listing's numbers, and the place after its text.
#[derive(Drop)]
struct Shown {
    place: u64,
    records: u64,
    at: usize,
}

fn put_escaped(text: &mut Answers, at: usize, b: u8) -> usize {
    if b == b'\n' {
        return print::put_all(text, at, b"\\n");
    }
    print::put(text, at, b)
}

fn escaped(text: &mut Answers, at: usize, s: &[u8]) -> usize {
    let mut o = at;
    for b in s {
        o = put_escaped(text, o, *b);
    }
    o
}

// The heading, or the ending.
fn escaped_writing(text: &mut Answers, at: usize, w: Result<usize, Refusal>, out: &[u8]) -> usize {
    match w {
        Ok(n) => escaped(text, at, slice::counted(out, 0, n)),
        // never: the room is larger than either
        Err(_) => print::unknown(text, at),
    }
}

// The place behind what was used, which is at most the end.
fn behind(from: usize, used: usize, end: usize) -> usize {
    if from < end {
        if used < end - from {
            return from + used;
        }
    }
    end
}

// As many windows as the output's room makes of the recording.
fn list_all(src: &[u8], out: &mut [u8], text: &mut Answers, at: usize) -> Shown {
    let mut place: u64 = 0;
    let mut records: u64 = 0;
    let mut from: usize = 0;
    let mut o = at;
    // Counted by hand: each window says itself how far it comes.
    while from < src.len() {
        let done = listing::list_window(&src[from..], true, Tally { place, records }, out);
        let tally = done.tally;
        let next = behind(from, done.used, src.len());
        o = escaped(text, o, slice::counted(out, 0, done.written));
        place = tally.place;
        records = tally.records;
        if done.stopped {
            break;
        }
        if next <= from {
            break;
        }
        from = next;
    }
    Shown {
        place,
        records,
        at: o,
    }
}

fn list_into(src: &[u8], out: &mut [u8], text: &mut Answers, at: usize) -> usize {
    let o = print::put_all(text, at, b"ok ");
    let heading = listing::write_heading(out);
    let a = escaped_writing(text, o, heading, out);
    let shown = list_all(src, out, text, a);
    let ending = listing::write_ending(
        Tally {
            place: shown.place,
            records: shown.records,
        },
        out,
    );
    escaped_writing(text, shown.at, ending, out)
}

pub(crate) fn answer(src: &[u8], text: &mut Answers, at: usize) -> usize {
    let mut out = crate::out_room();
    list_into(src, &mut out, text, at)
}
