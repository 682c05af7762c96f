// The questions of settings: a row's entries, the one that is kept for a camera's property, the row after a store, and without an entry; an entry from its fields.
use crate::args::{Args, low16, low32};
use crate::print::Answers;
use crate::told::Told;
use crate::{print, show, slice, told, width};
use layout::Refusal;
use settings::{Edition, Entry};

// An entry that holds for any serial.
const ANY: u16 = 16;

// The edition that the question names, by its first word.
fn edition(a: Args) -> Edition {
    if a.numbers[0] == 1 {
        Edition::One
    } else {
        Edition::Two
    }
}

// The first word is empty, so that a space stands before the others.
fn key(x: Entry, end: usize) -> Told {
    let t = told::say(b"")
        .span(x.start, end.wrapping_sub(x.start))
        .number(x.kind as u64)
        .number(x.vendor as u64)
        .number(x.property as u64);
    if x.kind == ANY {
        return t.word(b"-");
    }
    show::text(t, x.serial)
}

fn entry(x: Entry, end: usize) -> Told {
    show::slot(key(x, end).number(x.code as u64), x.code, x.value, 1)
}

fn print_entries(e: Edition, src: &[u8], count: usize, text: &mut Answers, to: usize) -> usize {
    let mut at: usize = 0;
    let mut o = to;
    for _ in 0..count {
        match settings::entry_at(e, src, at) {
            Ok((x, next)) => {
                o = show::tell(text, o, src, entry(x, next.at));
                at = next.at;
            }
            // never: the row was read whole
            Err(_) => return print::unknown(text, o),
        }
    }
    o
}

pub(crate) fn row(a: Args, src: &[u8], text: &mut Answers, at: usize) -> usize {
    let e = edition(a);
    match settings::check_row(e, src) {
        Ok(count) => {
            let o = show::tell(text, at, src, told::ok().number(count as u64));
            print_entries(e, src, count, text, o)
        }
        Err(f) => show::tell(text, at, src, told::refused(f)),
    }
}

fn found(f: Result<Option<Entry>, Refusal>) -> Told {
    match f {
        Ok(Some(x)) => {
            let v = x.value;
            let t = told::ok().number(x.kind as u64).number(x.code as u64);
            show::slot(t, x.code, v, 1).span(v.start, v.len)
        }
        Ok(None) => told::say(b"none"),
        Err(f) => told::refused(f),
    }
}

pub(crate) fn find(a: Args, src: &[u8], numbers: &[u32], text: &mut Answers, at: usize) -> usize {
    let mut room = width::halves_room();
    let serial = width::to16(
        slice::counted(numbers, a.numbers[4], a.counts[4]),
        &mut room,
    );
    let f = settings::find(
        edition(a),
        src,
        low32(a.numbers[2]),
        low16(a.numbers[3]),
        serial,
    );
    show::tell(text, at, src, found(f))
}

// Of the two words that are bytes the row comes first.
pub(crate) fn store(a: Args, line: &[u8], entry: &[u8], page: &mut [u8]) -> Told {
    told::written(settings::store(
        edition(a),
        slice::counted(line, a.numbers[1], a.counts[1]),
        entry,
        page,
    ))
}

// An entry from its fields.
pub(crate) fn write(a: Args, numbers: &[u32], value: &[u8], page: &mut [u8]) -> Told {
    let mut room = width::halves_room();
    let serial = width::to16(
        slice::counted(numbers, a.numbers[5], a.counts[5]),
        &mut room,
    );
    told::written(settings::write_entry(
        low32(a.numbers[0]),
        low16(a.numbers[1]),
        low16(a.numbers[2]),
        value,
        a.numbers[4] == 1,
        serial,
        page,
    ))
}

pub(crate) fn remove(a: Args, numbers: &[u32], row: &[u8], page: &mut [u8]) -> Told {
    let mut room = width::halves_room();
    let serial = width::to16(
        slice::counted(numbers, a.numbers[5], a.counts[5]),
        &mut room,
    );
    told::written(settings::remove(
        edition(a),
        row,
        low32(a.numbers[2]),
        low16(a.numbers[3]),
        a.numbers[4] == 1,
        serial,
        page,
    ))
}
