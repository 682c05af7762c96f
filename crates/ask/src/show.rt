// The pieces of an answer that stand in the question's bytes: strings, arrays, rows of values.
use crate::print::Answers;
use crate::told::{Piece, Told};
use crate::{print, slice};
use wire::{Cursor, Part, Slot, Value};

const UINT16: u16 = 0x0004;

const UINT32: u16 = 0x0006;

fn item_code(code: u16) -> u16 {
    code.saturating_sub(0x4000)
}

// An array's items, by their type.
fn items(code: u16, p: Part) -> Piece {
    Piece::Items {
        code,
        start: p.start,
        count: p.count,
    }
}

fn units_of(p: Part) -> Piece {
    Piece::Text {
        start: p.start,
        count: p.count,
    }
}

fn piece_of(code: u16, v: Value) -> Piece {
    match v {
        Value::Int(z) => Piece::Int(z),
        Value::Nat(n) => Piece::Number(n),
        Value::Wide(p) => Piece::Pair {
            high: p.high,
            low: p.low,
        },
        Value::Items(p) => items(item_code(code), p),
        Value::Text(p) => units_of(p),
        Value::Undef => Piece::Word(b"undef"),
    }
}

pub(crate) fn value(t: Told, code: u16, v: Value) -> Told {
    t.and(piece_of(code, v))
}

pub(crate) fn text(t: Told, p: Part) -> Told {
    t.and(units_of(p))
}

// An AUINT16.
pub(crate) fn array(t: Told, p: Part) -> Told {
    t.and(items(UINT16, p))
}

pub(crate) fn name(t: Told, start: usize, len: usize) -> Told {
    t.and(Piece::Name { start, len })
}

pub(crate) fn list(t: Told, p: Part) -> Told {
    t.and(Piece::List {
        start: p.start,
        count: p.count,
    })
}

pub(crate) fn slot(t: Told, code: u16, s: Slot, count: u16) -> Told {
    if count == 0 {
        return t;
    }
    t.and(Piece::Values {
        code,
        start: s.start,
        len: s.len,
        count: usize::from(count),
    })
}

fn int(text: &mut Answers, at: usize, z: i64) -> usize {
    let o = if z < 0 {
        print::put(text, at, b'-')
    } else {
        at
    };
    print::decimal(text, o, z.unsigned_abs())
}

fn pair(text: &mut Answers, at: usize, high: u64, low: u64) -> usize {
    let o = print::decimal(text, at, high);
    let a = print::put(text, o, b':');
    print::decimal(text, a, low)
}

// Four hexadecimal digits.
fn unit(text: &mut Answers, at: usize, u: u16) -> usize {
    let [high, low] = u.to_be_bytes();
    let o = print::hex(text, at, high);
    print::hex(text, o, low)
}

fn units(text: &mut Answers, at: usize, src: &[u8], start: usize, count: usize) -> usize {
    let mut place = start;
    let mut o = print::put_all(text, at, b"s<");
    for i in 0..count {
        let a = print::between(text, o, i, b'.');
        match (Cursor { at: place }).u16(src) {
            Ok((u, next)) => {
                o = unit(text, a, u);
                place = next.at;
            }
            // never: the string was read whole
            Err(_) => return print::unknown(text, a),
        }
    }
    print::put(text, o, b'>')
}

// A value that is no array.
fn single(text: &mut Answers, at: usize, src: &[u8], p: Piece) -> usize {
    match p {
        Piece::Word(w) => print::put_all(text, at, w),
        Piece::Number(n) => print::decimal(text, at, n),
        Piece::Int(z) => int(text, at, z),
        Piece::Pair { high, low } => pair(text, at, high, low),
        Piece::Text { start, count } => units(text, at, src, start, count),
        // never: the others are printed by what calls this, and no array has arrays for items
        _ => print::unknown(text, at),
    }
}

// So many values from a place on, none of them an array, joined by commas.
fn row(text: &mut Answers, at: usize, src: &[u8], code: u16, start: usize, count: usize) -> usize {
    let mut place = start;
    let mut o = at;
    for i in 0..count {
        let a = print::between(text, o, i, b',');
        match (Cursor { at: place }).value(src, code) {
            Ok((v, next)) => {
                o = single(text, a, src, piece_of(code, v));
                place = next.at;
            }
            // never: the array was read whole
            Err(_) => return print::unknown(text, a),
        }
    }
    o
}

// A value.
fn put(text: &mut Answers, at: usize, src: &[u8], p: Piece) -> usize {
    match p {
        Piece::Items { code, start, count } => {
            let o = print::put(text, at, b'[');
            let a = row(text, o, src, code, start, count);
            print::put(text, a, b']')
        }
        _ => single(text, at, src, p),
    }
}

pub(crate) fn put_value(text: &mut Answers, at: usize, src: &[u8], code: u16, v: Value) -> usize {
    let o = print::put(text, at, b' ');
    put(text, o, src, piece_of(code, v))
}

fn values(text: &mut Answers, at: usize, src: &[u8], code: u16, count: usize) -> usize {
    let mut place: usize = 0;
    let mut o = at;
    for i in 0..count {
        let a = print::between(text, o, i, b' ');
        match (Cursor { at: place }).value(src, code) {
            Ok((v, next)) => {
                o = put(text, a, src, piece_of(code, v));
                place = next.at;
            }
            // never: the dataset was read whole
            Err(_) => return print::unknown(text, a),
        }
    }
    o
}

fn numbers(text: &mut Answers, at: usize, src: &[u8], start: usize, count: usize) -> usize {
    if count == 0 {
        return print::put(text, at, b'-');
    }
    row(text, at, src, UINT32, start, count)
}

fn put_name(text: &mut Answers, at: usize, start: usize, len: usize) -> usize {
    let names = names::name_bytes();
    print::put_all(text, at, slice::counted(&names, start, len))
}

fn any(text: &mut Answers, at: usize, src: &[u8], p: Piece) -> usize {
    match p {
        Piece::Values {
            code,
            start,
            len,
            count,
        } => values(text, at, slice::counted(src, start, len), code, count),
        Piece::List { start, count } => numbers(text, at, src, start, count),
        Piece::Name { start, len } => put_name(text, at, start, len),
        _ => put(text, at, src, p),
    }
}

// The whole answer, `?` where it is none.
pub(crate) fn tell(text: &mut Answers, at: usize, src: &[u8], t: Told) -> usize {
    if !t.ok {
        return print::unknown(text, at);
    }
    let mut o = at;
    for (i, piece) in t.pieces().iter().enumerate() {
        let a = print::between(text, o, i, b' ');
        o = any(text, a, src, *piece);
    }
    o
}
