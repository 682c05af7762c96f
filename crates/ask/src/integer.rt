// The VALUE of `write-value`: an integer of its type, or `undef`.
use crate::{number, slice};
use wire::{Integer, Pair};

// A number, in front of which a minus may stand.
fn signed(w: &[u8]) -> Option<i128> {
    match w.strip_prefix(b"-") {
        Some(digits) => Some(-i128::from(number::parse(digits, u64::MAX)?)),
        None => Some(i128::from(number::parse(w, u64::MAX)?)),
    }
}

// HIGH:LOW, for the signed type too.
fn wide(w: &[u8]) -> Option<Pair> {
    let colon = slice::find(w, b':');
    let high = number::parse(&w[..colon], u64::MAX)?;
    let low = number::parse(w.get(colon + 1..)?, u64::MAX)?;
    Some(Pair { high, low })
}

// Types of at most 64 bits.
fn narrow_of(code: u16, w: &[u8]) -> Option<Integer> {
    match code {
        1 => Some(Integer::I8(i8::try_from(signed(w)?).ok()?)),
        2 => Some(Integer::U8(u8::try_from(number::parse(w, u64::MAX)?).ok()?)),
        3 => Some(Integer::I16(i16::try_from(signed(w)?).ok()?)),
        4 => Some(Integer::U16(u16::try_from(number::parse(w, u64::MAX)?).ok()?)),
        5 => Some(Integer::I32(i32::try_from(signed(w)?).ok()?)),
        6 => Some(Integer::U32(u32::try_from(number::parse(w, u64::MAX)?).ok()?)),
        7 => Some(Integer::I64(i64::try_from(signed(w)?).ok()?)),
        _ => Some(Integer::U64(number::parse(w, u64::MAX)?)),
    }
}

// An array's type and a string's have no VALUE here.
pub(crate) fn integer_of(code: u16, w: &[u8]) -> Option<Integer> {
    match code {
        1..=8 => narrow_of(code, w),
        9 => Some(Integer::I128(wide(w)?)),
        10 => Some(Integer::U128(wide(w)?)),
        0x4001..=0x400A | 0xFFFF => None,
        _ => (w == b"undef".as_slice()).then_some(Integer::Undef),
    }
}
