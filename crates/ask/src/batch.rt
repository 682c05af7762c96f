// All numbers of a row and all units of a string, in one call each. What was lent is printed whole, by runs.
use crate::args::{Args, low16};
use crate::print::Answers;
use crate::{print, show, slice, told, width};
use wire::Cursor;

// For the most units that an answer may have room for, filled.
fn units_room() -> [u16; 4096] {
    [0xa5a5u16; 4096]
}

pub(crate) fn numbers(a: Args, src: &[u8], text: &mut Answers, at: usize) -> usize {
    let mut room = width::longs_room();
    let out = print::report(&mut room, a.numbers[4]);
    let w = wire::list_numbers(src, a.numbers[1], low16(a.numbers[0]), a.numbers[2], out);
    let o = show::tell(text, at, src, told::written(w));
    print::put_list(text, o, out)
}

pub(crate) fn units(a: Args, src: &[u8], text: &mut Answers, at: usize) -> usize {
    let mut room = units_room();
    let out = slice::front_mut(&mut room, a.numbers[2]);
    let w = (Cursor { at: a.numbers[0] }).units(src, out);
    let o = show::tell(text, at, src, told::written(w));
    print::put_list(text, o, out)
}
