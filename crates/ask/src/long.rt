// The questions whose answers have no bound, or that need a list that is no writer's: their text is put as it comes.
use crate::args::Args;
use crate::objects::PathKind;
use crate::print::Answers;
use crate::told::Told;
use crate::{
    batch, kept, list, listed, mended, objects, print, reads, recorded, show, slice, told,
};
use layout::Refusal;
use recording::Left;
use wire::Chosen;

fn chosen(c: Chosen) -> Told {
    if c.of_payload {
        return told::ok().word(b"payload").span(c.start, c.len);
    }
    told::ok().word(b"description").span(c.start, c.len)
}

fn newer(a: Args, line: &[u8], text: &mut Answers, at: usize) -> usize {
    let d = slice::counted(line, a.numbers[1], a.counts[1]);
    let p = slice::counted(line, a.numbers[2], a.counts[2]);
    let o = show::tell(
        text,
        at,
        d,
        chosen(wire::newer_place(reads::layout(a), d, p)),
    );
    print::output(text, o, wire::newer(reads::layout(a), d, p))
}

// The copier's answer, then the records and the bytes that were left out.
fn print_copied(
    c: Result<(usize, Left), Refusal>,
    page: &[u8],
    text: &mut Answers,
    at: usize,
) -> usize {
    match c {
        Ok((n, left)) => {
            let told = show::tell(text, at, page, told::ok().number(n as u64));
            let o = print::output(text, told, page);
            let a = print::put(text, o, b' ');
            let b = print::decimal(text, a, left.records as u64);
            let d = print::put(text, b, b' ');
            print::decimal(text, d, left.bytes as u64)
        }
        Err(f) => {
            let told = show::tell(text, at, page, told::refused(f));
            print::output(text, told, page)
        }
    }
}

fn copy(a: Args, src: &[u8], text: &mut Answers, at: usize) -> usize {
    let mut out = crate::out_room();
    let page = print::page(&mut out, a.room);
    let c = recording::copy_records(src, page);
    print_copied(c, page, text, at)
}

pub(crate) fn of(
    question: &str,
    a: Args,
    line: &[u8],
    src: &[u8],
    numbers: &[u32],
    text: &mut Answers,
    at: usize,
) -> usize {
    match question {
        "list" => list::answer(a, src, text, at),
        "newer" => newer(a, line, text, at),
        "walk" => objects::walk(a, line, numbers, text, at),
        "folders" => objects::places(true, a, line, numbers, text, at),
        "linked-walk" => objects::places(false, a, line, numbers, text, at),
        "paths" => objects::paths(PathKind::Walked, a, line, numbers, text, at),
        "folder-paths" => objects::paths(PathKind::Viewed, a, line, numbers, text, at),
        "linked-paths" => objects::paths(PathKind::Linked, a, line, numbers, text, at),
        "delete" => objects::delete(a, line, numbers, text, at),
        "linked-delete" => objects::delete_linked(a, line, numbers, text, at),
        "collect" => objects::change(false, false, a, line, numbers, text, at),
        "linked-collect" => objects::change(false, true, a, line, numbers, text, at),
        "add" => objects::change(true, false, a, line, numbers, text, at),
        "linked-add" => objects::change(true, true, a, line, numbers, text, at),
        "link" => objects::link(a, line, numbers, text, at),
        "settings" => kept::row(a, src, text, at),
        "settings-find" => kept::find(a, src, numbers, text, at),
        "recording" => recorded::answer(src, text, at),
        "copy" => copy(a, src, text, at),
        "mend" => mended::answer(a, src, text, at),
        "listing" => listed::answer(src, text, at),
        "numbers" => batch::numbers(a, src, text, at),
        "units" => batch::units(a, src, text, at),
        _ => print::unknown(text, at),
    }
}
