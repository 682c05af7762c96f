// A damaged recording mended: what is kept, and the report, whose two lists are printed by runs.
use crate::args::Args;
use crate::print::Answers;
use crate::told::Told;
use crate::{print, show, told};
use layout::Refusal;

// For the most stretches that a report may have room for.
fn report_room() -> [u64; 4096] {
    [0u64; 4096]
}

// The answer's first words, then the output.
fn put_output(text: &mut Answers, at: usize, t: Told, page: &[u8]) -> usize {
    let o = show::tell(text, at, page, t);
    print::output(text, o, page)
}

fn put_answer(
    text: &mut Answers,
    at: usize,
    m: Result<(usize, usize), Refusal>,
    page: &[u8],
) -> usize {
    match m {
        Ok((count, stretches)) => {
            let o = put_output(text, at, told::ok().number(count as u64), page);
            let a = print::put(text, o, b' ');
            print::decimal(text, a, stretches as u64)
        }
        Err(f) => put_output(text, at, told::refused(f), page),
    }
}

pub(crate) fn answer(a: Args, src: &[u8], text: &mut Answers, at: usize) -> usize {
    let mut out = crate::out_room();
    let mut first = report_room();
    let mut second = report_room();
    let page = print::page(&mut out, a.room);
    let starts = print::report(&mut first, a.numbers[2]);
    let lengths = print::report(&mut second, a.numbers[2]);
    let m = mending::mend(src, page, starts, lengths);
    let o = put_answer(text, at, m, page);
    let b = print::put_list(text, o, starts);
    print::put_list(text, b, lengths)
}
