// A recording as a whole: how many records it has, then of each its kind and its body's place and length.
use crate::print::Answers;
use crate::told::Told;
use crate::{print, show, told};
use recording::Record;
use wire::Cursor;

// The first word is empty, so that a space stands before the others.
fn record(x: Record) -> Told {
    told::say(b"")
        .number(x.kind as u64)
        .span(x.body.start, x.body.count)
}

fn print_records(src: &[u8], count: usize, text: &mut Answers, to: usize) -> usize {
    let mut at: usize = 0;
    let mut o = to;
    for _ in 0..count {
        match recording::read_record_at(src, Cursor { at }) {
            Ok((x, next)) => {
                o = show::tell(text, o, src, record(x));
                at = next.at;
            }
            // never: the recording was read whole
            Err(_) => return print::unknown(text, o),
        }
    }
    o
}

pub(crate) fn answer(src: &[u8], text: &mut Answers, at: usize) -> usize {
    match recording::read_recording(src) {
        Ok((count, _)) => {
            let o = show::tell(text, at, src, told::ok().number(count as u64));
            print_records(src, count, text, o)
        }
        Err(f) => show::tell(text, at, src, told::refused(f)),
    }
}
