// Answers questions, one a line, from standard input (docs/ASK.md). A question is a row of the table in question.rt, an arm of its
// group, and a function there. The words of a line are read by args, many, number and slice, brought to another width by width, and its answer is printed by told and
// print: these know no question.
#![tactic(auto)]

mod args;
mod batch;
mod fields;
mod input;
mod integer;
mod kept;
mod list;
mod listed;
mod long;
mod many;
mod mended;
mod number;
mod objects;
mod packets;
mod print;
mod question;
mod reads;
mod recorded;
mod show;
mod slice;
mod told;
mod width;
mod writes;

use args::Args;
use input::Held;
use print::Answers;
use question::{Group, Question};
use std::process::ExitCode;
use std::str;

// Where the first line stands that is not answered, and the place after the answers.
#[derive(Drop)]
struct Done {
    start: usize,
    is_long: bool,
    at: usize,
}

fn out_room() -> [u8; 1048576] {
    [0u8; 1048576]
}

// For six lists of the most numbers that one may have.
fn numbers_room() -> [u32; 24576] {
    [0u32; 24576]
}

// A writer's output is filled before, and printed whole after its pieces.
fn write(
    name: &str,
    a: Args,
    line: &[u8],
    src: &[u8],
    numbers: &[u32],
    text: &mut Answers,
    at: usize,
) -> usize {
    let mut out = out_room();
    let page = print::page(&mut out, a.room);
    let t = writes::of(name, a, line, src, numbers, page);
    let o = show::tell(text, at, src, t);
    if !t.ok {
        return o;
    }
    print::output(text, o, page)
}

fn reply(
    q: &Question,
    a: Args,
    line: &[u8],
    numbers: &[u32],
    text: &mut Answers,
    at: usize,
) -> usize {
    let src = slice::counted(line, a.start, a.count);
    match q.group {
        Group::Reads => show::tell(text, at, src, reads::of(q.name, a, src)),
        Group::Writes => write(q.name, a, line, src, numbers, text, at),
        Group::Long => long::of(q.name, a, line, src, numbers, text, at),
    }
}

// A line's question, and its words.
fn read(line: &mut [u8], numbers: &mut [u32]) -> Option<(Question, Args)> {
    let end = slice::find(line, b' ');
    let q = question::named(str::from_utf8(&line[..end]).ok()?)?;
    let a = args::read(q.words, line, end, numbers)?;
    Some((q, a))
}

fn answer(line: &mut [u8], text: &mut Answers, at: usize) -> usize {
    let mut numbers = numbers_room();
    match read(line, &mut numbers) {
        Some((q, a)) => reply(&q, a, line, &numbers, text, at),
        None => print::unknown(text, at),
    }
}

// An answer with its line end; of a line that is too long not all is there.
fn answer_line(line: &mut [u8], is_long: bool, text: &mut Answers, at: usize) -> usize {
    if is_long || input::is_too_long(line) {
        let o = print::unknown(text, at);
        return print::put(text, o, b'\n');
    }
    let o = answer(line, text, at);
    print::put(text, o, b'\n')
}

// Answers each line that ends before a place, as long as what is said can be written; the first has no end in what was held.
fn answer_lines(lines: &mut [u8], held: Held, end: usize, text: &mut Answers) -> Done {
    let mut start: usize = 0;
    let mut seen = held.end;
    let mut is_long = held.is_long;
    let mut at: usize = 0;
    while let Some(stop) = input::line_end(lines, seen, end) {
        at = answer_line(slice::part_mut(lines, start, stop), is_long, text, at);
        if print::is_lost(text, at) {
            return Done { start, is_long, at };
        }
        is_long = false;
        start = stop + 1;
        seen = start;
    }
    Done { start, is_long, at }
}

// The last line, which has no end, if there is one.
fn answer_last(lines: &mut [u8], held: Held, text: &mut Answers) {
    if held.is_long || held.end > 0 {
        let line = slice::front_mut(lines, held.end);
        let at = answer_line(line, held.is_long, text, 0);
        print::flush(text, at);
    }
}

// What is held after a block, where its answers are written.
fn answer_block(lines: &mut [u8], held: Held, end: usize, text: &mut Answers) -> Option<Held> {
    let done = answer_lines(lines, held, end, text);
    if !print::flush(text, done.at) {
        return None;
    }
    Some(input::keep(lines, done.start, end, done.is_long))
}

// Until the input ends, or a reading or a writing fails.
fn run(rt: &HostRuntime, lines: &mut [u8], text: &mut Answers) {
    let mut held = Held {
        end: 0,
        is_long: false,
    };
    // the input ends before the turns do
    for _ in 0..u64::MAX {
        let Some(end) = input::more(rt, lines, held.end) else {
            return;
        };
        if end == held.end {
            answer_last(lines, held, text);
            return;
        }
        let Some(kept) = answer_block(lines, held, end, text) else {
            return;
        };
        held = kept;
    }
}

fn main(rt: HostRuntime) -> ExitCode {
    let mut lines = input::room();
    let mut text = print::empty(&rt);
    run(&rt, &mut lines, &mut text);
    if print::is_gone(&text) {
        return ExitCode::from(stream::GONE);
    }
    ExitCode::SUCCESS
}
