// The questions that read: words and bytes in, pieces out. Nothing is lent to be changed.
use crate::args::{Args, low8, low16, low32};
use crate::told::Told;
use crate::{fields, packets, show, told};
use names::Name;
use session::Found;
use wire::{Cursor, Part, PropLayout, Read, Step};

fn name(n: Option<Name>) -> Told {
    match n {
        Some(p) => show::name(told::ok(), p.start, p.len),
        None => told::say(b"none"),
    }
}

fn value(a: Args, src: &[u8]) -> Told {
    let code = low16(a.numbers[0]);
    match (Cursor { at: a.numbers[1] }).value(src, code) {
        Ok((v, next)) => show::value(told::ok(), code, v).number(next.at as u64),
        Err(f) => told::refused(f),
    }
}

fn end(a: Args, src: &[u8]) -> Told {
    match (Cursor { at: a.numbers[0] }).end(src) {
        Ok(_) => told::ok(),
        Err(f) => told::refused(f),
    }
}

fn unit(a: Args, src: &[u8]) -> Told {
    match (Cursor { at: a.numbers[1] }).unit(src, a.numbers[0]) {
        Ok((u, _)) => told::ok().number(u as u64),
        Err(f) => told::refused(f),
    }
}

fn item(a: Args, src: &[u8]) -> Told {
    let code = low16(a.numbers[0]);
    match (Cursor { at: a.numbers[2] }).item(src, code, a.numbers[1]) {
        Ok((v, _)) => show::value(told::ok(), code, v),
        Err(f) => told::refused(f),
    }
}

// `ok` and the length taken.
fn taken(next: Cursor) -> Told {
    told::ok().number(next.at as u64)
}

fn device(src: &[u8]) -> Told {
    match wire::device_info(src, Cursor { at: 0 }) {
        Ok((d, next)) => fields::device(taken(next), d),
        Err(f) => told::refused(f),
    }
}

fn object(src: &[u8]) -> Told {
    match wire::object_info(src, Cursor { at: 0 }) {
        Ok((d, next)) => fields::object(taken(next), d),
        Err(f) => told::refused(f),
    }
}

fn storage(src: &[u8]) -> Told {
    match wire::storage_info(src, Cursor { at: 0 }) {
        Ok((d, next)) => fields::storage(taken(next), d),
        Err(f) => told::refused(f),
    }
}

// The layout that the question names, by its first word.
pub(crate) fn layout(a: Args) -> PropLayout {
    if a.numbers[0] == 1 {
        PropLayout::Book
    } else {
        PropLayout::Crate
    }
}

fn property(a: Args, src: &[u8]) -> Told {
    match wire::property_info(layout(a), src, Cursor { at: 0 }) {
        Ok((d, next)) => fields::property(taken(next), d),
        Err(f) => told::refused(f),
    }
}

fn nth(a: Args, src: &[u8]) -> Told {
    let list = wire::place_of(layout(a), src);
    match wire::nth(layout(a), src, a.numbers[1]) {
        Ok((v, slot, _)) => { show::value(told::ok(), list.ty, v).span(slot.start, slot.len) }
        Err(f) => told::refused(f),
    }
}

fn step(a: Args, src: &[u8]) -> Told {
    let ty = low16(a.numbers[1]);
    match wire::step_at(
        src,
        ty,
        a.numbers[2],
        low16(a.numbers[3]),
        low8(a.numbers[4]),
    ) {
        Some(step) => show::value(told::ok(), ty, step.value).span(step.at, step.left as usize),
        None => told::say(b"end"),
    }
}

fn header(src: &[u8]) -> Told {
    match wire::read_header(src, Cursor { at: 0 }) {
        Ok((h, _)) => told::ok()
            .number(h.kind as u64)
            .number(h.code as u64)
            .number(h.number as u64)
            .number(h.payload_len as u64),
        Err(f) => told::refused(f),
    }
}

fn container(src: &[u8]) -> Told {
    match wire::read_container(src, Cursor { at: 0 }) {
        Ok((c, _)) => {
            let p = c.payload;
            told::ok()
                .number(c.kind as u64)
                .number(c.code as u64)
                .number(c.number as u64)
                .span(p.start, p.count)
        }
        Err(f) => told::refused(f),
    }
}

fn answer(a: Args, src: &[u8]) -> Told {
    match session::find_answer(src, low32(a.numbers[0])) {
        Ok((Found::Payload(p), next)) => told::ok()
            .word(b"data")
            .span(p.start, p.count)
            .number(next.at as u64),
        Ok((Found::Response(code), next)) => told::ok()
            .word(b"response")
            .number(code as u64)
            .number(next.at as u64),
        Err(f) => told::refused(f),
    }
}

fn response(a: Args, src: &[u8]) -> Told {
    match session::find_response(src, low32(a.numbers[0])) {
        Ok((x, next)) => {
            let payload = x.payload;
            let last = x.last;
            told::ok()
                .number(x.code as u64)
                .span(payload.start, payload.count)
                .span(last.start, last.count)
                .number(next.at as u64)
        }
        Err(f) => told::refused(f),
    }
}

fn needed(a: Args, src: &[u8]) -> Told {
    told::ok().number(session::needed(src, low32(a.numbers[0])) as u64)
}

fn list(r: Read<Part>) -> Told {
    match r {
        Ok((p, _)) => show::list(told::ok(), p),
        Err(f) => told::refused(f),
    }
}

fn object_count(src: &[u8]) -> Told {
    match session::object_count(src) {
        Ok((n, _)) => told::ok().number(n as u64),
        Err(f) => told::refused(f),
    }
}

fn storage_info(src: &[u8]) -> Told {
    match session::storage_info(src) {
        Ok((d, _)) => fields::storage(told::ok(), d),
        Err(f) => told::refused(f),
    }
}

fn device_info(src: &[u8]) -> Told {
    match session::device_info(src) {
        Ok((d, _)) => fields::device(told::ok(), d),
        Err(f) => told::refused(f),
    }
}

fn object_info(src: &[u8]) -> Told {
    match session::object_info(src) {
        Ok((d, _)) => fields::object(told::ok(), d),
        Err(f) => told::refused(f),
    }
}

fn record(src: &[u8]) -> Told {
    match recording::read_record(src) {
        Ok((r, next)) => {
            let p = r.body;
            told::ok()
                .number(r.kind as u64)
                .span(p.start, p.count)
                .number(next.at as u64)
        }
        Err(f) => told::refused(f),
    }
}

pub(crate) fn of(question: &str, a: Args, src: &[u8]) -> Told {
    match question {
        "response-name" => name(names::response_name(low16(a.numbers[0]))),
        "command-name" => name(names::command_name(low16(a.numbers[0]))),
        "value" => value(a, src),
        "end" => end(a, src),
        "unit" => unit(a, src),
        "item" => item(a, src),
        "device" => device(src),
        "object" => object(src),
        "storage" => storage(src),
        "property" => property(a, src),
        "nth" => nth(a, src),
        "step" => step(a, src),
        "header" => header(src),
        "container" => container(src),
        "answer" => answer(a, src),
        "response" => response(a, src),
        "needed" => needed(a, src),
        "handles" => list(session::object_handles(src)),
        "storage-ids" => list(session::storage_ids(src)),
        "object-count" => object_count(src),
        "storage-info" => storage_info(src),
        "device-info" => device_info(src),
        "object-info" => object_info(src),
        "record" => record(src),
        "packet" => packets::packet(a, src),
        _ => told::unknown(),
    }
}
