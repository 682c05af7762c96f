// The questions that write: words, bytes and lists in, the output filled and lent, pieces out.
use crate::args::{Args, low16, low32};
use crate::told::Told;
use crate::{integer, kept, objects, packets, reads, slice, told, width};
use layout::Refusal;
use session::{Made, Session};
use std::str;
use wire::{Command, Cursor};

fn made(m: Result<Made, Refusal>) -> Told {
    match m {
        Ok(made) => told::ok()
            .number(made.number as u64)
            .number(made.next.number as u64)
            .number(made.count as u64),
        Err(f) => told::refused(f),
    }
}

// As many parameters as are given, of which only five have a place.
fn command_of(a: Args, numbers: &[u32]) -> Command {
    session::command_of(
        low16(a.numbers[1]),
        slice::counted(numbers, a.numbers[2], a.counts[2]),
    )
}

fn state(x: usize) -> Session {
    if x == 0 {
        return session::fresh();
    }
    Session { number: low32(x) }
}

fn write_string(a: Args, numbers: &[u32], page: &mut [u8]) -> Told {
    let mut room = width::halves_room();
    let units = width::to16(
        slice::counted(numbers, a.numbers[0], a.counts[0]),
        &mut room,
    );
    told::written(wire::write_text(units, page))
}

fn write_value(a: Args, w: &[u8], page: &mut [u8]) -> Told {
    match integer::integer_of(low16(a.numbers[0]), w) {
        Some(v) => told::written(wire::write_integer(v, page)),
        None => told::unknown(),
    }
}

// The handle of the roots and that of all have calls of their own.
fn num_objects(storage: u32, filter: u32, handle: u32) -> Command {
    if handle == 0xFFFF_FFFF {
        return session::get_num_objects_roots(storage, filter);
    }
    if handle == 0 {
        return session::get_num_objects_all(storage, filter);
    }
    session::get_num_objects(storage, filter, handle)
}

fn object_handles(storage: u32, filter: u32, handle: u32) -> Command {
    if handle == 0xFFFF_FFFF {
        return session::get_object_handles_root(storage, filter);
    }
    if handle == 0 {
        return session::get_object_handles_all(storage, filter);
    }
    session::get_object_handles(storage, filter, handle)
}

fn called(name: &str, storage: u32, filter: u32, handle: u32) -> Option<Command> {
    match name {
        "GetDeviceInfo" => Some(session::get_device_info()),
        "OpenSession" => Some(session::open_session()),
        "CloseSession" => Some(session::close_session()),
        "GetStorageIDs" => Some(session::get_storage_ids()),
        "GetStorageInfo" => Some(session::get_storage_info(storage)),
        "GetNumObjects" => Some(num_objects(storage, filter, handle)),
        "GetObjectHandles" => Some(object_handles(storage, filter, handle)),
        "GetObjectInfo" => Some(session::get_object_info(handle)),
        "GetObject" => Some(session::get_object(handle)),
        _ => None,
    }
}

// The command of a call.
fn command_named(a: Args, name: &[u8]) -> Option<Command> {
    called(
        str::from_utf8(name).ok()?,
        low32(a.numbers[2]),
        low32(a.numbers[3]),
        low32(a.numbers[4]),
    )
}

fn call(a: Args, name: &[u8], page: &mut [u8]) -> Told {
    match command_named(a, name) {
        Some(c) => made(session::command(state(a.numbers[1]), c, page)),
        None => told::unknown(),
    }
}

// Of the two words that are bytes the description comes first.
fn set_value(a: Args, line: &[u8], src: &[u8], page: &mut [u8]) -> Told {
    made(panel::set_value(
        reads::layout(a),
        state(a.numbers[1]),
        slice::counted(line, a.numbers[2], a.counts[2]),
        low16(a.numbers[3]),
        src,
        page,
    ))
}

// The writers that take bytes, and of the words at most three numbers.
fn of_bytes(question: &str, a: Args, src: &[u8], page: &mut [u8]) -> Told {
    let n = low16(a.numbers[0]);
    match question {
        "utf8" => told::written((Cursor { at: a.numbers[0] }).utf8(src, page)),
        "write-array" => told::written(wire::write_array(n, src, page)),
        "tidy-value" => told::written(wire::tidy_value(n, src, page)),
        "tidy-device" => told::written(wire::tidy_device(src, page)),
        "tidy-object" => told::written(wire::tidy_object(src, page)),
        "tidy-storage" => told::written(wire::tidy_storage(src, page)),
        "tidy-property" => told::written(wire::tidy_property(reads::layout(a), src, page)),
        "write-container" => told::written(wire::write_container(
            n,
            low16(a.numbers[1]),
            low32(a.numbers[2]),
            src,
            page,
        )),
        "write-record" => told::written(recording::write_record(n, src, page)),
        "to-network" => packets::to_network(a, src, page),
        "from-network" => packets::from_network(src, page),
        _ => told::unknown(),
    }
}

pub(crate) fn of(
    question: &str,
    a: Args,
    line: &[u8],
    src: &[u8],
    numbers: &[u32],
    page: &mut [u8],
) -> Told {
    match question {
        "panel" => set_value(a, line, src, page),
        "settings-store" => kept::store(a, line, src, page),
        "settings-write" => kept::write(a, numbers, src, page),
        "settings-remove" => kept::remove(a, numbers, src, page),
        "write-value" => write_value(a, src, page),
        "call" => call(a, src, page),
        "write-string" => write_string(a, numbers, page),
        "command" => made(session::command(state(a.numbers[0]), command_of(a, numbers), page)),
        "command-data" => made(session::command_with_data(
            state(a.numbers[0]),
            command_of(a, numbers),
            src,
            page,
        )),
        "path" => objects::path(a, line, numbers, page),
        _ => of_bytes(question, a, src, page),
    }
}
