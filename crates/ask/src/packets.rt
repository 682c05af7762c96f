// The questions of the network: a transaction's containers as packets and back, and a packet at a place.
use crate::args::Args;
use crate::told;
use crate::told::Told;
use network::{Direction, Packet};
use wire::Cursor;

// The direction that the question names, by its first word.
fn direction(a: Args) -> Direction {
    if a.numbers[0] == 1 {
        Direction::Out
    } else {
        Direction::In
    }
}

pub(crate) fn to_network(a: Args, src: &[u8], page: &mut [u8]) -> Told {
    told::written(network::to_network(src, direction(a), page))
}

pub(crate) fn from_network(src: &[u8], page: &mut [u8]) -> Told {
    told::written(network::from_network(src, page))
}

// The numbers that its kind has, before parameters and data.
fn numbers(x: Packet) -> Told {
    let kind = x.kind;
    let t = told::ok().number(kind as u64);
    match kind {
        6 => t
            .number(x.phase as u64)
            .number(x.code as u64)
            .number(x.number as u64),
        7 => t.number(x.code as u64).number(x.number as u64),
        9 => t.number(x.number as u64).number(x.total),
        _ => t.number(x.number as u64),
    }
}

// Start data has neither parameters nor data.
fn body(x: Packet) -> Told {
    let p = x.body;
    if x.kind == 9 {
        return numbers(x);
    }
    numbers(x).span(p.start, p.count)
}

pub(crate) fn packet(a: Args, src: &[u8]) -> Told {
    match network::read_packet(src, Cursor { at: a.numbers[0] }) {
        Ok((x, next)) => body(x).number(next.at as u64),
        Err(f) => told::refused(f),
    }
}
