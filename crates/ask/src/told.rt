// An answer by value: pieces that print with a space between two. An answer of more pieces than there is room for is none, and prints as one.
use crate::slice;
use layout::Refusal;

#[derive(Clone, Copy)]
pub(crate) enum Piece {
    Word(&'static [u8]),
    Number(u64),
    Int(i64),
    Pair {
        high: u64,
        low: u64,
    },
    // these stand in the question's bytes: a string's units,
    Text {
        start: usize,
        count: usize,
    },
    // an array's items, by their type,
    Items {
        code: u16,
        start: usize,
        count: usize,
    },
    // the items of an AUINT32, as a list of numbers,
    List {
        start: usize,
        count: usize,
    },
    // and so many values of a type, which fill a part
    Values {
        code: u16,
        start: usize,
        len: usize,
        count: usize,
    },
    // a name, by its place in the name bytes
    Name {
        start: usize,
        len: usize,
    },
}

// The pieces of a row at most.
const MOST_PIECES: usize = 24;

#[derive(Clone, Copy)]
pub(crate) struct Told {
    row: [Piece; MOST_PIECES],
    n: usize,
    pub ok: bool,
}

fn empty(ok: bool) -> Told {
    Told {
        row: [Piece::Number(0); MOST_PIECES],
        n: 0,
        ok,
    }
}

// The answer to what is no question.
pub(crate) fn unknown() -> Told {
    empty(false)
}

// An answer that begins with a word.
pub(crate) fn say(w: &'static [u8]) -> Told {
    empty(true).word(w)
}

pub(crate) fn ok() -> Told {
    say(b"ok")
}

// Every refusal is told here: its number, and its place where it has one.
pub(crate) fn refused(f: Refusal) -> Told {
    let t = say(b"no").number(f.no as u64);
    if f.placed {
        return t.number(f.at as u64);
    }
    t
}

pub(crate) fn written(w: Result<usize, Refusal>) -> Told {
    match w {
        Ok(n) => ok().number(n as u64),
        Err(f) => refused(f),
    }
}

impl Told {
    pub(crate) fn and(self, p: Piece) -> Told {
        let mut t = self;
        let n = t.n;
        match t.row.get_mut(n) {
            Some(place) => {
                *place = p;
                t.n = n + 1;
            }
            None => t.ok = false,
        }
        t
    }

    pub(crate) fn number(self, n: u64) -> Told {
        self.and(Piece::Number(n))
    }

    // Where a part starts, and how much it is.
    pub(crate) fn span(self, start: usize, count: usize) -> Told {
        self.number(start as u64).number(count as u64)
    }

    pub(crate) fn word(self, w: &'static [u8]) -> Told {
        self.and(Piece::Word(w))
    }

    pub(crate) fn pieces(&self) -> &[Piece] {
        slice::front(&self.row, self.n)
    }
}
