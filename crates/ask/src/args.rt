// A question's words, read by its signature: a letter a word.
// 1 2 4 8: a number of so many bytes; r: a room; m: a report's room; b: bytes; o h n: a list of 8-bit, 16-bit and 32-bit numbers, as many lists as are
// lent room; l: a description's layout, `crate` or `book`; d: the data's direction, `in` or `out`; e: an edition, 1 or 2; k: a key's kind, `any` or `own`; w: as it stands.
use crate::{many, number, slice};

// The numbers of a list at most.
pub(crate) const MOST_NUMBERS: usize = 4096;

// The words of a question at most.
const MOST_WORDS: usize = 11;

// Of each word, in order, a number and a count: a number's value; 1 for `book`, `out` and `own`, 0 for `crate`, `in` and `any`; where bytes, a list or a word start, and how many they are. Of the
// last bytes or word, and of the room, again by name.
#[derive(Clone, Copy)]
pub(crate) struct Args {
    pub numbers: [usize; MOST_WORDS],
    pub counts: [usize; MOST_WORDS],
    pub start: usize,
    pub count: usize,
    pub room: usize,
    // how many words are read, the place in the line behind them, and in the lent numbers behind their lists
    n: usize,
    at: usize,
    used: usize,
}

// A word's number and count.
#[derive(Clone, Copy)]
struct Word {
    number: usize,
    count: usize,
}

// The largest number that a letter's words may be.
fn most(letter: u8) -> u64 {
    match letter {
        b'1' => u64::from(u8::MAX),
        b'2' => u64::from(u16::MAX),
        b'4' => u64::from(u32::MAX),
        b'e' => 2,
        b'r' => 1048576,
        b'm' => 4096,
        _ => u64::MAX,
    }
}

fn a_number(letter: u8, w: &[u8]) -> Option<Word> {
    let n = number::parse(w, most(letter))?;
    Some(Word {
        number: n as usize,
        count: 0,
    })
}

// One of two words: 0 for the first, 1 for the second.
fn either(w: &[u8], first: &[u8], second: &[u8]) -> Option<Word> {
    let is_second = w == second;
    if !is_second && w != first {
        return None;
    }
    Some(Word {
        number: usize::from(is_second),
        count: 0,
    })
}

fn a_list(w: &[u8], most: u32, numbers: &mut [u32], used: usize) -> Option<Word> {
    let room = slice::counted_mut(numbers, used, MOST_NUMBERS);
    Some(Word {
        number: used,
        count: many::list(w, most, room)?,
    })
}

fn one(letter: u8, w: &mut [u8], start: usize, numbers: &mut [u32], used: usize) -> Option<Word> {
    match letter {
        b'b' => Some(Word {
            number: start,
            count: many::hex_bytes(w)?,
        }),
        b'o' => a_list(w, u32::from(u8::MAX), numbers, used),
        b'h' => a_list(w, u32::from(u16::MAX), numbers, used),
        b'n' => a_list(w, u32::MAX, numbers, used),
        b'l' => either(w, b"crate", b"book"),
        b'd' => either(w, b"in", b"out"),
        b'e' => a_number(letter, w).filter(|edition| edition.number > 0),
        b'k' => either(w, b"any", b"own"),
        b'w' => Some(Word {
            number: start,
            count: w.len(),
        }),
        _ => a_number(letter, w),
    }
}

impl Args {
    // None of the words that stand behind a place of the line.
    fn none_at(at: usize) -> Args {
        Args {
            numbers: [0; MOST_WORDS],
            counts: [0; MOST_WORDS],
            start: 0,
            count: 0,
            room: 0,
            n: 0,
            at,
            used: 0,
        }
    }

    fn and(&mut self, letter: u8, word: Word) -> Option<()> {
        *self.numbers.get_mut(self.n)? = word.number;
        *self.counts.get_mut(self.n)? = word.count;
        self.n += 1;
        match letter {
            b'b' | b'w' => {
                self.start = word.number;
                self.count = word.count;
            }
            b'r' => self.room = word.number,
            b'o' | b'h' | b'n' => self.used = self.used.wrapping_add(MOST_NUMBERS),
            _ => {}
        }
        Some(())
    }

    // The word behind the space at the place.
    fn read_next(&mut self, letter: u8, line: &mut [u8], numbers: &mut [u32]) -> Option<()> {
        let start = self.at.checked_add(1)?;
        let rest = line.get_mut(start..)?;
        let end = slice::find(rest, b' ');
        let word = one(letter, &mut rest[..end], start, numbers, self.used)?;
        self.at = start.checked_add(end)?;
        self.and(letter, word)
    }
}

// The words behind a place of the line, one for each letter, and nothing after them.
pub(crate) fn read(
    signature: &[u8],
    line: &mut [u8],
    at: usize,
    numbers: &mut [u32],
) -> Option<Args> {
    let mut a = Args::none_at(at);
    for letter in signature {
        a.read_next(*letter, line, numbers)?;
    }
    (a.at == line.len()).then_some(a)
}

pub(crate) fn low8(x: usize) -> u8 {
    (x % 256) as u8
}

pub(crate) fn low16(x: usize) -> u16 {
    (x % 65536) as u16
}

pub(crate) fn low32(x: usize) -> u32 {
    (x % 4294967296) as u32
}
