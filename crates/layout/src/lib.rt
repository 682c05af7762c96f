// What a refusal tells, made in one place, and what every writer does. What a layout is stands in specs/.
#![tactic(auto)]

ghost use Rattle.std.specs.Prelude.{◌≡◌};
ghost use Rattle.layout.specs.Answer.{end_at, bad_text, bare};

mod write;

pub use write::{copy, least, left, store};

// The refusals by number. When each is given stands in specs/Refusals.antt.
pub const END: u8 = 1;

pub const TEXT: u8 = 2;

pub const TRAIL: u8 = 3;

pub const KIND: u8 = 4;

pub const LENGTH: u8 = 5;

pub const SIZE: u8 = 6;

pub const TID: u8 = 7;

pub const NOPHASE: u8 = 8;

pub const ROOM: u8 = 9;

pub const COUNT: u8 = 10;

pub const TABLE: u8 = 11;

pub const PLACE: u8 = 12;

pub const RECORD: u8 = 13;

pub const LONG: u8 = 14;

// Which refusal; and, of a reader's 1 and 2, the first byte of the field that failed. Where there is no place, `at` is 0.
#[derive(Drop)]
pub struct Refusal {
    pub no: u8,
    pub placed: bool,
    pub at: usize,
}

// 1 END: the field that starts at the place is not whole.
pub fn end_at(place: usize) -> Refusal
    ensures { result ≡ end_at place }
{
    Refusal {
        no: END,
        placed: true,
        at: place,
    }
}

// 2 TEXT: the string that starts at the place has an unpaired surrogate.
pub fn bad_text(place: usize) -> Refusal
    ensures { result ≡ bad_text place }
{
    Refusal {
        no: TEXT,
        placed: true,
        at: place,
    }
}

// Any other refusal, which has no place.
pub fn plain(number: u8) -> Refusal
    ensures { result ≡ bare number }
{
    Refusal {
        no: number,
        placed: false,
        at: 0,
    }
}
