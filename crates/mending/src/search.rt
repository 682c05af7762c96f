// The two searches of mending: past bytes at which no record stands, and past records one after the other.
ghost use Rattle.std.specs.Prelude.{◌≤◌, length};
ghost use Rattle.mending.specs.Passed.{Gap, Row};

use recording::ReadFront;

// Where the records end that stand one after the other, and how many they are.
#[derive(Drop)]
pub(crate) struct Run {
    pub end: usize,
    pub records: usize,
}

// The first place from `from` on at which a record stands, or may stand when more bytes have come; or the end.
pub(crate) fn gap_end(s: &[u8], from: usize, last: bool) -> usize
    requires { from ≤ length s.now }
    ensures { Gap last s.now from result }
{
    // Counted by hand: the must-fail edit `next_place_after_the_refused` is of this step.
    let mut at = from;
    while at < s.len() {
        let part = &s[at..];
        match recording::read_front(part, last) {
            ReadFront::Got(_, _) => {
                return at;
            }
            ReadFront::Cut(_) => {
                return at;
            }
            ReadFront::Refused(_) => {
                at += 1;
            }
        }
    }
    at
}

// The records that stand from `from` on, of at most `room` bytes.
pub(crate) fn run_end(s: &[u8], from: usize, room: usize) -> Run
    requires { from ≤ length s.now }
    ensures { Row s.now from room result }
{
    let mut end = from;
    let mut records = 0;
    let mut left = room;
    // No range: each record says itself where the next one starts.
    while end < s.len() {
        let part = &s[end..];
        let Ok((_, next)) = recording::read_record(part) else {
            return Run { end, records };
        };
        if left < next.at {
            return Run { end, records };
        }
        left -= next.at;
        end += next.at;
        records += 1;
    }
    Run { end, records }
}
