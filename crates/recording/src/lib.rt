// Records of a recording, read and written one at a time; a recording as a whole; and one copied without its notes.
#![tactic(auto)]

ghost use Rattle.wire.specs.Read.{says_read};
ghost use Rattle.layout.specs.Answer.{says_count};
ghost use Rattle.std.specs.Prelude.{◌≡◌, ◌≤◌, length};
ghost use Rattle.layout.specs.Written.{Wrote, says};
ghost use Rattle.recording.specs.Record.{limit, is_kind, is_written, content_at, body_at, head_at, record_at, record_of, record_word, record_said, says_read_content, says_record};
ghost use Rattle.recording.specs.Record.{begins as Record·begins};
ghost use Rattle.recording.specs.Row.{waits_for, Finds};

mod copy;
mod row;

pub use copy::{Front, Left, copy_front, copy_records, whole_records};
use layout::Refusal;
pub use row::read_recording;
use wire::{Container, Cursor, Part, Read};

// The longest body.
const LIMIT: usize = 65000;

// A record's body by its place.
#[derive(Drop)]
pub struct Record {
    pub kind: u16,
    pub body: Part,
    // None in a note.
    pub content: Option<Container>,
}

// A record's front: its kind, and where its body stands.
#[derive(Drop)]
struct Head {
    kind: u16,
    body: Part,
}

// What is found at the front of bytes that others may follow: these may change what is found of a record that is cut.
#[derive(Drop)]
pub enum ReadFront {
    Got(Record, Cursor),
    Refused(Refusal),
    Cut(Refusal),
}

fn is_kind(kind: u16) -> bool
    ensures { result ≡ is_kind kind }
{
    if kind < 1 {
        return false;
    }
    kind <= 3
}

// The kinds that are written. A note is read, and no more written.
fn is_written(kind: u16) -> bool
    ensures { result ≡ is_written kind }
{
    if kind < 1 {
        return false;
    }
    kind <= 2
}

fn begins(len: u32, kind: u16) -> bool
    ensures { result ≡ Record·begins len kind }
{
    if len < 6 {
        return false;
    }
    is_kind(kind)
}

// What the body at a place holds, in bytes that end with it.
#[tactic(auto, unfolding(crate::specs::Record::content_at, layout::specs::Answer::after))]
fn content_at(kind: u16, s: &[u8], at: usize) -> Read<Option<Container>>
    ensures { says_read_content result ≡ content_at kind s.now at }
{
    if kind == 3 {
        return Ok((None, Cursor { at: s.len() }));
    }
    let (x, next) = wire::read_container(s, Cursor { at })?;
    if next.at != s.len() {
        return Err(layout::plain(layout::TRAIL));
    }
    Ok((Some(x), next))
}

// The body that starts at a place, of a record of that length and kind.
#[tactic(auto, using(crate::proofs::Recorded::body_13, crate::proofs::Recorded::body_14, crate::proofs::Recorded::body_short, crate::proofs::Recorded::body_there, crate::proofs::Recorded::long_enough))]
fn body_at(len: u32, kind: u16, s: &[u8], start: usize) -> Read<Head>
    requires { start ≤ length s.now }
    ensures { says_read result ≡ body_at len kind s.now start }
{
    if !begins(len, kind) {
        return Err(layout::plain(layout::RECORD));
    }
    let count = (len - 6) as usize;
    if count > LIMIT {
        return Err(layout::plain(layout::LONG));
    }
    if s.len() - start < count {
        return Err(layout::end_at(start));
    }
    Ok((
        Head {
            kind,
            body: Part { start, count },
        },
        Cursor { at: start + count },
    ))
}

// The head of the record at a place, with the place after its body.
#[tactic(auto, unfolding(crate::specs::Record::head_at, layout::specs::Answer::after), using(crate::proofs::Recorded::field_ends))]
fn read_head(s: &[u8], at: usize) -> Read<Head>
    ensures { says_read result ≡ head_at s.now at }
{
    let (len, next) = Cursor { at }.u32(s)?;
    let (kind, body) = next.u16(s)?;
    body_at(len, kind, s, body.at)
}

// Whether bytes that follow may change a head's refusal: they may where it is END, unless none will come.
fn is_open(no: u8, last: bool) -> bool
    ensures { result ≡ waits_for last no }
{
    if last {
        return false;
    }
    no == layout::END
}

#[tactic(auto, unfolding(crate::specs::Record::record_at, layout::specs::Answer::after, layout::specs::Answer::means))]
fn read_at(s: &[u8], at: usize, last: bool) -> ReadFront
    ensures { Finds last s.now at result }
{
    match read_head(s, at) {
        Ok((head, end)) => match content_at(head.kind, &s[..end.at], head.body.start) {
            Ok((content, next)) => ReadFront::Got(
                Record {
                    kind: head.kind,
                    body: head.body,
                    content,
                },
                next,
            ),
            Err(f) => ReadFront::Refused(f),
        },
        Err(f) => {
            if is_open(f.no, last) {
                return ReadFront::Cut(f);
            }
            ReadFront::Refused(f)
        }
    }
}

// The record at a place. Its parts, and the place of a refusal, count in the bytes that are lent.
pub fn read_record_at(s: &[u8], c: Cursor) -> Read<Record>
    ensures { says_record result ≡ record_at s.now c.at }
{
    match read_at(s, c.at, true) {
        ReadFront::Got(x, next) => Ok((x, next)),
        ReadFront::Refused(f) => Err(f),
        ReadFront::Cut(f) => Err(f),
    }
}

// The record at the front of the bytes.
pub fn read_record(s: &[u8]) -> Read<Record>
    ensures { says_record result ≡ record_of s.now }
{
    read_record_at(s, Cursor { at: 0 })
}

// The same of bytes that others may follow, unless `last` says that none will: the record is cut where these may change what is found. They
// may where the head is refused with END, and not where the content of a whole body is.
pub fn read_front(s: &[u8], last: bool) -> ReadFront
    ensures { Finds last s.now 0 result }
{
    read_at(s, 0, last)
}

fn put_record(kind: u16, body: &[u8], out: &mut [u8]) -> Result<usize, Refusal>
    requires { length body.now ≤ limit }
    ensures { Wrote (says (record_word kind body.now)) out.old (says_count result) out.new }
{
    let whole = 6 + body.len();
    if out.len() < whole {
        return Err(layout::plain(layout::ROOM));
    }
    let a = layout::store(out, 0, 4, whole as u64);
    let b = layout::store(out, a, 2, kind as u64);
    Ok(layout::copy(body, 0, body.len(), out, b))
}

// One record at the front of the part lent to it.
#[tactic(auto, unfolding(crate::specs::Record::record_said, layout::specs::Written::said_of, layout::specs::Written::answer_of, layout::specs::Written::left_of, layout::specs::Answer::means))]
pub fn write_record(kind: u16, body: &[u8], out: &mut [u8]) -> Result<usize, Refusal>
    ensures { Wrote (record_said kind body.now) out.old (says_count result) out.new }
{
    if !is_written(kind) {
        return Err(layout::plain(layout::RECORD));
    }
    if body.len() > LIMIT {
        return Err(layout::plain(layout::LONG));
    }
    content_at(kind, body, 0)?;
    put_record(kind, body, out)
}
