// A recording copied without its notes. The first pass judges every record and counts what is left out; the second writes, and meets no refusal.
ghost use Rattle.std.specs.Prelude.{◌≡◌, true, [], ◌+◌, ◌^◌, ◌≤◌, ◌<◌, length, take, drop};
ghost use Rattle.layout.specs.Answer.{got, pick};
ghost use Rattle.layout.specs.Written.{Put, took, spelling, roomed};
ghost use Rattle.recording.specs.Record.{is_written};
ghost use Rattle.recording.specs.Row.{whole_of};
ghost use Rattle.recording.specs.Copied.{kept, counted, left_out, Sweeps, Copies, CopiesFront, says_copied};

use layout::Refusal;
use wire::Cursor;

// What a copy leaves out: records, and their bytes, headers included.
#[derive(Drop)]
pub struct Left {
    pub records: usize,
    pub bytes: usize,
}

// The records at the front that are accepted: where they end, and what a copy leaves out of them; and why there are no more.
#[derive(Drop)]
struct Swept {
    end: usize,
    left: Left,
    stop: Result<(), Refusal>,
}

// The whole records at the front, so many bytes, and what became of their copy.
#[derive(Drop)]
pub struct Front {
    pub used: usize,
    pub copied: Result<(usize, Left), Refusal>,
}

// One record more.
fn count(left: Left, kind: u16, body: usize) -> Left
    requires { (left.records ≤ left.bytes) × (left.bytes + (6 + body) < 2 ^ 64) }
    ensures { result ≡ counted left kind body }
{
    if crate::is_written(kind) {
        return left;
    }
    Left {
        records: left.records + 1,
        bytes: left.bytes + (6 + body),
    }
}

fn sweep(s: &[u8]) -> Swept
    ensures { Sweeps s.now result }
{
    let mut at = 0;
    let mut left = Left {
        records: 0,
        bytes: 0,
    };
    // No range: each record says itself where the next one starts.
    while at < s.len() {
        match crate::read_record_at(s, Cursor { at }) {
            Ok((x, next)) => {
                left = count(left, x.kind, x.body.count);
                at = next.at;
            }
            Err(f) => {
                return Swept {
                    end: at,
                    left,
                    stop: Err(f),
                };
            }
        }
    }
    Swept {
        end: at,
        left,
        stop: Ok(()),
    }
}

// How many bytes at the front are whole records that are accepted.
pub fn whole_records(s: &[u8]) -> usize
    ensures { result ≡ whole_of s.now }
{
    sweep(s).end
}

// The whole record at a place, unless it is a note.
fn put_kept(kind: u16, s: &[u8], at: usize, whole: usize, out: &mut [u8], o: usize) -> usize
    ensures { Put out.old o (roomed out.old o (pick (is_written kind) (take whole (drop at s.now)) [])) out.new result }
{
    if !crate::is_written(kind) {
        return o;
    }
    layout::copy(s, at, whole, out, o)
}

fn put_copied(s: &[u8], out: &mut [u8]) -> usize
    requires { (took (kept s.now) ≡ true) × (length (spelling (kept s.now)) ≤ length out.old) }
    ensures { Put out.old 0 (spelling (kept s.now)) out.new result }
{
    let mut at = 0;
    let mut o = 0;
    // No range: each record says itself where the next one starts.
    while at < s.len() {
        let Ok((h, next)) = crate::read_head(s, at) else {
            return o;
        };
        o = put_kept(h.kind, s, at, 6 + h.body.count, out, o);
        at = next.at;
    }
    o
}

// Of records that are all accepted, of which so much is left out.
fn copy_swept(s: &[u8], left: Left, out: &mut [u8]) -> Result<(usize, Left), Refusal>
    requires { left_out s.now ≡ got left (length s.now) }
    ensures { Copies s.now out.old (says_copied result) out.new }
{
    let need = s.len() - left.bytes;
    if out.len() < need {
        return Err(layout::plain(layout::ROOM));
    }
    // without a note the copy is the recording as it is
    if left.bytes == 0 {
        let all = layout::copy(s, 0, s.len(), out, 0);
        return Ok((all, left));
    }
    let n = put_copied(s, out);
    Ok((n, left))
}

// Copies the recording to the front of the part lent to it.
pub fn copy_records(s: &[u8], out: &mut [u8]) -> Result<(usize, Left), Refusal>
    ensures { Copies s.now out.old (says_copied result) out.new }
{
    let swept = sweep(s);
    swept.stop?;
    copy_swept(s, swept.left, out)
}

// Copies the whole records at the front that are accepted, whatever follows them.
pub fn copy_front(s: &[u8], out: &mut [u8]) -> Front
    ensures { CopiesFront s.now out.old result out.new }
{
    let swept = sweep(s);
    let left = swept.left;
    let used = swept.end;
    let copied = copy_swept(&s[..used], left, out);
    Front { used, copied }
}
