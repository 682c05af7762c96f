// A container, and a record of a recording.
ghost use Rattle.layout.specs.Answer.{says_count};
ghost use Rattle.std.specs.Prelude.{◌≡◌, ◌∷◌};
ghost use Rattle.layout.specs.Written.{Wrote};
ghost use Rattle.recording.specs.Record.{record_of, says_content, record_from};
ghost use Rattle.abi.specs.Answered.{Gives, given};
ghost use Rattle.wire.specs.Container.{container_at};
ghost use Rattle.abi.specs.Rows.{container_row, content_row, record_row};

use crate::answer;
use layout::Refusal;
use recording::Record;
use wire::{Container, Cursor};

fn container_row(x: Container) -> [u64; 5]
    ensures { result ≡ container_row x }
{
    [
        x.kind as u64,
        x.code as u64,
        x.number as u64,
        x.payload.start as u64,
        x.payload.count as u64,
    ]
}

fn placed_container(x: Container, next: usize) -> [u64; 6]
    ensures { result ≡ next ∷ container_row x }
{
    let c = container_row(x);
    [next as u64, c[0], c[1], c[2], c[3], c[4]]
}

fn give_container(s: &[u8], at: usize, out: &mut [u64]) -> Result<usize, Refusal>
    ensures { Wrote (given container_row (container_at s.now at)) out.old (says_count result) out.new }
{
    let (x, next) = wire::read_container(s, Cursor { at })?;
    answer::give(&placed_container(x, next.at), out)
}

// The place after it, then its kind, code, number and payload.
#[unsafe(no_mangle)]
pub extern "C" fn ptp_read_container(s: &[u8], at: usize, out: &mut [u64]) -> u64
    ensures { Gives (given container_row (container_at s.now at)) out.old result out.new }
{
    answer::told(give_container(s, at, out))
}

fn content_row(c: Option<Container>) -> [u64; 5]
    ensures { result ≡ content_row (says_content c) }
{
    match c {
        None => [0, 0, 0, 0, 0],
        Some(x) => container_row(x),
    }
}

fn record_row(x: Record, len: usize) -> [u64; 9]
    ensures { result ≡ len ∷ record_row (record_from x) }
{
    let content = x.content;
    let c = content_row(content);
    [
        len as u64,
        x.kind as u64,
        x.body.start as u64,
        x.body.count as u64,
        c[0],
        c[1],
        c[2],
        c[3],
        c[4],
    ]
}

fn give_record(s: &[u8], out: &mut [u64]) -> Result<usize, Refusal>
    ensures { Wrote (given record_row (record_of s.now)) out.old (says_count result) out.new }
{
    let (x, next) = recording::read_record(s)?;
    answer::give(&record_row(x, next.at), out)
}

// The length taken, the record's kind, its body; then its container's kind, code, number and payload, all 0 for a note.
#[unsafe(no_mangle)]
pub extern "C" fn ptp_read_record(s: &[u8], out: &mut [u64]) -> u64
    ensures { Gives (given record_row (record_of s.now)) out.old result out.new }
{
    answer::told(give_record(s, out))
}
