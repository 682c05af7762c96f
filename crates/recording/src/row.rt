// A recording as a whole: how many records it has, from end to end. What a record and a recording are stands in specs/Layout.
ghost use Rattle.wire.specs.Read.{says_read};
ghost use Rattle.std.specs.Prelude.{◌≡◌, length};
ghost use Rattle.layout.specs.Answer.{means};
ghost use Rattle.recording.specs.Row.{row_of};

use layout::Refusal;
use wire::{Cursor, Read};

// Accepted from end to end; or refused as its first refused record is. The place of a refusal counts in all the bytes.
#[tactic(auto, using(crate::proofs::Going::going_start, crate::proofs::Going::going_ahead, crate::proofs::Going::going_on, crate::proofs::Going::going_refused, crate::proofs::Going::going_end))]
pub fn read_recording(s: &[u8]) -> Read<usize>
    ensures { says_read result ≡ means length (row_of s.now) }
{
    let mut at = 0;
    let mut records = 0;
    // No range: each record says itself where the next one starts.
    while at < s.len() {
        let (_, next) = crate::read_record_at(s, Cursor { at })?;
        records += 1;
        at = next.at;
    }
    Ok((records, Cursor { at }))
}
