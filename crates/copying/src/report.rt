// The line that a copy ends with.
ghost use Rattle.std.specs.Prelude.{◌≤◌, length};
ghost use Rattle.layout.specs.Written.{Put};
ghost use Rattle.text.specs.Lines.{refusal_line};
ghost use Rattle.copying.specs.Report.{left_line, report_of};

use crate::{Fate, Tally};
use layout::Refusal;

fn put_left(records: u64, bytes: u64, out: &mut [u8; 128]) -> usize
    ensures { Put out.old 0 (left_line records bytes) out.new result × (result ≤ length out.old) }
{
    let a = layout::copy(b"left out ", 0, 9, out, 0);
    let b = text::put_number(records, out, a);
    let c = layout::copy(b" records ", 0, 9, out, b);
    let d = text::put_number(bytes, out, c);
    layout::copy(b" bytes\n", 0, 7, out, d)
}

fn put_refused(place: u64, f: Refusal, out: &mut [u8; 128]) -> usize
    ensures { Put out.old 0 (refusal_line place f) out.new result × (result ≤ length out.old) }
{
    text::put_refusal(place, f, out, 0)
}

// The line at the front of room that any such line has; nothing while the copy goes on.
pub(crate) fn put_line(fate: Fate, t: Tally, out: &mut [u8; 128]) -> usize
    ensures { Put out.old 0 (report_of fate t) out.new result × (result ≤ length out.old) }
{
    match fate {
        Fate::Going => 0,
        Fate::Whole => put_left(t.records, t.bytes, out),
        Fate::Refused(f) => put_refused(t.place, f, out),
    }
}
