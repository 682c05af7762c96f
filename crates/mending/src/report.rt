// The lines that a mending reports.
ghost use Rattle.std.specs.Prelude.{◌+◌, ◌*◌, ◌≤◌, length, take};
ghost use Rattle.layout.specs.Written.{Put};
ghost use Rattle.mending.specs.Report.{stretch_line, lines_of, counts_line};

// `PLACE dropped BYTES`, in room that any such line has.
fn put_line(start: u64, count: u64, out: &mut [u8], at: usize) -> usize
    requires { at + 50 ≤ length out.old }
    ensures { Put out.old at (stretch_line start count) out.new result × (result ≤ at + 50) }
{
    let a = text::put_number(start, out, at);
    let b = layout::copy(b" dropped ", 0, 9, out, a);
    let c = text::put_number(count, out, b);
    layout::copy(b"\n", 0, 1, out, c)
}

// The lines of the first n stretches.
pub(crate) fn put_lines(n: usize, starts: &[u64], lengths: &[u64], out: &mut [u8]) -> usize
    requires { (n ≤ length starts.now) × (n ≤ length lengths.now) × (50 * n ≤ length out.old) }
    ensures { Put out.old 0 (lines_of (take n starts.now) (take n lengths.now)) out.new result × (result ≤ length out.old) }
{
    let mut o = 0;
    for i in 0..n {
        o = put_line(starts[i], lengths[i], out, o);
    }
    o
}

// The last line, in room that any such line has.
pub(crate) fn put_counts(
    records: u64,
    bytes: u64,
    stretches: u64,
    dropped: u64,
    out: &mut [u8],
) -> usize
    requires { 140 ≤ length out.old }
    ensures { Put out.old 0 (counts_line records bytes stretches dropped) out.new result × (result ≤ length out.old) }
{
    let a = layout::copy(b"kept ", 0, 5, out, 0);
    let b = text::put_number(records, out, a);
    let c = layout::copy(b" records ", 0, 9, out, b);
    let d = text::put_number(bytes, out, c);
    let e = layout::copy(b" bytes, dropped ", 0, 16, out, d);
    let f = text::put_number(stretches, out, e);
    let g = layout::copy(b" stretches ", 0, 11, out, f);
    let h = text::put_number(dropped, out, g);
    layout::copy(b" bytes\n", 0, 7, out, h)
}
