// Numbers and refusals as text: the listing and the reports of a copy and of a mending print them alike. What is printed stands in specs/.
#![tactic(auto)]

ghost use Rattle.std.specs.Prelude.{◌+◌, ◌≤◌, length};
ghost use Rattle.layout.specs.Written.{Put, roomed};
ghost use Rattle.text.specs.Number.{decimal};
ghost use Rattle.text.specs.Lines.{at_text, refusal_line};

use layout::Refusal;

// A number in decimal at a place if it has room, else nothing; and the place after it.
pub fn put_number(n: u64, out: &mut [u8], at: usize) -> usize
    ensures { Put out.old at (roomed out.old at (decimal n)) out.new result }
{
    let mut digits = [0u8; 20];
    let k = io::decimal(n, &mut digits);
    layout::copy(&digits[..k], 0, k, out, at)
}

// The place that a refusal tells, behind a space; nothing of one that tells none.
fn put_at(f: Refusal, out: &mut [u8], at: usize) -> usize
    requires { at + length (at_text f) ≤ length out.old }
    ensures { Put out.old at (at_text f) out.new result }
{
    if !f.placed {
        return at;
    }
    let a = layout::copy(b" ", 0, 1, out, at);
    put_number(f.at as u64, out, a)
}

// The line in room that any such line has.
fn fill_refusal(place: u64, f: Refusal, out: &mut [u8; 128]) -> usize
    ensures { Put out.old 0 (refusal_line place f) out.new result × (result ≤ 128) }
{
    let a = put_number(place, out, 0);
    let b = layout::copy(b" refusal ", 0, 9, out, a);
    let c = put_number(f.no as u64, out, b);
    let d = put_at(f, out, c);
    layout::copy(b"\n", 0, 1, out, d)
}

// The line of a record that is refused at a place, `PLACE refusal NO` and the place that the refusal tells, if it has room, else nothing; and
// the place after it.
pub fn put_refusal(place: u64, f: Refusal, out: &mut [u8], at: usize) -> usize
    ensures { Put out.old at (roomed out.old at (refusal_line place f)) out.new result }
{
    let mut line = [0u8; 128];
    let n = fill_refusal(place, f, &mut line);
    layout::copy(&line[..n], 0, n, out, at)
}
