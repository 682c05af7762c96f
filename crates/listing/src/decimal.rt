// A number in decimal, written where it is to stand and has room, from the first digit to the last.
ghost use Rattle.std.specs.Prelude.{◌+◌, ◌<◌, ◌≤◌, length};
ghost use Rattle.io.specs.Digits.{last_digits};
ghost use Rattle.layout.specs.Written.{Put};
ghost use Rattle.text.specs.Number.{decimal};

fn put_one(n: u64, out: &mut [u8], at: usize) -> usize
    requires { at + 1 ≤ length out.old }
    ensures { Put out.old at (last_digits 10 1 n) out.new result }
{
    out[at] = (48 + n % 10) as u8;
    at + 1
}

// Both bytes are reckoned as one number, the first digit's the low one, so that they are stored at once: 12336 is two zeros' bytes, and
// 256 * two - 2559 * (two / 10) is the first digit and 256 times the second.
fn put_two(n: u64, out: &mut [u8], at: usize) -> usize
    requires { at + 2 ≤ length out.old }
    ensures { Put out.old at (last_digits 10 2 n) out.new result }
{
    let two = n % 100;
    let both = 12336 + 256 * two - 2559 * (two / 10);
    out[at + 1] = (both / 256) as u8;
    out[at] = (both % 256) as u8;
    at + 2
}

fn put_four(n: u64, out: &mut [u8], at: usize) -> usize
    requires { at + 4 ≤ length out.old }
    ensures { Put out.old at (last_digits 10 4 n) out.new result }
{
    let a = put_two(n / 100, out, at);
    put_two(n % 100, out, a)
}

fn put_eight(n: u64, out: &mut [u8], at: usize) -> usize
    requires { at + 8 ≤ length out.old }
    ensures { Put out.old at (last_digits 10 8 n) out.new result }
{
    let a = put_four(n / 10000, out, at);
    put_four(n % 10000, out, a)
}

// Of at most four digits.
fn put_few(n: u64, out: &mut [u8], at: usize) -> usize
    requires { (n < 10000) × (at + length (decimal n) ≤ length out.old) }
    ensures { Put out.old at (decimal n) out.new result }
{
    if n < 10 {
        return put_one(n, out, at);
    }
    if n < 100 {
        return put_two(n, out, at);
    }
    if n < 1000 {
        let a = put_one(n / 100, out, at);
        return put_two(n % 100, out, a);
    }
    put_four(n, out, at)
}

// Of at most eight.
fn put_short(n: u64, out: &mut [u8], at: usize) -> usize
    requires { (n < 100000000) × (at + length (decimal n) ≤ length out.old) }
    ensures { Put out.old at (decimal n) out.new result }
{
    if n < 10000 {
        return put_few(n, out, at);
    }
    let a = put_few(n / 10000, out, at);
    put_four(n % 10000, out, a)
}

// Of at most twelve.
fn put_middle(n: u64, out: &mut [u8], at: usize) -> usize
    requires { (n < 1000000000000) × (at + length (decimal n) ≤ length out.old) }
    ensures { Put out.old at (decimal n) out.new result }
{
    if n < 100000000 {
        return put_short(n, out, at);
    }
    let a = put_few(n / 100000000, out, at);
    put_eight(n % 100000000, out, a)
}

// Of more than eight.
fn put_long(n: u64, out: &mut [u8], at: usize) -> usize
    requires { (100000000 ≤ n) × (at + length (decimal n) ≤ length out.old) }
    ensures { Put out.old at (decimal n) out.new result }
{
    let a = put_middle(n / 100000000, out, at);
    put_eight(n % 100000000, out, a)
}

// One digit or two, which most counts have, are put without a call.
pub(crate) fn put(n: u64, out: &mut [u8], at: usize) -> usize
    requires { at + length (decimal n) ≤ length out.old }
    ensures { Put out.old at (decimal n) out.new result }
{
    if n < 10 {
        return put_one(n, out, at);
    }
    if n < 100 {
        return put_two(n, out, at);
    }
    if n < 100000000 {
        return put_short(n, out, at);
    }
    put_long(n, out, at)
}

// A record's place, which seldom has so few.
pub(crate) fn put_place(n: u64, out: &mut [u8], at: usize) -> usize
    requires { at + length (decimal n) ≤ length out.old }
    ensures { Put out.old at (decimal n) out.new result }
{
    if n < 100000000 {
        return put_short(n, out, at);
    }
    put_long(n, out, at)
}
