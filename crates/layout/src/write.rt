// The two stores that every writer is made of. What has no room changes nothing.
ghost use Rattle.std.specs.Prelude.{◌≡◌, length, take, drop, ◌+◌, ◌-◌, ◌≤◌, leb};
ghost use Rattle.layout.specs.Answer.{pick};
ghost use Rattle.layout.specs.Bytes.{bytes};
ghost use Rattle.layout.specs.Written.{Put, roomed};

// How many of so many places are left from one on.
pub fn left(size: usize, at: usize) -> usize
    ensures { result ≡ size - at }
{
    size.saturating_sub(at)
}

pub fn least(x: usize, y: usize) -> usize
    ensures { result ≡ pick (leb x y) x y }
{
    x.min(y)
}

fn store_all(out: &mut [u8], at: usize, n: usize, x: u64) -> usize
    requires { n ≤ length out.old - at }
    ensures { Put out.old at (bytes n x) out.new result }
{
    let mut rest = x;
    // From 0, so that the compiler sees how many there are.
    for i in 0..n {
        out[at + i] = (rest % 256) as u8;
        rest /= 256;
    }
    at + n
}

// The n low bytes of x at a place, the lowest first, and the place after them.
pub fn store(out: &mut [u8], at: usize, n: usize, x: u64) -> usize
    ensures { Put out.old at (roomed out.old at (bytes n x)) out.new result }
{
    if left(out.len(), at) < n {
        return at;
    }
    store_all(out, at, n, x)
}

// A loop: the library's `copy_from_slice` calls `memmove`, and the archive for C is to need no more names from outside.
fn copy_all(src: &[u8], a: usize, n: usize, out: &mut [u8], at: usize) -> usize
    requires { (n ≤ length src.now - a) × (n ≤ length out.old - at) }
    ensures { Put out.old at (take n (drop a src.now)) out.new result }
{
    for i in 0..n {
        out[at + i] = src[a + i];
    }
    at + n
}

// The n bytes of src from a on, at a place, and the place after them.
pub fn copy(src: &[u8], a: usize, n: usize, out: &mut [u8], at: usize) -> usize
    ensures { Put out.old at (roomed out.old at (take n (drop a src.now))) out.new result }
{
    let m = n.min(left(src.len(), a));
    if left(out.len(), at) < m {
        return at;
    }
    copy_all(src, a, m, out, at)
}
