// A row of numbers of one width, looked through for one of them. All are looked at, with no way out before the last and no test for the end
// of the bytes: so the compiler takes many at once.
ghost use Rattle.std.specs.Prelude.{◌≡◌, ◌-◌, ◌*◌, ◌<◌, ◌≤◌, true, length, take, drop};
ghost use Rattle.layout.specs.Answer.{pick};
ghost use Rattle.layout.specs.Bytes.{number, cells};
ghost use Rattle.panel.specs.Words.{plain_width, Plain, is_in, laid_out};

// How many bytes each value of the type has, where that is 1, 2, 4 or 8; 0 for any other type.
pub(crate) fn plain_width(code: u16) -> usize
    ensures { result ≡ plain_width code }
{
    if code == 0 {
        return 0;
    }
    if code <= 2 {
        return 1;
    }
    if code <= 4 {
        return 2;
    }
    if code <= 6 {
        return 4;
    }
    if code <= 8 { 8 } else { 0 }
}

// Whether n values of the width are there from a place on, and the chosen bytes are as wide.
pub(crate) fn laid_out(w: usize, n: u16, first: usize, size: usize, own: usize) -> bool
    requires { w ≤ 8 }
    ensures { result ≡ laid_out w n first size own }
{
    if w == 0 {
        return false;
    }
    if own != w {
        return false;
    }
    let need = n as usize * w;
    if size < first {
        return need == 0;
    }
    need <= size - first
}

fn byte(x: u8) -> u64
    ensures { (result ≡ x) × (result < 256) }
{
    x as u64
}

fn two_at(s: &[u8], at: usize) -> u64
    requires { 2 ≤ length s.now - at }
    ensures { (result ≡ number (take 2 (drop at s.now))) × (result < 65536) }
{
    byte(s[at]) + 256 * byte(s[at + 1])
}

fn four_at(s: &[u8], at: usize) -> u64
    requires { 4 ≤ length s.now - at }
    ensures { (result ≡ number (take 4 (drop at s.now))) × (result < 4294967296) }
{
    two_at(s, at) + 65536 * two_at(s, at + 2)
}

fn eight_at(s: &[u8], at: usize) -> u64
    requires { 8 ≤ length s.now - at }
    ensures { result ≡ number (take 8 (drop at s.now)) }
{
    four_at(s, at) + 4294967296 * four_at(s, at + 4)
}

// The number of w bytes at a place.
fn word(s: &[u8], at: usize, w: usize) -> u64
    requires { Plain w × (w ≤ length s.now - at) }
    ensures { result ≡ number (take w (drop at s.now)) }
{
    if w == 1 {
        return byte(s[at]);
    }
    if w == 2 {
        return two_at(s, at);
    }
    if w == 4 {
        return four_at(s, at);
    }
    eight_at(s, at)
}

// Whether one of n numbers of w bytes from a place on is x.
fn has_word(s: &[u8], at: usize, n: usize, w: usize, x: u64) -> bool
    requires { Plain w × (n * w ≤ length s.now - at) }
    ensures { result ≡ is_in x (cells w n (drop at s.now)) }
{
    let mut found = false;
    for i in 0..n {
        found |= word(s, at + i * w, w) == x;
    }
    found
}

// Each width by itself, so that it is a constant of its loop.
pub(crate) fn holds(s: &[u8], at: usize, n: usize, w: usize, chosen: &[u8]) -> bool
    requires { Plain w × (n * w ≤ length s.now - at) × (length chosen.now ≡ w) }
    ensures { result ≡ is_in (number chosen.now) (cells w n (drop at s.now)) }
{
    let x = word(chosen, 0, w);
    if w == 1 {
        return has_word(s, at, n, 1, x);
    }
    if w == 2 {
        return has_word(s, at, n, 2, x);
    }
    if w == 4 {
        return has_word(s, at, n, 4, x);
    }
    has_word(s, at, n, 8, x)
}
