// Integers of 8 to 64 bits that stand in a row. All are gone through, with no way out before the last and no test for the end of the bytes: so the
// compiler takes many at once.
ghost use Rattle.layout.specs.Answer.{says_count};
ghost use Rattle.std.specs.Prelude.{◌≡◌, true, map, ◌+◌, ◌-◌, ◌*◌, ◌^◌, ◌≤◌, ◌<◌, length, take, drop};
ghost use Rattle.layout.specs.Answer.{pick};
ghost use Rattle.layout.specs.Bytes.{number, cells};
ghost use Rattle.layout.specs.Written.{Put, Wrote, said_of};
ghost use Rattle.wire.specs.Layout.{integer_width, shape};
ghost use Rattle.wire.specs.Numbers.{Plain, is_plain, is_in, has_number, extended, words_in, numbers_at};

use crate::past;
use layout::Refusal;

// ── a number by its bytes ──

fn byte(x: u8) -> u64
    ensures { (result ≡ x) × (result < 256) }
{
    x as u64
}

#[tactic(auto, using(crate::proofs::NumberWords::two_word))]
fn two_at(s: &[u8], at: usize) -> u64
    requires { 2 ≤ length s.now - at }
    ensures { (result ≡ number (take 2 (drop at s.now))) × (result < 65536) }
{
    byte(s[at]) + 256 * byte(s[at + 1])
}

#[tactic(auto, using(crate::proofs::NumberWords::four_word))]
fn four_at(s: &[u8], at: usize) -> u64
    requires { 4 ≤ length s.now - at }
    ensures { (result ≡ number (take 4 (drop at s.now))) × (result < 4294967296) }
{
    two_at(s, at) + 65536 * two_at(s, at + 2)
}

#[tactic(auto, using(crate::proofs::NumberWords::eight_word))]
fn eight_at(s: &[u8], at: usize) -> u64
    requires { 8 ≤ length s.now - at }
    ensures { result ≡ number (take 8 (drop at s.now)) }
{
    four_at(s, at) + 4294967296 * four_at(s, at + 4)
}

// The number of w bytes at a place.
#[tactic(auto, using(crate::proofs::NumberWords::one_word, crate::proofs::NumberWords::eight))]
fn word(s: &[u8], at: usize, w: usize) -> u64
    requires { Plain w × (w ≤ length s.now - at) }
    ensures { (result ≡ number (take w (drop at s.now))) × (result < 256 ^ w) }
{
    if w == 1 {
        return byte(s[at]);
    }
    if w == 2 {
        return two_at(s, at);
    }
    if w == 4 {
        return four_at(s, at);
    }
    eight_at(s, at)
}

// ── one of them ──

// Whether one of n numbers of w bytes from a place on is x.
fn has_word(s: &[u8], at: usize, n: usize, w: usize, x: u64) -> bool
    requires { Plain w × (n * w ≤ length s.now - at) }
    ensures { result ≡ is_in x (cells w n (drop at s.now)) }
{
    let mut found = false;
    for i in 0..n {
        found |= word(s, at + i * w, w) == x;
    }
    found
}

#[tactic(auto, using(std::proofs::lemmas::Bool::Decides::nat_tests))]
fn is_plain(w: usize) -> bool
    ensures { result ≡ is_plain w }
{
    if w == 1 {
        return true;
    }
    if w == 2 {
        return true;
    }
    if w == 4 {
        return true;
    }
    w == 8
}

// Each width by itself, so that it is a constant of its loop.
#[tactic(auto, using(crate::proofs::NumberWords::eight, crate::specs::Numbers::one_byte, crate::specs::Numbers::two_bytes, crate::specs::Numbers::four_bytes, crate::specs::Numbers::eight_bytes))]
fn holds(s: &[u8], at: usize, n: usize, w: usize, x: u64) -> bool
    requires { Plain w × (n * w ≤ length s.now - at) }
    ensures { result ≡ is_in x (cells w n (drop at s.now)) }
{
    if w == 1 {
        return has_word(s, at, n, 1, x);
    }
    if w == 2 {
        return has_word(s, at, n, 2, x);
    }
    if w == 4 {
        return has_word(s, at, n, 4, x);
    }
    has_word(s, at, n, 8, x)
}

// Whether x is one of n numbers of w bytes that stand from a place on, where w is 1, 2, 4 or 8.
#[tactic(auto, unfolding(crate::specs::Numbers::has_number), using(crate::proofs::NumberWords::plain_width, crate::proofs::laws::Kinds::plain_few, crate::proofs::laws::NumberSearch::times_small, std::proofs::lemmas::Bool::Decides::nat_tests))]
pub fn has_number(s: &[u8], at: usize, n: u16, w: usize, x: u64) -> bool
    ensures { result ≡ has_number w n s.now at x }
{
    if !is_plain(w) {
        return false;
    }
    let count = n as usize;
    if layout::left(s.len(), at) < count * w {
        return false;
    }
    holds(s, at, count, w, x)
}

// ── all of them ──

#[tactic(auto, using(std::proofs::lemmas::Bool::Decides::nat_tests))]
fn extend(v: u64, half: u64, top: u64) -> u64
    requires { v + top < 2 ^ 64 }
    ensures { result ≡ extended half top v }
{
    if v < half { v } else { v + top }
}

// n numbers of w bytes from a place on, each as its word.
fn put_words(s: &[u8], at: usize, n: usize, w: usize, half: u64, top: u64, out: &mut [u64]) -> usize
    requires { Plain w × (n * w ≤ length s.now - at) × (n ≤ length out.old) × (256 ^ w + top ≤ 2 ^ 64) }
    ensures { Put out.old 0 (map (extended half top) (cells w n (drop at s.now))) out.new result }
{
    for i in 0..n {
        out[i] = extend(word(&*s, at + i * w, w), half, top);
    }
    n
}

// Each type by itself, so that its width is a constant of its loop.
fn put_numbers(s: &[u8], at: usize, code: u16, n: usize, out: &mut [u64]) -> usize
    requires { (1 ≤ code) × (code ≤ 8) × (n * integer_width code ≤ length s.now - at) × (n ≤ length out.old) }
    ensures { Put out.old 0 (words_in (shape code) n (drop at s.now)) out.new result }
{
    match code {
        1 => put_words(s, at, n, 1, 0x80, 0xFFFF_FFFF_FFFF_FF00, out),
        2 => put_words(s, at, n, 1, 0, 0, out),
        3 => put_words(s, at, n, 2, 0x8000, 0xFFFF_FFFF_FFFF_0000, out),
        4 => put_words(s, at, n, 2, 0, 0, out),
        5 => put_words(s, at, n, 4, 0x8000_0000, 0xFFFF_FFFF_0000_0000, out),
        6 => put_words(s, at, n, 4, 0, 0, out),
        7 => put_words(s, at, n, 8, 0x8000_0000_0000_0000, 0, out),
        _ => put_words(s, at, n, 8, 0, 0, out),
    }
}

// The n integers of a type of 8 to 64 bits from a place on, each as its word of 64 bits: 12 for any other type, then 1, then 9.
pub fn list_numbers(
    s: &[u8],
    at: usize,
    code: u16,
    n: usize,
    out: &mut [u64],
) -> Result<usize, Refusal>
    ensures { Wrote (said_of (numbers_at code n s.now at)) out.old (says_count result) out.new }
{
    if code == 0 {
        return Err(layout::plain(layout::PLACE));
    }
    if 8 < code {
        return Err(layout::plain(layout::PLACE));
    }
    past::past_values(code, n, s, at)?;
    if out.len() < n {
        return Err(layout::plain(layout::ROOM));
    }
    Ok(put_numbers(s, at, code, n, out))
}
