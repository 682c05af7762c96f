// Units in UTF-8, put: those of ASCII alone as they are, others word by word, the last few a code point at a time.
ghost use Rattle.std.specs.Prelude.{◌≡◌, ◌-◌, ◌*◌, ◌≤◌, ◌<◌, length, take, drop};
ghost use Rattle.layout.specs.Bytes.{bytes, number, cells};
ghost use Rattle.layout.specs.Written.{put, Put};
ghost use Rattle.wire.specs.Utf8.{pair_point, encoded, utf8, Leads, Spells, NoneAbove};

use crate::text;

// ── below 0x80 ──

// A unit below 0x80 is its own low byte. The least of it and 0x7F is taken so that the compiler keeps whole units, and takes sixteen at a time.
fn ascii_of(u: u16) -> u8
    ensures { u ≤ 0x7F → result ≡ u }
{
    u.min(0x7F) as u8
}

// Units below 0x80, of each its byte.
fn put_ascii(s: &[u8], start: usize, count: usize, out: &mut [u8], o: usize) -> usize
    requires count_in_bounds { count * 2 ≤ length s.now - start }
    requires none_above { NoneAbove 0x7F (cells 2 count (drop start s.now)) }
    requires count_in_bounds_2 { count ≤ length out.old - o }
    ensures { Put out.old o (utf8 (cells 2 count (drop start s.now))) out.new result }
{
    for i in 0..count {
        out[o + i] = ascii_of(text::unit_at(&*s, start + i * 2));
    }
    o + count
}

// ── a code point ──

fn unit(s: &[u8], at: usize) -> u32
    requires { 2 ≤ length s.now - at }
    ensures { (result ≡ number (take 2 (drop at s.now))) × (result < 0x10000) }
{
    text::unit_at(&*s, at) as u32
}

// The two, three or four bytes of a code point, as a number, the first lowest.
fn two_bytes(c: u32) -> u32
    requires { (0x80 ≤ c) × (c < 0x800) }
    ensures { (result ≡ number (encoded c)) × (result < 0x10000) }
{
    0x80C0 + c / 64 + c % 64 * 256
}

fn three_bytes(c: u32) -> u32
    requires { (0x800 ≤ c) × (c < 0x10000) }
    ensures { result ≡ number (encoded c) }
{
    0x8080E0 + c / 4096 + c / 64 % 64 * 256 + c % 64 * 65536
}

fn four_bytes(c: u32) -> u32
    requires { (0x10000 ≤ c) × (c < 0x110000) }
    ensures { result ≡ number (encoded c) }
{
    0x808080F0 + c / 262144 + c / 4096 % 64 * 256 + c / 64 % 64 * 65536 + c % 64 * 16777216
}

// The code point of a pair: a high surrogate, and the unit after it.
fn pair_point(u: u32, v: u32) -> u32
    ensures { (result ≡ pair_point u v) × (0x10000 ≤ result) × (result < 0x110000) }
{
    65536 + u % 1024 * 1024 + v % 1024
}

// A code point, and how many units it takes.
#[derive(Drop)]
struct Point {
    value: u32,
    units: usize,
}

// The first code point of so many units that are left at a place.
fn point_at(s: &[u8], at: usize, left: usize) -> Point
    requires { (0 < left) × (left * 2 ≤ length s.now - at) }
    ensures { Leads s.now at left result }
{
    let u = unit(&*s, at);
    if u / 1024 != 54 {
        return Point { value: u, units: 1 };
    }
    if left == 1 {
        return Point { value: u, units: 1 };
    }
    let v = unit(&*s, at + 2);
    Point {
        value: pair_point(u, v),
        units: 2,
    }
}

fn put_point(c: u32, out: &mut [u8], o: usize) -> usize
    requires { (c < 0x110000) × (length (encoded c) ≤ length out.old - o) }
    ensures { Put out.old o (encoded c) out.new result }
{
    if c < 0x80 {
        return layout::store(out, o, 1, c as u64);
    }
    if c < 0x800 {
        return layout::store(out, o, 2, two_bytes(c) as u64);
    }
    if c < 0x10000 {
        return layout::store(out, o, 3, three_bytes(c) as u64);
    }
    layout::store(out, o, 4, four_bytes(c) as u64)
}

// One code point at a time, each by its own bytes. Counted by hand: one takes a unit or two, so no range counts them.
fn put_points(s: &[u8], start: usize, count: usize, out: &mut [u8], o: usize) -> usize
    requires count_in_bounds { count * 2 ≤ length s.now - start }
    requires s_in_bounds { length (utf8 (cells 2 count (drop start s.now))) ≤ length out.old - o }
    ensures { Put out.old o (utf8 (cells 2 count (drop start s.now))) out.new result }
{
    let mut at = start;
    let mut left = count;
    let mut next = o;
    while 0 < left {
        let p = point_at(&*s, at, left);
        let value = p.value;
        let units = p.units;
        next = put_point(value, out, next);
        at += units * 2;
        left -= units;
    }
    next
}

// ── a word ──

// The UTF-8 of the units that stand first, one code point or as many as fill four bytes: the bytes as a number, the first lowest; the place after
// the units; and how many bytes they are.
#[derive(Drop)]
struct Word {
    value: u32,
    at: usize,
    size: usize,
}

fn either(a: u32, b: u32) -> u32
    ensures { (a ≤ result) × (b ≤ result) }
{
    a | b
}

// Four units below 0x80, or the first of them. The bits of the others are looked at together.
fn ascii_word(u: u32, s: &[u8], at: usize) -> Word
    requires in_bounds { 8 ≤ length s.now - at }
    requires u_value { (u ≡ number (take 2 (drop at s.now))) × (u < 0x80) }
    ensures { Spells s.now at result }
{
    let v = unit(&*s, at + 2);
    let w = unit(&*s, at + 4);
    let z = unit(&*s, at + 6);
    if either(either(v, w), z) < 0x80 {
        return Word {
            value: u + v * 256 + w * 65536 + z * 16777216,
            at: at + 8,
            size: 4,
        };
    }
    Word {
        value: u,
        at: at + 2,
        size: 1,
    }
}

// Two units of two bytes each, or the first of them.
fn two_word(u: u32, s: &[u8], at: usize) -> Word
    requires in_bounds { 8 ≤ length s.now - at }
    requires u_value { (u ≡ number (take 2 (drop at s.now))) × (0x80 ≤ u) × (u < 0x800) }
    ensures { Spells s.now at result }
{
    let v = unit(&*s, at + 2);
    if 0x80 <= v && v < 0x800 {
        return Word {
            value: two_bytes(u) + 65536 * two_bytes(v),
            at: at + 4,
            size: 4,
        };
    }
    Word {
        value: two_bytes(u),
        at: at + 2,
        size: 2,
    }
}

// A pair, or a unit of three bytes.
fn wide_word(u: u32, s: &[u8], at: usize) -> Word
    requires in_bounds { 8 ≤ length s.now - at }
    requires u_value { (u ≡ number (take 2 (drop at s.now))) × (0x800 ≤ u) × (u < 0x10000) }
    ensures { Spells s.now at result }
{
    if u / 1024 == 54 {
        let v = unit(&*s, at + 2);
        return Word {
            value: four_bytes(pair_point(u, v)),
            at: at + 4,
            size: 4,
        };
    }
    Word {
        value: three_bytes(u),
        at: at + 2,
        size: 3,
    }
}

fn word_at(s: &[u8], at: usize) -> Word
    requires { 8 ≤ length s.now - at }
    ensures { Spells s.now at result }
{
    let u = unit(&*s, at);
    if u < 0x80 {
        return ascii_word(u, &*s, at);
    }
    if u >= 0x800 {
        return wide_word(u, &*s, at);
    }
    two_word(u, &*s, at)
}

// The four bytes of a word. Those above its UTF-8 are written over by what follows.
fn put_word(value: u32, out: &mut [u8], o: usize)
    requires { 4 ≤ length out.old - o }
    ensures { out.new ≡ put out.old o (bytes 4 value) }
{
    out[o] = (value % 256) as u8;
    out[o + 1] = (value / 256 % 256) as u8;
    out[o + 2] = (value / 65536 % 256) as u8;
    out[o + 3] = (value / 16777216) as u8;
}

// A word at a time while four units are left: each needs a byte at the least, so a whole word has room in what is still to be written.
// Counted by hand: a word takes one to four units, so no range counts them.
fn put_words(s: &[u8], start: usize, count: usize, out: &mut [u8], o: usize) -> usize
    requires count_in_bounds { count * 2 ≤ length s.now - start }
    requires s_in_bounds { length (utf8 (cells 2 count (drop start s.now))) ≤ length out.old - o }
    ensures { Put out.old o (utf8 (cells 2 count (drop start s.now))) out.new result }
{
    let stop = start + layout::left(count, 3) * 2;
    let mut at = start;
    let mut next = o;
    while at < stop {
        let w = word_at(&*s, at);
        let value = w.value;
        put_word(value, out, next);
        at = w.at;
        next += w.size;
    }
    put_points(&*s, at, (start + count * 2 - at) / 2, out, next)
}

// Units in UTF-8. The caller saw to the room. `put_words` is called at two places, so that the compiler leaves it by itself: ASCII, which most strings
// are, then needs no register that it does.
pub(crate) fn put_units(s: &[u8], start: usize, count: usize, out: &mut [u8], o: usize) -> usize
    requires count_in_bounds { count * 2 ≤ length s.now - start }
    requires s_in_bounds { length (utf8 (cells 2 count (drop start s.now))) ≤ length out.old - o }
    ensures { Put out.old o (utf8 (cells 2 count (drop start s.now))) out.new result }
{
    if count < 4 {
        return put_words(&*s, start, count, out, o);
    }
    if text::is_ascii(s, start, count) {
        return put_ascii(s, start, count, out, o);
    }
    put_words(&*s, start, count, out, o)
}
