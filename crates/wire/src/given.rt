// Writers that are given numbers: an integer, a string's units, an array's item bytes.
ghost use Rattle.layout.specs.Answer.{says_count};
ghost use Rattle.std.specs.Prelude.{◌≡◌, ◌+◌, ◌*◌, ◌≤◌, ◌<◌, ◌^◌, length};
ghost use Rattle.layout.specs.Bytes.{bytes};
ghost use Rattle.layout.specs.Written.{Wrote, Put, says};
ghost use Rattle.wire.specs.Layout.{paired};
ghost use Rattle.wire.specs.Codecs.{unsigned};
ghost use Rattle.wire.specs.Tidy.{spelled};
ghost use Rattle.wire.specs.Given.{integer_word, integer_bits, text_said, items_said, array_said, units_word};

use crate::kind::Shape;
use crate::{Pair, field, kind, text};
use layout::Refusal;

// A number with its type; 128-bit ones by their halves. UNDEF writes nothing.
#[derive(Drop)]
pub enum Integer {
    I8(i8),
    U8(u8),
    I16(i16),
    U16(u16),
    I32(i32),
    U32(u32),
    I64(i64),
    U64(u64),
    I128(Pair),
    U128(Pair),
    Undef,
}

// An integer's bytes: the low `front` bytes of one number, then the low `back` bytes of another.
#[derive(Drop)]
pub struct Bits {
    pub front: usize,
    pub low: u64,
    pub back: usize,
    pub high: u64,
}

fn unsigned_bits(front: usize, low: u64) -> Bits
    ensures { (result.front ≡ front) × (result.low ≡ low) × (result.back ≡ 0) }
{
    Bits {
        front,
        low,
        back: 0,
        high: 0,
    }
}

// The two's complement of 64 bits, of which the low bytes are those of a narrower one.
fn signed_bits(front: usize, z: i64) -> Bits
    ensures { (result.front ≡ front) × (result.low ≡ unsigned (2 ^ 64) z) × (result.back ≡ 0) }
{
    unsigned_bits(front, field::signed_word(z))
}

// The low half first.
#[tactic(auto, using(crate::proofs::laws::Numbered::pair_word))]
fn pair_bits(p: Pair) -> Bits
    ensures { (integer_bits result ≡ bytes 16 (p.high * 0x10000000000000000 + p.low)) × (result.front ≤ 8) × (result.back ≤ 8) }
{
    Bits {
        front: 8,
        low: p.low,
        back: 8,
        high: p.high,
    }
}

fn bits_of(v: Integer) -> Bits
    ensures { (integer_bits result ≡ integer_word v) × (result.front ≤ 8) × (result.back ≤ 8) }
{
    match v {
        Integer::I8(z) => signed_bits(1, z as i64),
        Integer::U8(n) => unsigned_bits(1, n as u64),
        Integer::I16(z) => signed_bits(2, z as i64),
        Integer::U16(n) => unsigned_bits(2, n as u64),
        Integer::I32(z) => signed_bits(4, z as i64),
        Integer::U32(n) => unsigned_bits(4, n as u64),
        Integer::I64(z) => signed_bits(8, z),
        Integer::U64(n) => unsigned_bits(8, n),
        Integer::I128(p) => pair_bits(p),
        Integer::U128(p) => pair_bits(p),
        Integer::Undef => unsigned_bits(0, 0),
    }
}

pub fn write_integer(v: Integer, out: &mut [u8]) -> Result<usize, Refusal>
    ensures { Wrote (says (integer_word v)) out.old (says_count result) out.new }
{
    let b = bits_of(v);
    if out.len() < b.front + b.back {
        return Err(layout::plain(layout::ROOM));
    }
    let a = layout::store(out, 0, b.front, b.low);
    Ok(layout::store(out, a, b.back, b.high))
}

fn units_paired(units: &[u16]) -> bool
    ensures { result ≡ paired units.now }
{
    let mut last: u64 = 0;
    for unit in units {
        let u = u64::from(*unit);
        if !text::follows(last, u) {
            return false;
        }
        last = u;
    }
    last / 1024 != 54
}

// Two bytes for each unit.
fn put_units(units: &[u16], out: &mut [u8], at: usize) -> usize
    requires { at + length units.now * 2 ≤ length out.old }
    ensures { Put out.old at (units_word units.now) out.new result }
{
    let mut o = at;
    for unit in units {
        o = layout::store(out, o, 2, u64::from(*unit));
    }
    o
}

fn put_text(units: &[u16], out: &mut [u8]) -> usize
    requires { (length units.now ≤ 254) × (length (spelled units.now) ≤ length out.old) }
    ensures { Put out.old 0 (spelled units.now) out.new result }
{
    let n = units.len();
    if n == 0 {
        return layout::store(out, 0, 1, 0);
    }
    let a = layout::store(out, 0, 1, n as u64 + 1);
    let b = put_units(units, out, a);
    layout::store(out, b, 2, 0)
}

fn text_len(n: usize) -> usize
    requires { n ≤ 254 }
    ensures { (n ≡ 0 → result ≡ 1) × ((n ≡ 0 → ⊥) → result ≡ n * 2 + 3) }
{
    if n == 0 { 1 } else { n * 2 + 3 }
}

// A string of these units: 2, then 10 over 254 units, then 9.
pub fn write_text(units: &[u16], out: &mut [u8]) -> Result<usize, Refusal>
    ensures { Wrote (text_said units.now) out.old (says_count result) out.new }
{
    if !units_paired(units) {
        return Err(layout::plain(layout::TEXT));
    }
    if 254 < units.len() {
        return Err(layout::plain(layout::COUNT));
    }
    if out.len() < text_len(units.len()) {
        return Err(layout::plain(layout::ROOM));
    }
    Ok(put_text(units, out))
}

// Items of w bytes each: 10 where they are not whole or too many, then 9.
fn write_items(w: usize, items: &[u8], out: &mut [u8]) -> Result<usize, Refusal>
    requires { 0 < w }
    ensures { Wrote (items_said w items.now) out.old (says_count result) out.new }
{
    let size = items.len();
    if size % w != 0 {
        return Err(layout::plain(layout::COUNT));
    }
    let n = size / w;
    if 0xFFFF_FFFF < n {
        return Err(layout::plain(layout::COUNT));
    }
    if out.len() < size + 4 {
        return Err(layout::plain(layout::ROOM));
    }
    let a = layout::store(out, 0, 4, n as u64);
    Ok(layout::copy(items, 0, size, out, a))
}

// An array from its type code and its items' bytes: 12 where the code is no array's.
#[tactic(auto, unfolding(crate::specs::Given::shape_said, layout::specs::Answer::bare), using(layout::proofs::laws::Writing::refusal))]
pub fn write_array(code: u16, items: &[u8], out: &mut [u8]) -> Result<usize, Refusal>
    ensures { Wrote (array_said code items.now) out.old (says_count result) out.new }
{
    match kind::shape_of(code) {
        Shape::Many(k) => write_items(kind::width_of(k), items, out),
        _ => Err(layout::plain(layout::PLACE)),
    }
}
