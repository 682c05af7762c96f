// A value by its type code, and what is asked of one.
ghost use Rattle.wire.specs.Read.{says_read};
ghost use Rattle.std.specs.Prelude.{◌≡◌, ◌+◌, ◌≤◌, ◌^◌};
ghost use Rattle.wire.specs.Layout.{one, sint, uint, wide};
ghost use Rattle.wire.specs.Places.{shape_at, value_at, unit_at, item_of, item_at, filled_at, filling_all};
ghost use Rattle.wire.specs.Says.{says_kind, says_shape, says_value, says_span};

use crate::kind::{Kind, Shape};
use crate::{Cursor, Pair, Part, Read, array, field, kind};
use layout::Refusal;

#[derive(Drop)]
pub enum Value {
    Int(i64),
    Nat(u64),
    Wide(Pair),
    Items(Part),
    Text(Part),
    Undef,
}

#[tactic(auto, unfolding(crate::specs::Places::shape_at, layout::specs::Answer::means))]
fn int_value(s: &[u8], at: usize, w: usize, half: u64) -> Read<Value>
    requires { (w ≤ 8) × (half ≤ 2 ^ 63) × (half + half ≡ 256 ^ w) }
    ensures { says_value result ≡ shape_at (one (sint w)) s.now at }
{
    let (z, next) = field::int_at(s, at, w, half)?;
    Ok((Value::Int(z), next))
}

#[tactic(auto, unfolding(crate::specs::Places::shape_at, layout::specs::Answer::means))]
fn nat_value(s: &[u8], at: usize, w: usize) -> Read<Value>
    requires { w ≤ 8 }
    ensures { says_value result ≡ shape_at (one (uint w)) s.now at }
{
    let (n, next) = field::num_at(s, at, w)?;
    Ok((Value::Nat(n), next))
}

#[tactic(auto, unfolding(crate::specs::Places::shape_at, layout::specs::Answer::means))]
fn wide_value(s: &[u8], at: usize) -> Read<Value>
    ensures { says_value result ≡ shape_at (one wide) s.now at }
{
    let (p, next) = field::wide_at(s, at)?;
    Ok((Value::Wide(p), next))
}

#[tactic(auto, unfolding(crate::specs::Places::shape_at, layout::specs::Answer::means))]
fn number_value(s: &[u8], at: usize, k: Kind) -> Read<Value>
    ensures { says_value result ≡ shape_at (one (says_kind k)) s.now at }
{
    match k {
        Kind::I8 => int_value(&*s, at, 1, 0x80),
        Kind::U8 => nat_value(&*s, at, 1),
        Kind::I16 => int_value(&*s, at, 2, 0x8000),
        Kind::U16 => nat_value(&*s, at, 2),
        Kind::I32 => int_value(&*s, at, 4, 0x8000_0000),
        Kind::U32 => nat_value(&*s, at, 4),
        Kind::I64 => int_value(&*s, at, 8, 0x8000_0000_0000_0000),
        Kind::U64 => nat_value(&*s, at, 8),
        Kind::I128 => wide_value(&*s, at),
        Kind::U128 => wide_value(&*s, at),
    }
}

// A value by the shape of its type.
#[tactic(auto, unfolding(crate::specs::Places::shape_at, layout::specs::Answer::means))]
pub(crate) fn shape_value(s: &[u8], c: Cursor, x: Shape) -> Read<Value>
    ensures { says_value result ≡ shape_at (says_shape x) s.now c.at }
{
    let at = c.at;
    match x {
        Shape::One(k) => number_value(&*s, at, k),
        Shape::Many(k) => {
            let (p, next) = array::array_at(&*s, at, kind::width_of(k))?;
            Ok((Value::Items(p), next))
        }
        Shape::Text => {
            let (p, next) = c.text(&*s)?;
            Ok((Value::Text(p), next))
        }
        Shape::Undef => Ok((Value::Undef, c)),
    }
}

impl Cursor {
    // Every code that is not known takes no bytes. Numbers, which most values are, go by themselves: so the compiler puts this where it is used.
    #[tactic(auto, unfolding(crate::specs::Places::shape_at, layout::specs::Answer::means))]
    pub fn value(self, s: &[u8], code: u16) -> Read<Value>
        ensures { says_value result ≡ value_at code s.now self.at }
    {
        let at = self.at;
        let x = kind::shape_of(code);
        match x {
            Shape::One(k) => number_value(&*s, at, k),
            _ => shape_value(&*s, self, x),
        }
    }

    // 3 where bytes follow.
    #[tactic(auto, unfolding(crate::specs::Places::filled_at))]
    pub fn end(self, s: &[u8]) -> Result<Cursor, Refusal>
        ensures { says_span result ≡ filled_at s.now self.at }
    {
        let at = self.at;
        if at < s.len() {
            return Err(layout::plain(layout::TRAIL));
        }
        Ok(self)
    }

    // The n-th unit, from 0, of the string that stands here.
    #[tactic(auto, unfolding(crate::specs::Places::unit_at, layout::specs::Answer::after))]
    pub fn unit(self, s: &[u8], n: usize) -> Read<u16>
        ensures { says_read result ≡ unit_at n s.now self.at }
    {
        let (units, _) = self.text(s)?;
        if units.count <= n {
            return Err(layout::plain(layout::PLACE));
        }
        (Cursor {
            at: units.start + n * 2,
        })
        .u16(s)
    }

    // The n-th item, from 0, of the array of this type code that stands here.
    #[tactic(auto, unfolding(crate::specs::Places::item_in))]
    pub fn item(self, s: &[u8], code: u16, n: usize) -> Read<Value>
        ensures { says_value result ≡ item_at code n s.now self.at }
    {
        let at = self.at;
        match kind::shape_of(code) {
            Shape::Many(k) => nth_item(s, at, k, n),
            _ => Err(layout::plain(layout::PLACE)),
        }
    }
}

#[tactic(auto, unfolding(crate::specs::Places::item_of, layout::specs::Answer::after))]
fn nth_item(s: &[u8], at: usize, k: Kind, n: usize) -> Read<Value>
    ensures { says_value result ≡ item_of (says_kind k) n s.now at }
{
    let w = kind::width_of(k);
    let (items, _) = array::array_at(s, at, w)?;
    if items.count <= n {
        return Err(layout::plain(layout::PLACE));
    }
    number_value(s, items.start + n * w, k)
}

// All of the bytes as one value of the type: 3 where bytes follow it.
#[tactic(auto, unfolding(crate::specs::Places::filling_all, layout::specs::Answer::after))]
pub fn whole_value(s: &[u8], code: u16) -> Read<Value>
    ensures { says_value result ≡ filling_all (value_at code) s.now }
{
    let (v, next) = (Cursor { at: 0 }).value(s, code)?;
    let end = next.end(s)?;
    Ok((v, end))
}
