// What a type code says of a value: a number of some kind, an array of them, a string, or UNDEF.
ghost use Rattle.std.specs.Prelude.{◌≡◌, ◌-◌, ◌≤◌, ◌<◌, get_or};
ghost use Rattle.std.proofs.Math.Option.{none};
ghost use Rattle.wire.specs.Layout.{kinds, shape, width, integer_width};
ghost use Rattle.wire.specs.Says.{says_kind, says_known, says_shape};

// A string's type code.
pub const STRING: u16 = 0xFFFF;

#[derive(Clone, Copy)]
pub enum Kind {
    I8,
    U8,
    I16,
    U16,
    I32,
    U32,
    I64,
    U64,
    I128,
    U128,
}

#[derive(Drop)]
pub enum Shape {
    One(Kind),
    Many(Kind),
    Text,
    Undef,
}

// The kind of number of a type code from 1 to 10.
fn kind_of(code: u16) -> Option<Kind>
    ensures { says_known result ≡ get_or kinds code none }
{
    match code {
        1 => Some(Kind::I8),
        2 => Some(Kind::U8),
        3 => Some(Kind::I16),
        4 => Some(Kind::U16),
        5 => Some(Kind::I32),
        6 => Some(Kind::U32),
        7 => Some(Kind::I64),
        8 => Some(Kind::U64),
        9 => Some(Kind::I128),
        10 => Some(Kind::U128),
        _ => None,
    }
}

// The type code of an array's items; 0 where the code is no array's.
pub(crate) fn item_of(code: u16) -> u16
    ensures { result ≡ code - 0x4000 }
{
    if code < 0x4000 { 0 } else { code - 0x4000 }
}

#[tactic(auto, unfolding(crate::specs::Layout::shape))]
pub(crate) fn shape_of(code: u16) -> Shape
    ensures { says_shape result ≡ shape code }
{
    match kind_of(code) {
        Some(k) => Shape::One(k),
        None => match kind_of(item_of(code)) {
            Some(k) => Shape::Many(k),
            None => {
                if code == STRING {
                    Shape::Text
                } else {
                    Shape::Undef
                }
            }
        },
    }
}

pub(crate) fn width_of(k: Kind) -> usize
    ensures { (result ≡ width (says_kind k)) × (result ≤ 16) × (0 < result) }
{
    match k {
        Kind::I8 => 1,
        Kind::U8 => 1,
        Kind::I16 => 2,
        Kind::U16 => 2,
        Kind::I32 => 4,
        Kind::U32 => 4,
        Kind::I64 => 8,
        Kind::U64 => 8,
        Kind::I128 => 16,
        Kind::U128 => 16,
    }
}

// How many bytes an integer of a type has; 0 for a type that is no integer's.
pub fn integer_width(code: u16) -> usize
    ensures { result ≡ integer_width code }
{
    match kind_of(code) {
        Some(k) => width_of(k),
        None => 0,
    }
}
