// Where values end: what a reader passes by, whatever their tidy words are.
ghost use Rattle.std.specs.Prelude.{◌≡◌, ◌+◌, ◌-◌, ◌*◌, ◌/◌, ◌≤◌, ◌<◌, length};
ghost use Rattle.layout.specs.Answer.{span_at};
ghost use Rattle.wire.specs.Property.{passed_at};
ghost use Rattle.wire.specs.Says.{says_span};

use crate::kind::Shape;
use crate::{Cursor, field, kind, value};
use layout::Refusal;

// n values of one type, a value at a time.
fn past_each(code: u16, n: usize, src: &[u8], first: usize) -> Result<Cursor, Refusal>
    ensures { says_span result ≡ passed_at code n src.now first }
{
    let mut at = first;
    for _ in 0..n {
        let (_, next) = value::shape_value(&*src, Cursor { at }, kind::shape_of(code))?;
        at = next.at;
    }
    Ok(Cursor { at })
}

// n numbers of w bytes: one test for all. Cut, they are told of the first that is not whole.
pub(crate) fn past_numbers(w: usize, n: usize, src: &[u8], at: usize) -> Result<Cursor, Refusal>
    requires { (0 < w) × (w ≤ 16) × (n ≤ 4294967295) }
    ensures { says_span result ≡ span_at (at + (length src.now - at) / w * w) (n * w) src.now at }
{
    let cut = at + layout::left(src.len(), at) / w * w;
    field::span_at(src, cut, at, n * w)
}

// The place after n values of one type: numbers all at once.
pub(crate) fn past_values(code: u16, n: usize, src: &[u8], first: usize) -> Result<Cursor, Refusal>
    ensures { says_span result ≡ passed_at code n src.now first }
{
    // No list has more; up to here the number of their bytes fits.
    if n > 0xFFFF_FFFF {
        return past_each(code, n, src, first);
    }
    match kind::shape_of(code) {
        Shape::One(k) => past_numbers(kind::width_of(k), n, src, first),
        Shape::Many(_) => past_each(code, n, src, first),
        Shape::Text => past_each(code, n, src, first),
        Shape::Undef => Ok(Cursor { at: first }),
    }
}
