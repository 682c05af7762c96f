// Numbers as they are written in a question.
ghost use Rattle.std.specs.Prelude.{◌≤◌, IfSome};

use std::str;

// All are digits, and at least one stands there. A sign is none, though the library takes one.
fn digits(w: &[u8], radix: u32) -> Option<u64>
    requires least { 2 ≤ radix }
    requires most { radix ≤ 36 }
{
    if w.starts_with(b"+") {
        return None;
    }
    u64::from_str_radix(str::from_utf8(w).ok()?, radix).ok()
}

// A number up to the most: after 0x hexadecimal digits, else decimal ones.
pub(crate) fn parse(w: &[u8], most: u64) -> Option<u64>
    ensures { IfSome result (λ n. n ≤ most) }
{
    let n = match w.strip_prefix(b"0x") {
        Some(hex) => digits(hex, 16),
        None => digits(w, 10),
    };
    n.filter(|n| *n <= most)
}
