// Strings in UTF-8: read, measured, then put.
ghost use Rattle.wire.specs.Read.{says_read};
ghost use Rattle.layout.specs.Answer.{says_count};
ghost use Rattle.std.specs.Prelude.{◌≡◌, ◌-◌, ◌≤◌, leb, length, drop};
ghost use Rattle.layout.specs.Answer.{means};
ghost use Rattle.layout.specs.Bytes.{cells};
ghost use Rattle.layout.specs.Written.{Put, Wrote, said_of, spelling, roomed};
ghost use Rattle.wire.specs.Utf8.{utf8, utf8_at, Units, unit_len};

use crate::{Cursor, Read, encode, text};
use layout::Refusal;

// Half of a pair gives two of its four bytes.
#[tactic(auto, using(crate::proofs::Lengths::alone_long, crate::proofs::Lengths::half_long, crate::proofs::laws::Points::one_is, crate::proofs::laws::Points::two_is, crate::proofs::laws::Points::three_is))]
fn unit_len(u: u16) -> u16
    ensures { (result ≡ unit_len u) × (result ≤ 3) }
{
    if u < 0x80 {
        return 1;
    }
    if u < 0x800 {
        return 2;
    }
    if u / 2048 == 27 { 2 } else { 3 }
}

// Each unit by itself, and none in another way than another: so the compiler takes many at once.
fn units_len(s: &[u8], start: usize, count: usize) -> usize
    requires { Units s.now start count }
    ensures { result ≡ length (utf8 (cells 2 count (drop start s.now))) }
{
    if text::is_ascii(s, start, count) {
        return count;
    }
    let mut need: u16 = 0;
    for i in 0..count {
        need += unit_len(text::unit_at(&*s, start + i * 2));
    }
    usize::from(need)
}

// Whether these units have room. No unit needs more than four bytes, so they are measured only where that might be too much.
fn has_room(s: &[u8], start: usize, count: usize, out: &[u8], o: usize) -> bool
    requires { Units s.now start count }
    ensures { result ≡ leb (length (utf8 (cells 2 count (drop start s.now)))) (length out.now - o) }
{
    let left = layout::left(out.len(), o);
    count * 4 <= left || units_len(s, start, count) <= left
}

impl Cursor {
    // How long a string is in UTF-8, and the place after it.
    pub fn utf8_len(self, s: &[u8]) -> Read<usize>
        ensures { says_read result ≡ means length (utf8_at s.now self.at) }
    {
        let (units, next) = self.text(s)?;
        Ok((units_len(s, units.start, units.count), next))
    }

    // A string in UTF-8 from a place of `out` on, and the place after it. What has no room changes nothing.
    pub fn put_utf8(self, s: &[u8], out: &mut [u8], o: usize) -> usize
        ensures { Put out.old o (roomed out.old o (spelling (utf8_at s.now self.at))) out.new result }
    {
        let Ok((units, _)) = self.text(s) else {
            return o;
        };
        if !has_room(s, units.start, units.count, out, o) {
            return o;
        }
        encode::put_units(s, units.start, units.count, out, o)
    }

    // A string in UTF-8.
    pub fn utf8(self, s: &[u8], out: &mut [u8]) -> Result<usize, Refusal>
        ensures { Wrote (said_of (utf8_at s.now self.at)) out.old (says_count result) out.new }
    {
        let (units, _) = self.text(s)?;
        if !has_room(s, units.start, units.count, out, 0) {
            return Err(layout::plain(layout::ROOM));
        }
        Ok(encode::put_units(s, units.start, units.count, out, 0))
    }
}
