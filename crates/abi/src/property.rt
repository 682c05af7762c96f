// What is asked of a property's description: a value of its list, the newer value, the tidy spelling.
ghost use Rattle.layout.specs.Answer.{says_count};
ghost use Rattle.layout.specs.Written.{Wrote, says, tidied};
ghost use Rattle.wire.specs.Codecs.{property};
ghost use Rattle.wire.specs.List.{nth_at};
ghost use Rattle.wire.specs.Newer.{newer_of};
ghost use Rattle.wire.specs.Property.{has_enable};
ghost use Rattle.abi.specs.Answered.{Gives, given};
ghost use Rattle.abi.specs.Rows.{layout_of, slot_row, newer_row};

use crate::{answer, dataset};
use layout::Refusal;
use wire::PropLayout;

fn give_value(l: PropLayout, s: &[u8], n: usize, out: &mut [u64]) -> Result<usize, Refusal>
    ensures { Wrote (given slot_row (nth_at (has_enable l) n s.now)) out.old (says_count result) out.new }
{
    let (_, p, next) = wire::nth(l, s, n)?;
    answer::give(&[next.at as u64, p.start as u64, p.len as u64], out)
}

// Of the n-th value, from 0: the place after it, and its start and length.
#[unsafe(no_mangle)]
pub extern "C" fn ptp_list_value(book: bool, s: &[u8], n: usize, out: &mut [u64]) -> u64
    ensures { Gives (given slot_row (nth_at (has_enable (layout_of book)) n s.now)) out.old result out.new }
{
    answer::told(give_value(dataset::named(book), s, n, out))
}

fn give_newer(
    l: PropLayout,
    description: &[u8],
    payload: &[u8],
    out: &mut [u64],
) -> Result<usize, Refusal>
    ensures { Wrote (says (newer_row (newer_of (has_enable l) description.now payload.now))) out.old (says_count result) out.new }
{
    let c = wire::newer_place(l, description, payload);
    answer::give(&[c.of_payload as u64, c.start as u64, c.len as u64], out)
}

// Whether it is a part of the payload, and its start and length.
#[unsafe(no_mangle)]
pub extern "C" fn ptp_newer_value(
    book: bool,
    description: &[u8],
    payload: &[u8],
    out: &mut [u64],
) -> u64
    ensures { Gives (says (newer_row (newer_of (has_enable (layout_of book)) description.now payload.now))) out.old result out.new }
{
    answer::told(give_newer(dataset::named(book), description, payload, out))
}

#[unsafe(no_mangle)]
pub extern "C" fn ptp_tidy_property(book: bool, s: &[u8], out: &mut [u8]) -> u64
    ensures { Gives (tidied (property (has_enable (layout_of book))) s.now) out.old result out.new }
{
    answer::told(wire::tidy_property(dataset::named(book), s, out))
}
