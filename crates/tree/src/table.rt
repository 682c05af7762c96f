// The table's rule: 11, then each name's 1, 2, 3.
ghost use Rattle.layout.specs.Answer.{says_count};
ghost use Rattle.std.specs.Prelude.{◌≡◌, ◌&&◌, leb, length, ◌<◌};
ghost use Rattle.tree.specs.Facts.{Ruled, Rising};
ghost use Rattle.tree.specs.Table.{table, kept, kept_from, upheld, marks_ok, lists_ok, rises_from, table_ok, name_at, names_from, table_at};

use layout::Refusal;
use wire::Cursor;

// Whether a parent entry keeps the rule: 0 at place 0, else smaller than its place.
fn entry_ok(k: usize, p: usize) -> bool
    ensures { result ≡ kept k p }
{
    if k == 0 { p == 0 } else { p < k }
}

fn parents_ok(parents: &[u16]) -> bool
    ensures { result ≡ kept_from 0 parents.now }
{
    parents
        .iter()
        .enumerate()
        .all(|(k, p)| entry_ok(k, *p as usize))
}

// Whether a place hangs under a live one, if it is live.
fn mark_ok(marks: &[u8], k: usize, p: usize) -> bool
    requires k_in_bounds { k < length marks.now }
    requires p_in_bounds { p < length marks.now }
    ensures { result ≡ upheld marks.now k p }
{
    if marks[k] == 0 {
        return true;
    }
    0 < marks[p]
}

#[tactic(auto, using(crate::proofs::Tables::upheld_no, crate::proofs::Tables::upheld_on, crate::proofs::Tables::upheld_end))]
fn marks_ok(parents: &[u16], marks: &[u8]) -> bool
    requires ruled { Ruled parents.now }
    requires marks_len { length marks.now ≡ length parents.now }
    ensures { result ≡ marks_ok parents.now marks.now }
{
    if marks[0] == 0 {
        return false;
    }
    for k in 1..parents.len() {
        if !mark_ok(marks, k, parents[k] as usize) {
            return false;
        }
    }
    true
}

// Whether a name ends neither before it starts nor past the buffer.
fn end_ok(from: usize, end: usize, size: usize) -> bool
    ensures { result ≡ (leb from end && leb end size) }
{
    if from <= end { end <= size } else { false }
}

#[tactic(auto, using(crate::proofs::Tables::rises_no, crate::proofs::Tables::rises_on, crate::proofs::Tables::rises_end))]
fn ends_ok(ends: &[u32], size: usize) -> bool
    ensures { result ≡ rises_from 0 ends.now size }
{
    let mut from: usize = 0;
    for end in ends {
        let end = *end as usize;
        if !end_ok(from, end, size) {
            return false;
        }
        from = end;
    }
    true
}

// Whether each of the four lists has 1,024 places.
fn lists_ok(handles: &[u32], parents: &[u16], ends: &[u32], marks: &[u8]) -> bool
    ensures { result ≡ lists_ok handles.now parents.now ends.now marks.now }
{
    if handles.len() != 1024 {
        return false;
    }
    if parents.len() != 1024 {
        return false;
    }
    if ends.len() != 1024 {
        return false;
    }
    marks.len() == 1024
}

pub(crate) fn table_ok(
    handles: &[u32],
    parents: &[u16],
    ends: &[u32],
    marks: &[u8],
    count: usize,
    names: &[u8],
) -> bool
    ensures { result ≡ table_ok (table handles.now parents.now ends.now marks.now count names.now) }
{
    if !lists_ok(handles, parents, ends, marks) {
        return false;
    }
    if 1024 < count {
        return false;
    }
    if count == 0 {
        return false;
    }
    if !parents_ok(&parents[..count]) {
        return false;
    }
    if !ends_ok(&ends[..count], names.len()) {
        return false;
    }
    marks_ok(&parents[..count], &marks[..count])
}

// A name: wholly one string.
#[tactic(auto, unfolding(crate::specs::Table::name_at, layout::specs::Answer::after))]
pub fn check_name(s: &[u8]) -> Result<usize, Refusal>
    ensures { says_count result ≡ name_at s.now }
{
    let (_, next) = (Cursor { at: 0 }).text(s)?;
    if next.at == s.len() {
        Ok(next.at)
    } else {
        Err(layout::plain(layout::TRAIL))
    }
}

pub(crate) fn check_names(ends: &[u32], names: &[u8]) -> Result<usize, Refusal>
    requires { Rising ends.now (length names.now) }
    ensures { says_count result ≡ names_from 0 (length ends.now) ends.now names.now }
{
    let mut from: usize = 0;
    for end in ends {
        let end = *end as usize;
        check_name(&names[from..end])?;
        from = end;
    }
    Ok(ends.len())
}

// How many objects a table has, or the first refusal: 11, then each name's 1, 2, 3 in table order.
pub fn check_table(
    handles: &[u32],
    parents: &[u16],
    ends: &[u32],
    marks: &[u8],
    count: usize,
    names: &[u8],
) -> Result<usize, Refusal>
    ensures { says_count result ≡ table_at (table handles.now parents.now ends.now marks.now count names.now) }
{
    if !table_ok(handles, parents, ends, marks, count, names) {
        return Err(layout::plain(layout::TABLE));
    }
    check_names(&ends[..count], names)
}
