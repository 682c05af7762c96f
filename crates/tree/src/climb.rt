// The path of a place, by its parent's path. Two passes: measure, then put.
ghost use Rattle.layout.specs.Answer.{says_count};
ghost use Rattle.std.specs.Prelude.{◌≡◌, [], ◌∷◌, ◌-◌, ◌≤◌, ◌<◌, eqb, length};
ghost use Rattle.layout.specs.Answer.{pick};
ghost use Rattle.layout.specs.Written.{Put, Wrote, roomed};
ghost use Rattle.tree.specs.Facts.{Kept};
ghost use Rattle.tree.specs.Table.{table};
ghost use Rattle.tree.specs.Path.{path_of, path_said};

use crate::{name, table};
use layout::Refusal;

fn path_len(parents: &[u16], ends: &[u32], names: &[u8], place: usize) -> usize
    requires kept { Kept parents.now ends.now names.now }
    requires place_in_bounds { place < length parents.now }
    ensures { result ≡ length (path_of parents.now ends.now names.now place) }
{
    if place == 0 {
        return name::name_len(ends, names, 0);
    }
    let q = parents[place] as usize;
    let above = path_len(parents, ends, names, q);
    let n = name::name_len(ends, names, place);
    if above == 0 { n } else { above + 1 + n }
}

// A slash, unless nothing was written from `from` on.
pub(crate) fn slash(out: &mut [u8], from: usize, o: usize) -> usize
    ensures { Put out.old o (roomed out.old o (pick (eqb o from) [] (0x2F ∷ []))) out.new result }
{
    if o == from {
        return o;
    }
    layout::store(out, o, 1, 0x2F)
}

// The parent's place is smaller, so the calls end at the root.
fn put_path(
    parents: &[u16],
    ends: &[u32],
    names: &[u8],
    place: usize,
    out: &mut [u8],
    o: usize,
) -> usize
    requires kept { Kept parents.now ends.now names.now }
    requires place_in_bounds { place < length parents.now }
    requires place_in_bounds_2 { length (path_of parents.now ends.now names.now place) ≤ length out.old - o }
    ensures { Put out.old o (path_of parents.now ends.now names.now place) out.new result }
{
    if place == 0 {
        return name::put_name(ends, names, 0, out, o);
    }
    let q = parents[place] as usize;
    let a = put_path(parents, ends, names, q, out, o);
    let b = slash(out, o, a);
    name::put_name(ends, names, place, out, b)
}

// The path of a place: the table's refusals, 12 for a place that is not live, then 9.
pub fn path(
    handles: &[u32],
    parents: &[u16],
    ends: &[u32],
    marks: &[u8],
    count: usize,
    names: &[u8],
    place: usize,
    out: &mut [u8],
) -> Result<usize, Refusal>
    ensures { Wrote (path_said (table handles.now parents.now ends.now marks.now count names.now) place) out.old (says_count result) out.new }
{
    table::check_table(handles, parents, ends, marks, count, names)?;
    if count <= place {
        return Err(layout::plain(layout::PLACE));
    }
    if marks[place] == 0 {
        return Err(layout::plain(layout::PLACE));
    }
    if out.len() < path_len(&parents[..count], &ends[..count], names, place) {
        return Err(layout::plain(layout::ROOM));
    }
    Ok(put_path(&parents[..count], &ends[..count], names, place, out, 0))
}
