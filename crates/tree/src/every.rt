// The paths of places end to end, in any order in which a parent stands before its children. Two passes: measure, then put. A place's path is its parent's, copied from where it
// stands already, the slash, and the name.
ghost use Rattle.layout.specs.Answer.{says_count};
ghost use Rattle.std.specs.Prelude.{◌≡◌, ◌+◌, ◌≤◌, ◌<◌, length, take, drop};
ghost use Rattle.layout.specs.Written.{Put};
ghost use Rattle.tree.specs.Facts.{Kept, Listing, Long, Stands, Above, All, PathsGiven};
ghost use Rattle.tree.specs.Links.{Keeping};
ghost use Rattle.tree.specs.Table.{table};
ghost use Rattle.tree.specs.Path.{path_of, joined, ends_from, AllPaths};

use crate::{climb, linking, name, queue, table};
use layout::Refusal;

// How long the path of a place is, where its parent's length is kept.
fn len_by(parents: &[u16], ends: &[u32], names: &[u8], lens: &[usize], place: usize) -> usize
    requires kept { Kept parents.now ends.now names.now }
    requires place_in_bounds { place < length parents.now }
    requires lens_len { length lens.now ≡ 1024 }
    requires above { Above parents.now (Long parents.now ends.now names.now lens.now) place }
    ensures { result ≡ length (path_of parents.now ends.now names.now place) }
{
    let n = name::name_len(ends, names, place);
    if place == 0 {
        return n;
    }
    let q = parents[place] as usize;
    let above = lens[q];
    if above == 0 { n } else { above + 1 + n }
}

// How long the paths of these places are together, and of each by its place.
fn paths_len(
    parents: &[u16],
    ends: &[u32],
    names: &[u8],
    order: &[u16],
    lens: &mut [usize],
) -> usize
    requires listing { Listing parents.now ends.now names.now order.now }
    requires lens_len { length lens.old ≡ 1024 }
    ensures { (result ≡ length (joined parents.now ends.now names.now order.now)) × All (Long parents.now ends.now names.now lens.new) order.now × (length lens.new ≡ 1024) }
{
    let mut need: usize = 0;
    for place in order {
        let place = *place as usize;
        let n = len_by(parents, ends, names, &*lens, place);
        lens[place] = n;
        need += n;
    }
    need
}

// The n bytes from a place on, put again at a place behind them.
fn again(out: &mut [u8], from: usize, n: usize, o: usize) -> usize
    requires n_bound { from + n ≤ o }
    requires n_in_bounds { o + n ≤ length out.old }
    ensures { Put out.old o (take n (drop from out.old)) out.new result }
{
    // A loop: the library's `copy_from_slice` calls `memmove`, and is slower on short names.
    for i in 0..n {
        out[o + i] = out[from + i];
    }
    o + n
}

// The path of a place, where its parent's stands in the output.
fn put_by(
    parents: &[u16],
    ends: &[u32],
    names: &[u8],
    lens: &[usize],
    starts: &[usize],
    place: usize,
    out: &mut [u8],
    o: usize,
) -> usize
    requires kept { Kept parents.now ends.now names.now }
    requires place_in_bounds { place < length parents.now }
    requires lens_len { (length lens.now ≡ 1024) × (length starts.now ≡ 1024) }
    requires above { Above parents.now (Long parents.now ends.now names.now lens.now) place }
    requires above_2 { Above parents.now (Stands parents.now ends.now names.now starts.now out.old o) place }
    requires place_in_bounds_2 { o + length (path_of parents.now ends.now names.now place) ≤ length out.old }
    ensures { Put out.old o (path_of parents.now ends.now names.now place) out.new result }
{
    if place == 0 {
        return name::put_name(ends, names, 0, out, o);
    }
    let q = parents[place] as usize;
    let a = again(out, starts[q], lens[q], o);
    let b = climb::slash(out, o, a);
    name::put_name(ends, names, place, out, b)
}

fn put_paths(
    parents: &[u16],
    ends: &[u32],
    names: &[u8],
    order: &[u16],
    lens: &[usize],
    starts: &mut [usize],
    out: &mut [u8],
    out_ends: &mut [u32],
) -> usize
    requires listing { Listing parents.now ends.now names.now order.now }
    requires order_in_bounds { length (joined parents.now ends.now names.now order.now) ≤ length out.old }
    requires order_in_bounds_2 { length order.now ≤ length out_ends.old }
    requires lens_len { (length lens.now ≡ 1024) × (length starts.old ≡ 1024) }
    requires all { All (Long parents.now ends.now names.now lens.now) order.now }
    ensures put { Put out.old 0 (joined parents.now ends.now names.now order.now) out.new result }
    ensures put_2 { Put out_ends.old 0 (ends_from 0 parents.now ends.now names.now order.now) out_ends.new (length order.now) }
{
    let mut o: usize = 0;
    for (i, place) in order.iter().enumerate() {
        let place = *place as usize;
        let next = put_by(parents, ends, names, lens, &*starts, place, out, o);
        starts[place] = o;
        out_ends[i] = next as u32;
        o = next;
    }
    o
}

// The paths of these places with an end for each; 9 where either output is too short, and neither is changed.
pub(crate) fn give_paths(
    parents: &[u16],
    ends: &[u32],
    names: &[u8],
    order: &[u16],
    out: &mut [u8],
    out_ends: &mut [u32],
) -> Result<usize, Refusal>
    requires { Listing parents.now ends.now names.now order.now }
    ensures { PathsGiven parents.now ends.now names.now order.now out.old out_ends.old (says_count result) out.new out_ends.new }
{
    if out_ends.len() < order.len() {
        return Err(layout::plain(layout::ROOM));
    }
    let mut lens = [0usize; 1024];
    let need = paths_len(parents, ends, names, order, &mut lens);
    if out.len() < need {
        return Err(layout::plain(layout::ROOM));
    }
    let mut starts = [0usize; 1024];
    Ok(put_paths(
        parents,
        ends,
        names,
        order,
        &lens,
        &mut starts,
        out,
        out_ends,
    ))
}

// All paths in walk order, with an end for each: the table's refusals, then 9 for either output.
pub fn paths(
    handles: &[u32],
    parents: &[u16],
    ends: &[u32],
    marks: &[u8],
    count: usize,
    names: &[u8],
    out: &mut [u8],
    out_ends: &mut [u32],
) -> Result<usize, Refusal>
    ensures { AllPaths (table handles.now parents.now ends.now marks.now count names.now) out.old out_ends.old (says_count result) out.new out_ends.new }
{
    table::check_table(handles, parents, ends, marks, count, names)?;
    let mut places = [0u16; 1024];
    let n = queue::walk_made(&parents[..count], &marks[..count], &mut places);
    give_paths(
        &parents[..count],
        &ends[..count],
        names,
        &places[..n],
        out,
        out_ends,
    )
}

// The same of a table that keeps its links.
pub fn paths_linked(
    handles: &[u32],
    parents: &[u16],
    ends: &[u32],
    marks: &[u8],
    count: usize,
    names: &[u8],
    first: &[u16],
    next: &[u16],
    out: &mut [u8],
    out_ends: &mut [u32],
) -> Result<usize, Refusal>
    ensures { Keeping (table handles.now parents.now ends.now marks.now count names.now) first.now next.now (says_count result) (AllPaths (table handles.now parents.now ends.now marks.now count names.now) out.old out_ends.old (says_count result) out.new out_ends.new) ((out.new ≡ out.old) × (out_ends.new ≡ out_ends.old)) }
{
    linking::check_links(handles, parents, ends, marks, count, names, first, next)?;
    let mut places = [0u16; 1024];
    let n = queue::walk_ruled(&parents[..count], &marks[..count], first, next, &mut places);
    give_paths(
        &parents[..count],
        &ends[..count],
        names,
        &places[..n],
        out,
        out_ends,
    )
}
