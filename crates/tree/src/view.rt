// The folder view of a table, depth first, by a cycle of two functions: each calls the other on fewer objects.
ghost use Rattle.layout.specs.Answer.{says_count};
ghost use Rattle.std.specs.Prelude.{◌≡◌, ◌+◌, ◌≤◌, ◌<◌, length};
ghost use Rattle.layout.specs.Written.{Put};
ghost use Rattle.tree.specs.Facts.{Ruled, Marks};
ghost use Rattle.tree.specs.Table.{table, live};
ghost use Rattle.tree.specs.Below.{Down, full, inside, view_of};
ghost use Rattle.tree.specs.View.{Viewed, ViewPaths};

use crate::{every, linking, queue, table};
use layout::Refusal;

// A place, and then all below it.
#[cycle(entry_folder)]
fn entry(first: &[u16], next: &[u16], k: usize, places: &mut [u16], n: usize) -> usize
    requires down { Down first.now next.now }
    requires k_in_bounds { k < length first.now }
    requires k_in_bounds_2 { n + length (full first.now next.now k) ≤ length places.old }
    ensures { Put places.old n (full first.now next.now k) places.new result }
{
    places[n] = k as u16;
    folder(first, next, k, places, n + 1)
}

// All below a place, entry by entry along the chain of its children.
#[cycle(entry_folder)]
fn folder(first: &[u16], next: &[u16], p: usize, places: &mut [u16], n: usize) -> usize
    requires down { Down first.now next.now }
    requires p_in_bounds { p < length first.now }
    requires p_in_bounds_2 { n + length (inside first.now next.now p) ≤ length places.old }
    ensures { Put places.old n (inside first.now next.now p) places.new result }
{
    let mut m = n;
    let mut k = first[p] as usize;
    // No range: the links say which entry is next.
    while k != 0 {
        m = entry(first, next, k, places, m);
        k = next[k] as usize;
    }
    m
}

// The root and all below it, of a table that keeps its rule; its links are made first.
fn view_made(parents: &[u16], marks: &[u8], places: &mut [u16]) -> usize
    requires ruled { Ruled parents.now }
    requires marks_len { length marks.now ≡ length parents.now }
    requires marks { Marks parents.now (live marks.now) }
    requires parents_in_bounds { length parents.now ≤ length places.old }
    ensures { Put places.old 0 (view_of parents.now (live marks.now)) places.new result }
{
    let mut first = [0u16; 1024];
    let mut next = [0u16; 1024];
    linking::link_ruled(parents, marks, &mut first, &mut next);
    entry(&first, &next, 0, places, 0)
}

// The folder view of a table into what was lent: the table's refusals, then 9.
pub fn folders_into(
    handles: &[u32],
    parents: &[u16],
    ends: &[u32],
    marks: &[u8],
    count: usize,
    names: &[u8],
    places: &mut [u16],
) -> Result<usize, Refusal>
    ensures { Viewed (table handles.now parents.now ends.now marks.now count names.now) places.old (says_count result) places.new }
{
    table::check_table(handles, parents, ends, marks, count, names)?;
    let mut view = [0u16; 1024];
    let n = view_made(&parents[..count], &marks[..count], &mut view);
    queue::give(&view[..n], places)
}

// All paths in the order of the folder view, with an end for each: the table's refusals, then 9 for either output.
pub fn folder_paths(
    handles: &[u32],
    parents: &[u16],
    ends: &[u32],
    marks: &[u8],
    count: usize,
    names: &[u8],
    out: &mut [u8],
    out_ends: &mut [u32],
) -> Result<usize, Refusal>
    ensures { ViewPaths (table handles.now parents.now ends.now marks.now count names.now) out.old out_ends.old (says_count result) out.new out_ends.new }
{
    table::check_table(handles, parents, ends, marks, count, names)?;
    let mut view = [0u16; 1024];
    let n = view_made(&parents[..count], &marks[..count], &mut view);
    every::give_paths(
        &parents[..count],
        &ends[..count],
        names,
        &view[..n],
        out,
        out_ends,
    )
}
