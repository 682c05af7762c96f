// An object table that keeps its links: they are made; the walk and all paths go along them; an object deleted, the live ones collected, one added.
ghost use Rattle.std.specs.Prelude.{◌≡◌};
ghost use Rattle.shots.specs.Linked.{DeletedLinked, CollectedLinked, AddsLinked};
ghost use Rattle.tree.specs.Links.{Keeping, Linked};
ghost use Rattle.tree.specs.Path.{Walked, AllPaths};
ghost use Rattle.tree.specs.Table.{table};
ghost use Rattle.abi.specs.Answered.{Tells};

use crate::answer;

// The links of a table. The answer is the count.
#[unsafe(no_mangle)]
pub extern "C" fn ptp_table_link(
    handles: &[u32],
    parents: &[u16],
    ends: &[u32],
    marks: &[u8],
    count: usize,
    names: &[u8],
    first: &mut [u16],
    next: &mut [u16],
) -> u64
    ensures { Tells (λ a. Linked (table handles.now parents.now ends.now marks.now count names.now) first.old next.old a first.new next.new) result }
{
    answer::told(tree::link(handles, parents, ends, marks, count, names, first, next))
}

// The places in walk order.
#[unsafe(no_mangle)]
pub extern "C" fn ptp_linked_walk(
    handles: &[u32],
    parents: &[u16],
    ends: &[u32],
    marks: &[u8],
    count: usize,
    names: &[u8],
    first: &[u16],
    next: &[u16],
    places: &mut [u16],
) -> u64
    ensures { Tells (λ a. Keeping (table handles.now parents.now ends.now marks.now count names.now) first.now next.now a (Walked (table handles.now parents.now ends.now marks.now count names.now) places.old a places.new) (places.new ≡ places.old)) result }
{
    answer::told(tree::walk_linked(
        handles, parents, ends, marks, count, names, first, next, places,
    ))
}

// All paths in walk order, end to end, and the end of each.
#[unsafe(no_mangle)]
pub extern "C" fn ptp_linked_paths(
    handles: &[u32],
    parents: &[u16],
    ends: &[u32],
    marks: &[u8],
    count: usize,
    names: &[u8],
    first: &[u16],
    next: &[u16],
    out: &mut [u8],
    out_ends: &mut [u32],
) -> u64
    ensures { Tells (λ a. Keeping (table handles.now parents.now ends.now marks.now count names.now) first.now next.now a (AllPaths (table handles.now parents.now ends.now marks.now count names.now) out.old out_ends.old a out.new out_ends.new) ((out.new ≡ out.old) × (out_ends.new ≡ out_ends.old))) result }
{
    answer::told(tree::paths_linked(
        handles, parents, ends, marks, count, names, first, next, out, out_ends,
    ))
}

// A place ended, and everything below it. The answer is the count, which stays.
#[unsafe(no_mangle)]
pub extern "C" fn ptp_linked_delete(
    handles: &[u32],
    parents: &[u16],
    ends: &[u32],
    marks: &mut [u8],
    count: usize,
    names: &[u8],
    first: &mut [u16],
    next: &mut [u16],
    place: usize,
) -> u64
    ensures { Tells (λ a. DeletedLinked (table handles.now parents.now ends.now marks.old count names.now) first.old next.old place a marks.new first.new next.new) result }
{
    answer::told(shots::delete_linked(
        handles, parents, ends, marks, count, names, first, next, place,
    ))
}

// The live objects moved down, and the new place of each. The answer is the new count.
#[unsafe(no_mangle)]
pub extern "C" fn ptp_linked_collect(
    handles: &mut [u32],
    parents: &mut [u16],
    ends: &mut [u32],
    marks: &mut [u8],
    count: usize,
    names: &mut [u8],
    first: &mut [u16],
    next: &mut [u16],
    news: &mut [u16],
) -> u64
    ensures { Tells (λ a. CollectedLinked (table handles.old parents.old ends.old marks.old count names.old) first.old next.old news.old a handles.new parents.new ends.new marks.new names.new first.new next.new news.new) result }
{
    answer::told(shots::collect_linked(
        handles, parents, ends, marks, count, names, first, next, news,
    ))
}

// An object behind the last, and the new place of each of the others. The answer is its place; the count is then one more.
#[unsafe(no_mangle)]
pub extern "C" fn ptp_linked_add(
    handles: &mut [u32],
    parents: &mut [u16],
    ends: &mut [u32],
    marks: &mut [u8],
    count: usize,
    names: &mut [u8],
    first: &mut [u16],
    next: &mut [u16],
    news: &mut [u16],
    parent: usize,
    handle: u32,
    name: &[u8],
) -> u64
    ensures { Tells (λ a. AddsLinked (table handles.old parents.old ends.old marks.old count names.old) first.old next.old news.old parent handle name.now a handles.new parents.new ends.new marks.new names.new first.new next.new news.new) result }
{
    answer::told(shots::add_linked(
        handles, parents, ends, marks, count, names, first, next, news, parent, handle, name,
    ))
}
