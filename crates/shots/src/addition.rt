// An object added behind the last; those that ended are collected first where places or name bytes do not suffice.
ghost use Rattle.layout.specs.Answer.{says_count};
ghost use Rattle.std.specs.Prelude.{true, ◌≡◌, ◌-◌, ◌≤◌, ◌<◌, length, take};
ghost use Rattle.layout.specs.Answer.{got};
ghost use Rattle.tree.specs.Facts.{Ruled, Marks};
ghost use Rattle.tree.specs.Links.{Links};
ghost use Rattle.tree.specs.Rule.{Rule};
ghost use Rattle.tree.specs.Table.{table, live, start_of, table_at};
ghost use Rattle.shots.specs.Collected.{alive, names_kept, Lists};
ghost use Rattle.shots.specs.Added.{up_from, tight, with, base, added_to, room_at, add_at, Adds};
ghost use Rattle.shots.specs.Linked.{AddsLinked};
ghost use Rattle.shots.specs.Facts.{Spaced, Fit, Fronted, Room, Based, LinksOf, Appended, spare_at, object_at};

use crate::collection;
use layout::Refusal;

// Each place its own.
fn own(news: &mut [u16], count: usize) -> usize
    requires count_bound { count ≤ 1024 }
    requires count_in_bounds { count ≤ length news.old }
    ensures { Fronted (up_from 0 count) news.old news.new result }
{
    for k in 0..count {
        news[k] = k as u16;
    }
    count
}

// How many are live.
fn living(marks: &[u8]) -> usize
    requires { length marks.now ≤ 1024 }
    ensures { result ≡ alive marks.now }
{
    // A loop, since `filter` and `count` take half as long again.
    let mut n: usize = 0;
    for mark in marks {
        if *mark != 0 {
            n += 1;
        }
    }
    n
}

// How many name bytes are left where only the live names stand.
fn spare(marks: &[u8], ends: &[u32], names: &[u8]) -> usize
    requires marks_len_bound { length marks.now ≤ 1024 }
    requires marks_in_bounds { length marks.now ≤ length ends.now }
    requires spaced { Spaced (length marks.now) ends.now (length names.now) }
    ensures { result ≡ length names.now - length (names_kept 0 marks.now ends.now names.now) }
{
    let mut o: usize = 0;
    let mut from: usize = 0;
    for (k, mark) in marks.iter().enumerate() {
        let end = ends[k] as usize;
        if *mark != 0 {
            o += end - from;
        }
        from = end;
    }
    names.len() - o
}

// Where the name of the last of n objects ends.
fn last_end(ends: &[u32], n: usize) -> usize
    requires n_in_bounds { n ≤ length ends.now }
    requires ends_len { length ends.now ≡ 1024 }
    ensures { result ≡ start_of ends.now n }
{
    if n == 0 { 0 } else { ends[n - 1] as usize }
}

// Whether places, or name bytes at the end, do not suffice.
fn is_tight(
    handles: &[u32],
    parents: &[u16],
    ends: &[u32],
    marks: &[u8],
    count: usize,
    names: &[u8],
    size: usize,
) -> bool
    requires { Fit (table handles.now parents.now ends.now marks.now count names.now) }
    ensures { result ≡ tight (table handles.now parents.now ends.now marks.now count names.now) size }
{
    if count == 1024 {
        return true;
    }
    names.len() - last_end(ends, count) < size
}

// The table that the object is put into, and the new places; the new count.
fn make_room(
    handles: &mut [u32],
    parents: &mut [u16],
    ends: &mut [u32],
    marks: &mut [u8],
    count: usize,
    names: &mut [u8],
    news: &mut [u16],
    size: usize,
) -> usize
    requires fit { Fit (table handles.old parents.old ends.old marks.old count names.old) }
    requires news_len { length news.old ≡ 1024 }
    ensures { Based (table handles.old parents.old ends.old marks.old count names.old) size news.old result handles.new parents.new ends.new marks.new names.new news.new }
{
    if is_tight(&*handles, &*parents, &*ends, &*marks, count, &*names, size) {
        return collection::gather(handles, parents, ends, marks, count, names, news);
    }
    own(news, count)
}

// An object behind the last.
fn put_object(
    handles: &mut [u32],
    parents: &mut [u16],
    ends: &mut [u32],
    marks: &mut [u8],
    count: usize,
    names: &mut [u8],
    parent: u16,
    handle: u32,
    name: &[u8],
) -> usize
    requires { Room (table handles.old parents.old ends.old marks.old count names.old) (length name.now) }
    ensures { Lists (with (table handles.old parents.old ends.old marks.old count names.old) parent handle name.now) handles.new parents.new ends.new marks.new names.new }
{
    let from = last_end(&*ends, count);
    handles[count] = handle;
    parents[count] = parent;
    ends[count] = (from + name.len()) as u32;
    marks[count] = 1;
    layout::copy(name, 0, name.len(), names, from)
}

// 19, then 9 for a name of this size.
fn check_room(marks: &[u8], ends: &[u32], names: &[u8], size: usize) -> Result<usize, Refusal>
    requires marks_len_bound { length marks.now ≤ 1024 }
    requires marks_in_bounds { length marks.now ≤ length ends.now }
    requires spaced { Spaced (length marks.now) ends.now (length names.now) }
    ensures { says_count result ≡ spare_at marks.now ends.now names.now size }
{
    if living(marks) == 1024 {
        return Err(layout::plain(crate::TAKEN));
    }
    if spare(marks, ends, names) < size {
        return Err(layout::plain(layout::ROOM));
    }
    Ok(0)
}

// 12 for a parent that is not live, the name's 1, 2, 3, then 19 and 9.
fn check_object(
    marks: &[u8],
    ends: &[u32],
    names: &[u8],
    parent: usize,
    name: &[u8],
) -> Result<usize, Refusal>
    requires marks_len_bound { length marks.now ≤ 1024 }
    requires marks_in_bounds { length marks.now ≤ length ends.now }
    requires spaced { Spaced (length marks.now) ends.now (length names.now) }
    ensures { says_count result ≡ object_at marks.now ends.now names.now parent name.now }
{
    if marks.len() <= parent {
        return Err(layout::plain(layout::PLACE));
    }
    if marks[parent] == 0 {
        return Err(layout::plain(layout::PLACE));
    }
    tree::check_name(name)?;
    check_room(marks, ends, names, name.len())
}

// The object behind the last, where there is room for it; its place.
fn add_named(
    handles: &mut [u32],
    parents: &mut [u16],
    ends: &mut [u32],
    marks: &mut [u8],
    count: usize,
    names: &mut [u8],
    news: &mut [u16],
    parent: usize,
    handle: u32,
    name: &[u8],
) -> usize
    requires fit { Fit (table handles.old parents.old ends.old marks.old count names.old) }
    requires news_len { length news.old ≡ 1024 }
    requires parent_lt_count { parent < count }
    requires count_bound { start_of ends.old count ≤ 523264 }
    requires name_len_bound { length name.now ≤ 511 }
    requires tt_value { got tt 0 ≡ spare_at (take count marks.old) ends.old names.old (length name.now) }
    ensures { Adds (room_at (table handles.old parents.old ends.old marks.old count names.old) (length name.now)) (table handles.old parents.old ends.old marks.old count names.old) news.old parent handle name.now (got tt result) handles.new parents.new ends.new marks.new names.new news.new }
{
    let n = make_room(
        handles,
        parents,
        ends,
        marks,
        count,
        names,
        news,
        name.len(),
    );
    let p = news[parent];
    put_object(handles, parents, ends, marks, n, names, p, handle, name);
    n
}

// The table's refusals, 12 for a parent that is not live, the name's 1, 2, 3, then 19 and 9. The object's place.
pub fn add(
    handles: &mut [u32],
    parents: &mut [u16],
    ends: &mut [u32],
    marks: &mut [u8],
    count: usize,
    names: &mut [u8],
    news: &mut [u16],
    parent: usize,
    handle: u32,
    name: &[u8],
) -> Result<usize, Refusal>
    ensures { Adds (add_at (table handles.old parents.old ends.old marks.old count names.old) news.old parent name.now) (table handles.old parents.old ends.old marks.old count names.old) news.old parent handle name.now (says_count result) handles.new parents.new ends.new marks.new names.new news.new }
{
    if news.len() != 1024 {
        return Err(layout::plain(layout::TABLE));
    }
    tree::check_table(&*handles, &*parents, &*ends, &*marks, count, &*names)?;
    check_object(&marks[..count], &*ends, &*names, parent, name)?;
    Ok(add_named(
        handles, parents, ends, marks, count, names, news, parent, handle, name,
    ))
}

// What `make_room` does, of a table with its links.
fn make_room_linked(
    handles: &mut [u32],
    parents: &mut [u16],
    ends: &mut [u32],
    marks: &mut [u8],
    count: usize,
    names: &mut [u8],
    first: &mut [u16],
    next: &mut [u16],
    news: &mut [u16],
    size: usize,
) -> usize
    requires rule { Rule (table handles.old parents.old ends.old marks.old count names.old) }
    requires news_len { length news.old ≡ 1024 }
    requires links_of { LinksOf (table handles.old parents.old ends.old marks.old count names.old) first.old next.old }
    ensures { Based (table handles.old parents.old ends.old marks.old count names.old) size news.old result handles.new parents.new ends.new marks.new names.new news.new × LinksOf (base (table handles.old parents.old ends.old marks.old count names.old) size) first.new next.new }
{
    if is_tight(&*handles, &*parents, &*ends, &*marks, count, &*names, size) {
        return collection::gather_linked(
            handles, parents, ends, marks, count, names, first, next, news,
        );
    }
    own(news, count)
}

// A place behind the last at the end of its parent's chain: one link is written.
fn append(
    parents: &[u16],
    marks: &[u8],
    first: &mut [u16],
    next: &mut [u16],
    parent: u16,
    place: usize,
)
    requires ruled { Ruled parents.now }
    requires marks { Marks parents.now (live marks.now) }
    requires links { Links parents.now (live marks.now) first.old next.old }
    requires parent_value { live marks.now parent ≡ true }
    requires place_bound { place < 1024 }
    ensures { Appended parents.now (live marks.now) parent place first.old next.old first.new next.new }
{
    let p = parent as usize;
    let mut k = first[p] as usize;
    if k == 0 {
        first[p] = place as u16;
        return;
    }
    // No range: the links say which child is next.
    while next[k] != 0 {
        k = next[k] as usize;
    }
    next[k] = place as u16;
}

// What `add_named` does, of a table with its links: the object's place goes to the end of its parent's chain.
fn add_named_linked(
    handles: &mut [u32],
    parents: &mut [u16],
    ends: &mut [u32],
    marks: &mut [u8],
    count: usize,
    names: &mut [u8],
    first: &mut [u16],
    next: &mut [u16],
    news: &mut [u16],
    parent: usize,
    handle: u32,
    name: &[u8],
) -> usize
    requires names_value { table_at (table handles.old parents.old ends.old marks.old count names.old) ≡ got tt count }
    requires news_len { length news.old ≡ 1024 }
    requires parent_value { live (take count marks.old) parent ≡ true }
    requires count_bound { start_of ends.old count ≤ 523264 }
    requires name_len_bound { length name.now ≤ 511 }
    requires tt_value { got tt 0 ≡ spare_at (take count marks.old) ends.old names.old (length name.now) }
    requires links_of { LinksOf (table handles.old parents.old ends.old marks.old count names.old) first.old next.old }
    ensures { Adds (room_at (table handles.old parents.old ends.old marks.old count names.old) (length name.now)) (table handles.old parents.old ends.old marks.old count names.old) news.old parent handle name.now (got tt result) handles.new parents.new ends.new marks.new names.new news.new × LinksOf (added_to (table handles.old parents.old ends.old marks.old count names.old) parent handle name.now) first.new next.new }
{
    let n = make_room_linked(
        handles,
        parents,
        ends,
        marks,
        count,
        names,
        first,
        next,
        news,
        name.len(),
    );
    let p = news[parent];
    append(&parents[..n], &marks[..n], first, next, p, n);
    put_object(handles, parents, ends, marks, n, names, p, handle, name);
    n
}

// What `add` does, of a table that keeps its links; 11 also for other links than its own.
pub fn add_linked(
    handles: &mut [u32],
    parents: &mut [u16],
    ends: &mut [u32],
    marks: &mut [u8],
    count: usize,
    names: &mut [u8],
    first: &mut [u16],
    next: &mut [u16],
    news: &mut [u16],
    parent: usize,
    handle: u32,
    name: &[u8],
) -> Result<usize, Refusal>
    ensures { AddsLinked (table handles.old parents.old ends.old marks.old count names.old) first.old next.old news.old parent handle name.now (says_count result) handles.new parents.new ends.new marks.new names.new first.new next.new news.new }
{
    if news.len() != 1024 {
        return Err(layout::plain(layout::TABLE));
    }
    tree::check_links(
        &*handles, &*parents, &*ends, &*marks, count, &*names, &*first, &*next,
    )?;
    check_object(&marks[..count], &*ends, &*names, parent, name)?;
    Ok(add_named_linked(
        handles, parents, ends, marks, count, names, first, next, news, parent, handle, name,
    ))
}
