// First child and next sibling of each live place, by one pass from the last place down.
ghost use Rattle.layout.specs.Answer.{says_count};
ghost use Rattle.std.specs.Prelude.{◌≡◌, ◌&&◌, ℕ, ◌-◌, length, get_or};
ghost use Rattle.layout.specs.Written.{Put};
ghost use Rattle.tree.specs.Facts.{Ruled};
ghost use Rattle.tree.specs.Table.{table, live};
ghost use Rattle.tree.specs.Links.{chain_in, first_at, next_at, Linking, agrees, Linked, kept_at};

use crate::table;
use layout::Refusal;

// The links of a table that keeps its rule, into lists that hold 0 alone: each live place is put before its later siblings.
pub(crate) fn link_ruled(parents: &[u16], marks: &[u8], first: &mut [u16], next: &mut [u16])
    requires ruled { Ruled parents.now }
    requires marks_len { length marks.now ≡ length parents.now }
    requires linking { Linking parents.now (live marks.now) (length parents.now) first.old next.old }
    ensures { Linking parents.now (live marks.now) 1 first.new next.new }
{
    for k in (1..parents.len()).rev() {
        if marks[k] != 0 {
            let p = parents[k] as usize;
            next[k] = first[p];
            first[p] = k as u16;
        }
    }
}

// Makes every entry 0.
fn clear(list: &mut [u16])
    ensures { (length list.new ≡ length list.old) × ((k : ℕ) → get_or list.new k 0 ≡ 0) }
{
    list.fill(0);
}

// Whether these are the links of a table that keeps its rule: they are made apart and compared.
fn same_links(parents: &[u16], marks: &[u8], first: &[u16], next: &[u16]) -> bool
    requires ruled { Ruled parents.now }
    requires marks_len { length marks.now ≡ length parents.now }
    requires first_len { length first.now ≡ 1024 }
    requires next_len { length next.now ≡ 1024 }
    ensures { result ≡ (agrees 0 (first_at parents.now (live marks.now) 1) first.now && agrees 0 (next_at parents.now (live marks.now) 1) next.now) }
{
    let mut made_first = [0u16; 1024];
    let mut made_next = [0u16; 1024];
    link_ruled(parents, marks, &mut made_first, &mut made_next);
    first == &made_first[..] && next == &made_next[..]
}

// The link of a place, none where it has no place.
fn link_of(next: &[u16], k: u16) -> u16
    ensures { result ≡ get_or next.now k 0 }
{
    next.get(k as usize).copied().unwrap_or(0)
}

// Puts a place and its later siblings, along the links, behind the first `count`, as far as there is room.
pub fn put_chain(next: &[u16], from: u16, places: &mut [u16], count: usize) -> usize
    ensures { Put places.old count (chain_in (length places.old - count) next.now from) places.new result }
{
    let mut n = count;
    let mut k = from;
    // No range: the links say which place is next, and the last of them where it ends.
    while n < places.len() {
        if k == 0 {
            return n;
        }
        places[n] = k;
        n += 1;
        k = link_of(next, k);
    }
    n
}

// The links of a table, both lists whole: 11 where one has not 1,024 places, and the table's refusals.
pub fn link(
    handles: &[u32],
    parents: &[u16],
    ends: &[u32],
    marks: &[u8],
    count: usize,
    names: &[u8],
    first: &mut [u16],
    next: &mut [u16],
) -> Result<usize, Refusal>
    ensures { Linked (table handles.now parents.now ends.now marks.now count names.now) first.old next.old (says_count result) first.new next.new }
{
    if first.len() != 1024 {
        return Err(layout::plain(layout::TABLE));
    }
    if next.len() != 1024 {
        return Err(layout::plain(layout::TABLE));
    }
    let n = table::check_table(handles, parents, ends, marks, count, names)?;
    clear(first);
    clear(next);
    link_ruled(&parents[..count], &marks[..count], first, next);
    Ok(n)
}

// How many objects a table that keeps its links has, or the first refusal: 11, also for other links than its own, then each name's 1, 2, 3.
pub fn check_links(
    handles: &[u32],
    parents: &[u16],
    ends: &[u32],
    marks: &[u8],
    count: usize,
    names: &[u8],
    first: &[u16],
    next: &[u16],
) -> Result<usize, Refusal>
    ensures { says_count result ≡ kept_at (table handles.now parents.now ends.now marks.now count names.now) first.now next.now }
{
    if first.len() != 1024 {
        return Err(layout::plain(layout::TABLE));
    }
    if next.len() != 1024 {
        return Err(layout::plain(layout::TABLE));
    }
    if !table::table_ok(handles, parents, ends, marks, count, names) {
        return Err(layout::plain(layout::TABLE));
    }
    if !same_links(&parents[..count], &marks[..count], first, next) {
        return Err(layout::plain(layout::TABLE));
    }
    table::check_names(&ends[..count], names)
}
