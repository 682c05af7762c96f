// A place deleted, and everything below it: by one pass over a table, or down the links of one that keeps them.
ghost use Rattle.layout.specs.Answer.{says_count};
ghost use Rattle.std.specs.Prelude.{◌≡◌, true, ◌&&◌, ◌≤◌, ◌<◌, ltb, length, take, get_or};
ghost use Rattle.layout.specs.Written.{Wrote, Put};
ghost use Rattle.tree.specs.Facts.{Ruled, Marks};
ghost use Rattle.tree.specs.Links.{Linking, Links};
ghost use Rattle.tree.specs.Table.{table, live};
ghost use Rattle.shots.specs.Deleted.{ended_from, delete_said};
ghost use Rattle.shots.specs.Linked.{DeletedLinked};
ghost use Rattle.shots.specs.Facts.{Cleared, Skipped, Falling, Inside};

use layout::Refusal;

// One pass upward: a place whose parent is not live ends.
fn fall(parents: &[u16], marks: &mut [u8], place: usize) -> usize
    requires ruled { Ruled parents.now }
    requires parents_in_bounds { length parents.now ≤ length marks.old }
    requires marks { Marks parents.now (live (take (length parents.now) marks.old)) }
    requires place_nonzero { 0 < place }
    requires place_in_bounds { place < length parents.now }
    ensures { Put marks.old 0 (ended_from 0 parents.now place (take (length parents.now) marks.old)) marks.new result }
{
    marks[place] = 0;
    for k in place + 1..parents.len() {
        let p = parents[k] as usize;
        if marks[p] == 0 {
            marks[k] = 0;
        }
    }
    parents.len()
}

// Whether a place can be deleted: it is live, and not the root.
fn may_end(marks: &[u8], place: usize) -> bool
    ensures { result ≡ (ltb 0 place && live marks.now place) }
{
    if place == 0 {
        return false;
    }
    if marks.len() <= place {
        return false;
    }
    marks[place] != 0
}

// The table's refusals, then 12 for the root and for a place that is not live. The count stays.
pub fn delete(
    handles: &[u32],
    parents: &[u16],
    ends: &[u32],
    marks: &mut [u8],
    count: usize,
    names: &[u8],
    place: usize,
) -> Result<usize, Refusal>
    ensures { Wrote (delete_said (table handles.now parents.now ends.now marks.old count names.now) place) marks.old (says_count result) marks.new }
{
    tree::check_table(handles, parents, ends, &*marks, count, names)?;
    if !may_end(&marks[..count], place) {
        return Err(layout::plain(layout::PLACE));
    }
    Ok(fall(&parents[..count], marks, place))
}

// What ends, by the links: a queue that begins with the place, whose first `i` are done.
fn fall_queue(
    parents: &[u16],
    marks: &[u8],
    first: &[u16],
    next: &[u16],
    places: &mut [u16],
    place: usize,
) -> usize
    requires ruled { Ruled parents.now }
    requires marks { Marks parents.now (live marks.now) }
    requires linking { Linking parents.now (live marks.now) 1 first.now next.now }
    requires parents_in_bounds { length parents.now ≤ length places.old }
    requires place_value { live marks.now place ≡ true }
    ensures { Falling parents.now (live marks.now) place places.old result places.new }
{
    places[0] = place as u16;
    let mut count: usize = 1;
    // No range: the queue grows while it is gone through.
    let mut i: usize = 0;
    while i < count {
        let p = places[i] as usize;
        count = tree::put_chain(next, first[p], places, count);
        i += 1;
    }
    count
}

// In the parent's chain the link that names the place shall name the one behind it.
fn unlink(parents: &[u16], marks: &[u8], first: &mut [u16], next: &mut [u16], place: usize)
    requires ruled { Ruled parents.now }
    requires marks { Marks parents.now (live marks.now) }
    requires links { Links parents.now (live marks.now) first.old next.old }
    requires place_nonzero { 0 < place }
    requires place_value { live marks.now place ≡ true }
    ensures { Skipped place (get_or next.old place 0) first.old first.new × Skipped place (get_or next.old place 0) next.old next.new }
{
    let p = parents[place] as usize;
    let after = next[place];
    let mut k = first[p] as usize;
    if k == place {
        first[p] = after;
        return;
    }
    // No range: the links say which child is next.
    while next[k] as usize != place {
        k = next[k] as usize;
    }
    next[k] = after;
}

// These places end, with no links.
fn end_all(queue: &[u16], marks: &mut [u8], first: &mut [u16], next: &mut [u16])
    requires inside { Inside queue.now (length marks.old) }
    requires marks_len_bound { length marks.old ≤ 1024 }
    requires queue_len_bound { length queue.now ≤ 1024 }
    requires marks_in_bounds { length marks.old ≤ length first.old }
    requires marks_in_bounds_2 { length marks.old ≤ length next.old }
    ensures { Cleared queue.now marks.old marks.new × Cleared queue.now first.old first.new × Cleared queue.now next.old next.new }
{
    for place in queue {
        let k = *place as usize;
        marks[k] = 0;
        first[k] = 0;
        next[k] = 0;
    }
}

// Down the links: what the queue holds ends, and the chain that held the place goes on behind it.
fn fall_linked(
    parents: &[u16],
    marks: &mut [u8],
    first: &mut [u16],
    next: &mut [u16],
    place: usize,
) -> usize
    requires ruled { Ruled parents.now }
    requires marks_len { length marks.old ≡ 1024 }
    requires marks { Marks parents.now (live (take (length parents.now) marks.old)) }
    requires links { Links parents.now (live (take (length parents.now) marks.old)) first.old next.old }
    requires place_nonzero { 0 < place }
    requires place_value { live (take (length parents.now) marks.old) place ≡ true }
    ensures { Put marks.old 0 (ended_from 0 parents.now place (take (length parents.now) marks.old)) marks.new result × Links parents.now (live (ended_from 0 parents.now place (take (length parents.now) marks.old))) first.new next.new }
{
    let count = parents.len();
    let mut queue = [0u16; 1024];
    let n = fall_queue(parents, &marks[..count], &*first, &*next, &mut queue, place);
    unlink(parents, &marks[..count], first, next, place);
    end_all(&queue[..n], marks, first, next);
    count
}

// What `delete` does, of a table that keeps its links; 11 also for other links than its own.
pub fn delete_linked(
    handles: &[u32],
    parents: &[u16],
    ends: &[u32],
    marks: &mut [u8],
    count: usize,
    names: &[u8],
    first: &mut [u16],
    next: &mut [u16],
    place: usize,
) -> Result<usize, Refusal>
    ensures { DeletedLinked (table handles.now parents.now ends.now marks.old count names.now) first.old next.old place (says_count result) marks.new first.new next.new }
{
    tree::check_links(
        handles, parents, ends, &*marks, count, names, &*first, &*next,
    )?;
    if !may_end(&marks[..count], place) {
        return Err(layout::plain(layout::PLACE));
    }
    Ok(fall_linked(&parents[..count], marks, first, next, place))
}
