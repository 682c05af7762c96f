// The walk of a table, breadth first, by a fixed queue.
ghost use Rattle.layout.specs.Answer.{says_count};
ghost use Rattle.std.specs.Prelude.{◌≤◌, length, ◌≡◌};
ghost use Rattle.layout.specs.Written.{Wrote, says};
ghost use Rattle.tree.specs.Facts.{Ruled, Marks};
ghost use Rattle.tree.specs.Table.{table, live};
ghost use Rattle.tree.specs.Links.{Linking, Keeping};
ghost use Rattle.tree.specs.Path.{Walked};
ghost use Rattle.tree.specs.Says.{Walks, OrderSays};

use crate::{Order, linking, table};
use layout::Refusal;

// The places of a table that keeps its rule, by its links: `places` is the queue, whose first `i` are done. `parents` and `marks` say whose links they are.
pub(crate) fn walk_ruled(
    parents: &[u16],
    marks: &[u8],
    first: &[u16],
    next: &[u16],
    places: &mut [u16],
) -> usize
    requires ruled { Ruled parents.now }
    requires marks { Marks parents.now (live marks.now) }
    requires linking { Linking parents.now (live marks.now) 1 first.now next.now }
    requires parents_in_bounds { length parents.now ≤ length places.old }
    ensures { Walks parents.now (live marks.now) places.old result places.new }
{
    places[0] = 0;
    let mut count: usize = 1;
    let mut i: usize = 0;
    // No range: the queue grows while it is gone through.
    while i < count {
        let p = places[i] as usize;
        count = linking::put_chain(next, first[p], places, count);
        i += 1;
    }
    count
}

// The places of a table that keeps its rule; its links are made first.
pub(crate) fn walk_made(parents: &[u16], marks: &[u8], places: &mut [u16]) -> usize
    requires ruled { Ruled parents.now }
    requires marks_len { length marks.now ≡ length parents.now }
    requires marks { Marks parents.now (live marks.now) }
    requires parents_in_bounds { length parents.now ≤ length places.old }
    ensures { Walks parents.now (live marks.now) places.old result places.new }
{
    let mut first = [0u16; 1024];
    let mut next = [0u16; 1024];
    linking::link_ruled(parents, marks, &mut first, &mut next);
    walk_ruled(parents, marks, &first, &next, places)
}

// The walk of a table, or its refusal.
pub fn walk(
    handles: &[u32],
    parents: &[u16],
    ends: &[u32],
    marks: &[u8],
    count: usize,
    names: &[u8],
) -> Order
    ensures { OrderSays (table handles.now parents.now ends.now marks.now count names.now) result }
{
    let mut places = [0u16; 1024];
    match table::check_table(handles, parents, ends, marks, count, names) {
        Ok(_) => {
            let n = walk_made(&parents[..count], &marks[..count], &mut places);
            Order {
                refusal: layout::plain(0),
                count: n,
                places,
            }
        }
        Err(f) => Order {
            refusal: f,
            count: 0,
            places,
        },
    }
}

// These places at the front of what was lent; 9 where it is shorter.
#[tactic(auto, unfolding(layout::specs::Written::answer_of, layout::specs::Written::left_of))]
pub(crate) fn give(order: &[u16], places: &mut [u16]) -> Result<usize, Refusal>
    ensures { Wrote (says order.now) places.old (says_count result) places.new }
{
    if places.len() < order.len() {
        return Err(layout::plain(layout::ROOM));
    }
    places[..order.len()].copy_from_slice(order);
    Ok(order.len())
}

// The walk of a table into what was lent: the table's refusals, then 9.
pub fn walk_into(
    handles: &[u32],
    parents: &[u16],
    ends: &[u32],
    marks: &[u8],
    count: usize,
    names: &[u8],
    places: &mut [u16],
) -> Result<usize, Refusal>
    ensures { Walked (table handles.now parents.now ends.now marks.now count names.now) places.old (says_count result) places.new }
{
    table::check_table(handles, parents, ends, marks, count, names)?;
    let mut queue = [0u16; 1024];
    let n = walk_made(&parents[..count], &marks[..count], &mut queue);
    give(&queue[..n], places)
}

// The same of a table that keeps its links.
pub fn walk_linked(
    handles: &[u32],
    parents: &[u16],
    ends: &[u32],
    marks: &[u8],
    count: usize,
    names: &[u8],
    first: &[u16],
    next: &[u16],
    places: &mut [u16],
) -> Result<usize, Refusal>
    ensures { Keeping (table handles.now parents.now ends.now marks.now count names.now) first.now next.now (says_count result) (Walked (table handles.now parents.now ends.now marks.now count names.now) places.old (says_count result) places.new) (places.new ≡ places.old) }
{
    linking::check_links(handles, parents, ends, marks, count, names, first, next)?;
    let mut queue = [0u16; 1024];
    let n = walk_ruled(&parents[..count], &marks[..count], first, next, &mut queue);
    give(&queue[..n], places)
}
