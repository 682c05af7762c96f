// Live objects moved down in their order, one list at a time. Every store goes to a place at or before the one that is read.
ghost use Rattle.std.specs.Prelude.{◌≡◌, ◌+◌, ◌≤◌, length, get_or, take, drop};
ghost use Rattle.layout.specs.Answer.{says_count};
ghost use Rattle.layout.specs.Written.{Put};
ghost use Rattle.tree.specs.Links.{Links};
ghost use Rattle.tree.specs.Rule.{Rule};
ghost use Rattle.tree.specs.Table.{table, live};
ghost use Rattle.shots.specs.Facts.{Rises, Spaced, Hung, Fit, Fronted, Gathered, Lowered, Carried, LinksOf};
ghost use Rattle.shots.specs.Collected.{alive, places_from, kept_by, ends_kept, names_kept, collected, Collected};
ghost use Rattle.shots.specs.Linked.{CollectedLinked};

use layout::Refusal;

// The new places; how many are live.
fn number(marks: &[u8], news: &mut [u16]) -> usize
    requires marks_len_bound { length marks.now ≤ 1024 }
    requires marks_in_bounds { length marks.now ≤ length news.old }
    ensures { (result ≡ alive marks.now) × Fronted (places_from 0 marks.now) news.old news.new (length marks.now) }
{
    let mut n: usize = 0;
    for (k, mark) in marks.iter().enumerate() {
        if *mark == 0 {
            news[k] = crate::GONE;
        } else {
            news[k] = n as u16;
            n += 1;
        }
    }
    n
}

fn keep_handles(marks: &[u8], handles: &mut [u32]) -> usize
    requires marks_len_bound { length marks.now ≤ 1024 }
    requires marks_in_bounds { length marks.now ≤ length handles.old }
    ensures { Fronted (kept_by (λ h. h) marks.now handles.old) handles.old handles.new result }
{
    let mut n: usize = 0;
    for (k, mark) in marks.iter().enumerate() {
        if *mark != 0 {
            handles[n] = handles[k];
            n += 1;
        }
    }
    n
}

// Entries that are places, each carried to the new one.
fn keep_places(marks: &[u8], news: &[u16], list: &mut [u16]) -> usize
    requires marks_len_bound { length marks.now ≤ 1024 }
    requires marks_in_bounds { length marks.now ≤ length list.old }
    requires hung { Hung (length marks.now) list.old (length news.now) }
    ensures { Fronted (kept_by (λ p. get_or news.now p 0) marks.now list.old) list.old list.new result }
{
    let mut n: usize = 0;
    for (k, mark) in marks.iter().enumerate() {
        if *mark != 0 {
            let p = list[k] as usize;
            list[n] = news[p];
            n += 1;
        }
    }
    n
}

// The n bytes from a place on, at a place at or before it.
fn shift(names: &mut [u8], from: usize, n: usize, o: usize) -> usize
    requires o_le_from { o ≤ from }
    requires n_in_bounds { from + n ≤ length names.old }
    ensures { Put names.old o (take n (drop from names.old)) names.new result }
{
    // A loop, since `copy_within` is slower on names of a dozen bytes.
    for i in 0..n {
        names[o + i] = names[from + i];
    }
    o + n
}

fn keep_names(marks: &[u8], ends: &[u32], names: &mut [u8]) -> usize
    requires marks_len_bound { length marks.now ≤ 1024 }
    requires marks_in_bounds { length marks.now ≤ length ends.now }
    requires spaced { Spaced (length marks.now) ends.now (length names.old) }
    ensures { Fronted (names_kept 0 marks.now ends.now names.old) names.old names.new result }
{
    let mut o: usize = 0;
    let mut from: usize = 0;
    for (k, mark) in marks.iter().enumerate() {
        let end = ends[k] as usize;
        if *mark != 0 {
            o = shift(names, from, end - from, o);
        }
        from = end;
    }
    o
}

fn keep_ends(marks: &[u8], ends: &mut [u32]) -> usize
    requires marks_len_bound { length marks.now ≤ 1024 }
    requires marks_in_bounds { length marks.now ≤ length ends.old }
    requires rises { Rises (length marks.now) ends.old }
    ensures { Fronted (ends_kept 0 0 marks.now ends.old) ends.old ends.new result }
{
    let mut n: usize = 0;
    let mut at: usize = 0;
    let mut from: usize = 0;
    for (k, mark) in marks.iter().enumerate() {
        let end = ends[k] as usize;
        if *mark != 0 {
            at += end - from;
            ends[n] = at as u32;
            n += 1;
        }
        from = end;
    }
    n
}

// The n live objects of a table that keeps its rule moved down, by their new places.
fn move_down(
    handles: &mut [u32],
    parents: &mut [u16],
    ends: &mut [u32],
    marks: &mut [u8],
    count: usize,
    names: &mut [u8],
    news: &[u16],
    n: usize,
)
    requires fit { Fit (table handles.old parents.old ends.old marks.old count names.old) }
    requires news_len { length news.now ≡ 1024 }
    requires n_value { n ≡ alive (take count marks.old) }
    ensures { Lowered (table handles.old parents.old ends.old marks.old count names.old) news.now handles.new parents.new ends.new marks.new names.new }
{
    keep_handles(&marks[..count], handles);
    keep_places(&marks[..count], news, parents);
    keep_names(&marks[..count], &*ends, names);
    keep_ends(&marks[..count], ends);
    marks[..n].fill(1);
}

// The live objects of a table that keeps its rule moved down; how many they are.
pub(crate) fn gather(
    handles: &mut [u32],
    parents: &mut [u16],
    ends: &mut [u32],
    marks: &mut [u8],
    count: usize,
    names: &mut [u8],
    news: &mut [u16],
) -> usize
    requires fit { Fit (table handles.old parents.old ends.old marks.old count names.old) }
    requires news_len { length news.old ≡ 1024 }
    ensures { Gathered (table handles.old parents.old ends.old marks.old count names.old) news.old result handles.new parents.new ends.new marks.new names.new news.new }
{
    let n = number(&marks[..count], news);
    move_down(handles, parents, ends, marks, count, names, &*news, n);
    n
}

// Each link carried with its place to the new one; behind the live ones there is none.
fn carry(marks: &[u8], news: &[u16], links: &mut [u16])
    requires marks_len_bound { length marks.now ≤ 1024 }
    requires marks_in_bounds { length marks.now ≤ length links.old }
    requires hung { Hung (length marks.now) links.old (length news.now) }
    ensures { Carried marks.now news.now links.old links.new }
{
    let n = keep_places(marks, news, links);
    links[n..].fill(0);
}

// What `gather` does, of a table with its links.
pub(crate) fn gather_linked(
    handles: &mut [u32],
    parents: &mut [u16],
    ends: &mut [u32],
    marks: &mut [u8],
    count: usize,
    names: &mut [u8],
    first: &mut [u16],
    next: &mut [u16],
    news: &mut [u16],
) -> usize
    requires rule { Rule (table handles.old parents.old ends.old marks.old count names.old) }
    requires news_len { length news.old ≡ 1024 }
    requires links { Links (take count parents.old) (live (take count marks.old)) first.old next.old }
    ensures { Gathered (table handles.old parents.old ends.old marks.old count names.old) news.old result handles.new parents.new ends.new marks.new names.new news.new × LinksOf (collected (table handles.old parents.old ends.old marks.old count names.old)) first.new next.new }
{
    let n = number(&marks[..count], news);
    carry(&marks[..count], &*news, first);
    carry(&marks[..count], &*news, next);
    move_down(handles, parents, ends, marks, count, names, &*news, n);
    n
}

// The table's refusals, 11 also for a list of new places that has not 1,024. The new count.
pub fn collect(
    handles: &mut [u32],
    parents: &mut [u16],
    ends: &mut [u32],
    marks: &mut [u8],
    count: usize,
    names: &mut [u8],
    news: &mut [u16],
) -> Result<usize, Refusal>
    ensures { Collected (table handles.old parents.old ends.old marks.old count names.old) news.old (says_count result) handles.new parents.new ends.new marks.new names.new news.new }
{
    if news.len() != 1024 {
        return Err(layout::plain(layout::TABLE));
    }
    tree::check_table(&*handles, &*parents, &*ends, &*marks, count, &*names)?;
    Ok(gather(handles, parents, ends, marks, count, names, news))
}

// What `collect` does, of a table that keeps its links; 11 also for other links than its own.
pub fn collect_linked(
    handles: &mut [u32],
    parents: &mut [u16],
    ends: &mut [u32],
    marks: &mut [u8],
    count: usize,
    names: &mut [u8],
    first: &mut [u16],
    next: &mut [u16],
    news: &mut [u16],
) -> Result<usize, Refusal>
    ensures { CollectedLinked (table handles.old parents.old ends.old marks.old count names.old) first.old next.old news.old (says_count result) handles.new parents.new ends.new marks.new names.new first.new next.new news.new }
{
    if news.len() != 1024 {
        return Err(layout::plain(layout::TABLE));
    }
    tree::check_links(
        &*handles, &*parents, &*ends, &*marks, count, &*names, &*first, &*next,
    )?;
    Ok(gather_linked(
        handles, parents, ends, marks, count, names, first, next, news,
    ))
}
