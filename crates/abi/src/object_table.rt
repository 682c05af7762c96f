// The walk of an object table, a path, and all paths in its order; its folder view, and all paths in that order; an object deleted, the live ones collected, one added.
ghost use Rattle.tree.specs.Path.{path_said, Walked, AllPaths};
ghost use Rattle.tree.specs.Table.{table};
ghost use Rattle.tree.specs.View.{Viewed, ViewPaths};
ghost use Rattle.shots.specs.Added.{add_at, Adds};
ghost use Rattle.shots.specs.Collected.{Collected};
ghost use Rattle.shots.specs.Deleted.{delete_said};
ghost use Rattle.abi.specs.Answered.{Tells, Gives};

use crate::answer;

// The places in walk order.
#[unsafe(no_mangle)]
pub extern "C" fn ptp_walk(
    handles: &[u32],
    parents: &[u16],
    ends: &[u32],
    marks: &[u8],
    count: usize,
    names: &[u8],
    places: &mut [u16],
) -> u64
    ensures { Tells (λ a. Walked (table handles.now parents.now ends.now marks.now count names.now) places.old a places.new) result }
{
    answer::told(tree::walk_into(handles, parents, ends, marks, count, names, places))
}

// The path of one place.
#[unsafe(no_mangle)]
pub extern "C" fn ptp_path(
    handles: &[u32],
    parents: &[u16],
    ends: &[u32],
    marks: &[u8],
    count: usize,
    names: &[u8],
    place: usize,
    out: &mut [u8],
) -> u64
    ensures { Gives (path_said (table handles.now parents.now ends.now marks.now count names.now) place) out.old result out.new }
{
    answer::told(tree::path(handles, parents, ends, marks, count, names, place, out))
}

// All paths in walk order, end to end, and the end of each.
#[unsafe(no_mangle)]
pub extern "C" fn ptp_paths(
    handles: &[u32],
    parents: &[u16],
    ends: &[u32],
    marks: &[u8],
    count: usize,
    names: &[u8],
    out: &mut [u8],
    out_ends: &mut [u32],
) -> u64
    ensures { Tells (λ a. AllPaths (table handles.now parents.now ends.now marks.now count names.now) out.old out_ends.old a out.new out_ends.new) result }
{
    answer::told(tree::paths(handles, parents, ends, marks, count, names, out, out_ends))
}

// The places of the folder view.
#[unsafe(no_mangle)]
pub extern "C" fn ptp_folders(
    handles: &[u32],
    parents: &[u16],
    ends: &[u32],
    marks: &[u8],
    count: usize,
    names: &[u8],
    places: &mut [u16],
) -> u64
    ensures { Tells (λ a. Viewed (table handles.now parents.now ends.now marks.now count names.now) places.old a places.new) result }
{
    answer::told(tree::folders_into(handles, parents, ends, marks, count, names, places))
}

// All paths in its order.
#[unsafe(no_mangle)]
pub extern "C" fn ptp_folder_paths(
    handles: &[u32],
    parents: &[u16],
    ends: &[u32],
    marks: &[u8],
    count: usize,
    names: &[u8],
    out: &mut [u8],
    out_ends: &mut [u32],
) -> u64
    ensures { Tells (λ a. ViewPaths (table handles.now parents.now ends.now marks.now count names.now) out.old out_ends.old a out.new out_ends.new) result }
{
    answer::told(tree::folder_paths(handles, parents, ends, marks, count, names, out, out_ends))
}

// A place ended, and everything below it. The answer is the count, which stays.
#[unsafe(no_mangle)]
pub extern "C" fn ptp_table_delete(
    handles: &[u32],
    parents: &[u16],
    ends: &[u32],
    marks: &mut [u8],
    count: usize,
    names: &[u8],
    place: usize,
) -> u64
    ensures { Gives (delete_said (table handles.now parents.now ends.now marks.old count names.now) place) marks.old result marks.new }
{
    answer::told(shots::delete(handles, parents, ends, marks, count, names, place))
}

// The live objects moved down, and the new place of each. The answer is the new count.
#[unsafe(no_mangle)]
pub extern "C" fn ptp_table_collect(
    handles: &mut [u32],
    parents: &mut [u16],
    ends: &mut [u32],
    marks: &mut [u8],
    count: usize,
    names: &mut [u8],
    news: &mut [u16],
) -> u64
    ensures { Tells (λ a. Collected (table handles.old parents.old ends.old marks.old count names.old) news.old a handles.new parents.new ends.new marks.new names.new news.new) result }
{
    answer::told(shots::collect(handles, parents, ends, marks, count, names, news))
}

// An object behind the last, and the new place of each of the others. The answer is its place; the count is then one more.
#[unsafe(no_mangle)]
pub extern "C" fn ptp_table_add(
    handles: &mut [u32],
    parents: &mut [u16],
    ends: &mut [u32],
    marks: &mut [u8],
    count: usize,
    names: &mut [u8],
    news: &mut [u16],
    parent: usize,
    handle: u32,
    name: &[u8],
) -> u64
    ensures { Tells (λ a. Adds (add_at (table handles.old parents.old ends.old marks.old count names.old) news.old parent name.now) (table handles.old parents.old ends.old marks.old count names.old) news.old parent handle name.now a handles.new parents.new ends.new marks.new names.new news.new) result }
{
    answer::told(shots::add(
        handles, parents, ends, marks, count, names, news, parent, handle, name,
    ))
}
