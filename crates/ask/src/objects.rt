// The questions of a table of objects: its walk, its folder view, its paths; its links; an object deleted, the live ones collected, one added.
// A table is six words: handles, parents, ends and marks, the count, the name bytes. The links of one that keeps them are two more.
use crate::args::{Args, low32};
use crate::print::Answers;
use crate::told::Told;
use crate::{print, show, slice, told, width};
use layout::Refusal;
use tree::Order;

fn handles(a: Args, numbers: &[u32]) -> &[u32] {
    slice::counted(numbers, a.numbers[0], a.counts[0])
}

fn parents(a: Args, numbers: &[u32]) -> &[u32] {
    slice::counted(numbers, a.numbers[1], a.counts[1])
}

fn ends(a: Args, numbers: &[u32]) -> &[u32] {
    slice::counted(numbers, a.numbers[2], a.counts[2])
}

fn marks(a: Args, numbers: &[u32]) -> &[u32] {
    slice::counted(numbers, a.numbers[3], a.counts[3])
}

fn names(a: Args, line: &[u8]) -> &[u8] {
    slice::counted(line, a.numbers[5], a.counts[5])
}

fn first(a: Args, numbers: &[u32]) -> &[u32] {
    slice::counted(numbers, a.numbers[6], a.counts[6])
}

fn next(a: Args, numbers: &[u32]) -> &[u32] {
    slice::counted(numbers, a.numbers[7], a.counts[7])
}

// The lists that are lent for writing, filled.
fn places_room() -> [u16; 1024] {
    [0xa5a5u16; 1024]
}

fn stops_room() -> [u32; 1024] {
    [0xa5a5_a5a5u32; 1024]
}

fn put_order(text: &mut Answers, at: usize, line: &[u8], order: Order) -> usize {
    let refusal = order.refusal;
    if refusal.no != 0 {
        return show::tell(text, at, line, told::refused(refusal));
    }
    let places = order.places;
    let o = print::put_all(text, at, b"ok");
    print::put_list(text, o, slice::front(&places, order.count))
}

pub(crate) fn walk(a: Args, line: &[u8], numbers: &[u32], text: &mut Answers, at: usize) -> usize {
    let mut halves = width::halves_room();
    let mut bytes = width::bytes_room();
    let ps = width::to16(parents(a, numbers), &mut halves);
    let ms = width::to8(marks(a, numbers), &mut bytes);
    let order = tree::walk(
        handles(a, numbers),
        ps,
        ends(a, numbers),
        ms,
        a.numbers[4],
        names(a, line),
    );
    put_order(text, at, line, order)
}

// The places of a folder view, or of the walk of a table that keeps its links.
fn some_places(
    is_view: bool,
    a: Args,
    line: &[u8],
    numbers: &[u32],
    parents: &[u16],
    marks: &[u8],
    places: &mut [u16],
) -> Result<usize, Refusal> {
    let hs = handles(a, numbers);
    let es = ends(a, numbers);
    let ns = names(a, line);
    if is_view {
        return tree::folders_into(hs, parents, es, marks, a.numbers[4], ns, places);
    }
    let mut firsts = width::halves_room();
    let mut nexts = width::halves_room();
    let fs = width::to16(first(a, numbers), &mut firsts);
    let xs = width::to16(next(a, numbers), &mut nexts);
    tree::walk_linked(hs, parents, es, marks, a.numbers[4], ns, fs, xs, places)
}

fn put_places(
    text: &mut Answers,
    at: usize,
    line: &[u8],
    w: Result<usize, Refusal>,
    places: &[u16],
) -> usize {
    match w {
        Ok(n) => {
            let o = print::put_all(text, at, b"ok");
            print::put_list(text, o, slice::front(places, n))
        }
        Err(f) => show::tell(text, at, line, told::refused(f)),
    }
}

pub(crate) fn places(
    is_view: bool,
    a: Args,
    line: &[u8],
    numbers: &[u32],
    text: &mut Answers,
    at: usize,
) -> usize {
    let mut halves = width::halves_room();
    let mut bytes = width::bytes_room();
    let ps = width::to16(parents(a, numbers), &mut halves);
    let ms = width::to8(marks(a, numbers), &mut bytes);
    let mut places = places_room();
    let w = some_places(is_view, a, line, numbers, ps, ms, &mut places);
    put_places(text, at, line, w, &places)
}

pub(crate) fn path(a: Args, line: &[u8], numbers: &[u32], page: &mut [u8]) -> Told {
    let mut halves = width::halves_room();
    let mut bytes = width::bytes_room();
    let ps = width::to16(parents(a, numbers), &mut halves);
    let ms = width::to8(marks(a, numbers), &mut bytes);
    told::written(tree::path(
        handles(a, numbers),
        ps,
        ends(a, numbers),
        ms,
        a.numbers[4],
        names(a, line),
        a.numbers[6],
        page,
    ))
}

// The writer's answer, then where each path ends.
fn put_paths(
    text: &mut Answers,
    at: usize,
    w: Result<usize, Refusal>,
    page: &[u8],
    stops: &[u32],
) -> usize {
    match w {
        Ok(n) => {
            let told = show::tell(text, at, page, told::written(Ok(n)));
            let o = print::output(text, told, page);
            print::put_list(text, o, stops)
        }
        Err(f) => {
            let told = show::tell(text, at, page, told::refused(f));
            print::output(text, told, page)
        }
    }
}

// Which paths are asked for: the walk's, the folder view's, or those of a table that keeps its links.
#[derive(Clone, Copy)]
pub(crate) enum PathKind {
    Walked,
    Viewed,
    Linked,
}

fn some_paths(
    which: PathKind,
    a: Args,
    line: &[u8],
    numbers: &[u32],
    parents: &[u16],
    marks: &[u8],
    page: &mut [u8],
    stops: &mut [u32],
) -> Result<usize, Refusal> {
    let hs = handles(a, numbers);
    let es = ends(a, numbers);
    let ns = names(a, line);
    let count = a.numbers[4];
    match which {
        PathKind::Walked => tree::paths(hs, parents, es, marks, count, ns, page, stops),
        PathKind::Viewed => tree::folder_paths(hs, parents, es, marks, count, ns, page, stops),
        PathKind::Linked => {
            let mut firsts = width::halves_room();
            let mut nexts = width::halves_room();
            let fs = width::to16(first(a, numbers), &mut firsts);
            let xs = width::to16(next(a, numbers), &mut nexts);
            tree::paths_linked(hs, parents, es, marks, count, ns, fs, xs, page, stops)
        }
    }
}

pub(crate) fn paths(
    which: PathKind,
    a: Args,
    line: &[u8],
    numbers: &[u32],
    text: &mut Answers,
    at: usize,
) -> usize {
    let mut halves = width::halves_room();
    let mut bytes = width::bytes_room();
    let ps = width::to16(parents(a, numbers), &mut halves);
    let ms = width::to8(marks(a, numbers), &mut bytes);
    let mut out = crate::out_room();
    let mut stops = stops_room();
    let page = print::page(&mut out, a.room);
    let w = some_paths(which, a, line, numbers, ps, ms, page, &mut stops);
    put_paths(text, at, w, page, &stops)
}

fn deleted(c: Result<usize, Refusal>) -> Told {
    match c {
        Ok(_) => told::ok(),
        Err(f) => told::refused(f),
    }
}

pub(crate) fn delete(
    a: Args,
    line: &[u8],
    numbers: &[u32],
    text: &mut Answers,
    at: usize,
) -> usize {
    let mut halves = width::halves_room();
    let mut bytes = width::bytes_room();
    let ps = width::to16(parents(a, numbers), &mut halves);
    let ms = width::to8(marks(a, numbers), &mut bytes);
    let c = shots::delete(
        handles(a, numbers),
        ps,
        ends(a, numbers),
        ms,
        a.numbers[4],
        names(a, line),
        a.numbers[6],
    );
    let o = show::tell(text, at, line, deleted(c));
    print::put_list(text, o, ms)
}

// A space and each list of links, whole.
fn put_links(text: &mut Answers, at: usize, first: &[u16], next: &[u16]) -> usize {
    let o = print::put_list(text, at, first);
    print::put_list(text, o, next)
}

pub(crate) fn link(a: Args, line: &[u8], numbers: &[u32], text: &mut Answers, at: usize) -> usize {
    let mut halves = width::halves_room();
    let mut bytes = width::bytes_room();
    let ps = width::to16(parents(a, numbers), &mut halves);
    let ms = width::to8(marks(a, numbers), &mut bytes);
    let mut fs = places_room();
    let mut xs = places_room();
    let c = tree::link(
        handles(a, numbers),
        ps,
        ends(a, numbers),
        ms,
        a.numbers[4],
        names(a, line),
        &mut fs,
        &mut xs,
    );
    let o = show::tell(text, at, line, deleted(c));
    put_links(text, o, &fs, &xs)
}

// The marks after, and the links.
fn put_deleted(
    text: &mut Answers,
    at: usize,
    line: &[u8],
    c: Result<usize, Refusal>,
    marks: &[u8],
    first: &[u16],
    next: &[u16],
) -> usize {
    let o = show::tell(text, at, line, deleted(c));
    let q = print::put_list(text, o, marks);
    put_links(text, q, first, next)
}

pub(crate) fn delete_linked(
    a: Args,
    line: &[u8],
    numbers: &[u32],
    text: &mut Answers,
    at: usize,
) -> usize {
    let mut halves = width::halves_room();
    let mut bytes = width::bytes_room();
    let mut firsts = width::halves_room();
    let mut nexts = width::halves_room();
    let ps = width::to16(parents(a, numbers), &mut halves);
    let ms = width::to8(marks(a, numbers), &mut bytes);
    let fs = width::to16(first(a, numbers), &mut firsts);
    let xs = width::to16(next(a, numbers), &mut nexts);
    let c = shots::delete_linked(
        handles(a, numbers),
        ps,
        ends(a, numbers),
        ms,
        a.numbers[4],
        names(a, line),
        fs,
        xs,
        a.numbers[8],
    );
    put_deleted(text, at, line, c, ms, fs, xs)
}

// The five lists and the new places, whole.
fn put_table(
    text: &mut Answers,
    at: usize,
    handles: &[u32],
    parents: &[u16],
    ends: &[u32],
    marks: &[u8],
    names: &[u8],
    news: &[u16],
) -> usize {
    let o = print::put_list(text, at, handles);
    let p = print::put_list(text, o, parents);
    let q = print::put_list(text, p, ends);
    let r = print::put_list(text, q, marks);
    let s = print::output(text, r, names);
    print::put_list(text, s, news)
}

fn collected(c: Result<usize, Refusal>) -> Told {
    match c {
        Ok(n) => told::ok().number(n as u64),
        Err(f) => told::refused(f),
    }
}

fn added(x: Result<usize, Refusal>) -> Told {
    match x {
        Ok(place) => told::ok().number(place as u64),
        Err(f) => told::refused(f),
    }
}

// A table collected, or an object added to it: its parent, handle and name are then the words behind the table's.
fn changed(
    is_added: bool,
    a: Args,
    line: &[u8],
    handles: &mut [u32],
    parents: &mut [u16],
    ends: &mut [u32],
    marks: &mut [u8],
    names: &mut [u8],
    news: &mut [u16],
) -> Told {
    let count = a.numbers[4];
    if !is_added {
        return collected(shots::collect(handles, parents, ends, marks, count, names, news));
    }
    added(shots::add(
        handles,
        parents,
        ends,
        marks,
        count,
        names,
        news,
        a.numbers[6],
        low32(a.numbers[7]),
        slice::counted(line, a.numbers[8], a.counts[8]),
    ))
}

// The same of a table that keeps its links.
fn changed_linked(
    is_added: bool,
    a: Args,
    line: &[u8],
    handles: &mut [u32],
    parents: &mut [u16],
    ends: &mut [u32],
    marks: &mut [u8],
    names: &mut [u8],
    first: &mut [u16],
    next: &mut [u16],
    news: &mut [u16],
) -> Told {
    let count = a.numbers[4];
    if !is_added {
        return collected(shots::collect_linked(
            handles, parents, ends, marks, count, names, first, next, news,
        ));
    }
    added(shots::add_linked(
        handles,
        parents,
        ends,
        marks,
        count,
        names,
        first,
        next,
        news,
        a.numbers[8],
        low32(a.numbers[9]),
        slice::counted(line, a.numbers[10], a.counts[10]),
    ))
}

// The answer of either, then the lists, and last the links of a table that keeps them.
fn put_changed(
    is_added: bool,
    is_linked: bool,
    a: Args,
    line: &[u8],
    handles: &mut [u32],
    parents: &mut [u16],
    ends: &mut [u32],
    marks: &mut [u8],
    names: &mut [u8],
    first: &mut [u16],
    next: &mut [u16],
    text: &mut Answers,
    at: usize,
) -> usize {
    let mut news = places_room();
    if !is_linked {
        let t = changed(
            is_added, a, line, handles, parents, ends, marks, names, &mut news,
        );
        let o = show::tell(text, at, line, t);
        return put_table(text, o, handles, parents, ends, marks, names, &news);
    }
    let t = changed_linked(
        is_added, a, line, handles, parents, ends, marks, names, first, next, &mut news,
    );
    let o = show::tell(text, at, line, t);
    let q = put_table(text, o, handles, parents, ends, marks, names, &news);
    put_links(text, q, first, next)
}

// On lists of its own, for they change; the links are their caller's.
fn change_lists(
    is_added: bool,
    is_linked: bool,
    a: Args,
    line: &[u8],
    numbers: &[u32],
    first: &mut [u16],
    next: &mut [u16],
    text: &mut Answers,
    at: usize,
) -> usize {
    let mut longs = width::numbers_room();
    let mut halves = width::halves_room();
    let mut stops = width::numbers_room();
    let mut bytes = width::bytes_room();
    let mut letters = crate::out_room();
    let hs = width::copied(handles(a, numbers), &mut longs);
    let ps = width::to16(parents(a, numbers), &mut halves);
    let es = width::copied(ends(a, numbers), &mut stops);
    let ms = width::to8(marks(a, numbers), &mut bytes);
    let ns = width::copied(names(a, line), &mut letters);
    put_changed(
        is_added, is_linked, a, line, hs, ps, es, ms, ns, first, next, text, at,
    )
}

// A table that keeps no links has none among its words.
pub(crate) fn change(
    is_added: bool,
    is_linked: bool,
    a: Args,
    line: &[u8],
    numbers: &[u32],
    text: &mut Answers,
    at: usize,
) -> usize {
    let mut firsts = width::halves_room();
    let mut nexts = width::halves_room();
    let fs = width::to16(first(a, numbers), &mut firsts);
    let xs = width::to16(next(a, numbers), &mut nexts);
    change_lists(is_added, is_linked, a, line, numbers, fs, xs, text, at)
}
