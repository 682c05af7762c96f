// Mending a recording that comes in windows, of any size.
ghost use Rattle.std.specs.Prelude.{◌≡◌, ◌+◌, ◌-◌, ◌^◌, ◌<◌, ◌≤◌, true, false, length, nat_le, nat_lt};
ghost use Rattle.layout.specs.Answer.{pick};
ghost use Rattle.layout.specs.Written.{Put};
ghost use Rattle.mending.specs.Mended.{stretch, starts_of, lengths_of};
ghost use Rattle.mending.specs.Mended.{least as Mended·least};
ghost use Rattle.mending.specs.Window.{answered, closes, Finishes, sweep_of, window_of, Sweeps};
ghost use Rattle.mending.specs.Window.{fresh};
ghost use Rattle.mending.specs.Window.{sane as Window·sane};
ghost use Rattle.mending.specs.Window.{keeps as Window·keeps};
ghost use Rattle.mending.specs.Window.{drops as Window·drops};
ghost use Rattle.mending.specs.Window.{closed as Window·closed};

use crate::search;

// How far mending has come: the place of the next byte, the records kept before it and their bytes, and how many bytes right before it are
// dropped and not told yet.
#[derive(Clone, Copy)]
pub struct Tally {
    pub place: u64,
    pub records: u64,
    pub bytes: u64,
    pub untold: u64,
}

// What was mended of a window: the bytes used of it, written of the output, and the stretches told.
#[derive(Drop)]
pub struct Swept {
    pub used: usize,
    pub written: usize,
    pub stretches: usize,
    pub tally: Tally,
}

// Before the first window.
pub fn start() -> Tally
    ensures { result ≡ fresh }
{
    Tally {
        place: 0,
        records: 0,
        bytes: 0,
        untold: 0,
    }
}

// Whether the tally is one of a recording of less than 2^64 bytes, with n to come.
fn sane(t: Tally, n: usize) -> bool
    ensures { result ≡ Window·sane t n }
{
    if u64::MAX - t.place < n as u64 {
        return false;
    }
    if t.place < t.untold {
        return false;
    }
    if t.place - t.untold < t.bytes {
        return false;
    }
    t.records <= t.bytes
}

// Tells the stretch of so many bytes before a place, if there are any: the number of stretches told then.
fn put_stretch(place: u64, untold: u64, starts: &mut [u64], lengths: &mut [u64], n: usize) -> usize
    requires { (untold ≤ place) × (length (stretch place untold) ≤ length starts.old - n) × (length (stretch place untold) ≤ length lengths.old - n) }
    ensures { Put starts.old n (starts_of (stretch place untold)) starts.new result × Put lengths.old n (lengths_of (stretch place untold)) lengths.new result }
{
    if untold == 0 {
        return n;
    }
    starts[n] = place - untold;
    lengths[n] = untold;
    n + 1
}

// Whether the open stretch can be told where so much room is left for stretches: none needs no room.
fn has_slot(place: u64, untold: u64, left: usize) -> bool
    ensures { result ≡ nat_le (length (stretch place untold)) left }
{
    if untold == 0 {
        return true;
    }
    0 < left
}

// So many bytes more are dropped.
fn drops(t: Tally, n: usize) -> Tally
    requires { (t.untold ≤ t.place) × (t.place + n < 2 ^ 64) }
    ensures { result ≡ Window·drops t n }
{
    Tally {
        place: t.place + n as u64,
        records: t.records,
        bytes: t.bytes,
        untold: t.untold + n as u64,
    }
}

// So many records more are kept, of so many bytes.
fn keeps(t: Tally, records: usize, n: usize) -> Tally
    requires { (t.records ≤ t.bytes) × (t.bytes ≤ t.place) × (t.place + n < 2 ^ 64) × (records ≤ n) }
    ensures { result ≡ Window·keeps t records n }
{
    Tally {
        place: t.place + n as u64,
        records: t.records + records as u64,
        bytes: t.bytes + n as u64,
        untold: 0,
    }
}

// The open stretch is told.
fn closed(t: Tally) -> Tally
    ensures { result ≡ Window·closed t }
{
    Tally {
        place: t.place,
        records: t.records,
        bytes: t.bytes,
        untold: 0,
    }
}

// Whether the input ends with the window, of so many bytes, and all of it is used.
fn all_come(last: bool, used: usize, size: usize) -> bool
    ensures { result ≡ pick (nat_lt used size) false last }
{
    if used < size {
        return false;
    }
    last
}

fn answer(used: usize, written: usize, stretches: usize, tally: Tally) -> Swept
    ensures { result ≡ answered used written stretches tally }
{
    Swept {
        used,
        written,
        stretches,
        tally,
    }
}

// Tells the open stretch where all has come and there is room for it.
fn finish(
    all: bool,
    used: usize,
    written: usize,
    told: usize,
    t: Tally,
    starts: &mut [u64],
    lengths: &mut [u64],
) -> Swept
    requires { (t.untold ≤ t.place) × (told ≤ length starts.old) × (told ≤ length lengths.old) }
    ensures { Finishes (closes all (Mended·least (length starts.old) (length lengths.old) - told) t) used written told starts.old lengths.old result starts.new lengths.new }
{
    let slots = starts.len().min(lengths.len());
    if !all {
        return answer(used, written, told, t);
    }
    if !has_slot(t.place, t.untold, slots - told) {
        return answer(used, written, told, t);
    }
    let n = put_stretch(t.place, t.untold, starts, lengths, told);
    answer(used, written, n, closed(t))
}

// From the front: what is dropped, and the records behind it, at each turn. Records that touch are copied as one.
pub(crate) fn sweep(
    s: &[u8],
    last: bool,
    from: Tally,
    out: &mut [u8],
    starts: &mut [u64],
    lengths: &mut [u64],
) -> Swept
    requires { Window·sane from (length s.now) ≡ true }
    ensures { Sweeps (sweep_of last (length out.old) (Mended·least (length starts.old) (length lengths.old)) s.now from) out.old starts.old lengths.old result out.new starts.new lengths.new }
{
    let slots = starts.len().min(lengths.len());
    let mut used = 0;
    let mut written = 0;
    let mut told = 0;
    let mut t = from;
    // No range: each stretch says itself where the next one starts.
    while used < s.len() {
        let gap = search::gap_end(s, used, last);
        t = drops(t, gap - used);
        used = gap;
        let run = search::run_end(s, used, out.len() - written);
        if run.records == 0 {
            return finish(
                all_come(last, used, s.len()),
                used,
                written,
                told,
                t,
                starts,
                lengths,
            );
        }
        if !has_slot(t.place, t.untold, slots - told) {
            return answer(used, written, told, t);
        }
        told = put_stretch(t.place, t.untold, starts, lengths, told);
        written = layout::copy(s, used, run.end - used, out, written);
        t = keeps(t, run.records, run.end - used);
        used = run.end;
    }
    finish(last, used, written, told, t, starts, lengths)
}

// Mends a window of the recording: as far as bytes that follow can change no decision, and as there is room for a record or for the stretch
// before it. `last` says that the input ends with the window. What was dropped last stays open in the tally until a record is kept, or until
// all has come; then, with room for it, it is told, and `untold` is 0. Of a tally that no recording of less than 2^64 bytes has, nothing is
// used.
pub fn mend_window(
    s: &[u8],
    last: bool,
    from: Tally,
    out: &mut [u8],
    starts: &mut [u64],
    lengths: &mut [u64],
) -> Swept
    ensures { Sweeps (window_of last (length out.old) (Mended·least (length starts.old) (length lengths.old)) s.now from) out.old starts.old lengths.old result out.new starts.new lengths.new }
{
    if !sane(from, s.len()) {
        return answer(0, 0, 0, from);
    }
    sweep(s, last, from, out, starts, lengths)
}
