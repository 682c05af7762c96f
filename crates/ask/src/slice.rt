// Parts of lent bytes and lists, each total: where there is no such part it is empty.
ghost use Rattle.std.specs.Prelude.{◌≤◌, length};

pub(crate) fn part<T>(s: &[T], start: usize, end: usize) -> &[T] {
    s.get(start..end).unwrap_or_default()
}

pub(crate) fn part_mut<T>(s: &mut [T], start: usize, end: usize) -> &mut [T] {
    s.get_mut(start..end).unwrap_or_default()
}

// What follows a place.
pub(crate) fn from<T>(s: &[T], start: usize) -> &[T] {
    s.get(start..).unwrap_or_default()
}

pub(crate) fn front<T>(s: &[T], count: usize) -> &[T] {
    s.get(..count).unwrap_or_default()
}

pub(crate) fn front_mut<T>(s: &mut [T], count: usize) -> &mut [T] {
    s.get_mut(..count).unwrap_or_default()
}

// So many from a place on.
pub(crate) fn counted<T>(s: &[T], start: usize, count: usize) -> &[T] {
    front(from(s, start), count)
}

pub(crate) fn counted_mut<T>(s: &mut [T], start: usize, count: usize) -> &mut [T] {
    front_mut(s.get_mut(start..).unwrap_or_default(), count)
}

// The place of a byte, or of the end.
pub(crate) fn find(s: &[u8], b: u8) -> usize
    ensures { result ≤ length s.now }
{
    s.iter().position(|x| *x == b).unwrap_or(s.len())
}
