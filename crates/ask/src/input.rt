// Standard input, block by block: the lines lie in one lent buffer, and what is left of the last is moved to its front.
ghost use Rattle.std.specs.Prelude.{◌≤◌, ◌<◌, IfSome};

const MOST_LINE: usize = 1200000;

// How much of the buffer is filled, and whether the line that begins it is too long, so that its beginning is gone.
#[derive(Clone, Copy)]
pub(crate) struct Held {
    pub end: usize,
    pub is_long: bool,
}

// The buffer for the longest line and a block behind it.
pub(crate) fn room() -> [u8; 1265536] {
    [0u8; 1265536]
}

// The one function that reads: once, behind what is there. The place after all that came, which stays where it is where nothing came; none
// where the reading failed, which is told.
pub(crate) fn more(rt: &HostRuntime, lines: &mut [u8], end: usize) -> Option<usize> {
    let room = lines.get_mut(end..)?;
    let n = stream::read_some(
        &mut rt.stdin(),
        room,
        b"ask: reading standard input",
        &rt.stderr(),
    )
    .ok()?;
    end.checked_add(n)
}

// Where the line ends that is seen up to a place: none where what came ends before it.
pub(crate) fn line_end(lines: &[u8], seen: usize, end: usize) -> Option<usize>
    ensures { IfSome result (λ stop. (seen ≤ stop) × (stop < end)) }
{
    let rest = lines.get(seen..end)?;
    Some(seen + rest.iter().position(|b| *b == b'\n')?)
}

// Keeps what begins the next line; of a line that is too long, nothing.
pub(crate) fn keep(lines: &mut [u8], start: usize, end: usize, is_long: bool) -> Held {
    if is_long {
        return Held { end: 0, is_long };
    }
    let n = end.saturating_sub(start);
    if n > MOST_LINE {
        return Held {
            end: 0,
            is_long: true,
        };
    }
    if start <= end && end <= lines.len() {
        lines.copy_within(start..end, 0);
    }
    Held { end: n, is_long }
}

pub(crate) fn is_too_long(line: &[u8]) -> bool {
    line.len() > MOST_LINE
}
