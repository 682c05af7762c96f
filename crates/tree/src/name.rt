// The name of a place in UTF-8.
ghost use Rattle.std.specs.Prelude.{◌≡◌, ◌-◌, ◌≤◌, ◌<◌, length};
ghost use Rattle.layout.specs.Written.{Put};
ghost use Rattle.tree.specs.Facts.{Rising};
ghost use Rattle.tree.specs.Table.{start_of};
ghost use Rattle.tree.specs.Path.{name_of};

use wire::Cursor;

fn start_of(ends: &[u32], k: usize) -> usize
    requires { k < length ends.now }
    ensures { result ≡ start_of ends.now k }
{
    if k == 0 { 0 } else { ends[k - 1] as usize }
}

pub(crate) fn name_len(ends: &[u32], names: &[u8], k: usize) -> usize
    requires rising { Rising ends.now (length names.now) }
    requires k_in_bounds { k < length ends.now }
    ensures { result ≡ length (name_of ends.now names.now k) }
{
    let from = start_of(ends, k);
    let end = ends[k] as usize;
    let Ok((len, _)) = (Cursor { at: 0 }).utf8_len(&names[from..end]) else {
        return 0;
    };
    len
}

pub(crate) fn put_name(ends: &[u32], names: &[u8], k: usize, out: &mut [u8], o: usize) -> usize
    requires rising { Rising ends.now (length names.now) }
    requires k_in_bounds { k < length ends.now }
    requires k_in_bounds_2 { length (name_of ends.now names.now k) ≤ length out.old - o }
    ensures { Put out.old o (name_of ends.now names.now k) out.new result }
{
    let from = start_of(ends, k);
    let end = ends[k] as usize;
    (Cursor { at: 0 }).put_utf8(&names[from..end], out, o)
}
