// Settings kept from reel to reel: a row of entries, each a property's value for one vendor extension, and for a camera of one serial or of any. What is right is in specs/.
#![tactic(auto)]

mod entry;
mod keep;
mod row;
mod spell;

pub use entry::{Edition, Entry, entry_at};
pub use keep::{remove, store};
pub use row::{check_row, find};
pub use spell::write_entry;

// The settings' own refusals: a kind that the edition does not know; and a new key beside 256 others.
pub const EDITION: u8 = 17;

pub const FULL: u8 = 18;

// The kinds of entries: for any serial, and for a camera of one.
pub(crate) const ANY: u16 = 16;

pub(crate) const OWN: u16 = 17;
