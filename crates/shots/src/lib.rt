// A table whose objects are deleted, collected and added. What is right is in specs/.
#![tactic(auto)]

mod addition;
mod collection;
mod deletion;

pub use addition::{add, add_linked};
pub use collection::{collect, collect_linked};
pub use deletion::{delete, delete_linked};
use layout::Refusal;

// The refusal of its own: 1,024 live objects are held.
pub const TAKEN: u8 = 19;

// A new place for what has none.
pub const GONE: u16 = 65535;
