// The object table: its rule, its walk, its folder view and its paths. What is right is in specs/.
#![tactic(auto)]

mod climb;
mod every;
mod linking;
mod name;
mod queue;
mod table;
mod view;

pub use climb::path;
pub use every::{paths, paths_linked};
use layout::Refusal;
pub use linking::{check_links, link, put_chain};
pub use queue::{walk, walk_into, walk_linked};
pub use table::{check_name, check_table};
pub use view::{folder_paths, folders_into};

// The first `count` of `places`, the others are 0; or why there is none (0 for none), with no places.
#[derive(Drop)]
pub struct Order {
    pub refusal: Refusal,
    pub count: usize,
    pub places: [u16; 1024],
}
