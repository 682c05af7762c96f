// Transactions and camera calls, above the byte layer, which they know only through its promises. What is right is in specs/.
#![tactic(auto)]

mod call;
mod lack;
mod payload;
mod search;
mod transaction;

pub use call::{
    close_session, command_of, get_device_info, get_num_objects, get_num_objects_all,
    get_num_objects_roots, get_object, get_object_handles, get_object_handles_all,
    get_object_handles_root, get_object_info, get_storage_ids, get_storage_info, open_session,
};
pub use lack::needed;
pub use payload::{
    device_info, object_count, object_handles, object_info, storage_ids, storage_info,
};
pub use search::{Found, Response, find_answer, find_response};
pub use transaction::{Made, Session, command, command_with_data, fresh};
