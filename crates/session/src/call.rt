// Commands: from a code and its parameters, and of each camera call. No filter is 0.
ghost use Rattle.std.specs.Prelude.{◌≡◌, slice_index};
ghost use Rattle.session.specs.Calls.{command_of, get_object_info, get_object, get_object_handles, get_num_objects, roots, everywhere, get_storage_info, get_device_info, open_session, get_storage_ids, close_session};

use wire::Command;

fn param(params: &[u32], i: usize) -> u32
    ensures { result ≡ slice_index params.now i }
{
    if i < params.len() { params[i] } else { 0 }
}

// A command from its code and any number of parameters.
pub fn command_of(code: u16, params: &[u32]) -> Command
    ensures { result ≡ command_of code params.now }
{
    Command {
        code,
        params: [
            param(params, 0),
            param(params, 1),
            param(params, 2),
            param(params, 3),
            param(params, 4),
        ],
        count: params.len(),
    }
}

pub fn get_object_info(handle: u32) -> Command
    ensures { result ≡ get_object_info handle }
{
    Command {
        code: 0x1008,
        params: [handle, 0, 0, 0, 0],
        count: 1,
    }
}

pub fn get_object(handle: u32) -> Command
    ensures { result ≡ get_object handle }
{
    Command {
        code: 0x1009,
        params: [handle, 0, 0, 0, 0],
        count: 1,
    }
}

pub fn get_object_handles(storage: u32, filter: u32, handle: u32) -> Command
    ensures { result ≡ get_object_handles storage filter handle }
{
    Command {
        code: 0x1007,
        params: [storage, filter, handle, 0, 0],
        count: 3,
    }
}

pub fn get_object_handles_root(storage: u32, filter: u32) -> Command
    ensures { result ≡ get_object_handles storage filter roots }
{
    get_object_handles(storage, filter, 0xFFFF_FFFF)
}

pub fn get_object_handles_all(storage: u32, filter: u32) -> Command
    ensures { result ≡ get_object_handles storage filter everywhere }
{
    get_object_handles(storage, filter, 0)
}

pub fn get_num_objects(storage: u32, filter: u32, handle: u32) -> Command
    ensures { result ≡ get_num_objects storage filter handle }
{
    Command {
        code: 0x1006,
        params: [storage, filter, handle, 0, 0],
        count: 3,
    }
}

pub fn get_num_objects_roots(storage: u32, filter: u32) -> Command
    ensures { result ≡ get_num_objects storage filter roots }
{
    get_num_objects(storage, filter, 0xFFFF_FFFF)
}

pub fn get_num_objects_all(storage: u32, filter: u32) -> Command
    ensures { result ≡ get_num_objects storage filter everywhere }
{
    get_num_objects(storage, filter, 0)
}

pub fn get_storage_info(storage: u32) -> Command
    ensures { result ≡ get_storage_info storage }
{
    Command {
        code: 0x1005,
        params: [storage, 0, 0, 0, 0],
        count: 1,
    }
}

pub fn get_device_info() -> Command
    ensures { result ≡ get_device_info }
{
    Command {
        code: 0x1001,
        params: [0, 0, 0, 0, 0],
        count: 3,
    }
}

pub fn open_session() -> Command
    ensures { result ≡ open_session }
{
    Command {
        code: 0x1002,
        params: [3, 0, 0, 0, 0],
        count: 3,
    }
}

pub fn get_storage_ids() -> Command
    ensures { result ≡ get_storage_ids }
{
    Command {
        code: 0x1004,
        params: [0, 0, 0, 0, 0],
        count: 0,
    }
}

pub fn close_session() -> Command
    ensures { result ≡ close_session }
{
    Command {
        code: 0x1003,
        params: [0, 0, 0, 0, 0],
        count: 0,
    }
}
