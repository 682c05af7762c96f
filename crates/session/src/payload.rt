// What the Data payload of each camera call's answer holds.
#![tactic(auto, unfolding(crate::specs::Payloads::filling, layout::specs::Answer::after))]

ghost use Rattle.wire.specs.Read.{says_read};
ghost use Rattle.std.specs.Prelude.{◌≡◌};
ghost use Rattle.wire.specs.Device.{says_device};
ghost use Rattle.wire.specs.Layout.{device, object};
ghost use Rattle.wire.specs.Object.{says_object};
ghost use Rattle.wire.specs.Places.{row_at};
ghost use Rattle.wire.specs.Storage.{says_storage};
ghost use Rattle.session.specs.Payloads.{handles_payload, count_payload, storage_payload};

use wire::{Cursor, DeviceInfo, ObjectInfo, Part, Read, StorageInfo, Width};

pub fn object_handles(s: &[u8]) -> Read<Part>
    ensures { says_read result ≡ handles_payload s.now }
{
    let (handles, next) = (Cursor { at: 0 }).array(s, Width::Four)?;
    Ok((handles, next.end(s)?))
}

// They are laid out as handles are.
pub fn storage_ids(s: &[u8]) -> Read<Part>
    ensures { says_read result ≡ handles_payload s.now }
{
    object_handles(s)
}

pub fn object_count(s: &[u8]) -> Read<u32>
    ensures { says_read result ≡ count_payload s.now }
{
    let (count, next) = (Cursor { at: 0 }).u32(s)?;
    Ok((count, next.end(s)?))
}

pub fn storage_info(s: &[u8]) -> Read<StorageInfo>
    ensures { says_storage result ≡ storage_payload s.now }
{
    let (info, next) = wire::storage_info(s, Cursor { at: 0 })?;
    Ok((info, next.end(s)?))
}

// Bytes may follow.
pub fn device_info(s: &[u8]) -> Read<DeviceInfo>
    ensures { says_device result ≡ row_at device s.now 0 }
{
    wire::device_info(s, Cursor { at: 0 })
}

// Bytes may follow.
pub fn object_info(s: &[u8]) -> Read<ObjectInfo>
    ensures { says_object result ≡ row_at object s.now 0 }
{
    wire::object_info(s, Cursor { at: 0 })
}
