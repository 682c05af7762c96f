// The device record.
ghost use Rattle.std.specs.Prelude.{◌≡◌};
ghost use Rattle.wire.specs.Layout.{device};
ghost use Rattle.wire.specs.Places.{row_at};
ghost use Rattle.wire.specs.Device.{says_device};

use crate::{Cursor, Part, Read, Width};
use layout::Refusal;

#[derive(Drop)]
pub struct DeviceInfo {
    pub version: u16,
    pub vendor_ex_id: u32,
    pub vendor_ex_version: u16,
    pub vendor_extension_desc: Part,
    pub functional_mode: u16,
    pub operations_supported: Part,
    pub events_supported: Part,
    pub device_properties_supported: Part,
    pub capture_formats: Part,
    pub image_formats: Part,
    pub manufacturer: Part,
    pub model: Part,
    pub device_version: Part,
    pub serial_number: Part,
}

#[tactic(auto, unfolding(crate::specs::Places::row_at, crate::specs::Places::shape_at, layout::specs::Answer::after, layout::specs::Answer::means))]
pub fn device_info(s: &[u8], c: Cursor) -> Read<DeviceInfo>
    ensures { says_device result ≡ row_at device s.now c.at }
{
    let (version, c) = c.u16(s)?;
    let (vendor_ex_id, c) = c.u32(s)?;
    let (vendor_ex_version, c) = c.u16(s)?;
    let (vendor_extension_desc, c) = c.text(s)?;
    let (functional_mode, c) = c.u16(s)?;
    let (operations_supported, c) = c.array(s, Width::Two)?;
    let (events_supported, c) = c.array(s, Width::Two)?;
    let (device_properties_supported, c) = c.array(s, Width::Two)?;
    let (capture_formats, c) = c.array(s, Width::Two)?;
    let (image_formats, c) = c.array(s, Width::Two)?;
    let (manufacturer, c) = c.text(s)?;
    let (model, c) = c.text(s)?;
    let (device_version, c) = c.text(s)?;
    let (serial_number, next) = c.text(s)?;
    Ok((
        DeviceInfo {
            version,
            vendor_ex_id,
            vendor_ex_version,
            vendor_extension_desc,
            functional_mode,
            operations_supported,
            events_supported,
            device_properties_supported,
            capture_formats,
            image_formats,
            manufacturer,
            model,
            device_version,
            serial_number,
        },
        next,
    ))
}
