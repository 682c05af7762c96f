// The fields of the datasets as pieces.
use crate::show;
use crate::told::Told;
use wire::{DeviceInfo, Form, ObjectInfo, PropInfo, StorageInfo};

pub(crate) fn device(t: Told, d: DeviceInfo) -> Told {
    let mut r = t.number(u64::from(d.version));
    r = r.number(u64::from(d.vendor_ex_id));
    r = r.number(u64::from(d.vendor_ex_version));
    r = show::text(r, d.vendor_extension_desc);
    r = r.number(u64::from(d.functional_mode));
    r = show::array(r, d.operations_supported);
    r = show::array(r, d.events_supported);
    r = show::array(r, d.device_properties_supported);
    r = show::array(r, d.capture_formats);
    r = show::array(r, d.image_formats);
    r = show::text(r, d.manufacturer);
    r = show::text(r, d.model);
    r = show::text(r, d.device_version);
    show::text(r, d.serial_number)
}

pub(crate) fn object(t: Told, d: ObjectInfo) -> Told {
    let mut r = t.number(u64::from(d.storage_id));
    r = r.number(u64::from(d.object_format));
    r = r.number(u64::from(d.protection_status));
    r = r.number(u64::from(d.object_compressed_size));
    r = r.number(u64::from(d.thumb_format));
    r = r.number(u64::from(d.thumb_compressed_size));
    r = r.number(u64::from(d.thumb_pix_width));
    r = r.number(u64::from(d.thumb_pix_height));
    r = r.number(u64::from(d.image_pix_width));
    r = r.number(u64::from(d.image_pix_height));
    r = r.number(u64::from(d.image_bit_depth));
    r = r.number(u64::from(d.parent_object));
    r = r.number(u64::from(d.association_type));
    r = r.number(u64::from(d.association_desc));
    r = r.number(u64::from(d.sequence_number));
    r = show::text(r, d.filename);
    r = show::text(r, d.capture_date);
    r = show::text(r, d.modification_date);
    show::text(r, d.keywords)
}

pub(crate) fn storage(t: Told, d: StorageInfo) -> Told {
    let mut r = t.number(u64::from(d.storage_type));
    r = r.number(u64::from(d.filesystem_type));
    r = r.number(u64::from(d.access_capability));
    r = r.number(d.max_capacity);
    r = r.number(d.free_space_in_bytes);
    r = r.number(u64::from(d.free_space_in_images));
    r = show::text(r, d.storage_description);
    show::text(r, d.volume_label)
}

fn form(t: Told, code: u16, f: Form) -> Told {
    match f {
        Form::Absent => t.word(b"none"),
        Form::Range(low, high, step) => {
            let a = show::slot(t.word(b"range"), code, low, 1);
            let b = show::slot(a, code, high, 1);
            show::slot(b, code, step, 1)
        }
        Form::List(s, count) => show::slot(
            t.word(b"list").number(u64::from(count)),
            code,
            s,
            count,
        ),
    }
}

// A byte, or `-` where the layout has none.
fn enable(t: Told, e: Option<u8>) -> Told {
    match e {
        Some(b) => t.number(u64::from(b)),
        None => t.word(b"-"),
    }
}

pub(crate) fn property(t: Told, d: PropInfo) -> Told {
    let code = d.data_type;
    let enabled = d.is_enable;
    let shape = d.form;
    let mut r = t.number(u64::from(d.property_code));
    r = r.number(u64::from(code));
    r = r.number(u64::from(d.get_set));
    r = enable(r, enabled);
    r = show::slot(r, code, d.factory_default, 1);
    r = show::slot(r, code, d.current, 1);
    form(r, code, shape)
}
