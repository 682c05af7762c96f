// The four datasets: the length taken, then their fields in order, a part as its start and its count of units or items.
ghost use Rattle.layout.specs.Answer.{says_count};
ghost use Rattle.std.specs.Prelude.{◌≡◌, ◌∷◌};
ghost use Rattle.layout.specs.Written.{Wrote};
ghost use Rattle.wire.specs.Device.{device_fields};
ghost use Rattle.wire.specs.Layout.{device, object, storage};
ghost use Rattle.wire.specs.Object.{object_fields};
ghost use Rattle.wire.specs.Places.{row_at};
ghost use Rattle.wire.specs.Property.{property_at, has_enable, says_enable, says_form, info_from};
ghost use Rattle.wire.specs.Says.{says_span};
ghost use Rattle.wire.specs.Storage.{storage_fields};
ghost use Rattle.abi.specs.Answered.{Gives, given};
ghost use Rattle.abi.specs.Rows.{layout_of, enable_number, fields_row, form_row, prop_row, end_of, storage_answer};

use crate::answer;
use layout::Refusal;
use wire::{Cursor, DeviceInfo, Form, ObjectInfo, PropInfo, PropLayout, StorageInfo};

fn device_row(x: DeviceInfo, len: usize) -> [u64; 25]
    ensures { result ≡ len ∷ fields_row (device_fields x) }
{
    [
        len as u64,
        x.version as u64,
        x.vendor_ex_id as u64,
        x.vendor_ex_version as u64,
        x.vendor_extension_desc.start as u64,
        x.vendor_extension_desc.count as u64,
        x.functional_mode as u64,
        x.operations_supported.start as u64,
        x.operations_supported.count as u64,
        x.events_supported.start as u64,
        x.events_supported.count as u64,
        x.device_properties_supported.start as u64,
        x.device_properties_supported.count as u64,
        x.capture_formats.start as u64,
        x.capture_formats.count as u64,
        x.image_formats.start as u64,
        x.image_formats.count as u64,
        x.manufacturer.start as u64,
        x.manufacturer.count as u64,
        x.model.start as u64,
        x.model.count as u64,
        x.device_version.start as u64,
        x.device_version.count as u64,
        x.serial_number.start as u64,
        x.serial_number.count as u64,
    ]
}

fn give_device(s: &[u8], out: &mut [u64]) -> Result<usize, Refusal>
    ensures { Wrote (given fields_row (row_at device s.now 0)) out.old (says_count result) out.new }
{
    let (x, next) = wire::device_info(s, Cursor { at: 0 })?;
    answer::give(&device_row(x, next.at), out)
}

#[unsafe(no_mangle)]
pub extern "C" fn ptp_device_info(s: &[u8], out: &mut [u64]) -> u64
    ensures { Gives (given fields_row (row_at device s.now 0)) out.old result out.new }
{
    answer::told(give_device(s, out))
}

fn object_row(x: ObjectInfo, len: usize) -> [u64; 24]
    ensures { result ≡ len ∷ fields_row (object_fields x) }
{
    [
        len as u64,
        x.storage_id as u64,
        x.object_format as u64,
        x.protection_status as u64,
        x.object_compressed_size as u64,
        x.thumb_format as u64,
        x.thumb_compressed_size as u64,
        x.thumb_pix_width as u64,
        x.thumb_pix_height as u64,
        x.image_pix_width as u64,
        x.image_pix_height as u64,
        x.image_bit_depth as u64,
        x.parent_object as u64,
        x.association_type as u64,
        x.association_desc as u64,
        x.sequence_number as u64,
        x.filename.start as u64,
        x.filename.count as u64,
        x.capture_date.start as u64,
        x.capture_date.count as u64,
        x.modification_date.start as u64,
        x.modification_date.count as u64,
        x.keywords.start as u64,
        x.keywords.count as u64,
    ]
}

fn give_object(s: &[u8], out: &mut [u64]) -> Result<usize, Refusal>
    ensures { Wrote (given fields_row (row_at object s.now 0)) out.old (says_count result) out.new }
{
    let (x, next) = wire::object_info(s, Cursor { at: 0 })?;
    answer::give(&object_row(x, next.at), out)
}

#[unsafe(no_mangle)]
pub extern "C" fn ptp_object_info(s: &[u8], out: &mut [u64]) -> u64
    ensures { Gives (given fields_row (row_at object s.now 0)) out.old result out.new }
{
    answer::told(give_object(s, out))
}

fn storage_row(x: StorageInfo, len: usize) -> [u64; 11]
    ensures { result ≡ len ∷ fields_row (storage_fields x) }
{
    [
        len as u64,
        x.storage_type as u64,
        x.filesystem_type as u64,
        x.access_capability as u64,
        x.max_capacity,
        x.free_space_in_bytes,
        x.free_space_in_images as u64,
        x.storage_description.start as u64,
        x.storage_description.count as u64,
        x.volume_label.start as u64,
        x.volume_label.count as u64,
    ]
}

// Where a record ends; 3 where it must fill its payload and does not.
fn ending(s: &[u8], next: Cursor, filling: bool) -> Result<Cursor, Refusal>
    ensures { says_span result ≡ end_of «filling» s.now next.at }
{
    if filling {
        return next.end(s);
    }
    Ok(next)
}

fn give_storage(s: &[u8], filling: bool, out: &mut [u64]) -> Result<usize, Refusal>
    ensures { Wrote (given fields_row (storage_answer «filling» s.now)) out.old (says_count result) out.new }
{
    let (x, next) = wire::storage_info(&*s, Cursor { at: 0 })?;
    let end = ending(&*s, next, filling)?;
    answer::give(&storage_row(x, end.at), out)
}

// Both exported functions ask here, so that the reader stands at one place: the compiler puts it there whole. The slice is lent on anew (`&*s`),
// and so is handed on in registers.
pub(crate) fn storage(s: &[u8], filling: bool, out: &mut [u64]) -> u64
    ensures { Gives (given fields_row (storage_answer «filling» s.now)) out.old result out.new }
{
    answer::told(give_storage(&*s, filling, out))
}

#[unsafe(no_mangle)]
pub extern "C" fn ptp_storage_info(s: &[u8], out: &mut [u64]) -> u64
    ensures { Gives (given fields_row (row_at storage s.now 0)) out.old result out.new }
{
    storage(&*s, false, out)
}

// The form, and three parts: those of a range; or a list's bytes and the count of its values.
fn form_row(f: Form) -> [u64; 7]
    ensures { result ≡ form_row (says_form f) }
{
    match f {
        Form::Absent => [0, 0, 0, 0, 0, 0, 0],
        Form::Range(low, high, step) => [
            1,
            low.start as u64,
            low.len as u64,
            high.start as u64,
            high.len as u64,
            step.start as u64,
            step.len as u64,
        ],
        Form::List(all, count) => [2, all.start as u64, all.len as u64, count as u64, 0, 0, 0],
    }
}

// 256 where the byte is absent: no byte is 256.
fn enable_number(e: Option<u8>) -> u64
    ensures { result ≡ enable_number (says_enable e) }
{
    match e {
        Some(b) => b as u64,
        None => 256,
    }
}

fn prop_row(x: PropInfo, len: usize) -> [u64; 16]
    ensures { result ≡ len ∷ prop_row (info_from x) }
{
    let enable = x.is_enable;
    let e = enable_number(enable);
    let form = x.form;
    let f = form_row(form);
    [
        len as u64,
        x.property_code as u64,
        x.data_type as u64,
        x.get_set as u64,
        e,
        x.factory_default.start as u64,
        x.factory_default.len as u64,
        x.current.start as u64,
        x.current.len as u64,
        f[0],
        f[1],
        f[2],
        f[3],
        f[4],
        f[5],
        f[6],
    ]
}

// The layout that the caller names.
pub(crate) fn named(book: bool) -> PropLayout
    ensures { result ≡ layout_of book }
{
    if book {
        PropLayout::Book
    } else {
        PropLayout::Crate
    }
}

fn give_prop(l: PropLayout, s: &[u8], out: &mut [u64]) -> Result<usize, Refusal>
    ensures { Wrote (given prop_row (property_at (has_enable l) s.now 0)) out.old (says_count result) out.new }
{
    let (x, next) = wire::property_info(l, s, Cursor { at: 0 })?;
    answer::give(&prop_row(x, next.at), out)
}

#[unsafe(no_mangle)]
pub extern "C" fn ptp_prop_info(book: bool, s: &[u8], out: &mut [u64]) -> u64
    ensures { Gives (given prop_row (property_at (has_enable (layout_of book)) s.now 0)) out.old result out.new }
{
    answer::told(give_prop(named(book), s, out))
}
