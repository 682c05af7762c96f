// The object record.
ghost use Rattle.std.specs.Prelude.{◌≡◌};
ghost use Rattle.wire.specs.Layout.{object};
ghost use Rattle.wire.specs.Places.{row_at};
ghost use Rattle.wire.specs.Object.{says_object};

use crate::{Cursor, Part, Read};
use layout::Refusal;

#[derive(Drop)]
pub struct ObjectInfo {
    pub storage_id: u32,
    pub object_format: u16,
    pub protection_status: u16,
    pub object_compressed_size: u32,
    pub thumb_format: u16,
    pub thumb_compressed_size: u32,
    pub thumb_pix_width: u32,
    pub thumb_pix_height: u32,
    pub image_pix_width: u32,
    pub image_pix_height: u32,
    pub image_bit_depth: u32,
    pub parent_object: u32,
    pub association_type: u16,
    pub association_desc: u32,
    pub sequence_number: u32,
    pub filename: Part,
    pub capture_date: Part,
    pub modification_date: Part,
    pub keywords: Part,
}

#[tactic(auto, unfolding(crate::specs::Places::row_at, crate::specs::Places::shape_at, layout::specs::Answer::after, layout::specs::Answer::means))]
pub fn object_info(s: &[u8], c: Cursor) -> Read<ObjectInfo>
    ensures { says_object result ≡ row_at object s.now c.at }
{
    let (storage_id, c) = c.u32(s)?;
    let (object_format, c) = c.u16(s)?;
    let (protection_status, c) = c.u16(s)?;
    let (object_compressed_size, c) = c.u32(s)?;
    let (thumb_format, c) = c.u16(s)?;
    let (thumb_compressed_size, c) = c.u32(s)?;
    let (thumb_pix_width, c) = c.u32(s)?;
    let (thumb_pix_height, c) = c.u32(s)?;
    let (image_pix_width, c) = c.u32(s)?;
    let (image_pix_height, c) = c.u32(s)?;
    let (image_bit_depth, c) = c.u32(s)?;
    let (parent_object, c) = c.u32(s)?;
    let (association_type, c) = c.u16(s)?;
    let (association_desc, c) = c.u32(s)?;
    let (sequence_number, c) = c.u32(s)?;
    let (filename, c) = c.text(s)?;
    let (capture_date, c) = c.text(s)?;
    let (modification_date, c) = c.text(s)?;
    let (keywords, next) = c.text(s)?;
    Ok((
        ObjectInfo {
            storage_id,
            object_format,
            protection_status,
            object_compressed_size,
            thumb_format,
            thumb_compressed_size,
            thumb_pix_width,
            thumb_pix_height,
            image_pix_width,
            image_pix_height,
            image_bit_depth,
            parent_object,
            association_type,
            association_desc,
            sequence_number,
            filename,
            capture_date,
            modification_date,
            keywords,
        },
        next,
    ))
}
