// The newer value: the later payload where that is one whole value, else the description's current value.
ghost use Rattle.std.specs.Prelude.{◌≡◌};
ghost use Rattle.wire.specs.Property.{has_enable};
ghost use Rattle.wire.specs.Newer.{newer_of, newer_bytes};

use crate::property::PropLayout;
use crate::{Cursor, property, value};

// A part of the payload or of the description.
#[derive(Drop)]
pub struct Chosen {
    pub of_payload: bool,
    pub start: usize,
    pub len: usize,
}

pub fn newer_place(l: PropLayout, description: &[u8], payload: &[u8]) -> Chosen
    ensures { result ≡ newer_of (has_enable l) description.now payload.now }
{
    match property::property_info(l, description, Cursor { at: 0 }) {
        Err(_) => Chosen {
            of_payload: false,
            start: 0,
            len: 0,
        },
        Ok((p, _)) => match value::whole_value(payload, p.data_type) {
            Ok((_, _)) => Chosen {
                of_payload: true,
                start: 0,
                len: payload.len(),
            },
            Err(_) => Chosen {
                of_payload: false,
                start: p.current.start,
                len: p.current.len,
            },
        },
    }
}

// The part itself.
pub fn newer<'a>(l: PropLayout, description: &'a [u8], payload: &'a [u8]) -> &'a [u8]
    ensures { result.now ≡ newer_bytes (has_enable l) description.now payload.now }
{
    let n = newer_place(l, description, payload);
    let start = n.start;
    let end = n.start + n.len;
    if n.of_payload {
        return &payload[start..end];
    }
    &description[start..end]
}
