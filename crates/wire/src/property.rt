// A property's description: numbers as they are, values by their places.
ghost use Rattle.std.specs.Prelude.{◌≡◌};
ghost use Rattle.wire.specs.Read.{says_read};
ghost use Rattle.wire.specs.Property.{values_at, range_at, list_at, form_at, enable_at, property_at, has_enable, says_enable_read, says_form_read, says_property};

use crate::{Cursor, Read, past};

// Which layout a description has: the crate's, with an `IsEnable` byte, or the book's, without. The caller names it: some bytes fit both.
#[derive(Drop)]
pub enum PropLayout {
    Crate,
    Book,
}

// The bytes of a value, or of several.
#[derive(Clone, Copy)]
pub struct Slot {
    pub start: usize,
    pub len: usize,
}

// Minimum, maximum and step; or the bytes of a list's values, and how many they are.
#[derive(Clone, Copy)]
pub enum Form {
    Absent,
    Range(Slot, Slot, Slot),
    List(Slot, u16),
}

#[derive(Clone, Copy)]
pub struct PropInfo {
    pub property_code: u16,
    pub data_type: u16,
    pub get_set: u8,
    // The `IsEnable` byte, where the layout has it.
    pub is_enable: Option<u8>,
    pub factory_default: Slot,
    pub current: Slot,
    pub form: Form,
}

fn has_enable(l: PropLayout) -> bool
    ensures { result ≡ has_enable l }
{
    match l {
        PropLayout::Crate => true,
        PropLayout::Book => false,
    }
}

// The `IsEnable` byte, where it is there.
#[tactic(auto, unfolding(crate::specs::Property::enable_at, layout::specs::Answer::after))]
fn enable_at(s: &[u8], c: Cursor, there: bool) -> Read<Option<u8>>
    ensures { says_enable_read result ≡ enable_at there s.now c.at }
{
    if !there {
        return Ok((None, c));
    }
    let (byte, next) = c.u8(s)?;
    Ok((Some(byte), next))
}

// The bytes of n values of a type.
#[tactic(auto, unfolding(crate::specs::Property::values_at, crate::specs::Property::passed_at, layout::specs::Answer::after, layout::specs::Answer::means))]
fn values_at(s: &[u8], c: Cursor, code: u16, n: usize) -> Read<Slot>
    ensures { says_read result ≡ values_at code n s.now c.at }
{
    let start = c.at;
    let next = past::past_values(code, n, s, start)?;
    let len = next.at - start;
    Ok((Slot { start, len }, next))
}

#[tactic(auto, unfolding(crate::specs::Property::range_at, layout::specs::Answer::after))]
fn range_at(s: &[u8], c: Cursor, code: u16) -> Read<Form>
    ensures { says_form_read result ≡ range_at code s.now c.at }
{
    let (low, c) = values_at(s, c, code, 1)?;
    let (high, c) = values_at(s, c, code, 1)?;
    let (step, next) = values_at(s, c, code, 1)?;
    Ok((Form::Range(low, high, step), next))
}

#[tactic(auto, unfolding(crate::specs::Property::list_at, layout::specs::Answer::after))]
fn list_at(s: &[u8], c: Cursor, code: u16) -> Read<Form>
    ensures { says_form_read result ≡ list_at code s.now c.at }
{
    let (n, c) = c.u16(s)?;
    let (all, next) = values_at(s, c, code, n as usize)?;
    Ok((Form::List(all, n), next))
}

// The form byte, and what it announces.
#[tactic(auto, unfolding(crate::specs::Property::form_at, layout::specs::Answer::after))]
fn form_at(s: &[u8], c: Cursor, code: u16) -> Read<Form>
    ensures { says_form_read result ≡ form_at code s.now c.at }
{
    let (announced, next) = c.u8(s)?;
    match announced {
        1 => range_at(s, next, code),
        2 => list_at(s, next, code),
        _ => Ok((Form::Absent, next)),
    }
}

#[tactic(auto, unfolding(crate::specs::Property::property_at, layout::specs::Answer::after))]
pub fn property_info(l: PropLayout, s: &[u8], c: Cursor) -> Read<PropInfo>
    ensures { says_property result ≡ property_at (has_enable l) s.now c.at }
{
    let (property_code, c) = c.u16(s)?;
    let (data_type, c) = c.u16(s)?;
    let (get_set, c) = c.u8(s)?;
    let (is_enable, c) = enable_at(s, c, has_enable(l))?;
    let (factory_default, c) = values_at(s, c, data_type, 1)?;
    let (current, c) = values_at(s, c, data_type, 1)?;
    let (form, next) = form_at(s, c, data_type)?;
    Ok((
        PropInfo {
            property_code,
            data_type,
            get_set,
            is_enable,
            factory_default,
            current,
            form,
        },
        next,
    ))
}
