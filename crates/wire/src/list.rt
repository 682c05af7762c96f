// A description's list: its n-th value; and the list handed out, a step at a time.
ghost use Rattle.std.specs.Prelude.{◌≡◌};
ghost use Rattle.wire.specs.List.{nth_in, nth_value, value_slot, nth_at, says_nth, place_in, place_of, step_at, says_step, list_at, Nexts, Moves};
ghost use Rattle.wire.specs.Property.{has_enable, says_form};

use crate::property::{Form, PropLayout, Slot};
use crate::value::Value;
use crate::{Cursor, past, property};
use layout::Refusal;

#[tactic(auto, unfolding(crate::specs::List::value_slot, layout::specs::Answer::after))]
fn value_slot(s: &[u8], code: u16, at: usize) -> Result<(Value, Slot, Cursor), Refusal>
    ensures { says_nth result ≡ value_slot code s.now at }
{
    let (v, next) = (Cursor { at }).value(s, code)?;
    let len = next.at - at;
    Ok((v, Slot { start: at, len }, next))
}

// The value behind n others.
#[tactic(auto, unfolding(crate::specs::List::nth_value, crate::specs::Property::values_at, crate::specs::Property::passed_at, layout::specs::Answer::after, layout::specs::Answer::means))]
fn nth_value(s: &[u8], code: u16, start: usize, n: usize) -> Result<(Value, Slot, Cursor), Refusal>
    ensures { says_nth result ≡ nth_value code n s.now start }
{
    let next = past::past_values(code, n, s, start)?;
    value_slot(s, code, next.at)
}

#[tactic(auto, unfolding(crate::specs::List::nth_in, layout::specs::Answer::bare))]
fn nth_of(f: Form, code: u16, s: &[u8], n: usize) -> Result<(Value, Slot, Cursor), Refusal>
    ensures { says_nth result ≡ nth_in n code (says_form f) s.now }
{
    match f {
        Form::List(p, count) => {
            if n < count as usize {
                nth_value(s, code, p.start, n)
            } else {
                Err(layout::plain(layout::PLACE))
            }
        }
        Form::Range(_, _, _) => Err(layout::plain(layout::PLACE)),
        Form::Absent => Err(layout::plain(layout::PLACE)),
    }
}

// The n-th value, from 0, of the list of the description that the bytes begin with.
#[tactic(auto, unfolding(crate::specs::List::nth_at, layout::specs::Answer::after))]
pub fn nth(l: PropLayout, s: &[u8], n: usize) -> Result<(Value, Slot, Cursor), Refusal>
    ensures { says_nth result ≡ nth_at (has_enable l) n s.now }
{
    let (p, _) = property::property_info(l, s, Cursor { at: 0 })?;
    nth_of(p.form, p.data_type, s, n)
}

// Where a description's list stands: type, place, number left, and the refusal number, 0 for an accepted description.
#[derive(Drop)]
pub struct Place {
    pub ty: u16,
    pub at: usize,
    pub left: u16,
    pub refusal: u8,
}

// The next value, with the place after it and the number left.
#[derive(Drop)]
pub struct Step {
    pub value: Value,
    pub at: usize,
    pub left: u16,
}

fn place_in(f: Form, ty: u16) -> Place
    ensures { result ≡ place_in ty (says_form f) }
{
    match f {
        Form::List(p, count) => Place {
            ty,
            at: p.start,
            left: count,
            refusal: 0,
        },
        Form::Range(_, _, _) => Place {
            ty,
            at: 0,
            left: 0,
            refusal: 0,
        },
        Form::Absent => Place {
            ty,
            at: 0,
            left: 0,
            refusal: 0,
        },
    }
}

pub fn place_of(l: PropLayout, s: &[u8]) -> Place
    ensures { result ≡ place_of (has_enable l) s.now }
{
    match property::property_info(l, s, Cursor { at: 0 }) {
        Ok((p, _)) => {
            let form = p.form;
            place_in(form, p.data_type)
        }
        Err(f) => Place {
            ty: 0,
            at: f.at,
            left: 0,
            refusal: f.no,
        },
    }
}

#[tactic(auto, unfolding(crate::specs::List::step_at), using(std::proofs::lemmas::Bool::Decides::nat_tests))]
pub fn step_at(s: &[u8], ty: u16, at: usize, left: u16, refusal: u8) -> Option<Step>
    ensures { says_step result ≡ step_at s.now ty at left refusal }
{
    if refusal != 0 || left == 0 {
        return None;
    }
    let (value, next) = (Cursor { at }).value(s, ty).ok()?;
    let left = left - 1;
    Some(Step {
        value,
        at: next.at,
        left,
    })
}

// The list for the panel: it holds the description's bytes. Any numbers may stand in its fields.
#[derive(Drop)]
pub struct Values<'a> {
    pub src: &'a [u8],
    pub ty: u16,
    pub at: usize,
    pub left: u16,
    pub refusal: u8,
}

pub fn list_of<'a>(l: PropLayout, src: &'a [u8]) -> Values<'a>
    ensures { result ≡ list_at src.entry (place_of (has_enable l) src.now) }
{
    let p = place_of(l, src);
    Values {
        src,
        ty: p.ty,
        at: p.at,
        left: p.left,
        refusal: p.refusal,
    }
}

pub fn next<'a>(l: Values<'a>) -> Option<Step>
    ensures { Nexts l.entry result }
{
    step_at(l.src, l.ty, l.at, l.left, l.refusal)
}

pub fn moved<'a>(l: Values<'a>, at: usize, left: u16) -> Values<'a>
    ensures { Moves l.entry at left result }
{
    Values {
        src: l.src,
        ty: l.ty,
        at,
        left,
        refusal: l.refusal,
    }
}
