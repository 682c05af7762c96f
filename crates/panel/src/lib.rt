// The shutter panel: from a property's description and a chosen value to the SetDevicePropValue command with its data, or a refusal.
// A value that the description does not allow is never sent. What is right is in specs/.
#![tactic(auto)]

ghost use Rattle.wire.specs.Read.{says_read};
ghost use Rattle.std.specs.Prelude.{◌≡◌};
ghost use Rattle.layout.specs.Answer.{means};
ghost use Rattle.wire.specs.Layout.{shape};
ghost use Rattle.wire.specs.Places.{value_at, shape_in};
ghost use Rattle.wire.specs.Property.{has_enable, says_form, info_from, property_in};
ghost use Rattle.wire.specs.Says.{located, says_value};
ghost use Rattle.session.specs.Payloads.{filling};
ghost use Rattle.session.specs.Transaction.{Makes, says_made};
ghost use Rattle.panel.specs.Panel.{is_undef, TellsRange, TellsSuits, Suited, StandsAs, IsValue, weighed, Chosen, chosen_in, Sends, panel_said};
ghost use Rattle.panel.specs.Test.{allows};
ghost use Rattle.panel.specs.Words.{is_nothing};

mod member;
mod range;
mod scan;

use layout::Refusal;
pub use range::word_of;
use session::{Made, Session};
use wire::{Cursor, Form, PropInfo, PropLayout, Read, Value};

// The panel's own refusals: another type, UNDEF or no range of integers; and a value that is not allowed.
pub const TYPE: u8 = 15;

pub const VALUE: u8 = 16;

const SET_DEVICE_PROP_VALUE: u16 = 0x1016;

pub(crate) const STR: u16 = 0xFFFF;

fn is_nothing(v: Value) -> bool
    ensures { result ≡ is_nothing (located v) }
{
    match v {
        Value::Int(_) => false,
        Value::Nat(_) => false,
        Value::Wide(_) => false,
        Value::Items(_) => false,
        Value::Text(_) => false,
        Value::Undef => true,
    }
}

// UNDEF alone is read as nothing, wherever it is.
fn is_undef(code: u16) -> bool
    ensures { result ≡ is_undef (shape code) }
{
    let none: [u8; 0] = [];
    let Ok((v, _)) = (Cursor { at: 0 }).value(&none, code) else {
        return false;
    };
    is_nothing(v)
}

fn is_range(f: Form) -> bool
    ensures { TellsRange (says_form f) result }
{
    match f {
        Form::Range(_, _, _) => true,
        Form::List(_, _) => false,
        Form::Absent => false,
    }
}

// Whether the chosen type is the description's, and one that its form can be of.
fn fitting(x: PropInfo, code: u16) -> bool
    ensures { TellsSuits (info_from x) code result }
{
    if code != x.data_type {
        return false;
    }
    if is_undef(code) {
        return false;
    }
    let form = x.form;
    if is_range(form) {
        return 1 <= code && code <= 8;
    }
    true
}

// The bytes as one value of the type: 3 where bytes follow.
#[tactic(auto, unfolding(session::specs::Payloads::filling, layout::specs::Answer::after))]
fn whole_value(chosen: &[u8], code: u16) -> Read<Value>
    ensures { says_value result ≡ filling (value_at code) chosen.now }
{
    let (v, next) = (Cursor { at: 0 }).value(chosen, code)?;
    Ok((v, next.end(chosen)?))
}

// Whether the description's form allows the value v that the chosen bytes are.
fn allowed(description: &[u8], x: PropInfo, chosen: &[u8], v: Value) -> bool
    requires { Suited description.now (info_from x) × StandsAs x.data_type chosen.now (located v) }
    ensures { result ≡ allows (property_in description.now (info_from x)).form (shape_in (shape x.data_type) chosen.now (located v)) }
{
    let code = x.data_type;
    let form = x.form;
    match form {
        Form::Range(low, high, step) => range::in_range(
            range::whole_at(description, code, low.start),
            range::whole_at(description, code, high.start),
            range::whole_at(description, code, step.start),
            range::whole_of(v),
        ),
        Form::List(p, count) => member::is_member(description, code, p.start, count, chosen),
        Form::Absent => true,
    }
}

#[tactic(auto, unfolding(crate::specs::Panel::weighed, crate::specs::Panel::value_of, layout::specs::Answer::means, layout::specs::Answer::after))]
fn weigh(description: &[u8], x: PropInfo, chosen: &[u8]) -> Read<u16>
    requires { Suited description.now (info_from x) }
    ensures { says_read result ≡ weighed description.now (info_from x) chosen.now }
{
    let (v, end) = whole_value(chosen, x.data_type)?;
    if !allowed(description, x, chosen, v) {
        return Err(layout::plain(VALUE));
    }
    Ok((x.property_code, end))
}

fn choose(l: PropLayout, description: &[u8], code: u16, chosen: &[u8]) -> Read<u16>
    ensures { says_read result ≡ means (λ (c : Chosen). c.property) (chosen_in (has_enable l) description.now code chosen.now) }
{
    let (x, _) = wire::property_info(l, description, Cursor { at: 0 })?;
    if !fitting(x, code) {
        return Err(layout::plain(TYPE));
    }
    weigh(description, x, chosen)
}

// The command and its data. Of all values only a string can have another spelling than its tidy one, which takes 511 bytes at most.
#[tactic(auto, using(crate::proofs::Sending::sends_own))]
fn send(
    session: Session,
    property: u16,
    code: u16,
    chosen: &[u8],
    out: &mut [u8],
) -> Result<Made, Refusal>
    requires { IsValue code chosen.now }
    ensures { Sends session property code chosen.now out.old result out.new }
{
    let params = [property as u32];
    let c = session::command_of(SET_DEVICE_PROP_VALUE, &params);
    if code != STR {
        return session::command_with_data(session, c, chosen, out);
    }
    let mut text = [0u8; 511];
    let n = wire::tidy_value(code, chosen, &mut text)?;
    session::command_with_data(session, c, &text[..n], out)
}

// SetDevicePropValue of a value that the description allows, and its data behind it in one output.
pub fn set_value(
    l: PropLayout,
    session: Session,
    description: &[u8],
    code: u16,
    value: &[u8],
    out: &mut [u8],
) -> Result<Made, Refusal>
    ensures { Makes session 0x1016 (panel_said (has_enable l) description.now code value.now) out.old (says_made result) out.new }
{
    let (property, _) = choose(l, description, code, value)?;
    send(session, property, code, value, out)
}
