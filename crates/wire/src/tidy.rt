// The tidy spelling of a property's description, from the places that its reader found.
ghost use Rattle.layout.specs.Answer.{says_count};
ghost use Rattle.std.specs.Prelude.{◌≡◌, true, [], ◌∷◌, ◌+◌, ◌-◌, ◌≤◌, length};
ghost use Rattle.layout.specs.Written.{Wrote, Put, roomed, spelling, took, tidied};
ghost use Rattle.wire.specs.Codecs.{enable_write, property};
ghost use Rattle.wire.specs.Property.{has_enable, says_enable, says_form, info_from};
ghost use Rattle.wire.specs.Tidy.{row_word, types};
ghost use Rattle.wire.specs.TidyProperty.{header_word, range_word, list_word, form_word, property_word, Well3, WellForm, Well};

use crate::kind::STRING;
use crate::property::{Form, PropInfo, PropLayout};
use crate::{Cursor, property, row};
use layout::Refusal;

// How long the tidy words of n values of a type are.
fn values_len(code: u16, n: usize, src: &[u8], at: usize) -> usize
    ensures { (result ≡ length (spelling (row_word (types (code ∷ []) n) src.now at))) × (result ≤ length src.now - at) }
{
    match row::measure_values(code, n, src, at) {
        Ok((tidy, _)) => tidy,
        Err(_) => 0,
    }
}

// Values of a type: strings anew, all others as they stand.
fn put_values(code: u16, n: usize, src: &[u8], at: usize, out: &mut [u8], o: usize) -> usize
    requires at_value { took (row_word (types (code ∷ []) n) src.now at) ≡ true }
    requires at_in_bounds { o + length (spelling (row_word (types (code ∷ []) n) src.now at)) ≤ length out.old }
    ensures { Put out.old o (spelling (row_word (types (code ∷ []) n) src.now at)) out.new result }
{
    if code != STRING {
        return layout::copy(src, at, values_len(code, n, src, at), out, o);
    }
    let codes = [code];
    row::put_row(&codes, n, src, at, out, o)
}

#[tactic(auto, unfolding(crate::specs::TidyProperty::form_word, layout::specs::Bytes::bytes), using(crate::proofs::TidyWords::range_size, crate::proofs::TidyWords::list_size))]
fn form_len(f: Form, code: u16, src: &[u8]) -> usize
    requires { length (form_word code src.now (says_form f)) ≤ length src.now }
    ensures { result ≡ length (form_word code src.now (says_form f)) }
{
    match f {
        Form::Absent => 1,
        Form::Range(a, b, c) => {
            let low = values_len(code, 1, src, a.start);
            let high = values_len(code, 1, src, b.start);
            let step = values_len(code, 1, src, c.start);
            1 + low + high + step
        }
        Form::List(p, n) => 3 + values_len(code, n as usize, src, p.start),
    }
}

fn put_range(a: usize, b: usize, c: usize, code: u16, src: &[u8], out: &mut [u8], o: usize) -> usize
    requires well3 { Well3 code src.now a b c }
    requires c_in_bounds { o + length (range_word code src.now a b c) ≤ length out.old }
    ensures { Put out.old o (range_word code src.now a b c) out.new result }
{
    let i = layout::store(out, o, 1, 1);
    let j = put_values(code, 1, src, a, out, i);
    let k = put_values(code, 1, src, b, out, j);
    put_values(code, 1, src, c, out, k)
}

fn put_list(n: usize, at: usize, code: u16, src: &[u8], out: &mut [u8], o: usize) -> usize
    requires at_value { took (row_word (types (code ∷ []) n) src.now at) ≡ true }
    requires n_in_bounds { o + length (list_word code src.now at n) ≤ length out.old }
    ensures { Put out.old o (list_word code src.now at n) out.new result }
{
    let i = layout::store(out, o, 1, 2);
    let j = layout::store(out, i, 2, n as u64);
    put_values(code, n, src, at, out, j)
}

#[tactic(auto, unfolding(crate::specs::TidyProperty::form_word))]
fn put_form(f: Form, code: u16, src: &[u8], out: &mut [u8], o: usize) -> usize
    requires well_form { WellForm code src.now (says_form f) }
    requires f_in_bounds { o + length (form_word code src.now (says_form f)) ≤ length out.old }
    ensures { Put out.old o (form_word code src.now (says_form f)) out.new result }
{
    match f {
        Form::Absent => layout::store(out, o, 1, 0),
        Form::Range(a, b, c) => put_range(a.start, b.start, c.start, code, src, out, o),
        Form::List(p, n) => put_list(n as usize, p.start, code, src, out, o),
    }
}

fn property_len(p: PropInfo, src: &[u8]) -> usize
    requires well { Well src.now (info_from p) }
    requires p_in_bounds { length (property_word src.now (info_from p)) ≤ length src.now }
    ensures { result ≡ length (property_word src.now (info_from p)) }
{
    let code = p.data_type;
    let default = values_len(code, 1, src, p.factory_default.start);
    let current = values_len(code, 1, src, p.current.start);
    5 + enable_len(p.is_enable) + default + current + form_len(p.form, code, src)
}

// How many bytes the `IsEnable` byte is: one, or none.
#[tactic(auto, unfolding(layout::specs::Bytes::bytes))]
fn enable_len(e: Option<u8>) -> usize
    ensures { result ≡ length (enable_write (says_enable e)) }
{
    match e {
        Some(_) => 1,
        None => 0,
    }
}

#[tactic(auto, unfolding(layout::specs::Written::roomed, layout::specs::Written::put), using(layout::proofs::laws::Writing::nothing))]
fn put_enable(e: Option<u8>, out: &mut [u8], o: usize) -> usize
    ensures { Put out.old o (roomed out.old o (enable_write (says_enable e))) out.new result }
{
    match e {
        Some(b) => layout::store(out, o, 1, b as u64),
        None => o,
    }
}

// Two numbers of two bytes, one of one, and the byte that may be absent.
fn put_header(p: PropInfo, out: &mut [u8]) -> usize
    requires { length (header_word (info_from p)) ≤ length out.old }
    ensures { Put out.old 0 (header_word (info_from p)) out.new result }
{
    let a = layout::store(out, 0, 2, p.property_code as u64);
    let b = layout::store(out, a, 2, p.data_type as u64);
    let c = layout::store(out, b, 1, p.get_set as u64);
    let enable = p.is_enable;
    put_enable(enable, out, c)
}

fn put_property(p: PropInfo, src: &[u8], out: &mut [u8]) -> usize
    requires well { Well src.now (info_from p) }
    requires p_in_bounds { length (property_word src.now (info_from p)) ≤ length out.old }
    ensures { Put out.old 0 (property_word src.now (info_from p)) out.new result }
{
    let code = p.data_type;
    let form = p.form;
    let a = put_header(p, out);
    let b = put_values(code, 1, src, p.factory_default.start, out, a);
    let c = put_values(code, 1, src, p.current.start, out, b);
    put_form(form, code, src, out, c)
}

// The tidy word of the description that the bytes begin with.
pub fn tidy_property(l: PropLayout, src: &[u8], out: &mut [u8]) -> Result<usize, Refusal>
    ensures { Wrote (tidied (property (has_enable l)) src.now) out.old (says_count result) out.new }
{
    let (p, _) = property::property_info(l, src, Cursor { at: 0 })?;
    if out.len() < property_len(p, src) {
        return Err(layout::plain(layout::ROOM));
    }
    Ok(put_property(p, src, out))
}
