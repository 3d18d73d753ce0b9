//! The text of a value by the mode of its variable, made from the value as it is.

ghost use Rattle.std.specs.Prelude.{◌≡◌, ◌++◌, ◌∷◌, codes, decimal, OnOk};
ghost use Rattle.setl_modes.specs.declared.mode.Form.TheVariants.{Sparse};
ghost use Rattle.setl_modes.specs.Modes.{mode_of};
ghost use Rattle.setl_modes_dump.specs.Dump.{block_number, component, digits_or_none, form_word, listed, only_text, part_text, set_text};
ghost use Rattle.setl_rep_building.specs.HasForm.{base_of};
ghost use Rattle.setl_rep_layout.specs.Members.{members_by, values_of};
ghost use Rattle.setl_rep_layout.specs.Texts.{after_blanks};
ghost use Rattle.setl_rep_layout.specs.Values.{based_text, images_by, point_text, point_texts, table_text, text_base, tuple_text, IsBaseOf};
ghost use Rattle.setl_value.specs.code.Body.{Members};
ghost use Rattle.setl_value.specs.code.DatumOf.{datum, lent};
ghost use Rattle.std.specs.Prelude.{map};

use crate::found::{images_of, number, numbers_in, pairs};
use crate::parts::{push_form, push_plain, push_word};
use crate::sets::{push_digits, push_numbers, rising};
use setl_base::Base;
use setl_modes::{Form, Mode};
use setl_rep_based::{Numbers, member};
use setl_rep_bases::{BaseId, Bases};
use setl_rep_forms::laws;
use setl_text::push_decimal;
use setl_value::{SetBody, TupleBody, Value};
use std::alloc::{AllocError, Global};

/// Adds the text of a value by a mode of the main program. The error is want of memory.
#[cycle(values)]
pub(crate) fn push_by_mode(
    alloc: Global,
    mode: &Mode,
    v: &Value,
    bases: &Bases,
    into: &mut Vec<u8>,
) -> Result<(), AllocError>
    ensures { OnOk result (into.new.items ≡ into.old.items ++ part_text (members_by bases.now) (mode_of mode.now) (datum v.now)) }
{
    let Some(base) = text_base(mode) else {
        return push_plain(alloc, v, into);
    };
    let main = BaseId { base, instance: 0 };
    if bases.has(main) {
        return push_on(alloc, mode, v, bases.at(main), bases, into);
    }
    let none = Base::new(alloc)?;
    push_on(alloc, mode, v, &none, bases, into)
}

// The base by whose numbers values of a mode are written; None where they are written plain.
fn text_base(mode: &Mode) -> Option<u32>
    ensures { result ≡ text_base (mode_of mode.now) }
{
    match mode {
        Mode::Elmt(b, _) => Some(*b),
        Mode::Set(_, m) => element_base(m.get()),
        Mode::Tuple(m) => element_base(m.get()),
        Mode::Smap(_, d, _) => element_base(d.get()),
        Mode::Mmap(_, d, _) => element_base(d.get()),
        _ => None,
    }
}

// The base of a mode of elements.
fn element_base(mode: &Mode) -> Option<u32>
    ensures { result ≡ base_of (mode_of mode.now) }
{
    match mode {
        Mode::Elmt(b, _) => Some(*b),
        _ => None,
    }
}

// Adds the text of a value by a mode on a base.
#[cycle(values)]
fn push_on(
    alloc: Global,
    mode: &Mode,
    v: &Value,
    base: &Base,
    bases: &Bases,
    into: &mut Vec<u8>,
) -> Result<(), AllocError>
    requires { IsBaseOf bases.now (mode_of mode.now) base.now }
    ensures { OnOk result (into.new.items ≡ into.old.items ++ part_text (members_by bases.now) (mode_of mode.now) (datum v.now)) }
{
    match mode {
        Mode::Elmt(_, _) => push_number(base, v, into),
        Mode::Tuple(_) => push_tuple(alloc, base, v, into),
        Mode::Set(form, _) => push_set(alloc, *form, base, v, into),
        Mode::Smap(_, _, _) => push_map(alloc, mode, base, v, bases, into),
        Mode::Mmap(_, _, _) => push_map(alloc, mode, base, v, bases, into),
        _ => push_plain(alloc, v, into),
    }
}

// Adds the text of an element: the number of its block.
fn push_number(base: &Base, v: &Value, into: &mut Vec<u8>) -> Result<(), AllocError>
    ensures { OnOk result (into.new.items ≡ into.old.items ++ (codes "elmt " ++ decimal (block_number (datum v.now) (values_of base.now)))) }
{
    into.extend_from_slice(b"elmt ")?;
    push_decimal(into, number(base, v))
}

// ---- tuples

// Adds the text of a tuple of elements.
fn push_tuple(alloc: Global, base: &Base, v: &Value, into: &mut Vec<u8>) -> Result<(), AllocError>
    ensures { OnOk result (into.new.items ≡ into.old.items ++ tuple_text (values_of base.now) (datum v.now)) }
{
    match v {
        Value::Tuple(t) => push_components(base, t, into),
        _ => push_plain(alloc, v, into),
    }
}

// Adds the number of each component, and `*` for `om`.
fn push_components(base: &Base, t: &TupleBody, into: &mut Vec<u8>) -> Result<(), AllocError>
    ensures { OnOk result (into.new.items ≡ into.old.items ++ (codes "tuple" ++ after_blanks (listed (map (component (values_of base.now)) t.now)))) }
{
    into.extend_from_slice(b"tuple")?;
    if t.len() == 0 {
        return into.extend_from_slice(b" -");
    }
    push_each_component(base, t, into)
}

// Adds the number of each component, or `*` for `om`, each behind a blank.
fn push_each_component(base: &Base, t: &TupleBody, into: &mut Vec<u8>) -> Result<(), AllocError>
    ensures { OnOk result (into.new.items ≡ into.old.items ++ after_blanks (map (component (values_of base.now)) t.now)) }
{
    for i in 0..t.len() {
        into.push(b' ')?;
        push_component(base, t.at(i), into)?;
    }
    Ok(())
}

// Adds the number of a component, or `*`.
fn push_component(base: &Base, v: Option<&Value>, into: &mut Vec<u8>) -> Result<(), AllocError>
    ensures { OnOk result (into.new.items ≡ into.old.items ++ component (values_of base.now) (lent v.entry)) }
{
    match v {
        None => into.push(b'*')?,
        Some(v) => push_decimal(into, number(base, v))?,
    }
    Ok(())
}

// ---- sets

// Adds the text of a set of elements by its attribute.
fn push_set(
    alloc: Global,
    form: Form,
    base: &Base,
    v: &Value,
    into: &mut Vec<u8>,
) -> Result<(), AllocError>
    ensures { OnOk result (into.new.items ≡ into.old.items ++ based_text form (values_of base.now) (datum v.now)) }
{
    let Value::Set(s) = v else {
        return push_plain(alloc, v, into);
    };
    match form {
        Form::Plain => push_plain(alloc, v, into),
        Form::Sparse => push_sparse_set(alloc, base, s, into),
        Form::Local => push_remote_set(alloc, form, base, s, into),
        Form::Remote => push_remote_set(alloc, form, base, s, into),
    }
}

// Adds the numbers of the members.
fn push_sparse_set(
    alloc: Global,
    base: &Base,
    s: &SetBody,
    into: &mut Vec<u8>,
) -> Result<(), AllocError>
    ensures { OnOk result (into.new.items ≡ into.old.items ++ set_text Sparse (values_of base.now) (Members s.now)) }
{
    laws::numbers_stand_for_members();
    base.learn();
    let numbers = numbers_in(alloc, base, s, false)?;
    into.extend_from_slice(b"sparse")?;
    push_numbers(alloc, base, &numbers, into)
}

// Adds the word of the attribute and a digit for each block.
fn push_remote_set(
    alloc: Global,
    form: Form,
    base: &Base,
    s: &SetBody,
    into: &mut Vec<u8>,
) -> Result<(), AllocError>
    ensures { OnOk result (into.new.items ≡ into.old.items ++ (form_word form ++ 32 ∷ digits_or_none (Members s.now) (values_of base.now))) }
{
    laws::numbers_stand_for_members();
    base.learn();
    let numbers = numbers_in(alloc, base, s, false)?;
    push_form(form, into)?;
    into.push(b' ')?;
    push_digits(base, Numbers::Table(&numbers), into)
}

// ---- maps

// Adds the text of a map on a base.
#[cycle(values)]
fn push_map(
    alloc: Global,
    mode: &Mode,
    base: &Base,
    v: &Value,
    bases: &Bases,
    into: &mut Vec<u8>,
) -> Result<(), AllocError>
    ensures { OnOk result (into.new.items ≡ into.old.items ++ table_text bases.now (mode_of mode.now) (values_of base.now) (datum v.now)) }
{
    let Value::Set(f) = v else {
        return push_plain(alloc, v, into);
    };
    let f = pairs(alloc, f)?;
    let numbers = numbers_in(alloc, base, &f, true)?;
    let list = rising(alloc, &numbers)?;
    push_word(mode, into)?;
    push_points(alloc, mode, &f, list.as_slice(), base, bases, into)
}

// Adds the numbers of a list, each behind a blank and with the text of its member's images; or `-` where there are none.
#[cycle(values)]
fn push_points(
    alloc: Global,
    mode: &Mode,
    f: &SetBody,
    list: &[u64],
    base: &Base,
    bases: &Bases,
    into: &mut Vec<u8>,
) -> Result<(), AllocError>
    ensures { OnOk result (into.new.items ≡ into.old.items ++ after_blanks (listed (point_texts bases.now (mode_of mode.now) (Members f.now) base.now list.now))) }
{
    if list.is_empty() {
        return into.extend_from_slice(b" -");
    }
    push_each_point(alloc, mode, f, list, base, bases, into)
}

// Adds the numbers of a list, each behind a blank and with the text of its member's images.
#[cycle(values)]
fn push_each_point(
    alloc: Global,
    mode: &Mode,
    f: &SetBody,
    list: &[u64],
    base: &Base,
    bases: &Bases,
    into: &mut Vec<u8>,
) -> Result<(), AllocError>
    ensures { OnOk result (into.new.items ≡ into.old.items ++ after_blanks (point_texts bases.now (mode_of mode.now) (Members f.now) base.now list.now)) }
{
    for n in list {
        into.push(b' ')?;
        push_point(alloc, mode, f, *n, base, bases, into)?;
    }
    Ok(())
}

// Adds a number and, in brackets, the text of its member's images.
#[cycle(values)]
fn push_point(
    alloc: Global,
    mode: &Mode,
    f: &SetBody,
    n: u64,
    base: &Base,
    bases: &Bases,
    into: &mut Vec<u8>,
) -> Result<(), AllocError>
    ensures { OnOk result (into.new.items ≡ into.old.items ++ point_text bases.now (mode_of mode.now) (Members f.now) base.now n) }
{
    let ys = images_of(alloc, f, member(base, n))?;
    push_decimal(into, n)?;
    into.push(b'(')?;
    push_images(alloc, mode, ys, bases, into)?;
    into.push(b')')?;
    Ok(())
}

// Adds the text of a point's images by the mode of the map.
#[cycle(values)]
fn push_images(
    alloc: Global,
    mode: &Mode,
    ys: SetBody,
    bases: &Bases,
    into: &mut Vec<u8>,
) -> Result<(), AllocError>
    ensures { OnOk result (into.new.items ≡ into.old.items ++ images_by bases.now (mode_of mode.now) (Members ys)) }
{
    match mode {
        Mode::Smap(_, _, r) => push_first(alloc, r.get(), &ys, bases, into),
        Mode::Mmap(_, _, s) => push_by_mode(alloc, s.get(), &Value::Set(ys), bases, into),
        _ => Ok(()),
    }
}

// Adds the text of the first image.
#[cycle(values)]
fn push_first(
    alloc: Global,
    mode: &Mode,
    ys: &SetBody,
    bases: &Bases,
    into: &mut Vec<u8>,
) -> Result<(), AllocError>
    ensures { OnOk result (into.new.items ≡ into.old.items ++ only_text (part_text (members_by bases.now) (mode_of mode.now)) (Members ys.now)) }
{
    let mut members = ys.members();
    match members.next() {
        None => Ok(()),
        Some(y) => push_by_mode(alloc, mode, y, bases, into),
    }
}
