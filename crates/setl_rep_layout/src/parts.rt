//! The text of a value by the mode of its variable, read from its form.

ghost use Rattle.std.specs.Prelude.{◌≡◌, ◌++◌, codes, OnOk};
ghost use Rattle.setl_modes_dump.specs.Dump.{form_word, listed, plain_text};
ghost use Rattle.setl_modes.specs.Modes.{mode_of};
ghost use Rattle.setl_rep_building.specs.HasForm.{content_mode};
ghost use Rattle.setl_rep_forms.specs.Form.{numbers, remote, sparse};
ghost use Rattle.setl_rep_forms.specs.FormOf.{form};
ghost use Rattle.setl_rep_forms.specs.Stands.{stands, IsOver};
ghost use Rattle.setl_rep_layout.specs.Laid.{attribute_of, AreContentsLaid, IsLaid};
ghost use Rattle.setl_rep_layout.specs.Texts.{after_blanks, element_text, content_text, entry_text, entry_texts, handle_text, handle_texts, held_text};
ghost use Rattle.setl_rep_maps.specs.Contents.{HasBase, IsTable};
ghost use Rattle.setl_value.specs.code.DatumOf.{datum};

use crate::numbers::numbers_of;
use crate::sets::{push_digits, push_numbers};
use setl_base::Elt;
use setl_modes::{Form, Mode};
use setl_remote::Bits;
use setl_rep_based::Numbers;
use setl_rep_bases::{BaseId, Bases};
use setl_rep_forms::Held;
use setl_rep_maps::{content, learn, table_of};
use setl_sparse::SparseSet;
use setl_text::{push_decimal, text};
use setl_value::Value;
use std::alloc::{AllocError, Global};

/// Adds the text of a value that is held in the form of its mode. The error is want of memory.
#[cycle(parts)]
pub(crate) fn push_part(
    alloc: Global,
    mode: &Mode,
    h: &Held,
    bases: &Bases,
    into: &mut Vec<u8>,
) -> Result<(), AllocError>
    requires { IsLaid bases.now (mode_of mode.now) (form h.now) }
    ensures { OnOk result (into.new.items ≡ into.old.items ++ held_text bases.now (mode_of mode.now) (stands bases.now (form h.now))) }
{
    match h {
        Held::Om => Ok(()),
        Held::Plain(v) => push_plain(alloc, v, into),
        Held::Elt(b, e) => {
            bases.at(*b).learn();
            push_element(*e, into)
        }
        Held::EltTuple(b, list) => {
            bases.at(*b).learn();
            push_handles(list.as_slice(), into)
        }
        Held::Remote(b, bits) => push_remote(mode, *b, bits, bases, into),
        Held::Sparse(b, table) => push_sparse(alloc, mode, *b, table, bases, into),
        Held::RemoteMap(_, _, _) => push_map(alloc, mode, h, bases, into),
        Held::SparseMap(_, _, _) => push_map(alloc, mode, h, bases, into),
    }
}

/// Adds the text of a value that is written plain. The error is want of memory.
pub(crate) fn push_plain(alloc: Global, v: &Value, into: &mut Vec<u8>) -> Result<(), AllocError>
    ensures { OnOk result (into.new.items ≡ into.old.items ++ plain_text (datum v.now)) }
{
    let inner = text(alloc, v)?;
    into.extend_from_slice(b"plain ")?;
    into.extend_from_slice(inner.as_slice())
}

// Adds the text of an element, which is the number of its block.
fn push_element(e: Elt, into: &mut Vec<u8>) -> Result<(), AllocError>
    ensures { OnOk result (into.new.items ≡ into.old.items ++ element_text e) }
{
    into.extend_from_slice(b"elmt ")?;
    push_decimal(into, e.block)
}

// Adds the text of a tuple of handles: the number of each block, and `*` for `om`.
fn push_handles(list: &[Option<Elt>], into: &mut Vec<u8>) -> Result<(), AllocError>
    ensures { OnOk result (into.new.items ≡ into.old.items ++ (codes "tuple" ++ after_blanks (listed (handle_texts list.now)))) }
{
    into.extend_from_slice(b"tuple")?;
    if list.is_empty() {
        return into.extend_from_slice(b" -");
    }
    push_each_handle(list, into)
}

// Adds the number of each block, or `*` for `om`, each behind a blank.
fn push_each_handle(list: &[Option<Elt>], into: &mut Vec<u8>) -> Result<(), AllocError>
    ensures { OnOk result (into.new.items ≡ into.old.items ++ after_blanks (handle_texts list.now)) }
{
    for e in list {
        into.push(b' ')?;
        push_handle(*e, into)?;
    }
    Ok(())
}

// Adds the number of a block, or `*`.
fn push_handle(e: Option<Elt>, into: &mut Vec<u8>) -> Result<(), AllocError>
    ensures { OnOk result (into.new.items ≡ into.old.items ++ handle_text e) }
{
    match e {
        None => into.push(b'*')?,
        Some(e) => push_decimal(into, e.block)?,
    }
    Ok(())
}

/// Adds the word of the attribute of a mode. The error is want of memory.
pub(crate) fn push_word(mode: &Mode, into: &mut Vec<u8>) -> Result<(), AllocError>
    ensures { OnOk result (into.new.items ≡ into.old.items ++ form_word (attribute_of (mode_of mode.now))) }
{
    push_form(attribute(mode), into)
}

/// Adds the word of an attribute. The error is want of memory.
pub(crate) fn push_form(form: Form, into: &mut Vec<u8>) -> Result<(), AllocError>
    ensures { OnOk result (into.new.items ≡ into.old.items ++ form_word form) }
{
    match form {
        Form::Plain => into.extend_from_slice(b"plain"),
        Form::Local => into.extend_from_slice(b"local"),
        Form::Remote => into.extend_from_slice(b"remote"),
        Form::Sparse => into.extend_from_slice(b"sparse"),
    }
}

// The attribute of a mode; `Plain` where it can have none.
fn attribute(mode: &Mode) -> Form
    ensures { result ≡ attribute_of (mode_of mode.now) }
{
    match mode {
        Mode::Set(f, _) => *f,
        Mode::Smap(f, _, _) => *f,
        Mode::Mmap(f, _, _) => *f,
        _ => Form::Plain,
    }
}

// The mode of the contents of a map.
fn content_mode(mode: &Mode) -> &Mode
    ensures { mode_of result.now ≡ content_mode (mode_of mode.now) }
{
    match mode {
        Mode::Smap(_, _, r) => r.get(),
        Mode::Mmap(_, _, s) => s.get(),
        _ => mode,
    }
}

// Adds the text of a set that is kept as bits.
fn push_remote(
    mode: &Mode,
    b: BaseId,
    bits: &Bits,
    bases: &Bases,
    into: &mut Vec<u8>,
) -> Result<(), AllocError>
    requires { IsLaid bases.now (mode_of mode.now) (numbers remote b bits.now) }
    ensures { OnOk result (into.new.items ≡ into.old.items ++ held_text bases.now (mode_of mode.now) (stands bases.now (numbers remote b bits.now))) }
{
    push_word(mode, into)?;
    into.push(b' ')?;
    push_digits(bases.at(b), Numbers::Bits(bits), into)
}

// Adds the text of a set that is kept as a table.
fn push_sparse(
    alloc: Global,
    mode: &Mode,
    b: BaseId,
    table: &SparseSet,
    bases: &Bases,
    into: &mut Vec<u8>,
) -> Result<(), AllocError>
    requires { IsLaid bases.now (mode_of mode.now) (numbers sparse b table.now) }
    ensures { OnOk result (into.new.items ≡ into.old.items ++ held_text bases.now (mode_of mode.now) (stands bases.now (numbers sparse b table.now))) }
{
    push_word(mode, into)?;
    push_numbers(alloc, bases.at(b), table, into)
}

// Adds the text of a map on a base.
#[cycle(parts)]
fn push_map(
    alloc: Global,
    mode: &Mode,
    map: &Held,
    bases: &Bases,
    into: &mut Vec<u8>,
) -> Result<(), AllocError>
    requires laid { IsLaid bases.now (mode_of mode.now) (form map.now) }
    requires table { IsTable (form map.now) }
    ensures { OnOk result (into.new.items ≡ into.old.items ++ held_text bases.now (mode_of mode.now) (stands bases.now (form map.now))) }
{
    setl_rep_maps::laws::contents_stand_for_images();
    learn(map);
    learn_base(map, bases);
    let list = numbers_of(alloc, map, bases)?;
    push_word(mode, into)?;
    push_entries(alloc, content_mode(mode), map, list.as_slice(), bases, into)
}

// Has no effect: it hands a proof that the members of a map's base differ.
fn learn_base(map: &Held, bases: &Bases)
    requires { IsOver bases.now (form map.now) }
    ensures { HasBase bases.now (form map.now) }
{
    if let Some((base, _)) = table_of(map) {
        bases.at(base).learn();
    }
}

// Adds the numbers of a list, each behind a blank and with the text of its content; or `-` where there are none.
#[cycle(parts)]
fn push_entries(
    alloc: Global,
    mode: &Mode,
    map: &Held,
    list: &[u64],
    bases: &Bases,
    into: &mut Vec<u8>,
) -> Result<(), AllocError>
    requires { AreContentsLaid bases.now (mode_of mode.now) (form map.now) }
    ensures { OnOk result (into.new.items ≡ into.old.items ++ after_blanks (listed (entry_texts bases.now (mode_of mode.now) (form map.now) list.now))) }
{
    if list.is_empty() {
        return into.extend_from_slice(b" -");
    }
    push_each_entry(alloc, mode, map, list, bases, into)
}

// Adds the numbers of a list, each behind a blank and with the text of its content.
#[cycle(parts)]
fn push_each_entry(
    alloc: Global,
    mode: &Mode,
    map: &Held,
    list: &[u64],
    bases: &Bases,
    into: &mut Vec<u8>,
) -> Result<(), AllocError>
    requires { AreContentsLaid bases.now (mode_of mode.now) (form map.now) }
    ensures { OnOk result (into.new.items ≡ into.old.items ++ after_blanks (entry_texts bases.now (mode_of mode.now) (form map.now) list.now)) }
{
    for n in list {
        into.push(b' ')?;
        push_entry(alloc, mode, map, *n, bases, into)?;
    }
    Ok(())
}

// Adds a number and, in brackets, the text of its content.
#[cycle(parts)]
fn push_entry(
    alloc: Global,
    mode: &Mode,
    map: &Held,
    n: u64,
    bases: &Bases,
    into: &mut Vec<u8>,
) -> Result<(), AllocError>
    requires { AreContentsLaid bases.now (mode_of mode.now) (form map.now) }
    ensures { OnOk result (into.new.items ≡ into.old.items ++ entry_text bases.now (mode_of mode.now) (form map.now) n) }
{
    push_decimal(into, n)?;
    into.push(b'(')?;
    push_content(alloc, mode, map, n, bases, into)?;
    into.push(b')')?;
    Ok(())
}

// Adds the text of the content of a number, if it has one.
#[cycle(parts)]
fn push_content(
    alloc: Global,
    mode: &Mode,
    map: &Held,
    n: u64,
    bases: &Bases,
    into: &mut Vec<u8>,
) -> Result<(), AllocError>
    requires { AreContentsLaid bases.now (mode_of mode.now) (form map.now) }
    ensures { OnOk result (into.new.items ≡ into.old.items ++ content_text bases.now (mode_of mode.now) (form map.now) n) }
{
    match content(map, n) {
        None => Ok(()),
        Some(c) => push_part(alloc, mode, c, bases, into),
    }
}
