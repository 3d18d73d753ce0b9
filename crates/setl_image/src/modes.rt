//! Modes.

ghost use Rattle.std.specs.Prelude.{◌≡◌, ◌++◌, ◌∷◌, [], ℕ, List, OnOk};
ghost use Rattle.setl_modes.specs.declared.mode.Form.{Form};
ghost use Rattle.setl_modes.specs.Modes.{mode_of};
ghost use Rattle.setl_modes.specs.Modes as plain;
ghost use Rattle.setl_image_codec.specs.Codec.{never};
ghost use Rattle.setl_image_codec.specs.Given.{Gives};
ghost use Rattle.setl_image_format.specs.ModeCodec as spec;
ghost use Rattle.setl_image.specs.Views.{modes_of};
ghost use Rattle.setl_image.specs.ModeText.{mode_text};

use setl_image_codec::{ImageFault, push_number, read_number};
use setl_image_format::Kind;
use setl_image_steps::at;
use setl_modes::{Form, Mode, NamedMode, copied_box};
use setl_tree::Boxed;
use std::alloc::{AllocError, Global};

// The kinds by their bytes, from 0 on.
const KINDS: &[Kind] = &[
    Kind::General,
    Kind::Int,
    Kind::Str,
    Kind::Boolean,
    Kind::Atom,
    Kind::Elmt,
    Kind::Set,
    Kind::Tuple,
    Kind::Smap,
    Kind::Mmap,
];

fn kinds() -> &'static [Kind]
    ensures { result.now ≡ spec.kinds }
{
    KINDS
}

/// The mode at the front, which may name one of these bases, where so many modes may still stand inside each other.
#[cycle(reading)]
pub(crate) fn read_mode<'a>(
    alloc: Global,
    bases: &[NamedMode],
    left: u32,
    bytes: &'a [u8],
) -> Result<(Mode, &'a [u8]), ImageFault>
    ensures { Gives {Y = plain.Mode × List ℕ} (λ x. (mode_of x.0, x.1.now)) result ((spec.mode_of_parts (modes_of bases.now) (spec.inner_of left (modes_of bases.now))).read bytes.now) }
{
    let Some((b, rest)) = bytes.split_first() else {
        return Err(ImageFault::Bad);
    };
    let Some(kind) = at(kinds(), *b as usize) else {
        return Err(ImageFault::Bad);
    };
    match kind {
        Kind::General => Ok((Mode::General, rest)),
        Kind::Int => Ok((Mode::Int, rest)),
        Kind::Str => Ok((Mode::Str, rest)),
        Kind::Boolean => Ok((Mode::Boolean, rest)),
        Kind::Atom => Ok((Mode::Atom, rest)),
        Kind::Elmt => read_elements(alloc, bases, rest),
        Kind::Set => read_set(alloc, bases, left, rest),
        Kind::Tuple => read_tuple(alloc, bases, left, rest),
        Kind::Smap => read_smap(alloc, bases, left, rest),
        Kind::Mmap => read_mmap(alloc, bases, left, rest),
    }
}

// The members of the base whose number is at the front.
#[tactic(auto, using(crate::proofs::ModeSteps::no_element))]
fn read_elements<'a>(
    alloc: Global,
    bases: &[NamedMode],
    bytes: &'a [u8],
) -> Result<(Mode, &'a [u8]), ImageFault>
    ensures { Gives {Y = plain.Mode × List ℕ} (λ x. (mode_of x.0, x.1.now)) result ((spec.parts_of (modes_of bases.now) never Kind.Elmt).read bytes.now) }
{
    let (k, rest) = read_number(bytes)?;
    let Some(base) = bases.get(k as usize) else {
        return Err(ImageFault::Bad);
    };
    let members = copied_box(alloc, &base.mode)?;
    Ok((Mode::Elmt(k, members), rest))
}

// A mode inside.
#[cycle(reading)]
fn read_inner<'a>(
    alloc: Global,
    bases: &[NamedMode],
    left: u32,
    bytes: &'a [u8],
) -> Result<(Mode, &'a [u8]), ImageFault>
    ensures { Gives {Y = plain.Mode × List ℕ} (λ x. (mode_of x.0, x.1.now)) result ((spec.inner_of left (modes_of bases.now)).read bytes.now) }
{
    if left == 0 {
        return Err(ImageFault::Bad);
    }
    read_mode(alloc, bases, left - 1, bytes)
}

#[cycle(reading)]
fn read_set<'a>(
    alloc: Global,
    bases: &[NamedMode],
    left: u32,
    bytes: &'a [u8],
) -> Result<(Mode, &'a [u8]), ImageFault>
    ensures { Gives {Y = plain.Mode × List ℕ} (λ x. (mode_of x.0, x.1.now)) result ((spec.parts_of (modes_of bases.now) (spec.inner_of left (modes_of bases.now)) Kind.Set).read bytes.now) }
{
    let (form, rest) = read_form(bytes)?;
    let (inner, rest) = read_inner(alloc, bases, left, rest)?;
    Ok((Mode::Set(form, Boxed::new(alloc, inner)?), rest))
}

#[cycle(reading)]
fn read_tuple<'a>(
    alloc: Global,
    bases: &[NamedMode],
    left: u32,
    bytes: &'a [u8],
) -> Result<(Mode, &'a [u8]), ImageFault>
    ensures { Gives {Y = plain.Mode × List ℕ} (λ x. (mode_of x.0, x.1.now)) result ((spec.parts_of (modes_of bases.now) (spec.inner_of left (modes_of bases.now)) Kind.Tuple).read bytes.now) }
{
    let (inner, rest) = read_inner(alloc, bases, left, bytes)?;
    Ok((Mode::Tuple(Boxed::new(alloc, inner)?), rest))
}

fn read_form(bytes: &[u8]) -> Result<(Form, &[u8]), ImageFault>
    ensures { Gives {Y = Form × List ℕ} (λ x. (x.0, x.1.now)) result (spec.a_form.read bytes.now) }
{
    match bytes {
        [0, rest @ ..] => Ok((Form::Plain, rest)),
        [1, rest @ ..] => Ok((Form::Local, rest)),
        [2, rest @ ..] => Ok((Form::Remote, rest)),
        [3, rest @ ..] => Ok((Form::Sparse, rest)),
        _ => Err(ImageFault::Bad),
    }
}

#[cycle(reading)]
fn read_smap<'a>(
    alloc: Global,
    bases: &[NamedMode],
    left: u32,
    bytes: &'a [u8],
) -> Result<(Mode, &'a [u8]), ImageFault>
    ensures { Gives {Y = plain.Mode × List ℕ} (λ x. (mode_of x.0, x.1.now)) result ((spec.parts_of (modes_of bases.now) (spec.inner_of left (modes_of bases.now)) Kind.Smap).read bytes.now) }
{
    let (form, rest) = read_form(bytes)?;
    let (first, rest) = read_inner(alloc, bases, left, rest)?;
    let (second, rest) = read_inner(alloc, bases, left, rest)?;
    let first = Boxed::new(alloc, first)?;
    Ok((Mode::Smap(form, first, Boxed::new(alloc, second)?), rest))
}

#[cycle(reading)]
fn read_mmap<'a>(
    alloc: Global,
    bases: &[NamedMode],
    left: u32,
    bytes: &'a [u8],
) -> Result<(Mode, &'a [u8]), ImageFault>
    ensures { Gives {Y = plain.Mode × List ℕ} (λ x. (mode_of x.0, x.1.now)) result ((spec.parts_of (modes_of bases.now) (spec.inner_of left (modes_of bases.now)) Kind.Mmap).read bytes.now) }
{
    let (form, rest) = read_form(bytes)?;
    let (first, rest) = read_inner(alloc, bases, left, rest)?;
    let (second, rest) = read_inner(alloc, bases, left, rest)?;
    let first = Boxed::new(alloc, first)?;
    Ok((Mode::Mmap(form, first, Boxed::new(alloc, second)?), rest))
}

/// Adds a mode.
pub(crate) fn push_mode(into: &mut Vec<u8>, m: &Mode) -> Result<(), AllocError>
    ensures { OnOk result (into.new.items ≡ into.old.items ++ mode_text (mode_of m.now)) }
{
    match m {
        Mode::General => push_byte(into, 0),
        Mode::Int => push_byte(into, 1),
        Mode::Str => push_byte(into, 2),
        Mode::Boolean => push_byte(into, 3),
        Mode::Atom => push_byte(into, 4),
        Mode::Elmt(base, _) => {
            push_byte(into, 5)?;
            push_number(into, *base)
        }
        Mode::Set(form, members) => {
            push_head(into, 6, *form)?;
            push_mode(into, members.get())
        }
        Mode::Tuple(parts) => {
            push_byte(into, 7)?;
            push_mode(into, parts.get())
        }
        Mode::Smap(form, domain, range) => {
            push_head(into, 8, *form)?;
            push_mode(into, domain.get())?;
            push_mode(into, range.get())
        }
        Mode::Mmap(form, domain, images) => {
            push_head(into, 9, *form)?;
            push_mode(into, domain.get())?;
            push_mode(into, images.get())
        }
    }
}

// Adds a byte and a form.
fn push_head(into: &mut Vec<u8>, b: u8, form: Form) -> Result<(), AllocError>
    ensures { OnOk result (into.new.items ≡ into.old.items ++ b ∷ spec.form_place form ∷ []) }
{
    push_byte(into, b)?;
    push_byte(
        into,
        match form {
            Form::Plain => 0,
            Form::Local => 1,
            Form::Remote => 2,
            Form::Sparse => 3,
        },
    )
}

fn push_byte(into: &mut Vec<u8>, b: u8) -> Result<(), AllocError>
    ensures { OnOk result (into.new.items ≡ into.old.items ++ b ∷ []) }
{
    into.push(b)?;
    Ok(())
}
