//! The lines of bases and of variables.

ghost use Rattle.std.specs.Prelude.{◌≡◌, ◌++◌, codes, true, false, Some, None, OnOk};
ghost use Rattle.setl_modes.specs.Modes.{Sets, MultiMaps};
ghost use Rattle.setl_modes.specs.declared.mode.Form.TheVariants as form;
ghost use Rattle.setl_advise_flows.specs.Flow as plain;
ghost use Rattle.setl_advise_flows.specs.Advice.{Bases, advised, kind_mode, member_mode, set_mode, tuple_mode, map_mode, image_mode, plain_mode};
ghost use Rattle.setl_advise_lattice.specs.code.Levels.{flow_of, kind_of, middle_flow};
ghost use Rattle.setl_advise_section.specs.Text.{base_name, base_text, line_text, mode_text, or_general};
ghost use Rattle.setl_advise_section.specs.code.Numbers.{bases_of};

use crate::plain::{Written, push_kind};
use setl_advise_lattice::{Flat, Flow, Kind, Level};
use setl_text::push_decimal;
use std::alloc::AllocError;

/// The numbers of the bases of the integers, the strings and the atoms.
#[derive(Clone, Copy, Debug)]
pub struct Numbers {
    pub whole: u64,
    pub letters: u64,
    pub token: u64,
}

impl Numbers {
    /// The number of the base of a kind of scalars; booleans have none.
    pub fn of(self, k: Kind) -> u64
        ensures { result ≡ bases_of self (kind_of k) }
    {
        match k {
            Kind::Whole => self.whole,
            Kind::Letters => self.letters,
            Kind::Truth => 0,
            Kind::Token => self.token,
        }
    }
}

/// Adds the name of the base with a number. The error is want of memory.
pub fn push_name(number: u64, into: &mut Vec<u8>) -> Result<(), AllocError>
    ensures { OnOk result (into.new.items ≡ into.old.items ++ base_name number) }
{
    into.extend_from_slice(b"b")?;
    push_decimal(into, number)
}

/// Adds the line of the base of a kind of scalars. The error is want of memory.
pub fn push_base(into: &mut Vec<u8>, k: Kind, numbers: Numbers) -> Result<(), AllocError>
    ensures { OnOk result (into.new.items ≡ into.old.items ++ base_text (bases_of numbers (kind_of k)) (kind_mode (kind_of k))) }
{
    into.extend_from_slice(b"base ")?;
    push_name(numbers.of(k), into)?;
    into.extend_from_slice(b": ")?;
    push_kind(k, into)?;
    into.extend_from_slice(b";\n")
}

/// Adds the text of the members of the base of a kind of scalars. The error is want of memory.
fn push_members(k: Kind, numbers: Numbers, into: &mut Vec<u8>) -> Result<(), AllocError>
    ensures { OnOk result (into.new.items ≡ into.old.items ++ codes "elmt " ++ base_name (bases_of numbers (kind_of k))) }
{
    into.extend_from_slice(b"elmt ")?;
    push_name(numbers.of(k), into)
}

/// Adds the text of the mode of the members of a base between two texts. The error is want of memory.
fn push_around(head: &[u8], k: Kind, numbers: Numbers, into: &mut Vec<u8>) -> Result<(), AllocError>
    ensures { OnOk result (into.new.items ≡ into.old.items ++ head.now ++ (codes "elmt " ++ base_name (bases_of numbers (kind_of k))) ++ codes ")") }
{
    into.extend_from_slice(head)?;
    push_members(k, numbers, into)?;
    into.extend_from_slice(b")")
}

/// Adds the text of the mode of sets of scalars of a kind. The error is want of memory.
fn push_scalar_set(k: Kind, numbers: Numbers, into: &mut Vec<u8>) -> Result<(), AllocError>
    ensures { OnOk result (into.new.items ≡ into.old.items ++ mode_text (or_general (advised (bases_of numbers) (plain.Set (plain.Scalar (kind_of k)))))) }
{
    match k {
        Kind::Truth => into.extend_from_slice(b"set(boolean)"),
        Kind::Whole => push_around(b"remote set(", Kind::Whole, numbers, into),
        Kind::Letters => push_around(b"remote set(", Kind::Letters, numbers, into),
        Kind::Token => push_around(b"remote set(", Kind::Token, numbers, into),
    }
}

/// Adds the text of the mode of sets. The error is want of memory.
fn push_set(h: Level<Level<Flat>>, numbers: Numbers, into: &mut Vec<u8>) -> Result<(), AllocError>
    ensures { OnOk result (into.new.items ≡ into.old.items ++ mode_text (or_general (advised (bases_of numbers) (plain.Set (middle_flow h))))) }
{
    match h {
        Level::Scalar(k) => push_scalar_set(k, numbers, into),
        Level::Nothing => Level::Set(h).push(into),
        Level::Set(_) => Level::Set(h).push(into),
        Level::Tuple(_) => Level::Set(h).push(into),
        Level::Map(_, _) => Level::Set(h).push(into),
        Level::Any => Level::Set(h).push(into),
    }
}

/// Adds the text of the mode of tuples of scalars of a kind. The error is want of memory.
fn push_scalar_tuple(k: Kind, numbers: Numbers, into: &mut Vec<u8>) -> Result<(), AllocError>
    ensures { OnOk result (into.new.items ≡ into.old.items ++ mode_text (or_general (advised (bases_of numbers) (plain.Tuple (plain.Scalar (kind_of k)))))) }
{
    match k {
        Kind::Truth => into.extend_from_slice(b"tuple(boolean)"),
        Kind::Whole => push_around(b"tuple(", Kind::Whole, numbers, into),
        Kind::Letters => push_around(b"tuple(", Kind::Letters, numbers, into),
        Kind::Token => push_around(b"tuple(", Kind::Token, numbers, into),
    }
}

/// Adds the text of the mode of tuples. The error is want of memory.
fn push_tuple(h: Level<Level<Flat>>, numbers: Numbers, into: &mut Vec<u8>) -> Result<(), AllocError>
    ensures { OnOk result (into.new.items ≡ into.old.items ++ mode_text (or_general (advised (bases_of numbers) (plain.Tuple (middle_flow h))))) }
{
    match h {
        Level::Scalar(k) => push_scalar_tuple(k, numbers, into),
        Level::Nothing => Level::Tuple(h).push(into),
        Level::Set(_) => Level::Tuple(h).push(into),
        Level::Tuple(_) => Level::Tuple(h).push(into),
        Level::Map(_, _) => Level::Tuple(h).push(into),
        Level::Any => Level::Tuple(h).push(into),
    }
}

/// Adds the text of the mode of sets of images. The error is want of memory.
fn push_images(
    g: Level<Level<Flat>>,
    numbers: Numbers,
    into: &mut Vec<u8>,
) -> Result<(), AllocError>
    ensures { OnOk result (into.new.items ≡ into.old.items ++ mode_text (image_mode (bases_of numbers) (middle_flow g))) }
{
    match g {
        Level::Scalar(k) => push_scalar_images(k, numbers, into),
        Level::Nothing => Level::Set(g).push(into),
        Level::Set(_) => Level::Set(g).push(into),
        Level::Tuple(_) => Level::Set(g).push(into),
        Level::Map(_, _) => Level::Set(g).push(into),
        Level::Any => Level::Set(g).push(into),
    }
}

/// Adds the text of the mode of sets of images that are scalars of a kind. The error is want of memory.
fn push_scalar_images(k: Kind, numbers: Numbers, into: &mut Vec<u8>) -> Result<(), AllocError>
    ensures { OnOk result (into.new.items ≡ into.old.items ++ mode_text (image_mode (bases_of numbers) (plain.Scalar (kind_of k)))) }
{
    match k {
        Kind::Truth => into.extend_from_slice(b"set(boolean)"),
        Kind::Whole => push_around(b"sparse set(", Kind::Whole, numbers, into),
        Kind::Letters => push_around(b"sparse set(", Kind::Letters, numbers, into),
        Kind::Token => push_around(b"sparse set(", Kind::Token, numbers, into),
    }
}

/// Adds the text of the mode of maps whose arguments are members of the base of a kind. The error is want of memory.
fn push_base_map(
    k: Kind,
    g: Level<Level<Flat>>,
    numbers: Numbers,
    into: &mut Vec<u8>,
) -> Result<(), AllocError>
    ensures { OnOk result (into.new.items ≡ into.old.items ++ codes "sparse mmap{" ++ (codes "elmt " ++ base_name (bases_of numbers (kind_of k))) ++ codes "} " ++ mode_text (image_mode (bases_of numbers) (middle_flow g))) }
{
    into.extend_from_slice(b"sparse mmap{")?;
    push_members(k, numbers, into)?;
    into.extend_from_slice(b"} ")?;
    push_images(g, numbers, into)
}

/// Adds the text of the mode of maps whose arguments are scalars of a kind. The error is want of memory.
fn push_scalar_map(
    k: Kind,
    g: Level<Level<Flat>>,
    numbers: Numbers,
    into: &mut Vec<u8>,
) -> Result<(), AllocError>
    ensures { OnOk result (into.new.items ≡ into.old.items ++ mode_text (or_general (advised (bases_of numbers) (plain.Map (plain.Scalar (kind_of k)) (middle_flow g))))) }
{
    match k {
        Kind::Truth => Level::Map(Level::Scalar(k), g).push(into),
        Kind::Whole => push_base_map(Kind::Whole, g, numbers, into),
        Kind::Letters => push_base_map(Kind::Letters, g, numbers, into),
        Kind::Token => push_base_map(Kind::Token, g, numbers, into),
    }
}

/// Adds the text of the mode of maps. The error is want of memory.
fn push_map(
    f: Level<Level<Flat>>,
    g: Level<Level<Flat>>,
    numbers: Numbers,
    into: &mut Vec<u8>,
) -> Result<(), AllocError>
    ensures { OnOk result (into.new.items ≡ into.old.items ++ mode_text (or_general (advised (bases_of numbers) (plain.Map (middle_flow f) (middle_flow g))))) }
{
    match f {
        Level::Scalar(k) => push_scalar_map(k, g, numbers, into),
        Level::Nothing => Level::Map(f, g).push(into),
        Level::Set(_) => Level::Map(f, g).push(into),
        Level::Tuple(_) => Level::Map(f, g).push(into),
        Level::Map(_, _) => Level::Map(f, g).push(into),
        Level::Any => Level::Map(f, g).push(into),
    }
}

/// Adds the text of the mode that is advised for a flow. The error is want of memory.
fn push_mode(f: Flow, numbers: Numbers, into: &mut Vec<u8>) -> Result<(), AllocError>
    ensures { OnOk result (into.new.items ≡ into.old.items ++ mode_text (or_general (advised (bases_of numbers) (flow_of f)))) }
{
    match f {
        Level::Nothing => into.extend_from_slice(b"general"),
        Level::Scalar(k) => push_kind(k, into),
        Level::Set(h) => push_set(h, numbers, into),
        Level::Tuple(h) => push_tuple(h, numbers, into),
        Level::Map(g, h) => push_map(g, h, numbers, into),
        Level::Any => into.extend_from_slice(b"general"),
    }
}

/// Whether a mode is advised for a flow.
#[tactic(auto, using(crate::proofs::Declared::set_declared, crate::proofs::Declared::tuple_declared, crate::proofs::Declared::map_declared))]
fn is_declared(f: Flow) -> bool
    ensures some { result ≡ true → (b : Bases) → advised b (flow_of f) ≡ Some (or_general (advised b (flow_of f))) }
    ensures none { result ≡ false → (b : Bases) → advised b (flow_of f) ≡ None }
{
    match f {
        Level::Nothing => false,
        Level::Scalar(_) => true,
        Level::Set(_) => true,
        Level::Tuple(_) => true,
        Level::Map(_, _) => true,
        Level::Any => false,
    }
}

/// Adds the line of a variable with the mode that is advised for its flow; where none is, it adds nothing. The error is
/// want of memory.
pub fn push_line(
    into: &mut Vec<u8>,
    name: &[u8],
    f: Flow,
    numbers: Numbers,
) -> Result<(), AllocError>
    ensures { OnOk result (into.new.items ≡ into.old.items ++ line_text name.now (advised (bases_of numbers) (flow_of f))) }
{
    if !is_declared(f) {
        return Ok(());
    }
    into.extend_from_slice(name)?;
    into.extend_from_slice(b": ")?;
    push_mode(f, numbers, into)?;
    into.extend_from_slice(b";\n")
}
