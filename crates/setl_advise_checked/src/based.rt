//! Whether a mode is the one that is advised for a flow.

ghost use Rattle.std.specs.Prelude.{◌≡◌, true, Some};
ghost use Rattle.setl_modes.specs.Modes.{Elements, MultiMaps, Sets, Tuples, mode_of};
ghost use Rattle.setl_modes.specs.declared.mode.Form.TheVariants as form;
ghost use Rattle.setl_advise_flows.specs.Flow as plain;
ghost use Rattle.setl_advise_flows.specs.Advice.{advised, image_mode, kind_mode};
ghost use Rattle.setl_advise_lattice.specs.code.Levels.{flow_of, kind_of, middle_flow};
ghost use Rattle.setl_advise_section.specs.code.Numbers.{bases_of};

use crate::plain::{Moded, is_kind};
use setl_advise_lattice::{Flat, Flow, Kind, Level};
use setl_advise_section::Numbers;
use setl_modes::{Form, Mode};

type Middle = Level<Level<Flat>>;

/// Whether a mode is that of the members of the base of a kind, which has a number.
#[tactic(auto, using(crate::proofs::ModeCodes::of_elmt))]
fn is_members(k: Kind, number: u64, mode: &Mode) -> bool
    ensures { result ≡ true → mode_of mode.now ≡ Elements number (kind_mode (kind_of k)) }
{
    match mode {
        Mode::Elmt(base, m) => u64::from(*base) == number && is_kind(k, m.get()),
        _ => false,
    }
}

/// Whether a mode is that of remote sets of members of a base.
#[tactic(auto, using(crate::proofs::ModeCodes::of_set))]
fn is_remote_set(k: Kind, number: u64, mode: &Mode) -> bool
    ensures { result ≡ true → mode_of mode.now ≡ Sets form.Remote (Elements number (kind_mode (kind_of k))) }
{
    match mode {
        Mode::Set(Form::Remote, m) => is_members(k, number, m.get()),
        _ => false,
    }
}

/// Whether a mode is that of sparse sets of members of a base.
#[tactic(auto, using(crate::proofs::ModeCodes::of_set))]
fn is_sparse_set(k: Kind, number: u64, mode: &Mode) -> bool
    ensures { result ≡ true → mode_of mode.now ≡ Sets form.Sparse (Elements number (kind_mode (kind_of k))) }
{
    match mode {
        Mode::Set(Form::Sparse, m) => is_members(k, number, m.get()),
        _ => false,
    }
}

/// Whether a mode is that of tuples of members of a base.
#[tactic(auto, using(crate::proofs::ModeCodes::of_tuple))]
fn is_members_tuple(k: Kind, number: u64, mode: &Mode) -> bool
    ensures { result ≡ true → mode_of mode.now ≡ Tuples (Elements number (kind_mode (kind_of k))) }
{
    match mode {
        Mode::Tuple(m) => is_members(k, number, m.get()),
        _ => false,
    }
}

/// Whether a mode is the one that is advised for sets of scalars of a kind.
fn is_scalar_set(k: Kind, numbers: Numbers, mode: &Mode) -> bool
    ensures { result ≡ true → Some (mode_of mode.now) ≡ advised (bases_of numbers) (plain.Set (plain.Scalar (kind_of k))) }
{
    match k {
        Kind::Truth => Middle::Set(Level::Scalar(Kind::Truth)).is_mode(mode),
        Kind::Whole => is_remote_set(Kind::Whole, numbers.whole, mode),
        Kind::Letters => is_remote_set(Kind::Letters, numbers.letters, mode),
        Kind::Token => is_remote_set(Kind::Token, numbers.token, mode),
    }
}

/// Whether a mode is the one that is advised for sets.
fn is_set(h: Middle, numbers: Numbers, mode: &Mode) -> bool
    ensures { result ≡ true → Some (mode_of mode.now) ≡ advised (bases_of numbers) (plain.Set (middle_flow h)) }
{
    match h {
        Level::Scalar(k) => is_scalar_set(k, numbers, mode),
        Level::Nothing => Level::Set(h).is_mode(mode),
        Level::Set(_) => Level::Set(h).is_mode(mode),
        Level::Tuple(_) => Level::Set(h).is_mode(mode),
        Level::Map(_, _) => Level::Set(h).is_mode(mode),
        Level::Any => Level::Set(h).is_mode(mode),
    }
}

/// Whether a mode is the one that is advised for tuples of scalars of a kind.
fn is_scalar_tuple(k: Kind, numbers: Numbers, mode: &Mode) -> bool
    ensures { result ≡ true → Some (mode_of mode.now) ≡ advised (bases_of numbers) (plain.Tuple (plain.Scalar (kind_of k))) }
{
    match k {
        Kind::Truth => Middle::Tuple(Level::Scalar(Kind::Truth)).is_mode(mode),
        Kind::Whole => is_members_tuple(Kind::Whole, numbers.whole, mode),
        Kind::Letters => is_members_tuple(Kind::Letters, numbers.letters, mode),
        Kind::Token => is_members_tuple(Kind::Token, numbers.token, mode),
    }
}

/// Whether a mode is the one that is advised for tuples.
fn is_tuple(h: Middle, numbers: Numbers, mode: &Mode) -> bool
    ensures { result ≡ true → Some (mode_of mode.now) ≡ advised (bases_of numbers) (plain.Tuple (middle_flow h)) }
{
    match h {
        Level::Scalar(k) => is_scalar_tuple(k, numbers, mode),
        Level::Nothing => Level::Tuple(h).is_mode(mode),
        Level::Set(_) => Level::Tuple(h).is_mode(mode),
        Level::Tuple(_) => Level::Tuple(h).is_mode(mode),
        Level::Map(_, _) => Level::Tuple(h).is_mode(mode),
        Level::Any => Level::Tuple(h).is_mode(mode),
    }
}

/// Whether a mode is that of sets of images that are scalars of a kind.
fn is_scalar_images(k: Kind, numbers: Numbers, mode: &Mode) -> bool
    ensures { result ≡ true → mode_of mode.now ≡ image_mode (bases_of numbers) (plain.Scalar (kind_of k)) }
{
    match k {
        Kind::Truth => Middle::Set(Level::Scalar(Kind::Truth)).is_mode(mode),
        Kind::Whole => is_sparse_set(Kind::Whole, numbers.whole, mode),
        Kind::Letters => is_sparse_set(Kind::Letters, numbers.letters, mode),
        Kind::Token => is_sparse_set(Kind::Token, numbers.token, mode),
    }
}

/// Whether a mode is that of sets of images.
fn is_images(g: Middle, numbers: Numbers, mode: &Mode) -> bool
    ensures { result ≡ true → mode_of mode.now ≡ image_mode (bases_of numbers) (middle_flow g) }
{
    match g {
        Level::Scalar(k) => is_scalar_images(k, numbers, mode),
        Level::Nothing => Level::Set(g).is_mode(mode),
        Level::Set(_) => Level::Set(g).is_mode(mode),
        Level::Tuple(_) => Level::Set(g).is_mode(mode),
        Level::Map(_, _) => Level::Set(g).is_mode(mode),
        Level::Any => Level::Set(g).is_mode(mode),
    }
}

/// Whether a mode is that of sparse maps whose arguments are members of a base.
#[tactic(auto, using(crate::proofs::ModeCodes::of_map))]
fn is_base_map(k: Kind, number: u64, g: Middle, numbers: Numbers, mode: &Mode) -> bool
    ensures { result ≡ true → mode_of mode.now ≡ MultiMaps form.Sparse (Elements number (kind_mode (kind_of k))) (image_mode (bases_of numbers) (middle_flow g)) }
{
    match mode {
        Mode::Mmap(Form::Sparse, d, s) => {
            is_members(k, number, d.get()) && is_images(g, numbers, s.get())
        }
        _ => false,
    }
}

/// Whether a mode is the one that is advised for maps whose arguments are scalars of a kind.
fn is_scalar_map(k: Kind, g: Middle, numbers: Numbers, mode: &Mode) -> bool
    ensures { result ≡ true → Some (mode_of mode.now) ≡ advised (bases_of numbers) (plain.Map (plain.Scalar (kind_of k)) (middle_flow g)) }
{
    match k {
        Kind::Truth => Level::Map(Level::Scalar(Kind::Truth), g).is_mode(mode),
        Kind::Whole => is_base_map(Kind::Whole, numbers.whole, g, numbers, mode),
        Kind::Letters => is_base_map(Kind::Letters, numbers.letters, g, numbers, mode),
        Kind::Token => is_base_map(Kind::Token, numbers.token, g, numbers, mode),
    }
}

/// Whether a mode is the one that is advised for maps.
fn is_map(f: Middle, g: Middle, numbers: Numbers, mode: &Mode) -> bool
    ensures { result ≡ true → Some (mode_of mode.now) ≡ advised (bases_of numbers) (plain.Map (middle_flow f) (middle_flow g)) }
{
    match f {
        Level::Scalar(k) => is_scalar_map(k, g, numbers, mode),
        Level::Nothing => Level::Map(f, g).is_mode(mode),
        Level::Set(_) => Level::Map(f, g).is_mode(mode),
        Level::Tuple(_) => Level::Map(f, g).is_mode(mode),
        Level::Map(_, _) => Level::Map(f, g).is_mode(mode),
        Level::Any => Level::Map(f, g).is_mode(mode),
    }
}

/// Whether a mode is the one that is advised for a flow.
pub fn is_advised(f: Flow, numbers: Numbers, mode: &Mode) -> bool
    ensures { result ≡ true → Some (mode_of mode.now) ≡ advised (bases_of numbers) (flow_of f) }
{
    match f {
        Level::Nothing => false,
        Level::Scalar(k) => is_kind(k, mode),
        Level::Set(h) => is_set(h, numbers, mode),
        Level::Tuple(h) => is_tuple(h, numbers, mode),
        Level::Map(g, h) => is_map(g, h, numbers, mode),
        Level::Any => false,
    }
}
