//! Whether a mode is that of a flow, without bases.

ghost use Rattle.std.specs.Prelude.{◌≡◌, true};
ghost use Rattle.setl_modes.specs.Modes.{General, mode_of};
ghost use Rattle.setl_advise_flows.specs.Advice.{kind_mode, plain_mode};
ghost use Rattle.setl_advise_flows.specs.Flow as plain;
ghost use Rattle.setl_advise_lattice.specs.code.Levels.{kind_of};

use setl_advise_lattice::{Flat, Kind, Level, Part};
use setl_modes::{Form, Mode};

/// Flows that have a mode without bases.
pub trait Moded: Part {
    /// Whether a mode is that of this flow, without bases.
    fn is_mode(self, mode: &Mode) -> bool
        ensures { result ≡ true → mode_of mode.now ≡ plain_mode (Self.flow self) };
}

/// Whether a mode is that of all values.
fn is_general(mode: &Mode) -> bool
    ensures { result ≡ true → mode_of mode.now ≡ General }
{
    matches!(mode, Mode::General)
}

/// Whether a mode is that of a kind of scalars.
pub fn is_kind(k: Kind, mode: &Mode) -> bool
    ensures { result ≡ true → mode_of mode.now ≡ kind_mode (kind_of k) }
{
    match k {
        Kind::Whole => matches!(mode, Mode::Int),
        Kind::Letters => matches!(mode, Mode::Str),
        Kind::Truth => matches!(mode, Mode::Boolean),
        Kind::Token => matches!(mode, Mode::Atom),
    }
}

/// Whether a mode is that of sets whose members have a flow.
#[tactic(auto, using(crate::proofs::ModeCodes::of_set))]
fn is_set<P: Moded>(f: P, mode: &Mode) -> bool
    ensures { result ≡ true → mode_of mode.now ≡ plain_mode (plain.Set (P.flow f)) }
{
    match mode {
        Mode::Set(Form::Plain, m) => f.is_mode(m.get()),
        _ => false,
    }
}

/// Whether a mode is that of tuples whose components have a flow.
#[tactic(auto, using(crate::proofs::ModeCodes::of_tuple))]
fn is_tuple<P: Moded>(f: P, mode: &Mode) -> bool
    ensures { result ≡ true → mode_of mode.now ≡ plain_mode (plain.Tuple (P.flow f)) }
{
    match mode {
        Mode::Tuple(m) => f.is_mode(m.get()),
        _ => false,
    }
}

/// Whether a mode is that of maps from one flow to another.
#[tactic(auto, using(crate::proofs::ModeCodes::of_map))]
fn is_map<P: Moded>(f: P, g: P, mode: &Mode) -> bool
    ensures { result ≡ true → mode_of mode.now ≡ plain_mode (plain.Map (P.flow f) (P.flow g)) }
{
    match mode {
        Mode::Mmap(Form::Plain, d, s) => f.is_mode(d.get()) && is_set(g, s.get()),
        _ => false,
    }
}

impl Moded for Flat {
    fn is_mode(self, mode: &Mode) -> bool {
        match self {
            Flat::Nothing => is_general(mode),
            Flat::Scalar(k) => is_kind(k, mode),
            Flat::Any => is_general(mode),
        }
    }
}

impl<P: Moded> Moded for Level<P> {
    fn is_mode(self, mode: &Mode) -> bool {
        match self {
            Level::Nothing => is_general(mode),
            Level::Scalar(k) => is_kind(k, mode),
            Level::Set(f) => is_set(f, mode),
            Level::Tuple(f) => is_tuple(f, mode),
            Level::Map(f, g) => is_map(f, g, mode),
            Level::Any => is_general(mode),
        }
    }
}
