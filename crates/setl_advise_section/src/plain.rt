//! The texts of modes without bases.

ghost use Rattle.std.specs.Prelude.{◌≡◌, ◌++◌, OnOk};
ghost use Rattle.setl_advise_flows.specs.Advice.{kind_mode, plain_mode};
ghost use Rattle.setl_advise_lattice.specs.code.Levels.{kind_of};
ghost use Rattle.setl_advise_section.specs.Text.{mode_text};

use setl_advise_lattice::{Flat, Kind, Level, Part};
use std::alloc::AllocError;

/// Flows whose modes have a text.
pub trait Written: Part {
    /// Adds the text of the mode of a flow, without bases. The error is want of memory.
    fn push(self, into: &mut Vec<u8>) -> Result<(), AllocError>
        ensures { OnOk result (into.new.items ≡ into.old.items ++ mode_text (plain_mode (Self.flow self))) };
}

/// Adds the text of the mode of a kind of scalars. The error is want of memory.
pub(crate) fn push_kind(k: Kind, into: &mut Vec<u8>) -> Result<(), AllocError>
    ensures { OnOk result (into.new.items ≡ into.old.items ++ mode_text (kind_mode (kind_of k))) }
{
    match k {
        Kind::Whole => into.extend_from_slice(b"int"),
        Kind::Letters => into.extend_from_slice(b"string"),
        Kind::Truth => into.extend_from_slice(b"boolean"),
        Kind::Token => into.extend_from_slice(b"atom"),
    }
}

impl Written for Flat {
    fn push(self, into: &mut Vec<u8>) -> Result<(), AllocError> {
        match self {
            Flat::Nothing => into.extend_from_slice(b"general"),
            Flat::Scalar(k) => push_kind(k, into),
            Flat::Any => into.extend_from_slice(b"general"),
        }
    }
}

impl<P: Written> Written for Level<P> {
    fn push(self, into: &mut Vec<u8>) -> Result<(), AllocError> {
        match self {
            Level::Nothing => into.extend_from_slice(b"general"),
            Level::Scalar(k) => push_kind(k, into),
            Level::Set(f) => {
                into.extend_from_slice(b"set(")?;
                f.push(into)?;
                into.extend_from_slice(b")")
            }
            Level::Tuple(f) => {
                into.extend_from_slice(b"tuple(")?;
                f.push(into)?;
                into.extend_from_slice(b")")
            }
            Level::Map(f, g) => {
                into.extend_from_slice(b"mmap{")?;
                f.push(into)?;
                into.extend_from_slice(b"} set(")?;
                g.push(into)?;
                into.extend_from_slice(b")")
            }
            Level::Any => into.extend_from_slice(b"general"),
        }
    }
}
