//! Lists of parts that hold no expression, with commas between.

ghost use Rattle.std.specs.Prelude.{◌≡◌, OnOk, map};
ghost use Rattle.setl_tree.specs.Canonical as spec;
ghost use Rattle.setl_show.specs.Text.{with_tokens};

use crate::writer::Writer;
use setl_show_notation::passing_kind;
use setl_tree::{Declared, Kind, Param, Slot, Text};
use std::alloc::AllocError;

/// A part of a list.
pub trait Part {
    ghost use Rattle.std.specs.Prelude.{◌≡◌, OnOk};
    ghost use Rattle.setl_tree.specs.Tokens.{Tokens};
    ghost use Rattle.setl_show.specs.Text.{with_tokens};

    ghost tokens: { Self → Tokens };

    /// Writes its tokens.
    fn write(&self, to: &mut Writer) -> Result<(), AllocError>
        ensures { OnOk result (to.new ≡ with_tokens to.old (tokens self.now)) };
}

impl Part for Text {
    ghost use Rattle.setl_tree.specs.Canonical.{single};

    ghost tokens = { single };

    fn write(&self, to: &mut Writer) -> Result<(), AllocError> {
        to.name(self)
    }
}

impl Part for Slot {
    ghost use Rattle.setl_tree.specs.Canonical.{slot_tokens};

    ghost tokens = { slot_tokens };

    fn write(&self, to: &mut Writer) -> Result<(), AllocError> {
        match self {
            Slot::Name(name) => to.name(name),
            Slot::Skip => to.sign(Kind::Minus),
        }
    }
}

impl Part for Declared {
    ghost use Rattle.setl_tree.specs.Canonical.{declared_tokens};

    ghost tokens = { declared_tokens };

    fn write(&self, to: &mut Writer) -> Result<(), AllocError> {
        to.name(&self.name)
    }
}

impl Part for Param {
    ghost use Rattle.setl_tree.specs.Canonical.{param_tokens};

    ghost tokens = { param_tokens };

    fn write(&self, to: &mut Writer) -> Result<(), AllocError> {
        to.sign(passing_kind(self.passing))?;
        to.name(&self.name)
    }
}

/// Parts with a comma before each.
fn behind_commas<T: Part>(parts: &[T], to: &mut Writer) -> Result<(), AllocError>
    ensures { OnOk result (to.new ≡ with_tokens to.old (spec.behind_commas (map T.tokens parts.now))) }
{
    for part in parts {
        to.sign(Kind::Comma)?;
        part.write(to)?;
    }
    Ok(())
}

/// Parts with commas between.
pub fn with_commas<T: Part>(parts: &[T], to: &mut Writer) -> Result<(), AllocError>
    ensures { OnOk result (to.new ≡ with_tokens to.old (spec.with_commas (map T.tokens parts.now))) }
{
    match parts {
        [] => Ok(()),
        [first, others @ ..] => {
            first.write(to)?;
            behind_commas(others, to)
        }
    }
}
