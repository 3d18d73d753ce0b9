//! Prefixes.

ghost use Rattle.std.specs.Prelude.{◌≡◌, OnOk};
ghost use Rattle.setl_tree.specs.Canonical as spec;
ghost use Rattle.setl_show.specs.Text.{with_tokens};

use crate::writer::Writer;
use setl_show_notation::fold_kind;
use setl_tree::{Kind, Prefix};
use std::alloc::AllocError;

/// A prefix.
fn prefix(prefix: Prefix, to: &mut Writer) -> Result<(), AllocError>
    ensures { OnOk result (to.new ≡ with_tokens to.old (spec.prefix_tokens prefix)) }
{
    match prefix {
        Prefix::Not => to.sign(Kind::Not),
        Prefix::Minus => to.sign(Kind::Minus),
        Prefix::Size => to.sign(Kind::Hash),
        Prefix::Abs => to.sign(Kind::Abs),
        Prefix::Even => to.sign(Kind::Even),
        Prefix::Odd => to.sign(Kind::Odd),
        Prefix::Pow => to.sign(Kind::Pow),
        Prefix::Domain => to.sign(Kind::Domain),
        Prefix::Range => to.sign(Kind::Range),
        Prefix::Arb => to.sign(Kind::Arb),
        Prefix::Str => to.sign(Kind::Str),
        Prefix::IsInteger => to.sign(Kind::IsInteger),
        Prefix::IsString => to.sign(Kind::IsString),
        Prefix::IsBoolean => to.sign(Kind::IsBoolean),
        Prefix::IsAtom => to.sign(Kind::IsAtom),
        Prefix::IsTuple => to.sign(Kind::IsTuple),
        Prefix::IsSet => to.sign(Kind::IsSet),
        Prefix::IsMap => to.sign(Kind::IsMap),
        Prefix::Folded(fold) => {
            to.sign(fold_kind(fold))?;
            to.sign(Kind::Slash)
        }
    }
}

/// Prefixes, from the outside in.
pub fn prefixes(prefixes: &[Prefix], to: &mut Writer) -> Result<(), AllocError>
    ensures { OnOk result (to.new ≡ with_tokens to.old (spec.all_prefixes prefixes.now)) }
{
    for p in prefixes {
        prefix(*p, to)?;
    }
    Ok(())
}
