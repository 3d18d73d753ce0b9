//! Modes and the lines of a `repr` section.

ghost use Rattle.std.specs.Prelude.{◌≡◌, ℕ, ◌∷◌, OnOk, map};
ghost use Rattle.setl_tree.specs.Canonical as spec;
ghost use Rattle.setl_tree.specs.Canonical.{sign, bracketed, mode_tokens};
ghost use Rattle.setl_token.specs.Spellings.{IsSpelled};
ghost use Rattle.setl_show.specs.Text.{with_tokens};
ghost use Rattle.setl_show.specs.Parts.{core_tokens};

use crate::lists::with_commas;
use crate::simple::ending;
use crate::writer::Writer;
use setl_show_notation::attribute_kind;
use setl_tree::{Core, Kind, ReprLine, WrittenMode};
use std::alloc::AllocError;

/// A mode.
#[cycle(modes)]
fn mode(m: &WrittenMode, to: &mut Writer) -> Result<(), AllocError>
    ensures { OnOk result (to.new ≡ with_tokens to.old (mode_tokens m.now)) }
{
    match m.attribute {
        None => core(&m.core, to),
        Some(attribute) => {
            to.sign(attribute_kind(attribute))?;
            core(&m.core, to)
        }
    }
}

/// A mode without its attribute. Its line changes nothing.
#[cycle(modes)]
fn core(x: &Core, to: &mut Writer) -> Result<(), AllocError>
    ensures { (line : ℕ) → OnOk result (to.new ≡ with_tokens to.old (core_tokens x.now line)) }
{
    match x {
        Core::General => to.sign(Kind::General),
        Core::Int => to.sign(Kind::Int),
        Core::Str => to.sign(Kind::String),
        Core::Boolean => to.sign(Kind::Boolean),
        Core::Atom => to.sign(Kind::Atom),
        Core::Elmt(_, base) => {
            to.sign(Kind::Elmt)?;
            to.name(base)
        }
        Core::Set(m) => mode_between(Kind::Set, Kind::LeftParen, m.get(), Kind::RightParen, to),
        Core::Tuple(m) => mode_between(Kind::Tuple, Kind::LeftParen, m.get(), Kind::RightParen, to),
        Core::Smap(domain, range) => {
            mode_between(
                Kind::Smap,
                Kind::LeftParen,
                domain.get(),
                Kind::RightParen,
                to,
            )?;
            mode(range.get(), to)
        }
        Core::Mmap(domain, range) => {
            mode_between(
                Kind::Mmap,
                Kind::LeftBrace,
                domain.get(),
                Kind::RightBrace,
                to,
            )?;
            mode(range.get(), to)
        }
    }
}

/// A word, and a mode in brackets of some kind.
#[cycle(modes)]
fn mode_between(
    word: Kind,
    left: Kind,
    m: &WrittenMode,
    right: Kind,
    to: &mut Writer,
) -> Result<(), AllocError>
    requires word { IsSpelled word }
    requires left { IsSpelled left }
    requires right { IsSpelled right }
    ensures { OnOk result (to.new ≡ with_tokens to.old (sign word ∷ bracketed left (mode_tokens m.now) right)) }
{
    to.signs(word, left)?;
    mode(m, to)?;
    to.sign(right)
}

/// A mode behind a colon, if there is one.
fn optional_mode(m: &Option<WrittenMode>, to: &mut Writer) -> Result<(), AllocError>
    ensures { OnOk result (to.new ≡ with_tokens to.old (spec.colon_tokens m.now)) }
{
    match m {
        None => Ok(()),
        Some(m) => {
            to.sign(Kind::Colon)?;
            mode(m, to)
        }
    }
}

/// A line of a `repr` section.
fn repr_line(x: &ReprLine, to: &mut Writer) -> Result<(), AllocError>
    ensures { OnOk result (to.new ≡ with_tokens to.old (spec.line_tokens x.now)) }
{
    match x {
        ReprLine::Base(_, names, m) => {
            to.sign(Kind::Base)?;
            with_commas(names.as_slice(), to)?;
            optional_mode(m, to)?;
            to.sign(Kind::Semicolon)
        }
        ReprLine::Variables(_, names, m) => {
            with_commas(names.as_slice(), to)?;
            to.sign(Kind::Colon)?;
            mode(m, to)?;
            to.sign(Kind::Semicolon)
        }
    }
}

/// The lines of a `repr` section.
fn repr_lines(xs: &[ReprLine], to: &mut Writer) -> Result<(), AllocError>
    ensures { OnOk result (to.new ≡ with_tokens to.old (spec.all_of (map spec.line_tokens xs.now))) }
{
    for x in xs {
        repr_line(x, to)?;
    }
    Ok(())
}

/// A `repr` section, if it has lines.
pub fn repr_section(xs: &[ReprLine], to: &mut Writer) -> Result<(), AllocError>
    ensures { OnOk result (to.new ≡ with_tokens to.old (spec.repr_tokens xs.now)) }
{
    if xs.is_empty() {
        return Ok(());
    }
    to.sign(Kind::Repr)?;
    repr_lines(xs, to)?;
    ending(Kind::Repr, to)
}
