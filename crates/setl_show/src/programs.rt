//! Procedures and programs.

ghost use Rattle.std.specs.Prelude.{◌≡◌, OnOk, map};
ghost use Rattle.setl_tree.specs.Canonical as spec;
ghost use Rattle.setl_token.specs.Spellings.{IsSpelled};
ghost use Rattle.setl_show.specs.Text.{with_tokens};

use crate::lists::with_commas;
use crate::modes::repr_section;
use crate::statements::stmts;
use crate::writer::Writer;
use setl_tree::{Declared, Kind, Proc, Text, Tree};
use std::alloc::AllocError;

/// `end`, a word, a name if there is one, and `;`.
fn named_ending(word: Kind, name: &Option<Text>, to: &mut Writer) -> Result<(), AllocError>
    requires { IsSpelled word }
    ensures { OnOk result (to.new ≡ with_tokens to.old (spec.named_ending_tokens 0 word name.now)) }
{
    to.signs(Kind::End, word)?;
    match name {
        None => to.sign(Kind::Semicolon),
        Some(name) => to.name_before(name, Kind::Semicolon),
    }
}

/// The variables in one declaration, if there are any.
fn variables(xs: &[Declared], to: &mut Writer) -> Result<(), AllocError>
    ensures { OnOk result (to.new ≡ with_tokens to.old (spec.var_tokens xs.now)) }
{
    if xs.is_empty() {
        return Ok(());
    }
    to.sign(Kind::Var)?;
    with_commas(xs, to)?;
    to.sign(Kind::Semicolon)
}

/// A procedure.
fn procedure(p: &Proc, to: &mut Writer) -> Result<(), AllocError>
    ensures { OnOk result (to.new ≡ with_tokens to.old (spec.proc_tokens p.now)) }
{
    to.sign(Kind::Proc)?;
    to.name_before(&p.name, Kind::LeftParen)?;
    with_commas(p.params.as_slice(), to)?;
    to.signs(Kind::RightParen, Kind::Semicolon)?;
    stmts(p.body.as_slice(), to)?;
    named_ending(Kind::Proc, &p.end_name, to)
}

/// Procedures.
fn procedures(xs: &[Proc], to: &mut Writer) -> Result<(), AllocError>
    ensures { OnOk result (to.new ≡ with_tokens to.old (spec.all_of (map spec.proc_tokens xs.now))) }
{
    for x in xs {
        procedure(x, to)?;
    }
    Ok(())
}

/// A program.
#[tactic(auto, unfolding(setl_tree::specs::Canonical::canonical))]
pub fn program(t: &Tree, to: &mut Writer) -> Result<(), AllocError>
    ensures { OnOk result (to.new ≡ with_tokens to.old (spec.canonical t.now)) }
{
    to.sign(Kind::Program)?;
    to.name_before(&t.name, Kind::Semicolon)?;
    variables(t.vars.as_slice(), to)?;
    repr_section(t.modes.as_slice(), to)?;
    stmts(t.body.as_slice(), to)?;
    procedures(t.procs.as_slice(), to)?;
    named_ending(Kind::Program, &t.end_name, to)
}
