//! The table of modes of a section.

ghost use Rattle.std.specs.Prelude.{◌≡◌, ◌++◌, IfOk, OnOk, Option};
ghost use Rattle.setl_tree.specs.declared.mode.Attribute.{Attribute as TreeAttribute};
ghost use Rattle.setl_modes.specs.Modes.{mode_of};
ghost use Rattle.setl_modes.specs.Declarations as spec;
ghost use Rattle.setl_modes.specs.Declarations.{bases_of, variables_of};
ghost use Rattle.setl_modes_declarations.specs.Declares.{named_modes};
ghost use Rattle.setl_modes_declarations.specs.code.Elements.{Finds, core_mode};

use crate::bases::Bases;
use crate::copies::put_modes;
use setl_modes::{Form, Mode, ModeTable, NamedMode};
use setl_tree::{Attribute, Boxed, Core, Declared, Items, ReprLine, Text, WrittenMode};
use std::alloc::{AllocError, Global};

/// Whether a mode is that of the members of a base.
fn is_element(m: &Mode) -> bool
    ensures { result ≡ spec.is_element (mode_of m.now) }
{
    match m {
        Mode::Elmt(_, _) => true,
        _ => false,
    }
}

/// How a set or map is kept, by its attribute and whether its first mode is an `elmt`.
fn form_of(attribute: Option<Attribute>, is_based: bool) -> Form
    ensures { result ≡ spec.form_of attribute is_based }
{
    match attribute {
        Some(Attribute::Local) => Form::Local,
        Some(Attribute::Remote) => Form::Remote,
        Some(Attribute::Sparse) => Form::Sparse,
        None => { if is_based { Form::Sparse } else { Form::Plain } }
    }
}

/// What a mode means with these bases. An error is want of memory.
#[cycle(meanings)]
fn meaning(alloc: Global, bases: &Bases, m: &WrittenMode) -> Result<Mode, AllocError>
    requires { Finds bases.now.numbers (named_modes bases.now.modes) }
    ensures { IfOk result (λ made. mode_of made ≡ spec.mode_of m.now (named_modes bases.now.modes)) }
{
    core_meaning(alloc, bases, m.attribute, &m.core)
}

/// What a mode with this attribute means with these bases. An error is want of memory.
#[cycle(meanings)]
fn core_meaning(
    alloc: Global,
    bases: &Bases,
    attribute: Option<Attribute>,
    x: &Core,
) -> Result<Mode, AllocError>
    requires { Finds bases.now.numbers (named_modes bases.now.modes) }
    ensures { IfOk result (λ made. mode_of made ≡ core_mode x.now attribute (named_modes bases.now.modes)) }
{
    match x {
        Core::General => Ok(Mode::General),
        Core::Int => Ok(Mode::Int),
        Core::Str => Ok(Mode::Str),
        Core::Boolean => Ok(Mode::Boolean),
        Core::Atom => Ok(Mode::Atom),
        Core::Elmt(_, base) => bases.element(alloc, base),
        Core::Set(m) => {
            let members = boxed_meaning(alloc, bases, m.get())?;
            let form = form_of(attribute, is_element(members.get()));
            Ok(Mode::Set(form, members))
        }
        Core::Tuple(m) => Ok(Mode::Tuple(boxed_meaning(alloc, bases, m.get())?)),
        Core::Smap(domain, range) => {
            let domain = boxed_meaning(alloc, bases, domain.get())?;
            let form = form_of(attribute, is_element(domain.get()));
            Ok(Mode::Smap(form, domain, boxed_meaning(alloc, bases, range.get())?))
        }
        Core::Mmap(domain, images) => {
            let domain = boxed_meaning(alloc, bases, domain.get())?;
            let form = form_of(attribute, is_element(domain.get()));
            Ok(Mode::Mmap(form, domain, boxed_meaning(alloc, bases, images.get())?))
        }
    }
}

/// What a mode means with these bases, in a box. An error is want of memory.
#[cycle(meanings)]
fn boxed_meaning(alloc: Global, bases: &Bases, m: &WrittenMode) -> Result<Boxed<Mode>, AllocError>
    requires { Finds bases.now.numbers (named_modes bases.now.modes) }
    ensures { IfOk result (λ made. mode_of made ≡ spec.mode_of m.now (named_modes bases.now.modes)) }
{
    let made = meaning(alloc, bases, m)?;
    Boxed::new(alloc, made)
}

/// What the mode of a base means with the bases of the lines before. An error is want of memory.
fn base_meaning(alloc: Global, bases: &Bases, m: &Option<WrittenMode>) -> Result<Mode, AllocError>
    requires { Finds bases.now.numbers (named_modes bases.now.modes) }
    ensures { IfOk result (λ made. mode_of made ≡ spec.base_mode m.now (named_modes bases.now.modes)) }
{
    match m {
        None => Ok(Mode::General),
        Some(m) => meaning(alloc, bases, m),
    }
}

/// Puts what a `repr` line declares at the end of the bases and of the variables. An error is want of memory.
fn put_line(
    alloc: Global,
    bases: &mut Bases,
    vars: &mut Items<NamedMode>,
    line: &ReprLine,
) -> Result<(), AllocError>
    requires { Finds bases.old.numbers (named_modes bases.old.modes) }
    ensures bases { OnOk result (named_modes bases.new.modes ≡ spec.with_line line.now (named_modes bases.old.modes)) }
    ensures finds { OnOk result (Finds bases.new.numbers (named_modes bases.new.modes)) }
    ensures vars { OnOk result (named_modes vars.new ≡ named_modes vars.old ++ spec.line_variables line.now (named_modes bases.old.modes)) }
{
    match line {
        ReprLine::Base(_, names, m) => {
            let mode = base_meaning(alloc, bases, m)?;
            bases.put_all(alloc, names.as_slice(), &mode)
        }
        ReprLine::Variables(_, names, m) => {
            let mode = meaning(alloc, bases, m)?;
            put_modes(alloc, vars, names.as_slice(), &mode)
        }
    }
}

/// Puts what `repr` lines declare at the end of the bases and of the variables. An error is want of memory.
fn put_lines(
    alloc: Global,
    bases: &mut Bases,
    vars: &mut Items<NamedMode>,
    lines: &[ReprLine],
) -> Result<(), AllocError>
    requires { Finds bases.old.numbers (named_modes bases.old.modes) }
    ensures bases { OnOk result (named_modes bases.new.modes ≡ spec.bases_from (named_modes bases.old.modes) lines.now) }
    ensures vars { OnOk result (named_modes vars.new ≡ named_modes vars.old ++ spec.variables_from (named_modes bases.old.modes) lines.now) }
{
    for line in lines {
        put_line(alloc, bases, vars, line)?;
    }
    Ok(())
}

/// The bases and the variables that a section declares, with their modes. An error is want of memory.
pub fn mode_table(alloc: Global, lines: &[ReprLine]) -> Result<ModeTable, AllocError>
    ensures bases { IfOk result (λ table. named_modes table.bases ≡ bases_of lines.now) }
    ensures vars { IfOk result (λ table. named_modes table.vars ≡ variables_of lines.now) }
{
    let mut bases = Bases::new(alloc);
    let mut vars = Items::new(alloc);
    put_lines(alloc, &mut bases, &mut vars, lines)?;
    Ok(ModeTable {
        bases: bases.modes,
        vars,
    })
}
