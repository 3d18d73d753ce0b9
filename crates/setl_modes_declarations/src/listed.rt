//! The names that a section declares.

ghost use Rattle.std.specs.Prelude.{◌≡◌, ◌++◌, OnOk, IfOk};
ghost use Rattle.setl_modes_declarations.specs.Rules as spec;

use setl_names::{Declares, Entry, Name};
use setl_tree::{Declared, Items, ReprLine, Text};
use std::alloc::{AllocError, Global};
use std::marker::Model;

/// A declared name that stands in a tree. Contracts see the name with its line.
#[derive(Drop)]
pub struct Listed<'t> {
    declared: &'t Declared,
}

impl<'t> Model for Listed<'t> {
    ghost use Rattle.setl_tree.specs.declared.tree.Declared.{Declared as TreeDeclared};

    ghost Value = { TreeDeclared };

    ghost view = { λ l. l.declared.now };
}

impl<'t> Listed<'t> {
    /// The name as it stands in the tree.
    pub fn new(declared: &'t Declared) -> Listed<'t>
        ensures { result ≡ declared.now }
    {
        Listed { declared }
    }

    /// The line of the name.
    pub fn line(&self) -> u32
        ensures { result ≡ self.now.line }
    {
        self.declared.line
    }

    /// The name.
    pub fn name(&self) -> &'t Text
        ensures { result.now ≡ self.now.name }
    {
        &self.declared.name
    }
}

impl<'t> Declares for Listed<'t> {
    ghost use Rattle.setl_names.specs.Heads.{declared_entry};

    ghost entry_of = { declared_entry };

    fn entry(&self) -> Entry<'_> {
        self.declared.entry()
    }
}

/// Puts declared names behind others. An error is want of memory.
fn add<'t>(all: &mut Items<Listed<'t>>, names: &'t [Declared]) -> Result<(), AllocError>
    ensures { OnOk result (all.new ≡ all.old ++ names.now) }
{
    for name in names {
        all.push(Listed::new(name))?;
    }
    Ok(())
}

/// The bases that a section declares, in their order. An error is want of memory.
pub fn declared_bases<'t>(
    alloc: Global,
    lines: &'t [ReprLine],
) -> Result<Items<Listed<'t>>, AllocError>
    ensures { IfOk result (λ all. all ≡ spec.declared_bases lines.now) }
{
    let mut all = Items::new(alloc);
    for line in lines {
        if let ReprLine::Base(_, names, _) = line {
            add(&mut all, names.as_slice())?;
        }
    }
    Ok(all)
}

/// The variables that a section declares, in their order. An error is want of memory.
pub fn declared_variables<'t>(
    alloc: Global,
    lines: &'t [ReprLine],
) -> Result<Items<Listed<'t>>, AllocError>
    ensures { IfOk result (λ all. all ≡ spec.declared_variables lines.now) }
{
    let mut all = Items::new(alloc);
    for line in lines {
        if let ReprLine::Variables(_, names, _) = line {
            add(&mut all, names.as_slice())?;
        }
    }
    Ok(all)
}
