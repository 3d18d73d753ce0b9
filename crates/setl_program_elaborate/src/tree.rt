//! What a tree becomes.

ghost use Rattle.std.specs.Prelude.{◌≡◌, suc, map, OnOk, IfOk};
ghost use Rattle.setl_modes.specs.Modes.{mode_of};
ghost use Rattle.setl_modes.specs.Declarations.{variables_of};
ghost use Rattle.setl_names.specs.Variables.{var_names};
ghost use Rattle.setl_program.specs.code.Plain.{plain_variable, plain_block, plain_procedure, plain_program};
ghost use Rattle.setl_program.specs.ProgramOf.{main_scope, in_body, procedure_of_tree, procedures_from, declaration_of, program_of};
ghost use Rattle.setl_program.specs.Statements.{body_of};

use crate::elaborator::Elaborator;
use crate::makers::{put, without};
use setl_modes::NamedMode;
use setl_program::{Declared, Procedure, Program, Stmt};
use setl_program_scope::{Opened, beside};
use setl_tree::{
    Declared as TreeDeclared, Items, Param, Proc, Stmt as TreeStmt, Text, Tree, copied_items,
};
use std::alloc::{AllocError, Global};

/// The names in `var`. An error is want of memory.
fn vars(alloc: Global, declared: &[TreeDeclared]) -> Result<Items<Text>, AllocError>
    ensures { IfOk result (λ names. names ≡ var_names declared.now) }
{
    let mut all = Items::new(alloc);
    for name in declared {
        put(&mut all, name.name.copy())?;
    }
    Ok(all)
}

/// The name of a procedure and its parameters. An error is want of memory.
fn head(alloc: Global, proc: &Proc) -> Result<(Text, Items<Param>), AllocError>
    ensures name { IfOk result (λ r. r.0 ≡ proc.now.name) }
    ensures parameters { IfOk result (λ r. r.1 ≡ proc.now.params) }
{
    let name = proc.name.copy()?;
    beside(name, copied_items(alloc, proc.params.as_slice()))
}

/// The name of a program and the names in its `var`. An error is want of memory.
fn names(alloc: Global, tree: &Tree) -> Result<(Text, Items<Text>), AllocError>
    ensures name { IfOk result (λ r. r.0 ≡ tree.now.name) }
    ensures vars { IfOk result (λ r. r.1 ≡ var_names tree.now.vars) }
{
    let name = tree.name.copy()?;
    beside(name, vars(alloc, tree.vars.as_slice()))
}

impl Elaborator<'_> {
    /// What the statements of a body become, whose formers are counted from 1. An error is want of memory.
    fn body(&mut self, xs: &[TreeStmt]) -> Result<Items<Stmt>, AllocError>
        ensures value { IfOk result (λ b. plain_block b ≡ body_of xs.now self.old.scope) }
        ensures state { OnOk result (self.new.scope ≡ self.old.scope) }
    {
        self.opened = Opened::none();
        self.stmts(xs)
    }

    /// What the procedure becomes that has the next body. An error is want of memory.
    fn procedure(&mut self, proc: &Proc) -> Result<Procedure, AllocError>
        ensures value { IfOk result (λ p. plain_procedure p ≡ procedure_of_tree self.old.scope (suc self.old.scope.body) proc.now) }
        ensures state { OnOk result (self.new.scope ≡ in_body (suc self.old.scope.body) proc.now.params self.old.scope) }
    {
        self.scope.next_body(self.alloc, proc.params.as_slice())?;
        let body = self.body(proc.body.as_slice())?;
        let (body, (name, parameters)) = beside(body, head(self.alloc, proc))?;
        Ok(Procedure {
            name,
            parameters,
            body,
            end_line: proc.end_line,
        })
    }

    /// What the procedures become that have the next bodies. An error is want of memory.
    fn procedures(&mut self, procs: &[Proc]) -> Result<Items<Procedure>, AllocError>
        ensures { IfOk result (λ all. map plain_procedure all ≡ procedures_from self.old.scope (suc self.old.scope.body) procs.now) }
    {
        let mut all = Items::new(self.alloc);
        for proc in procs {
            put(&mut all, self.procedure(proc))?;
        }
        Ok(all)
    }

    /// A declared variable with its mode. An error is want of memory.
    fn declaration(&self, named: NamedMode) -> Result<Declared, AllocError>
        ensures { IfOk result (λ d. (plain_variable d.variable, mode_of d.mode) ≡ declaration_of self.now.scope (named.name, mode_of named.mode)) }
    {
        let NamedMode { name, mode } = named;
        let variable = self.scope.variable(&name);
        let (mode, variable) = beside(mode, variable)?;
        Ok(Declared { variable, mode })
    }

    /// The declared variables with their modes. An error is want of memory.
    fn declared(&self, modes: Items<NamedMode>) -> Result<Items<Declared>, AllocError>
        ensures { IfOk result (λ all. map (λ d. (plain_variable d.variable, mode_of d.mode)) all ≡ map (declaration_of self.now.scope) (map (λ d. (d.name, mode_of d.mode)) modes)) }
    {
        let mut all = Items::new(self.alloc);
        for named in modes.into_vec() {
            put(&mut all, self.declaration(named))?;
        }
        Ok(all)
    }

    /// What a tree becomes, from its main scope. An error is want of memory.
    fn program(&mut self, tree: &Tree, modes: Items<NamedMode>) -> Result<Program, AllocError>
        requires scope { self.now.scope ≡ main_scope tree.now }
        requires modes { map (λ d. (d.name, mode_of d.mode)) modes ≡ variables_of tree.now.modes }
        ensures { IfOk result (λ p. plain_program p ≡ program_of tree.now) }
    {
        let declared = self.declared(modes)?;
        let (declared, main) = beside(declared, self.body(tree.body.as_slice()))?;
        let held = (declared, main);
        let (held, procedures) = beside(held, self.procedures(tree.procs.as_slice()))?;
        let (held, (name, vars)) = beside((held, procedures), names(self.alloc, tree))?;
        let ((declared, main), procedures) = held;
        Ok(Program {
            name,
            vars,
            main,
            end_line: tree.end_line,
            procedures,
            declared,
        })
    }
}

/// The program that a tree means, whose declared variables have these modes, in the order of their declarations. An error is
/// want of memory; 2^32 procedures, or as many formers in one body, are answered so too. No source of 2^24 bytes has them.
pub fn elaborate(alloc: Global, tree: &Tree, modes: Items<NamedMode>) -> Result<Program, AllocError>
    requires { map (λ d. (d.name, mode_of d.mode)) modes ≡ variables_of tree.now.modes }
    ensures { IfOk result (λ p. plain_program p ≡ program_of tree.now) }
{
    let mut walk = Elaborator::main(alloc, tree)?;
    let program = walk.program(tree, modes);
    without(walk, program)
}
