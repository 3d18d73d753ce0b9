//! Bodies, and the code of a program.

ghost use Rattle.std.specs.Prelude.{◌≡◌, ◌++◌, IfOk, OnOk, map};
ghost use Rattle.setl_model_runs.specs.Variable as run;
ghost use Rattle.setl_program.specs.code.Plain.{plain_block, plain_procedure, plain_program};
ghost use Rattle.setl_code.specs.CodeOf as code;
ghost use Rattle.setl_code.specs.Plain.{plain_body, plain_bodies, plain_code};
ghost use Rattle.setl_gen_emitter.specs.Emitted.{held};
ghost use Rattle.setl_gen.specs.Bodies.{table_of, blank, finished};

use crate::found::{self, Found};
use crate::stmts;
use setl_code::{Body, Code, Instr};
use setl_gen_emitter::{Emitter, Names, number};
use setl_program::{Procedure, Program, Stmt};
use setl_tree::{Items, Param, Text, copied_items};
use std::alloc::{AllocError, Global};
use std::mem;

/// Begins the body of a number: it has these parameters, and the names in these statements.
fn begin<'p>(
    emitter: &mut Emitter<'p>,
    body: u32,
    parameters: &'p [Param],
    statements: &'p [Stmt],
) -> Result<(), AllocError>
    ensures { OnOk result (held emitter.new ≡ blank (table_of emitter.old.names.vars body parameters.now (plain_block statements.now))) }
{
    emitter.names.begin(body, parameters)?;
    let mut all = Found::new(emitter.alloc);
    found::block(statements, &mut all)?;
    emitter.names.note_all(all.as_slice())?;
    emitter.steps = Vec::new(emitter.alloc);
    emitter.exits = Items::new(emitter.alloc);
    emitter.again = 0;
    Ok(())
}

/// The body that was emitted.
fn finish(emitter: &mut Emitter<'_>, name: &Text) -> Result<Body, AllocError>
    ensures body { IfOk result (λ b. plain_body (map run.Global emitter.old.names.vars) emitter.old.names.body b ≡ finished name.now emitter.old.names (held emitter.old)) }
    ensures vars { emitter.new.names ≡ emitter.old.names }
{
    let parameters = copied_items(emitter.alloc, emitter.names.parameters())?;
    let name = name.copy()?;
    let names = emitter.names.names()?;
    let steps = mem::replace(&mut emitter.steps, Vec::new(emitter.alloc));
    Ok(Body {
        name,
        parameters,
        names,
        steps: Items::from_vec(steps),
    })
}

/// The body of the main program.
fn main_body<'p>(emitter: &mut Emitter<'p>, p: &'p Program) -> Result<Body, AllocError>
    ensures body { IfOk result (λ b. plain_body (map run.Global emitter.old.names.vars) 0 b ≡ code.main_body (plain_program p.now)) }
    ensures vars { OnOk result (emitter.new.names.vars ≡ emitter.old.names.vars) }
{
    let statements = p.main.as_slice();
    begin(emitter, 0, &[], statements)?;
    stmts::block(emitter, 0, statements)?;
    emitter.put(p.end_line, Instr::Stop)?;
    finish(emitter, &p.name)
}

/// The body of a procedure, by its number.
fn procedure_body<'p>(
    emitter: &mut Emitter<'p>,
    n: u32,
    p: &'p Procedure,
) -> Result<Body, AllocError>
    ensures body { IfOk result (λ b. plain_body (map run.Global emitter.old.names.vars) n b ≡ code.procedure_body (plain_procedure p.now)) }
    ensures vars { OnOk result (emitter.new.names.vars ≡ emitter.old.names.vars) }
{
    let statements = p.body.as_slice();
    begin(emitter, n, p.parameters.as_slice(), statements)?;
    stmts::block(emitter, 0, statements)?;
    emitter.put(p.end_line, Instr::Undefined)?;
    emitter.put(p.end_line, Instr::Return)?;
    finish(emitter, &p.name)
}

/// The bodies of procedures, behind the bodies that are there.
fn procedures<'p>(
    emitter: &mut Emitter<'p>,
    ps: &'p [Procedure],
    bodies: &mut Items<Body>,
) -> Result<(), AllocError>
    ensures { OnOk result (plain_bodies (map run.Global emitter.old.names.vars) 0 bodies.new ≡ plain_bodies (map run.Global emitter.old.names.vars) 0 bodies.old ++ map code.procedure_body (map plain_procedure ps.now)) }
{
    for p in ps {
        let n = number(bodies.len())?;
        let body = procedure_body(emitter, n, p)?;
        bodies.push(body)?;
    }
    Ok(())
}

/// The code of a program: the plain code that it stands for is that of the plain program.
///
/// The error is want of memory. It is also the answer where none was refused, but a number in the code would be 2^32 or
/// more: of the steps or variables of a body, of the bodies, or of the parts of an expression. In a source of at most 2^24
/// bytes only the steps could be so many, 256 for each byte. And it is the answer where the program has a variable without
/// a slot or an iteration without an iterator, which formed and placed programs don't.
pub fn emit(alloc: Global, program: &Program) -> Result<Code, AllocError>
    ensures { IfOk result (λ c. plain_code c ≡ code.code_of (plain_program program.now)) }
{
    let names = Names::new(alloc, program.vars.as_slice())?;
    let mut emitter = Emitter {
        alloc,
        names,
        steps: Vec::new(alloc),
        exits: Items::new(alloc),
        again: 0,
    };
    let mut bodies = Items::new(alloc);
    let body = main_body(&mut emitter, program)?;
    bodies.push(body)?;
    procedures(&mut emitter, program.procedures.as_slice(), &mut bodies)?;
    let vars = copied_items(alloc, program.vars.as_slice())?;
    Ok(Code { vars, bodies })
}
