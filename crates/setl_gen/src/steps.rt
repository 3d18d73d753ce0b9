//! Statements without statements inside.

ghost use Rattle.std.specs.Prelude.{◌≡◌, OnOk};
ghost use Rattle.setl_program.specs.Program.{Assign, Update, AssignParts, TakeFrom, Perform, Return, Print};
ghost use Rattle.setl_program.specs.code.Plain.{plain_variable, plain_slots, plain_place, plain_expr, plain_exprs};
ghost use Rattle.setl_code.specs.Generated as code;
ghost use Rattle.setl_gen_emitter.specs.Emitted.{held, after};

use crate::exprs::{expr, exprs};
use crate::places::{alter, put};
use setl_code::{Alteration, Instr};
use setl_gen_emitter::{Emitter, number, parts};
use setl_operators_table::Operator;
use setl_program::{Expr, Place, Taking, Variable};
use std::alloc::AllocError;

/// A value is put into a place.
pub fn assign<'p>(
    emitter: &mut Emitter<'p>,
    line: u32,
    p: &'p Place,
    e: &'p Expr,
) -> Result<(), AllocError>
    ensures { OnOk result (held emitter.new ≡ after (code.stmt 0 line (Assign (plain_place p.now) (plain_expr e.now))) (held emitter.old)) }
{
    expr(emitter, line, e)?;
    put(emitter, line, p)?;
    Ok(())
}

/// A place is combined with a value.
pub fn update<'p>(
    emitter: &mut Emitter<'p>,
    line: u32,
    o: Operator,
    p: &'p Place,
    e: &'p Expr,
) -> Result<(), AllocError>
    ensures { OnOk result (held emitter.new ≡ after (code.stmt 0 line (Update o (plain_place p.now) (plain_expr e.now))) (held emitter.old)) }
{
    expr(emitter, line, e)?;
    alter(emitter, line, Alteration::Combine(o), p)?;
    Ok(())
}

/// A tuple is taken apart.
pub fn assign_parts<'p>(
    emitter: &mut Emitter<'p>,
    line: u32,
    xs: &'p [Option<Variable>],
    e: &'p Expr,
) -> Result<(), AllocError>
    ensures { OnOk result (held emitter.new ≡ after (code.stmt 0 line (AssignParts (plain_slots xs.now) (plain_expr e.now))) (held emitter.old)) }
{
    expr(emitter, line, e)?;
    parts(emitter, line, xs)?;
    Ok(())
}

/// A part is taken out of a place.
pub fn take_from<'p>(
    emitter: &mut Emitter<'p>,
    line: u32,
    taking: Taking,
    x: &'p Variable,
    p: &'p Place,
) -> Result<(), AllocError>
    ensures { OnOk result (held emitter.new ≡ after (code.stmt 0 line (TakeFrom taking (plain_variable x.now) (plain_place p.now))) (held emitter.old)) }
{
    alter(emitter, line, Alteration::TakeOut(taking), p)?;
    emitter.store(line, x)?;
    Ok(())
}

/// A call whose result is dropped.
pub fn perform<'p>(emitter: &mut Emitter<'p>, line: u32, e: &'p Expr) -> Result<(), AllocError>
    ensures { OnOk result (held emitter.new ≡ after (code.stmt 0 line (Perform (plain_expr e.now))) (held emitter.old)) }
{
    expr(emitter, line, e)?;
    emitter.put(line, Instr::Discard)?;
    Ok(())
}

/// The end of a procedure with a result.
pub fn give_back<'p>(emitter: &mut Emitter<'p>, line: u32, e: &'p Expr) -> Result<(), AllocError>
    ensures { OnOk result (held emitter.new ≡ after (code.stmt 0 line (Return (plain_expr e.now))) (held emitter.old)) }
{
    expr(emitter, line, e)?;
    emitter.put(line, Instr::Return)?;
    Ok(())
}

/// Values are printed.
pub fn print<'p>(emitter: &mut Emitter<'p>, line: u32, es: &'p [Expr]) -> Result<(), AllocError>
    ensures { OnOk result (held emitter.new ≡ after (code.stmt 0 line (Print (plain_exprs es.now))) (held emitter.old)) }
{
    exprs(emitter, line, es)?;
    let count = number(es.len())?;
    emitter.put(line, Instr::Print(count))?;
    Ok(())
}
