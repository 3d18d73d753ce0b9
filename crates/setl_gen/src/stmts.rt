//! Statements.

ghost use Rattle.std.specs.Prelude.{◌≡◌, OnOk};
ghost use Rattle.std.specs.Option.{option_map};
ghost use Rattle.setl_program.specs.Program.{For, While};
ghost use Rattle.setl_program.specs.code.Plain.{plain_expr, plain_iterators, plain_block, plain_stmt, condition_of};
ghost use Rattle.setl_code.specs.Generated as code;
ghost use Rattle.setl_gen_emitter.specs.Emitted.{held, after};
ghost use Rattle.setl_gen.specs.StmtKinds.{plain_kind, looped, IsGuarded, IsBranch, AreBranches};

use crate::exprs::{expr, iterators, tested};
use crate::places::read_all;
use crate::steps::{assign, assign_parts, give_back, perform, print, take_from, update};
use setl_code::Instr;
use setl_gen_emitter::{Emitter, Hole, number, quit};
use setl_program::{Branch, Expr, Iterator, Stmt, StmtKind};
use setl_tree::Items;
use std::alloc::AllocError;

/// Statements in their order, in a loop with so many iterators.
#[cycle(stmt)]
pub fn block<'p>(
    emitter: &mut Emitter<'p>,
    leaves: u32,
    statements: &'p [Stmt],
) -> Result<(), AllocError>
    ensures { OnOk result (held emitter.new ≡ after (code.block leaves (plain_block statements.now)) (held emitter.old)) }
{
    for s in statements {
        stmt(emitter, leaves, s)?;
    }
    Ok(())
}

/// A statement.
#[cycle(stmt)]
fn stmt<'p>(emitter: &mut Emitter<'p>, leaves: u32, s: &'p Stmt) -> Result<(), AllocError>
    ensures { OnOk result (held emitter.new ≡ after (code.stmt leaves (plain_stmt s.now).0 (plain_stmt s.now).1) (held emitter.old)) }
{
    kind(emitter, leaves, s.line, &s.kind)
}

/// What a statement is.
#[cycle(stmt)]
fn kind<'p>(
    emitter: &mut Emitter<'p>,
    leaves: u32,
    line: u32,
    kind: &'p StmtKind,
) -> Result<(), AllocError>
    ensures { OnOk result (held emitter.new ≡ after (code.stmt leaves line (plain_kind kind.now)) (held emitter.old)) }
{
    match kind {
        StmtKind::Assign(p, e) => assign(emitter, line, p, e),
        StmtKind::Update(o, p, e) => update(emitter, line, *o, p, e),
        StmtKind::AssignParts(xs, e) => assign_parts(emitter, line, xs.as_slice(), e),
        StmtKind::TakeFrom(taking, x, p) => take_from(emitter, line, *taking, x, p),
        StmtKind::Perform(e) => perform(emitter, line, e),
        StmtKind::If(c, x, further, y) => {
            let mut overs = Items::new(emitter.alloc);
            guard(emitter, leaves, line, x.as_slice(), c, &mut overs)?;
            branches(emitter, leaves, further.as_slice(), &mut overs)?;
            block(emitter, leaves, y.as_slice())?;
            emitter.close(overs)?;
            Ok(())
        }
        StmtKind::For(is, t, b) => {
            for_loop(emitter, line, b.as_slice(), is.as_slice(), t)?;
            Ok(())
        }
        StmtKind::While(c, b) => {
            while_loop(emitter, line, b.as_slice(), c)?;
            Ok(())
        }
        StmtKind::Quit => quit(emitter, leaves, line),
        StmtKind::Continue => emitter.jump_on(line),
        StmtKind::Fail => emitter.put(line, Instr::Back),
        StmtKind::Succeed => emitter.put(line, Instr::Forget),
        StmtKind::Stop => emitter.put(line, Instr::Stop),
        StmtKind::Pass => Ok(()),
        StmtKind::Return(e) => give_back(emitter, line, e),
        StmtKind::Print(es) => print(emitter, line, es.as_slice()),
        StmtKind::Read(xs) => read_all(emitter, line, xs.as_slice()),
    }
}

/// A condition with the statements that it guards. The jump over the others is put among those that have no target yet.
#[cycle(stmt)]
fn guard<'p>(
    emitter: &mut Emitter<'p>,
    leaves: u32,
    line: u32,
    b: &'p [Stmt],
    c: &'p Expr,
    overs: &mut Items<Hole>,
) -> Result<(), AllocError>
    ensures { OnOk result (IsGuarded leaves line (plain_expr c.now) (plain_block b.now) (held emitter.old) overs.old (held emitter.new) overs.new) }
{
    expr(emitter, line, c)?;
    let test = emitter.step(line, Instr::Unless(0))?;
    block(emitter, leaves, b)?;
    let place = emitter.step(line, Instr::Jump(0))?;
    emitter.unless_here(test, line)?;
    overs.push(Hole { place, line })?;
    Ok(())
}

/// A further condition with the statements that it guards.
#[cycle(stmt)]
fn branch<'p>(
    emitter: &mut Emitter<'p>,
    leaves: u32,
    b: &'p Branch,
    overs: &mut Items<Hole>,
) -> Result<(), AllocError>
    ensures { OnOk result (IsBranch leaves b.now (held emitter.old) overs.old (held emitter.new) overs.new) }
{
    guard(
        emitter,
        leaves,
        b.line,
        b.body.as_slice(),
        &b.condition,
        overs,
    )
}

/// Further conditions with the statements that they guard.
#[cycle(stmt)]
fn branches<'p>(
    emitter: &mut Emitter<'p>,
    leaves: u32,
    branches: &'p [Branch],
    overs: &mut Items<Hole>,
) -> Result<(), AllocError>
    ensures { OnOk result (AreBranches leaves branches.now (held emitter.old) overs.old (held emitter.new) overs.new) }
{
    for b in branches {
        branch(emitter, leaves, b, overs)?;
    }
    Ok(())
}

/// The statements of a loop that goes on at a place.
#[cycle(stmt)]
fn rounds<'p>(
    emitter: &mut Emitter<'p>,
    line: u32,
    again: u32,
    leaves: u32,
    b: &'p [Stmt],
) -> Result<(), AllocError>
    ensures { OnOk result (held emitter.new ≡ after (looped line again leaves (plain_block b.now)) (held emitter.old)) }
{
    let around = emitter.go_on_at(again);
    block(emitter, leaves, b)?;
    emitter.go_on_at(around);
    emitter.put(line, Instr::Jump(again))?;
    Ok(())
}

/// A loop over members.
#[cycle(stmt)]
fn for_loop<'p>(
    emitter: &mut Emitter<'p>,
    line: u32,
    b: &'p [Stmt],
    is: &'p [Iterator],
    t: &'p Option<Expr>,
) -> Result<(), AllocError>
    ensures { OnOk result (held emitter.new ≡ after (code.stmt 0 line (For (plain_iterators is.now) (condition_of (option_map plain_expr t.now)) (plain_block b.now))) (held emitter.old)) }
{
    let outer = emitter.enter();
    let (first, innermost) = iterators(emitter, line, is)?;
    condition(emitter, line, t, innermost)?;
    let levels = number(is.len())?;
    rounds(emitter, line, innermost, levels, b)?;
    emitter.next_here(first, line)?;
    let inner = emitter.leave(outer);
    let end = emitter.here()?;
    emitter.fill_all(inner, end);
    Ok(())
}

/// A condition that goes back where it doesn't hold.
fn condition<'p>(
    emitter: &mut Emitter<'p>,
    line: u32,
    t: &'p Option<Expr>,
    back: u32,
) -> Result<(), AllocError>
    ensures { OnOk result (held emitter.new ≡ after (code.condition line (condition_of (option_map plain_expr t.now)) back) (held emitter.old)) }
{
    match t {
        None => Ok(()),
        Some(c) => tested(emitter, line, c, back),
    }
}

/// A loop while a condition holds.
#[cycle(stmt)]
fn while_loop<'p>(
    emitter: &mut Emitter<'p>,
    line: u32,
    b: &'p [Stmt],
    c: &'p Expr,
) -> Result<(), AllocError>
    ensures { OnOk result (held emitter.new ≡ after (code.stmt 0 line (While (plain_expr c.now) (plain_block b.now))) (held emitter.old)) }
{
    let outer = emitter.enter();
    let start = emitter.here()?;
    expr(emitter, line, c)?;
    let test = emitter.step(line, Instr::Unless(0))?;
    emitter.put(line, Instr::Round)?;
    rounds(emitter, line, start, 0, b)?;
    emitter.unless_here(test, line)?;
    let inner = emitter.leave(outer);
    let end = emitter.here()?;
    emitter.fill_all(inner, end);
    Ok(())
}
