//! Code of a few steps without a part.

ghost use Rattle.std.specs.Prelude.{◌≡◌, OnOk, IfOk, Some};
ghost use Rattle.setl_value.specs.Datum.{bool};
ghost use Rattle.setl_program.specs.Program.{begin_of};
ghost use Rattle.setl_program.specs.code.Plain.{plain_binding, plain_iterators};
ghost use Rattle.setl_model.specs.Iterations as model;
ghost use Rattle.setl_code.specs.Code.{BeginOver, Push, AddBelow, Jump, NextOr, DupTop, Unless, LeaveAll};
ghost use Rattle.setl_code.specs.Piece.{◌⨾◌, one, jumps_out};
ghost use Rattle.setl_code.specs.Generated as code;
ghost use Rattle.setl_gen_emitter.specs.Emitted.{held, here, after};
ghost use Rattle.setl_gen_emitter.specs.ShortCode.{with_end_undecided};

use crate::binds::{bind, clear_all};
use crate::emitter::{Emitter, number};
use crate::hole::Hole;
use setl_code::{Begin, Instr};
use setl_operators_table::Operator;
use setl_program::{Binding, Iterator, Quantifier};
use setl_tree::Items;
use std::alloc::AllocError;

/// What a quantifier is once a member decides it.
fn decided(quantifier: Quantifier) -> bool
    ensures { result ≡ model.decided quantifier }
{
    match quantifier {
        Quantifier::Exists => true,
        Quantifier::Forall => false,
        Quantifier::NotExists => false,
    }
}

/// What a quantifier is where no member decides it.
fn undecided(quantifier: Quantifier) -> bool
    ensures { result ≡ model.undecided quantifier }
{
    match quantifier {
        Quantifier::Exists => false,
        Quantifier::Forall => true,
        Quantifier::NotExists => true,
    }
}

/// A new iterator over the parts of a source, so many.
pub fn begin(
    emitter: &mut Emitter<'_>,
    line: u32,
    b: &Binding,
    parts: u32,
) -> Result<(), AllocError>
    ensures { OnOk result (held emitter.new ≡ after (one line (BeginOver (begin_of (plain_binding b.now)) parts)) (held emitter.old)) }
{
    match b {
        Binding::Member(k, _) => emitter.put(line, Instr::Begin(Begin::Members(*k), parts)),
        Binding::Components(k, _) => emitter.put(line, Instr::Begin(Begin::Members(*k), parts)),
        Binding::Point(_, _) => emitter.put(line, Instr::Begin(Begin::Points, parts)),
    }
}

/// `not`, where a member that a condition doesn't hold for decides a quantifier.
#[tactic(auto, using(crate::specs::EmittedLaws::after_nothing))]
fn negated(emitter: &mut Emitter<'_>, line: u32, quantifier: Quantifier) -> Result<(), AllocError>
    ensures { OnOk result (held emitter.new ≡ after (code.negated line quantifier) (held emitter.old)) }
{
    match quantifier {
        Quantifier::Exists => Ok(()),
        Quantifier::Forall => emitter.put(line, Instr::Operate(Operator::Not, 1)),
        Quantifier::NotExists => Ok(()),
    }
}

/// A member below a condition is kept or dropped, and the next one follows.
pub fn keep_or_drop(emitter: &mut Emitter<'_>, line: u32, next: u32) -> Result<(), AllocError>
    ensures { OnOk result (held emitter.new ≡ after (code.keep_or_drop line next) (held emitter.old)) }
{
    let test = emitter.step(line, Instr::Unless(0))?;
    emitter.put(line, Instr::Add(1))?;
    emitter.put(line, Instr::Jump(next))?;
    emitter.unless_here(test, line)?;
    emitter.put(line, Instr::Discard)?;
    emitter.put(line, Instr::Jump(next))?;
    Ok(())
}

/// A value is added below so many iterators, and the innermost goes on.
pub fn add_and_go_on(
    emitter: &mut Emitter<'_>,
    line: u32,
    levels: usize,
    next: u32,
) -> Result<(), AllocError>
    ensures { OnOk result (held emitter.new ≡ after (one line (AddBelow levels) ⨾ one line (Jump next)) (held emitter.old)) }
{
    let levels = number(levels)?;
    emitter.put(line, Instr::Add(levels))?;
    emitter.put(line, Instr::Jump(next))?;
    Ok(())
}

/// An iterator over the parts of a source, so many, with what it binds; the member stays below. It gives the place of
/// the iterator's next step, whose end has no target yet.
pub fn begin_selection<'p>(
    emitter: &mut Emitter<'p>,
    line: u32,
    b: &'p Binding,
    parts: usize,
) -> Result<u32, AllocError>
    ensures place { IfOk result (λ at. at ≡ here (after (one line (BeginOver (begin_of (plain_binding b.now)) parts)) (held emitter.old))) }
    ensures code { OnOk result (held emitter.new ≡ after (one line (NextOr 0) ⨾ one line DupTop ⨾ code.bind line (plain_binding b.now)) (after (one line (BeginOver (begin_of (plain_binding b.now)) parts)) (held emitter.old))) }
{
    let parts = number(parts)?;
    begin(emitter, line, b, parts)?;
    let next = emitter.step(line, Instr::Next(0))?;
    emitter.put(line, Instr::Duplicate)?;
    bind(emitter, line, b)?;
    Ok(next)
}

/// A member that a condition was tested for decides a quantifier over so many iterators, or the innermost goes on.
pub fn leave_decided(
    emitter: &mut Emitter<'_>,
    line: u32,
    quantifier: Quantifier,
    levels: usize,
    next: u32,
) -> Result<(), AllocError>
    ensures { OnOk result (held emitter.new ≡ after (code.negated line quantifier ⨾ one line (Unless next) ⨾ one line (LeaveAll levels) ⨾ one line (Push (Some (bool (model.decided quantifier)))) ⨾ jumps_out line) (held emitter.old)) }
{
    negated(emitter, line, quantifier)?;
    emitter.put(line, Instr::Unless(next))?;
    leave_with(emitter, line, levels, decided(quantifier))?;
    Ok(())
}

/// So many iterators are left with a truth value.
fn leave_with(
    emitter: &mut Emitter<'_>,
    line: u32,
    levels: usize,
    truth: bool,
) -> Result<(), AllocError>
    ensures { OnOk result (held emitter.new ≡ after (one line (LeaveAll levels) ⨾ one line (Push (Some (bool truth))) ⨾ jumps_out line) (held emitter.old)) }
{
    let levels = number(levels)?;
    emitter.put(line, Instr::Leave(levels))?;
    emitter.put(line, Instr::Truth(truth))?;
    emitter.jump_out(line)?;
    Ok(())
}

/// No member decides a quantifier: its variables are `om`. Behind that the jumps out of it end.
pub fn end_undecided<'p>(
    emitter: &mut Emitter<'p>,
    line: u32,
    quantifier: Quantifier,
    is: &'p [Iterator],
    exits: Items<Hole>,
) -> Result<(), AllocError>
    ensures { OnOk result (held emitter.new ≡ with_end_undecided line quantifier (plain_iterators is.now) exits (held emitter.old)) }
{
    clear_all(emitter, line, is)?;
    emitter.put(line, Instr::Truth(undecided(quantifier)))?;
    let end = emitter.here()?;
    emitter.fill_all(exits, end);
    Ok(())
}

/// The innermost loop, of so many iterators, is left.
pub fn quit(emitter: &mut Emitter<'_>, leaves: u32, line: u32) -> Result<(), AllocError>
    ensures { OnOk result (held emitter.new ≡ after (code.quit line leaves) (held emitter.old)) }
{
    if leaves == 0 {
        emitter.jump_out(line)?;
        Ok(())
    } else {
        emitter.put(line, Instr::Leave(leaves))?;
        emitter.jump_out(line)?;
        Ok(())
    }
}
