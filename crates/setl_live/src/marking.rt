//! Steps of a body that become takes.

ghost use Rattle.std.specs.Prelude.{◌≡◌, ◌+◌, ◌<◌, ◌^◌, ℕ, List, get_or, map, length, slice_get, IfOk, OnOk, true, false};
ghost use Rattle.setl_code.specs.MayRun.{StepsFit, BodiesFit, Differ, MayRun};
ghost use Rattle.setl_code.specs.Plain.{own_variables, plain_body, plain_code};
ghost use Rattle.setl_model_runs.specs.Variable.{Variable, Global};
ghost use Rattle.setl_code_marked.specs.Marked.{MarksBody, Marked, declared_in};
ghost use Rattle.setl_program.specs.code.Plain.{plain_declared};
ghost use Rattle.setl_live.specs.Nodes.{own_load, marked_step, AllMarked, MayTake, BodyMarked, BodyBecomes, refused_in, handed, node};
ghost use Rattle.setl_live.specs.Slots.{OnlyMain, TellsDeclared};

use crate::nodes::{handed_back, nodes_of};
use crate::slots::declared_slots;
use setl_code::{Body, Code, Instr, Slot, Step};
use setl_live_reads::last_reads;
use setl_program::Declared;
use setl_tree::Items;
use std::alloc::{AllocError, Global as Allocator};
use std::mem;

/// The own slot that an instruction loads, if it loads one.
fn loaded(what: &Instr) -> Option<u32>
    ensures { result ≡ own_load what.now }
{
    match what {
        Instr::Load(Slot::Own(k)) => Some(*k),
        _ => None,
    }
}

/// What a table says of a slot; behind its end no.
pub(crate) fn is_true(table: &[bool], k: usize) -> bool
    ensures { result ≡ get_or table.now k false }
{
    match table.get(k) {
        Some(is) => *is,
        None => false,
    }
}

/// Makes the load of a last use a take, where its slot isn't refused.
fn mark_step(step: &mut Step, last: bool, refused: &[bool])
    ensures { step.new ≡ marked_step last refused.now step.old }
{
    if !last {
        return;
    }
    let Some(k) = loaded(&step.what) else {
        return;
    };
    if !is_true(refused, k as usize) {
        step.what = Instr::Take(Slot::Own(k));
    }
}

/// Makes the loads of last uses takes.
fn mark_all(steps: &mut [Step], marks: &[bool], refused: &[bool])
    ensures sizes { length steps.new ≡ length steps.old }
    ensures marked { AllMarked marks.now refused.now steps.old steps.new }
{
    'steps: for at in 0..steps.len() {
        mark_step(&mut steps[at], is_true(marks, at), refused);
    }
}

/// The steps, with takes for the loads of last uses.
fn marked_steps(steps: Vec<Step>, marks: &[bool], refused: &[bool]) -> Vec<Step>
    ensures { AllMarked marks.now refused.now steps.items result.items }
{
    let mut steps = steps;
    mark_all(&mut steps, marks, refused);
    steps
}

/// Whether these counts have 32 bits.
pub(crate) fn are_few(steps: usize, parameters: usize, names: usize) -> bool
    ensures { result ≡ true → (steps < 2 ^ 32) × (parameters + names < 2 ^ 32) }
{
    steps < 1 << 32 && parameters < 1 << 31 && names < 1 << 31
}

/// Makes `take` of `load` exactly at the last uses of own slots that aren't refused.
///
/// The error is want of memory. It is also the answer where a number would be 2^32 or more.
pub(crate) fn mark_body(
    alloc: Allocator,
    body: &mut Body,
    refused: &[bool],
) -> Result<(), AllocError>
    requires fits { (g : ℕ) × StepsFit g (length body.old.parameters + length body.old.names) body.old.steps }
    ensures { OnOk result (BodyMarked refused.now body.old body.new) }
{
    if !are_few(body.steps.len(), body.parameters.len(), body.names.len()) {
        return Err(AllocError);
    }
    let nodes = nodes_of(alloc, body.steps.as_slice())?;
    let back = handed_back(alloc, body.parameters.as_slice())?;
    let slots = (body.parameters.len() + body.names.len()) as u32;
    let marks = last_reads(alloc, &nodes, &back, slots)?;
    let steps = mem::replace(&mut body.steps, Items::new(alloc));
    body.steps = Items::from_vec(marked_steps(steps.into_vec(), &marks, refused));
    Ok(())
}

/// The slots of a body that aren't to be taken.
pub(crate) fn refused_of(table: &[bool], n: usize) -> &[bool]
    ensures { result.now ≡ refused_in table.now n }
{
    if n == 0 { table } else { &[] }
}

/// Marks all bodies, the main program's first. The table tells which of its own slots are declared.
fn mark_bodies(alloc: Allocator, bodies: &mut [Body], table: &[bool]) -> Result<(), AllocError>
    requires fits { (g : ℕ) × BodiesFit g 0 bodies.old }
    ensures sizes { length bodies.new ≡ length bodies.old }
    ensures marked { OnOk result ((n : ℕ) → BodyBecomes (refused_in table.now n) (slice_get bodies.old n) (slice_get bodies.new n)) }
{
    'bodies: for n in 0..bodies.len() {
        mark_body(alloc, &mut bodies[n], refused_of(table, n))?;
    }
    Ok(())
}

/// The code with `take` for `load` exactly at the last uses of variables that may be taken. `table` tells which of the main
/// program's own slots are declared.
fn marked_by(alloc: Allocator, code: Code, table: &[bool]) -> Result<Code, AllocError>
    requires { MayRun code }
    ensures may_run { IfOk result MayRun }
    ensures marked { IfOk result (λ m. (declared : List Variable) → OnlyMain declared → TellsDeclared declared (slice_get code.bodies 0) table.now → Marked declared (plain_code code) (plain_code m)) }
{
    let Code { vars, bodies } = code;
    let mut bodies = bodies.into_vec();
    mark_bodies(alloc, &mut bodies, table)?;
    Ok(Code {
        vars,
        bodies: Items::from_vec(bodies),
    })
}

/// The code with `take` for `load` exactly at the last uses of variables that may be taken: not those of the whole program,
/// and none of those that are declared.
///
/// The error is want of memory. It is also the answer where a body has 2^32 steps or more, or 2^31 parameters or names.
pub fn take_marks(alloc: Allocator, code: Code, declared: &[Declared]) -> Result<Code, AllocError>
    requires may_run { MayRun code }
    requires main { OnlyMain (declared_in (map plain_declared declared.now)) }
    ensures may_run { IfOk result MayRun }
    ensures marked { IfOk result (λ m. Marked (declared_in (map plain_declared declared.now)) (plain_code code) (plain_code m)) }
{
    let table = declared_slots(alloc, &code, declared)?;
    marked_by(alloc, code, &table)
}
