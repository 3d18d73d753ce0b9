//! No operand is ever missing or of a wrong kind.

ghost use Rattle.std.specs.Prelude.{◌≡◌, ◌<◌, ◌^◌, ℕ, List, length, map, slice_get, IfOk};
ghost use Rattle.setl_model_runs.specs.Variable.{Variable};
ghost use Rattle.setl_program.specs.ProgramOf.{parameter_of};
ghost use Rattle.setl_code.specs.Code as plain;
ghost use Rattle.setl_code.specs.Plain.{plain_bodies, plain_step, Variables};
ghost use Rattle.setl_code.specs.Shapes.{handed, one_more};
ghost use Rattle.setl_image_operands.specs.Operands.{HasShapes, alter_effect, call_effect, effect_at, effect_of, iterator_of, signature_of};

use setl_code::{Alteration, Begin, Body, Instr, Step};
use setl_image_shapes::{Effect, Kind, has_table};
use setl_tree::{Param, Passing};
use std::alloc::{AllocError, Global};

/// How many results a call of a body pops, and how many parameters are handed back.
#[derive(Clone, Copy)]
pub struct Signature {
    pub popped: u32,
    pub back: u32,
}

/// The signatures of bodies. The error is want of memory. It is also the answer where a body has 2^32 parameters.
pub fn signatures(alloc: Global, bodies: &[Body]) -> Result<Vec<Signature>, AllocError>
    ensures { (vars : List Variable) (n : ℕ) → IfOk result (λ calls. calls.items ≡ map signature_of (plain_bodies vars n bodies.now)) }
{
    let mut calls = Vec::with_capacity(alloc, bodies.len())?;
    for body in bodies {
        calls.push(signature_from(body.parameters.as_slice())?)?;
    }
    Ok(calls)
}

/// Whether the steps of a body have a table of shapes, which tells the kinds of the operands at each step that is reached:
/// none lacks one. `calls` has the signatures of all bodies.
///
/// The error is want of memory. It is also the answer where an instruction has 2^32 selectors.
pub fn has_shapes(alloc: Global, calls: &[Signature], steps: &[Step]) -> Result<bool, AllocError>
    requires few { length steps.now < 2 ^ 32 }
    ensures { (bodies : List plain.Body) (xs : Variables) → calls.now ≡ map signature_of bodies → IfOk result (λ so. HasShapes so bodies (map (plain_step xs) steps.now)) }
{
    let effects = effects(alloc, calls, steps)?;
    has_table(alloc, &effects)
}

// The signature of a body with these parameters.
fn signature_from(params: &[Param]) -> Result<Signature, AllocError>
    ensures { IfOk result (λ s. s ≡ record { popped = length params.now; back = handed (map parameter_of params.now) }) }
{
    let popped = narrow(params.len())?;
    let back = handed_back(params)?;
    Ok(Signature { popped, back })
}

// How many parameters are handed back.
#[tactic(auto, using(crate::proofs::Linking::handed_next))]
fn handed_back(params: &[Param]) -> Result<u32, AllocError>
    ensures { IfOk result (λ n. n ≡ handed (map parameter_of params.now)) }
{
    let mut back: u32 = 0;
    for param in params {
        back = one_more(param.passing, back)?;
    }
    Ok(back)
}

// One more where a parameter is handed back.
fn one_more(passing: Passing, n: u32) -> Result<u32, AllocError>
    ensures { IfOk result (λ m. m ≡ one_more passing n) }
{
    match passing {
        Passing::Rd => Ok(n),
        Passing::Wr | Passing::Rw => n.checked_add(1).ok_or(AllocError),
    }
}

// The number in 32 bits.
fn narrow(n: usize) -> Result<u32, AllocError>
    ensures { IfOk result (λ m. m ≡ n) }
{
    if n < 1 << 32 {
        Ok(n as u32)
    } else {
        Err(AllocError)
    }
}

// What the steps do with operands.
fn effects(alloc: Global, calls: &[Signature], steps: &[Step]) -> Result<Vec<Effect>, AllocError>
    ensures { IfOk result (λ effects. effects.items ≡ map (effect_at calls.now) steps.now) }
{
    let mut effects = Vec::with_capacity(alloc, steps.len())?;
    for step in steps {
        effects.push(effect_of(calls, &step.what)?)?;
    }
    Ok(effects)
}

// What an instruction does with operands.
fn effect_of(calls: &[Signature], what: &Instr) -> Result<Effect, AllocError>
    ensures { IfOk result (λ effect. effect ≡ effect_of calls.now what.now) }
{
    let effect = match what {
        Instr::Store(_) | Instr::Discard => Effect::Results(1, 0),
        Instr::Operate(_, n) => Effect::Results(*n, 1),
        Instr::Alter(alteration, _, selectors) => {
            return alter_effect(*alteration, selectors.get().len());
        }
        Instr::Decide(_, to) => Effect::Decides(*to),
        Instr::TestTruth => Effect::Results(1, 1),
        Instr::Unless(to) => Effect::Tests(*to),
        Instr::Jump(to) => Effect::Jumps(*to),
        Instr::Duplicate => Effect::Results(1, 2),
        Instr::Parts(n) => Effect::Results(1, *n),
        Instr::Begin(kind, n) => Effect::Begins(*n, iterator_of(*kind)),
        Instr::Next(to) => Effect::Next(*to),
        Instr::Collect(_) => Effect::Begins(0, Kind::Collection),
        Instr::Add(n) => Effect::Adds(*n),
        Instr::Leave(n) => Effect::Leaves(*n),
        Instr::Round | Instr::Forget => Effect::Results(0, 0),
        Instr::Call(n) => call_effect(calls, *n),
        Instr::Return => Effect::Ends(1),
        Instr::Back | Instr::Stop => Effect::Ends(0),
        Instr::Print(n) => Effect::Results(*n, 0),
        _ => Effect::Results(0, 1),
    };
    Ok(effect)
}

// What an update with so many selectors does with operands.
fn alter_effect(alteration: Alteration, selectors: usize) -> Result<Effect, AllocError>
    ensures { IfOk result (λ effect. effect ≡ alter_effect alteration selectors) }
{
    let count = narrow(selectors)?;
    match alteration {
        Alteration::Put | Alteration::Combine(_) => Ok(Effect::Puts(count)),
        Alteration::TakeOut(_) => Ok(Effect::Results(count, 1)),
    }
}

// What a call of the body of this number does with operands.
fn call_effect(calls: &[Signature], n: u32) -> Effect
    ensures { result ≡ call_effect (slice_get calls.now n) }
{
    match calls.get(n as usize) {
        Some(call) => Effect::Calls(call.popped, call.back),
        None => Effect::Lacks,
    }
}

// The kind of an iterator.
fn iterator_of(begin: Begin) -> Kind
    ensures { result ≡ iterator_of begin }
{
    match begin {
        Begin::Members(_) => Kind::Iterator,
        Begin::Points => Kind::PairIterator,
    }
}
