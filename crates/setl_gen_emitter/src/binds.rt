//! Stores in the variables that are bound.

ghost use Rattle.std.specs.Prelude.{◌≡◌, OnOk};
ghost use Rattle.std.specs.Option.{option_map};
ghost use Rattle.setl_program.specs.Program.{no_argument};
ghost use Rattle.setl_program.specs.code.Plain.{plain_slots, plain_binding, plain_argument, plain_arguments, plain_iterators, plain_variable};
ghost use Rattle.setl_model.specs.Slots.{variables_in};
ghost use Rattle.setl_model.specs.Iterations.{all_bound, bound_by};
ghost use Rattle.setl_code.specs.Generated as code;
ghost use Rattle.setl_code.specs.Generated.{store_slots, set_by};
ghost use Rattle.setl_gen_emitter.specs.Emitted.{held, after};
ghost use Rattle.setl_gen_emitter.specs.ShortCode.{slot_code, clear_code, set_code};

use crate::emitter::{Emitter, number};
use setl_code::Instr;
use setl_program::{Argument, Binding, Iterator, Variable};
use std::alloc::AllocError;

/// A store in a variable; `None` drops a value.
fn store_one<'p>(
    emitter: &mut Emitter<'p>,
    line: u32,
    x: &'p Option<Variable>,
) -> Result<(), AllocError>
    ensures { OnOk result (held emitter.new ≡ after (slot_code line (option_map plain_variable x.now)) (held emitter.old)) }
{
    match x {
        None => emitter.put(line, Instr::Discard),
        Some(x) => emitter.store(line, x),
    }
}

/// Stores in variables, in their order.
fn store_all<'p>(
    emitter: &mut Emitter<'p>,
    line: u32,
    xs: &'p [Option<Variable>],
) -> Result<(), AllocError>
    ensures { OnOk result (held emitter.new ≡ after (store_slots line (plain_slots xs.now)) (held emitter.old)) }
{
    for x in xs {
        store_one(emitter, line, x)?;
    }
    Ok(())
}

/// A tuple on top is taken apart.
pub fn parts<'p>(
    emitter: &mut Emitter<'p>,
    line: u32,
    xs: &'p [Option<Variable>],
) -> Result<(), AllocError>
    ensures { OnOk result (held emitter.new ≡ after (code.parts line (plain_slots xs.now)) (held emitter.old)) }
{
    let count = number(xs.len())?;
    emitter.put(line, Instr::Parts(count))?;
    store_all(emitter, line, xs)?;
    Ok(())
}

/// The stores of a binding.
pub fn bind<'p>(emitter: &mut Emitter<'p>, line: u32, b: &'p Binding) -> Result<(), AllocError>
    ensures { OnOk result (held emitter.new ≡ after (code.bind line (plain_binding b.now)) (held emitter.old)) }
{
    match b {
        Binding::Member(_, x) => {
            emitter.store(line, x)?;
            Ok(())
        }
        Binding::Components(_, xs) => parts(emitter, line, xs.as_slice()),
        Binding::Point(y, x) => {
            emitter.store(line, x)?;
            emitter.store(line, y)?;
            Ok(())
        }
    }
}

/// The store behind a call in what an argument sets.
#[tactic(auto, using(crate::specs::EmittedLaws::after_nothing))]
fn store_argument<'p>(
    emitter: &mut Emitter<'p>,
    line: u32,
    x: &'p Argument,
) -> Result<(), AllocError>
    ensures { OnOk result (held emitter.new ≡ after (set_code line (plain_argument x.now no_argument)) (held emitter.old)) }
{
    match x {
        Argument::Rd(_) => Ok(()),
        Argument::Wr(x) => emitter.store(line, x),
        Argument::Rw(x) => emitter.store(line, x),
    }
}

/// The stores behind a call.
pub fn store_set<'p>(
    emitter: &mut Emitter<'p>,
    line: u32,
    all: &'p [Argument],
) -> Result<(), AllocError>
    ensures { OnOk result (held emitter.new ≡ after (store_slots line (set_by (plain_arguments all.now))) (held emitter.old)) }
{
    for k in 0..all.len() {
        store_argument(emitter, line, &all[k])?;
    }
    Ok(())
}

/// `om` in a variable, if there is one.
#[tactic(auto, using(crate::specs::EmittedLaws::after_nothing))]
fn clear_one<'p>(
    emitter: &mut Emitter<'p>,
    line: u32,
    x: &'p Option<Variable>,
) -> Result<(), AllocError>
    ensures { OnOk result (held emitter.new ≡ after (clear_code line (option_map plain_variable x.now)) (held emitter.old)) }
{
    match x {
        None => Ok(()),
        Some(x) => emitter.clear(line, x),
    }
}

/// `om` in variables.
fn clear<'p>(
    emitter: &mut Emitter<'p>,
    line: u32,
    xs: &'p [Option<Variable>],
) -> Result<(), AllocError>
    ensures { OnOk result (held emitter.new ≡ after (code.clear line (variables_in (plain_slots xs.now))) (held emitter.old)) }
{
    for x in xs {
        clear_one(emitter, line, x)?;
    }
    Ok(())
}

/// `om` in the variables of a binding.
fn clear_bound<'p>(emitter: &mut Emitter<'p>, line: u32, b: &'p Binding) -> Result<(), AllocError>
    ensures { OnOk result (held emitter.new ≡ after (code.clear line (variables_in (bound_by (plain_binding b.now)))) (held emitter.old)) }
{
    match b {
        Binding::Member(_, x) => {
            emitter.clear(line, x)?;
            Ok(())
        }
        Binding::Components(_, xs) => clear(emitter, line, xs.as_slice()),
        Binding::Point(y, x) => {
            emitter.clear(line, y)?;
            emitter.clear(line, x)?;
            Ok(())
        }
    }
}

/// `om` in the variables of iterators.
pub fn clear_all<'p>(
    emitter: &mut Emitter<'p>,
    line: u32,
    is: &'p [Iterator],
) -> Result<(), AllocError>
    ensures { OnOk result (held emitter.new ≡ after (code.clear line (all_bound (plain_iterators is.now))) (held emitter.old)) }
{
    for i in is {
        clear_bound(emitter, line, &i.binding)?;
    }
    Ok(())
}
