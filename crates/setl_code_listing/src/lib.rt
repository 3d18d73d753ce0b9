//! The text of code: `listing` writes what the definition `listing` of `setl_code` says of the plain code that the
//! code stands for.
#![tactic(auto)]

mod instructions;
mod names;
mod texts;
mod words;

ghost use Rattle.std.specs.Prelude.{◌≡◌, ◌++◌, ◌∷◌, [], codes, decimal, IfOk, OnOk};
ghost use Rattle.setl_code.specs.Listing.{body_text, instr_text, listing, steps_text};
ghost use Rattle.setl_code.specs.Plain.{plain_code, plain_instr};
ghost use Rattle.setl_code_listing.specs.Parts.{bodies_of, body_of, variables_of};

use crate::instructions::push_instr;
use crate::texts::push_word;
use setl_code::{Body, Code, Step};
use setl_text::push_decimal;
use std::alloc::{AllocError, Global};

/// The text of code: for each body, the main program's first, a line `main:` or `proc NAME:`, and below it a line for
/// each step, with the number of the step in its body, from 0, and its instruction. It takes time and memory in
/// proportion to the code and its text. The error is want of memory.
pub fn listing(alloc: Global, code: &Code) -> Result<Vec<u8>, AllocError>
    ensures { IfOk result (λ t. t.items ≡ listing (plain_code code.now)) }
{
    let mut into = Vec::new(alloc);
    push_bodies(&mut into, code)?;
    Ok(into)
}

// Adds all bodies.
fn push_bodies(into: &mut Vec<u8>, code: &Code) -> Result<(), AllocError>
    ensures { OnOk result (into.new.items ≡ into.old.items ++ listing (plain_code code.now)) }
{
    let bodies = code.bodies.as_slice();
    if bodies.is_empty() {
        return Ok(());
    }
    push_word(into, "main:\n")?;
    push_steps(into, code, &bodies[0])?;
    for n in 1..bodies.len() {
        push_procedure(into, code, &bodies[n])?;
    }
    Ok(())
}

// Adds the body of a procedure.
fn push_procedure(into: &mut Vec<u8>, code: &Code, body: &Body) -> Result<(), AllocError>
    ensures { OnOk result (into.new.items ≡ into.old.items ++ body_text (bodies_of code.now) (codes "proc " ++ body.now.name ++ 58 ∷ []) (body_of code.now body.now)) }
{
    push_word(into, "proc ")?;
    into.extend_from_slice(body.name.bytes())?;
    push_word(into, ":\n")?;
    push_steps(into, code, body)
}

// Adds the steps of a body.
fn push_steps(into: &mut Vec<u8>, code: &Code, body: &Body) -> Result<(), AllocError>
    ensures { OnOk result (into.new.items ≡ into.old.items ++ steps_text (bodies_of code.now) 0 (body_of code.now body.now).steps) }
{
    let steps = body.steps.as_slice();
    for at in 0..steps.len() {
        push_step(into, code, body, at, &steps[at])?;
    }
    Ok(())
}

// Adds the line of a step.
fn push_step(
    into: &mut Vec<u8>,
    code: &Code,
    body: &Body,
    at: usize,
    step: &Step,
) -> Result<(), AllocError>
    ensures { OnOk result (into.new.items ≡ into.old.items ++ (decimal at ++ 32 ∷ instr_text (bodies_of code.now) (plain_instr (variables_of code.now body.now) step.now.what) ++ 10 ∷ [])) }
{
    push_decimal(into, at as u64)?;
    into.push(b' ')?;
    push_instr(into, code, body, &step.what)?;
    into.push(b'\n')?;
    Ok(())
}
