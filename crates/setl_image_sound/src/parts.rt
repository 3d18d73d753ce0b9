//! Counts, and the parts of an image: its bodies, one by one.

ghost use Rattle.std.specs.Prelude.{◌≡◌, ◌↔◌, ◌<◌, ◌^◌, ℕ, List, length, map, IsTrue, IfOk, Some};
ghost use Rattle.setl_code.specs.Code as plain;
ghost use Rattle.setl_code.specs.MayRun.{Differ};
ghost use Rattle.setl_code.specs.Plain.{own_variables, plain_code, plain_step, Variables};
ghost use Rattle.setl_image.specs.Views.{image_of};
ghost use Rattle.setl_image_operands.specs.Operands.{signature_of};
ghost use Rattle.setl_live.specs.Slots.{TellsDeclared};
ghost use Rattle.setl_image_sound.specs.Counts.{few_in, few_of, is_bare};
ghost use Rattle.setl_image_sound.specs.SoundImage.{HasHeights, HasTable, SoundPart, declared_of};

use setl_code::{Body, Code};
use setl_image::Image;
use setl_image_closed::is_closed;
use setl_image_names::own_names_differ;
use setl_image_operands::{Signature, has_shapes};
use setl_image_verify::falling_heights;
use setl_live::takes_are_last;
use std::alloc::{AllocError, Global};

/// Whether an image has bodies, few enough of everything, and no parameters of its main program.
pub(crate) fn are_few(image: &Image) -> bool
    ensures { result ≡ few_in image.now.code image.now.modes }
{
    let bodies = image.code.bodies.len();
    let vars = image.code.vars.len();
    let declared = image.modes.vars.len();
    let bases = image.modes.bases.len();
    0 < bodies
        && bodies < 1 << 32
        && vars < 1 << 32
        && declared < 1 << 32
        && bases < 1 << 32
        && is_bare(&image.code)
}

// Whether the main program has no parameters.
fn is_bare(code: &Code) -> bool
    ensures { result ≡ is_bare code.now.bodies }
{
    match code.bodies.as_slice().first() {
        None => true,
        Some(main) => main.parameters.is_empty(),
    }
}

// Whether a body has few enough steps and variables.
fn has_few(body: &Body) -> bool
    ensures { result ≡ few_of body.now }
{
    let parameters = body.parameters.len() as u128;
    let names = body.names.len() as u128;
    body.steps.len() < 1 << 32 && parameters + names < 1 << 32
}

/// Whether a body of this number is one of a sound image. `calls` are the signatures of all bodies, and `table` tells which
/// own slots of the main program are declared.
pub(crate) fn is_part(
    alloc: Global,
    image: &Image,
    calls: &[Signature],
    n: usize,
    body: &Body,
    table: &[bool],
) -> Result<bool, AllocError>
    requires calls { calls.now ≡ map signature_of (plain_code image.now.code).bodies }
    requires table { n ≡ 0 → TellsDeclared (declared_of (image_of image.now)) (Some body.now) table.now }
    ensures { IfOk result (λ so. IsTrue so ↔ SoundPart image.now.code (declared_of (image_of image.now)) n body.now) }
{
    if !has_few(body) {
        return Ok(false);
    }
    if !is_closed(&image.code, n, body) {
        return Ok(false);
    }
    let differ = own_differ(alloc, body)?;
    if !differ {
        return Ok(false);
    }
    let last = takes_are_last(alloc, n, body, table)?;
    if !last {
        return Ok(false);
    }
    let falls = has_heights(alloc, body)?;
    if !falls {
        return Ok(false);
    }
    has_table(alloc, calls, body)
}

// Whether the variables of a body differ.
fn own_differ(alloc: Global, body: &Body) -> Result<bool, AllocError>
    ensures { (n : ℕ) → IfOk result (λ so. IsTrue so ↔ Differ (own_variables n body.now.parameters body.now.names)) }
{
    own_names_differ(alloc, body.parameters.as_slice(), body.names.as_slice())
}

// Whether each way round in a body takes a turn.
fn has_heights(alloc: Global, body: &Body) -> Result<bool, AllocError>
    requires few { length body.now.steps < 2 ^ 32 }
    ensures { (xs : Variables) → IfOk result (λ so. IsTrue so ↔ HasHeights (map (plain_step xs) body.now.steps)) }
{
    let found = falling_heights(alloc, body.steps.as_slice())?;
    Ok(found.is_some())
}

// Whether the steps of a body have a table of shapes.
fn has_table(alloc: Global, calls: &[Signature], body: &Body) -> Result<bool, AllocError>
    requires few { length body.now.steps < 2 ^ 32 }
    ensures { (bodies : List plain.Body) (xs : Variables) → calls.now ≡ map signature_of bodies → IfOk result (λ so. IsTrue so ↔ HasTable bodies (map (plain_step xs) body.now.steps)) }
{
    has_shapes(alloc, calls, body.steps.as_slice())
}
