//! Whether all bodies of an image are sound.

ghost use Rattle.std.specs.Prelude.{◌≡◌, ◌↔◌, List, [], map, slice_get, IsTrue, IfOk};
ghost use Rattle.setl_model_runs.specs.Variable.{Variable};
ghost use Rattle.setl_code.specs.Plain.{plain_code};
ghost use Rattle.setl_image_operands.specs.Operands.{signature_of};
ghost use Rattle.setl_image.specs.Views.{image_of};
ghost use Rattle.setl_live.specs.Slots.{OnlyMain, TellsDeclared, with_all_main};
ghost use Rattle.setl_image_sound.specs.SoundImage.{SoundParts, declared_of};

use crate::parts::is_part;
use setl_code::Body;
use setl_image::Image;
use setl_image_operands::{Signature, signatures};
use setl_live::declared_among;
use setl_names::Names;
use std::alloc::{AllocError, Global};

/// Whether all bodies are those of a sound image. `own` are the names of the declared variables that are the main program's
/// own.
pub(crate) fn are_sound(alloc: Global, image: &Image, own: &Names) -> Result<bool, AllocError>
    requires own { own.now ≡ with_all_main [] (declared_of (image_of image.now)) }
    ensures { IfOk result (λ so. IsTrue so ↔ SoundParts image.now.code (declared_of (image_of image.now))) }
{
    let bodies = image.code.bodies.as_slice();
    let calls = signatures(alloc, bodies)?;
    let table = main_table(alloc, bodies, own)?;
    all_are_sound(alloc, image, bodies, &calls, &table)
}

// Which own slots of the main program are declared.
fn main_table(alloc: Global, bodies: &[Body], own: &Names) -> Result<Vec<bool>, AllocError>
    ensures { (declared : List Variable) → OnlyMain declared → own.now ≡ with_all_main [] declared → IfOk result (λ table. TellsDeclared declared (slice_get bodies.now 0) table.items) }
{
    match bodies.first() {
        None => Ok(Vec::new(alloc)),
        Some(main) => declared_among(alloc, own, main),
    }
}

// The same, where these are the signatures of the bodies and the table.
fn all_are_sound(
    alloc: Global,
    image: &Image,
    bodies: &[Body],
    calls: &[Signature],
    table: &[bool],
) -> Result<bool, AllocError>
    requires bodies { bodies.now ≡ image.now.code.bodies }
    requires calls { calls.now ≡ map signature_of (plain_code image.now.code).bodies }
    requires table { TellsDeclared (declared_of (image_of image.now)) (slice_get image.now.code.bodies 0) table.now }
    ensures { IfOk result (λ so. IsTrue so ↔ SoundParts image.now.code (declared_of (image_of image.now))) }
{
    'bodies: for n in 0..bodies.len() {
        if !is_part(alloc, image, calls, n, &bodies[n], table)? {
            return Ok(false);
        }
    }
    Ok(true)
}
