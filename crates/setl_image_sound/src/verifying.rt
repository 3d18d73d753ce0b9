//! Whether an image is sound.

ghost use Rattle.std.specs.Prelude.{◌≡◌, ◌↔◌, [], IsTrue, IfOk, OnOk, MatchOption};
ghost use Rattle.setl_image.specs.Views.{image_of};
ghost use Rattle.std.specs.List.{AllByRecursion};
ghost use Rattle.setl_live.specs.Slots.{with_all_main};
ghost use Rattle.setl_image_names.specs.Once.{StandsOnce, declared_names};
ghost use Rattle.setl_image_sound.specs.SoundImage.{SoundImage, IfUnsound, NamesStand, SoundNames, declared_of, main_names};

use crate::bodies::are_sound;
use crate::parts::are_few;
use setl_code::{Body, OwnName};
use setl_image::Image;
use setl_image_modes::modes_are_sound;
use setl_image_names::{different_modes, different_names, own_declared, stand_once};
use setl_names::Names;
use std::alloc::{AllocError, Global};

/// Why an image isn't verified.
#[derive(Clone, Copy, Debug, PartialEq, Eq)]
pub enum VerifyFault {
    /// It isn't sound.
    Unsound,
    /// Memory ran out.
    NoMemory,
}

impl From<AllocError> for VerifyFault {
    ghost use Rattle.std.specs.Prelude.{◌≡◌};
    ghost use Rattle.setl_image_sound.specs.declared.verifying.VerifyFault.TheVariants.{NoMemory};

    ghost from_gives = { λ _ e. e ≡ NoMemory };

    fn from(_e: AllocError) -> VerifyFault {
        VerifyFault::NoMemory
    }
}

/// Whether an image is sound: `Unsound` exactly where it isn't.
///
/// The other error is want of memory. It is also the answer where an instruction has 2^32 selectors, or a body 2^31
/// parameters or names.
pub fn verify(alloc: Global, image: &Image) -> Result<(), VerifyFault>
    ensures sound { OnOk result (SoundImage (image_of image.now)) }
    ensures unsound { IfUnsound result (SoundImage (image_of image.now) → ⊥) }
{
    let so = is_sound(alloc, image)?;
    if so {
        Ok(())
    } else {
        Err(VerifyFault::Unsound)
    }
}

// The same as a truth value.
fn is_sound(alloc: Global, image: &Image) -> Result<bool, AllocError>
    ensures { IfOk result (λ so. IsTrue so ↔ SoundImage (image_of image.now)) }
{
    if !are_few(image) {
        return Ok(false);
    }
    if !modes_are_sound(&image.modes) {
        return Ok(false);
    }
    let found = sound_names(alloc, image)?;
    match found {
        None => Ok(false),
        Some(own) => are_sound(alloc, image, &own),
    }
}

// The declared names that are the main program's own, or `None` where the names aren't sound.
fn sound_names(alloc: Global, image: &Image) -> Result<Option<Names>, AllocError>
    ensures { IfOk result (λ found. MatchOption found (SoundNames (image_of image.now) → ⊥) (λ own. SoundNames (image_of image.now) × (own ≡ with_all_main [] (declared_of (image_of image.now))))) }
{
    let found = different_names(alloc, image.code.vars.as_slice())?;
    match found {
        None => Ok(None),
        Some(vars) => own_of(alloc, image, &vars),
    }
}

// The same, where the names in `var` differ and are these.
fn own_of(alloc: Global, image: &Image, vars: &Names) -> Result<Option<Names>, AllocError>
    requires vars { vars.now ≡ image.now.code.vars }
    ensures { IfOk result (λ found. MatchOption found (NamesStand (image_of image.now) → ⊥) (λ own. NamesStand (image_of image.now) × (own ≡ with_all_main [] (declared_of (image_of image.now))))) }
{
    let stand = names_stand(alloc, image, vars)?;
    if !stand {
        return Ok(None);
    }
    let own = own_declared(alloc, vars, image.modes.vars.as_slice())?;
    Ok(Some(own))
}

// Whether no base and no variable is declared twice, and each declared name is in `var`, which has these names, or one of the
// main body's own.
fn names_stand(alloc: Global, image: &Image, vars: &Names) -> Result<bool, AllocError>
    requires vars { vars.now ≡ image.now.code.vars }
    ensures { IfOk result (λ so. IsTrue so ↔ NamesStand (image_of image.now)) }
{
    let bases = different_modes(alloc, image.modes.bases.as_slice())?;
    if !bases {
        return Ok(false);
    }
    let vars_differ = different_modes(alloc, image.modes.vars.as_slice())?;
    if !vars_differ {
        return Ok(false);
    }
    all_stand(alloc, image, vars)
}

// Whether each declared name is in `var`, which has these names, or one of the main body's own, and not in both.
fn all_stand(alloc: Global, image: &Image, vars: &Names) -> Result<bool, AllocError>
    ensures { IfOk result (λ so. IsTrue so ↔ AllByRecursion (StandsOnce vars.now (main_names image.now.code.bodies)) (declared_names image.now.modes.vars)) }
{
    let main = main_own(image.code.bodies.as_slice());
    stand_once(alloc, vars, main, image.modes.vars.as_slice())
}

// The own names of the main body.
fn main_own(bodies: &[Body]) -> &[OwnName]
    ensures { result.now ≡ main_names bodies.now }
{
    match bodies.first() {
        None => &[],
        Some(main) => main.names.as_slice(),
    }
}
