//! Bodies and images.

ghost use Rattle.std.specs.Prelude.{◌≡◌, ◌↔◌, IsTrue};
ghost use Rattle.std.specs.List.{list_all};
ghost use Rattle.setl_image_format.specs.ImageCodec as spec;
ghost use Rattle.setl_image.specs.Views.{image_of};
ghost use Rattle.setl_image_spelled.specs.Spelled.{body_fits, image_fits};

use crate::modes::section_fits;
use crate::names::{name_fits, names_fit, own_names_fit, params_fit};
use crate::numbers::is_length;
use crate::steps::steps_fit;
use setl_code::Body;
use setl_image::Image;
use setl_image_modes::bases_are_told;

/// Whether an image has a spelling, so that `encode` can write it.
///
/// It has one where these rules hold. There is a body, and each list, name and string is shorter than 2^32. A name is a
/// letter `a` to `z` and behind it such letters, digits and `_`, and formers are counted from 1. In a mode at most 200 of
/// `set`, `tuple`, `smap` and `mmap` stand inside each other; an `elmt` stands only in a variable's mode, with the number
/// and the mode of a base. A slot is there, with a place below 2^31. An integer is at least 0. An operator is no put and has
/// as many operands as it needs, an iterator begins with as many parts as its source has, and an update has an operator that
/// it may have.
pub fn has_spelling(image: &Image) -> bool
    ensures { IsTrue result ↔ spec.image.Fits (image_of image.now) }
{
    bases_are_told();
    image_fits(image)
}

// Whether an image has a spelling, as the test says.
fn image_fits(image: &Image) -> bool
    ensures { result ≡ image_fits image.now }
{
    let vars = image.code.vars.as_slice();
    let bodies = image.code.bodies.as_slice();
    is_length(vars.len())
        && names_fit(vars)
        && section_fits(&image.modes)
        && !bodies.is_empty()
        && is_length(bodies.len())
        && bodies_fit(vars.len(), bodies)
}

// Whether each of these bodies has a spelling, where all bodies see so many variables.
fn bodies_fit(globals: usize, bodies: &[Body]) -> bool
    ensures { result ≡ list_all (body_fits globals) bodies.now }
{
    for body in bodies {
        if !body_fits(globals, body) {
            return false;
        }
    }
    true
}

// Whether a body has a spelling.
fn body_fits(globals: usize, body: &Body) -> bool
    ensures { result ≡ body_fits globals body.now }
{
    let parameters = body.parameters.as_slice();
    let names = body.names.as_slice();
    let steps = body.steps.as_slice();
    let own = parameters.len() as u128 + names.len() as u128;
    name_fits(&body.name)
        && is_length(parameters.len())
        && params_fit(parameters)
        && is_length(names.len())
        && own_names_fit(names)
        && is_length(steps.len())
        && steps_fit(globals, own, steps)
}
