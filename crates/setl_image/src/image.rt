//! Images.

ghost use Rattle.std.specs.Prelude.{◌≡◌, ℕ, List, codes, length, IfOk};
ghost use Rattle.setl_code.specs.declared.code.Body.{Body};
ghost use Rattle.setl_image_codec.specs.Codec.{Spells, checked};
ghost use Rattle.setl_image_codec.specs.Given.{Gives};
ghost use Rattle.setl_image_codec.specs.Numbers.{listed};
ghost use Rattle.setl_image_format.specs.ImageCodec as spec;
ghost use Rattle.setl_image_format.specs.ImageCodec.{body, image, some_bodies};
ghost use Rattle.setl_image.specs.Views.{image_of, IfBad};
ghost use Rattle.setl_image.specs.Marks.{strip};

use crate::bodies::{push_bodies, read_all_bodies};
use crate::names::{NameCoder, read_names};
use crate::sections::{push_section, read_section};
use setl_code::{Body, Code};
use setl_image_codec::{ImageFault, push_list};
use setl_modes::ModeTable;
use setl_tree::{Items, Text};
use std::alloc::{AllocError, Global};

/// What a code file holds: code, and the bases and declared variables of its program.
#[derive(Drop)]
pub struct Image {
    pub code: Code,
    pub modes: ModeTable,
}

// The first bytes of each image.
const MARK: &[u8] = b"SETLIMG1";

fn mark() -> &'static [u8]
    ensures { result.now ≡ codes "SETLIMG1" }
{
    MARK
}

/// The bytes that spell an image. The error is want of memory.
#[tactic(auto, using(crate::proofs::Decoding::image_writes, crate::proofs::Decoding::same_items))]
pub fn encode(alloc: Global, image: &Image) -> Result<Vec<u8>, AllocError>
    requires { spec.image.Fits (image_of image.now) }
    ensures { IfOk result (λ bytes. Spells spec.image (image_of image.now) bytes.items) }
{
    let mut bytes = Vec::new(alloc);
    bytes.extend_from_slice(mark())?;
    push_list(&NameCoder {}, &mut bytes, image.code.vars.as_slice())?;
    push_section(&mut bytes, &image.modes)?;
    push_bodies(&mut bytes, &image.code.vars, &image.code.bodies)?;
    Ok(bytes)
}

/// The image that these bytes spell: `Bad` where they spell none. Each image that has a spelling is spelled by one list of
/// bytes, and each list of bytes spells one image at most.
#[tactic(auto, using(crate::proofs::Decoding::found_is_spelled, crate::proofs::Decoding::rest_is_bad, crate::proofs::Decoding::none_is_bad))]
pub fn decode(alloc: Global, bytes: &[u8]) -> Result<Image, ImageFault>
    ensures spelled { IfOk result (λ i. Spells image (image_of i) bytes.now) }
    ensures bad { IfBad result ((i : spec.Image) → Spells image i bytes.now → ⊥) }
{
    setl_image_format::images_are_exact();
    let (found, rest) = read_image(alloc, bytes)?;
    if !rest.is_empty() {
        return Err(ImageFault::Bad);
    }
    Ok(found)
}

// The image at the front, and what stands behind it.
#[tactic(auto, using(crate::proofs::Decoding::image_is_read, crate::proofs::Decoding::image_fails, crate::proofs::Decoding::image_reads, crate::proofs::Decoding::image_lacks))]
fn read_image(alloc: Global, bytes: &[u8]) -> Result<(Image, &[u8]), ImageFault>
    ensures { Gives {Y = spec.Image × List ℕ} (λ x. (image_of x.0, x.1.now)) result (image.read bytes.now) }
{
    let rest = strip(mark(), bytes)?;
    let (vars, rest) = read_names(alloc, rest)?;
    let (modes, rest) = read_section(alloc, rest)?;
    let (bodies, rest) = read_bodies(alloc, &vars, rest)?;
    let code = Code { vars, bodies };
    Ok((Image { code, modes }, rest))
}

// What stands behind a mark.
fn strip<'a>(mark: &[u8], bytes: &'a [u8]) -> Result<&'a [u8], ImageFault>
    ensures { Gives {Y = List ℕ} (λ x. x.now) result (strip mark.now bytes.now) }
{
    let Some((first, others)) = mark.split_first() else {
        return Ok(bytes);
    };
    let Some((b, rest)) = bytes.split_first() else {
        return Err(ImageFault::Bad);
    };
    if b != first {
        return Err(ImageFault::Bad);
    }
    strip(others, rest)
}

// The bodies at the front, at least one, where all bodies see these variables.
fn read_bodies<'a>(
    alloc: Global,
    vars: &Items<Text>,
    bytes: &'a [u8],
) -> Result<(Items<Body>, &'a [u8]), ImageFault>
    ensures { Gives {Y = List Body × List ℕ} (λ x. (x.0, x.1.now)) result ((checked some_bodies (listed (body (length vars.now)))).read bytes.now) }
{
    let (bodies, rest) = read_all_bodies(alloc, vars, bytes)?;
    if bodies.is_empty() {
        return Err(ImageFault::Bad);
    }
    Ok((bodies, rest))
}
