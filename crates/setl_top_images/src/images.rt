//! The images of code files.

ghost use Rattle.std.specs.Prelude.{◌≡◌, ◌≤◌, ◌<◌, ◌^◌, ◌++◌, ◌∷◌, [], length, IfOk, MatchOption};
ghost use Rattle.setl_image.specs.Views.{image_of};
ghost use Rattle.setl_image_codec.specs.Codec.{Spells};
ghost use Rattle.setl_image_format.specs.ImageCodec as spec;
ghost use Rattle.setl_top_images.specs.CodeFiles.{IsCodeFile, TellsFlaw, flaw_line};

use setl_image::{Image, ImageFault, decode, encode};
use setl_image_sound::{VerifyFault, verify};
use setl_image_spelled::has_spelling;
use std::alloc::{AllocError, Global};

/// The greatest number of bytes of a code file.
pub const MOST_BYTES: u64 = 1 << 26;

/// Why bytes are no code file, in the order in which it is told.
#[derive(Clone, Copy, Debug, PartialEq, Eq)]
pub enum Flaw {
    /// They are more than 2^26.
    TooLong,
    /// They spell no image.
    Bad,
    /// They spell an image that isn't sound.
    Unsound,
}

/// Why bytes weren't read.
#[derive(Clone, Copy, Debug, PartialEq, Eq)]
pub enum Unread {
    /// They are no code file.
    Flawed(Flaw),
    /// Memory was refused.
    NoMemory,
}

impl From<AllocError> for Unread {
    ghost use Rattle.std.specs.Prelude.{◌≡◌};
    ghost use Rattle.setl_top_images.specs.declared.images.Unread.TheVariants.{NoMemory};

    ghost from_gives = { λ _ e. e ≡ NoMemory };

    fn from(_e: AllocError) -> Unread {
        Unread::NoMemory
    }
}

/// The line that tells a flaw, with its line feed.
pub fn flaw_line(flaw: Flaw) -> &'static [u8]
    ensures { result.now ≡ flaw_line flaw ++ 10 ∷ [] }
{
    match flaw {
        Flaw::TooLong => b"image too long\n",
        Flaw::Bad => b"bad image\n",
        Flaw::Unsound => b"unsound code\n",
    }
}

/// The image of a code file with at most 2^26 bytes, or their flaw, where they are none.
pub fn read_image(alloc: Global, bytes: &[u8]) -> Result<Image, Unread>
    requires { length bytes.now ≤ 2 ^ 26 }
    ensures image { IfOk result (λ i. IsCodeFile bytes.now (image_of i)) }
    ensures flaw { TellsFlaw bytes.now result }
{
    let image = match decode(alloc, bytes) {
        Ok(image) => image,
        Err(ImageFault::Bad) => return Err(Unread::Flawed(Flaw::Bad)),
        Err(ImageFault::NoMemory) => return Err(Unread::NoMemory),
    };
    match verify(alloc, &image) {
        Ok(()) => Ok(image),
        Err(VerifyFault::Unsound) => Err(Unread::Flawed(Flaw::Unsound)),
        Err(VerifyFault::NoMemory) => Err(Unread::NoMemory),
    }
}

/// The bytes of the code file of an image, or none where its spelling has more than 2^26 bytes.
///
/// The error is want of memory, or that the image has no spelling or isn't sound.
pub fn image_text(alloc: Global, image: &Image) -> Result<Option<Vec<u8>>, AllocError>
    ensures { IfOk result (λ text. MatchOption text (spec.image.Fits (image_of image.now) × (2 ^ 26 < length (spec.image.write (image_of image.now)))) (λ bytes. IsCodeFile bytes.items (image_of image.now))) }
{
    if !has_spelling(image) {
        return Err(AllocError);
    }
    let bytes = encode(alloc, image)?;
    if bytes.len() as u64 > MOST_BYTES {
        return Ok(None);
    }
    match verify(alloc, image) {
        Ok(()) => Ok(Some(bytes)),
        Err(_) => Err(AllocError),
    }
}
