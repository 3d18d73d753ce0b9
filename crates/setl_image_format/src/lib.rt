//! How code files are spelled, as definitions: the codecs of slots, instructions, modes, bodies and whole images; and the
//! laws of all codecs. No code that runs but the names of the rows of two tables.
//!
//! `IsExact c` says that what the codec `c` spells is read, whatever follows, and that what it reads is spelled so.
#![tactic(auto)]

ghost use Rattle.setl_image_format.specs.CodecClaims.{NumbersAreExact, TextsAreExact};
ghost use Rattle.setl_image_format.specs.Claims.{ImagesAreExact, SmallestIsSpelled};

mod kinds;
mod rows;

pub use kinds::Kind;
pub use rows::Row;

/// Numbers and texts are read exactly where they are spelled.
pub fn numbers_and_texts_are_exact()
    ensures numbers { NumbersAreExact }
    ensures texts { TextsAreExact }
{}

/// An image is read exactly where it is spelled, and has one spelling, with which no other image's begins. The bytes of the
/// smallest program are those of a worked row.
pub fn images_are_exact()
    ensures exact { ImagesAreExact }
    ensures row { SmallestIsSpelled }
{}
