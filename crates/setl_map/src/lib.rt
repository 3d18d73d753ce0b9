//! Maps, as sets of pairs: images, domain and range, puts, and an image that is changed where it stands.
//!
//! A map is a set of pairs, and a pair is a tuple of length two whose first component isn't `om`. Contracts read a map
//! as `Members`, the strictly rising list of its pairs, and state each result by a definition on such lists (`images`,
//! `domain_of`, `put_image` and the like).
#![tactic(auto)]

mod gather;
pub mod laws;
mod maps;
mod pairs;

pub use gather::gathered;
pub use maps::{add_image, change_image, domain, image, images, lessf, put, put_all, range};
pub use pairs::parts;
use std::alloc::AllocError;

/// Why a map call gave no result.
#[derive(Clone, Copy, Debug, PartialEq, Eq)]
pub enum MapFault {
    /// A member of the set is no pair.
    Kind,
    /// The map would be more than 500 deep.
    Deep,
    /// Memory was refused.
    NoMemory,
}

impl From<AllocError> for MapFault {
    ghost use Rattle.std.specs.Prelude.{◌≡◌};
    ghost use Rattle.setl_map.specs.declared.MapFault.TheVariants.{NoMemory};

    ghost from_gives = { λ _ e. e ≡ NoMemory };

    fn from(_e: AllocError) -> MapFault {
        MapFault::NoMemory
    }
}
