//! Finite sets of values: membership, adding and removing a member, union, difference, intersection and symmetric
//! difference, and the sets of all subsets.
//!
//! Contracts read a set as `Members`, the strictly rising list of the data that its members stand for. Each result is
//! stated by a definition on such lists (`insert_datum`, `union_of`, `pow_of` and the like), and the module `laws` says
//! of each definition which members it leaves.
#![tactic(auto)]

mod in_place;
pub mod laws;
mod member;
mod merge;
mod power;
mod rising;
mod searching;

pub use in_place::{subtract, unite};
pub use member::{has, less, with};
pub use merge::{meet, minus, symm, union};
pub use power::{npow, pow};
pub use rising::{Rising, subset, walk};
use std::alloc::AllocError;

/// Why a set can't be made.
#[derive(Clone, Copy, Debug, PartialEq, Eq)]
pub enum SetFault {
    /// Its depth would be above 500.
    Deep,
    /// Memory was refused.
    NoMemory,
}

impl From<AllocError> for SetFault {
    ghost use Rattle.std.specs.Prelude.{◌≡◌};
    ghost use Rattle.setl_set.specs.declared.SetFault.TheVariants.{NoMemory};

    ghost from_gives = { λ _ e. e ≡ NoMemory };

    fn from(_e: AllocError) -> SetFault {
        SetFault::NoMemory
    }
}
