//! A value in its form.

ghost use Rattle.std.specs.Prelude.{◌≡◌, IfOk};
ghost use Rattle.setl_rep_forms.specs.FormOf.{form};

use setl_base::Elt;
use setl_remote::{Bits, Slots};
use setl_rep_bases::BaseId;
use setl_sparse::{SparseMap, SparseSet};
use setl_value::Value;
use std::alloc::AllocError;
use std::rc::Rc;

/// A value, or `om`, in a form over bases. Each form but `Om` and `Plain` names the instance of a base, and the truth value of
/// a map says that its images are kept as sets.
#[cycle(held)]
#[derive(Drop)]
pub enum Held {
    Om,
    Plain(Value),
    Elt(BaseId, Elt),
    Remote(BaseId, Bits),
    Sparse(BaseId, Rc<SparseSet>),
    RemoteMap(BaseId, bool, Rc<Slots<Held>>),
    SparseMap(BaseId, bool, Rc<SparseMap<Held>>),
    EltTuple(BaseId, Rc<Vec<Option<Elt>>>),
}

impl Held {
    /// The same value in the same form, which shares its tables.
    pub fn copy(&self) -> Result<Held, AllocError>
        ensures same { IfOk result (λ r. form r ≡ form self.now) }
    {
        match self {
            Held::Om => Ok(Held::Om),
            Held::Plain(v) => Ok(Held::Plain(v.copy()?)),
            Held::Elt(b, e) => Ok(Held::Elt(*b, *e)),
            Held::Remote(b, bits) => Ok(Held::Remote(*b, bits.copy()?)),
            Held::Sparse(b, set) => Ok(Held::Sparse(*b, set.clone()?)),
            Held::RemoteMap(b, many, slots) => Ok(Held::RemoteMap(*b, *many, slots.clone()?)),
            Held::SparseMap(b, many, table) => Ok(Held::SparseMap(*b, *many, table.clone()?)),
            Held::EltTuple(b, list) => Ok(Held::EltTuple(*b, list.clone()?)),
        }
    }
}

/// A clone is `copy`.
impl Clone for Held {
    ghost use Rattle.std.specs.Prelude.{◌≡◌};
    ghost use Rattle.setl_rep_forms.specs.FormOf.{form};

    ghost is_clone = { λ h copy. form copy ≡ form h };

    fn clone(&self) -> Result<Held, AllocError> {
        self.copy()
    }
}
