//! The values of SETL (booleans, integers, strings, atoms, tuples and sets), their canonical order, and the shared
//! bodies of tuples and sets.
//!
//! Contracts see a value as a `Datum`, plain data with no owner and no place: `datum v` is what the value `v` stands
//! for. A tuple is a list of components that doesn't end in `om`, a set a strictly rising list of members in the
//! canonical order `datum_cmp`. Integers are from -2^127 to 2^127 - 1, a string has no byte 10, an atom is a number
//! below 2^64, and a value is at most 500 deep. `IsValue` says all this.
//!
//! The bodies of strings, tuples and sets are shared: a copy takes one more share, and a change copies a list first
//! only where it has other owners.
#![tactic(auto)]

ghost use Rattle.std.specs.Prelude.{◌≡◌, IfOk};
ghost use Rattle.setl_value.specs.WellFormed.{IsValue};
ghost use Rattle.setl_value.specs.Datum.{depth};
ghost use Rattle.setl_value.specs.code.DatumOf.{datum};

mod body;
mod counts;
mod hashing;
pub mod laws;
mod order;
mod parts;
mod places;
mod second;
mod sets;
mod string;
mod tuples;

pub use parts::{copied, copied_part, lend};
pub use places::Cursor;
pub use sets::MemberIter;
use std::alloc::AllocError;
use std::marker::Model;
use std::rc::Rc;
pub use string::Text;

/// A value. `om`, which is no value, is the `None` of an `Option<Value>`.
#[cycle(value)]
#[derive(Drop)]
pub enum Value {
    Bool(bool),
    Int(i128),
    Text(Text),
    Atom(u64),
    Tuple(TupleBody),
    Set(SetBody),
}

/// The members of a set, in a strictly rising list that is cut in shared pages. Contracts read it by `Members`.
#[cycle(value)]
#[derive(Drop)]
pub struct SetBody {
    body: Rc<Pages>,
}

// The pages of a set, each of 1 to 64 members.
#[cycle(value)]
#[derive(Drop)]
pub(crate) struct Pages {
    list: Vec<Rc<Vec<Value>>>,
    count: usize,
    deep: u32,
    // How many members are no pairs, so that a test for a map looks at none.
    others: usize,
}

/// The components of a tuple, each a value or `om`, the last one a value. Contracts see it as that list.
#[cycle(value)]
#[derive(Drop)]
pub struct TupleBody {
    parts: Rc<Vec<Option<Value>>>,
    // Where the components begin in the list. Those before were taken off.
    start: usize,
    deep: u32,
    // The first component where it is an integer that i32 has, so that most pairs are compared without a look at their
    // list, and `NO_LEAD` otherwise.
    lead: i32,
}

impl Model for SetBody {
    ghost use Rattle.std.specs.Prelude.{◌+◌, ◌*◌};
    ghost use Rattle.setl_value.specs.Datum.{set_of, depth};
    ghost use Rattle.setl_value.specs.code.Body.{Body, coded_body, Members};

    ghost Value = { Body };

    ghost coded = { coded_body };

    ghost view = { λ s. s.body.value };

    ghost size = { λ b. 2 * depth (set_of (Members b)) + 1 };

    ghost use Rattle.std.proofs.Common.{arith};

    ghost size_decreases = { λ a h. omega arith };
}

impl Model for Pages {
    ghost use Rattle.std.specs.Prelude.{List, map, ◌*◌};
    ghost use Rattle.setl_value.specs.Datum.{Datum, set_of, depth};
    ghost use Rattle.setl_value.specs.code.Body.{Body, coded_body, Members};

    ghost Value = { Body };

    ghost coded = { coded_body };

    ghost use Rattle.setl_value.specs.code.DatumOf.{page};
    ghost use Rattle.setl_value.specs.code.Counted.{IsCounted};

    ghost view = { λ s. record { pages = map page s.list.items } };

    ghost invariant = { λ s. IsCounted (map page s.list.items) s.count s.deep s.others };

    ghost size = { λ b. 2 * depth (set_of (Members b)) };

    ghost use Rattle.std.proofs.Common.{arith};
    ghost use Rattle.setl_value.specs.code.Falls.{pages_fall};

    ghost size_decreases = { λ a h. omega (arith, pages_fall a.list.items) };
}

impl Model for TupleBody {
    ghost use Rattle.std.specs.Prelude.{List, map, drop, length, Option, ◌≡◌, ◌≤◌, ◌*◌};
    ghost use Rattle.std.specs.Coded.{coded_list, coded_option};
    ghost use Rattle.setl_value.specs.Datum.{Datum, tuple_of, depth};
    ghost use Rattle.setl_value.specs.code.DatumCode.{coded_datum};

    ghost Value = { List (Option Datum) };

    ghost coded = { coded_list (coded_option coded_datum) };

    ghost use Rattle.setl_value.specs.code.DatumOf.{part};
    ghost use Rattle.setl_value.specs.code.Lead.{IsLead};
    ghost use Rattle.setl_value.specs.WellFormed.{IsTupleList};

    ghost view = { λ s. map part (drop s.start s.parts.value.items) };

    // What was taken off isn't deeper than what is left.
    ghost invariant = { λ s. IsTupleList (map part (drop s.start s.parts.value.items)) × (s.deep ≡ depth (tuple_of (map part (drop s.start s.parts.value.items)))) × (depth (tuple_of (map part s.parts.value.items)) ≤ s.deep) × (s.start ≤ length s.parts.value.items) × IsLead s.lead (map part (drop s.start s.parts.value.items)) };

    ghost size = { λ ps. 2 * depth (tuple_of ps) };

    ghost use Rattle.std.proofs.Common.{arith};
    ghost use Rattle.setl_value.specs.code.Falls.{parts_fall};

    ghost size_decreases = { λ a h. omega (arith, parts_fall a.parts.value.items) };
}

impl Value {
    /// 0 for a boolean, an integer, a string or an atom; one more than the greatest depth in a tuple or a set, and 1
    /// if it is empty.
    pub fn depth(&self) -> u32
        ensures { result ≡ depth (datum self.now) }
    {
        match self {
            Value::Tuple(t) => t.depth(),
            Value::Set(s) => s.depth(),
            _ => 0,
        }
    }

    /// The same value, which shares its body. Where memory is refused, nothing was made.
    pub fn copy(&self) -> Result<Value, AllocError>
        ensures same { IfOk result (λ v. v ≡ self.now) }
    {
        match self {
            Value::Bool(b) => Ok(Value::Bool(*b)),
            Value::Int(z) => Ok(Value::Int(*z)),
            Value::Text(t) => Ok(Value::Text(t.copy()?)),
            Value::Atom(n) => Ok(Value::Atom(*n)),
            Value::Tuple(t) => Ok(Value::Tuple(t.copy()?)),
            Value::Set(s) => Ok(Value::Set(s.copy()?)),
        }
    }

    /// Has no effect: it hands a proof what is true of every value, that integers, strings, atoms, tuples and sets
    /// are in their ranges and the depth is at most 500.
    pub fn learn(&self)
        ensures { IsValue (datum self.now) }
    {
        match self {
            Value::Bool(_) => {}
            Value::Int(z) => {
                let _z = *z;
            }
            Value::Text(t) => t.learn(),
            Value::Atom(n) => {
                let _n = *n;
            }
            Value::Tuple(t) => t.learn(),
            Value::Set(s) => s.learn(),
        }
    }
}

/// A clone has the same pages, each shared.
impl Clone for Pages {
    ghost is_clone = { λ v copy. copy ≡ v };

    fn clone(&self) -> Result<Pages, AllocError> {
        Ok(Pages {
            list: self.list.clone()?,
            count: self.count,
            deep: self.deep,
            others: self.others,
        })
    }
}

/// A clone is `copy`.
impl Clone for Value {
    ghost is_clone = { λ v copy. copy ≡ v };

    fn clone(&self) -> Result<Value, AllocError> {
        self.copy()
    }
}
