//! What operands hold.

use setl_program::Collection;
use setl_rep_forms::Held;
use setl_store_environment::Copied;
use setl_store_iterator::Iterator;
use setl_store_slots::Shared;
use setl_value::Value;
use std::alloc::AllocError;

/// An operand.
#[derive(Drop)]
pub enum Operand {
    Om,
    Value(Value),
    /// A value, or `om`, in a form over bases.
    Based(Shared<Held>),
    Iterator(Iterator),
    /// A collection that is being built: the place of its lowest member, and how many it has.
    Collection(Collection, usize, usize),
}

/// A member of a collection that is being built.
#[derive(Drop)]
pub struct Member {
    pub value: Option<Value>,
}

impl Copied for Operand {
    fn copied(&self) -> Result<Operand, AllocError> {
        match self {
            Operand::Om => Ok(Operand::Om),
            Operand::Value(value) => Ok(Operand::Value(value.copy()?)),
            Operand::Based(form) => Ok(Operand::Based(form.copy()?)),
            Operand::Iterator(iterator) => Ok(Operand::Iterator(iterator.copied()?)),
            Operand::Collection(what, lowest, count) => {
                Ok(Operand::Collection(*what, *lowest, *count))
            }
        }
    }
}

impl Copied for Member {
    fn copied(&self) -> Result<Member, AllocError> {
        match &self.value {
            None => Ok(Member { value: None }),
            Some(value) => Ok(Member {
                value: Some(value.copy()?),
            }),
        }
    }
}
