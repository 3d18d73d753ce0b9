//! Operands that are taken off.

ghost use Rattle.std.specs.Prelude.{◌≡◌, ◌≤◌, [], map, drop, length, true, false, Some, IsSome, IfNone, IfOk, OnOk, OnErr};
ghost use Rattle.std.specs.Option.{option_map};
ghost use Rattle.setl_code.specs.CodeCore.{popped, Pops};
ghost use Rattle.setl_value.specs.code.DatumOf.{part};
ghost use Rattle.setl_store.specs.Operands.{TakesOff, DropsIterators};
ghost use Rattle.setl_store.specs.Standing.{over, top_of, Becomes};
ghost use Rattle.setl_store.specs.HasValues.{has_values};

use crate::activations::members_of_lower;
use crate::changes::{cut_back, drop_operand, take_operand};
use crate::store::{Store, lowest};
use setl_rep_plain::plain;
use setl_store_operands::{Operand, is_value, served, value};
use setl_value::Value;
use std::alloc::AllocError;

impl<'c> Store<'c> {
    /// Takes the top off: a result, or a collection as the set or tuple of its members.
    ///
    /// The error is want of memory, and then all is as before.
    #[inline(always)]
    pub fn pop(&mut self) -> Result<Option<Value>, AllocError>
        requires { IsSome (top_of self.old.core.now.operands) }
        ensures value { IfOk result (λ value. top_of self.old.core.now.operands ≡ Some (part value, self.new.core.now.operands)) }
        ensures rest { OnOk result (self.new ≡ record self.old { core = over self.new.core.now.operands self.old.core }) }
        ensures refused { OnErr result (self.new ≡ self.old) }
    {
        let last = self.environment.operands() - 1;
        let operand = self.environment.operand(last);
        match operand {
            Operand::Collection(_, lowest, _) => {
                let lowest = *lowest;
                let value = served(self.alloc, &self.environment, &self.bases, operand)?;
                drop_operand(&mut self.environment, lowest)?;
                Ok(value)
            }
            Operand::Based(form) => {
                let value = plain(self.alloc, form.get(), &self.bases)?;
                let members = self.environment.members();
                drop_operand(&mut self.environment, members)?;
                Ok(value)
            }
            _ => Ok(value(take_operand(&mut self.environment)?)),
        }
    }

    /// Takes so many results off, and gives them with the top last; or None where there are too few, and then all is as
    /// before. Sets and tuples are made of collections, as by `pop`.
    ///
    /// The error is want of memory, and then all is as before.
    pub fn pop_values(&mut self, count: usize) -> Result<Option<Vec<Option<Value>>>, AllocError>
        ensures values { IfOk result (λ values. TakesOff count self.old.core.now.operands (option_map (λ all. map part all.items) values) self.new.core.now.operands) }
        ensures rest { OnOk result (self.new ≡ record self.old { core = over self.new.core.now.operands self.old.core }) }
        ensures few { IfOk result (λ values. IfNone values (self.new ≡ self.old)) }
        ensures refused { OnErr result (self.new ≡ self.old) }
    {
        if !self.has_values(count) {
            return Ok(None);
        }
        let values = self.top_values(count)?;
        self.drop_top_ones(count)?;
        Ok(Some(values))
    }

    /// Drops so many iterators. Its answer is whether so many are on top, and else all is as before.
    ///
    /// The error is want of memory, and then all is as before.
    pub fn drop_iterators(&mut self, count: usize) -> Result<bool, AllocError>
        ensures dropped { IfOk result (λ all. DropsIterators count self.old.core.now.operands all self.new.core.now.operands) }
        ensures rest { OnOk result (self.new ≡ record self.old { core = over self.new.core.now.operands self.old.core }) }
        ensures few { IfOk result (λ all. all ≡ false → self.new ≡ self.old) }
        ensures refused { OnErr result (self.new ≡ self.old) }
    {
        if !self.has_iterators(count) {
            return Ok(false);
        }
        self.drop_top_ones(count)?;
        Ok(true)
    }

    // Drops so many operands of the body at work.
    fn drop_top_ones(&mut self, count: usize) -> Result<(), AllocError>
        requires { count ≤ length self.old.core.now.operands }
        ensures { Becomes result self.old self.new (record self.old { core = over (drop count self.old.core.now.operands) self.old.core }) }
    {
        let lowest = self.environment.operands() - count;
        let members = members_of_lower(&self.environment, lowest);
        cut_back(&mut self.environment, lowest, members)?;
        Ok(())
    }

    // Copies of so many results on top, the top last.
    fn top_values(&self, count: usize) -> Result<Vec<Option<Value>>, AllocError>
        requires { has_values count self.now.core.now.operands ≡ true }
        ensures { IfOk result (λ values. popped count [] self.now.core.now.operands ≡ Pops (map part values.items) (drop count self.now.core.now.operands)) }
    {
        let operands = self.environment.operands();
        let mut values = Vec::with_capacity(self.alloc, count)?;
        for k in 0..count {
            let operand = self.environment.operand(operands - 1 - k);
            values.push(served(self.alloc, &self.environment, &self.bases, operand)?)?;
        }
        values.reverse();
        Ok(values)
    }

    // Whether so many results are on top. It takes no memory.
    fn has_values(&self, count: usize) -> bool
        ensures { result ≡ has_values count self.now.core.now.operands }
    {
        let operands = self.environment.operands();
        if operands - lowest(&self.environment) < count {
            return false;
        }
        for k in 0..count {
            if !is_value(self.environment.operand(operands - 1 - k)) {
                return false;
            }
        }
        true
    }

    // Whether so many iterators are on top. It takes no memory.
    fn has_iterators(&self, count: usize) -> bool
        ensures { DropsIterators count self.now.core.now.operands result (drop count self.now.core.now.operands) }
    {
        let operands = self.environment.operands();
        if operands - lowest(&self.environment) < count {
            return false;
        }
        for k in 0..count {
            if is_value(self.environment.operand(operands - 1 - k)) {
                return false;
            }
        }
        true
    }
}
