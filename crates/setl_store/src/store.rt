//! What `fail` brings back.

ghost use Rattle.std.specs.Prelude.{◌≡◌, ◌<◌, ◌≤◌, ◌-◌, ◌+◌, [], ◌∷◌, length, reverse, IfOk, IfSome, OnOk, OnErr};
ghost use Rattle.setl_code.specs.CodeCore.{Result as Holds, Collecting, There, Gone, held, write};
ghost use Rattle.setl_code.specs.MayRun.{HasSlot};
ghost use Rattle.setl_code.specs.Plain.{plain_slot};
ghost use Rattle.setl_value.specs.code.DatumOf.{part};
ghost use Rattle.setl_store.specs.Flat.{held_of, lowest_in, slots_in, place_in, IsPlainSlot};
ghost use Rattle.setl_store.specs.Operands.{IsThere};
ghost use Rattle.setl_store.specs.Returning.{held_by};
ghost use Rattle.setl_store.specs.Standing.{over, at_place, iterator_by, variables, with_pushed, Shows, IsHeld, Becomes};
ghost use Rattle.setl_rep_forms.specs.FormOf.{form};
ghost use Rattle.setl_rep_forms.specs.Stands.{IsOver};
ghost use Rattle.setl_rep_plain.specs.Standing.{held_value};

use crate::cells::Contents;
use crate::changes::{add_operand, take_slot, write_slot};
use setl_code::{Code, Slot};
use setl_program::Collection;
use setl_rep_bases::Bases;
use setl_rep_forms::Held as Form;
use setl_rep_plain::plain;
use setl_store_iterator::Iterator;
use setl_store_operands::{Lent, Operand, lend, operand, operand_in};
use setl_store_slots::{Held, content};
use setl_value::Value;
use std::alloc::{AllocError, Global};
use std::marker::Model;

/// The variables, operands and activations of a run of a code, its place in the code, the bases of its variables' forms, and
/// what `ok` kept of all these.
#[derive(Drop)]
pub struct Store<'c> {
    pub(crate) alloc: Global,
    pub(crate) code: &'c Code,
    pub(crate) at: usize,
    pub(crate) environment: Contents,
    pub(crate) bases: Bases,
    // How often something was kept.
    pub(crate) keeps: u64,
}

impl<'c> Model for Store<'c> {
    ghost use Rattle.std.specs.Coded.{codes};
    ghost use Rattle.setl_value.specs.code.DatumCode.{coded_datum};
    ghost use Rattle.setl_store.specs.Standing.{Standing};

    ghost Value = { Standing };

    ghost coded = { Prim.hlevel (codes, coded_datum) };

    ghost use Rattle.setl_code.specs.MayRun.{MayRun};
    ghost use Rattle.setl_code.specs.Plain.{plain_code};
    ghost use Rattle.setl_store.specs.Flat.{stands, IsSound, AllSound};

    ghost view = { λ s. stands s.code.now s.bases s.at s.environment.now s.environment.kept };

    ghost invariant = { λ s. MayRun s.code.now × IsSound (plain_code s.code.now) s.bases s.environment.now × AllSound (plain_code s.code.now) s.bases s.keeps s.environment.now.slots s.environment.kept };
}

/// What a slot holds.
pub enum Content<'a> {
    /// Nothing: its value was taken.
    Taken,
    Om,
    Value(&'a Value),
    /// A value, or `om`, in a form over bases: `Store::value` gives it.
    Based,
}

/// What the top operand is.
pub enum Top<'a> {
    /// There is none.
    Nothing,
    Iterator,
    /// A collection that is being built: of a set, or of a tuple.
    Collection(Collection),
    Om,
    Value(&'a Value),
    /// A set or a tuple in a form over bases: `Store::pop` gives it as a plain value.
    Based,
}

impl<'c> Store<'c> {
    /// The number of the step in hand.
    pub fn at(&self) -> usize
        ensures { result ≡ self.now.core.now.at }
    {
        self.at
    }

    /// Goes to a step of the body at work.
    pub fn go_to(&mut self, to: usize)
        ensures { self.new ≡ record self.old { core = at_place to self.old.core } }
    {
        self.at = to;
    }

    /// What a variable's slot holds. It takes no memory.
    pub fn slot(&self, slot: Slot) -> Content<'_>
        requires { HasSlot (length self.now.core.globals) (length self.now.core.now.own) slot }
        ensures { IsHeld (held (plain_slot (variables self.now.core) slot) self.now.core) result }
    {
        match self.environment.slot(place(&self.environment, slot)) {
            Held::Om => Content::Om,
            Held::Value(value) => Content::Value(value),
            Held::Taken => Content::Taken,
            Held::Based(_, _) => Content::Based,
        }
    }

    /// The form in which a variable's slot holds what it does; None where it holds that as it is, or its value was taken. It takes
    /// no memory.
    pub fn form(&self, slot: Slot) -> Option<&Form>
        requires { HasSlot (length self.now.core.globals) (length self.now.core.now.own) slot }
        ensures { IfSome result (λ _. IsThere (held (plain_slot (variables self.now.core) slot) self.now.core)) }
    {
        match self.environment.slot(place(&self.environment, slot)) {
            Held::Based(_, form) => Some(form.get()),
            Held::Om | Held::Value(_) | Held::Taken => None,
        }
    }

    /// The value, or `om`, that a variable's slot holds.
    ///
    /// The error is want of memory.
    pub fn value(&self, slot: Slot) -> Result<Option<Value>, AllocError>
        requires slot { HasSlot (length self.now.core.globals) (length self.now.core.now.own) slot }
        requires there { IsThere (held (plain_slot (variables self.now.core) slot) self.now.core) }
        ensures { IfOk result (λ value. held (plain_slot (variables self.now.core) slot) self.now.core ≡ There (part value)) }
    {
        let at = place(&self.environment, slot);
        match content(self.alloc, self.environment.slot(at), &self.bases)? {
            Some(value) => Ok(value),
            None => Ok(None),
        }
    }

    /// Stores a value, or `om`, in a variable's slot.
    ///
    /// The error is want of memory, and then all is as before.
    #[inline(always)]
    pub fn set_slot(&mut self, slot: Slot, value: Option<Value>) -> Result<(), AllocError>
        requires { HasSlot (length self.old.core.globals) (length self.old.core.now.own) slot }
        ensures { Becomes result self.old self.new (record self.old { core = write (plain_slot (variables self.old.core) slot) (There (part value)) self.old.core }) }
    {
        let at = place(&self.environment, slot);
        write_slot(&mut self.environment, at, held(value))?;
        Ok(())
    }

    /// Takes what a variable's slot holds, and leaves nothing there. Stored again it leaves all as before.
    ///
    /// The error is want of memory, and then all is as before.
    #[inline(always)]
    pub fn take_slot(&mut self, slot: Slot) -> Result<Option<Value>, AllocError>
        requires slot { HasSlot (length self.old.core.globals) (length self.old.core.now.own) slot }
        requires there { IsThere (held (plain_slot (variables self.old.core) slot) self.old.core) }
        ensures value { IfOk result (λ value. held (plain_slot (variables self.old.core) slot) self.old.core ≡ There (part value)) }
        ensures again { IfOk result (λ value. write (plain_slot (variables self.old.core) slot) (There (part value)) self.old.core ≡ self.old.core) }
        ensures taken { OnOk result (self.new ≡ record self.old { core = write (plain_slot (variables self.old.core) slot) Gone self.old.core }) }
        ensures refused { OnErr result (self.new ≡ self.old) }
    {
        let at = place(&self.environment, slot);
        match self.environment.slot(at) {
            Held::Based(_, held) => {
                let value = plain(self.alloc, held.get(), &self.bases)?;
                write_slot(&mut self.environment, at, Held::Taken)?;
                Ok(value)
            }
            _ => Ok(held_value(take_slot(&mut self.environment, at)?)),
        }
    }

    /// What the top operand is. It takes no memory.
    #[inline(always)]
    pub fn top(&self) -> Top<'_>
        ensures { Shows self.now.core.now.operands result }
    {
        let count = self.environment.operands();
        if count == lowest(&self.environment) {
            return Top::Nothing;
        }
        match self.environment.operand(count - 1) {
            Operand::Om => Top::Om,
            Operand::Value(value) => Top::Value(value),
            Operand::Based(form) => top_of_form(form.get(), &self.bases),
            Operand::Iterator(_) => Top::Iterator,
            Operand::Collection(what, _, _) => Top::Collection(*what),
        }
    }

    /// Pushes a value, or `om`.
    ///
    /// The error is want of memory, and then all is as before.
    #[inline(always)]
    pub fn push(&mut self, value: Option<Value>) -> Result<(), AllocError>
        ensures { Becomes result self.old self.new (record self.old { core = over (Holds (part value) ∷ self.old.core.now.operands) self.old.core }) }
    {
        add_operand(&mut self.environment, operand(value))?;
        Ok(())
    }

    /// Pushes what a variable's slot holds, a value in a form over bases in that form, which both then share.
    ///
    /// The error is want of memory, and then all is as before.
    pub fn push_slot(&mut self, slot: Slot) -> Result<(), AllocError>
        requires slot { HasSlot (length self.old.core.globals) (length self.old.core.now.own) slot }
        requires there { IsThere (held (plain_slot (variables self.old.core) slot) self.old.core) }
        ensures { Becomes result self.old self.new (record self.old { core = with_pushed (held (plain_slot (variables self.old.core) slot) self.old.core) self.old.core }) }
    {
        let at = place(&self.environment, slot);
        let operand = operand_in(self.environment.slot(at))?;
        add_operand(&mut self.environment, operand)?;
        Ok(())
    }

    /// Pushes an iterator.
    ///
    /// The error is want of memory, and then all is as before.
    pub fn push_iterator(&mut self, iterator: Iterator) -> Result<(), AllocError>
        ensures { Becomes result self.old self.new (record self.old { core = over (iterator_by iterator.pairs iterator.left ∷ self.old.core.now.operands) self.old.core }) }
    {
        add_operand(&mut self.environment, Operand::Iterator(iterator))?;
        Ok(())
    }

    /// Pushes an empty collection.
    ///
    /// The error is want of memory, and then all is as before.
    pub fn push_collection(&mut self, what: Collection) -> Result<(), AllocError>
        ensures { Becomes result self.old self.new (record self.old { core = over (Collecting what [] ∷ self.old.core.now.operands) self.old.core }) }
    {
        let lowest = self.environment.members();
        add_operand(&mut self.environment, Operand::Collection(what, lowest, 0))?;
        Ok(())
    }
}

/// What the top operand is, where it is a value in this form.
fn top_of_form<'a>(held: &'a setl_rep_forms::Held, bases: &'a Bases) -> Top<'a>
    requires { IsOver bases.now (form held.now) }
    ensures { (xs : _) → Shows (Holds (held_value bases.now held.now) ∷ xs) result }
{
    match lend(held, bases) {
        Lent::Om => Top::Om,
        Lent::Value(value) => Top::Value(value),
        Lent::Whole => Top::Based,
    }
}

/// What a slot holds that holds this value.
#[inline(always)]
pub(crate) fn held(value: Option<Value>) -> Held
    ensures { result ≡ held_by value }
{
    match value {
        Some(value) => Held::Value(value),
        None => Held::Om,
    }
}

/// The value that a slot holds as it is.
#[inline(always)]
fn held_value(held: Held) -> Option<Value>
    requires { IsPlainSlot held }
    ensures { (bs : _) → held_of bs held ≡ There (part result) }
{
    match held {
        Held::Value(value) => Some(value),
        Held::Om | Held::Taken | Held::Based(_, _) => None,
    }
}

/// The number of the lowest operand of the body at work.
pub(crate) fn lowest(environment: &Contents) -> usize
    requires { 0 < length environment.now.now.activations }
    ensures { result ≡ lowest_in (reverse environment.now.now.activations) }
{
    environment
        .activation(environment.activations() - 1)
        .operands
}

/// The place of a slot of the body at work.
pub(crate) fn place(environment: &Contents, slot: Slot) -> usize
    requires some { 0 < length environment.now.now.activations }
    requires there { place_in (reverse environment.now.now.activations) slot < length environment.now.now.slots }
    ensures { result ≡ place_in (reverse environment.now.now.activations) slot }
{
    match slot {
        Slot::Global(k) => k as usize,
        Slot::Own(k) => own_place(environment, k as usize),
    }
}

/// The place of a slot of the body's own.
fn own_place(environment: &Contents, k: usize) -> usize
    requires some { 0 < length environment.now.now.activations }
    requires there { slots_in (reverse environment.now.now.activations) + k < length environment.now.now.slots }
    ensures { result ≡ slots_in (reverse environment.now.now.activations) + k }
{
    let _slots = environment.slots();
    environment.activation(environment.activations() - 1).slots + k
}
