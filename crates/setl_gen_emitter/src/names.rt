//! The variables of a body and their slots.

ghost use Rattle.std.specs.Prelude.{◌≡◌, ◌<◌, ◌+◌, ◌^◌, ◌++◌, ◌∷◌, [], IfOk, OnOk, OnErr, IfSome, map, ℕ, is_some};
ghost use Rattle.setl_model_runs.specs.Variable as run;
ghost use Rattle.setl_program.specs.code.Plain.{plain_variable};
ghost use Rattle.setl_code.specs.Plain.{plain_slot, plain_name};
ghost use Rattle.setl_gen_emitter.specs.Table.{variables, with_own, noted, all_noted};
ghost use Rattle.setl_gen_emitter.specs.Slots.{global_key, own_key, own_variable, is_key, AreSlots, IsSlot, IsAdded, AreOwn};

use crate::emitter::number;
use indexmap::IndexMap;
use setl_code::{OwnName, Slot};
use setl_program::Variable;
use setl_tree::{Items, Param, Text};
use std::alloc::{AllocError, Global};
use std::marker::Model;
use std::mem;

/// The variables of a body: those of the whole program, its parameters, and its own names. Contracts see them as lists.
///
/// A key of an own variable is 0 and its name, or one more than the number of its former, and its name.
#[derive(Drop)]
pub struct Names<'p> {
    alloc: Global,
    body: u32,
    vars: &'p [Text],
    parameters: &'p [Param],
    names: Items<OwnName>,
    global_slots: IndexMap<&'p [u8], u32>,
    own_slots: IndexMap<(u64, &'p [u8]), u32>,
}

impl<'p> Model for Names<'p> {
    ghost use Rattle.std.specs.Prelude.{map};
    ghost use Rattle.setl_code.specs.Plain.{plain_name};
    ghost use Rattle.setl_gen_emitter.specs.Table.{Table};

    ghost Value = { Table };

    ghost use Rattle.setl_model_runs.specs.Variable as run;
    ghost use Rattle.setl_gen_emitter.specs.Slots.{global_key, AreSlots, AreOwn, own_of};

    ghost view = { λ n. record { body = n.body; vars = n.vars.now; parameters = n.parameters.now; names = map (plain_name n.body) n.names } };

    ghost invariant = { λ n. AreSlots global_key (map run.Global n.vars.now) n.global_slots.entries × AreOwn n.body (own_of n.body n.parameters.now (map (plain_name n.body) n.names)) n.own_slots.entries };
}

/// The slot of a variable that all bodies see.
fn global_slot(slots: &IndexMap<&[u8], u32>, name: &[u8]) -> Option<u32>
    ensures { IfSome result (IsSlot global_key slots.now.entries (run.Global name.now)) }
{
    slots.get(&name).copied()
}

/// The slot of a variable of a body's own.
fn own_slot(slots: &IndexMap<(u64, &[u8]), u32>, former: u64, name: &[u8]) -> Option<u32>
    ensures some { IfSome result (λ slot. (body : ℕ) → IsSlot (own_key body) slots.now.entries (own_variable body former name.now) slot) }
    ensures key { (body : ℕ) → is_some result ≡ is_key (own_key body) slots.now.entries (own_variable body former name.now) }
{
    slots.get(&(former, name)).copied()
}

/// The slots of the names in `var`.
fn global_slots<'p>(alloc: Global, vars: &'p [Text]) -> Result<IndexMap<&'p [u8], u32>, AllocError>
    ensures { IfOk result (λ m. AreSlots global_key (map run.Global vars.now) m.entries) }
{
    let mut slots = IndexMap::new(alloc);
    for k in 0..vars.len() {
        let slot = number(k)?;
        slots.insert(vars[k].bytes(), slot)?;
    }
    Ok(slots)
}

/// The slots of parameters.
fn parameter_slots<'p>(
    alloc: Global,
    parameters: &'p [Param],
) -> Result<IndexMap<(u64, &'p [u8]), u32>, AllocError>
    ensures { IfOk result (λ m. (body : ℕ) → AreOwn body (map (λ p. run.Own body p.name) parameters.now) m.entries) }
{
    let mut slots = IndexMap::new(alloc);
    for k in 0..parameters.len() {
        let slot = number(k)?;
        slots.insert((0, parameters[k].name.bytes()), slot)?;
    }
    Ok(slots)
}

/// One more name. An error is want of memory, and both are then as before.
fn add<'p>(
    slots: &mut IndexMap<(u64, &'p [u8]), u32>,
    names: &mut Items<OwnName>,
    former: u64,
    text: &'p [u8],
    name: OwnName,
    slot: u32,
) -> Result<(), AllocError>
    ensures names { OnOk result (names.new ≡ names.old ++ name ∷ []) }
    ensures slots { OnOk result ((body : ℕ) → IsAdded (own_key body) slots.old.entries (own_variable body former text.now) slot slots.new.entries) }
    ensures names_stay { OnErr result (names.new ≡ names.old) }
    ensures slots_stay { OnErr result (slots.new.entries ≡ slots.old.entries) }
{
    slots.reserve(1)?;
    names.push(name)?;
    slots.insert((former, text), slot).unwrap();
    Ok(())
}

/// A name as code has it. The error is want of memory, or that `former` is above 2^32, which the caller's is not.
fn own_name(former: u64, text: &Text) -> Result<OwnName, AllocError>
    ensures { IfOk result (λ name. (body : ℕ) → plain_name body name ≡ own_variable body former text.now) }
{
    let name = text.copy()?;
    if former == 0 {
        Ok(OwnName::Body(name))
    } else {
        match u32::try_from(former - 1) {
            Ok(former) => Ok(OwnName::Former(former, name)),
            Err(_) => Err(AllocError),
        }
    }
}

/// The same names again. An error is want of memory.
fn copied_names(alloc: Global, names: &[OwnName]) -> Result<Items<OwnName>, AllocError>
    ensures { IfOk result (λ all. all ≡ names.now) }
{
    let mut all = Items::new(alloc);
    for name in names {
        let copy = copied_name(name)?;
        all.push(copy)?;
    }
    Ok(all)
}

/// The same name again. An error is want of memory.
fn copied_name(name: &OwnName) -> Result<OwnName, AllocError>
    ensures { IfOk result (λ copy. copy ≡ name.now) }
{
    match name {
        OwnName::Body(text) => Ok(OwnName::Body(text.copy()?)),
        OwnName::Former(former, text) => Ok(OwnName::Former(*former, text.copy()?)),
    }
}

impl<'p> Names<'p> {
    /// No body's names; these stand in `var`.
    pub fn new(alloc: Global, vars: &'p [Text]) -> Result<Names<'p>, AllocError>
        ensures { IfOk result (λ n. n.vars ≡ vars.now) }
    {
        let global_slots = global_slots(alloc, vars)?;
        Ok(Names {
            alloc,
            body: 0,
            vars,
            parameters: &[],
            names: Items::new(alloc),
            global_slots,
            own_slots: IndexMap::new(alloc),
        })
    }

    /// Begins the body of a number, with its parameters.
    pub fn begin(&mut self, body: u32, parameters: &'p [Param]) -> Result<(), AllocError>
        ensures { OnOk result (self.new ≡ record self.old { body = body; parameters = parameters.now; names = [] }) }
    {
        let own_slots = parameter_slots(self.alloc, parameters)?;
        self.body = body;
        self.parameters = parameters;
        self.names = Items::new(self.alloc);
        mem::replace(&mut self.own_slots, own_slots);
        Ok(())
    }

    /// The parameters.
    pub fn parameters(&self) -> &'p [Param]
        ensures { result.now ≡ self.now.parameters }
    {
        self.parameters
    }

    /// The own names. An error is want of memory.
    pub fn names(&self) -> Result<Items<OwnName>, AllocError>
        ensures { IfOk result (λ names. map (plain_name self.now.body) names ≡ self.now.names) }
    {
        copied_names(self.alloc, self.names.as_slice())
    }

    /// A variable of the body's own, unless it has a slot. The error is want of memory, or that the body has 2^32 variables
    /// (`number`).
    fn note_own(&mut self, former: u64, name: &'p Text) -> Result<(), AllocError>
        requires { former < 2 ^ 32 + 1 }
        ensures { OnOk result (self.new ≡ record self.old { names = with_own self.old.parameters self.old.names (own_variable self.old.body former name.now) }) }
    {
        if own_slot(&self.own_slots, former, name.bytes()).is_some() {
            return Ok(());
        }
        let Some(slot) = self.parameters.len().checked_add(self.names.len()) else {
            return Err(AllocError);
        };
        let slot = number(slot)?;
        let own = own_name(former, name)?;
        add(
            &mut self.own_slots,
            &mut self.names,
            former,
            name.bytes(),
            own,
            slot,
        )
    }

    /// A variable that stands in the body. The error is want of memory, that the body has 2^32 variables, or that it is an
    /// own variable of another body, which no formed program has there (`FormedVariable`).
    fn note(&mut self, x: &'p Variable) -> Result<(), AllocError>
        ensures { OnOk result (self.new ≡ noted (plain_variable x.now) self.old) }
    {
        match x {
            Variable::Global(_) => Ok(()),
            Variable::Own(body, name) => {
                if *body == self.body {
                    self.note_own(0, name)
                } else {
                    Err(AllocError)
                }
            }
            Variable::Former(former, name) => self.note_own(*former as u64 + 1, name),
        }
    }

    /// The variables that stand in the body, in their order.
    pub fn note_all(&mut self, all: &[&'p Variable]) -> Result<(), AllocError>
        ensures { OnOk result (self.new ≡ all_noted (map (λ x. plain_variable x.now) all.now) self.old) }
    {
        for x in all {
            self.note(x)?;
        }
        Ok(())
    }

    /// The slot of a variable. The error is that it has none, where no memory was refused. In a formed and placed program
    /// each variable has one, since its body's were noted before.
    pub fn slot(&self, x: &'p Variable) -> Result<Slot, AllocError>
        ensures { IfOk result (λ slot. plain_slot (variables self.now) slot ≡ plain_variable x.now) }
    {
        match x {
            Variable::Global(name) => self.slot_of_global(name),
            Variable::Own(body, name) => {
                if *body == self.body {
                    self.slot_of_own(0, name)
                } else {
                    Err(AllocError)
                }
            }
            Variable::Former(former, name) => self.slot_of_own(*former as u64 + 1, name),
        }
    }

    /// The slot of a name in `var`. The error is that it has none.
    fn slot_of_global(&self, name: &Text) -> Result<Slot, AllocError>
        ensures { IfOk result (λ slot. plain_slot (variables self.now) slot ≡ run.Global name.now) }
    {
        match global_slot(&self.global_slots, name.bytes()) {
            None => Err(AllocError),
            Some(slot) => Ok(Slot::Global(slot)),
        }
    }

    /// The slot of a variable of the body's own. The error is that it has none.
    fn slot_of_own(&self, former: u64, name: &Text) -> Result<Slot, AllocError>
        ensures { IfOk result (λ slot. plain_slot (variables self.now) slot ≡ own_variable self.now.body former name.now) }
    {
        match own_slot(&self.own_slots, former, name.bytes()) {
            None => Err(AllocError),
            Some(slot) => Ok(Slot::Own(slot)),
        }
    }
}
