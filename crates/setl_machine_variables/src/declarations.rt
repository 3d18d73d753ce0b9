//! Declared variables, by the slots of a code.

ghost use Rattle.std.specs.Prelude.{◌≡◌, ◌∷◌, ℕ, suc, List, [], map, length, slice_get, IfOk, OnOk};
ghost use Rattle.std.specs.Option.{option_flatten};
ghost use Rattle.setl_code.specs.Plain.{plain_slot};
ghost use Rattle.setl_modes.specs.Modes.{Mode as PlainMode};
ghost use Rattle.setl_program.specs.code.Plain.{plain_declared, plain_variable};
ghost use Rattle.setl_store.specs.Standing.{variables};
ghost use Rattle.setl_machine_control.specs.Declaring.{Modes, modes_of, place_of, Serves, IsDeclared};
ghost use Rattle.setl_names.specs.ByName.{value_at};
ghost use Rattle.setl_machine_variables.specs.Tables.{Finds, Puts, names_by, name_place};

use indexmap::IndexMap;
use setl_code::{Code, OwnName, Slot};
use setl_machine_control::Declaration;
use setl_program::{Declared, Variable};
use setl_store::Store;
use setl_tree::Text;
use std::alloc::{AllocError, Global};
use std::marker::Model;

/// The declared variables of a program, which its code's slots lead to without a walk.
#[derive(Drop)]
pub struct Declarations<'p> {
    code: &'p Code,
    declared: &'p [Declared],
    globals: Vec<Option<u32>>,
    own: Vec<Option<u32>>,
}

impl<'p> Model for Declarations<'p> {
    ghost use Rattle.std.specs.Prelude.{map};
    ghost use Rattle.std.specs.Coded.{codes};
    ghost use Rattle.setl_modes.specs.contracts.mode.Mode as mode;
    ghost use Rattle.setl_modes.specs.Modes.{Mode as PlainMode};
    ghost use Rattle.setl_program.specs.code.Plain.{plain_declared};
    ghost use Rattle.setl_machine_control.specs.Declaring.{DeclarationTable};
    ghost use Rattle.setl_machine_variables.specs.Tables.{KnowsSlots};

    ghost Value = { DeclarationTable };

    ghost coded = { Prim.hlevel (codes, mode.the_row.coded) };

    ghost view = { λ d. record { code = d.code.now; declared = d.declared.now } };

    ghost invariant = { λ d. KnowsSlots d.code.now (map plain_declared d.declared.now) d.globals.items d.own.items };
}

impl<'p> Declarations<'p> {
    /// The declarations of a program for the slots of its code. Of two of one variable the first counts.
    ///
    /// The error is want of memory, which is also that there are more than 2^32 of them.
    pub fn new(
        alloc: Global,
        code: &'p Code,
        declared: &'p [Declared],
    ) -> Result<Declarations<'p>, AllocError>
        ensures { IfOk result (λ d. d ≡ record { code = code.now; declared = declared.now }) }
    {
        let mut globals = IndexMap::new(alloc);
        let mut own = IndexMap::new(alloc);
        put_places(alloc, declared, &mut globals, &mut own)?;
        by_slots(alloc, code, declared, &globals, &own)
    }

    /// The declaration of a slot's variable, where it has one. It costs one look into a table, and none where nothing is
    /// declared.
    pub(crate) fn of_slot(&self, slot: Slot, store: &Store<'_>) -> Option<Declaration<'p>>
        requires { Serves self.now store.now }
        ensures { IsDeclared (modes_of self.now) (plain_slot (variables store.now.core) slot) result }
    {
        let declared: &'p [Declared] = self.declared;
        if declared.is_empty() {
            return None;
        }
        match self.place(slot, store) {
            None => None,
            Some(place) => Some(Declaration {
                place,
                mode: &declared[place as usize].mode,
            }),
        }
    }

    /// The place of the declaration of a slot's variable.
    #[inline(never)]
    fn place(&self, slot: Slot, store: &Store<'_>) -> Option<u32>
        requires { Serves self.now store.now }
        ensures { result ≡ place_of (modes_of self.now) (plain_slot (variables store.now.core) slot) }
    {
        let body = store.body();
        match slot {
            Slot::Global(k) => place_at(self.globals.as_slice(), k),
            Slot::Own(k) => {
                if body == 0 {
                    place_at(self.own.as_slice(), k)
                } else {
                    None
                }
            }
        }
    }
}

/// What a table has at a slot; behind its end nothing.
fn place_at(places: &[Option<u32>], k: u32) -> Option<u32>
    ensures { result ≡ option_flatten (slice_get places.now k) }
{
    match places.get(k as usize) {
        None => None,
        Some(place) => *place,
    }
}

/// The declarations by the slots of a code, from the tables of their places.
fn by_slots<'p>(
    alloc: Global,
    code: &'p Code,
    declared: &'p [Declared],
    globals: &IndexMap<Vec<u8>, u32>,
    own: &IndexMap<Vec<u8>, u32>,
) -> Result<Declarations<'p>, AllocError>
    requires { Finds 0 (map plain_declared declared.now) globals.now own.now }
    ensures { IfOk result (λ d. d ≡ record { code = code.now; declared = declared.now }) }
{
    let globals = seen_places(alloc, code.vars.as_slice(), globals)?;
    let own = main_places(alloc, code, own)?;
    Ok(Declarations {
        code,
        declared,
        globals,
        own,
    })
}

/// Puts the places of declarations into two empty tables. Of two of one variable the first counts.
fn put_places(
    alloc: Global,
    declared: &[Declared],
    globals: &mut IndexMap<Vec<u8>, u32>,
    own: &mut IndexMap<Vec<u8>, u32>,
) -> Result<(), AllocError>
    requires { Finds (length declared.now) [] globals.old own.old }
    ensures { OnOk result (Finds 0 (map plain_declared declared.now) globals.new own.new) }
{
    let mut at = declared.len();
    while at > 0 {
        at -= 1;
        put_place(alloc, &declared[at].variable, at, globals, own)?;
    }
    Ok(())
}

/// Puts the place of a declaration into a table, at the name of its variable, instead of what is there.
fn put_place(
    alloc: Global,
    variable: &Variable,
    at: usize,
    globals: &mut IndexMap<Vec<u8>, u32>,
    own: &mut IndexMap<Vec<u8>, u32>,
) -> Result<(), AllocError>
    ensures { OnOk result ((modes : Modes) (mode : PlainMode) → Finds (suc at) modes globals.old own.old → Finds at ((plain_variable variable.now, mode) ∷ modes) globals.new own.new) }
{
    match variable {
        Variable::Global(name) => put_name(alloc, name, at, globals),
        Variable::Own(body, name) => {
            if *body == 0 {
                put_name(alloc, name, at, own)
            } else {
                Ok(())
            }
        }
        Variable::Former(_, _) => Ok(()),
    }
}

/// Puts a place into a table, at a name.
fn put_name(
    alloc: Global,
    name: &Text,
    at: usize,
    table: &mut IndexMap<Vec<u8>, u32>,
) -> Result<(), AllocError>
    ensures { OnOk result (Puts name.now at table.old table.new) }
{
    let place = narrow(at)?;
    let key = Vec::from_slice(alloc, name.bytes())?;
    table.insert(key, place)?;
    Ok(())
}

/// A place as a stop names it. The error is that it is 2^32 or more, where no memory was refused. A declaration takes some
/// bytes of a source, which has at most 2^24.
fn narrow(at: usize) -> Result<u32, AllocError>
    ensures { IfOk result (λ place. place ≡ at) }
{
    match u32::try_from(at) {
        Ok(place) => Ok(place),
        Err(_) => Err(AllocError),
    }
}

/// The place of the declaration of each variable that all bodies see.
fn seen_places(
    alloc: Global,
    names: &[Text],
    table: &IndexMap<Vec<u8>, u32>,
) -> Result<Vec<Option<u32>>, AllocError>
    ensures { IfOk result (λ places. places.items ≡ map (value_at table.now) names.now) }
{
    names
        .iter()
        .map(|name| seen_place(name, table))
        .collect(alloc)
}

/// The place of the declaration of each of the main body's names.
fn main_places(
    alloc: Global,
    code: &Code,
    table: &IndexMap<Vec<u8>, u32>,
) -> Result<Vec<Option<u32>>, AllocError>
    ensures { IfOk result (λ places. places.items ≡ map (name_place (value_at table.now)) (names_by (slice_get code.now.bodies 0))) }
{
    match code.bodies.as_slice().get(0) {
        None => Ok(Vec::new(alloc)),
        Some(body) => name_places(alloc, body.names.as_slice(), table),
    }
}

/// The place of the declaration of each of these names of the main body's.
fn name_places(
    alloc: Global,
    names: &[OwnName],
    table: &IndexMap<Vec<u8>, u32>,
) -> Result<Vec<Option<u32>>, AllocError>
    ensures { IfOk result (λ places. places.items ≡ map (name_place (value_at table.now)) names.now) }
{
    names
        .iter()
        .map(|name| name_place(name, table))
        .collect(alloc)
}

/// The place of the declaration of a name, by a table.
fn seen_place(name: &Text, table: &IndexMap<Vec<u8>, u32>) -> Option<u32>
    ensures { result ≡ value_at table.now name.now }
{
    table.get(name.bytes()).copied()
}

/// The place of the declaration of a name of the main body's own; a former's is not declared.
fn name_place(name: &OwnName, table: &IndexMap<Vec<u8>, u32>) -> Option<u32>
    ensures { result ≡ name_place (value_at table.now) name.now }
{
    match name {
        OwnName::Body(name) => seen_place(name, table),
        OwnName::Former(_, _) => None,
    }
}
