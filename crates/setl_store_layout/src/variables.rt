//! The line of a declared variable.

ghost use Rattle.std.specs.Prelude.{◌≡◌, ◌++◌, true, length, OnOk};
ghost use Rattle.setl_code.specs.Plain.{plain_slot};
ghost use Rattle.setl_code_layout.specs.Layout.{main_value, members_of, NamesWithin};
ghost use Rattle.setl_model_runs.specs.Variable.{name_of};
ghost use Rattle.setl_modes.specs.Modes.{mode_of};
ghost use Rattle.setl_modes_dump.specs.Dump.{variable_line};
ghost use Rattle.setl_program.specs.code.Plain.{plain_declared, plain_variable};
ghost use Rattle.setl_rep_bases.specs.BaseId.{main};
ghost use Rattle.setl_rep_building.specs.HasForm.{HasFormOrOm};
ghost use Rattle.setl_rep_forms.specs.FormOf.{form};
ghost use Rattle.setl_rep_layout.specs.Laid.{IsAttributed};
ghost use Rattle.setl_rep_layout.specs.Members.{members_by};
ghost use Rattle.setl_rep_plain.specs.Standing.{held_value, IsHeldOver};
ghost use Rattle.setl_store.specs.MainProgram.{main_variables, HasMainSlot};
ghost use Rattle.setl_store_layout.specs.Attributes.{HasAttribute};
ghost use Rattle.setl_store_layout.specs.Layout.{IsShown};
ghost use Rattle.setl_store_layout.specs.Places.{Knows};

use crate::places::{Places, slot_of};
use setl_code::Slot;
use setl_modes::{Form, Mode};
use setl_modes_same::same_mode;
use setl_program::{Declared, Variable};
use setl_rep_bases::Bases;
use setl_rep_forms::Held;
use setl_rep_layout::{push_value, push_variable};
use setl_rep_plain::plain;
use setl_store::{Store, Stored};
use std::alloc::{AllocError, Global};

/// Adds the line of a declared variable. The error is want of memory.
pub(crate) fn push_declared(
    alloc: Global,
    declared: &Declared,
    places: &Places,
    store: &Store<'_>,
    into: &mut Vec<u8>,
) -> Result<(), AllocError>
    requires knows { Knows store.now.code places.now }
    requires shown { IsShown (length store.now.bases) (plain_declared declared.now) }
    ensures { OnOk result (into.new.items ≡ into.old.items ++ variable_line (members_of store.now.bases) (name_of (plain_variable declared.now.variable)) (mode_of declared.now.mode) (main_value (plain_variable declared.now.variable) store.now.core)) }
{
    let name = name_of(&declared.variable);
    match slot_of(places, store.code(), &declared.variable) {
        Some(slot) => push_slot(alloc, name, &declared.mode, slot, store, into),
        None => {
            store.learn_main();
            push_value(alloc, name, &declared.mode, None, store.told_bases(), into)
        }
    }
}

// The name of a variable.
fn name_of(variable: &Variable) -> &[u8]
    ensures { result.now ≡ name_of (plain_variable variable.now) }
{
    match variable {
        Variable::Global(name) => name.bytes(),
        Variable::Own(_, name) => name.bytes(),
        Variable::Former(_, name) => name.bytes(),
    }
}

// Adds the line of what a slot of the main program holds.
fn push_slot(
    alloc: Global,
    name: &[u8],
    mode: &Mode,
    slot: Slot,
    store: &Store<'_>,
    into: &mut Vec<u8>,
) -> Result<(), AllocError>
    requires there { HasMainSlot store.now.code slot }
    requires named { NamesWithin (length store.now.bases) (mode_of mode.now) }
    ensures { OnOk result (into.new.items ≡ into.old.items ++ variable_line (members_of store.now.bases) name.now (mode_of mode.now) (main_value (plain_slot (main_variables store.now.code) slot) store.now.core)) }
{
    let (stored, bases) = store.main_slot(slot);
    match stored {
        Stored::Taken => push_value(alloc, name, mode, None, bases, into),
        Stored::Om => push_value(alloc, name, mode, None, bases, into),
        Stored::Value(value) => push_value(alloc, name, mode, Some(value), bases, into),
        Stored::Based(own, held) => push_based(alloc, name, mode, own, held, bases, into),
    }
}

// Adds the line of what is held in the form of a mode: read from that form where it is the declared mode.
fn push_based(
    alloc: Global,
    name: &[u8],
    mode: &Mode,
    own: &Mode,
    held: &Held,
    bases: &Bases,
    into: &mut Vec<u8>,
) -> Result<(), AllocError>
    requires over { IsHeldOver bases.now held.now }
    requires form { HasFormOrOm main (mode_of own.now) (form held.now) }
    ensures { OnOk result (into.new.items ≡ into.old.items ++ variable_line (members_by bases.now) name.now (mode_of mode.now) (held_value bases.now held.now)) }
{
    if same_mode(own, mode) && is_attributed(mode) {
        return push_variable(alloc, name, mode, held, bases, into);
    }
    let value = plain(alloc, held, bases)?;
    push_value(alloc, name, mode, value.as_ref(), bases, into)
}

// Whether each map on a base has an attribute, as the modes of declarations have.
fn is_attributed(mode: &Mode) -> bool
    ensures { result ≡ true → IsAttributed (mode_of mode.now) }
{
    match mode {
        Mode::Smap(form, domain, range) => has_attribute(*form, domain.get())
            && is_attributed(range.get()),
        Mode::Mmap(form, domain, images) => has_attribute(*form, domain.get())
            && is_attributed(images.get()),
        _ => true,
    }
}

// Whether a map with this domain is on no base or has an attribute.
fn has_attribute(form: Form, domain: &Mode) -> bool
    ensures { result ≡ true → HasAttribute form (mode_of domain.now) }
{
    match domain {
        Mode::Elmt(_, _) => !matches!(form, Form::Plain),
        _ => true,
    }
}
