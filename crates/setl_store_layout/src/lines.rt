//! The lines of the dump, in their order.

ghost use Rattle.std.specs.Prelude.{◌≡◌, ◌++◌, [], map, length, IfOk, OnOk, IfSome, IfNone};
ghost use Rattle.setl_code_layout.specs.Layout.{members_of, variable_lines};
ghost use Rattle.setl_modes_dump.specs.Dump.{base_line, base_lines};
ghost use Rattle.setl_program.specs.code.Plain.{plain_declared};
ghost use Rattle.setl_rep_layout.specs.Members.{values_of};
ghost use Rattle.setl_store.specs.MainProgram.{AreTold};
ghost use Rattle.setl_store_layout.specs.Layout.{layout, AreShown};
ghost use Rattle.setl_store_layout.specs.Places.{Knows};

use crate::places::{Places, places_of};
use crate::variables::push_declared;
use setl_base::Base;
use setl_modes::NamedMode;
use setl_program::Declared;
use setl_rep_bases::{BaseId, Bases};
use setl_rep_layout::push_base;
use setl_store::Store;
use std::alloc::{AllocError, Global};

/// The dump of a store, with the bases and the declared variables of the program in the order of their declarations.
///
/// A variable whose value was taken counts as `om`. The error is want of memory, which is also that the main program has more
/// than 2^32 variables. The cost is near linear in the size of the text, the code's names, and what the variables hold.
pub fn layout(
    alloc: Global,
    bases: &[NamedMode],
    declared: &[Declared],
    store: &Store<'_>,
) -> Result<Vec<u8>, AllocError>
    requires { AreShown (length store.now.bases) (map plain_declared declared.now) }
    ensures { IfOk result (λ text. text.items ≡ layout (map (λ b. b.name) bases.now) (map plain_declared declared.now) store.now) }
{
    let places = places_of(alloc, store.code())?;
    let mut text = Vec::new(alloc);
    push_bases(alloc, bases, store, &mut text)?;
    push_variables(alloc, declared, &places, store, &mut text)?;
    Ok(text)
}

// Adds the lines of the bases.
fn push_bases(
    alloc: Global,
    bases: &[NamedMode],
    store: &Store<'_>,
    into: &mut Vec<u8>,
) -> Result<(), AllocError>
    ensures { OnOk result (into.new.items ≡ into.old.items ++ base_lines (members_of store.now.bases) 0 (map (λ b. b.name) bases.now)) }
{
    for n in 0..bases.len() {
        push_told(alloc, bases[n].name.bytes(), n, store, into)?;
    }
    Ok(())
}

// Adds the line of a base that is told, or of one without members.
fn push_told(
    alloc: Global,
    name: &[u8],
    n: usize,
    store: &Store<'_>,
    into: &mut Vec<u8>,
) -> Result<(), AllocError>
    ensures { OnOk result (into.new.items ≡ into.old.items ++ base_line name.now (members_of store.now.bases n)) }
{
    match told_base(store.told_bases(), n) {
        Some(base) => push_base(alloc, name, base, into),
        None => {
            let empty = Base::new(alloc)?;
            push_base(alloc, name, &empty, into)
        }
    }
}

// The base of the main program with this number, where it is told and is there; otherwise none of its members are told.
fn told_base(bases: &Bases, n: usize) -> Option<&Base>
    ensures some { IfSome result (λ base. (told : _) → AreTold told bases.now → values_of base.now ≡ members_of told n) }
    ensures none { IfNone result ((told : _) → AreTold told bases.now → members_of told n ≡ []) }
{
    if n >= bases.len() as usize {
        return None;
    }
    let main = BaseId {
        base: n as u32,
        instance: 0,
    };
    if !bases.has(main) {
        return None;
    }
    Some(bases.at(main))
}

// Adds the lines of the declared variables.
fn push_variables(
    alloc: Global,
    declared: &[Declared],
    places: &Places,
    store: &Store<'_>,
    into: &mut Vec<u8>,
) -> Result<(), AllocError>
    requires knows { Knows store.now.code places.now }
    requires shown { AreShown (length store.now.bases) (map plain_declared declared.now) }
    ensures { OnOk result (into.new.items ≡ into.old.items ++ variable_lines (members_of store.now.bases) (map plain_declared declared.now) store.now.core) }
{
    for n in 0..declared.len() {
        push_declared(alloc, &declared[n], places, store, into)?;
    }
    Ok(())
}
