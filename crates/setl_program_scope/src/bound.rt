//! Names that iterators bind.

ghost use Rattle.std.specs.Prelude.{◌≡◌, map, IfOk, OnOk};
ghost use Rattle.setl_names.specs.Names.{with_names, in_order};
ghost use Rattle.setl_names.specs.Occurrences as names;
ghost use Rattle.setl_program.specs.Expressions as spec;
ghost use Rattle.setl_program.specs.Expressions.{turn_of};

use setl_names::Names;
use setl_tree::{Bound, Iter, Slot};
use std::alloc::{AllocError, Global};

/// Puts the names of components. An error is want of memory.
fn put_slots(slots: &[Slot], all: &mut Names) -> Result<(), AllocError>
    ensures { OnOk result (all.new ≡ with_names all.old (names.names_of_slots slots.now)) }
{
    for slot in slots {
        if let Slot::Name(name) = slot {
            all.put(name.bytes())?;
        }
    }
    Ok(())
}

/// Puts what an iterator over a source binds. An error is want of memory.
fn put_bound(bound: &Bound, all: &mut Names) -> Result<(), AllocError>
    ensures { OnOk result (all.new ≡ with_names all.old (names.names_of_bound bound.now)) }
{
    match bound {
        Bound::Name(name) => {
            all.put(name.bytes())?;
            Ok(())
        }
        Bound::Pattern(slots) => put_slots(slots.as_slice(), all),
    }
}

/// Puts the names that an iterator binds. An error is want of memory.
pub fn put_turn(turn: &Iter, all: &mut Names) -> Result<(), AllocError>
    ensures { OnOk result (all.new ≡ with_names all.old (turn_of turn.now).names) }
{
    match turn {
        Iter::Over(bound, _) => put_bound(bound, all),
        Iter::Image(value, _, argument) => {
            all.put(value.bytes())?;
            all.put(argument.bytes())?;
            Ok(())
        }
    }
}

/// The names that iterators bind, each once. An error is want of memory.
pub fn names_of_turns(alloc: Global, turns: &[Iter]) -> Result<Names, AllocError>
    ensures { IfOk result (λ all. all ≡ in_order (spec.names_of_turns (map turn_of turns.now))) }
{
    let mut all = Names::new(alloc);
    for turn in turns {
        put_turn(turn, &mut all)?;
    }
    Ok(all)
}

/// The names that an iterator over a source binds, each once. An error is want of memory.
pub fn names_of_bound(alloc: Global, bound: &Bound) -> Result<Names, AllocError>
    ensures { IfOk result (λ all. all ≡ in_order (names.names_of_bound bound.now)) }
{
    let mut all = Names::new(alloc);
    put_bound(bound, &mut all)?;
    Ok(all)
}
