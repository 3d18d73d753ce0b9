//! What stands in the parts of statements that hold no statement.

ghost use Rattle.std.specs.Prelude.{◌≡◌, ◌++◌, map, OnOk};
ghost use Rattle.setl_names.specs.Occurrences as spec;
ghost use Rattle.setl_names.specs.Occurrences.{turn, standing_in};
ghost use Rattle.setl_names.specs.Statements as told;
ghost use Rattle.setl_names_walk.specs.Walks.{here, after};

use crate::bound::{add_slots, bound_name, bound_names, named};
use crate::expressions::{applied, expr, ordinary_turns, selectors};
use crate::walk::Walk;
use setl_names::{Name, What};
use setl_tree::{Expr, Items, Iter, Place, Slot, Text};
use std::alloc::AllocError;

/// What stands in an expression of a statement, if there is one.
pub fn optional_expression<'t>(
    x: &'t Option<Expr>,
    line: u32,
    walk: &mut Walk<'t>,
) -> Result<(), AllocError>
    ensures { OnOk result (walk.new ≡ after (told.optional_expression x.now (here line walk.old)) walk.old) }
{
    match x {
        None => Ok(()),
        Some(x) => expr(x, line, walk),
    }
}

/// What stands in a place that is stored to.
pub fn target<'t>(x: &'t Place, line: u32, walk: &mut Walk<'t>) -> Result<(), AllocError>
    ensures { OnOk result (walk.new ≡ after (told.target x.now (here line walk.old)) walk.old) }
{
    named(&x.name, line, walk)?;
    selectors(x.selectors.as_slice(), line, walk)
}

/// What stands in an assignment, with an operator or without one.
pub fn assign<'t>(
    x: &'t Place,
    value: &'t Expr,
    line: u32,
    walk: &mut Walk<'t>,
) -> Result<(), AllocError>
    ensures { OnOk result (walk.new ≡ after (told.target x.now (here line walk.old) ++ standing_in value.now (here line walk.old)) walk.old) }
{
    target(x, line, walk)?;
    expr(value, line, walk)
}

/// What stands in a tuple target.
pub fn tuple_target<'t>(slots: &'t [Slot], line: u32, walk: &mut Walk<'t>) -> Result<(), AllocError>
    ensures { OnOk result (walk.new ≡ after (told.tuple_target slots.now (here line walk.old)) walk.old) }
{
    let mut names = Items::new(walk.alloc);
    add_slots(&mut names, slots)?;
    bound_names(names.as_slice(), false, line, walk)?;
    walk.note(line, What::Target(names))
}

/// What stands in an assignment to a tuple target.
pub fn tuple_assign<'t>(
    slots: &'t [Slot],
    value: &'t Expr,
    line: u32,
    walk: &mut Walk<'t>,
) -> Result<(), AllocError>
    ensures { OnOk result (walk.new ≡ after (told.tuple_target slots.now (here line walk.old) ++ standing_in value.now (here line walk.old)) walk.old) }
{
    tuple_target(slots, line, walk)?;
    expr(value, line, walk)
}

/// What stands in `name from place` and the like.
pub fn take<'t>(
    name: &'t Text,
    x: &'t Place,
    line: u32,
    walk: &mut Walk<'t>,
) -> Result<(), AllocError>
    ensures { OnOk result (walk.new ≡ after (spec.named name.now (here line walk.old) ++ told.target x.now (here line walk.old)) walk.old) }
{
    named(name, line, walk)?;
    target(x, line, walk)
}

/// What stands in a call statement.
pub fn call<'t>(
    name: &'t Text,
    xs: &'t [Expr],
    line: u32,
    walk: &mut Walk<'t>,
) -> Result<(), AllocError>
    ensures { OnOk result (walk.new ≡ after (told.call name.now xs.now (here line walk.old)) walk.old) }
{
    walk.note(line, What::CallStatement(Name::new(name)))?;
    applied(name, xs, line, walk)
}

/// What stands in the iterators of a loop, and in its condition.
pub fn loop_head<'t>(
    turns: &'t [Iter],
    condition: &'t Option<Expr>,
    line: u32,
    walk: &mut Walk<'t>,
) -> Result<(), AllocError>
    ensures { OnOk result (walk.new ≡ after (spec.ordinary_turns (map turn turns.now) (here line walk.old) ++ told.optional_expression condition.now (here line walk.old)) walk.old) }
{
    ordinary_turns(turns, line, walk)?;
    optional_expression(condition, line, walk)
}

/// Notes the names of a `read`.
pub fn texts<'t>(names: &'t [Text], line: u32, walk: &mut Walk<'t>) -> Result<(), AllocError>
    ensures { OnOk result (walk.new ≡ after (spec.all_named names.now (here line walk.old)) walk.old) }
{
    for name in names {
        bound_name(name, false, line, walk)?;
    }
    Ok(())
}
