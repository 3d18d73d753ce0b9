//! Bound names.

ghost use Rattle.std.specs.Prelude.{◌≡◌, ◌++◌, map, OnOk, OnErr, IfOk};
ghost use Rattle.setl_names.specs.Occurrences as spec;
ghost use Rattle.setl_names.specs.Occurrences.{turn};
ghost use Rattle.setl_names_walk.specs.Walks.{here, after, with_own, inside_former, with_filter};
ghost use Rattle.setl_names_walk.specs.Scopes.{mark_of};

use crate::scope::Mark;
use crate::walk::Walk;
use setl_names::{Name, What};
use setl_tree::{Bound, Items, Iter, Slot, Text};
use std::alloc::{AllocError, Global};

/// Adds the names of slots to names.
pub fn add_slots<'t>(names: &mut Items<Name<'t>>, slots: &'t [Slot]) -> Result<(), AllocError>
    ensures { OnOk result (names.new ≡ names.old ++ spec.names_of_slots slots.now) }
{
    for slot in slots {
        if let Slot::Name(name) = slot {
            names.push(Name::new(name))?;
        }
    }
    Ok(())
}

/// Adds what a former, a loop or a quantifier binds.
fn add_bound<'t>(names: &mut Items<Name<'t>>, bound: &'t Bound) -> Result<(), AllocError>
    ensures { OnOk result (names.new ≡ names.old ++ spec.names_of_bound bound.now) }
{
    match bound {
        Bound::Name(name) => names.push(Name::new(name)),
        Bound::Pattern(slots) => add_slots(names, slots.as_slice()),
    }
}

/// Adds the names that an iterator binds.
fn add_turn<'t>(names: &mut Items<Name<'t>>, x: &'t Iter) -> Result<(), AllocError>
    ensures { OnOk result (names.new ≡ names.old ++ (turn x.now).names) }
{
    match x {
        Iter::Over(bound, _) => add_bound(names, bound),
        Iter::Image(value, _, argument) => {
            names.push(Name::new(value))?;
            names.push(Name::new(argument))
        }
    }
}

/// The names that a list of iterators binds.
fn turn_names<'t>(alloc: Global, turns: &'t [Iter]) -> Result<Items<Name<'t>>, AllocError>
    ensures { IfOk result (λ names. names ≡ spec.names_of_turns (map turn turns.now)) }
{
    let mut names = Items::new(alloc);
    for x in turns {
        add_turn(&mut names, x)?;
    }
    Ok(names)
}

/// The names of what an iterator or a filter binds.
fn bound_list<'t>(alloc: Global, bound: &'t Bound) -> Result<Items<Name<'t>>, AllocError>
    ensures { IfOk result (λ names. names ≡ spec.names_of_bound bound.now) }
{
    let mut names = Items::new(alloc);
    add_bound(&mut names, bound)?;
    Ok(names)
}

/// Puts the names that an iterator binds among a former's own. An error is want of memory, and nothing is changed then.
pub fn put_turn<'t>(x: &'t Iter, walk: &mut Walk<'t>) -> Result<(), AllocError>
    ensures ok { OnOk result (walk.new ≡ with_own (turn x.now).names walk.old) }
    ensures err { OnErr result (walk.new ≡ walk.old) }
{
    let mut names = Items::new(walk.alloc);
    add_turn(&mut names, x)?;
    walk.scope.own.put_all(names.as_slice())
}

/// Puts the names that a former binds among its own. An error is want of memory, and nothing is changed then.
pub fn put_bound<'t>(bound: &'t Bound, walk: &mut Walk<'t>) -> Result<(), AllocError>
    ensures ok { OnOk result (walk.new ≡ with_own (spec.names_of_bound bound.now) walk.old) }
    ensures err { OnErr result (walk.new ≡ walk.old) }
{
    let names = bound_list(walk.alloc, bound)?;
    walk.scope.own.put_all(names.as_slice())
}

/// Enters a former with these iterators, whose names are all its own at first. It gives how many names there were
/// before.
pub fn enter_former<'t>(turns: &'t [Iter], walk: &mut Walk<'t>) -> Result<Mark, AllocError>
    ensures mark { IfOk result (λ mark. mark ≡ mark_of walk.old.scope) }
    ensures entered { OnOk result (walk.new ≡ with_own (spec.names_of_turns (map turn turns.now)) (inside_former (spec.names_of_turns (map turn turns.now)) walk.old)) }
{
    let names = turn_names(walk.alloc, turns)?;
    enter_with_own(names.as_slice(), walk)
}

/// Enters a former that binds these names, which are all its own at first.
fn enter_with_own<'t>(names: &[Name<'t>], walk: &mut Walk<'t>) -> Result<Mark, AllocError>
    ensures mark { IfOk result (λ mark. mark ≡ mark_of walk.old.scope) }
    ensures entered { OnOk result (walk.new ≡ with_own names.now (inside_former names.now walk.old)) }
{
    let mark = walk.scope.enter(names)?;
    walk.scope.own.put_all(names)?;
    Ok(mark)
}

/// Enters a former that collects what it binds, and notes this. It gives how many names there were before.
pub fn enter_filter<'t>(
    bound: &'t Bound,
    line: u32,
    walk: &mut Walk<'t>,
) -> Result<Mark, AllocError>
    ensures mark { IfOk result (λ mark. mark ≡ mark_of walk.old.scope) }
    ensures entered { OnOk result (walk.new ≡ with_filter line (spec.names_of_bound bound.now) walk.old) }
{
    let names = bound_list(walk.alloc, bound)?;
    enter_and_note(names.as_slice(), line, walk)
}

/// Enters a former that collects these names, and notes them.
fn enter_and_note<'t>(
    names: &[Name<'t>],
    line: u32,
    walk: &mut Walk<'t>,
) -> Result<Mark, AllocError>
    ensures mark { IfOk result (λ mark. mark ≡ mark_of walk.old.scope) }
    ensures entered { OnOk result (walk.new ≡ with_filter line names.now walk.old) }
{
    let mark = walk.scope.enter(names)?;
    bound_names(names, true, line, walk)?;
    Ok(mark)
}

/// Notes the names that one list of iterators binds. An error is want of memory, and nothing is changed then.
pub fn bind_turns<'t>(turns: &'t [Iter], line: u32, walk: &mut Walk<'t>) -> Result<(), AllocError>
    ensures ok { OnOk result (walk.new ≡ after (spec.bound (spec.names_of_turns (map turn turns.now)) (here line walk.old)) walk.old) }
    ensures err { OnErr result (walk.new ≡ walk.old) }
{
    let names = turn_names(walk.alloc, turns)?;
    walk.note(line, What::Bound(names))
}

/// Notes the names that a former that collects what it binds has. An error is want of memory, and nothing is changed
/// then.
pub fn bind_bound<'t>(bound: &'t Bound, line: u32, walk: &mut Walk<'t>) -> Result<(), AllocError>
    ensures ok { OnOk result (walk.new ≡ after (spec.bound (spec.names_of_bound bound.now) (here line walk.old)) walk.old) }
    ensures err { OnErr result (walk.new ≡ walk.old) }
{
    let names = bound_list(walk.alloc, bound)?;
    walk.note(line, What::Bound(names))
}

/// Notes the names that the iterators of a quantified expression bind.
pub fn quantify_turns<'t>(
    turns: &'t [Iter],
    line: u32,
    walk: &mut Walk<'t>,
) -> Result<(), AllocError>
    ensures { OnOk result (walk.new ≡ after (spec.all_quantified (spec.names_of_turns (map turn turns.now)) (here line walk.old)) walk.old) }
{
    let names = turn_names(walk.alloc, turns)?;
    all_quantified(names.as_slice(), line, walk)
}

/// Notes a name that doesn't stand before a list in round brackets.
pub fn named<'t>(name: &'t Text, line: u32, walk: &mut Walk<'t>) -> Result<(), AllocError>
    ensures ok { OnOk result (walk.new ≡ after (spec.named name.now (here line walk.old)) walk.old) }
    ensures err { OnErr result (walk.new ≡ walk.old) }
{
    let own = walk.scope.own.has(name.bytes());
    walk.note(line, What::Name(Name::new(name), own))
}

/// Notes a bound name, as a former's own or as a variable.
pub fn bound_name<'t>(
    name: &'t Text,
    own: bool,
    line: u32,
    walk: &mut Walk<'t>,
) -> Result<(), AllocError>
    ensures ok { OnOk result (walk.new ≡ after (spec.bound_name own name.now (here line walk.old)) walk.old) }
    ensures err { OnErr result (walk.new ≡ walk.old) }
{
    let own = own || walk.scope.own.has(name.bytes());
    walk.note(line, What::Name(Name::new(name), own))
}

/// Notes bound names, as a former's own or as variables.
pub fn bound_names<'t>(
    names: &[Name<'t>],
    own: bool,
    line: u32,
    walk: &mut Walk<'t>,
) -> Result<(), AllocError>
    ensures { OnOk result (walk.new ≡ after (spec.bound_names own names.now (here line walk.old)) walk.old) }
{
    for name in names {
        bound_name(name.text(), own, line, walk)?;
    }
    Ok(())
}

/// Notes what an iterator binds.
pub fn bound<'t>(
    bound: &'t Bound,
    own: bool,
    line: u32,
    walk: &mut Walk<'t>,
) -> Result<(), AllocError>
    ensures { OnOk result (walk.new ≡ after (spec.bound_names own (spec.names_of_bound bound.now) (here line walk.old)) walk.old) }
{
    let names = bound_list(walk.alloc, bound)?;
    bound_names(names.as_slice(), own, line, walk)
}

/// Notes names that a quantifier binds.
fn all_quantified<'t>(names: &[Name<'t>], line: u32, walk: &mut Walk<'t>) -> Result<(), AllocError>
    ensures { OnOk result (walk.new ≡ after (spec.all_quantified names.now (here line walk.old)) walk.old) }
{
    for name in names {
        let inside = walk.scope.inside.has(name.text().bytes());
        walk.note(line, What::Quantified(Name::new(name.text()), inside))?;
    }
    Ok(())
}
