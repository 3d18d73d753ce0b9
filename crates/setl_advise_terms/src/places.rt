//! The flows of places, and of what their variables hold once a part has another flow.

ghost use Rattle.std.specs.Prelude.{◌≡◌, IfOk, map};
ghost use Rattle.setl_program.specs.code.Plain.{plain_place, selectors_of};
ghost use Rattle.setl_advise_flows.specs.Expressions as expressions;
ghost use Rattle.setl_advise_flows.specs.Expressions.{Flows, ats_of};
ghost use Rattle.setl_advise_lattice.specs.code.Levels.{flow_of};
ghost use Rattle.setl_advise_conditions.specs.Conditions.{place_flow, after_flow};
ghost use Rattle.setl_advise_terms.specs.Selected as selected;
ghost use Rattle.setl_advise_terms.specs.Selected.{at_of, inner, put_in, levels_of};
ghost use Rattle.setl_advise_terms.specs.code.Plain.{flows_of, plain_at, plain_selected};

use crate::shapes::flow_at;
use crate::table::Table;
use setl_advise_gathering::{Target, name_of};
use setl_advise_lattice::{Flow, get_flow, images_flow, put_flow, put_images_flow};
use setl_program::{Place, Selector};
use std::alloc::{AllocError, Global};

/// A selector by the flow of its expression.
#[derive(Clone, Copy)]
pub enum At {
    Round(Flow),
    Brace(Flow),
}

/// A selector, with the flow of what it selects from.
#[derive(Clone, Copy)]
pub struct Selected {
    pub at: At,
    pub from: Flow,
}

/// What a selector selects from a flow.
fn inner(s: &Selector, f: Flow) -> Flow
    ensures { (t : Flows) → flow_of result ≡ inner (at_of t s.now) (flow_of f) }
{
    match s {
        Selector::Round(_) => get_flow(f),
        Selector::Brace(_) => images_flow(f),
    }
}

/// What selectors select from a flow, from the outside in.
fn part(ss: &[Selector], f: Flow) -> Flow
    ensures { (t : Flows) → flow_of result ≡ expressions.part_flow (ats_of t (selectors_of ss.now)) (flow_of f) }
{
    let mut all = f;
    for s in ss {
        all = inner(s, all);
    }
    all
}

/// A selector by the flow of its expression. An error is want of memory.
fn selector<'p>(alloc: Global, table: &Table<'p>, s: &'p Selector) -> Result<At, AllocError>
    ensures { IfOk result (λ a. plain_at a ≡ at_of (flows_of table.now) s.now) }
{
    match s {
        Selector::Round(e) => Ok(At::Round(flow_at(alloc, table, e)?)),
        Selector::Brace(e) => Ok(At::Brace(flow_at(alloc, table, e)?)),
    }
}

/// Selectors with the flows of what they select from, where the outermost selects from this flow. An error is want of
/// memory.
fn levels<'p>(
    alloc: Global,
    table: &Table<'p>,
    ss: &'p [Selector],
    f: Flow,
) -> Result<Vec<Selected>, AllocError>
    ensures { IfOk result (λ ls. map plain_selected ls.items ≡ levels_of (ats_of (flows_of table.now) (selectors_of ss.now)) (flow_of f)) }
{
    let mut all = Vec::new(alloc);
    let mut from = f;
    for s in ss {
        let at = selector(alloc, table, s)?;
        all.push(Selected { at, from })?;
        from = inner(s, from);
    }
    Ok(all)
}

/// The whole after the part that a selector selects has a flow.
fn put(l: Selected, y: Flow) -> Flow
    ensures { flow_of result ≡ put_in (plain_selected l).0 (plain_selected l).1 (flow_of y) }
{
    match l.at {
        At::Round(x) => put_flow(l.from, x, y),
        At::Brace(x) => put_images_flow(l.from, x, y),
    }
}

/// The whole after the innermost part has a flow.
fn rebuilt(ls: &[Selected], y: Flow) -> Flow
    ensures { flow_of result ≡ selected.rebuilt (map plain_selected ls.now) (flow_of y) }
{
    let mut all = y;
    let mut at = ls.len();
    'levels: while at > 0 {
        at -= 1;
        all = put(ls[at], all);
    }
    all
}

/// The flow of a place.
pub(crate) fn place(table: &Table<'_>, p: &Place) -> Flow
    ensures { flow_of result ≡ place_flow (flows_of table.now) (plain_place p.now) }
{
    part(
        p.selectors.as_slice(),
        table.get(Target::Into(name_of(&p.variable))),
    )
}

/// What the variable of a place holds after the place has a flow. An error is want of memory.
pub(crate) fn after<'p>(
    alloc: Global,
    table: &Table<'p>,
    p: &'p Place,
    y: Flow,
) -> Result<Flow, AllocError>
    ensures { IfOk result (λ f. flow_of f ≡ after_flow (flows_of table.now) (plain_place p.now) (flow_of y)) }
{
    let whole = table.get(Target::Into(name_of(&p.variable)));
    let ls = levels(alloc, table, p.selectors.as_slice(), whole)?;
    Ok(rebuilt(ls.as_slice(), y))
}
