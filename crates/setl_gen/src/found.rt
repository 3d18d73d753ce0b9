//! The variables of statements, as they stand in the source.

ghost use Rattle.std.specs.Prelude.{◌≡◌, ◌++◌, ◌∷◌, [], OnOk, map};
ghost use Rattle.std.specs.Option.{option_map};
ghost use Rattle.setl_program.specs.Program.{Undefined, no_argument};
ghost use Rattle.setl_program.specs.Lists.{chained};
ghost use Rattle.setl_program.specs.code.Plain.{plain_variable, plain_slots, plain_binding, plain_expr, plain_link, plain_exprs, plain_iterator, plain_iterators, plain_argument, plain_arguments, plain_place, plain_block, plain_stmt, selectors_of, condition_of};
ghost use Rattle.setl_model.specs.Slots.{variables_in};
ghost use Rattle.setl_code.specs.Names as names;
ghost use Rattle.setl_gen.specs.StmtKinds.{plain_kind};
ghost use Rattle.setl_gen.specs.Found.{before, behind, around, part_variables, selector_variables, branch_variables};

use setl_program::{
    Argument, Binding, Branch, Expr, Iterator, Link, Place, Selector, Stmt, StmtKind, Variable,
};
use setl_tree::Boxed;
use std::alloc::{AllocError, Global};
use std::marker::Model;

/// Variables in their order. Contracts see the list of them.
#[derive(Drop)]
pub struct Found<'p> {
    variables: Vec<&'p Variable>,
}

impl<'p> Model for Found<'p> {
    ghost use Rattle.std.specs.Prelude.{List, map};
    ghost use Rattle.setl_model_runs.specs.Variable.{Variable};
    ghost use Rattle.setl_program.specs.code.Plain.{plain_variable};

    ghost Value = { List Variable };

    ghost view = { λ f. map (λ x. plain_variable x.now) f.variables.items };
}

impl<'p> Found<'p> {
    /// No variables.
    pub fn new(alloc: Global) -> Found<'p>
        ensures { result ≡ [] }
    {
        Found {
            variables: Vec::new(alloc),
        }
    }

    /// The variables.
    pub fn as_slice(&self) -> &[&'p Variable]
        ensures { map (λ x. plain_variable x.now) result.now ≡ self.now }
    {
        self.variables.as_slice()
    }

    /// One more variable.
    pub fn push(&mut self, x: &'p Variable) -> Result<(), AllocError>
        ensures { OnOk result (self.new ≡ self.old ++ plain_variable x.now ∷ []) }
    {
        self.variables.push(x)?;
        Ok(())
    }
}

/// A variable, if there is one.
fn slot<'p>(x: &'p Option<Variable>, all: &mut Found<'p>) -> Result<(), AllocError>
    ensures { OnOk result (all.new ≡ all.old ++ variables_in (option_map plain_variable x.now ∷ [])) }
{
    match x {
        None => Ok(()),
        Some(x) => all.push(x),
    }
}

/// The variables of a list of parts.
fn slots<'p>(xs: &'p [Option<Variable>], all: &mut Found<'p>) -> Result<(), AllocError>
    ensures { OnOk result (all.new ≡ all.old ++ variables_in (plain_slots xs.now)) }
{
    for x in xs {
        slot(x, all)?;
    }
    Ok(())
}

/// The variables of a binding that stand before its source.
fn bound_before<'p>(b: &'p Binding, all: &mut Found<'p>) -> Result<(), AllocError>
    ensures { OnOk result (all.new ≡ all.old ++ before (plain_binding b.now)) }
{
    match b {
        Binding::Member(_, x) => all.push(x),
        Binding::Components(_, xs) => slots(xs.as_slice(), all),
        Binding::Point(y, _) => all.push(y),
    }
}

/// The variables of a binding that stand behind its source.
fn bound_behind<'p>(b: &'p Binding, all: &mut Found<'p>) -> Result<(), AllocError>
    ensures { OnOk result (all.new ≡ all.old ++ behind (plain_binding b.now)) }
{
    match b {
        Binding::Member(_, _) => Ok(()),
        Binding::Components(_, _) => Ok(()),
        Binding::Point(_, x) => all.push(x),
    }
}

/// The variables of an expression.
#[cycle(found)]
pub fn expr<'p>(e: &'p Expr, all: &mut Found<'p>) -> Result<(), AllocError>
    ensures { OnOk result (all.new ≡ all.old ++ names.in_expr (plain_expr e.now)) }
{
    match e {
        Expr::Integer(_) => Ok(()),
        Expr::Text(_) => Ok(()),
        Expr::Truth(_) => Ok(()),
        Expr::Undefined => Ok(()),
        Expr::Name(x) => all.push(x),
        Expr::Apply(_, es) => exprs(es.as_slice(), all),
        Expr::Chain(first, ls) => {
            expr(first.get(), all)?;
            links(ls.as_slice(), all)?;
            Ok(())
        }
        Expr::Choose(t, a, b) => {
            expr(t.get(), all)?;
            expr(a.get(), all)?;
            expr(b.get(), all)
        }
        Expr::Former(_, e, is, t) => {
            expr(e.get(), all)?;
            iterators(is.as_slice(), all)?;
            condition(t, all)
        }
        Expr::Selection(_, b, es, c) => {
            bound_before(b, all)?;
            exprs(es.as_slice(), all)?;
            bound_behind(b, all)?;
            expr(c.get(), all)
        }
        Expr::Quantified(_, is, c) => {
            iterators(is.as_slice(), all)?;
            expr(c.get(), all)
        }
        Expr::Call(_, xs) => arguments(xs.as_slice(), all),
        Expr::Newat => Ok(()),
        Expr::Eof => Ok(()),
        Expr::Ok => Ok(()),
    }
}

/// The variables of expressions.
#[cycle(found)]
pub fn exprs<'p>(es: &'p [Expr], all: &mut Found<'p>) -> Result<(), AllocError>
    ensures { OnOk result (all.new ≡ all.old ++ names.in_exprs (plain_exprs es.now)) }
{
    for e in es {
        expr(e, all)?;
    }
    Ok(())
}

/// The variables of links: those of what they make of `om`.
#[cycle(found)]
fn links<'p>(ls: &'p [Link], all: &mut Found<'p>) -> Result<(), AllocError>
    ensures { OnOk result (all.new ≡ all.old ++ names.in_expr (chained Undefined (map plain_link ls.now))) }
{
    for l in ls {
        link(l, all)?;
    }
    Ok(())
}

/// The variables of a link: those of what it makes of `om`.
#[cycle(found)]
fn link<'p>(l: &'p Link, all: &mut Found<'p>) -> Result<(), AllocError>
    ensures { OnOk result (all.new ≡ all.old ++ names.in_expr (plain_link l.now Undefined)) }
{
    match l {
        Link::Unary(_) => Ok(()),
        Link::Binary(_, x) => expr(x, all),
        Link::Ternary(_, x, y) => {
            expr(x.get(), all)?;
            expr(y.get(), all)
        }
        Link::Connect(_, x) => expr(x.get(), all),
    }
}

/// The variables of iterators.
#[cycle(found)]
pub fn iterators<'p>(is: &'p [Iterator], all: &mut Found<'p>) -> Result<(), AllocError>
    ensures { OnOk result (all.new ≡ all.old ++ names.in_iterators (plain_iterators is.now)) }
{
    for i in is {
        iterator(i, all)?;
    }
    Ok(())
}

/// The variables of an iterator.
#[cycle(found)]
fn iterator<'p>(i: &'p Iterator, all: &mut Found<'p>) -> Result<(), AllocError>
    ensures { OnOk result (all.new ≡ all.old ++ around (plain_iterator i.now)) }
{
    bound_before(&i.binding, all)?;
    exprs(i.sources.as_slice(), all)?;
    bound_behind(&i.binding, all)
}

/// The variables of a condition.
#[cycle(found)]
fn condition<'p>(t: &'p Option<Boxed<Expr>>, all: &mut Found<'p>) -> Result<(), AllocError>
    ensures { OnOk result (all.new ≡ all.old ++ names.in_condition (condition_of (option_map plain_expr t.now))) }
{
    match t {
        None => Ok(()),
        Some(c) => expr(c.get(), all),
    }
}

/// The variables of arguments.
#[cycle(found)]
fn arguments<'p>(xs: &'p [Argument], all: &mut Found<'p>) -> Result<(), AllocError>
    ensures { OnOk result (all.new ≡ all.old ++ names.in_arguments (plain_arguments xs.now)) }
{
    for x in xs {
        argument(x, all)?;
    }
    Ok(())
}

/// The variables of an argument.
#[cycle(found)]
fn argument<'p>(x: &'p Argument, all: &mut Found<'p>) -> Result<(), AllocError>
    ensures { OnOk result (all.new ≡ all.old ++ part_variables (plain_argument x.now no_argument)) }
{
    match x {
        Argument::Rd(e) => expr(e, all),
        Argument::Wr(x) => all.push(x),
        Argument::Rw(x) => all.push(x),
    }
}

/// The variables of selectors.
fn selectors<'p>(selectors: &'p [Selector], all: &mut Found<'p>) -> Result<(), AllocError>
    ensures { OnOk result (all.new ≡ all.old ++ names.in_selectors (selectors_of selectors.now)) }
{
    for s in selectors {
        selector(s, all)?;
    }
    Ok(())
}

/// The variables of a selector.
fn selector<'p>(s: &'p Selector, all: &mut Found<'p>) -> Result<(), AllocError>
    ensures { OnOk result (all.new ≡ all.old ++ selector_variables s.now) }
{
    match s {
        Selector::Round(e) => expr(e, all),
        Selector::Brace(e) => expr(e, all),
    }
}

/// The variables of a place.
fn place<'p>(p: &'p Place, all: &mut Found<'p>) -> Result<(), AllocError>
    ensures { OnOk result (all.new ≡ all.old ++ names.in_place (plain_place p.now)) }
{
    all.push(&p.variable)?;
    selectors(p.selectors.as_slice(), all)
}

/// Variables.
fn variables<'p>(xs: &'p [Variable], all: &mut Found<'p>) -> Result<(), AllocError>
    ensures { OnOk result (all.new ≡ all.old ++ map plain_variable xs.now) }
{
    for x in xs {
        all.push(x)?;
    }
    Ok(())
}

/// The variables of statements.
#[cycle(stmts)]
pub fn block<'p>(statements: &'p [Stmt], all: &mut Found<'p>) -> Result<(), AllocError>
    ensures { OnOk result (all.new ≡ all.old ++ names.in_block (plain_block statements.now)) }
{
    for s in statements {
        stmt(s, all)?;
    }
    Ok(())
}

/// The variables of a statement.
#[cycle(stmts)]
fn stmt<'p>(s: &'p Stmt, all: &mut Found<'p>) -> Result<(), AllocError>
    ensures { OnOk result (all.new ≡ all.old ++ names.in_stmt (plain_stmt s.now).1) }
{
    kind(&s.kind, all)
}

/// The variables of what a statement is.
#[cycle(stmts)]
fn kind<'p>(kind: &'p StmtKind, all: &mut Found<'p>) -> Result<(), AllocError>
    ensures { OnOk result (all.new ≡ all.old ++ names.in_stmt (plain_kind kind.now)) }
{
    match kind {
        StmtKind::Assign(p, e) => {
            place(p, all)?;
            expr(e, all)
        }
        StmtKind::Update(_, p, e) => {
            place(p, all)?;
            expr(e, all)
        }
        StmtKind::AssignParts(xs, e) => {
            slots(xs.as_slice(), all)?;
            expr(e, all)
        }
        StmtKind::TakeFrom(_, x, p) => {
            all.push(x)?;
            place(p, all)
        }
        StmtKind::Perform(e) => expr(e, all),
        StmtKind::If(c, x, further, y) => {
            expr(c, all)?;
            block(x.as_slice(), all)?;
            branches(further.as_slice(), all)?;
            block(y.as_slice(), all)?;
            Ok(())
        }
        StmtKind::For(is, t, b) => {
            iterators(is.as_slice(), all)?;
            optional(t, all)?;
            block(b.as_slice(), all)?;
            Ok(())
        }
        StmtKind::While(c, b) => {
            expr(c, all)?;
            block(b.as_slice(), all)?;
            Ok(())
        }
        StmtKind::Quit => Ok(()),
        StmtKind::Continue => Ok(()),
        StmtKind::Fail => Ok(()),
        StmtKind::Succeed => Ok(()),
        StmtKind::Stop => Ok(()),
        StmtKind::Pass => Ok(()),
        StmtKind::Return(e) => expr(e, all),
        StmtKind::Print(es) => exprs(es.as_slice(), all),
        StmtKind::Read(xs) => variables(xs.as_slice(), all),
    }
}

/// The variables of a condition, if there is one.
fn optional<'p>(t: &'p Option<Expr>, all: &mut Found<'p>) -> Result<(), AllocError>
    ensures { OnOk result (all.new ≡ all.old ++ names.in_condition (condition_of (option_map plain_expr t.now))) }
{
    match t {
        None => Ok(()),
        Some(c) => expr(c, all),
    }
}

/// The variables of further branches.
#[cycle(stmts)]
fn branches<'p>(branches: &'p [Branch], all: &mut Found<'p>) -> Result<(), AllocError>
    ensures { OnOk result (all.new ≡ all.old ++ branch_variables branches.now) }
{
    for b in branches {
        expr(&b.condition, all)?;
        block(b.body.as_slice(), all)?;
    }
    Ok(())
}
