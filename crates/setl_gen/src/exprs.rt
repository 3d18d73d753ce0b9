//! Expressions.

ghost use Rattle.std.specs.Prelude.{◌≡◌, OnOk, IfOk, Some, map};
ghost use Rattle.std.specs.Option.{option_map};
ghost use Rattle.setl_program.specs.Program.{Apply, Connect, Choose, Former, Selection, Quantified, Call, only_if, no_argument};
ghost use Rattle.setl_program.specs.Operators.{one, two};
ghost use Rattle.setl_program.specs.Lists.{chained};
ghost use Rattle.setl_program.specs.code.Plain.{plain_expr, plain_link, plain_exprs, plain_binding, plain_iterator, plain_iterators, plain_argument, plain_arguments, condition_of};
ghost use Rattle.setl_code.specs.Generated as code;
ghost use Rattle.setl_gen_emitter.specs.Emitted.{held, here, after};
ghost use Rattle.setl_gen.specs.Heads.{CodeGoesOn, begun, next, opened, argument_code};

use setl_code::{Instr, Literal};
use setl_gen_emitter::{
    Emitter, add_and_go_on, begin, begin_selection, bind, end_undecided, keep_or_drop,
    leave_decided, number, store_set,
};
use setl_operators_table::Operator;
use setl_program::{Argument, Binding, Collection, Connective, Expr, Iterator, Link, Quantifier};
use setl_tree::Boxed;
use std::alloc::AllocError;

/// An expression.
#[cycle(expr)]
pub fn expr<'p>(emitter: &mut Emitter<'p>, line: u32, e: &'p Expr) -> Result<(), AllocError>
    ensures { OnOk result (held emitter.new ≡ after (code.expr line (plain_expr e.now)) (held emitter.old)) }
{
    match e {
        Expr::Integer(n) => emitter.put(line, Instr::Integer(Literal::new(*n))),
        Expr::Text(t) => emitter.text(line, t),
        Expr::Truth(t) => emitter.put(line, Instr::Truth(*t)),
        Expr::Undefined => emitter.put(line, Instr::Undefined),
        Expr::Name(x) => emitter.load(line, x),
        Expr::Apply(o, es) => apply(emitter, line, *o, es.as_slice()),
        Expr::Chain(first, ls) => chain(emitter, line, ls.as_slice(), first.get()),
        Expr::Choose(t, a, b) => choose(emitter, line, t.get(), a.get(), b.get()),
        Expr::Former(collection, e, is, t) => former(
            emitter,
            line,
            *collection,
            e.get(),
            is.as_slice(),
            t,
        ),
        Expr::Selection(collection, b, es, c) => selection(
            emitter,
            line,
            *collection,
            b,
            es.as_slice(),
            c.get(),
        ),
        Expr::Quantified(quantifier, is, c) => quantified(
            emitter,
            line,
            *quantifier,
            is.as_slice(),
            c.get(),
        ),
        Expr::Call(f, all) => call(emitter, line, *f, all.as_slice()),
        Expr::Newat => emitter.put(line, Instr::NewAtom),
        Expr::Eof => emitter.put(line, Instr::Eof),
        Expr::Ok => emitter.put(line, Instr::Keep),
    }
}

/// An expression with links behind it.
#[cycle(expr)]
fn chain<'p>(
    emitter: &mut Emitter<'p>,
    line: u32,
    ls: &'p [Link],
    first: &'p Expr,
) -> Result<(), AllocError>
    ensures { OnOk result (held emitter.new ≡ after (code.expr line (chained (plain_expr first.now) (map plain_link ls.now))) (held emitter.old)) }
{
    expr(emitter, line, first)?;
    links(emitter, line, ls)?;
    Ok(())
}

/// An `if` expression.
#[cycle(expr)]
fn choose<'p>(
    emitter: &mut Emitter<'p>,
    line: u32,
    t: &'p Expr,
    a: &'p Expr,
    b: &'p Expr,
) -> Result<(), AllocError>
    ensures { OnOk result (held emitter.new ≡ after (code.expr line (Choose (plain_expr t.now) (plain_expr a.now) (plain_expr b.now))) (held emitter.old)) }
{
    expr(emitter, line, t)?;
    let test = emitter.step(line, Instr::Unless(0))?;
    expr(emitter, line, a)?;
    let over = emitter.step(line, Instr::Jump(0))?;
    emitter.unless_here(test, line)?;
    expr(emitter, line, b)?;
    emitter.jump_here(over, line)?;
    Ok(())
}

/// A former that collects an expression.
#[cycle(expr)]
fn former<'p>(
    emitter: &mut Emitter<'p>,
    line: u32,
    collection: Collection,
    e: &'p Expr,
    is: &'p [Iterator],
    t: &'p Option<Boxed<Expr>>,
) -> Result<(), AllocError>
    ensures { OnOk result (held emitter.new ≡ after (code.expr line (Former collection (plain_expr e.now) (plain_iterators is.now) (condition_of (option_map plain_expr t.now)))) (held emitter.old)) }
{
    emitter.put(line, Instr::Collect(collection))?;
    let (first, innermost) = iterators(emitter, line, is)?;
    condition(emitter, line, t, innermost)?;
    expr(emitter, line, e)?;
    add_and_go_on(emitter, line, is.len(), innermost)?;
    emitter.next_here(first, line)?;
    Ok(())
}

/// A former that collects its members.
#[cycle(expr)]
fn selection<'p>(
    emitter: &mut Emitter<'p>,
    line: u32,
    collection: Collection,
    b: &'p Binding,
    es: &'p [Expr],
    c: &'p Expr,
) -> Result<(), AllocError>
    ensures { OnOk result (held emitter.new ≡ after (code.expr line (Selection collection (plain_binding b.now) (plain_exprs es.now) (plain_expr c.now))) (held emitter.old)) }
{
    emitter.put(line, Instr::Collect(collection))?;
    exprs(emitter, line, es)?;
    let next = begin_selection(emitter, line, b, es.len())?;
    expr(emitter, line, c)?;
    keep_or_drop(emitter, line, next)?;
    emitter.next_here(next, line)?;
    Ok(())
}

/// A quantifier.
#[cycle(expr)]
fn quantified<'p>(
    emitter: &mut Emitter<'p>,
    line: u32,
    quantifier: Quantifier,
    is: &'p [Iterator],
    c: &'p Expr,
) -> Result<(), AllocError>
    ensures { OnOk result (held emitter.new ≡ after (code.expr line (Quantified quantifier (plain_iterators is.now) (plain_expr c.now))) (held emitter.old)) }
{
    let outer = emitter.enter();
    let (first, innermost) = iterators(emitter, line, is)?;
    expr(emitter, line, c)?;
    leave_decided(emitter, line, quantifier, is.len(), innermost)?;
    emitter.next_here(first, line)?;
    let inner = emitter.leave(outer);
    end_undecided(emitter, line, quantifier, is, inner)?;
    Ok(())
}

/// Expressions in their order.
#[cycle(expr)]
pub fn exprs<'p>(emitter: &mut Emitter<'p>, line: u32, es: &'p [Expr]) -> Result<(), AllocError>
    ensures { OnOk result (held emitter.new ≡ after (code.exprs line (plain_exprs es.now)) (held emitter.old)) }
{
    for e in es {
        expr(emitter, line, e)?;
    }
    Ok(())
}

/// An operator over its operands.
#[cycle(expr)]
fn apply<'p>(
    emitter: &mut Emitter<'p>,
    line: u32,
    o: Operator,
    es: &'p [Expr],
) -> Result<(), AllocError>
    ensures { OnOk result (held emitter.new ≡ after (code.expr line (Apply o (plain_exprs es.now))) (held emitter.old)) }
{
    exprs(emitter, line, es)?;
    let count = number(es.len())?;
    emitter.put(line, Instr::Operate(o, count))?;
    Ok(())
}

/// Links behind an expression.
#[cycle(expr)]
fn links<'p>(emitter: &mut Emitter<'p>, line: u32, ls: &'p [Link]) -> Result<(), AllocError>
    ensures { OnOk result (CodeGoesOn line (λ e. chained e (map plain_link ls.now)) (held emitter.old) (held emitter.new)) }
{
    for l in ls {
        link(emitter, line, l)?;
    }
    Ok(())
}

/// A link behind an expression.
#[cycle(expr)]
fn link<'p>(emitter: &mut Emitter<'p>, line: u32, l: &'p Link) -> Result<(), AllocError>
    ensures { OnOk result (CodeGoesOn line (plain_link l.now) (held emitter.old) (held emitter.new)) }
{
    match l {
        Link::Unary(o) => unary(emitter, line, *o),
        Link::Binary(o, x) => binary(emitter, line, *o, x),
        Link::Ternary(o, x, y) => {
            expr(emitter, line, x.get())?;
            expr(emitter, line, y.get())?;
            emitter.put(line, Instr::Operate(*o, 3))?;
            Ok(())
        }
        Link::Connect(connective, x) => connect(emitter, line, *connective, x.get()),
    }
}

/// An operator behind its one operand.
fn unary(emitter: &mut Emitter<'_>, line: u32, o: Operator) -> Result<(), AllocError>
    ensures { OnOk result (CodeGoesOn line (one o) (held emitter.old) (held emitter.new)) }
{
    emitter.put(line, Instr::Operate(o, 1))?;
    Ok(())
}

/// An operator with its second operand, behind the first.
#[cycle(expr)]
fn binary<'p>(
    emitter: &mut Emitter<'p>,
    line: u32,
    o: Operator,
    x: &'p Expr,
) -> Result<(), AllocError>
    ensures { OnOk result (CodeGoesOn line (λ e. two o e (plain_expr x.now)) (held emitter.old) (held emitter.new)) }
{
    expr(emitter, line, x)?;
    emitter.put(line, Instr::Operate(o, 2))?;
    Ok(())
}

/// A connective with its right part, behind the left one.
#[cycle(expr)]
fn connect<'p>(
    emitter: &mut Emitter<'p>,
    line: u32,
    connective: Connective,
    x: &'p Expr,
) -> Result<(), AllocError>
    ensures { OnOk result (CodeGoesOn line (λ e. Connect connective e (plain_expr x.now)) (held emitter.old) (held emitter.new)) }
{
    let test = emitter.step(line, Instr::Decide(connective, 0))?;
    expr(emitter, line, x)?;
    emitter.put(line, Instr::TestTruth)?;
    emitter.decide_here(test, line, connective)?;
    Ok(())
}

/// An iterator up to its first binding, whose end leads back. It gives the place of the iterator's next step.
#[cycle(expr)]
fn head<'p>(
    emitter: &mut Emitter<'p>,
    line: u32,
    i: &'p Iterator,
    back: u32,
) -> Result<u32, AllocError>
    ensures place { IfOk result (λ at. at ≡ here (after (begun line (plain_iterator i.now)) (held emitter.old))) }
    ensures code { OnOk result (held emitter.new ≡ after (next line back (plain_iterator i.now)) (after (begun line (plain_iterator i.now)) (held emitter.old))) }
{
    exprs(emitter, line, i.sources.as_slice())?;
    let count = number(i.sources.len())?;
    begin(emitter, line, &i.binding, count)?;
    let at = emitter.step(line, Instr::Next(back))?;
    bind(emitter, line, &i.binding)?;
    Ok(at)
}

/// Iterators up to the binding of the last one, where the end of the first one has no target yet. It gives the place of
/// the first one's next step, and where the innermost goes on. The error is want of memory, a limit of the code
/// (`number`), or that there is no iterator, which formed programs rule out (`HasIterator`).
#[cycle(expr)]
pub fn iterators<'p>(
    emitter: &mut Emitter<'p>,
    line: u32,
    is: &'p [Iterator],
) -> Result<(u32, u32), AllocError>
    ensures { IfOk result (λ r. opened line (plain_iterators is.now) (held emitter.old) ≡ Some (r.0, held emitter.new, r.1)) }
{
    let mut first = None;
    let mut at = 0;
    for i in is {
        at = head(emitter, line, i, at)?;
        first = Some(first.unwrap_or(at));
    }
    match first {
        None => Err(AllocError),
        Some(first) => Ok((first, at)),
    }
}

/// A condition that goes back where it doesn't hold.
#[cycle(expr)]
fn condition<'p>(
    emitter: &mut Emitter<'p>,
    line: u32,
    t: &'p Option<Boxed<Expr>>,
    back: u32,
) -> Result<(), AllocError>
    ensures { OnOk result (held emitter.new ≡ after (code.condition line (condition_of (option_map plain_expr t.now)) back) (held emitter.old)) }
{
    match t {
        None => Ok(()),
        Some(c) => tested(emitter, line, c.get(), back),
    }
}

/// A test that goes back where it doesn't hold.
#[cycle(expr)]
pub fn tested<'p>(
    emitter: &mut Emitter<'p>,
    line: u32,
    c: &'p Expr,
    back: u32,
) -> Result<(), AllocError>
    ensures { OnOk result (held emitter.new ≡ after (code.condition line (only_if (plain_expr c.now)) back) (held emitter.old)) }
{
    expr(emitter, line, c)?;
    emitter.put(line, Instr::Unless(back))?;
    Ok(())
}

/// An argument of a call.
#[cycle(expr)]
fn argument<'p>(emitter: &mut Emitter<'p>, line: u32, x: &'p Argument) -> Result<(), AllocError>
    ensures { OnOk result (held emitter.new ≡ after (argument_code line (plain_argument x.now no_argument)) (held emitter.old)) }
{
    match x {
        Argument::Rd(e) => expr(emitter, line, e),
        Argument::Wr(_) => emitter.put(line, Instr::Undefined),
        Argument::Rw(x) => emitter.load(line, x),
    }
}

/// Arguments of a call.
#[cycle(expr)]
fn arguments<'p>(
    emitter: &mut Emitter<'p>,
    line: u32,
    all: &'p [Argument],
) -> Result<(), AllocError>
    ensures { OnOk result (held emitter.new ≡ after (code.arguments line (plain_arguments all.now)) (held emitter.old)) }
{
    for x in all {
        argument(emitter, line, x)?;
    }
    Ok(())
}

/// A call of a procedure.
#[cycle(expr)]
fn call<'p>(
    emitter: &mut Emitter<'p>,
    line: u32,
    f: u32,
    all: &'p [Argument],
) -> Result<(), AllocError>
    ensures { OnOk result (held emitter.new ≡ after (code.expr line (Call f (plain_arguments all.now))) (held emitter.old)) }
{
    arguments(emitter, line, all)?;
    let body = number(f as usize + 1)?;
    emitter.put(line, Instr::Call(body))?;
    store_set(emitter, line, all)?;
    Ok(())
}
