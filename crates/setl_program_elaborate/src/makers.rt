//! Expressions of a program by their parts. An error of each is want of memory.

ghost use Rattle.std.specs.Prelude.{◌≡◌, [], ◌∷◌, ◌++◌, Ok, map, option_map, IfOk, OnOk};
ghost use Rattle.setl_value.specs.Datum as datum;
ghost use Rattle.setl_program.specs.Operators as spec;
ghost use Rattle.setl_program.specs.Expressions as terms;
ghost use Rattle.setl_program.specs.Program as plain;
ghost use Rattle.setl_program.specs.Lists.{exprs_of, iterators_of, condition_of, block_of, otherwise};
ghost use Rattle.setl_program.specs.code.Plain.{plain_expr, plain_binding, plain_iterator, plain_argument, plain_arguments, plain_kind, plain_stmt, plain_branch, plain_slots};

use crate::chain::Chain;
use crate::operators;
use setl_operators_table::Operator;
use setl_program::{
    Argument, Binding, Branch, Collection, Expr, Iterator, Link, Quantifier, Stmt, StmtKind,
    Variable,
};
use setl_tree::{Boxed, Items, Prefix, Text};
use std::alloc::{AllocError, Global};

/// What was made, where the other is let go.
pub fn without<T: Drop, U: Drop>(_other: T, made: U) -> U
    ensures { result ≡ made }
{
    made
}

/// Puts what was made at the end of a list. An error is also that of what was to be made.
pub fn put<T: Drop>(all: &mut Items<T>, made: Result<T, AllocError>) -> Result<(), AllocError>
    ensures { OnOk result ((x : T) × (made ≡ Ok x) × (all.new ≡ all.old ++ x ∷ [])) }
{
    all.push(made?)
}

/// Puts an expression at the end of a list.
#[inline(never)]
pub fn put_expr(all: &mut Items<Expr>, made: Boxed<Expr>) -> Result<(), AllocError>
    ensures { OnOk result (all.new ≡ all.old ++ made ∷ []) }
{
    all.push(made.into_inner())
}

/// Puts an iterator at the end of a list.
#[inline(never)]
pub fn put_iterator(all: &mut Items<Iterator>, made: Boxed<Iterator>) -> Result<(), AllocError>
    ensures { OnOk result (all.new ≡ all.old ++ made ∷ []) }
{
    all.push(made.into_inner())
}

/// Puts a value that is passed in at the end of arguments.
#[inline(never)]
pub fn put_value(all: &mut Items<Argument>, made: Boxed<Expr>) -> Result<(), AllocError>
    ensures { OnOk result (map plain_argument all.new ≡ map plain_argument all.old ++ plain.rd_argument (plain_expr made) ∷ []) }
{
    all.push(Argument::Rd(made.into_inner()))
}

/// Puts a statement on this line at the end of a list.
#[inline(never)]
pub fn put_stmt(all: &mut Items<Stmt>, line: u32, kind: Boxed<StmtKind>) -> Result<(), AllocError>
    ensures { OnOk result (map plain_stmt all.new ≡ map plain_stmt all.old ++ (line, plain_kind kind) ∷ []) }
{
    let kind = kind.into_inner();
    all.push(Stmt { line, kind })
}

/// Puts a condition on this line with the statements that it guards at the end of a list.
#[inline(never)]
pub fn put_branch(
    all: &mut Items<Branch>,
    line: u32,
    condition: Boxed<Expr>,
    body: Items<Stmt>,
) -> Result<(), AllocError>
    ensures { OnOk result (map plain_branch all.new ≡ map plain_branch all.old ++ (λ rest. plain.more_stmts line (plain.If (plain_expr condition) (block_of (map plain_stmt body)) rest) plain.no_stmt) ∷ []) }
{
    let condition = condition.into_inner();
    all.push(Branch {
        line,
        condition,
        body,
    })
}

/// The list of one expression.
#[inline(never)]
pub fn alone(alloc: Global, x: Expr) -> Result<Items<Expr>, AllocError>
    ensures { IfOk result (λ all. all ≡ x ∷ []) }
{
    let mut all = Items::new(alloc);
    all.push(x)?;
    Ok(all)
}

/// A literal string.
#[inline(never)]
pub fn string(alloc: Global, text: &Text) -> Result<Boxed<Expr>, AllocError>
    ensures { IfOk result (λ e. plain_expr e ≡ plain.Literal (datum.text text.now)) }
{
    Boxed::new(alloc, Expr::Text(text.copy()?))
}

/// An operator over two operands.
#[inline(never)]
pub fn two(
    alloc: Global,
    operator: Operator,
    left: Boxed<Expr>,
    right: Boxed<Expr>,
) -> Result<Boxed<Expr>, AllocError>
    ensures { IfOk result (λ e. plain_expr e ≡ spec.two operator (plain_expr left) (plain_expr right)) }
{
    let mut all = Chain::new(alloc, left);
    all.apply(operator, right)?;
    all.finish(alloc)
}

/// Prefixes before an operand, from the outside in.
#[inline(never)]
pub fn prefixes(
    alloc: Global,
    prefixes: &[Prefix],
    operand: Boxed<Expr>,
) -> Result<Boxed<Expr>, AllocError>
    ensures { IfOk result (λ e. plain_expr e ≡ terms.prefixes prefixes.now (plain_expr operand)) }
{
    let mut all = Chain::new(alloc, operand);
    let mut left = prefixes.len();
    while left > 0 {
        left -= 1;
        all.push(Link::Unary(operators::prefix(prefixes[left])))?;
    }
    all.finish(alloc)
}

/// `if` over its condition and the two values.
#[inline(never)]
pub fn choice(
    alloc: Global,
    condition: Boxed<Expr>,
    value: Boxed<Expr>,
    other: Boxed<Expr>,
) -> Result<Boxed<Expr>, AllocError>
    ensures { IfOk result (λ e. plain_expr e ≡ plain.Choose (plain_expr condition) (plain_expr value) (plain_expr other)) }
{
    Boxed::new(alloc, Expr::Choose(condition, value, other))
}

/// The members of a set or the components of a tuple, written one by one.
#[inline(never)]
pub fn enumeration(
    alloc: Global,
    collection: Collection,
    all: Items<Expr>,
) -> Result<Boxed<Expr>, AllocError>
    ensures { IfOk result (λ e. plain_expr e ≡ plain.Apply (terms.enumeration collection) (exprs_of (map plain_expr all))) }
{
    Boxed::new(alloc, Expr::Apply(operators::enumeration(collection), all))
}

/// A quantifier.
#[inline(never)]
pub fn quantified(
    alloc: Global,
    word: Quantifier,
    iterators: Items<Iterator>,
    condition: Boxed<Expr>,
) -> Result<Boxed<Expr>, AllocError>
    ensures { IfOk result (λ e. plain_expr e ≡ plain.Quantified word (iterators_of (map plain_iterator iterators)) (plain_expr condition)) }
{
    Boxed::new(alloc, Expr::Quantified(word, iterators, condition))
}

/// An iterator by what it binds and the parts of its source.
#[inline(never)]
pub fn iterator(
    alloc: Global,
    binding: Binding,
    sources: Items<Expr>,
) -> Result<Boxed<Iterator>, AllocError>
    ensures { IfOk result (λ i. plain_iterator i ≡ (plain_binding binding, exprs_of (map plain_expr sources))) }
{
    Boxed::new(alloc, Iterator { binding, sources })
}

/// A former that collects an expression.
#[inline(never)]
pub fn former(
    alloc: Global,
    collection: Collection,
    value: Boxed<Expr>,
    iterators: Items<Iterator>,
    condition: Option<Boxed<Expr>>,
) -> Result<Boxed<Expr>, AllocError>
    ensures { IfOk result (λ e. plain_expr e ≡ plain.Former collection (plain_expr value) (iterators_of (map plain_iterator iterators)) (condition_of (option_map plain_expr condition))) }
{
    Boxed::new(alloc, Expr::Former(collection, value, iterators, condition))
}

/// A former that collects its members.
#[inline(never)]
pub fn selection(
    alloc: Global,
    collection: Collection,
    iterator: Boxed<Iterator>,
    condition: Boxed<Expr>,
) -> Result<Boxed<Expr>, AllocError>
    ensures { IfOk result (λ e. plain_expr e ≡ plain.Selection collection (plain_iterator iterator).0 (plain_iterator iterator).1 (plain_expr condition)) }
{
    let Iterator { binding, sources } = iterator.into_inner();
    Boxed::new(
        alloc,
        Expr::Selection(collection, binding, sources, condition),
    )
}

/// A call of the procedure at a place. The error is want of memory, or that the place is 2^32 or more, where no memory was
/// refused. A source of 2^24 bytes has no 2^32 procedures.
#[inline(never)]
pub fn call(
    alloc: Global,
    place: usize,
    arguments: Items<Argument>,
) -> Result<Boxed<Expr>, AllocError>
    ensures { IfOk result (λ e. plain_expr e ≡ plain.Call place (plain_arguments arguments)) }
{
    match u32::try_from(place) {
        Err(_) => Err(AllocError),
        Ok(place) => Boxed::new(alloc, Expr::Call(place, arguments)),
    }
}

/// An assignment to a tuple of variables.
#[inline(never)]
pub fn parts_assignment(
    alloc: Global,
    slots: Items<Option<Variable>>,
    value: Boxed<Expr>,
) -> Result<Boxed<StmtKind>, AllocError>
    ensures { IfOk result (λ x. plain_kind x ≡ plain.AssignParts (plain_slots slots) (plain_expr value)) }
{
    let value = value.into_inner();
    Boxed::new(alloc, StmtKind::AssignParts(slots, value))
}

/// `if` with its branches.
#[inline(never)]
pub fn if_statement(
    alloc: Global,
    condition: Boxed<Expr>,
    body: Items<Stmt>,
    branches: Items<Branch>,
    last: Items<Stmt>,
) -> Result<Boxed<StmtKind>, AllocError>
    ensures { IfOk result (λ x. plain_kind x ≡ plain.If (plain_expr condition) (block_of (map plain_stmt body)) (otherwise (map plain_branch branches) (block_of (map plain_stmt last)))) }
{
    let condition = condition.into_inner();
    Boxed::new(alloc, StmtKind::If(condition, body, branches, last))
}

/// A loop over iterators.
#[inline(never)]
pub fn for_loop(
    alloc: Global,
    iterators: Items<Iterator>,
    condition: Option<Boxed<Expr>>,
    body: Items<Stmt>,
) -> Result<Boxed<StmtKind>, AllocError>
    ensures { IfOk result (λ x. plain_kind x ≡ plain.For (iterators_of (map plain_iterator iterators)) (condition_of (option_map plain_expr condition)) (block_of (map plain_stmt body))) }
{
    let condition = match condition {
        None => None,
        Some(condition) => Some(condition.into_inner()),
    };
    Boxed::new(alloc, StmtKind::For(iterators, condition, body))
}

/// A loop with a condition.
#[inline(never)]
pub fn while_loop(
    alloc: Global,
    condition: Boxed<Expr>,
    body: Items<Stmt>,
) -> Result<Boxed<StmtKind>, AllocError>
    ensures { IfOk result (λ x. plain_kind x ≡ plain.While (plain_expr condition) (block_of (map plain_stmt body))) }
{
    let condition = condition.into_inner();
    Boxed::new(alloc, StmtKind::While(condition, body))
}
