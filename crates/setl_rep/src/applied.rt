//! Operators on forms.

ghost use Rattle.std.specs.Prelude.{◌≡◌, true, length, map, IfOk, IsOk};
ghost use Rattle.setl_value.specs.code.DatumOf.{part};
ghost use Rattle.setl_operators_table.specs.Operators.{op_of, TakesOperands};
ghost use Rattle.setl_rep_plain.specs.Standing.{held_value, IsHeldOver};
ghost use Rattle.setl_rep.specs.ByKernel.{has_changed, has_kernel, is_combined, is_mapped, is_told, IsLikeFirst};
ghost use Rattle.setl_rep.specs.ByTable.{has_less, IsByTable, IsLikeMap};
ghost use Rattle.setl_rep.specs.Standing.{AreHeldOver};
ghost use Rattle.setl_rep.specs.Telling.{TellsHeld};
ghost use Rattle.setl_rep_forms.specs.FormOf.{form};
ghost use Rattle.setl_rep_bases.specs.Bases.{BasesState};
ghost use Rattle.setl_rep_forms.specs.Stands.{IsOver};

use crate::by_change::with_or_less;
use crate::by_kernel::by_kernel;
use crate::by_table::less_point;
use setl_operators::{Answer, OpFault, Operator, op};
use setl_rep_bases::Bases;
use setl_rep_forms::Held;
use setl_rep_plain::plain;
use setl_value::Value;
use std::alloc::{AllocError, Global};

/// What an operator gave, in a form, and the turns that it charges.
#[derive(Drop)]
pub struct Applied {
    pub held: Held,
    pub charged: u64,
}

/// What an operator makes of operands in forms, with these turns left: what `op` makes of the values that they stand for.
/// The result stands for the value, or `om`, that `op` gives, with its charge, and the faults are those of `op`, where
/// NoMemory may come at any point.
///
/// No plain value is made of the operands of `in`, `notin`, `#`, `+`, `-`, `*` and `mod` where these have a kernel
/// (`has_kernel`). There the first three always give a result, so they take no memory, and the result of the others is a remote
/// set on the base of both operands. Nor is one made of the operands of `with` and `less` where the first is a set of numbers and
/// the second is a member of its base, or, for `less`, any value that is held plain or as an element (`has_changed`): there
/// the result is the set in its form, changed in place where nobody else holds it.
///
/// Nor is one made of a map that is held as a table, at a point that is held plain or as an element: `domain f` is the set of the
/// numbers of its points, `f(x)` and `f{x}` come of what the map has at the point (`has_kernel`), and `f lessf x` is the map in
/// its form, changed in place where nobody else holds it (`has_less`). Where the map keeps one image for each point, `f(x)` is in
/// the form in which the map has it, and where it keeps sets, `f{x}` is. From others these are made plain.
///
/// The operands stand over the bases for values at most 500 deep, or for `om`, and are as many as the operator takes. What is
/// held plain goes to `op` as it is.
pub fn apply(
    alloc: Global,
    what: Operator,
    args: Vec<Held>,
    bases: &Bases,
    turns: u64,
) -> Result<Applied, OpFault>
    requires count { TakesOperands what (length args.items) }
    requires over { AreHeldOver bases.now args.items }
    ensures told { TellsHeld bases.now result (op_of what (map (held_value bases.now) args.items) turns) }
    ensures over { IfOk result (λ a. IsOver bases.now (form a.held)) }
    ensures form { IfOk result (λ a. is_combined what ≡ true → has_kernel what (map form args.items) ≡ true → IsLikeFirst (map form args.items) (form a.held)) }
    ensures changed { IfOk result (λ a. has_changed bases.now what (map form args.items) ≡ true → IsLikeFirst (map form args.items) (form a.held)) }
    ensures table { IfOk result (λ a. is_mapped what ≡ true → has_kernel what (map form args.items) ≡ true → IsByTable bases.now what (map form args.items) (form a.held)) }
    ensures less { IfOk result (λ a. has_less what (map form args.items) ≡ true → IsLikeMap (map form args.items) (form a.held)) }
    ensures free { is_told what ≡ true → has_kernel what (map form args.items) ≡ true → IsOk result }
{
    match what {
        Operator::With => with_or_less(alloc, true, args, bases, turns),
        Operator::Less => with_or_less(alloc, false, args, bases, turns),
        Operator::Lessf => less_point(alloc, args, bases, turns),
        _ => by_forms(alloc, what, args, bases, turns),
    }
}

// The same of all operators, but for what is said of changes.
fn by_forms(
    alloc: Global,
    what: Operator,
    args: Vec<Held>,
    bases: &Bases,
    turns: u64,
) -> Result<Applied, OpFault>
    requires count { TakesOperands what (length args.items) }
    requires over { AreHeldOver bases.now args.items }
    ensures told { TellsHeld bases.now result (op_of what (map (held_value bases.now) args.items) turns) }
    ensures over { IfOk result (λ a. IsOver bases.now (form a.held)) }
    ensures form { IfOk result (λ a. is_combined what ≡ true → has_kernel what (map form args.items) ≡ true → IsLikeFirst (map form args.items) (form a.held)) }
    ensures table { IfOk result (λ a. is_mapped what ≡ true → has_kernel what (map form args.items) ≡ true → IsByTable bases.now what (map form args.items) (form a.held)) }
    ensures free { is_told what ≡ true → has_kernel what (map form args.items) ≡ true → IsOk result }
{
    if let Some(applied) = by_kernel(alloc, what, &args, bases)? {
        return Ok(applied);
    }
    by_values(alloc, what, args, bases, turns)
}

/// What an operator makes of the values of its operands. It answers as `apply` does.
pub(crate) fn by_values(
    alloc: Global,
    what: Operator,
    args: Vec<Held>,
    bases: &Bases,
    turns: u64,
) -> Result<Applied, OpFault>
    requires count { TakesOperands what (length args.items) }
    requires over { AreHeldOver bases.now args.items }
    ensures told { TellsHeld bases.now result (op_of what (map (held_value bases.now) args.items) turns) }
    ensures over { IfOk result (λ a. IsOver bases.now (form a.held)) }
{
    let values = values(alloc, args, bases)?;
    let answer = op(alloc, what, values, turns)?;
    Ok(in_a_form(answer))
}

// The values of operands.
fn values(alloc: Global, args: Vec<Held>, bases: &Bases) -> Result<Vec<Option<Value>>, AllocError>
    requires { AreHeldOver bases.now args.items }
    ensures { IfOk result (λ vs. map part vs.items ≡ map (held_value bases.now) args.items) }
{
    let mut values = Vec::with_capacity(alloc, args.len())?;
    for h in args {
        values.push(value(alloc, h, bases)?)?;
    }
    Ok(values)
}

/// The value of an operand.
pub(crate) fn value(alloc: Global, h: Held, bases: &Bases) -> Result<Option<Value>, AllocError>
    requires { IsHeldOver bases.now h }
    ensures { IfOk result (λ v. part v ≡ held_value bases.now h) }
{
    match h {
        Held::Plain(v) => Ok(Some(v)),
        h => plain(alloc, &h, bases),
    }
}

/// An answer in the plain form.
pub(crate) fn in_a_form(a: Answer) -> Applied
    ensures value { (bs : BasesState) → held_value bs result.held ≡ part a.value }
    ensures over { (bs : BasesState) → IsOver bs (form result.held) }
    ensures charge { result.charged ≡ a.charged }
{
    let Answer { value, charged } = a;
    let held = match value {
        None => Held::Om,
        Some(v) => Held::Plain(v),
    };
    Applied { held, charged }
}
