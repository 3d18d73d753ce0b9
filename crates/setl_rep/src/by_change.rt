//! `with` and `less` of forms: a set of numbers is changed in place.

ghost use Rattle.std.specs.Prelude.{◌≡◌, ◌++◌, ◌∷◌, [], ◌<◌, true, length, map, IfOk};
ghost use Rattle.setl_operators_table.specs.Operators.{op_of};
ghost use Rattle.setl_rep_forms.specs.FormOf.{form};
ghost use Rattle.setl_rep_forms.specs.Stands.{IsOver};
ghost use Rattle.setl_rep_kernels.specs.Kernels.{change_of, has_change, IsAlike};
ghost use Rattle.setl_rep_plain.specs.Standing.{held_value, IsHeldOver};
ghost use Rattle.setl_rep.specs.ByKernel.{has_first_change, IsLikeFirst};
ghost use Rattle.setl_rep.specs.Standing.{AreHeldOver};
ghost use Rattle.setl_rep.specs.Telling.{TellsHeld};

use crate::applied::{Applied, in_a_form, value};
use setl_operators::{OpFault, Operator, op_pair};
use setl_rep_bases::Bases;
use setl_rep_forms::Held;
use setl_rep_kernels::change;
use std::alloc::Global;

/// What `with` makes of two operands, where `on` is true, and `less` otherwise. It answers as `apply` does.
pub(crate) fn with_or_less(
    alloc: Global,
    on: bool,
    args: Vec<Held>,
    bases: &Bases,
    turns: u64,
) -> Result<Applied, OpFault>
    requires count { length args.items ≡ 2 }
    requires over { AreHeldOver bases.now args.items }
    ensures told { TellsHeld bases.now result (op_of (change_of on) (map (held_value bases.now) args.items) turns) }
    ensures over { IfOk result (λ a. IsOver bases.now (form a.held)) }
    ensures changed { IfOk result (λ a. has_first_change bases.now on (map form args.items) ≡ true → IsLikeFirst (map form args.items) (form a.held)) }
{
    let (set, member) = both(args);
    of_two(alloc, on, set, member, bases, turns)
}

// The same of the operands apart.
fn of_two(
    alloc: Global,
    on: bool,
    set: Held,
    member: Held,
    bases: &Bases,
    turns: u64,
) -> Result<Applied, OpFault>
    requires set { IsHeldOver bases.now set }
    requires member { IsHeldOver bases.now member }
    ensures told { TellsHeld bases.now result (op_of (change_of on) (held_value bases.now set ∷ held_value bases.now member ∷ []) turns) }
    ensures over { IfOk result (λ a. IsOver bases.now (form a.held)) }
    ensures changed { IfOk result (λ a. has_change bases.now on (form set) (form member) ≡ true → IsAlike (form set) (form a.held)) }
{
    let mut set = set;
    if change(&mut set, &member, on, bases)? {
        return Ok(Applied {
            held: set,
            charged: 0,
        });
    }
    let s = value(alloc, set, bases)?;
    let x = value(alloc, member, bases)?;
    let answer = op_pair(alloc, operator(on), s, x, turns)?;
    Ok(in_a_form(answer))
}

// The operator of a change.
fn operator(on: bool) -> Operator
    ensures { result ≡ change_of on }
{
    if on { Operator::With } else { Operator::Less }
}

/// Both operands.
pub(crate) fn both(args: Vec<Held>) -> (Held, Held)
    requires { length args.items ≡ 2 }
    ensures { args.items ≡ result.0 ∷ result.1 ∷ [] }
{
    let mut args = args;
    let second = last(&mut args);
    (only(args), second)
}

// The only operand.
fn only(args: Vec<Held>) -> Held
    requires { length args.items ≡ 1 }
    ensures { args.items ≡ result ∷ [] }
{
    let mut args = args;
    last(&mut args)
}

// Takes the last operand.
fn last(args: &mut Vec<Held>) -> Held
    requires { 0 < length args.old.items }
    ensures { args.old.items ≡ args.new.items ++ result ∷ [] }
{
    match args.pop() {
        Some(h) => h,
        None => unreachable!(),
    }
}
