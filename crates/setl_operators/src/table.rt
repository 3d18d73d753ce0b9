//! The table of the operators: which call makes what of the operands.

ghost use Rattle.std.specs.Prelude.{◌≡◌, ◌∷◌, [], Some, IsTrue, length, map};
ghost use Rattle.setl_value.specs.Datum.{text};
ghost use Rattle.setl_value.specs.code.DatumOf.{datum, lent, part};
ghost use Rattle.setl_operators_table.specs.code.Answers.{Tells};
ghost use Rattle.setl_operators_table.specs.Operators.{op_of, operand_count, TakesOperands};
ghost use Rattle.setl_operators_table.specs.Outcome.{value};
ghost use Rattle.setl_operators_table.specs.Puts.{put};
ghost use Rattle.setl_text.specs.Texts.{whole_text};
ghost use Rattle.setl_operators.specs.Readers.{takes_few, reads_two};

use crate::folds::{Combination, fold};
use crate::operands::{any_one, any_three, any_two, one, own, three};
use setl_operators_arithmetic::{
    absolute, at_most, below, difference, divide, equal, even, greater, is_atom, is_boolean, is_in,
    is_integer, is_map, is_set, is_string, is_tuple, lesser, minus, modulo, negate, negation,
    not_equal, not_in, odd, plus, power, subset, sum, times,
};
use setl_operators_collections::{
    arb, domain, get, images, less, lessf, put, put_images, range, size, slice, tail, with,
};
use setl_operators_enumerations::{
    enumerate_set, enumerate_tuple, npow, pow, set_range, set_step, tuple_range, tuple_step,
};
use setl_operators_table::answers::string;
use setl_operators_table::{Answer, OpFault, Operator};
use setl_text::text;
use setl_value::{Text, Value, lend};
use std::alloc::Global;

/// What an operator makes of its operands, with these turns left: a value or `om` with its charge, or why there is none.
///
/// The operands stand in the order of the source, and None is `om`. Where several causes hold, the first in the order
/// Om, Kind, Zero, Range, Spent, Wide, Deep counts; NoMemory may come at any point.
pub fn op(
    alloc: Global,
    what: Operator,
    args: Vec<Option<Value>>,
    turns: u64,
) -> Result<Answer, OpFault>
    requires { TakesOperands what (length args.items) }
    ensures { Tells result (op_of what (map part args.items) turns) }
{
    match what {
        Operator::Slice => {
            let (a, b, c) = three(args)?;
            slice(alloc, &a, &b, &c)
        }
        Operator::SetOf => enumerate_set(alloc, &args),
        Operator::TupleOf => enumerate_tuple(alloc, args),
        Operator::SetStep => {
            let (a, b, c) = three(args)?;
            set_step(alloc, &a, &b, &c, turns)
        }
        Operator::TupleStep => {
            let (a, b, c) = three(args)?;
            tuple_step(alloc, &a, &b, &c, turns)
        }
        Operator::Put => put_part(alloc, args, turns),
        Operator::PutImages => {
            let (a, b, c) = three(args)?;
            put_images(alloc, a, b, &c)
        }
        _ => few(alloc, what, args, turns),
    }
}

// What an operator makes of its one or two operands.
fn few(
    alloc: Global,
    what: Operator,
    args: Vec<Option<Value>>,
    turns: u64,
) -> Result<Answer, OpFault>
    requires few { IsTrue (takes_few what) }
    requires count { TakesOperands what (length args.items) }
    ensures { Tells result (op_of what (map part args.items) turns) }
{
    if args.len() == 1 {
        let a = any_one(args);
        op_one(alloc, what, lend(&a), turns)
    } else {
        let (a, b) = any_two(args);
        op_pair(alloc, what, a, b, turns)
    }
}

/// What an operator with two operands makes of them, with these turns left. Both are used up, and None is `om`. It answers
/// as `op` does.
pub fn op_pair(
    alloc: Global,
    what: Operator,
    a: Option<Value>,
    b: Option<Value>,
    turns: u64,
) -> Result<Answer, OpFault>
    requires { operand_count what ≡ Some 2 }
    ensures { Tells result (op_of what (part a ∷ part b ∷ []) turns) }
{
    match what {
        Operator::Add => sum(alloc, own(a)?, own(b)?),
        Operator::Subtract => difference(alloc, own(a)?, &own(b)?),
        Operator::With => with(alloc, own(a)?, own(b)?),
        Operator::Less => less(own(a)?, &own(b)?),
        Operator::Lessf => lessf(alloc, own(a)?, &own(b)?),
        _ => op_two(alloc, what, lend(&a), lend(&b), turns),
    }
}

/// What an operator with one operand makes of it, with these turns left. The operand is lent, and None is `om`. It
/// answers as `op` does.
pub fn op_one(
    alloc: Global,
    what: Operator,
    a: Option<&Value>,
    turns: u64,
) -> Result<Answer, OpFault>
    requires { operand_count what ≡ Some 1 }
    ensures { Tells result (op_of what (lent a.entry ∷ []) turns) }
{
    match what {
        Operator::Negate => negate(one(a)?),
        Operator::Abs => absolute(one(a)?),
        Operator::Even => even(one(a)?),
        Operator::Odd => odd(one(a)?),
        Operator::Size => size(one(a)?),
        Operator::Not => negation(one(a)?),
        Operator::Pow => pow(alloc, one(a)?, turns),
        Operator::Domain => domain(alloc, one(a)?),
        Operator::Range => range(alloc, one(a)?),
        Operator::Arb => arb(one(a)?),
        Operator::Str => shown(alloc, one(a)?),
        Operator::IsInteger => is_integer(a),
        Operator::IsString => is_string(a),
        Operator::IsBoolean => is_boolean(a),
        Operator::IsAtom => is_atom(a),
        Operator::IsTuple => is_tuple(a),
        Operator::IsSet => is_set(a),
        Operator::IsMap => is_map(a),
        Operator::FoldAdd => fold(alloc, Combination::Sum, one(a)?, turns),
        Operator::FoldMultiply => fold(alloc, Combination::Product, one(a)?, turns),
        Operator::FoldMax => fold(alloc, Combination::Greatest, one(a)?, turns),
        Operator::FoldMin => fold(alloc, Combination::Least, one(a)?, turns),
        Operator::FoldAnd => fold(alloc, Combination::All, one(a)?, turns),
        Operator::FoldOr => fold(alloc, Combination::Any, one(a)?, turns),
        _ => unreachable!(),
    }
}

/// What an operator with two operands makes of them, with these turns left. The operands are lent, and None is `om`. It
/// answers as `op` does.
pub fn op_two(
    alloc: Global,
    what: Operator,
    a: Option<&Value>,
    b: Option<&Value>,
    turns: u64,
) -> Result<Answer, OpFault>
    requires { operand_count what ≡ Some 2 }
    ensures { Tells result (op_of what (lent a.entry ∷ lent b.entry ∷ []) turns) }
{
    match what {
        Operator::With => with(alloc, one(a)?.copy()?, one(b)?.copy()?),
        Operator::Less => less(one(a)?.copy()?, one(b)?),
        Operator::Lessf => lessf(alloc, one(a)?.copy()?, one(b)?),
        Operator::Equal => equal(a, b),
        Operator::NotEqual => not_equal(a, b),
        _ => read_two(alloc, what, a, b, turns),
    }
}

// What an operator that reads two values makes of its operands.
#[tactic(auto, using(crate::proofs::Strict::om_is_told))]
fn read_two(
    alloc: Global,
    what: Operator,
    a: Option<&Value>,
    b: Option<&Value>,
    turns: u64,
) -> Result<Answer, OpFault>
    requires { IsTrue (reads_two what) }
    ensures { Tells result (op_of what (lent a.entry ∷ lent b.entry ∷ []) turns) }
{
    let a = one(a)?;
    let b = one(b)?;
    of_two(alloc, what, a, b, turns)
}

// What it makes of these two values.
fn of_two(
    alloc: Global,
    what: Operator,
    a: &Value,
    b: &Value,
    turns: u64,
) -> Result<Answer, OpFault>
    requires { IsTrue (reads_two what) }
    ensures { Tells result (op_of what (Some (datum a.now) ∷ Some (datum b.now) ∷ []) turns) }
{
    match what {
        Operator::Add => plus(alloc, a, b),
        Operator::Subtract => minus(alloc, a, b),
        Operator::Multiply => times(alloc, a, b, turns),
        Operator::Power => power(a, b),
        Operator::Divide => divide(a, b),
        Operator::Modulo => modulo(alloc, a, b),
        Operator::Max => greater(a, b),
        Operator::Min => lesser(a, b),
        Operator::Npow => npow(alloc, a, b, turns),
        Operator::Below => below(a, b),
        Operator::AtMost => at_most(a, b),
        Operator::Above => below(b, a),
        Operator::AtLeast => at_most(b, a),
        Operator::In => is_in(a, b),
        Operator::NotIn => not_in(a, b),
        Operator::Subset => subset(a, b),
        Operator::Includes => subset(b, a),
        Operator::Get => get(alloc, a, b),
        Operator::Images => images(alloc, a, b),
        Operator::Tail => tail(alloc, a, b),
        Operator::SetRange => set_range(alloc, a, b, turns),
        Operator::TupleRange => tuple_range(alloc, a, b, turns),
        _ => unreachable!(),
    }
}

// The whole with a new part, which may be `om`.
fn put_part(alloc: Global, args: Vec<Option<Value>>, turns: u64) -> Result<Answer, OpFault>
    requires { length args.items ≡ 3 }
    ensures { Tells result (put turns (map part args.items)) }
{
    let (whole, at, new) = any_three(args);
    let Some(whole) = whole else {
        return Err(OpFault::Om);
    };
    let Some(at) = at else {
        return Err(OpFault::Om);
    };
    put(alloc, whole, at, new, turns)
}

// The text of a value as a whole argument of `print`.
fn shown(alloc: Global, v: &Value) -> Result<Answer, OpFault>
    ensures { Tells result (value (text (whole_text (datum v.now)))) }
{
    match v {
        Value::Text(t) => string(t.copy()?),
        _ => string(Text::from_bytes(alloc, text(alloc, v)?)?),
    }
}
