//! The operands of a call, taken apart.

ghost use Rattle.std.specs.Prelude.{◌≡◌, ◌∷◌, [], ◌++◌, ◌<◌, Some, None, MatchResult, length, map};
ghost use Rattle.setl_value.specs.code.DatumOf.{datum, lent, part};
ghost use Rattle.setl_operators_table.specs.Outcome.{all_values};

use setl_operators_table::OpFault;
use setl_value::Value;

/// The only operand, which may be `om`.
pub(crate) fn any_one(args: Vec<Option<Value>>) -> Option<Value>
    requires { length args.items ≡ 1 }
    ensures { args.items ≡ result ∷ [] }
{
    let mut args = args;
    last(&mut args)
}

/// Both operands, each of which may be `om`.
pub(crate) fn any_two(args: Vec<Option<Value>>) -> (Option<Value>, Option<Value>)
    requires { length args.items ≡ 2 }
    ensures { args.items ≡ result.0 ∷ result.1 ∷ [] }
{
    let mut args = args;
    let second = last(&mut args);
    (any_one(args), second)
}

/// The three operands, each of which may be `om`.
pub(crate) fn any_three(args: Vec<Option<Value>>) -> (Option<Value>, Option<Value>, Option<Value>)
    requires { length args.items ≡ 3 }
    ensures { args.items ≡ result.0 ∷ result.1 ∷ result.2 ∷ [] }
{
    let mut args = args;
    let third = last(&mut args);
    let (first, second) = any_two(args);
    (first, second, third)
}

// Takes the last operand.
fn last(args: &mut Vec<Option<Value>>) -> Option<Value>
    requires { 0 < length args.old.items }
    ensures { args.old.items ≡ args.new.items ++ result ∷ [] }
{
    match args.pop() {
        Some(v) => v,
        None => unreachable!(),
    }
}

/// The operand, a value. Om where it is `om`.
pub(crate) fn one(a: Option<&Value>) -> Result<&Value, OpFault>
    ensures { MatchResult result (λ v. lent a.entry ≡ Some (datum v.now)) (λ e. (e ≡ OpFault.Om) × (lent a.entry ≡ None)) }
{
    a.ok_or(OpFault::Om)
}

/// The operand, a value, which is handed over. Om where it is `om`.
pub(crate) fn own(a: Option<Value>) -> Result<Value, OpFault>
    ensures { MatchResult result (λ v. part a ≡ Some (datum v)) (λ e. (e ≡ OpFault.Om) × (part a ≡ None)) }
{
    a.ok_or(OpFault::Om)
}

/// The three operands, which are values. Om where one is `om`.
pub(crate) fn three(args: Vec<Option<Value>>) -> Result<(Value, Value, Value), OpFault>
    requires { length args.items ≡ 3 }
    ensures { MatchResult result (λ vs. map part args.items ≡ Some (datum vs.0) ∷ Some (datum vs.1) ∷ Some (datum vs.2) ∷ []) (λ e. (e ≡ OpFault.Om) × (all_values (map part args.items) ≡ None)) }
{
    let (a, b, c) = any_three(args);
    let Some(a) = a else {
        return Err(OpFault::Om);
    };
    let Some(b) = b else {
        return Err(OpFault::Om);
    };
    let Some(c) = c else {
        return Err(OpFault::Om);
    };
    Ok((a, b, c))
}
