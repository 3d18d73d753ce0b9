//! Sets and tuples of the members of collections.

ghost use Rattle.std.specs.Prelude.{◌≡◌, ◌∷◌, ◌++◌, [], map, reverse, IfOk, OnOk};
ghost use Rattle.setl_value.specs.code.Body.{Members};
ghost use Rattle.setl_value.specs.Datum.{set_of, tuple_of};
ghost use Rattle.setl_value.specs.code.DatumOf.{datum};
ghost use Rattle.setl_model.specs.Collections.{collection};
ghost use Rattle.setl_program.specs.declared.kinds.Collection.TheVariants as kind;
ghost use Rattle.setl_store_operands.specs.Operands.{member_of, present, GotAll};

use crate::cells::Member;
use setl_map::gathered;
use setl_program::Collection;
use setl_value::{SetBody, TupleBody, Value};
use std::alloc::{AllocError, Global};

/// The set or tuple of members of which it refuses none.
pub(crate) fn collection(
    alloc: Global,
    what: Collection,
    members: Vec<Member>,
) -> Result<Value, AllocError>
    requires { GotAll what (reverse (map member_of members.items)) }
    ensures { IfOk result (λ value. datum value ≡ collection what (reverse (map member_of members.items))) }
{
    match what {
        Collection::OfSet => Ok(Value::Set(set(alloc, members)?)),
        Collection::OfTuple => Ok(Value::Tuple(tuple(alloc, members)?)),
    }
}

/// The set of these members, which may come in any order and with repeats.
fn set(alloc: Global, members: Vec<Member>) -> Result<SetBody, AllocError>
    requires { GotAll kind.OfSet (reverse (map member_of members.items)) }
    ensures { IfOk result (λ set. set_of (Members set) ≡ collection kind.OfSet (reverse (map member_of members.items))) }
{
    let mut latest_first = members;
    latest_first.reverse();
    gathered(alloc, present(alloc, latest_first)?)
}

/// The tuple of these components, without the `om` at their end.
fn tuple(alloc: Global, members: Vec<Member>) -> Result<TupleBody, AllocError>
    requires { GotAll kind.OfTuple (reverse (map member_of members.items)) }
    ensures { IfOk result (λ tuple. tuple_of tuple ≡ collection kind.OfTuple (reverse (map member_of members.items))) }
{
    TupleBody::of(alloc, components(alloc, members)?)
}

/// Those of some members that are no `om`.
fn present(alloc: Global, members: Vec<Member>) -> Result<Vec<Value>, AllocError>
    ensures { IfOk result (λ values. map datum values.items ≡ present (map member_of members.items)) }
{
    let mut values = Vec::with_capacity(alloc, members.len())?;
    for member in members {
        push_present(member, &mut values)?;
    }
    Ok(values)
}

/// Puts the value of a member at the end, if it is no `om`.
fn push_present(member: Member, values: &mut Vec<Value>) -> Result<(), AllocError>
    ensures { OnOk result (map datum values.new.items ≡ map datum values.old.items ++ present (member_of member ∷ [])) }
{
    if let Some(value) = member.value {
        values.push(value)?;
    }
    Ok(())
}

/// Members as components of a tuple.
fn components(alloc: Global, members: Vec<Member>) -> Result<Vec<Option<Value>>, AllocError>
    ensures { IfOk result (λ values. values.items ≡ map (λ member. member.value) members.items) }
{
    members
        .into_iter()
        .map(|member| member.value)
        .collect(alloc)
}
