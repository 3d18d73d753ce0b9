//! The sets and tuples that are open while a denotation is read.

ghost use Rattle.std.specs.Prelude.{◌≡◌, ◌≤◌, ◌+◌, ◌++◌, ◌∷◌, [], IfOk, IfErr, OnOk, length, map};
ghost use Rattle.setl_set.specs.Sets.{set_from};
ghost use Rattle.setl_value.specs.Datum.{depth, part_depth, set_of};
ghost use Rattle.setl_value.specs.code.DatumOf.{datum, part};
ghost use Rattle.setl_text.specs.Bytes.{Brace, Square};
ghost use Rattle.setl_text.specs.Reading as spec;
ghost use Rattle.setl_text.specs.Reading.{put_value, taken, open_bracket, close_bracket};
ghost use Rattle.setl_text.specs.code.Scans.{open_of, opens, IsShallow, Places, Grows, Feeds};

use crate::ReadFault;
use crate::scan::{Fed, Piece};
use setl_set::laws::{operations_have_their_members, rising_lists_agree};
use setl_value::{SetBody, TupleBody, Value};
use std::alloc::{AllocError, Global};

/// A set or tuple that isn't closed yet, with what stands in it so far.
#[derive(Drop)]
pub(crate) enum Collection {
    InSet(Vec<Value>),
    InTuple(Vec<Option<Value>>),
}

/// What became of a value or `om`: it is the whole denotation, or a part of the innermost set or tuple.
#[derive(Drop)]
pub(crate) enum Put {
    Alone(Option<Value>),
    Inner,
}

/// Adds an item at the end. Where memory is refused, the answer is `NoMemory`.
pub(crate) fn push<T: Drop>(list: &mut Vec<T>, item: T) -> Result<(), ReadFault>
    ensures added { OnOk result (list.new.items ≡ list.old.items ++ item ∷ []) }
    ensures refused { IfErr result (λ f. f ≡ ReadFault.NoMemory) }
{
    match list.push(item) {
        Ok(()) => Ok(()),
        Err(_) => Err(ReadFault::NoMemory),
    }
}

impl Collection {
    // The set or tuple with one more value or `om`.
    fn with(self, v: Option<Value>) -> Result<Collection, ReadFault>
        ensures { Grows (part v) (open_of self) result }
    {
        match (self, v) {
            (Collection::InSet(mut vs), Some(v)) => {
                push(&mut vs, v)?;
                Ok(Collection::InSet(vs))
            }
            (Collection::InSet(_), None) => Err(ReadFault::Form),
            (Collection::InTuple(mut ps), v) => {
                push(&mut ps, v)?;
                Ok(Collection::InTuple(ps))
            }
        }
    }
}

/// Puts a value or `om` into the innermost set or tuple, if one is open.
pub(crate) fn place(opened: &mut Vec<Collection>, v: Option<Value>) -> Result<Put, ReadFault>
    requires shallow { IsShallow (opens opened.old.items) }
    requires fits { part_depth (part v) + length opened.old.items ≤ 500 }
    ensures { Places (put_value (part v) (opens opened.old.items)) (opens opened.new.items) result }
{
    match opened.pop() {
        None => Ok(Put::Alone(v)),
        Some(c) => {
            let grown = c.with(v)?;
            push(opened, grown)?;
            Ok(Put::Inner)
        }
    }
}

/// Places a value or `om` whose last byte was taken.
pub(crate) fn take_through(opened: &mut Vec<Collection>, v: Option<Value>) -> Result<Fed, ReadFault>
    requires shallow { IsShallow (opens opened.old.items) }
    requires fits { part_depth (part v) + length opened.old.items ≤ 500 }
    ensures { Feeds (taken (put_value (part v) (opens opened.old.items))) (opens opened.new.items) result }
{
    match place(opened, v)? {
        Put::Alone(v) => Ok(Fed::Through(v)),
        Put::Inner => Ok(Fed::More(Piece::Idle)),
    }
}

/// Opens an empty set or tuple, if fewer than 500 are open.
pub(crate) fn open(opened: &mut Vec<Collection>, c: Collection) -> Result<Fed, ReadFault>
    requires shallow { IsShallow (opens opened.old.items) }
    ensures { (k : _) → open_of c ≡ spec.opened k [] → Feeds (open_bracket k (opens opened.old.items)) (opens opened.new.items) result }
{
    if opened.len() < 500 {
        push(opened, c)?;
        Ok(Fed::More(Piece::Idle))
    } else {
        Err(ReadFault::Deep)
    }
}

/// Closes the innermost set.
pub(crate) fn close_set(alloc: Global, opened: &mut Vec<Collection>) -> Result<Fed, ReadFault>
    requires shallow { IsShallow (opens opened.old.items) }
    ensures { Feeds (close_bracket Brace (opens opened.old.items)) (opens opened.new.items) result }
{
    match opened.pop() {
        Some(Collection::InSet(vs)) => {
            let set = make_set(alloc, vs)?;
            take_through(opened, Some(set))
        }
        Some(Collection::InTuple(_)) => Err(ReadFault::Form),
        None => Err(ReadFault::Form),
    }
}

/// Closes the innermost tuple.
pub(crate) fn close_tuple(alloc: Global, opened: &mut Vec<Collection>) -> Result<Fed, ReadFault>
    requires shallow { IsShallow (opens opened.old.items) }
    ensures { Feeds (close_bracket Square (opens opened.old.items)) (opens opened.new.items) result }
{
    match opened.pop() {
        Some(Collection::InTuple(ps)) => {
            let tuple = TupleBody::of(alloc, ps)?;
            take_through(opened, Some(Value::Tuple(tuple)))
        }
        Some(Collection::InSet(_)) => Err(ReadFault::Form),
        None => Err(ReadFault::Form),
    }
}

// The set of these values.
fn make_set(alloc: Global, values: Vec<Value>) -> Result<Value, AllocError>
    requires { depth (set_of (map datum values.items)) ≤ 500 }
    ensures { IfOk result (λ v. datum v ≡ set_of (set_from (map datum values.items))) }
{
    operations_have_their_members();
    let members = rising(values)?;
    Ok(Value::Set(SetBody::from_rising(alloc, members)?))
}

// The values in rising order, each once.
fn rising(values: Vec<Value>) -> Result<Vec<Value>, AllocError>
    ensures { IfOk result (λ v. map datum v.items ≡ set_from (map datum values.items)) }
{
    rising_lists_agree();
    operations_have_their_members();
    let mut values = values;
    values.sort()?;
    values.dedup();
    Ok(values)
}
