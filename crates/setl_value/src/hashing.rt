//! Hashing: a value feeds its kind and its content, so that values of equal data hash alike.

ghost use Rattle.std.specs.Prelude.{◌≡◌, fold};
ghost use Rattle.std.proofs.Common.{ap};
ghost use Rattle.setl_value.specs.code.Body.{Members};
ghost use Rattle.setl_value.specs.Datum.{elements_of, parts_of};
ghost use Rattle.setl_value.specs.code.DatumOf.{datum, part};
ghost use Rattle.setl_value.specs.code.HashInput.{writes, elements_writes, parts_writes, part_writes};
ghost use Rattle.setl_value.specs.OrderLaws.{same_if_eq};

use crate::{SetBody, TupleBody, Value};
use std::hash::{Hash, Hasher};

// Equal values stand for the same datum, and `hash` feeds what the datum alone says: so the law of `Hash` holds, that
// equal values feed a hasher the same.
impl Hash for Value {
    ghost hash_input = { λ v. writes (datum v) };

    ghost respects_eq = { λ a b e. ap writes (same_if_eq (datum a) (datum b) e) };

    fn hash<H: Hasher>(&self, state: &mut H) {
        feed(self, state);
    }
}

// Feeds a number for the kind, then the content.
#[cycle(feeding)]
fn feed<H: Hasher>(v: &Value, state: &mut H)
    ensures { state.new ≡ fold H.write state.old (writes (datum v.now)) }
{
    match v {
        Value::Bool(b) => {
            state.write_u8(0);
            b.hash(state);
        }
        Value::Int(z) => {
            state.write_u8(1);
            z.hash(state);
        }
        Value::Text(t) => {
            state.write_u8(2);
            t.bytes().hash(state);
        }
        Value::Atom(n) => {
            state.write_u8(3);
            n.hash(state);
        }
        Value::Tuple(t) => {
            state.write_u8(4);
            feed_parts(t, state);
        }
        Value::Set(s) => {
            state.write_u8(5);
            feed_members(s, state);
        }
    }
}

// Feeds 1 before each member, and 0 after the last.
#[cycle(feeding)]
fn feed_members<H: Hasher>(s: &SetBody, state: &mut H)
    ensures { state.new ≡ fold H.write state.old (elements_writes (elements_of (Members s.now))) }
{
    for v in s.members() {
        state.write_u8(1);
        feed(v, state);
    }
    state.write_u8(0);
}

// Feeds each component, and 0 after the last.
#[cycle(feeding)]
fn feed_parts<H: Hasher>(t: &TupleBody, state: &mut H)
    ensures { state.new ≡ fold H.write state.old (parts_writes (parts_of t.now)) }
{
    let parts = &t.parts[t.start..];
    for p in parts {
        feed_part(p, state);
    }
    state.write_u8(0);
}

// Feeds 1 for `om`, and 2 before a value.
#[cycle(feeding)]
fn feed_part<H: Hasher>(p: &Option<Value>, state: &mut H)
    ensures { state.new ≡ fold H.write state.old (part_writes (part p.now)) }
{
    match p {
        None => state.write_u8(1),
        Some(v) => {
            state.write_u8(2);
            feed(v, state);
        }
    }
}
