//! Changes of the second part of a pair that is a member of a set, where it stands.

ghost use Rattle.std.specs.Prelude.{◌≡◌, ◌<◌, length, map, slice_get, slice_set, IfOk, IfNone, IfSome, OnErr, Some, None};
ghost use Rattle.setl_value_pages.specs.Pages.{page_at};
ghost use Rattle.setl_value.specs.code.Changing.{ChangesPair, PairGrows, with_member};
ghost use Rattle.setl_value.specs.code.DatumOf.{datum, page};
ghost use Rattle.setl_value.specs.Datum.{Datum, tuple_of};
ghost use Rattle.setl_value.specs.Pairs.{pair_parts};

use crate::counts::is_pair;
use crate::{TupleBody, Value};
use setl_value_pages::Page;
use std::alloc::AllocError;
use std::rc::Rc;

/// Lets `change` change the second part of the i-th member of the k-th page where it stands, to one that is at least as
/// deep and at most 498 deep, and answers what `change` answers. Where the member is no pair, the answer is None, and
/// `change` isn't called.
pub(crate) fn change_second<R, F: FnOnce(&mut Value) -> R>(
    list: &mut Vec<Page<Value>>,
    k: usize,
    i: usize,
    change: F,
) -> Result<Option<R>, AllocError>
    requires there { k < length list.old.items }
    requires member { i < length (page_at (map page list.old.items) k) }
    requires callable { F.IsAlwaysCallable change }
    requires grows { (m : Datum) → slice_get (page_at (map page list.old.items) k) i ≡ Some m → PairGrows F.FnOnce change m }
    ensures changed { IfOk result (λ o. IfSome o (λ r. (m n : Datum) × (slice_get (page_at (map page list.old.items) k) i ≡ Some m) × ChangesPair F.FnOnce change m r n × (map page list.new.items ≡ with_member (map page list.old.items) k i n))) }
    ensures nothing { IfOk result (λ o. IfNone o ((m : Datum) × (slice_get (page_at (map page list.old.items) k) i ≡ Some m) × (pair_parts m ≡ None))) }
    ensures unchanged { IfOk result (λ o. IfNone o (map page list.new.items ≡ map page list.old.items)) }
    ensures refused { OnErr result (map page list.new.items ≡ map page list.old.items) }
{
    let changed = &mut list[k];
    change_member(changed, i, change)
}

fn change_member<R, F: FnOnce(&mut Value) -> R>(
    shared: &mut Page<Value>,
    i: usize,
    change: F,
) -> Result<Option<R>, AllocError>
    requires member { i < length shared.old.value.items }
    requires callable { F.IsAlwaysCallable change }
    requires grows { (v : Value) → slice_get shared.old.value.items i ≡ Some v → PairGrows F.FnOnce change (datum v) }
    ensures changed { IfOk result (λ o. IfSome o (λ r. (v w : Value) × (slice_get shared.old.value.items i ≡ Some v) × ChangesPair F.FnOnce change (datum v) r (datum w) × (shared.new.value.items ≡ slice_set shared.old.value.items i w))) }
    ensures nothing { IfOk result (λ o. IfNone o ((v : Value) × (slice_get shared.old.value.items i ≡ Some v) × (pair_parts (datum v) ≡ None))) }
    ensures unchanged { IfOk result (λ o. IfNone o (shared.new.value.items ≡ shared.old.value.items)) }
    ensures refused { OnErr result (shared.new.value.items ≡ shared.old.value.items) }
{
    let members = Rc::make_mut(shared)?;
    change_item(members, i, change)
}

fn change_item<R, F: FnOnce(&mut Value) -> R>(
    members: &mut Vec<Value>,
    i: usize,
    change: F,
) -> Result<Option<R>, AllocError>
    requires member { i < length members.old.items }
    requires callable { F.IsAlwaysCallable change }
    requires grows { (v : Value) → slice_get members.old.items i ≡ Some v → PairGrows F.FnOnce change (datum v) }
    ensures changed { IfOk result (λ o. IfSome o (λ r. (v w : Value) × (slice_get members.old.items i ≡ Some v) × ChangesPair F.FnOnce change (datum v) r (datum w) × (members.new.items ≡ slice_set members.old.items i w))) }
    ensures nothing { IfOk result (λ o. IfNone o ((v : Value) × (slice_get members.old.items i ≡ Some v) × (pair_parts (datum v) ≡ None))) }
    ensures unchanged { IfOk result (λ o. IfNone o (members.new.items ≡ members.old.items)) }
    ensures refused { OnErr result (members.new.items ≡ members.old.items) }
{
    change_pair(&mut members[i], change)
}

fn change_pair<R, F: FnOnce(&mut Value) -> R>(
    member: &mut Value,
    change: F,
) -> Result<Option<R>, AllocError>
    requires callable { F.IsAlwaysCallable change }
    requires grows { PairGrows F.FnOnce change (datum member.old) }
    ensures changed { IfOk result (λ o. IfSome o (λ r. ChangesPair F.FnOnce change (datum member.old) r (datum member.new))) }
    ensures nothing { IfOk result (λ o. IfNone o (pair_parts (datum member.old) ≡ None)) }
    ensures unchanged { IfOk result (λ o. IfNone o (member.new ≡ member.old)) }
    ensures refused { OnErr result (member.new ≡ member.old) }
{
    match member {
        Value::Tuple(t) => change_second_part(t, change),
        _ => Ok(None),
    }
}

fn change_second_part<R, F: FnOnce(&mut Value) -> R>(
    t: &mut TupleBody,
    change: F,
) -> Result<Option<R>, AllocError>
    requires callable { F.IsAlwaysCallable change }
    requires grows { PairGrows F.FnOnce change (tuple_of t.old) }
    ensures changed { IfOk result (λ o. IfSome o (λ r. ChangesPair F.FnOnce change (tuple_of t.old) r (tuple_of t.new))) }
    ensures nothing { IfOk result (λ o. IfNone o (pair_parts (tuple_of t.old) ≡ None)) }
    ensures unchanged { IfOk result (λ o. IfNone o (t.new ≡ t.old)) }
    ensures refused { OnErr result (t.new ≡ t.old) }
{
    if is_pair(t) {
        t.change_at(1, change)
    } else {
        Ok(None)
    }
}
