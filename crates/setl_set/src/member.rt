//! One member: whether it is there, adding it and removing it.

ghost use Rattle.std.specs.Prelude.{◌≡◌, ◌↔◌, OnOk, OnErr};
ghost use Rattle.setl_value.specs.code.Body.{Members};
ghost use Rattle.setl_value.specs.Datum.{depth};
ghost use Rattle.setl_value.specs.code.DatumOf.{datum};
ghost use Rattle.setl_set.specs.Sets.{has_datum, insert_datum, remove_datum};

use crate::SetFault;
use setl_value::{SetBody, Value};
use std::alloc::{AllocError, Global};

/// Whether `v` is a member. It takes no memory.
pub fn has(s: &SetBody, v: &Value) -> bool
    ensures { result ≡ has_datum (datum v.now) (Members s.now) }
{
    s.search(v).is_ok()
}

/// Makes `v` a member; nothing changes where it is one already. `Deep` comes exactly where `v` has the depth 500, so
/// that the set would have the depth 501. After a fault the set is as before.
pub fn with(alloc: Global, s: &mut SetBody, v: Value) -> Result<(), SetFault>
    ensures added { OnOk result (Members s.new ≡ insert_datum (datum v) (Members s.old)) }
    ensures refused { OnErr result (s.new ≡ s.old) }
    ensures deep { (result ≡ Err SetFault.Deep) ↔ (depth (datum v) ≡ 500) }
{
    v.learn();
    if v.depth() == 500 {
        return Err(SetFault::Deep);
    }
    s.learn();
    match s.search(&v) {
        Ok(_) => Ok(()),
        Err(place) => {
            s.put_in(alloc, place, v)?;
            Ok(())
        }
    }
}

/// Takes `v` out; nothing changes where it is no member, and no memory is taken then. After a fault the set is as
/// before.
pub fn less(s: &mut SetBody, v: &Value) -> Result<(), AllocError>
    ensures removed { OnOk result (Members s.new ≡ remove_datum (datum v.now) (Members s.old)) }
    ensures refused { OnErr result (s.new ≡ s.old) }
{
    s.learn();
    match s.search(v) {
        Ok(place) => {
            s.cut_in(place)?;
            Ok(())
        }
        Err(_) => Ok(()),
    }
}
