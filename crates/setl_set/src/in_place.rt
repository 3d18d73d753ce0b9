//! Union and difference in place.

ghost use Rattle.std.specs.Prelude.{◌≡◌, OnOk, OnErr};
ghost use Rattle.setl_value.specs.code.Body.{Members};
ghost use Rattle.setl_set.specs.Sets.{minus_of, union_of};

use crate::member::less;
use crate::merge::{minus, union};
use crate::searching::add;
use setl_value::SetBody;
use std::alloc::{AllocError, Global};

/// Makes the members of `b` members of `a`. One member alone is put in where `a` stands. After a fault `a` is as before.
pub fn unite(alloc: Global, a: &mut SetBody, b: &SetBody) -> Result<(), AllocError>
    ensures united { OnOk result (Members a.new ≡ union_of (Members a.old) (Members b.now)) }
    ensures refused { OnErr result (a.new ≡ a.old) }
{
    if b.len() == 1 {
        a.learn();
        return add(alloc, a, b.at(0));
    }
    *a = union(alloc, a, b)?;
    Ok(())
}

/// Takes the members of `b` out of `a`. One member alone is taken out where `a` stands. After a fault `a` is as before.
pub fn subtract(alloc: Global, a: &mut SetBody, b: &SetBody) -> Result<(), AllocError>
    ensures subtracted { OnOk result (Members a.new ≡ minus_of (Members a.old) (Members b.now)) }
    ensures refused { OnErr result (a.new ≡ a.old) }
{
    if b.len() == 1 {
        return less(a, b.at(0));
    }
    *a = minus(alloc, a, b)?;
    Ok(())
}
