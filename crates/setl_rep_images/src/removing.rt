//! `f lessf x`.

ghost use Rattle.std.specs.Prelude.{◌≡◌, Bool, Some, IfOk, OnOk, OnErr};
ghost use Rattle.setl_value.specs.code.DatumOf.{datum};
ghost use Rattle.setl_rep_forms.specs.FormOf.{form};
ghost use Rattle.setl_rep_forms.specs.Stands.{IsOver};
ghost use Rattle.setl_rep_images.specs.Without.{IsTakenOut, IsWithoutPoint};
ghost use Rattle.setl_rep_maps.specs.Contents.{table_of, IsTable};

use setl_rep_bases::{BaseId, Bases};
use setl_rep_forms::Held;
use setl_rep_maps::{learn, put_content, table_of};
use setl_value::Value;
use std::alloc::AllocError;

/// `f lessf x`: the map without the images of `x`, for a map that is held as a table. The result is such a table in the same
/// layout on the same base. Nothing is charged.
///
/// The error is want of memory. Where nobody else holds the table, the cost is near linear in the size of `x` alone.
pub fn without(f: Held, x: &Value, bases: &Bases) -> Result<Held, AllocError>
    requires table { IsTable (form f) }
    requires over { IsOver bases.now (form f) }
    ensures { IfOk result (λ g. IsWithoutPoint bases.now (datum x.now) (form f) (form g)) }
{
    setl_set::laws::rising_lists_agree();
    setl_set::laws::tests_are_exact();
    setl_set::laws::operations_have_their_members();
    setl_rep_maps::laws::contents_stand_for_images();
    setl_rep_maps::laws::puts_are_images();
    let mut f = f;
    let Some((b, _)) = table_of(&f) else {
        return Ok(f);
    };
    take_out(b, &mut f, x, bases)?;
    Ok(f)
}

// Takes the content of a point out of a map on the base `b`. After an error, which is want of memory, the map is as before.
fn take_out(b: BaseId, f: &mut Held, x: &Value, bases: &Bases) -> Result<(), AllocError>
    requires table { (many : Bool) × (table_of (form f.old) ≡ Some (b, many)) }
    requires over { IsOver bases.now (form f.old) }
    ensures taken { OnOk result (IsTakenOut bases.now b (datum x.now) (form f.old) (form f.new)) }
    ensures refused { OnErr result (form f.new ≡ form f.old) }
{
    learn(f);
    let Some(e) = bases.at(b).find(x) else {
        return Ok(());
    };
    put_content(f, e.block, None)?;
    learn(f);
    Ok(())
}
