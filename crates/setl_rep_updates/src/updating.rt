//! All updates in place, as one call.

ghost use Rattle.std.specs.Prelude.{◌≡◌, IfOk, Some, [], ◌∷◌};
ghost use Rattle.setl_value.specs.code.DatumOf.{datum, part};
ghost use Rattle.setl_modes.specs.Modes.{mode_of};
ghost use Rattle.setl_operators_table.specs.declared.Operator.TheVariants.{Put};
ghost use Rattle.setl_operators_table.specs.Operators.{op_of};
ghost use Rattle.setl_rep_forms.specs.FormOf.{form};
ghost use Rattle.setl_rep_forms.specs.Stands.{stands};
ghost use Rattle.setl_rep_updates.specs.Changed.{given_by, makes, puts_part};
ghost use Rattle.setl_rep_updates.specs.InForm.{IsInForm};
ghost use Rattle.setl_rep_updates.specs.Updates.{IsUpdate};

use crate::images::{exclude_image, include_image};
use crate::maps::{cut, put};
use crate::sets::{exclude, include};
use setl_modes::Mode;
use setl_rep_bases::Bases;
use setl_rep_forms::Held;
use setl_value::Value;
use std::alloc::{AllocError, Global};

/// What is done to a set or a map.
#[derive(Drop)]
pub enum Change {
    /// `s with:= x`
    With(Value),
    /// `s less:= x`
    Less(Value),
    /// `f lessf:= x`
    Lessf(Value),
    /// `f(x) := y`, where y may be `om`
    Put(Value, Option<Value>),
    /// `f{x} with:= y`
    WithImage(Value, Value),
    /// `f{x} less:= y`
    LessImage(Value, Value),
}

/// Does this to a value in the form of its mode, in place.
///
/// Ok(false) comes where there is no such way for the form, or the new part doesn't fit or may make the whole too deep. After
/// that, and after want of memory, which is the error, the value and the bases are as before. Nothing is charged. Where nobody
/// else holds the value, the cost is near linear in the size of what is put in or taken out alone.
pub fn update(
    alloc: Global,
    mode: &Mode,
    held: &mut Held,
    change: &Change,
    bases: &mut Bases,
    instance: u64,
) -> Result<bool, AllocError>
    requires { IsInForm bases.old instance (mode_of mode.now) (form held.old) }
    ensures kernel { IfOk result (λ t. t ≡ makes (mode_of mode.now) (form held.old) change.now) }
    ensures update { IsUpdate (mode_of mode.now) instance (given_by change.now (stands bases.old (form held.old))) bases.old bases.new (form held.old) (form held.new) result }
{
    match change {
        Change::With(x) => include(mode, held, x, bases, instance),
        Change::Less(x) => exclude(held, x, bases),
        Change::Lessf(x) => cut(held, x, bases),
        Change::Put(x, y) => put_part(alloc, mode, held, x, y, bases, instance),
        Change::WithImage(x, y) => include_image(alloc, mode, held, x, y, bases, instance),
        Change::LessImage(x, y) => exclude_image(alloc, mode, held, x, y, bases),
    }
}

// `f(x) := y`, where y may be `om`.
fn put_part(
    alloc: Global,
    mode: &Mode,
    f: &mut Held,
    x: &Value,
    y: &Option<Value>,
    bases: &mut Bases,
    instance: u64,
) -> Result<bool, AllocError>
    requires { IsInForm bases.old instance (mode_of mode.now) (form f.old) }
    ensures kernel { IfOk result (λ t. t ≡ puts_part (mode_of mode.now) (form f.old) x.now y.now) }
    ensures update { IsUpdate (mode_of mode.now) instance (op_of Put (stands bases.old (form f.old) ∷ Some (datum x.now) ∷ part y.now ∷ [])) bases.old bases.new (form f.old) (form f.new) result }
{
    match y {
        Some(image) => put(alloc, mode, f, x, image, bases, instance),
        None => cut(f, x, bases),
    }
}
