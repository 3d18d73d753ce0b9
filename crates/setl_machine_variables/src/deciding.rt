//! Whether a variable takes the new whole of an update, as the new part alone tells.

ghost use Rattle.std.specs.Prelude.{◌≡◌, true, map, Option, Some, option_map, IfOk, IsTrue};
ghost use Rattle.setl_code_declared.specs.Laws.{HeldFits};
ghost use Rattle.setl_machine_control.specs.Declaring.{Modes, tested, Keeps};
ghost use Rattle.setl_machine_updates.specs.Selectors.{selected};
ghost use Rattle.setl_machine_control.specs.Declaring.{mode_by};
ghost use Rattle.setl_machine_variables.specs.Deciding.{mode_at, part_mode, decides_put, decides_combined, decides_taken, PartLaws};
ghost use Rattle.setl_model_runs.specs.Variable.{Variable};
ghost use Rattle.setl_modes.specs.Fits.{datum_fits, is_taken};
ghost use Rattle.setl_modes.specs.Modes.{mode_of};
ghost use Rattle.setl_value.specs.Datum.{Datum};
ghost use Rattle.setl_value.specs.WellFormed.{PartIsWellFormed};
ghost use Rattle.setl_value.specs.code.DatumOf.{datum, part};

use setl_code_declared::declared_variables_fit;
use setl_machine_control::Declaration;
use setl_machine_updates::{Operator, Selector};
use setl_modes::Mode;
use setl_modes_fit::fits;
use setl_modes_parts::{combines, images_mode, parts_decide, value_mode};
use setl_value::{Value, copied_part};
use std::alloc::AllocError;

/// Whether it is plain to see, of an integer or a truth value as of any other, that a variable takes it: where the variable isn't
/// declared, or its mode asks for no more than the kind.
#[inline(always)]
pub(crate) fn surely_takes(declared: Option<Declaration<'_>>, value: &Value) -> bool
    ensures { IsTrue result → is_taken (mode_by declared.entry) (Some (datum value.now)) ≡ true }
{
    match declared {
        None => true,
        Some(declaration) => surely_fits(declaration.mode, value),
    }
}

/// Whether it is plain to see that a value fits a mode; an element of a base fits where it has the kind of the base's members.
#[inline(always)]
fn surely_fits(mode: &Mode, value: &Value) -> bool
    ensures { IsTrue result → datum_fits (mode_of mode.now) (datum value.now) ≡ true }
{
    match mode {
        Mode::Elmt(_, members) => is_of_kind(members.get(), value),
        _ => is_of_kind(mode, value),
    }
}

/// Whether a mode asks for no more than the kind that a value has.
#[inline(always)]
fn is_of_kind(mode: &Mode, value: &Value) -> bool
    ensures { IsTrue result → datum_fits (mode_of mode.now) (datum value.now) ≡ true }
{
    match (mode, value) {
        (Mode::General, _) => true,
        (Mode::Int, Value::Int(_)) => true,
        (Mode::Boolean, Value::Bool(_)) => true,
        _ => false,
    }
}

/// Whether a variable takes the whole that gets a new part, where it took the old one: the part fits the mode that it has
/// there. It costs the test of the selectors' operands and of the part.
pub(crate) fn decides_put(
    declared: Option<Declaration<'_>>,
    at: &[Selector],
    value: &Option<Value>,
) -> bool
    ensures { result ≡ decides_put (mode_by declared.entry) (map selected at.now) (part value.now) }
{
    match declared {
        None => true,
        Some(declaration) => match part_mode(declaration.mode, at) {
            None => false,
            Some(mode) => fits(mode, value),
        },
    }
}

/// The same of the whole whose part is combined with a value.
pub(crate) fn decides_combined(
    by: Operator,
    declared: Option<Declaration<'_>>,
    at: &[Selector],
    value: &Option<Value>,
) -> bool
    ensures { result ≡ decides_combined by (mode_by declared.entry) (map selected at.now) (part value.now) }
{
    match declared {
        None => true,
        Some(declaration) => match part_mode(declaration.mode, at) {
            None => false,
            Some(mode) => combines(by, mode, value),
        },
    }
}

/// The same of the whole that has a value taken out of a part.
pub(crate) fn decides_taken(declared: Option<Declaration<'_>>, at: &[Selector]) -> bool
    ensures { result ≡ decides_taken (mode_by declared.entry) (map selected at.now) }
{
    match declared {
        None => true,
        Some(declaration) => match part_mode(declaration.mode, at) {
            None => false,
            Some(_) => true,
        },
    }
}

/// The mode of the part at some selectors, the outermost first, in a whole of this mode; None where the selectors alone don't
/// tell it.
fn part_mode<'m>(mode: &'m Mode, at: &[Selector]) -> Option<&'m Mode>
    ensures { option_map (λ m. mode_of m.now) result ≡ part_mode (mode_of mode.now) (map selected at.now) }
{
    let mut inner = mode;
    for selector in at {
        inner = mode_at(inner, selector)?;
    }
    Some(inner)
}

/// The mode of the part at a selector.
fn mode_at<'m>(mode: &'m Mode, selector: &Selector) -> Option<&'m Mode>
    ensures { option_map (λ m. mode_of m.now) result ≡ mode_at (mode_of mode.now) (selected selector.now) }
{
    match selector {
        Selector::Round(x) => value_mode(mode, x),
        Selector::Brace(x) => images_mode(mode, x),
    }
}

/// A copy of what a variable holds, unless it is sure that the variable takes its new whole. The error is want of memory.
pub(crate) fn kept_unless(
    sure: bool,
    whole: &Option<Value>,
) -> Result<Option<Option<Value>>, AllocError>
    ensures { IfOk result (λ kept. (modes : Modes) (x : Variable) (new : Option Datum) → (sure ≡ true → tested modes x new ≡ true) → Keeps modes x (part whole.now) new (option_map part kept)) }
{
    if sure {
        Ok(None)
    } else {
        Ok(Some(copied_part(whole)?))
    }
}

/// Has no effect: it hands a proof that a whole is well-formed, the laws of parts, and that what declared variables hold fits.
pub(crate) fn learn_laws(whole: &Option<Value>)
    ensures formed { PartIsWellFormed (part whole.now) }
    ensures parts { PartLaws }
    ensures held { HeldFits }
{
    parts_decide();
    declared_variables_fit();
    learn_formed(whole);
}

/// Has no effect: it hands a proof that a value is well-formed.
fn learn_formed(whole: &Option<Value>)
    ensures { PartIsWellFormed (part whole.now) }
{
    match whole {
        None => {}
        Some(value) => value.learn(),
    }
}
