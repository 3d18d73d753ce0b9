//! Wholes that are combined with a value.

ghost use Rattle.std.specs.Prelude.{◌≡◌};
ghost use Rattle.setl_value.specs.code.DatumOf.{part};
ghost use Rattle.setl_modes.specs.Modes.{mode_of};
ghost use Rattle.setl_modes_parts.specs.Parts.{takes_one, takes_all, takes_product, takes_remainder, takes_any, combines};

use setl_modes::Mode;
use setl_modes_fit::fits;
use setl_operators_table::Operator;
use setl_value::Value;

/// Whether a whole that fits a mode fits it too once an operator combined it with a value, as the value alone tells. False
/// where it doesn't tell that.
///
/// What takes members out keeps every mode, and so does what makes an integer of integers alone. `with` keeps that of a set
/// or tuple where the value fits the mode of the members or components, and `+` where the other set or tuple fits; of an
/// integer `+` and `mod` keep it, and `*` where the other value is one. It takes no memory, and costs the test of the value.
pub fn combines(by: Operator, mode: &Mode, value: &Option<Value>) -> bool
    ensures { result ≡ combines by (mode_of mode.now) (part value.now) }
{
    match by {
        Operator::With => takes_one(mode, value),
        Operator::Add => takes_all(mode, value),
        Operator::Less => true,
        Operator::Subtract => true,
        Operator::Lessf => true,
        Operator::Multiply => takes_product(mode, value),
        Operator::Modulo => takes_remainder(mode),
        Operator::Power => true,
        Operator::Divide => true,
        Operator::Max => true,
        Operator::Min => true,
        _ => takes_any(mode),
    }
}

// Whether `whole with value` fits where the whole does.
fn takes_one(mode: &Mode, value: &Option<Value>) -> bool
    ensures { result ≡ takes_one (mode_of mode.now) (part value.now) }
{
    match mode {
        Mode::General => true,
        Mode::Elmt(_, m) => takes_one(m.get(), value),
        Mode::Set(_, m) => fits(m.get(), value),
        Mode::Tuple(m) => fits(m.get(), value),
        _ => false,
    }
}

// Whether `whole + value` fits where the whole does.
fn takes_all(mode: &Mode, value: &Option<Value>) -> bool
    ensures { result ≡ takes_all (mode_of mode.now) (part value.now) }
{
    match mode {
        Mode::General => true,
        Mode::Int => true,
        Mode::Str => true,
        Mode::Elmt(_, m) => takes_all(m.get(), value),
        Mode::Set(_, _) => fits(mode, value),
        Mode::Tuple(_) => fits(mode, value),
        _ => false,
    }
}

// Whether `whole * value` fits where the whole does. An integer may also make copies of a string.
fn takes_product(mode: &Mode, value: &Option<Value>) -> bool
    ensures { result ≡ takes_product (mode_of mode.now) (part value.now) }
{
    match mode {
        Mode::General => true,
        Mode::Int => fits(mode, value),
        Mode::Elmt(_, m) => takes_product(m.get(), value),
        _ => false,
    }
}

// Whether `whole mod value` fits where the whole does.
fn takes_remainder(mode: &Mode) -> bool
    ensures { result ≡ takes_remainder (mode_of mode.now) }
{
    match mode {
        Mode::General => true,
        Mode::Int => true,
        Mode::Elmt(_, m) => takes_remainder(m.get()),
        _ => false,
    }
}

// Whether the mode takes every value.
fn takes_any(mode: &Mode) -> bool
    ensures { result ≡ takes_any (mode_of mode.now) }
{
    match mode {
        Mode::General => true,
        Mode::Elmt(_, m) => takes_any(m.get()),
        _ => false,
    }
}
