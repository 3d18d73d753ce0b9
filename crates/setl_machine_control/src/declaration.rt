//! Which values declared variables take.

ghost use Rattle.setl_model_runs.specs.Variable.{Variable};
ghost use Rattle.setl_value.specs.code.DatumOf.{part};
ghost use Rattle.setl_machine_control.specs.Declaring.{Modes, IsDeclared, Tests};

use setl_modes::Mode;
use setl_modes_fit::fits;
use setl_value::Value;

/// The declaration of a variable: its place among those of the program, from 0, and its mode.
#[derive(Clone, Copy)]
pub struct Declaration<'p> {
    pub place: u32,
    pub mode: &'p Mode,
}

/// The place of the declaration that refuses a value, or `om`.
pub fn refusal(declared: Option<Declaration<'_>>, value: &Option<Value>) -> Option<u32>
    ensures { (modes : Modes) (x : Variable) → IsDeclared modes x declared.entry → Tests modes x (part value.now) result }
{
    match declared {
        None => None,
        Some(declaration) => {
            if fits(declaration.mode, value) {
                None
            } else {
                Some(declaration.place)
            }
        }
    }
}
