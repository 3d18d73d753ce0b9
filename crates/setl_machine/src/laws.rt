//! What follows from the definitions alone. The functions have no effect: each states a law.

ghost use Rattle.setl_machine.specs.Outcome.{EndsChangeNothing, EndsWriteNothing, StepsAdd};

use setl_code_events::ends_tell_nothing;

/// A step that ends a run writes nothing, so a run ends with the output of a state that it reached.
pub fn ends_write_nothing()
    ensures { EndsWriteNothing }
{}

/// A step that ends a run writes and tells nothing and leaves every slot as it was, from any state: where the declared
/// variables are those of the main body, which has no parameters.
pub fn ends_change_nothing()
    ensures { EndsChangeNothing }
{
    ends_tell_nothing();
}

/// What a step writes and tells stands behind what was written and told before it, and rests on the core alone.
pub fn steps_add()
    ensures { StepsAdd }
{}
