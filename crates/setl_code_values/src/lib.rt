//! That every value in every state that a run of code reaches is a value: in range, well formed and at most 500 deep. No
//! code that runs: laws alone.
#![tactic(auto)]

ghost use Rattle.setl_code_values.specs.Laws.{RunsStand, StartsStand};

/// In each state of a run, the last one of a run that ended among them, what variables hold, operands, members being collected, items, what `fail` brings back and the
/// values of events are values or `om`, and the output and the input that is left are bytes. It is so where a run starts,
/// and each step keeps it, where what `#` counts and the places that an iterator numbers are fewer than 2^127.
pub fn reached_values_stand()
    ensures starts { StartsStand }
    ensures runs { RunsStand }
{
    setl_operators_laws::operators_give_values();
    setl_model_values::readings_give_values();
    setl_model_values::parts_give_values();
    setl_model_values::takings_give_values();
    setl_model_values::items_are_values();
    setl_model_values::collections_are_values();
}
