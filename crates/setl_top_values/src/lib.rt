//! That each value in each state that the code of an accepted source reaches is a value. No code that runs: laws alone.
#![tactic(auto)]

ghost use Rattle.setl_top_values.specs.Claims.{CodeOfProgramsStands, ReachedStatesStand};
ghost use Rattle.setl_top_values.specs.Constants.{ConstantsAreValues, MarkedConstantsAreValues};

/// Where a source of bytes is spelled by tokens that derive a tree, the code of the tree's program pushes values and `om`
/// alone: integers of the source are below 2^127, and strings have bytes other than line feeds. Marked code pushes what its
/// code does.
pub fn constants_are_values()
    ensures plain { ConstantsAreValues }
    ensures marked { MarkedConstantsAreValues }
{}

/// The code of a program whose source is bytes pushes values and `om` alone, and so does its marked code. In each state that
/// a run of either reaches, the last one among them, on bytes and with fewer than 2^64 turns, what variables hold, operands, members being
/// collected, items, what `fail` brings back and the values of events are values or `om`, and the output and the input that
/// is left are bytes, where what `#` counts and the places that an iterator numbers are fewer than 2^127.
pub fn reached_values_are_values()
    ensures code { CodeOfProgramsStands }
    ensures states { ReachedStatesStand }
{
    constants_are_values();
    setl_code_values::reached_values_stand();
}
