//! That the code of a program means what the program means. No code that runs: laws alone.
//!
//! A state of the code stands for a state of the meaning (`Matches`), and each move of the code is answered by steps of
//! the meaning, or by none where a rank falls (`Follows`).
#![tactic(auto)]

ghost use Rattle.setl_model.specs.Ending.{EveryRunEnds, NoneIsStuck};
ghost use Rattle.setl_code_simulation.specs.Claims.{CodeEndsAlike, CodeMeansAlike, CodeEndsInTheSameState, CodeReachesTheSameStates, CodeReadsWhereMeant, CodePrintsWhereMeant};

/// The code of a formed program ends exactly as the program does, after the same output and the same events, whether
/// declarations count or not: for every input and every bound on turns. So the code means what the program means.
pub fn code_means_what_the_program_means()
    ensures ends { CodeEndsAlike }
    ensures means { CodeMeansAlike }
{}

/// Where the code of a formed program ends, it ends in the state in which the program ends: the same body is in hand,
/// and the variables that all bodies see and, activation by activation, the parameters and own names have the same
/// values. A name that was never stored is `om`. The same is left of the input and of the turns, too.
pub fn code_ends_in_the_same_state()
    ensures last { CodeEndsInTheSameState }
{}

/// Each state that the code of a formed program reaches is one that the program reaches, with the same output, events
/// and values. Where the code is at a `read`, that `read` is in hand there; where it is at a `print`, that `print` is,
/// with the same text, and its operands are there.
pub fn code_reaches_the_same_states()
    ensures reached { CodeReachesTheSameStates }
    ensures reads { CodeReadsWhereMeant }
    ensures prints { CodePrintsWhereMeant }
{}

/// Every run of a formed program ends, for every input and bound on turns, whether declarations count or not, and none is
/// stuck. For so it is with its code, which is sound.
pub fn every_run_ends()
    ensures ends { EveryRunEnds }
    ensures not_stuck { NoneIsStuck }
{
    setl_code_soundness::code_of_programs_is_sound();
    setl_code_soundness::every_run_of_sound_code_ends();
}
