//! That the code of a program is sound, and that runs of sound code end and are never stuck. No code that runs: laws alone.
#![tactic(auto)]

ghost use Rattle.setl_code_soundness.specs.Claims.{StartsReady, StaysReady, ReachedAreReady, ReadyFinds, EveryCodeRunEnds, NoCodeIsStuck, CodeOfProgramsIsSound, CodeOfProgramsIsClosed};

/// Sound code starts in a state that is ready, and each step from a ready state leads to a ready state or ends the run,
/// which isn't stuck. So each state that a run reaches is ready. There the instruction in hand finds the operands that it
/// takes, of their kinds, and reads no variable whose value was taken.
pub fn sound_code_stays_ready()
    ensures starts { StartsReady }
    ensures stays { StaysReady }
    ensures reached { ReachedAreReady }
    ensures finds { ReadyFinds }
{}

/// Every run of sound code ends, for every input and bound on turns, and is not stuck.
pub fn every_run_of_sound_code_ends()
    ensures ends { EveryCodeRunEnds }
    ensures not_stuck { NoCodeIsStuck }
{}

/// The code of a formed program is sound. And closed, where the program names what is there.
pub fn code_of_programs_is_sound()
    ensures sound { CodeOfProgramsIsSound }
    ensures closed { CodeOfProgramsIsClosed }
{}
