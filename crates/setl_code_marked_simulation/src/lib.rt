//! That the marked code of a program, in which last uses are takes, is sound and means what the program means. No code
//! that runs: laws alone.
#![tactic(auto)]

ghost use Rattle.setl_code_marked_simulation.specs.Claims.{MarkedOfProgramsIsSound, MarkedEndsAlike, MarkedMeansWhatTheProgramMeans, MarkedEndsInTheSameState, MarkedReachesTheSameStates, MarkedReadsWhereMeant, MarkedPrintsWhereMeant};

/// The marked code of a formed program is sound: it reads nothing that was taken, lacks no operand, and takes a turn on each
/// way round.
pub fn marked_code_of_programs_is_sound()
    ensures { MarkedOfProgramsIsSound }
{
    setl_code_soundness::code_of_programs_is_sound();
    setl_code_marked::marked_code_is_sound();
}

/// The marked code of a formed program ends exactly as the program does, after the same output and the same events. So it
/// means what the program means.
pub fn marked_code_means_what_the_program_means()
    ensures ends { MarkedEndsAlike }
    ensures means { MarkedMeansWhatTheProgramMeans }
{
    setl_code_simulation::code_means_what_the_program_means();
    setl_code_marked::marked_code_means_the_same();
}

/// Where the marked code ends, it ends in the state in which the program ends, but for variables that were taken; none of
/// these is declared or one of the whole program. Each state that it reaches is one that the program reaches, in the same
/// sense, and it reads and prints where the program does.
pub fn marked_code_reaches_the_same_states()
    ensures last { MarkedEndsInTheSameState }
    ensures reached { MarkedReachesTheSameStates }
    ensures reads { MarkedReadsWhereMeant }
    ensures prints { MarkedPrintsWhereMeant }
{
    setl_code_simulation::code_ends_in_the_same_state();
    setl_code_simulation::code_reaches_the_same_states();
    setl_code_marked::marked_code_means_the_same();
}
