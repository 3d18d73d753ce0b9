//! That the dump of a state of code, marked or not, is that of the state of the meaning for which it stands. No code that
//! runs: laws alone.
#![tactic(auto)]

ghost use Rattle.setl_code_layout.specs.Claims.{CodeEndsWithLayout, LaysOutVariablesAlone, MarkedCodeEndsWithLayout, MarkedStatesLayOutAlike, StatesLayOutAlike};

/// A state of code and a state of the meaning that are the same have the same dump, and each declared variable of the code's
/// state has its value: none was taken. It is so inside procedures too, where the main program's variables are those of the
/// outermost activation. So it is with states of marked code that are the same but for what was taken.
pub fn same_states_lay_out_alike()
    ensures plain { StatesLayOutAlike }
    ensures marked { MarkedStatesLayOutAlike }
{}

/// The dump of a core is that of every core with the same variables, whatever else it has.
pub fn layouts_are_of_variables_alone()
    ensures { LaysOutVariablesAlone }
{}

/// Where a run of the code of a formed program ends, in whatever way, the program ends so, after the same output, and its
/// last state has the dump of the code's last state, in which each declared variable has its value. So it is with its marked
/// code.
pub fn code_lays_out_what_is_meant()
    ensures plain { CodeEndsWithLayout }
    ensures marked { MarkedCodeEndsWithLayout }
{
    same_states_lay_out_alike();
    setl_code_simulation::code_means_what_the_program_means();
    setl_code_simulation::code_ends_in_the_same_state();
    setl_code_marked_simulation::marked_code_means_what_the_program_means();
    setl_code_marked_simulation::marked_code_reaches_the_same_states();
}
