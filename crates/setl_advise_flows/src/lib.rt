//! Flows: what values each variable of a program can have, and the modes that are advised for them. No code that runs:
//! laws alone.
#![tactic(auto)]

ghost use Rattle.setl_advise_flows.specs.Expressions.{Solves};
ghost use Rattle.setl_advise_flows.specs.Claims.{AdviceFits, EachHasSolution, FlowsFit, ReachedInFlows};
ghost use Rattle.setl_advise_flows.specs.Rows.{mixed, mixed_flows, reached, reached_flows};

/// Where the flows of a program meet its conditions, each variable has a value in its flow in each state that a run
/// reaches, and no run of the program with the modes that are advised for its flows ends for a value that doesn't fit.
pub fn values_stay_in_their_flows()
    ensures reached { ReachedInFlows }
    ensures fits { AdviceFits }
{}

/// A value in a flow fits the mode that is advised for the flow.
pub fn values_fit_the_modes_of_their_flows()
    ensures { FlowsFit }
{}

/// The conditions of a formed program can be met: by the flows that have all values.
pub fn each_program_has_flows()
    ensures { EachHasSolution }
{}

/// Worked programs. What a graph reaches is found by a map, a set, a tuple and integers. What is read can have all values.
pub fn worked_programs()
    ensures reached { Solves reached reached_flows }
    ensures mixed { Solves mixed mixed_flows }
{}
