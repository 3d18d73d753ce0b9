//! What a program asks of its flows, as a list of conditions, and flows that grow by these. No code that runs: laws
//! alone.
#![tactic(auto)]

ghost use Rattle.setl_advise_conditions.specs.Claims.{JoinsRise, MetIsSolved, RanksAreBounded, SolvedIsMet};

/// Flows that meet each condition of a formed program meet all that the program asks.
pub fn conditions_are_enough()
    ensures { MetIsSolved }
{}

/// Flows that meet all that a program asks meet each of its conditions.
pub fn conditions_are_needed()
    ensures { SolvedIsMet }
{}

/// Flows cannot rise forever: each join that changes a flow raises its rank, and ranks are bounded.
pub fn flows_rise_to_an_end()
    ensures rise { JoinsRise }
    ensures bounded { RanksAreBounded }
{}
