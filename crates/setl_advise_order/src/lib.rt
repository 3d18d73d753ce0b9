//! An order on flows, in which the join is the least flow above both, and by which flows that grow by conditions are the
//! least that meet them. No code that runs: laws alone.
#![tactic(auto)]

ghost use Rattle.setl_advise_order.specs.Claims.{BelowIsLe, GrownIsLeast, JoinIsAbove, JoinIsLeast, LeIsOrder};

/// `Le` is an order. The join of two flows is above both, and it is the least flow of at most three constructors inside one
/// another that is. A flow is below such a flow by `Le` exactly where their join is that flow.
pub fn joins_are_least()
    ensures order { LeIsOrder }
    ensures above { JoinIsAbove }
    ensures least { JoinIsLeast }
    ensures below { BelowIsLe }
{}

/// Flows that come from no values by what conditions store are below all flows, of at most three constructors inside one
/// another, that meet these conditions. So those of them that meet the conditions are the least.
pub fn grown_flows_are_least()
    ensures { GrownIsLeast }
{}
