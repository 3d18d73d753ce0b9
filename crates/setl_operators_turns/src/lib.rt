//! That turns only bound an operator: with more of them left it gives the same, and it charges no more than is left. No code
//! that runs: laws alone.
#![tactic(auto)]

ghost use Rattle.setl_operators_turns.specs.Laws.{MoreTurnsKeepOutcomes};

/// With more turns left an operator gives the same value for the same charge, which is no more than was left, or fails in
/// the same way. Where it lacked turns, its charge with more of them is more than it had.
pub fn more_turns_keep_outcomes()
    ensures { MoreTurnsKeepOutcomes }
{}
