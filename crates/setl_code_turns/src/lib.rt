//! That a bound on turns only cuts a run of code: laws of the stack machine, and no code that runs.
#![tactic(auto)]

ghost use Rattle.setl_code_turns.specs.Laws.{FewerTurnsReach, FewerTurnsAreSpent, FewerTurnsEndThere, FewerTurnsDontGoOn, MoreTurnsKeepCodeEnds, TurnsNeverGrow};

/// Has no effect: it hands a proof the laws of the bound on turns. A run of code with fewer turns goes through the states of
/// one with more of them as long as these still have the difference left, and then its turns are spent. Where the one with
/// more turns ends, the other one doesn't go on; and one that ended otherwise than for want of turns ends in the same way with
/// more of them. No step leaves more turns than there were.
pub fn fewer_turns_cut()
    ensures reach { FewerTurnsReach }
    ensures spent { FewerTurnsAreSpent }
    ensures there { FewerTurnsEndThere }
    ensures ends { FewerTurnsDontGoOn }
    ensures keeps { MoreTurnsKeepCodeEnds }
    ensures left { TurnsNeverGrow }
{}
