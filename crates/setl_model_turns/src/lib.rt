//! That a bound on turns only cuts a run: laws of the meaning, and no code that runs.
#![tactic(auto)]

ghost use Rattle.setl_model_turns.specs.Laws.{MoreTurnsKeepTheEnd, MoreTurnsGoOn, TurnsOnlyCut};

/// Has no effect: it hands a proof the laws of the bound on turns. With more turns a run that ended otherwise than for want
/// of turns ends in the same way, after the same output and events; one whose turns were spent goes on behind all that it
/// wrote and told. So what is written and told with some bound is the front of what is with a greater one.
pub fn more_turns_go_on()
    ensures keeps { MoreTurnsKeepTheEnd }
    ensures goes_on { MoreTurnsGoOn }
    ensures front { TurnsOnlyCut }
{
    setl_model::output_grows();
}
