//! That the source of the trial is a program. No code that runs: a law alone.
#![tactic(auto)]

ghost use Rattle.setl_top_trial.specs.Claims.{TrialIsAccepted};

/// The source of the trial is a program.
pub fn trial_is_accepted()
    ensures { TrialIsAccepted }
{
    setl_token::piece_at_is_longest();
    setl_parse_reading::reading_meets_grammar();
}
