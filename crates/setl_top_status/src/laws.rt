//! Worked lines. The function has no effect: it states them.
ghost use Rattle.std.specs.Prelude.{◌≡◌, [], codes};
ghost use Rattle.setl_model_runs.specs.Events.{Done, Stopped, Spent, Wide, Unfit, Nothing};
ghost use Rattle.setl_model_runs.specs.Variable.{Global};
ghost use Rattle.setl_top_status.specs.Ends.{error_line};

/// The error line of a stop has its line and its words.
pub fn worked_lines()
    ensures wide { error_line (Stopped Wide 3) ≡ codes "line 3: wide\n" }
    ensures unfit { error_line (Stopped (Unfit (Global (codes "s"))) 14) ≡ codes "line 14: value does not fit s\n" }
    ensures nothing { error_line (Stopped Nothing 2) ≡ codes "line 2: nothing to go back to\n" }
    ensures spent { error_line Spent ≡ codes "out of turns\n" }
    ensures done { error_line Done ≡ [] }
{}
