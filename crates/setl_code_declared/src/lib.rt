//! That what a declared variable holds fits its mode, at each step of a run. No code that runs: laws alone.
#![tactic(auto)]

ghost use Rattle.setl_code_declared.specs.Laws.{StartsFit, RunsFit, HeldFits};

/// In a run whose stores are tested, each declared variable holds a value that fits its mode, or `om`, or its value was taken
/// out; so does each that `fail` brings back. It is so where a run starts, and each step keeps it.
pub fn declared_variables_fit()
    ensures starts { StartsFit }
    ensures runs { RunsFit }
    ensures held { HeldFits }
{}
