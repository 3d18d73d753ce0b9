//! That the code of an accepted program may run: its slots are there and differ, and its operators have their
//! operands. No code that runs: a law alone.
#![tactic(auto)]

ghost use Rattle.setl_code_may_run.specs.Claims.{CodeMayRun};

/// Code that is the code of a program in which each variable has a place, and each operator its operands, may run: each
/// slot that its steps name is there, each stands for a variable of its own, and each operator has as many operands as
/// it needs.
pub fn code_may_run()
    ensures may_run { CodeMayRun }
{}
