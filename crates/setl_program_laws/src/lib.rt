//! That a tree which breaks no rule of names means a program that is formed and placed. No code that runs: laws alone.
#![tactic(auto)]

ghost use Rattle.setl_program_laws.specs.Claims.{AcceptedIsFormed, AcceptedIsPlaced, AcceptedIsUpdating};

/// A tree that the grammar derives and that breaks no rule means a program whose parts are of the kinds that they need,
/// in which each variable has a place, each operator its operands, and each update an operator that may stand there.
pub fn accepted_is_formed()
    ensures formed { AcceptedIsFormed }
    ensures placed { AcceptedIsPlaced }
    ensures updating { AcceptedIsUpdating }
{}
