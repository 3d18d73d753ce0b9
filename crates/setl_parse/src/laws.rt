//! The law on the faults that a parser tells.

ghost use Rattle.setl_parse.specs.Places.{FaultIsUnique, ProgramsHaveNoFault, OthersHaveAFault};

use setl_parse_reading::{fault_is_unique, faults_are_exact, reading_meets_grammar};

/// The tokens of a source derive a tree within 200 nestings, or they have one fault, and not both. So `parse` tells a fault
/// exactly where the tokens have it, unless memory runs out.
pub fn one_fault()
    ensures unique { FaultIsUnique }
    ensures none { ProgramsHaveNoFault }
    ensures either { OthersHaveAFault }
{
    fault_is_unique();
    faults_are_exact();
    reading_meets_grammar();
}
