//! That marked code, in which last uses are takes, is sound and means what the code means. No code that runs: laws alone.
//!
//! Both machines go step by step together. A slot of the marked code's state holds what the code's holds, or nothing
//! where no path from its place reads it before it is written (`AlikeCore`).
#![tactic(auto)]

ghost use Rattle.setl_code_marked.specs.Claims.{MarkedIsThere, MarkedIsOne, MarkedIsSound, MarkedRunsAlike, MarkedMeansAlike};

/// Each code has a marked code, and only one.
pub fn each_code_has_one_marked_code()
    ensures there { MarkedIsThere }
    ensures one { MarkedIsOne }
{}

/// Sound code stays sound when it is marked.
pub fn marked_code_is_sound()
    ensures { MarkedIsSound }
{}

/// A code and its marked code do the same: after each number of steps both are in states that are alike but for slots
/// that were taken and aren't read before they are written, or both have ended alike, with states that are alike but for
/// slots that may be taken. So marked code means what the code means.
pub fn marked_code_means_the_same()
    ensures runs { MarkedRunsAlike }
    ensures means { MarkedMeansAlike }
{}
