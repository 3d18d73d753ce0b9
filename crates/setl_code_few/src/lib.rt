//! How much code a program has: at most nine steps in a body for each token of the source, and no more variables, bodies
//! and declared variables than there are tokens. So numbers of 32 bits are enough for the code of at most 2^24 tokens; and
//! a source has no more tokens than bytes. No code that runs: laws alone.
#![tactic(auto)]

ghost use Rattle.setl_code_few.specs.Claims.{CodeIsLinear, CodeIsFew, TokensAreFew};
ghost use Rattle.setl_code_few.specs.Markings.{MarkedIsLinear, MarkedIsFew};

/// In the code of a program that so many tokens derive each body has at most nine times as many steps, and at most as many
/// variables; and there are at most as many bodies, variables of the whole program and declared variables. So it is of its
/// marked code.
pub fn code_is_linear()
    ensures linear { CodeIsLinear }
    ensures marked { MarkedIsLinear }
{}

/// The code of a program that at most 2^24 tokens derive has few enough bodies, steps, slots and declared variables for
/// numbers of 32 bits, and so has its marked code.
pub fn code_is_few()
    ensures few { CodeIsFew }
    ensures marked { MarkedIsFew }
{}

/// A source is spelled by at most as many tokens as it has bytes.
pub fn tokens_are_few()
    ensures { TokensAreFew }
{}
