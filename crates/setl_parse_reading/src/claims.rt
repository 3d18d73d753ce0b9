//! The laws between reading and the grammar.

ghost use Rattle.setl_parse_reading.specs.Claims.{ReadingIsSound, ReadingIsComplete, NestingsMayBeMore, NestingsMayBeFewer, TreeIsUnique, CanonicalTokensDerive, FaultIsExact, LeftoverIsExact, FaultIsUnique, ProgramsHaveNoFault};

/// Reading finds a program's tree exactly where the tokens derive it with as many nestings as may open.
pub fn reading_meets_grammar()
    ensures sound { ReadingIsSound }
    ensures complete { ReadingIsComplete }
{}

/// Where fewer nestings may open, a program is read with the same outcome, or reading ends at a token that opens one
/// nesting too many. So tokens that derive a tree are refused for their nestings alone.
pub fn nestings_may_be_fewer()
    ensures { NestingsMayBeFewer }
{}

/// Tokens derive at most one tree, and derive it also where more nestings may open.
pub fn tree_is_unique()
    ensures more { NestingsMayBeMore }
    ensures unique { TreeIsUnique }
{}

/// The canonical tokens of a tree that some tokens derive, derive that tree, with the lines that it has.
pub fn canonical_tokens_derive()
    ensures { CanonicalTokensDerive }
{}

/// Where tokens are no program within so many nestings, reading tells their one fault. It is of syntax where the tokens
/// before that place begin a program, and with the token there they begin none, and no token before opens one nesting too
/// many; and of nesting at the first token that does: those up to it begin a program, but none within so many nestings.
pub fn faults_are_exact()
    ensures fault { FaultIsExact }
    ensures leftover { LeftoverIsExact }
{}

/// Tokens have one fault at most, and none where they derive a tree within so many nestings.
pub fn fault_is_unique()
    ensures unique { FaultIsUnique }
    ensures none { ProgramsHaveNoFault }
{}
