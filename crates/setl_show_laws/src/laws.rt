//! Laws between texts and tokens. The functions do nothing: what they ensure is the law.

ghost use Rattle.setl_show_laws.specs.Claims.{TextIsSpelled, SpellingIsDetermined, CanonicalTextIsSpelled, LinesDoNotMatter, CanonicalTextDerives, SourceIsSpelled, ShownTextHasTokens, ShownTextDerives, ShownTextDerivesNoOther, ShownTextIsRead, SameTreesAreShownAlike, ShownTextStays};

use setl_parse_cursor::string_holds_its_body;
use setl_parse_reading::{
    canonical_tokens_derive, faults_are_exact, nestings_may_be_fewer, reading_meets_grammar,
    tree_is_unique,
};
use setl_token::{blank_ends_token, lexing_is_determined, piece_at_is_longest};

/// The text of tokens that bytes can spell is spelled as these tokens.
pub fn text_is_spelled()
    ensures { TextIsSpelled }
{
    blank_ends_token();
    piece_at_is_longest();
}

/// A source is spelled as one list of tokens, up to their lines.
pub fn spelling_is_determined()
    ensures { SpellingIsDetermined }
{
    lexing_is_determined();
}

/// The canonical text of a tree that the tokens of some source derive is spelled as the canonical tokens of the tree.
pub fn canonical_text_is_spelled()
    ensures { CanonicalTextIsSpelled }
{
    text_is_spelled();
}

/// Tokens that differ in their lines alone derive the same tree, up to lines.
pub fn lines_do_not_matter()
    ensures { LinesDoNotMatter }
{}

/// The tokens of the canonical text of a tree derive the tree, up to lines, for every tree that the tokens of some
/// source derive.
pub fn canonical_text_derives()
    ensures { CanonicalTextDerives }
{
    canonical_tokens_derive();
    canonical_text_is_spelled();
    spelling_is_determined();
    lines_do_not_matter();
}

/// The tokens of a source, as the plain data of which the grammar speaks, are what its bytes read as.
pub fn source_is_spelled()
    ensures { SourceIsSpelled }
{
    string_holds_its_body();
}

/// `show` writes the same text of trees that are the same up to lines.
pub fn same_trees_are_shown_alike()
    ensures { SameTreesAreShownAlike }
{}

/// The text that `show` writes of a tree is read again as this tree, for every tree that the tokens of some source
/// derive: the text has tokens, these derive the tree, up to lines, and they derive no other. Within however few nestings
/// they derive it, or their fault is one of nesting, since the text may need more nestings than the source, by the
/// parentheses that `show` writes. Of each tree that they derive `show` writes the same text.
pub fn shown_text_is_read_again()
    ensures has_tokens { ShownTextHasTokens }
    ensures derives { ShownTextDerives }
    ensures no_other { ShownTextDerivesNoOther }
    ensures is_read { ShownTextIsRead }
    ensures stays { ShownTextStays }
{
    source_is_spelled();
    canonical_text_is_spelled();
    canonical_text_derives();
    same_trees_are_shown_alike();
    tree_is_unique();
    reading_meets_grammar();
    nestings_may_be_fewer();
    faults_are_exact();
}
