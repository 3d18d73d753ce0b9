//! Canonical texts, parsed.

ghost use Rattle.setl_token.specs.Text.{Lexed};
ghost use Rattle.setl_show_laws.specs.Claims.{HasTree, IsTextOf, IsParsedAs};

use crate::laws::shown_text_is_read_again;
use setl_parse::{ParseFault, parse};
use setl_token::TokenList;
use setl_tree::Tree;
use std::alloc::Global;

/// Parses the tokens of the canonical text of a tree that the tokens of some source derive. It gives this tree, up to
/// lines.
///
/// # Errors
///
/// `Nesting`, where the text needs more than 200 nestings, by the parentheses that it has and the source hasn't.
/// `NoMemory` if memory runs out. Never `Syntax`.
pub fn parse_shown(alloc: Global, list: &TokenList) -> Result<Tree, ParseFault>
    ensures { (l : Lexed) (tree : Tree) → HasTree l tree → IsTextOf list.now tree → IsParsedAs result tree }
{
    shown_text_is_read_again();
    parse(alloc, list)
}
