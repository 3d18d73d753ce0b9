//! The parser of SETL: the tokens of a source, read as a syntax tree, or their fault and its place.
#![tactic(auto)]

mod fault;
mod laws;

ghost use Rattle.std.specs.Prelude.{◌≡◌, ◌≢◌, IfOk, IfErr, MatchResult};
ghost use Rattle.setl_tree.specs.Programs as grammar;
ghost use Rattle.setl_tree.specs.Programs.{Derives};
ghost use Rattle.setl_parse_cursor.specs.Plain.{plain_tokens};
ghost use Rattle.setl_parse.specs.Places.{IsFaultOf};

pub use fault::ParseFault;
use fault::fault_at;
pub use laws::one_fault;
use setl_parse_cursor::Cursor;
use setl_parse_reading::{faults_are_exact, reading_meets_grammar, tree_is_unique};
use setl_parse_statements::program;
use setl_token::TokenList;
use setl_tree::Tree;
use std::alloc::Global;

/// How many nestings may be open inside one another.
pub const NESTINGS: usize = 200;

/// The syntax tree of the tokens of a source.
///
/// # Errors
///
/// `Syntax` where no tree has the tokens, at the first token with which those so far begin no program, or at the end of
/// the source if all of them begin one. `Nesting` at the first token that opens a nesting inside 200 others, if no fault of
/// syntax stands before. `NoMemory` if memory runs out.
pub fn parse(alloc: Global, list: &TokenList) -> Result<Tree, ParseFault>
    ensures derives { IfOk result (λ tree. grammar.program 200 (plain_tokens list.now) tree) }
    ensures finds { (tree : Tree) → grammar.program 200 (plain_tokens list.now) tree
        → MatchResult result (λ t. t ≡ tree) (λ e. e ≡ ParseFault.NoMemory) }
    ensures unique { IfOk result (λ t. (tree : Tree) → Derives (plain_tokens list.now) tree → t ≡ tree) }
    ensures fault { IfErr result (λ e. e ≢ ParseFault.NoMemory → IsFaultOf list.now e) }
{
    faults_are_exact();
    reading_meets_grammar();
    tree_is_unique();
    let mut tokens = Cursor::new(alloc, list);
    match program(NESTINGS, &mut tokens) {
        Ok(tree) => {
            if tokens.left() > 0 {
                return Err(fault_at(list, tokens.refuse()));
            }
            Ok(tree)
        }
        Err(fault) => Err(fault_at(list, fault)),
    }
}
