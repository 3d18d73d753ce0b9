//! Sources read as programs: tokens, then a tree, then the rules.
ghost use Rattle.std.specs.Prelude.{◌≡◌, ◌≤◌, ◌^◌, length, IfOk, IfErr};
ghost use Rattle.setl_token.specs.Lex.{Spelled};
ghost use Rattle.setl_top.specs.Accepted.{IsParsed};
ghost use Rattle.setl_top.specs.code.Loads.{IsChecked, TellsWhy};

use setl_modes::NamedMode;
use setl_names::RuleFault;
use setl_parse::{ParseFault, parse};
use setl_token::{LexFault, TokenList, tokens};
use setl_top_rules::sound;
use setl_top_status::Reason;
use setl_tree::{Items, Tree};
use std::alloc::Global;

/// A source that is a program: its tree, and its declared variables with their modes, in the order of their
/// declarations.
#[derive(Drop)]
pub struct Checked {
    pub tree: Tree,
    pub modes: Items<NamedMode>,
}

/// Why no program was read.
#[derive(Clone, Copy)]
pub enum Unread {
    /// The source is refused.
    Refused(Reason),
    /// Memory was refused.
    NoMemory,
}

/// The tokens of a source.
fn lexed(alloc: Global, source: &[u8]) -> Result<TokenList, Unread>
    requires { length source.now ≤ 2 ^ 24 }
    ensures source { IfOk result (λ list. list.source ≡ source.now) }
    ensures spelled { IfOk result (λ list. Spelled source.now list.tokens) }
    ensures why { IfErr result (TellsWhy source.now) }
{
    match tokens(alloc, source) {
        Ok(list) => Ok(list),
        Err(LexFault::Byte { at }) => Err(Unread::Refused(Reason::Byte { at })),
        Err(LexFault::OpenString { at }) => Err(Unread::Refused(Reason::OpenString { at })),
        Err(LexFault::WideNumber { at }) => Err(Unread::Refused(Reason::WideNumber { at })),
        Err(LexFault::NoMemory) => Err(Unread::NoMemory),
    }
}

/// The tree of tokens.
fn parsed(alloc: Global, list: &TokenList) -> Result<Tree, Unread>
    requires short { length list.now.source ≤ 2 ^ 24 }
    requires spelled { Spelled list.now.source list.now.tokens }
    ensures tree { IfOk result (IsParsed list.now.source) }
    ensures why { IfErr result (TellsWhy list.now.source) }
{
    match parse(alloc, list) {
        Ok(tree) => Ok(tree),
        Err(ParseFault::Syntax { at }) => Err(Unread::Refused(Reason::Syntax { at })),
        Err(ParseFault::Nesting { at }) => Err(Unread::Refused(Reason::Nesting { at })),
        Err(ParseFault::NoMemory) => Err(Unread::NoMemory),
    }
}

/// The program of a source. A refusal is the first by length, tokens, syntax and nesting, and rules.
pub fn read_program(alloc: Global, source: &[u8]) -> Result<Checked, Unread>
    requires { length source.now ≤ 2 ^ 24 }
    ensures read { IfOk result (IsChecked source.now) }
    ensures why { IfErr result (TellsWhy source.now) }
{
    let list = lexed(alloc, source)?;
    let tree = parsed(alloc, &list)?;
    match sound(alloc, &tree) {
        Ok(modes) => Ok(Checked { tree, modes }),
        Err(RuleFault::Broken { rule, line }) => Err(Unread::Refused(Reason::Broken {
            rule,
            line,
        })),
        Err(RuleFault::NoMemory) => Err(Unread::NoMemory),
    }
}
