//! Whether the source in which advice stands is accepted, and its runs fit.
ghost use Rattle.std.specs.Prelude.{◌≡◌, ◌≤◌, ◌^◌, None, length, IfOk, OnOk};
ghost use Rattle.setl_token.specs.Lex.{Spelled};
ghost use Rattle.setl_tree.specs.Programs as grammar;
ghost use Rattle.setl_parse_cursor.specs.Plain.{plain_tokens};
ghost use Rattle.setl_names.specs.Breaks.{first_break};
ghost use Rattle.setl_program.specs.ProgramOf.{program_of};
ghost use Rattle.setl_program.specs.code.Plain.{plain_program};
ghost use Rattle.setl_advise_checked.specs.Checked.{RunsFit};
ghost use Rattle.setl_program_laws.specs.Claims.{IsAccepted};
ghost use Rattle.setl_top_rules.specs.Rules.{all_breaks};
ghost use Rattle.setl_top_advice.specs.Put.{IsFitting};

use setl_advise_checked::has_advised_modes;
use setl_parse::parse;
use setl_program::Program;
use setl_program_elaborate::elaborate;
use setl_token::{TokenList, tokens};
use setl_top_rules::sound;
use setl_tree::Tree;
use std::alloc::{AllocError, Global};

/// The tokens of a source. The error is want of memory, or that it has none.
pub fn tokens_of(alloc: Global, source: &[u8]) -> Result<TokenList, AllocError>
    requires { length source.now ≤ 2 ^ 24 }
    ensures source { IfOk result (λ list. list.source ≡ source.now) }
    ensures spelled { IfOk result (λ list. Spelled source.now list.tokens) }
{
    match tokens(alloc, source) {
        Ok(list) => Ok(list),
        Err(_) => Err(AllocError),
    }
}

/// The tree of tokens. The error is want of memory, or that they have none.
fn tree_of(alloc: Global, list: &TokenList) -> Result<Tree, AllocError>
    ensures { IfOk result (λ tree. grammar.program 200 (plain_tokens list.now) tree) }
{
    match parse(alloc, list) {
        Ok(tree) => Ok(tree),
        Err(_) => Err(AllocError),
    }
}

/// The program of a tree. The error is want of memory, or that the tree breaks a rule.
fn program_of(alloc: Global, tree: &Tree) -> Result<Program, AllocError>
    ensures sound { OnOk result (first_break (all_breaks tree.now) ≡ None) }
    ensures program { IfOk result (λ p. plain_program p ≡ program_of tree.now) }
{
    match sound(alloc, tree) {
        Ok(modes) => elaborate(alloc, tree, modes),
        Err(_) => Err(AllocError),
    }
}

/// Is done where no run of the program of a tree ends for a value that doesn't fit. The error is want of memory, or that this
/// can't be told.
fn try_runs(alloc: Global, tree: &Tree) -> Result<(), AllocError>
    ensures { OnOk result ((first_break (all_breaks tree.now) ≡ None) × (IsAccepted tree.now → RunsFit (program_of tree.now))) }
{
    setl_program_laws::accepted_is_formed();
    let program = program_of(alloc, tree)?;
    if has_advised_modes(alloc, &program)? {
        Ok(())
    } else {
        Err(AllocError)
    }
}

/// Is done where a source is accepted and no run of it ends for a value that doesn't fit, or it has more than 2^24 bytes.
/// The error is want of memory, or that this can't be told.
pub fn try_source(alloc: Global, source: &[u8]) -> Result<(), AllocError>
    ensures { OnOk result (length source.now ≤ 2 ^ 24 → IsFitting source.now) }
{
    if source.len() > 1 << 24 {
        return Ok(());
    }
    let list = tokens_of(alloc, source)?;
    let tree = tree_of(alloc, &list)?;
    try_runs(alloc, &tree)
}
