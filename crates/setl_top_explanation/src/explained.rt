//! The explanation of a reason for which a source is refused.
ghost use Rattle.std.specs.Prelude.{◌≡◌, ◌≤◌, ◌^◌, ◌++◌, length, min, IfOk, OnOk};
ghost use Rattle.setl_token.specs.Lex.{Spelled};
ghost use Rattle.setl_top_explanation.specs.Explanations as spec;
ghost use Rattle.setl_tree.specs.Programs as grammar;
ghost use Rattle.setl_parse_cursor.specs.Plain.{plain_tokens};
ghost use Rattle.setl_top_explanation.specs.Explanations.{Explains, ExplainsRule, ExplainsSyntax};

use crate::next::{push_next, told_kinds};
use setl_explain_open::{open_at, push_open};
use setl_explain_places::{first_on_line, push_place, spelled_from};
use setl_explain_words::{SourceFault, fault_text, rule_text};
use setl_names::Break;
use setl_parse::parse;
use setl_token::{LexFault, TokenList, tokens};
use setl_top_rules::breaking_name;
use setl_top_status::Reason;
use setl_tree::{Kind, Text, Tree};
use std::alloc::{AllocError, Global};

/// The tokens of a source. The error is want of memory, or that it has none.
fn tokens_of(alloc: Global, source: &[u8]) -> Result<TokenList, AllocError>
    requires { length source.now ≤ 2 ^ 24 }
    ensures source { IfOk result (λ list. list.source ≡ source.now) }
    ensures spelled { IfOk result (λ list. Spelled source.now list.tokens) }
{
    match tokens(alloc, source) {
        Ok(list) => Ok(list),
        Err(_) => Err(AllocError),
    }
}

/// Adds a place, or the end of the source where the place is past it.
fn push_shown(into: &mut Vec<u8>, source: &[u8], at: usize) -> Result<(), AllocError>
    requires { length source.now ≤ 2 ^ 24 }
    ensures { OnOk result (into.new.items ≡ into.old.items ++ spec.shown_text source.now at) }
{
    push_place(into, source, at.min(source.len()))
}

/// A place and what a fault there means.
fn of_fault(
    alloc: Global,
    source: &[u8],
    at: u32,
    fault: SourceFault,
) -> Result<Vec<u8>, AllocError>
    requires { length source.now ≤ 2 ^ 24 }
    ensures { IfOk result (λ text. text.items ≡ spec.fault_explained source.now at fault) }
{
    let mut text = Vec::new(alloc);
    push_shown(&mut text, source, at as usize)?;
    text.extend_from_slice(fault_text(fault))?;
    Ok(text)
}

/// A place, what can stand there, what is open there, and what a fault of syntax means.
#[tactic(auto, unfolding(crate::specs::Explanations::syntax_text))]
fn syntax_text(
    alloc: Global,
    list: &TokenList,
    place: usize,
    kinds: &[Kind],
) -> Result<Vec<u8>, AllocError>
    requires { place ≤ length list.now.source }
    ensures { IfOk result (λ text. text.items ≡ spec.syntax_text list.now place kinds.now) }
{
    let openings = open_at(alloc, list, place)?;
    let mut text = Vec::new(alloc);
    push_place(&mut text, list.source(), place)?;
    push_next(&mut text, kinds)?;
    push_open(&mut text, &openings)?;
    text.extend_from_slice(fault_text(SourceFault::Syntax))?;
    Ok(text)
}

/// What is told of a fault of syntax at a place.
fn of_syntax_at(alloc: Global, list: &TokenList, place: usize) -> Result<Vec<u8>, AllocError>
    requires { place ≤ length list.now.source }
    ensures { IfOk result (λ text. ExplainsSyntax list.now place text.items) }
{
    let source = list.source();
    let kinds = told_kinds(alloc, source, place)?;
    syntax_text(alloc, list, place, &kinds)
}

/// A place, or the end of the source where the place is past it.
fn place_within(list: &TokenList, at: u32) -> usize
    ensures value { result ≡ min at (length list.now.source) }
    ensures within { result ≤ length list.now.source }
{
    (at as usize).min(list.source().len())
}

/// What is told of a fault of syntax.
fn of_syntax(alloc: Global, list: &TokenList, at: u32) -> Result<Vec<u8>, AllocError>
    requires { Spelled list.now.source list.now.tokens }
    ensures { IfOk result (λ text. Explains list.now.source (Reason.Syntax at) text.items) }
{
    of_syntax_at(alloc, list, place_within(list, at))
}

/// The place of a nesting that is one too many, what is open there, and what such a fault means.
fn nesting_text(alloc: Global, list: &TokenList, at: u32) -> Result<Vec<u8>, AllocError>
    ensures { IfOk result (λ text. text.items ≡ spec.nesting_explained list.now at) }
{
    let openings = open_at(alloc, list, at as usize)?;
    let mut text = Vec::new(alloc);
    push_shown(&mut text, list.source(), at as usize)?;
    push_open(&mut text, &openings)?;
    text.extend_from_slice(fault_text(SourceFault::Nesting))?;
    Ok(text)
}

/// What is told of a nesting that is one too many.
fn of_nesting(alloc: Global, list: &TokenList, at: u32) -> Result<Vec<u8>, AllocError>
    requires { Spelled list.now.source list.now.tokens }
    ensures { IfOk result (λ text. Explains list.now.source (Reason.Nesting at) text.items) }
{
    nesting_text(alloc, list, at)
}

/// The tree of the tokens. The error is want of memory, or that they have none.
fn tree_of(alloc: Global, list: &TokenList) -> Result<Tree, AllocError>
    ensures { IfOk result (grammar.program 200 (plain_tokens list.now)) }
{
    match parse(alloc, list) {
        Ok(tree) => Ok(tree),
        Err(_) => Err(AllocError),
    }
}

/// The place of a rule that is broken by no name.
#[tactic(auto, unfolding(crate::specs::Explanations::word_place))]
fn word_place(list: &TokenList, found: Break) -> usize
    ensures value { result ≡ spec.word_place list.now found }
    ensures within { result ≤ length list.now.source }
{
    if found.rule == 13 {
        let quit = spelled_from(list, found.line, b"quit");
        return quit.min(spelled_from(list, found.line, b"continue"));
    }
    if found.rule == 14 {
        return spelled_from(list, found.line, b"return");
    }
    first_on_line(list, found.line)
}

/// The place of a broken rule, by the name that breaks it.
fn break_place(list: &TokenList, found: Break, name: &Option<Text>) -> usize
    ensures value { result ≡ spec.break_place list.now found name.now }
    ensures within { result ≤ length list.now.source }
{
    match name {
        None => word_place(list, found),
        Some(name) => spelled_from(list, found.line, name.bytes()),
    }
}

/// The place of a broken rule, by the name that breaks it, and what the rule asks for.
fn rule_explained(
    alloc: Global,
    list: &TokenList,
    found: Break,
    name: &Option<Text>,
) -> Result<Vec<u8>, AllocError>
    ensures { IfOk result (λ text. text.items ≡ spec.rule_explained list.now found name.now) }
{
    let mut text = Vec::new(alloc);
    push_place(&mut text, list.source(), break_place(list, found, name))?;
    text.extend_from_slice(rule_text(found.rule))?;
    Ok(text)
}

/// What is told of tokens that break a rule.
fn rule_broken(alloc: Global, list: &TokenList, found: Break) -> Result<Vec<u8>, AllocError>
    ensures { IfOk result (λ text. ExplainsRule list.now found text.items) }
{
    let tree = tree_of(alloc, list)?;
    let name = breaking_name(alloc, &tree, found)?;
    rule_explained(alloc, list, found, &name)
}

/// What is told of a broken rule.
fn of_rule(alloc: Global, list: &TokenList, rule: u8, line: u32) -> Result<Vec<u8>, AllocError>
    requires { Spelled list.now.source list.now.tokens }
    ensures { IfOk result (λ text. Explains list.now.source (Reason.Broken rule line) text.items) }
{
    rule_broken(alloc, list, Break { line, rule })
}

/// What is told below the line of a reason for which the source is refused: of a fault at a place the line and the column,
/// the source's line with a mark below the place, and what it means; of a fault of syntax also the kinds of tokens that can
/// stand there, up to ten, and of it and of a nesting the constructs that are open, with their lines; of a broken rule the
/// name or the word that breaks it, or the first token on its line where none does, and the rule's words. The error is want of memory, or
/// that the source has no tokens or no tree, which isn't so where it is refused for syntax or a nesting, or for a rule.
pub fn explanation(alloc: Global, source: &[u8], reason: Reason) -> Result<Vec<u8>, AllocError>
    requires { length source.now ≤ 2 ^ 24 }
    ensures { IfOk result (λ text. Explains source.now reason text.items) }
{
    match reason {
        Reason::TooLong => Vec::from_slice(alloc, fault_text(SourceFault::TooLong)),
        Reason::Byte { at } => of_fault(alloc, source, at, SourceFault::Byte),
        Reason::OpenString { at } => of_fault(alloc, source, at, SourceFault::OpenString),
        Reason::WideNumber { at } => of_fault(alloc, source, at, SourceFault::WideNumber),
        Reason::Syntax { at } => {
            let list = tokens_of(alloc, source)?;
            of_syntax(alloc, &list, at)
        }
        Reason::Nesting { at } => {
            let list = tokens_of(alloc, source)?;
            of_nesting(alloc, &list, at)
        }
        Reason::Broken { rule, line } => {
            let list = tokens_of(alloc, source)?;
            of_rule(alloc, &list, rule, line)
        }
    }
}
