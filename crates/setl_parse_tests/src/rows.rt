//! Tables of rows: a source, and behind `=>` what is made of it, which is compared.

use crate::faults::FAULTS;
use crate::names;
use crate::programs::{PROGRAMS, SHOWN};
use crate::tokens::{SOURCES, show_tokens};
use setl_parse::{ParseFault, parse};
use setl_show::show;
use setl_show_laws::parse_shown;
use setl_token::{TokenList, tokens};
use setl_tree::Tree;
use std::alloc::{AllocError, Global};
use std::fmt::Write;
use std::process::Abort;
use std::test::Fail;

/// What is made of the sources of a table.
#[derive(Clone, Copy)]
pub enum Table {
    Tokens,
    /// How many variables, `repr` lines, statements and procedures there are, or the fault.
    Outcomes,
    /// The canonical text.
    Texts,
    /// The slots, or the first rule that is broken.
    Names,
}

/// The tree of a short source, or the parser's fault; `None` where there are no tokens.
pub fn read(alloc: Global, source: &[u8]) -> Option<Result<Tree, ParseFault>> {
    if source.len() > 10000 {
        return None;
    }
    let list = tokens(alloc, source).ok()?;
    Some(parse(alloc, &list))
}

/// Adds bytes as characters.
pub fn show_bytes(bytes: &[u8], shown: &mut String) -> Result<(), AllocError> {
    for byte in bytes {
        shown.push(char::from(*byte))?;
    }
    Ok(())
}

fn show_counts(tree: &Tree, shown: &mut String) -> Result<(), AllocError> {
    let vars = tree.vars.len();
    let modes = tree.modes.len();
    let statements = tree.body.len();
    let procs = tree.procs.len();
    write!(shown, "{vars} {modes} {statements} {procs}")
}

fn show_fault(fault: ParseFault, shown: &mut String) -> Result<(), AllocError> {
    match fault {
        ParseFault::Syntax { at } => write!(shown, "{at}"),
        fault => write!(shown, "{fault:?}"),
    }
}

fn show_outcome(alloc: Global, source: &str, shown: &mut String) -> Result<(), AllocError> {
    match &read(alloc, source.as_bytes()) {
        Some(Ok(tree)) => show_counts(tree, shown),
        Some(Err(fault)) => show_fault(*fault, shown),
        None => shown.push_str("no tokens"),
    }
}

fn show_tree(alloc: Global, tree: &Tree, shown: &mut String) -> Result<(), AllocError> {
    show_bytes(show(alloc, tree)?.as_slice(), shown)
}

/// The canonical text of the program of a short source; nothing where it is none.
fn show_text(alloc: Global, source: &str, shown: &mut String) -> Result<(), AllocError> {
    match &read(alloc, source.as_bytes()) {
        Some(Ok(tree)) => show_tree(alloc, tree, shown),
        _ => Ok(()),
    }
}

fn show_parsed(alloc: Global, list: &TokenList, shown: &mut String) -> Result<(), AllocError> {
    match &parse_shown(alloc, list) {
        Ok(tree) => show_tree(alloc, tree, shown),
        Err(_) => Ok(()),
    }
}

/// The canonical text of the program of a short canonical text; nothing where it is none.
fn show_again(alloc: Global, text: &str, shown: &mut String) -> Result<(), AllocError> {
    if text.len() > 10000 {
        return Ok(());
    }
    match &tokens(alloc, text.as_bytes()) {
        Ok(list) => show_parsed(alloc, list, shown),
        Err(_) => Ok(()),
    }
}

fn show_made(
    alloc: Global,
    table: Table,
    source: &str,
    shown: &mut String,
) -> Result<(), AllocError> {
    match table {
        Table::Tokens => show_tokens(alloc, source, shown),
        Table::Outcomes => show_outcome(alloc, source, shown),
        Table::Texts => show_text(alloc, source, shown),
        Table::Names => names::show_slots(alloc, source, shown),
    }
}

/// Compares what is made of a source with what is wanted.
pub fn expect(
    rt: &impl Abort,
    alloc: Global,
    table: Table,
    source: &str,
    want: &str,
    shown: &mut String,
) -> Result<(), AllocError> {
    shown.clear();
    show_made(alloc, table, source, shown)?;
    assert_eq!(rt; shown.as_str(), want, "at {source}");
    Ok(())
}

// Compares each row of a table.
fn expect_rows(
    rt: &impl Abort,
    alloc: Global,
    table: Table,
    (rows, between): (&str, &str),
    shown: &mut String,
) -> Result<(), AllocError> {
    for row in rows.split(between) {
        let (source, want) = row.split_once(" => ").unwrap_or((row, ""));
        expect(rt, alloc, table, source, want, shown)?;
    }
    Ok(())
}

#[test]
fn sources_have_their_tokens_trees_texts_and_faults(rt: HostRuntime) -> Result<(), Fail> {
    let alloc = rt.alloc();
    for (table, rows, between) in [
        (Table::Tokens, SOURCES, "\n====\n"),
        (Table::Outcomes, PROGRAMS, "\n"),
        (Table::Outcomes, FAULTS, "\n"),
        (Table::Texts, SHOWN, "====\n"),
        (Table::Names, names::PROGRAMS, "\n====\n"),
    ] {
        expect_rows(&rt, alloc, table, (rows, between), &mut String::new(alloc))?;
    }
    Ok(())
}

// The canonical text of a program is read again as the text of the same program.
fn expect_again(
    rt: &impl Abort,
    alloc: Global,
    source: &str,
    text: &mut String,
    again: &mut String,
) -> Result<(), AllocError> {
    text.clear();
    show_text(alloc, source, text)?;
    again.clear();
    show_again(alloc, text.as_str(), again)?;
    assert!(rt; !text.is_empty(), "at {source}");
    assert_eq!(rt; again.as_str(), text.as_str(), "at {source}");
    Ok(())
}

fn expect_all_again(
    rt: &impl Abort,
    alloc: Global,
    text: &mut String,
    again: &mut String,
) -> Result<(), AllocError> {
    for row in PROGRAMS.lines() {
        let (source, _) = row.split_once(" => ").unwrap_or((row, ""));
        expect_again(rt, alloc, source, text, again)?;
    }
    Ok(())
}

// Trees with the same canonical tokens are the same but for lines.
#[test]
fn shown_programs_parse_to_the_same_tree(rt: HostRuntime) -> Result<(), Fail> {
    let alloc = rt.alloc();
    expect_all_again(&rt, alloc, &mut String::new(alloc), &mut String::new(alloc))?;
    Ok(())
}
