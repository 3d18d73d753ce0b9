//! Sources that are refused, and what is told of them; and the stops.
use crate::slips::SLIPS;
use setl_explain_words::{stop_named, stop_text};
use setl_names::RuleFault;
use setl_parse::{ParseFault, parse};
use setl_token::{LexFault, TokenList, tokens};
use setl_top_explanation::explanation;
use setl_top_rules::sound;
use setl_top_status::Reason;
use std::alloc::{AllocError, Global};
use std::process::Abort;
use std::test::Fail;

/// A source that ends in a comment, without a line feed.
const UNENDED: &str = "program p; $ one";

/// How its explanation begins.
const UNENDED_TOLD: &str = "line 1, column 17
    program p; $ one
                    ^
Here can stand (at most ten are told): `end`, a name, ";

/// Why tokens are refused, if they are.
fn reason_of(alloc: Global, list: &TokenList) -> Option<Reason> {
    match parse(alloc, list) {
        Ok(tree) => match sound(alloc, &tree) {
            Err(RuleFault::Broken { rule, line }) => Some(Reason::Broken { rule, line }),
            _ => None,
        },
        Err(ParseFault::Syntax { at }) => Some(Reason::Syntax { at }),
        Err(ParseFault::Nesting { at }) => Some(Reason::Nesting { at }),
        Err(ParseFault::NoMemory) => None,
    }
}

/// What is told of tokens that are refused; nothing where they aren't.
fn told_of(alloc: Global, list: &TokenList) -> Result<Vec<u8>, AllocError> {
    match reason_of(alloc, list) {
        Some(reason) => explanation(alloc, list.source(), reason),
        None => Ok(Vec::new(alloc)),
    }
}

/// What is told of a source that is refused; nothing where it isn't.
fn told(alloc: Global, source: &[u8]) -> Result<Vec<u8>, AllocError> {
    if source.len() > 10000 {
        return Ok(Vec::new(alloc));
    }
    match tokens(alloc, source) {
        Ok(list) => told_of(alloc, &list),
        Err(LexFault::Byte { at }) => explanation(alloc, source, Reason::Byte { at }),
        Err(LexFault::OpenString { at }) => explanation(alloc, source, Reason::OpenString { at }),
        Err(LexFault::WideNumber { at }) => explanation(alloc, source, Reason::WideNumber { at }),
        Err(LexFault::NoMemory) => Err(AllocError),
    }
}

/// Compares how the explanation of a source begins.
fn expect(rt: &impl Abort, alloc: Global, source: &str, want: &str) -> Result<(), AllocError> {
    let text = told(alloc, source.as_bytes())?;
    assert!(rt; text.starts_with(want.as_bytes()), "at {source}");
    Ok(())
}

#[test]
fn slips_are_explained(rt: HostRuntime) -> Result<(), Fail> {
    for row in SLIPS.split("====\n") {
        let (source, want) = row.split_once("--\n").unwrap_or((row, ""));
        expect(&rt, rt.alloc(), source, want.trim_end())?;
    }
    expect(&rt, rt.alloc(), UNENDED, UNENDED_TOLD)?;
    Ok(())
}

/// Whether the text of the stop of a name begins so.
fn begins(name: &str, begin: &str) -> bool {
    match stop_named(name) {
        Some(stop) => stop_text(stop).starts_with(begin.as_bytes()),
        None => false,
    }
}

#[test]
fn stops_are_explained(rt: HostRuntime) -> Result<(), Fail> {
    for (name, begin) in [
        ("om", "om: A value is missing where one is needed."),
        ("kind", "kind: An operator has a value of a kind"),
        ("zero", "zero: A division by 0"),
        ("range", "range: A place or a number is out of range"),
        ("wide", "wide: An integer leaves 128 bits"),
        ("deep", "deep: A value has more than 500"),
        ("form", "form: The input holds no value"),
        ("nothing", "nothing to go back to: A `fail` was met"),
        ("value", "value does not fit NAME: A value was to be stored"),
    ] {
        assert!(rt; begins(name, begin), "at {name}");
    }
    assert!(rt; stop_named("done").is_none());
    Ok(())
}
