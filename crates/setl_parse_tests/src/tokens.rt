//! Sources and their tokens, and what the lexer's faults read as.

use setl_token::{LexFault, TokenList, tokens};
use std::alloc::{AllocError, Global};
use std::fmt::Write;
use std::process::Abort;
use std::test::Fail;

/// Sources, and their tokens with their kinds, places and lines, or their faults. A line `====` stands between two rows.
pub const SOURCES: &str = " =>\x20
====
x:=1; => Name 0 1 1;Sign 1 3 1;Number(1) 3 4 1;Sign 4 5 1;
====
 $ a comment: 'È' .  =>\x20
====
IF x_1
\tNotExists$c

ifs => Word 0 2 1;Name 3 6 1;Word 8 17 2;Name 21 24 4;
====
12abc => Number(12) 0 2 1;Name 2 5 1;
====
'it''s' ''x'È' => Str 0 7 1;Str 8 10 1;Name 10 11 1;Str 11 15 1;
====
..:=/=<=>= => Sign 0 2 1;Sign 2 4 1;Sign 4 6 1;Sign 6 8 1;Sign 8 10 1;
====
**:<>= => Sign 0 2 1;Sign 2 3 1;Sign 3 4 1;Sign 4 6 1;
====
1..2 => Number(1) 0 1 1;Sign 1 3 1;Number(2) 3 4 1;
====
170141183460469231731687303715884105727 => Number(170141183460469231731687303715884105727) 0 39 1;
====
a . b => Byte { at: 2 }
====
x È => Byte { at: 2 }
====
x := 'ab => OpenString { at: 5 }
====
'ab''
' => OpenString { at: 0 }
====
- 170141183460469231731687303715884105728 ? => WideNumber { at: 2 }";

fn show_token(list: &TokenList, i: usize, shown: &mut String) -> Result<(), AllocError> {
    if i >= list.len() {
        return Ok(());
    }
    let token = *list.at(i);
    let kind = token.kind;
    let from = token.from;
    let to = token.to;
    let line = token.line;
    write!(shown, "{kind:?} {from} {to} {line};")
}

fn show_list(list: &TokenList, shown: &mut String) -> Result<(), AllocError> {
    for i in 0..list.len() {
        show_token(list, i, shown)?;
    }
    Ok(())
}

/// The tokens of a short source, or its fault.
pub fn show_tokens(alloc: Global, source: &str, shown: &mut String) -> Result<(), AllocError> {
    if source.len() > 1000 {
        return Ok(());
    }
    match &tokens(alloc, source.as_bytes()) {
        Ok(list) => show_list(list, shown),
        Err(fault) => write!(shown, "{fault:?}"),
    }
}

// The places of words and signs in a source, a line each, and whether they stand there.
const PLACES: &str = "0 word if true
0 word in false
1 word x_1 false
5 word if false
2 sign /= true
2 sign / false
3 sign 'a' false
4 sign ; true";

fn expect_place(rt: &impl Abort, list: &TokenList, row: &str) {
    let (at, rest) = row.split_once(' ').unwrap_or((row, ""));
    let (kind, rest) = rest.split_once(' ').unwrap_or((rest, ""));
    let (spelled, want) = rest.split_once(' ').unwrap_or((rest, ""));
    let at = at.parse().unwrap_or(9);
    let is_there = match kind {
        "word" => list.is_word(at, spelled.as_bytes()),
        _ => list.is_sign(at, spelled.as_bytes()),
    };
    assert_eq!(rt; is_there, want == "true", "{row}");
}

fn expect_places(rt: &impl Abort, list: &TokenList) {
    for row in PLACES.lines() {
        expect_place(rt, list, row);
    }
}

fn expect_list(rt: &impl Abort, list: &TokenList) {
    assert_eq!(rt; list.len(), 5);
    assert!(rt; !list.is_empty());
    assert_eq!(rt; list.source(), b"If x_1 /= 'a';".as_slice());
    assert_eq!(rt; list.text(1), b"x_1".as_slice());
    expect_places(rt, list);
}

#[test]
fn reads_the_tokens_of_a_list(rt: HostRuntime) -> Result<(), Fail> {
    let list = tokens(rt.alloc(), b"If x_1 /= 'a';")?;
    expect_list(&rt, &list);
    Ok(())
}

const SENTENCES: &str = "byte 3 begins no token
the string at byte 4 isn't closed
the number at byte 5 is too large
out of memory
";

fn show_faults(shown: &mut String) -> Result<(), AllocError> {
    for fault in [
        LexFault::Byte { at: 3 },
        LexFault::OpenString { at: 4 },
        LexFault::WideNumber { at: 5 },
        LexFault::NoMemory,
    ] {
        writeln!(shown, "{fault}")?;
    }
    Ok(())
}

fn expect_sentences(rt: &impl Abort, shown: &mut String) -> Result<(), AllocError> {
    show_faults(shown)?;
    assert_eq!(rt; shown.as_str(), SENTENCES);
    Ok(())
}

#[test]
fn faults_read_as_sentences(rt: HostRuntime) -> Result<(), Fail> {
    expect_sentences(&rt, &mut String::new(rt.alloc()))?;
    Ok(())
}
