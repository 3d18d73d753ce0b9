//! Operators on forms.

ghost use Rattle.std.specs.Prelude.{IfOk, OnOk};
ghost use Rattle.std.specs.Bool.{OnTrue};
ghost use Rattle.setl_operators_table.specs.Operators.{TakesOperands};
ghost use Rattle.setl_rep.specs.Standing.{AreHeldOver};
ghost use Rattle.setl_rep_plain.specs.Standing.{IsHeldOver};

use crate::conversions::expect;
use crate::holding::{bases, fitting};
use crate::modes::mode;
use crate::values::{denoted, put_form};
use setl_operators::Operator;
use setl_rep::apply;
use setl_rep_bases::Bases;
use setl_rep_forms::Held;
use setl_rep_kernels::next;
use setl_text::push_decimal;
use std::alloc::{AllocError, Global};
use std::process::Abort;
use std::test::Fail;

// Rows, a line each: an operator, the modes in whose forms its operands are held, the members of the first base before, the
// operands, and behind the last bar the form of the answer, or the fault. A set of numbers is written as these. `walk` goes over
// a set in the canonical order and tells the numbers.
const ROWS: &str = "in | elmt int ; remote_set elmt int | [30 10] | 10 ; {30 10} | true
in | elmt int ; sparse_set elmt int | [] | 7 ; {30 10} | false
in | int ; remote_set elmt int | [] | 30 ; {30 10} | true
in | other int ; remote_set elmt int | [5] | 30 ; {30 10} | true
notin | int ; sparse_set elmt int | [] | 7 ; {30 10} | true
notin | remote_set elmt int ; plain_set general | [] | {1} ; {{1}} | false
# | remote_set elmt int | [7] | {1 2 3} | 3
# | sparse_set elmt int | [] | {1 2 3} | 3
+ | remote_set elmt int ; remote_set elmt int | [9] | {1 2} ; {2 3} | remote 2 3 4
- | remote_set elmt int ; remote_set elmt int | [] | {1 2} ; {2 3} | remote 1
* | remote_set elmt int ; remote_set elmt int | [] | {1 2} ; {2 3} | remote 2
mod | remote_set elmt int ; remote_set elmt int | [] | {1 2} ; {2 3} | remote 1 3
+ | remote_set elmt int ; sparse_set elmt int | [] | {1 2} ; {2 3} | {1 2 3}
+ | remote_set elmt int ; remote_set other int | [] | {1} ; {2} | {1 2}
- | remote_set other int ; remote_set other int | [8] | {1 2} ; {2} | remote 1
+ | remote_set elmt int ; int | [] | {1} ; 5 | Kind
with | remote_set elmt int ; elmt int | [] | {1 2} ; 3 | remote 1 2 3
with | sparse_set elmt int ; int | [5] | {1 2} ; 5 | sparse 1 2 3
with | sparse_set elmt int ; int | [] | {1 2} ; 9 | {1 2 9}
with | remote_set elmt int ; int | [] | {30 10} ; 20 | {10 20 30}
with | remote_set elmt int ; int | [] | {1} ; * | Om
less | sparse_set elmt int ; elmt int | [] | {1 2} ; 2 | sparse 1
less | remote_set elmt int ; int | [] | {1 2} ; 9 | remote 1 2
less | remote_set elmt int ; other int | [9] | {1 2} ; 2 | remote 2
with | tuple elmt int ; int | [] | [1 2] ; 3 | [1 2 3]
get | tuple elmt int ; int | [] | [7 * 9] ; 3 | 9
get | sparse_smap elmt int int ; int | [] | {[1 5] [2 6]} ; 2 | 6
get | remote_smap elmt int elmt int ; elmt int | [3] | {[1 5] [2 6]} ; 2 | elmt 5
get | remote_smap elmt int elmt int ; int | [3] | {[1 5] [2 6]} ; 3 | *
get | remote_mmap elmt int sparse_set elmt int ; int | [] | {[1 2] [1 3] [2 7]} ; 2 | 7
get | remote_mmap elmt int sparse_set elmt int ; elmt int | [] | {[1 2] [1 3]} ; 1 | *
get | sparse_smap elmt int int ; int | [] | {[1 5]} ; * | Om
images | remote_mmap elmt int sparse_set elmt int ; int | [] | {[1 2] [1 3] [2 7]} ; 1 | sparse 2 3
images | sparse_mmap elmt int remote_set elmt int ; int | [] | {[1 2]} ; 5 | {}
images | sparse_smap elmt int int ; int | [] | {[1 5]} ; 1 | {5}
domain | remote_smap elmt int int | [] | {[1 5] [2 6]} | remote 1 2
domain | sparse_smap elmt int int | [9] | {[2 5] [1 6]} | sparse 2 3
domain | remote_mmap elmt int sparse_set elmt int | [] | {[1 5] [2 6] [2 1]} | remote 1 2
domain | remote_smap elmt int int | [] | {} | remote
domain | general | [] | {[1 2]} | {1}
range | sparse_smap elmt int elmt int | [] | {[1 5] [2 6]} | {5 6}
lessf | sparse_smap elmt int int ; int | [] | {[1 5] [2 6]} ; 1 | sparse map 2(6)
lessf | remote_mmap elmt int sparse_set elmt int ; elmt int | [] | {[1 5] [1 6] [2 5]} ; 1 | remote map 2(sparse 3)
lessf | remote_smap elmt int int ; int | [] | {[1 5]} ; 9 | remote map 1(5)
lessf | general ; int | [] | {[1 5] [2 6]} ; 1 | {[2 6]}
walk | remote_set elmt int | [30 20 10] | {30 10 20} | 3 2 1
walk | sparse_set elmt int | [30 20 10] | {30 5 10} | 4 3 1
walk | general | [] | {1} | none";

#[test]
fn operators_answer_as_their_rows_say(rt: HostRuntime) -> Result<(), Fail> {
    for row in ROWS.lines() {
        expect_row(&rt, rt.alloc(), row)?;
    }
    Ok(())
}

// Writes a row anew, and compares.
fn expect_row(rt: &impl Abort, alloc: Global, row: &str) -> Result<(), Fail> {
    let (start, want) = row.rsplit_once(" | ").unwrap_or((row, ""));
    let mut shown = Vec::new(alloc);
    put_row(rt, alloc, start, &mut shown)?;
    expect(rt, row, want, &shown);
    Ok(())
}

fn put_row(
    rt: &impl Abort,
    alloc: Global,
    start: &str,
    into: &mut Vec<u8>,
) -> Result<(), AllocError> {
    let (name, rest) = start.split_once(" | ").unwrap_or((start, ""));
    let (words, rest) = rest.split_once(" | ").unwrap_or((rest, ""));
    let (members, values) = rest.split_once(" | ").unwrap_or((rest, ""));
    let mut bases = bases(rt, alloc, members)?;
    match words.split_once(" ; ") {
        None => put_one(rt, alloc, name, words, values, &mut bases, into),
        Some((first, second)) => {
            put_two(rt, alloc, name, [first, second], values, &mut bases, into)
        }
    }
}

// What is done to one operand.
fn put_one(
    rt: &impl Abort,
    alloc: Global,
    name: &str,
    words: &str,
    value: &str,
    bases: &mut Bases,
    into: &mut Vec<u8>,
) -> Result<(), AllocError> {
    let mode = mode(alloc, words)?;
    let h = fitting(rt, alloc, &mode, denoted(alloc, value)?, bases)?;
    match name {
        "walk" => put_walk(&h, bases, into),
        _ => put_applied(alloc, operator(name), one(alloc, h, bases)?, bases, into),
    }
}

#[tactic(auto, using(crate::proofs::Walking::one_over))]
fn one(alloc: Global, h: Held, bases: &Bases) -> Result<Vec<Held>, AllocError>
    requires { IsHeldOver bases.now h }
    ensures { IfOk result (λ hs. AreHeldOver bases.now hs.items) }
{
    let mut list = Vec::new(alloc);
    list.push(h)?;
    Ok(list)
}

// What is done to two operands.
fn put_two(
    rt: &impl Abort,
    alloc: Global,
    name: &str,
    words: [&str; 2],
    values: &str,
    bases: &mut Bases,
    into: &mut Vec<u8>,
) -> Result<(), AllocError> {
    let (first, second) = values.split_once(" ; ").unwrap_or((values, ""));
    let a = operand(rt, alloc, words[0], first, bases)?;
    let b = operand(rt, alloc, words[1], second, bases)?;
    put_applied(alloc, operator(name), two(alloc, a, b, bases)?, bases, into)
}

fn operand(
    rt: &impl Abort,
    alloc: Global,
    words: &str,
    value: &str,
    bases: &mut Bases,
) -> Result<Held, AllocError>
    ensures over { IfOk result (λ h. IsHeldOver bases.new h) }
    ensures stays { OnOk result ((h : Held) → IsHeldOver bases.old h → IsHeldOver bases.new h) }
{
    let mode = mode(alloc, words)?;
    fitting(rt, alloc, &mode, denoted(alloc, value)?, bases)
}

#[tactic(auto, using(crate::proofs::Walking::two_over))]
fn two(alloc: Global, a: Held, b: Held, bases: &Bases) -> Result<Vec<Held>, AllocError>
    requires first { IsHeldOver bases.now a }
    requires second { IsHeldOver bases.now b }
    ensures { IfOk result (λ hs. AreHeldOver bases.now hs.items) }
{
    let mut list = Vec::new(alloc);
    list.push(a)?;
    list.push(b)?;
    Ok(list)
}

// Adds the numbers of a set in the order of a walk.
#[tactic(auto, using(crate::proofs::Walking::starts, crate::proofs::Walking::goes_on))]
fn put_walk(s: &Held, bases: &Bases, into: &mut Vec<u8>) -> Result<(), AllocError>
    requires { IsHeldOver bases.now s.now }
{
    let mut after = None;
    for turn in 0..10 {
        let Some(found) = next(s, after, bases) else {
            return into.extend_from_slice(b"none");
        };
        let Some(e) = found else {
            return Ok(());
        };
        put_next(turn, e.block, into)?;
        after = Some(e);
    }
    Ok(())
}

// Adds a number, behind a blank if it isn't the first.
fn put_next(turn: u64, number: u64, into: &mut Vec<u8>) -> Result<(), AllocError> {
    if turn > 0 {
        into.push(b' ')?;
    }
    push_decimal(into, number)
}

// Adds what an operator answers.
fn put_applied(
    alloc: Global,
    what: Operator,
    args: Vec<Held>,
    bases: &Bases,
    into: &mut Vec<u8>,
) -> Result<(), AllocError>
    requires { AreHeldOver bases.now args.items }
{
    if !takes(what, args.len()) {
        return Ok(());
    }
    match apply(alloc, what, args, bases, 1000) {
        Ok(a) => put_form(alloc, &a.held, into),
        Err(e) => into.extend_from_slice(format!(in alloc; "{e:?}")?.as_bytes()),
    }
}

// Whether an operator has so many operands.
fn takes(what: Operator, n: usize) -> bool
    ensures { OnTrue result (TakesOperands what n) }
{
    match what.operand_count() {
        Some(m) => n == m,
        None => true,
    }
}

fn operator(name: &str) -> Operator {
    match name {
        "in" => Operator::In,
        "notin" => Operator::NotIn,
        "#" => Operator::Size,
        "+" => Operator::Add,
        "-" => Operator::Subtract,
        "*" => Operator::Multiply,
        "mod" => Operator::Modulo,
        "with" => Operator::With,
        _ => other_operator(name),
    }
}

fn other_operator(name: &str) -> Operator {
    match name {
        "less" => Operator::Less,
        "lessf" => Operator::Lessf,
        "domain" => Operator::Domain,
        "range" => Operator::Range,
        "images" => Operator::Images,
        _ => Operator::Get,
    }
}
