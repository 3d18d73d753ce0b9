//! Values go into the forms of modes, and from these into others.

ghost use Rattle.setl_rep_plain.specs.Standing.{held_value, IsHeldOver};
ghost use Rattle.setl_rep_updates.specs.InForm.{IsValueOrOm};

use crate::holding::{bases, held, held_again, put_bases, put_held};
use crate::modes::mode;
use crate::values::denoted;
use setl_rep::ConvertFault;
use setl_rep_bases::Bases;
use setl_rep_forms::Held;
use std::alloc::{AllocError, Global};
use std::process::Abort;
use std::test::Fail;

// Rows, a line each: a mode, or one and behind `>` another one, the members of the first base before, a value, and behind the
// last bar the value that is held then, its form, and the members of both bases, each with `/` at its end. The value goes
// into the first mode, and what is held then into the second one, or into the same mode again.
const ROWS: &str = "general | [] | 'a' | 'a'/'a'/b:/c:/
elmt int | [5] | 7 | 7/elmt 2/b: 5 7/c:/
remote_set elmt int | [] | {30 10 20} | {10 20 30}/remote 1 2 3/b: 10 20 30/c:/
remote_set elmt int | [20] | {30 10} | {10 30}/remote 2 3/b: 20 10 30/c:/
sparse_set elmt int | [20] | {30 10} | {10 30}/sparse 2 3/b: 20 10 30/c:/
local_set elmt int | [20 5] | {20} | {20}/remote 1/b: 20 5/c:/
remote_set elmt int | [] | {} | {}/remote/b:/c:/
sparse_set elmt int | [4] | {} | {}/sparse/b: 4/c:/
plain_set int | [4] | {30 10} | {10 30}/{10 30}/b: 4/c:/
plain_set remote_set elmt int | [] | {{2} {1 3} {}} | {{} {1 3} {2}}/{{} {1 3} {2}}/b: 1 2 3/c:/
tuple elmt int | [] | [7 * 5] | [7 * 5]/tuple 2 * 1/b: 5 7/c:/
tuple int | [] | [7 * 5] | [7 * 5]/[7 * 5]/b:/c:/
sparse_smap elmt int int | [] | {[30 1] [10 2]} | {[10 2] [30 1]}/sparse map 1(2) 2(1)/b: 10 30/c:/
remote_smap elmt int elmt int | [] | {[30 1] [1 30]} | {[1 30] [30 1]}/remote map 1(elmt 2) 2(elmt 1)/b: 1 30/c:/
remote_smap elmt int other int | [9] | {[30 1] [1 30]} | {[1 30] [30 1]}/remote map 2(elmt 2) 3(elmt 1)/b: 9 1 30/c: 1 30/
remote_mmap elmt int sparse_set elmt int | [] | {[2 1] [2 3] [3 1]} | {[2 1] [2 3] [3 1]}/remote map 2(sparse 1 3) 3(sparse 1)/b: 1 2 3/c:/
sparse_mmap elmt int remote_smap elmt int int | [] | {[2 [1 5]] [2 [3 6]]} | {[2 [1 5]] [2 [3 6]]}/sparse map 2(remote map)/b: 1 2 3/c:/
remote_set elmt int | [5] | * | */*/b: 5/c:/
sparse_set elmt int > remote_set elmt int | [20] | {30 10} | {10 30}/remote 2 3/b: 20 10 30/c:/
remote_set elmt int > sparse_set other int | [20] | {30 10} | {10 30}/sparse 1 2/b: 20 10 30/c: 10 30/
remote_mmap elmt int sparse_set elmt int > sparse_smap elmt int int | [] | {[2 1] [3 1]} | {[2 1] [3 1]}/sparse map 2(1) 3(1)/b: 1 2 3/c:/
remote_smap elmt int int > general | [] | {[2 1]} | {[2 1]}/{[2 1]}/b: 2/c:/
remote_set elmt int | [20] | {30 'a'} | Unfit/b: 20/c:/
sparse_smap elmt int int | [] | {[1 2] [1 3]} | Unfit/b:/c:/
remote_mmap elmt int sparse_set elmt int | [7] | {[2 'a']} | Unfit/b: 7/c:/
remote_mmap elmt int remote_set elmt int > sparse_smap elmt int int | [] | {[2 1] [2 3]} | Unfit/b: 1 2 3/c:/";

#[test]
fn values_go_into_the_forms_of_their_rows(rt: HostRuntime) -> Result<(), Fail> {
    for row in ROWS.lines() {
        expect_row(&rt, rt.alloc(), row)?;
    }
    Ok(())
}

// Writes a row anew, and compares.
fn expect_row(rt: &impl Abort, alloc: Global, row: &str) -> Result<(), AllocError> {
    let (start, want) = row.rsplit_once(" | ").unwrap_or((row, ""));
    let mut shown = Vec::new(alloc);
    put_row(rt, alloc, start, &mut shown)?;
    expect(rt, row, want, &shown);
    Ok(())
}

/// Compares lines with those of a row, where `/` stands for the end of a line.
pub fn expect(rt: &impl Abort, row: &str, want: &str, shown: &Vec<u8>) {
    assert_eq!(rt; shown.len(), want.len(), "{row}");
    for (a, b) in shown.iter().zip(want.as_bytes()) {
        assert!(rt; *a == *b || (*a == b'\n' && *b == b'/'), "{row}");
    }
}

fn put_row(
    rt: &impl Abort,
    alloc: Global,
    start: &str,
    into: &mut Vec<u8>,
) -> Result<(), AllocError> {
    let (words, rest) = start.split_once(" | ").unwrap_or((start, ""));
    let (members, value) = rest.split_once(" | ").unwrap_or((rest, ""));
    let (first, second) = words.split_once(" > ").unwrap_or((words, words));
    let mut bases = bases(rt, alloc, members)?;
    put_into(rt, alloc, [first, second], value, &mut bases, into)?;
    put_bases(rt, alloc, &bases, into)
}

fn put_into(
    rt: &impl Abort,
    alloc: Global,
    words: [&str; 2],
    value: &str,
    bases: &mut Bases,
    into: &mut Vec<u8>,
) -> Result<(), AllocError> {
    let first = mode(alloc, words[0])?;
    match held(rt, alloc, &first, denoted(alloc, value)?, bases) {
        Ok(h) => put_second(rt, alloc, words[1], &h, bases, into),
        Err(e) => put_fault(e, into),
    }
}

fn put_second(
    rt: &impl Abort,
    alloc: Global,
    words: &str,
    h: &Held,
    bases: &mut Bases,
    into: &mut Vec<u8>,
) -> Result<(), AllocError>
    requires over { IsHeldOver bases.old h.now }
    requires value { IsValueOrOm (held_value bases.old h.now) }
{
    let second = mode(alloc, words)?;
    match held_again(rt, alloc, &second, h, bases) {
        Ok(g) => put_held(alloc, &second, &g, bases, into),
        Err(e) => put_fault(e, into),
    }
}

fn put_fault(e: ConvertFault, into: &mut Vec<u8>) -> Result<(), AllocError> {
    match e {
        ConvertFault::Unfit => into.extend_from_slice(b"Unfit\n")?,
        ConvertFault::NoMemory => return Err(AllocError),
    }
    Ok(())
}
