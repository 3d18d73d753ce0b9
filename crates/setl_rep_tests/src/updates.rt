//! Updates in place.

ghost use Rattle.setl_modes.specs.Modes.{mode_of};
ghost use Rattle.setl_rep_forms.specs.FormOf.{form};
ghost use Rattle.setl_rep_plain.specs.Standing.{IsHeldOver};
ghost use Rattle.setl_rep_updates.specs.InForm.{IsInForm};

use crate::conversions::expect;
use crate::holding::{bases, fitting, put_bases, put_held};
use crate::modes::mode;
use crate::values::{denoted, put_form, put_value};
use setl_modes::Mode;
use setl_rep_bases::Bases;
use setl_rep_forms::Held;
use setl_rep_plain::plain;
use setl_rep_updates::{Change, update};
use setl_value::Value;
use std::alloc::{AllocError, Global};
use std::process::Abort;
use std::test::Fail;

// Rows, a line each: an update, the mode in whose form the value is held, the members of the first base before, the value, what
// is put in or taken out, and behind the last bar whether it was made in place, what a copy that was made before stands for, and
// what is held then, as in the rows of conversions.
const ROWS: &str =
    "with | remote_set elmt int | [5] | {1} | 9 | true/{1}/{1 9}/remote 2 3/b: 5 1 9/c:/
with | sparse_set elmt int | [9] | {1} | 9 | true/{1}/{1 9}/sparse 1 2/b: 9 1/c:/
with | local_set other int | [5] | {} | 9 | true/{}/{9}/remote 1/b: 5/c: 9/
with | remote_set elmt int | [] | {1} | 'a' | false/{1}/{1}/remote 1/b: 1/c:/
with | plain_set int | [] | {1} | 2 | false/{1}/{1}/{1}/b:/c:/
less | sparse_set elmt int | [] | {1 2} | 2 | true/{1 2}/{1}/sparse 1/b: 1 2/c:/
less | remote_set elmt int | [] | {1 2} | 7 | true/{1 2}/{1 2}/remote 1 2/b: 1 2/c:/
lessf | sparse_smap elmt int int | [] | {[1 5] [2 6]} | 1 | true/{[1 5] [2 6]}/{[2 6]}/sparse map 2(6)/b: 1 2/c:/
lessf | remote_mmap elmt int sparse_set elmt int | [] | {[1 5] [1 6]} | 1 | true/{[1 5] [1 6]}/{}/remote map/b: 1 5 6/c:/
lessf | remote_set elmt int | [] | {1} | 1 | false/{1}/{1}/remote 1/b: 1/c:/
put | remote_smap elmt int other int | [] | {[1 5]} | 3 ; 4 | true/{[1 5]}/{[1 5] [3 4]}/remote map 1(elmt 1) 2(elmt 2)/b: 1 3/c: 5 4/
put | sparse_smap elmt int int | [] | {[1 5]} | 1 ; 6 | true/{[1 5]}/{[1 6]}/sparse map 1(6)/b: 1/c:/
put | remote_smap elmt int int | [] | {[1 5] [2 6]} | 2 ; * | true/{[1 5] [2 6]}/{[1 5]}/remote map 1(5)/b: 1 2/c:/
put | sparse_smap elmt int int | [] | {[1 5]} | 2 ; 'a' | false/{[1 5]}/{[1 5]}/sparse map 1(5)/b: 1/c:/
add | sparse_mmap elmt int remote_set elmt int | [] | {[1 2]} | 1 ; 3 | true/{[1 2]}/{[1 2] [1 3]}/sparse map 1(remote 2 3)/b: 1 2 3/c:/
add | remote_mmap elmt int sparse_set elmt int | [] | {} | 1 ; 3 | true/{}/{[1 3]}/remote map 1(sparse 2)/b: 1 3/c:/
add | sparse_smap elmt int int | [] | {[1 2]} | 1 ; 3 | false/{[1 2]}/{[1 2]}/sparse map 1(2)/b: 1/c:/
cut | sparse_mmap elmt int remote_set elmt int | [] | {[1 2] [1 3]} | 1 ; 3 | true/{[1 2] [1 3]}/{[1 2]}/sparse map 1(remote 2)/b: 1 2 3/c:/
cut | remote_mmap elmt int sparse_set elmt int | [] | {[1 2] [2 3]} | 1 ; 2 | true/{[1 2] [2 3]}/{[2 3]}/remote map 2(sparse 3)/b: 1 2 3/c:/";

#[test]
fn updates_leave_what_their_rows_say(rt: HostRuntime) -> Result<(), Fail> {
    for row in ROWS.lines() {
        expect_row(&rt, rt.alloc(), row)?;
    }
    Ok(())
}

// Writes a row anew, and compares.
fn expect_row(rt: &impl Abort, alloc: Global, row: &str) -> Result<(), Fail> {
    let (start, want) = row.rsplit_once(" | ").unwrap_or((row, ""));
    let mut shown = Vec::new(alloc);
    put_row(rt, alloc, start, &mut shown)?;
    expect(rt, row, want, &shown);
    Ok(())
}

fn put_row(
    rt: &impl Abort,
    alloc: Global,
    start: &str,
    into: &mut Vec<u8>,
) -> Result<(), AllocError> {
    let (start, parts) = start.rsplit_once(" | ").unwrap_or((start, ""));
    let (name, rest) = start.split_once(" | ").unwrap_or((start, ""));
    let (words, rest) = rest.split_once(" | ").unwrap_or((rest, ""));
    let (members, value) = rest.split_once(" | ").unwrap_or((rest, ""));
    let mut bases = bases(rt, alloc, members)?;
    put_changed(
        rt,
        alloc,
        &mode(alloc, words)?,
        denoted(alloc, value)?,
        &change(alloc, name, parts)?,
        &mut bases,
        into,
    )?;
    put_bases(rt, alloc, &bases, into)
}

fn change(alloc: Global, name: &str, parts: &str) -> Result<Change, AllocError> {
    let (first, second) = parts.split_once(" ; ").unwrap_or((parts, ""));
    change_by(name, part(alloc, first)?, denoted(alloc, second)?)
}

fn change_by(name: &str, x: Value, y: Option<Value>) -> Result<Change, AllocError> {
    match name {
        "with" => Ok(Change::With(x)),
        "less" => Ok(Change::Less(x)),
        "lessf" => Ok(Change::Lessf(x)),
        "put" => Ok(Change::Put(x, y)),
        "add" => Ok(Change::WithImage(x, y.unwrap_or(Value::Bool(false)))),
        _ => Ok(Change::LessImage(x, y.unwrap_or(Value::Bool(false)))),
    }
}

fn part(alloc: Global, denotation: &str) -> Result<Value, AllocError> {
    match denoted(alloc, denotation)? {
        Some(v) => Ok(v),
        None => Ok(Value::Bool(false)),
    }
}

fn put_changed(
    rt: &impl Abort,
    alloc: Global,
    mode: &Mode,
    value: Option<Value>,
    change: &Change,
    bases: &mut Bases,
    into: &mut Vec<u8>,
) -> Result<(), AllocError> {
    let mut h = fitting(rt, alloc, mode, value, bases)?;
    put_update(rt, alloc, mode, &mut h, change, bases, into)
}

fn put_update(
    rt: &impl Abort,
    alloc: Global,
    mode: &Mode,
    h: &mut Held,
    change: &Change,
    bases: &mut Bases,
    into: &mut Vec<u8>,
) -> Result<(), AllocError>
    requires { IsInForm bases.old 0 (mode_of mode.now) (form h.old) }
{
    let copy = h.copy()?;
    let before = state(rt, alloc, h, bases)?;
    let made = changed(alloc, mode, h, &copy, change, bases);
    if made.is_err() {
        assert_eq!(rt; state(rt, alloc, h, bases)?.as_slice(), before.as_slice());
    }
    put_answer(made?, into)?;
    put_value(alloc, &plain(alloc, &copy, bases)?, into)?;
    put_held(alloc, mode, h, bases, into)
}

// A form, and the members of the bases.
fn state(rt: &impl Abort, alloc: Global, h: &Held, bases: &Bases) -> Result<Vec<u8>, AllocError> {
    let mut shown = Vec::new(alloc);
    put_form(alloc, h, &mut shown)?;
    put_bases(rt, alloc, bases, &mut shown)?;
    Ok(shown)
}

// The update, over which a copy stands for the same.
fn changed(
    alloc: Global,
    mode: &Mode,
    h: &mut Held,
    copy: &Held,
    change: &Change,
    bases: &mut Bases,
) -> Result<bool, AllocError>
    requires held { IsInForm bases.old 0 (mode_of mode.now) (form h.old) }
    requires copy { IsInForm bases.old 0 (mode_of mode.now) (form copy.now) }
    ensures held { IsInForm bases.new 0 (mode_of mode.now) (form h.new) }
    ensures copy { IsHeldOver bases.new copy.now }
{
    setl_rep_updates::laws::forms_of_modes_stay();
    update(alloc, mode, h, change, bases, 0)
}

fn put_answer(made: bool, into: &mut Vec<u8>) -> Result<(), AllocError> {
    into.extend_from_slice(if made { b"true\n" } else { b"false\n" })
}
