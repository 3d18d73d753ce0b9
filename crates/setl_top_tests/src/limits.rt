//! Deep values, deep calls and long searches.

use crate::calls::{expect, run};
use setl_top::Status;
use std::alloc::{AllocError, Global};
use std::test::Fail;

/// Bodies of programs with 10,000 calls inside one another, 1,000 `ok` in a row, or values of depth 500, and what they
/// print.
const LONG: &str =
    "print(f(10000)); proc f(n); if n = 0 then return 0; end if; return f(n - 1) + 1; end proc;
--
10000
====
n := 0; (for i in [1..1000]) if ok then n +:= 1; else print(i, n); stop; end if; end for; fail;
--
1000 999
====
n := 0; (for i in [1..1000]) if ok then n +:= 1; elseif i = 1 then print(i, n); stop; else fail; end if; end for; fail;
--
1 0
====
s := {}; v := {}; t := []; (for i in [1..499]) s := {s}; t := [t]; v := {} with v; end for; print(s = v, #str t);
--
true 1000
";

#[test]
fn calls_searches_and_values_are_deep(rt: HostRuntime) -> Result<(), Fail> {
    expect(&rt, rt.alloc(), Status::Done, LONG)?;
    Ok(())
}

/// Makes a set of depth 500 on line 1, reads a value on line 2, and compares and prints them.
const DEEP: &str = "v := {}; (for i in [1..499]) v := {v}; end for;\nread(w); print(v = w, v);";

/// The text of an empty set inside sets, so that it is so deep.
fn nested(alloc: Global, depth: usize) -> Result<String, AllocError> {
    let mut text = String::new(alloc);
    for bracket in ["{", "}"] {
        text.push_str(&bracket.repeat(alloc, depth)?)?;
    }
    Ok(text)
}

/// Whether the run prints a value of depth 500.
fn prints_500(alloc: Global) -> Result<bool, AllocError> {
    let high = nested(alloc, 500)?;
    let left = run(alloc, DEEP, &high)?;
    let out = format!(in alloc; "true {high}\n")?;
    Ok(left.is(Status::Done, &out, ""))
}

/// Whether it stops where it reads a value of depth 501.
fn stops_at_501(alloc: Global) -> Result<bool, AllocError> {
    let left = run(alloc, DEEP, &nested(alloc, 501)?)?;
    Ok(left.is(Status::Stopped, "", "line 2: deep\n"))
}

#[test]
fn a_value_of_depth_500_is_read_and_one_of_501_stops(rt: HostRuntime) -> Result<(), Fail> {
    assert!(rt; prints_500(rt.alloc())?);
    assert!(rt; stops_at_501(rt.alloc())?);
    Ok(())
}
