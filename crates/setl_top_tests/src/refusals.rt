//! Sources and words that are refused, and the lines that tell why.

use crate::calls::{Left, NO_FAULTS, answer, call, expect_calls};
use crate::rows::{BETWEEN, fields, text};
use setl_top::Status;
use std::alloc::{AllocError, Global};
use std::test::Fail;

/// Words, sources that are refused, nothing printed, and the first reason that is told.
const REFUSED: &str = "run a
--
program p; end program
--
--
at 22: syntax
====
run a
--
program p; end program; x
--
--
at 24: syntax
====
run a
--
program print; end program;
--
--
at 8: syntax
====
check a
--

--
--
at 0: syntax
====
check a
--
program p; ? end program;
--
--
at 11: byte
====
check a
--
program p; x := {1,}; end program; 'it
--
--
at 35: open string
====
check a
--
170141183460469231731687303715884105728 ?
--
--
at 0: wide number
====
run a
--
program p; print({3,1,2,1}, [1,om,2], 'it''s');
--
--
at 47: syntax
====
run a
--
program p; print('it''s); end program;
--
--
at 17: open string
====
check a
--
program p; quit; x := ; end program;
--
--
at 22: syntax
====
run a
--
program p; print(1);
quit;
end program;
--
--
line 2: rule 13
====
run a
--
program p; repr base b; end repr;
quit;
end program;
--
--
line 2: rule 13
====
run a
--
program p; repr s: local set(int); end repr; s := {}; end program;
--
--
line 1: rule 26
====
run --unbased a
--
program p; repr s: local set(int); end repr; s := {}; end program;
--
--
line 1: rule 26
====
check a
--
program p;
repr base b: local set(int); end repr; end program;
--
--
line 2: rule 22
====
check a
--
program p;
repr base b, b; end repr;
quit; end program;
--
--
line 2: rule 19
====
code a
--
program p; repr base b, b; end repr; quit; end program;
--
--
line 1: rule 13
====
check a
--
program p; quit;
proc f(a,
  a); end proc; end program;
--
--
line 1: rule 13
====
check a
--
program p; succeed := 1; end program;
--
--
at 19: syntax
";

#[test]
fn sources_are_refused_for_their_first_reason(rt: HostRuntime) -> Result<(), Fail> {
    expect_calls(&rt, rt.alloc(), Status::Refused, REFUSED)?;
    Ok(())
}

/// Each rule, a source that breaks it on line 2, and one that keeps it.
const RULES: &str = "1
--
program p;
end program q;
--
program p;
end program p;
====
2
--
program p; proc f();
end proc g; end program;
--
program p; proc f();
end proc f; end program;
====
3
--
program p; proc f(); end proc;
proc f(); end proc; end program;
--
program p; proc f(); end proc;
proc g(); end proc; end program;
====
4
--
program p;
proc p(); end proc; end program;
--
program p;
proc q(); end proc; end program;
====
5
--
program p;
var a, a; end program;
--
program p;
var a, b; end program;
====
6
--
program p;
var f; proc f(); end proc; end program;
--
program p;
var g; proc f(); end proc; end program;
====
7
--
program p;
proc f(a, a); end proc; end program;
--
program p;
proc f(a, b); end proc; end program;
====
8
--
program p;
proc g(f); end proc; proc f(); end proc; end program;
--
program p;
proc g(h); end proc; proc f(); end proc; end program;
====
9
--
program p;
x := f; proc f(); end proc; end program;
--
program p;
x := f(); proc f(); end proc; end program;
====
10
--
program p;
f(1); proc f(); end proc; end program;
--
program p;
f(1); proc f(a); end proc; end program;
====
11
--
program p;
f(1); proc f(wr a); end proc; end program;
--
program p;
f(x); proc f(wr a); end proc; end program;
====
12
--
program p;
f(1); end program;
--
program p;
f(1); proc f(a); end proc; end program;
====
13
--
program p;
quit; end program;
--
program p;
(while true) quit; end while; end program;
====
14
--
program p;
return; end program;
--
program p;
proc f(); return; end proc; end program;
====
15
--
program p;
x := {a : a in s, a in t}; end program;
--
program p;
x := {a : a in s, b in t}; end program;
====
16
--
program p;
x := {exists a in s | a = 1 : a in s}; end program;
--
program p;
x := {exists b in s | a = b : a in s}; end program;
====
17
--
program p;
[a, -, a] := t; end program;
--
program p;
[a, -, b] := t; end program;
====
18
--
program p;
f(a, a); proc f(wr x, rw y); end proc; end program;
--
program p;
f(a, b); proc f(wr x, rw y); end proc; end program;
====
19
--
program p; repr base a;
base a; end repr; end program;
--
program p; repr base a;
base b; end repr; end program;
====
20
--
program p; repr
base a; end repr; a := 1; end program;
--
program p; repr
base a; end repr; b := 1; end program;
====
21
--
program p; repr
s: set(elmt a); base a; end repr; s := {}; end program;
--
program p; repr base a;
s: set(elmt a); end repr; s := {}; end program;
====
22
--
program p; repr base a; base b:
set(elmt a); end repr; end program;
--
program p; repr base a; base b:
set(int); end repr; end program;
====
23
--
program p; repr x,
x: int; end repr; x := 1; end program;
--
program p; repr x,
y: int; end repr; x := 1; y := 1; end program;
====
24
--
program p; repr
x: int; end repr; y := 1; end program;
--
program p; var x; repr
x: int; end repr; y := 1; end program;
====
25
--
program p; repr base a;
t: set(elmt a); s: remote smap(elmt a) local set(elmt a); end repr; s := t; end program;
--
program p; repr base a;
t: local set(elmt a); s: local smap(elmt a) remote set(elmt a); end repr; s := t; end program;
====
26
--
program p; repr
s: remote set(int); end repr; s := {}; end program;
--
program p; repr
base a; s: remote set(elmt a); end repr; s := {}; end program;
====
27
--
program p; repr base a;
s: set(set(elmt a)); end repr; s := {}; end program;
--
program p; repr base a;
s: tuple(elmt a); end repr; s := []; end program;
====
28
--
program p; repr
s: mmap{int} int; end repr; s := {}; end program;
--
program p; repr
s: mmap{int} set(int); end repr; s := {}; end program;
";

/// Whether a check of the first source breaks this rule on line 2, and a check of the second is done.
fn tells_rule(alloc: Global, rule: &str, broken: &str, kept: &str) -> Result<bool, AllocError> {
    let line = format!(in alloc; "line 2: rule {rule}\n")?;
    let broken = answer(alloc, "check a", broken)?;
    let kept = answer(alloc, "check a", kept)?;
    Ok(broken.is(Status::Refused, "", line.as_str()) && kept.is(Status::Done, "", ""))
}

#[test]
fn each_rule_is_told_and_a_neighbour_keeps_it(rt: HostRuntime) -> Result<(), Fail> {
    for row in RULES.split(BETWEEN) {
        let [rule, broken, kept, ..] = fields(row);
        assert!(rt;
            tells_rule(rt.alloc(), text(rule), broken, kept)?,
            "at {rule}"
        );
    }
    Ok(())
}

/// Words of no plain form that the library for command lines refuses in its own words, a line each. The first line has
/// none.
const OTHER_WORDS: &str = "
run
check
run x y
check x y
run -x
check -x
checks a
run --turns 9223372036854775808 a
--help";

/// Words of no plain form that it takes, sources, nothing printed, and what is told.
const UNPLAIN_WORDS: &str = "run --turns 07 a
--
program p; end program;
--
--
not of the plain form
====
run --turns=5 a
--
program p; end program;
--
--
not of the plain form
====
run a --unbased
--
program p; end program;
--
--
not of the plain form
====
run -- a
--
program p; end program;
--
--
not of the plain form
";

/// Whether the call with these words is told in other words.
fn is_told_otherwise(alloc: Global, line: &str) -> Result<bool, AllocError> {
    let left = answer(alloc, line, "program p; end program;")?;
    Ok(left.is_told_in_other_words(Status::Words))
}

#[test]
fn other_words_are_told_on_the_error_output_alone(rt: HostRuntime) -> Result<(), Fail> {
    for line in OTHER_WORDS.split('\n') {
        assert!(rt; is_told_otherwise(rt.alloc(), line)?, "at {line}");
    }
    assert_eq!(rt; Status::Words.number(), 2);
    Ok(())
}

#[test]
fn other_words_are_not_of_the_plain_form(rt: HostRuntime) -> Result<(), Fail> {
    expect_calls(&rt, rt.alloc(), Status::Words, UNPLAIN_WORDS)?;
    Ok(())
}

/// What a run of a program answers that prints 1 inside so many parentheses.
fn parentheses(alloc: Global, count: usize) -> Result<Left, AllocError> {
    let opened = "(".repeat(alloc, count)?;
    let closed = ")".repeat(alloc, count)?;
    let source = format!(in alloc; "program p; print({opened}1{closed}); end program;")?;
    answer(alloc, "run a", &source)
}

/// What a run of a source of so many blanks answers.
fn blanks(alloc: Global, count: usize) -> Result<Left, AllocError> {
    let source = vec![in alloc; b' '; count]?;
    call(alloc, "run a", &source, NO_FAULTS)
}

#[test]
fn sources_are_refused_past_their_limits(rt: HostRuntime) -> Result<(), Fail> {
    let alloc = rt.alloc();
    let long = blanks(alloc, (1 << 24) + 1)?;
    assert!(rt; long.is(Status::Refused, "", "source too long\n"));
    let nested = parentheses(alloc, 200)?;
    assert!(rt; nested.is(Status::Refused, "", "at 216: nesting\n"));
    let nested = parentheses(alloc, 199)?;
    assert!(rt; nested.is(Status::Done, "1\n", ""));
    Ok(())
}
