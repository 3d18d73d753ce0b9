//! Programs with declarations: what fits, where a store stops that doesn't, and the same without the declarations.

use crate::calls::{Left, expect_calls, run_with};
use crate::rows::{BETWEEN, fields, text};
use setl_top::Status;
use std::alloc::{AllocError, Global};
use std::test::Fail;

/// A set that is kept in three ways, a map, and a job on a graph, and what they print.
const FITTING: &str = "repr base n: int; s, t: remote set(elmt n); end repr;
s := {1}; t := s; s with:= 2; print(s, t);
--
{1 2} {1}
====
repr base n: int; s, t: local set(elmt n); end repr;
s := {1}; t := s; s with:= 2; print(s, t);
s less:= 1; print(s, t);
--
{1 2} {1}
{2} {1}
====
repr base b: int; s: local set(elmt b); end repr;
s := {1};
if ok then s with:= 2; print(s); fail; else print(s); end if;
--
{1 2}
{1}
====
repr base n: int; s: remote set(elmt n); t: sparse set(elmt n); end repr;
s := {30,10}; t := {20,10}; s with:= 20; print(s, t); print([x : x in s]);
--
{10 20 30} {10 20}
[10 20 30]
====
repr base n: int; g: local mmap{elmt n} remote set(elmt n);
seen: local set(elmt n); end repr;
g := {[1,2],[2,3],[4,1]};
seen := {}; todo := [1];
(while todo /= [])
x fromb todo;
if x notin seen then
seen with:= x;
(for y in g{x}) todo with:= y; end for;
end if;
end while;
print(seen);
--
{1 2 3}
====
repr i: int; c: string; b: boolean; a: atom; v: general; end repr;
i := 1; c := 'x'; b := true; a := newat; v := [1,{}]; print(i, c, b, a, v);
i := om; c := om; b := om; a := om; v := om; print(i, c, b, a, v);
--
1 x true #1 [1 {}]
* * * * *
====
repr base n: string; t: tuple(elmt n); u: tuple(tuple(int)); end repr;
t := ['a']; t(3) := 'b'; u := [[1], om, [2,om,3]]; print(t, u);
--
['a' * 'b'] [[1] * [2 * 3]]
====
repr f: smap(int) string; m: mmap{string} set(int); end repr;
f := {[1,'a']}; f(2) := 'b'; f(1) := om; m := {}; m{'x'} := {1,2}; m{'x'} := {}; print(f, m);
--
{[2 'b']} {}
====
var g; repr n: int; g: set(int); end repr;
q(n); print(n, g);
proc q(rw x); n := 'its own'; x := 3; g := {x}; print(n); end proc;
--
its own
3 {3}
";

#[test]
fn programs_run_alike_while_their_values_fit(rt: HostRuntime) -> Result<(), Fail> {
    for row in FITTING.split(BETWEEN) {
        let [body, out, ..] = fields(row);
        let based = run_with(rt.alloc(), "run a", body, "")?;
        let plain = run_with(rt.alloc(), "run --unbased a", body, "")?;
        assert!(rt; based.is(Status::Done, out, ""), "at {body}");
        assert!(rt; plain.is(Status::Done, out, ""), "unbased at {body}");
    }
    Ok(())
}

/// A store of each kind whose value doesn't fit: the body, what is printed up to it, the line of the stop, what is
/// printed without the declarations, and the input.
const MISFITS: &str = "repr s: set(int); end repr;
s := {1}; print(s);
s := {1,'a'}; print(s);
--
{1}
--
line 3: value does not fit s
--
{1}
{1 'a'}
====
repr base n: int; s: sparse set(elmt n); end repr;
s := {1}; print(s);
s with:= 'a'; print(s);
--
{1}
--
line 3: value does not fit s
--
{1}
{1 'a'}
====
repr base n: int; f: sparse smap(elmt n) int; end repr;
f := {[1,10]}; f(1) := om; print(f); f(1) := 5; print(f);
f{1} := {1,2}; print(f);
--
{}
{[1 5]}
--
line 3: value does not fit f
--
{}
{[1 5]}
{[1 1] [1 2]}
====
repr t: tuple(set(int)); end repr;
t := [{1}];
t(1) with:= 'a'; print(t);
--
--
line 3: value does not fit t
--
[{1 'a'}]
====
repr t: tuple(int); end repr;
t := [1];
t(2) := 'a'; print(t);
--
--
line 3: value does not fit t
--
[1 'a']
====
repr n: int; end repr;
n := 1;
n +:= 1; print(n);
n := str n; print(n);
--
2
--
line 4: value does not fit n
--
2
2
====
repr x: int; end repr;
s := {'a'};
x from s; print(x, s);
--
--
line 3: value does not fit x
--
a {}
====
repr x: int; end repr;
t := [1,'a'];
x fromb t; print(x); x fromb t; print(x, t);
--
1
--
line 3: value does not fit x
--
1
a []
====
repr t: general; x: string; end repr;
t := ['a',1];
x frome t; print(x, t);
--
--
line 3: value does not fit x
--
1 ['a']
====
repr x: int; end repr;
read(x); print(x);
read(x); print(x);
--
1
--
line 3: value does not fit x
--
1
a
--
1 'a'
====
repr x: int; end repr;
(for x in [1,'a',2])
print(x);
end for;
--
1
--
line 2: value does not fit x
--
1
a
2
====
repr y: int; end repr;
(for [x, y] in [[1,2],['a','b']])
print(x, y);
end for;
--
1 2
--
line 2: value does not fit y
--
1 2
a b
====
repr y: int; end repr;
f := {[1,'a']};
(for y = f(x))
print(x, y);
end for;
--
--
line 3: value does not fit y
--
1 a
====
repr x: int; end repr;
if exists x in {1,'a'} | x = 'a' then print(x); end if;
--
--
line 2: value does not fit x
--
a
====
repr x: string; end repr;
print(forall x in ['a',1] | x = 'a', x);
--
--
line 2: value does not fit x
--
false 1
====
repr y: int; end repr;
[x, y] := [1, 2]; print(x, y);
[x, y] := ['a', 'b']; print(x, y);
--
1 2
--
line 3: value does not fit y
--
1 2
a b
====
repr n: int; end repr;
n := 1;
spell(n); print(n);
proc spell(rw x);
x := str x;
end proc;
--
--
line 3: value does not fit n
--
1
====
repr n: int; end repr;
name(n); print(n);
proc name(wr x);
x := 'a';
end proc;
--
--
line 2: value does not fit n
--
a
====
var g; repr g: int; end repr;
keep('a'); print(g);
proc keep(v);
g := v;
end proc;
--
--
line 4: value does not fit g
--
a
====
repr m: mmap{int} set(int); end repr;
m := {[1,1],[1,2]}; print(m);
m{1} with:= 'a'; print(m);
--
{[1 1] [1 2]}
--
line 3: value does not fit m
--
{[1 1] [1 2]}
{[1 1] [1 2] [1 'a']}
====
repr b: boolean; end repr;
b := ok; print(b);
if b then b := 1; end if; print(b);
--
true
--
line 3: value does not fit b
--
true
1
";

/// Whether a run stops so, and without the declarations is done with that output.
fn stops_unless_unbased(
    alloc: Global,
    body: &str,
    input: &str,
    out: &str,
    line: &str,
    unbased: &str,
) -> Result<bool, AllocError> {
    let based = run_with(alloc, "run a", body, input)?;
    let plain = run_with(alloc, "run --unbased a", body, input)?;
    Ok(based.is(Status::Stopped, out, line) && plain.is(Status::Done, unbased, ""))
}

#[test]
fn a_store_stops_at_a_value_that_does_not_fit(rt: HostRuntime) -> Result<(), Fail> {
    for row in MISFITS.split(BETWEEN) {
        let [body, out, line, unbased, input] = fields(row);
        assert!(rt;
            stops_unless_unbased(rt.alloc(), body, text(input), out, line, unbased)?,
            "at {body}"
        );
    }
    Ok(())
}

/// Words, programs, and what a run with as many turns as it takes prints.
const ENOUGH: &str = "run --turns 5 a
--
program p; (for i in [1..5]) print(i); end for; end program;
--
1
2
3
4
5
====
run --turns 9223372036854775807 a
--
program p; (for i in [1..5]) print(i); end for; end program;
--
1
2
3
4
5
";

/// Words, programs, what a run prints that takes more turns, and what is told.
const TOO_FEW: &str = "run --turns 3 a
--
program p; (for i in [1..5]) print(i); end for; end program;
--
1
2
3
--
out of turns
====
run --turns 0 a
--
program p; (for i in [1..5]) print(i); end for; end program;
--
--
out of turns
====
run --unbased --turns 4 a
--
program p; (for i in [1..5]) print(i); end for; end program;
--
1
2
3
4
--
out of turns
====
run --turns 4 --unbased a
--
program p; (for i in [1..5]) print(i); end for; end program;
--
1
2
3
4
--
out of turns
====
run --turns 1 a
--
program p; repr base n: int; s: local set(elmt n); end repr;
s := {1};
(for x in [2,'a',3])
s with:= x;
print(s);
end for;
end program;
--
{1 2}
--
out of turns
";

/// Words, programs whose second turn takes a value that doesn't fit, what they print, and the line of the stop.
const TURNS_LEFT: &str = "run --turns 5 a
--
program p; repr base n: int; s: local set(elmt n); end repr;
s := {1};
(for x in [2,'a',3])
s with:= x;
print(s);
end for;
end program;
--
{1 2}
--
line 4: value does not fit s
====
run --turns 2 a
--
program p; repr base n: int; s: local set(elmt n); end repr;
s := {1};
(for x in [2,'a',3])
s with:= x;
print(s);
end for;
end program;
--
{1 2}
--
line 4: value does not fit s
";

#[test]
fn turns_are_bounded_by_the_words(rt: HostRuntime) -> Result<(), Fail> {
    expect_calls(&rt, rt.alloc(), Status::Done, ENOUGH)?;
    expect_calls(&rt, rt.alloc(), Status::Spent, TOO_FEW)?;
    expect_calls(&rt, rt.alloc(), Status::Stopped, TURNS_LEFT)?;
    Ok(())
}

/// What a run with so many turns answers.
fn bounded(alloc: Global, turns: u64, body: &str) -> Result<Left, AllocError> {
    let line = format!(in alloc; "run --turns {turns} a")?;
    run_with(alloc, line.as_str(), body, "")
}

#[test]
fn a_store_takes_no_turn_whether_its_value_fits_or_not(rt: HostRuntime) -> Result<(), Fail> {
    let alloc = rt.alloc();
    let large = bounded(alloc, 10, "x := {1..1000000}; print(#x);")?;
    assert!(rt; large.is(Status::Spent, "", "out of turns\n"));
    let body = "repr s: set(int); end repr;\ns := {1}; print(s);\ns with:= 'a';";
    let left = bounded(alloc, 0, body)?;
    assert!(rt; left.is(Status::Stopped, "{1}\n", "line 3: value does not fit s\n"));
    Ok(())
}
