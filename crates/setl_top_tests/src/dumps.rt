//! Dumps of runs: the members of the bases and what the declared variables hold at the end.

use crate::calls::expect_calls;
use setl_top::Status;
use std::test::Fail;

/// Runs that end of themselves: the words, the source, what is printed, and what is told.
const DONE: &str = "run --dump a
--
program p; repr base n: int; t: tuple(elmt n); x: elmt n; end repr; t := [5,om,7]; x := 7; end program;
--
--
base n 2: 5 7
t tuple 1 * 2
x elmt 2
====
run --dump a
--
program p;
repr base b: int; s: local set(elmt b); end repr;
s := {1};
if ok then s with:= 2; print(s); fail; else print(s); end if;
end program;
--
{1 2}
{1}
--
base b 1: 1
s local 1
====
run --dump a
--
program p; repr base b: int; s: sparse set(elmt b); end repr;
s := {}; if ok then s := {8}; fail; else s := {9}; end if; end program;
--
--
base b 1: 9
s sparse 1
====
run --dump a
--
program p;
repr base n: int; s: remote set(elmt n); t: sparse set(elmt n); end repr;
s := {30,10}; t := {20,10}; s with:= 20; print(s, t); print([x : x in s]);
end program;
--
{10 20 30} {10 20}
[10 20 30]
--
base n 3: 10 30 20
s remote 111
t sparse 1 3
====
run --dump a
--
program reach;
repr base n: int; g: local mmap{elmt n} remote set(elmt n);
seen: local set(elmt n); end repr;
g := {[1,2],[2,3],[4,1]};
seen := {}; todo := [1];
(while todo /= [])
  x fromb todo;
  if x notin seen then
    seen with:= x;
    (for y in g{x}) todo with:= y; end for;
  end if;
end while;
print(seen);
end program;
--
{1 2 3}
--
base n 4: 1 2 3 4
g local 1(remote 0100) 2(remote 0010) 4(remote 1000)
seen local 1110
====
run --dump --watch trace a
--
program p; repr base m: int; base n: string; s: remote set(elmt n); x: int; end repr; s := {}; if false then x := 1; end if; end program;
--
--
base m 0:
base n 0:
s remote -
x om
store 1 s {}
====
run --dump a
--
program p; x := 1; end program;
--
--
====
run --unbased --dump a
--
program p; repr base n: int; x: elmt n; end repr; x := 7; end program;
--
--
";

#[test]
fn a_run_that_is_done_tells_its_dump(rt: HostRuntime) -> Result<(), Fail> {
    Ok(expect_calls(&rt, rt.alloc(), Status::Done, DONE)?)
}

/// Runs that stop at a value that doesn't fit, one of them inside a procedure.
const STOPPED: &str = "run --dump a
--
program p;
repr base n: int; s: sparse set(elmt n); end repr;
s := {1};
s with:= 'a';
end program;
--
--
base n 1: 1
s sparse 1
line 4: value does not fit s
====
run --watch cover --dump a
--
program p;
var s; repr base n: int; s: remote set(elmt n); end repr;
s := {2}; f(1);
proc f(x); s := x; end proc;
end program;
--
--
base n 1: 2
s remote 1
line 3: 2
line 4: value does not fit s
";

#[test]
fn a_run_that_stops_tells_its_dump(rt: HostRuntime) -> Result<(), Fail> {
    Ok(expect_calls(&rt, rt.alloc(), Status::Stopped, STOPPED)?)
}

/// A run that has no turns left.
const SPENT: &str = "run --turns 1 --dump a
--
program p; repr base n: int; x: elmt n; end repr; (for i in [7, 8, 9]) x := i; end for; end program;
--
--
base n 1: 7
x elmt 1
out of turns
";

#[test]
fn a_run_without_turns_tells_its_dump(rt: HostRuntime) -> Result<(), Fail> {
    Ok(expect_calls(&rt, rt.alloc(), Status::Spent, SPENT)?)
}
