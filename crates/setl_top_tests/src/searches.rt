//! `ok`, `fail` and `succeed`: across calls, inside formers, and inside iterators.

use crate::calls::expect;
use setl_top::Status;
use std::test::Fail;

/// Bodies of programs with `ok` and `fail`, and what they print.
const SEARCHES: &str =
    "x := choose(); print(x); if x = 1 then fail; end if; proc choose(); if ok then return 1; else return 2; end if; end proc;
--
1
2
====
n := 0; f(n); print(n); if n = 1 then fail; end if; proc f(rw x); x +:= 1; if ok then return; end if; x +:= 10; end proc;
--
1
11
====
x := pick([3,1,2]); print(x); if x /= 2 then fail; end if; proc pick(t); (for y in t) if ok then return y; end if; end for; end proc;
--
3
1
2
====
n := 1; if ok then n := 2; f(n); end if; print(n); proc f(rw x); x := 3; fail; end proc;
--
1
====
var g; g := 1; if ok then g := 2; f(); end if; print(g); proc f(); g := 3; fail; end proc;
--
1
====
x := f() + 10 * f(); print(x); if x /= 22 then fail; end if; proc f(); if ok then return 1; end if; if ok then return 2; end if; return 3; end proc;
--
11
21
31
12
22
====
print(part([3,5,7], 10)); proc part(t, n); if n = 0 then return []; elseif t = [] then fail; end if; x fromb t; if ok then return [x] + part(t, n - x); end if; return part(t, n); end proc;
--
[3 7]
====
if ok then if ok then print(1); fail; else print(2); fail; end if; else print(3); end if;
--
1
2
3
====
x := 1 + (if ok then 2 else 3 end) * 10; print(x); if x = 21 then fail; end if;
--
21
31
====
s := {x : x in {1..3} | ok}; print(s); if #s > 1 then fail; end if;
--
{1 2 3}
{1 2}
{1 3}
{1}
====
t := [if ok then x else -x end : x in [1,2]]; print(t); if t(1) > 0 then fail; end if;
--
[1 2]
[1 -2]
[-1 2]
====
t := [x : x in if ok then [1] else [2,3] end | ok or x = 3]; print(t); if t /= [3] then fail; end if;
--
[1]
[]
[2 3]
[2 3]
[3]
====
(for x in {1..3} | ok) print(x); if x < 3 then fail; end if; end for; print('end');
--
1
2
3
end
====
(for x in if ok then [1] else [2,3] end) print(x); end for; if x = 1 then fail; end if;
--
1
2
3
====
(for x in [1,2], y in 'ab') if ok then print(x, y); if y = 'b' then fail; end if; else print(x); end if; end for;
--
1 a
1 b
1
2 a
2 b
2
====
n := 0; (while ok and n < 2) n +:= 1; end while; print(n); if n > 0 then fail; end if;
--
2
2
1
0
====
if exists x in [1,2] | ok then print(x); fail; else print(x); end if;
--
1
2
*
====
if forall x in [1,2] | ok then print(x); fail; else print(x); end if;
--
*
2
====
s := {1}; t := [s]; if ok then s with:= 2; t(1) := s; print(s, t); fail; end if; print(s, t);
--
{1 2} [{1 2}]
{1} [{1}]
====
s := {2,1}; if ok then x from s; x from s; print(x, s); fail; end if; print(x, s);
--
2 {}
* {1 2}
";

#[test]
fn a_fail_goes_back_to_the_latest_ok(rt: HostRuntime) -> Result<(), Fail> {
    expect(&rt, rt.alloc(), Status::Done, SEARCHES)?;
    Ok(())
}

/// Bodies of programs with `succeed`, and what they print.
const COMMITTED: &str =
    "x := 0; if ok then x := 1; if ok then x := 2; succeed; end if; print(x); fail; else print(x); end if;
--
2
0
====
s := {3..20}; if exists x in s | ok then if x mod 5 /= 0 then fail; end if; succeed; print(x); end if; print(x);
--
5
5
====
x := first([4,6,9,10]); print(x); if ok then print(1); fail; else print(2); end if;
proc first(t); if exists y in t | ok then if odd y then succeed; return y; end if; end if; fail; end proc;
--
9
1
2
====
n := 0; if ok then (for i in [1..5]) if ok then n +:= i; succeed; else n := -1; end if; end for; print(n); fail; end if;
print(n);
--
15
0
====
f := {}; t := [1,2,3]; if ok then if ok then f(1) := 2; t(2) := 7; x := 5; succeed; f(3) := 4; end if; print(f, t, x);
fail; end if; print(f, t, x);
--
{[1 2] [3 4]} [1 7 3] 5
{} [1 2 3] *
====
if ok then f(1); print('in'); fail; else print('out'); end if; proc f(n); if ok then n +:= 1; succeed; end if; print(n);
end proc;
--
2
in
out
====
s := {x : x in {1..3} | ok}; succeed; succeed; print(s); if #s > 2 then fail; end if;
--
{1 2 3}
{2 3}
";

#[test]
fn a_succeed_keeps_all_changes(rt: HostRuntime) -> Result<(), Fail> {
    expect(&rt, rt.alloc(), Status::Done, COMMITTED)?;
    Ok(())
}
