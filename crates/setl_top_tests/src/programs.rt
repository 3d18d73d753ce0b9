//! Programs that come to their end, and what they print.

use crate::calls::{expect, expect_calls};
use setl_top::Status;
use std::test::Fail;

/// Words, programs, and what a run of each prints.
const PROGRAMS: &str = "run a
--
program p; end program;
====
run a
--
program p; end program p;
====
run a
--
program p; repr end repr; print(1); end;
--
1
====
run a
--
program p; repr base b; end repr; print(1); end program;
--
1
====
run a
--
PROGRAM p; $ a comment
X := (10); x := x; Print(); print(X, {}); END;\x20
--

10 {}
====
run a
--
program p; s := {3,1,2,1}; s with:= 5; print(s, 7); end program;
--
{1 2 3 5} 7
====
run a
--
program p; s := {2}; s with:= 1; s with:= 2; print(s); s := 0; print(s); end program;
--
{1 2}
0
====
run a
--
program p; print(x); x := -1; end program;
--
*
====
run a
--
program p; print('a'); end program;
--
a
====
run a
--
program p; (while true) quit; end while; end program;
====
run a
--
program p; var g, h; var k; g := 1; x := 3; f(2); print(g, h, x); procedure f(h); g +:= h; h := 9; x := 9; end procedure f; end program p;
--
3 * 3
====
run a
--
program queens; q := []; (for i in [1..4]) if exists j in [1..4] | ok then if exists k in [1..#q] | q(k) = j or abs (q(k) - j) = i - k then fail; end if; q with:= j; else fail; end if; end for; print(q); end program;
--
[2 4 1 3]
====
run a
--
program p; var x, y; x := {1, 2}; y := 2; f(); print(x, y); proc f(); z := {x + y : x in x}; print(z, {[y, x] : y in z, x in {y}}); end proc; end program;
--
{3 4} {[3 3] [4 4]}
{1 2} 2
";

#[test]
fn programs_print_their_values(rt: HostRuntime) -> Result<(), Fail> {
    expect_calls(&rt, rt.alloc(), Status::Done, PROGRAMS)?;
    Ok(())
}

/// Bodies of programs with operators, formers and quantifiers, and what they print.
const VALUES: &str = "print({3,1,2,1}, [1,om,2], 'it''s');
--
{1 2 3} [1 * 2] it's
====
print({[], true, {}, -1, newat, 'a'}, [[om], {'it''s'}, om]);
--
{true -1 'a' #1 [] {}} [[] {'it''s'}]
====
print(-7 div 2, -7 mod 2, 7 mod -2, 2 ** 10);
--
-3 1 1 1024
====
print(0 ** 0, -2 ** 2, abs -3, 3 max 4 min 2, odd -3);
--
1 4 3 2 true
====
print(+/ [1..4], +/ {}, max/ {3,9,4}, or/ [false, 1 < 2]);
--
10 * 9 true
====
print('a' + 'b', #'abc', 'abc'(2), 'abc'(4), 'abc'(2..), 2 * 'ab');
--
ab 3 b * bc abab
====
print(str {'a'} + str 1, 'a' < 'ab', 'b' < 'ab', {'it''s'});
--
{'a'}1 true false {'it''s'}
====
t := [1, om, 3, om]; print(#t, t(3), t(9), t(1..2), t + [om, 2], 2 * t);
--
3 3 * [1] [1 * 3 * 2] [1 * 3 1 * 3]
====
s := {1,2}; t := {2,3}; print(s + t, s - t, s * t, s mod t, arb t, arb {});
--
{1 2 3} {1} {2} {1 3} 2 *
====
s := {1}; print(1 in s, [] notin s, {} subset s, s incs {2}, s with 2 less 1);
--
true true true false {2}
====
print(pow {1,2}, 2 npow {1,2,3});
--
{{} {1} {1 2} {2}} {{1 2} {1 3} {2 3}}
====
print([1..3], {3..1}, [5,3..0], {9,7..4}, [x : x in {5,3..1}]);
--
[1 2 3] {} [5 3 1] {5 7 9} [1 3 5]
====
f := {[1,2],[1,3],[2,5]}; print(f(1), f{1}, f(2), f{9});
--
* {2 3} 5 {}
====
f := {[1,2],[1,3],[2,5]}; print(domain f, range f, f lessf 1, is_map f, is_map {1});
--
{1 2} {2 3 5} {[2 5]} true false
====
f := {[[1,2],'a'],[[1,3],'b']}; print(f(1, 2), f{1, 3}, #f);
--
a {'b'} 2
====
a := newat; print(a, a = newat, is_atom a, om = om, is_set om, om /= 1);
--
#1 false true true false true
====
print(false and om, true or om, false impl om, if 1 < 2 then 'a' else om + 1 end);
--
false true true a
====
s := {1}; x := 1; print({x in s}, {y in s | y = 2});
--
{true} {}
====
x := {1,2}; print({x + y : x in x, y in {x}}, [y * y : y in [3,1,2] | y > 1], x);
--
{2 4} [9 4] {1 2}
====
print({[x, y] in {[1,2],[2,1]} | x < y}, [x in [om,1] | x = om], [c : c in 'ab']);
--
{[1 2]} [] ['a' 'b']
====
print(exists x in {1,2,3} | x > 1, x, notexists x in {1} | x = 2, x);
--
true 2 true *
====
print(forall x in [1,2] | x < 2, x, forall x in {} | false, x);
--
false 2 true *
";

#[test]
fn operators_and_formers_give_their_values(rt: HostRuntime) -> Result<(), Fail> {
    expect(&rt, rt.alloc(), Status::Done, VALUES)?;
    Ok(())
}

/// Bodies of programs with updates, loops and procedures, and what they print.
const STATEMENTS: &str =
    "f := {}; f(1) := 2; f{3} := {4,5}; f(1) := om; print(f); f(3) := 6; print(f, f(3));
--
{[3 4] [3 5]}
{[3 6]} 6
====
f := {[1,[2]]}; f(1)(3) := 4; f(1)(1) +:= 3; f{2} with:= 'a'; print(f);
--
{[1 [5 * 4]] [2 'a']}
====
t := [1]; t(4) := 2; t(9) := om; print(t, #t); t(4) := om; print(t);
--
[1 * * 2] 4
[1]
====
s := {1}; t := s; s with:= 2; print(s, t);
--
{1 2} {1}
====
s := {1}; t := [s]; u := t; t(1) with:= 2; v := s; s less:= 1; print(s, t, u, v);
--
{} [{1 2}] [{1}] {1}
====
s := {2,1}; x from s; print(x, s); x from s; x from s; print(x, s);
--
1 {2}
* {}
====
f := {[1,[2,3,4]]}; x fromb f(1); y frome f(1); print(x, y, f);
--
2 4 {[1 [3]]}
====
[a, -, b, c] := [1, 2, 3]; print(a, b, c); [a, b] := [b, a]; print(a, b);
--
1 3 *
3 1
====
(for i in [1..5]) print(i); end for;
--
1
2
3
4
5
====
s := {1,2,3}; n := 0; (for x in s) s less:= x; n +:= 1; end for; print(s, n);
--
{} 3
====
t := [1,2]; (for x in t) t with:= x; end for; print(t);
--
[1 2 1 2]
====
(for x in [1..4], y in {x..3} | odd (x + y)) print(x, y); end for; print(x, y);
--
1 2
2 3
4 3
====
(for [x, -, y] in {[1,2,3],[4]}) print(x, y); end for;
--
1 3
4 *
====
f := {[1,2],[1,3],[2,5]}; (for y = f(x)) print(x, y); f := {}; end for;
--
1 *
2 5
====
t := [7,om,'a']; (for y = t(i)) print(i, y); end for; (for c in 'xy') print(c); end for;
--
1 7
2 *
3 a
x
y
====
(for i in {1..9223372036854775808}) if i > 2 then quit; end if; print(i); end for;
--
1
2
====
n := 0; (while true) n +:= 1; if odd n then continue; elseif n > 6 then quit; end if; print(n); end while; print('end', n);
--
2
4
6
end 8
====
(for x in [1,2]) (for y in [1..3]) if y = 2 then quit; end if; print(x, y); end for; end for; print(x, y);
--
1 1
2 1
2 2
====
if 1 > 2 then print(1); elseif 2 > 1 then print(2); else print(3); end if; stop; print(4);
--
2
====
n := 1; inc(n); print(n); proc inc(rw x); x +:= 1; end proc;
--
2
====
n := 5; x := f(n, m, 9); print(x, n, m); proc f(rw a, wr b, rd c); a +:= 1; b := [a, b]; c := 0; return c; end proc;
--
0 6 [6]
====
a := 1; b := 2; swap(a, b); print(a, b); proc swap(rw x, rw y); [x, y] := [y, x]; end proc;
--
2 1
====
f(2); print(z, g()); proc f(n); print(z); z := n; if n > 0 then f(n - 1); end if; print(z); end proc; proc g(); end proc;
--
*
*
*
0
1
2
* *
";

#[test]
fn statements_and_procedures_store_their_values(rt: HostRuntime) -> Result<(), Fail> {
    expect(&rt, rt.alloc(), Status::Done, STATEMENTS)?;
    Ok(())
}
