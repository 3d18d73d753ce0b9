//! Listings of programs, and what stands in the outputs where a listing isn't written whole.

use crate::calls::{Faults, NO_FAULTS, answer, call, expect_calls};
use crate::faults::expect_faults;
use setl_top::Status;
use std::test::Fail;

/// A program with a statement of each kind.
const EACH: &str = "program each;
read(n);
[a, -] := s;
g(1){2} := n;
g with:= a;
x frome g(1);
p();
if ok then pass; succeed; else fail; end if;
(for i in [1..n] | i /= 3) if i = 2 then continue; end if; quit; end for;
(while n > 0) n -:= 1; end while;
print(n, om);
stop;
proc p(); return 1; end proc;
end program;";

/// Its listing, worked out by hand from the definition of the code of a program.
const LISTED: &str = "main:
0 read
1 store n
2 take s
3 parts 2
4 store a
5 drop
6 load n
7 int 1
8 int 2
9 put g () {}
10 take a
11 with g
12 int 1
13 frome g ()
14 store x
15 call p
16 drop
17 ok
18 unless 21
19 succeed
20 jump 22
21 fail
22 int 1
23 load n
24 begin range
25 next 40
26 store i
27 load i
28 int 3
29 /=
30 unless 25
31 take i
32 int 2
33 =
34 unless 37
35 jump 25
36 jump 37
37 leave 1
38 jump 40
39 jump 25
40 load n
41 int 0
42 >
43 unless 48
44 round
45 int 1
46 - n
47 jump 40
48 take n
49 om
50 print 2
51 stop
52 stop
proc p:
0 int 1
1 return
2 om
3 return
";

#[test]
fn each_kind_of_statement_is_listed(rt: HostRuntime) -> Result<(), Fail> {
    let left = answer(rt.alloc(), "code a", EACH)?;
    assert!(rt; left.is(Status::Done, LISTED, ""));
    Ok(())
}

/// Words, programs, and the listing of each.
const TAKEN: &str = "code a
--
program p; x := 1; print(x); end program;
--
main:
0 int 1
1 store x
2 take x
3 print 1
4 stop
====
code a
--
program q; proc p(a); b := a; b with:= 1; return b; end proc; end program;
--
main:
0 stop
proc p:
0 take a
1 store b
2 int 1
3 with b
4 take b
5 return
6 om
7 return
====
code a
--
program p; s := {1}; (while true) t := s; print(t); end while; end program;
--
main:
0 int 1
1 set 1
2 store s
3 true
4 unless 11
5 round
6 load s
7 store t
8 take t
9 print 1
10 jump 3
11 stop
====
code a
--
program p; x := {}; g(x, 1); print(x); proc g(rw s, i); s with:= i; t := s; end proc; end program;
--
main:
0 set 0
1 store x
2 take x
3 int 1
4 call g
5 store x
6 drop
7 take x
8 print 1
9 stop
proc g:
0 take i
1 with s
2 load s
3 store t
4 om
5 return
====
code a
--
program p; var x; repr y: int; end repr; x := 1; y := x; print(y); end program;
--
main:
0 int 1
1 store x
2 load x
3 store y
4 load y
5 print 1
6 stop
";

/// A value is taken at its last use: not where a loop leads back to a read, where a parameter is handed back, or where a
/// variable stands in `var` or is declared.
#[test]
fn values_are_taken_at_their_last_use(rt: HostRuntime) -> Result<(), Fail> {
    expect_calls(&rt, rt.alloc(), Status::Done, TAKEN)?;
    Ok(())
}

#[test]
fn an_output_may_take_a_byte_a_call(rt: HostRuntime) -> Result<(), Fail> {
    let faults = Faults {
        most: 1,
        ..NO_FAULTS
    };
    let left = call(rt.alloc(), "code a", EACH.as_bytes(), faults)?;
    assert!(rt; left.is(Status::Done, LISTED, ""));
    Ok(())
}

/// Faults, words, what is written and told, and sources other than `EACH`.
const BROKEN_OFF: &str = "0 1 99 0 6
--
code a
--
--
write fault
====
0 3 7 0 6
--
code a
--
main:
0 read
1~
--
write fault
====
0 3 7 1 6
--
code a
--
main:
0 read
1~
====
0 0 99 0 5
--
code b
--
--
read fault
====
0 0 99 0 1
--
code a
--
--
line 2: rule 13
--
program p;
quit;
end program;
====
0 0 99 0 1
--
code a
--
--
line 2: rule 21
--
program p;
repr base n: elmt m; end repr;
end program;
";

#[test]
fn listings_that_are_not_written_whole(rt: HostRuntime) -> Result<(), Fail> {
    expect_faults(&rt, rt.alloc(), EACH, BROKEN_OFF)?;
    Ok(())
}
