//! Advice for programs without declarations, and what stands in the outputs where advice isn't written whole.

use crate::calls::{Faults, NO_FAULTS, answer, call, expect_calls};
use crate::faults::expect_faults;
use setl_top::Status;
use std::test::Fail;

/// What is reached in a graph.
const REACH: &str = "program reach;
g := {[1,2],[2,3],[4,1]};
seen := {}; todo := [1];
(while todo /= [])
  x fromb todo;
  if x notin seen then
    seen with:= x;
    (for y in g{x}) todo with:= y; end for;
  end if;
end while;
print(seen);
end program;";

/// The advice for it.
const REACH_ADVISED: &str = "repr
base b1: int;
g: sparse mmap{elmt b1} sparse set(elmt b1);
seen: remote set(elmt b1);
todo: tuple(elmt b1);
x: int;
y: int;
end repr;
";

/// Words, programs without declarations, and the advice for each: with what is read; with nothing to declare; with an empty
/// section; with names that bases would have; with names in `var`, which come first; with two bases and a map of strings.
const ADVISED: &str = "advise a
--
program p; read(x); s := {1}; s with:= x; t := {'a'}; print(s); end program;
--
repr
base b1: string;
s: set(general);
t: remote set(elmt b1);
end repr;
====
advise a
--
program p; print(1); end program;
--
repr
end repr;
====
advise a
--
program p; repr end repr; x := 1; print(x); end program;
--
repr
x: int;
end repr;
====
advise a
--
program b2; B1 := 1; s := {b1}; print(s); end program;
--
repr
base b3: int;
b1: int;
s: remote set(elmt b3);
end repr;
====
advise a
--
program p; var t, u; x := {true}; t := x; print(t); end program;
--
repr
t: set(boolean);
x: set(boolean);
end repr;
====
advise a
--
program p; n := [1]; n(1) := 2; f := {['a', 1]}; f('b') := n(1); print(f, newat); end program;
--
repr
base b1: int;
base b2: string;
n: tuple(elmt b1);
f: sparse mmap{elmt b2} sparse set(elmt b1);
end repr;
";

#[test]
fn declarations_are_advised(rt: HostRuntime) -> Result<(), Fail> {
    let left = answer(rt.alloc(), "advise a", REACH)?;
    assert!(rt; left.is(Status::Done, REACH_ADVISED, ""));
    expect_calls(&rt, rt.alloc(), Status::Done, ADVISED)?;
    Ok(())
}

/// Where the advice for `REACH` belongs.
const FRONT: &str = "program reach;
";

#[test]
fn a_program_runs_with_its_advice(rt: HostRuntime) -> Result<(), Fail> {
    let alloc = rt.alloc();
    let rest = REACH.strip_prefix(FRONT).unwrap_or("");
    let whole = format!(in alloc; "{FRONT}{REACH_ADVISED}{rest}")?;
    let left = answer(alloc, "run a", whole.as_str())?;
    assert!(rt; left.is(Status::Done, "{1 2 3}\n", ""));
    Ok(())
}

/// Words, sources for which nothing is advised, and what is told: programs with declarations, and sources that are none.
const REFUSED: &str = "advise a
--
program p;
repr base n: int; s: sparse set(elmt n); end repr;
s := {1}; print(s);
s with:= 'a'; print(s);
end program;
--
--
line 2: has repr
====
advise a
--
program p;
repr

  base n; end repr;
end program;
--
--
line 4: has repr
====
advise a
--
program p;
quit;
end program;
--
--
line 2: rule 13
====
advise a
--
program p;
repr base n: elmt m; end repr;
end program;
--
--
line 2: rule 21
====
advise a
--
x
--
--
at 0: syntax
";

#[test]
fn what_has_declarations_is_refused(rt: HostRuntime) -> Result<(), Fail> {
    expect_calls(&rt, rt.alloc(), Status::Refused, REFUSED)?;
    Ok(())
}

#[test]
fn an_output_may_take_advice_by_single_bytes(rt: HostRuntime) -> Result<(), Fail> {
    let faults = Faults {
        most: 1,
        ..NO_FAULTS
    };
    let left = call(rt.alloc(), "advise a", REACH.as_bytes(), faults)?;
    assert!(rt; left.is(Status::Done, REACH_ADVISED, ""));
    Ok(())
}

/// Faults, words, what is written and told, and sources other than `REACH`.
const BROKEN_OFF: &str = "0 1 99 0 6
--
advise a
--
--
write fault
====
0 3 7 0 6
--
advise a
--
repr
base b1: ~
--
write fault
====
0 3 7 1 6
--
advise a
--
repr
base b1: ~
====
1 0 99 0 5
--
advise a
--
--
read fault
====
0 0 99 0 5
--
advise b
--
--
read fault
====
0 0 99 1 6
--
advise a
--
--
write fault
--
program p; repr base n; end repr; end program;
====
0 1 99 0 1
--
advise a
--
--
line 1: has repr
--
program p; repr base n; end repr; end program;
";

#[test]
fn advice_that_is_not_written_whole(rt: HostRuntime) -> Result<(), Fail> {
    expect_faults(&rt, rt.alloc(), REACH, BROKEN_OFF)?;
    Ok(())
}
