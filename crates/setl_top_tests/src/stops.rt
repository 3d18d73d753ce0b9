//! Programs that stop at an error of their own or for want of turns, and what they printed by then.

use crate::calls::expect;
use setl_top::Status;
use std::test::Fail;

/// Bodies of programs, what they print, and the line that tells the stop.
const STOPS: &str = "fail;
--
--
line 1: nothing to go back to
====

print(170141183460469231731687303715884105727);
print(170141183460469231731687303715884105727 + 1);
--
170141183460469231731687303715884105727
--
line 3: wide
====
x := -2 ** 127; print(x + 1);
print(-x);
--
-170141183460469231731687303715884105727
--
line 2: wide
====
v := [];
(for i in [1..500])
v := [v];
end for;
print(v);
--
--
line 3: deep
====
x := 1;
x := x +
  y;
--
--
line 2: om
====
x with:= 2;
--
--
line 1: om
====
x := 1; x with:= 2;
--
--
line 1: kind
====
print(1 + 'a');
--
--
line 1: kind
====
print(om + 'a');
--
--
line 1: om
====
print(true and 1);
--
--
line 1: kind
====
f := {1};
print(f(1));
--
--
line 2: kind
====
print(1);
print(2, 1 div 0);
--
1
--
line 2: zero
====
print([1,1..2]);
--
--
line 1: zero
====
t := [1];
t(0) := 2;
--
--
line 2: range
====
print('abc'(3..1));
--
--
line 1: range
====
print({1, om});
--
--
line 1: om
====
print({x : x in [om, 1]});
--
--
line 1: om
====
(for x in 5) end for;
--
--
line 1: kind
====
(for [x, y] in [[1,2], 3])
print(x, y);
end for;
--
1 2
--
line 1: kind
====
if false then pass;
elseif 1 then pass;
end if;
--
--
line 1: kind
====
x := true;
(while x)
print(x);
x := om;
end while;
--
true
--
line 2: om
====
(for x in {2,1})
print(x);
if x = 2 then
f(x);
end if;
end for;
proc f(n);
n := n(1);
end proc;
--
1
2
--
line 8: kind
====
x := pick([3,1]);
print(x);
fail;
proc pick(t);
(for y in t) if ok then return y; end if; end for;
fail;
end proc;
--
3
1
--
line 6: nothing to go back to
====
s := {1};
if ok then s with:= 2; succeed; print(s); else print('no'); end if;
fail;
--
{1 2}
--
line 3: nothing to go back to
====

succeed;
--
--
line 2: nothing to go back to
";

#[test]
fn a_stop_is_told_with_its_line(rt: HostRuntime) -> Result<(), Fail> {
    expect(&rt, rt.alloc(), Status::Stopped, STOPS)?;
    Ok(())
}

/// Bodies of programs that ask for more turns than there are, what they print, and what is told.
const SPENT: &str = "print(1); print(pow {1..63});
--
1
--
out of turns
====
print(35 npow {1..70});
--
--
out of turns
====
x := {1..9223372036854775808}; print(#x);
--
--
out of turns
====
print(9223372036854775808 * 'a');
--
--
out of turns
====
t := []; t(9223372036854775809) := om; print(t); t(9223372036854775809) := 1;
--
[]
--
out of turns
";

#[test]
fn too_few_turns_end_a_run(rt: HostRuntime) -> Result<(), Fail> {
    expect(&rt, rt.alloc(), Status::Spent, SPENT)?;
    Ok(())
}
