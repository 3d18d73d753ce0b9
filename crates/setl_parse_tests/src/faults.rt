//! Sources with faults.

/// Sources, and the places of their faults, a line each.
pub const FAULTS: &str = "program p; x := ; => 16
program p; f( := 1; end program; => 14
program p; (for x in s print(x); end for; end program; => 23
 => 0
x => 0
program ; => 8
program p end; => 10
program p; end program p => 24
program p; end program p; x => 26
program p; x = 1; end; => 13
program p; x + 1; end; => 15
program p; x := 1 end; => 18
program p; x := 1 + ; end; => 20
program p; x := (1 ; end; => 19
program p; x := {1, }; end; => 20
program p; x := [1 .. ]; end; => 22
program p; x := {[-, y] in s }; end; => 29
program p; x := {y : }; end; => 21
program p; x := {y : z }; end; => 23
program p; x := {y : z in s | }; end; => 30
program p; x := a = b = c; end; => 22
program p; x := if a then b end; end; => 28
program p; x := if a b; end; => 21
program p; x := exists 1; end; => 23
program p; x := exists y in s ; end; => 30
program p; x := f(1 .. 2, 3); end; => 24
program p; x := f(, 1); end; => 18
program p; x := s{}; end; => 18
program p; if a x := 1; end if; end; => 16
program p; if a then x := 1; else y := 2; elseif b then z := 3; end if; end; => 42
program p; if a then x := 1; end while; end; => 33
program p; if a then x := 1;  => 29
program p; (x := 1); end; => 12
program p; (while a) x := 1; end for; end; => 33
program p; (for x in s) end for end; => 32
program p; quit x; end; => 16
program p; return 1 2; end; => 20
program p; print x; end; => 17
program p; print(1, ); end; => 20
program p; print(1) end; => 20
program p; read(); end; => 16
program p; read(x, 1); end; => 19
program p; x from 1; end; => 18
program p; x from y + 1; end; => 20
program p; f() := 1; end; => 15
program p; f(1) + 1; end; => 18
program p; f(x ..) := 1; end; => 15
program p; [x, 1] := t; end; => 15
program p; [] := t; end; => 12
program p; [x] = t; end; => 15
program p; var ; end; => 15
program p; var x, 1; end; => 18
program p; x := 1; var y; end; => 19
program p; repr x ; end repr; end; => 18
program p; repr x : y; end repr; end; => 20
program p; repr x : set int; end repr; end; => 24
program p; repr x : smap(int) ; end repr; end; => 30
program p; repr base b : int end repr; end; => 29
program p; repr x : elmt int; end repr; end; => 25
program p; proc ; end; => 16
program p; proc f(x y); end; end; => 20
program p; proc f(x, ); end; end; => 21
program p; proc f; end x; end; => 23
program p; proc f; end proc f end; => 30
program p; proc f; end; x := 1; end; => 24
program p; 1 := x; end; => 11
program p; end p; => 15";
