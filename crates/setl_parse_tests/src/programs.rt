//! Programs that have each alternative of the grammar, and their canonical texts.

/// Programs, and how many variables, `repr` lines, statements and procedures each has, a line each.
pub const PROGRAMS: &str = "program p; print({3,1,2,1}, [1,om,2], 'it''s'); end program; => 0 0 1 0
program p; end; => 0 0 0 0
PROGRAM p; VAR x, y; var z; x(1){2} := 3; [y, -] := x; End Program p; => 3 0 2 0
program p; x with := 1; x less := 1; x lessf := 1; x npow := 1; x + := 1; x - := 1; x max := 1; x min := 1; x * := 1; x div := 1; x mod := 1; x ** := 1; end; => 0 0 12 0
program p; x from y; x fromb y(1){2, 3}; x frome y; f(); f(1, 2); f(1)(2) := 3; f{1}(2) +:= 3; quit; continue; fail; succeed; stop; pass; return; return 1; print(); print(1, 2); read(x); read(x, y); end; => 0 0 19 0
program p; if a then pass; end; if a then elseif b then quit; elseif c then else stop; end if; end; => 0 0 2 0
program p; (for x in s) end; (for x in s, [y, -] in t, z = f(x) | x > y) x from s; end for; (while true) continue; end while; end program; => 0 0 3 0
program p; repr base b; base c, d : int; x, y : local set(elmt b); f : sparse smap(int) mmap{general} remote set(integer); g : tuple(string); h : smap(boolean) atom; end repr; end; => 0 6 0 0
program p; repr end; f(); proc f; return; end proc f; procedure g(rd x, y, wr z, rw w); return x + y; end; proc h(); end procedure; end program p; => 0 0 1 3
program p; x := exists y in s | y; x := forall y in s | y; x := notexists y in s, [z, -] in t, w = f(z) | y; end; => 0 0 3 0
program p; x := a impl b or c and not d; x := a = b; x := a /= b; x := a < b; x := a <= b; x := a > b; x := a >= b; x := a in b; x := a notin b; x := a subset b; x := a incs b; end; => 0 0 11 0
program p; x := a with b less c lessf d npow e + f - g max h min i * j div k mod l ** m; x := - # abs even odd pow domain range arb str a; x := is_integer is_string is_boolean is_atom is_tuple is_set is_map a; x := +/ */ max/ min/ and/ or/ a; end; => 0 0 4 0
program p; x := f() + f(1, 2)(3)(1 .. 2)(1 ..){1, 2}; x := [1, 'a', om, true, false, newat, eof, ok, y, (1), if a then b else c end]; end; => 0 0 2 0
program p; x := {}; x := []; x := {1 .. 2}; x := [1, 3 .. 9]; x := {y : y in s}; x := [y : y in s | y > 1]; x := {y in s | y > 1}; x := [[y, -] in s | y]; end; => 0 0 8 0";

/// Programs, and behind each its canonical text, written by hand from the grammar. A line `====` stands between two
/// rows.
pub const SHOWN: &str = "PROGRAM p; x := a+b*2; print({3,1},[1,om],'it''s'); END; => program p ;
x := a + ( b * 2 ) ;
print ( { 3 , 1 } , [ 1 , om ] , 'it''s' ) ;
end program ;
====
program p; (for x in -s, y = f(x) | x /= om) p(x){1} +:= (f(x))(y); end; end program p; => program p ;
( for x in ( - s ) , y = f ( x ) | x /= om ) p ( x ) { 1 } + := ( f ( x ) ) ( y ) ;
end for ;
end program p ;
====
program p; var a; repr base b: integer; a: local set(elmt b); end; if ok then fail; else q(1); end; procedure q(z); return -z; end; end; => program p ;
var a ;
repr base b : int ;
a : local set ( elmt b ) ;
end repr ;
if ok then fail ;
else q ( 1 ) ;
end if ;
proc q ( rd z ) ;
return - z ;
end proc ;
end program ;
";
