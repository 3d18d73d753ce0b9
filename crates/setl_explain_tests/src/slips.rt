//! Slips of beginners, and what is told of them.

/// Sources, and behind a line `--` how the explanation of each begins.
pub const SLIPS: &str = "program p;
print('it's so');
end program;
--
line 2, column 15
    print('it's so');
                  ^
The string whose opening
====
program p;
m := {1 -> 2};
end program;
--
line 2, column 10
    m := {1 -> 2};
             ^
Here can stand (at most ten are told): a name, a number, a string, `(`, `[`, `{`, `if`, `+`, `-`, `*`
Still open at this place:
    `program` of line 1
    `{` of line 2
The token at this place 
====
program p;
print 'hello';
end program;
--
line 2, column 7
    print 'hello';
          ^
Here can stand (at most ten are told): `(`
Still open at this place:
    `program` of line 1
The token at this place 
====
program p;
x : 3;
end program;
--
line 2, column 3
    x : 3;
      ^
Here can stand (at most ten are told): `:=`, `(`, `{`, `+`, `-`, `*`, `div`, `mod`, `**`, `with`
Still open at this place:
    `program` of line 1
The token at this place 
====
program p;
x := 1,
y := 2;
end program;
--
line 2, column 7
    x := 1,
          ^
Here can stand (at most ten are told): `;`, `(`, `{`, `=`, `/=`, `<`, `<=`, `>`, `>=`, `+`
Still open at this place:
    `program` of line 1
The token at this place 
====
program p;
# a comment
x := 1;
end program;
--
line 2, column 1
    # a comment
    ^
Here can stand (at most ten are told): `end`, a name, `(`, `[`, `if`, `print`, `read`, `return`, `proc`, `var`
Still open at this place:
    `program` of line 1
The token at this place 
====
program p;
x := 1; // one
end program;
--
line 2, column 9
    x := 1; // one
            ^
Here can stand (at most ten are told): `end`, a name, `(`, `[`, `if`, `print`, `read`, `return`, `proc`, `quit`
Still open at this place:
    `program` of line 1
The token at this place 
====
program p;
def f(x);
  return x;
end;
end program;
--
line 2, column 5
    def f(x);
        ^
Here can stand (at most ten are told): `:=`, `(`, `{`, `+`, `-`, `*`, `div`, `mod`, `**`, `with`
Still open at this place:
    `program` of line 1
The token at this place 
====
program p;
for x in [1..3] do
  print(x);
end;
end program;
--
line 2, column 1
    for x in [1..3] do
    ^
Here can stand (at most ten are told): `end`, a name, `(`, `[`, `if`, `print`, `read`, `return`, `proc`, `var`
Still open at this place:
    `program` of line 1
The token at this place 
====
program p;
x := 1; $ done
--
line 3, column 1
    
    ^
Here can stand (at most ten are told): `end`, a name, `(`, `[`, `if`, `print`, `read`, `return`, `proc`, `quit`
Still open at this place:
    `program` of line 1
The token at this place 
====
program p;
x := 1;
if x == 1 then print(x); end if;
end program;
--
line 3, column 7
    if x == 1 then print(x); end if;
          ^
Here can stand (at most ten are told): a name, a number, a string, `(`, `[`, `{`, `if`, `+`, `-`, `*`
Still open at this place:
    `program` of line 1
    `if` of line 3
The token at this place 
====
program p;
print(\"hello\");
end program;
--
line 2, column 7
    print(\"hello\");
          ^
The byte at this place b
====
program p;
repr
  seen: set(elmt town);
end;
seen := {};
end program;
--
line 3, column 18
      seen: set(elmt town);
                     ^
An `elmt` names no base of an earlier line.
====
program p;
x := 1;
if x = 1 then
  print(1);
else if x = 2 then
  print(2);
end if;
end program;
--
line 8, column 5
    end program;
        ^
Here can stand (at most ten are told): `;`, `if`
Still open at this place:
    `program` of line 1
    `if` of line 3
The token at this place 
====
program p;
s := {1, 2];
end program;
--
line 2, column 11
    s := {1, 2];
              ^
Here can stand (at most ten are told): `}`, `,`, `..`, `(`, `{`, `=`, `/=`, `<`, `<=`, `>`
Still open at this place:
    `program` of line 1
    `{` of line 2
The token at this place 
====
program p;
x = 1;
end program;
--
line 2, column 3
    x = 1;
      ^
Here can stand (at most ten are told): `:=`, `(`, `{`, `+`, `-`, `*`, `div`, `mod`, `**`, `with`
Still open at this place:
    `program` of line 1
The token at this place 
====
program p;
s := {x | x in {1..9} : x > 3};
end program;
--
line 2, column 9
    s := {x | x in {1..9} : x > 3};
            ^
Here can stand (at most ten are told): `}`, `,`, `:`, `..`, `(`, `{`, `=`, `/=`, `<`, `<=`
Still open at this place:
    `program` of line 1
    `{` of line 2
The token at this place 
====
program p;
x := (if 1 = 1 then 2 else 3 end] + 1;
end program;
--
line 2, column 33
    x := (if 1 = 1 then 2 else 3 end] + 1;
                                    ^
Here can stand (at most ten are told): `)`, `(`, `{`, `=`, `/=`, `<`, `<=`, `>`, `>=`, `+`
Still open at this place:
    `program` of line 1
    `(` of line 2
    `if` of line 2
The token at this place 
====
program p;
x := 1;
x++;
end program;
--
line 3, column 3
    x++;
      ^
Here can stand (at most ten are told): `:=`
Still open at this place:
    `program` of line 1
The token at this place 
====
program p;
print((1 + 2);
end program;
--
line 2, column 14
    print((1 + 2);
                 ^
Here can stand (at most ten are told): `)`, `,`, `(`, `{`, `=`, `/=`, `<`, `<=`, `>`, `>=`
Still open at this place:
    `program` of line 1
    `(` of line 2
The token at this place 
====
program p;
x := 3;
if x > 2 then
  print(x);
end program;
--
line 5, column 5
    end program;
        ^
Here can stand (at most ten are told): `;`, `if`
Still open at this place:
    `program` of line 1
    `if` of line 3
The token at this place 
====
program p;
print(twice(2));
proc twice(n);
  return 2 * n;
end program;
--
line 5, column 5
    end program;
        ^
Here can stand (at most ten are told): `;`, `proc`, `procedure`
Still open at this place:
    `program` of line 1
    `proc` of line 3
The token at this place 
====
program p;
print('hello');
--
line 3, column 1
    
    ^
Here can stand (at most ten are told): `end`, a name, `(`, `[`, `if`, `print`, `read`, `return`, `proc`, `quit`
Still open at this place:
    `program` of line 1
The token at this place 
====
program p;
x := 1
print(x);
end program;
--
line 3, column 1
    print(x);
    ^
Here can stand (at most ten are told): `;`, `(`, `{`, `=`, `/=`, `<`, `<=`, `>`, `>=`, `+`
Still open at this place:
    `program` of line 1
The token at this place 
====
program p
x := 1;
end program;
--
line 2, column 1
    x := 1;
    ^
Here can stand (at most ten are told): `;`
Still open at this place:
    `program` of line 1
The token at this place 
====
program p;
x := 1;
if x = 1
  print(x);
end if;
end program;
--
line 4, column 3
      print(x);
      ^
Here can stand (at most ten are told): `then`, `(`, `{`, `+`, `-`, `*`, `div`, `mod`, `**`, `and`
Still open at this place:
    `program` of line 1
    `if` of line 3
The token at this place 
====
program p;
pritn('hello');
end program;
--
line 2, column 1
    pritn('hello');
    ^
A statement calls what is no procedure, or empty parentheses stand behind what is none.
====
program p;
(for x in [1..3])
  if x = 2 then
    print(x);
end for;
end program;
--
line 5, column 5
    end for;
        ^
Here can stand (at most ten are told): `;`, `if`
Still open at this place:
    `program` of line 1
    `for` of line 2
    `if` of line 3
The token at this place 
====
x := 1;
print(x);
--
line 1, column 1
    x := 1;
    ^
Here can stand (at most ten are told): `program`
The token at this place 
====
program p;
x := 1;
if x != 2 then print(x); end if;
end program;
--
line 3, column 6
    if x != 2 then print(x); end if;
         ^
The byte at this place b
====
program p;
print('hello);
end program;
--
line 2, column 7
    print('hello);
          ^
The string whose opening
====
program p;
print(7 % 3);
end program;
--
line 2, column 9
    print(7 % 3);
            ^
The byte at this place b
====
program p;
x := 1;
x += 1;
end program;
--
line 3, column 4
    x += 1;
       ^
Here can stand (at most ten are told): `:=`
Still open at this place:
    `program` of line 1
The token at this place 
====
program p;
proc f(x);
  return x;
end proc;
print(f(1));
end program;
--
line 5, column 1
    print(f(1));
    ^
Here can stand (at most ten are told): `end`, `proc`, `procedure`
Still open at this place:
    `program` of line 1
The token at this place 
====
program p;
x := area;
proc area(); return 12; end proc;
end program;
--
line 2, column 6
    x := area;
         ^
A procedure's name stands where only a variable may: without a list of arguments, as a target, as a
====
program p;
if 1 = 1 then quit; end if;
end program;
--
line 2, column 15
    if 1 = 1 then quit; end if;
                  ^
`quit` or `continue` stands outside every loop. A loop around the call doesn't count.
====
program p;
x := 1.5;
end program;
--
line 2, column 7
    x := 1.5;
          ^
The byte at this place b
====
program p;
range := 3;
end program;
--
line 2, column 1
    range := 3;
    ^
Here can stand (at most ten are told): `end`, a name, `(`, `[`, `if`, `print`, `read`, `return`, `proc`, `var`
Still open at this place:
    `program` of line 1
The token at this place 
====
program p;
set := {1, 2};
end program;
--
line 2, column 1
    set := {1, 2};
    ^
Here can stand (at most ten are told): `end`, a name, `(`, `[`, `if`, `print`, `read`, `return`, `proc`, `var`
Still open at this place:
    `program` of line 1
The token at this place 
====
program p;
print(1);
return;
end program;
--
line 3, column 1
    return;
    ^
`return` stands in the main program.
====
program p;
\tx := 'äöü' 3;
end program;
--
line 2, column 16
    \tx := 'äöü' 3;
    \t           ^
Here can stand (at most ten are told): `;`, `(`, `{`, `=`, `/=`, `<`, `<=`, `>`, `>=`, `+`
Still open at this place:
    `program` of line 1
The token at this place 
====
program p;
print(area(3));
proc area(a, b); return a * b; end proc;
end program;
--
line 2, column 7
    print(area(3));
          ^
A call has too many arguments or too few.
====
program p;
s := {1, 2, };
end program;
--
line 2, column 13
    s := {1, 2, };
                ^
Here can stand (at most ten are told): a name, a number, a string, `(`, `[`, `{`, `if`, `+`, `-`, `*`
Still open at this place:
    `program` of line 1
    `{` of line 2
The token at this place 
====
program p;
größe := 3;
end program;
--
line 2, column 3
    größe := 3;
      ^
The byte at this place b
====
program p;
x := 1;
var y;
end program;
--
line 3, column 1
    var y;
    ^
Here can stand (at most ten are told): `end`, a name, `(`, `[`, `if`, `print`, `read`, `return`, `proc`, `quit`
Still open at this place:
    `program` of line 1
The token at this place 
====
program p;
n := 0;
while n < 3 do
  n +:= 1;
end while;
end program;
--
line 3, column 1
    while n < 3 do
    ^
Here can stand (at most ten are told): `end`, a name, `(`, `[`, `if`, `print`, `read`, `return`, `proc`, `quit`
Still open at this place:
    `program` of line 1
The token at this place 
====
program p;
x := 1;
(while x < 3)
  x +:= 1;
end if;
end program;
--
line 5, column 5
    end if;
        ^
Here can stand (at most ten are told): `;`, `while`
Still open at this place:
    `program` of line 1
    `while` of line 3
The token at this place 
";
