//! What the page of errors says of each fault of a source and of each stop. Made by `.ci/explanations`.
ghost use Rattle.std.specs.Prelude.{◌≡◌};
ghost use Rattle.setl_explain_words.specs.Texts as texts;

use crate::fault::SourceFault;
use crate::stop::Stop;

/// Why a source without a tree is refused, and what to write instead, in lines.
pub fn fault_text(fault: SourceFault) -> &'static [u8]
    ensures { result.now ≡ texts.fault_text fault }
{
    match fault {
        SourceFault::TooLong => {
            b"The file has more than 2^24 bytes, which is 16 MiB.
Instead: A shorter program. Data belongs into the input, which has no such limit, and a `read` takes
it.
"
        }
        SourceFault::Byte => {
            b"The byte at this place begins no word, number, string, sign, blank or comment. It is a sign that the
language lacks (`\"`, `!`, `&`, `%`, `?`, `@`, `.` alone, `_` in front of a name), or a letter with
an accent or a slanted quote outside of strings and comments.
Instead: The sign of this language: `/=` for 'not equal', `'a'` for a string, `$` for a comment.
Names have letters from a to z, digits and, behind the first letter, `_`.
"
        }
        SourceFault::OpenString => {
            b"The string whose opening apostrophe stands at this place has no closing one on its line.
Instead: Two apostrophes where one is meant inside a string: `'it''s so'`. A string of several lines
doesn't exist: one `print` for each line.
"
        }
        SourceFault::WideNumber => {
            b"The number whose first digit stands at this place is above 2^127 - 1.
Instead: A string or a tuple of parts, if so many digits are needed. The least integer is written
`-170141183460469231731687303715884105727 - 1`.
"
        }
        SourceFault::Syntax => {
            b"The token at this place can't stand there: with it the source so far is the beginning of no program.
What is wrong often stands just before it. At the end of the file, something is still open there.
Instead: Look for a missing `;`, `)`, `then` or `end` before the place (as the `;` behind `x := 1`),
for `=` in place of `:=`, and for a reserved word that was taken for a name (`set`, `range`,
`string`, `max`, `from`, `base`, ..). A loop begins with `(`, as `(for x in s) .. end for;`, and has
neither `do` nor `loop`.
"
        }
        SourceFault::Nesting => {
            b"The token at this place opens the 201st construct inside 200 that are still open: brackets, `if`,
loops, quantifiers, modes.
Instead: A variable for an inner part, or a procedure. Long chains, as `a + b + c`, are no nesting.
"
        }
    }
}

/// What the rule of this number asks for, and what to write instead, in lines; nothing for a number that no rule has.
pub fn rule_text(rule: u8) -> &'static [u8]
    ensures { result.now ≡ texts.rule_text rule }
{
    match rule {
        1 => {
            b"The name behind `end program` isn't the program's.
Instead: The same name, or none: `end program;`.
"
        }
        2 => {
            b"The name behind `end proc` isn't that procedure's.
Instead: The same name, or none: `end proc;`.
"
        }
        3 => {
            b"Two procedures have the same name. There is one for each name, whatever its parameters are.
Instead: Another name for one of them, as `area_of_square`.
"
        }
        4 => {
            b"A procedure has the program's name.
Instead: Another name for the program or for the procedure.
"
        }
        5 => {
            b"A name stands twice in `var`.
Instead: Each name once. A `var` makes it one variable for the main program and all procedures.
"
        }
        6 => {
            b"A name in `var` is a procedure's.
Instead: Another name for one of them.
"
        }
        7 => {
            b"A parameter stands twice in one list.
Instead: A name for each parameter.
"
        }
        8 => {
            b"A parameter has a procedure's name.
Instead: Another name for the parameter.
"
        }
        9 => {
            b"A procedure's name stands where only a variable may: without a list of arguments, as a target, as a
bound name, or as the map of `y = f(x)`.
Instead: A call has its parentheses, also where they are empty: `x := area();`. A procedure is no
value: what is to be handed on is a map, or a name by which an `if` chooses the call.
"
        }
        10 => {
            b"A call has too many arguments or too few.
Instead: As many arguments as parameters. What may be missing is handed in as `om`: `area(3, om)`,
and the procedure tests `b = om`.
"
        }
        11 => {
            b"An argument for a `wr` or `rw` parameter isn't a variable's name.
Instead: A variable, and around the call an assignment each: `u := t(1); grow(u); t(1) := u;`.
"
        }
        12 => {
            b"A statement calls what is no procedure, or empty parentheses stand behind what is none.
Instead: The name as the procedure has it. Input and output are `read` and `print`; there are no
others. In an expression `f(x)` without a procedure `f` breaks no rule, since it selects from a
variable `f`; a run stops there with `om`.
"
        }
        13 => {
            b"`quit` or `continue` stands outside every loop. A loop around the call doesn't count.
Instead: In a procedure `return`, with a value that the loop tests; in the main program `stop`,
which ends the run.
"
        }
        14 => {
            b"`return` stands in the main program.
Instead: `stop;`, which ends the run with status 0.
"
        }
        15 => {
            b"One list of iterators binds a name twice.
Instead: A name for each iterator: `(for x in {1, 2}, y in {3, 4})`.
"
        }
        16 => {
            b"Inside a former, a name that the former binds is bound by a quantifier, or handed to a `wr` or `rw`
parameter.
Instead: Another name inside: `{x : x in s | exists y in x | y = 2}`.
"
        }
        17 => {
            b"A name stands twice in a tuple target.
Instead: A name once, and `-` for a component that isn't wanted: `[-, a] := [1, 2];`.
"
        }
        18 => {
            b"One call hands the same variable to two `wr` or `rw` parameters.
Instead: Two variables.
"
        }
        19 => {
            b"A base is declared twice.
Instead: Each base once.
"
        }
        20 => {
            b"A base's name is a procedure's, a parameter's or a variable's too.
Instead: Another name for the base, as `towns`. Statements never name a base.
"
        }
        21 => {
            b"An `elmt` names no base of an earlier line.
Instead: The line with `base` comes first.
"
        }
        22 => {
            b"The mode of a base has an `elmt`, `local`, `remote` or `sparse` in it.
Instead: A mode of plain values: `base road: tuple(string);`.
"
        }
        23 => {
            b"A variable is declared twice.
Instead: One declaration. `general` takes values of all kinds.
"
        }
        24 => {
            b"A declared name is no variable of the main program and none in `var`: it stands nowhere in the
statements, or it is a procedure.
Instead: The name as the statements have it. Variables of a procedure aren't declared, unless they
stand in `var`.
"
        }
        25 => {
            b"`local` stands elsewhere than as the first word of a variable's mode.
Instead: `sparse` or `remote` inside, or no word: `road: local mmap{elmt town} sparse set(elmt
town);`.
"
        }
        26 => {
            b"`local`, `remote` or `sparse` stands before something else than a `set`, `smap` or `mmap` on an
`elmt`.
Instead: No such word, `s: set(int);`, or a base: `base number: int; s: sparse set(elmt number);`.
"
        }
        27 => {
            b"An `elmt` stands inside a `set`, `smap` or `mmap` whose first mode is no `elmt`, or deeper in a
`tuple` than as its whole mode.
Instead: The plain mode inside: `groups: set(set(string));`.
"
        }
        28 => {
            b"The second mode of an `mmap` is no `set`.
Instead: The set of the images, `mmap{elmt town} set(elmt town)`, or an `smap`, where each argument
has one image.
"
        }
        _ => b"",
    }
}

/// What a stop means, with an example, and what to write instead, in lines.
pub fn stop_text(stop: Stop) -> &'static [u8]
    ensures { result.now ≡ texts.stop_text stop }
{
    match stop {
        Stop::Om => {
            b"om: A value is missing where one is needed. It comes from a variable without a value, also one whose
name was mistyped; a place past the end of a tuple or string; a map without that argument, or with
several images of it; an `arb` or `max/` of an empty set; the end of the input; a procedure without
`return e`.

    program missing_value;
    age := {['Anna', 31]};
    (for name in ['Anna', 'Ben'])
      print(name, age(name) + 1);
    end for;
    end program;

writes

    Anna 32

and tells

    line 4: om

Instead: A test before it: `if age(name) = om then .. end if;`. `=`, `/=`, the tests `is_..`,
`print`, `:=`, tuples and arguments take `om`. RECIPES.md says how to find where it came from.
"
        }
        Stop::Kind => {
            b"kind: An operator has a value of a kind that it doesn't take: a string in a sum with an integer, a
set that is no map before `( )`, a condition that is no truth value, an iterated value that is no
set, tuple or string.

    program kind;
    n := 3;
    print('n is ' + n);
    end program;

tells

    line 3: kind

Instead: `'n is ' + str n`, or `print('n is', n)`. `is_integer`, `is_string`, `is_set` and their
like test a value. A tuple isn't less or greater than another; a string has no `in`.
"
        }
        Stop::Zero => {
            b"zero: A division by 0, by `div` or `mod`, or a range whose step is 0, as `[1, 1..5]`.

    program zero;
    persons := {};
    print(100 div #persons);
    end program;

tells

    line 3: zero

Instead: A test before it: `if persons /= {} then .. end if;`.
"
        }
        Stop::Range => {
            b"range: A place or a number is out of range: a place below 1 in a tuple or string, the bounds of a
part `t(i..j)` past the end, a negative exponent, a negative number of copies or of members of a
subset.

    program range_of_places;
    t := [10, 20, 30];
    print(t(0));
    end program;

tells

    line 3: range

Instead: Places are counted from 1, so the first is `t(1)` and the last `t(#t)`. A part needs 1 <= i
<= j + 1 and j <= #t; `t(i..j min #t)` cuts it off at the end.
"
        }
        Stop::Wide => {
            b"wide: An integer leaves 128 bits: it isn't from -2^127 to 2^127 - 1. In a `read` it is an integer of
the input.

    program wide;
    print(2 ** 126 + (2 ** 126 - 1));
    print(2 ** 127);
    end program;

writes

    170141183460469231731687303715884105727

and tells

    line 3: wide

Instead: Smaller numbers, as remainders by `mod` between the steps, or tuples of digits.
"
        }
        Stop::Deep => {
            b"deep: A value has more than 500 sets or tuples inside one another.

    program deep;
    list := [];
    (for i in [1..1000])
      list := [i, list];
    end for;
    end program;

tells

    line 4: deep

Instead: A flat form: `list with:= i;` makes a tuple with i at its end. A tree of many levels is a
map from numbers to nodes.
"
        }
        Stop::Form => {
            b"form: The input holds no value where a `read` stands: bare words, fractions, a bracket or a string
that isn't closed.

    program form;
    read(name);
    print('hello', name);
    end program;

with the input

    Anna

tells

    line 2: form

Instead: Strings of the input stand between apostrophes, as in `'Anna'`. RECIPES.md makes such
strings of the lines of a text.
"
        }
        Stop::Nothing => {
            b"nothing to go back to: A `fail` was met, and no `ok` is left that it could go back to; or a
`succeed`, and none is left that it could forget.

    program nothing;
    x := 3;
    if notexists y in {1, 2} | y > x then
      fail;
    end if;
    end program;

tells

    line 4: nothing to go back to

Instead: Around the search `if ok then .. else .. end if;`: when all choices failed, this `ok` is
false and the `else` part runs. A `succeed` stands where its `ok` is still remembered. To end a run
use `stop;`.
"
        }
        Stop::Value => {
            b"value does not fit NAME: A value was to be stored in the declared variable NAME, and its mode
doesn't take it. The variable keeps its old value.

    program unfit;
    repr
      age: smap(string) int;
    end repr;
    age := {};
    age('Anna') := 31;
    age('Ben') := 'thirty';
    end program;

tells

    line 7: value does not fit age

Instead: A value that fits, or a wider mode: `smap(string) general`. In an `smap` each argument has
one image; an `mmap` takes several. `setl run --unbased FILE` leaves declarations out of account.
"
        }
    }
}
