//! Each call of the output, and each of the input, fails in turn, over programs that search, go back, loop and read; and
//! sources and inputs are cut after each byte.

use crate::calls::{Faults, Left, NO_FAULTS, call, call_on, call_with};
use crate::rows::{BETWEEN, fields, text};
use setl_io::MemSource;
use setl_top::Status;
use std::alloc::{AllocError, Global};
use std::process::Abort;
use std::test::Fail;

/// Sources, and what they print. The last six are programs of `examples/`.
const SOURCES: &str = "program p; print({3,1,2,1}, [1,om,2], 'it''s'); end program;
--
{1 2 3} [1 * 2] it's
====
program p;
repr base b: int; s: local set(elmt b); end repr;
s := {1};
if ok then s with:= 2; print(s); fail; else print(s); end if;
end program;
--
{1 2}
{1}
====
program q;
x := p(); print(x); if x = 1 then fail; end if;
proc p(); if ok then return 1; else return 2; end if; end proc;
end program;
--
1
2
====
program reach;
repr base n: int; g: local mmap{elmt n} remote set(elmt n);
seen: local set(elmt n); end repr;
g := {[1,2],[2,3],[4,1]};
seen := {}; todo := [1];
(while todo /= [])
  x fromb todo;
  if x notin seen then
    seen with:= x;
    (for y in g{x}) todo with:= y; end for;
  end if;
end while;
print(seen);
end program;
--
{1 2 3}
====
program roads;
road := {['Bern', 'Thun'], ['Thun', 'Spiez'], ['Spiez', 'Brig'], ['Bern', 'Olten']};
reached := {'Thun'};
(while exists town in reached | not (road{town} subset reached))
  reached +:= road{town};
end while;
print('from Thun one comes to', reached);
print('roads end in', range road - domain road);
print('two roads lead', {[x, z] : [x, y] in road, z in road{y}});
end program;
--
from Thun one comes to {'Brig' 'Spiez' 'Thun'}
roads end in {'Brig' 'Olten'}
two roads lead {['Bern' 'Spiez'] ['Thun' 'Brig']}
====
program components;
$ The strongly connected components of a graph: the largest sets of places that reach one another.

graph := {[1, 2], [2, 3], [3, 1], [3, 4], [4, 5], [5, 6], [6, 4], [7, 6], [7, 8], [8, 7], [8, 9]};
places := domain graph + range graph;
back := {[y, x] : [x, y] in graph};

$ a first walk along the edges gives the order in which places are left
seen := {};
order := [];
(for place in places | place notin seen)
  walk(graph, place, seen, order);
end for;
print('left in the order', order);

$ the walks against the edges, from the last place on, find one component each
seen := {};
parts := {};
(while order /= [])
  place frome order;
  if place in seen then
    continue;
  end if;
  before := seen;
  ignored := [];
  walk(back, place, seen, ignored);
  parts with:= seen - before;
end while;
print(#parts, 'components:');
(for part in parts)
  print(part);
end for;

$ which component leads to which
part_of := {[place, part] : part in parts, place in part};
(for [x, y] in graph | part_of(x) /= part_of(y))
  print(part_of(x), 'leads to', part_of(y), 'by', [x, y]);
end for;

$ Goes on from a place to all places not seen so far. A place is put behind the others when it is left.
proc walk(rd graph, rd place, rw seen, rw order);
  seen with:= place;
  (for next in graph{place} | next notin seen)
    walk(graph, next, seen, order);
  end for;
  order with:= place;
end proc;
end program;
--
left in the order [6 5 4 3 2 1 9 8 7]
4 components:
{1 2 3}
{4 5 6}
{7 8}
{9}
{1 2 3} leads to {4 5 6} by [3 4]
{7 8} leads to {4 5 6} by [7 6]
{7 8} leads to {9} by [8 9]
====
program topological_order;
$ Puts tasks in an order in which each comes after those that it needs.

needs := {['walls', 'ground'], ['roof', 'walls'], ['doors', 'walls'], ['paint', 'doors'],
  ['paint', 'roof'], ['wires', 'roof'], ['lamps', 'wires'], ['lamps', 'paint'], ['garden', 'ground']};

arrange(needs, order, rest);
print('order:', order);
print('left over:', rest);

$ by stages: the tasks of one stage may be done at the same time
stage := 1;
done := {};
(while done /= {task : task in order})
  now := {task : task in order | task notin done and needs{task} subset done};
  print('stage', stage, now);
  done +:= now;
  stage +:= 1;
end while;

$ with one need more there is a circle, and what lies on it or behind it can't be done
needs with:= ['walls', 'paint'];
arrange(needs, order, rest);
print('order:', order);
print('left over:', rest);
circle := {task in rest | task in all_needs(needs, task)};
print('on a circle:', circle);

$ The order of all tasks that can be done, taking the least first, and the tasks that are left over.
proc arrange(rd needs, wr order, wr rest);
  order := [];
  rest := domain needs + range needs;
  (while exists task in rest | needs{task} * rest = {})
    order with:= task;
    rest less:= task;
  end while;
end proc;

$ All that a task needs, directly or not.
proc all_needs(rd needs, rd task);
  found := {};
  waiting := needs{task};
  (while waiting /= {})
    other from waiting;
    found with:= other;
    waiting +:= needs{other} - found;
  end while;
  return found;
end proc;
end program;
--
order: ['ground' 'garden' 'walls' 'doors' 'roof' 'paint' 'wires' 'lamps']
left over: {}
stage 1 {'ground'}
stage 2 {'garden' 'walls'}
stage 3 {'doors' 'roof'}
stage 4 {'paint' 'wires'}
stage 5 {'lamps'}
order: ['ground' 'garden']
left over: {'doors' 'lamps' 'paint' 'roof' 'walls' 'wires'}
on a circle: {'doors' 'paint' 'roof' 'walls'}
====
program first_sets;
$ For each name of a grammar: whether it derives the empty text, with which signs its texts begin,
$ and which signs may follow it.

$ one name may have several right sides, each a tuple of names and signs
rules := {['sum', ['product', 'more']],
  ['more', ['+', 'product', 'more']], ['more', []],
  ['product', ['factor', 'others']],
  ['others', ['*', 'factor', 'others']], ['others', []],
  ['factor', ['(', 'sum', ')']], ['factor', ['sign', 'x']],
  ['sign', ['-']], ['sign', []]};
names := domain rules;
signs := {symbol : right in range rules, symbol in right} - names;

nullable := {};
(while exists [name, right] in rules |
    name notin nullable and (forall symbol in right | symbol in nullable))
  nullable with:= name;
end while;

$ a sign begins with itself
first := {[sign, sign] : sign in signs};
earlier := om;
(while first /= earlier)
  earlier := first;
  (for [name, right] in rules)
    (for symbol in right)
      first{name} +:= first{symbol};
      if symbol notin nullable then
        quit;
      end if;
    end for;
  end for;
end while;

follow := {['sum', 'end']};
earlier := om;
(while follow /= earlier)
  earlier := follow;
  (for [name, right] in rules)
    behind := follow{name};            $ what may follow the symbol in hand, from right to left
    (for i in [#right, #right - 1..1])
      symbol := right(i);
      follow{symbol} +:= behind;
      behind := first{symbol} + (if symbol in nullable then behind else {} end);
    end for;
  end for;
end while;

(for name in names)
  print(name, if name in nullable then 'or nothing,' else 'begins' end, first{name},
    'followed by', follow{name});
end for;
end program;
--
factor begins {'(' '-' 'x'} followed by {')' '*' '+' 'end'}
more or nothing, {'+'} followed by {')' 'end'}
others or nothing, {'*'} followed by {')' '+' 'end'}
product begins {'(' '-' 'x'} followed by {')' '+' 'end'}
sign or nothing, {'-'} followed by {'x'}
sum begins {'(' '-' 'x'} followed by {')' 'end'}
====
program huffman;
$ Huffman codes: frequent letters get short codes, and no code begins with another.

message := 'she sells sea shells by the sea shore';
weight := {[letter, how_often(letter, message)] : letter in message};

$ a tree is a letter or a pair of trees; the forest has pairs of a weight and a tree
forest := {[n, letter] : n = weight(letter)};
(while #forest > 1)
  $ the two lightest trees become one
  a from forest;
  b from forest;
  forest with:= [a(1) + b(1), [a(2), b(2)]];
end while;
[total, tree] := arb forest;
print(total, 'letters');
print(tree);

code := {};
collect(tree, '', code);
(for [-, letter] in {[#digits, letter] : digits = code(letter)})
  print('''' + letter + '''', weight(letter), code(letter));
end for;
print('no code begins with another:', forall digits = code(letter), others = code(other) |
  letter = other or #digits > #others or others(1..#digits) /= digits);

written := +/ [code(letter) : letter in message];
print(written);
print(#written, 'digits where', 8 * #message, 'would do without codes');
print(read_back(tree, written), read_back(tree, written) = message);

proc how_often(rd letter, rd message);
  return #[sign in message | sign = letter];
end proc;

$ Puts the codes of all letters of a tree into a map; `digits` lead to this tree.
proc collect(rd tree, rd digits, rw code);
  if is_string tree then
    code(tree) := digits;
  else
    collect(tree(1), digits + '0', code);
    collect(tree(2), digits + '1', code);
  end if;
end proc;

$ The letters that a string of digits means: each digit leads one step down.
proc read_back(rd tree, rd digits);
  letters := [];
  here := tree;
  (for digit in digits)
    here := here(if digit = '0' then 1 else 2 end);
    if is_string here then
      letters with:= here;
      here := tree;
    end if;
  end for;
  return +/ letters;
end proc;
end program;
--
37 letters
[[[['y' 'a'] 'h'] 's'] [['l' [['b' 'o'] ['r' 't']]] [' ' 'e']]]
's' 8 01
' ' 7 110
'e' 7 111
'h' 4 001
'l' 4 100
'a' 2 0001
'y' 1 0000
'b' 1 10100
'o' 1 10101
'r' 1 10110
't' 1 10111
no code begins with another: true
010011111100111110010001110011110001110010011111001000111010100000011010111001111110011110001110010011010110110111
114 digits where 296 would do without codes
she sells sea shells by the sea shore true
====
program subset_construction;
$ Makes a nondeterministic automaton deterministic.

$ words over a and b whose third letter from the end is a; moves{state, letter} are all next states
moves := {[[1, 'a'], 1], [[1, 'b'], 1], [[1, 'a'], 2],
  [[2, 'a'], 3], [[2, 'b'], 3], [[3, 'a'], 4], [[3, 'b'], 4]};
first := {1};
accepting := {4};
letters := {letter : [-, letter] in domain moves};

$ the sets of states that are reached are the states of the new automaton, numbered as they are found
number := {[first, 1]};
table := {};
waiting := [first];
(while waiting /= [])
  here fromb waiting;
  (for letter in letters)
    there := {next : state in here, next in moves{state, letter}};
    if number(there) = om then
      number(there) := #number + 1;
      waiting with:= there;
    end if;
    table(number(here), letter) := number(there);
  end for;
end while;

sets := {[n, states] : n = number(states)};
(for states = sets(n))
  print(n, states, [table(n, letter) : letter in letters],
    if states * accepting = {} then 'refuses' else 'accepts' end);
end for;
ends := {n : n = number(states) | states * accepting /= {}};

(for word in ['', 'a', 'abb', 'babb', 'bab', 'aaaa', 'bbabbb'])
  taken := run_on(table, word) in ends;
  print('''' + word + '''', taken);
  if taken /= accepts(moves, first, accepting, word) then
    print('the automata differ');
  end if;
end for;

$ The state of the new automaton behind a word.
proc run_on(rd table, rd word);
  state := 1;
  (for letter in word)
    state := table(state, letter);
  end for;
  return state;
end proc;

$ Whether the old automaton takes a word, following all its states at once.
proc accepts(rd moves, rd first, rd accepting, rd word);
  here := first;
  (for letter in word)
    here := {next : state in here, next in moves{state, letter}};
  end for;
  return exists state in here | state in accepting;
end proc;
end program;
--
1 {1} [2 1] refuses
2 {1 2} [3 4] refuses
3 {1 2 3} [5 6] refuses
4 {1 3} [7 8] refuses
5 {1 2 3 4} [5 6] accepts
6 {1 3 4} [7 8] accepts
7 {1 2 4} [3 4] accepts
8 {1 4} [2 1] accepts
'' false
'a' false
'abb' true
'babb' true
'bab' false
'aaaa' true
'bbabbb' false
";

/// The same of a program that reads, and its input, of which a byte comes a call. The 14th call finds its end.
const READING: &str = "program p;
read(x); read(y); read(z); print(x, y, z, eof);
end program;
--
{1 [2 'a']} 7 * true
--
{1 [2 'a']} 7
";

/// So many lines of a text, or all if it has fewer.
fn front(text: &str, lines: u64) -> &str {
    let mut rest = text;
    for _ in 0..lines {
        rest = match rest.split_once('\n') {
            Some((_, behind)) => behind,
            None => "",
        };
    }
    text.strip_suffix(rest).unwrap_or(text)
}

/// What a row's run answers over an output of which the call of this number fails, 0 for none, and that takes so many bytes
/// a call.
fn written(alloc: Global, row: &str, write: u64, most: usize) -> Result<Left, AllocError> {
    let [source, _, input, ..] = fields(row);
    let faults = Faults {
        load: 0,
        write,
        most,
        tell: 0,
    };
    call_on(alloc, "run a", text(source).as_bytes(), text(input), faults)
}

/// Runs a row over outputs of which each call fails in turn, and over one that takes a byte a call and one that takes none.
/// What stands in them are the lines before.
fn sweep(rt: &impl Abort, alloc: Global, row: &str) -> Result<(), AllocError> {
    let [_, out, ..] = fields(row);
    for before in 0..out.lines().count() as u64 {
        let left = written(alloc, row, before + 1, 999)?;
        assert!(rt;
            left.ends(6, front(out, before), "write fault\n"),
            "at {row}"
        );
    }
    assert!(rt; written(alloc, row, 0, 1)?.ends(0, out, ""), "at {row}");
    assert!(rt;
        written(alloc, row, 0, 0)?.ends(6, "", "write fault\n"),
        "at {row}"
    );
    Ok(())
}

#[test]
fn each_call_of_the_output_fails_in_turn(rt: HostRuntime) -> Result<(), Fail> {
    for row in SOURCES.split(BETWEEN) {
        sweep(&rt, rt.alloc(), row)?;
    }
    sweep(&rt, rt.alloc(), READING)?;
    Ok(())
}

/// What the program that reads answers over an input of which the call of this number fails.
fn read(alloc: Global, number: u64) -> Result<Left, AllocError> {
    let [source, _, input, ..] = fields(READING);
    let bytes = text(input).as_bytes().to_vec(alloc)?;
    let mut input = MemSource::new(bytes, 1, vec![in alloc; number]?);
    call_with(
        alloc,
        "run a",
        text(source).as_bytes(),
        &mut input,
        NO_FAULTS,
    )
}

#[test]
fn each_call_of_the_input_fails_in_turn(rt: HostRuntime) -> Result<(), Fail> {
    for number in 1..15 {
        let left = read(rt.alloc(), number)?;
        assert!(rt; left.ends(5, "", "read fault\n"), "at call {number}");
    }
    let [_, out, ..] = fields(READING);
    assert!(rt; read(rt.alloc(), 15)?.ends(0, out, ""));
    Ok(())
}

/// The shortest front of a source, by bytes, that a check doesn't refuse.
fn passing_front(alloc: Global, source: &[u8]) -> Result<Option<usize>, AllocError> {
    for at in 0..source.len() {
        let left = call(alloc, "check a", &source[..at], NO_FAULTS)?;
        if !left.is_told_in_other_words(Status::Refused) {
            return Ok(Some(at));
        }
    }
    Ok(None)
}

#[test]
fn each_front_of_a_source_is_refused(rt: HostRuntime) -> Result<(), Fail> {
    let [source, ..] = fields(SOURCES);
    let source = text(source).as_bytes();
    assert!(rt; passing_front(rt.alloc(), source)?.is_none());
    Ok(())
}

/// What the program that reads answers over so many bytes of its input.
fn read_front(alloc: Global, bytes: usize) -> Result<Left, AllocError> {
    let [source, _, input, ..] = fields(READING);
    let mut front = text(input).as_bytes().to_vec(alloc)?;
    front.truncate(bytes);
    let mut input = MemSource::new(front, 1, Vec::new(alloc));
    call_with(
        alloc,
        "run a",
        text(source).as_bytes(),
        &mut input,
        NO_FAULTS,
    )
}

#[test]
fn an_input_is_cut_after_each_byte(rt: HostRuntime) -> Result<(), Fail> {
    assert!(rt; read_front(rt.alloc(), 0)?.ends(0, "* * * true\n", ""));
    for bytes in 1..11 {
        let left = read_front(rt.alloc(), bytes)?;
        assert!(rt; left.ends(3, "", "line 2: form\n"), "after {bytes} bytes");
    }
    for bytes in 11..13 {
        let left = read_front(rt.alloc(), bytes)?;
        assert!(rt;
            left.ends(0, "{1 [2 'a']} * * true\n", ""),
            "after {bytes} bytes"
        );
    }
    Ok(())
}
