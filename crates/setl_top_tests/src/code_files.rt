//! Code files that are built, what runs of them answer, and bytes that are no code file.

use crate::calls::{Faults, Left, NO_FAULTS, answer, call, call_on, call_with, expect_calls};
use crate::faults::{expect_faults, expect_faults_of};
use crate::rows::{BETWEEN, fields, numbers, text};
use setl_io::{MemSource, Source, Took};
use setl_top::Status;
use std::alloc::{AllocError, Global};
use std::process::Abort;
use std::test::Fail;

/// A program, worked out by hand below.
const COUNTS: &str = "program p; (for i in [1..5]) print(i); end for; end program;";

/// Its code file, by the format and its listing.
const COUNTED: &[u8] = &[
    0x53, 0x45, 0x54, 0x4C, 0x49, 0x4D, 0x47, 0x31, // SETLIMG1
    0x00, 0x00, 0x00, // no names in var, no bases, no declared variables
    0x01, 0x01, 0x70, 0x00, 0x00, 0x00, // one body; p
    0x01, 0x01, 0x69, 0x09, // i; nine steps, in line 1
    0x01, 0x40, 0x01, // int 1
    0x01, 0x40, 0x05, // int 5
    0x01, 0x5F, // begin range
    0x01, 0x63, 0x08, // next 8
    0x01, 0x49, 0x01, // store i
    0x01, 0x48, 0x01, // take i
    0x01, 0x6D, 0x01, // print 1
    0x01, 0x5A, 0x03, // jump 3
    0x01, 0x6F, // stop
];

/// The code file of `program p; end program;`.
const SMALLEST: &[u8] = &[
    0x53, 0x45, 0x54, 0x4C, 0x49, 0x4D, 0x47, 0x31, 0x00, 0x00, 0x00, 0x01, 0x01, 0x70, 0x00, 0x00,
    0x00, 0x00, 0x01, 0x01, 0x6F,
];

#[test]
fn code_files_are_built(rt: HostRuntime) -> Result<(), Fail> {
    let alloc = rt.alloc();
    let left = answer(alloc, "build a", COUNTS)?;
    assert!(rt; left.gave(Status::Done, COUNTED, ""));
    let left = answer(alloc, "build a", "program p; end program;")?;
    assert!(rt; left.gave(Status::Done, SMALLEST, ""));
    Ok(())
}

/// What a run of a program with these options answers.
fn run_of(alloc: Global, options: &str, source: &str, input: &str) -> Result<Left, AllocError> {
    let line = format!(in alloc; "run {options} a")?;
    call_on(alloc, line.as_str(), source.as_bytes(), input, NO_FAULTS)
}

/// What a run of its code file with these options answers.
fn exec_of(alloc: Global, options: &str, source: &str, input: &str) -> Result<Left, AllocError> {
    let built = answer(alloc, "build a", source)?;
    let line = format!(in alloc; "exec {options} a")?;
    call_on(alloc, line.as_str(), built.out(), input, NO_FAULTS)
}

/// Compares runs of programs, and of what is built of them, with what both answer. A row has the options, the source, what
/// is printed, what is told and the input.
fn expect_alike(
    rt: &impl Abort,
    alloc: Global,
    status: Status,
    table: &str,
) -> Result<(), AllocError> {
    for row in table.split(BETWEEN) {
        let [options, source, out, err, input] = fields(row);
        let of_source = run_of(alloc, text(options), text(source), text(input))?;
        assert!(rt; of_source.is(status, out, err), "run at {row}");
        let of_code = exec_of(alloc, text(options), text(source), text(input))?;
        assert!(rt; of_code.is(status, out, err), "exec at {row}");
    }
    Ok(())
}

/// Runs that end of themselves: with a bound on turns, with watchers, with an input, without and with declarations, with
/// searches, procedures and formers.
const DONE: &str = "--turns 5
--
program p; (for i in [1..5]) print(i); end for; end program;
--
1
2
3
4
5
====
--watch trace
--
program q;
x := p(); print(x); if x = 1 then fail; end if;
proc p(); if ok then return 1; else return 2; end if; end proc;
end program;
--
1
2
--
call 2 p
keep
return p
store 2 x 1
print 1
back
return p
store 2 x 2
print 2
====
--watch cover --turns 99 --unbased
--
program q;
x := p(); print(x); if x = 1 then fail; end if;
proc p(); if ok then return 1; else return 2; end if; end proc;
end program;
--
1
2
--
line 2: 2
====
--dump
--
program p; repr base n: int; t: tuple(elmt n); x: elmt n; end repr; t := [5,om,7]; x := 7; end program;
--
--
base n 2: 5 7
t tuple 1 * 2
x elmt 2
====
--watch profile
--
program p;
x := inc(1) + inc(2); y := dec(x);
proc inc(n); return n + 1; end proc;
proc dec(n); return inc(n) - 2; end proc;
end program;
--
--
proc inc: 3
proc dec: 1
====
--
program p;
read(x); read(y); read(z); print(x, y, z, eof);
end program;
--
{1 [2 'a']} 7 * true
--
--
{1 [2 'a']} 7
====
--unbased
--
program p;
repr base n: int; s: sparse set(elmt n); end repr;
s := {1}; print(s);
s with:= 'a'; print(s);
end program;
--
{1}
{1 'a'}
====
--
program p;
repr base b: int; s: local set(elmt b); end repr;
s := {1};
if ok then s with:= 2; print(s); fail; else print(s); end if;
end program;
--
{1 2}
{1}
====
--
program reach;
repr base n: int; g: local mmap{elmt n} remote set(elmt n);
seen: local set(elmt n); end repr;
g := {[1,2],[2,3],[4,1]};
seen := {}; todo := [1];
(while todo /= [])
  x fromb todo;
  if x notin seen then
    seen with:= x;
    (for y in g{x}) todo with:= y; end for;
  end if;
end while;
print(seen);
end program;
--
{1 2 3}
====
--
program p; var g; repr n: int; g: set(int); end repr;
q(n); print(n, g);
proc q(rw x); n := 'its own'; x := 3; g := {x}; print(n); end proc;
end program;
--
its own
3 {3}
====
--
program p;
s := {[x, y] : x in {1, 2}, y in [x..2] | x /= y};
f := {[1, {-5}]}; f(1) with:= 7; f(2) := [om, 'it''s'];
print(s, exists z in s | z(1) = 1, z, f);
end program;
--
{[1 2]} true [1 2] {[1 {-5 7}] [2 [* 'it''s']]}
====
--
program p;
end program;
";

/// Runs that stop.
const STOPPED: &str = "--turns 9
--
program p;
repr base n: int; s: sparse set(elmt n); end repr;
s := {1}; print(s);
s with:= 'a'; print(s);
end program;
--
{1}
--
line 4: value does not fit s
====
--watch cover
--
program p;
x := 1; print(x, 'a');
fail;
end program;
--
1 a
--
line 2: 1
line 3: nothing to go back to
====
--
program p;
read(x);
print(x);
read(y);
end program;
--
1
--
line 4: form
--
1 ?
";

/// Runs for which too few turns are left.
const SPENT: &str = "--turns 3
--
program p; (for i in [1..5]) print(i); end for; end program;
--
1
2
3
--
out of turns
====
--watch trace --turns 1
--
program p;
n := 0;
(while true)
n +:= 1;
end while;
end program;
--
--
store 2 n 0
store 4 n 1
out of turns
";

#[test]
fn code_files_run_as_their_sources_do(rt: HostRuntime) -> Result<(), Fail> {
    expect_alike(&rt, rt.alloc(), Status::Done, DONE)?;
    expect_alike(&rt, rt.alloc(), Status::Stopped, STOPPED)?;
    expect_alike(&rt, rt.alloc(), Status::Spent, SPENT)?;
    Ok(())
}

/// Sources that are refused, and what both a check and a build tell.
const REFUSED: &str = "program p; end program
--
at 22: syntax
====
program p; x := {1,}; end program; 'it
--
at 35: open string
====
program p; repr base b; end repr;
quit;
end program;
--
line 2: rule 13
====
program p; repr s: local set(int); end repr; s := {}; end program;
--
line 1: rule 26
";

#[test]
fn a_build_tells_what_a_check_tells(rt: HostRuntime) -> Result<(), Fail> {
    for row in REFUSED.split(BETWEEN) {
        let [source, line, ..] = fields(row);
        for words in ["check a", "build a"] {
            let left = answer(rt.alloc(), words, source)?;
            assert!(rt; left.is(Status::Refused, "", line), "{words} at {row}");
        }
    }
    Ok(())
}

/// Words, files that are no code file or no source, and what is told.
const NO_CODE: &str = "exec a
--

--
--
bad image
====
exec a
--
program p; end program;
--
--
bad image
====
exec --unbased --turns 5 --watch trace a
--
SETLIMG1
--
--
bad image
";

#[test]
fn other_bytes_are_no_code_file(rt: HostRuntime) -> Result<(), Fail> {
    let alloc = rt.alloc();
    expect_calls(&rt, alloc, Status::Refused, NO_CODE)?;
    let left = call(alloc, "run a", COUNTED, NO_FAULTS)?;
    assert!(rt; left.is(Status::Refused, "", "at 8: byte\n"));
    for n in 0..COUNTED.len() {
        let left = call(alloc, "exec a", &COUNTED[..n], NO_FAULTS)?;
        assert!(rt; left.is(Status::Refused, "", "bad image\n"), "at {n}");
    }
    let mut longer = COUNTED.to_vec(alloc)?;
    longer.push(0)?;
    let left = call(alloc, "exec a", longer.as_slice(), NO_FAULTS)?;
    assert!(rt; left.is(Status::Refused, "", "bad image\n"));
    Ok(())
}

/// Where a byte of `COUNTED` is changed, what it becomes, and the status; what is printed and told. It becomes: another mark,
/// a variable that isn't there, an instruction that isn't there; a branch behind the last step, a jump there and one past
/// `next`, a `print` of two operands, a `return` from the main program, a last step that doesn't end the body; and another
/// integer, a `load`, and a `fail`, which are sound.
const CHANGED: &str = "7 50 1
--
--
bad image
====
34 3 1
--
--
bad image
====
45 113 1
--
--
bad image
====
31 9 1
--
--
unsound code
====
43 9 1
--
--
unsound code
====
43 4 1
--
--
unsound code
====
40 2 1
--
--
unsound code
====
45 106 1
--
--
unsound code
====
45 104 1
--
--
unsound code
====
26 2 0
--
1
2
====
36 71 0
--
1
2
3
4
5
====
45 108 3
--
1
2
3
4
5
--
line 1: nothing to go back to
";

/// What a run of `COUNTED` answers in which the byte at this place is another one.
fn changed(alloc: Global, place: usize, byte: u8) -> Result<Left, AllocError> {
    let mut bytes = COUNTED.to_vec(alloc)?;
    if let Some(at) = bytes.get_mut(place) {
        *at = byte;
    }
    call(alloc, "exec a", bytes.as_slice(), NO_FAULTS)
}

#[test]
fn a_byte_that_changed_is_found_or_runs(rt: HostRuntime) -> Result<(), Fail> {
    for row in CHANGED.split(BETWEEN) {
        let [head, out, err, ..] = fields(row);
        let [place, byte, status, ..] = numbers(head);
        let byte = (byte % 256) as u8;
        let left = changed(rt.alloc(), place as usize, byte)?;
        assert!(rt; left.ends(status, out, err), "at {row}");
    }
    Ok(())
}

#[test]
fn an_output_may_take_a_part_of_a_code_file(rt: HostRuntime) -> Result<(), Fail> {
    let faults = Faults {
        most: 1,
        ..NO_FAULTS
    };
    let left = call(rt.alloc(), "build a", COUNTS.as_bytes(), faults)?;
    assert!(rt; left.gave(Status::Done, COUNTED, ""));
    for n in 0..COUNTED.len() {
        let faults = Faults {
            write: n as u64 + 1,
            most: 1,
            ..NO_FAULTS
        };
        let left = call(rt.alloc(), "build a", COUNTS.as_bytes(), faults)?;
        assert!(rt;
            left.gave(Status::WriteFault, &COUNTED[..n], "write fault\n"),
            "at {n}"
        );
    }
    Ok(())
}

/// Faults, words, what is written and told, and sources other than `COUNTS`.
const BUILDS_BROKEN_OFF: &str = "0 1 99 0 6
--
build a
--
--
write fault
====
0 0 0 0 6
--
build a
--
--
write fault
====
0 1 99 1 6
--
build a
====
1 0 99 0 5
--
build a
--
--
read fault
====
0 0 99 0 5
--
build b
--
--
read fault
====
0 0 99 1 6
--
build a
--
--
write fault
--
x
";

/// The same of runs of `COUNTED`, and files other than that.
const RUNS_BROKEN_OFF: &str = "1 0 99 0 5
--
exec a
--
--
read fault
====
0 0 99 0 5
--
exec b
--
--
read fault
====
0 3 99 0 6
--
exec a
--
1
2
--
write fault
====
0 4 1 0 6
--
exec --turns 2 a
--
1
2~
--
write fault
====
0 0 99 1 6
--
exec --turns 2 a
--
1
2
--
write fault
====
0 0 99 1 6
--
exec a
--
--
write fault
--
x
";

#[test]
fn faults_of_the_outside_end_builds_and_runs(rt: HostRuntime) -> Result<(), Fail> {
    expect_faults(&rt, rt.alloc(), COUNTS, BUILDS_BROKEN_OFF)?;
    expect_faults_of(&rt, rt.alloc(), COUNTED, RUNS_BROKEN_OFF)?;
    Ok(())
}

const READING: &str = "program p; read(a); print(a); read(b); print(b); end program;";

#[test]
fn a_build_reads_nothing_and_a_run_of_it_does(rt: HostRuntime) -> Result<(), Fail> {
    let alloc = rt.alloc();
    // the first read fails
    let mut input = MemSource::new(b"1 22".to_vec(alloc)?, 1, vec![in alloc; 1]?);
    let built = call_with(alloc, "build a", READING.as_bytes(), &mut input, NO_FAULTS)?;
    assert!(rt; built.gave(Status::Done, built.out(), ""));
    assert_eq!(rt; input.read(&mut [0; 9]), Took::Failed);
    // the third one does
    let mut input = MemSource::new(b"1 22".to_vec(alloc)?, 1, vec![in alloc; 3]?);
    let left = call_with(alloc, "exec a", built.out(), &mut input, NO_FAULTS)?;
    assert!(rt; left.is(Status::ReadFault, "1\n", "read fault\n"));
    Ok(())
}
