//! Faults of the outside, and what stands in the outputs then. The error line is tried once.

use crate::calls::{Faults, Left, call, call_with};
use crate::rows::{BETWEEN, cut, fields, numbers, text};
use setl_io::MemSource;
use std::alloc::{AllocError, Global};
use std::process::Abort;
use std::test::Fail;

/// Faults by their numbers.
fn faults_of(load: u64, write: u64, most: u64, tell: u64) -> Faults {
    Faults {
        load,
        write,
        most: most as usize,
        tell,
    }
}

/// Compares calls over an outside that fails with what they answer. A row has which load fails, which write, how many
/// bytes the output takes a call, which write of the error output fails, 0 for none, and the status; the words, what is
/// printed and what is told, where `~` at the end stands for a line that isn't written to its end; and a source, where it
/// is another than this one.
pub fn expect_faults(
    rt: &impl Abort,
    alloc: Global,
    source: &str,
    table: &str,
) -> Result<(), AllocError> {
    expect_faults_of(rt, alloc, source.as_bytes(), table)
}

/// The same for a file that may hold code.
pub fn expect_faults_of(
    rt: &impl Abort,
    alloc: Global,
    file: &[u8],
    table: &str,
) -> Result<(), AllocError> {
    for row in table.split(BETWEEN) {
        let [head, words, out, err, own] = fields(row);
        let [load, write, most, tell, status] = numbers(head);
        let faults = faults_of(load, write, most, tell);
        let file = if own.is_empty() {
            file
        } else {
            text(own).as_bytes()
        };
        let left = call(alloc, words, file, faults)?;
        assert!(rt; left.ends(status, cut(out), err), "at {row}");
    }
    Ok(())
}

const TWO: &str = "program p; print(1); print(22); end program;";

/// Faults, words, what is printed and told, and sources other than `TWO`.
const FAULTS: &str = "1 0 99 0 5
--
run a
--
--
read fault
====
1 0 99 1 5
--
check a
====
0 0 99 0 5
--
run b
--
--
read fault
====
0 1 99 0 6
--
run a
--
--
write fault
====
0 1 99 1 6
--
run a
====
0 2 99 0 6
--
run a
--
1
--
write fault
====
0 4 1 0 6
--
run a
--
1
2~
--
write fault
====
0 0 1 0 0
--
run a
--
1
22
====
0 0 0 0 6
--
run a
--
--
write fault
====
0 1 99 1 0
--
check a
====
0 0 99 1 6
--
check a
--
--
write fault
--
x
====
0 0 99 2 1
--
check a
--
--
at 0: syntax
--
x
====
0 3 99 0 6
--
run a
--
1
2
--
write fault
--
program p; (for i in [1..5]) print(i); end for; end program;
====
0 0 99 1 6
--
run a
--
1
--
write fault
--
program p; print(1); fail; end program;
====
0 0 99 1 6
--
run a
--
--
write fault
--
program p; print(pow {1..63}); end program;
====
0 3 99 0 6
--
run --turns 5 a
--
1
2
--
write fault
--
program p; (for i in [1..5]) print(i); end for; end program;
";

#[test]
fn faults_of_the_outside(rt: HostRuntime) -> Result<(), Fail> {
    expect_faults(&rt, rt.alloc(), TWO, FAULTS)?;
    Ok(())
}

/// Prints four lines and stops on line 1.
const FOUR: &str =
    "program p; print(1, {2, 3}); print(); (for x in {10, 200}) print(x); end for; fail; end program;";

/// Runs of it whose first, second, .. write fails. Each `print` is one write, so no line is written in part, and none is
/// held back.
const PIECES: &str = "0 1 99 0 6
--
run a
--
--
write fault
====
0 2 99 0 6
--
run a
--
1 {2 3}
--
write fault
====
0 3 99 0 6
--
run a
--
1 {2 3}

--
write fault
====
0 4 99 0 6
--
run a
--
1 {2 3}

10
--
write fault
====
0 5 99 0 3
--
run a
--
1 {2 3}

10
200
--
line 1: nothing to go back to
";

#[test]
fn each_print_is_one_piece(rt: HostRuntime) -> Result<(), Fail> {
    expect_faults(&rt, rt.alloc(), FOUR, PIECES)?;
    Ok(())
}

const READING: &str = "program p; read(a); print(a); read(b); print(b); end program;";

/// Which read and which write fails, 0 for none, how many bytes the output takes a call, and the status; and what is
/// printed, where `~` stands for a line that isn't written to its end. The input is `1 22`, of which a byte comes a call,
/// and the fifth read finds its end.
const STREAMS: &str = "0 0 99 0
--
1
22
====
1 0 99 5
====
2 0 99 5
====
3 0 99 5
--
1
====
4 0 99 5
--
1
====
5 0 99 5
--
1
====
6 0 99 0
--
1
22
====
0 1 99 6
====
0 2 99 6
--
1
====
0 3 99 0
--
1
22
====
0 1 1 6
====
0 2 1 6
--
1~
====
0 3 1 6
--
1
====
0 4 1 6
--
1
2~
====
0 5 1 6
--
1
22~
====
0 6 1 0
--
1
22
====
3 2 99 5
--
1
====
5 1 99 6
";

/// The line that tells how a call with this status ended.
fn line_of(status: u64) -> &'static str {
    match status {
        5 => "read fault\n",
        6 => "write fault\n",
        _ => "",
    }
}

/// A run over an input and an output of which these calls fail.
fn streamed(alloc: Global, read: u64, faults: Faults) -> Result<Left, AllocError> {
    let fails = vec![in alloc; read]?;
    let mut input = MemSource::new(b"1 22".to_vec(alloc)?, 1, fails);
    call_with(alloc, "run a", READING.as_bytes(), &mut input, faults)
}

#[test]
fn each_read_and_each_write_fails_in_turn(rt: HostRuntime) -> Result<(), Fail> {
    for row in STREAMS.split(BETWEEN) {
        let [head, out, ..] = fields(row);
        let [read, write, most, status, _] = numbers(head);
        let left = streamed(rt.alloc(), read, faults_of(0, write, most, 0))?;
        assert!(rt; left.ends(status, cut(out), line_of(status)), "at {row}");
    }
    Ok(())
}
