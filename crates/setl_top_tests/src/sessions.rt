//! Sessions of the debugger, by scripts that give a byte a call.

use crate::calls::{Faults, Left, NO_FAULTS, call_with, run_with};
use crate::rows::{BETWEEN, fields, text};
use setl_io::MemSource;
use setl_top::Status;
use std::alloc::{AllocError, Global};
use std::process::Abort;
use std::test::Fail;

/// Compares sessions over programs with what they answer. A row has the body of the program, what is written, what is told
/// and the script.
fn expect_sessions(
    rt: &impl Abort,
    alloc: Global,
    status: Status,
    table: &str,
) -> Result<(), AllocError> {
    for row in table.split(BETWEEN) {
        let [body, out, err, script, _] = fields(row);
        let left = run_with(alloc, "debug a", body, script)?;
        assert!(rt; left.is(status, out, err), "at {row}");
    }
    Ok(())
}

/// Bodies of programs, what is written, no line, and scripts.
const SESSIONS: &str = "(for i in [1..5]) print(i); end for;
--
turn 2 in main: running
i 2
turn 3 in main: running
i 3
turn 2 in main: running
i 2
1
2
--
--
go 2
show
on 1
show
back 1
show
out
====

s := 0;
(for i in [1..5])
s +:= i;
end for;
--
turn 2 in main: running
s 3
i 2
no hit
turn 5 in main: done
s 15
i 5
--
--
until 4
until 4
show
until 9
go 5
show
====
read(x); read(y); print(x + inc(y)); proc inc(n); k := 'a'; return n + 1; end proc;
--
turn 0 in main: running
x 1
y [2 'b']
turn 1 in inc: line 1: kind
n [2 'b']
k 'a'
proc inc: 1
--
--
input 1
show
go 1
show

profile
input [2 'b']
====
var t; read(t); f(t); proc f(s); (while true) s +:= 1; end while; end proc;
--
turn 3 in f: running
t 1
s 3
--
--
input 1
go 3
show
====
if ok then x := 1; fail; end if; y := x;
--
turn 0 in main: running
x 1
y *
turn 1 in main: done
x *
y *
--
--
show
go 9223372036854775807
on 9223372036854775807
back 9223372036854775806
show
";

/// Bodies of programs, nothing that is written, the line that is told, and inputs that are no scripts.
const REFUSED: &str = "print(1);
--
--
script line 1
--
jump 3
====
print(1);
--
--
script line 3
--
show

show\x20
show
====
print(1);
--
--
script line 1
--
until 0
====
print(1);
--
--
script line 1
--
go 9223372036854775808
====
quit;
--
--
line 1: rule 13
--
jump 3
";

#[test]
fn a_script_is_followed_over_the_states_of_a_run(rt: HostRuntime) -> Result<(), Fail> {
    expect_sessions(&rt, rt.alloc(), Status::Done, SESSIONS)?;
    expect_sessions(&rt, rt.alloc(), Status::Refused, REFUSED)?;
    Ok(())
}

const ONE: &[u8] = b"program p; x := 1; print(x); end program;";

/// A session over `ONE` whose script is `out`, `show` and `out`, of which this read fails, 0 for none.
fn session_with(alloc: Global, read: u64, faults: Faults) -> Result<Left, AllocError> {
    let script = text("out\nshow\nout\n").as_bytes().to_vec(alloc)?;
    let mut script = MemSource::new(script, 1, vec![in alloc; read]?);
    call_with(alloc, "debug --unbased a", ONE, &mut script, faults)
}

#[test]
fn a_fault_ends_a_session(rt: HostRuntime) -> Result<(), Fail> {
    let alloc = rt.alloc();
    let left = session_with(alloc, 0, NO_FAULTS)?;
    assert!(rt; left.is(Status::Done, "1\nturn 0 in main: done\nx 1\n1\n", ""));
    let left = session_with(alloc, 3, NO_FAULTS)?;
    assert!(rt; left.is(Status::ReadFault, "", "read fault\n"));
    let faults = Faults {
        write: 2,
        ..NO_FAULTS
    };
    let left = session_with(alloc, 0, faults)?;
    assert!(rt; left.is(Status::WriteFault, "1\n", "write fault\n"));
    Ok(())
}
