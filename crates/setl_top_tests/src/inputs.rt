//! Programs that read, from an input that gives a byte a call.

use crate::calls::{expect, run};
use crate::rows::{BETWEEN, fields, text};
use setl_top::Status;
use std::test::Fail;

/// Bodies of programs, what they print, no line, and their inputs.
const INPUTS: &str = "read(x); read(y); read(z); print(x, y, z, eof);
--
{1 [2 'a']} 7 * true
--
--
{1 [2 'a']} 7
====
read(x, y); print(x, y, eof);
--
[1 * 2] it's false
--
--
[1, *, 2]'it''s'
====
read(x); print(x, eof); read(x); print(x, eof);
--
* false
* true
--
--
*\x20

====
read(x); (while not eof) print(x); read(x); end while; print('end');
--
1
true
a
-7
end
--
--
1 TRUE
'a' -7
====
read(x); (while not eof) print(x); read(x); end while; print('end');
--
end
--
--
\t\r
\x20
====
if ok then read(x); print(x, newat); fail; end if; read(y); print(x, y, newat, eof);
--
1 #1
* 2 #2 false
--
--
1 2
====
if ok then read(x); fail; end if; print(x, eof);
--
* true
====
print(get() + get()); proc get(); read(x); return x; end proc;
--
3
--
--
1 2 3
";

#[test]
fn denotations_are_read_one_after_another(rt: HostRuntime) -> Result<(), Fail> {
    expect(&rt, rt.alloc(), Status::Done, INPUTS)?;
    Ok(())
}

/// Reads and prints a value on lines 2 and 3, and reads another one on line 4.
const TWO_READS: &str = "\nread(x);\nprint(x);\nread(y);";

/// Inputs with no denotation at one of the reads, what is printed, and the line that tells the stop.
const UNREAD: &str = "{1 [2
--
--
line 2: form
====
[1}
--
--
line 2: form
====
1 ?
--
1
--
line 4: form
====
1 truefalse
--
1
--
line 4: form
====
1{2 *}
--
1
--
line 4: form
====
1 'a
'
--
1
--
line 4: form
====
-170141183460469231731687303715884105728 170141183460469231731687303715884105728
--
-170141183460469231731687303715884105728
--
line 4: wide
====
[170141183460469231731687303715884105728 ?
--
--
line 2: wide
";

#[test]
fn a_fault_of_the_input_stops_its_read(rt: HostRuntime) -> Result<(), Fail> {
    for row in UNREAD.split(BETWEEN) {
        let [input, out, line, ..] = fields(row);
        let left = run(rt.alloc(), TWO_READS, text(input))?;
        assert!(rt; left.is(Status::Stopped, out, line), "at {input}");
    }
    Ok(())
}
