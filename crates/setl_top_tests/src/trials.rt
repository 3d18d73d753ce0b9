//! Trials, and what stands in the outputs where a trial's line isn't written whole.

use crate::calls::{NO_FAULTS, answer, call_with};
use crate::faults::expect_faults;
use setl_io::{MemSource, Source, Took};
use setl_top::Status;
use std::test::Fail;

/// The lines of trials. The numbers were computed by another program.
const LINES: &str = "trial 0 1: 1
trial 7 1: 1
trial 0 2: 2
trial 7 5: 4
trial 7 10: 10
trial 3 100: 77
trial 9223372036854775807 3: 2
trial 7 2000: 1601
trial 7 2000: 1601";

#[test]
fn each_trial_has_its_line(rt: HostRuntime) -> Result<(), Fail> {
    let alloc = rt.alloc();
    for line in LINES.split('\n') {
        let (words, _) = line.split_once(": ").unwrap_or((line, ""));
        let left = answer(alloc, words, "")?;
        let written = format!(in alloc; "{line}\n")?;
        assert!(rt; left.is(Status::Done, written.as_str(), ""), "at {line}");
    }
    Ok(())
}

#[test]
fn a_trial_reads_nothing(rt: HostRuntime) -> Result<(), Fail> {
    let alloc = rt.alloc();
    // the first read fails
    let mut input = MemSource::new(b"[1 1]".to_vec(alloc)?, 1, vec![in alloc; 1]?);
    let left = call_with(alloc, "trial 7 10", b"", &mut input, NO_FAULTS)?;
    assert!(rt; left.is(Status::Done, "trial 7 10: 10\n", ""));
    assert_eq!(rt; input.read(&mut [0; 9]), Took::Failed);
    Ok(())
}

/// Faults, words, and what is written and told. A trial loads no file.
const BROKEN_OFF: &str = "0 1 99 0 6
--
trial 7 10
--
--
write fault
====
0 2 7 0 6
--
trial 7 10
--
trial 7~
--
write fault
====
0 2 7 1 6
--
trial 7 10
--
trial 7~
====
0 0 1 0 0
--
trial 7 10
--
trial 7 10: 10
====
1 0 99 1 0
--
trial 7 10
--
trial 7 10: 10
====
0 0 99 0 2
--
trial 07 1
--
--
not of the plain form
====
0 0 99 1 6
--
trial 7 1 1
--
--
write fault
";

#[test]
fn trials_whose_line_is_not_written_whole(rt: HostRuntime) -> Result<(), Fail> {
    expect_faults(&rt, rt.alloc(), "", BROKEN_OFF)?;
    Ok(())
}
