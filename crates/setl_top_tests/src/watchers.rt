//! Watchers of a run, and what they report.

use crate::calls::{Faults, NO_FAULTS, answer, call_on, call_watched, expect_calls};
use setl_top::Status;
use setl_watch::{Cover, Event, Trace, Wants, Watcher};
use std::alloc::{AllocError, Global};
use std::test::Fail;

/// A program that keeps a state and goes back to it.
const GOES_BACK: &str = "program q;
x := p(); print(x); if x = 1 then fail; end if;
proc p(); if ok then return 1; else return 2; end if; end proc;
end program;
";

/// Runs that end of themselves: the words, the source, what is printed, and what is told.
const DONE: &str = "run --watch trace a
--
program q;
x := p(); print(x); if x = 1 then fail; end if;
proc p(); if ok then return 1; else return 2; end if; end proc;
end program;
--
1
2
--
call 2 p
keep
return p
store 2 x 1
print 1
back
return p
store 2 x 2
print 2
====
run --watch trace a
--
program q;
if ok then x := 1; if ok then x := 2; succeed; end if; else print(x); stop; end if;
fail; end program;
--
*
--
keep
store 2 x 1
keep
store 2 x 2
succeed
back
print *
====
run --turns 99 --watch cover --unbased a
--
program q;
x := p(); print(x); if x = 1 then fail; end if;
proc p(); if ok then return 1; else return 2; end if; end proc;
end program;
--
1
2
--
line 2: 2
====
run --watch cover a
--
program p;
n := 0;
(while n < 300)
n +:= 1; m := n;
end while;
o := {n};
end program;
--
--
line 2: 1
line 4: 600
line 6: 1
====
run --watch trace a
--
program p;
inc(n, 'it''s'); [n, -] := [om, 5]; f := {[1, 'a']}; f(2) := 'b'; x from f;
proc inc(rw a, b); c := b; a := c; end proc;
end program;
--
--
call 2 inc
store 2 a *
store 2 b 'it''s'
store 3 c 'it''s'
store 3 a 'it''s'
return inc
store 2 n 'it''s'
store 2 n *
store 2 f {[1 'a']}
store 2 f {[1 'a'] [2 'b']}
store 2 f {[2 'b']}
store 2 x [1 'a']
====
run --watch profile a
--
program p;
x := inc(1) + inc(2); y := dec(x);
proc inc(n); return n + 1; end proc;
proc dec(n); return inc(n) - 2; end proc;
end program;
--
--
proc inc: 3
proc dec: 1
====
run --watch trace a
--
program p;
end program;
";

#[test]
fn watchers_report_of_a_run_that_is_done(rt: HostRuntime) -> Result<(), Fail> {
    Ok(expect_calls(&rt, rt.alloc(), Status::Done, DONE)?)
}

/// Runs that stop.
const STOPPED: &str = "run --watch trace a
--
program p;
x := 1; print(x, 'a');
fail;
end program;
--
1 a
--
store 2 x 1
print 1 a
line 3: nothing to go back to
====
run --watch cover a
--
program p;
x := 1; print(x, 'a');
fail;
end program;
--
1 a
--
line 2: 1
line 3: nothing to go back to
====
run --watch trace a
--
program p;
repr base b: int; s: sparse set(elmt b); end repr;
s := {1};
s with:= 'a';
end program;
--
--
store 3 s {1}
line 4: value does not fit s
";

#[test]
fn reports_stand_before_the_line_of_a_stop(rt: HostRuntime) -> Result<(), Fail> {
    Ok(expect_calls(&rt, rt.alloc(), Status::Stopped, STOPPED)?)
}

/// Runs for which too few turns are left.
const SPENT: &str = "run --turns 1 --watch trace a
--
program p;
n := 0;
(while true)
n +:= 1;
end while;
end program;
--
--
store 2 n 0
store 4 n 1
out of turns
====
run --watch cover --turns 3 a
--
program p;
n := 0;
(while true)
n +:= 1;
end while;
end program;
--
--
line 2: 1
line 4: 3
out of turns
";

#[test]
fn reports_stand_before_the_line_of_a_run_without_turns(rt: HostRuntime) -> Result<(), Fail> {
    Ok(expect_calls(&rt, rt.alloc(), Status::Spent, SPENT)?)
}

/// The report of a trace of a program that counts up to a number.
fn counted(alloc: Global, events: u64) -> Result<String, AllocError> {
    let mut report = String::from_str(alloc, "store 2 n 0\n")?;
    for n in 1..events {
        report.push_str(format!(in alloc; "store 4 n {n}\n")?.as_str())?;
    }
    Ok(report)
}

#[test]
fn a_trace_keeps_the_first_thousand_events(rt: HostRuntime) -> Result<(), Fail> {
    let alloc = rt.alloc();
    for (most, events) in [(998, 999), (999, 1000), (1000, 1000), (5000, 1000)] {
        let source = format!(in alloc;
            "program p;\nn := 0;\n(while n < {most})\nn +:= 1;\nend while;\nend program;\n"
        )?;
        let left = answer(alloc, "run --watch trace a", source.as_str())?;
        let report = counted(alloc, events)?;
        assert!(rt; left.is(Status::Done, "", report.as_str()), "at {most}");
    }
    Ok(())
}

/// Has enough at its first event, or refuses memory there, and reports how many events it was told.
#[derive(Drop)]
struct AtOnce {
    told: u8,
    refuses: bool,
}

impl Watcher for AtOnce {
    ghost use Rattle.setl_top_tests.specs.Watching.{at_once};

    ghost watch = { λ w. at_once w.told };

    fn name(&self) -> u8 {
        1
    }

    fn event(&mut self, _e: &Event) -> Wants {
        if self.refuses || self.told >= 9 {
            return Wants::NoMemory;
        }
        self.told += 1;
        Wants::Enough
    }

    fn report(&self, into: &mut Vec<u8>) -> Result<(), AllocError> {
        match self.told.checked_add(b'0') {
            Some(digit) => into.extend_from_slice(&[digit, b'\n']),
            None => Err(AllocError),
        }
    }

    fn count(&self) -> u64 {
        u64::from(self.told)
    }

    fn aim(&mut self, _line: u32) {
        self.told = 0;
    }
}

/// One that was told nothing yet.
fn at_once(refuses: bool) -> AtOnce {
    AtOnce { told: 0, refuses }
}

#[test]
fn the_first_to_have_enough_reports_first(rt: HostRuntime) -> Result<(), Fail> {
    let alloc = rt.alloc();
    let mut watchers: Vec<Box<dyn Watcher>> = Vec::new(alloc);
    watchers.push(Box::new(alloc, at_once(false))?)?;
    let left = call_watched(alloc, GOES_BACK, watchers)?;
    assert!(rt; left.is(Status::Done, "1\n2\n", "1\n"), "alone");
    let mut watchers: Vec<Box<dyn Watcher>> = Vec::new(alloc);
    watchers.push(Box::new(alloc, Cover::new(alloc)?)?)?;
    watchers.push(Box::new(alloc, Trace::new(alloc)?)?)?;
    watchers.push(Box::new(alloc, at_once(false))?)?;
    watchers.push(Box::new(alloc, at_once(false))?)?;
    let left = call_watched(alloc, "program p; x := 1; end program;", watchers)?;
    assert!(rt;
        left.is(Status::Done, "", "1\n1\nstore 1 x 1\n"),
        "among others"
    );
    Ok(())
}

#[test]
fn a_watcher_may_refuse_memory(rt: HostRuntime) -> Result<(), Fail> {
    let alloc = rt.alloc();
    let mut watchers: Vec<Box<dyn Watcher>> = Vec::new(alloc);
    watchers.push(Box::new(alloc, at_once(true))?)?;
    let left = call_watched(alloc, GOES_BACK, watchers)?;
    assert!(rt; left.is(Status::NoMemory, "", "no memory\n"));
    Ok(())
}

#[test]
fn a_watcher_that_is_not_there_is_refused(rt: HostRuntime) -> Result<(), Fail> {
    let alloc = rt.alloc();
    let left = call_watched(alloc, GOES_BACK, Vec::new(alloc))?;
    assert!(rt; left.is(Status::Words, "", "no such watcher\n"), "none");
    let mut watchers: Vec<Box<dyn Watcher>> = Vec::new(alloc);
    watchers.push(Box::new(alloc, Cover::new(alloc)?)?)?;
    let left = call_watched(alloc, "no program", watchers)?;
    assert!(rt; left.is(Status::Words, "", "no such watcher\n"), "another");
    Ok(())
}

#[test]
fn a_report_may_not_be_written(rt: HostRuntime) -> Result<(), Fail> {
    let faults = Faults {
        tell: 1,
        ..NO_FAULTS
    };
    let left = call_on(
        rt.alloc(),
        "run --watch cover a",
        GOES_BACK.as_bytes(),
        "",
        faults,
    )?;
    assert!(rt; left.is(Status::WriteFault, "1\n2\n", "write fault\n"));
    Ok(())
}
