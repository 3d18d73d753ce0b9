//! Tests of watchers: a trace, a cover, a profile, hits, and a watcher of their own.
#![tactic(auto)]

ghost use Rattle.setl_watch_tests.specs.Counting.{counting};

use setl_tree::Text;
use setl_value::Value;
use setl_watch::{Cover, Event, Hits, Profile, Trace, Wants, Watcher, report_all, tell};
use std::alloc::{AllocError, Global};
use std::test::Fail;

/// Counts what it is told, has enough at so many events, and may refuse memory.
#[derive(Drop)]
struct Counting {
    name: u8,
    told: u8,
    most: u8,
    refuses: bool,
}

impl Watcher for Counting {
    ghost watch = { λ w. counting w.name w.told w.most };

    fn name(&self) -> u8 {
        self.name
    }

    fn event(&mut self, _e: &Event) -> Wants {
        if self.refuses || self.told == 255 {
            return Wants::NoMemory;
        }
        self.told += 1;
        if self.told >= self.most {
            Wants::Enough
        } else {
            Wants::More
        }
    }

    fn report(&self, into: &mut Vec<u8>) -> Result<(), AllocError> {
        into.extend_from_slice(&[self.name, self.told])
    }

    fn count(&self) -> u64 {
        u64::from(self.told)
    }

    fn aim(&mut self, _line: u32) {
        self.told = 0;
    }
}

fn new_counting(name: u8, most: u8) -> Counting {
    Counting {
        name,
        told: 0,
        most,
        refuses: false,
    }
}

fn store(alloc: Global, line: u32, n: i128) -> Result<Event, Fail> {
    Ok(Event::Stored {
        line,
        name: Text::of(alloc, b"x")?,
        value: Some(Value::Int(n)),
    })
}

#[test]
fn reports_come_in_the_order_in_which_watchers_have_enough(rt: HostRuntime) -> Result<(), Fail> {
    let alloc = rt.alloc();
    let mut watchers: Vec<Box<dyn Watcher>> = Vec::new(alloc);
    for most in [3, 2, 1, 9, 2] {
        watchers.push(Box::new(alloc, new_counting(most + 10, most))?)?;
    }
    let mut reports = Vec::new(alloc);
    tell(&mut watchers, &Event::Kept, &mut reports)?;
    assert_eq!(rt; reports.as_slice(), [11, 1].as_slice());
    tell(&mut watchers, &Event::Back, &mut reports)?;
    assert_eq!(rt; reports.as_slice(), [11, 1, 12, 2, 12, 2].as_slice());
    for w in &watchers {
        assert_eq!(rt; w.name() > 12, true);
    }
    report_all(&watchers, &mut reports)?;
    assert_eq!(rt;
        reports.as_slice(),
        [11, 1, 12, 2, 12, 2, 13, 2, 19, 2].as_slice()
    );
    Ok(())
}

#[test]
fn a_watcher_may_refuse_memory(rt: HostRuntime) -> Result<(), Fail> {
    let alloc = rt.alloc();
    let mut watchers: Vec<Box<dyn Watcher>> = Vec::new(alloc);
    let mut reports = Vec::new(alloc);
    tell(&mut watchers, &Event::Kept, &mut reports)?;
    let refusing = Counting {
        name: 1,
        told: 0,
        most: 1,
        refuses: true,
    };
    watchers.push(Box::new(alloc, refusing)?)?;
    assert_eq!(rt;
        tell(&mut watchers, &Event::Kept, &mut reports).is_err(),
        true
    );
    report_all(&watchers, &mut reports)?;
    assert_eq!(rt; reports.as_slice(), [1, 0].as_slice());
    Ok(())
}

fn named(alloc: Global) -> Result<Text, Fail> {
    Ok(Text::of(alloc, b"p")?)
}

fn stored(alloc: Global, value: Option<Value>) -> Result<Event, Fail> {
    let name = named(alloc)?;
    Ok(Event::Stored {
        line: 12,
        name,
        value,
    })
}

fn quoted(alloc: Global) -> Result<Event, Fail> {
    let text = setl_value::Text::of(alloc, b"a'b")?;
    stored(alloc, Some(Value::Text(text)))
}

fn called(alloc: Global) -> Result<Event, Fail> {
    let name = named(alloc)?;
    Ok(Event::Called { line: 2, name })
}

fn returned(alloc: Global) -> Result<Event, Fail> {
    let name = named(alloc)?;
    Ok(Event::Returned { name })
}

fn printed(alloc: Global, line: &[u8]) -> Result<Event, Fail> {
    let bytes = Vec::from_slice(alloc, line)?;
    Ok(Event::Printed { bytes })
}

fn first_events(alloc: Global) -> Result<Vec<Event>, Fail> {
    let mut events = Vec::new(alloc);
    events.push(called(alloc)?)?;
    events.push(Event::Kept)?;
    events.push(returned(alloc)?)?;
    events.push(stored(alloc, Some(Value::Int(-5)))?)?;
    Ok(events)
}

fn last_events(alloc: Global) -> Result<Vec<Event>, Fail> {
    let mut events = Vec::new(alloc);
    events.push(stored(alloc, None)?)?;
    events.push(quoted(alloc)?)?;
    events.push(printed(alloc, b"1 {}")?)?;
    events.push(printed(alloc, b"")?)?;
    Ok(events)
}

fn traced(alloc: Global, events: &[Event]) -> Result<Vec<u8>, Fail> {
    let mut trace = Trace::new(alloc)?;
    for e in events {
        if trace.event(e) != Wants::More {
            return Ok(Vec::new(alloc));
        }
    }
    let mut report = Vec::new(alloc);
    trace.report(&mut report)?;
    Ok(report)
}

#[test]
fn a_trace_has_a_line_for_each_event(rt: HostRuntime) -> Result<(), Fail> {
    let alloc = rt.alloc();
    let report = traced(alloc, first_events(alloc)?.as_slice())?;
    assert_eq!(rt;
        report.as_slice(),
        b"call 2 p\nkeep\nreturn p\nstore 12 p -5\n".as_slice()
    );
    let report = traced(alloc, last_events(alloc)?.as_slice())?;
    assert_eq!(rt;
        report.as_slice(),
        b"store 12 p *\nstore 12 p 'a''b'\nprint 1 {}\nprint \n".as_slice()
    );
    Ok(())
}

#[test]
fn a_trace_keeps_a_thousand_events(rt: HostRuntime) -> Result<(), Fail> {
    let alloc = rt.alloc();
    let mut trace = Trace::new(alloc)?;
    for _ in 0..999 {
        assert_eq!(rt; trace.event(&Event::Kept), Wants::More);
    }
    assert_eq!(rt; trace.event(&Event::Back), Wants::Enough);
    assert_eq!(rt; trace.event(&Event::Kept), Wants::Enough);
    let mut report = Vec::new(alloc);
    trace.report(&mut report)?;
    assert_eq!(rt; report.len(), 5000);
    assert_eq!(rt; &report[4990..], b"keep\nback\n".as_slice());
    Ok(())
}

#[test]
fn a_cover_counts_the_stores_of_each_line(rt: HostRuntime) -> Result<(), Fail> {
    let alloc = rt.alloc();
    let mut cover = Cover::new(alloc)?;
    for line in [7, 2, 7, 12, 2, 7] {
        assert_eq!(rt; cover.event(&store(alloc, line, 1)?), Wants::More);
        assert_eq!(rt; cover.event(&Event::Kept), Wants::More);
    }
    let mut report = Vec::new(alloc);
    cover.report(&mut report)?;
    assert_eq!(rt;
        report.as_slice(),
        b"line 2: 2\nline 7: 3\nline 12: 1\n".as_slice()
    );
    assert_eq!(rt; cover.name(), 2);
    Ok(())
}

fn other_called(alloc: Global) -> Result<Event, Fail> {
    let name = Text::of(alloc, b"inc")?;
    Ok(Event::Called { line: 3, name })
}

#[test]
fn a_profile_counts_the_calls_of_each_procedure(rt: HostRuntime) -> Result<(), Fail> {
    let alloc = rt.alloc();
    let mut profile = Profile::new(alloc)?;
    let other = other_called(alloc)?;
    for e in [&other, &called(alloc)?, &other, &stored(alloc, None)?] {
        assert_eq!(rt; profile.event(e), Wants::More);
    }
    assert_eq!(rt; (profile.name(), profile.count()), (3, 3));
    let mut report = Vec::new(alloc);
    profile.report(&mut report)?;
    assert_eq!(rt; report.as_slice(), b"proc inc: 2\nproc p: 1\n".as_slice());
    profile.aim(12);
    profile.report(&mut report)?;
    assert_eq!(rt; (profile.count(), report.len()), (0, 22));
    Ok(())
}

#[test]
fn hits_are_the_stores_at_one_line(rt: HostRuntime) -> Result<(), Fail> {
    let alloc = rt.alloc();
    let mut hits = Hits::new();
    hits.event(&stored(alloc, None)?);
    assert_eq!(rt; (hits.name(), hits.count()), (4, 0));
    hits.aim(12);
    for line in [11, 12, 13, 12] {
        hits.event(&store(alloc, line, 1)?);
    }
    let mut report = Vec::new(alloc);
    hits.report(&mut report)?;
    assert_eq!(rt; (hits.count(), report.len()), (2, 0));
    Ok(())
}

#[test]
fn a_trace_and_a_cover_count_and_begin_again(rt: HostRuntime) -> Result<(), Fail> {
    let alloc = rt.alloc();
    let mut trace = Trace::new(alloc)?;
    let mut cover = Cover::new(alloc)?;
    for e in &first_events(alloc)? {
        trace.event(e);
        cover.event(e);
    }
    assert_eq!(rt; (trace.count(), cover.count()), (4, 1));
    trace.aim(1);
    cover.aim(1);
    assert_eq!(rt; (trace.count(), cover.count()), (0, 0));
    Ok(())
}
