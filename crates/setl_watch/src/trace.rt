//! The trace of a run.

ghost use Rattle.std.specs.Prelude.{◌≡◌, ◌++◌, ◌∷◌, [], IfOk, OnOk, OnErr};
ghost use Rattle.setl_watch.specs.code.NoticeOf.{notice_of};
ghost use Rattle.setl_watch.specs.Traces.{trace, trace_report};

use crate::text::push_event;
use crate::{Event, Wants, Watcher};
use std::alloc::{AllocError, Global};
use std::marker::Model;

/// How many events a trace keeps.
const MOST: usize = 1000;

/// The watcher with the name 1: it keeps the first 1,000 events of a run, has enough then, and reports a line for each.
/// Contracts see the list of the events.
#[derive(Drop)]
pub struct Trace {
    events: Vec<Event>,
    alloc: Global,
}

impl Model for Trace {
    ghost use Rattle.std.specs.Prelude.{List, map};
    ghost use Rattle.std.specs.Coded.{coded_list};
    ghost use Rattle.setl_watch.specs.Notices.{Notice};
    ghost use Rattle.setl_watch.specs.code.NoticeCode.{notice_code};
    ghost use Rattle.setl_watch.specs.code.NoticeOf.{notice_of};

    ghost Value = { List Notice };

    ghost coded = { coded_list notice_code };

    ghost view = { λ t. map notice_of t.events.items };
}

impl Trace {
    /// No event. The error is want of memory.
    pub fn new(alloc: Global) -> Result<Trace, AllocError>
        ensures { IfOk result (λ t. t ≡ []) }
    {
        Ok(Trace {
            events: Vec::with_capacity(alloc, 1)?,
            alloc,
        })
    }

    /// Keeps an event. The error is want of memory, and then the trace is as before.
    fn keep(&mut self, e: &Event) -> Result<(), AllocError>
        ensures ok { OnOk result (self.new ≡ self.old ++ notice_of e.now ∷ []) }
        ensures err { OnErr result (self.new ≡ self.old) }
    {
        let e = e.copy(self.alloc)?;
        self.events.push(e)?;
        Ok(())
    }

    /// The lines of the events.
    fn lines(&self) -> Result<Vec<u8>, AllocError>
        ensures { IfOk result (λ lines. lines.items ≡ trace_report self.now) }
    {
        let mut into = Vec::new(self.alloc);
        for e in &self.events {
            push_event(&mut into, e, self.alloc)?;
            into.push(b'\n')?;
        }
        Ok(into)
    }
}

impl Watcher for Trace {
    ghost watch = { λ events. trace events };

    fn name(&self) -> u8 {
        1
    }

    fn event(&mut self, e: &Event) -> Wants {
        if self.events.len() >= MOST {
            return Wants::Enough;
        }
        match self.keep(e) {
            Ok(()) if self.events.len() < MOST => Wants::More,
            Ok(()) => Wants::Enough,
            Err(_) => Wants::NoMemory,
        }
    }

    fn report(&self, into: &mut Vec<u8>) -> Result<(), AllocError> {
        let lines = self.lines()?;
        into.extend_from_slice(&lines)
    }

    fn count(&self) -> u64 {
        self.events.len() as u64
    }

    fn aim(&mut self, _line: u32) {
        self.events.clear();
    }
}
