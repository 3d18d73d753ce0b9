//! The cover of a run.

ghost use Rattle.std.specs.Prelude.{◌≡◌, ◌≤◌, ◌<◌, ◌^◌, ◌-◌, min, ◌++◌, ◌∷◌, [], length, IsTrue, IfOk, OnOk, OnErr};
ghost use Rattle.setl_watch.specs.Covers.{cover, all_counted, counted, cover_report, has, place};

use crate::text::push_word;
use crate::{Event, Wants, Watcher};
use setl_text::push_decimal;
use std::alloc::{AllocError, Global};
use std::marker::Model;

/// The watcher with the name 2: it counts the stores of each line, never has enough, and reports a line for each line
/// with stores, rising. Contracts see the list of the lines with their counts.
#[derive(Drop)]
pub struct Cover {
    counts: Vec<(u32, u64)>,
    alloc: Global,
}

impl Model for Cover {
    ghost use Rattle.setl_watch.specs.Covers.{Counts};

    ghost Value = { Counts };

    ghost view = { λ c. c.counts.items };
}

impl Cover {
    /// No store. The error is want of memory.
    pub fn new(alloc: Global) -> Result<Cover, AllocError>
        ensures { IfOk result (λ c. c ≡ []) }
    {
        Ok(Cover {
            counts: Vec::with_capacity(alloc, 1)?,
            alloc,
        })
    }

    /// Counts a store at a line. The error is want of memory, or that the line has 2^64 - 1 stores, where no memory was
    /// refused, and then the cover is as before. No clause rules that out; it takes 2^64 - 1 events.
    fn count(&mut self, line: u32) -> Result<(), AllocError>
        ensures ok { OnOk result (self.new ≡ counted line self.old) }
        ensures err { OnErr result (self.new ≡ self.old) }
    {
        let at = place(&self.counts, line);
        if !has(&self.counts, at, line) {
            self.counts.insert(at, (line, 1))?;
            return Ok(());
        }
        let Some(count) = self.counts[at].1.checked_add(1) else {
            return Err(AllocError);
        };
        self.counts[at].1 = count;
        Ok(())
    }

    /// How many stores there were, or 2^64 - 1 where there were more.
    fn stores(&self) -> u64
        ensures { result ≡ min (all_counted self.now) (2 ^ 64 - 1) }
    {
        let mut stores = 0_u64;
        for (_, count) in &self.counts {
            stores = stores.saturating_add(*count);
        }
        stores
    }

    /// The lines of the report.
    fn lines(&self) -> Result<Vec<u8>, AllocError>
        ensures { IfOk result (λ lines. lines.items ≡ cover_report self.now) }
    {
        let mut into = Vec::new(self.alloc);
        for (line, count) in &self.counts {
            push_count(&mut into, *line, *count)?;
        }
        Ok(into)
    }
}

/// How many lines in front are lower.
fn place(counts: &[(u32, u64)], line: u32) -> usize
    ensures place { result ≡ place line counts.now }
    ensures within { result ≤ length counts.now }
{
    let mut at = 0;
    while at < counts.len() && counts[at].0 < line {
        at += 1;
    }
    at
}

/// Whether the line at this place is that one.
fn has(counts: &[(u32, u64)], at: usize, line: u32) -> bool
    requires { at ≡ place line counts.now }
    ensures same { result ≡ has line counts.now }
    ensures within { IsTrue result → at < length counts.now }
{
    at < counts.len() && counts[at].0 == line
}

/// Adds the line of a line and its count.
fn push_count(into: &mut Vec<u8>, line: u32, count: u64) -> Result<(), AllocError>
    ensures { OnOk result (into.new.items ≡ into.old.items ++ cover_report ((line, count) ∷ [])) }
{
    push_word(into, "line ")?;
    push_decimal(into, u64::from(line))?;
    push_word(into, ": ")?;
    push_decimal(into, count)?;
    into.push(b'\n')?;
    Ok(())
}

impl Watcher for Cover {
    ghost watch = { λ counts. cover counts };

    fn name(&self) -> u8 {
        2
    }

    fn event(&mut self, e: &Event) -> Wants {
        let Event::Stored { line, .. } = e else {
            return Wants::More;
        };
        match self.count(*line) {
            Ok(()) => Wants::More,
            Err(_) => Wants::NoMemory,
        }
    }

    fn report(&self, into: &mut Vec<u8>) -> Result<(), AllocError> {
        let lines = self.lines()?;
        into.extend_from_slice(&lines)
    }

    fn count(&self) -> u64 {
        self.stores()
    }

    fn aim(&mut self, _line: u32) {
        self.counts.clear();
    }
}
