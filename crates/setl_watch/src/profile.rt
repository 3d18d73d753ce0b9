//! The profile of a run.

ghost use Rattle.std.specs.Prelude.{◌≡◌, ◌^◌, ◌-◌, ◌++◌, ◌∷◌, [], codes, decimal, min, IfOk, OnOk, OnErr};
ghost use Rattle.setl_watch.specs.Profiles.{profile, lines_of, calls_in, with_call};

use crate::text::push_word;
use crate::{Event, Wants, Watcher};
use indexmap::IndexMap;
use setl_text::push_decimal;
use setl_tree::Text;
use std::alloc::{AllocError, Global};
use std::marker::Model;

/// The watcher with the name 3: it counts the calls of each procedure, never has enough, and reports a line for each
/// procedure that was called, by its first call. Contracts see the list of the procedures, each with the line of its first
/// call and the number of its calls.
#[derive(Drop)]
pub struct Profile {
    // by the name: the line of the first call, and how many calls there were
    calls: IndexMap<Vec<u8>, (u32, u64)>,
    alloc: Global,
}

impl Model for Profile {
    ghost use Rattle.std.specs.Prelude.{map};
    ghost use Rattle.setl_watch.specs.Profiles.{Procedures};

    ghost Value = { Procedures };

    ghost view = { λ p. map (λ e. (e.0.items, e.1)) p.calls.entries };
}

impl Profile {
    /// No call. The error is want of memory.
    pub fn new(alloc: Global) -> Result<Profile, AllocError>
        ensures { IfOk result (λ p. p ≡ []) }
    {
        Ok(Profile {
            calls: IndexMap::with_capacity(alloc, 1)?,
            alloc,
        })
    }

    /// Counts a call at a line. The error is want of memory, or that the procedure has 2^64 - 1 calls, where no memory was
    /// refused, and then the profile is as before. No clause rules that out; it takes 2^64 - 1 events.
    fn count_call(&mut self, line: u32, name: &Text) -> Result<(), AllocError>
        ensures ok { OnOk result (self.new ≡ with_call line name.now self.old) }
        ensures err { OnErr result (self.new ≡ self.old) }
    {
        let name = name.bytes();
        let calls = match self.calls.get(name) {
            None => (line, 1),
            Some((first, count)) => match count.checked_add(1) {
                Some(count) => (*first, count),
                None => return Err(AllocError),
            },
        };
        let key = Vec::from_slice(self.alloc, name)?;
        self.calls.insert(key, calls)?;
        Ok(())
    }

    /// How many calls there were, or 2^64 - 1 where there were more.
    fn all_calls(&self) -> u64
        ensures { result ≡ min (calls_in self.now) (2 ^ 64 - 1) }
    {
        let mut calls = 0_u64;
        for (_, (_, count)) in &self.calls {
            calls = calls.saturating_add(*count);
        }
        calls
    }

    /// The lines of the report.
    fn lines(&self) -> Result<Vec<u8>, AllocError>
        ensures { IfOk result (λ lines. lines.items ≡ lines_of self.now) }
    {
        let mut into = Vec::new(self.alloc);
        for (name, (_, count)) in &self.calls {
            push_calls(&mut into, name, *count)?;
        }
        Ok(into)
    }
}

/// Adds the line of a procedure.
fn push_calls(into: &mut Vec<u8>, name: &Vec<u8>, count: u64) -> Result<(), AllocError>
    ensures { OnOk result (into.new.items ≡ into.old.items ++ (codes "proc " ++ name.now.items ++ codes ": " ++ decimal count ++ 10 ∷ [])) }
{
    push_word(into, "proc ")?;
    into.extend_from_slice(name)?;
    push_word(into, ": ")?;
    push_decimal(into, count)?;
    into.push(b'\n')?;
    Ok(())
}

impl Watcher for Profile {
    ghost watch = { λ procedures. profile procedures };

    fn name(&self) -> u8 {
        3
    }

    #[tactic(auto, using(crate::proofs::Profiling::called_once_more))]
    fn event(&mut self, e: &Event) -> Wants {
        let Event::Called { line, name } = e else {
            return Wants::More;
        };
        match self.count_call(*line, name) {
            Ok(()) => Wants::More,
            Err(_) => Wants::NoMemory,
        }
    }

    #[tactic(auto, using(crate::proofs::Profiling::report_is))]
    fn report(&self, into: &mut Vec<u8>) -> Result<(), AllocError> {
        let lines = self.lines()?;
        into.extend_from_slice(&lines)
    }

    #[tactic(auto, using(crate::proofs::Profiling::count_is))]
    fn count(&self) -> u64 {
        self.all_calls()
    }

    fn aim(&mut self, _line: u32) {
        self.calls.clear();
    }
}
