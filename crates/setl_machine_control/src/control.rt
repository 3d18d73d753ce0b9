//! What `fail` doesn't take back.

ghost use Rattle.std.specs.Prelude.{◌≡◌, ◌<◌, ◌^◌, ◌-◌, [], ℕ, List, false, None, IfOk};
ghost use Rattle.setl_text.specs.code.Reads.{ahead, SourceCounts, StaysHonest, TakesOff};
ghost use Rattle.setl_machine_control.specs.Control.{world_of, IsRest, TakesTurn, TakesAtom};
ghost use Rattle.setl_machine_control.specs.Reading.{TakesIn};

use setl_io::Source;
use setl_text::{Got, ReadFault, Reader};
use setl_value::Value;
use std::alloc::{AllocError, Global};
use std::marker::Model;

/// The turns left, the next atom, and where the input is read.
#[derive(Drop)]
pub struct Control {
    pub(crate) alloc: Global,
    pub(crate) turns: u64,
    pub(crate) atom: u64,
    pub(crate) eof: bool,
    pub(crate) reader: Reader,
}

impl Model for Control {
    ghost use Rattle.std.specs.Prelude.{◌<◌, ◌+◌, ◌^◌};
    ghost use Rattle.setl_machine_control.specs.Control.{ControlState};

    ghost Value = { ControlState };

    ghost view = { λ c. record { turns = c.turns; atom = c.atom; eof = c.eof; reader = c.reader } };

    // Each atom takes a turn.
    ghost invariant = { λ c. c.atom + c.turns < 2 ^ 64 };
}

impl Control {
    /// A control with so many turns, which read nothing yet and made no atom.
    ///
    /// The error is want of memory.
    pub fn new(alloc: Global, turns: u64) -> Result<Control, AllocError>
        requires { turns < 2 ^ 63 }
        ensures { IfOk result (λ c. c ≡ record { turns = turns; atom = 1; eof = false; reader = record { kept = []; ended = false; fault = None } }) }
    {
        Ok(Control {
            alloc,
            turns,
            atom: 1,
            eof: false,
            reader: Reader::new(alloc)?,
        })
    }

    /// Takes one turn. Its answer is whether one was left.
    #[inline]
    pub fn turn(&mut self) -> bool
        ensures { TakesTurn self.old result self.new }
    {
        if self.turns == 0 {
            return false;
        }
        self.turns -= 1;
        true
    }

    /// Takes so many turns, or all that are left.
    #[inline]
    pub fn charge(&mut self, turns: u64)
        ensures { self.new ≡ record self.old { turns = self.old.turns - turns } }
    {
        self.turns = self.turns.saturating_sub(turns);
    }

    /// Takes one turn for the next atom, and gives its number; None where no turn is left.
    pub fn new_atom(&mut self) -> Option<u64>
        ensures { TakesAtom self.old result self.new }
    {
        if self.turns == 0 {
            return None;
        }
        let atom = self.atom;
        self.turns -= 1;
        self.atom += 1;
        Some(atom)
    }

    /// The turns left.
    #[inline]
    pub fn turns(&self) -> u64
        ensures { result ≡ self.now.turns }
    {
        self.turns
    }

    /// Whether a read met the end of the input.
    #[inline]
    pub fn eof(&self) -> bool
        ensures { result ≡ self.now.eof }
    {
        self.eof
    }

    /// The allocator.
    #[inline]
    pub fn alloc(&self) -> Global {
        self.alloc
    }

    /// The value that the next denotation of the input denotes, where None is `om`. At the end of the input it is `om`, and
    /// the control notes it.
    pub fn take_denotation<I: Source>(&mut self, input: &mut I) -> Result<Option<Value>, ReadFault>
        requires { self.old.reader.fault ≡ None }
        ensures took_in { (rest' : List ℕ) → IsRest (ahead self.new.reader.ended (I.left input.new)) rest' →
            (rest : List ℕ) × IsRest (ahead self.old.reader.ended (I.left input.old)) rest × TakesIn (world_of self.old rest) (world_of self.new rest') result }
        ensures fault { IfOk result (λ value. self.new.reader.fault ≡ None) }
        ensures source { SourceCounts (I.faults input.old) (I.faults input.new) result }
        ensures took { TakesOff (I.left input.old) (I.left input.new) }
        ensures honest { StaysHonest self.old.reader.ended (I.left input.old) self.new.reader.ended (I.left input.new) }
    {
        match self.reader.next(input) {
            Ok(Got::Value(value)) => Ok(Some(value)),
            Ok(Got::Om) => Ok(None),
            Ok(Got::End) => {
                self.eof = true;
                Ok(None)
            }
            Err(fault) => Err(fault),
        }
    }
}
