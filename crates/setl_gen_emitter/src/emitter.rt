//! Steps that grow, with targets that are filled in behind.

ghost use Rattle.std.specs.Prelude.{◌≡◌, [], OnOk, IfOk, Some, None};
ghost use Rattle.setl_program.specs.code.Plain.{plain_variable};
ghost use Rattle.setl_value.specs.Datum.{text};
ghost use Rattle.setl_code.specs.Code.{Push, Load, StoreIn, Decides, Unless, Jump, NextOr};
ghost use Rattle.setl_code.specs.Piece.{◌⨾◌, one, jumps_out, jumps_on};
ghost use Rattle.setl_code.specs.Plain.{plain_instr};
ghost use Rattle.setl_gen_emitter.specs.Table.{variables};
ghost use Rattle.setl_gen_emitter.specs.Emitted.{held, here, after, with_step, with_exits, with_again, all_filled, closed};

use crate::hole::Hole;
use crate::names::Names;
use setl_code::{Instr, Step};
use setl_program::{Connective, Variable};
use setl_tree::{Items, Text};
use std::alloc::{AllocError, Global};
use std::mem;

/// The steps of a body, the jumps out of the innermost loop, and where that loop goes on.
#[derive(Drop)]
pub struct Emitter<'p> {
    pub alloc: Global,
    pub names: Names<'p>,
    pub steps: Vec<Step>,
    pub exits: Items<Hole>,
    pub again: u32,
}

/// A number as code has it. The error is that it is 2^32 or more, where no memory was refused: a limit of the code, which
/// counts its steps, slots and bodies in 32 bits. A source has at most 2^24 bytes, so a program of one comes to it only
/// where a body has 256 steps for each byte.
pub fn number(n: usize) -> Result<u32, AllocError>
    ensures { IfOk result (λ k. k ≡ n) }
{
    match u32::try_from(n) {
        Ok(k) => Ok(k),
        Err(_) => Err(AllocError),
    }
}

impl<'p> Emitter<'p> {
    /// The place of the next step. The error is that there are 2^32 steps (`number`).
    pub fn here(&self) -> Result<u32, AllocError>
        ensures { IfOk result (λ at. at ≡ here (held self.now)) }
    {
        number(self.steps.len())
    }

    /// A step, with its place. The error is want of memory, or that there are 2^32 steps (`number`).
    pub fn step(&mut self, line: u32, what: Instr) -> Result<u32, AllocError>
        ensures place { IfOk result (λ at. at ≡ here (held self.old)) }
        ensures code { OnOk result (held self.new ≡ after (one line (plain_instr (variables self.old.names) what)) (held self.old)) }
    {
        let at = number(self.steps.len())?;
        self.steps.push(Step { line, what })?;
        Ok(at)
    }

    /// Another step in the place of one that is there.
    pub fn fill(&mut self, at: u32, line: u32, what: Instr)
        ensures { held self.new ≡ with_step at line (plain_instr (variables self.old.names) what) (held self.old) }
    {
        if (at as usize) < self.steps.len() {
            self.steps[at as usize] = Step { line, what };
        }
    }

    /// A jump out of the loop.
    pub fn jump_out(&mut self, line: u32) -> Result<(), AllocError>
        ensures { OnOk result (held self.new ≡ after (jumps_out line) (held self.old)) }
    {
        let place = self.step(line, Instr::Jump(0))?;
        self.exits.push(Hole { place, line })
    }

    /// A jump to where the loop goes on.
    pub fn jump_on(&mut self, line: u32) -> Result<(), AllocError>
        ensures { OnOk result (held self.new ≡ after (jumps_on line) (held self.old)) }
    {
        let again = self.again;
        self.put(line, Instr::Jump(again))?;
        Ok(())
    }

    /// Takes the jumps out of the loop, for a loop inside.
    pub fn enter(&mut self) -> Items<Hole>
        ensures outer { result ≡ self.old.exits }
        ensures rest { held self.new ≡ with_exits [] (held self.old) }
    {
        mem::replace(&mut self.exits, Items::new(self.alloc))
    }

    /// Puts the jumps out of the loop around back, in place of a loop's own.
    pub fn leave(&mut self, outer: Items<Hole>) -> Items<Hole>
        ensures inner { result ≡ self.old.exits }
        ensures rest { held self.new ≡ with_exits outer (held self.old) }
    {
        mem::replace(&mut self.exits, outer)
    }

    /// Sets where the loop goes on. It gives where the loop around does.
    pub fn go_on_at(&mut self, at: u32) -> u32
        ensures outer { result ≡ self.old.again }
        ensures rest { held self.new ≡ with_again at (held self.old) }
    {
        mem::replace(&mut self.again, at)
    }

    /// Gives jumps their target.
    pub fn fill_all(&mut self, exits: Items<Hole>, to: u32)
        ensures { held self.new ≡ all_filled to exits (held self.old) }
    {
        let mut exits = exits;
        while let Some(exit) = exits.pop() {
            self.fill(exit.place, exit.line, Instr::Jump(to));
        }
    }

    /// Jumps lead to the next step.
    pub fn close(&mut self, exits: Items<Hole>) -> Result<(), AllocError>
        ensures { OnOk result (held self.new ≡ closed exits (held self.old)) }
    {
        let end = self.here()?;
        self.fill_all(exits, end);
        Ok(())
    }

    /// A test, at a place, goes on at the next step where it fails.
    pub fn unless_here(&mut self, at: u32, line: u32) -> Result<(), AllocError>
        ensures { OnOk result (held self.new ≡ with_step at line (Unless (here (held self.old))) (held self.old)) }
    {
        let end = self.here()?;
        self.fill(at, line, Instr::Unless(end));
        Ok(())
    }

    /// A jump, at a place, leads to the next step.
    pub fn jump_here(&mut self, at: u32, line: u32) -> Result<(), AllocError>
        ensures { OnOk result (held self.new ≡ with_step at line (Jump (here (held self.old))) (held self.old)) }
    {
        let end = self.here()?;
        self.fill(at, line, Instr::Jump(end));
        Ok(())
    }

    /// A decision, at a place, leads to the next step.
    pub fn decide_here(
        &mut self,
        at: u32,
        line: u32,
        connective: Connective,
    ) -> Result<(), AllocError>
        ensures { OnOk result (held self.new ≡ with_step at line (Decides connective (here (held self.old))) (held self.old)) }
    {
        let end = self.here()?;
        self.fill(at, line, Instr::Decide(connective, end));
        Ok(())
    }

    /// An iterator's next step, at a place, leads to the next step at its end.
    pub fn next_here(&mut self, at: u32, line: u32) -> Result<(), AllocError>
        ensures { OnOk result (held self.new ≡ with_step at line (NextOr (here (held self.old))) (held self.old)) }
    {
        let end = self.here()?;
        self.fill(at, line, Instr::Next(end));
        Ok(())
    }

    /// A step.
    pub fn put(&mut self, line: u32, what: Instr) -> Result<(), AllocError>
        ensures { OnOk result (held self.new ≡ after (one line (plain_instr (variables self.old.names) what)) (held self.old)) }
    {
        self.step(line, what)?;
        Ok(())
    }

    /// A string.
    pub fn text(&mut self, line: u32, t: &Text) -> Result<(), AllocError>
        ensures { OnOk result (held self.new ≡ after (one line (Push (Some (text t.now)))) (held self.old)) }
    {
        let copy = t.copy()?;
        self.put(line, Instr::Text(copy))
    }

    /// A read of a variable.
    pub fn load(&mut self, line: u32, x: &'p Variable) -> Result<(), AllocError>
        ensures { OnOk result (held self.new ≡ after (one line (Load (plain_variable x.now))) (held self.old)) }
    {
        let slot = self.names.slot(x)?;
        self.put(line, Instr::Load(slot))
    }

    /// A store in a variable.
    pub fn store(&mut self, line: u32, x: &'p Variable) -> Result<(), AllocError>
        ensures { OnOk result (held self.new ≡ after (one line (StoreIn (plain_variable x.now))) (held self.old)) }
    {
        let slot = self.names.slot(x)?;
        self.put(line, Instr::Store(slot))
    }

    /// `om` in a variable.
    pub fn clear(&mut self, line: u32, x: &'p Variable) -> Result<(), AllocError>
        ensures { OnOk result (held self.new ≡ after (one line (Push None) ⨾ one line (StoreIn (plain_variable x.now))) (held self.old)) }
    {
        self.put(line, Instr::Undefined)?;
        self.store(line, x)?;
        Ok(())
    }
}
