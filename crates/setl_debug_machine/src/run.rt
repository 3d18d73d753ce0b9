//! Runs of programs, as targets.

ghost use Rattle.std.specs.Prelude.{◌≡◌, [], None, map, IfOk};
ghost use Rattle.setl_code.specs.CodeOf.{code_of};
ghost use Rattle.setl_code.specs.MayRun.{MayRun};
ghost use Rattle.setl_code.specs.Plain.{plain_code};
ghost use Rattle.setl_machine_control.specs.Declaring.{AreOfMain, IsBare};
ghost use Rattle.setl_program.specs.Formed.{Formed};
ghost use Rattle.setl_program.specs.code.Plain.{plain_program};
ghost use Rattle.setl_debug_machine.specs.Growing.{HasScreen, more_turns_more_hits};
ghost use Rattle.setl_debug_machine.specs.Runs.{run_of};
ghost use Rattle.setl_debug_machine.specs.Screens.{PlainRun};

use crate::follower::Follower;
use crate::parts::{push_profile, push_written};
use crate::seeing::walk_seeing;
use crate::showing::push_shown;
use crate::subject::{Subject, counted};
use crate::walk::{Place, Walk, place_of};
use setl_code::Code;
use setl_debug_target::Target;
use setl_machine::Declarations;
use setl_program::Program;
use std::alloc::{AllocError, Global};
use std::marker::Model;

/// The run of a program on an input in memory, of which one state at a time is looked at.
///
/// `go` goes on from the state at which the run stands, where it counts at the same line and is to have as many turns or
/// more; else it starts anew. `show` goes on in the same way, with a machine of its own, from the last state that it showed.
#[derive(Drop)]
pub struct ProgramRun<'p> {
    subject: Subject<'p>,
    // it stands at the place, or memory was refused on the way elsewhere
    walk: Option<Walk<'p>>,
    // at the state that was shown last
    follower: Option<Follower<'p>>,
    place: Option<Place>,
}

impl<'p> Model for ProgramRun<'p> {
    ghost use Rattle.std.specs.Coded.{codes};
    ghost use Rattle.setl_modes.specs.contracts.mode.Mode as mode;
    ghost use Rattle.setl_program.specs.contracts.stmt.Stmt as stmt;
    ghost use Rattle.setl_debug_machine.specs.Runs.{RunState};

    ghost Value = { RunState };

    ghost coded = { Prim.hlevel (codes, mode.the_row.coded, stmt.the_row.coded) };

    ghost use Rattle.setl_debug_machine.specs.code.Walks.{Stands, stand_of};

    ghost view = { λ r. record { program = r.subject.program.now; input = r.subject.input.items; based = r.subject.based; stand = stand_of r.place } };

    ghost invariant = { λ r. Stands r.subject r.walk r.follower r.place };
}

impl<'p> ProgramRun<'p> {
    /// The run of a program, whose code this is, on an input, where its declarations count or not; they name so many
    /// bases. It stands nowhere yet. The error is want of memory.
    pub fn new(
        alloc: Global,
        program: &'p Program,
        code: &'p Code,
        input: Vec<u8>,
        based: bool,
        bases: u32,
    ) -> Result<ProgramRun<'p>, AllocError>
        requires may_run { MayRun code.now }
        requires bare { IsBare (plain_code code.now) }
        requires main { AreOfMain (plain_program program.now).modes }
        requires formed { Formed (plain_program program.now) }
        requires code { plain_code code.now ≡ code_of (plain_program program.now) }
        ensures { IfOk result (λ r. r ≡ record { program = program.now; input = input.items; based = based; stand = None }) }
    {
        setl_model_turns::more_turns_go_on();
        let declarations = Declarations::new(alloc, code, counted(program, based))?;
        Ok(ProgramRun {
            subject: Subject {
                alloc,
                program,
                code,
                input,
                based,
                bases,
                declarations,
            },
            walk: None,
            follower: None,
            place: None,
        })
    }
}

impl<'p> Target for ProgramRun<'p> {
    ghost Run = { PlainRun };

    ghost run = { λ r. run_of r };

    ghost shows = { λ r turns s. HasScreen r turns s };

    ghost stand = { λ r. r.stand };

    ghost hits_grow = { more_turns_more_hits };

    fn go(&mut self, turns: u64, line: u32) -> Result<(), AllocError> {
        let walk = self.walk.take();
        let walk = walk_seeing(&self.subject, walk, turns, line)?;
        self.place = Some(place_of(&walk, turns));
        self.walk = Some(walk);
        Ok(())
    }

    fn hits(&self) -> u64 {
        match self.place {
            Some(place) => place.hits,
            None => unreachable!(),
        }
    }

    fn show(&mut self, into: &mut Vec<u8>) -> Result<(), AllocError> {
        let Some(place) = self.place else {
            unreachable!()
        };
        let mut shown = Vec::new(self.subject.alloc);
        push_shown(
            &self.subject,
            &mut self.walk,
            &mut self.follower,
            place,
            &mut shown,
        )?;
        into.extend_from_slice(&shown)
    }

    fn output(&self, into: &mut Vec<u8>) -> Result<(), AllocError> {
        let Some(place) = self.place else {
            unreachable!()
        };
        push_written(&self.subject, &self.walk, place, into)
    }

    fn profile(&self, into: &mut Vec<u8>) -> Result<(), AllocError> {
        let Some(place) = self.place else {
            unreachable!()
        };
        push_profile(&self.subject, &self.walk, place, into)
    }
}
