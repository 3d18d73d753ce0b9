//! Sessions.

ghost use Rattle.std.specs.Prelude.{◌≡◌, ◌<◌, ◌^◌, ◌++◌, ℕ, List, IfOk, IfErr};
ghost use Rattle.setl_debug.specs.Ends.{Ends};
ghost use Rattle.setl_debug.specs.Sessions.{Does};
ghost use Rattle.setl_debug.specs.code.Steps.{Steps, Breaks};
ghost use Rattle.setl_debug_script.specs.Scripts.{IsInRange};

use crate::obeying::obey;
use crate::place::Place;
use setl_debug_script::{Command, Script};
use setl_debug_target::Target;
use setl_io::{Sink, WriteFault, write_all};
use std::alloc::Global;

/// How a session ends.
#[derive(Clone, Copy, Debug, PartialEq, Eq)]
pub enum Ended {
    /// All commands were followed.
    Done,
    /// The output failed, and counted it.
    WriteFault,
    /// Memory ran out.
    NoMemory,
}

/// Follows a command: what it tells is added to the output. Gives where the session stands then, or how it ends.
fn follow<T: Target, O: Sink>(
    alloc: Global,
    target: &mut T,
    command: &Command,
    at: Place,
    out: &mut O,
) -> Result<Place, Ended>
    requires small { at.turns < 2 ^ 63 }
    requires in_range { IsInRange command.now }
    ensures ok { IfOk result (λ next. Steps (T.shows (T.run target.old)) command.now at.turns (O.held out.old) (O.held out.new) (O.faults out.old) (O.faults out.new) next.turns) }
    ensures err { IfErr result (Breaks (T.shows (T.run target.old)) command.now at.turns (O.held out.old) (O.held out.new) (O.faults out.old) (O.faults out.new)) }
    ensures small { IfOk result (λ next. next.turns < 2 ^ 63) }
    ensures run { T.run target.new ≡ T.run target.old }
{
    let mut told = Vec::new(alloc);
    let Ok(next) = obey(target, command, at, &mut told) else {
        return Err(Ended::NoMemory);
    };
    match write_all(out, &told) {
        Ok(()) => Ok(next),
        Err(WriteFault::Failed) => Err(Ended::WriteFault),
        Err(WriteFault::NoMemory) => Err(Ended::NoMemory),
    }
}

/// Follows the commands of a script over the run of a target, from no turns on, and adds what they tell to the output.
///
/// `Done` comes where all of them were followed. `WriteFault` comes only where the output's count of faults rose, and
/// `NoMemory` is want of memory; the first commands were followed then, and of what the next one tells a part may have
/// been added. A command costs the turns from the last place to the next one, or all turns up to it where the session
/// went back or `until` looked at another line; `until` looks 1,024 turns ahead one by one, and behind them by halves.
pub fn session<T: Target, O: Sink>(
    alloc: Global,
    script: &Script,
    target: &mut T,
    out: &mut O,
) -> Ended
    ensures ends { Ends (T.shows (T.run target.old)) script.now (O.held out.old) (O.held out.new) (O.faults out.old) (O.faults out.new) result }
    ensures run { T.run target.new ≡ T.run target.old }
{
    let mut at = Place { turns: 0, line: 0 };
    for command in script.commands() {
        match follow(alloc, target, command, at, out) {
            Ok(next) => at = next,
            Err(ended) => return ended,
        }
    }
    Ended::Done
}
