//! One command.

ghost use Rattle.std.specs.Prelude.{◌≡◌, ◌<◌, ◌^◌, ◌++◌, List, ℕ, IfOk, OnOk};
ghost use Rattle.setl_debug.specs.Sessions.{Does, IsPart};
ghost use Rattle.setl_debug_script.specs.Scripts.{IsInRange};
ghost use Rattle.setl_debug_script.specs.declared.command.Command.TheVariants as command;

use crate::place::Place;
use crate::until::{MOST_TURNS, until};
use setl_debug_script::Command;
use setl_debug_target::Target;
use std::alloc::AllocError;

/// Adds where the program is after so many turns, and what its variables hold. The error is want of memory.
fn show<T: Target>(target: &mut T, at: Place, into: &mut Vec<u8>) -> Result<(), AllocError>
    requires { at.turns < 2 ^ 63 }
    ensures told { OnOk result ((told : List ℕ) × IsPart (T.shows (T.run target.old)) (λ s. s.shown) at.turns told × (into.new.items ≡ into.old.items ++ told)) }
    ensures run { T.run target.new ≡ T.run target.old }
{
    target.go(at.turns, at.line)?;
    target.show(into)
}

/// Adds what the program has written after so many turns. The error is want of memory.
fn output<T: Target>(target: &mut T, at: Place, into: &mut Vec<u8>) -> Result<(), AllocError>
    requires { at.turns < 2 ^ 63 }
    ensures told { OnOk result ((told : List ℕ) × IsPart (T.shows (T.run target.old)) (λ s. s.written) at.turns told × (into.new.items ≡ into.old.items ++ told)) }
    ensures run { T.run target.new ≡ T.run target.old }
{
    target.go(at.turns, at.line)?;
    target.output(into)
}

/// Adds how often each procedure was called after so many turns. The error is want of memory.
fn profile<T: Target>(target: &mut T, at: Place, into: &mut Vec<u8>) -> Result<(), AllocError>
    requires { at.turns < 2 ^ 63 }
    ensures told { OnOk result ((told : List ℕ) × IsPart (T.shows (T.run target.old)) (λ s. s.profile) at.turns told × (into.new.items ≡ into.old.items ++ told)) }
    ensures run { T.run target.new ≡ T.run target.old }
{
    target.go(at.turns, at.line)?;
    target.profile(into)
}

/// Goes to the next store at a line, or adds that there is none. The error is want of memory.
fn go_until<T: Target>(
    target: &mut T,
    at: Place,
    line: u32,
    into: &mut Vec<u8>,
) -> Result<Place, AllocError>
    requires { at.turns < 2 ^ 63 }
    ensures does { IfOk result (λ next. (told : List ℕ) × Does (T.shows (T.run target.old)) (command.Until line) at.turns told next.turns × (into.new.items ≡ into.old.items ++ told)) }
    ensures small { IfOk result (λ next. next.turns < 2 ^ 63) }
    ensures run { T.run target.new ≡ T.run target.old }
{
    match until(target, line, at.turns)? {
        Some(turns) => Ok(Place { turns, line }),
        None => {
            into.extend_from_slice(b"no hit\n")?;
            Ok(Place {
                turns: at.turns,
                line,
            })
        }
    }
}

/// Does what a command says: adds what it tells, and gives where the session stands then. The error is want of memory.
pub(crate) fn obey<T: Target>(
    target: &mut T,
    command: &Command,
    at: Place,
    into: &mut Vec<u8>,
) -> Result<Place, AllocError>
    requires small { at.turns < 2 ^ 63 }
    requires in_range { IsInRange command.now }
    ensures does { IfOk result (λ next. (told : List ℕ) × Does (T.shows (T.run target.old)) command.now at.turns told next.turns × (into.new.items ≡ into.old.items ++ told)) }
    ensures small { IfOk result (λ next. next.turns < 2 ^ 63) }
    ensures run { T.run target.new ≡ T.run target.old }
{
    match command {
        Command::Input(_) | Command::Nothing => Ok(at),
        Command::Go(turns) => Ok(at.after(*turns)),
        Command::On(turns) => Ok(at.after((at.turns + *turns).min(MOST_TURNS))),
        Command::Back(turns) => Ok(at.after(at.turns.saturating_sub(*turns))),
        Command::Until(line) => go_until(target, at, *line, into),
        Command::Show => {
            show(target, at, into)?;
            Ok(at)
        }
        Command::Out => {
            output(target, at, into)?;
            Ok(at)
        }
        Command::Profile => {
            profile(target, at, into)?;
            Ok(at)
        }
    }
}
