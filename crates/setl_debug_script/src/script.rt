//! Scripts.

ghost use Rattle.std.specs.Prelude.{◌≡◌, ◌++◌, IfOk, OnOk};
ghost use Rattle.std.specs.List.{AllByRecursion};
ghost use Rattle.setl_debug_script.specs.Scripts.{IsInRange, input_line, input_of};

use crate::command::Command;
use setl_tree::Items;
use std::alloc::{AllocError, Global};
use std::marker::Model;

/// A script, which contracts see as the list of its commands.
#[derive(Debug, Drop)]
pub struct Script {
    commands: Items<Command>,
}

impl Model for Script {
    ghost use Rattle.std.specs.Prelude.{List};
    ghost use Rattle.setl_debug_script.specs.declared.command.Command.{Command};

    ghost Value = { List Command };

    ghost view = { λ s. s.commands };

    ghost use Rattle.std.specs.List.{AllByRecursion};
    ghost use Rattle.setl_debug_script.specs.Scripts.{IsInRange};

    ghost invariant = { λ s. AllByRecursion IsInRange s.commands };
}

impl Script {
    /// The script of these commands.
    pub(crate) fn of(commands: Items<Command>) -> Script
        requires { AllByRecursion IsInRange commands }
        ensures { result ≡ commands }
    {
        Script { commands }
    }

    /// The commands in their order.
    pub fn commands(&self) -> &[Command]
        ensures value { result.now ≡ self.now }
        ensures in_range { AllByRecursion IsInRange result.now }
    {
        self.commands.as_slice()
    }

    /// What the program reads: the texts of the `input` lines in their order, each with byte 10 behind it. The error is
    /// want of memory.
    pub fn input(&self, alloc: Global) -> Result<Vec<u8>, AllocError>
        ensures { IfOk result (λ v. v.items ≡ input_of self.now) }
    {
        let mut bytes = Vec::new(alloc);
        for command in self.commands() {
            push_input(&mut bytes, command)?;
        }
        Ok(bytes)
    }
}

/// Adds what a command adds to the input of the program. The error is want of memory.
fn push_input(into: &mut Vec<u8>, command: &Command) -> Result<(), AllocError>
    ensures { OnOk result (into.new.items ≡ into.old.items ++ input_line command.now) }
{
    if let Command::Input(text) = command {
        into.extend_from_slice(text.bytes())?;
        into.push(b'\n')?;
    }
    Ok(())
}
