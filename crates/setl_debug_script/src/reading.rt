//! Scripts are read.

ghost use Rattle.std.specs.Prelude.{◌≡◌, ◌≢◌, ◌≤◌, ◌^◌, ◌↔◌, codes, Some, None, IsTrue, IfOk, IfErr, MatchOption, length};
ghost use Rattle.std.specs.List.{AllByRecursion};
ghost use Rattle.setl_debug_script.specs.Lines.{lines};
ghost use Rattle.setl_debug_script.specs.Scripts.{AreCommands, IsCommand, IsFaulty, IsFirstFault};
ghost use Rattle.setl_debug_script.specs.code.Faults.{Tells};
ghost use Rattle.setl_debug_script.specs.code.Parts.{SpellsNone, SpellsOne};
ghost use Rattle.setl_tree.specs.Texts.{IsTextByte};

use crate::command::Command;
use crate::fault::ScriptFault;
use crate::lines::{blank, first_line};
use crate::number::read_number;
use crate::script::Script;
use setl_tree::{Items, Text};
use std::alloc::{AllocError, Global};

/// Whether these bytes are a word.
fn is(bytes: &[u8], word: &str) -> bool
    ensures { IsTrue result ↔ (bytes.now ≡ word.now) }
{
    bytes == word.as_bytes()
}

/// The command whose line is this word. `None` comes exactly where there is none.
fn by_word(word: &[u8]) -> Option<Command>
    ensures { MatchOption result (SpellsNone word.now None) (SpellsOne word.now None) }
{
    if is(word, "") {
        Some(Command::Nothing)
    } else if is(word, "show") {
        Some(Command::Show)
    } else if is(word, "out") {
        Some(Command::Out)
    } else if is(word, "profile") {
        Some(Command::Profile)
    } else {
        None
    }
}

/// The command with this word before a blank and these digits behind it. `None` comes exactly where there is none, if the
/// word isn't `input`.
fn by_number(word: &[u8], digits: &[u8]) -> Option<Command>
    requires { word.now ≢ codes "input" }
    ensures { MatchOption result (SpellsNone word.now (Some digits.now)) (SpellsOne word.now (Some digits.now)) }
{
    let n = read_number(digits)?;
    if is(word, "go") {
        Some(Command::Go(n))
    } else if is(word, "on") {
        Some(Command::On(n))
    } else if is(word, "back") {
        Some(Command::Back(n))
    } else if is(word, "until") && 1 <= n && n < 1 << 32 {
        Some(Command::Until(n as u32))
    } else {
        None
    }
}

/// The command with this word before a blank and this value behind it. `None` comes exactly where there is none; the
/// error is want of memory.
fn by_value(alloc: Global, word: &[u8], value: &[u8]) -> Result<Option<Command>, AllocError>
    requires { AllByRecursion IsTextByte value.now }
    ensures { IfOk result (λ o. MatchOption o (SpellsNone word.now (Some value.now)) (SpellsOne word.now (Some value.now))) }
{
    if is(word, "input") {
        return Ok(Some(Command::Input(Text::of(alloc, value)?)));
    }
    Ok(by_number(word, value))
}

/// The command that a line spells. `None` comes exactly where it spells none; the error is want of memory.
fn read_command(alloc: Global, line: &[u8]) -> Result<Option<Command>, AllocError>
    requires { AllByRecursion IsTextByte line.now }
    ensures { IfOk result (λ o. MatchOption o (IsFaulty line.now) (IsCommand line.now)) }
{
    match blank(line) {
        None => Ok(by_word(line)),
        Some(at) => by_value(alloc, &line[..at], &line[at + 1..]),
    }
}

/// Reads a script from its bytes. `Line` comes exactly where they are no script, with the first line that is of no form;
/// `NoMemory` is want of memory.
pub fn read_script(alloc: Global, bytes: &[u8]) -> Result<Script, ScriptFault>
    requires { length bytes.now ≤ 2 ^ 20 }
    ensures script { IfOk result (AreCommands (lines bytes.now)) }
    ensures faulty { IfErr result (Tells (lines bytes.now)) }
{
    let mut commands = Items::new(alloc);
    let mut rest = bytes;
    let mut n = 0u32;
    while !rest.is_empty() {
        let (line, behind) = first_line(rest);
        n += 1;
        let Some(command) = read_command(alloc, line)? else {
            return Err(ScriptFault::Line { n });
        };
        commands.push(command)?;
        rest = behind;
    }
    Ok(Script::of(commands))
}
