//! The command line as `clap` is told of it.
ghost use Rattle.std.specs.Prelude.{◌≡◌, false, IfOk};
ghost use Rattle.clap.specs.Words.{App, Rule, app_of, rule_of, with_rule, with_subcommand};
ghost use Rattle.setl_top_words.specs.Line.{unbased_rule, dump_rule, turns_rule, watch_rule, file_rule, seed_rule, nodes_rule, stop_rule, explained_rule, run_app, file_app, told_app, explain_app, debug_app, trial_app, empty_app, setl_app};
ghost use Rattle.setl_top_words.specs.code.Builds.{Builds};

use clap::{Arg, ArgAction, Command, value_parser};
use std::alloc::{AllocError, Global};

/// The option `--unbased`.
fn unbased<'a>(alloc: Global) -> Arg<'a>
    ensures rule { rule_of result ≡ unbased_rule }
    ensures local { result.global ≡ false }
{
    Arg::new(alloc, "unbased")
        .long("unbased")
        .action(ArgAction::SetTrue)
        .help("Leave all declarations out of account")
}

/// The option `--dump`.
fn dump<'a>(alloc: Global) -> Arg<'a>
    ensures rule { rule_of result ≡ dump_rule }
    ensures local { result.global ≡ false }
{
    Arg::new(alloc, "dump")
        .long("dump")
        .action(ArgAction::SetTrue)
        .help("Tell the members of the bases and what the declared variables hold at the end")
}

/// The option `--turns`.
fn turns<'a>(alloc: Global) -> Arg<'a>
    ensures rule { rule_of result ≡ turns_rule }
    ensures local { result.global ≡ false }
{
    Arg::new(alloc, "turns")
        .long("turns")
        .value_name("N")
        .value_parser(value_parser!(i64).range(0..))
        .help("Stop the run after so many turns")
}

/// The option `--watch`.
fn watch<'a>(alloc: Global) -> Arg<'a>
    ensures rule { rule_of result ≡ watch_rule }
    ensures local { result.global ≡ false }
{
    Arg::new(alloc, "watch")
        .long("watch")
        .value_name("NAME")
        .help("Report what a watcher saw of the run: trace, cover or profile")
}

/// The file that each command reads, with what it holds.
fn file<'a>(alloc: Global, holds: &'a str) -> Arg<'a>
    ensures rule { rule_of result ≡ file_rule }
    ensures local { result.global ≡ false }
{
    Arg::new(alloc, "file")
        .value_name("FILE")
        .required(true)
        .help(holds)
}

/// The option `--stop`.
fn stop<'a>(alloc: Global) -> Arg<'a>
    ensures rule { rule_of result ≡ stop_rule }
    ensures local { result.global ≡ false }
{
    Arg::new(alloc, "stop").long("stop").value_name("NAME").help(
        "Tell what a stop of a run means: om, kind, zero, range, wide, deep, form, nothing or value",
    )
}

/// The file of an explanation.
fn explained<'a>(alloc: Global) -> Arg<'a>
    ensures rule { rule_of result ≡ explained_rule }
    ensures local { result.global ≡ false }
{
    Arg::new(alloc, "file")
        .value_name("FILE")
        .help("The source")
}

/// The seed of a trial.
fn seed<'a>(alloc: Global) -> Arg<'a>
    ensures rule { rule_of result ≡ seed_rule }
    ensures local { result.global ≡ false }
{
    Arg::new(alloc, "seed")
        .value_name("SEED")
        .required(true)
        .value_parser(value_parser!(i64).range(0..))
        .help("What the input is drawn from")
}

/// The number of nodes of a trial.
fn nodes<'a>(alloc: Global) -> Arg<'a>
    ensures rule { rule_of result ≡ nodes_rule }
    ensures local { result.global ≡ false }
{
    Arg::new(alloc, "nodes")
        .value_name("N")
        .required(true)
        .value_parser(value_parser!(i64).range(1..=2000))
        .help("The number of nodes, from 1 to 2000")
}

/// The command with one more argument. The error is want of memory, here or before.
fn with_arg<'a>(
    command: Result<Command<'a>, AllocError>,
    arg: Arg<'a>,
) -> Result<Command<'a>, AllocError>
    ensures { (app : App) (rule : Rule) → Builds app command.entry → rule_of arg.entry ≡ rule → arg.entry.global ≡ false → Builds (with_rule app rule) result }
{
    match command {
        Ok(command) => command.arg(arg),
        Err(error) => Err(error),
    }
}

/// The command with one more below it. The error is want of memory, here or before.
fn with_command<'a>(
    upper: Result<Command<'a>, AllocError>,
    lower: Result<Command<'a>, AllocError>,
) -> Result<Command<'a>, AllocError>
    ensures { (app sub : App) → Builds app upper.entry → Builds sub lower.entry → Builds (with_subcommand app sub.top) result }
{
    match (upper, lower) {
        (Ok(upper), Ok(lower)) => upper.subcommand(lower),
        _ => Err(AllocError),
    }
}

/// A command that runs what a file holds.
fn run<'a>(
    alloc: Global,
    name: &'a str,
    about: &'a str,
    holds: &'a str,
) -> Result<Command<'a>, AllocError>
    ensures { Builds (run_app name.entry.now) result }
{
    let command = Command::new(alloc, name).about(about);
    let command = with_arg(Ok(command), unbased(alloc));
    let command = with_arg(command, dump(alloc));
    let command = with_arg(command, turns(alloc));
    let command = with_arg(command, watch(alloc));
    with_arg(command, file(alloc, holds))
}

/// A command that reads a file and has no options.
fn with_file<'a>(alloc: Global, name: &'a str, about: &'a str) -> Result<Command<'a>, AllocError>
    ensures { Builds (file_app name.entry.now) result }
{
    let command = Command::new(alloc, name).about(about);
    with_arg(Ok(command), file(alloc, "The source"))
}

/// The command `explain` before its words, which tells its help where none stands behind it.
fn told<'a>(alloc: Global) -> Result<Command<'a>, AllocError>
    ensures { Builds told_app result }
{
    let command = Command::new(alloc, "explain").about(
        "Explain why a source is refused, or what a stop means",
    );
    Ok(command.arg_required_else_help(true))
}

/// The command `explain`.
fn explain<'a>(alloc: Global) -> Result<Command<'a>, AllocError>
    ensures { Builds explain_app result }
{
    let command = with_arg(told(alloc), stop(alloc));
    with_arg(command, explained(alloc))
}

/// The command `debug`.
fn debug<'a>(alloc: Global) -> Result<Command<'a>, AllocError>
    ensures { Builds debug_app result }
{
    let command = Command::new(alloc, "debug").about(
        "Follow a script over the states of a program",
    );
    let command = with_arg(Ok(command), unbased(alloc));
    with_arg(command, file(alloc, "The source"))
}

/// The command `trial`.
fn trial<'a>(alloc: Global) -> Result<Command<'a>, AllocError>
    ensures { Builds trial_app result }
{
    let command = Command::new(alloc, "trial").about(
        "Run a fixed program on an input that is drawn",
    );
    let command = with_arg(Ok(command), seed(alloc));
    with_arg(command, nodes(alloc))
}

/// The program before its commands.
fn program<'a>(alloc: Global) -> Result<Command<'a>, AllocError>
    ensures { Builds empty_app result }
{
    let command = Command::new(alloc, "setl").bin_name("setl")?;
    Ok(command.no_binary_name(true).subcommand_required(true))
}

/// All commands, over the words after the program's own name.
pub(crate) fn commands<'a>(alloc: Global) -> Result<Command<'a>, AllocError>
    ensures { IfOk result (λ c. app_of c ≡ setl_app) }
{
    let command = with_command(
        program(alloc),
        run(alloc, "run", "Run a program", "The source"),
    );
    let command = with_command(
        command,
        run(alloc, "exec", "Run a code file", "The code file"),
    );
    let command = with_command(command, with_file(alloc, "check", "Check a source"));
    let command = with_command(
        command,
        with_file(alloc, "code", "List the code of a program"),
    );
    let command = with_command(
        command,
        with_file(alloc, "build", "Write the code file of a program"),
    );
    let command = with_command(
        command,
        with_file(alloc, "advise", "Advise declarations for a program"),
    );
    let command = with_command(command, explain(alloc));
    let command = with_command(command, debug(alloc));
    with_command(command, trial(alloc))
}
