//! Lines of words, what they ask for, and what is told of those that are faulty.

use setl_top_words::{
    Asked, Command, FileKind, Options, fault_text, faulty_words, one_command, plain_words,
    read_words,
};
use std::alloc::Global;
use std::test::Fail;

/// The words of a line, which stand between single blanks.
fn words_of(alloc: Global, line: &str) -> Result<Vec<String>, Fail> {
    let mut words = Vec::new(alloc);
    for word in line.split(' ') {
        words.push(String::from_str(alloc, word)?)?;
    }
    Ok(words)
}

/// The name of the watcher that options ask for, as a number; 0 where they ask for none.
fn watcher(options: Options) -> u8 {
    options.watch.map_or(0, Asked::name)
}

/// The word of the command that runs what a file of this kind holds.
fn word_of(kind: FileKind) -> &'static str {
    match kind {
        FileKind::Source => "run",
        FileKind::CodeFile => "exec",
    }
}

/// The command of a line as a text: of a run what its file holds, its bound on turns, whether declarations count, whether the dump
/// is asked for, the name of the watcher that is asked for, and its file; of a session whether declarations count, and its file; of a stop and of a trial
/// the numbers.
fn asked(alloc: Global, line: &str) -> Result<String, Fail> {
    let words = words_of(alloc, line)?;
    let text = match read_words(words.as_slice()) {
        Some(Command::Run(kind, options, file)) => {
            let word = word_of(kind);
            let watcher = watcher(options);
            format!(in alloc;
                "{word} {} {} {} {watcher} {file}",
                options.turns, options.based, options.dump
            )?
        }
        Some(Command::Check(file)) => format!(in alloc; "check {file}")?,
        Some(Command::Code(file)) => format!(in alloc; "code {file}")?,
        Some(Command::Build(file)) => format!(in alloc; "build {file}")?,
        Some(Command::Advise(file)) => format!(in alloc; "advise {file}")?,
        Some(Command::Explain(file)) => format!(in alloc; "explain {file}")?,
        Some(Command::TellStop(stop)) => format!(in alloc; "stop {}", stop as u8)?,
        Some(Command::Debug(based, file)) => format!(in alloc; "debug {based} {file}")?,
        Some(Command::Trial(seed, nodes)) => format!(in alloc; "trial {seed} {nodes}")?,
        None => String::from_str(alloc, "faulty")?,
    };
    Ok(text)
}

/// What lines ask for, and the lines.
const LINES: &str = "run 9223372036854775807 true false 0 q.setl: run q.setl
run 9223372036854775807 true true 0 q.setl: run --dump q.setl
run 5 false true 1 q.setl: run --watch trace --dump --unbased --turns 5 q.setl
exec 9223372036854775807 true true 0 q.code: exec --dump q.code
run 9223372036854775807 false false 0 q.setl: run --unbased q.setl
run 0 true false 0 q.setl: run --turns 0 q.setl
run 50 false false 0 q.setl: run --turns 50 --unbased q.setl
run 9223372036854775807 true false 1 q.setl: run --watch trace q.setl
run 9223372036854775807 true false 2 q.setl: run --watch cover q.setl
run 5 false false 2 q.setl: run --turns 5 --watch cover --unbased q.setl
run 9223372036854775807 false false 0 q.setl: run --unbased --turns 9223372036854775807 q.setl
exec 9223372036854775807 true false 0 q.code: exec q.code
exec 50 false false 0 q.code: exec --turns 50 --unbased q.code
exec 9223372036854775807 true false 1 q.code: exec --watch trace q.code
exec 5 false false 3 exec: exec --unbased --watch profile --turns 5 exec
check q.setl: check q.setl
code q.setl: code q.setl
build q.setl: build q.setl
build build: build build
advise q.setl: advise q.setl
explain q.setl: explain q.setl
stop 0: explain --stop om
stop 1: explain --stop kind
stop 8: explain --stop value
debug true q.setl: debug q.setl
debug false q.setl: debug --unbased q.setl
trial 0 1: trial 0 1
trial 9223372036854775807 2000: trial 9223372036854775807 2000
faulty: run --turns 9223372036854775808 q.setl
faulty: run --turns 1000000000000000000000000000000000000000 q.setl
faulty: run --turns 07 q.setl
faulty: run --turns +1 q.setl
faulty: run --turns 1e3 q.setl
faulty: run --turns -1 q.setl
faulty: run --turns  q.setl
faulty: run --turns=5 q.setl
faulty: run --turns q.setl
faulty: run --turns 5 --turns 5 q.setl
faulty: run --unbased --unbased q.setl
faulty: run --dump --dump q.setl
faulty: debug --dump q.setl
faulty: run --dump=yes q.setl
faulty: run --watch q.setl
faulty: run --watch profiles q.setl
faulty: run --watch Trace q.setl
faulty: run --watch=trace q.setl
faulty: run --watch trace --watch trace q.setl
faulty: run --watch trace --watch cover q.setl
faulty: run q.setl --unbased
faulty: run q.setl q.setl
faulty: run -- q.setl
faulty: run -
faulty: run\x20
faulty: run
faulty: Run q.setl
faulty: exec
faulty: exec --turns 07 q.code
faulty: exec --turns 9223372036854775808 q.code
faulty: exec --turns=5 q.code
faulty: exec --unbased --unbased q.code
faulty: exec --watch
faulty: exec --watch profiles q.code
faulty: exec q.code --unbased
faulty: exec q.code q.code
faulty: exec -- q.code
faulty: exec -q
faulty: exec\x20
faulty: Exec q.code
faulty: execs q.code
faulty: check --unbased q.setl
faulty: build
faulty: build -q
faulty: build\x20
faulty: build --unbased q.setl
faulty: build --turns 5 q.setl
faulty: build q.setl q.code
faulty: build -- q.setl
faulty: Build q.setl
faulty: built q.setl
faulty: advise
faulty: advise -q
faulty: advise q.setl q.setl
faulty: advise --unbased q.setl
faulty: Advise q.setl
faulty: explain
faulty: explain --stop
faulty: explain --stop done
faulty: explain --stop Om
faulty: explain --stop om q.setl
faulty: explain --stop om --stop om
faulty: explain --stop=om
faulty: explain q.setl q.setl
faulty: debug
faulty: debug --unbased
faulty: debug --unbased --unbased q.setl
faulty: debug --turns 5 q.setl
faulty: debug q.setl --unbased
faulty: debug -q
faulty: trial
faulty: trial 7
faulty: trial 7 0
faulty: trial 7 2001
faulty: trial 07 1
faulty: trial 7 01
faulty: trial 9223372036854775808 1
faulty: trial -1 5
faulty: trial 7 -1
faulty: trial +7 1
faulty: trial 7 1 1
faulty: trial 7 q.setl
faulty: trial --turns 7 1
faulty: --help
faulty: --version
faulty:\x20";

#[test]
fn each_line_is_what_it_is(rt: HostRuntime) -> Result<(), Fail> {
    let alloc = rt.alloc();
    for row in LINES.split('\n') {
        let (wanted, line) = row.split_once(": ").unwrap_or((row, ""));
        assert_eq!(rt; asked(alloc, line)?.as_str(), wanted, "at {line}");
    }
    assert_eq!(rt; read_words(&[]), None);
    one_command();
    plain_words();
    faulty_words();
    Ok(())
}

/// Faulty lines, and below each what is told of it. A line `====` stands between two rows.
const TOLD: &str = "run --turns 07 q
not of the plain form
====
run --turns=5 q
not of the plain form
====
run --watch profiles q
not of the plain form
====
run --watch trace
error: the following required arguments were not provided:
  <FILE>

Usage: setl run --watch <NAME> <FILE>

For more information, try '--help'.
====
run -- q
not of the plain form
====
go q
error: unrecognized subcommand 'go'

Usage: setl <COMMAND>

For more information, try '--help'.
====
run
error: the following required arguments were not provided:
  <FILE>

Usage: setl run <FILE>

For more information, try '--help'.
====
run --unbased --unbased q
error: the argument '--unbased' cannot be used multiple times

Usage: setl run [OPTIONS] <FILE>

For more information, try '--help'.
====
exec --turns 07 q
not of the plain form
====
exec q --unbased
not of the plain form
====
exec --watch trace
error: the following required arguments were not provided:
  <FILE>

Usage: setl exec --watch <NAME> <FILE>

For more information, try '--help'.
====
exec
error: the following required arguments were not provided:
  <FILE>

Usage: setl exec <FILE>

For more information, try '--help'.
====
exec --help
Run a code file

Usage: setl exec [OPTIONS] <FILE>

Arguments:
  <FILE>  The code file

Options:
      --unbased       Leave all declarations out of account
      --dump          Tell the members of the bases and what the declared variables hold at the end
      --turns <N>     Stop the run after so many turns
      --watch <NAME>  Report what a watcher saw of the run: trace, cover or profile
  -h, --help          Print help
====
build -- q
not of the plain form
====
build
error: the following required arguments were not provided:
  <FILE>

Usage: setl build <FILE>

For more information, try '--help'.
====
build --help
Write the code file of a program

Usage: setl build <FILE>

Arguments:
  <FILE>  The source

Options:
  -h, --help  Print help
====
trial 07 1
not of the plain form
====
trial 7
error: the following required arguments were not provided:
  <N>

Usage: setl trial <SEED> <N>

For more information, try '--help'.
====
trial 7 2001
error: invalid value '2001' for '<N>': 2001 is not in 1..=2000

For more information, try '--help'.
====
advise --help
Advise declarations for a program

Usage: setl advise <FILE>

Arguments:
  <FILE>  The source

Options:
  -h, --help  Print help
====
advise
error: the following required arguments were not provided:
  <FILE>

Usage: setl advise <FILE>

For more information, try '--help'.
====
code --help
List the code of a program

Usage: setl code <FILE>

Arguments:
  <FILE>  The source

Options:
  -h, --help  Print help
";

#[test]
fn faulty_words_are_told(rt: HostRuntime) -> Result<(), Fail> {
    let alloc = rt.alloc();
    for row in TOLD.split("====\n") {
        let (line, wanted) = row.split_once("\n").unwrap_or((row, ""));
        let text = fault_text(alloc, words_of(alloc, line)?.as_slice())?;
        assert_eq!(rt; text.as_str(), wanted, "at {line}");
    }
    Ok(())
}
