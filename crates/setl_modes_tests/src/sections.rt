//! Sections, and the modes that they declare or the first break in them.

use setl_modes::{Form, Mode, ModeTable, NamedMode};
use setl_modes_declarations::modes;
use setl_names::RuleFault;
use setl_names_walk::resolve_all;
use setl_parse::parse;
use setl_token::tokens;
use setl_tree::Tree;
use std::alloc::{AllocError, Global};
use std::fmt::Write;
use std::test::Fail;

/// The program around a section, whose first line is line 3. Its variables are v and w, which stand in `var`, x and y in
/// the main program's statements, and u and the parameter z in the procedure q.
const HEAD: &str = "program p; var v, w;\nrepr\n";

const TAIL: &str = "end repr;\nx := y; q(x);\nproc q(z);\nu := z;\nend;\nend;\n";

/// Sections, and behind `=>` what each declares, or the rule that it breaks first and the line. A mode is written with
/// its words in their order and no brackets, and `elmt 0 int` for `elmt` of the base of number 0, whose mode is `int`.
/// The rules come in their order, and last that the first break is that by line, then by number.
const SECTIONS: &str = "=>

base b: int;
v: local set(elmt b);
=> b: int; v: local set elmt 0 int;

base b;
base b;
=> 19 at 4

base b,
c, b;
=> 19 at 4

base b, c;
=> b: general; c: general;

base b;
base q;
=> 20 at 4

base z;
=> 20 at 3

base v;
=> 20 at 3

base x;
=> 20 at 3

base u;
=> 20 at 3

base p;
=> p: general;

v: elmt b;
base b;
=> 21 at 3

base b: set(elmt b);
=> 21 at 3

base b;
v: smap(elmt b)
elmt c;
=> 21 at 5

base b;
v: smap(elmt b)
elmt b;
=> b: general; v: sparse smap elmt 0 general elmt 0 general;

base c;
base b: elmt c;
=> 22 at 4

base c;
base b: int;
=> c: general; b: int;

base b: local set(int);
=> 22 at 3

base b:
local set(int);
=> 25 at 3

base b: tuple(sparse set(int));
=> 22 at 3

base b: tuple(set(int));
=> b: tuple plain set int;

v: int;
v: int;
=> 23 at 4

v, v: int;
=> 23 at 3

v: int;
w: int;
=> v: int; w: int;

q: int;
=> 24 at 3

u: int;
=> 24 at 3

z: int;
=> 24 at 3

p: int;
=> 24 at 3

x, y: atom;
=> x: atom; y: atom;

base b;
v: smap(elmt b) local set(elmt b);
=> 25 at 4

base b;
v: smap(elmt b) remote set(elmt b);
=> b: general; v: sparse smap elmt 0 general remote set elmt 0 general;

base b;
v: local smap(elmt b) set(elmt b);
=> b: general; v: local smap elmt 0 general sparse set elmt 0 general;

v: local set(int);
=> 26 at 3

v: set(int);
=> v: plain set int;

base b;
v: remote tuple(elmt b);
=> 26 at 4

base b;
v: sparse elmt b;
=> 26 at 4

v: sparse
boolean;
=> 26 at 3

base b;
v: set(set(elmt b));
=> 27 at 4

base b;
v: tuple(elmt b);
=> b: general; v: tuple elmt 0 general;

base b;
v: tuple(tuple(elmt b));
=> 27 at 4

base b;
v: tuple(set(elmt b));
=> 27 at 4

base b;
v: smap(int)
elmt b;
=> 27 at 4

base b;
v: mmap{elmt b} set(set(elmt b));
=> 27 at 4

base b;
v: smap(elmt b) mmap{elmt b} set(elmt b);
=> b: general; v: sparse smap elmt 0 general sparse mmap elmt 0 general sparse set elmt 0 general;

v: mmap{int} int;
=> 28 at 3

v: mmap{int} set(int);
=> v: plain mmap int plain set int;

base b;
v: smap(elmt b) mmap{string} string;
=> 28 at 4

base b;
v: smap(elmt b) mmap{string} set(string);
=> b: general; v: sparse smap elmt 0 general plain mmap string plain set string;

base b;
v: mmap{elmt b} sparse set(elmt b);
=> b: general; v: sparse mmap elmt 0 general sparse set elmt 0 general;

q, q: mmap{int} int;
=> 23 at 3

q: mmap{int} int;
=> 24 at 3

v: mmap{int} int;
base b, b;
=> 28 at 3

v: local mmap{set(local int)} int;
=> 25 at 3

base a: string; base b: integer;
v: tuple(elmt b);
w: elmt a;
=> a: string; b: int; v: tuple elmt 1 int; w: elmt 0 string;";

/// The tree of a short program; `None` where it is none.
fn read(alloc: Global, source: &[u8]) -> Option<Tree> {
    if source.len() > 10000 {
        return None;
    }
    let list = tokens(alloc, source).ok()?;
    parse(alloc, &list).ok()
}

/// The word for how a set or map is kept.
fn form_word(form: Form) -> &'static str {
    match form {
        Form::Plain => " plain",
        Form::Local => " local",
        Form::Remote => " remote",
        Form::Sparse => " sparse",
    }
}

/// The word for how the values of a mode are kept, and none where there is none.
fn form_of(mode: &Mode) -> &'static str {
    match mode {
        Mode::Set(form, _) | Mode::Smap(form, _, _) | Mode::Mmap(form, _, _) => form_word(*form),
        _ => "",
    }
}

/// The first word of a mode.
fn first_word(mode: &Mode) -> &'static str {
    match mode {
        Mode::General => " general",
        Mode::Int => " int",
        Mode::Str => " string",
        Mode::Boolean => " boolean",
        Mode::Atom => " atom",
        Mode::Elmt(_, _) => " elmt",
        Mode::Set(_, _) => " set",
        Mode::Tuple(_) => " tuple",
        Mode::Smap(_, _, _) => " smap",
        Mode::Mmap(_, _, _) => " mmap",
    }
}

/// Adds the words of a mode to a text.
fn put_mode(text: &mut String, mode: &Mode) -> Result<(), AllocError> {
    text.push_str(form_of(mode))?;
    text.push_str(first_word(mode))?;
    match mode {
        Mode::Elmt(base, m) => {
            write!(text, " {base}")?;
            put_mode(text, m.get())
        }
        Mode::Set(_, m) | Mode::Tuple(m) => put_mode(text, m.get()),
        Mode::Smap(_, d, r) | Mode::Mmap(_, d, r) => {
            put_mode(text, d.get())?;
            put_mode(text, r.get())
        }
        _ => Ok(()),
    }
}

/// Adds names with their modes to a text.
fn put_all(text: &mut String, all: &[NamedMode]) -> Result<(), AllocError> {
    for named in all {
        text.push_str(" ")?;
        text.push_str(str::from_utf8(named.name.bytes()).unwrap_or("?"))?;
        text.push_str(":")?;
        put_mode(text, &named.mode)?;
        text.push_str(";")?;
    }
    Ok(())
}

/// Adds the rule that is broken and the line to a text.
fn put_fault(text: &mut String, fault: RuleFault) -> Result<(), AllocError> {
    match fault {
        RuleFault::Broken { rule, line } => write!(text, " {rule} at {line}"),
        RuleFault::NoMemory => text.push_str(" no memory"),
    }
}

/// Adds the bases and the variables of a table to a text.
fn put_table(text: &mut String, table: &ModeTable) -> Result<(), AllocError> {
    put_all(text, table.bases.as_slice())?;
    put_all(text, table.vars.as_slice())
}

/// Adds what the section of a program declares, or the rule that it breaks first, to a text.
fn put_declared(alloc: Global, text: &mut String, tree: &Tree) -> Result<(), AllocError> {
    let found = resolve_all(alloc, tree)?;
    match modes(alloc, tree, found.names.as_slice()) {
        Ok(table) => put_table(text, &table),
        Err(fault) => put_fault(text, fault),
    }
}

/// Adds what the section of a short program declares, or the rule that it breaks first, to a text.
fn put_outcome(alloc: Global, text: &mut String, source: &[u8]) -> Result<(), AllocError> {
    match read(alloc, source) {
        None => text.push_str(" no program"),
        Some(tree) => put_declared(alloc, text, &tree),
    }
}

/// What a section declares, or the rule that it breaks first, as a text.
fn outcome(alloc: Global, section: &str) -> Result<String, AllocError> {
    let source = format!(in alloc; "{HEAD}{section}{TAIL}")?;
    let mut text = String::new(alloc);
    put_outcome(alloc, &mut text, source.as_bytes())?;
    Ok(text)
}

#[test]
fn finds_modes_and_broken_rules(rt: HostRuntime) -> Result<(), Fail> {
    for row in SECTIONS.split("\n\n") {
        let (section, want) = row.split_once("=>").unwrap_or((row, "no row"));
        let text = outcome(rt.alloc(), section)?;
        assert_eq!(rt; text.as_str(), want, "at {section}");
    }
    Ok(())
}
