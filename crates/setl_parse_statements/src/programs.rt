//! Procedures and programs.

ghost use Rattle.std.specs.Prelude.{◌≡◌, IfOk, IfErr, Ok, Err};
ghost use Rattle.setl_tree.specs.Programs as grammar;
ghost use Rattle.setl_tree.specs.declared.kind.Kind.TheVariants as k;
ghost use Rattle.setl_parse_reading.specs.code.Reading.{Reads, is, expect};
ghost use Rattle.setl_parse_reading.specs.code.ReadPrograms as spec;
ghost use Rattle.setl_parse_cursor.specs.Plain.{next_token};
ghost use Rattle.setl_parse_statements.specs.code.Parts as parts;
ghost use Rattle.setl_parse_statements.specs.code.Parts.{proc_from, program_from};

use crate::modes::{DeclaredRule, ReprRule};
use crate::nested::stmts;
use crate::statements::NameRule;
use setl_parse_cursor::{
    Cursor, ListedRule, Repeated, Rule, beside, enclosed, followed, many, optional, same_kind,
    separated, with_many, with_optional,
};
use setl_parse_reading::Fault;
use setl_tree::{Declared, Items, Kind, Param, Passing, Proc, ReprLine, Stmt, Text, Tree};
use std::alloc::{AllocError, Global};

/// How a parameter is passed, by its word.
#[tactic(auto, unfolding(setl_tree::specs::Programs::passing))]
fn passing(kind: Kind) -> Option<Passing>
    ensures { result ≡ grammar.passing kind }
{
    match kind {
        Kind::Rd => Some(Passing::Rd),
        Kind::Wr => Some(Passing::Wr),
        Kind::Rw => Some(Passing::Rw),
        _ => None,
    }
}

/// The words that begin a procedure.
#[tactic(auto, unfolding(setl_parse_reading::specs::code::ReadPrograms::begins_proc))]
fn begins_proc(kind: Kind) -> bool
    ensures { result ≡ spec.begins_proc kind }
{
    match kind {
        Kind::Proc => true,
        Kind::Procedure => true,
        _ => false,
    }
}

/// The word before a parameter.
struct PassingRule;

impl Rule for PassingRule {
    type Out = Passing;

    ghost use Rattle.setl_tree.specs.Programs.{passing};
    ghost use Rattle.setl_parse_reading.specs.code.Reading.{one_of};

    ghost can_read = { λ s. Unit {0} };

    ghost reader = { λ s. one_of passing };

    #[tactic(auto, unfolding(setl_parse_reading::specs::code::Reading::one_of))]
    fn read(&self, tokens: &mut Cursor<'_>) -> Result<Passing, Fault> {
        let Some(word) = passing(tokens.kind()) else {
            return Err(tokens.refuse());
        };
        tokens.pass();
        Ok(word)
    }
}

impl Repeated for PassingRule {
    ghost use Rattle.setl_tree.specs.Programs.{passing};
    ghost use Rattle.setl_parse_reading.specs.code.Reading.{begins_as};

    ghost begins_with = { λ s. begins_as passing };

    fn begins(&self, kind: Kind) -> bool {
        passing(kind).is_some()
    }
}

/// A parameter.
#[derive(Drop)]
struct ParamRule;

impl Rule for ParamRule {
    type Out = Param;

    ghost use Rattle.setl_parse_reading.specs.code.ReadPrograms.{param};

    ghost can_read = { λ s. Unit {0} };

    ghost reader = { λ s. param };

    #[tactic(auto, unfolding(setl_parse_reading::specs::code::ReadPrograms::param, setl_parse_reading::specs::code::ReadPrograms::passed))]
    fn read(&self, tokens: &mut Cursor<'_>) -> Result<Param, Fault> {
        let line = tokens.line();
        let passing = optional(&PassingRule, tokens)?.unwrap_or(Passing::Rd);
        let name = tokens.name()?;
        Ok(Param {
            passing,
            name,
            line,
        })
    }
}

/// Parameters in round brackets.
#[derive(Drop)]
struct ParamsRule {
    room: usize,
}

impl Rule for ParamsRule {
    type Out = Items<Param>;

    ghost use Rattle.setl_parse_reading.specs.code.ReadPrograms.{params};

    ghost can_read = { λ s. Unit {0} };

    ghost reader = { λ s. params s.room };

    #[tactic(auto, unfolding(setl_parse_reading::specs::code::ReadPrograms::params))]
    fn read(&self, tokens: &mut Cursor<'_>) -> Result<Items<Param>, Fault> {
        let all = ListedRule {
            close: Kind::RightParen,
            item: ParamRule,
        };
        enclosed(self.room, Kind::LeftParen, &all, Kind::RightParen, tokens)
    }
}

impl Repeated for ParamsRule {
    ghost use Rattle.setl_tree.specs.declared.kind.Kind.TheVariants as k;
    ghost use Rattle.setl_parse_reading.specs.code.Reading.{is};

    ghost begins_with = { λ s. is k.LeftParen };

    fn begins(&self, kind: Kind) -> bool {
        same_kind(kind, Kind::LeftParen)
    }
}

/// `var name, ..;`
struct VarRule;

impl Rule for VarRule {
    type Out = Items<Declared>;

    ghost use Rattle.setl_parse_reading.specs.code.ReadPrograms.{var};

    ghost can_read = { λ s. Unit {0} };

    ghost reader = { λ s. var };

    #[tactic(auto, unfolding(setl_parse_reading::specs::code::ReadPrograms::var))]
    fn read(&self, tokens: &mut Cursor<'_>) -> Result<Items<Declared>, Fault> {
        tokens.expect(Kind::Var)?;
        let names = separated(&DeclaredRule, tokens)?;
        followed(names, Kind::Semicolon, tokens)
    }
}

impl Repeated for VarRule {
    ghost use Rattle.setl_tree.specs.declared.kind.Kind.TheVariants as k;
    ghost use Rattle.setl_parse_reading.specs.code.Reading.{is};

    ghost begins_with = { λ s. is k.Var };

    fn begins(&self, kind: Kind) -> bool {
        same_kind(kind, Kind::Var)
    }
}

/// Lists, one behind the other.
#[tactic(auto, using(crate::proofs::Lists::joined_more))]
fn joined(alloc: Global, lists: Items<Items<Declared>>) -> Result<Items<Declared>, AllocError>
    ensures { IfOk result (λ all. all ≡ grammar.joined lists) }
{
    let mut all = Items::new(alloc);
    for list in lists.into_vec() {
        all.append(list)?;
    }
    Ok(all)
}

/// The word that begins a procedure.
#[tactic(auto, unfolding(setl_parse_reading::specs::code::ReadPrograms::proc_word))]
fn proc_word(tokens: &mut Cursor<'_>) -> Result<(), Fault>
    ensures ok { IfOk result (λ _. spec.proc_word tokens.old ≡ Ok (next_token tokens.old, tokens.new)) }
    ensures err { IfErr result (λ e. spec.proc_word tokens.old ≡ Err e) }
{
    if same_kind(tokens.kind(), Kind::Proc) {
        return tokens.expect(Kind::Proc);
    }
    tokens.expect(Kind::Procedure)
}

/// The word behind the `end` of a procedure, with its name; both may be left out.
#[tactic(auto, unfolding(setl_parse_reading::specs::code::ReadPrograms::optional_name))]
fn proc_name(tokens: &mut Cursor<'_>) -> Result<Option<Text>, Fault>
    ensures { Reads (parts.name_behind_end spec.begins_proc spec.proc_word tokens.old) result tokens.new }
{
    if !begins_proc(tokens.kind()) {
        return Ok(None);
    }
    proc_word(tokens)?;
    optional(&NameRule, tokens)
}

/// The end of a procedure.
struct ProcEnd;

impl Rule for ProcEnd {
    type Out = (u32, Option<Text>);

    ghost use Rattle.setl_parse_reading.specs.code.ReadPrograms.{named_ending, begins_proc, proc_word};

    ghost can_read = { λ s. Unit {0} };

    ghost reader = { λ s. named_ending begins_proc proc_word };

    #[tactic(auto, unfolding(setl_parse_reading::specs::code::ReadPrograms::named_ending))]
    fn read(&self, tokens: &mut Cursor<'_>) -> Result<(u32, Option<Text>), Fault> {
        let line = tokens.line();
        tokens.expect(Kind::End)?;
        let name = proc_name(tokens)?;
        followed((line, name), Kind::Semicolon, tokens)
    }
}

/// The word behind the `end` of a program, with its name; both may be left out.
#[tactic(auto, unfolding(setl_parse_reading::specs::code::ReadPrograms::optional_name))]
fn program_name(tokens: &mut Cursor<'_>) -> Result<Option<Text>, Fault>
    ensures { Reads (parts.name_behind_end (is k.Program) (expect k.Program) tokens.old) result tokens.new }
{
    if !same_kind(tokens.kind(), Kind::Program) {
        return Ok(None);
    }
    tokens.expect(Kind::Program)?;
    optional(&NameRule, tokens)
}

/// The end of a program.
struct ProgramEnd;

impl Rule for ProgramEnd {
    type Out = (u32, Option<Text>);

    ghost use Rattle.setl_parse_reading.specs.code.ReadPrograms.{program_end};

    ghost can_read = { λ s. Unit {0} };

    ghost reader = { λ s. program_end };

    #[tactic(auto, unfolding(setl_parse_reading::specs::code::ReadPrograms::program_end, setl_parse_reading::specs::code::ReadPrograms::named_ending))]
    fn read(&self, tokens: &mut Cursor<'_>) -> Result<(u32, Option<Text>), Fault> {
        let line = tokens.line();
        tokens.expect(Kind::End)?;
        let name = program_name(tokens)?;
        followed((line, name), Kind::Semicolon, tokens)
    }
}

/// What was read of a procedure, and behind it `;`, its statements and its end.
fn proc_parts<T: Drop>(
    head: T,
    room: usize,
    tokens: &mut Cursor<'_>,
) -> Result<(T, Items<Stmt>, (u32, Option<Text>)), Fault>
    ensures { Reads (parts.proc_parts head room tokens.old) result tokens.new }
{
    let head = followed(head, Kind::Semicolon, tokens)?;
    let body = stmts(room, tokens)?;
    let (both, end) = beside((head, body), &ProcEnd, tokens)?;
    Ok((both.0, both.1, end))
}

/// A procedure behind its parameters.
fn proc_body(
    room: usize,
    line: u32,
    name: Text,
    params: Items<Param>,
    tokens: &mut Cursor<'_>,
) -> Result<Proc, Fault>
    ensures { Reads (proc_from room line name params tokens.old) result tokens.new }
{
    let (head, body, end) = proc_parts((name, params), room, tokens)?;
    Ok(Proc {
        line,
        name: head.0,
        params: head.1,
        body,
        end_name: end.1,
        end_line: end.0,
    })
}

/// A procedure.
#[derive(Drop)]
struct ProcRule {
    room: usize,
}

impl Rule for ProcRule {
    type Out = Proc;

    ghost use Rattle.setl_parse_reading.specs.code.ReadPrograms.{proc};

    ghost can_read = { λ s. Unit {0} };

    ghost reader = { λ s. proc s.room };

    #[tactic(auto, unfolding(setl_parse_reading::specs::code::ReadPrograms::proc))]
    fn read(&self, tokens: &mut Cursor<'_>) -> Result<Proc, Fault> {
        let line = tokens.line();
        proc_word(tokens)?;
        let name = tokens.name()?;
        let params = optional(&ParamsRule { room: self.room }, tokens)?.unwrap_or(Items::new(
            tokens.alloc(),
        ));
        proc_body(self.room, line, name, params, tokens)
    }
}

impl Repeated for ProcRule {
    ghost use Rattle.setl_parse_reading.specs.code.ReadPrograms.{begins_proc};

    ghost begins_with = { λ s. begins_proc };

    fn begins(&self, kind: Kind) -> bool {
        begins_proc(kind)
    }
}

/// What was read of a program, and behind it its statements, its procedures and its end.
#[tactic(auto, unfolding(setl_parse_reading::specs::code::ReadPrograms::procs))]
fn program_parts<T: Drop>(
    head: T,
    room: usize,
    tokens: &mut Cursor<'_>,
) -> Result<(T, Items<Stmt>, Items<Proc>, (u32, Option<Text>)), Fault>
    ensures { Reads (parts.program_parts head room tokens.old) result tokens.new }
{
    let body = stmts(room, tokens)?;
    let both = with_many((head, body), &ProcRule { room }, tokens)?;
    let (((head, body), procs), end) = beside(both, &ProgramEnd, tokens)?;
    Ok((head, body, procs, end))
}

/// A program behind its declarations.
fn program_body(
    room: usize,
    name: Text,
    vars: Items<Declared>,
    modes: Items<ReprLine>,
    tokens: &mut Cursor<'_>,
) -> Result<Tree, Fault>
    ensures { Reads (program_from room name vars modes tokens.old) result tokens.new }
{
    let (head, body, procs, end) = program_parts((name, vars, modes), room, tokens)?;
    Ok(Tree {
        name: head.0,
        vars: head.1,
        modes: head.2,
        body,
        procs,
        end_name: end.1,
        end_line: end.0,
    })
}

/// `program name;`
fn program_head(tokens: &mut Cursor<'_>) -> Result<Text, Fault>
    ensures { Reads (parts.program_head tokens.old) result tokens.new }
{
    tokens.expect(Kind::Program)?;
    let name = tokens.name()?;
    followed(name, Kind::Semicolon, tokens)
}

/// The names of the `var` lines.
struct VarsRule;

impl Rule for VarsRule {
    type Out = Items<Declared>;

    ghost use Rattle.setl_parse_statements.specs.code.Parts.{joined_vars};

    ghost can_read = { λ s. Unit {0} };

    ghost reader = { λ s. joined_vars };

    #[tactic(auto, unfolding(setl_parse_reading::specs::code::ReadPrograms::vars))]
    fn read(&self, tokens: &mut Cursor<'_>) -> Result<Items<Declared>, Fault> {
        let lists = many(&VarRule, tokens)?;
        Ok(joined(tokens.alloc(), lists)?)
    }
}

/// A program, where so many nestings may still open.
///
/// The error is the fault of the tokens with how many of them are left at it, or want of memory.
#[tactic(auto, unfolding(setl_parse_reading::specs::code::ReadPrograms::program, setl_parse_reading::specs::code::ReadPrograms::vars))]
pub fn program(room: usize, tokens: &mut Cursor<'_>) -> Result<Tree, Fault>
    ensures { Reads (spec.program room tokens.old) result tokens.new }
{
    let name = program_head(tokens)?;
    let both = beside(name, &VarsRule, tokens)?;
    let ((name, vars), modes) = with_optional(both, &ReprRule { room }, tokens)?;
    let modes = modes.unwrap_or(Items::new(tokens.alloc()));
    program_body(room, name, vars, modes, tokens)
}
