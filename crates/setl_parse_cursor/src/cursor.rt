//! A place between the tokens of a source.

ghost use Rattle.std.specs.Prelude.{◌≡◌, ◌<◌, IfOk, IfErr, Ok, Err, drop, length};
ghost use Rattle.setl_tree.specs.Lang.{line_of};
ghost use Rattle.setl_parse_reading.specs.code.Reading as spec;
ghost use Rattle.setl_parse_reading.specs.code.Reading.{Reads};
ghost use Rattle.setl_parse_cursor.specs.Plain.{plain_tokens, next_token};

use crate::content::content;
use setl_parse_reading::Fault;
use setl_token::{TokenKind, TokenList, spelled_kind};
use setl_tree::{Kind, Text};
use std::alloc::{AllocError, Global};
use std::marker::Model;

/// The tokens of a list from a place on. Contracts see those that are left, as plain data.
#[derive(Drop)]
pub struct Cursor<'a> {
    alloc: Global,
    list: &'a TokenList,
    at: usize,
    kind: Kind,
}

impl<'a> Model for Cursor<'a> {
    ghost use Rattle.std.specs.Prelude.{◌≡◌, ◌≤◌, drop, length};
    ghost use Rattle.setl_tree.specs.Tokens.{Tokens};
    ghost use Rattle.setl_parse_reading.specs.code.Reading.{next_kind};
    ghost use Rattle.setl_parse_cursor.specs.Plain.{plain_tokens};

    ghost Value = { Tokens };

    ghost view = { λ c. drop c.at (plain_tokens c.list.now) };

    ghost invariant = { λ c. (c.at ≤ length c.list.now.tokens) × (c.kind ≡ next_kind (drop c.at (plain_tokens c.list.now))) };
}

/// The kind of the token with this index, or `SourceEnd` behind the last.
fn kind_at(list: &TokenList, at: usize) -> Kind
    ensures { result ≡ spec.next_kind (drop at (plain_tokens list.now)) }
{
    if at >= list.len() {
        return Kind::SourceEnd;
    }
    match list.at(at).kind {
        TokenKind::Name => Kind::Name,
        TokenKind::Number(_) => Kind::Number,
        TokenKind::Str => Kind::StringLiteral,
        TokenKind::Word => spelled_kind(list.text(at)),
        TokenKind::Sign => spelled_kind(list.text(at)),
    }
}

/// Whether two kinds are the same.
pub fn same_kind(a: Kind, b: Kind) -> bool
    ensures { result ≡ spec.same_kind a b }
{
    a == b
}

impl<'a> Cursor<'a> {
    /// The first token of a list.
    pub fn new(alloc: Global, list: &'a TokenList) -> Cursor<'a>
        ensures { result ≡ plain_tokens list.now }
    {
        Cursor {
            alloc,
            list,
            at: 0,
            kind: kind_at(list, 0),
        }
    }

    /// The allocator that readers take memory from.
    pub fn alloc(&self) -> Global {
        self.alloc
    }

    /// The kind of the next token; behind the last one `SourceEnd`.
    pub fn kind(&self) -> Kind
        ensures { result ≡ spec.next_kind self.now }
    {
        self.kind
    }

    /// How many tokens are left.
    pub fn left(&self) -> usize
        ensures { result ≡ length self.now }
    {
        self.list.len() - self.at
    }

    /// The kind of the token behind so many others; behind the last one `SourceEnd`.
    #[tactic(auto, using(crate::proofs::Plain::kind_past, crate::proofs::Plain::kind_further))]
    pub fn kind_behind(&self, others: usize) -> Kind
        ensures { result ≡ spec.next_kind (drop others self.now) }
    {
        let left = self.list.len() - self.at;
        if others >= left {
            return Kind::SourceEnd;
        }
        kind_at(self.list, self.at + others)
    }

    /// The line of the next token; behind the last one 0.
    pub fn line(&self) -> u32
        ensures value { result ≡ line_of self.now }
        ensures next { result ≡ (next_token self.now).line }
    {
        if self.at < self.list.len() {
            self.list.at(self.at).line
        } else {
            0
        }
    }

    /// The fault that the next token doesn't go on, with the number of tokens left.
    pub fn refuse(&self) -> Fault
        ensures { result ≡ Fault.Syntax (length self.now) }
    {
        Fault::Syntax(self.left())
    }

    /// Goes behind the next token; behind the last one stays.
    pub fn pass(&mut self)
        ensures { self.new ≡ spec.rest_of self.old }
    {
        if self.at < self.list.len() {
            self.at += 1;
            self.kind = kind_at(self.list, self.at);
        }
    }

    /// Goes behind the next token if it is of this kind, otherwise a syntax fault.
    #[tactic(auto, using(crate::proofs::Plain::took, crate::proofs::Plain::refused, crate::proofs::Plain::ended))]
    pub fn expect(&mut self, kind: Kind) -> Result<(), Fault>
        ensures ok { IfOk result (λ _. spec.expect kind self.old ≡ Ok (next_token self.old, self.new)) }
        ensures err { IfErr result (λ e. spec.expect kind self.old ≡ Err e) }
    {
        if self.left() == 0 {
            return Err(self.refuse());
        }
        if !same_kind(self.kind(), kind) {
            return Err(self.refuse());
        }
        self.pass();
        Ok(())
    }

    /// Goes behind the next token if it is of this kind and opens a nesting, where so many may still open. Otherwise a
    /// syntax fault, or where none may open and the token is of this kind a nesting fault.
    #[tactic(auto, using(crate::proofs::Plain::too_deep_at, crate::proofs::Plain::no_room, crate::proofs::Plain::opens))]
    pub fn open(&mut self, room: usize, kind: Kind) -> Result<(), Fault>
        ensures ok { IfOk result (λ _. spec.opening room kind self.old ≡ Ok (next_token self.old, self.new)) }
        ensures room { IfOk result (λ _. 0 < room) }
        ensures err { IfErr result (λ e. spec.opening room kind self.old ≡ Err e) }
    {
        if room == 0 {
            if same_kind(self.kind(), kind) {
                return Err(Fault::Nesting(self.left()));
            }
            return Err(self.refuse());
        }
        self.expect(kind)
    }

    /// The value of the next token if it is a number, from 0 to 2^127 - 1; otherwise 0.
    pub fn value(&self) -> i128
        ensures { result ≡ (next_token self.now).value }
    {
        if self.at < self.list.len() {
            match self.list.at(self.at).kind {
                TokenKind::Number(n) => n,
                TokenKind::Name => 0,
                TokenKind::Str => 0,
                TokenKind::Word => 0,
                TokenKind::Sign => 0,
            }
        } else {
            0
        }
    }

    /// The bytes of the next token if it is a name, in lower case, or what it holds if it is a string; otherwise none.
    /// An error is want of memory.
    pub fn text(&self) -> Result<Text, AllocError>
        ensures { IfOk result (λ t. t ≡ (next_token self.now).text) }
    {
        content(self.alloc, self.list, self.at)
    }

    /// Reads a name, in lower case.
    #[tactic(auto, unfolding(setl_parse_reading::specs::code::Reading::name))]
    pub fn name(&mut self) -> Result<Text, Fault>
        ensures { Reads (spec.name self.old) result self.new }
    {
        let text = self.text()?;
        self.expect(Kind::Name)?;
        Ok(text)
    }
}
