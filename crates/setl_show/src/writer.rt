//! Writing tokens.

ghost use Rattle.std.specs.Prelude.{◌≡◌, ℕ, ℤ, List, [], pos, OnOk, IfOk};
ghost use Rattle.setl_tree.specs.declared.kind.Kind.TheVariants as k;
ghost use Rattle.setl_token.specs.Spellings.{IsSpelled};
ghost use Rattle.setl_show.specs.Text as spec;
ghost use Rattle.setl_show.specs.Text.{put, bytes_of, quoted};

use itoa::Buffer;
use setl_token::spelling;
use setl_tree::{Kind, Text};
use std::alloc::{AllocError, Global};
use std::marker::Model;

/// The bytes of tokens that were written so far.
#[derive(Drop)]
pub struct Writer {
    alloc: Global,
    bytes: Vec<u8>,
}

impl Model for Writer {
    ghost use Rattle.std.specs.Prelude.{List, ℕ};

    ghost Value = { List ℕ };

    ghost view = { λ w. w.bytes.items };
}

/// What stands behind a token.
#[tactic(auto, unfolding(crate::specs::Text::behind))]
fn behind(kind: Kind) -> u8
    ensures { result ≡ spec.behind kind }
{
    match kind {
        Kind::Semicolon => b'\n',
        _ => b' ',
    }
}

/// A text between apostrophes, with each apostrophe in it doubled.
fn quoted(alloc: Global, text: &[u8]) -> Result<Vec<u8>, AllocError>
    ensures { IfOk result (λ v. v.items ≡ spec.quoted text.now) }
{
    let mut bytes = Vec::from_slice(alloc, b"'")?;
    for b in text {
        if *b == b'\'' {
            bytes.push(b'\'')?;
        }
        bytes.push(*b)?;
    }
    bytes.push(b'\'')?;
    Ok(bytes)
}

impl Writer {
    /// Nothing written.
    pub fn new(alloc: Global) -> Writer
        ensures { result ≡ [] }
    {
        Writer {
            alloc,
            bytes: Vec::new(alloc),
        }
    }

    /// All bytes that were written.
    pub fn into_bytes(self) -> Vec<u8>
        ensures { result.items ≡ self }
    {
        let Writer { alloc: _, bytes } = self;
        bytes
    }

    /// A token of these bytes.
    #[tactic(auto, unfolding(crate::specs::Text::put))]
    fn token(&mut self, kind: Kind, bytes: &[u8]) -> Result<(), AllocError>
        ensures { (text : List ℕ) (value : ℤ) → bytes_of kind text value ≡ bytes.now → OnOk result (self.new ≡ put self.old kind text value) }
    {
        self.bytes.extend_from_slice(bytes)?;
        self.bytes.push(behind(kind))?;
        Ok(())
    }

    /// A reserved word or a sign.
    pub fn sign(&mut self, kind: Kind) -> Result<(), AllocError>
        requires { IsSpelled kind }
        ensures { OnOk result (self.new ≡ put self.old kind [] (pos 0)) }
    {
        self.token(kind, spelling(kind).as_bytes())
    }

    /// Two reserved words or signs.
    pub fn signs(&mut self, first: Kind, second: Kind) -> Result<(), AllocError>
        requires first { IsSpelled first }
        requires second { IsSpelled second }
        ensures { OnOk result (self.new ≡ put (put self.old first [] (pos 0)) second [] (pos 0)) }
    {
        self.sign(first)?;
        self.sign(second)
    }

    /// A name, and a reserved word or a sign behind it.
    pub fn name_before(&mut self, name: &Text, kind: Kind) -> Result<(), AllocError>
        requires { IsSpelled kind }
        ensures { OnOk result (self.new ≡ put (put self.old k.Name name.now (pos 0)) kind [] (pos 0)) }
    {
        self.name(name)?;
        self.sign(kind)
    }

    /// A name.
    #[tactic(auto, unfolding(crate::specs::Text::bytes_of))]
    pub fn name(&mut self, name: &Text) -> Result<(), AllocError>
        ensures { OnOk result (self.new ≡ put self.old k.Name name.now (pos 0)) }
    {
        self.token(Kind::Name, name.bytes())
    }

    /// A number in decimal.
    #[tactic(auto, unfolding(crate::specs::Text::bytes_of))]
    pub fn number(&mut self, n: i128) -> Result<(), AllocError>
        ensures { OnOk result (self.new ≡ put self.old k.Number [] n) }
    {
        let mut buffer = Buffer::new();
        self.token(Kind::Number, buffer.format(n).as_bytes())
    }

    /// A string.
    #[tactic(auto, unfolding(crate::specs::Text::bytes_of))]
    pub fn string(&mut self, text: &Text) -> Result<(), AllocError>
        ensures { OnOk result (self.new ≡ put self.old k.StringLiteral text.now (pos 0)) }
    {
        let bytes = quoted(self.alloc, text.bytes())?;
        self.token(Kind::StringLiteral, &bytes)
    }
}
