//! Strings: lists of bytes without byte 10.

ghost use Rattle.std.specs.Prelude.{◌≡◌, ◌++◌, IfOk, OnErr, OnOk};
ghost use Rattle.std.specs.List.{All, AllByRecursion};
ghost use Rattle.setl_value.specs.WellFormed.{IsTextByte};

use setl_value_pages::append_in;
use std::alloc::{AllocError, Global};
use std::marker::Model;
use std::rc::Rc;

/// The bytes of a string. Contracts see it as the list of its bytes.
#[derive(Drop)]
pub struct Text {
    bytes: Rc<Vec<u8>>,
}

impl Model for Text {
    ghost use Rattle.std.specs.Prelude.{List, ℕ};
    ghost use Rattle.std.specs.List.{AllByRecursion};
    ghost use Rattle.setl_value.specs.WellFormed.{IsTextByte};

    ghost Value = { List ℕ };

    ghost view = { λ s. s.bytes.value.items };

    ghost invariant = { λ s. AllByRecursion IsTextByte s.bytes.value.items };
}

impl Text {
    /// A string of these bytes, which it copies. Byte 10 may not be among them.
    pub fn of(alloc: Global, bytes: &[u8]) -> Result<Text, AllocError>
        requires { All (λ b. (b ≡ 10) → ⊥) bytes.now }
        ensures { IfOk result (λ t. t ≡ bytes.now) }
    {
        Text::from_bytes(alloc, bytes.to_vec(alloc)?)
    }

    /// A string of these bytes, which it keeps as they are. Byte 10 may not be among them.
    pub fn from_bytes(alloc: Global, bytes: Vec<u8>) -> Result<Text, AllocError>
        requires { All (λ b. (b ≡ 10) → ⊥) bytes.items }
        ensures { IfOk result (λ t. t ≡ bytes.items) }
    {
        Ok(Text {
            bytes: Rc::new(alloc, bytes)?,
        })
    }

    /// Puts the bytes of another string after the last one. Where memory is refused, the string is as before.
    pub fn append(&mut self, other: &Text) -> Result<(), AllocError>
        ensures joined { OnOk result (self.new ≡ self.old ++ other.now) }
        ensures refused { OnErr result (self.new ≡ self.old) }
    {
        append_in(&mut self.bytes, other.bytes.as_slice())
    }

    /// The bytes of the string.
    pub fn bytes(&self) -> &[u8]
        ensures { result.now ≡ self.now }
    {
        self.bytes.as_slice()
    }

    /// The same string, which shares its bytes.
    pub fn copy(&self) -> Result<Text, AllocError>
        ensures same { IfOk result (λ t. t ≡ self.now) }
    {
        Ok(Text {
            bytes: self.bytes.clone()?,
        })
    }

    /// Has no effect: it hands a proof what is true of every string, that each byte is below 256 and none is 10.
    pub fn learn(&self)
        ensures { AllByRecursion IsTextByte self.now }
    {
        let _ = &self.bytes;
    }
}
