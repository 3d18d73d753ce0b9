//! Names and strings.

ghost use Rattle.std.specs.Prelude.{◌≡◌, IfOk};
ghost use Rattle.std.specs.List.{AllByRecursion};
ghost use Rattle.setl_tree.specs.Texts.{IsTextByte};

use std::alloc::{AllocError, Global};
use std::marker::Model;
use std::rc::Rc;

/// Bytes without byte 10: a name in lower case, or what a string holds. Copies share them. Contracts see the list of the
/// bytes.
#[derive(Debug, Drop)]
pub struct Text {
    bytes: Rc<Vec<u8>>,
}

impl Model for Text {
    ghost use Rattle.std.specs.Prelude.{List, ℕ};
    ghost use Rattle.std.specs.List.{AllByRecursion};
    ghost use Rattle.setl_tree.specs.Texts.{IsTextByte};

    ghost Value = { List ℕ };

    ghost view = { λ t. t.bytes.value.items };

    ghost invariant = { λ t. AllByRecursion IsTextByte t.bytes.value.items };
}

impl Text {
    /// A text of these bytes. An error is want of memory.
    pub fn of(alloc: Global, bytes: &[u8]) -> Result<Text, AllocError>
        requires { AllByRecursion IsTextByte bytes.now }
        ensures { IfOk result (λ t. t ≡ bytes.now) }
    {
        let bytes = Vec::from_slice(alloc, bytes)?;
        Ok(Text {
            bytes: Rc::new(alloc, bytes)?,
        })
    }

    /// The bytes of the text, in their order; none of them is byte 10.
    pub fn bytes(&self) -> &[u8]
        ensures value { result.now ≡ self.now }
        ensures clean { AllByRecursion IsTextByte result.now }
    {
        self.bytes.as_slice()
    }

    /// The same text, which shares its bytes. An error is want of memory.
    pub fn copy(&self) -> Result<Text, AllocError>
        ensures { IfOk result (λ t. t ≡ self.now) }
    {
        Ok(Text {
            bytes: self.bytes.clone()?,
        })
    }
}
