//! Words, numbers and strings.

ghost use Rattle.std.specs.Prelude.{◌≡◌, ◌++◌, codes, OnOk};
ghost use Rattle.std.specs.Fmt.{signed_decimal};
ghost use Rattle.setl_value.specs.Datum.{int, text};
ghost use Rattle.setl_text.specs.Texts.{inner_text};
ghost use Rattle.setl_code.specs.Listing.{numbered};

use setl_text::push_decimal;
use setl_tree::Text;
use std::alloc::AllocError;

/// Adds a word.
pub fn push_word(into: &mut Vec<u8>, word: &str) -> Result<(), AllocError>
    ensures { OnOk result (into.new.items ≡ into.old.items ++ word.now) }
{
    into.extend_from_slice(word.as_bytes())
}

/// Adds a word, a blank, and a number in decimal.
pub fn push_numbered(into: &mut Vec<u8>, word: &str, n: u32) -> Result<(), AllocError>
    ensures { OnOk result (into.new.items ≡ into.old.items ++ numbered word.now n) }
{
    push_word(into, word)?;
    into.push(b' ')?;
    push_decimal(into, u64::from(n))
}

/// Adds the word for an integer, and the integer in decimal.
pub fn push_integer(into: &mut Vec<u8>, n: i128) -> Result<(), AllocError>
    ensures { OnOk result (into.new.items ≡ into.old.items ++ (codes "int " ++ signed_decimal n)) }
{
    push_word(into, "int ")?;
    setl_text::push_integer(into, n)
}

/// Adds the word for a string, and the string between apostrophes with each apostrophe in it doubled.
pub fn push_string(into: &mut Vec<u8>, t: &Text) -> Result<(), AllocError>
    ensures { OnOk result (into.new.items ≡ into.old.items ++ (codes "str " ++ inner_text (text t.now))) }
{
    push_word(into, "str ")?;
    setl_text::push_quoted(into, t.bytes())
}
