//! Texts and names.

ghost use Rattle.std.specs.Prelude.{◌≡◌, ◌++◌, ◌<◌, ◌^◌, ℕ, List, length, OnOk};
ghost use Rattle.setl_image_codec.specs.Codec.{if_so};
ghost use Rattle.setl_image_codec.specs.Given.{Gives};
ghost use Rattle.setl_image_codec.specs.Texts.{all_are, counted, is_name, is_name_byte, is_text_byte, name, text};

use crate::fault::ImageFault;
use crate::numbers::{push_number, read_number};
use setl_tree::Text;
use std::alloc::{AllocError, Global};

/// The text at the front, and what stands behind it.
#[tactic(auto, using(crate::proofs::Steps::text_bytes))]
pub fn read_text(alloc: Global, bytes: &[u8]) -> Result<(Text, &[u8]), ImageFault>
    ensures { Gives {Y = List ℕ × List ℕ} (λ x. (x.0, x.1.now)) result (text.read bytes.now) }
{
    let (found, rest) = read_counted(bytes)?;
    if !is_text(found) {
        return Err(ImageFault::Bad);
    }
    Ok((Text::of(alloc, found)?, rest))
}

/// The name at the front, and what stands behind it.
pub fn read_name(alloc: Global, bytes: &[u8]) -> Result<(Text, &[u8]), ImageFault>
    ensures { Gives {Y = List ℕ × List ℕ} (λ x. (x.0, x.1.now)) result (name.read bytes.now) }
{
    let (found, rest) = read_counted(bytes)?;
    Ok((name_of(alloc, found)?, rest))
}

/// These bytes, where they are a name.
#[tactic(auto, using(crate::proofs::Steps::name_is_text))]
pub fn name_of(alloc: Global, bytes: &[u8]) -> Result<Text, ImageFault>
    ensures { Gives {Y = List ℕ} (λ x. x) result (if_so is_name bytes.now) }
{
    if !is_name(bytes) {
        return Err(ImageFault::Bad);
    }
    Ok(Text::of(alloc, bytes)?)
}

/// The bytes behind their number at the front, and what stands behind them.
pub fn read_counted(bytes: &[u8]) -> Result<(&[u8], &[u8]), ImageFault>
    ensures { Gives {Y = List ℕ × List ℕ} (λ x. (x.0.now, x.1.now)) result (counted.read bytes.now) }
{
    let (n, rest) = read_number(bytes)?;
    if rest.len() < n as usize {
        return Err(ImageFault::Bad);
    }
    Ok(rest.split_at(n as usize))
}

fn is_text(bytes: &[u8]) -> bool
    ensures { result ≡ all_are is_text_byte bytes.now }
{
    for b in bytes {
        if *b == b'\n' {
            return false;
        }
    }
    true
}

/// Whether these bytes are a name: a letter `a` to `z`, and behind it such letters, digits and `_`.
pub fn is_name(bytes: &[u8]) -> bool
    ensures { result ≡ is_name bytes.now }
{
    let Some((first, rest)) = bytes.split_first() else {
        return false;
    };
    first.is_ascii_lowercase() && are_name_bytes(rest)
}

fn are_name_bytes(bytes: &[u8]) -> bool
    ensures { result ≡ all_are is_name_byte bytes.now }
{
    for b in bytes {
        if !(b.is_ascii_lowercase() || b.is_ascii_digit() || *b == b'_') {
            return false;
        }
    }
    true
}

/// Adds the text.
pub fn push_text(into: &mut Vec<u8>, t: &Text) -> Result<(), AllocError>
    requires { length t.now < 2 ^ 32 }
    ensures { OnOk result (into.new.items ≡ into.old.items ++ text.write t.now) }
{
    let bytes = t.bytes();
    push_number(into, bytes.len() as u32)?;
    into.extend_from_slice(bytes)
}
