//! Own names.

ghost use Rattle.std.specs.Prelude.{◌≡◌, ◌++◌, ◌<◌, ◌^◌, List, ℕ, length, OnOk};
ghost use Rattle.setl_code.specs.declared.code.OwnName.{OwnName};
ghost use Rattle.setl_code.specs.declared.code.OwnName.TheVariants.{Former};
ghost use Rattle.setl_image_codec.specs.Given.{Gives};
ghost use Rattle.setl_image_codec.specs.Numbers.{listed};
ghost use Rattle.setl_image_format.specs.OwnNames as spec;

use itoa::Buffer;
use setl_code::OwnName;
use setl_image_codec::{
    Coder, ImageFault, is_name, name_of, push_number, push_text, read_counted, read_list,
};
use setl_tree::{Items, Text};
use std::alloc::{AllocError, Global};

/// Own names.
#[derive(Drop)]
pub(crate) struct OwnNameCoder {}

impl Coder for OwnNameCoder {
    type Out = OwnName;

    ghost use Rattle.setl_code.specs.declared.code.OwnName.{OwnName};
    ghost use Rattle.setl_image_format.specs.OwnNames.{own_name};

    ghost Plain = { OwnName };

    ghost view = { λ x. x };

    ghost codec = { λ c. own_name };

    fn read<'a>(&self, alloc: Global, bytes: &'a [u8]) -> Result<(OwnName, &'a [u8]), ImageFault> {
        let (found, rest) = read_counted(bytes)?;
        Ok((own_of(alloc, found)?, rest))
    }

    fn push(&self, into: &mut Vec<u8>, x: &OwnName) -> Result<(), AllocError> {
        match x {
            OwnName::Body(name) => push_text(into, name),
            OwnName::Former(k, name) => push_former(into, *k, name),
        }
    }
}

/// The list of own names at the front, and what stands behind it.
pub(crate) fn read_own_names(
    alloc: Global,
    bytes: &[u8],
) -> Result<(Items<OwnName>, &[u8]), ImageFault>
    ensures { Gives {Y = List OwnName × List ℕ} (λ x. (x.0, x.1.now)) result ((listed spec.own_name).read bytes.now) }
{
    read_list(alloc, &OwnNameCoder {}, bytes)
}

// The own name that these bytes are.
fn own_of(alloc: Global, bytes: &[u8]) -> Result<OwnName, ImageFault>
    ensures { Gives {Y = OwnName} (λ x. x) result (spec.own_of bytes.now) }
{
    if is_name(bytes) {
        return Ok(OwnName::Body(name_of(alloc, bytes)?));
    }
    let (front, behind) = split(bytes);
    let Some(k) = numeral(behind) else {
        return Err(ImageFault::Bad);
    };
    Ok(OwnName::Former(k, name_of(alloc, front)?))
}

// What stands before and behind the first `.`.
fn split(bytes: &[u8]) -> (&[u8], &[u8])
    ensures front { result.0.now ≡ (spec.split bytes.now).0 }
    ensures behind { result.1.now ≡ (spec.split bytes.now).1 }
{
    for at in 0..bytes.len() {
        if bytes[at] == b'.' {
            return (&bytes[..at], &bytes[at + 1..]);
        }
    }
    (bytes, &[])
}

// The number from 1 on that these bytes are in decimal.
fn numeral(bytes: &[u8]) -> Option<u32>
    ensures { result ≡ spec.numeral bytes.now }
{
    let (first, _) = bytes.split_first()?;
    if *first == b'0' {
        return None;
    }
    let mut n: u32 = 0;
    for b in bytes {
        n = with_digit(n, *b)?;
    }
    Some(n)
}

// The number with one more digit, below 2^32.
fn with_digit(n: u32, b: u8) -> Option<u32>
    ensures { result ≡ spec.with_digit n b }
{
    if !b.is_ascii_digit() {
        return None;
    }
    let more = 10 * u64::from(n) + u64::from(b - b'0');
    if more < 1 << 32 {
        Some(more as u32)
    } else {
        None
    }
}

// Adds a name of a former.
fn push_former(into: &mut Vec<u8>, k: u32, name: &Text) -> Result<(), AllocError>
    requires { length (spec.own_text (Former k name.now)) < 2 ^ 32 }
    ensures { OnOk result (into.new.items ≡ into.old.items ++ spec.own_name.write (Former k name.now)) }
{
    let mut buffer = Buffer::new();
    let digits = buffer.format(k).as_bytes();
    let name = name.bytes();
    push_number(into, (name.len() + 1 + digits.len()) as u32)?;
    into.extend_from_slice(name)?;
    into.push(b'.')?;
    into.extend_from_slice(digits)
}
