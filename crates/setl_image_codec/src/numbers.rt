//! Numbers.

ghost use Rattle.std.specs.Prelude.{◌≡◌, ◌<◌, ◌≤◌, ◌^◌, ◌*◌, ◌++◌, ℕ, List, IfOk, OnOk};
ghost use Rattle.setl_image_codec.specs.Given.{Gives};
ghost use Rattle.setl_image_codec.specs.Numbers.{groups, integer, number, read_groups};

use crate::fault::ImageFault;
use std::alloc::AllocError;

/// The number below 2^32 at the front, and what stands behind it.
pub fn read_number(bytes: &[u8]) -> Result<(u32, &[u8]), ImageFault>
    ensures { Gives {Y = ℕ × List ℕ} (λ x. (x.0, x.1.now)) result (number.read bytes.now) }
{
    let (n, rest) = read_groups(1 << 25, 5, bytes)?;
    Ok((n as u32, rest))
}

/// The number below 2^127 at the front, and what stands behind it.
pub fn read_integer(bytes: &[u8]) -> Result<(u128, &[u8]), ImageFault>
    ensures below { IfOk result (λ x. x.0 < 2 ^ 127) }
    ensures value { Gives {Y = ℕ × List ℕ} (λ x. (x.0, x.1.now)) result (integer.read bytes.now) }
{
    read_groups(1 << 120, 19, bytes)
}

// The number below 128 * top in at most so many groups.
fn read_groups(top: u128, most: u32, bytes: &[u8]) -> Result<(u128, &[u8]), ImageFault>
    requires room { top ≤ 2 ^ 120 }
    requires some { 1 ≤ top }
    ensures below { IfOk result (λ x. x.0 < 128 * top) }
    ensures value { Gives {Y = ℕ × List ℕ} (λ x. (x.0, x.1.now)) result (read_groups top most bytes.now) }
{
    if most == 0 {
        return Err(ImageFault::Bad);
    }
    let Some((low, rest)) = bytes.split_first() else {
        return Err(ImageFault::Bad);
    };
    if *low < 128 {
        return Ok((u128::from(*low), rest));
    }
    let (high, behind) = read_groups(top, most - 1, rest)?;
    if high == 0 || high >= top {
        return Err(ImageFault::Bad);
    }
    Ok((u128::from(*low - 128) + 128 * high, behind))
}

/// Adds the number.
pub fn push_number(into: &mut Vec<u8>, n: u32) -> Result<(), AllocError>
    ensures { OnOk result (into.new.items ≡ into.old.items ++ number.write n) }
{
    push_groups(into, 5, u128::from(n))
}

/// Adds the number.
pub fn push_integer(into: &mut Vec<u8>, n: u128) -> Result<(), AllocError>
    ensures { OnOk result (into.new.items ≡ into.old.items ++ integer.write n) }
{
    push_groups(into, 19, n)
}

// Adds the number in at most so many groups.
#[tactic(auto, using(crate::proofs::Steps::groups_more))]
fn push_groups(into: &mut Vec<u8>, most: u32, n: u128) -> Result<(), AllocError>
    ensures { OnOk result (into.new.items ≡ into.old.items ++ groups most n) }
{
    if most == 0 {
        return Ok(());
    }
    if n < 128 {
        into.push(n as u8)?;
        return Ok(());
    }
    into.push((128 + n % 128) as u8)?;
    push_groups(into, most - 1, n / 128)
}
