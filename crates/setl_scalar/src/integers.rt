//! The operators on integers of 128 bits. None takes memory.
ghost use Rattle.std.specs.Prelude.{◌≡◌, IfOk};
ghost use Rattle.setl_scalar.specs.Integers.{narrow, add_of, sub_of, mul_of, neg_of, abs_of, power, power_of, div_of, mod_of, IsTruncated, IsRemainder};

use crate::ScalarFault;

/// The sum. Wide exactly where it doesn't fit.
#[tactic(auto, using(crate::proofs::Narrow::narrow_from_checked))]
pub fn add(a: i128, b: i128) -> Result<i128, ScalarFault>
    ensures { result ≡ add_of a b }
{
    a.checked_add(b).ok_or(ScalarFault::Wide)
}

/// The difference. Wide exactly where it doesn't fit.
#[tactic(auto, using(crate::proofs::Narrow::narrow_from_checked))]
pub fn sub(a: i128, b: i128) -> Result<i128, ScalarFault>
    ensures { result ≡ sub_of a b }
{
    a.checked_sub(b).ok_or(ScalarFault::Wide)
}

/// The product. Wide exactly where it doesn't fit.
#[tactic(auto, using(crate::proofs::Narrow::narrow_from_checked))]
pub fn mul(a: i128, b: i128) -> Result<i128, ScalarFault>
    ensures { result ≡ mul_of a b }
{
    a.checked_mul(b).ok_or(ScalarFault::Wide)
}

/// The negative. Wide exactly for the least integer.
#[tactic(auto, using(crate::proofs::Narrow::narrow_from_checked))]
pub fn neg(a: i128) -> Result<i128, ScalarFault>
    ensures { result ≡ neg_of a }
{
    a.checked_neg().ok_or(ScalarFault::Wide)
}

/// The absolute value. Wide exactly for the least integer.
pub fn abs(a: i128) -> Result<i128, ScalarFault>
    ensures { result ≡ abs_of a }
{
    if a < 0 { neg(a) } else { Ok(a) }
}

/// `a` to the power `b`, where the power 0 is 1. Range exactly where `b` is below 0, Wide exactly
/// where the power doesn't fit.
pub fn power(a: i128, b: i128) -> Result<i128, ScalarFault>
    ensures { result ≡ power_of a b }
{
    if b < 0 {
        return Err(ScalarFault::Range);
    }
    power_by_squaring(a, b.unsigned_abs())
}

/// A power as the square of the power to half the exponent, times `base` where the exponent is odd.
/// A power that is too wide ends the call, since every higher one is.
fn power_by_squaring(base: i128, exponent: u128) -> Result<i128, ScalarFault>
    ensures { result ≡ narrow (power base exponent) }
{
    if exponent == 0 {
        return Ok(1);
    }
    let root = power_by_squaring(base, exponent / 2)?;
    let square = mul(root, root)?;
    if exponent % 2 == 0 {
        Ok(square)
    } else {
        mul(square, base)
    }
}

/// The quotient, rounded towards 0. Zero exactly where `b` is 0, Wide exactly for the least integer
/// by -1.
pub fn div(a: i128, b: i128) -> Result<i128, ScalarFault>
    ensures value { result ≡ div_of a b }
    ensures truncated { IfOk result (λ q. IsTruncated a b q) }
{
    if b == 0 {
        return Err(ScalarFault::Zero);
    }
    a.checked_div(b).ok_or(ScalarFault::Wide)
}

/// The remainder, from 0 to below the divisor's absolute value. Zero exactly where `b` is 0.
pub fn modulo(a: i128, b: i128) -> Result<i128, ScalarFault>
    ensures value { result ≡ mod_of a b }
    ensures remainder { IfOk result (λ r. IsRemainder a b r) }
{
    if b == 0 {
        return Err(ScalarFault::Zero);
    }
    Ok(a.wrapping_rem_euclid(b))
}
