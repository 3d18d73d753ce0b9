//! Two vectors, word by word.
ghost use Rattle.std.specs.Prelude.{◌≡◌, ℕ, ◌^◌, ◌<◌, max, length, IfOk};
ghost use Rattle.setl_remote.specs.Words.{has_bit};
ghost use Rattle.setl_remote.specs.Operation.{word_of, keeps};

use crate::words::word;
use std::alloc::{AllocError, Global};

/// What is made of two words.
#[derive(Clone, Copy)]
pub(crate) enum Operation {
    And,
    Or,
    Minus,
    Xor,
}

/// The operation on two words.
fn apply(operation: Operation, x: u64, y: u64) -> u64
    ensures { result ≡ word_of operation x y }
{
    match operation {
        Operation::And => x & y,
        Operation::Or => x | y,
        Operation::Minus => x & !y,
        Operation::Xor => x ^ y,
    }
}

/// The operation on two lists of words, word by word. Words past the end are 0.
pub(crate) fn combine(
    alloc: Global,
    operation: Operation,
    x: &[u64],
    y: &[u64],
) -> Result<Vec<u64>, AllocError>
    ensures len { IfOk result (λ words. length words.items ≡ max (length x.now) (length y.now)) }
    ensures bits { IfOk result (λ words. (n : ℕ) → has_bit words.items n ≡ keeps operation (has_bit x.now n) (has_bit y.now n)) }
{
    let len = x.len().max(y.len());
    let mut words = Vec::with_capacity(alloc, len)?;
    for i in 0..len {
        words.push_reserved(apply(operation, word(x, i), word(y, i)));
    }
    Ok(words)
}
