//! An input that is read up to its end.
ghost use Rattle.std.specs.Prelude.{◌≤◌};
ghost use Rattle.setl_debug_input.specs.Wholes.{ReadsWhole, CountsWhole};

use setl_io::{Source, Took};
use std::alloc::Global;

/// What became of the reading of a whole input.
#[derive(Debug, Drop)]
pub enum Whole {
    /// All bytes that were left.
    Bytes(Vec<u8>),
    /// There are more bytes than the limit allows.
    TooLong,
    /// A fault of the input, which was counted.
    Failed,
    /// Memory for the bytes was refused.
    NoMemory,
}

/// Takes all bytes of an input that are left, if these are at most `limit`.
///
/// `TooLong` comes where there are more: more than `limit` bytes were taken then. `Failed` comes at the first fault of
/// the input, and nothing is tried after it; no other answer changes its count of faults. `NoMemory` is the answer to
/// want of memory. Bytes that were taken before either are gone.
pub fn read_whole<I: Source>(alloc: Global, input: &mut I, limit: usize) -> Whole
    ensures bytes { ReadsWhole limit (I.left input.old) (I.left input.new) result }
    ensures count { CountsWhole (I.faults input.old) (I.faults input.new) result }
    ensures later { I.faults input.old ≤ I.faults input.new }
{
    let mut taken = Vec::new(alloc);
    let mut room = [0u8; 4096];
    while taken.len() <= limit {
        match input.read(&mut room) {
            Took::Bytes(count) => {
                if taken.extend_from_slice(&room[..count]).is_err() {
                    return Whole::NoMemory;
                }
            }
            Took::End => return Whole::Bytes(taken),
            Took::Failed => return Whole::Failed,
        }
    }
    Whole::TooLong
}
