//! What lies in the environment of a store.

use setl_rep_bases::BaseMarks;
use setl_store_environment::Environment;
use setl_store_operands::{Member, Operand};
use setl_store_slots::Held;

/// A body at work: its number, the place at which its caller goes on, and its lowest slot and operand.
#[derive(Clone, Copy)]
pub(crate) struct Frame {
    pub body: u32,
    pub from: usize,
    pub slots: usize,
    pub operands: usize,
}

/// What a field of an element block holds beside its bit: nothing, since no variable lies in fields yet.
#[derive(Drop)]
pub(crate) enum FieldContent {}

/// What `ok` keeps beside the environment: the place at which `fail` goes on, and what was there of the bases.
#[derive(Drop)]
pub(crate) struct Kept {
    pub at: usize,
    pub marks: BaseMarks,
}

/// The slots, the operands, the activations, the members of collections and the fields of element blocks, and what `ok`
/// kept.
pub(crate) type Contents = Environment<Held, Operand, Frame, Member, FieldContent, Kept>;
