//! The kinds of modes.

/// What stands at the head of a mode.
#[derive(Clone, Copy, Debug, PartialEq, Eq)]
pub enum Kind {
    General,
    Int,
    Str,
    Boolean,
    Atom,
    Elmt,
    Set,
    Tuple,
    Smap,
    Mmap,
}
