//! Modes.

use setl_tree::{Boxed, Items, Text};

/// How a value of a mode is kept, which has no part in what fits.
#[derive(Clone, Copy, Debug, PartialEq, Eq)]
pub enum Form {
    Plain,
    Local,
    Remote,
    Sparse,
}

/// What a declaration says of the values of a variable.
#[cycle(mode)]
#[derive(Drop)]
pub enum Mode {
    General,
    Int,
    Str,
    Boolean,
    Atom,
    /// `elmt base`: the base's number, counted from 0, and its mode.
    Elmt(u32, Boxed<Mode>),
    Set(Form, Boxed<Mode>),
    Tuple(Boxed<Mode>),
    /// `smap(domain) range`
    Smap(Form, Boxed<Mode>, Boxed<Mode>),
    /// `mmap{domain} images`
    Mmap(Form, Boxed<Mode>, Boxed<Mode>),
}

/// A base or a variable with its mode.
#[derive(Drop)]
pub struct NamedMode {
    pub name: Text,
    pub mode: Mode,
}

/// The bases and the declared variables of a program, each in the order of their declarations.
#[derive(Drop)]
pub struct ModeTable {
    pub bases: Items<NamedMode>,
    pub vars: Items<NamedMode>,
}
