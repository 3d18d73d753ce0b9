//! The modes of a `repr` section, as they are written.

use crate::boxed::Boxed;
use crate::items::Items;
use crate::text::Text;
use crate::tree::Declared;

/// The word before a `set`, `smap` or `mmap`.
#[derive(Clone, Copy, Debug, PartialEq, Eq)]
pub enum Attribute {
    Local,
    Remote,
    Sparse,
}

/// A mode with the line of its first token.
#[cycle(mode)]
#[derive(Drop)]
pub struct WrittenMode {
    pub line: u32,
    pub attribute: Option<Attribute>,
    pub core: Core,
}

/// A mode without its attribute.
#[cycle(mode)]
#[derive(Drop)]
pub enum Core {
    General,
    /// `int` and `integer`.
    Int,
    Str,
    Boolean,
    Atom,
    /// `elmt base`, with the line of the word `elmt` and the base's name.
    Elmt(u32, Text),
    Set(Boxed<WrittenMode>),
    Tuple(Boxed<WrittenMode>),
    /// `smap(domain) range`
    Smap(Boxed<WrittenMode>, Boxed<WrittenMode>),
    /// `mmap{domain} range`
    Mmap(Boxed<WrittenMode>, Boxed<WrittenMode>),
}

/// A line of a `repr` section, with the line of its first token.
#[derive(Drop)]
pub enum ReprLine {
    /// `base name, .. : mode;`, where the mode may be left out.
    Base(u32, Items<Declared>, Option<WrittenMode>),
    /// `name, .. : mode;`
    Variables(u32, Items<Declared>, WrittenMode),
}
