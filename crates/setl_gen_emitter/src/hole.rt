//! Jumps whose targets aren't known yet.

/// A jump whose target isn't known yet, at a place of the code, with its line.
#[derive(Clone, Copy, Debug, PartialEq, Eq)]
pub struct Hole {
    pub place: u32,
    pub line: u32,
}
