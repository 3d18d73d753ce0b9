//! The faults of a source that has no tree.

/// Why a source has no tree.
#[derive(Clone, Copy, Debug, PartialEq, Eq)]
pub enum SourceFault {
    /// It has more than 2^24 bytes.
    TooLong,
    /// A byte begins no token, blank or comment.
    Byte,
    /// A string isn't closed on its line.
    OpenString,
    /// A number is above 2^127 - 1.
    WideNumber,
    /// A token, or the end of the source, goes on no program.
    Syntax,
    /// A token opens a nesting inside 200 others.
    Nesting,
}
