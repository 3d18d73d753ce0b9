//! The commands of a script.

use setl_tree::Text;

/// A line of a script. A number of turns is below 2^63, and a line of the source is at least 1.
#[derive(Debug, Drop)]
pub enum Command {
    /// `input TEXT`: a line that the program reads.
    Input(Text),
    /// `go N`: to the state after so many turns.
    Go(u64),
    /// `on N`: on by so many turns.
    On(u64),
    /// `back N`: back by so many turns.
    Back(u64),
    /// `until L`: to where the line of the source is stored at next.
    Until(u32),
    /// `show`: shows where the program is, and its variables.
    Show,
    /// `out`: shows what the program has written.
    Out,
    /// `profile`: shows how often each procedure was called.
    Profile,
    /// An empty line.
    Nothing,
}
