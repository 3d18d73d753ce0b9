//! What stands at the inside of a brace or bracket, as far as a bound in front shows it.

/// Whether the tokens begin with what an iterator binds.
#[derive(Clone, Copy, Debug, PartialEq, Eq)]
pub enum Ahead {
    /// They do not go on as `bound in`: an expression is read.
    Expression,
    /// `name in` or `[name, ..] in`: a filter's bound or the left side of a comparison.
    Either,
    /// A tuple pattern with a `-` in it, which is no expression.
    Pattern,
}
