//! The small kinds that programs and their code have alike.

/// An operator that evaluates its right part only where the left one doesn't decide.
#[derive(Clone, Copy, Debug, PartialEq, Eq)]
pub enum Connective {
    And,
    Or,
    /// `impl`
    Implies,
}

/// What a quantifier asks.
#[derive(Clone, Copy, Debug, PartialEq, Eq)]
pub enum Quantifier {
    Exists,
    Forall,
    NotExists,
}

/// Whether values are collected in a set or in a tuple.
#[derive(Clone, Copy, Debug, PartialEq, Eq)]
pub enum Collection {
    OfSet,
    OfTuple,
}

/// How the members of an iterator come from its source.
#[derive(Clone, Copy, Debug, PartialEq, Eq)]
pub enum Source {
    /// Those of a set, a tuple or a string.
    Values,
    /// The integers of `[a..b]` or `{a..b}`, written directly as the source.
    Between,
    /// Those of `{a, b..c}`, rising.
    SetSteps,
    /// Those of `[a, b..c]`.
    TupleSteps,
}

/// Which part `from`, `fromb` and `frome` take out.
#[derive(Clone, Copy, Debug, PartialEq, Eq)]
pub enum Taking {
    /// The least member of a set.
    TakeLeast,
    /// The first component of a tuple.
    TakeFirst,
    /// The last component of a tuple.
    TakeLast,
}
