//! What the parser reads with: a cursor over the tokens of a source, what stands ahead, rules and lists of rules, and
//! the tables of operators.
//!
//! Each call that reads gives exactly what its reader in `setl_parse_reading` gives on the tokens that are left: what was read,
//! with the cursor behind it, or a fault. `Fault::Syntax` comes at the first token that doesn't go on, `Fault::Nesting` at
//! one that goes on and opens a nesting where `room`, the number of nestings that may still open, is 0; each has the
//! number of tokens left there. `Fault::Memory` comes for want of memory alone. Where the cursor stands after a fault
//! isn't said.
#![tactic(auto)]

mod bindings;
mod content;
mod cursor;
mod laws;
mod lookahead;
mod operators;
mod prefixes;
mod rule;

pub use bindings::{argument, bound, pattern};
pub use cursor::{Cursor, same_kind};
pub use laws::string_holds_its_body;
pub use lookahead::ahead;
pub use operators::{begins_selector, closes, op_at, quantifier, relation_op};
pub use prefixes::{NotRule, PrefixRule, open_quantifier};
pub use rule::{
    ListedRule, Repeated, Rule, SeparatedRule, beside, enclosed, followed, held, listed, many,
    many_boxed, many_onto, more_boxed_onto, more_onto, one, optional, separated, separated_boxed,
    two, with_many, with_many_boxed, with_optional,
};
