//! The laws between sources, their tokens as plain data, trees and canonical texts, and the parse of a canonical text.
#![tactic(auto)]

mod laws;
mod shown;

pub use laws::{
    canonical_text_derives, canonical_text_is_spelled, lines_do_not_matter,
    same_trees_are_shown_alike, shown_text_is_read_again, source_is_spelled,
    spelling_is_determined, text_is_spelled,
};
pub use shown::parse_shown;
