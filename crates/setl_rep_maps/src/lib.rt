//! Maps that are held as tables: the content of a point, what it stands for, and another one in its place.
//!
//! A table has a content for the number of each point. The content stands for the image of the point, or for the set of
//! its images where the map keeps these as sets (`many`).
#![tactic(auto)]

mod changing;
mod contents;
pub mod laws;
mod putting;

pub use changing::change_content;
pub use contents::{content, image, learn, table_of};
pub use putting::put_content;
