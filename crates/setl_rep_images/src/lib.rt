//! The images of points in maps that are held as tables, their domains, and these maps without a point, as the operators give
//! them.
#![tactic(auto)]

mod contents;
mod domains;
mod removing;
mod selecting;

pub use domains::domain;
pub use removing::without;
pub use selecting::{image, images};
