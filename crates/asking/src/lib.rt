// The questions about a forest that stands: parent, level, piece, sole and cut.
#![tactic(auto)]

mod ask;
mod cutting;
mod questions;
mod ranges;
mod tree;

pub use ask::{level, parent};
pub use questions::{cut, sole};
pub use tree::piece;
