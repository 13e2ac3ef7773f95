// The pieces that held links make: found, joined and gathered in scratch, and whether each keeps its quota.
#![tactic(auto)]

mod gathering;
mod pieces;
mod quota;

pub use gathering::gathered;
pub use pieces::{LINKS, POINTER, SIZE, find, join};
