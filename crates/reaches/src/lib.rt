// What the questions piece, sole and cut answer, for all fragments of a forest at once: a few passes over their turns, by which parents come first.
#![tactic(auto)]

mod judge;
mod laying;
mod sections;
mod sink;

pub use laying::spread;
pub use sections::{CUT, PIECE, SOLE};
