// The numbers of a forest, made in a few passes: the turn of each fragment in depth-first order, where those below it end, and whose each turn is.
#![tactic(auto)]

mod number;
mod order;
mod sections;
mod sizes;
mod turns;

pub use number::head;
