// Adopting a forest made elsewhere.
#![tactic(auto)]

mod adopting;
mod parents;

pub use adopting::adopt;
