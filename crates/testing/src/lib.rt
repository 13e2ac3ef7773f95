// The head of every call on a state: the refusals 1, 2, 3, 6 and 11, this one but for the held links.
#![tactic(auto)]

mod refusals;
mod sections;
mod test;
mod turns;

pub use refusals::head;
