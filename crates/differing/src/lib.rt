// The test of the held links but for the quota of their pieces: their ends, and none twice.
#![tactic(auto)]

mod ends;
mod refusals;
mod twice;

pub use refusals::head_but_quota;
