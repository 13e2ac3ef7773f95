// States and the answers of the calls in words, for callers that know arrays and numbers only.
#![tactic(auto)]

pub use answers::{end_close, end_state, end_take, judge, tell};
pub use pairs::{high, joined, low};
pub use words::{STATE, pack, unpack, wide, word};

mod answers;
mod pairs;
mod words;
