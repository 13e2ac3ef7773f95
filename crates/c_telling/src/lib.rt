// A telling in words, and what telling answers, for callers that know arrays and numbers only.
#![tactic(auto)]

pub use words::{TELLING, end_tell, heard_in, put_telling, telling_in};

mod words;
