// Reading a list against a forest.
#![tactic(auto)]

mod closing;
mod opening;
mod taking;
mod tell;

pub use closing::close;
pub use opening::open_reading;
pub use taking::take;
