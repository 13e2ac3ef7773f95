// Close in Building: the pieces are placed.
#![tactic(auto)]

mod arrange;
mod choose;
mod closing;
mod members;
mod path;
mod sections;
mod walk;

pub use closing::close;
