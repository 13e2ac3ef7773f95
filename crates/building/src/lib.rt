// Take while the forest is built.
#![tactic(auto)]

mod hold;
mod links;
mod noted;
mod taking;
mod tell;

pub use taking::take;
