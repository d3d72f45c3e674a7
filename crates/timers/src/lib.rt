//! When the slots of all circuits are due.
#![tactic(auto)]

mod deadlines;
mod rows;
mod sweep;
mod tree;

pub use deadlines::Deadlines;
