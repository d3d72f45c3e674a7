//! What became of the datagrams that `accessd` took.
#![tactic(auto)]

mod circuit_counts;
mod counts;
pub mod laws;
mod tally;

pub use circuit_counts::CircuitCounts;
pub use counts::{Counts, Fate, REASONS};
pub use tally::Tally;
