//! What `accessd` counts and decides while it serves: what it tells of a circuit, and when.
#![tactic(auto)]

mod circuit_line;
mod declined;
mod faults;
pub mod laws;
mod looks;
mod once;
mod schedule;
mod seen;
mod used;

pub use circuit_line::CircuitLine;
pub use faults::Faults;
pub use looks::{Looks, Scope};
pub use once::Once;
pub use schedule::Schedule;
pub use seen::{Full, Reopening, Seen};
