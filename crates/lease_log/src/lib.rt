//! What happened to the leases of a circuit between two looks at its slots, and a line for it.
#![tactic(auto)]

mod change;
pub mod laws;
mod line;
mod look;

pub use change::{Change, Happened, Holder};
pub use line::Line;
pub use look::{end_of, start_of};
