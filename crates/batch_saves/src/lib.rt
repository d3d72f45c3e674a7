//! Slots of several regions that are saved together, by shared syncs.
#![tactic(auto)]

mod batch;
pub mod laws;
mod steps;
mod syncs;
mod writes;

pub use batch::save_many;
pub use lease_disk::Saving;
