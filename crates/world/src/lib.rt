//! Relay, network and server together: what each event does, and the frames that leave towards a
//! circuit.
#![tactic(auto)]

pub mod laws;
mod machine;
mod sink;
mod world;

pub use dispatch::OpenFault;
pub use events::{BatchPart, Event, Outcome, PartOutcome};
pub use machine::{Machine, run};
pub use sink::Sink;
pub use world::World;
