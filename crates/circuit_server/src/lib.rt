//! The server of one circuit: what it decides on a message, what it saves, and what it answers.
#![tactic(auto)]

mod circuit_server;
mod decision;
pub mod laws;
mod open_circuit;
mod prepared;

pub use circuit_server::CircuitServer;
pub use prepared::Prepared;
