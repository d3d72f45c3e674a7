//! The server: which circuit a datagram is of, and what that circuit's server answers.
#![tactic(auto)]

mod circuit_servers;
pub mod laws;
mod regions;
mod server;

pub use regions::region_count;
pub use server::{Answer, BatchAnswers, OpenFault, Server};
