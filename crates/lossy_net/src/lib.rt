//! The network between relay and server: for each circuit and direction the datagrams that were sent
//! last.
#![tactic(auto)]

mod dir;
mod net;
mod packets;
mod ring;

pub use dir::Dir;
pub use net::{MAX_QUOTA, Net};
pub use types::Memory;
