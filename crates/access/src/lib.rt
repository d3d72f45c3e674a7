//! The engine of `accessd`: relay and server over UDP sockets on loopback, and a device in a file.
#![tactic(auto)]

mod access;
mod batch;
mod clock;
mod datagrams;
mod options;
mod polling;
mod sending;

pub use access::{Access, AccessFault, Watch, try_sockets};
pub use clock::moment_of;
pub use counts::{CircuitCounts, Counts, Fate, REASONS};
pub use opening::{DeviceFault, device_of};
pub use options::ServeOptions;
pub use sockets::{Warning, clients_address, warn};
pub use udp::History;
