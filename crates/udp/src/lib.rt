//! UDP sockets and clocks whose history contracts see, and waiting for datagrams.
#![tactic(auto)]

mod clock;
mod datagram_socket;
mod history;
mod waiting;

pub use clock::{read_clock, read_monotonic};
pub use datagram_socket::{Attempt, BUFFER_LEN, BindFault, DatagramSocket};
pub use history::{Happened, History, Role};
pub use waiting::Waiter;
