//! DHCPv4 messages (RFC 2131, section 2): the message that bytes spell, and the bytes of a message.
#![tactic(auto)]

mod fault;
pub mod field;
mod header;
pub mod laws;
mod message;
mod parts;

pub use fault::MessageFault;
pub use header::{BROADCAST, Header, OP_REPLY, OP_REQUEST};
pub use message::Message;
