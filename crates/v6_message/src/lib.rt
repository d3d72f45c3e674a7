//! DHCPv6 messages (RFC 8415, sections 8 and 9), read as views of their bytes, and written.
#![tactic(auto)]

mod count;
mod fault;
mod ia;
mod ia_address;
mod ia_header;
pub mod laws;
mod message;
mod message_header;
mod parts;
mod relay;
mod relay_header;
mod scan;
mod seen_codes;
mod status;

pub use fault::{MessageFault, RelayFault};
pub use ia::Ia6;
pub use ia_address::{Addresses, IaAddress};
pub use ia_header::IaHeader;
pub use message::Message6;
pub use message_header::MessageHeader;
pub use relay::Relay6;
pub use relay_header::{RELAY_FORWARD, RELAY_REPLY, RelayHeader};
