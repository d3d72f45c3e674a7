//! Why bytes spell no message.

use thiserror::Error;

/// Why bytes spell no message. The first fault that applies, in this order, is reported.
#[derive(Clone, Copy, Debug, PartialEq, Eq, Error)]
pub enum MessageFault {
    /// There are fewer bytes than a header and a cookie have.
    #[error("the message is too short")]
    Short,
    /// The four bytes before the options are not DHCP's cookie.
    #[error("the message has no DHCP cookie")]
    Cookie,
    /// The hardware address is not an Ethernet address.
    #[error("the message's hardware is not Ethernet")]
    Hardware,
    /// The options have a fault or an overload (52), or an address (50 or 54) is not 4 bytes long.
    #[error("the message's options are malformed")]
    Options,
    /// op is neither a request nor a reply, or option 53 is not a message type from 1 to 8.
    #[error("the message has no known type")]
    Kind,
}
