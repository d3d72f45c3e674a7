//! Why bytes spell no message.
use thiserror::Error;

/// Why bytes spell no relay message. Fewer bytes than a header come first, then the leftmost option's
/// fault.
#[derive(Clone, Copy, Debug, PartialEq, Eq, Error)]
pub enum RelayFault {
    /// There are fewer bytes than a header has.
    #[error("the relay message is too short")]
    Short,
    /// An option goes past the last byte.
    #[error("an option of the relay message is cut off")]
    Cut,
    /// Option 9 or 18 appears twice.
    #[error("an option of the relay message appears twice")]
    Twice,
}

/// Why bytes spell no client's or server's message. Fewer bytes than a header come first, then the
/// leftmost option's fault, then the counts.
#[derive(Clone, Copy, Debug, PartialEq, Eq, Error)]
pub enum MessageFault {
    /// There are fewer bytes than a header has.
    #[error("the message is too short")]
    Short,
    /// An option goes past the last byte, or an IA_NA has no IAID, T1, T2 and whole options, or an
    /// address in it no two lifetimes.
    #[error("an option of the message is cut off")]
    Cut,
    /// Option 1 or 2 appears twice.
    #[error("an option of the message appears twice")]
    Twice,
    /// There is no IA_NA, or more than one.
    #[error("the message has not exactly one IA_NA")]
    IaCount,
    /// The IA_NA has more than 4 addresses.
    #[error("the message lists more than 4 addresses")]
    AddrCount,
}
