//! DHCPv4 options (RFC 2132) and a relay agent's suboptions (RFC 3046): the list that bytes spell, and
//! the bytes of a list.
#![tactic(auto)]

pub mod code;
mod fault;
mod front;
mod iter;
pub mod laws;
mod options;
mod places;
mod seen_codes;
mod suboptions;
mod token;
mod writing;

pub use fault::{OptFault, SuboptFault};
pub use iter::Iter;
pub use options::Options;
pub use suboptions::Suboptions;
pub use writing::put;
