//! Lists of DHCPv6 options (RFC 8415, section 21), read as views of their bytes, and written.
#![tactic(auto)]

pub mod code;
mod fault;
mod iter;
pub mod laws;
mod options;
mod token;
mod writing;

pub use fault::OptFault;
pub use iter::Iter;
pub use options::Options;
pub use token::{Token, next_token};
pub use writing::{put, put_head};
