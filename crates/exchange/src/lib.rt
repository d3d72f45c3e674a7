//! What a circuit's book is asked, and what it answers: a client's message and a reply before they have bytes.
#![tactic(auto)]

mod request4;
mod request6;

pub use request4::{Reply4, Request4};
pub use request6::{MAX_LISTED, Reply6, ReplyIa, ReplyKind6, Request6, ServerId, Status6};
