//! What happens to relay, network and server, what comes of it, and what one circuit sees of it.
#![tactic(auto)]

mod batch;
mod comeback;
mod event;
mod outcome;

pub use batch::{BatchPart, PartOutcome, is_batch, part_fault};
pub use comeback::Comeback;
pub use event::Event;
pub use outcome::Outcome;
