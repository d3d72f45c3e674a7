//! What a slot is to hold.
use types::{Slot4, Slot6};

/// What a slot of either protocol is to hold.
#[derive(Clone, Copy, PartialEq, Eq)]
pub enum Content {
    /// Of a slot below 16.
    Four(Slot4),
    /// Of a slot from 16 on.
    Six(Slot6),
}
