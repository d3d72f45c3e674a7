//! What a crash leaves of a region.

/// What a restart finds of a region.
#[derive(Clone, Copy, PartialEq, Eq)]
pub enum Image {
    /// Each byte that was not synced is this one.
    Byte(u8),
    /// The region cannot be read. What was in doubt stays so.
    Unreadable,
}
