//! Why nothing is known of a circuit's leases.

/// Why nothing is known of a circuit's leases.
#[derive(Clone, Copy)]
pub enum Closed {
    /// The bytes of its region are those of no book.
    Damaged,
    /// Its region can't be read.
    Unreadable,
    /// Its region was written to during every reading.
    Busy,
}
