//! How regions come back.
use lease_disk::Image;

/// How the region of one circuit comes back when server and disk start again.
#[derive(Clone, Copy, PartialEq, Eq)]
pub struct Comeback {
    /// What its unsynced bytes have become, or that it cannot be read.
    pub image: Image,
    /// Which call of the disk fails where the region is moved to format 2, 1 the first and 4 the last, any other
    /// number none. It has no effect on a region that is not moved.
    pub move_fault: u8,
}
