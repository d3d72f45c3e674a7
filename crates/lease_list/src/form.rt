//! What is listed, and the form of the lines.

/// What is listed.
#[derive(Clone, Copy)]
pub enum What {
    Leases,
    /// What the leases take of each pool.
    Pools,
}

/// How the lines are written.
#[derive(Clone, Copy)]
pub enum Form {
    Text,
    Json,
}
