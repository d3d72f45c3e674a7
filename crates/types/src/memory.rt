//! The fault of a call that takes memory.
use thiserror::Error;

/// A request for memory was refused.
#[derive(Clone, Copy, Debug, PartialEq, Eq, Error)]
#[error("out of memory")]
pub struct Memory;
