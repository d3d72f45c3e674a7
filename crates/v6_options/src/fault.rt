//! Why bytes spell no list of options.
use thiserror::Error;

/// Why bytes spell no list of options.
#[derive(Clone, Copy, Debug, PartialEq, Eq, Error)]
pub enum OptFault {
    /// An option's code, length or value goes past the last byte.
    #[error("an option is cut off")]
    Cut,
}
