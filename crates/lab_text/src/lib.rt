//! The lines that `accesslab` reads: what each says.
#![tactic(auto)]

mod batches;
mod circuits;
mod comebacks;
mod digits;
mod fields;
mod form;
mod forms;
mod hexadecimal;
pub mod parse_line;
mod parting;
mod reasons;
mod sources;

pub use batches::Parts;
pub use comebacks::ZEROED;
pub use hexadecimal::MAX_BYTES;
pub use reasons::{WhyBad, why_bad};
