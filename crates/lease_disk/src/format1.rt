//! The layout that earlier versions wrote: two banks, each with all slots, of which one counts.
mod banks;
mod formatting;
mod reading;

pub use formatting::format_old;
pub(crate) use reading::{halves_of_banks, read_banks};
