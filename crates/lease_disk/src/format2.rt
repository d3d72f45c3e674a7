//! The layout of regions of format 2: two halves a slot, of which a save writes the one that does not count.

mod formatting;
mod layout;
mod reading;
mod steps;
mod write_half;

pub use formatting::{format, format_bytes};
pub(crate) use layout::HALVES_AT;
pub use reading::{halves_in, read_halves};
pub(crate) use steps::save_step;
pub use steps::{SaveStep, write_step};
pub(crate) use write_half::write_half;
