//! Reading the region of a circuit while another program may write to it: a file that is only read, and the
//! slots that the bytes of a region mean, or why they are not known.
#![tactic(auto)]

mod closed;
mod region_file;
mod slots;
mod steady;

pub use closed::Closed;
pub use region_file::{ReadFault, RegionFile};
pub use slots::circuit_slots;
pub use steady::RegionReader;
