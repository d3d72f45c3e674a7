//! The device in a file, and opening a server over it.
#![tactic(auto)]

mod device;
mod opening;

pub use device::{DeviceFault, device_of, format_device, open_device, settle_regions};
pub use opening::{Formats, open_server};
