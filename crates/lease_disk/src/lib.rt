//! Regions on a device, in which each circuit's leases outlive a crash.
#![tactic(auto)]

mod bytes;
mod content;
mod device;
mod doubts;
mod entry;
mod failures;
mod file_disk;
mod format1;
mod format2;
mod formats;
mod half;
mod image;
pub mod laws;
mod marks;
mod migrating;
mod model_disk;
mod pool;
mod read_half;
mod recovering;
mod saving;
mod unsynced;
mod writing;

pub use content::Content;
pub use device::{Disk, Fault, REGION};
pub use file_disk::{FileDisk, FileFault};
pub use format1::format_old;
pub use format2::{SaveStep, format, write_step};
pub use formats::{FORMAT, FORMAT_AT, OLD_FORMAT, read_format};
pub use half::{GATE_OPEN, HALVES_SIZE};
pub use image::Image;
pub use marks::Marks;
pub use migrating::migrate;
pub use model_disk::ModelDisk;
pub use recovering::{RecoverFault, recover, slots_in};
pub use saving::{Saving, save};
