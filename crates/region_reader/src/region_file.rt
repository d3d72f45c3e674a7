//! The file of an `accessd`, read only.
ghost use Rattle.std.specs.Prelude.{◌≡◌, ◌↔◌, ◌/◌, [], IfOk};
ghost use Rattle.std.specs.IoError.{error_kind};

use crate::steady::RegionReader;
use http_server::Log;
use lease_disk::REGION;
use std::fs::{self, File};
use std::io::{self, ErrorKind};
use std::os::unix::fs::FileExt;
use std::rt::Files;
use thiserror::Error;
use types::Count;

/// Why a file is not read.
#[derive(Clone, Copy, Debug, Error)]
pub enum ReadFault {
    #[error("the file can't be read")]
    File,
    #[error("out of memory")]
    Memory,
}

/// What an error of the system says of the file.
fn fault_of(error: io::Error) -> ReadFault
    ensures { (result ≡ ReadFault.Memory) ↔ (error_kind error ≡ ErrorKind.OutOfMemory) }
{
    match error.kind() {
        ErrorKind::OutOfMemory => ReadFault::Memory,
        _ => ReadFault::File,
    }
}

/// A file of whole regions that is only read, without a lock, so that the `accessd` that serves it runs on.
#[derive(Drop)]
pub struct RegionFile {
    file: File,
    length: u64,
    // what contracts alone see
    readings: Log<u16, [u8; REGION]>,
    failures: Count,
}

impl RegionFile {
    /// Opens a file for reading. What is no regular file, as a folder or a FIFO, is refused.
    pub fn open<R: Files<File = File>>(rt: &R, path: &str) -> Result<RegionFile, ReadFault>
        ensures unread { IfOk result (λ file. file.readings.items ≡ []) }
        ensures quiet { IfOk result (λ file. file.failures.count ≡ 0) }
    {
        RegionFile::opened(rt, path).map_err(fault_of)
    }

    fn opened<R: Files<File = File>>(rt: &R, path: &str) -> io::Result<RegionFile>
        ensures unread { IfOk result (λ file. file.readings.items ≡ []) }
        ensures quiet { IfOk result (λ file. file.failures.count ≡ 0) }
    {
        // the opening of a FIFO would wait for one who writes to it
        if !fs::metadata(rt, path)?.is_file() {
            return Err(io::Error::from(ErrorKind::InvalidInput));
        }
        let file = File::open(rt, path)?;
        let length = file.metadata()?.len();
        Ok(RegionFile {
            file,
            length,
            readings: Log::new(),
            failures: Count::new(),
        })
    }

    /// How many regions were whole in the file when it was opened.
    pub fn regions(&self) -> u64
        ensures { result ≡ self.now.length / 32_768 }
    {
        self.length / REGION as u64
    }
}

impl RegionReader for RegionFile {
    ghost readings = { λ file. file.readings.items };

    ghost failures = { λ file. file.failures.count };

    fn read(&mut self, region: u16, out: &mut [u8; REGION]) -> bool {
        let at = u64::from(region) * REGION as u64;
        if self.file.read_exact_at(&mut out[..], at).is_err() {
            self.failures.tick();
            return false;
        }
        self.readings = self.readings.and(&region, out);
        true
    }
}
