//! Why the system refuses a file or a socket, in words. No contract says it, so a call whose error is no longer there is made
//! once more, for its words alone.
ghost use Rattle.std.specs.Prelude.{◌≡◌};

use crate::status::UNREADABLE;
use std::fmt::Display;
use std::fs::{self, File};
use std::io::{self, ErrorKind};

const FOLDER: &str = "it is a folder";

const NOT_REGULAR: &str = "it is not a regular file";

/// What an error of this kind says of a file, if there are words for it.
pub(crate) fn file_cause(kind: ErrorKind) -> Option<&'static str> {
    match kind {
        ErrorKind::NotFound => Some("no such file or folder"),
        ErrorKind::PermissionDenied => Some("permission denied"),
        ErrorKind::IsADirectory => Some(FOLDER),
        ErrorKind::NotADirectory => Some("a part of its path is not a folder"),
        ErrorKind::InvalidInput => Some(NOT_REGULAR),
        ErrorKind::InvalidFilename => Some("its name is too long"),
        ErrorKind::FilesystemLoop => Some("its path has too many symbolic links"),
        ErrorKind::WouldBlock => Some("another program has it"),
        ErrorKind::ExecutableFileBusy => Some("it is a program that is running"),
        ErrorKind::ReadOnlyFilesystem => Some("its file system is read-only"),
        ErrorKind::StorageFull => Some("no space is left"),
        ErrorKind::QuotaExceeded => Some("the quota of its owner is used up"),
        ErrorKind::FileTooLarge => Some("it would be too large"),
        _ => None,
    }
}

/// What an error of this kind says of the address and port that a socket was to have, if there are words for it.
pub fn socket_cause(kind: ErrorKind) -> Option<&'static str> {
    match kind {
        ErrorKind::AddrInUse => Some("another socket has it"),
        ErrorKind::AddrNotAvailable => Some("it is not an address of this machine"),
        ErrorKind::PermissionDenied => Some("permission denied"),
        _ => None,
    }
}

/// Why this file can't be read, which has to be a regular one. `None` where it can now, or there are no words for it.
pub fn reading_cause(rt: &HostRuntime, path: &str) -> Option<&'static str> {
    match fs::metadata(rt, path) {
        Ok(found) if found.is_dir() => Some(FOLDER),
        Ok(found) if !found.is_file() => Some(NOT_REGULAR),
        Ok(_) => match File::open(rt, path) {
            Ok(_) => None,
            Err(error) => file_cause(error.kind()),
        },
        Err(error) => file_cause(error.kind()),
    }
}

/// Why this file, which is made where `makes` says so, can't be opened for reading and writing, and locked. `None` where it
/// can now, or there are no words for it.
pub fn writing_cause(rt: &HostRuntime, path: &str, makes: bool) -> Option<&'static str> {
    let opened = File::options()
        .read(true)
        .write(true)
        .create(makes)
        .open(rt, path);
    let file = match opened {
        Ok(file) => file,
        Err(error) => return file_cause(error.kind()),
    };
    if let Err(error) = file.try_lock() {
        return file_cause(io::Error::from(error).kind());
    }
    match file.metadata() {
        Ok(found) if !found.is_file() => Some(NOT_REGULAR),
        _ => None,
    }
}

/// Reports on standard error what can't be done with a file or an address, and why, if that is known, and returns the status.
pub fn complain_of<D: Display + Drop, E: Display + Drop>(
    rt: &HostRuntime,
    what: D,
    fault: E,
    cause: Option<&str>,
) -> u8
    ensures { result ≡ 5 }
{
    let _ = match cause {
        Some(cause) => eprintln!(rt; "{what}: {fault}: {cause}"),
        None => eprintln!(rt; "{what}: {fault}"),
    };
    UNREADABLE
}
