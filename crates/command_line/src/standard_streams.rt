//! The descriptors 0, 1 and 2, which stand for standard input, output and error.
ghost use Rattle.std.specs.Prelude.{◌≡◌, IfOk, IfErr, IfSome};
ghost use Rattle.std.specs.Fd.{file_raw_fd};
ghost use Rattle.command_line.specs.StandardStreams.{AreInPlace, AreTaken};

use crate::causes::{complain_of, file_cause};
use std::fs::File;
use std::io;
use std::os::fd::{AsRawFd, RawFd};

const NULL: &str = "/dev/null";

/// The null device in place of each standard stream that was closed when the program was started. The system gives
/// what is opened the least descriptor that is free. While this value is held that is none of the three, so that what
/// is written to a standard stream never goes into a file or a socket of the program. A use of a stream that was
/// closed still fails.
#[derive(Drop)]
pub struct StandardStreams {
    input: Option<File>,
    output: Option<File>,
    error: Option<File>,
    /// The null device once more, above the three.
    last: File,
}

/// The null device, where the system gives it this descriptor, which was closed then. Standard input is opened for
/// writing and the others for reading, so that a use of it fails.
fn null_at(rt: &HostRuntime, descriptor: RawFd) -> io::Result<Option<File>>
    ensures { IfOk result (λ null. IfSome null (λ file. file_raw_fd file ≡ descriptor)) }
{
    let is_input = descriptor == 0;
    let null = File::options()
        .read(!is_input)
        .write(is_input)
        .open(rt, NULL)?;
    if null.as_raw_fd() != descriptor {
        return Ok(None);
    }
    Ok(Some(null))
}

impl StandardStreams {
    /// Has to be called before anything else is opened, and its value held to the end. If the null device can't be
    /// opened, reports that on standard error and returns the status.
    pub fn open(rt: &HostRuntime) -> Result<StandardStreams, u8>
        ensures in_place { IfOk result AreInPlace }
        ensures taken { IfOk result AreTaken }
        ensures status { IfErr result (λ status. status ≡ 5) }
    {
        match StandardStreams::opened(rt) {
            Ok(streams) if 2 < streams.last.as_raw_fd() => Ok(streams),
            Ok(_) => Err(complain_of(rt, NULL, "the file can't be opened", None)),
            Err(error) => {
                let cause = file_cause(error.kind());
                Err(complain_of(rt, NULL, "the file can't be opened", cause))
            }
        }
    }

    fn opened(rt: &HostRuntime) -> io::Result<StandardStreams>
        ensures { IfOk result AreInPlace }
    {
        Ok(StandardStreams {
            input: null_at(rt, 0)?,
            output: null_at(rt, 1)?,
            error: null_at(rt, 2)?,
            last: File::open(rt, NULL)?,
        })
    }
}
