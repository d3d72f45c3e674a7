//! Refused command lines.
ghost use Rattle.command_line.specs.Status.{IsRefusedWith};

use crate::status::{FAILED, REFUSED, complain, out_of_memory};

/// Why the words of a command line are refused.
#[derive(Drop)]
pub enum Refusal {
    /// Out of memory.
    Memory,
    /// The words are not those of the command line, or ask for help or the version.
    Usage(clap::Error),
    /// A value is missing or out of range.
    BadValue,
}

impl Refusal {
    /// Shows help, the version or what is wrong with the command line, and returns the status.
    pub fn show(&self, rt: &HostRuntime) -> u8
        ensures { IsRefusedWith self.now result }
    {
        match self {
            Refusal::Memory => out_of_memory(rt),
            Refusal::BadValue => complain(rt, "error: a value is missing or out of range", REFUSED),
            Refusal::Usage(error) => {
                if error.print(rt).is_err() {
                    return FAILED;
                }
                if error.exit_code() == 0 { 0 } else { REFUSED }
            }
        }
    }
}
