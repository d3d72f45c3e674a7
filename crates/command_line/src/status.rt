//! The exit statuses that the programs share.
ghost use Rattle.std.specs.Prelude.{◌≡◌};

/// The command line or the configuration was refused.
pub const REFUSED: u8 = 2;

/// What the program serves can't be opened.
pub const UNOPENED: u8 = 4;

/// A file or a socket can't be opened.
pub const UNREADABLE: u8 = 5;

/// Standard input or output failed, or the input does not end.
pub const FAILED: u8 = 6;

/// Reports on standard error why the program ends, and returns the status.
pub fn complain<D: std::fmt::Display + Drop>(rt: &HostRuntime, why: D, status: u8) -> u8
    ensures { result ≡ status }
{
    let _ = eprintln!(rt; "{why}");
    status
}

/// Reports that memory ran out before a command line was accepted, and returns the status.
pub fn out_of_memory(rt: &HostRuntime) -> u8
    ensures { result ≡ 2 }
{
    complain(rt, "error: out of memory", REFUSED)
}
