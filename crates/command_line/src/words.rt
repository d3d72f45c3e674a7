//! The words of a command line.
ghost use Rattle.std.specs.Prelude.{◌≡◌, IfErr};

use crate::status::{REFUSED, complain, out_of_memory};
use std::env;
use std::io::ErrorKind;

/// The words after the program's name. If they can't be read, reports why on standard error and returns
/// the status.
pub fn given_words(rt: &HostRuntime) -> Result<Vec<String>, u8>
    ensures { IfErr result (λ status. status ≡ 2) }
{
    let given = match env::args(rt) {
        Ok(given) => given,
        Err(error) if error.kind() == ErrorKind::OutOfMemory => return Err(out_of_memory(rt)),
        Err(_) => return Err(complain(rt, "error: an argument is not UTF-8", REFUSED)),
    };
    let given: Result<Vec<String>, _> = given.skip(1).collect(rt.alloc());
    let Ok(given) = given else {
        return Err(out_of_memory(rt));
    };
    Ok(given)
}
