//! Opens a world while one request for memory is refused: either there is a world, or what asked for the
//! memory reports that it ran out. It reads one line:
//!
//! `refuse K` first makes as many requests as it takes for the K-th of the opening to be the one that is
//! refused, `REFUSED` of all, and prints `right`, or which step reports what. `left STEP` does what is needed for a world up to
//! this step, and then prints how many further requests are granted before one is refused.
//!
//! Or it reads a configuration whose first line is `# disk   1`, `# server 1` or `# world  1`, makes a disk, opens
//! over both what that line names, and prints how many further requests are granted before one is refused.
//! The difference between its number and that of `# disk` is what the opening made. With an 8 in place of the 1 the
//! configuration is eight plans.
#![tactic(auto)]

mod openings;
mod steps;

use openings::Opening;
use std::alloc::Global;
use std::io::{self, Read};
use steps::{Step, opened};

/// The number of the request that is refused. The configuration of 1024 circuits makes some 25,000.
const REFUSED: u32 = 40_000;

/// Makes at most `most` requests until one is refused, and returns how many were granted.
fn granted(alloc: Global, most: u32) -> u32 {
    for granted in 0..most {
        if Vec::<u8>::with_capacity(alloc, 16).is_err() {
            return granted;
        }
    }
    most
}

/// Prints what comes of an opening whose request of this number is refused.
fn show_refused(rt: &HostRuntime, number: u32) -> io::Result<()> {
    granted(rt.alloc(), REFUSED.saturating_sub(number));
    let answer = match opened(rt.alloc(), Step::World) {
        Ok(world) => {
            let is_opened = world.is_some();
            // by a call, as below: all that a world holds would otherwise be part of this function's proof
            drop(world);
            if is_opened { "right" } else { "wrong" }
        }
        Err(trouble) => return println!(rt; "{trouble}"),
    };
    println!(rt; "{answer}")
}

/// Prints how many requests are granted after the steps up to this one.
fn show_left(rt: &HostRuntime, step: Step) -> io::Result<()> {
    let world = match opened(rt.alloc(), step) {
        Ok(world) => world,
        Err(trouble) => return println!(rt; "{trouble}"),
    };
    // while there still is a world
    let granted = granted(rt.alloc(), REFUSED);
    drop(world);
    println!(rt; "{granted}")
}

/// Reads the rest of the configuration that begins with these bytes, opens what its first line names, and
/// returns how many requests are granted after that.
fn left_by_opening(rt: &HostRuntime, beginning: &[u8]) -> Option<u32> {
    let mut bytes = Vec::new(rt.alloc());
    bytes.extend_from_slice(beginning).ok()?;
    rt.reader().read_to_end(&mut bytes).ok()?;
    let text = str::from_utf8(&bytes).ok()?;
    let is_eightfold = beginning.get(9) == Some(&b'8');
    if !Opening::of(beginning).succeeds(rt.alloc(), text, is_eightfold) {
        return None;
    }
    Some(granted(rt.alloc(), REFUSED))
}

/// The number that the decimal digits of a text spell; other bytes are ignored.
fn number(digits: &[u8]) -> u32 {
    let mut number: u32 = 0;
    for digit in digits {
        if digit.is_ascii_digit() {
            number = number
                .wrapping_mul(10)
                .wrapping_add(u32::from(*digit - b'0'));
        }
    }
    number
}

fn main(rt: HostRuntime) -> io::Result<()> {
    let mut buffer = [0; 32];
    let len = rt.reader().read(&mut buffer)?;
    let line = &buffer[..len];
    if line.starts_with(b"# ") {
        return match left_by_opening(&rt, line) {
            Some(granted) => println!(rt; "{granted}"),
            None => println!(rt; "wrong"),
        };
    }
    if line.starts_with(b"refuse ") {
        return show_refused(&rt, number(line));
    }
    let step = line.trim_ascii().strip_prefix(b"left ");
    show_left(&rt, Step::of(step.unwrap_or(b"")))
}
