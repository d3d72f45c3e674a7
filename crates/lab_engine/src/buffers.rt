//! The buffers of a run.
ghost use Rattle.std.specs.Prelude.{◌≤◌, length};
ghost use Rattle.lab_engine.specs.Progress.{IsParsedIn};

use crate::output::MAX_DIGITS;
use config::Plans;
use events::Comeback;
use lab_text::parse_line::{Parsed, parse_line};
use lab_text::{MAX_BYTES, Parts, ZEROED};
use types::MAX_CIRCUITS;
use wire::PacketBuf;

/// What all lines of a run are parsed to and send out in turn, so that a line takes no memory.
#[derive(Drop)]
pub(crate) struct Buffers {
    /// The bytes of a frame, of a datagram, or those that are loaded.
    pub(crate) bytes: [u8; MAX_BYTES],
    /// How the circuits' regions come back at a restart.
    pub(crate) comebacks: [Comeback; MAX_CIRCUITS],
    /// The parts of a batch.
    pub(crate) parts: Parts,
    /// What leaves.
    pub(crate) out: PacketBuf,
    /// The digits of what leaves.
    pub(crate) row: [u8; MAX_DIGITS],
    /// The number of the last line that was applied, or is bad.
    pub(crate) line: u64,
}

impl Buffers {
    pub(crate) fn new() -> Buffers {
        Buffers {
            bytes: [0; MAX_BYTES],
            comebacks: [ZEROED; MAX_CIRCUITS],
            parts: Parts::new(),
            out: PacketBuf::new(),
            row: [0; MAX_DIGITS],
            line: 0,
        }
    }

    /// Parses a line, whose bytes, comebacks and parts are in the buffers until the next one is parsed.
    pub(crate) fn parse(&mut self, plans: &Plans, line: &[u8]) -> Parsed
        requires { length line.now ≤ 8192 }
        ensures { IsParsedIn plans.now self.new line.now result }
    {
        parse_line(
            plans.union(),
            plans.count(),
            line,
            &mut self.bytes,
            &mut self.comebacks,
            &mut self.parts,
        )
    }
}
