//! What `accesslab` reads from and writes to, and the lines of what is read.
#![tactic(auto)]

mod line;
mod read_ahead;
mod std_streams;
mod streams;
mod writing;

pub use line::{LineEnd, MAX_LINE, MAX_TEXT, flush_and_read_line, read_line};
pub use read_ahead::ReadAhead;
pub use std_streams::{StdReader, StdWriter};
pub use streams::{ByteReader, ByteWriter, Failed};
pub use writing::write_parts;
