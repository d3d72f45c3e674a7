//! The engine of `accesslab`: events as lines of text, and their outcomes, one line per event.
#![tactic(auto)]

mod apply_line;
mod bad_line;
mod batch_output;
mod buffers;
mod engine;
mod next_line;
mod opening;
mod output;
mod preparations;
mod status;

pub use bad_line::BadLine;
pub use engine::lab;
pub use opening::{run, run_explained};
pub use status::{BAD_LINE, DONE};
pub use streams::{ByteReader, ByteWriter, Failed, MAX_LINE, MAX_TEXT, StdReader, StdWriter};
