//! The exit statuses of the program.
pub use command_line::{FAILED, UNOPENED};

/// All lines were applied.
pub const DONE: u8 = 0;

/// A line is bad. Those before it were applied.
pub const BAD_LINE: u8 = 3;
