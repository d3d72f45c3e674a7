//! Bytes as they come and go: a cursor over a source, a buffer of one datagram, and the laws of
//! big-endian numbers.
#![tactic(auto)]

mod cursor;
mod framed_buf;
pub mod laws;
mod packet_buf;

pub use cursor::{Cursor, Short};
pub use framed_buf::FramedBuf;
pub use packet_buf::{Full, PacketBuf};
