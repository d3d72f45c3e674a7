//! The fields of a line.
use std::alloc::Global;
use std::net::SocketAddrV4;
use types::{Addr4, Moment, Proto, RelayNo, Source};

/// `4` or `6`.
pub fn proto(text: &str) -> Option<Proto> {
    match text {
        "4" => Some(Proto::V4),
        "6" => Some(Proto::V6),
        _ => None,
    }
}

/// An address and a port, as `127.0.0.1:6801`.
pub fn source(text: &str) -> Option<Source> {
    let socket = text.parse::<SocketAddrV4>().ok()?;
    Some(Source {
        addr: Addr4(socket.ip().octets()),
        port: socket.port(),
    })
}

/// A relay's place in the configuration, from 0 on.
pub fn relay(text: &str) -> Option<RelayNo> {
    RelayNo::new(text.parse::<usize>().ok()?)
}

/// A moment in seconds.
pub fn moment(text: &str) -> Option<Moment> {
    Moment::new(text.parse::<u64>().ok()?)
}

/// Bytes as hexadecimal digits, or `-` for none.
pub fn bytes(alloc: Global, text: &str) -> Option<Vec<u8>> {
    if text == "-" {
        return Some(Vec::new(alloc));
    }
    hex::decode(alloc, text).ok()
}
