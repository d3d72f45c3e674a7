//! How many files the system lets the program have open.
use std::net::{IpAddr, Ipv4Addr, SocketAddr, UdpSocket};

/// Whether the system opens fewer sockets than so many at once, since too many files are open then. They are opened for this answer,
/// and closed again.
pub fn too_many_files(rt: &HostRuntime, sockets: usize) -> bool {
    let Ok(mut opened) = Vec::with_capacity(rt.alloc(), sockets) else {
        return false;
    };
    let any_port = SocketAddr::new(IpAddr::V4(Ipv4Addr::LOCALHOST), 0);
    'sockets: for _ in 0..sockets {
        match UdpSocket::bind(rt, any_port) {
            Ok(socket) => {
                let _ = opened.push(socket);
            }
            Err(error) => return error.raw_os_error() == Some(libc::EMFILE),
        }
    }
    false
}
