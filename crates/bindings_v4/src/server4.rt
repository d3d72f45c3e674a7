//! Whom a client's message is for.
ghost use Rattle.std.specs.Prelude.{◌≡◌};
ghost use Rattle.bindings_v4.specs.Table4.{server_of};

use types::{Addr4, Pool4};

/// Whom a message is for, by option 54 (RFC 2132, section 9.7).
#[derive(Clone, Copy)]
pub enum Server4 {
    /// The message names no server.
    Anybody,
    This,
    Another,
}

/// The gateway is this server's identifier (RFC 5107, section 4).
pub fn server_of(pool: Pool4, server: Option<Addr4>) -> Server4
    ensures { result ≡ server_of pool server }
{
    match server {
        None => Server4::Anybody,
        Some(server) => {
            if server.number() == pool.gateway().number() {
                Server4::This
            } else {
                Server4::Another
            }
        }
    }
}
