//! Whom a client's message is for.
ghost use Rattle.std.specs.Prelude.{◌≡◌};
ghost use Rattle.bindings_v6.specs.Table6.{is_for_us};

use exchange::ServerId;
use types::Kind6;

/// Whether a message names a server as its type has to: none where any server may answer, else this one
/// (RFC 8415, sections 16.2 and 16.4 to 16.9).
#[rattlefmt::skip]
pub fn is_for_us(kind: Kind6, server: ServerId) -> bool
    ensures { result ≡ is_for_us kind server }
{
    match (kind,           server) {
          (Kind6::Solicit, ServerId::None) => true,
          (Kind6::Confirm, ServerId::None) => true,
          (Kind6::Rebind,  ServerId::None) => true,
          (Kind6::Request, ServerId::Ours) => true,
          (Kind6::Renew,   ServerId::Ours) => true,
          (Kind6::Release, ServerId::Ours) => true,
          (Kind6::Decline, ServerId::Ours) => true,
          _ => false,
    }
}
