//! What holds of every value, and the limits as the numbers that contracts state: functions that do nothing, for their contracts.
ghost use Rattle.std.specs.Prelude.{◌≡◌, length};
ghost use Rattle.types.specs.declared.limits.TheConstants.{MAX_CIRCUITS, MAX_RELAYS, MAX_FRAME, MAX_DATAGRAM, MIN_DUID};
ghost use Rattle.types.specs.declared.limits.TheConstants.{MAX_DUID, MAX_REGION, SLOTS, FIRST_SLOT6, MAX_BATCH};

use crate::addr::Addr6;

/// The limits as the numbers that contracts state.
pub fn limit_values()
    ensures circuits { MAX_CIRCUITS ≡ 1024 }
    ensures relays { MAX_RELAYS ≡ 8 }
    ensures frame { MAX_FRAME ≡ 1024 }
    ensures datagram { MAX_DATAGRAM ≡ 1280 }
    ensures least_duid { MIN_DUID ≡ 3 }
    ensures most_duid { MAX_DUID ≡ 130 }
    ensures region { MAX_REGION ≡ 1023 }
    ensures slots { SLOTS ≡ 32 }
    ensures first6 { FIRST_SLOT6 ≡ 16 }
    ensures batch { MAX_BATCH ≡ 16 }
{}

/// An IPv6 address has 16 bytes.
pub fn has_sixteen_bytes(address: Addr6)
    ensures { length address.0 ≡ 16 }
{}
