//! What holds of every request: functions that do nothing, for their contracts.
ghost use Rattle.std.specs.Prelude.{◌≡◌, ◌≤◌, ℕ, List, length, All, Ok};
ghost use Rattle.types.specs.declared.addr.Addr6.{Addr6};
ghost use Rattle.exchange.specs.declared.request6.Request6.{Request6};
ghost use Rattle.v6_message.specs.Message.{MessageValue};
ghost use Rattle.requests.specs.Request6.{request6_in};

/// What a DHCPv6 message asks keeps the limits of its parts: 3 bytes of transaction id, 3 to 130 of the client's DUID,
/// at most 4 addresses of 16 bytes each.
pub fn asks_within_limits()
    ensures id { (duid message : List ℕ) (m : MessageValue) (request : Request6)
        → request6_in duid message ≡ Ok (m, request) → length m.transaction_id ≡ 3 }
    ensures least { (duid message : List ℕ) (m : MessageValue) (request : Request6)
        → request6_in duid message ≡ Ok (m, request) → 3 ≤ length request.key.duid }
    ensures most { (duid message : List ℕ) (m : MessageValue) (request : Request6)
        → request6_in duid message ≡ Ok (m, request) → length request.key.duid ≤ 130 }
    ensures few { (duid message : List ℕ) (m : MessageValue) (request : Request6)
        → request6_in duid message ≡ Ok (m, request) → length request.listed.items ≤ 4 }
    ensures whole { (duid message : List ℕ) (m : MessageValue) (request : Request6)
        → request6_in duid message ≡ Ok (m, request) → All (λ (a : Addr6). length a.0 ≡ 16) request.listed.items }
{}
