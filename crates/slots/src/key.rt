//! What tells clients apart.
ghost use Rattle.std.specs.declared.cmp.Ordering.{Ordering};
ghost use Rattle.slots.specs.Key.{IsKey, key4_cmp, key6_cmp};

use types::{Key4, Key6};

/// A client's key, with the order in which proofs have the clients of a book.
pub trait SlotKey: Copy + Eq {
    ghost order: { Self → Self → Ordering };

    ghost is_key: { IsKey Self.eq order };
}

impl SlotKey for Key4 {
    ghost use Rattle.slots.specs.KeyLaws.{key4_is_key};

    ghost order = { key4_cmp };

    ghost is_key = { key4_is_key };
}

impl SlotKey for Key6 {
    ghost use Rattle.slots.specs.KeyLaws.{key6_is_key};

    ghost order = { key6_cmp };

    ghost is_key = { key6_is_key };
}
