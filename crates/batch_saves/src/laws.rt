//! Laws: what follows from the definitions alone.
ghost use Rattle.std.specs.Prelude.{◌≡◌, ℕ, ◌<◌, ◌+◌, ◌*◌, true, List, length, map, replicate, slice_index};
ghost use Rattle.lease_disk.specs.Region.{effective};
ghost use Rattle.batch_saves.specs.Batch.{batch_calls, first_of, is_sync_fault, is_write_fault, shared_fault};

/// The calls of a batch of n parts none of which fails: three writes for each, and three syncs. Without parts there is
/// no call.
pub fn counts_calls()
    ensures some { (n : ℕ) → 0 < n → batch_calls (replicate n 0) ≡ 3 * n + 3 }
    ensures none { batch_calls (replicate 0 0) ≡ 0 }
{}

/// Where one sync is to fail for all, and some parts have a write that is to fail, each region's fault is the first of
/// both. Then that is the call that fails for the part.
pub fn meets_each_fault()
    ensures { (sync : ℕ) (own : List ℕ) → is_sync_fault sync ≡ true
        → ((i : ℕ) → i < length own → is_write_fault (slice_index own i) ≡ true) → (i : ℕ) → i < length own
        → first_of (effective 6 (first_of (slice_index own i) sync)) (shared_fault (map (λ f. first_of f sync) own))
        ≡ first_of (slice_index own i) sync }
{}
