//! What holds of the counts: functions that do nothing, for their contracts.
ghost use Rattle.std.specs.Prelude.{◌≡◌, ◌+◌, ℕ, List, length, map, option_map, slice_get};
ghost use Rattle.counts.specs.Counts.{HasRoom, counted_all, total};
ghost use Rattle.counts.specs.declared.counts.Counts.{Counts};
ghost use Rattle.counts.specs.declared.counts.Fate.{Fate};
ghost use Rattle.counts.specs.declared.tally.Tally.{Tally};
ghost use Rattle.counts.specs.Tally.{CircuitFate, fates_of, tallied_all};

/// While no counter stands at its greatest value, all counters together, but for that of the datagrams
/// that were received, grow by exactly one for each datagram. There is a counter for each reason's number.
pub fn counts_grow_together()
    ensures { (outcomes : List Fate) (c : Counts) → length c.dropped ≡ 35 → HasRoom (counted_all outcomes c)
        → total (counted_all outcomes c) ≡ total c + length outcomes }
{}

/// Each datagram is counted once among all. The counts of a circuit are those of the datagrams that are counted for it, in
/// order, and of no other.
pub fn counts_each_circuit_alone()
    ensures all { (outcomes : List CircuitFate) (tally : Tally)
        → (tallied_all outcomes tally).all ≡ counted_all (map (λ o. o.became) outcomes) tally.all }
    ensures own { (c : ℕ) (outcomes : List CircuitFate) (tally : Tally)
        → slice_get (tallied_all outcomes tally).by_circuit.circuits c
        ≡ option_map (counted_all (fates_of c outcomes)) (slice_get tally.by_circuit.circuits c) }
{}
