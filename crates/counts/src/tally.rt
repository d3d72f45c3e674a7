//! What became of all datagrams, and of those of each circuit.
ghost use Rattle.std.specs.Prelude.{◌≡◌, IfOk};
ghost use Rattle.counts.specs.Tally.{circuit_fate, nothing_taken, tallied};

use crate::circuit_counts::CircuitCounts;
use crate::counts::{Counts, Fate};
use std::alloc::{AllocError, Global};
use types::Circuit;

/// What became of the datagrams that were taken: of all of them, and of those that are counted for a circuit.
#[derive(Drop)]
pub struct Tally {
    pub all: Counts,
    pub by_circuit: CircuitCounts,
}

impl Tally {
    /// Nothing was taken yet of any of so many circuits. It takes memory for each of them; an error where that is refused.
    pub fn new(alloc: Global, circuits: usize) -> Result<Tally, AllocError>
        ensures { IfOk result (λ made. made ≡ nothing_taken circuits) }
    {
        Ok(Tally {
            all: Counts::new(),
            by_circuit: CircuitCounts::new(alloc, circuits)?,
        })
    }

    /// One more datagram was taken, and this became of it. It is counted for this circuit too, if there is one.
    pub fn count(&mut self, circuit: Option<Circuit>, became: Fate)
        ensures { self.new ≡ tallied (circuit_fate circuit became) self.old }
    {
        self.all.count(became);
        if let Some(circuit) = circuit {
            self.by_circuit.count_for(circuit, became);
        }
    }
}
