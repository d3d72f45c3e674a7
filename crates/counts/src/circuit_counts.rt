//! What became of the datagrams of each circuit.
ghost use Rattle.std.specs.Prelude.{◌≡◌, option_map, replicate, slice_get, IfOk};
ghost use Rattle.counts.specs.CircuitCounts.{counted_for};
ghost use Rattle.counts.specs.Counts.{none};

use crate::counts::{Counts, Fate};
use std::alloc::{AllocError, Global};
use std::marker::Model;
use types::Circuit;

/// What became of the datagrams of each circuit, by their indices. The memory for it is taken when it is made.
#[derive(Drop)]
pub struct CircuitCounts {
    circuits: Vec<Counts>,
}

impl Model for CircuitCounts {
    ghost use Rattle.counts.specs.CircuitCounts.{CircuitCountsValue};

    ghost Value = { CircuitCountsValue };

    ghost view = { λ c. record { circuits = c.circuits.items } };
}

impl CircuitCounts {
    /// Nothing was taken yet of any of so many circuits. An error where memory is refused.
    pub fn new(alloc: Global, circuits: usize) -> Result<CircuitCounts, AllocError>
        ensures { IfOk result (λ made. made.circuits ≡ replicate circuits none) }
    {
        let circuits = Vec::from_elem(alloc, Counts::new(), circuits)?;
        Ok(CircuitCounts { circuits })
    }

    /// One more datagram of this circuit was taken, and this became of it. Nothing is counted for a circuit that is none of
    /// those that are counted.
    pub fn count_for(&mut self, circuit: Circuit, became: Fate)
        ensures { self.new.circuits ≡ counted_for circuit became self.old.circuits }
    {
        let index = circuit.index();
        if index < self.circuits.len() {
            self.circuits[index].count(became);
        }
    }

    /// What became of the datagrams of the circuit of this index.
    pub fn of(&self, circuit: usize) -> Option<&Counts>
        ensures { option_map (λ counts. counts.now) result ≡ slice_get self.now.circuits circuit }
    {
        self.circuits.get(circuit)
    }
}
