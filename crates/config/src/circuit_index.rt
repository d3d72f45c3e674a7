//! Where each circuit stands, by its id.
ghost use Rattle.std.specs.Prelude.{◌≡◌, ◌≢◌, ◌<◌, [], length, map, not, AllPairs, IfOk, IfSome, OnOk};
ghost use Rattle.indexmap.specs.IndexSet.{insert_key};
ghost use Rattle.std.specs.List.{list_any, position};
ghost use Rattle.std.specs.Str.{bytes_eq};

use indexmap::{Equivalent, IndexSet};
use settings::CircuitConfig;
use std::alloc::{AllocError, Global};
use std::marker::Model;
use types::CircuitId;

/// The ids of circuits, in the order of the configuration. The time to find one does not grow with how many there
/// are, which no clause says.
///
/// The hasher is the set's own: fast, with a fixed seed. Whoever picked a set's keys could make them collide, but
/// these are the operator's, and looking up an id that isn't among them is at worst a walk over all of them.
#[derive(Drop)]
pub struct CircuitIndex {
    ids: IndexSet<CircuitId>,
}

impl Model for CircuitIndex {
    ghost use Rattle.std.specs.Prelude.{ℕ, List};

    ghost Value = { List (List ℕ) };

    ghost view = { λ index. index.ids.keys };
}

impl CircuitIndex {
    /// The index of these circuits. All memory is taken here, at once; an error where some is refused.
    pub fn of(alloc: Global, circuits: &[CircuitConfig]) -> Result<CircuitIndex, AllocError>
        requires { AllPairs (λ c d. c.id ≢ d.id) circuits.now }
        ensures { IfOk result (λ index. index ≡ map (λ circuit. circuit.id) circuits.now) }
    {
        let mut ids = IndexSet::with_capacity(alloc, circuits.len())?;
        'circuits: for circuit in circuits {
            ids.insert(circuit.id.copy())?;
        }
        Ok(CircuitIndex { ids })
    }

    /// An index of no circuits.
    pub fn new(alloc: Global) -> CircuitIndex
        ensures { result ≡ [] }
    {
        CircuitIndex {
            ids: IndexSet::new(alloc),
        }
    }

    /// Adds the id of one more circuit, unless it is there; whether it has been added. An error where memory is refused.
    pub fn add(&mut self, id: CircuitId) -> Result<bool, AllocError>
        ensures added { IfOk result (λ added. added ≡ not (list_any (bytes_eq id) self.old)) }
        ensures value { OnOk result (self.new ≡ insert_key bytes_eq self.old id) }
    {
        let added = self.ids.insert(id)?;
        Ok(added)
    }

    /// Whether there is a circuit with exactly this id.
    pub fn contains(&self, id: &CircuitId) -> bool
        ensures { result ≡ list_any (bytes_eq id.now) self.now }
    {
        self.ids.contains(id)
    }

    /// Where the circuit with exactly these bytes as its id stands. They need not be an id's.
    pub fn find(&self, id: &[u8]) -> Option<usize>
        ensures found { result ≡ position (bytes_eq id.now) self.now }
        ensures within { IfSome result (λ place. place < length self.now) }
    {
        self.ids.get_index_of(IdBytes(id))
    }
}

/// Bytes by which an id is looked up without a copy of them.
#[derive(Clone, Copy, PartialEq, Eq, Hash)]
struct IdBytes<'a>(&'a [u8]);

impl Equivalent<CircuitId> for IdBytes<'_> {
    ghost use Rattle.std.proofs.Common.{ap};
    ghost use Rattle.std.specs.Cmp.Lexicographic.{bytes_decides, nat_list_eq_equiv};
    ghost use Rattle.std.specs.Hash as fed;
    ghost use Rattle.std.specs.Str.{bytes_eq};

    ghost equivalent = { λ bytes id. bytes_eq bytes.0.now id };

    ghost respects_hash = { λ bytes id same. ap (fed.slice fed.u8) ((bytes_decides bytes.0.now id).0 same) };

    ghost respects_eq = { λ bytes one other. nat_list_eq_equiv.congr bytes.0.now one other };

    fn equivalent(&self, id: &CircuitId) -> bool {
        self.0 == id.as_bytes()
    }
}
