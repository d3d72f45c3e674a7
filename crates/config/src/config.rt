//! A configuration that keeps every rule.
ghost use Rattle.std.specs.Prelude.{◌≡◌, ◌<◌, length, IfOk, IfErr, IfSome, IfNone, slice_get, ℕ, Some};
ghost use Rattle.toml.specs.Parse.{parse_document};
ghost use Rattle.toml.specs.View.{table_view};
ghost use Rattle.config.specs.Rules.{IsSound, IsIdAt};
ghost use Rattle.settings.specs.Settings.{IsServerWithinLimits, IsRelayWithinLimits, IsWithinLimits};
ghost use Rattle.config.specs.Union.{has_circuit};
ghost use Rattle.config.specs.Valid.{IsConfig, IsFaultOf};

use crate::circuit_index::CircuitIndex;
use crate::rules::rules;
use settings::{
    CircuitConfig, ConfigFault, RelayConfig, ServerConfig, Values, tables_in, values_in,
};
use std::alloc::{AllocError, Global};
use std::marker::Model;
use toml::Table;
use types::{Circuit, CircuitId, RelayNo};

/// A configuration: the server, its relays and its circuits, which keep every rule.
#[derive(Drop)]
pub struct Config {
    server: ServerConfig,
    relays: Vec<RelayConfig>,
    circuits: Vec<CircuitConfig>,
    index: CircuitIndex,
}

impl Model for Config {
    ghost use Rattle.std.specs.Prelude.{◌≡◌, map};
    ghost use Rattle.config.specs.Rules.{IsSound};
    ghost use Rattle.settings.specs.Settings.{Settings};

    ghost Value = { Settings };

    ghost view = { λ c. record { server = c.server; relays = c.relays.items; circuits = c.circuits.items } };

    ghost invariant = { λ c.
        IsSound (record { server = c.server; relays = c.relays.items; circuits = c.circuits.items })
        × (c.index ≡ map (λ circuit. circuit.id) c.circuits.items) };
}

/// The text's data, or the fault that it is not TOML.
fn document(alloc: Global, text: &str) -> Result<Table, ConfigFault>
    ensures ok { IfOk result (λ t. parse_document text.now ≡ Some (table_view t)) }
    ensures err { IfErr result (IsFaultOf text.now) }
{
    match toml::table_from_str(alloc, text) {
        Ok(table) => Ok(table),
        Err(error) => {
            if error.is_memory() {
                return Err(ConfigFault::Memory);
            }
            Err(ConfigFault::Text(error))
        }
    }
}

impl Config {
    /// The configuration of values that keep their limits and the rules; an error where memory is refused.
    pub(crate) fn of(alloc: Global, values: Values) -> Result<Config, AllocError>
        requires { IsSound (record { server = values.server; relays = values.relays.items; circuits = values.circuits.items }) }
        ensures value { IfOk result (λ config.
            config
            ≡ record { server = values.server; relays = values.relays.items; circuits = values.circuits.items }) }
        ensures sound { IfOk result IsSound }
    {
        let index = CircuitIndex::of(alloc, &values.circuits)?;
        Ok(Config {
            server: values.server,
            relays: values.relays,
            circuits: values.circuits,
            index,
        })
    }

    /// Reads a text: its configuration, or the lowest rule that it breaks and what breaks it.
    pub fn read(alloc: Global, text: &str) -> Result<Config, ConfigFault>
        ensures valid { IfOk result (IsConfig text.now) }
        ensures sound { IfOk result IsSound }
        ensures broken { IfErr result (IsFaultOf text.now) }
    {
        let doc = match document(alloc, text) {
            Ok(doc) => doc,
            Err(fault) => return Err(fault),
        };
        let tables = match tables_in(&doc) {
            Ok(tables) => tables,
            Err(location) => return Err(ConfigFault::Missing(location)),
        };
        let values = match values_in(alloc, tables.server, tables.relays, tables.circuits) {
            Ok(values) => values,
            Err(fault) => return Err(fault),
        };
        if let Err(fault) = rules(&values.server, &values.relays, &values.circuits) {
            return Err(fault);
        }
        match Config::of(alloc, values) {
            Ok(config) => Ok(config),
            Err(_) => Err(ConfigFault::Memory),
        }
    }

    pub fn server(&self) -> &ServerConfig
        ensures value { result.now ≡ self.now.server }
        ensures limits { IsServerWithinLimits result.now }
        ensures sound { IsSound self.now }
    {
        &self.server
    }

    /// How many relays there are.
    pub fn relay_count(&self) -> usize
        ensures value { result ≡ length self.now.relays }
        ensures sound { IsSound self.now }
    {
        self.relays.len()
    }

    /// How many circuits there are.
    pub fn circuit_count(&self) -> usize
        ensures value { result ≡ length self.now.circuits }
        ensures sound { IsSound self.now }
    {
        self.circuits.len()
    }

    /// The relay at this index.
    pub fn relay(&self, relay: RelayNo) -> &RelayConfig
        requires { relay < length self.now.relays }
        ensures value { slice_get self.now.relays relay ≡ Some result.now }
        ensures limits { IsRelayWithinLimits result.now }
        ensures sound { IsSound self.now }
    {
        &self.relays[relay.index()]
    }

    /// The circuit at this index.
    pub fn at(&self, circuit: Circuit) -> &CircuitConfig
        requires { circuit < length self.now.circuits }
        ensures value { slice_get self.now.circuits circuit ≡ Some result.now }
        ensures limits { IsWithinLimits self.now.relays result.now }
        ensures sound { IsSound self.now }
    {
        &self.circuits[circuit.index()]
    }

    /// All relays, in their order.
    pub(crate) fn relays(&self) -> &[RelayConfig]
        ensures value { result.now ≡ self.now.relays }
        ensures sound { IsSound self.now }
    {
        &self.relays
    }

    /// All circuits, in their order.
    pub(crate) fn circuits(&self) -> &[CircuitConfig]
        ensures value { result.now ≡ self.now.circuits }
        ensures sound { IsSound self.now }
    {
        &self.circuits
    }

    /// The circuit with exactly this id.
    #[tactic(auto, using(crate::proofs::IndexLemmas::is_id_at, crate::proofs::IndexLemmas::no_id_at))]
    pub fn circuit(&self, id: &CircuitId) -> Option<Circuit>
        ensures found { IfSome result (λ circuit. IsIdAt self.now.circuits circuit id.now) }
        ensures within { IfSome result (λ circuit. circuit < length self.now.circuits) }
        ensures none { IfNone result ((index : ℕ) → ¬ IsIdAt self.now.circuits index id.now) }
    {
        Circuit::new(self.index.find(id.as_bytes())?)
    }
    /// Whether there is a circuit with exactly this id.
    pub(crate) fn has_circuit(&self, id: &CircuitId) -> bool
        ensures { result ≡ has_circuit id.now self.now }
    {
        self.index.contains(id)
    }
}
