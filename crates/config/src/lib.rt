//! The configuration: read from TOML, checked by numbered rules, and looked up by circuit and relay.
#![tactic(auto)]

mod circuit_index;
mod circuit_part;
mod circuits;
mod config;
mod differences;
pub mod laws;
mod members;
mod membership;
mod pairs;
mod plans;
mod relations;
mod rules;
mod subnets;
mod union;

pub use circuit_part::CircuitPart;
pub use circuits::Circuits;
pub use config::Config;
pub use membership::{Members, Membership};
pub use plans::{MAX_PLANS, Plans};
pub use settings::{
    CircuitConfig, CircuitDifference, CircuitKey, CircuitLimit, CircuitRef, ConfigFault,
    LimitFault, Location, MAX_DNS, MAX_NAME, MAX_PREFIX4, MIN_PREFIX4, Outside, RelayConfig,
    RelayKey, SameName, ServerConfig, ServerDifference, ServerKey, ServerPart, TableName,
};
