//! The settings of a configuration: what its text has at each key, within which limits, and what is wrong
//! with it.
#![tactic(auto)]

mod differences;
mod entries;
mod fault;
mod keys;
mod limit_fault;
mod limits;
mod lists;
mod lookup;
mod names;
mod pools;
mod reading;
mod settings;
mod text_forms;
mod values;

pub use differences::{CircuitDifference, ServerDifference, ServerPart};
pub use fault::{ConfigFault, Location, SameName};
pub use limit_fault::{CircuitLimit, LimitFault, Outside};
pub use limits::{MAX_DNS, MAX_NAME, MAX_PREFIX4, MIN_PREFIX4};
pub use names::{CircuitKey, CircuitRef, RelayKey, ServerKey, TableName};
pub use reading::{TextTables, Values, tables_in, values_in};
pub use settings::{CircuitConfig, RelayConfig, ServerConfig, copy_of};
