//! What each address of a circuit's pool is held for: a table of at most 16 slots by address, generic
//! over the client's key, which the books of both protocols stand on.
#![tactic(auto)]

mod holder;
mod key;
mod lookup;
mod table;
mod write;

pub use holder::{Holder, kept, live};
pub use key::SlotKey;
pub use table::SlotTable;
