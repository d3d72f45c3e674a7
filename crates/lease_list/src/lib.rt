//! The engine of `leases`: the live leases of a circuit by its slots, what they take of its pools, and a line for
//! each.
#![tactic(auto)]

mod clock;
mod form;
mod lease;
mod line;
mod listing;
mod pool;
mod pool_line;
mod pool_row;
mod row;

pub use clock::moment_of;
pub use form::{Form, What};
pub use lease::{Lease, leases};
pub use line::{closed_line, lease_line};
pub use listing::circuit_lines;
