//! Laws about runs: isolation, and what becomes of a lease. Each function is called for its contract
//! alone.
#![tactic(auto)]

mod books;
mod elsewhere;
pub mod examples;
mod format2;
mod leases;
mod two_runs;

pub use books::leaves_a_book;
pub use elsewhere::{isolation_of_split_configurations, sends_the_same_from_elsewhere};
pub use format2::stays_in_format_2;
pub use leases::{
    forgets_no_lease, grants_from_the_pool, leases_no_address_twice, leases_of_configurations,
};
pub use two_runs::{isolation, isolation_of_configurations};
