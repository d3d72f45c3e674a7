//! Laws about the histories of relay and server over sockets: what happens at the sockets for one circuit is what its part of the
//! configuration alone makes of what is taken for it, and no lease that is acknowledged goes to another client while it lasts. Each
//! function is called for its contract alone.
#![tactic(auto)]

mod answers;
mod attempts;
pub mod examples;
mod histories;
mod leases;
mod relaying;
mod runs;
mod waiting;

pub use answers::{adds_to_the_history, serves_each_circuit_alone};
pub use attempts::tries_each_socket_in_turn;
pub use histories::isolation_of_histories;
pub use leases::{
    begins_with_its_pools, each_dhcpack_grants, keeps_to_its_pools, leases_no_address_twice,
    replies_after_the_save, saves_before_it_acknowledges, slots_show_a_book_of_their_pools,
};
pub use relaying::{relays_each_circuit_down_alone, relays_each_circuit_up_alone};
pub use runs::turns_and_passes_are_runs;
pub use waiting::{leaves_nothing_waiting, opens_as_a_service};
