//! What no text brings about: which of several faults of a datagram is reported, and regions on a device in memory:
//! their bytes, and saves and moves that stop.
#![tactic(auto)]

#[cfg(test)]
mod batch_tests;
#[cfg(test)]
mod fault_texts_tests;
#[cfg(test)]
mod moving_tests;
#[cfg(test)]
mod recovery_tests;
#[cfg(test)]
mod save_tests;
#[cfg(test)]
mod stop_tests;
#[cfg(test)]
mod v4_fault_tests;
#[cfg(test)]
mod v6_fault_tests;
#[cfg(test)]
mod value_tests;
