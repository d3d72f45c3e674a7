//! The clock that a service goes by: the system's, but for its jumps.
#![tactic(auto)]

mod service_clock;

pub use service_clock::ServiceClock;
