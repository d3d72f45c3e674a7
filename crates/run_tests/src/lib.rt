//! What no line of text shows: a service's clock beside one that jumps, the server's table of deadlines, sinks, readers and
//! writers that fail, what does not exist, and how many syncs a batch costs.
#![tactic(auto)]

#[cfg(test)]
mod batch_tests;
#[cfg(test)]
mod clock_tests;
#[cfg(test)]
mod deadline_tests;
#[cfg(test)]
mod lab_tests;
#[cfg(test)]
mod world_tests;
