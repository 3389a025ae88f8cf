//! Runs of an adapter, and histories of a driver, which show that what definitions ask can be met.
//!
//! `adapter_runs`: from idle on, each step of the device can come, by accesses that are permitted
//! in the states in which they are made. `history_witnesses`: histories of a driver as the
//! definitions have it; none is claimed of `block_server`. There is no program code.
#![tactic(auto)]

pub mod adapter_runs;
pub mod history_witnesses;
