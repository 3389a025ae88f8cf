//! What a history of a driver is: what ties its device to the block machine.
//!
//! `DriverInvariant` says what holds of each port between two calls, `Evidence` what stands behind answers,
//! `CallCorresponds` what a call owes, and `IsDriverHistory` that calls did so, one after another. It is for the
//! whole driver, and knows no book and no table of frames. What a call owes is said of one list of
//! accesses, in which some that leave no trace may be missing. The laws say what follows of every
//! history; those of `troubles` are on faults and lost disks. There is no program code.
#![tactic(auto)]

pub mod laws;
mod prerequisites;
pub mod troubles;
