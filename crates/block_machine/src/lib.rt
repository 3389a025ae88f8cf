//! The block machine: what a server means to its clients, with no register in it.
//!
//! A `Machine` has disks, unanswered and kept requests, frames, loans and the next id. `Steps` has
//! what may change it, `Rules` and `Refusals` what is refused in which order, `DueRequests` what is issued
//! when, `Expected` what a read has to hold, `Events` what a call may make of it, and what a run is.
//! The laws are for every history of steps, or run of calls. All crates above wait for its proof,
//! so it has those laws alone that they build on; `machine_runs` has the others.
#![tactic(auto)]

mod counts;
mod due;
pub mod laws;

pub use counts::{frame_count, is_allowed_count};
pub use due::{
    QueueMode, Unanswered, changes_sectors, conflict_on_port_by_flush_or_overlap, is_plain,
    waits_for,
};
