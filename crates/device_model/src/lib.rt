//! A modelled AHCI adapter with memory and disks, which meets the trait `Adapter`.
//!
//! Each of four ports has two disks, or none, for good: each disk over a store of sectors, and one
//! in the port at most. The device does what it is told (`step`, or `queue_step` before a later
//! access). By itself, before each register read, it ends a reset, lets CR and FR fall, brings
//! links up, and does IDENTIFY DEVICE and READ LOG EXT, but not on a port that is held. It takes
//! each command that the driver knows. A command fails when it is told, where its store fails,
//! where its sector is past the disk, and where its bytes mean none; the port is halted then. A
//! step that is possible is left for want of memory alone. `starved` tells so from then on, and
//! whoever plays the model has to look at it. The server doesn't use this crate.
#![tactic(auto)]

mod bay;
mod bits;
mod cache;
mod clearing;
mod command_room;
mod config;
mod disks;
mod fetch;
mod halt;
mod hardware;
mod interrupts;
pub mod laws;
mod model;
mod old_sectors;
mod operations;
mod port;
mod prds;
mod registers;
mod scribbling;
mod sent_fises;
mod settling;
mod slots;
mod steps;
mod taken;
mod taped_adapter;
mod trims;

pub use config::{ALL_PORTS, ModelConfig};
pub use disks::{Disks, ModelDisk, PortDisks, Serial};
pub use model::Model;
pub use sector_store::pages::Trim;
pub use taped_adapter::{Inspectable, TapedAdapter};
