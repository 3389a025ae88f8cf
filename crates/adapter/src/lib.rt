//! The trait `Adapter`, and what a host adapter, its memory and its disks may do.
//!
//! Before each of the trait's four calls the device may make any list of steps. Then the call has its one effect.
//! `specs` has the state (`Device`), the steps, what a reading shows and a write does, the meaning of a slot's bytes
//! (`DecodesTo`), and the rules for drivers, which have to hold whatever the device does first (`IsStable`). Nothing
//! else is known of the hardware: a bit that no definition names reads as any value. The main law is that bytes which
//! no command in use may write stay as they are. `Stepped` adds a device that makes steps on request, for scripts and
//! tests. `AccessCounter` counts accesses, for people who write an adapter.
#![tactic(auto)]

mod access;
mod command;
mod counting;
pub mod laws;
mod tape;

pub use access::{Adapter, DeviceStep, DiskNumber, DiskPage, FatalError, Stepped};
pub use command::{Command, Direction, Operation, Prd};
pub use counting::{AccessCount, AccessCounter};
pub use tape::{Clear, Done, Entry, Fault, Move};
