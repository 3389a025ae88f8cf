//! The registers of an adapter and of its ports: where they stand, and their bits.
//!
//! (AHCI 1.3.1, section 3.) A method that reads a bit or a field gives that one; one that sets or
//! clears a bit leaves the other 31. There is no access here.
#![tactic(auto)]

mod adapter_bits;
mod bit;
mod port_bits;
mod reg;

pub use adapter_bits::{Capabilities, GlobalControl};
pub use bit::{is_set, with_bit, without_bit};
pub use port_bits::{
    ATA_SIGNATURE, PortCommand, PortInterrupts, SataControl, SataError, SataStatus, TaskFile,
};
pub use reg::{PortReg, Reg};
