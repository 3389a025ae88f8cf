//! What a flush makes lasting, on runs of the block machine.
//!
//! Its law is of disks with volatile caches: what such a disk may lose, the machine remembers
//! (`aside` of `block_machine`). It stands below `driver_history`, and is quick. There is no
//! program code.
#![tactic(auto)]

pub mod laws;
