//! The relation of device and block machine: the machine follows what the device does.
//!
//! `StateRelation` relates the two, by what the driver has put into the slots (`DriverState`). A driver whose proof
//! uses these laws never looks into a step of the device. `laws` has the relation over steps and accesses, and
//! `port_facts` has what readings show. `fragments` and `access_kinds` have lists of accesses, of the kinds that a
//! crate names, and `acts` a part of a call, act by act. `giving_up`, `readying` and `recovering` have what becomes of
//! slots and ports, and `disks` has disks that come. `recovery_witnesses` has some witnesses. There is no driver code.
#![tactic(auto)]

pub mod access_kinds;
pub mod acts;
pub mod disks;
pub mod fragments;
pub mod giving_up;
pub mod laws;
pub mod port_facts;
mod prerequisites;
pub mod readying;
pub mod recovering;
pub mod recovery_witnesses;
