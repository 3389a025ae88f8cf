//! Tests of the server, its boots and the play of scripts, for what no script can show.
//!
//! Which accesses are made, when waits end, what lying disks are found to be, and what comes of an
//! output or a disk that fails. `histories` has functions by which histories of the server are
//! proved to exist in which it answers. There is no other code here.
#![tactic(auto)]

pub mod histories;
#[cfg(test)]
mod tests;
