//! Laws on whole runs of the block machine, and runs to which they apply.
//!
//! No server stands on them; `server_examples` uses some. `law_flushed_writes_survive_replug` says what a flush makes
//! lasting, of disks that keep what was flushed: nothing in the project supplies that premise. There is no program
//! code.
#![tactic(auto)]

pub mod laws;
