//! The server: it holds clients' grants and frames, and drives the disks for them.
//!
//! `run` has the theorem, and `server` has the calls. `by_port` has arrays of what there is for each
//! port, and `resetting` what a reset does with all ports. The calls use those of single ports, which
//! `port_driver` has. Between the parts of a call the invariant of `Server` doesn't hold, but
//! `InCallInvariant` of `server_history` does. A function that is a law is called for its clause, and
//! does nothing. A caller must not expect that a request is ever answered, or that a port which is
//! reported as ready still has its disk. A `Server` can't be dropped, because it holds loans: `close`
//! ends it, and issued commands may still move data then.
#![tactic(auto)]

mod by_port;
pub mod laws;
mod limits;
mod resetting;
mod run;
mod said;
mod server;
mod types;

pub use configuration::{ClientConfig, Config, ConfigFault, FaultKind, GrantConfig, PortConfig};
pub use said::{Event, MOST_SAID, Said};
pub use server::Server;
pub use types::{RunStopped, ServerError};
