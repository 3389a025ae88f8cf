//! Drives one port of a server: its turns in a service and in a tick, and what a reset makes of it.
//!
//! `ServedPort` is a port, and `Shared` what all ports of a server share: the table of frames and the book of requests.
//! A call of a port is lent the adapter and `Shared`. What it makes of a server is told of each server that the port
//! may be a part of: `with_served_port` is the server with the port, and what is shared, in their place.
//!
//! A caller has each port begin anew once its adapter was taken over (`replace_probe_result_and_free_slots`), and calls
//! it by one number from then on. It calls `service` in a service, and `tick` in a tick, in which requests
//! got older before (`Book::tick`). After a reset that ended it gives back what is kept, has the adapter taken over and
//! the port begin anew, calls `resolve_after_reset`, and then issues what is due (`issue_where_ready`). After one that
//! got stuck it calls `note_stuck_reset`, and `resolve_after_reset` in the next service. Under a grant that is revoked
//! `complete_waiting_under_grant_as_revoked` answers what waits. It must not expect that a request is ever answered,
//! nor that a port which is ready still has its disk. What may hold loans can't be dropped.
//!
//! `issuing` issues what is due, `answering` answers what is done, and `turn` has the turns. `recovery` handles an
//! error, `probing` probes a port that isn't ready, and `dispositions` resolves requests, as `after_reset` does where
//! the adapter was reset. `modes` tells how a port takes commands, `slot_table` has the request of each command
//! slot, and `quarantine` keeps loans of a dead port.
#![tactic(auto)]

mod after_reset;
mod answering;
mod dispositions;
mod issuing;
mod modes;
mod probing;
mod quarantine;
mod recovery;
mod served_port;
mod slot_table;
mod turn;

pub use modes::probed_mode;
pub use quarantine::Quarantine;
pub use served_port::{ServedPort, Shared};
pub use slot_table::SlotTable;
