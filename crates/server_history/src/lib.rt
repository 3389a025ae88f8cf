//! What a server is to the block machine, and what each call adds to its histories.
//!
//! `InCallInvariant` holds at each moment of a call while the adapter is on, `InvariantWithNoneDue` between calls, and
//! `StuckInvariant` since a reset that got stuck (`InvariantBetweenCalls` is the one or the other); `ServerInvariant`
//! is what holds in either case. A service's event is put together of its ports' turns (`IsPortTurn`,
//! `SimulatesTurn`): a turn is of its own port, and leaves the others. A server whose calls do what
//! the laws ask for has the laws' theorems as its contracts. It names no type of adapter, and has
//! no program code.
#![tactic(auto)]

pub mod laws;
mod prerequisites;
pub mod resets;
pub mod stuck_server;
