//! The book of unanswered requests of all ports, in order of acceptance, with their loans.
//!
//! A request is named by its id, and `new` alone takes memory. `issuable` gives the due requests of
//! a port, which may be issued one after the other. `disposition` says what becomes of a request once its
//! port was stopped. Laws tie the book to the block machine's, step by step. It knows no register,
//! and counts slots without their numbers. It holds loans, so `give_all_back` alone ends it.
#![tactic(auto)]

mod blocker;
mod blockers;
mod book;
mod conflicts;
mod disposition;
mod due;
mod flushes;
pub mod laws;
mod ranges;
mod request_slab;
mod sectors;

use ata_types::{ClientId, Op, Port, Range, RequestId};
pub use book::Book;
pub use disposition::{Disposition, FailedRequest, Revalidation};
pub use due::DueIds;

/// An unanswered request, and how far it is.
#[derive(Clone, Copy, Debug, Default, PartialEq, Eq)]
pub struct PendingRequest {
    pub id: RequestId,
    pub client: ClientId,
    /// The number of the client's grant that it was accepted under.
    pub grant: u8,
    /// The port of the grant.
    pub port: Port,
    pub op: Op,
    pub range: Range,
    pub issued: bool,
    /// How often it was issued: four times at most.
    pub issue_count: u8,
    /// How many ticks ago it was issued last: three at most, since an older one is overdue all the same.
    pub age: u8,
    /// Whether its grant was revoked since it was accepted.
    pub revoked: bool,
}
