//! Makes each access of an adapter on the model and on a peer, and notes the first difference.
//!
//! `Followed` is the model beside another adapter, its peer: each access is made on both. Of the peer nothing is known.
//! What it answers only chooses among the steps that the model may do, and what is answered is the model's own answer:
//! so what holds of a server over the model holds over this. The first difference is noted, and no access is made on
//! the peer after it. Contracts say which accesses the peer was asked for, by the ghost members of `Peer`: a proof
//! about any peer has these from calls alone.
//!
//! `followed` asks the peer and compares, and its `following` has the model go on as the peer shows. `differences` has
//! the bits that are compared and the differences that are passed over, `differing` the slots that may differ, and
//! `memory` the bytes. `qtest_peer` reaches a peer by lines of text.
#![tactic(auto)]

mod differences;
mod differing;
mod divergence;
mod followed;
mod memory;
mod peer;
mod qtest_peer;

pub use differences::{KnownDifference, MetDifferences};
pub use divergence::Divergence;
pub use followed::{AccessAndLookCounts, Followed};
pub use peer::{Peer, PeerFault};
pub use qtest_peer::QtestPeer;
