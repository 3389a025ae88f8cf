//! The words that all layers share, and the numbers of the memory map.
//!
//! Sectors and ranges, clients, ports, slots, frames, requests, grants, refusals, outcomes,
//! replies, and the calls of a server. A type means what its comment says. `memory` names each
//! place of the driver's frames, `limits` how much there may be of a thing, and `command_codes` the
//! ATA commands: code, contracts, definitions and proofs go by the names, and no contract says that
//! a number is the right one.
#![tactic(auto)]

mod call;
mod command_codes;
mod grant;
mod limits;
mod memory;
mod no_memory;
mod range;
mod refusal;
mod request;

pub use call::{AdapterStuck, Call, NoRow};
pub use command_codes::{
    DATA_SET_MANAGEMENT, FLUSH_CACHE_EXT, IDENTIFY_DEVICE, READ_DMA_EXT, READ_FPDMA_QUEUED,
    READ_LOG_EXT, WRITE_DMA_EXT, WRITE_FPDMA_QUEUED,
};
pub use grant::{GrantRow, Rights};
pub use limits::{
    CLIENTS, MOST_CALL_BYTES, MOST_GRANTS, MOST_READ_OR_WRITE_SECTORS, MOST_READINGS,
    MOST_REQUEST_FRAMES, MOST_UNANSWERED_OF_A_CLIENT, MOST_UNANSWERED_OF_ALL_CLIENTS, PORTS, SLOTS,
};
pub use memory::{
    DRIVER_BYTES, DRIVER_BYTES_PER_PORT, DRIVER_FRAMES, DRIVER_FRAMES_PER_PORT, FEWEST_FRAMES,
    FRAME_BYTES, HEADER_BYTES, LIST_BYTES, LONGEST_TABLE_BYTES, MOST_FRAMES, PRD_BYTES,
    RECEIVED_FIS_BYTES, RECEIVED_FIS_OFFSET, SCRATCH_FRAME, SCRATCH_OFFSET, TABLE_ALIGNMENT,
    TABLE_BYTES, TABLE_HEAD_BYTES, TABLES_OFFSET,
};
pub use no_memory::NoMemory;
pub use range::{Range, Sector};
pub use refusal::{FrameFault, MemFault, Refusal, Rule};
pub use request::{ClientId, Frame, Op, Outcome, Replies, Reply, Request, RequestId};

/// A port of the adapter: 0 to 3.
#[derive(Clone, Copy, Debug, Default, PartialEq, Eq, PartialOrd, Ord, Hash)]
pub struct Port(pub u8);

/// A slot of a port's command list: 0 to 31.
#[derive(Clone, Copy, Debug, Default, PartialEq, Eq, PartialOrd, Ord, Hash)]
pub struct Slot(pub u8);

/// What a port is to its clients (this project's own).
#[derive(Clone, Copy, Debug, PartialEq, Eq)]
pub enum PortState {
    /// No device was found, or the port isn't used.
    Absent,
    /// Requests are served.
    Ready,
    /// The disk has another serial number than the one that is configured.
    Foreign,
    /// The device can't be used, for the cause with this number.
    Unfit(u8),
    /// An engine of the port didn't stop, or the adapter didn't end its reset.
    Dead,
}
