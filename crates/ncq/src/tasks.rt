// What a command is to do, and in which slot.
use ata_types::{Op, Range, Slot};
use dma_frames::Loan;

/// What the command of a slot is to do.
#[derive(Clone, Copy, Debug, PartialEq, Eq)]
pub struct Task {
    pub op: Op,
    /// Of a transfer, 1 to 1024 sectors, the first of them below 2^48.
    pub range: Range,
    /// Whether its command is queued: that of a transfer may be.
    pub queued: bool,
}

/// What is issued: a transfer, the slot of its command, and the frames of its sectors, eight to a frame, which are lent
/// to its request.
#[derive(Drop)]
pub struct Issue<'a> {
    pub slot: Slot,
    pub task: Task,
    pub loan: &'a Loan,
}
