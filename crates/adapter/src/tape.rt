// What the device did, as its tape has it. Entries are named as the steps that leave them. Wide fields come first, so
// an entry has 24 bytes.
use crate::command::{Direction, Operation};
use ata_types::{Port, Slot};
use std::snapshot::Snapshot;

/// 512 bytes that a command moved between disk and memory.
#[derive(Drop)]
pub struct Move {
    /// 0 if the command names no sectors.
    pub sector: u64,
    pub address: u32,
    pub port: Port,
    pub slot: Slot,
    pub operation: Operation,
    pub direction: Direction,
    /// For contracts alone: nothing is kept of them when the program runs.
    pub bytes: Snapshot<[u8; 512]>,
}

/// Sectors that a trim has made zero.
#[derive(Clone, Copy, Debug, PartialEq, Eq)]
pub struct Clear {
    pub first: u64,
    pub count: u32,
    pub port: Port,
    pub slot: Slot,
}

/// A command that ended without error.
#[derive(Clone, Copy, Debug, PartialEq, Eq)]
pub struct Done {
    pub port: Port,
    pub slot: Slot,
    pub operation: Operation,
}

/// A command that failed, with what the task file then showed.
#[derive(Clone, Copy, Debug, PartialEq, Eq)]
pub struct Fault {
    pub port: Port,
    pub slot: Slot,
    pub status: u8,
    pub error: u8,
}

/// One entry of the tape.
#[derive(Drop)]
pub enum Entry {
    Move(Move),
    Clear(Clear),
    Done(Done),
    Fault(Fault),
    /// A fatal error of a port.
    Fatal(Port),
    /// The disk was taken out.
    Unplug(Port),
    /// The disk with this name was put in.
    Plug(Port, u32),
}
