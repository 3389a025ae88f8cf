// The memory map: frames, the structures that the driver keeps for each port, and the clients' frames behind them (this
// project's own), with the sizes and alignments that AHCI 1.3.1 gives those structures.

use crate::limits::{MOST_REQUEST_FRAMES, PORTS};

/// Bytes of a frame: frame f has those from byte `FRAME_BYTES` f on.
pub const FRAME_BYTES: u32 = 4096;

/// Frames of the largest memory that a server can use.
pub const MOST_FRAMES: u16 = 1024;

/// The driver's frames of each port. The first has the port's command list and its received FIS area, the next
/// seventeen have its command tables, and the last is its scratch frame.
pub const DRIVER_FRAMES_PER_PORT: u16 = 19;

/// Bytes of the driver's frames of a port: those of port p begin at byte `DRIVER_BYTES_PER_PORT` p, with its command
/// list.
pub const DRIVER_BYTES_PER_PORT: u32 = FRAME_BYTES * DRIVER_FRAMES_PER_PORT as u32;

/// The driver's frames of all four ports. The frames behind them are clients'.
pub const DRIVER_FRAMES: u16 = PORTS as u16 * DRIVER_FRAMES_PER_PORT;

/// Frames of the smallest memory that a server can use: the driver's, and one for a client.
pub const FEWEST_FRAMES: u16 = DRIVER_FRAMES + 1;

/// Bytes of the driver's frames of all four ports.
pub const DRIVER_BYTES: u32 = PORTS as u32 * DRIVER_BYTES_PER_PORT;

/// Bytes of a command list: 32 headers. Its address is a multiple of them (AHCI 1.3.1, 3.3.1 and 4.2.2).
pub const LIST_BYTES: u32 = 1024;

/// Bytes of a header of a command list (AHCI 1.3.1, 4.2.2).
pub const HEADER_BYTES: u32 = 32;

/// Bytes of a received FIS area. Its address is a multiple of them (AHCI 1.3.1, 3.3.3 and 4.2.1).
pub const RECEIVED_FIS_BYTES: u32 = 256;

/// Where a port's received FIS area begins, from its first frame on: behind the command list.
pub const RECEIVED_FIS_OFFSET: u32 = LIST_BYTES;

/// What the address of a command table is a multiple of (AHCI 1.3.1, 4.2.2).
pub const TABLE_ALIGNMENT: u32 = 128;

/// Where the command table of a port's slot 0 begins, from the port's first frame on: in the second one.
pub const TABLES_OFFSET: u32 = FRAME_BYTES;

/// Bytes that each slot has for its command table, one slot's behind the other's.
pub const TABLE_BYTES: u32 = 2176;

/// Bytes of a command table before its PRDs: the command FIS, and what isn't used (AHCI 1.3.1, 4.2.3).
pub const TABLE_HEAD_BYTES: u32 = 128;

/// Bytes of a PRD (AHCI 1.3.1, 4.2.3.3).
pub const PRD_BYTES: u32 = 16;

/// Bytes of a command table with as many PRDs as a request can have frames.
pub const LONGEST_TABLE_BYTES: usize = TABLE_HEAD_BYTES as usize
    + PRD_BYTES as usize * MOST_REQUEST_FRAMES;

/// Which of a port's frames is its scratch frame.
pub const SCRATCH_FRAME: u16 = DRIVER_FRAMES_PER_PORT - 1;

/// Where a port's scratch frame begins, from its first frame on.
pub const SCRATCH_OFFSET: u32 = FRAME_BYTES * SCRATCH_FRAME as u32;
