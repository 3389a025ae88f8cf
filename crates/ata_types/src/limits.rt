// How much there may be of what the server keeps, and how often it looks (this project's own).

/// Ports that a server can serve: 0 to 3. (AHCI has up to 32.)
pub const PORTS: usize = 4;

/// Slots for commands that a port has, or fewer (AHCI 1.3.1, 1.4).
pub const SLOTS: usize = 32;

/// Clients, which have the numbers 1 to 8.
pub const CLIENTS: usize = 8;

/// Grants of all clients together.
pub const MOST_GRANTS: usize = 64;

/// Sectors of the longest read or write.
pub const MOST_READ_OR_WRITE_SECTORS: u32 = 1024;

/// Frames of the longest read or write, eight sectors to each.
pub const MOST_REQUEST_FRAMES: usize = 128;

/// Unanswered requests of one client, on all ports together. Those that are answered and kept don't count.
pub const MOST_UNANSWERED_OF_A_CLIENT: usize = 16;

/// Unanswered requests of all clients together: so many of each of eight.
pub const MOST_UNANSWERED_OF_ALL_CLIENTS: usize = 128;

/// Bytes that one call stores into a frame, or loads from it.
pub const MOST_CALL_BYTES: usize = 64;

/// Readings of a register in one wait. Where none of them shows what is waited for, the wait is in vain.
pub const MOST_READINGS: u32 = 64;
