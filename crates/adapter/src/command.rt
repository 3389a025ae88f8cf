// Commands, and the words that header, FIS and PRDs have for them.
ghost use Rattle.std.specs.Prelude.{◌≡◌, ◌↔◌, IsTrue};
ghost use Rattle.adapter.specs.Commands.{direction_of, is_queued, moves_disk_sectors, transfer_sector_count, reads_memory, sends_page};

/// What a command asks of the disk: the commands of ACS-3 and Serial ATA that this driver knows.
#[derive(Clone, Copy, Debug, PartialEq, Eq)]
pub enum Operation {
    /// IDENTIFY DEVICE.
    Identify,
    /// READ DMA EXT.
    Read,
    /// WRITE DMA EXT.
    Write,
    /// READ FPDMA QUEUED.
    ReadQueued,
    /// WRITE FPDMA QUEUED.
    WriteQueued,
    /// FLUSH CACHE EXT.
    Flush,
    /// DATA SET MANAGEMENT with TRIM.
    Trim,
    /// READ LOG EXT of log 10h, page 0.
    ReadLog,
}

impl Operation {
    /// Whether it is queued (READ or WRITE FPDMA QUEUED, Serial ATA): several may be in flight, but a plain one is
    /// alone.
    #[inline]
    pub fn is_queued(self) -> bool
        ensures { result ≡ is_queued self }
    {
        matches!(self, Operation::ReadQueued | Operation::WriteQueued)
    }

    /// Whether it names the sectors that it moves.
    #[inline]
    pub fn moves_disk_sectors(self) -> bool
        ensures { result ≡ moves_disk_sectors self }
    {
        matches!(
            self,
            Operation::Read | Operation::Write | Operation::ReadQueued | Operation::WriteQueued
        )
    }

    /// Whether its device reads memory: the W bit of the header (AHCI 1.3.1, 4.2.2).
    #[inline]
    pub fn reads_memory(self) -> bool
        ensures { result ≡ reads_memory self }
    {
        matches!(
            self,
            Operation::Write | Operation::WriteQueued | Operation::Trim
        )
    }

    /// Whether it sends a page to the driver itself.
    #[inline]
    pub fn sends_page(self) -> bool
        ensures { result ≡ sends_page self }
    {
        matches!(self, Operation::Identify | Operation::ReadLog)
    }

    /// Whether it clears the sectors of a block that it moves.
    #[inline]
    pub fn is_trim(self) -> bool
        ensures { IsTrue result ↔ (self ≡ Operation.Trim) }
    {
        matches!(self, Operation::Trim)
    }

    /// How many pieces of 512 bytes it moves, for this many sectors, 1 to 65,536. The sectors matter only if it moves
    /// disk sectors. (0 means 65,536 in a FIS, but not here.)
    #[inline]
    pub fn transfer_sector_count(self, count: u32) -> u32
        ensures { result ≡ transfer_sector_count self count }
    {
        match self {
            Operation::Flush => 0,
            Operation::Identify | Operation::Trim | Operation::ReadLog => 1,
            _ => count,
        }
    }

    /// The direction of its moves. A flush has `ToMemory` too, and moves nothing.
    #[inline]
    pub fn direction(self) -> Direction
        ensures { result ≡ direction_of self }
    {
        match self {
            Operation::Trim | Operation::Write | Operation::WriteQueued => Direction::FromMemory,
            _ => Direction::ToMemory,
        }
    }
}

/// The fields of a Register FIS from host to device (Serial ATA; AHCI 1.3.1, 4.2.3.1).
#[derive(Clone, Copy, Debug, Default, PartialEq, Eq)]
pub struct Command {
    pub code: u8,
    pub features: u16,
    pub count: u16,
    /// 48 bits.
    pub lba: u64,
    pub device: u8,
}

/// An entry of a command table's list of memory regions (AHCI 1.3.1, 4.2.3.3).
#[derive(Clone, Copy, Debug, Default, PartialEq, Eq)]
pub struct Prd {
    /// The address at which the region begins, which is even.
    pub address: u32,
    /// How many bytes it has: even, from 2 to 4 MiB.
    pub bytes: u32,
}

/// The direction in which the bytes of a move went.
#[derive(Clone, Copy, Debug, PartialEq, Eq)]
pub enum Direction {
    ToMemory,
    FromMemory,
}
