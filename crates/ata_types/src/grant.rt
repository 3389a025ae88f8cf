// What a client may do with which sectors.
ghost use Rattle.std.specs.Prelude.{◌≡◌, ◌↔◌, IsTrue};
ghost use Rattle.ata_types.specs.SectorGrants.{AllowsOp, CoversSectors};

use crate::{ClientId, Op, Port, Sector};

/// The operations that a grant allows.
#[derive(Clone, Copy, Debug, Default, PartialEq, Eq)]
pub struct Rights {
    pub read: bool,
    pub write: bool,
    pub trim: bool,
    pub flush: bool,
}

impl Rights {
    /// Whether the operation is among them.
    pub fn allows(self, op: Op) -> bool
        ensures { IsTrue result ↔ AllowsOp self op }
    {
        match op {
            Op::Read => self.read,
            Op::Write => self.write,
            Op::Trim => self.trim,
            Op::Flush => self.flush,
        }
    }
}

/// A grant: the sectors of a port's disk that a client may reach, and what it may do with them.
/// A grant is named by its client and a number of the client's own.
#[derive(Clone, Copy, Debug, Default, PartialEq, Eq)]
pub struct GrantRow {
    pub client: ClientId,
    pub number: u8,
    pub port: Port,
    pub first: Sector,
    /// In sectors.
    pub count: u64,
    pub rights: Rights,
}

impl GrantRow {
    /// Whether `count` sectors from `first` on begin and end within the row's. Sums don't wrap.
    pub fn covers(&self, first: Sector, count: u32) -> bool
        ensures { IsTrue result ↔ CoversSectors self.now first.0 count }
    {
        let end = first.0 as u128 + count as u128;
        let row_end = self.first.0 as u128 + self.count as u128;
        self.first <= first && end <= row_end
    }
}
