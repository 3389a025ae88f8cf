// The PRDs of a command, as many as it has.
ghost use Rattle.std.specs.Prelude.{◌≡◌, ◌<◌, ◌≤◌, ◌++◌, ◌∷◌, [], length, take};

use adapter::Prd;
use ata_types::MOST_REQUEST_FRAMES;
use std::marker::Model;

const NO_PRD: Prd = Prd {
    address: 0,
    bytes: 0,
};

/// The PRDs of a command, in their order (AHCI 1.3.1, 4.2.3.3): there is room for as many as the longest request has
/// frames, and those that there are stand first. So what goes over them has no more to do than there are.
#[derive(Debug, Drop)]
pub struct PrdTable {
    room: [Prd; MOST_REQUEST_FRAMES],
    number: usize,
}

impl Model for PrdTable {
    ghost use Rattle.std.specs.Prelude.{◌≤◌, List, take};
    ghost use Rattle.adapter.specs.declared.command.Prd.{Prd};
    ghost use Rattle.ata_types.specs.declared.limits.TheConstants.{MOST_REQUEST_FRAMES};

    ghost Value = { List Prd };

    ghost view = { λ t. take t.number t.room };

    ghost invariant = { λ t. t.number ≤ MOST_REQUEST_FRAMES };
}

impl PrdTable {
    /// None yet.
    pub fn new() -> PrdTable
        ensures { result ≡ [] }
    {
        PrdTable {
            room: [NO_PRD; MOST_REQUEST_FRAMES],
            number: 0,
        }
    }

    /// None any more.
    pub fn clear(&mut self)
        ensures { self.new ≡ [] }
    {
        self.number = 0;
    }

    /// Those of another table, in place of these. It copies no more than there are.
    pub fn copy_from(&mut self, other: &PrdTable)
        ensures { self.new ≡ other.now }
    {
        self.room[..other.number].copy_from_slice(&other.room[..other.number]);
        self.number = other.number;
    }

    /// One more.
    pub fn push(&mut self, prd: Prd)
        requires { length self.old < MOST_REQUEST_FRAMES }
        ensures { self.new ≡ self.old ++ prd ∷ [] }
    {
        self.room[self.number] = prd;
        self.number += 1;
    }

    /// Those that there are.
    pub fn as_slice(&self) -> &[Prd]
        ensures same { result.now ≡ self.now }
        ensures few { length result.now ≤ MOST_REQUEST_FRAMES }
    {
        &self.room[..self.number]
    }
}
