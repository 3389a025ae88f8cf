// A disk that needs no memory for its sectors, for runs in which tens of thousands of them are cleared.
ghost use Rattle.std.specs.Prelude.{ℕ, ◌≡◌, ◌≤◌, ◌<◌, ◌^◌, Some, replicate, true};
ghost use Rattle.sector_store.specs.Stores.{IsSectorBytes};
ghost use Rattle.server_examples.specs.NumberedSectors.{numbered_sectors_with_cleared_range};

use super::failing_store::FailingCall;
use sector_store::SectorStore;

/// Sectors each of whose bytes is its number's lowest, but for those that were cleared: from one sector on, one after
/// another. Of the calls one fails, and each write but the next clear does.
#[derive(Drop)]
pub struct NumberedStore {
    sectors: u64,
    /// The first sector that is cleared, and the one that is to be cleared next.
    first: u64,
    next: u64,
    failing: FailingCall,
    ghost rising: { first ≤ next },
    ghost few: { sectors < 2 ^ 64 },
    ghost are_sectors: { (k : ℕ) → IsSectorBytes (numbered_sectors_with_cleared_range first next k) },
}

impl NumberedStore {
    /// One that is to be cleared from a sector on, whose next call on a sector that is there fails, once so many have
    /// come.
    pub fn new(sectors: u64, first_cleared: u64, calls_before_failure: u64) -> NumberedStore {
        NumberedStore {
            sectors,
            first: first_cleared,
            next: first_cleared,
            failing: FailingCall::new(calls_before_failure),
        }
    }

    /// What a sector holds.
    fn bytes_of(&self, sector: u64) -> [u8; 512]
        ensures { result ≡ numbered_sectors_with_cleared_range self.now.first self.now.next sector }
    {
        if self.first <= sector && sector < self.next {
            [0; 512]
        } else {
            [(sector % 256) as u8; 512]
        }
    }

    /// Whether these bytes clear the sector that is to be cleared next.
    fn is_next(&self, sector: u64, bytes: &[u8; 512]) -> bool
        ensures { result ≡ true → (sector ≡ self.now.next) × (bytes.now ≡ replicate 512 0) }
    {
        sector == self.next && *bytes == [0; 512]
    }
}

impl SectorStore for NumberedStore {
    ghost size = { λ s. s.sectors };

    ghost told = { λ s. Some (numbered_sectors_with_cleared_range s.first s.next) };

    ghost failures = { λ s. Some s.failing.failed };

    ghost told_sectors_are_valid = { λ s k _. s.are_sectors k };

    ghost fits = { λ s. s.few };

    fn sectors(&self) -> u64 {
        self.sectors
    }

    fn read(&mut self, sector: u64, out: &mut [u8; 512]) -> bool {
        if sector >= self.sectors || self.failing.fails(false, sector) {
            return false;
        }
        *out = self.bytes_of(sector);
        true
    }

    fn write(&mut self, sector: u64, bytes: &[u8; 512]) -> bool {
        if sector >= self.sectors {
            return false;
        }
        if !self.is_next(sector, bytes) {
            self.failing.fail(true, sector);
            return false;
        }
        if self.failing.fails(true, sector) {
            return false;
        }
        self.next += 1;
        true
    }
}
