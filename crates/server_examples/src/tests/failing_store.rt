// A disk in memory of which one call fails, as one of a file may.
ghost use Rattle.std.specs.Prelude.{◌≡◌, Some, true, false};
ghost use Rattle.sector_store.specs.Stores.{HasRecordAndNotesOneMoreFailure};

use sector_store::{Failures, MemStore, SectorStore};

/// A call of a store that fails, once others have come.
#[derive(Drop)]
pub struct FailingCall {
    /// Calls on sectors that are there, before the one that fails.
    before: u64,
    /// For contracts alone.
    failed: Failures,
}

impl FailingCall {
    /// The next call on a sector that is there fails, once so many have come.
    pub fn new(before: u64) -> FailingCall {
        FailingCall {
            before,
            failed: Failures {
                failed_calls: 0,
                last_sector: 0,
                last_is_write: false,
            },
        }
    }

    /// Whether this call on a sector that is there fails. It is noted then.
    pub fn fails(&mut self, is_write: bool, sector: u64) -> bool
        ensures none_is_noted { result ≡ false → self.new.failed ≡ self.old.failed }
        ensures failure_is_noted { result ≡ true
            → HasRecordAndNotesOneMoreFailure is_write sector (Some self.old.failed) (Some self.new.failed) }
    {
        let fails = self.before == 0;
        // No other one fails.
        self.before = self.before.wrapping_sub(1);
        if fails {
            self.fail(is_write, sector);
        }
        fails
    }

    /// Notes that this call on a sector that is there fails.
    pub fn fail(&mut self, is_write: bool, sector: u64)
        ensures { HasRecordAndNotesOneMoreFailure is_write sector (Some self.old.failed) (Some self.new.failed) }
    {
        self.failed = Failures {
            failed_calls: self.failed.failed_calls.wrapping_add(1),
            last_sector: sector,
            last_is_write: is_write,
        };
    }
}

/// Sectors in memory, of whose calls one fails.
#[derive(Drop)]
pub struct OneFailureStore {
    memory: MemStore,
    failing: FailingCall,
}

impl OneFailureStore {
    /// One whose next call on a sector that is there fails, once so many have come.
    pub fn new(memory: MemStore, before: u64) -> OneFailureStore {
        OneFailureStore {
            memory,
            failing: FailingCall::new(before),
        }
    }
}

impl SectorStore for OneFailureStore {
    ghost size = { λ s. ⟦<MemStore as SectorStore>⟧.size s.memory };

    ghost told = { λ s. ⟦<MemStore as SectorStore>⟧.told s.memory };

    ghost failures = { λ s. Some s.failing.failed };

    ghost told_sectors_are_valid = { λ s. s.memory.are_sectors };

    ghost fits = { λ s. s.memory.few };

    fn sectors(&self) -> u64 {
        self.memory.sectors()
    }

    fn read(&mut self, sector: u64, out: &mut [u8; 512]) -> bool {
        if sector < self.memory.sectors() && self.failing.fails(false, sector) {
            return false;
        }
        self.memory.read(sector, out)
    }

    fn write(&mut self, sector: u64, bytes: &[u8; 512]) -> bool {
        if sector < self.memory.sectors() && self.failing.fails(true, sector) {
            return false;
        }
        self.memory.write(sector, bytes)
    }
}
