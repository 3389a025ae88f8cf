// Stores of sectors of 512 bytes.
ghost use Rattle.std.specs.Prelude.{◌≡◌, ◌<◌, ◌≤◌, ◌+◌, ◌^◌, ℕ, List, Option, None, Some, IfOk, replicate, true, length, nat_lt, if◌then◌else◌, slice_index_or, vec_capacity, []};
ghost use Rattle.sector_store.specs.{Stores.{AreSectors, HasRecordAndNotesOneMoreFailure, ReadsSector, WritesSector, filled_with_zeros_to_size}, declared.store.Failures.{Failures}};

use crate::sector_file::copy;
use ata_types::NoMemory;
use std::alloc::Global;

/// What a store tells of its calls that failed on sectors that are there.
#[derive(Clone, Copy, Debug)]
pub struct Failures {
    /// How many there were, modulo 2^64.
    pub failed_calls: u64,
    /// The sector of the last one; 0 where there was none.
    pub last_sector: u64,
    /// Whether the last one was a write.
    pub last_is_write: bool,
}

/// The sectors of a disk, by their numbers. A sector has 512 bytes. A call that answers `false` failed: a read gave no
/// sector; a write changed none where the store tells its sectors, and else may have changed a part of its own.
pub trait SectorStore: Drop {
    /// How many sectors there are.
    ghost size: { Self → ℕ };

    /// The bytes of each sector, where the store tells them, as memory does and a file doesn't.
    ghost told: { Self → Option (ℕ → List ℕ) };

    /// What it tells of the calls that failed on sectors that are there; or `None`, where no such call fails, as in
    /// memory.
    ghost failures: { Self → Option Failures };

    /// How many sectors there are.
    fn sectors(&self) -> u64
        ensures { result ≡ size self.now };

    /// Copies a sector.
    fn read(&mut self, sector: u64, out: &mut [u8; 512]) -> bool
        ensures { ReadsSector size told failures sector self.old self.new out.old out.new result };

    /// Copies a sector, as `read` does. So many behind it are to be read next, one after another, and by nothing but
    /// this: a store may fetch them by the same call.
    fn read_ahead(&mut self, sector: u64, _ahead: u32, out: &mut [u8; 512]) -> bool
        ensures { ReadsSector size told failures sector self.old self.new out.old out.new result }
    {
        self.read(sector, out)
    }

    /// Replaces a sector.
    fn write(&mut self, sector: u64, bytes: &[u8; 512]) -> bool
        ensures { WritesSector size told failures (HasRecordAndNotesOneMoreFailure true sector) sector bytes.now
            self.old self.new result };

    /// What it tells are sectors.
    ghost told_sectors_are_valid: { (s : Self) → AreSectors (size s) (told s) };

    /// Each of its sectors has a number.
    ghost fits: { (s : Self) → size s < 2 ^ 64 };
}

/// Sectors in memory, which the store tells. They are zeros at first; those behind the last one that was written have
/// their place in memory reserved, and take none.
#[derive(Drop)]
pub struct MemStore {
    /// How many there are.
    size: usize,
    /// Those up to the last one that was written.
    written: Vec<[u8; 512]>,
    ghost are_sectors: { AreSectors size (Some (λ k.
        slice_index_or (filled_with_zeros_to_size size written.items) k [])) },
    ghost inside: { length written.items ≤ size },
    ghost reserved: { size ≤ vec_capacity written },
    ghost few: { size < 2 ^ 64 },
}

impl MemStore {
    /// That many sectors of zeros. The only error is want of memory.
    pub fn new(alloc: Global, sectors: u32) -> Result<MemStore, NoMemory>
        ensures size { IfOk result (λ s. s.size ≡ sectors) }
        ensures zeros { IfOk result (λ s.
            filled_with_zeros_to_size s.size s.written.items ≡ replicate sectors (replicate 512 0)) }
        ensures none_is_written { IfOk result (λ s. s.written.items ≡ []) }
    {
        let size = sectors as usize;
        let written = Vec::with_capacity(alloc, size)?;
        Ok(MemStore { size, written })
    }

    /// Has all sectors up to this one in memory, and none behind those that were there: a first write far up costs the
    /// sectors before it.
    fn extend_to(&mut self, sector: usize)
        requires { sector < self.old.size }
        ensures kept { filled_with_zeros_to_size self.new.size self.new.written.items
            ≡ filled_with_zeros_to_size self.old.size self.old.written.items }
        ensures size { self.new.size ≡ self.old.size }
        ensures there { sector < length self.new.written.items }
        ensures extends_no_further { length self.new.written.items
            ≡ (if nat_lt sector (length self.old.written.items) then length self.old.written.items else sector + 1) }
    {
        for _sector in self.written.len()..sector + 1 {
            self.written.push_reserved([0; 512]);
        }
    }
}

impl SectorStore for MemStore {
    ghost size = { λ s. s.size };

    ghost told = { λ s. Some (λ k. slice_index_or (filled_with_zeros_to_size s.size s.written.items) k []) };

    ghost failures = { λ _. None };

    ghost told_sectors_are_valid = { λ s. s.are_sectors };

    ghost fits = { λ s. s.few };

    fn sectors(&self) -> u64 {
        self.size as u64
    }

    fn read(&mut self, sector: u64, out: &mut [u8; 512]) -> bool {
        if sector < self.written.len() as u64 {
            copy(&self.written[sector as usize], out);
        } else if sector < self.size as u64 {
            *out = [0; 512];
        } else {
            return false;
        }
        true
    }

    fn write(&mut self, sector: u64, bytes: &[u8; 512]) -> bool {
        if sector >= self.size as u64 {
            return false;
        }
        self.extend_to(sector as usize);
        self.written[sector as usize] = *bytes;
        true
    }
}
