// A disk over a file or in memory.
ghost use Rattle.std.specs.Prelude.{◌≡◌};
ghost use Rattle.sector_store.specs.{declared.disks.DiskStore.TheVariants.{File, Memory}, Disks.{failures_if_file_backed, sector_count_of, contents_of}};

use crate::{FileStore, MemStore, SectorStore};

/// The sectors of a file, or sectors in memory. Those in memory are told, and no call on one of them fails.
#[derive(Drop)]
pub enum DiskStore {
    File(FileStore),
    Memory(MemStore),
}

impl SectorStore for DiskStore {
    ghost size = { sector_count_of };

    ghost told = { contents_of };

    ghost failures = { failures_if_file_backed };

    ghost told_sectors_are_valid = { elim [ File file ↦ tt | Memory memory ↦ memory.are_sectors ] };

    ghost fits = { elim [ File file ↦ file.few | Memory memory ↦ memory.few ] };

    fn sectors(&self) -> u64 {
        match self {
            DiskStore::File(file) => file.sectors(),
            DiskStore::Memory(memory) => memory.sectors(),
        }
    }

    fn read(&mut self, sector: u64, out: &mut [u8; 512]) -> bool {
        match self {
            DiskStore::File(file) => file.read(sector, out),
            DiskStore::Memory(memory) => memory.read(sector, out),
        }
    }

    #[inline(always)]
    fn read_ahead(&mut self, sector: u64, ahead: u32, out: &mut [u8; 512]) -> bool {
        match self {
            DiskStore::File(file) => file.read_ahead(sector, ahead, out),
            DiskStore::Memory(memory) => memory.read_ahead(sector, ahead, out),
        }
    }

    fn write(&mut self, sector: u64, bytes: &[u8; 512]) -> bool {
        match self {
            DiskStore::File(file) => file.write(sector, bytes),
            DiskStore::Memory(memory) => memory.write(sector, bytes),
        }
    }
}
