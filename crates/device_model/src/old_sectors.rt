// What the sectors of a disk with a volatile write cache held before they were changed.
ghost use Rattle.std.specs.{Prelude.{◌≡◌, ◌≤◌, ◌<◌, ◌+◌, ℕ, None, IfSome, IfOk, IfErr, [], true, false, is_some}, Vec.{vec_len, vec_capacity}};
ghost use Rattle.device_model.specs.OldSectors.{AreRising, IsGapFor, IsOldAt, SetsOldBytesOfSector, old_bytes_of};

use std::alloc::Global;

/// A sector that was changed, and the bytes that it held before.
#[derive(Clone, Copy, Debug)]
pub struct OldSector {
    pub sector: u64,
    pub bytes: [u8; 512],
}

/// Old sectors, in rising order of their numbers. They grow where they are told to (`reserve`), so that none is kept
/// for which there is no memory.
#[derive(Drop)]
pub struct OldSectors {
    sectors: Vec<OldSector>,
    ghost rising: { AreRising sectors.items },
}

impl OldSectors {
    /// None.
    pub fn new(alloc: Global) -> OldSectors
        ensures { result.sectors.items ≡ [] }
    {
        OldSectors {
            sectors: Vec::new(alloc),
        }
    }

    /// Finds memory for so many more; `false` says that there was none.
    pub fn reserve(&mut self, more: usize) -> bool
        ensures items { self.new.sectors.items ≡ self.old.sectors.items }
        ensures room_is_kept { (n : ℕ) → vec_len self.old.sectors + n ≤ vec_capacity self.old.sectors
            → vec_len self.new.sectors + n ≤ vec_capacity self.new.sectors }
        ensures room { result ≡ true → vec_len self.new.sectors + more ≤ vec_capacity self.new.sectors }
        ensures had_no_room { result ≡ false → vec_capacity self.old.sectors < vec_len self.old.sectors + more }
        ensures has_no_room { result ≡ false → vec_capacity self.new.sectors < vec_len self.new.sectors + more }
    {
        self.sectors.reserve(more).is_ok()
    }

    /// Where a sector is, or else where it would be put.
    fn place_of(&self, sector: u64) -> Result<usize, usize>
        ensures found { IfOk result (IsOldAt self.now.sectors.items sector) }
        ensures absent { IfErr result (IsGapFor self.now.sectors.items sector) }
    {
        self.sectors.binary_search_by_key(&sector, |old| old.sector)
    }

    /// Where a sector would be put; `None` says that it has old bytes already.
    pub fn gap_for(&self, sector: u64) -> Option<usize>
        ensures gap { IfSome result (IsGapFor self.now.sectors.items sector) }
        ensures has_old_bytes { result ≡ None → is_some (old_bytes_of self.now.sectors.items sector) ≡ true }
    {
        match self.place_of(sector) {
            Ok(_) => None,
            Err(place) => Some(place),
        }
    }

    /// Keeps the old bytes of a sector that has none, for which there is room. It is entered for these alone, since its
    /// frame has room for a sector.
    #[inline(never)]
    pub fn keep(&mut self, place: usize, sector: u64, bytes: &[u8; 512])
        requires gap { IsGapFor self.old.sectors.items sector place }
        requires room { vec_len self.old.sectors < vec_capacity self.old.sectors }
        ensures keeps { SetsOldBytesOfSector self.old.sectors.items self.new.sectors.items sector bytes.now }
        ensures room_is_left { (n : ℕ) → vec_len self.old.sectors + (n + 1) ≤ vec_capacity self.old.sectors
            → vec_len self.new.sectors + n ≤ vec_capacity self.new.sectors }
    {
        let old = OldSector {
            sector,
            bytes: *bytes,
        };
        let _kept = self.sectors.insert(place, old).is_ok();
    }

    /// Forgets them all; their memory stays.
    pub fn forget(&mut self)
        ensures { self.new.sectors.items ≡ [] }
    {
        self.sectors.truncate(0);
    }

    /// They all, in rising order of their numbers.
    pub fn as_slice(&self) -> &[OldSector]
        ensures { result.now ≡ self.now.sectors.items }
    {
        self.sectors.as_slice()
    }
}
