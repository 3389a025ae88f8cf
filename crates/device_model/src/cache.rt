// The volatile write cache of a disk: what it holds is lost with it, but for what a flush has made lasting (ACS-3,
// FLUSH CACHE EXT). What is written goes to the store at once; what the store held before is kept until the next flush.
ghost use Rattle.std.specs.{Prelude.{◌≡◌, ◌<◌, ◌≤◌, ◌+◌, ◌⊎◌, ℕ, List, Option, true, false, option_map, length, is_some, []}, Vec.{vec_len, vec_capacity}};
ghost use Rattle.sector_store.specs.Stores.{HasRecordAndNotesOneMoreFailure, WritesSector};
ghost use Rattle.device_model.specs.{WriteCaches.{OneMoreCallFails, HasRoomForOldSectors, KeepsNoOldSectors, KeepsSameOldSectors, RollsBack, lasting_in}, OldSectors.{with_old_bytes}};

use crate::old_sectors::OldSectors;
use sector_store::SectorStore;
use std::alloc::Global;

/// What is kept for the disk that is in a port, or was last, since it last ended a flush, or else since it was first
/// in.
#[derive(Drop)]
pub struct Cache {
    /// Whether the disks of the port have one. Else nothing is kept, and no call is made for it.
    pub is_on: bool,
    /// The sectors that were changed since then, as they were.
    pub kept: OldSectors,
}

impl Cache {
    /// That of a disk that was changed nowhere yet.
    pub fn new(alloc: Global, is_on: bool) -> Cache
        ensures is_on { result.is_on ≡ is_on }
        ensures kept { result.kept.sectors.items ≡ [] }
    {
        Cache {
            is_on,
            kept: OldSectors::new(alloc),
        }
    }

    /// Finds memory for the old bytes of so many sectors more, if it keeps any; `false` says that there was none.
    /// It stands in its callers' code, as `Bay::reserve`.
    #[inline(always)]
    pub fn reserve(&mut self, more: usize) -> bool
        ensures old_sectors_are_kept { KeepsSameOldSectors self.old self.new }
        ensures room_is_kept { (n : ℕ) → HasRoomForOldSectors self.old n → HasRoomForOldSectors self.new n }
        ensures room { result ≡ true → HasRoomForOldSectors self.new more }
        ensures had_no_room { result ≡ false → HasRoomForOldSectors self.old more → ⊥ }
        ensures has_no_room { result ≡ false → HasRoomForOldSectors self.new more → ⊥ }
    {
        !self.is_on || more == 0 || self.kept.reserve(more)
    }

    /// All that the disk holds is lasting.
    pub fn forget(&mut self)
        ensures { KeepsNoOldSectors self.old self.new }
    {
        self.kept.forget();
    }
}

/// Writes a sector of a disk that has a cache: what it holds is kept before, unless it has old bytes. `false` says that
/// one of the two calls has failed. It is entered only where there is a cache, since its frame has room for a sector.
#[inline(never)]
fn put_over_old<S: SectorStore>(
    store: &mut S,
    kept: &mut OldSectors,
    sector: u64,
    bytes: &[u8; 512],
) -> bool
    requires { vec_len kept.old.sectors < vec_capacity kept.old.sectors }
    ensures writes { WritesSector S.size S.told S.failures (OneMoreCallFails true true sector) sector bytes.now
        store.old
        store.new result }
    ensures lasting { option_map (with_old_bytes kept.new.sectors.items) (S.told store.new)
        ≡ option_map (with_old_bytes kept.old.sectors.items) (S.told store.old) }
    ensures left { (n : ℕ) → vec_len kept.old.sectors + (n + 1) ≤ vec_capacity kept.old.sectors
        → vec_len kept.new.sectors + n ≤ vec_capacity kept.new.sectors }
{
    if let Some(place) = kept.gap_for(sector) {
        let mut old = [0; 512];
        if !store.read(sector, &mut old) {
            return false;
        }
        kept.keep(place, sector, &old);
    }
    store.write(sector, bytes)
}

/// Writes a sector of a disk, as `SectorStore::write` does, where what it holds is kept before; `false` says that one
/// of the two calls has failed.
pub fn put_sector<S: SectorStore>(
    store: &mut S,
    cache: &mut Cache,
    sector: u64,
    bytes: &[u8; 512],
) -> bool
    requires { HasRoomForOldSectors cache.old 1 }
    ensures writes { WritesSector S.size S.told S.failures (OneMoreCallFails cache.old.is_on true sector) sector
        bytes.now
        store.old store.new result }
    ensures lasting { (noted : Option (ℕ → List ℕ)) → lasting_in cache.new (S.told store.new) noted
        ≡ lasting_in cache.old (S.told store.old) noted }
    ensures is_on { cache.new.is_on ≡ cache.old.is_on }
    ensures room_is_left { (n : ℕ) → HasRoomForOldSectors cache.old (n + 1) → HasRoomForOldSectors cache.new n }
{
    if cache.is_on {
        put_over_old(store, &mut cache.kept, sector, bytes)
    } else {
        store.write(sector, bytes)
    }
}

/// Writes back what is kept, the lowest sector first. A sector on which the store fails keeps what it holds.
pub fn roll_back<S: SectorStore>(store: &mut S, kept: &OldSectors)
    ensures { RollsBack S.size S.told S.failures (option_map (with_old_bytes kept.now.sectors.items) (S.told store.old))
        store.old store.new }
{
    for old in kept.as_slice() {
        let _written = store.write(old.sector, &old.bytes);
    }
}
