// The disks of a port, as a model has them.
ghost use Rattle.std.specs.Prelude.{◌≡◌, ◌<◌, ◌≤◌, ◌+◌, ◌++◌, ◌∷◌, [], ℕ, List, Option, None, true, false, length, if◌then◌else◌, IfSome};
ghost use Rattle.adapter.specs.{Commands.{moves_disk_sectors, reads_memory}, Device.{Disk, IsValidSector}, Steps.{disk_after, disk_cleared}};
ghost use Rattle.device_model.specs.{WriteCaches.{OneMoreCallFails, HasRoomForOldSectors, KeepsSameOldSectors, lasting_in}, Disks.{OnlyEndsCommand, BayEndsCommand, LosesCache, OnlyChangesPageSource, SelectsDisk, disk_over, identity, lasting_of, plugged_as}, PieceTransfers.{TransfersPieceOrFails, IsTransferred, piece_in_memory}, Finishing.{CacheHasRoomForRestOfCommand, IsCommandBegun, NoneMayFinishOrLacksRoom}, ModelState.{AreNewDisks}};
ghost use Rattle.device_model.specs.{DiskPages.{IsSentLog, IsSentIdentify, HasBitsFlipped, with_lie, with_logged_error, without_lies}, Trims.{sectors_left_to_write}, WholeAdapter.{AllMedia, device_of}, ZeroedSectors.{MakesZero}};

use crate::cache::{Cache, put_sector, roll_back};
use crate::clearing::SectorExtent;
use crate::disks::{DiskIndex, ModelDisk, PluggedDisks, PortDisks};
use crate::hardware::Hardware;
use crate::steps::{BegunCommand, NextMove};
use adapter::{DiskPage, Operation};
use sector_store::SectorStore;
use sector_store::pages::{Abilities, LoggedError, log_page};
use std::alloc::Global;
use std::mem;
use std::snapshot::Snapshot;

pub const PAGE_BYTES: usize = 512;

/// A sector that was cleared.
const ZEROS: [u8; 512] = [0; 512];

/// What the disks of a port say of themselves by their pages of IDENTIFY DEVICE, beside their sizes and serial numbers,
/// and by the page of log 10h.
#[derive(Clone, Copy, Debug)]
pub struct PageSource {
    pub abilities: Abilities,
    /// The queued command that failed last.
    pub log: Option<LoggedError>,
    /// The bits of a page of IDENTIFY DEVICE that are turned.
    pub lies: [u8; PAGE_BYTES],
    /// The bits of the log's page that are turned.
    pub log_lies: [u8; PAGE_BYTES],
}

/// The two disks of a port, of which one is in it at a time.
#[derive(Drop)]
pub struct Bay<S> {
    /// Which disk is in the port, or was last.
    pub which: DiskIndex,
    /// That disk.
    pub disk: ModelDisk<S>,
    /// The other one.
    pub other: ModelDisk<S>,
    /// What the pages of both say of them.
    pub page_source: PageSource,
    /// The disk that was in at first, as it was then, for proofs alone.
    pub first: Snapshot<S>,
    /// Those that were put in after it, for proofs alone.
    pub plugged_later: PluggedDisks<S>,
    /// The disk that is in, or was last, as it was when it last ended a flush, or else when it was first in; for proofs
    /// alone.
    pub lasting: Snapshot<S>,
    /// What its volatile write cache may lose of it, if the disks have one.
    pub cache: Cache,
}

/// Turns these bits of a page.
fn flip_bits(page: &mut [u8; PAGE_BYTES], bits: &[u8; PAGE_BYTES])
    ensures turned { HasBitsFlipped page.old bits.now page.new }
    ensures bytes { IsValidSector page.old → IsValidSector page.new }
{
    for offset in 0..PAGE_BYTES {
        page[offset] ^= bits[offset];
    }
}

/// Makes these sectors of a disk zero, the first of them first, and tells how many: all of them, or those before the
/// one at which the store failed. What they hold is kept before. It is entered for clears alone, since its frame may
/// have room for a sector.
#[inline(never)]
fn clear_sectors<S: SectorStore>(
    disk: &mut S,
    cache: &mut Cache,
    which: DiskIndex,
    run: SectorExtent,
) -> u32
    requires inside { run.first + run.count ≤ S.size disk.old }
    requires room { HasRoomForOldSectors cache.old run.count }
    ensures { MakesZero S.size S.told S.failures which run result disk.old disk.new cache.old cache.new }
{
    for place in 0..run.count {
        if !put_sector(disk, cache, run.first + u64::from(place), &ZEROS) {
            return place;
        }
    }
    run.count
}

impl<S: SectorStore> Bay<S> {
    /// A port with disks, of which the first one is in. They have these abilities, and a volatile write cache or none,
    /// and tell no lies.
    pub fn new(alloc: Global, disks: PortDisks<S>, abilities: Abilities, cached: bool) -> Bay<S>
        ensures { AreNewDisks disks abilities cached result }
    {
        let first = Snapshot::of(&disks.first.store);
        let lasting = Snapshot::of(&disks.first.store);
        Bay {
            which: DiskIndex::Disk0,
            disk: disks.first,
            other: disks.spare,
            page_source: PageSource {
                abilities,
                log: None,
                lies: [0; PAGE_BYTES],
                log_lies: [0; PAGE_BYTES],
            },
            first,
            plugged_later: PluggedDisks::Nothing,
            lasting,
            cache: Cache::new(alloc, cached),
        }
    }

    /// Gives the page of IDENTIFY DEVICE of the disk that is in, with the bits turned on which it lies. It is entered
    /// for this page alone, since its frame has room for one, which is cleared at each entry.
    #[inline(never)]
    fn give_identity(&self, bytes: &mut [u8; 512])
        ensures page { IsSentIdentify (identity S.size self.now.disk) self.now.page_source bytes.new }
        ensures bytes { IsValidSector bytes.new }
    {
        *bytes = self.disk.page(self.page_source.abilities);
        flip_bits(bytes, &self.page_source.lies);
    }

    /// Gives the page of log 10h, with the bits turned on which the disks lie. It is entered for this page alone, as
    /// `give_identity`.
    #[inline(never)]
    fn give_log(&self, bytes: &mut [u8; 512])
        ensures page { IsSentLog self.now.page_source bytes.new }
        ensures bytes { IsValidSector bytes.new }
    {
        *bytes = log_page(self.page_source.log);
        flip_bits(bytes, &self.page_source.log_lies);
    }

    /// Has the disk that is in give these bytes of memory, the sector of a read or its page, or take them as a write's
    /// sector; a trim's block stands there already. `false` says that the store failed: it tells what it told, and the
    /// bytes are as they were. A read is told how many pieces of its command come right behind this one.
    #[inline(always)]
    fn transfer_bytes(&mut self, next: NextMove, ahead: u32, bytes: &mut [u8; 512]) -> bool
        requires { HasRoomForOldSectors self.old.cache (sectors_left_to_write next.operation 1) }
        ensures { TransfersPieceOrFails S.size S.told S.failures self.old self.new next bytes.old bytes.new result }
    {
        match next.operation {
            Operation::Read | Operation::ReadQueued => {
                self.disk.store.read_ahead(next.sector, ahead, bytes)
            }
            Operation::Write | Operation::WriteQueued => {
                put_sector(&mut self.disk.store, &mut self.cache, next.sector, bytes)
            }
            Operation::Identify => {
                self.give_identity(bytes);
                true
            }
            Operation::ReadLog => {
                self.give_log(bytes);
                true
            }
            // A trim's block is in memory. A flush has no piece that could bring anything.
            Operation::Trim | Operation::Flush => true,
        }
    }

    /// The same with so many bytes of memory.
    #[inline(always)]
    fn transfer_within(&mut self, next: NextMove, ahead: u32, piece: &mut [u8]) -> bool
        requires long { length piece.old ≡ 512 }
        requires room { HasRoomForOldSectors self.old.cache (sectors_left_to_write
            next.operation 1) }
        ensures { TransfersPieceOrFails S.size S.told S.failures self.old self.new next piece.old piece.new result }
    {
        let Some(bytes) = piece.as_mut_array() else {
            unreachable!()
        };
        self.transfer_bytes(next, ahead, bytes)
    }

    /// Has the disk that is in and the memory exchange the next piece of a command, where it stands. So many pieces of
    /// the command come right behind it.
    #[inline(always)]
    pub fn transfer_piece(&mut self, hardware: &mut Hardware, next: NextMove, ahead: u32) -> bool
        requires inside { next.address + 512 ≤ length hardware.old.memory.items }
        requires room { HasRoomForOldSectors self.old.cache (sectors_left_to_write
            next.operation 1) }
        ensures exchanges { TransfersPieceOrFails S.size S.told S.failures self.old self.new next
            (piece_in_memory hardware.old next) (piece_in_memory hardware.new next) result }
        ensures memory { IsTransferred hardware.old hardware.new next }
        ensures stays { result ≡ false → (o : AllMedia) → device_of hardware.new o ≡ device_of hardware.old o }
    {
        let at = next.address as usize;
        self.transfer_within(next, ahead, &mut hardware.memory[at..at + PAGE_BYTES])
    }

    /// Makes these sectors of the disk that is in zero, as `clear_sectors` does.
    pub fn clear(&mut self, run: SectorExtent) -> u32
        requires inside { run.first + run.count ≤ S.size self.old.disk.store }
        requires room { HasRoomForOldSectors self.old.cache run.count }
        ensures zero { MakesZero S.size S.told S.failures self.old.which run result self.old.disk.store
            self.new.disk.store self.old.cache self.new.cache }
        ensures lasting { lasting_of S.told self.new ≡ lasting_of S.told self.old }
        ensures rest { self.new ≡ record self.old
            { disk = record self.old.disk { store = self.new.disk.store }; cache = self.new.cache } }
    {
        clear_sectors(&mut self.disk.store, &mut self.cache, self.which, run)
    }

    /// Begins to do a slot's command of the port to its end, as `Hardware::begin` does.
    pub fn begin(&mut self, hardware: &mut Hardware, port: u8, slot: u8) -> Option<BegunCommand>
        requires port { port < 4 }
        requires slot { slot < 32 }
        ensures begun { IfSome result (λ b. IsCommandBegun port slot b.remaining.moves b.remaining.clears
            b.is_newly_taken hardware.old hardware.new) }
        ensures ahead { IfSome result (λ b. (o : AllMedia)
            → CacheHasRoomForRestOfCommand self.new.cache port slot b.remaining.moves (device_of hardware.new o)) }
        ensures old_sectors_are_kept { KeepsSameOldSectors self.old.cache self.new.cache }
        ensures is_unbegun { result ≡ None
            → NoneMayFinishOrLacksRoom port slot hardware.old hardware.new self.old.cache self.new.cache }
        ensures rest { self.new ≡ record self.old { cache = self.new.cache } }
    {
        hardware.begin(port, slot, &mut self.cache)
    }

    /// Finds memory for the old bytes of so many sectors more, if the disks have a cache; `false` says that there was
    /// none. It is asked for each sector that is moved, so it stands in its callers' code.
    #[inline(always)]
    pub fn reserve(&mut self, changes: u32) -> bool
        ensures old_sectors_are_kept { KeepsSameOldSectors self.old.cache self.new.cache }
        ensures room_is_kept { (n : ℕ) → HasRoomForOldSectors self.old.cache n → HasRoomForOldSectors self.new.cache n }
        ensures room { result ≡ true → HasRoomForOldSectors self.new.cache changes }
        ensures lacked { result ≡ false → HasRoomForOldSectors self.old.cache changes → ⊥ }
        ensures rest { self.new ≡ record self.old { cache = self.new.cache } }
    {
        self.cache.reserve(changes as usize)
    }

    /// How many sectors the disk has that is in.
    pub fn sectors(&self) -> u64
        ensures { result ≡ S.size self.now.disk.store }
    {
        self.disk.store.sectors()
    }

    /// Has the log name this command.
    pub fn log_failed(&mut self, failed: LoggedError)
        ensures { self.new ≡ record self.old { page_source = with_logged_error failed self.old.page_source } }
    {
        self.page_source.log = Some(failed);
    }

    /// Has the disks lie of a byte of a page once more.
    pub fn lie(&mut self, page: DiskPage, offset: usize, bits: u8)
        requires { offset < 512 }
        ensures { self.new ≡ record self.old { page_source = with_lie page offset bits self.old.page_source } }
    {
        match page {
            DiskPage::Identity => self.page_source.lies[offset] ^= bits,
            DiskPage::Log => self.page_source.log_lies[offset] ^= bits,
        }
    }

    /// Has them tell no lies any more.
    pub fn tell_truth(&mut self)
        ensures { self.new ≡ record self.old { page_source = without_lies self.old.page_source } }
    {
        self.page_source.lies = [0; PAGE_BYTES];
        self.page_source.log_lies = [0; PAGE_BYTES];
    }

    /// Such a command has ended: a flush makes lasting what the disk that is in holds.
    pub fn end(&mut self, operation: Operation)
        ensures { BayEndsCommand operation self.old self.new }
    {
        match operation {
            Operation::Flush => {
                self.lasting = Snapshot::of(&self.disk.store);
                self.cache.forget();
            }
            _ => {}
        }
    }

    /// Has a disk stand as the one that is in. It has the sectors that it had; of another one they are lasting.
    fn select_disk(&mut self, which: DiskIndex)
        ensures { SelectsDisk S.told which self.old self.new }
    {
        if self.which != which {
            mem::swap(&mut self.disk, &mut self.other);
            self.which = which;
            // Of another disk all is lasting, as after a flush.
            self.end(Operation::Flush);
        }
    }

    /// Puts a disk in, as it was when it was taken out.
    pub fn put_in(&mut self, which: DiskIndex)
        ensures selects { SelectsDisk S.told which self.old
            (record self.new { plugged_later = self.old.plugged_later }) }
        ensures later { (disk : DiskIndex → S → Disk) → plugged_as disk self.new.plugged_later
            ≡ plugged_as disk self.old.plugged_later ++ disk which self.new.disk.store ∷ [] }
    {
        self.select_disk(which);
        self.plugged_later.note(which, &self.disk.store);
    }

    /// Puts the disk in again that was last in, and what was in its cache is lost. What it may lose is kept: another
    /// one that is put in so loses the same.
    pub fn plug_after_cache_loss(&mut self)
        ensures loses { LosesCache S.size S.told S.failures self.old self.new }
        ensures later { (disk : DiskIndex → S → Disk) → plugged_as disk self.new.plugged_later
            ≡ plugged_as disk self.old.plugged_later ++ disk self.old.which self.new.disk.store ∷ [] }
        ensures rest { self.new ≡ record self.old
            { disk = record self.old.disk { store = self.new.disk.store }; plugged_later = self.new.plugged_later } }
    {
        if self.cache.is_on {
            roll_back(&mut self.disk.store, &self.cache.kept);
        }
        self.plugged_later.note(self.which, &self.disk.store);
    }
}

/// Has the disks of a port know that such a command of it has ended, if it has disks.
pub fn note_end_of<S: SectorStore>(
    bays: &mut Vec<Option<Bay<S>>>,
    port: usize,
    operation: Operation,
)
    ensures { OnlyEndsCommand operation port bays.old.items bays.new.items }
{
    if port < bays.len() {
        if let Some(bay) = &mut bays[port] {
            bay.end(operation);
        }
    }
}

/// Has the log of a port's disks name this command, if it has disks.
pub fn log_failed<S: SectorStore>(bays: &mut Vec<Option<Bay<S>>>, port: usize, failed: LoggedError)
    ensures { OnlyChangesPageSource (with_logged_error failed) port bays.old.items bays.new.items }
{
    if port < bays.len() {
        if let Some(bay) = &mut bays[port] {
            bay.log_failed(failed);
        }
    }
}

/// Has them lie of a byte of a page once more.
pub fn add_lie_of<S: SectorStore>(
    bays: &mut Vec<Option<Bay<S>>>,
    port: usize,
    page: DiskPage,
    offset: usize,
    bits: u8,
)
    requires { offset < 512 }
    ensures { OnlyChangesPageSource (with_lie page offset bits) port bays.old.items bays.new.items }
{
    if port < bays.len() {
        if let Some(bay) = &mut bays[port] {
            bay.lie(page, offset, bits);
        }
    }
}

/// Has them tell no lies any more.
pub fn end_lies<S: SectorStore>(bays: &mut Vec<Option<Bay<S>>>, port: usize)
    ensures { OnlyChangesPageSource without_lies port bays.old.items bays.new.items }
{
    if port < bays.len() {
        if let Some(bay) = &mut bays[port] {
            bay.tell_truth();
        }
    }
}
