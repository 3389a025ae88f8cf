// A file as sectors, some of which are read ahead.
ghost use Rattle.std.specs.Prelude.{◌≡◌, ◌<◌, ◌≤◌, ◌+◌, ◌-◌, ◌*◌, ◌^◌, IfOk, length, take, true, false};
ghost use Rattle.sector_store.specs.{declared.sector_file.TheConstants.{MOST_SECTORS, QUARTER_BYTES}, Stores.{IsSectorBytes, first_untaken_sector}};

use std::alloc::{AllocError, Global};
use std::fs::File;
use std::os::unix::fs::FileExt;

const SECTOR_BYTES: u64 = 512;

/// How many bytes of a sector are copied at once. Compiled code copies so few in place, and more of them by a call.
const QUARTER_BYTES: usize = 128;

/// How many sectors one call reads at the most. More at once would save about a twentieth of the time.
const MOST_SECTORS: usize = 64;

/// A file whose sector k begins at byte 512 k, with a room for sectors that are read ahead. The file is reached through
/// this alone, and each call but `copy_next` forgets what is left there: so no bytes are given that were read before
/// the last write, or before the run of `copy_next` in which they are given.
#[derive(Drop)]
pub struct SectorFile {
    file: File,
    /// Those that are left of the sectors that were read last stand at its end.
    room: Vec<[u8; 512]>,
    /// The first of those that are left.
    next: u64,
    /// The one behind the last of them. None is left where it isn't above `next`.
    end: u64,
    ghost whole: { length room.items ≡ MOST_SECTORS },
    ghost few: { end ≤ next + MOST_SECTORS },
}

/// The byte of the file at which a sector begins.
fn place_of(sector: u64) -> u64
    requires { 512 * sector < 2 ^ 64 }
    ensures { result ≡ 512 * sector }
{
    SECTOR_BYTES * sector
}

/// Copies the bytes of a quarter of a sector.
#[inline(always)]
fn copy_part(from: &[u8], to: &mut [u8])
    requires from { length from.now ≡ QUARTER_BYTES }
    requires to { length to.old ≡ QUARTER_BYTES }
    ensures { to.new ≡ from.now }
{
    let Some(from) = from.as_array::<QUARTER_BYTES>() else {
        unreachable!()
    };
    let Some(to) = to.as_mut_array() else {
        unreachable!()
    };
    *to = *from;
}

/// Copies a quarter of a sector, which begins here, where all before it is copied.
#[inline(always)]
fn copy_quarter(bytes: &[u8], out: &mut [u8; 512], at: usize)
    requires long { length bytes.now ≡ 512 }
    requires within { at + QUARTER_BYTES ≤ 512 }
    requires before { take at out.old ≡ take at bytes.now }
    ensures { take (at + QUARTER_BYTES) out.new ≡ take (at + QUARTER_BYTES) bytes.now }
{
    copy_part(
        &bytes[at..at + QUARTER_BYTES],
        &mut out[at..at + QUARTER_BYTES],
    );
}

/// Copies the bytes of a sector.
#[inline(always)]
pub(crate) fn copy(bytes: &[u8], out: &mut [u8; 512])
    requires { length bytes.now ≡ 512 }
    ensures same { out.new ≡ bytes.now }
    ensures bytes { IsSectorBytes out.new }
{
    copy_quarter(bytes, out, 0);
    copy_quarter(bytes, out, QUARTER_BYTES);
    copy_quarter(bytes, out, 2 * QUARTER_BYTES);
    copy_quarter(bytes, out, 3 * QUARTER_BYTES);
}

impl SectorFile {
    /// One over an open file, of which nothing is read yet.
    pub fn new(alloc: Global, file: File) -> Result<SectorFile, AllocError>
        ensures { IfOk result (λ made. made.end ≡ 0) }
    {
        Ok(SectorFile {
            file,
            room: vec![in alloc; [0; 512]; MOST_SECTORS]?,
            next: 0,
            end: 0,
        })
    }

    /// Reads so many sectors from this one on into the room by one call. What was left there is forgotten.
    fn fill(&mut self, sector: u64, count: usize) -> bool
        requires few { (1 ≤ count) × (count ≤ MOST_SECTORS) }
        requires low { 512 * (sector + count) ≤ 2 ^ 64 }
        ensures holds { result ≡ true → (self.new.next ≡ sector) × (self.new.end ≡ sector + count) }
        ensures forgets { result ≡ false → self.new.end ≡ 0 }
        ensures others { take (MOST_SECTORS - count) self.new.room.items
            ≡ take (MOST_SECTORS - count) self.old.room.items }
    {
        let begin = self.room.len() - count;
        let done = self
            .file
            .read_exact_at(self.room[begin..].as_flattened_mut(), place_of(sector))
            .is_ok();
        self.next = sector;
        self.end = if done { sector + count as u64 } else { 0 };
        done
    }

    /// Copies this sector out of the room, if it is the first one that is left there. It stands in its callers' code,
    /// since it is asked for each sector.
    #[inline(always)]
    pub fn copy_next(&mut self, sector: u64, out: &mut [u8; 512]) -> bool
        ensures copies_only_next { result ≡ true → (sector ≡ self.old.next) × (sector < self.old.end)
            × (out.new ≡ first_untaken_sector self.old.room.items (self.old.end - sector)) }
        ensures bytes { result ≡ true → IsSectorBytes out.new }
        ensures out_is_kept_if_not_next { result ≡ false → out.new ≡ out.old }
        ensures next_is_after { result ≡ true → self.new.next ≡ sector + 1 }
        ensures room_is_kept { (self.new.end ≡ self.old.end) × (self.new.room.items ≡ self.old.room.items) }
        ensures next_is_copied { sector ≡ self.old.next → sector < self.old.end → result ≡ true }
    {
        if sector != self.next || sector >= self.end {
            return false;
        }
        let at = self.room.len() - (self.end - sector) as usize;
        copy(&self.room[at], out);
        self.next = sector + 1;
        true
    }

    /// Copies a sector, which alone is read.
    pub fn read(&mut self, sector: u64, out: &mut [u8; 512]) -> bool
        requires { 512 * (sector + 1) ≤ 2 ^ 64 }
        ensures bytes { result ≡ true → IsSectorBytes out.new }
        ensures out_is_kept_if_failed { result ≡ false → out.new ≡ out.old }
        ensures read_ahead_is_forgotten { self.new.end ≤ self.new.next }
        ensures end { self.new.end ≤ sector + 1 }
        ensures copies_sector { result ≡ true → (self.new.next ≡ sector + 1) × (self.new.end ≡ sector + 1)
            × (out.new ≡ first_untaken_sector self.new.room.items 1) }
    {
        self.fill(sector, 1) && self.copy_next(sector, out)
    }

    /// Copies a sector, of which so many behind it are there, too, and are taken next. If they can't be read at once,
    /// it is read alone.
    #[inline(never)]
    pub fn read_with_following(&mut self, sector: u64, ahead: u64, out: &mut [u8; 512]) -> bool
        requires { 512 * (sector + ahead + 1) ≤ 2 ^ 64 }
        ensures bytes { result ≡ true → IsSectorBytes out.new }
        ensures out_is_kept_if_failed { result ≡ false → out.new ≡ out.old }
        ensures failed_read_forgets_ahead { result ≡ false → self.new.end ≤ self.new.next }
        ensures end { self.new.end ≤ sector + ahead + 1 }
        ensures next { result ≡ true → (self.new.next ≡ sector + 1) × (self.new.next ≤ self.new.end) }
        ensures copies_sector { result ≡ true
            → out.new ≡ first_untaken_sector self.new.room.items (self.new.end - sector) }
    {
        let count = 1 + ahead.min(MOST_SECTORS as u64 - 1) as usize;
        if self.fill(sector, count) {
            return self.copy_next(sector, out);
        }
        count > 1 && self.read(sector, out)
    }

    /// Replaces a sector.
    pub fn write(&mut self, sector: u64, bytes: &[u8; 512]) -> bool
        requires { 512 * sector < 2 ^ 64 }
        ensures read_ahead_is_forgotten { self.new.end ≡ 0 }
    {
        self.end = 0;
        self.file.write_all_at(bytes, place_of(sector)).is_ok()
    }
}
