// A disk over an open file.
ghost use Rattle.std.specs.Prelude.{◌≡◌, ◌↔◌, ◌<◌, ◌≤◌, ◌*◌, ◌/◌, ◌^◌, Some, None, IsTrue, true, false};
ghost use Rattle.sector_store.specs.Stores.{HasRecordAndNotesOneMoreFailure, IsSectorBytes};

use crate::sector_file::SectorFile;
use crate::{Failures, SectorStore};
use std::alloc::Global;
use std::fs::{File, Files, OpenOptions, TryLockError};
use std::io::{self, Seek, SeekFrom};

const SECTOR_BYTES: u64 = 512;

/// The whole sectors that a file or a block device has when it is opened. The system's calls promise nothing of what a
/// file holds, nor of where they read and write; so it tells no sectors, and any call may fail. Sector k begins at byte
/// 512 k of the file. Others may change the file meanwhile, and then their bytes are read, but of sectors that were
/// read ahead. Where they cut it, reads of the sectors that are gone fail, and a write to one makes the file longer
/// again.
#[derive(Drop)]
pub struct FileStore {
    file: SectorFile,
    sectors: u64,
    /// For contracts alone.
    failures: Failures,
    ghost few: { sectors < 2 ^ 64 },
    ghost within_offsets: { sectors * 512 < 2 ^ 64 },
    ghost inside: { file.end ≤ sectors },
}

impl FileStore {
    /// Opens a file or a block device that is there for reading and writing, and locks it until the store is dropped:
    /// where another holds its lock, the error is `WouldBlock`. The lock binds those who ask for it. Where the file
    /// system says that it knows none (`Unsupported`), the file is opened without. The end of a file that isn't a whole
    /// sector is left alone. Where memory for what is read ahead is refused, the error is `OutOfMemory`. Another one,
    /// of the lock's too, is the system's own.
    pub fn open(
        alloc: Global,
        files: &impl Files<File = File>,
        path: &str,
    ) -> io::Result<FileStore> {
        let mut file = OpenOptions::new().read(true).write(true).open(files, path)?;
        match file.try_lock() {
            Err(TryLockError::WouldBlock) => {
                return Err(io::Error::from(io::ErrorKind::WouldBlock));
            }
            Err(TryLockError::Error(error)) if error.kind() != io::ErrorKind::Unsupported => {
                return Err(error);
            }
            Ok(()) | Err(TryLockError::Error(_)) => {}
        }
        // A block device's own length is told as 0; its end is where the sectors end.
        let bytes = file.seek(SeekFrom::End(0))?;
        Ok(FileStore::over(SectorFile::new(alloc, file)?, bytes))
    }

    /// The whole sectors of a file of so many bytes.
    fn over(file: SectorFile, bytes: u64) -> FileStore
        requires { file.end ≡ 0 }
        ensures { result.sectors ≡ bytes / 512 }
    {
        FileStore {
            file,
            sectors: bytes / SECTOR_BYTES,
            failures: Failures {
                failed_calls: 0,
                last_sector: 0,
                last_is_write: false,
            },
        }
    }

    /// Whether the sector is there.
    fn has(&self, sector: u64) -> bool
        ensures { IsTrue result ↔ sector < self.now.sectors }
    {
        sector < self.sectors
    }

    /// Notes a read or a write of a sector that is there, if it failed.
    fn note(&mut self, is_write: bool, sector: u64, done: bool)
        ensures same { done ≡ true → self.new.failures ≡ self.old.failures }
        ensures fails { done ≡ false → HasRecordAndNotesOneMoreFailure is_write sector (Some self.old.failures)
            (Some self.new.failures) }
        ensures sectors { self.new.sectors ≡ self.old.sectors }
    {
        if !done {
            self.failures = Failures {
                failed_calls: self.failures.failed_calls.wrapping_add(1),
                last_sector: sector,
                last_is_write: is_write,
            };
        }
    }
}

impl SectorStore for FileStore {
    ghost size = { λ s. s.sectors };

    ghost told = { λ _. None };

    ghost failures = { λ s. Some s.failures };

    ghost told_sectors_are_valid = { λ _. tt };

    ghost fits = { λ s. s.few };

    fn sectors(&self) -> u64 {
        self.sectors
    }

    fn read(&mut self, sector: u64, out: &mut [u8; 512]) -> bool {
        if !self.has(sector) {
            return false;
        }
        let done = self.file.read(sector, out);
        self.note(false, sector, done);
        done
    }

    /// Where it isn't the next one of those that were fetched, it and those behind it are fetched by one call of the
    /// system.
    #[inline(always)]
    fn read_ahead(&mut self, sector: u64, ahead: u32, out: &mut [u8; 512]) -> bool {
        if self.file.copy_next(sector, out) {
            return true;
        }
        if !self.has(sector) {
            return false;
        }
        let behind = self.sectors - sector - 1;
        let done = self
            .file
            .read_with_following(sector, behind.min(u64::from(ahead)), out);
        self.note(false, sector, done);
        done
    }

    fn write(&mut self, sector: u64, bytes: &[u8; 512]) -> bool {
        if !self.has(sector) {
            return false;
        }
        let done = self.file.write(sector, bytes);
        self.note(true, sector, done);
        done
    }
}
