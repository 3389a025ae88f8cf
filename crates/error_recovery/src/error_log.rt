//! Reads the page of log 10h, by which a disk tells which queued command failed.
//!
//! (ACS-3, A.14.) It knows no port. A page may lie, so a caller has to see whether the command that
//! it names is outstanding.
ghost use Rattle.std.specs.Prelude.{ℕ, ◌≡◌, ◌↔◌, Some, None};
ghost use Rattle.error_recovery.specs.ErrorLog.{NamesQueuedCommand, NamesNoQueuedCommand};

use identify::sum_of;

/// Bit 7 of byte 0, NQ: the command that failed wasn't queued.
const NOT_QUEUED: u8 = 0x80;

/// Bits 4:0 of byte 0: the tag.
const TAGS: u8 = 32;

/// Which queued command failed, by the 512 bytes of page 0 of log 10h (ACS-3, A.14): its tag, 0 to 31 (bits 4:0 of byte
/// 0), its status (byte 2; ACS-3, 6.2) and its error (byte 3; ACS-3, 6.3). `None` if the bytes don't sum to 0 modulo
/// 256, or NQ (bit 7 of byte 0) is one. No other byte is looked at but for the sum.
pub fn parse_log(page: &[u8; 512]) -> Option<(u8, u8, u8)>
    ensures failure_is_named { (tag status error : ℕ) → result ≡ Some (tag, status, error)
        ↔ NamesQueuedCommand page.now tag status error }
    ensures no_failure_is_named { result ≡ None ↔ NamesNoQueuedCommand page.now }
{
    if sum_of(page) % 256 != 0 || page[0] & NOT_QUEUED != 0 {
        return None;
    }
    Some((page[0] % TAGS, page[2], page[3]))
}
