//! Reads the page by which a disk tells what it is.
//!
//! `parse` reads the page of IDENTIFY DEVICE (ACS-3, 7.12.7), and tells the first of six causes
//! why a disk is unfit. It takes any 512 bytes. `Wanted` says which disk a port is to have.
#![tactic(auto)]

ghost use Rattle.std.specs.{Prelude.{◌≡◌, ◌<◌, ◌↔◌, IsTrue, IfOk, IfErr, sum}, Int.{bit_at}};
ghost use Rattle.identify.specs.IdentityPage.{ZeroesAfterTrim, UnfitApplies, Describes, IsFitPage, IsFirstUnfit, IsSerial, unfit_number, sector_count, identity_word};

mod wanted;

use byteorder::{ByteOrder, LittleEndian};
use thiserror::Error;
pub use wanted::Wanted;

/// Why a disk can't be used, in the order in which the causes are told (this project's own).
#[derive(Clone, Copy, PartialEq, Eq, Debug, Error)]
pub enum Unfit {
    /// The page has a checksum, and the sum of its bytes isn't 0 modulo 256 (word 255).
    #[error("the checksum of the IDENTIFY DEVICE page is wrong")]
    BadChecksum,
    /// Bits 15:14 of word 83 aren't 01, so the word isn't valid.
    #[error("word 83 of the IDENTIFY DEVICE page isn't valid")]
    Word83,
    /// The 48-bit Address feature set isn't supported (word 83, bit 10).
    #[error("the disk has no 48-bit addresses")]
    No48Bit,
    /// Logical sectors have more than 256 words (word 106, bits 15:14 and 12).
    #[error("the disk's sectors don't have 512 bytes")]
    SectorSize,
    /// FLUSH CACHE EXT isn't supported (word 83, bit 13).
    #[error("the disk has no FLUSH CACHE EXT")]
    NoFlush,
    /// The number of sectors is 0 or above 2^48 (words 100 to 103).
    #[error("the disk has no sectors, or too many")]
    NoSectors,
}

impl Unfit {
    /// Every cause, in the order in which they are told.
    pub const ORDER: [Unfit; 6] = [
        Unfit::BadChecksum,
        Unfit::Word83,
        Unfit::No48Bit,
        Unfit::SectorSize,
        Unfit::NoFlush,
        Unfit::NoSectors,
    ];

    /// The cause's number, 1 to 6: the lowest that applies is told.
    pub fn number(self) -> u8
        ensures { result ≡ unfit_number self }
    {
        match self {
            Unfit::BadChecksum => 1,
            Unfit::Word83 => 2,
            Unfit::No48Bit => 3,
            Unfit::SectorSize => 4,
            Unfit::NoFlush => 5,
            Unfit::NoSectors => 6,
        }
    }
}

/// What a driver needs to know of a disk.
#[derive(Clone, Copy, PartialEq, Eq, Debug)]
pub struct DiskInfo {
    /// The serial number as text, filled with spaces: words 10 to 19, of each the character in the high byte first.
    pub serial: [u8; 20],
    /// How many queued commands the disk holds at most, 1 to 32 (word 75).
    pub depth: u8,
    /// Whether it supports native command queuing (word 76, bit 8).
    pub ncq: bool,
    /// Its number of sectors, 1 to 2^48 (words 100 to 103).
    pub sectors: u64,
    /// Whether it trims, and its trimmed sectors read as zeros (words 169, 69 and 105).
    pub trim: bool,
}

/// The highest number of sectors that 48-bit addresses reach, and that is taken for fit.
const MOST_SECTORS: u64 = 1 << 48;

/// The page's word of this number.
fn word_of(page: &[u8; 512], number: usize) -> u16
    requires { number < 256 }
    ensures { result ≡ identity_word page.now number }
{
    LittleEndian::read_u16(&page[2 * number..])
}

/// Whether a word's bit is one.
fn has_bit(identity_word: u16, place: u32) -> bool
    requires { place < 16 }
    ensures { IsTrue result ↔ (bit_at identity_word place ≡ 1) }
{
    identity_word >> place & 1 == 1
}

/// The sum of a page's bytes, by which its checksum is judged (ACS-3, 7.12.7 and A.14).
pub fn sum_of(page: &[u8; 512]) -> u32
    ensures { result ≡ sum page.now }
{
    let mut total = 0;
    for byte in page {
        total += u32::from(*byte);
    }
    total
}

/// The serial number: each word has its first character in the high byte.
fn serial_of(page: &[u8; 512]) -> [u8; 20]
    ensures { IsSerial page.now result }
{
    let mut serial = [0; 20];
    for pair in 0..10 {
        serial[2 * pair] = page[21 + 2 * pair];
        serial[2 * pair + 1] = page[20 + 2 * pair];
    }
    serial
}

/// The disk's number of sectors.
fn sectors_of(page: &[u8; 512]) -> u64
    ensures { result ≡ sector_count page.now }
{
    u64::from(word_of(page, 100))
        + (u64::from(word_of(page, 101)) << 16)
        + (u64::from(word_of(page, 102)) << 32)
        + (u64::from(word_of(page, 103)) << 48)
}

/// Whether the disk trims, and reads zeros after it.
fn has_trim(page: &[u8; 512]) -> bool
    ensures { IsTrue result ↔ ZeroesAfterTrim page.now }
{
    let support = word_of(page, 69);
    has_bit(word_of(page, 169), 0)
        && has_bit(support, 14)
        && has_bit(support, 5)
        && word_of(page, 105) >= 1
}

/// Whether the page has this fault.
fn applies(page: &[u8; 512], fault: Unfit) -> bool
    ensures { IsTrue result ↔ UnfitApplies page.now fault }
{
    match fault {
        Unfit::BadChecksum => page[510] == 0xa5 && sum_of(page) % 256 != 0,
        Unfit::Word83 => word_of(page, 83) >> 14 != 1,
        Unfit::No48Bit => !has_bit(word_of(page, 83), 10),
        Unfit::SectorSize => {
            let sizes = word_of(page, 106);
            sizes >> 14 == 1 && has_bit(sizes, 12)
        }
        Unfit::NoFlush => !has_bit(word_of(page, 83), 13),
        Unfit::NoSectors => {
            let sectors = sectors_of(page);
            sectors == 0 || sectors > MOST_SECTORS
        }
    }
}

/// What the page tells of a disk that is fit.
fn info_of(page: &[u8; 512]) -> DiskInfo
    ensures { Describes page.now result }
{
    DiskInfo {
        serial: serial_of(page),
        depth: (word_of(page, 75) % 32) as u8 + 1,
        ncq: has_bit(word_of(page, 76), 8),
        sectors: sectors_of(page),
        trim: has_trim(page),
    }
}

/// What the 512 bytes of an IDENTIFY DEVICE page tell of the disk (ACS-3, 7.12.7). Where causes make it unfit for this
/// server, the one with the lowest number is told (this project's own).
pub fn parse(page: &[u8; 512]) -> Result<DiskInfo, Unfit>
    ensures unfit { IfErr result (IsFirstUnfit page.now) }
    ensures fit { IfOk result (λ _. IsFitPage page.now) }
    ensures info { IfOk result (Describes page.now) }
{
    for fault in Unfit::ORDER {
        if applies(page, fault) {
            return Err(fault);
        }
    }
    Ok(info_of(page))
}
