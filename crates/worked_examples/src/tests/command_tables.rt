// Bytes worked out by hand from AHCI 1.3.1, 4.2.2, ACS-3 and Serial ATA. What a server stores, whole tables among it,
// its own tests show.
ghost use Rattle.command_table.specs.FrameRuns.{FillFrames};

use adapter::{Command, Prd};
use arrayvec::ArrayVec;
use ata_types::{ClientId, Frame, MOST_REQUEST_FRAMES, RequestId};
use command_table::{header, prds};
use dma_frames::FrameTable;
use fis::encode_h2d;
use std::test::Fail;

/// The FIS of a command with these fields: code, features, count, LBA and device.
fn fis((code, features, count, lba, device): (u8, u16, u16, u32, u8)) -> [u8; 20] {
    encode_h2d(&Command {
        code,
        features,
        count,
        lba: u64::from(lba),
        device,
    })
}

/// The bytes of a FIS of these double words, each from its lowest byte on, and a fifth of zeros.
fn bytes_of(words: [u32; 4]) -> [u8; 20] {
    let mut bytes = [0; 20];
    for place in 0..4 {
        bytes[4 * place..4 * place + 4].copy_from_slice(&words[place].to_le_bytes());
    }
    bytes
}

/// The second double word at sector 100: the LBA's lower half, and 40h of the device.
const AT_100: u32 = 0x4000_0064;

/// Code, features, count, LBA and device; and the FIS's double words, as Serial ATA draws them.
static COMMANDS: [((u8, u16, u16, u32, u8), [u32; 4]); 11] = [
    // READ FPDMA QUEUED of 8 sectors at 100 in slot 0, of 256 in slot 5, and of 1024 in slot 31
    ((0x60, 8, 0, 100, 64), [0x0860_8027, AT_100, 0, 0]),
    ((0x60, 256, 40, 100, 64), [0x0060_8027, AT_100, 1 << 24, 40]),
    (
        (0x60, 1024, 248, 100, 64),
        [0x0060_8027, AT_100, 4 << 24, 248],
    ),
    // WRITE FPDMA QUEUED of 3 sectors at 100 in slot 0
    ((0x61, 3, 0, 100, 64), [0x0361_8027, AT_100, 0, 0]),
    // READ DMA EXT of 8 sectors at 100, and of 256
    ((0x25, 0, 8, 100, 64), [0x0025_8027, AT_100, 0, 8]),
    ((0x25, 0, 256, 100, 64), [0x0025_8027, AT_100, 0, 256]),
    // WRITE DMA EXT of 1024 sectors at 100, and of 3
    ((0x35, 0, 1024, 100, 64), [0x0035_8027, AT_100, 0, 1024]),
    ((0x35, 0, 3, 100, 64), [0x0035_8027, AT_100, 0, 3]),
    // DATA SET MANAGEMENT with TRIM and one block, IDENTIFY DEVICE, and FLUSH CACHE EXT
    ((0x06, 1, 1, 0, 0), [0x0106_8027, 0, 0, 1]),
    ((0xec, 0, 0, 0, 0), [0x00ec_8027, 0, 0, 0]),
    ((0xea, 0, 0, 0, 0), [0x00ea_8027, 0, 0, 0]),
];

#[test]
fn commands_are_spelled(rt: HostRuntime) {
    for (fields, words) in COMMANDS {
        assert_eq!(rt; fis(fields), bytes_of(words), "{fields:?}");
    }
}

/// Name, whether the device reads memory, the entries, the place of the table, the first bytes of the header,
/// and bytes 8 and 9.
static HEADERS: &[(&str, bool, u16, u32, [u8; 4], [u8; 2])] = &[
    (
        "a trim of one block",
        true,
        1,
        0x1000,
        [0x45, 0, 1, 0],
        [0, 0x10],
    ),
    (
        "a read into 32 frames in slot 5",
        false,
        32,
        0x3a80,
        [5, 0, 0x20, 0],
        [0x80, 0x3a],
    ),
    (
        "a read into two runs of frames",
        false,
        2,
        0x1000,
        [5, 0, 2, 0],
        [0, 0x10],
    ),
    ("a flush", false, 0, 0x1000, [5, 0, 0, 0], [0, 0x10]),
];

// The table of slot 0 stands at 1000h, and that of slot 5 at 3A80h.
#[test]
fn headers_are_spelled(rt: HostRuntime) {
    for (name, writes, entries, table, first, place) in HEADERS {
        let mut bytes = [0; 32];
        bytes[..4].copy_from_slice(first);
        bytes[8..10].copy_from_slice(place);
        // (a table stands at a multiple of 128)
        if *table % 128 == 0 {
            let found = header(*writes, *entries, *table);
            assert_eq!(rt; found, bytes, "{name}");
        } else {
            assert!(rt; false, "{name}");
        }
    }
}

/// An entry of so many bytes from a place on.
fn entry(address: u32, bytes: u32) -> Prd {
    Prd { address, bytes }
}

/// The entries of so many bytes of these frames, once they are lent.
fn entries_of(frames: &[Frame], bytes: u32) -> Result<ArrayVec<Prd, MOST_REQUEST_FRAMES>, Fail>
    requires { FillFrames frames.now bytes }
{
    let owner = ClientId(1);
    let mut table = FrameTable::new(&[(owner, Frame(76), 40)]);
    match table.check(owner, frames) {
        Ok(()) => {
            let loan = table.lend(owner, frames, RequestId(1));
            let entries = prds(&loan, bytes);
            table.give_back(loan);
            Ok(entries)
        }
        Err(_) => Err(Fail::from("refused")),
    }
}

// Frames share an entry where each follows the one before it. Frame 76 begins at 4C000h.
#[test]
fn neighbouring_frames_share_an_entry(rt: HostRuntime) -> Result<(), Fail> {
    let three = entries_of(&[Frame(76), Frame(77), Frame(78)], 17 * 512)?;
    assert_eq!(rt; three.as_slice(), [entry(0x4_c000, 0x2200)].as_slice());
    let parted = entries_of(&[Frame(76), Frame(77), Frame(79)], 24 * 512)?;
    let wanted = [entry(0x4_c000, 0x2000), entry(0x4_f000, 0x1000)];
    assert_eq!(rt; parted.as_slice(), wanted.as_slice());
    let falling = entries_of(&[Frame(77), Frame(76)], 16 * 512)?;
    let wanted = [entry(0x4_d000, 0x1000), entry(0x4_c000, 0x1000)];
    assert_eq!(rt; falling.as_slice(), wanted.as_slice());
    Ok(())
}
