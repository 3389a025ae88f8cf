// Whether bytes of memory are taken for the same.
ghost use Rattle.std.specs.Prelude.{◌≡◌, ◌↔◌, ◌<◌, ◌≤◌, IsTrue, MatchOption, length, true};
ghost use Rattle.followed.specs.ComparedBytes.{ArePagesOfOneDisk, AreTakenForSame, IsFirstDifference, IsScratchFrame, ReadSame};

use ata_types::{DRIVER_BYTES, DRIVER_BYTES_PER_PORT, SCRATCH_OFFSET};
use identify::{DiskInfo, parse};

const PAGE_BYTES: usize = 512;

/// The first place in which two runs of bytes, of one length, differ.
fn first_difference(shown: &[u8], said: &[u8]) -> Option<usize>
    requires { length shown.now ≡ length said.now }
    ensures { MatchOption result (shown.now ≡ said.now) (IsFirstDifference shown.now said.now) }
{
    for place in 0..shown.len() {
        if shown[place] != said[place] {
            return Some(place);
        }
    }
    None
}

/// Whether a port's scratch frame begins at this address.
fn is_scratch_frame(address: u32) -> bool
    ensures { IsTrue result ↔ IsScratchFrame address }
{
    address < DRIVER_BYTES && address % DRIVER_BYTES_PER_PORT == SCRATCH_OFFSET
}

/// Whether the same is known of two disks.
fn is_same_disk(shown: &DiskInfo, said: &DiskInfo) -> bool
    ensures { result ≡ true → shown.now ≡ said.now }
{
    shown == said
}

/// Whether `identify` finds a disk fit by two pages of IDENTIFY DEVICE, and reads the same in both.
fn read_same(shown: &[u8; PAGE_BYTES], said: &[u8; PAGE_BYTES]) -> bool
    ensures { result ≡ true → ReadSame shown.now said.now }
{
    let Ok(of_model) = parse(shown) else {
        return false;
    };
    let Ok(of_peer) = parse(said) else {
        return false;
    };
    is_same_disk(&of_model, &of_peer)
}

/// Whether two pages of IDENTIFY DEVICE, in a port's scratch frame, are the same to the server. It decides by what
/// `identify` reads in them, and by nothing else.
fn are_pages_of_one_disk(address: u32, shown: &[u8], said: &[u8]) -> bool
    ensures { result ≡ true → ArePagesOfOneDisk address shown.now said.now }
{
    if !is_scratch_frame(address) {
        return false;
    }
    let Ok(of_model) = <&[u8; PAGE_BYTES]>::try_from(shown) else {
        return false;
    };
    let Ok(of_peer) = <&[u8; PAGE_BYTES]>::try_from(said) else {
        return false;
    };
    read_same(of_model, of_peer)
}

/// The first place in which bytes of memory, from this address on, differ, unless they are taken for the same.
pub fn first_stray(address: u32, shown: &[u8], said: &[u8]) -> Option<usize>
    requires { length shown.now ≡ length said.now }
    ensures { MatchOption result (AreTakenForSame address shown.now said.now) (IsFirstDifference shown.now said.now) }
{
    let place = first_difference(shown, said)?;
    if are_pages_of_one_disk(address, shown, said) {
        None
    } else {
        Some(place)
    }
}
