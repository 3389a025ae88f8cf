// What the block of a trim means, as the device reads it (ACS-3, 7.5).
ghost use Rattle.std.specs.Prelude.{◌≡◌, ◌≢◌, ◌⊎◌, ◌+◌, ◌-◌, ◌*◌, ◌^◌, ◌<◌, ◌≤◌, length, min, take, drop, slice_index};
ghost use Rattle.byteorder.specs.Endian.{little_from};
ghost use Rattle.adapter.specs.Trim.{trim_sectors};
ghost use Rattle.device_model.specs.Trims.{first_run_length, run_count_of};

use byteorder::{ByteOrder, LittleEndian};

/// Bytes of an entry: six of its first sector, and two of how many it names.
const ENTRY_BYTES: usize = 8;

/// Sectors that follow one another.
#[derive(Clone, Copy, Debug)]
pub struct SectorExtent {
    pub first: u64,
    pub count: u32,
}

impl SectorExtent {
    /// Those of it that are on a disk of so many sectors.
    pub fn cut(self, sectors: u64) -> SectorExtent
        ensures inside { result.first + result.count ≤ sectors }
        ensures count { result.count ≡ min self.count (sectors - self.first) }
        ensures first { 1 ≤ result.count → result.first ≡ self.first }
    {
        let room = sectors.saturating_sub(self.first);
        SectorExtent {
            first: self.first.min(sectors),
            count: u64::from(self.count).min(room) as u32,
        }
    }
}

/// The sectors of the entry at this place of a block.
fn entry_at(block: &[u8], place: usize) -> SectorExtent
    requires { 8 * place + 8 ≤ length block.now }
    ensures first { result.first ≡ little_from (8 * place) 6 block.now }
    ensures count { result.count ≡ little_from (8 * place + 6) 2 block.now }
    ensures range { (result.first < 2 ^ 48) × (result.count < 2 ^ 16) }
{
    let at = ENTRY_BYTES * place;
    SectorExtent {
        first: LittleEndian::read_u48(&block[at..]),
        count: u32::from(LittleEndian::read_u16(&block[at + 6..])),
    }
}

/// How many sectors a block names.
pub fn count_sectors(block: &[u8]) -> u32
    requires { length block.now ≤ 512 }
    ensures { result ≡ length (trim_sectors block.now) }
{
    let mut count = 0;
    for place in 0..block.len() / ENTRY_BYTES {
        count += entry_at(block, place).count;
    }
    count
}

/// The sectors of a block behind so many, as far as they follow one another, and so many at the most.
pub fn next_run(block: &[u8], cleared: u32, most: u32) -> SectorExtent
    requires { length block.now ≤ 512 }
    ensures count { result.count ≡ first_run_length (take most (drop cleared (trim_sectors block.now))) }
    ensures count_is_allowed { result.count ≤ most }
    ensures fits { 1 ≤ result.count → cleared + result.count < 2 ^ 32 }
    ensures first { 1 ≤ result.count → result.first ≡ slice_index (drop cleared (trim_sectors block.now)) 0 }
{
    let mut skip = cleared;
    let mut run = SectorExtent { first: 0, count: 0 };
    for place in 0..block.len() / ENTRY_BYTES {
        let entry = entry_at(block, place);
        if entry.count <= skip {
            skip -= entry.count;
        } else if run.count == 0 {
            run.first = entry.first + u64::from(skip);
            run.count = (entry.count - skip).min(most);
            skip = 0;
        } else if run.first + u64::from(run.count) == entry.first {
            run.count += entry.count.min(most - run.count);
        } else {
            return run;
        }
    }
    run
}

/// How many runs there are with the one that a sector is in, behind so many, of which the last, if there is one, ends
/// at this next sector.
fn runs_with(runs: u32, next: u64, first: u64) -> u32
    requires { runs + 1 < 2 ^ 32 }
    ensures begins { (runs ≡ 0) ⊎ ((runs ≢ 0) × (first ≢ next)) → result ≡ runs + 1 }
    ensures goes_on { runs ≢ 0 → first ≡ next → result ≡ runs }
{
    if runs == 0 || first != next {
        runs + 1
    } else {
        runs
    }
}

/// In how many runs the sectors of a block behind so many are.
pub fn count_runs(block: &[u8], cleared: u32) -> u32
    requires { length block.now ≤ 512 }
    ensures { result ≡ run_count_of (drop cleared (trim_sectors block.now)) }
{
    let mut skip = cleared;
    let mut runs = 0;
    let mut next = 0;
    for place in 0..block.len() / ENTRY_BYTES {
        let entry = entry_at(block, place);
        if entry.count <= skip {
            skip -= entry.count;
        } else {
            runs = runs_with(runs, next, entry.first);
            next = entry.first + u64::from(entry.count);
            skip = 0;
        }
    }
    runs
}
