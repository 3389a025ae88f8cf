// Blocks of trims, worked out by hand from ACS-3: an entry has six bytes of a first sector and two of how many, lowest
// byte first.
use ata_types::{Range, Sector};
use flush_trim::trim_block;

/// Name, first sector, how many sectors, and the block's entries up to its zeros.
static BLOCKS: &[(&str, u64, u32, &[[u8; 8]])] = &[
    ("no sector", 1000, 0, &[]),
    ("no sector, past all that there may be", u64::MAX, 0, &[]),
    ("one sector", 1000, 1, &[[0xe8, 3, 0, 0, 0, 0, 1, 0]]),
    (
        "as many as an entry names",
        1000,
        65_535,
        &[[0xe8, 3, 0, 0, 0, 0, 0xff, 0xff]],
    ),
    (
        "one more than an entry names",
        1000,
        65_536,
        &[
            [0xe8, 3, 0, 0, 0, 0, 0xff, 0xff],
            [0xe7, 3, 1, 0, 0, 0, 1, 0],
        ],
    ),
    (
        "one less than two entries name",
        0,
        131_069,
        &[
            [0, 0, 0, 0, 0, 0, 0xff, 0xff],
            [0xff, 0xff, 0, 0, 0, 0, 0xfe, 0xff],
        ],
    ),
    (
        "the last sector that there may be",
        0xffff_ffff_ffff,
        1,
        &[[0xff, 0xff, 0xff, 0xff, 0xff, 0xff, 1, 0]],
    ),
];

/// The block, where a trim may be of these sectors.
fn block_of(first: u64, count: u32) -> Option<[u8; 512]> {
    if count > 4_194_240 || (count > 0 && u128::from(first) + u128::from(count) > 1 << 48) {
        return None;
    }
    Some(trim_block(Range {
        first: Sector(first),
        count,
    }))
}

#[test]
fn ranges_are_cut_from_their_front(rt: HostRuntime) {
    for (name, first, count, entries) in BLOCKS {
        let mut bytes = [0; 512];
        for (place, entry) in entries.iter().take(64).enumerate() {
            bytes[8 * place..8 * place + 8].copy_from_slice(entry);
        }
        assert_eq!(rt; block_of(*first, *count), Some(bytes), "{name}");
    }
}

// The most that a trim may be of: each of the 64 entries is full. The last one's first sector is 63 times 65,535,
// 3EFFC1h.
#[test]
fn whole_blocks_are_full(rt: HostRuntime) {
    let Some(block) = block_of(0, 4_194_240) else {
        assert!(rt; false);
        return;
    };
    assert!(rt;
        block
            .chunks_exact(8)
            .all(|entry| entry[6..] == [0xff, 0xff])
    );
    assert!(rt; block[504..510] == [0xc1, 0xff, 0x3e, 0, 0, 0]);
}
