// Ranges of sectors at both ends of the numbers, with what was worked out by hand.
use ata_types::{Range, Sector};

const LAST: u64 = 0xffff_ffff_ffff_ffff;

/// Two ranges, each by its first sector and count, whether the first is within the second, and whether some sector is
/// in both.
static CASES: [((u64, u32), (u64, u32), bool, bool); 23] = [
    ((0, 1), (0, 1), true, true),
    ((0, 2), (0, 1), false, true),
    ((0, 1), (1, 1), false, false),
    ((0, 2), (1, 1), false, true),
    ((7, 3), (5, 5), true, true),
    ((7, 4), (5, 5), false, true),
    ((4, 2), (5, 5), false, true),
    ((5, 5), (9, 9), false, true),
    ((5, 5), (10, 9), false, false),
    ((LAST, 1), (LAST, 1), true, true),
    // The second sector is 2^64, and not 0: sums that wrap would make the two meet there.
    ((LAST, 2), (LAST, 1), false, true),
    ((LAST, 2), (0, 1), false, false),
    ((0, 1), (LAST, 2), false, false),
    ((LAST, 4_294_967_295), (LAST, 4_294_967_295), true, true),
    ((LAST, 4_294_967_295), (0, 4_294_967_295), false, false),
    ((LAST - 1, 2), (LAST, 1), false, true),
    ((LAST - 1, 1), (LAST, 1), false, false),
    // An empty range is within every range, also within an empty one, and overlaps nothing, itself among it.
    ((0, 0), (9, 0), true, false),
    ((LAST, 0), (0, 0), true, false),
    ((3, 1), (3, 0), false, false),
    ((5, 0), (5, 0), true, false),
    ((5, 0), (0, 10), true, false),
    ((LAST, 0), (LAST, 1), true, false),
];

fn range(ends: (u64, u32)) -> Range {
    Range {
        first: Sector(ends.0),
        count: ends.1,
    }
}

#[test]
fn ranges_within_and_over_others(rt: HostRuntime) {
    for (one, other, within, overlaps) in CASES {
        let first = range(one);
        let second = range(other);
        let found = (
            first.within(&second),
            first.overlaps(&second),
            second.overlaps(&first),
        );
        assert_eq!(rt;
            found,
            (within, overlaps, overlaps),
            "{one:?} and {other:?}"
        );
    }
}
