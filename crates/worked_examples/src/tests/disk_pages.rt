// Pages of IDENTIFY DEVICE and of log 10h, byte by byte, worked out by hand (ACS-3, 7.12.7 and A.14).
use sector_store::pages::{Abilities, LoggedError, Trim, identify_page, log_page};

/// A disk, and what its page holds.
struct Case {
    what: &'static str,
    serial: &'static [u8],
    sectors: u64,
    abilities: Abilities,
    /// Words 10 to 19.
    words: &'static [u8; 20],
    /// Places and bytes; elsewhere there are zeros.
    bytes: &'static [(usize, u8)],
}

static CASES: [Case; 4] = [
    // A disk of 70,000 sectors (11170h). The serial number's bytes sum to 654 and eleven spaces to 352, the others to
    // 589: 1595, or 59 modulo 256. The last byte is 256 - 59.
    Case {
        what: "all abilities",
        serial: b"IMAGEDISK",
        sectors: 70_000,
        abilities: Abilities {
            ncq: true,
            depth: 32,
            trim: Trim::Full,
        },
        words: b"MIGADESI K          ",
        bytes: &[
            (138, 0x20),
            (139, 0x40),
            (150, 31),
            (153, 1),
            (167, 0x64),
            (200, 0x70),
            (201, 0x11),
            (202, 1),
            (210, 1),
            (213, 0x40),
            (338, 1),
            (510, 0xa5),
            (511, 197),
        ],
    },
    // A disk of 8 sectors whose trims promise nothing. 659 and 352, and 403 for the others: 1414, or 134 modulo 256.
    Case {
        what: "few abilities",
        serial: b"BLANKDISK",
        sectors: 8,
        abilities: Abilities {
            ncq: false,
            depth: 1,
            trim: Trim::Weak,
        },
        words: b"LBNADKSI K          ",
        bytes: &[
            (139, 0x40),
            (167, 0x64),
            (200, 8),
            (210, 1),
            (213, 0x40),
            (338, 1),
            (510, 0xa5),
            (511, 122),
        ],
    },
    // A disk of 2^48 sectors without trims. 640 for the spaces, and 331 for the others: 971, or 203 modulo 256.
    Case {
        what: "no serial number",
        serial: b"",
        sectors: 1 << 48,
        abilities: Abilities {
            ncq: false,
            depth: 2,
            trim: Trim::Without,
        },
        words: b"                    ",
        bytes: &[
            (150, 1),
            (167, 0x64),
            (206, 1),
            (213, 0x40),
            (510, 0xa5),
            (511, 53),
        ],
    },
    // A serial number of 20 characters fills its words: 525 for the digits and 695 for the letters, and 330 for the
    // others: 1550, or 14 modulo 256.
    Case {
        what: "a long serial number",
        serial: b"0123456789ABCDEFGHIJ",
        sectors: 1,
        abilities: Abilities {
            ncq: false,
            depth: 1,
            trim: Trim::Without,
        },
        words: b"1032547698BADCFEHGJI",
        bytes: &[(167, 0x64), (200, 1), (213, 0x40), (510, 0xa5), (511, 242)],
    },
];

/// The queued command that the log names, and what its page holds.
struct LogCase {
    what: &'static str,
    failed: Option<LoggedError>,
    /// Bytes 0, 2, 3 and 511; elsewhere there are zeros.
    bytes: [u8; 4],
}

static LOG_CASES: [LogCase; 5] = [
    // NQ alone: 128, and 256 - 128.
    LogCase {
        what: "none has failed",
        failed: None,
        bytes: [0x80, 0, 0, 0x80],
    },
    // 1, 65 and 64 sum to 130; 256 - 130 is 126.
    LogCase {
        what: "slot 1, on which the store failed",
        failed: Some(LoggedError {
            tag: 1,
            error: 0x40,
        }),
        bytes: [1, 0x41, 0x40, 126],
    },
    // 65 and 16 sum to 81; 256 - 81 is 175.
    LogCase {
        what: "slot 0, past the disk",
        failed: Some(LoggedError {
            tag: 0,
            error: 0x10,
        }),
        bytes: [0, 0x41, 0x10, 175],
    },
    // 31, 65 and 255 sum to 351, or 95 modulo 256; 256 - 95 is 161.
    LogCase {
        what: "slot 31, and all bits of the error",
        failed: Some(LoggedError {
            tag: 31,
            error: 0xff,
        }),
        bytes: [31, 0x41, 0xff, 161],
    },
    // 65 and 191 sum to 256, which is 0 already.
    LogCase {
        what: "a sum of 256",
        failed: Some(LoggedError {
            tag: 0,
            error: 0xbf,
        }),
        bytes: [0, 0x41, 0xbf, 0],
    },
];

/// A page with these words, and with these bytes at places.
fn page_of(words: &[u8; 20], bytes: &[(usize, u8)]) -> [u8; 512] {
    let mut page = [0; 512];
    page[20..40].copy_from_slice(words);
    for (place, byte) in bytes {
        if *place < 512 {
            page[*place] = *byte;
        }
    }
    page
}

/// Whether the case's disk sends its page.
fn is_sent(case: &Case) -> bool {
    case.serial.len() <= 20
        && identify_page(case.serial, case.sectors, case.abilities)
            == page_of(case.words, case.bytes)
}

#[test]
fn pages_say_what_disks_are(rt: HostRuntime) {
    for case in &CASES {
        assert!(rt; is_sent(case), "{}", case.what);
    }
}

/// Whether the case's page is read.
fn is_read(case: &LogCase) -> bool {
    let [first, status, error, sum] = case.bytes;
    let mut page = [0; 512];
    page[0] = first;
    page[2] = status;
    page[3] = error;
    page[511] = sum;
    log_page(case.failed) == page
}

#[test]
fn pages_say_what_failed(rt: HostRuntime) {
    for case in &LOG_CASES {
        assert!(rt; is_read(case), "{}", case.what);
    }
}
