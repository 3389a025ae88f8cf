// Frame information structures (FISes) as bytes.
use adapter::Command;
use fis::{
    DeviceToHost, PioSetup, SetDeviceBits, decode_d2h, decode_h2d, decode_pio_setup,
    decode_set_device_bits, encode_d2h, encode_h2d, encode_pio_setup, encode_set_device_bits,
};

/// A FIS by its fields.
#[derive(Clone, Copy)]
enum Fields {
    Sent(Command),
    Registers(DeviceToHost),
    Bits(SetDeviceBits),
    Setup(PioSetup),
}

/// FISes with their bytes (AHCI 1.3.1, 4.2.1; Serial ATA).
static SPELLED: &[(&str, Fields, &[u8])] = &[
    (
        "a READ DMA EXT of 8 sectors from 100 on",
        Fields::Sent(Command {
            code: 0x25,
            features: 0,
            lba: 100,
            device: 0x40,
            count: 8,
        }),
        &[
            0x27, 0x80, 0x25, 0, 0x64, 0, 0, 0x40, 0, 0, 0, 0, 8, 0, 0, 0, 0, 0, 0, 0,
        ],
    ),
    (
        "registers that tell of a fault",
        Fields::Registers(DeviceToHost {
            interrupt: true,
            status: 0x41,
            error: 0x40,
            lba: 0,
            device: 0,
            count: 0,
        }),
        &[
            0x34, 0x40, 0x41, 0x40, 0, 0, 0, 0, 0, 0, 0, 0, 0, 0, 0, 0, 0, 0, 0, 0,
        ],
    ),
    (
        "the signature of a disk",
        Fields::Registers(DeviceToHost {
            interrupt: false,
            status: 0x50,
            error: 1,
            lba: 1,
            device: 0,
            count: 1,
        }),
        &[
            0x34, 0, 0x50, 1, 1, 0, 0, 0, 0, 0, 0, 0, 1, 0, 0, 0, 0, 0, 0, 0,
        ],
    ),
    (
        "tags with a fault",
        Fields::Bits(SetDeviceBits {
            interrupt: true,
            status: 0x41,
            error: 0x40,
            tags: 2,
        }),
        &[0xa1, 0x40, 0x41, 0x40, 2, 0, 0, 0],
    ),
    (
        "the setup of a transfer",
        Fields::Setup(PioSetup {
            interrupt: true,
            to_host: true,
            status: 0x58,
            error: 0,
            lba: 0,
            device: 0,
            count: 0,
            ending_status: 0x50,
            transfer_count: 512,
        }),
        &[
            0x5f, 0x60, 0x58, 0, 0, 0, 0, 0, 0, 0, 0, 0, 0, 0, 0, 0x50, 0, 2, 0, 0,
        ],
    ),
];

/// What the bytes are read as, by the one of the four readers that takes them, if only one does.
fn read(bytes: &[u8]) -> Option<Fields> {
    match (
        decode_h2d(bytes),
        decode_d2h(bytes),
        decode_set_device_bits(bytes),
        decode_pio_setup(bytes),
    ) {
        (Some(fields), None, None, None) => Some(Fields::Sent(fields)),
        (None, Some(fields), None, None) => Some(Fields::Registers(fields)),
        (None, None, Some(fields), None) => Some(Fields::Bits(fields)),
        (None, None, None, Some(fields)) => Some(Fields::Setup(fields)),
        _ => None,
    }
}

/// Sectors have numbers below this.
const END: u64 = 1 << 48;

/// Whether these fields are written as these bytes, and read from them.
fn are_spelled(fields: &Fields, bytes: &[u8]) -> bool {
    match (fields, read(bytes)) {
        (Fields::Sent(fields), Some(Fields::Sent(read))) => {
            read == *fields && read.lba < END && encode_h2d(&read).as_slice() == bytes
        }
        (Fields::Registers(fields), Some(Fields::Registers(read))) => {
            read == *fields && read.lba < END && encode_d2h(&read).as_slice() == bytes
        }
        (Fields::Bits(fields), Some(Fields::Bits(read))) => {
            read == *fields
                && read.status & 0x88 == 0
                && encode_set_device_bits(&read).as_slice() == bytes
        }
        (Fields::Setup(fields), Some(Fields::Setup(read))) => {
            read == *fields && read.lba < END && encode_pio_setup(&read).as_slice() == bytes
        }
        _ => false,
    }
}

#[test]
fn each_fis_has_one_spelling(rt: HostRuntime) {
    for (name, fields, bytes) in SPELLED {
        assert!(rt; are_spelled(fields, bytes), "{name}");
    }
}

/// Bytes that are no FIS: one that means nothing has to be zero, bits too, and each has its own length.
static REFUSED: &[&[u8]] = &[
    &[
        0x27, 0x80, 0x25, 0, 0x64, 0, 0, 0x40, 0, 0, 0, 0, 8, 0, 0, 0, 0, 0, 0,
    ],
    &[
        0x27, 0x80, 0x25, 0, 0x64, 0, 0, 0x40, 0, 0, 0, 0, 8, 0, 0, 0, 1, 0, 0, 0,
    ],
    &[
        0x34, 0x40, 0x41, 0x40, 0, 0, 0, 0, 0, 0, 0, 1, 0, 0, 0, 0, 0, 0, 0, 0,
    ],
    &[
        0x34, 0x40, 0x41, 0x40, 0, 0, 0, 0, 0, 0, 0, 0, 0, 0, 1, 0, 0, 0, 0, 0,
    ],
    &[
        0x34, 0x40, 0x41, 0x40, 0, 0, 0, 0, 0, 0, 0, 0, 0, 0, 0, 0, 0, 0, 0, 1,
    ],
    &[
        0x34, 0x60, 0x41, 0x40, 0, 0, 0, 0, 0, 0, 0, 0, 0, 0, 0, 0, 0, 0, 0, 0,
    ],
    &[0x34, 0x40, 0x41, 0x40, 0, 0, 0, 0],
    &[0xa1, 0x40, 8, 0, 2, 0, 0, 0],
    &[0xa1, 0x40, 0x41, 0x40, 2, 0, 0],
];

#[test]
fn other_spellings_are_refused(rt: HostRuntime) {
    for bytes in REFUSED {
        assert!(rt; read(bytes).is_none(), "{bytes:?}");
    }
}
