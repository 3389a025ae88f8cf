// The codes of the ATA commands that the driver sends and the model takes (ACS-3, 7; queued commands: Serial ATA, too).

pub const DATA_SET_MANAGEMENT: u8 = 0x06;

pub const READ_DMA_EXT: u8 = 0x25;

pub const READ_LOG_EXT: u8 = 0x2f;

pub const WRITE_DMA_EXT: u8 = 0x35;

pub const READ_FPDMA_QUEUED: u8 = 0x60;

pub const WRITE_FPDMA_QUEUED: u8 = 0x61;

pub const FLUSH_CACHE_EXT: u8 = 0xea;

pub const IDENTIFY_DEVICE: u8 = 0xec;
