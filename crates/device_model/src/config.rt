// What a model is made from.
use sector_store::pages::Trim;

/// PI of an adapter with ports 0 to 3.
pub const ALL_PORTS: u8 = 0x0f;

/// The adapter and the disks that are modelled.
#[derive(Clone, Copy, Debug, PartialEq, Eq)]
pub struct ModelConfig {
    /// The memory, in frames: `FEWEST_FRAMES` to `MOST_FRAMES` of ata_types.
    pub frames: u16,
    /// The slots of each command list: 1 to 32.
    pub slots: u8,
    /// Whether adapter and disks know queued commands.
    pub ncq: bool,
    /// How many queued commands a disk takes at once: 1 to 32.
    pub depth: u8,
    /// What a disk says of trims.
    pub trim: Trim,
    /// Whether the disks have a volatile write cache: `DeviceStep::LosePlug` loses what no flush has made lasting.
    pub cache: bool,
}
