// The bits of a port's registers.
ghost use Rattle.std.specs.Prelude.{⊤, ◌≡◌, ◌≢◌, ◌<◌, ◌^◌, ℕ, [], ◌∷◌, codes, true, false};
ghost use Rattle.hba_regs.specs.Bits.{bit, field};

use crate::bit::{has, with_bit, without_bit};
use bitflags::{Flag, Flags, bitflag_items};

/// What PxSIG reads for an ATA disk, after its first Device to Host Register FIS (AHCI 1.3.1, 3.3.9).
pub const ATA_SIGNATURE: u32 = 0x0000_0101;

/// PxIS and PxIE: the causes of a port's interrupts. In PxIS those that are pending, in PxIE those that are sent
/// (AHCI 1.3.1, 3.3.5 and 3.3.6).
#[derive(Clone, Copy, Debug, PartialEq, Eq)]
pub struct PortInterrupts(pub u32);

bitflag_items! {
    impl PortInterrupts: u32 {
        /// A Device to Host Register FIS came.
        const DHRS = 1 << 0;
        /// A PIO Setup FIS came.
        const PSS = 1 << 1;
        /// A DMA Setup FIS came.
        const DSS = 1 << 2;
        /// A Set Device Bits FIS came.
        const SDBS = 1 << 3;
        /// An unknown FIS came. It goes away with PxSERR's bit, as PCS and PRCS do.
        const UFS = 1 << 4;
        /// A PRD with its I bit was transferred.
        const DPS = 1 << 5;
        /// A device came or went: PxSERR.X.
        const PCS = 1 << 6;
        /// The link came up or went down: PxSERR.N.
        const PRCS = 1 << 22;
        /// The link had an error, and transfers go on.
        const INFS = 1 << 26;
        /// The link had an error that stopped a transfer.
        const IFS = 1 << 27;
        /// The adapter read or wrote memory with a data error.
        const HBDS = 1 << 28;
        /// The adapter couldn't read or write memory.
        const HBFS = 1 << 29;
        /// A device ended a command with an error: the task file has ERR.
        const TFES = 1 << 30;
    }
}

impl Flags for PortInterrupts {
    type Bits = u32;

    ghost exact = { ⊤ };

    ghost table = { (codes "DHRS", 2 ^ 0) ∷
        (codes "PSS", 2 ^ 1) ∷
        (codes "DSS", 2 ^ 2) ∷
        (codes "SDBS", 2 ^ 3) ∷
        (codes "UFS", 2 ^ 4) ∷
        (codes "DPS", 2 ^ 5) ∷
        (codes "PCS", 2 ^ 6) ∷
        (codes "PRCS", 2 ^ 22) ∷
        (codes "INFS", 2 ^ 26) ∷
        (codes "IFS", 2 ^ 27) ∷
        (codes "HBDS", 2 ^ 28) ∷
        (codes "HBFS", 2 ^ 29) ∷
        (codes "TFES", 2 ^ 30) ∷
        [] };

    ghost set_of = { λ register. register.0 };

    fn flags<'a>() -> &'a [Flag<PortInterrupts>] {
        PortInterrupts::FLAGS
    }

    fn bits(&self) -> u32 {
        self.0
    }

    fn from_bits_retain(bits: u32) -> PortInterrupts {
        PortInterrupts(bits)
    }
}

impl PortInterrupts {
    /// Whether a device came or went: PCS (AHCI 1.3.1, 3.3.5).
    pub fn has_port_connect_change(self) -> bool
        ensures { result ≡ bit self.0 6 }
    {
        has(self.0, Self::PCS.0)
    }

    /// Whether the link came up or went down: PRCS (AHCI 1.3.1, 3.3.5).
    pub fn has_phy_ready_change(self) -> bool
        ensures { result ≡ bit self.0 22 }
    {
        has(self.0, Self::PRCS.0)
    }

    /// Whether an error of the link stopped a transfer: IFS (AHCI 1.3.1, 3.3.5).
    pub fn has_interface_fatal_error(self) -> bool
        ensures { result ≡ bit self.0 27 }
    {
        has(self.0, Self::IFS.0)
    }

    /// Whether memory was read or written with a data error: HBDS (AHCI 1.3.1, 3.3.5).
    pub fn has_host_bus_data_error(self) -> bool
        ensures { result ≡ bit self.0 28 }
    {
        has(self.0, Self::HBDS.0)
    }

    /// Whether memory couldn't be read or written: HBFS (AHCI 1.3.1, 3.3.5).
    pub fn has_host_bus_fatal_error(self) -> bool
        ensures { result ≡ bit self.0 29 }
    {
        has(self.0, Self::HBFS.0)
    }

    /// Whether a device ended a command with an error: TFES (AHCI 1.3.1, 3.3.5).
    pub fn has_task_file_error(self) -> bool
        ensures { result ≡ bit self.0 30 }
    {
        has(self.0, Self::TFES.0)
    }
}

// The places of the bits of PxCMD that are changed one by one.
const ST_PLACE: u32 = 0;

const FRE_PLACE: u32 = 4;

/// PxCMD: a port's command and status (AHCI 1.3.1, 3.3.7).
#[derive(Clone, Copy, Debug, PartialEq, Eq)]
pub struct PortCommand(pub u32);

bitflag_items! {
    impl PortCommand: u32 {
        /// The command list is to be worked on.
        const ST = 1 << ST_PLACE;
        /// The device is to spin up.
        const SUD = 1 << 1;
        /// The device is to have power.
        const POD = 1 << 2;
        /// Written as one it clears BSY and DRQ of the task file.
        const CLO = 1 << 3;
        /// FISes are to be received into memory.
        const FRE = 1 << FRE_PLACE;
        /// FISes are being received.
        const FR = 1 << 14;
        /// The command list is being worked on.
        const CR = 1 << 15;
    }
}

impl Flags for PortCommand {
    type Bits = u32;

    ghost exact = { ⊤ };

    ghost table = { (codes "ST", 2 ^ 0) ∷
        (codes "SUD", 2 ^ 1) ∷
        (codes "POD", 2 ^ 2) ∷
        (codes "CLO", 2 ^ 3) ∷
        (codes "FRE", 2 ^ 4) ∷
        (codes "FR", 2 ^ 14) ∷
        (codes "CR", 2 ^ 15) ∷
        [] };

    ghost set_of = { λ register. register.0 };

    fn flags<'a>() -> &'a [Flag<PortCommand>] {
        PortCommand::FLAGS
    }

    fn bits(&self) -> u32 {
        self.0
    }

    fn from_bits_retain(bits: u32) -> PortCommand {
        PortCommand(bits)
    }
}

impl PortCommand {
    /// The slot whose command is being issued, while ST is one: CCS, bits 12:8 (AHCI 1.3.1, 3.3.7).
    pub fn current_slot(self) -> u32
        ensures { result ≡ field self.0 8 5 }
    {
        self.0 >> 8 & 0x1f
    }

    /// Whether the command list is to be worked on: ST (AHCI 1.3.1, 3.3.7).
    pub fn is_started(self) -> bool
        ensures { result ≡ bit self.0 0 }
    {
        has(self.0, Self::ST.0)
    }

    /// Whether FISes are to be received into memory: FRE (AHCI 1.3.1, 3.3.7).
    pub fn is_receive_enabled(self) -> bool
        ensures { result ≡ bit self.0 4 }
    {
        has(self.0, Self::FRE.0)
    }

    /// Whether FISes are being received: FR (AHCI 1.3.1, 3.3.7).
    pub fn is_receive_running(self) -> bool
        ensures { result ≡ bit self.0 14 }
    {
        has(self.0, Self::FR.0)
    }

    /// Whether the command list is being worked on: CR (AHCI 1.3.1, 3.3.7).
    pub fn is_list_running(self) -> bool
        ensures { result ≡ bit self.0 15 }
    {
        has(self.0, Self::CR.0)
    }

    /// The register with ST one (AHCI 1.3.1, 3.3.7).
    pub fn with_start(self) -> Self
        ensures set { bit result.0 0 ≡ true }
        ensures others_are_kept { (k : ℕ) → k < 32 → k ≢ 0 → bit result.0 k ≡ bit self.0 k }
    {
        Self(with_bit(self.0, ST_PLACE))
    }

    /// The register with ST zero (AHCI 1.3.1, 3.3.7).
    pub fn without_start(self) -> Self
        ensures cleared { bit result.0 0 ≡ false }
        ensures others_are_kept { (k : ℕ) → k < 32 → k ≢ 0 → bit result.0 k ≡ bit self.0 k }
    {
        Self(without_bit(self.0, ST_PLACE))
    }

    /// The register with FRE one (AHCI 1.3.1, 3.3.7).
    pub fn with_receive(self) -> Self
        ensures set { bit result.0 4 ≡ true }
        ensures others_are_kept { (k : ℕ) → k < 32 → k ≢ 4 → bit result.0 k ≡ bit self.0 k }
    {
        Self(with_bit(self.0, FRE_PLACE))
    }

    /// The register with FRE zero (AHCI 1.3.1, 3.3.7).
    pub fn without_receive(self) -> Self
        ensures cleared { bit result.0 4 ≡ false }
        ensures others_are_kept { (k : ℕ) → k < 32 → k ≢ 4 → bit result.0 k ≡ bit self.0 k }
    {
        Self(without_bit(self.0, FRE_PLACE))
    }
}

/// PxTFD: a copy of the device's status in bits 7:0 and of its error in bits 15:8 (AHCI 1.3.1, 3.3.8).
#[derive(Clone, Copy, Debug, PartialEq, Eq)]
pub struct TaskFile(pub u32);

bitflag_items! {
    impl TaskFile: u32 {
        /// A command ended with an error.
        const ERR = 1 << 0;
        /// The device asks for a transfer.
        const DRQ = 1 << 3;
        /// The device is busy.
        const BSY = 1 << 7;
    }
}

impl Flags for TaskFile {
    type Bits = u32;

    ghost exact = { ⊤ };

    ghost table = { (codes "ERR", 2 ^ 0) ∷
        (codes "DRQ", 2 ^ 3) ∷
        (codes "BSY", 2 ^ 7) ∷
        [] };

    ghost set_of = { λ register. register.0 };

    fn flags<'a>() -> &'a [Flag<TaskFile>] {
        TaskFile::FLAGS
    }

    fn bits(&self) -> u32 {
        self.0
    }

    fn from_bits_retain(bits: u32) -> TaskFile {
        TaskFile(bits)
    }
}

impl TaskFile {
    /// The device's status: bits 7:0 (AHCI 1.3.1, 3.3.8).
    pub fn status(self) -> u8
        ensures { result ≡ field self.0 0 8 }
    {
        (self.0 & 0xff) as u8
    }

    /// The device's error: bits 15:8 (AHCI 1.3.1, 3.3.8).
    pub fn error(self) -> u8
        ensures { result ≡ field self.0 8 8 }
    {
        (self.0 >> 8 & 0xff) as u8
    }

    /// Whether the device is busy: BSY (AHCI 1.3.1, 3.3.8).
    pub fn is_busy(self) -> bool
        ensures { result ≡ bit self.0 7 }
    {
        has(self.0, Self::BSY.0)
    }

    /// Whether the device asks for a transfer: DRQ (AHCI 1.3.1, 3.3.8).
    pub fn has_data_request(self) -> bool
        ensures { result ≡ bit self.0 3 }
    {
        has(self.0, Self::DRQ.0)
    }

    /// Whether a command ended with an error: ERR (AHCI 1.3.1, 3.3.8).
    pub fn has_error(self) -> bool
        ensures { result ≡ bit self.0 0 }
    {
        has(self.0, Self::ERR.0)
    }
}

// DET, which PxSSTS and PxSCTL have in the same bits.
fn detection_of(register: u32) -> u32
    ensures { result ≡ field register 0 4 }
{
    register & 0xf
}

/// PxSSTS: what a port's link is connected to (AHCI 1.3.1, 3.3.10).
#[derive(Clone, Copy, Debug, PartialEq, Eq)]
pub struct SataStatus(pub u32);

impl SataStatus {
    /// `detection` with no device.
    pub const NO_DEVICE: u32 = 0;

    /// `detection` with a device whose link is up.
    pub const DEVICE_WITH_LINK: u32 = 3;

    /// Whether there is a device, and a link to it: DET, bits 3:0 (AHCI 1.3.1, 3.3.10).
    pub fn detection(self) -> u32
        ensures { result ≡ field self.0 0 4 }
    {
        detection_of(self.0)
    }
}

/// PxSCTL: control of a port's link (AHCI 1.3.1, 3.3.11).
#[derive(Clone, Copy, Debug, PartialEq, Eq)]
pub struct SataControl(pub u32);

impl SataControl {
    /// `detection` that asks for nothing.
    pub const NO_ACTION: u32 = 0;

    /// `detection` that has COMRESET sent, until it is changed.
    pub const SEND_COMRESET: u32 = 1;

    /// What the link is to do: DET, bits 3:0 (AHCI 1.3.1, 3.3.11). It is changed only while ST of PxCMD is zero.
    pub fn detection(self) -> u32
        ensures { result ≡ field self.0 0 4 }
    {
        detection_of(self.0)
    }
}

/// PxSERR: errors and changes of a port's link. Each is cleared by a one that is written to it (AHCI 1.3.1, 3.3.12).
#[derive(Clone, Copy, Debug, PartialEq, Eq)]
pub struct SataError(pub u32);

bitflag_items! {
    impl SataError: u32 {
        /// The link came up or went down.
        const N = 1 << 16;
        /// A device came or went.
        const X = 1 << 26;
    }
}

impl Flags for SataError {
    type Bits = u32;

    ghost exact = { ⊤ };

    ghost table = { (codes "N", 2 ^ 16) ∷
        (codes "X", 2 ^ 26) ∷
        [] };

    ghost set_of = { λ register. register.0 };

    fn flags<'a>() -> &'a [Flag<SataError>] {
        SataError::FLAGS
    }

    fn bits(&self) -> u32 {
        self.0
    }

    fn from_bits_retain(bits: u32) -> SataError {
        SataError(bits)
    }
}

impl SataError {
    /// Whether the link came up or went down: N (AHCI 1.3.1, 3.3.12).
    pub fn has_phy_ready_change(self) -> bool
        ensures { result ≡ bit self.0 16 }
    {
        has(self.0, Self::N.0)
    }

    /// Whether a device came or went: X (AHCI 1.3.1, 3.3.12).
    pub fn has_device_presence_change(self) -> bool
        ensures { result ≡ bit self.0 26 }
    {
        has(self.0, Self::X.0)
    }
}
