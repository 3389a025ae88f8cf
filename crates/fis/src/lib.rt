//! The FISes that a host and a disk send: each value's one spelling in bytes, both ways.
//!
//! (Serial ATA.) Reserved bytes and bits are zero, and a decoder takes nothing else there, and no
//! other length (this project's own). The server uses the encoder of commands alone, and the model
//! those of what a disk sends.
#![tactic(auto)]

ghost use Rattle.std.specs.{Prelude.{Bool, ◌≡◌, ◌<◌, ◌≤◌, ◌^◌, ◌↔◌, IsTrue, IfSome, Some, length}, Int.RustNames.{bit_and}};
ghost use Rattle.adapter.specs.{Encoding.{AreZero, EncodesCommand}, declared.command.Command.{Command}};
ghost use Rattle.fis.specs.{declared.DeviceToHost.{DeviceToHost}, declared.PioSetup.{PioSetup}, declared.SetDeviceBits.{SetDeviceBits}, Encoding.{lba_at, placed_bit, EncodesDeviceToHost, EncodesPioSetup, EncodesSetDeviceBits}};

pub mod laws;

use adapter::Command;
use byteorder::{ByteOrder, LittleEndian};

/// What a Register FIS from device to host tells: the registers after a command (Serial ATA; AHCI 1.3.1, 4.2.1).
#[derive(Clone, Copy, PartialEq, Eq, Debug)]
pub struct DeviceToHost {
    pub interrupt: bool,
    pub status: u8,
    pub error: u8,
    /// 48 bits.
    pub lba: u64,
    pub device: u8,
    pub count: u16,
}

/// What a Set Device Bits FIS tells: the tags of the queued commands that ended, and a status without its bits 7 and 3,
/// BSY and DRQ, which it doesn't set (Serial ATA; AHCI 1.3.1, 4.2.1).
#[derive(Clone, Copy, PartialEq, Eq, Debug)]
pub struct SetDeviceBits {
    pub interrupt: bool,
    pub status: u8,
    pub error: u8,
    /// A bit for each tag.
    pub tags: u32,
}

/// What a PIO Setup FIS tells of the transfer that follows it (Serial ATA; AHCI 1.3.1, 4.2.1).
#[derive(Clone, Copy, PartialEq, Eq, Debug)]
pub struct PioSetup {
    pub interrupt: bool,
    /// The data go from device to host.
    pub to_host: bool,
    pub status: u8,
    pub error: u8,
    /// 48 bits.
    pub lba: u64,
    pub device: u8,
    pub count: u16,
    /// The status once the data are there.
    pub ending_status: u8,
    /// In bytes.
    pub transfer_count: u16,
}

/// The types of the FISes.
const H2D: u8 = 0x27;

const D2H: u8 = 0x34;

const SDB: u8 = 0xa1;

const PIO_SETUP: u8 = 0x5f;

/// How many bytes each FIS has.
const COMMAND_BYTES: usize = 20;

const REGISTER_BYTES: usize = 20;

const TAG_BYTES: usize = 8;

const SETUP_BYTES: usize = 20;

/// The bits of byte 1: C of a command, I of what the device sends, and D of a PIO Setup FIS.
const C_BIT: u8 = 0x80;

const I_BIT: u8 = 0x40;

const D_BIT: u8 = 0x20;

const BOTH_BITS: u8 = I_BIT + D_BIT;

/// The status bits that a Set Device Bits FIS leaves alone.
const UNSET_STATUS: u8 = 0x88;

/// Whether the bytes of these places, up to the end, are all zero.
pub fn are_zero(bytes: &[u8], from: usize, to: usize) -> bool
    requires order { from ≤ to }
    requires room { to ≤ length bytes.now }
    ensures { IsTrue result ↔ AreZero bytes.now from to }
{
    for place in from..to {
        if bytes[place] != 0 {
            return false;
        }
    }
    true
}

/// The LBA that stands in bytes 4 to 6 and 8 to 10.
fn lba_of(bytes: &[u8]) -> u64
    requires { 11 ≤ length bytes.now }
    ensures { result ≡ lba_at bytes.now }
{
    u64::from(LittleEndian::read_u24(&bytes[4..]))
        + (u64::from(LittleEndian::read_u24(&bytes[8..])) << 24)
}

/// Whether byte 1 of a FIS has I; none where it has another bit.
fn interrupt_of(byte: u8) -> Option<bool>
    ensures found { IfSome result (λ i. byte ≡ placed_bit i 6) }
    ensures complete { (i : Bool) → byte ≡ placed_bit i 6 → result ≡ Some i }
{
    match byte {
        I_BIT => Some(true),
        0 => Some(false),
        _ => None,
    }
}

/// A command as a Register FIS from host to device (Serial ATA; AHCI 1.3.1, 4.2.3.1). Its LBA is below 2^48.
pub fn encode_h2d(command: &Command) -> [u8; 20]
    requires { command.now.lba < 2 ^ 48 }
    ensures { EncodesCommand result command.now }
{
    let features = command.features.to_le_bytes();
    let lba = command.lba.to_le_bytes();
    let count = command.count.to_le_bytes();
    let Command { code, device, .. } = *command;
    let [low, high] = features;
    [
        H2D, C_BIT, code, low, lba[0], lba[1], lba[2], device, lba[3], lba[4], lba[5], high,
        count[0], count[1], 0, 0, 0, 0, 0, 0,
    ]
}

/// The command that the bytes spell as a Register FIS from host to device, if they do.
pub fn decode_h2d(bytes: &[u8]) -> Option<Command>
    ensures found { IfSome result (EncodesCommand bytes.now) }
    ensures complete { (c : Command) → EncodesCommand bytes.now c → result ≡ Some c }
{
    if bytes.len() != COMMAND_BYTES
        || bytes[0] != H2D
        || bytes[1] != C_BIT
        || !are_zero(bytes, 14, COMMAND_BYTES)
    {
        return None;
    }
    Some(Command {
        code: bytes[2],
        features: u16::from_le_bytes([bytes[3], bytes[11]]),
        lba: lba_of(bytes),
        device: bytes[7],
        count: LittleEndian::read_u16(&bytes[12..]),
    })
}

/// Registers as a Register FIS from device to host. Their LBA is below 2^48.
pub fn encode_d2h(fis: &DeviceToHost) -> [u8; 20]
    requires { fis.now.lba < 2 ^ 48 }
    ensures { EncodesDeviceToHost result fis.now }
{
    let lba = fis.lba.to_le_bytes();
    let count = fis.count.to_le_bytes();
    let flags = if fis.interrupt { I_BIT } else { 0 };
    let DeviceToHost {
        status,
        error,
        device,
        ..
    } = *fis;
    [
        D2H, flags, status, error, lba[0], lba[1], lba[2], device, lba[3], lba[4], lba[5], 0,
        count[0], count[1], 0, 0, 0, 0, 0, 0,
    ]
}

/// The registers that the bytes spell as a Register FIS from device to host, if they do.
pub fn decode_d2h(bytes: &[u8]) -> Option<DeviceToHost>
    ensures found { IfSome result (EncodesDeviceToHost bytes.now) }
    ensures complete { (d : DeviceToHost) → EncodesDeviceToHost bytes.now d → result ≡ Some d }
{
    if bytes.len() != REGISTER_BYTES
        || bytes[0] != D2H
        || bytes[11] != 0
        || !are_zero(bytes, 14, REGISTER_BYTES)
    {
        return None;
    }
    let interrupt = interrupt_of(bytes[1])?;
    Some(DeviceToHost {
        interrupt,
        status: bytes[2],
        error: bytes[3],
        lba: lba_of(bytes),
        device: bytes[7],
        count: LittleEndian::read_u16(&bytes[12..]),
    })
}

/// Tags as a Set Device Bits FIS. Bits 7 and 3 of the status are zero.
pub fn encode_set_device_bits(fis: &SetDeviceBits) -> [u8; 8]
    requires { bit_and fis.now.status UNSET_STATUS ≡ 0 }
    ensures { EncodesSetDeviceBits result fis.now }
{
    let tags = fis.tags.to_le_bytes();
    [
        SDB,
        if fis.interrupt { I_BIT } else { 0 },
        fis.status,
        fis.error,
        tags[0],
        tags[1],
        tags[2],
        tags[3],
    ]
}

/// The tags that the bytes spell as a Set Device Bits FIS, if they do.
pub fn decode_set_device_bits(bytes: &[u8]) -> Option<SetDeviceBits>
    ensures found { IfSome result (EncodesSetDeviceBits bytes.now) }
    ensures complete { (s : SetDeviceBits) → EncodesSetDeviceBits bytes.now s → result ≡ Some s }
{
    if bytes.len() != TAG_BYTES || bytes[0] != SDB || bytes[2] & UNSET_STATUS != 0 {
        return None;
    }
    let interrupt = interrupt_of(bytes[1])?;
    Some(SetDeviceBits {
        interrupt,
        status: bytes[2],
        error: bytes[3],
        tags: LittleEndian::read_u32(&bytes[4..]),
    })
}

/// A transfer as a PIO Setup FIS. Its LBA is below 2^48.
pub fn encode_pio_setup(fis: &PioSetup) -> [u8; 20]
    requires { fis.now.lba < 2 ^ 48 }
    ensures { EncodesPioSetup result fis.now }
{
    let lba = fis.lba.to_le_bytes();
    let count = fis.count.to_le_bytes();
    let moved = fis.transfer_count.to_le_bytes();
    let interrupt = if fis.interrupt { I_BIT } else { 0 };
    let to_host = if fis.to_host { D_BIT } else { 0 };
    let flags = interrupt + to_host;
    let PioSetup {
        status,
        error,
        device,
        ending_status: ending,
        ..
    } = *fis;
    [
        PIO_SETUP, flags, status, error, lba[0], lba[1], lba[2], device, lba[3], lba[4], lba[5], 0,
        count[0], count[1], 0, ending, moved[0], moved[1], 0, 0,
    ]
}

/// The transfer that the bytes spell as a PIO Setup FIS, if they do.
pub fn decode_pio_setup(bytes: &[u8]) -> Option<PioSetup>
    ensures found { IfSome result (EncodesPioSetup bytes.now) }
    ensures complete { (p : PioSetup) → EncodesPioSetup bytes.now p → result ≡ Some p }
{
    if bytes.len() != SETUP_BYTES
        || bytes[0] != PIO_SETUP
        || bytes[11] != 0
        || bytes[14] != 0
        || !are_zero(bytes, 18, SETUP_BYTES)
    {
        return None;
    }
    let (interrupt, to_host) = match bytes[1] {
        BOTH_BITS => (true, true),
        I_BIT => (true, false),
        D_BIT => (false, true),
        0 => (false, false),
        _ => return None,
    };
    Some(PioSetup {
        interrupt,
        to_host,
        status: bytes[2],
        error: bytes[3],
        lba: lba_of(bytes),
        device: bytes[7],
        count: LittleEndian::read_u16(&bytes[12..]),
        ending_status: bytes[15],
        transfer_count: LittleEndian::read_u16(&bytes[16..]),
    })
}
