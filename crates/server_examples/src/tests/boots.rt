// What the ports of a modelled adapter are found to be when it is taken over, and what is written and read for that.
use super::watched::{AdapterCall, Lie, NO_LIE, Watched, lie, model};
use ata_types::{PORTS, Port, PortState};
use device_model::ALL_PORTS;
use hba_regs::{PortReg, Reg};
use host_boot::{ProbeResult, take_over};
use identify::{DiskInfo, Wanted};
use std::alloc::Global;
use std::process::Abort;
use std::test::Fail;

const SERIAL: [u8; 20] = *b"IMAGEDISK           ";

/// The disk with this serial number is wanted in port 0, and none in the others.
pub const ONLY_IMAGE_DISK_WANTED: [Wanted; PORTS] = [
    Wanted::Serial(SERIAL),
    Wanted::Nothing,
    Wanted::Nothing,
    Wanted::Nothing,
];

/// What an ordinary disk of so many sectors says of itself.
const fn ready(sectors: u64) -> ProbeResult {
    ProbeResult::Ready(DiskInfo {
        serial: SERIAL,
        depth: 32,
        ncq: true,
        sectors,
        trim: true,
    })
}

const FOREIGN: ProbeResult = ProbeResult::Unready(PortState::Foreign);

const fn unfit(cause: u8) -> ProbeResult {
    ProbeResult::Unready(PortState::Unfit(cause))
}

/// What port 0 is found to be where its disk, of so many sectors, tells some lies; with the slots of the adapter, and
/// whether it does native command queuing.
fn found(alloc: Global, sectors: u32, lies: [Lie; 4]) -> Result<(u8, bool, ProbeResult), Fail> {
    let mut model = model(alloc, ALL_PORTS, sectors)?;
    let [one, another, third, last] = lies;
    lie(&mut model, one);
    lie(&mut model, another);
    lie(&mut model, third);
    lie(&mut model, last);
    let host = take_over(&mut model, &ONLY_IMAGE_DISK_WANTED);
    Ok((host.slot_count, host.supports_ncq, host.ports[0]))
}

/// Compares what port 0 is found to be there.
fn check_found(
    rt: &(impl Abort + AllocGlobal),
    sectors: u32,
    lies: [Lie; 4],
    what: ProbeResult,
) -> Result<(), Fail> {
    let found = found(rt.alloc(), sectors, lies)?;
    assert_eq!(rt; found, (32, true, what), "{sectors} sectors, {lies:?}");
    Ok(())
}

/// The page has no signature of a checksum, so that its bytes may sum to anything.
pub const UNSIGNED_PAGE: Lie = (510, 0x01);

/// It tells of 2^48 sectors more than there are.
const TOO_LARGE: Lie = (206, 0x01);

// Byte 510 of IDENTIFY DEVICE holds the signature of the checksum, bytes 166 and 167 word 83, bytes 212 and 213 word
// 106, bytes 200 to 207 the number of sectors, and bytes 20 to 39 the serial number (ACS-3, 7.12.7).
#[test]
fn a_disk_is_what_its_page_says(rt: HostRuntime) -> Result<(), Fail> {
    check_found(&rt, 70_000, [NO_LIE; 4], ready(70_000))?;
    check_found(&rt, 70_000, [(0, 0x01), NO_LIE, NO_LIE, NO_LIE], unfit(1))?;
    for (lie, what) in [
        (NO_LIE, ready(70_000)),
        ((167, 0x40), unfit(2)),
        ((167, 0x80), unfit(2)),
        ((167, 0x04), unfit(3)),
        ((213, 0x10), unfit(4)),
        ((213, 0x50), ready(70_000)),
        ((167, 0x20), unfit(5)),
        (TOO_LARGE, unfit(6)),
        ((20, 0x01), FOREIGN),
    ] {
        check_found(&rt, 70_000, [UNSIGNED_PAGE, lie, NO_LIE, NO_LIE], what)?;
    }
    Ok(())
}

#[test]
fn the_first_fault_of_a_page_is_told(rt: HostRuntime) -> Result<(), Fail> {
    for (signed, of_word_83, of_word_106, what) in [
        (UNSIGNED_PAGE, (167, 0x20), NO_LIE, unfit(5)),
        (UNSIGNED_PAGE, (167, 0x24), NO_LIE, unfit(3)),
        (UNSIGNED_PAGE, (167, 0x20), (213, 0x10), unfit(4)),
        (UNSIGNED_PAGE, (167, 0x64), (213, 0x10), unfit(2)),
        (NO_LIE, (167, 0x64), (213, 0x10), unfit(1)),
    ] {
        let lies = [signed, TOO_LARGE, of_word_83, of_word_106];
        check_found(&rt, 70_000, lies, what)?;
    }
    Ok(())
}

// 128 sectors in the place of 256; then 2^48, and one more; and none.
#[test]
fn sectors_are_1_to_2_to_the_48(rt: HostRuntime) -> Result<(), Fail> {
    for (first, second, third, what) in [
        ((200, 0x80), (201, 0x01), NO_LIE, ready(128)),
        ((201, 0x01), TOO_LARGE, NO_LIE, ready(1 << 48)),
        ((201, 0x01), TOO_LARGE, (200, 0x01), unfit(6)),
    ] {
        check_found(&rt, 256, [UNSIGNED_PAGE, first, second, third], what)?;
    }
    check_found(&rt, 0, [NO_LIE; 4], unfit(6))
}

/// A boot: the ports that the adapter has, the disks that are wanted, what is found, how often PxSSTS of a port is
/// read, of which ports registers are read or written, and what is written to registers first.
#[derive(Clone, Copy)]
struct Boot<'a> {
    pi: u8,
    wanted: [Wanted; PORTS],
    found: [ProbeResult; PORTS],
    read: (Port, usize),
    touched: [bool; PORTS],
    writes: &'a [AdapterCall],
}

const NONE: Wanted = Wanted::Nothing;

const UNSERVED: ProbeResult = ProbeResult::Unserved;

const ABSENT: ProbeResult = ProbeResult::Unready(PortState::Absent);

const ENABLE: AdapterCall = AdapterCall::Write(Reg::Ghc, 0x8000_0000);

const ALLOW_INTERRUPTS: AdapterCall = AdapterCall::Write(Reg::Ghc, 0x8000_0002);

const fn px(port: u8, r: PortReg, value: u32) -> AdapterCall {
    AdapterCall::Write(Reg::Px(Port(port), r), value)
}

/// Compares what comes of a boot.
fn check(rt: &(impl Abort + AllocGlobal), boot: &Boot) -> Result<(), Fail> {
    if boot.pi < 1 || boot.pi > 15 {
        return Err(Fail::from("no such adapter"));
    }
    let mut watched = Watched::new(rt.alloc(), model(rt.alloc(), boot.pi, 8)?)?;
    let host = take_over(&mut watched, &boot.wanted);
    let (port, readings) = boot.read;
    let read = watched.readings(Reg::Px(port, PortReg::Ssts)).total;
    assert_eq!(rt;
        (host.ports, read, watched.touched()),
        (boot.found, readings, boot.touched)
    );
    let writes = watched.writes(rt.alloc())?;
    assert_eq!(rt; writes.get(..boot.writes.len()), Some(boot.writes));
    Ok(())
}

/// What the boot writes first where a disk is wanted in a port, which has its frames from this place on: GHC with AE;
/// ST and FRE, which are clear already; and the places (AHCI 1.3.1, 3.1.2, 3.3 and 10.1.2).
fn first_writes(port: u8, place: u32) -> [AdapterCall; 7] {
    [
        ENABLE,
        px(port, PortReg::Cmd, 0),
        px(port, PortReg::Cmd, 0),
        px(port, PortReg::Clb, place),
        px(port, PortReg::Clbu, 0),
        px(port, PortReg::Fb, place | 0x400),
        px(port, PortReg::Fbu, 0),
    ]
}

/// What it writes where port 0 has that disk: then FRE; COMRESET; PxSERR and PxIS; ST, with FRE and FR as they were
/// read; slot 0; PxIE; and GHC with AE and IE (AHCI 1.3.1, 3.1.2, 3.3 and 10.1.2).
fn writes_of_a_ready_port() -> [AdapterCall; 16] {
    let mut writes = [ENABLE; 16];
    writes[..7].copy_from_slice(&first_writes(0, 0));
    writes[7..].copy_from_slice(&[
        px(0, PortReg::Cmd, 0x10),
        px(0, PortReg::Sctl, 1),
        px(0, PortReg::Sctl, 0),
        px(0, PortReg::Serr, 0xffff_ffff),
        px(0, PortReg::Is, 0xffff_ffff),
        px(0, PortReg::Cmd, 0x4011),
        px(0, PortReg::Ci, 1),
        px(0, PortReg::Ie, 0x7840_004b),
        ALLOW_INTERRUPTS,
    ]);
    writes
}

/// The boot of an adapter with these ports, of which port 0 alone has a disk, where one is wanted in it.
const fn port_0_is_ready(pi: u8, wanted: [Wanted; PORTS], writes: &[AdapterCall]) -> Boot {
    Boot {
        pi,
        wanted,
        found: [ready(8), UNSERVED, UNSERVED, UNSERVED],
        read: (Port(0), 1),
        touched: [true, false, false, false],
        writes,
    }
}

// Port 2 has no disk: a wait for a device is 64 readings. PI of the last adapter shows port 0 alone.
#[test]
fn ports_that_are_wanted_and_there_are_booted(rt: HostRuntime) -> Result<(), Fail> {
    let ready_port = writes_of_a_ready_port();
    let wanted_of_one = [Wanted::Any, Wanted::Any, NONE, NONE];
    for boot in [
        Boot {
            pi: ALL_PORTS,
            wanted: [NONE; PORTS],
            found: [UNSERVED; PORTS],
            read: (Port(0), 0),
            touched: [false; PORTS],
            writes: &[ENABLE, ALLOW_INTERRUPTS],
        },
        port_0_is_ready(ALL_PORTS, ONLY_IMAGE_DISK_WANTED, &ready_port),
        Boot {
            pi: ALL_PORTS,
            wanted: [NONE, NONE, Wanted::Any, NONE],
            found: [UNSERVED, UNSERVED, ABSENT, UNSERVED],
            read: (Port(2), 64),
            touched: [false, false, true, false],
            writes: &first_writes(2, 0x2_6000),
        },
        port_0_is_ready(1, wanted_of_one, &ready_port),
    ] {
        check(&rt, &boot)?;
    }
    Ok(())
}
