// What a server does to its adapter, seen through one that watches, and calls that no line of a script spells.
ghost use Rattle.std.specs.Prelude.{◌≡◌, IfOk, true};
ghost use Rattle.block_server.specs.{InitialServer.{IsReadyFor}, ServerView.{server_of}};
ghost use Rattle.server_history.specs.Histories.{StartsHistory};
ghost use Rattle.configuration.specs.Rules.{LacksEveryFault};

use super::boots::UNSIGNED_PAGE;
use super::watched::{AdapterCall, Lie, NO_LIE, Watched, lie};
use adapter::{Adapter, DeviceStep};
use arrayvec::ArrayVec;
use ata_types::{ClientId, Frame, MemFault, Op, Port, PortState, Refusal, Request, Rule, Sector};
use block_server::Server;
use configuration::Config;
use device_model::Model;
use hba_regs::{PortReg, Reg};
use play::new_model;
use sector_store::MemStore;
use std::alloc::Global;
use std::process::Abort;
use std::test::Fail;

/// A configuration with this adapter and this disk: client 1 owns frames 76 to 235, and may do all with these sectors,
/// which are 100 to 1123 unless others are named.
macro_rules! text_with {
    ($model:literal) => {
        text_with!($model, "first = 100\ncount = 1024\n")
    };
    ($model:literal, $sectors:literal) => {
        concat!(
            $model,
            "frames = 512
trim = \"full\"
[[port]]
number = 0
serial = \"IMAGEDISK\"
[[client]]
id = 1
first_frame = 76
frames = 160
[[grant]]
client = 1
number = 0
port = 0
",
            $sectors,
            "rights = \"rwtf\"
"
        )
    };
}

/// Commands are plain.
const PLAIN: &str = text_with!("slots = 1\nncq = false\ndepth = 1\n");

/// Commands are queued.
pub const QUEUED_CONFIG: &str = text_with!("slots = 32\nncq = true\ndepth = 32\n");

/// And the client may do all with the disk.
pub const ALL_SECTORS_CONFIG: &str = text_with!(
    "slots = 32\nncq = true\ndepth = 32\n",
    "first = 0\ncount = 70000\n"
);

/// Neither adapter nor disk queues commands.
pub const UNQUEUED_CONFIG: &str = text_with!("slots = 32\nncq = false\ndepth = 32\n");

/// With disks that have a volatile write cache.
pub const CACHED_CONFIG: &str = text_with!("slots = 32\nncq = true\ndepth = 32\ncache = true\n");

/// The values of the text.
pub fn config(alloc: Global, text: &str) -> Result<Config, Fail>
    ensures { IfOk result LacksEveryFault }
{
    Ok(
        Config::parse(alloc, text.as_bytes())
            .ok()
            .ok_or("the text is wrong")?,
    )
}

/// The model that the configuration asks for, with a disk of so many sectors in port 0.
pub fn model_of(alloc: Global, config: &Config, sectors: u32) -> Result<Model<MemStore>, Fail>
    requires { LacksEveryFault config.now }
    ensures ready { IfOk result (λ m. IsReadyFor config.now (⟦<Model<MemStore> as Adapter>⟧.device m)) }
    ensures disks_tell_sectors { IfOk result (λ m.
        (⟦<Model<MemStore> as Adapter>⟧.device m).disks_tell_sectors ≡ true) }
{
    let image = MemStore::new(alloc, sectors)?;
    Ok(new_model(alloc, config, image, MemStore::new(alloc, 0)?)?)
}

/// A server of which nothing was asked, over the model that the text asks for, with a disk of 356 sectors in memory.
pub fn new_server(alloc: Global, text: &str) -> Result<Server<Model<MemStore>>, Fail>
    ensures begun { IfOk result (λ s. StartsHistory (server_of ⟦<Model<MemStore> as Adapter>⟧.device s)) }
    ensures disks_tell_sectors { IfOk result (λ s.
        (⟦<Model<MemStore> as Adapter>⟧.device s.adapter).disks_tell_sectors ≡ true) }
{
    let config = config(alloc, text)?;
    let model = model_of(alloc, &config, 356)?;
    match Server::new(alloc, config, model) {
        Ok(server) => Ok(server),
        Err(_) => Err(Fail::from("no server")),
    }
}

/// Client 1's request by its grant, with so many frames from one on.
pub fn request(op: Op, first: u64, count: u32, frame: u16, frames: u16) -> Request {
    let mut list = ArrayVec::new();
    for next in frame..frame.saturating_add(frames) {
        let _full = list.try_push(Frame(next)).is_err();
    }
    Request {
        client: ClientId(1),
        grant: 0,
        op,
        first: Sector(first),
        count,
        frames: list,
    }
}

/// The bytes of a slot's header, of its FIS, and of its first and its 128th entry.
type Slot = ([u8; 16], [u8; 20], [u8; 16], [u8; 16]);

/// Bytes from a place of memory on.
fn piece<const N: usize>(memory: &[u8], place: usize) -> [u8; N] {
    let mut piece = [0; N];
    for (to, from) in piece.iter_mut().zip(memory.iter().skip(place)) {
        *to = *from;
    }
    piece
}

/// An adapter once a server was made over it, has issued the requests, and has served, which answers nobody; and how
/// many accesses there were before that.
fn served(
    rt: &(impl Abort + AllocGlobal),
    text: &str,
    requests: &[Request],
) -> Result<(Watched<Model<MemStore>>, usize), Fail> {
    let config = config(rt.alloc(), text)?;
    let watched = Watched::new(rt.alloc(), model_of(rt.alloc(), &config, 1124)?)?;
    let Ok(server) = Server::new(rt.alloc(), config, watched) else {
        return Err(Fail::from("no server"));
    };
    let mut server = server;
    let mut accepted = true;
    for request in requests {
        accepted &= server.submit(request).is_ok();
    }
    let before = server.adapter().accesses.len();
    let replies = server.service().len();
    let watched = server.close();
    assert_eq!(rt; (accepted, replies), (true, 0));
    Ok((watched, before))
}

/// Compares what stands in memory for a slot once a server is made, and has issued the requests; and the accesses of a
/// service then.
fn check(
    rt: &(impl Abort + AllocGlobal),
    text: &str,
    requests: &[Request],
    slot: u8,
    wanted: Slot,
    accesses: &[AdapterCall],
) -> Result<(), Fail> {
    let (watched, before) = served(rt, text, requests)?;
    let low = watched.low_memory.as_slice();
    let table = 0x1000 + 0x880 * usize::from(slot);
    let (header, fis) = (piece(low, 0x20 * usize::from(slot)), piece(low, table));
    let (first, last) = (piece(low, table + 0x80), piece(low, table + 0x870));
    assert_eq!(rt; (header, fis, first, last), wanted);
    assert_eq!(rt; watched.accesses.get(before..), Some(accesses));
    Ok(())
}

const NO_ENTRY: [u8; 16] = [0; 16];

/// The header of a read in slot 0 with one entry, and of a write. Bytes 2 and 3 have the number of entries, and the
/// table's place, 1000h, stands from byte 8 on (AHCI 1.3.1, 4.2.2).
const READ_HEADER: [u8; 16] = [5, 0, 1, 0, 0, 0, 0, 0, 0, 0x10, 0, 0, 0, 0, 0, 0];

const WRITE_HEADER: [u8; 16] = [0x45, 0, 1, 0, 0, 0, 0, 0, 0, 0x10, 0, 0, 0, 0, 0, 0];

/// The header of a read in slot 5, whose table stands at 3A80h.
const HEADER_OF_5: [u8; 16] = [5, 0, 1, 0, 0, 0, 0, 0, 0x80, 0x3a, 0, 0, 0, 0, 0, 0];

/// One that has no entry.
const FLUSH_HEADER: [u8; 16] = [5, 0, 0, 0, 0, 0, 0, 0, 0, 0x10, 0, 0, 0, 0, 0, 0];

/// All of frame 76, all of the 32 frames from 81 on, and three sectors of frame 77. An entry has the place of a frame,
/// and the number of its bytes less one (AHCI 1.3.1, 4.2.3).
const FRAME_76: [u8; 16] = [0, 0xc0, 4, 0, 0, 0, 0, 0, 0, 0, 0, 0, 0xff, 0x0f, 0, 0];

const LONG_RUN: [u8; 16] = [0, 0x10, 5, 0, 0, 0, 0, 0, 0, 0, 0, 0, 0xff, 0xff, 1, 0];

const FRAME_77: [u8; 16] = [0, 0xd0, 4, 0, 0, 0, 0, 0, 0, 0, 0, 0, 0xff, 0x05, 0, 0];

/// The 128 frames from 76 on, and the last of those that fall to it.
const WIDE_RUN: [u8; 16] = [0, 0xc0, 4, 0, 0, 0, 0, 0, 0, 0, 0, 0, 0xff, 0xff, 7, 0];

const FRAME_203: [u8; 16] = [0, 0xb0, 12, 0, 0, 0, 0, 0, 0, 0, 0, 0, 0xff, 0x0f, 0, 0];

/// A sector of the port's scratch frame, frame 18: there a page comes to, and a block of a trim stands.
const SCRATCH: [u8; 16] = [0, 0x20, 1, 0, 0, 0, 0, 0, 0, 0, 0, 0, 0xff, 1, 0, 0];

/// A Register FIS from host to device (Serial ATA), by its code, and by features and count, the low byte first. It is
/// of a read or a write of sectors from 100 on.
macro_rules! h2d {
    ($code:literal, $features:tt, $count:tt) => {
        h2d!($code, $features, $count, 0x64, 0x40)
    };
    (
        $code:literal,
        [$features:literal, $features_high:literal],
        [$count:literal, $count_high:literal],
        $sector:literal,
        $device:literal
    ) => {
        [
            0x27, 0x80, $code, $features, $sector, 0, 0, $device, 0, 0, 0, $features_high, $count,
            $count_high, 0, 0, 0, 0, 0, 0,
        ]
    };
}

/// One of a command that has no sectors in its fields.
macro_rules! bare {
    ($code:literal, $features:tt, $count:tt) => {
        h2d!($code, $features, $count, 0, 0)
    };
}

/// IDENTIFY DEVICE.
static IDENTIFY: Slot = (READ_HEADER, bare!(0xec, [0, 0], [0, 0]), SCRATCH, NO_ENTRY);

/// A read of eight sectors into frame 76, by READ DMA EXT.
static SHORT_READ: Slot = (READ_HEADER, h2d!(0x25, [0, 0], [8, 0]), FRAME_76, NO_ENTRY);

/// A read of 256 sectors into frames 81 to 112, by READ DMA EXT: one entry has them all.
static LONG_READ: Slot = (READ_HEADER, h2d!(0x25, [0, 0], [0, 1]), LONG_RUN, NO_ENTRY);

/// A write of three sectors from frame 77, by WRITE DMA EXT.
static WRITE: Slot = (WRITE_HEADER, h2d!(0x35, [0, 0], [3, 0]), FRAME_77, NO_ENTRY);

/// The short read by READ FPDMA QUEUED, in slot 0: the sectors stand in the features field, and the tag in bits
/// 7:3 of the count field (ACS-3).
static QUEUED_SHORT_READ: Slot = (READ_HEADER, h2d!(0x60, [8, 0], [0, 0]), FRAME_76, NO_ENTRY);

/// The long read by READ FPDMA QUEUED, in slot 5.
static QUEUED_LONG_READ: Slot = (
    HEADER_OF_5,
    h2d!(0x60, [0, 1], [0x28, 0]),
    LONG_RUN,
    NO_ENTRY,
);

/// A read of 1,024 sectors by READ FPDMA QUEUED, in slot 0, into frames 76 to 203: one entry has the 512 KiB.
static WIDE_READ: Slot = (READ_HEADER, h2d!(0x60, [0, 4], [0, 0]), WIDE_RUN, NO_ENTRY);

/// The same from frame 203 down to 76: of the 128 entries the first is of frame 203, and the last of frame 76.
static FALLING_READ: Slot = (
    [5, 0, 0x80, 0, 0, 0, 0, 0, 0, 0x10, 0, 0, 0, 0, 0, 0],
    h2d!(0x60, [0, 4], [0, 0]),
    FRAME_203,
    FRAME_76,
);

/// The wide read by READ DMA EXT, where commands are plain.
static PLAIN_WIDE_READ: Slot = (READ_HEADER, h2d!(0x25, [0, 0], [0, 4]), WIDE_RUN, NO_ENTRY);

/// The write by WRITE FPDMA QUEUED, in slot 0.
static QUEUED_WRITE: Slot = (WRITE_HEADER, h2d!(0x61, [3, 0], [0, 0]), FRAME_77, NO_ENTRY);

/// A trim, by DATA SET MANAGEMENT with one block, which stands at 12000h, in the port's scratch frame.
static TRIM: Slot = (WRITE_HEADER, bare!(6, [1, 0], [1, 0]), SCRATCH, NO_ENTRY);

/// A flush, by FLUSH CACHE EXT, which has no entry: behind its FIS stands still what the boot's IDENTIFY DEVICE had.
static FLUSH: Slot = (FLUSH_HEADER, bare!(0xea, [0, 0], [0, 0]), SCRATCH, NO_ENTRY);

// The boot's IDENTIFY DEVICE ended with a PIO Setup FIS, which PSS of PxIS tells (AHCI 1.3.1, 3.3.5). A service writes
// back what it read there, and then the port's bit of IS alone (3.1.3), and reads PxSSTS; and then PxCI and PxSACT,
// where there is a request.
static SERVICE: [AdapterCall; 6] = [
    AdapterCall::Read(Reg::Px(Port(0), PortReg::Is)),
    AdapterCall::Write(Reg::Px(Port(0), PortReg::Is), 2),
    AdapterCall::Write(Reg::Is, 1),
    AdapterCall::Read(Reg::Px(Port(0), PortReg::Ssts)),
    AdapterCall::Read(Reg::Px(Port(0), PortReg::Ci)),
    AdapterCall::Read(Reg::Px(Port(0), PortReg::Sact)),
];

/// A read of 1,024 sectors from 100 on into the frames from 203 down to 76.
fn falling_read() -> Request {
    let mut read = request(Op::Read, 100, 1024, 76, 128);
    let mut falling = ArrayVec::new();
    for frame in read.frames.as_slice().iter().rev() {
        let _full = falling.try_push(*frame).is_err();
    }
    read.frames = falling;
    read
}

#[test]
fn commands_stand_in_memory(rt: HostRuntime) -> Result<(), Fail> {
    check(&rt, PLAIN, &[], 0, IDENTIFY, &SERVICE[..4])?;
    for (asked, wanted) in [
        (request(Op::Read, 100, 8, 76, 1), SHORT_READ),
        (request(Op::Read, 100, 256, 81, 32), LONG_READ),
        (request(Op::Write, 100, 3, 77, 1), WRITE),
        (request(Op::Read, 100, 1024, 76, 128), PLAIN_WIDE_READ),
    ] {
        check(&rt, PLAIN, &[asked], 0, wanted, &SERVICE)?;
    }
    Ok(())
}

#[test]
fn queued_commands_stand_in_memory(rt: HostRuntime) -> Result<(), Fail> {
    for (asked, wanted) in [
        (request(Op::Read, 100, 8, 76, 1), QUEUED_SHORT_READ),
        (request(Op::Write, 100, 3, 77, 1), QUEUED_WRITE),
        (request(Op::Read, 100, 1024, 76, 128), WIDE_READ),
        (falling_read(), FALLING_READ),
        (request(Op::Flush, 0, 0, 0, 0), FLUSH),
    ] {
        check(&rt, QUEUED_CONFIG, &[asked], 0, wanted, &SERVICE)?;
    }
    let six = [
        request(Op::Read, 100, 1, 76, 1),
        request(Op::Read, 100, 1, 77, 1),
        request(Op::Read, 100, 1, 78, 1),
        request(Op::Read, 100, 1, 79, 1),
        request(Op::Read, 100, 1, 80, 1),
        request(Op::Read, 100, 256, 81, 32),
    ];
    check(&rt, QUEUED_CONFIG, &six, 5, QUEUED_LONG_READ, &SERVICE)
}

#[test]
fn trims_stand_in_memory(rt: HostRuntime) -> Result<(), Fail> {
    let trim = [request(Op::Trim, 120, 200, 0, 0)];
    check(&rt, QUEUED_CONFIG, &trim, 0, TRIM, &SERVICE)?;
    // One entry of the block names 200 sectors from 120 on; the next one is zero.
    let (watched, _before) = served(&rt, QUEUED_CONFIG, &trim)?;
    let block: [u8; 16] = piece(watched.adapter.memory(), 0x1_2000);
    let wanted = [0x78, 0, 0, 0, 0, 0, 0xc8, 0, 0, 0, 0, 0, 0, 0, 0, 0];
    assert_eq!(rt; block, wanted);
    Ok(())
}

/// How often PxSACT and PxCI of port 0 are written for two reads, which are asked for one after the other, where the
/// disk lies so of its page.
fn issues(alloc: Global, text: &str, lies: [Lie; 2]) -> Result<(usize, usize), Fail> {
    let config = config(alloc, text)?;
    let mut model = model_of(alloc, &config, 356)?;
    let [one, another] = lies;
    lie(&mut model, one);
    lie(&mut model, another);
    let Ok(server) = Server::new(alloc, config, Watched::new(alloc, model)?) else {
        return Err(Fail::from("no server"));
    };
    let mut server = server;
    let before = server.adapter().accesses.len();
    let first = server.submit(&request(Op::Read, 100, 8, 76, 1)).is_ok();
    let second = server.submit(&request(Op::Read, 108, 8, 77, 1)).is_ok();
    let watched = server.close();
    if !first || !second {
        return Err(Fail::from("a read is refused"));
    }
    let written = |wanted: PortReg| {
        watched
            .accesses
            .iter()
            .skip(before)
            .filter(
                |access| matches!(access, AdapterCall::Write(Reg::Px(Port(0), reg), _) if *reg == wanted),
            )
            .count()
    };
    Ok((written(PortReg::Sact), written(PortReg::Ci)))
}

/// The page's bit of native command queuing is turned: bit 8 of word 76 (ACS-3, 7.12.7).
const TURNED: Lie = (153, 0x01);

// A read waits for the one before it where adapter or disk doesn't queue commands.
#[test]
fn commands_are_queued_where_both_can(rt: HostRuntime) -> Result<(), Fail> {
    for (text, lies, what) in [
        (QUEUED_CONFIG, [NO_LIE, NO_LIE], (2, 2)),
        (QUEUED_CONFIG, [UNSIGNED_PAGE, TURNED], (0, 1)),
        (UNQUEUED_CONFIG, [UNSIGNED_PAGE, TURNED], (0, 1)),
        (UNQUEUED_CONFIG, [NO_LIE, NO_LIE], (0, 1)),
    ] {
        let issues = issues(rt.alloc(), text, lies)?;
        assert_eq!(rt; issues, what, "{lies:?}");
    }
    Ok(())
}

// FISes of a disk (Serial ATA). The status is 7Fh without BSY and DRQ, which PxTFD shows here from the first FIS on,
// but for DRQ of a PIO Setup FIS, whose ending status has it no more; it tells of 200h bytes. All but the signature
// asks for an interrupt.
const SETUP: [u8; 20] = [
    0x5f, 0x60, 0x7f, 0, 0, 0, 0, 0, 0, 0, 0, 0, 0, 0, 0, 0x77, 0, 2, 0, 0,
];

const SIGNATURE: [u8; 20] = [
    0x34, 0, 0x77, 0, 1, 0, 0, 0, 0, 0, 0, 0, 1, 0, 0, 0, 0, 0, 0, 0,
];

const END: [u8; 20] = [
    0x34, 0x40, 0x77, 0, 0, 0, 0, 0, 0, 0, 0, 0, 0, 0, 0, 0, 0, 0, 0, 0,
];

/// A received FIS area: a PIO Setup FIS stands at 20h, a Register FIS at 40h (AHCI 1.3.1, 4.2.1), and elsewhere there
/// are zeros.
fn received(registers: [u8; 20]) -> [u8; 256] {
    let mut area = [0; 256];
    area[0x20..0x34].copy_from_slice(&SETUP);
    area[0x40..0x54].copy_from_slice(&registers);
    area
}

#[test]
fn fises_stand_in_memory(rt: HostRuntime) -> Result<(), Fail> {
    let mut server = new_server(rt.alloc(), PLAIN)?;
    let booted = piece(server.adapter().memory(), 0x400);
    let accepted = server.submit(&request(Op::Write, 100, 3, 77, 1)).is_ok();
    let ended = server.device(&DeviceStep::Finish(Port(0), ata_types::Slot(0)));
    let written = piece(server.adapter().memory(), 0x400);
    let _model = server.close();
    assert_eq!(rt; (accepted, ended), (true, true));
    assert!(rt; booted == received(SIGNATURE));
    assert!(rt; written == received(END));
    Ok(())
}

#[test]
fn unspelled_calls_are_answered(rt: HostRuntime) -> Result<(), Fail> {
    let mut server = new_server(rt.alloc(), PLAIN)?;
    let asked = server.submit(&request(Op::Flush, 0, 8, 0, 0));
    let past_all = server.state(Port(4));
    let at_end = server.client_store(ClientId(1), Frame(76), 4096, &[]);
    let past_end = server.client_store(ClientId(1), Frame(76), 4097, &[]);
    let _model = server.close();
    assert_eq!(rt;
        (asked, past_all, at_end, past_end),
        (
            Err(Refusal::Rule(Rule::BadCount)),
            PortState::Absent,
            Ok(()),
            Err(MemFault::OutsideFrame),
        )
    );
    Ok(())
}

/// A plain command failed: status 41h, with ERR, and error 40h, UNC (ACS-3, 6.2 and 6.3).
const FAILED: [u8; 20] = [
    0x34, 0x40, 0x41, 0x40, 0, 0, 0, 0, 0, 0, 0, 0, 0, 0, 0, 0, 0, 0, 0, 0,
];

/// A queued one did, so: no tag has ended.
const FAILED_QUEUED: [u8; 8] = [0xa1, 0x40, 0x41, 0x40, 0, 0, 0, 0];

/// The received FIS area, once a write was taken and has failed.
fn area_after_a_fault(alloc: Global, text: &str) -> Result<[u8; 256], Fail> {
    let mut server = new_server(alloc, text)?;
    let slot = ata_types::Slot(0);
    let accepted = server.submit(&request(Op::Write, 100, 3, 77, 1)).is_ok();
    let taken = server.device(&DeviceStep::Fetch(Port(0), slot));
    let failed = server.device(&DeviceStep::Fault(Port(0), slot, 0x40));
    let area = piece(server.adapter().memory(), 0x400);
    let _model = server.close();
    if accepted && taken && failed {
        Ok(area)
    } else {
        Err(Fail::from("no write has failed"))
    }
}

// A Set Device Bits FIS stands at 58h (AHCI 1.3.1, 4.2.1), beside the first FIS of the disk.
#[test]
fn fises_of_faults_stand_in_memory(rt: HostRuntime) -> Result<(), Fail> {
    let plain = area_after_a_fault(rt.alloc(), PLAIN)?;
    let queued = area_after_a_fault(rt.alloc(), QUEUED_CONFIG)?;
    let mut wanted = received(SIGNATURE);
    wanted[0x58..0x60].copy_from_slice(&FAILED_QUEUED);
    assert!(rt; plain == received(FAILED));
    assert!(rt; queued == wanted);
    Ok(())
}
