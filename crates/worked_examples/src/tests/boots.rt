// Models that are taken over: what port 0 is found to be, what a register shows then, and the page that its disk has
// sent.
ghost use Rattle.std.specs.Prelude.{◌≡◌, ◌≤◌, IfOk};
ghost use Rattle.adapter.specs.Idle.{IsIdle};

use adapter::{
    Adapter, DeviceStep, Direction, DiskNumber, DiskPage, Entry, Move, Operation, Stepped,
};
use ata_types::{DRIVER_BYTES, FEWEST_FRAMES, PORTS, Port, PortState, SCRATCH_OFFSET, Slot};
use device_model::{Disks, Model, ModelConfig, Trim};
use hba_regs::Reg;
use host_boot::{ProbeResult, take_over};
use identify::{DiskInfo, Wanted};
use sector_store::MemStore;
use std::alloc::Global;
use std::test::Fail;

const SECTORS: u32 = 256;

const SERIAL: [u8; 20] = *b"IMAGEDISK           ";

/// A disk is wanted in port 0, and none in the others.
const ONLY_IMAGE_DISK_WANTED: [Wanted; PORTS] = [
    Wanted::Serial(SERIAL),
    Wanted::Nothing,
    Wanted::Nothing,
    Wanted::Nothing,
];

const READY: ProbeResult = ProbeResult::Ready(DiskInfo {
    serial: SERIAL,
    depth: 32,
    ncq: true,
    sectors: SECTORS as u64,
    trim: true,
});

/// A step that does nothing.
const NOTHING: DeviceStep = DeviceStep::Release(Port(3));

/// The number of an access that doesn't come.
const NEVER: u64 = u64::MAX;

/// What is done before a model is taken over, and what is found then.
#[derive(Clone, Copy)]
struct Case {
    what: &'static str,
    /// The ports that there are, by the bits of PI.
    pi: u8,
    /// Lies, the truth, holds and releases.
    told: [DeviceStep; 3],
    /// Before the accesses with these numbers.
    queued: [(u64, DeviceStep); 2],
    found: ProbeResult,
    /// What the register shows.
    shown: (Reg, u32),
    /// The places and bytes in which the page that came isn't that of the disk; `None` says that none came.
    page: Option<&'static [(usize, u8)]>,
}

/// A disk that is left alone.
const PLAIN: Case = Case {
    what: "an ordinary disk",
    pi: 0x0f,
    told: [NOTHING; 3],
    queued: [(NEVER, NOTHING); 2],
    found: READY,
    shown: (Reg::Vs, 0x0001_0301),
    page: Some(&[]),
};

/// The disk of a port lies of bits of a byte of its page.
macro_rules! lie {
    ($port:literal, $offset:literal, $bits:literal) => {
        DeviceStep::Lie(Port($port), DiskPage::Identity, $offset, $bits)
    };
}

const TRUTH: DeviceStep = DeviceStep::Truth(Port(0));

const OTHER_TRUTH: DeviceStep = DeviceStep::Truth(Port(1));

static CASES: [Case; 12] = [
    PLAIN,
    // NP of CAP is the number of ports less one (AHCI 1.3.1, 3.1.1).
    Case {
        what: "CAP with four ports",
        shown: (Reg::Cap, 0x4000_1f03),
        ..PLAIN
    },
    Case {
        what: "PI with four ports",
        shown: (Reg::Pi, 0x0f),
        ..PLAIN
    },
    Case {
        what: "CAP with ports 0 and 2",
        pi: 5,
        shown: (Reg::Cap, 0x4000_1f01),
        ..PLAIN
    },
    Case {
        what: "PI with ports 0 and 2",
        pi: 5,
        shown: (Reg::Pi, 5),
        ..PLAIN
    },
    Case {
        what: "lies turn bits of the page",
        told: [lie!(0, 510, 0x0f), lie!(0, 510, 0x01), lie!(0, 0, 0x80)],
        page: Some(&[(0, 0x80), (510, 0xab)]),
        ..PLAIN
    },
    Case {
        what: "another port's disk lies, and tells the truth",
        told: [lie!(1, 1, 0xff), lie!(0, 0, 0xff), OTHER_TRUTH],
        found: ProbeResult::Unready(PortState::Unfit(1)),
        page: Some(&[(0, 0xff)]),
        ..PLAIN
    },
    Case {
        what: "the truth ends lies",
        told: [lie!(0, 0, 0xff), lie!(0, 200, 0x01), TRUTH],
        ..PLAIN
    },
    Case {
        what: "a disk that is taken out first",
        queued: [(1, DeviceStep::Unplug(Port(0))), (NEVER, NOTHING)],
        found: ProbeResult::Unready(PortState::Absent),
        page: None,
        ..PLAIN
    },
    // "BLANKDISK" has letters that sum to 659, "IMAGEDISK" to 654: the page's last byte is 5 less.
    Case {
        what: "another disk is put in first",
        queued: [
            (1, DeviceStep::Unplug(Port(0))),
            (1, DeviceStep::Plug(Port(0), DiskNumber(1))),
        ],
        found: ProbeResult::Unready(PortState::Foreign),
        page: Some(&[(20, b'L'), (21, b'B'), (22, b'N'), (25, b'K'), (511, 65)]),
        ..PLAIN
    },
    Case {
        what: "the link of a held port doesn't come up",
        told: [DeviceStep::Hold(Port(0)), NOTHING, NOTHING],
        found: ProbeResult::Unready(PortState::Absent),
        page: None,
        ..PLAIN
    },
    Case {
        what: "the link comes up after a release",
        told: [DeviceStep::Hold(Port(0)), NOTHING, NOTHING],
        queued: [(40, DeviceStep::Release(Port(0))), (NEVER, NOTHING)],
        ..PLAIN
    },
];

/// A byte of the page of disk 0 with 256 sectors: "IMAGEDISK", sectors, a queue of 32, queued commands and trims
/// (ACS-3, 7.12.7). The first 511 bytes sum to 1466, or 186 modulo 256, and 256 - 186 is 70.
fn page_byte(at: usize) -> u8 {
    match at {
        20..40 => b"MIGADESI K          "[at - 20],
        138 => 0x20,
        139 | 213 => 0x40,
        150 => 31,
        153 | 201 | 210 | 338 => 1,
        167 => 0x64,
        510 => 0xa5,
        511 => 70,
        _ => 0,
    }
}

/// The page with other bytes at some places.
fn page_but(others: &[(usize, u8)]) -> [u8; 512] {
    let mut page = [0; 512];
    for at in 0..512usize {
        page[at] = page_byte(at);
    }
    for (place, byte) in others {
        if *place < 512 {
            page[*place] = *byte;
        }
    }
    page
}

/// Whether it is the move of a page to the driver's scratch frame.
fn is_page(moved: &Move) -> bool {
    moved.port == Port(0)
        && moved.slot == Slot(0)
        && moved.operation == Operation::Identify
        && moved.direction == Direction::ToMemory
        && moved.sector == 0
        && moved.address == SCRATCH_OFFSET
}

/// Whether the tape tells of a page, the only one, and of the end of its command; or of no page.
fn has_page(tape: &[Entry], page: bool) -> bool {
    match tape {
        [Entry::Move(moved), Entry::Done(done)]
        | [
            Entry::Unplug(_),
            Entry::Plug(..),
            Entry::Move(moved),
            Entry::Done(done),
        ] => { page && is_page(moved) && done.operation == Operation::Identify }
        [] | [Entry::Unplug(_)] | [Entry::Fault(_)] => !page,
        _ => false,
    }
}

/// An adapter that keeps the page that was loaded last.
#[derive(Drop)]
struct Watched<A> {
    adapter: A,
    page: Option<[u8; 512]>,
}

impl<A: Adapter> Adapter for Watched<A> {
    ghost device = { λ w. A.device w.adapter };

    ghost access_count = { λ w. A.access_count w.adapter };

    fn read(&mut self, r: Reg) -> u32 {
        self.adapter.read(r)
    }

    fn write(&mut self, r: Reg, v: u32) {
        self.adapter.write(r, v);
    }

    fn load(&mut self, addr: u32, out: &mut [u8]) {
        self.adapter.load(addr, out);
        let mut page = [0; 512];
        for (kept, byte) in page.iter_mut().zip(out.iter()) {
            *kept = *byte;
        }
        self.page = Some(page);
    }

    fn store(&mut self, addr: u32, bytes: &[u8]) {
        self.adapter.store(addr, bytes);
    }

    ghost tells = { λ w. A.tells w.adapter };
}

/// Tells lies or the truth, holds or releases. Other steps aren't for it.
fn tell<A: Stepped>(adapter: &mut A, step: &DeviceStep)
    ensures { A.device adapter.new ≡ A.device adapter.old }
{
    if let DeviceStep::Lie(..)
    | DeviceStep::Truth(_)
    | DeviceStep::Hold(_)
    | DeviceStep::Release(_) = *step
    {
        let _did = adapter.step(step);
    }
}

/// Takes an adapter over: what port 0 is found to be, and what the register shows then, one of CAP, PI and VS.
fn taken_over<A: Adapter>(adapter: &mut A, r: Reg) -> (ProbeResult, u32)
    requires idle { IsIdle (A.device adapter.old) }
    requires room { DRIVER_BYTES ≤ (A.device adapter.old).memory_size }
{
    let host = take_over(adapter, &ONLY_IMAGE_DISK_WANTED);
    let shown = match r {
        Reg::Cap => adapter.read(Reg::Cap),
        Reg::Pi => adapter.read(Reg::Pi),
        _ => adapter.read(Reg::Vs),
    };
    (host.ports[0], shown)
}

/// A model with these ports, idle. Both disks of port 0 have as many sectors.
fn model(alloc: Global, pi: u8) -> Result<Model<MemStore>, Fail>
    requires { (1 ≤ pi) × (pi ≤ 15) }
    ensures idle { IfOk result (λ m. IsIdle (⟦<Model<MemStore> as Adapter>⟧.device m)) }
    ensures room { IfOk result (λ m. DRIVER_BYTES ≤ (⟦<Model<MemStore> as Adapter>⟧.device m).memory_size) }
{
    let config = ModelConfig {
        frames: FEWEST_FRAMES,
        slots: 32,
        ncq: true,
        depth: 32,
        trim: Trim::Full,
        cache: false,
    };
    let image = MemStore::new(alloc, SECTORS)?;
    let disks = Disks::of_port_0(image, MemStore::new(alloc, SECTORS)?);
    Ok(Model::with_disks(alloc, config, pi, disks)?)
}

/// Whether a model of this case is found as the case says.
fn is_as_said(alloc: Global, case: &Case) -> Result<bool, Fail>
    requires { (1 ≤ case.now.pi) × (case.now.pi ≤ 15) }
{
    let mut model = model(alloc, case.pi)?;
    let told = case.told;
    tell(&mut model, &told[0]);
    tell(&mut model, &told[1]);
    tell(&mut model, &told[2]);
    model.queue_step(case.queued[0].0, case.queued[0].1)?;
    model.queue_step(case.queued[1].0, case.queued[1].1)?;
    let mut watched = Watched {
        adapter: model,
        page: None,
    };
    let found = taken_over(&mut watched, case.shown.0);
    Ok(
        found == (case.found, case.shown.1)
            && watched.page == case.page.map(page_but)
            && has_page(watched.adapter.tape(), case.page.is_some()),
    )
}

/// The same of a case that may have any ports.
fn holds(alloc: Global, case: &Case) -> Result<bool, Fail> {
    if case.pi == 0 || case.pi > 15 {
        return Ok(false);
    }
    is_as_said(alloc, case)
}

/// The ordinary disk, with these steps before accesses.
fn with_steps(queued: [(u64, DeviceStep); 2]) -> Case {
    Case { queued, ..PLAIN }
}

#[test]
fn models_are_found_as_they_are(rt: HostRuntime) -> Result<(), Fail> {
    for case in &CASES {
        assert!(rt; holds(rt.alloc(), case)?, "{}", case.what);
    }
    Ok(())
}

/// A device that takes or moves the page of itself goes on by itself, and one that is held for so many accesses is
/// waited for.
#[test]
fn steps_before_any_access_change_nothing(rt: HostRuntime) -> Result<(), Fail> {
    for access in 1..60 {
        let taken = [
            (access, DeviceStep::Fetch(Port(0), Slot(0))),
            (access, DeviceStep::Move(Port(0), Slot(0))),
        ];
        assert!(rt;
            holds(rt.alloc(), &with_steps(taken))?,
            "taken before access {access}"
        );
        let held = [
            (access, DeviceStep::Hold(Port(0))),
            (access + 40, DeviceStep::Release(Port(0))),
        ];
        assert!(rt;
            holds(rt.alloc(), &with_steps(held))?,
            "held before access {access}"
        );
    }
    Ok(())
}

/// A device that is asked to fail IDENTIFY DEVICE does so before one access alone: the first reading of PxCI. There the
/// command is issued, and not taken yet. Its bit stays set, and no page comes.
#[test]
fn one_access_fails_the_page(rt: HostRuntime) -> Result<(), Fail> {
    let mut has_failed = false;
    for access in 1..60 {
        let left = with_steps([
            (access, DeviceStep::Fetch(Port(0), Slot(0))),
            (access, DeviceStep::Fault(Port(0), Slot(0), 0x04)),
        ]);
        let unfit = Case {
            found: ProbeResult::Unready(PortState::Unfit(9)),
            page: None,
            ..left
        };
        if holds(rt.alloc(), &unfit)? {
            assert!(rt; !has_failed, "again before access {access}");
            has_failed = true;
        } else {
            assert!(rt; holds(rt.alloc(), &left)?, "left before access {access}");
        }
    }
    assert!(rt; has_failed, "at some access");
    Ok(())
}
