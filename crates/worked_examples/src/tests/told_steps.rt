// What a new model does when it is told, and before an access. It isn't switched on, so that GHC alone is read and
// written.
use adapter::{Adapter, DeviceStep, DiskNumber, DiskPage, Entry, FatalError, Stepped};
use ata_types::{AdapterStuck, FEWEST_FRAMES, NoMemory, Port, Slot};
use device_model::{Model, ModelConfig, Trim};
use hba_regs::Reg;
use host_boot::reset;
use sector_store::MemStore;
use std::alloc::Global;
use std::test::Fail;

const CONFIG: ModelConfig = ModelConfig {
    frames: FEWEST_FRAMES,
    slots: 32,
    ncq: true,
    depth: 32,
    trim: Trim::Full,
    cache: false,
};

/// A disk that went or came.
#[derive(Clone, Copy)]
enum Change {
    Unplugged(Port),
    Plugged(Port, u32),
}

/// What is done to the model, or expected of it.
#[derive(Clone, Copy)]
enum Act {
    Does(DeviceStep),
    Refuses(DeviceStep),
    /// The step comes before the access with this number from now.
    Queue(u64, DeviceStep),
    /// GHC is read.
    Reads(u32),
    /// GHC is written.
    Writes(u32),
    /// The adapter is reset.
    Resets(Result<(), AdapterStuck>),
    /// These are the changes that the tape tells, and it tells nothing else.
    Tape(&'static [Change]),
}

const UNPLUG: DeviceStep = DeviceStep::Unplug(Port(0));

const PLUG: DeviceStep = DeviceStep::Plug(Port(0), DiskNumber(0));

const PLUG_OTHER: DeviceStep = DeviceStep::Plug(Port(0), DiskNumber(1));

const UNPLUGGED: Change = Change::Unplugged(Port(0));

const PLUGGED: Change = Change::Plugged(Port(0), 0);

const OTHER_PLUGGED: Change = Change::Plugged(Port(0), 1);

/// All ports are held, and then these acts follow.
macro_rules! while_all_are_held {
    ($($act:expr),* $(,)?) => {
        &[
            Act::Does(DeviceStep::Hold(Port(0))),
            Act::Does(DeviceStep::Hold(Port(1))),
            Act::Does(DeviceStep::Hold(Port(2))),
            Act::Does(DeviceStep::Hold(Port(3))),
            $($act),*
        ]
    };
}

static CASES: [(&str, &[Act]); 12] = [
    (
        "ports, slots, disks and bytes that aren't there",
        &[
            Act::Refuses(DeviceStep::Fetch(Port(9), Slot(0))),
            Act::Refuses(DeviceStep::Finish(Port(9), Slot(0))),
            Act::Refuses(DeviceStep::Finish(Port(1), Slot(0))),
            Act::Refuses(DeviceStep::Finish(Port(0), Slot(1))),
            Act::Refuses(DeviceStep::Fetch(Port(0), Slot(99))),
            Act::Refuses(DeviceStep::Hold(Port(4))),
            Act::Refuses(DeviceStep::Lie(Port(0), DiskPage::Identity, 512, 0xff)),
            Act::Refuses(DeviceStep::Lie(Port(0), DiskPage::Log, 512, 0xff)),
            Act::Refuses(DeviceStep::Fault(Port(9), Slot(0), 0x40)),
            Act::Refuses(DeviceStep::Fault(Port(0), Slot(99), 0x40)),
            Act::Refuses(DeviceStep::Fatal(Port(4), FatalError::Interface)),
            Act::Refuses(DeviceStep::Fatal(Port(0), FatalError::HostBus)),
            Act::Tape(&[]),
        ],
    ),
    (
        "a command that isn't taken doesn't fail, on no port; the page of the log is lied of",
        &[
            Act::Refuses(DeviceStep::Fault(Port(0), Slot(0), 0x40)),
            Act::Refuses(DeviceStep::Fault(Port(3), Slot(31), 0x10)),
            Act::Does(DeviceStep::Lie(Port(0), DiskPage::Log, 511, 0xff)),
            Act::Does(DeviceStep::Truth(Port(0))),
            Act::Tape(&[]),
        ],
    ),
    (
        "disks are taken out of port 0 and put in, disk 1 in place of disk 0, too",
        &[
            Act::Refuses(PLUG),
            Act::Refuses(PLUG_OTHER),
            Act::Refuses(DeviceStep::Unplug(Port(1))),
            Act::Does(UNPLUG),
            Act::Refuses(UNPLUG),
            Act::Refuses(DeviceStep::Plug(Port(0), DiskNumber(2))),
            Act::Refuses(DeviceStep::Plug(Port(1), DiskNumber(0))),
            Act::Does(PLUG),
            Act::Does(UNPLUG),
            Act::Does(PLUG_OTHER),
            Act::Refuses(PLUG),
            Act::Refuses(PLUG_OTHER),
            Act::Does(UNPLUG),
            Act::Does(PLUG_OTHER),
            Act::Does(UNPLUG),
            Act::Does(PLUG),
            Act::Tape(&[
                UNPLUGGED,
                PLUGGED,
                UNPLUGGED,
                OTHER_PLUGGED,
                UNPLUGGED,
                OTHER_PLUGGED,
                UNPLUGGED,
                PLUGGED,
            ]),
        ],
    ),
    (
        "a queued step is done before its access, and once",
        &[
            Act::Queue(2, UNPLUG),
            Act::Reads(0),
            Act::Tape(&[]),
            Act::Reads(0),
            Act::Tape(&[UNPLUGGED]),
            Act::Does(PLUG),
            Act::Reads(0),
            Act::Tape(&[UNPLUGGED, PLUGGED]),
            // The first access from now may be named by 0, too, and a write is one.
            Act::Queue(0, UNPLUG),
            Act::Tape(&[UNPLUGGED, PLUGGED]),
            Act::Writes(0),
            Act::Tape(&[UNPLUGGED, PLUGGED, UNPLUGGED]),
        ],
    ),
    (
        "queued steps before one access are done in their order",
        &[
            Act::Queue(1, PLUG),
            Act::Queue(1, UNPLUG),
            Act::Queue(1, PLUG),
            Act::Reads(0),
            Act::Tape(&[UNPLUGGED, PLUGGED]),
        ],
    ),
    (
        "the adapter is switched on",
        &[
            Act::Reads(0),
            Act::Writes(0x8000_0000),
            Act::Reads(0x8000_0000),
        ],
    ),
    (
        "a reset ends before a reading",
        &[Act::Writes(0x8000_0003), Act::Reads(0)],
    ),
    (
        "a reset waits while all ports are held",
        &[
            Act::Writes(0x8000_0001),
            Act::Does(DeviceStep::Hold(Port(0))),
            Act::Does(DeviceStep::Hold(Port(1))),
            Act::Does(DeviceStep::Hold(Port(2))),
            Act::Does(DeviceStep::Hold(Port(3))),
            Act::Reads(0x8000_0001),
            Act::Does(DeviceStep::Release(Port(3))),
            Act::Reads(0),
        ],
    ),
    (
        "a reset ends all holds",
        &[
            Act::Does(DeviceStep::Hold(Port(0))),
            Act::Does(DeviceStep::Hold(Port(1))),
            Act::Does(DeviceStep::Hold(Port(2))),
            Act::Writes(0x8000_0001),
            Act::Reads(0),
            // If ports 0 to 2 were held still, all were.
            Act::Does(DeviceStep::Hold(Port(3))),
            Act::Writes(0x8000_0001),
            Act::Reads(0),
        ],
    ),
    (
        "a driver's reset ends, and another one",
        &[Act::Resets(Ok(())), Act::Reads(0), Act::Resets(Ok(()))],
    ),
    // GHC is written first, and then read 64 times.
    (
        "a driver's reset ends with the last reading",
        while_all_are_held!(
            Act::Queue(65, DeviceStep::Release(Port(0))),
            Act::Resets(Ok(())),
        ),
    ),
    (
        "a driver's reset is given up after the last reading",
        while_all_are_held!(
            Act::Queue(66, DeviceStep::Release(Port(0))),
            Act::Resets(Err(AdapterStuck)),
            Act::Reads(0),
        ),
    ),
];

fn is_told(entry: &Entry, change: Change) -> bool {
    match (entry, change) {
        (Entry::Unplug(port), Change::Unplugged(told)) => *port == told,
        (Entry::Plug(port, disk), Change::Plugged(told, number)) => {
            *port == told && *disk == number
        }
        _ => false,
    }
}

fn are_told(tape: &[Entry], changes: &[Change]) -> bool {
    tape.len() == changes.len()
        && tape
            .iter()
            .zip(changes)
            .all(|(entry, change)| is_told(entry, *change))
}

// Through the traits' bounds.
fn step<A: Stepped>(adapter: &mut A, s: &DeviceStep) -> bool {
    adapter.step(s)
}

fn read<A: Adapter>(adapter: &mut A) -> u32 {
    adapter.read(Reg::Ghc)
}

fn write<A: Adapter>(adapter: &mut A, value: u32) {
    adapter.write(Reg::Ghc, value);
}

/// Whether it goes as the act says.
fn goes(model: &mut Model<MemStore>, act: Act) -> bool {
    match act {
        Act::Does(s) => step(model, &s),
        Act::Refuses(s) => !step(model, &s),
        Act::Queue(access, s) => model.queue_step(access, s).is_ok(),
        Act::Reads(value) => read(model) == value,
        Act::Writes(value) => {
            write(model, value);
            true
        }
        Act::Resets(result) => reset(model) == result,
        Act::Tape(changes) => are_told(model.tape(), changes),
    }
}

/// Which of the acts is the first on a new model that goes otherwise than it says, from 0; those after it aren't tried.
fn first_otherwise(alloc: Global, acts: &[Act]) -> Result<Option<usize>, NoMemory> {
    let image = MemStore::new(alloc, 16)?;
    let mut model = Model::new(alloc, CONFIG, image, MemStore::new(alloc, 16)?)?;
    for (place, act) in acts.iter().enumerate() {
        if !goes(&mut model, *act) {
            return Ok(Some(place));
        }
    }
    Ok(None)
}

#[test]
fn told_and_queued_steps(rt: HostRuntime) -> Result<(), Fail> {
    for (what, acts) in CASES {
        assert_eq!(rt; first_otherwise(rt.alloc(), acts)?, None, "{what}");
    }
    Ok(())
}
