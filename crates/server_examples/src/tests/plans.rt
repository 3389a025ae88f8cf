// What a configuration asks of a server, and which values break its rules. Texts of configurations stand in the cases
// of the program.
use super::servers::{QUEUED_CONFIG, config};
use ata_types::{ClientId, Frame, GrantRow, Port, Rights, Sector};
use configuration::{ClientConfig, Config, FaultKind, GrantConfig, Plan, PortConfig};
use identify::Wanted;
use std::alloc::Global;
use std::test::Fail;

fn grant(alloc: Global, number: u64, rights: &str) -> Result<GrantConfig, Fail> {
    Ok(GrantConfig {
        client: 1,
        number,
        port: 0,
        first: 7,
        count: 9,
        rights: String::from_str(alloc, rights)?,
    })
}

/// Client 1's grant of sectors of port 0, with the rights to read, write, trim and flush.
const fn row(number: u8, first: u64, count: u64, rights: [bool; 4]) -> GrantRow {
    let [read, write, trim, flush] = rights;
    GrantRow {
        client: ClientId(1),
        number,
        port: Port(0),
        first: Sector(first),
        count,
        rights: Rights {
            read,
            write,
            trim,
            flush,
        },
    }
}

const fn client(id: u64, first_frame: u64) -> ClientConfig {
    ClientConfig {
        id,
        first_frame,
        frames: 1,
    }
}

static OWNERS: &[(ClientId, Frame, u16)] = &[
    (ClientId(1), Frame(76), 160),
    (ClientId(8), Frame(511), 1),
];

const WANTED: [Wanted; 4] = [
    Wanted::Serial(*b"IMAGEDISK           "),
    Wanted::Serial(*b"TWENTY CHARACTERS 20"),
    Wanted::Nothing,
    Wanted::Any,
];

/// The configuration with two ports, a client and a grant for each right more.
fn enlarged(alloc: Global) -> Result<Config, Fail> {
    let mut config = config(alloc, QUEUED_CONFIG)?;
    for (number, serial) in [(3, None), (1, Some("TWENTY CHARACTERS 20"))] {
        let serial = match serial {
            Some(text) => Some(String::from_str(alloc, text)?),
            None => None,
        };
        config.port.push(PortConfig { number, serial })?;
    }
    config.client.push(client(8, 511))?;
    for (number, letters) in [(1, "r"), (2, "w"), (3, "t"), (63, "f")] {
        config.grant.push(grant(alloc, number, letters)?)?;
    }
    Ok(config)
}

// Slots, queuing, depth and trims are what no script shows.
#[test]
fn a_configuration_is_planned(rt: HostRuntime) -> Result<(), Fail> {
    let config = enlarged(rt.alloc())?;
    let of_disk = (config.slots, config.ncq, config.depth);
    assert_eq!(rt; (of_disk, config.trim.as_str()), ((32, true, 32), "full"));
    let plan = Plan::of(&config).ok().ok_or("refused")?;
    let grants = [
        row(0, 100, 1024, [true; 4]),
        row(1, 7, 9, [true, false, false, false]),
        row(2, 7, 9, [false, true, false, false]),
        row(3, 7, 9, [false, false, true, false]),
        row(63, 7, 9, [false, false, false, true]),
    ];
    assert_eq!(rt; (plan.frames(), *plan.wanted()), (512, WANTED));
    assert_eq!(rt; (plan.owners(), plan.grants()), (OWNERS, &grants[..]));
    Ok(())
}

/// What is added to a configuration: a port, a client with its first frame and how many, or a grant with its client,
/// number and port.
#[derive(Clone, Copy)]
enum Added {
    Port(u64),
    Client(u64, u64, u64),
    Grant(u64, u64, u64),
}

// Each is added to the ones before it, and each further fault is of a lesser kind. No text has the last client.
#[test]
fn values_that_break_a_rule_are_refused(rt: HostRuntime) -> Result<(), Fail> {
    let mut config = config(rt.alloc(), QUEUED_CONFIG)?;
    for (added, kind) in [
        (Added::Client(8, 511, 1), None),
        (Added::Grant(8, 1, 0), None),
        (Added::Grant(1, 1, 1), Some(FaultKind::UnknownPort)),
        (Added::Grant(2, 1, 0), Some(FaultKind::UnknownClient)),
        (Added::Client(3, 115, 1), Some(FaultKind::SharedFrames)),
        (Added::Port(0), Some(FaultKind::Duplicate)),
        (
            Added::Client(1, u64::MAX, u64::MAX),
            Some(FaultKind::OutOfRange),
        ),
    ] {
        match added {
            Added::Port(number) => config.port.push(PortConfig {
                number,
                serial: None,
            })?,
            Added::Client(id, first_frame, frames) => config.client.push(ClientConfig {
                id,
                first_frame,
                frames,
            })?,
            Added::Grant(client, number, port) => config.grant.push(GrantConfig {
                client,
                number,
                port,
                ..grant(rt.alloc(), number, "w")?
            })?,
        }
        assert_eq!(rt;
            (config.check().err(), Plan::of(&config).err()),
            (kind, kind)
        );
    }
    Ok(())
}
