// Steps as lines spell them, and answers that the program doesn't tell so far. The other lines and answers stand in the
// cases of the program.
use adapter::{Clear, DeviceStep, Direction, DiskNumber, DiskPage, FatalError, Move, Operation};
use arrayvec::ArrayVec;
use ata_types::{Call, ClientId, Outcome, Port, PortState, Refusal, Reply, RequestId, Slot};
use script::{Answer, BadLine, Misspelled, parse_line};
use std::alloc::AllocError;
use std::snapshot::Snapshot;

fn step_of(text: &[u8]) -> Option<DeviceStep> {
    match parse_line(text) {
        Some(Call::Device(step)) => Some(step),
        _ => None,
    }
}

/// Texts, and the steps that they are read as. No server shows which values a lie has. The last three are no lines; a
/// script has the first two beside its lines.
static STEPS: &[(&str, Option<DeviceStep>)] = &[
    ("dev fetch 3 31", Some(DeviceStep::Fetch(Port(3), Slot(31)))),
    ("dev move 3 31", Some(DeviceStep::Move(Port(3), Slot(31)))),
    (
        "dev clear 3 31 4294967295",
        Some(DeviceStep::Clear(Port(3), Slot(31), 4_294_967_295)),
    ),
    ("dev done 3 31", Some(DeviceStep::Done(Port(3), Slot(31)))),
    (
        "dev finish 3 31",
        Some(DeviceStep::Finish(Port(3), Slot(31))),
    ),
    (
        "dev fatal 3 ifs",
        Some(DeviceStep::Fatal(Port(3), FatalError::Interface)),
    ),
    (
        "dev fatal 3 hbfs",
        Some(DeviceStep::Fatal(Port(3), FatalError::HostBus)),
    ),
    ("dev unplug 3", Some(DeviceStep::Unplug(Port(3)))),
    (
        "dev plug 3 1",
        Some(DeviceStep::Plug(Port(3), DiskNumber(1))),
    ),
    ("dev hold 3", Some(DeviceStep::Hold(Port(3)))),
    ("dev release 3", Some(DeviceStep::Release(Port(3)))),
    ("dev truth 3", Some(DeviceStep::Truth(Port(3)))),
    (
        "dev lie 3 id 511 f0",
        Some(DeviceStep::Lie(Port(3), DiskPage::Identity, 511, 0xf0)),
    ),
    ("", None),
    ("# dev hold 3", None),
    ("dev hold 3\n", None),
];

#[test]
fn steps_are_read(rt: HostRuntime) {
    for (text, want) in STEPS {
        assert_eq!(rt; step_of(text.as_bytes()), *want);
    }
}

/// The outcome of a request with this id, as it is printed.
static OUTCOMES: &[(u64, Outcome, &str)] = &[
    (
        7,
        Outcome::DeviceError {
            status: 0x41,
            error: 0x04,
        },
        "reply 7 DeviceError 41 04",
    ),
    (7, Outcome::Aborted, "reply 7 Aborted"),
    (7, Outcome::Unplugged, "reply 7 Unplugged"),
    (7, Outcome::Revoked, "reply 7 Revoked"),
    (
        u64::MAX,
        Outcome::PortDead,
        "reply 18446744073709551615 PortDead",
    ),
];

/// Refusals, as they are printed.
static REFUSALS: &[(Refusal, &str)] = &[
    (
        Refusal::PortNotReady(PortState::Dead),
        "refused 9 PortNotReady Dead",
    ),
    (Refusal::TrimUnsupported, "refused 11 TrimUnsupported"),
    (Refusal::IdsSpent, "refused 13 IdsSpent"),
];

/// States, as they are printed.
static STATES: &[(PortState, &str)] = &[
    (PortState::Unfit(0), "state Unfit 0"),
    (PortState::Unfit(255), "state Unfit 255"),
    (PortState::Dead, "state Dead"),
];

/// A move's operation, sector and address, and how it is printed.
static MOVES: &[(Operation, u64, u32, &str)] = &[
    (Operation::ReadQueued, 1, 1, "move 1 31 read 1 00000001"),
    (
        Operation::Write,
        1,
        0xffff_fe00,
        "move 1 31 write 1 fffffe00",
    ),
    (
        Operation::WriteQueued,
        u64::MAX,
        0x0abc_de00,
        "move 1 31 write 18446744073709551615 0abcde00",
    ),
    (Operation::Flush, 0, 0, "move 1 31 flush 0 00000000"),
    (Operation::Trim, 0, 512, "move 1 31 block 0 00000200"),
    (Operation::ReadLog, 0, 512, "move 1 31 log 0 00000200"),
    (Operation::Identify, 0, 0, "move 1 31 identify 0 00000000"),
];

#[test]
fn refusals_are_printed(rt: HostRuntime) -> Result<(), AllocError> {
    for (refusal, want) in REFUSALS {
        assert_eq!(rt;
            String::format(rt.alloc(), &Answer::Refused(*refusal))?.as_str(),
            *want
        );
    }
    Ok(())
}

#[test]
fn states_are_printed(rt: HostRuntime) -> Result<(), AllocError> {
    for (state, want) in STATES {
        assert_eq!(rt;
            String::format(rt.alloc(), &Answer::State(*state))?.as_str(),
            *want
        );
    }
    Ok(())
}

#[test]
fn a_clear_is_printed(rt: HostRuntime) -> Result<(), AllocError> {
    let cleared = Clear {
        port: Port(1),
        slot: Slot(2),
        first: 300,
        count: 4,
    };
    assert_eq!(rt;
        String::format(rt.alloc(), &Answer::Cleared(cleared))?.as_str(),
        "clear 1 2 300 4"
    );
    Ok(())
}

#[test]
fn outcomes_are_printed(rt: HostRuntime) -> Result<(), AllocError> {
    for (id, outcome, want) in OUTCOMES {
        let reply = Reply {
            id: RequestId(*id),
            client: ClientId(1),
            outcome: *outcome,
        };
        assert_eq!(rt;
            String::format(rt.alloc(), &Answer::Replied(reply))?.as_str(),
            *want
        );
    }
    Ok(())
}

#[test]
fn moves_are_printed(rt: HostRuntime) -> Result<(), AllocError> {
    for (operation, sector, address, want) in MOVES {
        let moved = Move {
            port: Port(1),
            slot: Slot(31),
            operation: *operation,
            sector: *sector,
            address: *address,
            direction: Direction::ToMemory,
            bytes: Snapshot::of(&[0; 512]),
        };
        assert_eq!(rt;
            String::format(rt.alloc(), &Answer::Moved(&moved))?.as_str(),
            *want
        );
    }
    Ok(())
}

#[test]
fn faults_are_printed(rt: HostRuntime) -> Result<(), AllocError> {
    assert_eq!(rt;
        String::format(rt.alloc(), &BadLine(2))?.as_str(),
        "line 2: bad"
    );
    assert_eq!(rt; String::format(rt.alloc(), &Misspelled)?.as_str(), "bad");
    Ok(())
}

#[test]
fn each_answer_has_its_line_feed(rt: HostRuntime) {
    let mut out: ArrayVec<u8, 11> = ArrayVec::new();
    assert!(rt; Answer::Quiet.print(&mut out).is_ok());
    assert!(rt; Answer::Accepted(RequestId(7)).print(&mut out).is_ok());
    assert_eq!(rt; out.as_slice(), b"quiet\nok 7\n".as_slice());
    assert!(rt; Answer::Stepped(false).print(&mut out).is_err());
}
