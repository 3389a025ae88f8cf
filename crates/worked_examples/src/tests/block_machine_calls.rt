// What the block machine refuses.
use arrayvec::ArrayVec;
use ata_types::{
    ClientId, Frame, FrameFault, GrantRow, MemFault, Op, Port, PortState, Refusal, Request,
    RequestId, Rights, Rule, Sector,
};
use machine_rules::{ReferenceSituation, ShownPort};
use std::process::Abort;

fn request(
    rt: &impl Abort,
    client: u8,
    grant: u8,
    op: Op,
    first: u64,
    count: u32,
    frames: &[u16],
) -> Request {
    let mut list = ArrayVec::new();
    for frame in frames {
        assert!(rt; list.try_push(Frame(*frame)).is_ok());
    }
    Request {
        client: ClientId(client),
        grant,
        op,
        first: Sector(first),
        count,
        frames: list,
    }
}

fn row(client: u8, first: u64, count: u64, all: bool) -> GrantRow {
    GrantRow {
        client: ClientId(client),
        number: 0,
        port: Port(0),
        first: Sector(first),
        count,
        rights: Rights {
            read: true,
            write: all,
            trim: all,
            flush: all,
        },
    }
}

/// Port 0 alone, as it is told.
fn port(rt: &impl Abort, state: PortState, sectors: u64, trims: bool) -> ArrayVec<ShownPort, 4> {
    let shown = ShownPort {
        state,
        sectors,
        zeroes_after_trim: trims,
    };
    let mut ports = ArrayVec::new();
    assert!(rt; ports.try_push(shown).is_ok());
    ports
}

/// Client 1 has frames 76 to 115 and may do all to sectors 100 to 163; client 2 has frames 116 to 127 and may read 140
/// to 199. Port 0 is ready, with a disk of 70,000 sectors.
fn tables(rt: &impl Abort) -> ReferenceSituation {
    let mut rows = ArrayVec::new();
    assert!(rt; rows.try_push(row(1, 100, 64, true)).is_ok());
    assert!(rt; rows.try_push(row(2, 140, 60, false)).is_ok());
    let mut owners = ArrayVec::new();
    let mut lent = ArrayVec::new();
    for frame in 0..128 {
        let owner = if frame < 76 {
            None
        } else if frame < 116 {
            Some(ClientId(1))
        } else {
            Some(ClientId(2))
        };
        assert!(rt; owners.try_push(owner).is_ok());
        assert!(rt; lent.try_push(None).is_ok());
    }
    ReferenceSituation {
        rows,
        owners,
        lent,
        ports: port(rt, PortState::Ready, 70_000, true),
        unanswered_clients: ArrayVec::new(),
        last_id: 0,
    }
}

fn lend(rt: &impl Abort, tables: &mut ReferenceSituation, frame: usize, id: u64) {
    match tables.lent.as_mut_slice().get_mut(frame) {
        Some(place) => *place = Some(RequestId(id)),
        None => assert!(rt; false),
    }
}

/// What differs from the usual setting where a request is told.
#[derive(Clone, Copy)]
enum Setting {
    Usual,
    /// Frame 77 is lent.
    Lent,
    /// Client 1 has so many unanswered requests.
    Unanswered(u32),
    /// The id that was handed out last.
    Last(u64),
    /// Port 0 is shown so.
    Shown(PortState, u64, bool),
    /// There is no port.
    NoPort,
    /// Client 1 has one grant, of so many sectors from 0, on a disk that has as many.
    Granted(u64),
}

fn set(rt: &impl Abort, setting: Setting) -> ReferenceSituation {
    let mut tables = tables(rt);
    match setting {
        Setting::Usual => {}
        Setting::Lent => lend(rt, &mut tables, 77, 1),
        Setting::Unanswered(count) => {
            for _ in 0..count {
                assert!(rt; tables.unanswered_clients.try_push(ClientId(1)).is_ok());
            }
        }
        Setting::Last(id) => tables.last_id = id,
        Setting::Shown(state, sectors, trims) => tables.ports = port(rt, state, sectors, trims),
        Setting::NoPort => tables.ports = ArrayVec::new(),
        Setting::Granted(sectors) => {
            tables.rows = ArrayVec::new();
            assert!(rt; tables.rows.try_push(row(1, 0, sectors, true)).is_ok());
            tables.ports = port(rt, PortState::Ready, sectors, true);
        }
    }
    tables
}

const USUAL: Setting = Setting::Usual;

const LENT: Setting = Setting::Lent;

const FIFTEEN: Setting = Setting::Unanswered(15);

const SIXTEEN: Setting = Setting::Unanswered(16);

const LAST_BUT_ONE: Setting = Setting::Last(u64::MAX - 1);

const LAST: Setting = Setting::Last(u64::MAX);

const ABSENT: Setting = Setting::Shown(PortState::Absent, 100, false);

const FOREIGN: Setting = Setting::Shown(PortState::Foreign, 100, false);

const UNFIT: Setting = Setting::Shown(PortState::Unfit(6), 100, false);

const DEAD: Setting = Setting::Shown(PortState::Dead, 100, false);

const NO_PORT: Setting = Setting::NoPort;

const SMALL: Setting = Setting::Shown(PortState::Ready, 150, false);

const MIDDLE: Setting = Setting::Granted(70_000);

const LARGE: Setting = Setting::Granted(5_000_000);

const OUTSIDE_GRANT: Option<Refusal> = Some(Refusal::Rule(Rule::OutsideGrant));

const BAD_COUNT: Option<Refusal> = Some(Refusal::Rule(Rule::BadCount));

const NO_RIGHT: Option<Refusal> = Some(Refusal::Rule(Rule::NoRight));

const NO_GRANT: Option<Refusal> = Some(Refusal::Rule(Rule::NoGrant));

const FRAME_COUNT: Option<Refusal> = Some(Refusal::Rule(Rule::FrameCount));

const FRAME_TWICE_1: Option<Refusal> = Some(Refusal::Rule(Rule::Frames(FrameFault::FrameTwice(1))));

const FRAME_FOREIGN_0: Option<Refusal> = Some(Refusal::Rule(Rule::Frames(FrameFault::FrameForeign(
    0,
))));

const FRAME_FOREIGN_1: Option<Refusal> = Some(Refusal::Rule(Rule::Frames(FrameFault::FrameForeign(
    1,
))));

const FRAME_LENT_0: Option<Refusal> = Some(Refusal::Rule(Rule::Frames(FrameFault::FrameLent(0))));

const CLIENT_FULL: Option<Refusal> = Some(Refusal::ClientFull);

const IDS_SPENT: Option<Refusal> = Some(Refusal::IdsSpent);

const PORT_ABSENT: Option<Refusal> = Some(Refusal::PortNotReady(PortState::Absent));

const PORT_FOREIGN: Option<Refusal> = Some(Refusal::PortNotReady(PortState::Foreign));

const PORT_UNFIT: Option<Refusal> = Some(Refusal::PortNotReady(PortState::Unfit(6)));

const PORT_DEAD: Option<Refusal> = Some(Refusal::PortNotReady(PortState::Dead));

const OUTSIDE_DISK: Option<Refusal> = Some(Refusal::OutsideDisk);

const NO_TRIMS: Option<Refusal> = Some(Refusal::TrimUnsupported);

/// A setting, a request's client, grant's number, operation, first sector, sectors and frames, and what it is told.
type Asked = (
    Setting,
    u8,
    u8,
    Op,
    u64,
    u32,
    &'static [u16],
    Option<Refusal>,
);

static REQUESTS: &[Asked] = &[
    (USUAL, 1, 0, Op::Read, 156, 8, &[76], None),
    (USUAL, 1, 0, Op::Read, 157, 8, &[76], OUTSIDE_GRANT),
    (USUAL, 1, 0, Op::Read, u64::MAX, 8, &[76], OUTSIDE_GRANT),
    (USUAL, 1, 0, Op::Read, 100, 257, &[76], OUTSIDE_GRANT),
    (USUAL, 1, 0, Op::Read, 100, 1025, &[76], BAD_COUNT),
    (USUAL, 1, 0, Op::Read, 100, 0, &[], BAD_COUNT),
    (USUAL, 2, 0, Op::Write, 140, 8, &[116], NO_RIGHT),
    (USUAL, 2, 1, Op::Write, 140, 8, &[116], NO_GRANT),
    (USUAL, 1, 0, Op::Write, 100, 8, &[76], None),
    (USUAL, 1, 0, Op::Write, 120, 8, &[76], None),
    (USUAL, 1, 0, Op::Trim, 100, 8, &[76], FRAME_COUNT),
    (USUAL, 0, 0, Op::Read, 100, 8, &[76], NO_GRANT),
    (USUAL, 1, 0, Op::Read, 100, 16, &[77, 77], FRAME_TWICE_1),
    (
        USUAL,
        1,
        0,
        Op::Read,
        100,
        24,
        &[77, 116, 77],
        FRAME_FOREIGN_1,
    ),
    (USUAL, 1, 0, Op::Read, 100, 8, &[2000], FRAME_FOREIGN_0),
    (USUAL, 1, 0, Op::Read, 100, 8, &[0], FRAME_FOREIGN_0),
    (LENT, 1, 0, Op::Read, 110, 8, &[77], FRAME_LENT_0),
    (FIFTEEN, 1, 0, Op::Read, 100, 1, &[92], None),
    (SIXTEEN, 1, 0, Op::Read, 100, 1, &[92], CLIENT_FULL),
    (SIXTEEN, 2, 0, Op::Read, 140, 1, &[116], None),
    (LAST_BUT_ONE, 2, 0, Op::Read, 140, 1, &[116], None),
    (LAST, 2, 0, Op::Read, 140, 1, &[116], IDS_SPENT),
    (ABSENT, 2, 0, Op::Read, 140, 1, &[116], PORT_ABSENT),
    (FOREIGN, 2, 0, Op::Read, 140, 1, &[116], PORT_FOREIGN),
    (UNFIT, 2, 0, Op::Read, 140, 1, &[116], PORT_UNFIT),
    (DEAD, 2, 0, Op::Read, 140, 1, &[116], PORT_DEAD),
    (NO_PORT, 2, 0, Op::Read, 140, 1, &[116], PORT_ABSENT),
    (SMALL, 1, 0, Op::Read, 142, 8, &[76], None),
    (SMALL, 1, 0, Op::Read, 143, 8, &[76], OUTSIDE_DISK),
    (SMALL, 1, 0, Op::Trim, 100, 8, &[], NO_TRIMS),
    (SMALL, 1, 0, Op::Flush, u64::MAX, 0, &[], None),
    (LARGE, 1, 0, Op::Trim, 7, 4_194_240, &[], None),
    (LARGE, 1, 0, Op::Trim, 7, 4_194_241, &[], BAD_COUNT),
    (LARGE, 1, 0, Op::Trim, 7, 0, &[], BAD_COUNT),
    (LARGE, 1, 0, Op::Flush, 7, 1, &[], BAD_COUNT),
    (MIDDLE, 1, 0, Op::Trim, 0, 4_194_240, &[], OUTSIDE_GRANT),
    (MIDDLE, 1, 0, Op::Trim, 0, 4_194_241, &[], BAD_COUNT),
    (MIDDLE, 1, 0, Op::Trim, 1000, 65_535, &[], None),
];

#[test]
fn requests_are_told_the_first_refusal(rt: HostRuntime) {
    for (place, case) in REQUESTS.iter().enumerate() {
        let (setting, client, grant, op, first, count, frames, want) = *case;
        let tables = set(&rt, setting);
        let asked = request(&rt, client, grant, op, first, count, frames);
        assert_eq!(rt; tables.first_refusal(&asked), want, "request {place}");
    }
}

#[test]
fn each_fault_of_an_access_is_told(rt: HostRuntime) {
    let mut tables = tables(&rt);
    lend(&rt, &mut tables, 77, 1);
    let cases: [(u8, u16, u32, usize, Option<MemFault>); 10] = [
        (1, 76, 0, 4096, None),
        (1, 76, 4096, 0, None),
        (1, 76, 1, 4096, Some(MemFault::OutsideFrame)),
        (1, 76, u32::MAX, usize::MAX, Some(MemFault::OutsideFrame)),
        (1, 77, 0, 1, Some(MemFault::FrameLent)),
        (1, 77, 4096, 1, Some(MemFault::FrameLent)),
        (2, 77, 0, 1, Some(MemFault::FrameForeign)),
        (1, 116, 4096, 1, Some(MemFault::FrameForeign)),
        (1, 0, 0, 1, Some(MemFault::FrameForeign)),
        (0, 2000, 0, 0, Some(MemFault::FrameForeign)),
    ];
    for (client, frame, offset, count, want) in cases {
        let found = tables.first_mem_fault(ClientId(client), Frame(frame), offset, count);
        assert_eq!(rt; found, want, "at {frame}, {offset}");
    }
}
