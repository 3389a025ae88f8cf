// Which requests the block machine has due, and what a disk holds in the end.
use arrayvec::ArrayVec;
use ata_types::{Op, Port, Range, RequestId, Sector};
use block_machine::{QueueMode, Unanswered};
use machine_rules::DiskEvent::{Plugged, Touched};
use machine_rules::{DiskEvent, HistoryRequest, due_list, expected_byte};
use std::process::Abort;

/// A request in a book: its id, port, operation, first sector and sectors, and whether it is issued.
type InBook = (u64, u8, Op, u64, u32, bool);

const WRITE: InBook = (1, 0, Op::Write, 100, 8, false);

const ISSUED_WRITE: InBook = (1, 0, Op::Write, 100, 8, true);

const FLUSH: InBook = (2, 0, Op::Flush, 0, 0, false);

const ISSUED_FLUSH: InBook = (2, 0, Op::Flush, 0, 0, true);

const READ_APART: InBook = (3, 0, Op::Read, 130, 8, false);

const READ_ACROSS: InBook = (2, 0, Op::Read, 104, 8, false);

const WRITE_ACROSS: InBook = (3, 0, Op::Write, 104, 8, false);

const LAST_READ: InBook = (4, 0, Op::Read, 120, 8, false);

const ISSUED_LAST_READ: InBook = (4, 0, Op::Read, 120, 8, true);

const READ_THERE: InBook = (3, 1, Op::Read, 104, 8, false);

const NEXT_THERE: InBook = (4, 1, Op::Read, 120, 8, false);

const ISSUED_THERE: InBook = (3, 1, Op::Read, 104, 8, true);

const WRITE_APART: InBook = (2, 0, Op::Write, 120, 8, false);

const ISSUED_READ: InBook = (1, 0, Op::Read, 100, 8, true);

const TRIM: InBook = (2, 0, Op::Trim, 120, 8, false);

/// What is told of a book: the case's name, whether commands are queued, the slots that are usable, the book, and the
/// ids of those due.
static DUE: &[(&str, bool, u8, &[InBook], &[u64])] = &[
    ("two writes apart", true, 32, &[WRITE, WRITE_APART], &[1, 2]),
    (
        "two writes and one slot",
        true,
        1,
        &[WRITE, WRITE_APART],
        &[1],
    ),
    ("two plain writes", false, 1, &[WRITE, WRITE_APART], &[1]),
    (
        "a flush waits for a write",
        true,
        32,
        &[WRITE, FLUSH, READ_APART],
        &[1],
    ),
    (
        "a flush waits for an issued write",
        true,
        32,
        &[ISSUED_WRITE, FLUSH, READ_APART],
        &[],
    ),
    (
        "a flush holds back a read",
        true,
        32,
        &[FLUSH, READ_APART],
        &[2],
    ),
    (
        "an issued flush holds back a read",
        true,
        32,
        &[ISSUED_FLUSH, READ_APART],
        &[],
    ),
    ("a read alone", true, 32, &[READ_APART], &[3]),
    (
        "conflicts are passed over",
        true,
        32,
        &[WRITE, READ_ACROSS, WRITE_ACROSS, LAST_READ],
        &[1, 4],
    ),
    (
        "conflicts with an issued write",
        true,
        32,
        &[ISSUED_WRITE, READ_ACROSS, WRITE_ACROSS, ISSUED_LAST_READ],
        &[],
    ),
    (
        "conflicts that are expected_byte",
        true,
        32,
        &[ISSUED_WRITE, READ_ACROSS, WRITE_ACROSS],
        &[],
    ),
    (
        "the next in order",
        true,
        32,
        &[READ_ACROSS, WRITE_ACROSS],
        &[2],
    ),
    ("the last", true, 32, &[WRITE_ACROSS], &[3]),
    (
        "a waiting trim holds back later reads",
        true,
        32,
        &[ISSUED_READ, TRIM, READ_APART],
        &[],
    ),
    (
        "another port with one slot",
        true,
        1,
        &[ISSUED_WRITE, FLUSH, READ_THERE, NEXT_THERE],
        &[3],
    ),
    (
        "another port",
        true,
        32,
        &[ISSUED_WRITE, FLUSH, READ_THERE, NEXT_THERE],
        &[3, 4],
    ),
    (
        "another port's slot is taken",
        true,
        1,
        &[ISSUED_WRITE, FLUSH, ISSUED_THERE, NEXT_THERE],
        &[],
    ),
];

fn unanswered(entry: &InBook) -> Unanswered {
    let (id, port, op, first, count, issued) = *entry;
    Unanswered {
        id: RequestId(id),
        port: Port(port),
        op,
        range: Range {
            first: Sector(first),
            count,
        },
        issued,
    }
}

/// The ids of the due requests.
fn due_ids(rt: &impl Abort, mode: QueueMode, entries: &[InBook]) -> ArrayVec<u64, 128> {
    let mut book: ArrayVec<Unanswered, 128> = ArrayVec::new();
    for entry in entries {
        assert!(rt; book.try_push(unanswered(entry)).is_ok());
    }
    let mut ids = ArrayVec::new();
    for r in due_list(mode, book.as_slice()).as_slice() {
        assert!(rt; ids.try_push(r.id.0).is_ok());
    }
    ids
}

#[test]
fn due_requests_are_told(rt: HostRuntime) {
    for (name, queued, usable, book, want) in DUE {
        let mode = QueueMode {
            queued: *queued,
            usable_slots: *usable,
        };
        assert_eq!(rt; due_ids(&rt, mode, book).as_slice(), *want, "{name}");
    }
}

/// A request of port 0: its id, operation, first sector and sectors. A write fills them with the byte that is named
/// last, and the numbers that follow it.
macro_rules! request {
    ($id:literal, $op:ident, $first:literal, $count:literal) => {
        request!($id, $op, $first, $count, 0)
    };
    ($id:literal, $op:ident, $first:literal, $count:literal, $fill:literal) => {
        HistoryRequest {
            id: RequestId($id),
            port: Port(0),
            op: Op::$op,
            range: Range {
                first: Sector($first),
                count: $count,
            },
            fill: $fill,
        }
    };
}

const LONG_WRITE: HistoryRequest = request!(1, Write, 100, 8, 7);

const LONG_READ: HistoryRequest = request!(2, Read, 100, 8);

const FIRST_WRITE: HistoryRequest = request!(1, Write, 100, 1, 1);

const SECOND_READ: HistoryRequest = request!(2, Read, 100, 1);

const THIRD_WRITE: HistoryRequest = request!(3, Write, 100, 1, 3);

const FOURTH_TRIM: HistoryRequest = request!(4, Trim, 100, 1);

const FIFTH_READ: HistoryRequest = request!(5, Read, 100, 1);

const SECOND_WRITE: HistoryRequest = request!(2, Write, 100, 1, 2);

const THIRD_READ: HistoryRequest = request!(3, Read, 100, 1);

const WRITE_FROM_100: HistoryRequest = request!(1, Write, 100, 8, 1);

const WRITE_FROM_104: HistoryRequest = request!(2, Write, 104, 8, 2);

const READ_FROM_98: HistoryRequest = request!(3, Read, 98, 8);

const WRITE_FROM_96: HistoryRequest = request!(1, Write, 96, 8, 7);

const WRITE_THERE: HistoryRequest = HistoryRequest {
    port: Port(1),
    ..WRITE_FROM_96
};

/// The sectors of requests that were read or written, the latest first.
macro_rules! touched {
    ($($request:ident: $($sector:literal),+);+) => {
        &[$($(Touched($request, $sector)),+),+]
    };
}

// What happened, the latest first.
const CUT_SHORT: &[DiskEvent] = touched!(LONG_WRITE: 1, 0);

const ANOTHER_DISK: &[DiskEvent] = &[
    Touched(LONG_READ, 0),
    Plugged(Port(0), 9),
    Touched(LONG_WRITE, 1),
    Touched(LONG_WRITE, 0),
];

const WRITTEN_AGAIN: &[DiskEvent] =
    touched!(FIFTH_READ: 0; FOURTH_TRIM: 0; THIRD_WRITE: 0; SECOND_READ: 0; FIRST_WRITE: 0, 0);

const EARLIER_AGAIN: &[DiskEvent] =
    touched!(THIRD_READ: 0; FIRST_WRITE: 0; SECOND_WRITE: 0; FIRST_WRITE: 0);

const PLUGGED: &[DiskEvent] = &[
    Touched(SECOND_READ, 0),
    Plugged(Port(1), 4),
    Plugged(Port(0), 8),
    Touched(FIRST_WRITE, 0),
];

const PLUGGED_AND_WRITTEN: &[DiskEvent] = &[
    Touched(SECOND_READ, 0),
    Touched(FIRST_WRITE, 0),
    Plugged(Port(0), 8),
    Touched(FIRST_WRITE, 0),
];

const PLUGGED_LATER: &[DiskEvent] = &[
    Plugged(Port(0), 8),
    Touched(SECOND_READ, 0),
    Touched(FIRST_WRITE, 0),
];

const ACROSS: &[DiskEvent] =
    touched!(READ_FROM_98: 7, 6, 5, 1; WRITE_FROM_104: 0; WRITE_FROM_100: 4, 3);

const HERE: &[DiskEvent] = touched!(SECOND_READ: 0; WRITE_FROM_96: 4);

const THERE: &[DiskEvent] = touched!(SECOND_READ: 0; WRITE_THERE: 4);

/// A case's name, what happened on a disk that is filled from 5 on, the read, a sector, and the byte that is left on
/// it.
static LEFT: &[(&str, &[DiskEvent], HistoryRequest, u64, u8)] = &[
    ("a write that was cut short", CUT_SHORT, LONG_READ, 100, 7),
    ("its second sector", CUT_SHORT, LONG_READ, 101, 8),
    ("the sector behind that", CUT_SHORT, LONG_READ, 102, 107),
    ("another disk", ANOTHER_DISK, LONG_READ, 100, 109),
    ("a write goes again", WRITTEN_AGAIN, SECOND_READ, 100, 1),
    ("a trim", WRITTEN_AGAIN, FIFTH_READ, 100, 0),
    ("what stood before it", WRITTEN_AGAIN, FOURTH_TRIM, 100, 3),
    ("a later write stays", EARLIER_AGAIN, THIRD_READ, 100, 2),
    ("a disk comes again", PLUGGED, SECOND_READ, 100, 108),
    ("then a write", PLUGGED_AND_WRITTEN, SECOND_READ, 100, 1),
    ("a disk comes later", PLUGGED_LATER, SECOND_READ, 100, 1),
    ("a sector that nobody wrote", ACROSS, READ_FROM_98, 99, 104),
    ("a sector of the first write", ACROSS, READ_FROM_98, 103, 4),
    ("a sector of the second", ACROSS, READ_FROM_98, 104, 2),
    ("the second is cut short", ACROSS, READ_FROM_98, 105, 110),
    ("a write on the port", HERE, SECOND_READ, 100, 11),
    ("a write on another port", THERE, SECOND_READ, 100, 105),
];

#[test]
fn what_is_left_is_told(rt: HostRuntime) {
    for (name, history, read, sector, want) in LEFT {
        assert_eq!(rt; expected_byte(5, history, read, *sector), *want, "{name}");
    }
}
