// A full book: 16 unanswered requests of each of eight clients on four ports, and which of them are due.
ghost use Rattle.std.specs.Prelude.{◌≡◌, ◌<◌, ◌≤◌, ◌+◌, [], All};
ghost use Rattle.request_queue.specs.BookEntries.{IsNewlyAccepted};

use ata_types::{ClientId, Op, Port, Range, RequestId, Sector};
use block_machine::QueueMode;
use dma_frames::FrameTable;
use request_queue::{Book, DueIds, PendingRequest};
use std::process::Abort;
use std::test::Fail;

/// The request with this id, 1 to 128: sixteen of a client after those of the one before, and the ports in turn. Of
/// four that follow one another on a port the first two are a write and a read of the same sectors, and the others two
/// reads of the same.
fn request(id: u64) -> PendingRequest
    requires { (1 ≤ id) × (id ≤ 128) }
    ensures id { result.id.0 ≡ id }
    ensures fresh { IsNewlyAccepted result }
    ensures client { (1 ≤ result.client.0) × (result.client.0 ≤ 8) }
{
    let turn = (id - 1) / 4;
    PendingRequest {
        id: RequestId(id),
        client: ClientId(((id - 1) / 16) as u8 + 1),
        grant: 0,
        port: Port(((id - 1) % 4) as u8),
        op: if turn % 4 == 0 { Op::Write } else { Op::Read },
        range: Range {
            first: Sector(8 * (turn / 2)),
            count: 8,
        },
        issued: false,
        issue_count: 0,
        age: 0,
        revoked: false,
    }
}

/// Puts all of them into an empty book. They lend no frames.
fn fill(rt: &impl Abort, book: &mut Book, table: &mut FrameTable)
    requires { book.old ≡ [] }
    ensures { All (λ e. e.frames ≡ []) book.new }
{
    for number in 0..128u64 {
        let entry = request(number + 1);
        assert!(rt; book.unanswered_count(entry.client) < 16);
        book.accept(entry, &[], table);
    }
}

/// Of a port's requests, by which of 32 it is, those that are due where so many slots are usable for queued commands:
/// the first of all but each second of four, which is a read of what the first writes.
fn is_due(turn: usize, usable: usize) -> bool
    requires { turn < 32 }
{
    turn % 4 != 1 && turn - (turn + 2) / 4 < usable
}

/// Whether those are due that should be, on each of the ports.
fn due_as_wanted(book: &Book, usable: u8) -> bool {
    let mode = QueueMode {
        queued: true,
        usable_slots: usable.min(32),
    };
    for port in 0..4u8 {
        let mut due = DueIds::new();
        book.issuable(mode, Port(port), &mut due);
        let mut place = 0;
        for turn in 0..32 {
            let id = RequestId(4 * turn as u64 + u64::from(port) + 1);
            if is_due(turn, usize::from(usable)) {
                if due.get(place) != Some(&id) {
                    return false;
                }
                place += 1;
            }
        }
        if due.len() != place {
            return false;
        }
    }
    true
}

#[test]
fn due_requests_of_a_full_book_on_four_ports(rt: HostRuntime) -> Result<(), Fail> {
    let Ok(book) = Book::new(rt.alloc()) else {
        return Err(Fail::from("no memory"));
    };
    let mut book = book;
    let mut table = FrameTable::new(&[]);
    fill(&rt, &mut book, &mut table);
    let mut full = true;
    for client in 1..=8 {
        full &= book.unanswered_count(ClientId(client)) == 16;
    }
    let due = (
        due_as_wanted(&book, 32),
        due_as_wanted(&book, 5),
        due_as_wanted(&book, 1),
    );
    book.give_all_back(&mut table);
    assert_eq!(rt; (full, due), (true, (true, true, true)));
    Ok(())
}
