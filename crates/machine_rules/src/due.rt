// Which requests are due, as a plain and slow program: each function is its definition in specs/DueRequests.antt.
ghost use Rattle.std.specs.{Prelude.{◌≡◌, ◌≤◌, length, filter}, List.{list_any}};
ghost use Rattle.block_machine.specs.DueRequests as due;

use arrayvec::ArrayVec;
use ata_types::Port;
use block_machine::{QueueMode, Unanswered, is_plain, waits_for};

/// Whether a request of the book stands in the way of `r`.
fn is_held(mode: QueueMode, book: &[Unanswered], r: &Unanswered) -> bool
    ensures { result ≡ list_any (due.waits_for mode r.now) book.now }
{
    for other in book {
        if waits_for(mode, r, other) {
            return true;
        }
    }
    false
}

/// Whether the request waits, and nothing in the book stands in its way.
pub fn is_waiting_and_unblocked(mode: QueueMode, book: &[Unanswered], r: &Unanswered) -> bool
    ensures { result ≡ due.is_waiting_and_unblocked mode book.now r.now }
{
    !r.issued && !is_held(mode, book, r)
}

/// How many earlier requests of its port are clear to go.
pub fn unblocked_ahead_count(mode: QueueMode, book: &[Unanswered], r: &Unanswered) -> usize
    ensures { result ≡ due.unblocked_ahead_count mode book.now r.now }
{
    let mut count = 0;
    for other in book {
        let earlier = other.port.0 == r.port.0 && other.id.0 < r.id.0;
        if earlier && is_waiting_and_unblocked(mode, book, other) {
            count += 1;
        }
    }
    count
}

/// How many usable slots of the port are free.
pub fn free_slots(mode: QueueMode, book: &[Unanswered], port: Port) -> usize
    ensures { result ≡ due.free_slots mode book.now port }
{
    let mut issued = 0usize;
    for other in book {
        if other.port.0 == port.0 && other.issued {
            issued += 1;
        }
    }
    (mode.usable_slots as usize).saturating_sub(issued)
}

/// Whether the request of the book is due.
pub fn is_due(mode: QueueMode, book: &[Unanswered], r: &Unanswered) -> bool
    ensures { result ≡ due.is_due mode book.now r.now }
{
    is_waiting_and_unblocked(mode, book, r)
        && (is_plain(mode, r.op)
            || unblocked_ahead_count(mode, book, r) < free_slots(mode, book, r.port))
}

/// The due requests of the book, in its order, for a port that takes commands in this mode.
pub fn due_list(mode: QueueMode, book: &[Unanswered]) -> ArrayVec<Unanswered, 128>
    requires { length book.now ≤ 128 }
    ensures { result.items ≡ filter (due.is_due mode book.now) book.now }
{
    let mut list = ArrayVec::new();
    for r in book {
        if is_due(mode, book, r) {
            list.push(*r);
        }
    }
    list
}
