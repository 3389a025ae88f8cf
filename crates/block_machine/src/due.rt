// What of a port and of a request says which requests are due, and what stands in the way of one.
ghost use Rattle.std.specs.Prelude.{◌≡◌};
ghost use Rattle.block_machine.specs.DueRequests as due;

use ata_types::{Op, Port, Range, RequestId};

/// How a port takes commands at a moment.
#[derive(Clone, Copy, Debug, Default, PartialEq, Eq)]
pub struct QueueMode {
    /// Whether reads and writes are queued (native command queuing).
    pub queued: bool,
    /// How many slots are usable: 1 to 32.
    pub usable_slots: u8,
}

/// An unanswered request, as far as it says which requests are due.
#[derive(Clone, Copy, Debug, Default, PartialEq, Eq)]
pub struct Unanswered {
    pub id: RequestId,
    pub port: Port,
    pub op: Op,
    pub range: Range,
    pub issued: bool,
}

/// Whether the operation changes sectors.
pub fn changes_sectors(op: Op) -> bool
    ensures { result ≡ due.changes_sectors op }
{
    match op {
        Op::Read | Op::Flush => false,
        Op::Write | Op::Trim => true,
    }
}

/// Whether the operation is issued alone, in this mode.
pub fn is_plain(mode: QueueMode, op: Op) -> bool
    ensures { result ≡ due.is_plain mode op }
{
    match op {
        Op::Read | Op::Write => !mode.queued,
        Op::Trim | Op::Flush => true,
    }
}

/// Whether the ranges have a sector in common.
fn are_overlapping(a: &Range, b: &Range) -> bool
    ensures { result ≡ due.are_overlapping a.now b.now }
{
    a.overlaps(b)
}

/// Whether the two conflict: both are of one port, and one of them is a flush, or they have a sector in common and one
/// of them writes or trims.
pub fn conflict_on_port_by_flush_or_overlap(a: &Unanswered, b: &Unanswered) -> bool
    ensures { result ≡ due.conflict_on_port_by_flush_or_overlap a.now b.now }
{
    let flush = a.op == Op::Flush || b.op == Op::Flush;
    let writes = changes_sectors(a.op) || changes_sectors(b.op);
    a.port.0 == b.port.0 && (flush || (writes && are_overlapping(&a.range, &b.range)))
}

/// Whether `other` stands in the way of `r`.
pub fn waits_for(mode: QueueMode, r: &Unanswered, other: &Unanswered) -> bool
    ensures { result ≡ due.waits_for mode r.now other.now }
{
    if other.port.0 != r.port.0 {
        return false;
    }
    let earlier = other.id.0 < r.id.0;
    if is_plain(mode, r.op) {
        other.issued || earlier
    } else {
        let plain = is_plain(mode, other.op);
        (plain && other.issued)
            || (earlier && (plain || conflict_on_port_by_flush_or_overlap(other, r)))
    }
}
