// An earlier request that each waiting read or write conflicts with, so that no walk has to search for it anew.
ghost use Rattle.std.specs.{Prelude.{◌≡◌, ◌<◌, ◌≤◌, ◌&&◌, [], length, false, true, Contains, List, IfNone, IfOk, IfSome, not, remove, vec_capacity}, List.{list_any}};
ghost use Rattle.block_machine.specs.declared.due.Unanswered.{Unanswered};
ghost use Rattle.request_queue.specs.{Conflicts.{AreConflictLists}, BookEntries.{unanswered_of}, Flushes.{flushes_among, comes_after_flush}, Blockers.{AreBlockers, AreBlockersExceptOf, IsBlockerOf, is_read_or_write, is_waiting_read_or_write}, Sectors.{AreIndexed}};

use crate::blocker::Blocker;
use crate::conflicts::Conflicts;
use crate::flushes::{Flush, earlier_flush};
use crate::ranges::RangeIndex;
use crate::request_slab::RequestSlab;
use crate::sectors::{item_of, list_number_of_port};
use ata_types::{MOST_UNANSWERED_OF_ALL_CLIENTS, Op, PORTS, RequestId};
use block_machine::Unanswered;
use std::alloc::{AllocError, Global};

/// Blockers of no requests, with room for 128. No other call takes memory.
pub fn empty_blockers(alloc: Global) -> Result<Vec<Blocker>, AllocError>
    ensures { IfOk result (λ blockers. (blockers.items ≡ [])
        × (MOST_UNANSWERED_OF_ALL_CLIENTS ≤ vec_capacity blockers)) }
{
    let blockers = Vec::with_capacity(alloc, MOST_UNANSWERED_OF_ALL_CLIENTS)?;
    Ok(blockers)
}

/// The blocker of a request: an earlier one that conflicts with it, if there is one, by its sectors or as a flush. None
/// but a read or a write that waits has one.
pub fn blocker_of(sectors: &[RangeIndex; PORTS], flushes: &[Flush], request: &Unanswered) -> Blocker
    ensures { (book : List Unanswered) → AreIndexed book sectors.now → flushes.now ≡ flushes_among book
        → IsBlockerOf book request.now result }
{
    if !is_waiting_read_or_write(request) {
        return Blocker::nobody();
    }
    match sectors[list_number_of_port(request.port)].earlier_conflict(&item_of(request)) {
        Some(blocker) => Blocker::of(request.id, blocker.id),
        None => blocking_flush(flushes, request),
    }
}

/// Searches anew for the blockers of those that a request held which is answered. It stands at this place of the store
/// still, and was taken out of the lists of conflicts, as its own blocker was of the blockers.
pub fn find_blockers_anew_before_removal(
    blockers: &mut Vec<Blocker>,
    conflicts: &Conflicts,
    store: &RequestSlab,
    place: usize,
    answered: RequestId,
)
    requires place_is_in_range { place < length store.now }
    requires lists { AreConflictLists (remove (unanswered_of store.now) place) conflicts.now }
    requires answered_blocks_excepted { AreBlockersExceptOf answered place (remove (unanswered_of store.now) place)
        blockers.old.items }
    ensures blockers { AreBlockers (remove (unanswered_of store.now) place) blockers.new.items }
    ensures capacity_is_same { vec_capacity blockers.new ≡ vec_capacity blockers.old }
{
    for later in place..blockers.len() {
        if blockers[later].is_request(answered) {
            let blocker = conflicts.blocker(&store.unanswered(later + 1));
            blockers[later] = blocker;
        }
    }
}

/// The flush that a request waits for, if there is one.
fn blocking_flush(flushes: &[Flush], request: &Unanswered) -> Blocker
    ensures none { IfNone result (list_any (comes_after_flush request.now) flushes.now ≡ false) }
    ensures found { IfSome result (λ id. (flush : Flush) × Contains flushes.now flush × (flush.id ≡ id)
        × (comes_after_flush request.now flush ≡ true)) }
{
    match earlier_flush(flushes, request) {
        Some(flush) => Blocker::of(request.id, flush),
        None => Blocker::nobody(),
    }
}

/// Whether the request is a read or a write that waits.
fn is_waiting_read_or_write(request: &Unanswered) -> bool
    ensures { result ≡ is_waiting_read_or_write request.now }
{
    !request.issued && is_read_or_write(request.op)
}

fn is_read_or_write(op: Op) -> bool
    ensures { result ≡ is_read_or_write op }
{
    match op {
        Op::Read | Op::Write => true,
        Op::Trim | Op::Flush => false,
    }
}
