// The walk that gives the due requests of a port.
ghost use Rattle.std.specs.Prelude.{◌≡◌, ◌<◌, ◌≤◌, ◌-◌, ◌&&◌, ◌||◌, ◌==◌, suc, if◌then◌else◌, [], not, nat_lt, length, All, List, Some, slice_get};
ghost use Rattle.block_machine.specs.declared.due.Unanswered.{Unanswered};
ghost use Rattle.request_queue.specs.{BookEntries.{unanswered_of, due_ids}, Blockers.{AreBlockers, without_blocker}, DueWalk.{AreQueuedIssuedAhead, TalliesIssued, IsReachedInWalk, is_issued_plain}, RequestSlab.{unanswered_at}};
ghost use Rattle.block_machine.specs.DueRequests as machine;

use crate::blocker::Blocker;
use crate::request_slab::RequestSlab;
use arrayvec::ArrayVec;
use ata_types::{MOST_UNANSWERED_OF_ALL_CLIENTS, Port, RequestId, SLOTS};
use block_machine::laws::{law_counts_ahead_agree_on_slot_left, law_earlier_ones_stand_before};
use block_machine::{QueueMode, Unanswered, is_plain};

/// Ids of due requests: no more than a port has slots.
pub type DueIds = ArrayVec<RequestId, SLOTS>;

/// Places of requests in a store, in order of acceptance.
type Places = ArrayVec<u8, MOST_UNANSWERED_OF_ALL_CLIENTS>;

/// What is issued of a port: how many requests, and whether one of them is plain, and so was issued alone.
#[derive(Clone, Copy, Debug)]
struct IssuedTally {
    count: usize,
    has_plain: bool,
    /// How many are issued before the first that waits, or that is plain.
    leading: usize,
}

/// Puts the ids of the port's due requests into the list, in order of acceptance: one pass that finds the port's
/// requests without a blocker, and one walk over these, which counts the slots that it gives away, and ends where no
/// later request can be due. It begins behind the issued ones that lead: mostly all but the newest are issued.
pub fn list_due(
    store: &RequestSlab,
    blockers: &[Blocker],
    mode: QueueMode,
    port: Port,
    due: &mut DueIds,
)
    requires ordered { machine.IsInOrder (unanswered_of store.now) }
    requires store_is_within_limit { length store.now ≤ MOST_UNANSWERED_OF_ALL_CLIENTS }
    requires usable_slots_are_at_most_32 { mode.usable_slots ≤ 32 }
    requires blockers { AreBlockers (unanswered_of store.now) blockers.now }
    requires due_is_empty { due.old.items ≡ [] }
    ensures { due.new.items ≡ due_ids mode port (unanswered_of store.now) }
{
    law_earlier_ones_stand_before();
    law_counts_ahead_agree_on_slot_left();
    let mut places = ArrayVec::new();
    let issued = find_unblocked(store, blockers, mode, port, &mut places);
    let free = free_slots(mode, issued.count);
    for number in issued.leading..places.len() {
        let asks = nth(store, &places, number);
        let clear = is_waiting_and_unblocked(mode, &asks, number, issued);
        if goes(mode, &asks, clear, due.len(), free) {
            due.push(asks.id);
        }
        if ends(mode, &asks, due.len(), free) {
            return;
        }
    }
}

/// Lists the places of the port's requests without a blocker, and tells what of these is issued.
fn find_unblocked(
    store: &RequestSlab,
    blockers: &[Blocker],
    mode: QueueMode,
    port: Port,
    places: &mut Places,
) -> IssuedTally
    requires few { length store.now ≤ MOST_UNANSWERED_OF_ALL_CLIENTS }
    requires blockers { AreBlockers (unanswered_of store.now) blockers.now }
    requires empty { places.old.items ≡ [] }
    ensures without_blocker { unanswered_at store.now places.new.items
        ≡ without_blocker port (unanswered_of store.now) }
    ensures within { All (λ place. place < length store.now) places.new.items }
    ensures issued { TalliesIssued mode (unanswered_at store.now places.new.items) result }
    ensures leading { AreQueuedIssuedAhead mode (unanswered_at store.now places.new.items) result.leading }
{
    let mut count = 0usize;
    let mut has_plain = false;
    let mut leading = 0usize;
    for place in 0..blockers.len() {
        if blockers[place].is_none() {
            let asks = store.unanswered(place);
            if asks.port.0 == port.0 {
                leading = leading_after(mode, &asks, leading, places.len());
                places.push(place as u8);
                let slots = slots_of(&asks);
                count += slots;
                let issued_alone = is_issued_plain(mode, &asks);
                has_plain |= issued_alone;
            }
        }
    }
    IssuedTally {
        count,
        has_plain,
        leading,
    }
}

/// How many are issued before the first that waits, or that is plain, where the request comes behind so many.
fn leading_after(mode: QueueMode, asks: &Unanswered, leading: usize, before: usize) -> usize
    requires { before ≤ MOST_UNANSWERED_OF_ALL_CLIENTS }
    ensures { result ≡ (if leading == before && (asks.now.issued && not (machine.is_plain mode asks.now.op))
        then suc leading else leading) }
{
    if leading == before && asks.issued && !is_plain(mode, asks.op) {
        leading + 1
    } else {
        leading
    }
}

/// How many slots the request takes: one if it is issued.
fn slots_of(asks: &Unanswered) -> usize
    ensures { result ≡ (if asks.now.issued then 1 else 0) }
{
    if asks.issued { 1 } else { 0 }
}

/// What of the request at the place with this number says whether it is due.
fn nth(store: &RequestSlab, places: &Places, number: usize) -> Unanswered
    requires within { All (λ place. place < length store.now) places.now.items }
    requires number { number < length places.now.items }
    ensures { slice_get (unanswered_at store.now places.now.items) number ≡ Some result }
{
    store.unanswered(places.as_slice()[number] as usize)
}

/// Whether the request goes, if it is clear to go, where so many slots are free and so many of them are given away.
fn goes(mode: QueueMode, asks: &Unanswered, clear: bool, given: usize, free: usize) -> bool
    ensures { result ≡ (clear && (machine.is_plain mode asks.now.op || nat_lt given free)) }
{
    clear && (is_plain(mode, asks.op) || given < free)
}

/// Whether none after this one goes: where this one is plain, those of its port wait for it, and else no slot is left.
fn ends(mode: QueueMode, asks: &Unanswered, given: usize, free: usize) -> bool
    ensures { result ≡ (machine.is_plain mode asks.now.op || not (nat_lt given free)) }
{
    is_plain(mode, asks.op) || !(given < free)
}

/// Whether the request is issued, and goes alone.
fn is_issued_plain(mode: QueueMode, asks: &Unanswered) -> bool
    ensures { result ≡ is_issued_plain mode asks.now }
{
    is_plain(mode, asks.op) && asks.issued
}

/// How many usable slots are free, where so many are taken.
fn free_slots(mode: QueueMode, issued: usize) -> usize
    ensures { result ≡ mode.usable_slots - issued }
{
    (mode.usable_slots as usize).saturating_sub(issued)
}

/// Whether the request waits, and nothing stands in its way. It has this number among those of its port without a
/// blocker, all before it are queued, and this is issued of them. A plain one waits for all that are issued and all
/// before it, a queued one for what is issued alone.
fn is_waiting_and_unblocked(
    mode: QueueMode,
    asks: &Unanswered,
    number: usize,
    issued: IssuedTally,
) -> bool
    ensures { (requests : List Unanswered) → IsReachedInWalk mode requests number asks.now
        → TalliesIssued mode requests issued → result ≡ machine.is_waiting_and_unblocked mode requests asks.now }
{
    if asks.issued {
        false
    } else if is_plain(mode, asks.op) {
        issued.count == 0 && number == 0
    } else {
        !issued.has_plain
    }
}
