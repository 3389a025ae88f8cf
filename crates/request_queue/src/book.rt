// The book.
ghost use Rattle.std.specs.Prelude.{◌≡◌, ◌&&◌, ◌==◌, ◌↔◌, ◌<◌, ◌≤◌, ◌++◌, ◌∷◌, [], length, map, remove, All, AllPairs, Contains, IfOk, IfSome, IsTrue, Some, slice_get, vec_capacity};
ghost use Rattle.block_machine.specs.{DueRequests.{is_due}, Rules.{HasNoFault, is_same_grant_name}};
ghost use Rattle.dma_frames.specs.FrameTables.{SetsLoanOnly, lent_to, owner_of};
ghost use Rattle.request_queue.specs.{BookIndexes.{IndexesMatch}, Blockers.{AreBlockers}};
ghost use Rattle.request_queue.specs.BookEntries.{due_ids, BookEntry, GivesBack, IsEarlier, IsNewlyAccepted, BookIsWellFormed, IsUnanswered, IsWaiting, IsIssuedBelowLimit, FramesAreLentToIt, HasAnyOverdue, HasOverdueOn, IsOverdueOn, aged_entries, unanswered_of, update_if_id, ids_where, is_among, is_of_port, issued_request, due_id_if_alone_in_book, aged_request, request_with_issued_cleared, with_requests_under_grant_revoked, with_revoked_mark_if_under_grant, entry_count_of_client, waits_under, without_entry};

use crate::PendingRequest;
use crate::blocker::Blocker;
use crate::blockers::{empty_blockers, find_blockers_anew_before_removal};
use crate::conflicts::Conflicts;
use crate::due::{DueIds, list_due};
use crate::request_slab::{RequestSlab, as_unanswered};
use arrayvec::ArrayVec;
use ata_types::{
    ClientId, Frame, MOST_REQUEST_FRAMES, MOST_UNANSWERED_OF_A_CLIENT,
    MOST_UNANSWERED_OF_ALL_CLIENTS, NoMemory, Port, RequestId,
};
use block_machine::{QueueMode, Unanswered, is_plain};
use dma_frames::{FrameTable, Loan};
use std::alloc::Global;
use std::marker::Model;

/// The age at which an issued request is overdue. Its port is restarted then, so no age counts further.
const OVERDUE: u8 = 3;

/// How many numbers of clients there are: 0 to 8.
const COUNTS: usize = 9;

/// Unanswered requests of all ports, in order of acceptance. It can't be dropped, as it holds loans: `give_all_back`
/// ends it.
pub struct Book {
    store: RequestSlab,
    /// Which requests conflict.
    conflicts: Conflicts,
    /// For each waiting read or write an earlier one that conflicts with it, if there is one: its blocker.
    blockers: Vec<Blocker>,
    /// How many of the requests each client has, by its number. None is of client 0.
    counts: [usize; COUNTS],
}

impl Model for Book {
    ghost use Rattle.std.specs.Prelude.{List, ◌≡◌, ◌≤◌, vec_capacity};
    ghost use Rattle.ata_types.specs.declared.limits.TheConstants.{MOST_UNANSWERED_OF_ALL_CLIENTS};
    ghost use Rattle.request_queue.specs.{ClientCounts.{AreClientCounts}, BookEntries.{BookEntry, BookIsWellFormed, unanswered_of}, BookIndexes.{IndexesMatch}, Conflicts.{AreConflictLists}, Blockers.{AreBlockers}};

    ghost Value = { List BookEntry };

    ghost view = { λ b. b.store };

    ghost invariant = { λ b. BookIsWellFormed b.store × AreConflictLists (unanswered_of b.store) b.conflicts
        × AreBlockers (unanswered_of b.store) b.blockers.items
        × (MOST_UNANSWERED_OF_ALL_CLIENTS ≤ vec_capacity b.blockers)
        × AreClientCounts b.store b.counts };
}

impl Book {
    /// A book without requests, with room for all that eight clients may have. The only error is want of memory, and no
    /// other call takes memory.
    pub fn new(alloc: Global) -> Result<Self, NoMemory>
        ensures { IfOk result (λ book. book ≡ []) }
    {
        let conflicts = Conflicts::new(alloc)?;
        let blockers = empty_blockers(alloc)?;
        let store = RequestSlab::new(alloc)?;
        Ok(Book {
            store,
            conflicts,
            blockers,
            counts: [0; COUNTS],
        })
    }

    /// Whether there is no request.
    pub fn is_empty(&self) -> bool
        ensures { IsTrue result ↔ (self.now ≡ []) }
    {
        self.store.len() == 0
    }

    /// How many of the requests are the client's.
    pub fn unanswered_count(&self, client: ClientId) -> usize
        ensures { result ≡ entry_count_of_client self.now client.0 }
    {
        match self.counts.get(usize::from(client.0)) {
            Some(count) => *count,
            None => 0,
        }
    }

    /// Puts a request last, and lends it these frames of the table.
    pub fn accept(&mut self, request: PendingRequest, frames: &[Frame], table: &mut FrameTable)
        requires id_is_newest { All (λ e. e.request.id.0 < request.id.0) self.old }
        requires is_newly_accepted { IsNewlyAccepted request }
        requires client_is_valid { (1 ≤ request.client.0) × (request.client.0 ≤ 8) }
        requires client_has_room { entry_count_of_client self.old request.client.0 < MOST_UNANSWERED_OF_A_CLIENT }
        requires frames_have_no_fault_and_are_few { HasNoFault (owner_of table.old)
            (lent_to table.old) request.client frames.now
            × (length frames.now ≤ MOST_REQUEST_FRAMES) }
        ensures request_is_appended { self.new ≡ self.old ++ record { request = request; frames = frames.now } ∷ [] }
        ensures frames_are_lent_to_request { SetsLoanOnly table.old table.new frames.now (Some request.id) }
    {
        self.counts[usize::from(request.client.0)] += 1;
        let blocker = self.conflicts.add(&as_unanswered(request));
        self.blockers.push_reserved(blocker);
        self.store.push(request, frames, table);
    }

    /// Makes the caller's list that of the due requests of a port that takes commands in this mode, in order of
    /// acceptance: of their ids. A request that was answered and whose frames stay lent takes none of the slots that
    /// are counted: its port is dead.
    pub fn issuable(&self, mode: QueueMode, port: Port, due: &mut DueIds)
        requires { mode.usable_slots ≤ 32 }
        ensures { due.new.items ≡ due_ids mode port (unanswered_of self.now) }
    {
        due.clear();
        list_due(&self.store, self.blockers.as_slice(), mode, port, due);
    }

    /// The id of the only request of the book, where it is due on the port. Where there are others, `issuable` tells.
    pub fn due_id_if_alone_in_book(&self, mode: QueueMode, port: Port) -> Option<RequestId>
        ensures result_is_due_id_if_alone { result ≡ due_id_if_alone_in_book mode port (unanswered_of self.now) }
        ensures is_the_only_due { IfSome result (λ id. due_ids mode port (unanswered_of self.now) ≡ id ∷ []) }
    {
        if self.store.len() != 1 {
            return None;
        }
        let asks = self.store.unanswered(0);
        if is_due_alone(mode, port, &asks) {
            Some(asks.id)
        } else {
            None
        }
    }

    /// An unanswered request, and how far it is.
    pub fn request(&self, id: RequestId) -> PendingRequest
        requires { IsUnanswered id self.now }
        ensures { (e : BookEntry) × Contains self.now e × (e.request ≡ result) × (result.id ≡ id) }
    {
        self.store.request(place_of(&self.store, id))
    }

    /// An unanswered request, how far it is, and what is lent to it.
    pub fn entry(&self, id: RequestId) -> (&PendingRequest, &Loan)
        requires { IsUnanswered id self.now }
        ensures is_in_book { Contains self.now (record { request = result.0.now; frames = result.1.now.frames }) }
        ensures id { (result.0.now.id ≡ id) × (result.1.now.request ≡ id) }
    {
        self.store.entry(place_of(&self.store, id))
    }

    /// The ids of a port's requests, in order of acceptance.
    pub fn ids_of(&self, port: Port) -> ArrayVec<RequestId, MOST_UNANSWERED_OF_ALL_CLIENTS>
        ensures { result.items ≡ ids_where (is_of_port port) self.now }
    {
        ids_of(&self.store, port)
    }

    /// The ids of the requests that wait, and were accepted under this grant of the client: those that are answered
    /// once it is revoked.
    pub fn waiting_ids_under(
        &self,
        client: ClientId,
        grant: u8,
    ) -> ArrayVec<RequestId, MOST_UNANSWERED_OF_ALL_CLIENTS>
        ensures { result.items ≡ ids_where (waits_under client grant) self.now }
    {
        waiting_ids_under(&self.store, client, grant)
    }

    /// Notes that a waiting request is issued.
    pub fn issue(&mut self, id: RequestId)
        requires { IsWaiting id self.old }
        ensures { self.new ≡ map (update_if_id id issued_request) self.old }
    {
        let place = place_of(&self.store, id);
        let old = self.store.request(place);
        self.store.replace(
            place,
            PendingRequest {
                issued: true,
                issue_count: old.issue_count + 1,
                age: 0,
                ..old
            },
        );
        self.blockers[place] = Blocker::nobody();
    }

    /// Notes that a request which was issued fewer than four times waits again, in its old place and with its loan.
    pub fn requeue(&mut self, id: RequestId)
        requires { IsIssuedBelowLimit id self.old }
        ensures { self.new ≡ map (update_if_id id request_with_issued_cleared) self.old }
    {
        let place = place_of(&self.store, id);
        let old = self.store.request(place);
        self.store.replace(
            place,
            PendingRequest {
                issued: false,
                ..old
            },
        );
        let blocker = self.conflicts.blocker(&self.store.unanswered(place));
        self.blockers[place] = blocker;
    }

    /// Notes a tick: the issued requests of these ports, by number, are a tick older. An age counts to three and no
    /// further. It tells whether an issued request is overdue then, of whichever port.
    pub fn tick(&mut self, ports: &[bool]) -> bool
        ensures book_is_aged { self.new ≡ aged_entries (is_among ports.now) self.old }
        ensures overdue { IsTrue result ↔ HasAnyOverdue self.new }
    {
        age(&mut self.store, self.blockers.as_slice(), ports)
    }

    /// Notes that a client's grant was revoked: the requests that were accepted under it are marked.
    pub fn mark_revoked(&mut self, client: ClientId, grant: u8)
        ensures { self.new ≡ with_requests_under_grant_revoked client grant self.old }
    {
        mark(&mut self.store, client, grant);
    }

    /// Whether an issued request of the port is overdue: it was issued three ticks of its port ago, and isn't answered.
    pub fn has_overdue(&self, port: Port) -> bool
        ensures { IsTrue result ↔ HasOverdueOn port self.now }
    {
        for place in 0..self.store.len() {
            if is_overdue(self.store.request(place), port) {
                return true;
            }
        }
        false
    }

    /// Takes a request out; the others stay in their order. It stands in its callers' code: a loan has
    /// room for the frames of the longest request, and is copied once less there.
    #[inline(always)]
    pub fn answer(&mut self, id: RequestId) -> (PendingRequest, Loan)
        requires { IsUnanswered id self.old }
        ensures entry { Contains self.old (record { request = result.0; frames = result.1.frames }) }
        ensures id { (result.0.id ≡ id) × (result.1.request ≡ id) }
        ensures request_left_book { self.new ≡ without_entry id self.old }
    {
        let place = place_of(&self.store, id);
        remove_from_indexes(
            &mut self.conflicts,
            &mut self.blockers,
            &mut self.counts,
            &self.store,
            place,
        );
        self.store.remove(place)
    }

    /// Takes a request out, and gives back what was lent to it; the others stay in their order.
    pub fn remove_and_give_back(&mut self, id: RequestId, table: &mut FrameTable) -> PendingRequest
        requires unanswered { IsUnanswered id self.old }
        requires frames_are_lent { All (FramesAreLentToIt table.old) self.old }
        ensures entry_is_given_back { (e : BookEntry) × Contains self.old e × (e.request ≡ result) × (result.id ≡ id)
            × SetsLoanOnly table.old table.new e.frames None }
        ensures request_left_book { self.new ≡ without_entry id self.old }
    {
        let place = place_of(&self.store, id);
        remove_from_indexes(
            &mut self.conflicts,
            &mut self.blockers,
            &mut self.counts,
            &self.store,
            place,
        );
        self.store.remove_and_give_back(place, table)
    }

    /// Ends the book: what it has lent is given back.
    pub fn give_all_back(self, table: &mut FrameTable)
        requires { All (FramesAreLentToIt table.old) self }
        ensures { GivesBack table.old table.new self }
    {
        let Book {
            store,
            conflicts: _,
            blockers: _,
            counts: _,
        } = self;
        give_back(store, table);
    }
}

/// Whether a request is due on the port, where no other is in the book: it waits, and goes alone or has a slot.
fn is_due_alone(mode: QueueMode, port: Port, asks: &Unanswered) -> bool
    ensures { result ≡ (asks.now.port.0 == port.0 && is_due mode (asks.now ∷ []) asks.now) }
{
    asks.port.0 == port.0 && !asks.issued && (is_plain(mode, asks.op) || 0 < mode.usable_slots)
}

/// The place of a request. The last one is looked at first, as it was just accepted mostly. Ids rise from place to
/// place, so half of those that are left fall away at a time.
fn place_of(store: &RequestSlab, id: RequestId) -> usize
    requires ordered { AllPairs IsEarlier store.now }
    requires unanswered { IsUnanswered id store.now }
    ensures { (e : BookEntry) × (slice_get store.now result ≡ Some e) × (e.request.id ≡ id) }
{
    let last = store.len() - 1;
    if store.request(last).id.0 <= id.0 {
        return last;
    }
    let mut first = 0;
    let mut past = last;
    while past - first > 1 {
        let middle = first + (past - first) / 2;
        if store.request(middle).id.0 <= id.0 {
            first = middle;
        } else {
            past = middle;
        }
    }
    first
}

/// Takes the request at a place out of what stands beside the store, before it is taken out of the store.
fn remove_from_indexes(
    conflicts: &mut Conflicts,
    blockers: &mut Vec<Blocker>,
    counts: &mut [usize; COUNTS],
    store: &RequestSlab,
    place: usize,
)
    requires place { place < length store.now }
    requires ordered { BookIsWellFormed store.now }
    requires beside { IndexesMatch store.now conflicts.old blockers.old.items counts.old }
    ensures beside { IndexesMatch (remove store.now place) conflicts.new blockers.new.items counts.new }
    ensures blockers { vec_capacity blockers.new ≡ vec_capacity blockers.old }
{
    let request = store.request(place);
    conflicts.remove(store, place);
    blockers.remove(place);
    find_blockers_anew_before_removal(blockers, conflicts, store, place, request.id);
    counts[usize::from(request.client.0)] -= 1;
}

fn ids_of(store: &RequestSlab, port: Port) -> ArrayVec<RequestId, MOST_UNANSWERED_OF_ALL_CLIENTS>
    requires { length store.now ≤ MOST_UNANSWERED_OF_ALL_CLIENTS }
    ensures { result.items ≡ ids_where (is_of_port port) store.now }
{
    let mut ids = ArrayVec::new();
    for place in 0..store.len() {
        let request = store.request(place);
        if request.port.0 == port.0 {
            ids.push(request.id);
        }
    }
    ids
}

fn waiting_ids_under(
    store: &RequestSlab,
    client: ClientId,
    grant: u8,
) -> ArrayVec<RequestId, MOST_UNANSWERED_OF_ALL_CLIENTS>
    requires { length store.now ≤ MOST_UNANSWERED_OF_ALL_CLIENTS }
    ensures { result.items ≡ ids_where (waits_under client grant) store.now }
{
    let mut ids = ArrayVec::new();
    for place in 0..store.len() {
        let request = store.request(place);
        if waits_under(request, client, grant) {
            ids.push(request.id);
        }
    }
    ids
}

fn waits_under(request: PendingRequest, client: ClientId, grant: u8) -> bool
    ensures { result ≡ waits_under client grant request }
{
    !request.issued && is_same_grant_name(request, client, grant)
}

/// Whether the request was accepted under this grant of the client.
fn is_same_grant_name(request: PendingRequest, client: ClientId, grant: u8) -> bool
    ensures { result ≡ is_same_grant_name client grant request.client request.grant }
{
    request.client.0 == client.0 && request.grant == grant
}

/// Makes the issued requests of these ports a tick older, and tells whether one is overdue then. Those that have a
/// blocker wait, and aren't looked at.
fn age(store: &mut RequestSlab, blockers: &[Blocker], ports: &[bool]) -> bool
    requires blockers { AreBlockers (unanswered_of store.old) blockers.now }
    ensures aged_request { store.new ≡ aged_entries (is_among ports.now) store.old }
    ensures overdue { IsTrue result ↔ HasAnyOverdue store.new }
{
    let mut overdue = false;
    for place in 0..blockers.len() {
        if blockers[place].is_none() {
            let request = store.request(place);
            if request.issued {
                let grown = aged_request(request, ports);
                store.replace(place, grown);
                overdue |= grown.age >= OVERDUE;
            }
        }
    }
    overdue
}

/// Marks the requests that were accepted under this grant of the client.
fn mark(store: &mut RequestSlab, client: ClientId, grant: u8)
    ensures { store.new ≡ with_requests_under_grant_revoked client grant store.old }
{
    for place in 0..store.len() {
        let request = store.request(place);
        store.replace(place, revoked(request, client, grant));
    }
}

/// The request, marked if it was accepted under this grant of the client.
fn revoked(request: PendingRequest, client: ClientId, grant: u8) -> PendingRequest
    ensures { result ≡ with_revoked_mark_if_under_grant client grant request }
{
    if is_same_grant_name(request, client, grant) {
        PendingRequest {
            revoked: true,
            ..request
        }
    } else {
        request
    }
}

/// The request a tick older, if it is issued on one of these ports.
fn aged_request(request: PendingRequest, ports: &[bool]) -> PendingRequest
    ensures { result ≡ aged_request (is_among ports.now) request }
{
    if request.issued && is_among(ports, request.port) {
        PendingRequest {
            age: request.age.saturating_add(1).min(OVERDUE),
            ..request
        }
    } else {
        request
    }
}

fn is_overdue(request: PendingRequest, port: Port) -> bool
    ensures { IsTrue result ↔ IsOverdueOn port request }
{
    request.issued && request.port == port && request.age >= OVERDUE
}

fn is_among(ports: &[bool], port: Port) -> bool
    ensures { result ≡ is_among ports.now port }
{
    match ports.get(port.0 as usize) {
        Some(among) => *among,
        None => false,
    }
}

/// Gives back what was lent to the requests.
fn give_back(store: RequestSlab, table: &mut FrameTable)
    requires stands { All (FramesAreLentToIt table.old) store }
    requires ordered { AllPairs IsEarlier store }
    ensures { GivesBack table.old table.new store }
{
    let mut store = store;
    while store.len() > 0 {
        let (_, loan) = store.remove(0);
        table.give_back(loan);
    }
    store.destroy();
}
