// Where the requests stand: in a slab, their loans beside it at their keys, and the keys in order of acceptance.
ghost use Rattle.std.specs.Prelude.{◌≡◌, ◌<◌, ◌≤◌, ◌++◌, ◌∷◌, [], length, map, replicate, remove, slice_get, slice_set, All, IfOk, IfSome, None, Some};
ghost use Rattle.block_machine.specs.Rules.{HasNoFault};
ghost use Rattle.dma_frames.specs.FrameTables.{SetsLoanOnly, lent_to, owner_of};
ghost use Rattle.request_queue.specs.BookEntries.{BookEntry, FramesAreLentToIt, as_unanswered, unanswered_of};

use crate::PendingRequest;
use ata_types::{Frame, MOST_REQUEST_FRAMES, MOST_UNANSWERED_OF_ALL_CLIENTS};
use block_machine::Unanswered;
use dma_frames::{FrameTable, Loan};
use slab::Slab;
use std::alloc::{AllocError, Global};
use std::marker::Model;
use std::mem;

/// Requests with their loans, each at its place.
pub struct RequestSlab {
    requests: Slab<PendingRequest>,
    loans: Vec<Option<Loan>>,
    order: Vec<usize>,
}

impl Model for RequestSlab {
    ghost use Rattle.std.specs.Prelude.{List, ◌≤◌, length, vec_capacity};
    ghost use Rattle.ata_types.specs.declared.limits.TheConstants.{MOST_UNANSWERED_OF_ALL_CLIENTS};
    ghost use Rattle.request_queue.specs.{BookEntries.{BookEntry}, RequestSlab.{slab_entries, SlabIsSound}};

    ghost Value = { List BookEntry };

    ghost view = { λ s. slab_entries s.requests s.loans.items s.order.items };

    ghost invariant = { λ s. SlabIsSound s.requests s.loans.items s.order.items
        × (MOST_UNANSWERED_OF_ALL_CLIENTS ≤ vec_capacity s.order) };
}

impl RequestSlab {
    /// A store of no requests, with room for 128. Nothing else takes memory.
    pub fn new(alloc: Global) -> Result<Self, AllocError>
        ensures { IfOk result (λ store. store ≡ []) }
    {
        let requests = Slab::with_capacity(alloc, MOST_UNANSWERED_OF_ALL_CLIENTS)?;
        let order = Vec::with_capacity(alloc, MOST_UNANSWERED_OF_ALL_CLIENTS)?;
        let loans = empty_loans(alloc, requests.capacity())?;
        Ok(RequestSlab {
            requests,
            loans,
            order,
        })
    }

    /// How many requests there are.
    pub fn len(&self) -> usize
        ensures { result ≡ length self.now }
    {
        self.order.len()
    }

    /// The request at this place.
    pub fn request(&self, place: usize) -> PendingRequest
        requires { place < length self.now }
        ensures { slice_get (map (λ e. e.request) self.now) place ≡ Some result }
    {
        self.requests[self.order[place]]
    }

    /// The request at this place, and what is lent to it.
    pub fn entry(&self, place: usize) -> (&PendingRequest, &Loan)
        requires { place < length self.now }
        ensures entry { slice_get self.now place
            ≡ Some (record { request = result.0.now; frames = result.1.now.frames }) }
        ensures id { result.1.now.request ≡ result.0.now.id }
    {
        let key = self.order[place];
        match &self.loans[key] {
            Some(loan) => (&self.requests[key], loan),
            None => unreachable!(),
        }
    }

    /// Puts a request last, and lends it these frames of the table.
    pub fn push(&mut self, request: PendingRequest, frames: &[Frame], table: &mut FrameTable)
        requires room { length self.old < MOST_UNANSWERED_OF_ALL_CLIENTS }
        requires frames { HasNoFault (owner_of table.old) (lent_to table.old) request.client frames.now
            × (length frames.now ≤ MOST_REQUEST_FRAMES) }
        ensures request_is_appended { self.new ≡ self.old ++ record { request = request; frames = frames.now } ∷ [] }
        ensures lent { SetsLoanOnly table.old table.new frames.now (Some request.id) }
    {
        let key = self.requests.insert_reserved(request);
        let loan = table.lend(request.client, frames, request.id);
        match mem::replace(&mut self.loans[key], Some(loan)) {
            None => {}
            Some(_) => unreachable!(),
        }
        self.order.push_reserved(key);
    }

    /// Takes out the request at this place, with its loan. It stands in its callers' code, as `Book::answer` does.
    #[inline(always)]
    pub fn remove(&mut self, place: usize) -> (PendingRequest, Loan)
        requires { place < length self.old }
        ensures entry { slice_get self.old place ≡ Some (record { request = result.0; frames = result.1.frames }) }
        ensures id { result.1.request ≡ result.0.id }
        ensures rest { self.new ≡ remove self.old place }
    {
        let key = self.order.remove(place);
        let request = self.requests.remove(key);
        match self.loans[key].take() {
            Some(loan) => (request, loan),
            None => unreachable!(),
        }
    }

    /// Takes out the request at this place, and gives back what was lent to it.
    pub fn remove_and_give_back(&mut self, place: usize, table: &mut FrameTable) -> PendingRequest
        requires place_is_in_range { place < length self.old }
        requires frames_are_lent { All (FramesAreLentToIt table.old) self.old }
        ensures entry { (e : BookEntry) × (slice_get self.old place ≡ Some e) × (e.request ≡ result)
            × SetsLoanOnly table.old table.new e.frames None }
        ensures request_is_removed { self.new ≡ remove self.old place }
    {
        let (request, loan) = self.remove(place);
        table.give_back(loan);
        request
    }

    /// Puts another state of the same request in its place.
    pub fn replace(&mut self, place: usize, request: PendingRequest)
        requires place_is_in_range { place < length self.old }
        requires same_id { IfSome (slice_get self.old place) (λ old. request.id ≡ old.request.id) }
        ensures { (e : BookEntry) × (slice_get self.old place ≡ Some e)
            × (self.new ≡ slice_set self.old place (record e { request = request })) }
    {
        let key = self.order[place];
        self.requests[key] = request;
    }

    /// What of the request at this place says whether it is due.
    pub fn unanswered(&self, place: usize) -> Unanswered
        requires { place < length self.now }
        ensures { slice_get (unanswered_of self.now) place ≡ Some result }
    {
        as_unanswered(self.request(place))
    }

    /// Ends the store, once it has no requests.
    pub fn destroy(self)
        requires { self ≡ [] }
    {
        let RequestSlab {
            requests: _,
            loans,
            order: _,
        } = self;
        let mut loans = loans;
        while let Some(slot) = loans.pop() {
            match slot {
                None => {}
                Some(_) => unreachable!(),
            }
        }
        loans.destroy_empty();
    }
}

/// What of a request says whether it is due.
pub fn as_unanswered(entry: PendingRequest) -> Unanswered
    ensures { result ≡ as_unanswered entry }
{
    Unanswered {
        id: entry.id,
        port: entry.port,
        op: entry.op,
        range: entry.range,
        issued: entry.issued,
    }
}

fn empty_loans(alloc: Global, count: usize) -> Result<Vec<Option<Loan>>, AllocError>
    ensures { IfOk result (λ loans. loans.items ≡ replicate count None) }
{
    let mut loans = Vec::with_capacity(alloc, count)?;
    for _ in 0..count {
        loans.push_reserved(None);
    }
    Ok(loans)
}
