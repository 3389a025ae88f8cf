// What tells which of the unanswered requests conflict: their sectors, and their flushes.
ghost use Rattle.std.specs.Prelude.{◌<◌, ◌++◌, ◌∷◌, [], length, remove, All, IfOk, List};
ghost use Rattle.block_machine.specs.declared.due.Unanswered.{Unanswered};
ghost use Rattle.request_queue.specs.{Conflicts.{AreConflictLists}, BookEntries.{BookIsWellFormed, unanswered_of}, Blockers.{IsBlockerOf}};

use crate::blocker::Blocker;
use crate::blockers::blocker_of;
use crate::flushes::{Flush, add_flush, empty_flushes, remove_flush};
use crate::ranges::RangeIndex;
use crate::request_slab::RequestSlab;
use crate::sectors::{add_sectors, empty_sectors, remove_sectors};
use ata_types::{MOST_UNANSWERED_OF_ALL_CLIENTS, PORTS};
use block_machine::Unanswered;
use std::alloc::{AllocError, Global};
use std::marker::Model;

/// The lists that tell which requests of a book conflict.
#[derive(Drop)]
pub struct Conflicts {
    /// The sectors of the requests, port by port.
    sectors: [RangeIndex; PORTS],
    /// The flushes of all ports, in order of acceptance. A flush has no sectors, and conflicts all the same.
    flushes: Vec<Flush>,
}

impl Model for Conflicts {
    ghost use Rattle.std.specs.Prelude.{◌≤◌, vec_capacity};
    ghost use Rattle.ata_types.specs.declared.limits.TheConstants.{MOST_UNANSWERED_OF_ALL_CLIENTS};
    ghost use Rattle.request_queue.specs.Conflicts.{ConflictLists};

    ghost Value = { ConflictLists };

    ghost view = { λ c. record { sectors = c.sectors; flushes = c.flushes.items } };

    ghost invariant = { λ c. MOST_UNANSWERED_OF_ALL_CLIENTS ≤ vec_capacity c.flushes };
}

impl Conflicts {
    /// Lists of no requests. No other call takes memory.
    pub fn new(alloc: Global) -> Result<Self, AllocError>
        ensures { IfOk result (λ lists. AreConflictLists [] lists) }
    {
        let sectors = empty_sectors(alloc)?;
        let flushes = empty_flushes(alloc)?;
        Ok(Conflicts { sectors, flushes })
    }

    /// The blocker of a request: an earlier one of the book that it waits for, if there is one.
    pub fn blocker(&self, request: &Unanswered) -> Blocker
        ensures { (book : List Unanswered) → AreConflictLists book self.now → IsBlockerOf book request.now result }
    {
        blocker_of(&self.sectors, self.flushes.as_slice(), request)
    }

    /// Lists a request, which is put last into the book, and tells its blocker.
    pub fn add(&mut self, request: &Unanswered) -> Blocker
        requires fits { (book : List Unanswered) × AreConflictLists book self.old
            × (length book < MOST_UNANSWERED_OF_ALL_CLIENTS) × All (λ r. r.id.0 < request.now.id.0) book }
        ensures lists { (book : List Unanswered) → AreConflictLists book self.old
            → All (λ r. r.id.0 < request.now.id.0) book → AreConflictLists (book ++ request.now ∷ []) self.new }
        ensures blocker { (book : List Unanswered) → AreConflictLists book self.old
            → IsBlockerOf book request.now result }
    {
        let blocker = self.blocker(request);
        add_sectors(&mut self.sectors, request);
        add_flush(&mut self.flushes, request);
        blocker
    }

    /// Takes the request at a place out of the lists, before it is taken out of the store.
    pub fn remove(&mut self, store: &RequestSlab, place: usize)
        requires lists { AreConflictLists (unanswered_of store.now) self.old }
        requires book_is_well_formed { BookIsWellFormed store.now }
        requires place { place < length store.now }
        ensures { AreConflictLists (remove (unanswered_of store.now) place) self.new }
    {
        let request = store.request(place);
        remove_sectors(&mut self.sectors, store, place);
        remove_flush(&mut self.flushes, request.id);
    }
}
