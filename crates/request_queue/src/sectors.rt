// The sectors of the unanswered requests, indexed: what conflicts with a request is found without a walk over all.
ghost use Rattle.std.specs.Prelude.{◌≡◌, ◌<◌, ◌++◌, ◌∷◌, [], length, not, remove, All, IfOk, List};
ghost use Rattle.block_machine.specs.declared.due.Unanswered.{Unanswered};
ghost use Rattle.request_queue.specs.{BookEntries.{unanswered_of}, Sectors.{AreIndexed, item_of, list_number_of_port}};
ghost use Rattle.block_machine.specs.DueRequests as machine;

use crate::ranges::{RangeIndex, RequestRange};
use crate::request_slab::RequestSlab;
use ata_types::{MOST_UNANSWERED_OF_ALL_CLIENTS, Op, PORTS, Port};
use block_machine::{Unanswered, changes_sectors};
use std::alloc::{AllocError, Global};

/// Lists of no sectors. No other call takes memory.
pub fn empty_sectors(alloc: Global) -> Result<[RangeIndex; PORTS], AllocError>
    ensures { IfOk result (λ lists. AreIndexed [] lists) }
{
    Ok([
        RangeIndex::new(alloc)?,
        RangeIndex::new(alloc)?,
        RangeIndex::new(alloc)?,
        RangeIndex::new(alloc)?,
    ])
}

/// Puts the sectors of a request into its port's list. It was accepted after all whose sectors are listed.
pub fn add_sectors(sectors: &mut [RangeIndex; PORTS], request: &Unanswered)
    requires { (book : List Unanswered) × AreIndexed book sectors.old × (length book < MOST_UNANSWERED_OF_ALL_CLIENTS)
        × All (λ r. r.id.0 < request.now.id.0) book }
    ensures { (book : List Unanswered) → AreIndexed book sectors.old → All (λ r. r.id.0 < request.now.id.0) book
        → AreIndexed (book ++ request.now ∷ []) sectors.new }
{
    if !has_sectors(request.op) {
        return;
    }
    let list = &mut sectors[list_number_of_port(request.port)];
    list.insert(item_of(request));
}

/// Takes the sectors of the request at a place out of its port's list, before the request is taken out of the store.
pub fn remove_sectors(sectors: &mut [RangeIndex; PORTS], store: &RequestSlab, place: usize)
    requires indexed { AreIndexed (unanswered_of store.now) sectors.old }
    requires ordered { machine.IsInOrder (unanswered_of store.now) }
    requires place_is_in_range { place < length store.now }
    ensures { AreIndexed (remove (unanswered_of store.now) place) sectors.new }
{
    let request = store.unanswered(place);
    if !has_sectors(request.op) {
        return;
    }
    let own_list = &mut sectors[list_number_of_port(request.port)];
    own_list.remove(&item_of(&request));
}

/// Which list the requests of a port are in. A book takes requests of any port number, so it is the number modulo four.
pub fn list_number_of_port(port: Port) -> usize
    ensures { result ≡ list_number_of_port port }
{
    port.0 as usize % PORTS
}

/// The request as it is indexed.
pub fn item_of(request: &Unanswered) -> RequestRange
    ensures { result ≡ item_of request.now }
{
    RequestRange {
        id: request.id,
        port: request.port,
        range: request.range,
        changes_sectors: changes_sectors(request.op),
    }
}

/// Whether the operation is one on sectors. A flush has none.
fn has_sectors(op: Op) -> bool
    ensures { result ≡ not (machine.is_flush op) }
{
    match op {
        Op::Read | Op::Write | Op::Trim => true,
        Op::Flush => false,
    }
}
