// The unanswered flushes of all ports. A flush has no sectors, so no index finds it: it stands in a list of its own.
ghost use Rattle.std.specs.{Prelude.{◌≡◌, ◌<◌, ◌≤◌, ◌++◌, ◌∷◌, ◌==◌, [], length, filter, not, false, true, Contains, IfNone, IfOk, IfSome, vec_capacity}, List.{list_any}};
ghost use Rattle.request_queue.specs.Flushes.{flushes_among, comes_after_flush};
ghost use Rattle.block_machine.specs.DueRequests as machine;

use ata_types::{MOST_UNANSWERED_OF_ALL_CLIENTS, Op, Port, RequestId};
use block_machine::Unanswered;
use std::alloc::{AllocError, Global};

/// An unanswered flush.
#[derive(Clone, Copy, Debug, PartialEq, Eq)]
pub struct Flush {
    pub id: RequestId,
    pub port: Port,
}

/// A list of no flushes, with room for 128. No other call takes memory.
pub fn empty_flushes(alloc: Global) -> Result<Vec<Flush>, AllocError>
    ensures { IfOk result (λ flushes. (flushes.items ≡ []) × (MOST_UNANSWERED_OF_ALL_CLIENTS ≤ vec_capacity flushes)) }
{
    let flushes = Vec::with_capacity(alloc, MOST_UNANSWERED_OF_ALL_CLIENTS)?;
    Ok(flushes)
}

/// Puts a request last in the list, if it is a flush.
pub fn add_flush(flushes: &mut Vec<Flush>, request: &Unanswered)
    requires room { length flushes.old.items < vec_capacity flushes.old }
    ensures flush_is_appended { flushes.new.items ≡ flushes.old.items ++ flushes_among (request.now ∷ []) }
    ensures room { vec_capacity flushes.new ≡ vec_capacity flushes.old }
{
    if !is_flush(request.op) {
        return;
    }
    flushes.push_reserved(Flush {
        id: request.id,
        port: request.port,
    });
}

/// Takes the flush with this id out of the list, if there is one.
pub fn remove_flush(flushes: &mut Vec<Flush>, id: RequestId)
    ensures flush_is_removed { flushes.new.items ≡ filter (λ flush. not (flush.id.0 == id.0)) flushes.old.items }
    ensures capacity_is_same { vec_capacity flushes.new ≡ vec_capacity flushes.old }
{
    flushes.retain(|flush| flush.id.0 != id.0);
}

/// A flush that was accepted before the request, on the same port, if there is one.
pub fn earlier_flush(flushes: &[Flush], request: &Unanswered) -> Option<RequestId>
    ensures none_is_earlier { IfNone result (list_any (comes_after_flush request.now) flushes.now ≡ false) }
    ensures found { IfSome result (λ id. (flush : Flush) × Contains flushes.now flush × (flush.id ≡ id)
        × (comes_after_flush request.now flush ≡ true)) }
{
    let flush = flushes
        .iter()
        .find(|flush| comes_after_flush(request, flush))?;
    Some(flush.id)
}

/// Whether the flush was accepted before the request, on the same port.
fn comes_after_flush(request: &Unanswered, flush: &Flush) -> bool
    ensures { result ≡ comes_after_flush request.now flush.now }
{
    flush.port.0 == request.port.0 && flush.id.0 < request.id.0
}

/// Whether the operation is a flush.
fn is_flush(op: Op) -> bool
    ensures { result ≡ machine.is_flush op }
{
    match op {
        Op::Flush => true,
        Op::Read | Op::Write | Op::Trim => false,
    }
}
