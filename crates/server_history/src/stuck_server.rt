// Laws of a server whether or not its adapter is on, and of one since a reset that got stuck: the clause is the
// theorem. Nothing comes of calling these functions.
ghost use Rattle.std.specs.Prelude.{ℕ, ◌≡◌, ◌≢◌, ◌<◌, List, [], None, Some, All, AllPairs, Contains};
ghost use Rattle.ata_types.specs.{declared.Port.{Port}, declared.request.ClientId.{ClientId}, declared.request.Reply.{Reply}, declared.request.Request.{Request}};
ghost use Rattle.block_machine.specs.{Events.{Reset, RevokeOf, Replied, Service, Tick, WasReset, WasRevoked}, Refusals.{IsAcceptable}};
ghost use Rattle.dma_frames.specs.Loan.{Lending};
ghost use Rattle.request_queue.specs.BookEntries.{BookEntry};
ghost use Rattle.server_history.specs.{Histories.{ExtendsToStuck}, Revoking.{RevokesGrant}, Resets.{MayResolve, ResolvesEachPort, ResolvesPort}, ServerState.{DifferInRequest, InCallInvariant, IsLentOut, ServerState, quarantined_at, admission_context}, StuckServer.{ResetGetsStuck, ServerInvariant, StuckInvariant}};

use super::prerequisites::{law_frame_holder_prerequisites, law_history_prerequisites};

/// What holds of a server at each moment of a call holds of its book, whether or not its adapter is on.
pub fn law_in_call_gives_server_invariant()
    ensures server_invariant { (s : ServerState) → InCallInvariant s → ServerInvariant s }
    ensures may_resolve { (s : ServerState) → ServerInvariant s → MayResolve s }
{
    law_history_prerequisites();
}

/// What is kept may be given back, whether or not the adapter is on: the frames of each kept loan are lent to its
/// request, which isn't unanswered, and which has no other loan.
pub fn law_quarantined_loans_are_lent()
    ensures lent { (s : ServerState) (port : ℕ) → ServerInvariant s
        → All (IsLentOut s.table) (quarantined_at s.kept_loans port) }
    ensures differ_in_one_port { (s : ServerState) (port : ℕ) → ServerInvariant s
        → AllPairs DifferInRequest (quarantined_at s.kept_loans port) }
    ensures differ_between_ports { (s : ServerState) (port other : ℕ) (a b : Lending) → ServerInvariant s
        → Contains (quarantined_at s.kept_loans port) a
        → Contains (quarantined_at s.kept_loans other) b → a.request ≡ b.request → (port ≡ other) × (a ≡ b) }
    ensures book_has_other_ids { (s : ServerState) (port : ℕ) (loan : Lending) (e : BookEntry) → ServerInvariant s
        → Contains (quarantined_at s.kept_loans port) loan → Contains s.book e → e.request.id ≢ loan.request }
{
    law_frame_holder_prerequisites();
}

/// The requests of one port are resolved, and those of the others may still.
pub fn law_resolving_one_port_lets_others_resolve()
    ensures { (s new : ServerState) (port : Port) (replies : List Reply) → port.0 < 4 → MayResolve s
        → ResolvesPort port replies s new → MayResolve new }
{
    law_history_prerequisites();
}

/// No request is acceptable while no port is ready.
pub fn law_stuck_servers_admit_none()
    ensures { (s : ServerState) (r : Request) → StuckInvariant s → IsAcceptable (admission_context s) r → ⊥ }
{
    law_history_prerequisites();
}

/// What these calls do extends the history of a server since a stuck reset. A reset may get stuck, whether or not the
/// last one did. A tick changes nothing: no port is ready, so no issued request could get older. If a client's grant is
/// revoked, the requests that waited under it are answered. A service answers the requests of each dead port that it is
/// dead, port by port.
pub fn law_calls_that_end_stuck_extend_history()
    ensures resets { (s new : ServerState) → ServerInvariant s → ResetGetsStuck s new
        → ExtendsToStuck s new Reset (WasReset None) }
    ensures ticks { (s : ServerState) → StuckInvariant s → ExtendsToStuck s s Tick (Replied []) }
    ensures revocations { (s new : ServerState) (client : ClientId) (number : ℕ) (replies : List Reply)
        → StuckInvariant s → RevokesGrant client number replies s new
        → ExtendsToStuck s new (RevokeOf client number) (WasRevoked (Some replies)) }
    ensures services { (s new : ServerState) (replies : List Reply) → StuckInvariant s
        → ResolvesEachPort 0 s.probe_results replies s new → ExtendsToStuck s new Service (Replied replies) }
{
    law_history_prerequisites();
}
