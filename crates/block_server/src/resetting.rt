// What becomes of ports and requests when the adapter is reset.
ghost use Rattle.std.specs.Prelude.{◌≡◌, ◌<◌, ◌≤◌, ◌+◌, ◌*◌, ◌++◌, List, length, map};
ghost use Rattle.adapter.specs.AccessBounds.{MakesAtMost};
ghost use Rattle.ata_types.specs.declared.request.Reply.{Reply};
ghost use Rattle.port_driver.specs.{Costs.{ISSUE_DUE_ACCESSES}, PortAndShared.{NotesProbeResult}};
ghost use Rattle.block_server.specs.{FourPorts.{EachBecomes, IsAsHostProbed, by_port, without_kept_loans}, ServerFieldsView.{with_ports}};
ghost use Rattle.server_history.specs.{KeptLoans.{IsKeptIn, MayGiveBack, GivesBackLoans}, Resets.{IssuesOnEachReadyPort, MayResolve, ResolvesEachPort}, ServerState.{InCallInvariant, ServerState, plain_mode}, StuckServer.{found_after_stuck_reset}};

use adapter::Adapter;
use ata_types::{MOST_UNANSWERED_OF_ALL_CLIENTS, PORTS, Port, Replies};
use dma_frames::FrameTable;
use host_boot::Host;
use port_driver::{ServedPort, Shared, probed_mode};
use server_history::laws::{
    law_giving_back_loans_composes, law_requests_preserve_invariant,
    law_resolved_errors_keep_in_call_invariant,
};
use server_history::stuck_server::law_resolving_one_port_lets_others_resolve;

/// Gives back the loans that are kept of all ports: their frames are lent to none.
pub(crate) fn give_all_back(ports: &mut [ServedPort; PORTS], table: &mut FrameTable)
    requires { MayGiveBack table.old (by_port (λ p. p.kept) ports.old) }
    ensures ports { ports.new ≡ map without_kept_loans ports.old }
    ensures takes_kept_loans_back { GivesBackLoans table.old table.new (IsKeptIn (by_port (λ p. p.kept) ports.old)) }
{
    law_giving_back_loans_composes();
    for number in 0..PORTS {
        ports[number].kept.give_back(table);
    }
}

/// Notes that a reset of the adapter got stuck: each port that is served is dead.
pub(crate) fn note_stuck_reset(ports: &mut [ServedPort; PORTS])
    ensures { EachBecomes (λ number old new. NotesProbeResult (found_after_stuck_reset old.probe_result)
        plain_mode old new)
        ports.old
        ports.new }
{
    for number in 0..PORTS {
        ports[number].note_stuck_reset();
    }
}

/// Replaces what each port was found to be by what the take-over found, and how it takes commands; frees all its slots.
pub(crate) fn replace_probe_results_and_free_slots(ports: &mut [ServedPort; PORTS], host: &Host)
    requires { length host.now.ports ≡ 4 }
    ensures { EachBecomes (IsAsHostProbed host.now) ports.old ports.new }
{
    for number in 0..PORTS {
        let found = host.ports[number];
        let mode = probed_mode(host.slot_count, host.supports_ncq, &found);
        ports[number].replace_probe_result_and_free_slots(found, mode);
    }
}

/// Resolves all unanswered requests after a reset, port by port, each port's in order of acceptance. The replies come
/// after those that there are.
pub(crate) fn resolve_ports(
    ports: &mut [ServedPort; PORTS],
    shared: &mut Shared,
    replies: &mut Replies,
)
    requires may_resolve { (s : ServerState) × MayResolve (with_ports s s.device shared.old ports.old) }
    requires room { length replies.old.items + length shared.old.book ≤ MOST_UNANSWERED_OF_ALL_CLIENTS }
    ensures resolves_ports { (s : ServerState) → MayResolve (with_ports s s.device shared.old ports.old)
        → (its : List Reply) × (replies.new.items ≡ replies.old.items ++ its)
        × ResolvesEachPort 0 (by_port (λ p. p.probe_result) ports.old) its
        (with_ports s s.device shared.old ports.old) (with_ports s s.device shared.new ports.new) }
    ensures found { by_port (λ p. p.probe_result) ports.new
        ≡ by_port (λ p. p.probe_result) ports.old }
{
    law_resolving_one_port_lets_others_resolve();
    for number in 0..PORTS {
        ports[number].resolve_after_reset(shared, Port(number as u8), replies);
    }
}

/// Issues what is due on each ready port, in rising number.
pub(crate) fn issue_due_on_ports<A: Adapter>(
    ports: &mut [ServedPort; PORTS],
    adapter: &mut A,
    shared: &mut Shared,
)
    requires in_call_invariant { (s : ServerState)
        × InCallInvariant (with_ports s (A.device adapter.old) shared.old ports.old) }
    ensures issues { (s : ServerState) → InCallInvariant (with_ports s (A.device adapter.old) shared.old ports.old)
        → IssuesOnEachReadyPort 0 (by_port (λ p. p.probe_result) ports.old)
        (with_ports s (A.device adapter.old) shared.old ports.old)
        (with_ports s (A.device adapter.new) shared.new ports.new) }
    ensures cost { MakesAtMost (PORTS * ISSUE_DUE_ACCESSES) (A.access_count adapter.old) (A.access_count adapter.new) }
{
    law_resolved_errors_keep_in_call_invariant();
    law_requests_preserve_invariant();
    for number in 0..PORTS {
        ports[number].issue_where_ready(adapter, &mut shared.book, Port(number as u8));
    }
}
