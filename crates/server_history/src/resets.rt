// Laws of a reset: what becomes of a server whose adapter was reset. Nothing comes of calling these functions.
ghost use Rattle.std.specs.Prelude.{List, Some};
ghost use Rattle.ata_types.specs.declared.request.Reply.{Reply};
ghost use Rattle.block_machine.specs.Events.{Reset, WasReset};
ghost use Rattle.server_history.specs.{ResetLaws.{ResetLaws}, Histories.{ExtendsToNoneDue}, Resets.{IsReinitialized, IssuesOnEachReadyPort, MayResolve, ResetsServer, ResolvesEachPort}, ServerState.{InCallInvariant, InvariantWithNoneDue, ServerState}, StuckServer.{ServerInvariant}};

use super::prerequisites::law_history_prerequisites;
use block_machine::laws::law_lent_frame_is_of_its_request;
use host_boot::laws::law_ready_ports_run_and_unusable_disks_show;
use refinement::laws::law_releasing_kept_frames_agrees;

/// What the laws of a reset rest on.
fn law_reset_prerequisites()
    ensures { ResetLaws }
{
    law_history_prerequisites();
    law_ready_ports_run_and_unusable_disks_show();
    law_lent_frame_is_of_its_request();
    law_releasing_kept_frames_agrees();
}

/// A server goes on once its adapter was taken over again and its requests were resolved; and once what is due was
/// issued, nothing is due.
pub fn law_reset_leads_to_none_due()
    ensures may_resolve { (s taken : ServerState) → ServerInvariant s → IsReinitialized s taken → MayResolve taken }
    ensures resolved_has_invariant { (s taken settled : ServerState) (replies : List Reply) → ServerInvariant s
        → IsReinitialized s taken
        → ResolvesEachPort 0 taken.probe_results replies taken settled → InCallInvariant settled }
    ensures none_is_due_once_issued { (s taken settled new : ServerState) (replies : List Reply) → ServerInvariant s
        → IsReinitialized s taken
        → ResolvesEachPort 0 taken.probe_results replies taken settled
        → IssuesOnEachReadyPort 0 taken.probe_results settled new
        → InvariantWithNoneDue new }
{
    law_reset_prerequisites();
}

/// A reset that ends adds an event.
pub fn law_ended_resets_extend_history()
    ensures { (s new : ServerState) (replies : List Reply) → ServerInvariant s → ResetsServer replies s new
        → ExtendsToNoneDue s new Reset (WasReset (Some replies)) }
{
    law_reset_prerequisites();
}
