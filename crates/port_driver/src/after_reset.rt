// What becomes of a port's requests where its adapter is reset.
ghost use Rattle.std.specs.Prelude.{◌≡◌, ◌≤◌, ◌+◌, ◌++◌, List, length};
ghost use Rattle.ata_types.specs.declared.request.Reply.{Reply};
ghost use Rattle.port_driver.specs.PortAndShared.{HasPortAndShared, with_served_port};
ghost use Rattle.server_history.specs.{Resets.{IsResetRevalidation, MayResolve, ResolvesPort}, ServerState.{ServerState}};

use crate::dispositions::DispositionInputs;
use crate::recovery::is_same_disk;
use crate::served_port::{ServedPort, Shared};
use ata_types::{MOST_UNANSWERED_OF_ALL_CLIENTS, Port, PortState, Replies};
use host_boot::ProbeResult;
use identify::DiskInfo;
use request_queue::Revalidation;

/// What the requests of a port may expect after a reset, by the disk that it was last ready with, if it ever was.
fn reset_revalidation(was: &Option<DiskInfo>, found: &ProbeResult) -> Revalidation
    ensures { IsResetRevalidation was.now found.now result }
{
    match found {
        ProbeResult::Unready(PortState::Dead) => Revalidation::Dead,
        ProbeResult::Ready(info) => match was {
            Some(was) if is_same_disk(was, info) => Revalidation::SameDisk,
            _ => Revalidation::DiskLost,
        },
        _ => Revalidation::DiskLost,
    }
}

impl ServedPort {
    /// Resolves the unanswered requests of the port after a reset, in order of acceptance, whether the reset ended or
    /// got stuck. On a disk of the same serial and size an issued one waits again, or is told `Revoked`, or `Aborted`
    /// after its fourth issue, and one that isn't issued waits on; on another one, or none, each is told `Unplugged`;
    /// on a dead port `PortDead`, and the loan of an issued one is kept. The replies come after those that there are.
    pub fn resolve_after_reset(&mut self, shared: &mut Shared, port: Port, replies: &mut Replies)
        requires may_resolve { (s : ServerState) × MayResolve s × HasPortAndShared s s.device shared.old port self.old }
        requires room { length replies.old.items + length shared.old.book ≤ MOST_UNANSWERED_OF_ALL_CLIENTS }
        ensures resolves_port { (s : ServerState) → MayResolve s → HasPortAndShared s s.device shared.old port self.old
            → (its : List Reply) × (replies.new.items ≡ replies.old.items ++ its)
            × ResolvesPort port its s (with_served_port s s.device shared.new port self.new) }
        ensures only_quarantine_changes { self.new ≡ record self.old { kept = self.new.kept } }
        ensures room { length replies.new.items + length shared.new.book ≤ MOST_UNANSWERED_OF_ALL_CLIENTS }
    {
        let stopped = DispositionInputs {
            failed: None,
            revalidation: reset_revalidation(&self.remembered, &self.probe_result),
        };
        shared.resolve(&mut self.kept, port, &stopped, replies);
    }
}
