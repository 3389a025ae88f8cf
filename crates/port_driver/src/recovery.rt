// The error handler of a port: it is recovered, where a command had failed, else stopped; and booted anew where it has
// to be.
ghost use Rattle.std.specs.Prelude.{ℕ, ◌≡◌, ◌≤◌, ◌+◌, ◌++◌, IsTrue, ◌↔◌, Some, List, AllPairs, IsPermutation, drop, length, take};
ghost use Rattle.ata_types.specs.{declared.request.Reply.{Reply}, declared.Port.{Port}, declared.Slot.{Slot}};
ghost use Rattle.port_driver.specs.{Recovery.{AnswersDoneAndHandlesError, IsInError, error_of}, Costs.{booting_accesses, handling_accesses}};
ghost use Rattle.server_history.specs.{ServerState.{ServerState, probed_mode}, ErrorHandling.{AreAllQueuedAs, RebootsAfterErrorOrFindsAbsent, IsFailedRequest, IsFoundAfterError, IsRevalidation, IsDiskOfSameSerialAndSize, TellsRecoveryIfTaskFileErrorElseNamesNone}};
ghost use Rattle.adapter.specs.{Rules.{IsOn}, AccessBounds.{MakesAtMost}};
ghost use Rattle.error_recovery.specs.Recovery.{MayHandleError, PortMayRecover, RecoversOrStops};
ghost use Rattle.host_boot.specs.declared.ProbeResult.TheVariants.{Ready};
ghost use Rattle.port_boot.specs.States.{IsOnWithPortMemoryAndFreeSlots};
ghost use Rattle.port_control.specs.Ports.{IsStopped};
ghost use Rattle.slots.specs.{SlotUses.{use_at}, declared.SlotUse.{SlotUse}};
ghost use Rattle.ncq.specs.Costs.{DONE_ACCESSES};
ghost use Rattle.port_control.specs.declared.Stopped as stopped_token;

use super::answering::answer_done;
use super::modes::{PLAIN_MODE, probed_mode};
use super::served_port::{ServedPort, Shared};
use super::slot_table::SlotTable;
use adapter::Adapter;
use ata_types::{MOST_READINGS, MOST_UNANSWERED_OF_ALL_CLIENTS, Port, PortState, Replies, Slot};
use block_machine::QueueMode;
use error_recovery::{Next, Recovered, recover, stop_for_reset};
use host_boot::{Booted, ProbeResult, reboot_if_present, reboot_port};
use identify::{DiskInfo, Wanted};
use ncq::done;
use port_control::Stopped;
use port_control::events::{PortError, PortEvent};
use request_queue::{FailedRequest, Revalidation};
use server_history::laws::{
    law_looks_preserve_invariant, law_recover_preconditions_hold_after_look,
};

/// The trouble that a look tells, if it tells one. (That a request is hung no look tells.)
pub(crate) fn error_of(look: PortEvent) -> Option<PortError>
    ensures { result ≡ error_of look }
{
    match look {
        PortEvent::TaskFileError => Some(PortError::TaskFileError),
        PortEvent::FatalError => Some(PortError::FatalError),
        PortEvent::LinkChanged => Some(PortError::LinkChanged),
        PortEvent::NoEvent => None,
    }
}

/// Handles the error of a port, of which the masks were read: recovers it where a command had failed (AHCI 1.3.1,
/// 6.2.2), and stops it to be booted where its link or the host's bus had, its disk was lost, or a request is hung.
fn recover_or_stop<A: Adapter>(
    adapter: &mut A,
    port: Port,
    port_error: PortError,
    outstanding: u32,
    queued: bool,
) -> Recovered
    requires ready { MayHandleError port outstanding queued (A.device adapter.old) }
    requires may { port_error ≡ PortError.TaskFileError → PortMayRecover port.0 (A.device adapter.old) }
    ensures adapter_is_on { IsOn (A.device adapter.new) }
    ensures handling { (m : RecoversOrStops port outstanding queued result (A.device adapter.old)
        (A.device adapter.new))
        × TellsRecoveryIfTaskFileErrorElseNamesNone port_error port outstanding queued result m.accesses
        (A.device adapter.old) (A.device adapter.new) }
    ensures cost { MakesAtMost (handling_accesses port_error) (A.access_count adapter.old)
        (A.access_count adapter.new) }
{
    match port_error {
        PortError::TaskFileError => recover(adapter, port, outstanding, queued),
        _ => stop_for_reset(adapter, port, outstanding),
    }
}

impl ServedPort {
    /// Answers what is done on a ready port in trouble, in order of acceptance, and handles the port's error: the
    /// request whose command failed, where it is known, and what the port has to go through. The replies come after
    /// those that there are.
    pub(crate) fn complete_and_recover<A: Adapter>(
        &mut self,
        adapter: &mut A,
        shared: &mut Shared,
        port: Port,
        port_error: PortError,
        replies: &mut Replies,
    ) -> (Option<FailedRequest>, Next)
        requires server_is_in_error { (s : ServerState)
            × IsInError s (A.device adapter.old) shared.old port self.old port_error }
        requires room { length replies.old.items + length shared.old.book ≤ MOST_UNANSWERED_OF_ALL_CLIENTS }
        ensures adapter_is_on { IsOn (A.device adapter.new) }
        ensures completes_and_recovers { (s : ServerState)
            → IsInError s (A.device adapter.old) shared.old port self.old port_error
            → AnswersDoneAndHandlesError port port_error replies.old.items replies.new.items result.0 result.1 s
            shared.new.table.value shared.new.book self.new.slots (A.device adapter.new) }
        ensures only_slots_change { self.new ≡ record self.old { slots = self.new.slots } }
        ensures room { length replies.new.items + length shared.new.book ≤ MOST_UNANSWERED_OF_ALL_CLIENTS }
        ensures cost { MakesAtMost (DONE_ACCESSES + handling_accesses port_error)
            (A.access_count adapter.old) (A.access_count adapter.new) }
    {
        law_looks_preserve_invariant();
        law_recover_preconditions_hold_after_look();
        let used = self.slots.taken();
        let finished = done(adapter, port, used);
        answer_done(
            &mut shared.book,
            &mut shared.table,
            &mut self.slots,
            finished,
            replies,
        );
        let outstanding = self.slots.taken();
        let queued = is_any_queued(&self.slots);
        let recovered = recover_or_stop(adapter, port, port_error, outstanding, queued);
        let failed = failed_request_in(&self.slots, &recovered.failed);
        (failed, recovered.next)
    }
}

/// Puts the replies from that place on in the order of their ids.
pub(crate) fn sort_replies_from(replies: &mut Replies, first: usize)
    requires { first ≤ length replies.old.items }
    ensures { (its : List Reply) × (replies.new.items ≡ take first replies.old.items ++ its)
        × IsPermutation its (drop first replies.old.items) × AllPairs (λ (a b : Reply). a.id.0 ≤ b.id.0) its }
{
    replies.as_mut_slice()[first..].sort_unstable_by_key(|reply| reply.id.0);
}

/// Whether the command of any used slot is queued: all of them are, or none.
pub(crate) fn is_any_queued(slots: &SlotTable) -> bool
    requires all_queued_or_none { (slot : ℕ) (used : SlotUse) → use_at slots.now slot ≡ Some used
        → AreAllQueuedAs used.queued slots.now }
    requires places { length slots.now.slot_uses ≡ 32 }
    ensures { AreAllQueuedAs result slots.now }
{
    let Some(slot) = slots.earliest(u32::MAX) else {
        return false;
    };
    match slots.used_for(slot) {
        Some(used) => used.queued,
        None => false,
    }
}

/// The request of the slot whose command is named, with the bytes that were told of it.
pub(crate) fn failed_request_in(
    slots: &SlotTable,
    named: &Option<(Slot, u8, u8)>,
) -> Option<FailedRequest>
    requires { (its : Slot × ℕ × ℕ) → named.now ≡ Some its → (used : SlotUse)
        × (use_at slots.now its.0.0 ≡ Some used) }
    ensures { IsFailedRequest slots.now named.now result }
{
    let Some((slot, status, error)) = *named else {
        return None;
    };
    let Some(used) = slots.used_for(slot) else {
        unreachable!()
    };
    Some(FailedRequest {
        id: used.id,
        status,
        error,
    })
}

/// Boots a port that was stopped; one whose disk was lost only where a device shows.
fn boot_after<A: Adapter>(
    adapter: &mut A,
    port_error: PortError,
    stopped: Stopped,
    wanted: &Wanted,
) -> Booted
    requires bootable { IsOnWithPortMemoryAndFreeSlots stopped.port (A.device adapter.old) }
    requires stopped { IsStopped ((A.device adapter.old).port stopped.port.0) }
    requires saw { ((A.device adapter.old).port stopped.port.0).notes.link_wait_count ≡ MOST_READINGS }
    ensures adapter_is_on { IsOn (A.device adapter.new) }
    ensures boots { RebootsAfterErrorOrFindsAbsent port_error wanted.now stopped.port result (A.device adapter.old)
        (A.device adapter.new) }
    ensures cost { MakesAtMost (booting_accesses port_error) (A.access_count adapter.old) (A.access_count adapter.new) }
{
    match port_error {
        PortError::LinkChanged => reboot_if_present(adapter, stopped, wanted),
        _ => reboot_port(adapter, stopped, wanted),
    }
}

/// What a port is once its error was handled, and how it takes commands then: it runs on with its disk, or it is booted
/// anew, or it is dead. One whose disk was lost is booted only where a device shows.
pub(crate) fn resume_or_reboot<A: Adapter>(
    adapter: &mut A,
    port_error: PortError,
    next: Next,
    was: &DiskInfo,
    mode: QueueMode,
    wanted: &Wanted,
) -> (ProbeResult, QueueMode)
    requires adapter_is_on { IsOn (A.device adapter.old) }
    requires mode { mode ≡ probed_mode (A.device adapter.old).cap (Ready was.now) }
    requires bootable { (stopped : stopped_token.Stopped) → next ≡ Next.Restart stopped
        → IsOnWithPortMemoryAndFreeSlots stopped.port (A.device adapter.old)
        × IsStopped ((A.device adapter.old).port stopped.port.0)
        × (((A.device adapter.old).port stopped.port.0).notes.link_wait_count ≡ MOST_READINGS) }
    ensures adapter_is_on { IsOn (A.device adapter.new) }
    ensures found { (port : Port) → ((stopped : stopped_token.Stopped) → next ≡ Next.Restart stopped
        → stopped.port ≡ port) → IsFoundAfterError wanted.now port port_error was.now next (A.device adapter.old)
        (A.device adapter.new) result.0 }
    ensures mode { result.1 ≡ probed_mode (A.device adapter.new).cap result.0 }
    ensures cost { MakesAtMost (booting_accesses port_error) (A.access_count adapter.old) (A.access_count adapter.new) }
{
    match next {
        Next::Running(_) => (ProbeResult::Ready(*was), mode),
        Next::Restart(stopped) => {
            let booted = boot_after(adapter, port_error, stopped, wanted);
            let mode = probed_mode(booted.slot_count, booted.supports_ncq, &booted.found);
            (booted.found, mode)
        }
        Next::Dead => (ProbeResult::Unready(PortState::Dead), PLAIN_MODE),
    }
}

/// Whether a disk is the one that was there: it has the same serial number, and as many sectors.
pub(crate) fn is_same_disk(was: &DiskInfo, info: &DiskInfo) -> bool
    ensures { IsTrue result ↔ IsDiskOfSameSerialAndSize was.now info.now }
{
    info.serial == was.serial && info.sectors == was.sectors
}

/// What the requests of a port that was ready with a disk may expect, now that it was found to be this. Where the disk
/// was lost, it doesn't count that the same one is there again: what it keeps of writes that weren't flushed nobody
/// knows.
pub(crate) fn revalidation_of(
    port_error: PortError,
    was: &DiskInfo,
    found: &ProbeResult,
) -> Revalidation
    ensures { IsRevalidation port_error was.now found.now result }
{
    match found {
        ProbeResult::Unready(PortState::Dead) => Revalidation::Dead,
        _ if port_error == PortError::LinkChanged => Revalidation::DiskLost,
        ProbeResult::Ready(info) if is_same_disk(was, info) => Revalidation::SameDisk,
        _ => Revalidation::DiskLost,
    }
}
