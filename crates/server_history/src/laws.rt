// Laws of the definitions, for callers: the clause is the theorem. Nothing comes of calling these functions.
ghost use Rattle.std.specs.Prelude.{ℕ, Bool, true, false, ◌≡◌, ◌≢◌, ◌<◌, ◌≤◌, ◌+◌, ◌*◌, ◌/◌, ◌%◌, ◌++◌, List, [], ◌∷◌, Some, None, Ok, Err, length, All, Contains, count_by, not};
ghost use Rattle.ata_types.specs.{declared.Port.{Port}, declared.PortState.TheVariants.{Dead, Ready as ReadyState}, declared.grant.GrantRow.{GrantRow}, declared.memory.TheConstants.{FRAME_BYTES}, declared.refusal.MemFault.{MemFault}, declared.refusal.Refusal.{Refusal}, declared.request.ClientId.{ClientId}, declared.request.Frame.{Frame}, declared.request.Reply.{Reply}, declared.request.Request.{Request}};
ghost use Rattle.ata_types.specs.{declared.request.RequestId.{RequestId}, declared.PortState.{PortState}};
ghost use Rattle.adapter.specs.{Access.{Loads, Stores}, AskedSteps.{DoesOrFailsStep}, Device.{Device}, Idle.{IsIdle, DisksAreKnownIfTheyTell}, OneCommand.{SlotHasNoCommand}, Rules.{HasPort, IsInMemoryNotOwnedByDevice, IsOn, IsStable}, Steps.{Steps}, declared.access.DeviceStep.{DeviceStep}};
ghost use Rattle.refinement.specs.{Fragments.{SomeMachineAgreesWith, AnySlotStates, IsSimulated}, PortFacts.{RunsWell, Undisturbed}};
ghost use Rattle.block_machine.specs.{DueRequests.{IsDue, is_plain}, Events.{Submit, StoreAt, LoadAt, RevokeOf, Service, State, Tick, StepDevice, Submitted, Replied, PortStateShown, Stepped, WasRevoked}, Refusals.{IsAcceptable, IsFirstRefusal, MayAccessFrame, IsFirstMemFault}, Rules.{HasRow, IsNamed}};
ghost use Rattle.command_table.specs.TableStores.{IsSlotStateFree};
ghost use Rattle.dma_frames.specs.FrameTables.{OwnersAndLoans, SetsLoanOnly, owner_of, lent_to};
ghost use Rattle.host_boot.specs.{TakeOver.{probe_result_of, TakesOver}, declared.ProbeResult.TheVariants.{Ready, Unready}, declared.Host.{Host}};
ghost use Rattle.identify.specs.declared.DiskInfo.{DiskInfo};
ghost use Rattle.hba_regs.specs.Bits.{bit};
ghost use Rattle.ncq.specs.{Batches.{PlacedTask}, Masks.{ReadsDone, FindsEachClearSlot}};
ghost use Rattle.request_queue.specs.BookEntries.{BookEntry, as_unanswered, unanswered_of, due_ids};
ghost use Rattle.server_history.specs.{Histories.{ExtendsToNoneDue, ExtendsAndHasInvariantByStuck, ExtendsHistory, StartsHistory, InvariantBetweenCalls, load_result, store_result}, KeptLoans.{GivingBackLoansComposes}, Revoking.{RevokesGrant}, IssuingAndAnswering.{AcceptsAndIssues, AnswersDoneAndIssues, AnswersOne, IsEmptyMask, IsMaskOf, IssuesDueOfPort, IssuesTogetherIfAny, ChangesOnlySlotsAndBook, FindsSlotFor, PutsInSlot, PutsInSlots, with_accepted}};
ghost use Rattle.server_history.specs.{StuckServer.{ServerInvariant}, Probing.{ProbesPort}, Turns.{IsPortTurn, InRestart, ServicesEachPort, ServicesPort, Ticks, ProbesUnready, a_tick_older}, ServerState.{ServerState, probed_mode, InCallInvariant, IsNewServer, InvariantWithNoneDue, quarantined_at, mode_in, ports_of, admission_context, slots_at, state_of, used_for}};
ghost use Rattle.server_history.specs.ErrorHandling.{AreAllQueuedAs, IsErrorHandled, HasResolved, HandlesPortError, requests_of};
ghost use Rattle.port_control.specs.{declared.events.PortError.TheVariants.{TimedOut}, PortEvents.{IsPxisSstsOrOwnIsAccess, TakesEvent}, declared.events.PortEvent.TheVariants.{TaskFileError, NoEvent}, Ports.{IsStopped}, declared.Stopped.{Stopped}};
ghost use Rattle.slots.specs.{SlotUses.{IsLowestFree, IsTaken}, declared.SlotUse.{SlotUse}};
ghost use Rattle.error_recovery.specs.{Recovery.{PlainUsesSlot0, StopsOrSticksForReset, PlainIsSlot0, PortMayRecover}, declared.Recovered.{Recovered}, declared.Next.TheVariants.{Restart}};
ghost use Rattle.port_boot.specs.States.{IsOnWithPortMemoryAndFreeSlots};

use super::prerequisites::{law_frame_holder_prerequisites, law_history_prerequisites};
use ata_types::MOST_READINGS;
use host_boot::laws::law_ready_ports_run_and_unusable_disks_show;

/// A ready port of a new server runs well, if nothing went wrong on it since the adapter was idle.
pub fn law_new_ready_ports_run_well_if_undisturbed()
    ensures { (s : ServerState) (host : Host) (idle : Device) (port : Port) → InCallInvariant s → IsIdle idle
        → TakesOver s.wanted host idle s.device → s.probe_results ≡ host.ports
        → state_of (probe_result_of s.probe_results port.0) ≡ ReadyState
        → Undisturbed port.0 idle s.device → RunsWell (s.device.port port.0) }
{
    law_ready_ports_run_and_unusable_disks_show();
}

/// A server of an adapter that was taken over holds what a server keeps, and a history without calls leads to it.
pub fn law_new_server_starts_history()
    ensures { (s : ServerState) (host : Host) (idle : Device) → IsIdle idle → DisksAreKnownIfTheyTell idle
        → TakesOver s.wanted host idle s.device → IsNewServer host s → InvariantWithNoneDue s × StartsHistory s }
{
    law_history_prerequisites();
    law_ready_ports_run_and_unusable_disks_show();
}

/// A device that makes the step that it is asked for adds an event, and so does one that can't. If the adapter isn't
/// on, it isn't switched on.
pub fn law_device_steps_extend_history()
    ensures did { (stuck : Bool) (s : ServerState) (new : Device) (step : DeviceStep) → InvariantBetweenCalls stuck s
        → DoesOrFailsStep step s.device new → Steps s.device new
        → ExtendsAndHasInvariantByStuck stuck s (record s { device = new }) (StepDevice step) (Stepped true) }
    ensures did_not { (stuck : Bool) (s : ServerState) (step : DeviceStep) → InvariantBetweenCalls stuck s
        → ExtendsHistory s s (StepDevice step) (Stepped false) }
{
    law_history_prerequisites();
}

/// A call that is refused adds an event, and so does asking for a port's state, whether or not the adapter is on:
/// nothing changes.
pub fn law_refusals_extend_history()
    ensures submit { (stuck : Bool) (s : ServerState) (r : Request) (refusal : Refusal) → InvariantBetweenCalls stuck s
        → IsFirstRefusal (admission_context s) r refusal → ExtendsHistory s s (Submit r) (Submitted (Err refusal)) }
    ensures store { (stuck : Bool) (s : ServerState) (client : ClientId) (frame : Frame) (offset : ℕ) (bytes : List ℕ)
        (fault : MemFault) → InvariantBetweenCalls stuck s
        → IsFirstMemFault (owner_of s.table) (lent_to s.table) client frame offset (length bytes) fault
        → ExtendsHistory s s (StoreAt client frame offset bytes) (store_result (Err fault)) }
    ensures load { (stuck : Bool) (s : ServerState) (client : ClientId) (frame : Frame) (offset count : ℕ)
        (bytes : List ℕ)
        (fault : MemFault) → InvariantBetweenCalls stuck s
        → IsFirstMemFault (owner_of s.table) (lent_to s.table) client frame offset count fault
        → ExtendsHistory s s (LoadAt client frame offset count) (load_result (Err fault) bytes) }
    ensures revoke { (stuck : Bool) (s : ServerState) (client : ClientId) (number : ℕ) → InvariantBetweenCalls stuck s
        → (HasRow client number s.grants → ⊥) → ExtendsHistory s s (RevokeOf client number) (WasRevoked None) }
    ensures state { (stuck : Bool) (s : ServerState) (port : Port) → InvariantBetweenCalls stuck s
        → ExtendsHistory s s (State port) (PortStateShown ((ports_of s).state port)) }
{
    law_history_prerequisites();
}

/// Bytes of a frame that its client may access may be loaded and stored, whatever the device does first, and whether or
/// not the adapter is on.
pub fn law_device_never_owns_accessible_frames()
    ensures { (s : ServerState) (client : ClientId) (frame : Frame) (offset count : ℕ) → ServerInvariant s
        → MayAccessFrame (owner_of s.table) (lent_to s.table) client frame offset count
        → IsStable (IsInMemoryNotOwnedByDevice (FRAME_BYTES * frame.0 + offset) count) s.device }
{
    law_history_prerequisites();
}

/// Bytes that a client stores or loads, in a frame that it may access, add an event, whether or not the adapter is on.
pub fn law_client_loads_and_stores_extend_history()
    ensures store { (stuck : Bool) (s : ServerState) (new : Device) (client : ClientId) (frame : Frame) (offset : ℕ)
        (bytes : List ℕ) → InvariantBetweenCalls stuck s
        → MayAccessFrame (owner_of s.table) (lent_to s.table) client frame offset (length bytes)
        → Stores (FRAME_BYTES * frame.0 + offset) bytes s.device new
        → ExtendsAndHasInvariantByStuck stuck s (record s { device = new }) (StoreAt client frame offset bytes)
        (store_result (Ok tt)) }
    ensures load { (stuck : Bool) (s : ServerState) (new : Device) (client : ClientId) (frame : Frame)
        (offset count : ℕ)
        (bytes : List ℕ) → InvariantBetweenCalls stuck s → length bytes ≡ count
        → MayAccessFrame (owner_of s.table) (lent_to s.table) client frame offset count
        → Loads (FRAME_BYTES * frame.0 + offset) bytes s.device new
        → ExtendsAndHasInvariantByStuck stuck s (record s { device = new }) (LoadAt client frame offset count)
        (load_result (Ok tt)
        bytes) }
{
    law_history_prerequisites();
}

/// A due request of a server finds a free slot. The lowest is usable, one of the adapter's, and slot 0 for a plain
/// command; and some machine agrees with a driver that doesn't use it.
pub fn law_a_due_request_finds_a_free_slot()
    ensures lowest_free_slot_fits { (s : ServerState) (request : BookEntry) → InCallInvariant s
        → Contains s.book request
        → IsDue (mode_in s request.request.port) (unanswered_of s.book) (as_unanswered request.request)
        → (slot : ℕ) → IsLowestFree (slots_at s.slots request.request.port.0) slot
        → (slot < (mode_in s request.request.port).usable_slots) × (slot < 32) × (slot ≤ s.device.cap / 256 % 32)
        × (is_plain (mode_in s request.request.port) request.request.op ≡ true → slot ≡ 0)
        × SomeMachineAgreesWith (IsSlotStateFree request.request.port.0 slot) s.device }
    ensures not_all_usable_are_taken { (s : ServerState) (request : BookEntry) → InCallInvariant s
        → Contains s.book request
        → IsDue (mode_in s request.request.port) (unanswered_of s.book) (as_unanswered request.request)
        → ((slot : ℕ) → slot < (slots_at s.slots request.request.port.0).usable_count
        → IsTaken (slots_at s.slots request.request.port.0) slot) → ⊥ }
{
    law_history_prerequisites();
}

/// Due requests of a port get slots one after another, before anything is stored for them. Each finds a free slot, and
/// may take the lowest, which makes one more of them. Several are due only if all are queued. Only book and slots of
/// the server change.
pub fn law_due_requests_get_slots()
    ensures lowest_free_slot_fits { (s mid : ServerState) (port : Port) (ids : List RequestId) (tasks : List PlacedTask)
        (request : BookEntry) → InCallInvariant s → PutsInSlots port ids tasks s mid → Contains mid.book request
        → request.request.port ≡ port → IsDue (mode_in mid port) (unanswered_of mid.book)
        (as_unanswered request.request)
        → (slot : ℕ) → IsLowestFree (slots_at mid.slots port.0) slot → FindsSlotFor s port tasks request slot }
    ensures not_all_usable_are_taken { (s mid : ServerState) (port : Port) (ids : List RequestId)
        (tasks : List PlacedTask)
        (request : BookEntry) → InCallInvariant s → PutsInSlots port ids tasks s mid → Contains mid.book request
        → request.request.port ≡ port → IsDue (mode_in mid port) (unanswered_of mid.book)
        (as_unanswered request.request)
        → ((slot : ℕ) → slot < (slots_at mid.slots port.0).usable_count → IsTaken (slots_at mid.slots port.0) slot)
        → ⊥ }
    ensures several_are_queued { (s mid : ServerState) (port : Port) (ids : List RequestId) (tasks : List PlacedTask)
        (request : BookEntry) → InCallInvariant s → PutsInSlots port ids tasks s mid → Contains mid.book request
        → request.request.port ≡ port → IsDue (mode_in mid port) (unanswered_of mid.book)
        (as_unanswered request.request)
        → (tasks ≡ [] → ⊥) → (is_plain (mode_in s port) request.request.op ≡ false)
        × All (λ t. t.task.queued ≡ true) tasks }
    ensures invariant_goes_on { (s mid : ServerState) (port : Port) (ids : List RequestId) (tasks : List PlacedTask)
        → InCallInvariant s → PutsInSlots port ids tasks s mid → ChangesOnlySlotsAndBook s mid }
    ensures one_more_gets_a_slot { (s mid new : ServerState) (port : Port) (ids : List RequestId)
        (tasks : List PlacedTask)
        (id : RequestId) (t : PlacedTask) → PutsInSlots port ids tasks s mid → PutsInSlot port id t mid new
        → PutsInSlots port (ids ++ id ∷ []) (tasks ++ t ∷ []) s new }
{
    law_history_prerequisites();
}

/// A slot of a ready port that is used has an unanswered request of the port, which is issued.
pub fn law_a_used_slot_has_its_request()
    ensures { (s : ServerState) (port : Port) (slot : ℕ) (used : SlotUse) → InCallInvariant s
        → state_of (probe_result_of s.probe_results port.0)
        ≡ ReadyState
        → used_for s.slots port.0 slot ≡ Some used
        → (request : BookEntry) × Contains s.book request × (request.request.id ≡ used.id)
        × (request.request.port ≡ port)
        × (request.request.issued ≡ true) }
{}

/// An acceptable request is of a ready port; and a server goes on while requests are accepted, answered and issued, and
/// a grant is revoked.
pub fn law_requests_preserve_invariant()
    ensures acceptable_is_of_ready_port { (s : ServerState) (r : Request) (row : GrantRow)
        → IsAcceptable (admission_context s) r
        → IsNamed s.grants r row → state_of (probe_result_of s.probe_results row.port.0) ≡ ReadyState }
    ensures accepted { (s : ServerState) (port : Port) (r : Request) (row : GrantRow) (id : RequestId)
        (table : OwnersAndLoans)
        → InCallInvariant s → IsAcceptable (admission_context s) r → IsNamed s.grants r row → row.port ≡ port
        → id.0 ≡ s.last_id + 1
        → SetsLoanOnly s.table table r.frames.items (Some id) → InCallInvariant (with_accepted port r id table s) }
    ensures answered { (s new : ServerState) (port : Port) (request : BookEntry) → InCallInvariant s
        → state_of (probe_result_of s.probe_results port.0)
        ≡ ReadyState
        → (one : AnswersOne port request s new) → SlotHasNoCommand (s.device.port port.0) one.slot
        → InCallInvariant new }
    ensures issued { (s new : ServerState) (port : Port) (ids : List RequestId) → InCallInvariant s
        → IssuesTogetherIfAny port ids s new → InCallInvariant new }
    ensures revoked { (s new : ServerState) (client : ClientId) (number : ℕ) (replies : List Reply) → InCallInvariant s
        → RevokesGrant client number replies s new → InCallInvariant new }
{
    law_history_prerequisites();
}

/// Once requests are answered whose commands are over, and then what is due on their port is issued, nothing is due.
pub fn law_answer_and_issue_leave_none_due()
    ensures { (s new : ServerState) (port : Port) (done : ℕ) (replies : List Reply) → InvariantWithNoneDue s
        → state_of (probe_result_of s.probe_results port.0) ≡ ReadyState
        → ((slot : ℕ) → slot < 32 → bit done slot ≡ true → SlotHasNoCommand (s.device.port port.0) slot)
        → AnswersDoneAndIssues port done replies s new → InvariantWithNoneDue new }
{
    law_history_prerequisites();
}

/// A server goes on while its port is looked at, and while the server looks for what the port has issued. The commands
/// of slots that were found done have ended, if the used slots were asked for, and no other. If nobody looks, it is as
/// though the port had been looked at without an access.
pub fn law_looks_preserve_invariant()
    ensures looking { (s : ServerState) (new : Device) (port : Port) → InCallInvariant s
        → state_of (probe_result_of s.probe_results port.0)
        ≡ ReadyState
        → IsSimulated (IsPxisSstsOrOwnIsAccess port) AnySlotStates s.device new
        → InCallInvariant (record s { device = new }) }
    ensures finding { (s : ServerState) (new : Device) (port : Port) (mask done : ℕ) → InCallInvariant s
        → state_of (probe_result_of s.probe_results port.0) ≡ ReadyState → ReadsDone port mask done s.device new
        → InCallInvariant (record s { device = new }) }
    ensures done_slots_are_over { (s : ServerState) (new : Device) (port : Port) (mask done slot : ℕ)
        → InCallInvariant s
        → state_of (probe_result_of s.probe_results port.0) ≡ ReadyState → IsMaskOf (slots_at s.slots port.0) mask
        → slot < 32
        → ReadsDone port mask done s.device new → bit done slot ≡ true → SlotHasNoCommand (new.port port.0) slot }
    ensures empty_look_is_simulated { (port : Port) (device : Device)
        → IsSimulated (IsPxisSstsOrOwnIsAccess port) AnySlotStates device device }
{
    law_history_prerequisites();
}

/// How a ready port is served: it is looked at. If the look found an error, it is handled. If the port uses no slot,
/// that is all. Otherwise the slots that it uses are checked, those that are found done are answered, and what is due
/// then is issued.
pub fn law_handling_look_result_is_a_service_turn()
    ensures no_slot_is_used { (s : ServerState) (seen : Device) (port : Port) → InvariantWithNoneDue s
        → state_of (probe_result_of s.probe_results port.0)
        ≡ ReadyState
        → TakesEvent port NoEvent s.device seen → IsSimulated (IsPxisSstsOrOwnIsAccess port) AnySlotStates s.device seen
        → IsMaskOf (slots_at s.slots port.0) 0 → ServicesPort port [] s (record s { device = seen }) }
    ensures none_is_done { (s : ServerState) (seen new : Device) (port : Port) (mask : ℕ) → InvariantWithNoneDue s
        → state_of (probe_result_of s.probe_results port.0) ≡ ReadyState → TakesEvent port NoEvent s.device seen
        → IsSimulated (IsPxisSstsOrOwnIsAccess port) AnySlotStates s.device seen
        → IsMaskOf (slots_at s.slots port.0) mask
        → (IsEmptyMask mask → ⊥) → (done : ℕ) → ReadsDone port mask done seen new
        → FindsEachClearSlot port mask done seen
        → IsEmptyMask done → ServicesPort port [] s (record s { device = new }) }
    ensures some_are_done { (s new : ServerState) (seen found : Device) (port : Port) (mask done : ℕ)
        (replies : List Reply)
        → InvariantWithNoneDue s → state_of (probe_result_of s.probe_results port.0) ≡ ReadyState
        → TakesEvent port NoEvent s.device seen → IsSimulated (IsPxisSstsOrOwnIsAccess port) AnySlotStates s.device seen
        → IsMaskOf (slots_at s.slots port.0) mask → (IsEmptyMask mask → ⊥) → ReadsDone port mask done seen found
        → FindsEachClearSlot port mask done seen → (IsEmptyMask done → ⊥)
        → AnswersDoneAndIssues port done replies (record s { device = found }) new → ServicesPort port replies s new }
    ensures error_handled { (s new : ServerState) (port : Port) (replies : List Reply) → InvariantWithNoneDue s
        → state_of (probe_result_of s.probe_results port.0) ≡ ReadyState → (r : HandlesPortError port replies s new)
        → r.has_resolved.error_handled.port_error ≢ TimedOut
        → IsSimulated (IsPxisSstsOrOwnIsAccess port) AnySlotStates s.device
        r.has_resolved.error_handled.device_after_look
        → ServicesPort port replies s new × InvariantWithNoneDue new }
{
    law_history_prerequisites();
}

/// How a port is restarted that has a hung request: its error is handled, and that is its turn in a tick.
pub fn law_handling_timeout_is_a_restart_turn()
    ensures { (s new : ServerState) (port : Port) (replies : List Reply) → InvariantWithNoneDue s
        → state_of (probe_result_of s.probe_results port.0)
        ≡ ReadyState
        → (r : HandlesPortError port replies s new) → r.has_resolved.error_handled.port_error ≡ TimedOut
        → IsPortTurn InRestart port replies s new
        × InvariantWithNoneDue new }
{
    law_history_prerequisites();
}

/// A ready port on which a look found a failure may be recovered after its masks were read: a fault has halted it, and
/// it shows a device. A port has only one plain command, in slot 0.
pub fn law_recover_preconditions_hold_after_look()
    ensures may_recover { (s : ServerState) (seen found : Device) (port : Port) (mask done : ℕ) → InCallInvariant s
        → state_of (probe_result_of s.probe_results port.0) ≡ ReadyState → TakesEvent port TaskFileError s.device seen
        → IsSimulated (IsPxisSstsOrOwnIsAccess port) AnySlotStates s.device seen → ReadsDone port mask done seen found
        → PortMayRecover port.0 found }
    ensures plain_uses_slot_0 { (s : ServerState) (port : Port) (queued : Bool) → InCallInvariant s
        → state_of (probe_result_of s.probe_results port.0)
        ≡ ReadyState
        → AreAllQueuedAs queued (slots_at s.slots port.0)
        → SomeMachineAgreesWith (PlainUsesSlot0 queued port.0) s.device }
    ensures are_queued_alike { (s : ServerState) (port : Port) (slot : ℕ) (used : SlotUse) → InCallInvariant s
        → used_for s.slots port.0 slot ≡ Some used → AreAllQueuedAs used.queued (slots_at s.slots port.0) }
    ensures plain_is_alone { (s : ServerState) (port : Port) (queued : Bool) (outstanding : ℕ) → InCallInvariant s
        → IsMaskOf (slots_at s.slots port.0) outstanding → AreAllQueuedAs queued (slots_at s.slots port.0)
        → PlainIsSlot0 queued outstanding }
{
    law_history_prerequisites();
}

/// What comes after a recovery. A port that has to be booted may be; how it takes commands is what it was, by what the
/// adapter is capable of; there is a place for the loan of each request of the port that is issued; once its requests
/// were resolved, the server goes on; and nothing is due on a port that isn't ready.
pub fn law_resolved_errors_keep_in_call_invariant()
    ensures bootable { (s mid : ServerState) (device : Device) (port : Port) (token : Stopped) → InCallInvariant s
        → state_of (probe_result_of s.probe_results port.0) ≡ ReadyState → (r : IsErrorHandled port s mid device)
        → IsSimulated (IsPxisSstsOrOwnIsAccess port) AnySlotStates s.device r.device_after_look → r.result.next
        ≡ Restart token
        → IsOnWithPortMemoryAndFreeSlots port device
        × IsStopped (device.port port.0) × ((device.port port.0).notes.link_wait_count ≡ MOST_READINGS) }
    ensures mode_is_kept { (s mid : ServerState) (device : Device) (port : Port) → InCallInvariant s
        → state_of (probe_result_of s.probe_results port.0)
        ≡ ReadyState
        → (r : IsErrorHandled port s mid device)
        → IsSimulated (IsPxisSstsOrOwnIsAccess port) AnySlotStates s.device r.device_after_look
        → mode_in s port ≡ probed_mode device.cap (probe_result_of s.probe_results port.0) }
    ensures issued_loans_have_room { (s : ServerState) (port : Port) → InCallInvariant s
        → state_of (probe_result_of s.probe_results port.0) ≡ ReadyState
        → (quarantined_at s.kept_loans port.0 ≡ []) × (count_by (λ (e : BookEntry). e.request.issued)
        (requests_of port s.book) ≤ 32) }
    ensures resolved_has_invariant { (s new : ServerState) (port : Port) (later : List Reply) → InCallInvariant s
        → state_of (probe_result_of s.probe_results port.0) ≡ ReadyState → (a : HasResolved port later s new)
        → IsSimulated (IsPxisSstsOrOwnIsAccess port) AnySlotStates s.device a.error_handled.device_after_look
        → InCallInvariant new }
    ensures unready_has_none_due { (s : ServerState) (port : Port) → InCallInvariant s
        → ((info : DiskInfo) → probe_result_of s.probe_results port.0 ≡ Ready info
        → ⊥) → due_ids (mode_in s port) port (unanswered_of s.book) ≡ [] }
{
    law_history_prerequisites();
}

/// A request that is accepted adds an event.
pub fn law_acceptances_extend_history()
    ensures { (s new : ServerState) (port : Port) (r : Request) (id : RequestId) → InvariantWithNoneDue s
        → IsAcceptable (admission_context s) r → AcceptsAndIssues port r id s new
        → ExtendsToNoneDue s new (Submit r) (Submitted (Ok id)) }
{
    law_history_prerequisites();
}

/// A client's grant that is revoked adds an event: the requests that waited under it are answered, and what is due on
/// its port is issued.
pub fn law_revocations_extend_history()
    ensures { (s mid new : ServerState) (client : ClientId) (number : ℕ) (replies : List Reply) → InvariantWithNoneDue s
        → (revokes : RevokesGrant client number replies s mid) → IssuesDueOfPort revokes.has_grant_row.0.port mid new
        → ExtendsToNoneDue s new (RevokeOf client number) (WasRevoked (Some replies)) }
{
    law_history_prerequisites();
}

/// Ports that have their turns in a service one after another add an event: ready ones are served, and others probed.
pub fn law_services_extend_history()
    ensures { (s new : ServerState) (replies : List Reply) → InvariantWithNoneDue s
        → ServicesEachPort 0 s.probe_results replies s new
        → ExtendsToNoneDue s new Service (Replied replies) }
{
    law_history_prerequisites();
}

/// How a port that isn't ready has its turn in a service: it is looked at, and is booted if it may have a disk by now.
/// After it was looked at, it may be given up, and then booted if it has stopped. All this is a part of a service,
/// after which the server goes on. (In between it needn't: a look at an absent port that finds a device has read a
/// value of PxSSTS that no absent port was left with.)
pub fn law_probe_of_unready_port_is_a_service_turn()
    ensures look_keeps_relation { (s : ServerState) (seen : Device) (port : Port) (state : PortState)
        → InCallInvariant s
        → probe_result_of s.probe_results port.0 ≡ Unready state → state ≢ Dead
        → IsSimulated (IsPxisSstsOrOwnIsAccess port) AnySlotStates s.device seen
        → IsOn seen × HasPort seen port.0 × SomeMachineAgreesWith AnySlotStates seen }
    ensures bootable { (s : ServerState) (seen stopped : Device) (port : Port) (state : PortState) (result : Recovered)
        (token : Stopped) → InCallInvariant s
        → probe_result_of s.probe_results port.0 ≡ Unready state → state ≢ Dead
        → IsSimulated (IsPxisSstsOrOwnIsAccess port) AnySlotStates s.device seen
        → StopsOrSticksForReset port 0 true result seen stopped → result.next ≡ Restart token
        → (token.port ≡ port) × IsOnWithPortMemoryAndFreeSlots port stopped × IsStopped (stopped.port port.0) }
    ensures probe_is_a_turn { (s new : ServerState) (port : Port) → InvariantWithNoneDue s
        → (probes : ProbesPort port s new)
        → (probes.state ≢ Dead
        → IsSimulated (IsPxisSstsOrOwnIsAccess port) AnySlotStates s.device probes.device_after_look)
        → ProbesUnready port s new
        × InvariantWithNoneDue new }
{
    law_history_prerequisites();
}

/// A server goes on while its requests get older.
pub fn law_aging_keeps_invariant()
    ensures { (s : ServerState) → InvariantWithNoneDue s → InvariantWithNoneDue (a_tick_older s) }
{
    law_history_prerequisites();
}

/// A tick adds an event: requests get older, and ready ports have their turns one after another.
pub fn law_ticks_extend_history()
    ensures { (s new : ServerState) (replies : List Reply) → InvariantWithNoneDue s → Ticks replies s new
        → ExtendsToNoneDue s new Tick (Replied replies) }
{
    law_history_prerequisites();
}

/// Loans may be given back in parts, one after another, in any order.
pub fn law_giving_back_loans_composes()
    ensures { GivingBackLoansComposes }
{}
