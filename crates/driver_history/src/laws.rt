// Laws of the definitions, for callers: the clause is the theorem. These functions do nothing.
ghost use Rattle.std.specs.Prelude.{ℕ, true, false, ◌≡◌, ◌≢◌, ◌⊎◌, ◌<◌, ◌≤◌, None, List, ◌∷◌, Contains};
ghost use Rattle.ata_types.specs.{declared.Port.{Port}, declared.PortState.TheVariants.{Ready, Dead}, declared.memory.TheConstants.{DRIVER_FRAMES}, declared.request.Frame.{Frame}, declared.request.Outcome.{Outcome}, declared.request.RequestId.{RequestId}};
ghost use Rattle.adapter.specs.{Device.{Device}, Rules.{IsOn, IsStable}, declared.access.DeviceStep.{DeviceStep}, declared.command.Operation.TheVariants.{ReadLog}, declared.tape.Fault.{Fault}};
ghost use Rattle.refinement.specs.{Fragments.{GainsNoMove}, PortFacts.{DeviceOwnsNoByteOfFrame, RunsWell}, PreservedParts.{NoPlugEvents}, Slots.{ServesRequest}};
ghost use Rattle.block_machine.specs.{Events.{AbstractCall, AbstractState, AbstractCallResult, steps_of, Service, Tick, Reset, TimesOutAtTick, IsRun, EveryReadHoldsExpected, IssuedOnPortAreIssuedInSteps}, Histories.{JointState, JointEvent, IsReachable, events_of, joint_state_after}, Ports.{PortsWellFormed, Evidence, Ports, SameSerialAndSize, SamePort}, State.{Pending}, Steps.{Answer}};
ghost use Rattle.identify.specs.declared.wanted.Wanted.{Wanted};
ghost use Rattle.durability.specs.Durable.{EveryReplugFindsFlushedOrLater};
ghost use Rattle.driver_history.specs.{Claims.{AnswerJustified, GoesWellFor, IsHealthyFor, IsSpared}, Evidence.{ReadyPortShowedOrHadFailure, ReadyPortShowedOrHadFatalError, IsEvidencedOf, ReadyPortShowedLossOrHadPlugEvent, ShowsLinkChange, StaysHealthy}, Histories.{IsDriverHistory, IssuesAllDue, LosesNoPortError, OfPortsInCalls}, PortInvariants.{DriverInvariant}, ConfinedMoves.{ConfinesCallMovesAndClears}, PortTurn.{HasTurnIn, EvidenceAgreesOn, call_accesses}};
ghost use Rattle.error_recovery.specs.Evidence.{BringsLastLogPage, HasFailed};
ghost use Rattle.ata_types.specs.declared.request.Outcome.TheVariants as outcome;

use super::prerequisites::{law_prerequisites, law_run_prerequisites};
use adapter::DeviceStep;
use adapter::laws::law_asked_steps_are_transitions;
use block_machine::laws::law_rows_shrink_and_owners_stay;
use durability::laws::law_flushed_writes_survive_replug;
use port_boot::laws::law_undisturbed_port_runs_on_if_controls_stay;
use refinement::laws::law_plug_events_match_disk_changes;
use refinement::port_facts::{
    law_device_never_owns_frames_out_of_use, law_running_well_stays_if_undisturbed,
};

/// The calls of a history are a run of the block machine. So its laws on runs hold of them: each request that is issued
/// was accepted and broke no rule, each touch is of an accepted request's own sector at a frame that is lent to it, and
/// others.
pub fn law_histories_are_runs()
    ensures { (wanted : List Wanted) (first : JointState Device) (past : List (JointEvent Device DeviceStep))
        → IsDriverHistory wanted first past → IsRun first.abstract (events_of past) }
{}

/// The machine of a history is reached.
pub fn law_histories_reach_their_machines()
    ensures { (wanted : List Wanted) (first : JointState Device) (past : List (JointEvent Device DeviceStep))
        → IsDriverHistory wanted first past → IsReachable (joint_state_after first past).abstract.machine }
{
    law_run_prerequisites();
}

/// If the adapter's disks have specified contents, each read of a history that was answered Ok has, at the end of the
/// call that answered it, what was left.
pub fn law_ok_reads_hold_expected_if_sectors_told()
    ensures { (wanted : List Wanted) (first : JointState Device) (past : List (JointEvent Device DeviceStep))
        → IsDriverHistory wanted first past → first.device.disks_tell_sectors ≡ true
        → EveryReadHoldsExpected first.abstract (events_of past) }
{
    law_run_prerequisites();
}

/// If the adapter's disks have specified contents, each disk that comes back in a history has the writes that were
/// flushed, or later ones.
pub fn law_replugs_keep_flushed_if_sectors_told()
    ensures { (wanted : List Wanted) (first : JointState Device) (past : List (JointEvent Device DeviceStep))
        → IsDriverHistory wanted first past → first.device.disks_tell_sectors ≡ true
        → EveryReplugFindsFlushedOrLater first.abstract.machine (steps_of (events_of past)) }
{
    law_run_prerequisites();
    law_flushed_writes_survive_replug::<DeviceStep>();
}

/// Each move of a client's data, of any call of a history, is of a sector of its own request's, at its place in a frame
/// that is lent to that request then, in the direction of its operation; the request was accepted, when it broke no
/// rule, and is issued or kept. Each other move stays in its port's scratch frame. And sectors are cleared by a trim
/// alone that was accepted so, and is issued or kept: its own.
pub fn law_device_moves_and_clears_are_confined()
    ensures { (wanted : List Wanted) (first : JointState Device) (past : List (JointEvent Device DeviceStep))
        (h : JointEvent Device DeviceStep)
        → IsDriverHistory wanted first (h ∷ past)
        → ConfinesCallMovesAndClears first.abstract.machine (steps_of (events_of past)) h.event.steps
        (joint_state_after first past).device h.device }
{
    law_run_prerequisites();
}

/// At each instant of a history there holds what holds between two calls; and the ports are fit: at most four are
/// served.
pub fn law_driver_invariant_holds()
    ensures invariant_holds { (wanted : List Wanted) (first : JointState Device)
        (past : List (JointEvent Device DeviceStep))
        → IsDriverHistory wanted first past → DriverInvariant wanted (joint_state_after first past) }
    ensures ports_are_well_formed { (wanted : List Wanted) (first : JointState Device)
        (past : List (JointEvent Device DeviceStep))
        → IsDriverHistory wanted first past → PortsWellFormed (joint_state_after first past).abstract.ports }
{}

/// At each instant of a history, a request that is issued on a ready port has a usable slot of that port, on which ST
/// is one. The header and the table there mean its command. Its bit of PxCI is set, or the device has taken the
/// command, or the request has ended and the bits are clear. (Only if ST is zero may a command have been given up.)
pub fn law_issued_requests_have_their_slots()
    ensures { (wanted : List Wanted) (first : JointState Device) (past : List (JointEvent Device DeviceStep))
        (e : Pending)
        → IsDriverHistory wanted first past → (joint_state_after first past).abstract.ports.state e.request.port ≡ Ready
        → Contains (joint_state_after first past).abstract.machine.book e → e.issued ≡ true
        → (slot : ℕ) × (slot < ((joint_state_after first past).abstract.ports.mode e.request.port).usable_slots)
        × ServesRequest (joint_state_after first past).abstract.machine (joint_state_after first past).device.memory
        ((joint_state_after first past).device.port e.request.port.0)
        e.request.port.0 slot e.request.id
        × (((joint_state_after first past).device.port e.request.port.0).st ≡ true) }
{}

/// In a service a ready port that stays healthy is left alone: it is what it was, each answer there is Ok, and neither
/// its PxCMD nor its PxSCTL is written.
pub fn law_services_leave_healthy_ports_alone()
    ensures { (wanted : List Wanted) (first : JointState Device) (past : List (JointEvent Device DeviceStep))
        (h : JointEvent Device DeviceStep)
        (port : Port) → (history : IsDriverHistory wanted first (h ∷ past)) → h.event.call ≡ Service
        → (joint_state_after first past).abstract.ports.state port ≡ Ready
        → StaysHealthy port.0 (joint_state_after first past).device h.device
        → IsSpared (joint_state_after first past) h history.2.accesses port }
{
    law_plug_events_match_disk_changes();
}

/// A port that is ready and stays healthy in a call runs well after it, unless the call is a reset, or a tick that
/// brings a request of the port to its age of three.
pub fn law_healthy_calls_leave_ports_running_well()
    ensures { OfPortsInCalls (λ old h new port. old.abstract.ports.state port ≡ Ready → h.event.call ≢ Reset
        → (h.event.call ≡ Tick → TimesOutAtTick old.abstract port → ⊥)
        → StaysHealthy port.0 old.device h.device → RunsWell (h.device.port port.0)) }
{
    law_plug_events_match_disk_changes();
    law_asked_steps_are_transitions();
    law_running_well_stays_if_undisturbed();
    law_undisturbed_port_runs_on_if_controls_stay();
}

/// Each answer of a history rests on what the device did and showed.
pub fn law_answers_justified()
    ensures { (wanted : List Wanted) (first : JointState Device) (past : List (JointEvent Device DeviceStep))
        (h : JointEvent Device DeviceStep)
        (history : IsDriverHistory wanted first (h ∷ past)) → (e : Pending) (told : Outcome)
        → Contains h.event.steps (Answer e told)
        → AnswerJustified (joint_state_after first past) h history.2.accesses e told }
{
    law_rows_shrink_and_owners_stay();
}

/// The device uses no byte of a client's frame that isn't lent, whatever it does next. (This holds between calls.
/// Within one, a frame leaves a loan if its request has ended, or its port has stopped: see what each answer rests on.)
pub fn law_device_never_owns_unlent_client_frames()
    ensures { (wanted : List Wanted) (first : JointState Device) (past : List (JointEvent Device DeviceStep))
        (frame : Frame) → IsDriverHistory wanted first past
        → DRIVER_FRAMES ≤ frame.0 → (joint_state_after first past).abstract.machine.lent frame ≡ None
        → IsStable (DeviceOwnsNoByteOfFrame frame) (joint_state_after first past).device }
{
    law_run_prerequisites();
    law_device_never_owns_frames_out_of_use();
}

/// No request is answered Unplugged if its port had reported no change and showed a device when the call began, no disk
/// of it went or came, and it ends the call dead, or ready with the same serial and size.
pub fn law_unplugged_needs_loss()
    ensures { (wanted : List Wanted) (first : JointState Device) (past : List (JointEvent Device DeviceStep))
        (h : JointEvent Device DeviceStep)
        (e : Pending) → IsDriverHistory wanted first (h ∷ past)
        → (ShowsLinkChange ((joint_state_after first past).device.port e.request.port.0)
        → ⊥)
        → ((joint_state_after first past).device.port e.request.port.0).ssts_det ≡ 3
        → NoPlugEvents e.request.port.0 (joint_state_after first past).device h.device
        → (h.event.ports.state e.request.port ≡ Dead)
        ⊎ ((h.event.ports.state e.request.port ≡ Ready)
        × SameSerialAndSize (joint_state_after first past).abstract.ports h.event.ports e.request.port)
        → Contains h.event.steps (Answer e outcome.Unplugged) → ⊥ }
{}

/// A service answers each request of a ready port whose bits are clear when it begins, whether or not a command has
/// failed there or its disk was lost.
pub fn law_services_answer_where_bits_are_clear()
    ensures { (wanted : List Wanted) (first : JointState Device) (past : List (JointEvent Device DeviceStep))
        (h : JointEvent Device DeviceStep)
        (port : Port) (slot : ℕ) (id : RequestId) → IsDriverHistory wanted first (h ∷ past) → h.event.call ≡ Service
        → (joint_state_after first past).abstract.ports.state port ≡ Ready
        → ServesRequest (joint_state_after first past).abstract.machine (joint_state_after first past).device.memory
        ((joint_state_after first past).device.port port.0) port.0 slot id
        → ((joint_state_after first past).device.port port.0).ci slot ≡ false
        → ((joint_state_after first past).device.port port.0).sact slot
        ≡ false
        → (done : Pending) × (done.request.id ≡ id) × Contains h.event.steps (Answer done outcome.Ok) }
{}

/// A tick that brings a request of a port to its age of three leaves no unanswered request of the port its issue.
pub fn law_timeouts_leave_only_new_issues()
    ensures { OfPortsInCalls (λ old h new port. h.event.call ≡ Tick → TimesOutAtTick old.abstract port
        → IssuedOnPortAreIssuedInSteps h.event.steps new.abstract.machine port) }
{}

/// Composition on healthy ports: each call of a history that is healthy for a port goes well for it, whatever was
/// before. The port is left alone, with ST one, and each answer is Ok, or Revoked if a grant is revoked. A service
/// answers exactly the issued requests whose bits are clear in the masks that it read, and a call issues exactly what
/// is due.
pub fn law_healthy_calls_tell_no_fault_and_issue_due()
    ensures { OfPortsInCalls (λ old h new port. IsHealthyFor old h port → GoesWellFor old h port) }
{
    law_plug_events_match_disk_changes();
    law_asked_steps_are_transitions();
    law_running_well_stays_if_undisturbed();
    law_undisturbed_port_runs_on_if_controls_stay();
}

/// On a port that is ready at the end of a submit, a service, a tick, a reset or a revocation, exactly what is due was
/// issued.
pub fn law_due_are_issued()
    ensures { OfPortsInCalls (λ old h new port. IssuesAllDue h.event.call h.event.steps new.abstract.machine
        h.event.ports port) }
{}

/// What stands behind a port's evidence in its own turn of a call stands behind it in the whole call, if the turn's and
/// the call's evidence name the port in the same lists, and apart from the turn the call's accesses are of other ports.
/// For a ready port, and for one that is named as lost, no link may be due when the call begins. The same holds for a
/// fault that was on the tape before the port was stopped, and for the last page of the log that its disk sent, if it
/// sends none after the turn.
pub fn law_turn_evidence_holds_for_call()
    ensures evidence { (port : Port) (old : JointState Device) (begun : AbstractState) (ended ports : Ports)
        (new : Device)
        (turn call : Evidence)
        (ask : AbstractCall DeviceStep) (said : AbstractCallResult) → IsOn old.device
        → ((old.abstract.ports.state port ≡ Ready) ⊎ Contains turn.lost port → (old.device.port port.0).link_due
        ≡ false)
        → (t : HasTurnIn port old.device new) → IsOn t.end → SamePort old.abstract.ports begun.ports port
        → SamePort ended ports port → EvidenceAgreesOn port turn call
        → IsEvidencedOf ask said t.turn (record { device = t.start; abstract = begun }) ended t.end turn port
        → IsEvidencedOf ask said (call_accesses t) old ports new call port }
    ensures turn_failure_is_calls { (port : Port) (old new : Device) (fault : Fault) → IsOn old
        → (t : HasTurnIn port old new)
        → HasFailed port t.turn t.start t.end fault → HasFailed port (call_accesses t) old new fault }
    ensures turn_log_page_is_calls { (port : Port) (old new : Device) (page : List ℕ) → IsOn old
        → (t : HasTurnIn port old new)
        → GainsNoMove port.0 ReadLog t.end new → BringsLastLogPage port t.start t.end page
        → BringsLastLogPage port old new page }
{
    law_prerequisites();
}

/// Of a port that stays healthy in a call nothing is so for which trouble is named: it isn't gone, and has no errors.
/// So there is no trouble that could be lost.
pub fn law_healthy_ports_have_no_error()
    ensures link_is_unchanged { (port : Port) (old : JointState Device) (new : Device)
        → StaysHealthy port.0 old.device new
        → ReadyPortShowedLossOrHadPlugEvent port old new → ⊥ }
    ensures has_no_errors { (port : Port) (old : JointState Device) (new : Device) → StaysHealthy port.0 old.device new
        → ReadyPortShowedOrHadFailure port old new → ⊥ }
    ensures has_no_fatal_errors { (port : Port) (old : JointState Device) (new : Device)
        → StaysHealthy port.0 old.device new
        → ReadyPortShowedOrHadFatalError port old new → ⊥ }
    ensures loses_no_error { (evidence : Evidence) (old : JointState Device) (ports : Ports) (new : Device)
        (port : Port)
        → StaysHealthy port.0 old.device new → LosesNoPortError evidence old ports new port }
{}
