// Laws of what a call owes a port on which a command fails, that meets a fatal error, or whose disk goes or comes, for
// callers: the clause is the theorem. These functions do nothing.
ghost use Rattle.std.specs.Prelude.{ℕ, true, false, ◌≡◌, ◌⊎◌, ◌≤◌, List, ◌∷◌, All, length};
ghost use Rattle.ata_types.specs.{declared.Port.{Port}, declared.PortState.TheVariants.{Ready}};
ghost use Rattle.hba_regs.specs.declared.reg.Reg.TheVariants.{Ghc};
ghost use Rattle.adapter.specs.{Access.{Access, DoesAll}, Device.{Device}, Rules.{IsOn}, Steps.{Steps}, declared.access.DeviceStep.{DeviceStep}};
ghost use Rattle.refinement.specs.{Fragments.{TapeGrows}, Errors.{IsFatalEntryOf, NoDiskComes}, PortFacts.{IsFaultOf, Undisturbed}, PreservedParts.{HasDet3IfDiskPresent, NoPlugEvents, DoesNotWrite}};
ghost use Rattle.block_machine.specs.{Events.{AbstractState, AbstractCallResult, Service}, Histories.{JointEvent, JointState, joint_state_after}, Ports.{Evidence, IsStoppedOrStuck, Ports, SamePort}};
ghost use Rattle.error_recovery.specs.Evidence.{GainsSinceStart};
ghost use Rattle.driver_history.specs.{Claims.{HandlesShownFailure, HandlesShownLoss}, Evidence.{ShowsLinkChange, ShowsFailure, ShowedLinkChangeOrNoDeviceAndNoneCame}, Histories.{BootsAnewWhereRequired, IsForeignOrUnfit, HasOnlyTaskFileError, LosesNoPortError, OfPortsInCalls, RunsWellAnew, ProbesDisk}, PortTurn.{NoLinkDueAfterXUnlessAbsentDeadOrDiskComes, HasTurnIn, EvidenceAgreesOn, call_accesses}, AccessTrace.{WritesOneToNoTroubleBit, LastSctlWritesResetLink}};
ghost use Rattle.identify.specs.declared.wanted.Wanted.{Wanted};
ghost use Rattle.port_control.specs.Engines.{Stops};

use super::prerequisites::law_prerequisites;

/// A service handles the failure that a ready port showed when it began, a fault or a fatal error, whatever else it
/// showed. What had ended is answered Ok, the port was stopped, what is issued at the end was issued anew, and at most
/// one request is answered with a fault. With a fatal error none is. With TFES alone, and in the call no fatal error,
/// and no disk that goes or comes, a plain request always is.
pub fn law_services_heed_shown_failures()
    ensures { OfPortsInCalls (λ old h new port. h.event.call ≡ Service → old.abstract.ports.state port ≡ Ready
        → ShowsFailure (old.device.port port.0) → HandlesShownFailure port old h) }
{}

/// A service handles a ready port that showed a change of its link when it began, or no device, with no disk that comes
/// meanwhile, whatever else it showed. What had ended is answered Ok, all other requests of the port are answered that
/// the disk is gone, or that the port is dead, and the port was stopped.
pub fn law_services_heed_shown_losses()
    ensures { OfPortsInCalls (λ old h new port. h.event.call ≡ Service → old.abstract.ports.state port ≡ Ready
        → ShowedLinkChangeOrNoDeviceAndNoneCame port old.device h.device → HandlesShownLoss port old h) }
{}

/// Accesses that leave the adapter on, and clear no bit that shows a port's trouble, lose none of it. Nor does the
/// device by itself: a fault, a fatal error, or a change of the link that was shown is still shown, and so is one that
/// came, and a disk that went or came.
pub fn law_errors_stay_unless_cleared_or_ghc_written()
    ensures accesses { (port : Port) (old : JointState Device) (new : Device) (accesses : List Access)
        (evidence : Evidence) (ports : Ports)
        → IsOn old.device → DoesAll accesses old.device new → All (DoesNotWrite Ghc) accesses
        → All (WritesOneToNoTroubleBit port) accesses → LosesNoPortError evidence old ports new port }
    ensures steps { (port : Port) (old : JointState Device) (new : Device) (evidence : Evidence) (ports : Ports)
        → IsOn old.device → Steps old.device new → LosesNoPortError evidence old ports new port }
{
    law_prerequisites();
}

/// If a ready port shows TFES alone when a call begins, with no other trouble in it, the same holds in the port's own
/// turn, if no link is due when the call begins.
pub fn law_a_fault_alone_in_a_call_is_alone_in_a_turn()
    ensures { (port : Port) (old : JointState Device) (begun : AbstractState) (new : Device) → IsOn old.device
        → (old.device.port port.0).link_due ≡ false → (t : HasTurnIn port old.device new) → IsOn t.end
        → begun.ports.state port ≡ Ready → HasOnlyTaskFileError port old new
        → HasOnlyTaskFileError port (record { device = t.start; abstract = begun }) t.end }
{
    law_prerequisites();
}

/// What a port's turn owes of trouble the whole call does, if the turn's and the call's evidence name the port in the
/// same lists, ST was set in the turn if it stopped the port and left it ready, and it stopped the port if that showed
/// a failure, or a change of its link, when it began, and was ready then, or is at its end. The same holds for boots,
/// if no link of a ready port is due when the call begins; and for a port that runs well anew, if ST of one that is
/// left ready was set by the turn's end, and no link of it was due when the call began, or the turn reset it.
pub fn law_turn_error_and_boot_duties_hold_for_call()
    ensures loses_no_error { (port : Port) (old : JointState Device) (begun : AbstractState) (ended ports : Ports)
        (new : Device)
        (turn call : Evidence) → IsOn old.device
        → (t : HasTurnIn port old.device new) → IsOn t.end → SamePort ended ports port → EvidenceAgreesOn port turn call
        → SamePort old.abstract.ports begun.ports port
        → (ended.state port ≡ Ready → IsStoppedOrStuck turn port
        → length t.start.tape ≤ (t.end.port port.0).notes.st_set_at)
        → ((begun.ports.state port ≡ Ready) ⊎ (ended.state port ≡ Ready) → ShowsFailure (t.start.port port.0)
        ⊎ ShowsLinkChange (t.start.port port.0)
        → IsStoppedOrStuck turn port)
        → LosesNoPortError turn (record { device = t.start; abstract = begun }) ended t.end port
        → LosesNoPortError call old ports new port }
    ensures boots_anew { (port : Port) (old : JointState Device) (begun : AbstractState) (ended ports : Ports)
        (new : Device)
        (one other : AbstractCallResult) → IsOn old.device
        → (old.abstract.ports.state port ≡ Ready → (old.device.port port.0).link_due ≡ false)
        → (t : HasTurnIn port old.device new) → IsOn t.end → SamePort ended ports port
        → SamePort old.abstract.ports begun.ports port
        → BootsAnewWhereRequired Service one t.turn (record { device = t.start; abstract = begun }) ended t.end port
        → BootsAnewWhereRequired Service other (call_accesses t) old ports new port }
    ensures runs_well_anew { (port : Port) (old : JointState Device) (begun : AbstractState) (ended ports : Ports)
        (new : Device)
        (turn call : Evidence) → IsOn old.device
        → (t : HasTurnIn port old.device new) → IsOn t.end
        → (ended.state port ≡ Ready → ((old.device.port port.0).link_due ≡ false) ⊎ LastSctlWritesResetLink port t.turn)
        → SamePort ended ports port → EvidenceAgreesOn port turn call
        → (ended.state port ≡ Ready → (t.end.port port.0).notes.st_set_at ≤ length t.end.tape)
        → RunsWellAnew turn t.turn (record { device = t.start; abstract = begun }) ended t.end port
        → RunsWellAnew call (call_accesses t) old ports new port }
{
    law_prerequisites();
}

/// If a port's turn in a call probes its disk, the call does, if no disk was in a port with one that isn't served when
/// the call began, or a device showed, and if no link is due at the turn's end of one that showed X, unless it is
/// absent or dead then. The same holds at the call's end, too.
pub fn law_turn_disk_probe_holds_for_call()
    ensures probes { (port : Port) (old : JointState Device) (begun : AbstractState) (ended ports : Ports)
        (new : Device)
        → IsOn old.device → (t : HasTurnIn port old.device new) → IsOn t.end → SamePort ended ports port
        → SamePort old.abstract.ports begun.ports port
        → (IsForeignOrUnfit old.abstract.ports port → HasDet3IfDiskPresent (old.device.port port.0))
        → NoLinkDueAfterXUnlessAbsentDeadOrDiskComes port (record { device = t.start; abstract = begun }) ended
        t.end
        → (NoDiskComes port.0 t.start t.end
        → ProbesDisk t.turn (record { device = t.start; abstract = begun }) ended t.end
        port)
        → NoDiskComes port.0 old.device new → ProbesDisk (call_accesses t) old ports new port }
    ensures ends_no_link_due { (port : Port) (old : JointState Device) (begun : AbstractState) (ended ports : Ports)
        (new : Device)
        → IsOn old.device → (t : HasTurnIn port old.device new) → IsOn t.end → SamePort ended ports port
        → SamePort old.abstract.ports begun.ports port
        → NoLinkDueAfterXUnlessAbsentDeadOrDiskComes port (record { device = t.start; abstract = begun })
        ended t.end → NoLinkDueAfterXUnlessAbsentDeadOrDiskComes port old ports new }
{
    law_prerequisites();
}

/// If no disk of a port went or came, and no fault and no fatal error came since its ST was last set, nothing went
/// wrong on it after any moment at which ST was set before.
pub fn law_no_plug_or_error_since_st_is_undisturbed()
    ensures { (port : ℕ) (old mid new : Device) → TapeGrows old mid → TapeGrows mid new
        → (new.port port).notes.st_set_at
        ≤ length mid.tape
        → NoPlugEvents port old new → (GainsSinceStart (IsFaultOf port) port old new → ⊥)
        → (GainsSinceStart (IsFatalEntryOf port) port old new → ⊥) → Undisturbed port mid new }
{
    law_prerequisites();
}

/// A fatal error that came in a part of a call since ST of its port was last set has come since then in the whole, if
/// ST wasn't set again after the part.
pub fn law_a_fatal_error_of_a_part_is_of_the_whole()
    ensures { (port : ℕ) (old start end new : Device) → TapeGrows old start → TapeGrows end new
        → (new.port port).notes.st_set_at ≡ (end.port port).notes.st_set_at
        → GainsSinceStart (IsFatalEntryOf port) port start end → GainsSinceStart (IsFatalEntryOf port) port old new }
{}

/// If accesses that leave the adapter on stopped a port, and its ST is one after them, it was set since they began.
pub fn law_st_after_a_stop_was_set_since()
    ensures { (port : Port) (accesses : List Access) (old new : Device) → IsOn old → All (DoesNotWrite Ghc) accesses
        → DoesAll accesses old new → Stops port accesses → (new.port port.0).st ≡ true
        → length old.tape ≤ (new.port port.0).notes.st_set_at }
{
    law_prerequisites();
}

/// If accesses that leave the adapter on reset a port's link, PxSCTL was written since they began. So if the tape has
/// grown since PxSCTL was written, no service overlooks a device that an absent port shows (`ProbesDisk`).
pub fn law_link_reset_sets_sctl_written_at()
    ensures { (port : Port) (accesses : List Access) (old new : Device) → IsOn old → All (DoesNotWrite Ghc) accesses
        → DoesAll accesses old new → LastSctlWritesResetLink port accesses
        → length old.tape ≤ (new.port port.0).notes.sctl_written_at }
{
    law_prerequisites();
}
