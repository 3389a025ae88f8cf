// Laws of the definitions, for callers: the clause is the theorem. Nothing that runs calls these functions.
ghost use Rattle.std.specs.Prelude.{ℕ, true, false, ◌≡◌, ◌≢◌, ◌≤◌, ◌%◌, ◌⊎◌};
ghost use Rattle.ata_types.specs.declared.Port.{Port};
ghost use Rattle.hba_regs.specs.{Bits.{bit}, declared.reg.PortReg.{PortReg}, declared.reg.PortReg.TheVariants.{Ci, Is, Sact, Ssts}, declared.reg.Reg.TheVariants.{Ghc, Px}};
ghost use Rattle.adapter.specs.{Access.{Access, Reads}, Device.{Device}, Rules.{IsOn}};
ghost use Rattle.refinement.specs.{Fragments.{SameSlotStates, SomeMachineAgrees, IsDrivenBy, IsSimulated, AccessesNoOtherPort}, Errors.{KeepsSetBitsOfPxisAndSerrNX, NoDiskComes}, PortFacts.{IsHaltedByPlainOrQueued, RecordsFaultsIfSt, RunsWell, ShowsNoTrouble, PxisValueTellsNoTrouble, Undisturbed}, PreservedParts.{SameAdapter, DoesNotWrite}, Slots.{SlotStates}};
ghost use Rattle.port_control.specs.{PortEvents.{port_event_of, IsPxisSstsOrOwnIsAccess, TakesEvent}, ServiceAccesses.{ShowedLossOrHadPlugEvent, WritesOnlyHbaIsPxIsCiOrSact, WritesOnlyHbaIsCiSactOrOtherPxIs, SerrNXStaySet, HidesNoPlugEvent, HidesNoFatal, HidesNoFault}, declared.events.PortEvent.{PortEvent}};
ghost use Rattle.port_control.specs.declared.events.PortEvent.TheVariants as look;

use super::prerequisites::law_prerequisites;

/// The accesses of a look are service accesses, and write no other port's PxIS.
pub fn law_looks_make_only_service_accesses()
    ensures is_service_access { (port : Port) (access : Access) → IsPxisSstsOrOwnIsAccess port access
        → WritesOnlyHbaIsPxIsCiOrSact access }
    ensures leaves_other_px_is { (port other : Port) (access : Access) → port.0 ≢ other.0
        → IsPxisSstsOrOwnIsAccess port access
        → WritesOnlyHbaIsCiSactOrOtherPxIs other access }
    ensures look_is_driven { (port : Port) (result : PortEvent) (old new : Device) → TakesEvent port result old new
        → IsDrivenBy (IsPxisSstsOrOwnIsAccess port) old new }
{}

/// A look touches no register of another port, nor another port's bit of IS: so what is said of such accesses
/// (`AccessesNoOtherPort`) is so of each.
pub fn law_looks_spare_other_ports()
    ensures { (port : Port) (access : Access) → IsPxisSstsOrOwnIsAccess port access → AccessesNoOtherPort port access }
{}

/// What serving ports leaves: the adapter, which stays on; ST and the command list of each port; DET of each port's
/// PxSCTL, its PxIE, and when PxSCTL was written and ST set; each port that runs well, where nothing goes wrong on it;
/// the record of each port's faults; and bits of PxSACT that are clear. So a machine that agrees goes on, too, where
/// the fragment is followed.
pub fn law_services_keep_ports_running()
    ensures stays_on { (old new : Device) → IsOn old → IsDrivenBy WritesOnlyHbaIsPxIsCiOrSact old new → IsOn new }
    ensures adapter_is_kept { (old new : Device) → IsDrivenBy WritesOnlyHbaIsPxIsCiOrSact old new
        → SameAdapter old new }
    ensures start_and_list_are_kept { (port : Port) (old new : Device) → IsOn old
        → IsDrivenBy WritesOnlyHbaIsPxIsCiOrSact old new
        → ((new.port port.0).st ≡ (old.port port.0).st) × ((new.port port.0).bases.clb ≡ (old.port port.0).bases.clb) }
    ensures controls_are_kept { (port : ℕ) (old new : Device) → IsOn old
        → IsDrivenBy WritesOnlyHbaIsPxIsCiOrSact old new
        → ((new.port port).sctl_det ≡ (old.port port).sctl_det) × ((new.port port).ie ≡ (old.port port).ie)
        × ((new.port port).notes.sctl_written_at ≡ (old.port port).notes.sctl_written_at)
        × ((new.port port).notes.st_set_at ≡ (old.port port).notes.st_set_at) }
    ensures ports_run_well { (port : Port) (old new : Device) → IsOn old
        → IsDrivenBy WritesOnlyHbaIsPxIsCiOrSact old new
        → Undisturbed port.0 old new → RunsWell (old.port port.0) → RunsWell (new.port port.0) }
    ensures faults_stay_on_record { (port : ℕ) (old new : Device) → IsDrivenBy WritesOnlyHbaIsPxIsCiOrSact old new
        → RecordsFaultsIfSt old.tape (old.port port) port → RecordsFaultsIfSt new.tape (new.port port) port }
    ensures sact_stays_clear { (port : Port) (q slot : ℕ) (old new : Device)
        → IsDrivenBy (IsPxisSstsOrOwnIsAccess port) old new
        → (old.port q).sact slot ≡ false → (new.port q).sact slot ≡ false }
    ensures relation_is_kept { (uses : SlotStates) (old new : Device)
        → IsSimulated WritesOnlyHbaIsPxIsCiOrSact (SameSlotStates uses) old new
        → SomeMachineAgrees uses old
        → SomeMachineAgrees uses new }
{
    law_prerequisites();
}

/// Accesses that serve ports write of each port PxIS, PxCI and PxSACT alone, and not GHC.
pub fn law_service_accesses_write_only_is_ci_sact()
    ensures ghc_is_unwritten { (access : Access) → WritesOnlyHbaIsPxIsCiOrSact access → DoesNotWrite Ghc access }
    ensures port_register_is_unwritten { (port : Port) (r : PortReg) → r ≢ Is → r ≢ Ci → r ≢ Sact → (access : Access)
        → WritesOnlyHbaIsPxIsCiOrSact access
        → DoesNotWrite (Px port r) access }
{}

/// What each answer of a look says of what was read.
pub fn law_port_event_tells_bits_read()
    ensures link_changed { (causes status : ℕ) → port_event_of causes status ≡ look.LinkChanged
        → (bit causes 6 ≡ true) ⊎ (bit causes 22 ≡ true) ⊎ (status % 16 ≢ 3) }
    ensures fatal_error { (causes status : ℕ) → port_event_of causes status ≡ look.FatalError
        → ((bit causes 28 ≡ true) ⊎ (bit causes 29 ≡ true) ⊎ (bit causes 27 ≡ true))
        × (bit causes 6 ≡ false) × (bit causes 22 ≡ false) × (status % 16 ≡ 3) }
    ensures task_file_error { (causes status : ℕ) → port_event_of causes status ≡ look.TaskFileError
        → (bit causes 30 ≡ true) × (bit causes 6 ≡ false) × (bit causes 22 ≡ false)
        × ((place : ℕ) → 27 ≤ place → place ≤ 29 → bit causes place ≡ false) × (status % 16 ≡ 3) }
    ensures no_event { (causes status : ℕ) → port_event_of causes status ≡ look.NoEvent
        → PxisValueTellsNoTrouble causes × (status % 16 ≡ 3) }
    ensures no_trouble_gives_no_event { (causes status : ℕ) → PxisValueTellsNoTrouble causes → status % 16 ≡ 3
        → port_event_of causes status ≡ look.NoEvent }
{}

/// A look sees what there is. It is `NoEvent` only where it told no trouble, and where nothing went wrong until
/// PxIS was read. It is `LinkChanged` where N or X of PxSERR was set; and where no device was seen, no link was due,
/// and no disk came in the call. Of a port that runs well it is `NoEvent`, and it runs well still, where nothing goes
/// wrong in the call.
pub fn law_looks_see_errors_and_link_changes()
    ensures no_event_means_no_trouble { (port : Port) (result : PortEvent) (old new : Device) → IsOn old
        → (l : TakesEvent port result old new)
        → result ≡ look.NoEvent → ShowsNoTrouble (old.port port.0) × Undisturbed port.0 old l.after_is_read }
    ensures changed { (port : Port) (result : PortEvent) (old new : Device) → IsOn old → TakesEvent port result old new
        → ((old.port port.0).serr_n ≡ true) ⊎ ((old.port port.0).serr_x ≡ true) → result ≡ look.LinkChanged }
    ensures unlinked { (port : Port) (result : PortEvent) (old new : Device) → IsOn old → TakesEvent port result old new
        → (old.port port.0).ssts_det ≢ 3 → (old.port port.0).link_due ≡ false → NoDiskComes port.0 old new
        → result ≡ look.LinkChanged }
    ensures healthy_port_has_no_event { (port : Port) (result : PortEvent) (old new : Device) → IsOn old
        → TakesEvent port result old new
        → RunsWell (old.port port.0) → Undisturbed port.0 old new → (result ≡ look.NoEvent)
        × RunsWell (new.port port.0) }
{
    law_prerequisites();
}

/// What tells of trouble isn't hidden. Service accesses that don't write the port's PxIS leave each bit of the port's
/// PxIS, and N and X of its PxSERR, set where they are set. So does a look with N and X; and with each bit of PxIS that
/// it hasn't read, also one that is set between the reading and the write.
pub fn law_unread_error_bits_stay_set()
    ensures services_keep_errors { (port : Port) (old new : Device) → IsOn old
        → IsDrivenBy (WritesOnlyHbaIsCiSactOrOtherPxIs port) old new
        → KeepsSetBitsOfPxisAndSerrNX (old.port port.0) (new.port port.0) }
    ensures look_keeps_serr_changes { (port : Port) (result : PortEvent) (old new : Device) → IsOn old
        → TakesEvent port result old new
        → SerrNXStaySet (old.port port.0) (new.port port.0) }
    ensures unread_causes_stay_set { (port : Port) (result : PortEvent) (old new : Device) → IsOn old
        → (l : TakesEvent port result old new)
        → (place : ℕ) → (l.clears.at_access.port port.0).is place ≡ true → bit l.causes place ≡ false
        → (new.port port.0).is place ≡ true }
{
    law_prerequisites();
}

/// A look that tells of a command that failed finds a fault that has halted the port, and a device with a link. Other
/// readings of the port leave both.
pub fn law_task_file_error_means_halted()
    ensures look_finds_fault { (port : Port) (old new : Device) → IsOn old → TakesEvent port look.TaskFileError old new
        → (old.port port.0).st ≡ true → RecordsFaultsIfSt old.tape (old.port port.0) port.0
        → IsHaltedByPlainOrQueued (new.port port.0).halt
        × ((new.port port.0).notes.last_ssts % 16 ≡ 3) }
    ensures reads_keep_fault { (port : Port) (r : PortReg) (v : ℕ) (old new : Device) → IsOn old
        → Reads (Px port r) v old new
        → r ≢ Ssts → (old.port port.0).st ≡ true → RecordsFaultsIfSt old.tape (old.port port.0) port.0
        → IsHaltedByPlainOrQueued (old.port port.0).halt → IsHaltedByPlainOrQueued (new.port port.0).halt
        × ((new.port port.0).notes.last_ssts ≡ (old.port port.0).notes.last_ssts) }
{
    law_prerequisites();
}

/// Trouble is heeded. What isn't shown after a look, of errors that the look hasn't read, wasn't shown before it and
/// hasn't come: a fault, a fatal error, and a disk that went or came. So it is over ordinary accesses. And a look tells
/// a loss only where the port had one to tell, or a disk went or came, if no link was due.
pub fn law_looks_and_services_hide_no_error()
    ensures look_hides_no_fault { (port : Port) (result : PortEvent) (old new : Device) → IsOn old
        → (l : TakesEvent port result old new)
        → bit l.causes 30 ≡ false → HidesNoFault port.0 old new }
    ensures look_hides_no_fatal { (port : Port) (result : PortEvent) (old new : Device) → IsOn old
        → (l : TakesEvent port result old new)
        → ((place : ℕ) → 27 ≤ place → place ≤ 29 → bit l.causes place ≡ false) → HidesNoFatal port.0 old new }
    ensures look_hides_no_plug_event { (port : Port) (result : PortEvent) (old new : Device) → IsOn old
        → TakesEvent port result old new
        → HidesNoPlugEvent port.0 old new }
    ensures services_hide_no_fault { (port : Port) (old new : Device) → IsOn old
        → IsDrivenBy (WritesOnlyHbaIsCiSactOrOtherPxIs port) old new
        → HidesNoFault port.0 old new }
    ensures services_hide_no_fatal { (port : Port) (old new : Device) → IsOn old
        → IsDrivenBy (WritesOnlyHbaIsCiSactOrOtherPxIs port) old new
        → HidesNoFatal port.0 old new }
    ensures services_hide_no_plug_event { (port : Port) (old new : Device) → IsOn old
        → IsDrivenBy (WritesOnlyHbaIsCiSactOrOtherPxIs port) old new
        → HidesNoPlugEvent port.0 old new }
    ensures link_change_is_backed { (port : Port) (old new : Device) → IsOn old
        → TakesEvent port look.LinkChanged old new
        → (old.port port.0).link_due ≡ false → ShowedLossOrHadPlugEvent port.0 old new }
{
    law_prerequisites();
}
