// Laws of the definitions, for callers: the clause is the theorem. Nothing that runs calls these functions.
ghost use Rattle.std.specs.Prelude.{ℕ, ◌≡◌, ◌≢◌, ◌++◌, true, false, All, Contains, List, Option, Some};
ghost use Rattle.ata_types.specs.{declared.Port.{Port}, declared.PortState.{PortState}, declared.PortState.TheVariants.{Dead}};
ghost use Rattle.hba_regs.specs.{declared.reg.PortReg.TheVariants.{Cmd, Sctl}, declared.reg.Reg.TheVariants.{Ghc, Px}};
ghost use Rattle.adapter.specs.{Access.{Access, Does, DoesAll, is_named_cause, is_ips_set, shown_interrupt}, Device.{Device}, PendingInterrupts.{LeavesPxIeUnwritten, KeepsIsBit, SetsCause, interrupting_port}, Rules.{IsOn}, Steps.{Can, DeviceTransition, Steps, device_after}, declared.tape.Entry.{Entry}, declared.command.Operation.TheVariants.{Identify}};
ghost use Rattle.refinement.specs.{Fragments.{ReadsPortOrWrites, IsDrivenBy, AccessesNoOtherPort, OnlyDeviceChangesPort, GainsNoMove}, PortFacts.{RunsWell, Undisturbed}, PreservedParts.{DoesNotWrite}};
ghost use Rattle.identify.specs.declared.DiskInfo.{DiskInfo};
ghost use Rattle.port_boot.specs.States.{BacksState, BringsReady, HasFitDiskAndInterrupts, HasLastIdentifyPage, IsSimulatedBootTo, IsBootAccess, IsReadyAfterBoot, StaysRunningIfUndisturbed, ShownDiskIsIn, StopsReceivingAndStartedEngine};
ghost use Rattle.port_control.specs.{Engines.{StopsEachEngine}, Ports.{IsCommandRegister}};

use super::prerequisites::law_prerequisites;
use adapter::laws::{
    law_interrupting_entries_set_ips_until_written, law_ips_is_set_while_enabled_cause_is_shown,
};

/// What a boot found of a port goes on as long as the port isn't booted anew. The last page is the last one still where
/// the disk has sent none since, and PxSCTL wasn't written; so the disk that fits is still there where DET of PxSCTL
/// and PxIE are as they were, too. A port that is left to the device stays ready, or goes on to end as it did; where it
/// is dead, its disk may send a page.
pub fn law_boot_findings_stay_until_next_port_boot()
    ensures page { (port : ℕ) (old new : Device) (page : List ℕ) → GainsNoMove port Identify old new
        → (new.port port).notes.sctl_written_at ≡ (old.port port).notes.sctl_written_at
        → HasLastIdentifyPage port old page
        → HasLastIdentifyPage port new page }
    ensures disk { (wanted : Option (List ℕ)) (port : ℕ) (old new : Device) (info : DiskInfo)
        → GainsNoMove port Identify old new → (new.port port).sctl_det ≡ (old.port port).sctl_det
        → (new.port port).ie ≡ (old.port port).ie → (new.port port).notes.sctl_written_at
        ≡ (old.port port).notes.sctl_written_at → HasFitDiskAndInterrupts wanted port old info
        → HasFitDiskAndInterrupts wanted port new info }
    ensures ready { (wanted : Option (List ℕ)) (port : ℕ) (old new : Device) (info : DiskInfo)
        → OnlyDeviceChangesPort (old.port port) (new.port port) → GainsNoMove port Identify old new
        → IsReadyAfterBoot wanted port old info
        → IsReadyAfterBoot wanted port new info }
    ensures state_stays_backed { (wanted : Option (List ℕ)) (state : PortState) (port : ℕ) (old new : Device)
        → OnlyDeviceChangesPort (old.port port) (new.port port) → (state ≢ Dead → GainsNoMove port Identify old new)
        → BacksState wanted state port old → BacksState wanted state port new }
{}

/// A ready port tells of each cause that is named: where PxIS shows one, its interrupt is pending; and so it is after
/// each step that raises one on it (AHCI 1.3.1, 3.1.3, 3.3.5 and 3.3.6). Over any accesses that write neither its PxIE
/// nor its bit of IS, and reset nothing, it is pending at the end where the tape has told since of a command that ended
/// or failed, a fatal error, or a disk that went or came: where GHC.IE is one, this is what a handler of interrupts
/// waits for.
pub fn law_ready_port_causes_set_ips()
    ensures shown_cause_is_pending { (wanted : Option (List ℕ)) (port place : ℕ) (d : Device) (info : DiskInfo)
        → HasFitDiskAndInterrupts wanted port d info → is_named_cause place ≡ true
        → shown_interrupt (d.port port) place ≡ true
        → is_ips_set (d.port port) ≡ true }
    ensures raised_cause_is_pending { (wanted : Option (List ℕ)) (port place : ℕ) (step : DeviceTransition) (d : Device)
        (info : DiskInfo)
        → HasFitDiskAndInterrupts wanted port d info → Can step d → SetsCause step port place
        → is_ips_set ((device_after step d).port port) ≡ true }
    ensures tape_event_is_pending { (wanted : Option (List ℕ)) (port : ℕ) (entry : Entry) (accesses : List Access)
        (gained : List Entry) (old new : Device) (info : DiskInfo) → HasFitDiskAndInterrupts wanted port old info
        → interrupting_port entry ≡ Some port → DoesAll accesses old new → All (KeepsIsBit port) accesses
        → All (LeavesPxIeUnwritten port) accesses → old.hr ≡ false → new.tape ≡ old.tape ++ gained
        → Contains gained entry → is_ips_set (new.port port) ≡ true }
{
    law_ips_is_set_while_enabled_cause_is_shown();
    law_interrupting_entries_set_ips_until_written();
}

/// A boot touches no register of another port: its accesses are of its port.
pub fn law_boot_accesses_spare_other_ports()
    ensures { (port : Port) (access : Access) → IsBootAccess port access → AccessesNoOtherPort port access }
{
    law_prerequisites();
}

/// A boot, to whatever state, was made by its accesses; and those of a stop are among them.
pub fn law_boots_are_of_boot_accesses()
    ensures boots { (port : Port) (state : PortState) (old new : Device)
        → IsSimulatedBootTo (StopsReceivingAndStartedEngine port state) port state old new
        → IsDrivenBy (IsBootAccess port) old new }
    ensures stops { (port : Port) (state : PortState) (old new : Device)
        → IsSimulatedBootTo (StopsEachEngine port) port state old new
        → IsDrivenBy (IsBootAccess port) old new }
    ensures cmd_access_is_boot_access { (port : Port) (access : Access)
        → ReadsPortOrWrites IsCommandRegister port access
        → IsBootAccess port access }
{
    law_prerequisites();
}

/// A port that runs, and on which nothing goes wrong, does so still after an access that writes neither its PxCMD nor
/// its PxSCTL, and after several that don't write GHC either. Where it ran well, it runs well.
pub fn law_undisturbed_port_runs_on_if_controls_stay()
    ensures one_access { (port : Port) (access : Access) (old new : Device) → IsOn old
        → DoesNotWrite (Px port Sctl) access
        → DoesNotWrite (Px port Cmd) access → Does access old new → StaysRunningIfUndisturbed port.0 old new }
    ensures more_accesses { (port : Port) (accesses : List Access) (old new : Device) → IsOn old
        → DoesAll accesses old new
        → All (DoesNotWrite Ghc) accesses → All (DoesNotWrite (Px port Sctl)) accesses
        → All (DoesNotWrite (Px port Cmd)) accesses → StaysRunningIfUndisturbed port.0 old new }
    ensures healthy_port_stays_well { (port : ℕ) (old new : Device) → StaysRunningIfUndisturbed port old new
        → Undisturbed port old new
        → RunsWell (old.port port) → RunsWell (new.port port) }
{
    law_prerequisites();
}

/// Where a port shows a device, a disk is in: this goes on, whatever the device does, and over each access, also one
/// that resets the adapter. And a boot that leaves its port ready begins it, since COMRESET has a port show no device
/// until its link comes up.
pub fn law_det_3_means_disk_present_is_invariant()
    ensures steps { (port : ℕ) (old new : Device) → Steps old new → ShownDiskIsIn (old.port port)
        → ShownDiskIsIn (new.port port) }
    ensures access { (port : ℕ) (access : Access) (old new : Device) → Does access old new
        → ShownDiskIsIn (old.port port) → ShownDiskIsIn (new.port port) }
    ensures accesses { (port : ℕ) (accesses : List Access) (old new : Device) → DoesAll accesses old new
        → ShownDiskIsIn (old.port port) → ShownDiskIsIn (new.port port) }
    ensures ready_boot_establishes { (port : Port) (old new : Device) → BringsReady port old new
        → ShownDiskIsIn (new.port port.0) }
{}
