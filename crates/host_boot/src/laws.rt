// Laws of the definitions, for callers: the clause is the theorem. Nothing that runs calls these functions.
ghost use Rattle.std.specs.Prelude.{ℕ, true, false, ◌≡◌, ◌≢◌, ◌<◌, List};
ghost use Rattle.ata_types.specs.{declared.Port.{Port}, declared.PortState.{PortState}, declared.PortState.TheVariants.{Dead}};
ghost use Rattle.adapter.specs.{Access.{Access}, Device.{Device}, Idle.{IsIdle}, Rules.{IsOn, HasPort}, Steps.{Steps}, declared.command.Operation.TheVariants.{Identify}};
ghost use Rattle.refinement.specs.{Fragments.{IsDrivenBy, AccessesNoOtherPort, GainsNoMove}, PortFacts.{RecordsFaultsIfSt, RunsWell, Undisturbed}, PreservedParts.{HasDet3IfDiskPresent, SameAdapter}, MemoryLayout.{command_list_address}};
ghost use Rattle.identify.specs.{declared.DiskInfo.{DiskInfo}, declared.wanted.Wanted.{Wanted}};
ghost use Rattle.host_boot.specs.{Reboots.{RebootsPort, RebootsWithDet3OrFindsAbsent, IsCapPiOrBootAccess}, TakeOver.{FoundUnusableDevice, IsWantedAndImplemented, KeepsWhatBacksProbeResult, OnlyDeviceChangesPorts, BacksProbeResult, StillBacksProbeResult, TakesOver, probe_result_of}, declared.Booted.{Booted}, declared.ProbeResult.{ProbeResult}, declared.ProbeResult.TheVariants.{Unserved, Ready, Unready}, declared.Host.{Host}};
ghost use Rattle.port_boot.specs.States.{ShownDiskIsIn};

use super::prerequisites::law_prerequisites;

/// What stands behind what a port was found to be still stands as long as the port isn't booted anew. A boot begins it.
/// It goes on where the adapter is the same, enough is left of the port, and its disk sends no page of IDENTIFY DEVICE,
/// which a dead port's may.
pub fn law_probe_result_backed_until_next_port_boot()
    ensures begins { (wanted : Wanted) (found : ProbeResult) (port : ℕ) (d : Device)
        → BacksProbeResult wanted found port d
        → StillBacksProbeResult wanted found port d }
    ensures goes_on { (wanted : Wanted) (found : ProbeResult) (port : ℕ) (old new : Device) → SameAdapter old new
        → KeepsWhatBacksProbeResult found (old.port port) (new.port port) → (found ≢ Unready Dead
        → GainsNoMove port Identify old new)
        → StillBacksProbeResult wanted found port old → StillBacksProbeResult wanted found port new }
{
    law_prerequisites();
}

/// Over steps of the device, while no reset is pending, only the device changes ports; and the adapter is what it was.
pub fn law_steps_keep_controls_and_notes_unless_hr()
    ensures only_device_changes_ports { (old new : Device) → old.hr ≡ false → Steps old new
        → OnlyDeviceChangesPorts old new }
    ensures adapter_is_kept { (old new : Device) → Steps old new → SameAdapter old new }
{
    law_prerequisites();
}

/// A server may begin with what was taken over. The adapter has each port that is served. A port that was found ready
/// has its command list in its place, with ST set; where nothing went wrong on it in the whole taking over, it runs
/// well; and whatever went wrong, its faults since ST was set are on record; and a disk is in, if it shows one. A port
/// that was found unfit or foreign shows a device, or has no disk in.
pub fn law_ready_ports_run_and_unusable_disks_show()
    ensures served_port_exists { (wanted : List Wanted) (host : Host) (port : ℕ) (old new : Device)
        → TakesOver wanted host old new
        → port < 4 → probe_result_of host.ports port ≢ Unserved → HasPort new port }
    ensures ready_port_is_programmed_and_started { (wanted : List Wanted) (host : Host) (port : ℕ) (info : DiskInfo)
        (old new : Device)
        → TakesOver wanted host old new → port < 4 → probe_result_of host.ports port ≡ Ready info
        → ((new.port port).st ≡ true) × ((new.port port).bases.clb ≡ command_list_address port) × HasPort new port }
    ensures healthy_port_runs_well { (wanted : List Wanted) (host : Host) (port : ℕ) (info : DiskInfo)
        (old new : Device) → IsIdle old
        → TakesOver wanted host old new → probe_result_of host.ports port ≡ Ready info → Undisturbed port old new
        → RunsWell (new.port port) }
    ensures faults_are_on_record { (wanted : List Wanted) (host : Host) (port : ℕ) (info : DiskInfo) (old new : Device)
        → IsIdle old
        → TakesOver wanted host old new → probe_result_of host.ports port ≡ Ready info
        → RecordsFaultsIfSt new.tape (new.port port) port }
    ensures bad_disk_shows_if_in { (wanted : List Wanted) (host : Host) (port : ℕ) (state : PortState)
        (old new : Device) → IsIdle old
        → TakesOver wanted host old new → FoundUnusableDevice state → probe_result_of host.ports port ≡ Unready state
        → HasDet3IfDiskPresent (new.port port) }
    ensures disk_is_in_if_det_3 { (wanted : List Wanted) (host : Host) (port : ℕ) (info : DiskInfo) (old new : Device)
        → IsIdle old
        → TakesOver wanted host old new → probe_result_of host.ports port ≡ Ready info
        → ShownDiskIsIn (new.port port) }
{
    law_prerequisites();
}

/// A port that runs well does so still after accesses of another port, where nothing goes wrong on it meanwhile.
pub fn law_other_port_access_keeps_running_well()
    ensures { (port other : Port) (old new : Device) → port.0 ≢ other.0 → IsOn old
        → IsDrivenBy (AccessesNoOtherPort other) old new
        → Undisturbed port.0 old new → RunsWell (old.port port.0) → RunsWell (new.port port.0) }
{
    law_prerequisites();
}

/// A reboot's accesses are of the port alone; what stands behind it is what was found; and one that was found unfit or
/// foreign shows a device, or has no disk in. A port that does so still does after accesses of another port. The same
/// is so of a port that was booted if a device showed; and so are the accesses of either of the port, one by one.
pub fn law_reboot_is_of_port_and_backs_result()
    ensures reboot_is_of_port { (wanted : Wanted) (port : Port) (booted : Booted) (old new : Device)
        → RebootsPort wanted port booted old new → IsDrivenBy (AccessesNoOtherPort port) old new }
    ensures conditional_boot_is_of_port { (wanted : Wanted) (port : Port) (booted : Booted) (old new : Device)
        → RebootsWithDet3OrFindsAbsent wanted port booted old new → IsDrivenBy (AccessesNoOtherPort port) old new }
    ensures reboot_backs_result { (wanted : Wanted) (port : Port) (booted : Booted) (old new : Device)
        → RebootsPort wanted port booted old new → IsWantedAndImplemented wanted port.0 old
        → BacksProbeResult wanted booted.found port.0 new }
    ensures conditional_boot_backs_result { (wanted : Wanted) (port : Port) (booted : Booted) (old new : Device)
        → RebootsWithDet3OrFindsAbsent wanted port booted old new → IsWantedAndImplemented wanted port.0 old
        → BacksProbeResult wanted booted.found port.0 new }
    ensures reboot_shows_bad_disk { (wanted : Wanted) (port : Port) (booted : Booted) (state : PortState)
        (old new : Device) → IsOn old
        → RebootsPort wanted port booted old new → FoundUnusableDevice state → booted.found ≡ Unready state
        → HasDet3IfDiskPresent (new.port port.0) }
    ensures conditional_boot_shows_bad_disk { (wanted : Wanted) (port : Port) (booted : Booted) (state : PortState)
        (old new : Device) → IsOn old
        → RebootsWithDet3OrFindsAbsent wanted port booted old new → FoundUnusableDevice state → booted.found
        ≡ Unready state
        → HasDet3IfDiskPresent (new.port port.0) }
    ensures boot_start_access_is_of_port { (port : Port) (access : Access) → IsCapPiOrBootAccess port access
        → AccessesNoOtherPort port access }
    ensures other_port_keeps_shown_disk { (port other : Port) (old new : Device) → port.0 ≢ other.0 → IsOn old
        → IsDrivenBy (AccessesNoOtherPort other) old new → HasDet3IfDiskPresent (old.port port.0)
        → HasDet3IfDiskPresent (new.port port.0) }
{
    law_prerequisites();
}
