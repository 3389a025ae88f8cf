// A port that isn't ready is looked at, and booted again where its disk may have come, or may be another by now.
ghost use Rattle.std.specs.Prelude.{true, ◌≡◌, ◌+◌};
ghost use Rattle.adapter.specs.{Device.{Device}, Rules.{HasPort, IsOn}, AccessBounds.{MakesAtMost}};
ghost use Rattle.refinement.specs.Fragments.{SomeMachineAgreesWith, AnySlotStates, IsSimulated};
ghost use Rattle.server_history.specs.Probing.{ProbesAnew, FindsReasonToBoot};
ghost use Rattle.error_recovery.specs.Recovery.{StopsOrSticksForReset};
ghost use Rattle.port_boot.specs.States.{IsOnWithPortMemoryAndFreeSlots};
ghost use Rattle.port_control.specs.{Ports.{IsStopped}, PortEvents.{IsPxisSstsOrOwnIsAccess}, Costs.{STOP_ACCESSES}, EventCosts.{CHANGE_CHECK_ACCESSES}};
ghost use Rattle.host_boot.specs.Costs.{REBOOT_ACCESSES};
ghost use Rattle.error_recovery.specs.declared.Recovered as recovered_record;
ghost use Rattle.port_control.specs.declared.Stopped as stopped_token;

use super::modes::{PLAIN_MODE, probed_mode};
use adapter::Adapter;
use ata_types::{Port, PortState};
use block_machine::QueueMode;
use error_recovery::{Next, stop_for_reset};
use host_boot::{ProbeResult, reboot_port};
use identify::Wanted;
use port_control::events::{has_device, has_device_changed_or_missing};
use server_history::laws::law_looks_preserve_invariant;

/// Whether a port in such a state shows what it is booted again for: an absent one a device; one whose disk isn't
/// served a change of it, or none. No other is looked at, and of a dead one no access is made.
pub(crate) fn needs_probe<A: Adapter>(adapter: &mut A, port: Port, state: PortState) -> bool
    requires adapter_is_on { IsOn (A.device adapter.old) }
    requires adapter_has_port { HasPort (A.device adapter.old) port.0 }
    ensures adapter_is_on { IsOn (A.device adapter.new) }
    ensures is_looked_at { FindsReasonToBoot state port result (A.device adapter.old) (A.device adapter.new) }
    ensures followed { IsSimulated (IsPxisSstsOrOwnIsAccess port) AnySlotStates (A.device adapter.old)
        (A.device adapter.new) }
    ensures dead_makes_no_access { state ≡ PortState.Dead → adapter.new ≡ adapter.old }
    ensures cost { MakesAtMost CHANGE_CHECK_ACCESSES (A.access_count adapter.old) (A.access_count adapter.new) }
{
    law_looks_preserve_invariant();
    match state {
        PortState::Absent => has_device(adapter, port),
        PortState::Foreign => has_device_changed_or_missing(adapter, port),
        PortState::Unfit(_) => has_device_changed_or_missing(adapter, port),
        PortState::Ready => false,
        PortState::Dead => false,
    }
}

/// Stops a port of which no command is outstanding, and boots it: what it is found to be, and how it takes commands
/// then. One that doesn't stop is dead.
pub(crate) fn probe_anew<A: Adapter>(
    adapter: &mut A,
    port: Port,
    wanted: &Wanted,
) -> (ProbeResult, QueueMode)
    requires adapter_is_on { IsOn (A.device adapter.old) }
    requires has_port { HasPort (A.device adapter.old) port.0 }
    requires some_machine_agrees { SomeMachineAgreesWith AnySlotStates (A.device adapter.old) }
    requires bootable { (stopped : Device) (result : recovered_record.Recovered) (token : stopped_token.Stopped)
        → StopsOrSticksForReset port 0 true result (A.device adapter.old) stopped → result.next ≡ Next.Restart token
        → (token.port ≡ port) × IsOnWithPortMemoryAndFreeSlots port stopped × IsStopped (stopped.port port.0) }
    ensures adapter_is_on { IsOn (A.device adapter.new) }
    ensures finds { ProbesAnew wanted.now port result.0 result.1 (A.device adapter.old) (A.device adapter.new) }
    ensures cost { MakesAtMost (STOP_ACCESSES + REBOOT_ACCESSES)
        (A.access_count adapter.old) (A.access_count adapter.new) }
{
    let recovered = stop_for_reset(adapter, port, 0);
    match recovered.next {
        Next::Restart(stopped) => {
            let booted = reboot_port(adapter, stopped, wanted);
            let mode = probed_mode(booted.slot_count, booted.supports_ncq, &booted.found);
            (booted.found, mode)
        }
        _ => (ProbeResult::Unready(PortState::Dead), PLAIN_MODE),
    }
}
