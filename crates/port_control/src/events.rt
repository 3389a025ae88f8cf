//! Looks at a port: what its interrupts and its link tell (AHCI 1.3.1, 5.5.3 and 6.2).
//!
//! `take_event` is for ready ports, and acknowledges what it has read. `has_device` and
//! `has_device_changed_or_missing` are for others, and write nothing. No call asks for a machine, and none hides
//! trouble that it hasn't read. Here stand, too, the words and laws on accesses that serve ports
//! (`WritesOnlyHbaIsPxIsCiOrSact`, `law_services_keep_ports_running`): they let these write PxCI, since it is between
//! issues that ports are looked at.
ghost use Rattle.std.specs.Prelude.{◌≡◌, ◌||◌, ◌==◌, ◌%◌, not};
ghost use Rattle.adapter.specs.{Rules.{IsOn, HasPort}, AccessBounds.{MakesAtMost}};
ghost use Rattle.refinement.specs.Fragments.{AnySlotStates, IsSimulated};
ghost use Rattle.hba_regs.specs.Bits.{bit};
ghost use Rattle.port_control.specs.{DeviceChecks.{ChecksForChangeOrNoDevice, ChecksForDevice}, PortEvents.{port_event_of, IsPxisSstsOrOwnIsAccess, TakesEvent}, EventCosts.{CHANGE_CHECK_ACCESSES, TAKE_EVENT_ACCESSES}};

use adapter::Adapter;
use ata_types::Port;
use hba_regs::{PortInterrupts, PortReg, Reg, SataStatus, with_bit};
use prerequisites::law_prerequisites;

pub mod laws;
pub mod prerequisites;

/// What a look at a port told.
#[derive(Clone, Copy, Debug, PartialEq, Eq)]
pub enum PortEvent {
    /// The device went or came, or it isn't there.
    LinkChanged,
    /// An error of the interface or of the host's bus (HBDS, HBFS or IFS), after which the port is booted anew.
    FatalError,
    /// A command failed.
    TaskFileError,
    /// None of these.
    NoEvent,
}

/// An error of a ready port: what a look at it told, or that a request of it has timed out.
#[derive(Clone, Copy, Debug, PartialEq, Eq)]
pub enum PortError {
    /// A command has failed: TFES of PxIS (AHCI 1.3.1, 6.2.2).
    TaskFileError,
    /// A fatal error of its interface, or of the host's bus: IFS, HBDS or HBFS of PxIS (AHCI 1.3.1, 6.2.2).
    FatalError,
    /// Its disk went, though one may be in again: PCS or PRCS of PxIS, or DET of PxSSTS other than 3.
    LinkChanged,
    /// A request of it was issued three ticks ago, and hasn't ended.
    TimedOut,
}

/// Whether a device with a link shows (AHCI 1.3.1, 3.3.10).
fn shows_linked_device(status: SataStatus) -> bool
    ensures { result ≡ (status.0 % 16 == 3) }
{
    status.detection() == SataStatus::DEVICE_WITH_LINK
}

/// Whether the device went or came, or isn't there (AHCI 1.3.1, 3.3.5 and 3.3.10).
fn tells_change(interrupts: PortInterrupts, status: SataStatus) -> bool
    ensures { result ≡ (bit interrupts.0 6 || bit interrupts.0 22 || not (status.0 % 16 == 3)) }
{
    let changed = interrupts.has_port_connect_change() || interrupts.has_phy_ready_change();
    changed || !shows_linked_device(status)
}

/// What was read tells, first things first (AHCI 1.3.1, 3.3.5 and 3.3.10).
fn told(interrupts: PortInterrupts, status: SataStatus) -> PortEvent
    ensures { result ≡ port_event_of interrupts.0 status.0 }
{
    if tells_change(interrupts, status) {
        return PortEvent::LinkChanged;
    }
    let host = interrupts.has_host_bus_data_error() || interrupts.has_host_bus_fatal_error();
    if host || interrupts.has_interface_fatal_error() {
        return PortEvent::FatalError;
    }
    if interrupts.has_task_file_error() {
        return PortEvent::TaskFileError;
    }
    PortEvent::NoEvent
}

/// Reads and clears a port's interrupts, and looks at its link: whether its device went or came, and whether something
/// failed (AHCI 1.3.1, 5.5.3 and 6.2).
pub fn take_event<A: Adapter>(adapter: &mut A, port: Port) -> PortEvent
    requires adapter_is_on { IsOn (A.device adapter.old) }
    requires has_port { HasPort (A.device adapter.old) port.0 }
    ensures adapter_is_on { IsOn (A.device adapter.new) }
    ensures looks { TakesEvent port result (A.device adapter.old) (A.device adapter.new) }
    ensures followed { IsSimulated (IsPxisSstsOrOwnIsAccess port) AnySlotStates (A.device adapter.old)
        (A.device adapter.new) }
    ensures cost { MakesAtMost TAKE_EVENT_ACCESSES (A.access_count adapter.old) (A.access_count adapter.new) }
{
    law_prerequisites();
    let interrupts = PortInterrupts(adapter.read(Reg::Px(port, PortReg::Is)));
    adapter.write(Reg::Px(port, PortReg::Is), interrupts.0);
    adapter.write(Reg::Is, with_bit(0, u32::from(port.0)));
    let status = SataStatus(adapter.read(Reg::Px(port, PortReg::Ssts)));
    told(interrupts, status)
}

/// Looks at a port for a device, where there was none: whether one with a link shows (DET of PxSSTS is 3; AHCI 1.3.1,
/// 3.3.10). PxSSTS is read, and that is all.
pub fn has_device<A: Adapter>(adapter: &mut A, port: Port) -> bool
    requires adapter_is_on { IsOn (A.device adapter.old) }
    requires has_port { HasPort (A.device adapter.old) port.0 }
    ensures adapter_is_on { IsOn (A.device adapter.new) }
    ensures finds { ChecksForDevice port result (A.device adapter.old) (A.device adapter.new) }
    ensures followed { IsSimulated (IsPxisSstsOrOwnIsAccess port) AnySlotStates (A.device adapter.old)
        (A.device adapter.new) }
    ensures cost { MakesAtMost 1 (A.access_count adapter.old) (A.access_count adapter.new) }
{
    law_prerequisites();
    let status = SataStatus(adapter.read(Reg::Px(port, PortReg::Ssts)));
    shows_linked_device(status)
}

/// Looks at a port for a change of its device: whether it went, or its link came up, since PxSERR was last cleared
/// (PRCS and PCS of PxIS show N and X of PxSERR), or isn't there (DET of PxSSTS isn't 3; AHCI 1.3.1, 3.3.5, 3.3.10 and
/// 3.3.12). PxIS is read, and then PxSSTS; neither is written, so that a change is told until the port is booted.
pub fn has_device_changed_or_missing<A: Adapter>(adapter: &mut A, port: Port) -> bool
    requires adapter_is_on { IsOn (A.device adapter.old) }
    requires has_port { HasPort (A.device adapter.old) port.0 }
    ensures adapter_is_on { IsOn (A.device adapter.new) }
    ensures finds { ChecksForChangeOrNoDevice port result (A.device adapter.old) (A.device adapter.new) }
    ensures followed { IsSimulated (IsPxisSstsOrOwnIsAccess port) AnySlotStates (A.device adapter.old)
        (A.device adapter.new) }
    ensures cost { MakesAtMost CHANGE_CHECK_ACCESSES (A.access_count adapter.old) (A.access_count adapter.new) }
{
    law_prerequisites();
    let interrupts = PortInterrupts(adapter.read(Reg::Px(port, PortReg::Is)));
    let status = SataStatus(adapter.read(Reg::Px(port, PortReg::Ssts)));
    tells_change(interrupts, status)
}
