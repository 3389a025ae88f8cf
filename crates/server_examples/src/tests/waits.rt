// Each wait of a boot gives up after 64 readings: the device is held, so that it does nothing by itself. What it does
// before the last of them is seen.
ghost use Rattle.std.specs.Prelude.{◌≤◌};
ghost use Rattle.adapter.specs.Idle.{IsIdle};

use super::boots::ONLY_IMAGE_DISK_WANTED;
use super::watched::{RegisterReadings, Watched, model};
use adapter::{Adapter, DeviceStep, DiskNumber};
use ata_types::{DRIVER_BYTES, PORTS, Port, PortState};
use device_model::ALL_PORTS;
use hba_regs::{PortReg, Reg};
use host_boot::laws::law_ready_ports_run_and_unusable_disks_show;
use host_boot::{ProbeResult, take_over};
use port_control::{PortFault, receive, stop};
use refinement::access_kinds::law_simulated_fragments_keep_agreement;
use refinement::fragments::law_other_ports_are_untouched;
use std::alloc::Global;
use std::marker::Brand;
use std::process::Abort;
use std::test::Fail;

/// The number of an access that doesn't come.
const NEVER: u64 = u64::MAX;

/// What is done with an adapter that has a disk in port 0.
#[derive(Clone, Copy)]
enum Driven {
    /// It is taken over.
    Boot,
    /// Then its port 0 is stopped, and receives FISes anew.
    BootAndReceive,
}

/// Before which accesses the device does something: it is held, its disk is taken out and put in again, and it is
/// released.
#[derive(Clone, Copy)]
struct Times {
    held: u64,
    exchanged: u64,
    released: u64,
}

const UNDISTURBED: Times = Times {
    held: NEVER,
    exchanged: NEVER,
    released: NEVER,
};

/// Takes an adapter over, stops port 0 if it is ready, and has it receive FISes anew. A port whose engine doesn't stop
/// is dead.
fn received_anew<A: Adapter>(adapter: &mut A) -> PortState
    requires idle { IsIdle (A.device adapter.old) }
    requires room { DRIVER_BYTES ≤ (A.device adapter.old).memory_size }
{
    law_simulated_fragments_keep_agreement::<Brand>();
    law_other_ports_are_untouched();
    law_ready_ports_run_and_unusable_disks_show();
    let host = take_over(adapter, &ONLY_IMAGE_DISK_WANTED);
    let ProbeResult::Ready(_) = host.ports[0] else {
        return PortState::Absent;
    };
    let Ok(stopped) = stop(adapter, Port(0)) else {
        return PortState::Absent;
    };
    match receive(adapter, stopped) {
        Ok(_receiving) => PortState::Ready,
        Err((PortFault::EngineStuck, _stopped)) => PortState::Dead,
        Err(_) => PortState::Absent,
    }
}

/// What a port that is served was found to be.
fn state(found: ProbeResult) -> PortState {
    match found {
        ProbeResult::Ready(_) => PortState::Ready,
        ProbeResult::Unready(state) => state,
        ProbeResult::Unserved => PortState::Absent,
    }
}

/// What port 0 is then, the readings of one of its registers, and how many accesses were made.
type Seen = (PortState, RegisterReadings, usize);

/// Drives an adapter with a disk in port 0.
fn drive(alloc: Global, driven: Driven, times: Times, register: PortReg) -> Result<Seen, Fail> {
    let mut watched = Watched::new(alloc, model(alloc, ALL_PORTS, 8)?)?;
    let unplug = DeviceStep::Unplug(Port(0));
    let plug = DeviceStep::Plug(Port(0), DiskNumber(0));
    let device = &mut watched.adapter;
    device.queue_step(times.held, DeviceStep::Hold(Port(0)))?;
    device.queue_step(times.exchanged, unplug)?;
    device.queue_step(times.exchanged, plug)?;
    device.queue_step(times.released, DeviceStep::Release(Port(0)))?;
    let shown = match driven {
        Driven::Boot => state(take_over(&mut watched, &ONLY_IMAGE_DISK_WANTED).ports[0]),
        Driven::BootAndReceive => received_anew(&mut watched),
    };
    let readings = watched.readings(Reg::Px(Port(0), register));
    Ok((shown, readings, watched.accesses.len()))
}

/// A wait: what is driven, from which access on the device is held, before which its disk is exchanged, which register
/// is read, what is shown where the device goes on after the last reading, also where it never does, and what where it
/// goes on before it.
#[derive(Clone, Copy)]
struct Wait<'a> {
    what: &'a str,
    driven: Driven,
    held: u64,
    exchanged: u64,
    register: PortReg,
    never: PortState,
    late: PortState,
    in_time: PortState,
}

impl Wait<'_> {
    /// The device is released before this access.
    const fn until(&self, released: u64) -> Times {
        Times {
            held: self.held,
            exchanged: self.exchanged,
            released,
        }
    }
}

const A_LINK: Wait<'static> = Wait {
    what: "for a link",
    driven: Driven::Boot,
    held: 1,
    exchanged: NEVER,
    register: PortReg::Ssts,
    never: PortState::Absent,
    late: PortState::Absent,
    in_time: PortState::Ready,
};

/// Compares what comes of a wait.
fn check(rt: &(impl Abort + AllocGlobal), wait: &Wait) -> Result<(), Fail> {
    let stuck = wait.until(NEVER);
    let (never, readings, _) = drive(rt.alloc(), wait.driven, stuck, wait.register)?;
    let after = wait.until(readings.last.saturating_add(1));
    let (late, later, _) = drive(rt.alloc(), wait.driven, after, wait.register)?;
    let before = wait.until(readings.last);
    let (in_time, _, _) = drive(rt.alloc(), wait.driven, before, wait.register)?;
    assert_eq!(rt;
        (never, late, in_time),
        (wait.never, wait.late, wait.in_time),
        "{}",
        wait.what
    );
    let counts = (readings.since_write, later.since_write);
    assert_eq!(rt; counts, (64, 64), "{}", wait.what);
    Ok(())
}

/// The accesses by which a port receives FISes anew, where FR falls at once: PxCMD is read and written, and read until
/// FR is 0; the four addresses are written; and PxCMD is read and written again.
const RECEIVING: u64 = 9;

/// The waits of a boot, where `link` is the access that first reads the link. The engine stops after the wait for the
/// page. Where the disk is exchanged after COMRESET was sent, DET is 3, and no first FIS has come yet, so BSY stays
/// (AHCI 1.3.1, 3.3.8 and 10.4.2).
fn waits_of_a_boot(link: u64) -> [Wait<'static>; 4] {
    [
        Wait {
            what: "for a page",
            held: link.saturating_add(1),
            register: PortReg::Ci,
            never: PortState::Dead,
            late: PortState::Unfit(9),
            in_time: PortState::Ready,
            ..A_LINK
        },
        Wait {
            what: "for an engine",
            held: link.saturating_add(1),
            register: PortReg::Cmd,
            never: PortState::Dead,
            late: PortState::Dead,
            in_time: PortState::Unfit(9),
            ..A_LINK
        },
        A_LINK,
        Wait {
            what: "for an idle device",
            exchanged: link,
            register: PortReg::Tfd,
            never: PortState::Unfit(7),
            late: PortState::Unfit(7),
            ..A_LINK
        },
    ]
}

/// The wait for the received FISes, of a port that was stopped before this access.
fn wait_for_received_fises(stopped: u64) -> Wait<'static> {
    Wait {
        what: "for the received FISes",
        driven: Driven::BootAndReceive,
        held: stopped,
        register: PortReg::Cmd,
        never: PortState::Dead,
        late: PortState::Dead,
        in_time: PortState::Ready,
        ..A_LINK
    }
}

#[test]
fn each_wait_is_64_readings(rt: HostRuntime) -> Result<(), Fail> {
    let (shown, readings, _) = drive(rt.alloc(), Driven::Boot, UNDISTURBED, PortReg::Ssts)?;
    assert_eq!(rt; shown, PortState::Ready);
    for wait in waits_of_a_boot(readings.first) {
        check(&rt, &wait)?;
    }
    let driven = Driven::BootAndReceive;
    let (shown, _, accesses) = drive(rt.alloc(), driven, UNDISTURBED, PortReg::Cmd)?;
    assert_eq!(rt; shown, PortState::Ready);
    let stopped = (accesses as u64).saturating_sub(RECEIVING - 1);
    check(&rt, &wait_for_received_fises(stopped))
}
