//! Finds out which command of a port failed, and has the port run again, or stops it.
//!
//! (AHCI 1.3.1, 6.2.2; ACS-3, 7.24 and A.14.) `recover` is for a port of which TFES, PxSSTS, PxCI
//! and PxSACT were read, in this order. `stop_for_reset` stops one for any other trouble, by its PxCMD
//! alone. Both give up all slots of the port, and park the requests that were there: the caller
//! decides on these. Where `recover` says `Restart`, the port is stopped, and has to be booted.
//! `parse_log` reads the page by which a disk names a queued command that failed. The crate knows
//! no client and no book.
#![tactic(auto)]

ghost use Rattle.std.specs.Prelude.{ℕ, Bool, true, false, None, Some, ◌≡◌, ◌<◌, ◌≤◌, ◌%◌, ◌/◌, IfSome, IfNone};
ghost use Rattle.hba_regs.specs.Bits.{bit};
ghost use Rattle.adapter.specs.{Device.{Device}, Rules.{IsOn, HasPort}, AccessBounds.{MakesAtMost}};
ghost use Rattle.refinement.specs.{Fragments.{SomeMachineAgreesWith, AnySlotStates}, Driver.{AllFree}};
ghost use Rattle.disk_page.specs.{PageRequests.{PortMayAskForPage}, Costs.{PAGE_ACCESSES}};
ghost use Rattle.error_recovery.specs.{RecoveryParts.{AsksForLog, StopGetsStuck, StartsAgain, IsOnWithPortAndDriverMemory, MayStartAgain, StopsAndClears, MayFinishRecovery, FinishesRecovery}, Recovery.{StopsOrSticksForReset, IsNamedSlot, MayHandleError, PortMayRecover, SplitsOutstanding, Recovers}, Costs.{FINISH_QUEUED_ACCESSES, STOP_AND_CLEAR_ACCESSES, RECOVER_ACCESSES}};
ghost use Rattle.port_control.specs.Costs.{START_ACCESSES, STOP_ACCESSES};

mod error_log;
pub mod laws;
mod prerequisites;

use adapter::Adapter;
use ata_types::{Port, Slot};
use disk_page::{Page, read_page};
pub use error_log::parse_log;
use hba_regs::{PortReg, Reg, TaskFile, is_set, without_bit};
use port_control::{
    Running, Stopped, clear_error_state, is_bsy_or_drq, keep_receiving, start, stop,
};
use prerequisites::law_prerequisites;

/// What a port is after recovery.
#[derive(Debug, Drop)]
pub enum Next {
    /// It runs, with no command in a slot.
    Running(Running),
    /// It is stopped, and has to be booted.
    Restart(Stopped),
    /// Its engine is stuck.
    Dead,
}

/// What came of recovery.
#[derive(Debug, Drop)]
pub struct Recovered {
    /// The command that failed, if it is known: its slot, with the status and the error that it ended with.
    pub failed: Option<(Slot, u8, u8)>,
    /// The other slots whose commands were outstanding, by bit: they failed by no fault of their own.
    pub again: u32,
    /// What the port is.
    pub next: Next,
}

/// A port that was stopped, and told to forget its errors.
#[derive(Debug, Drop)]
struct StoppedAndCleared {
    /// What PxTFD showed before: status and error of the fault.
    fault: TaskFile,
    /// What it shows now.
    shown: TaskFile,
    stopped: Stopped,
}

/// Reads PxTFD, stops the port, has it forget its errors, and reads PxTFD again. `None` where the engine is stuck.
fn stop_and_clear<A: Adapter>(adapter: &mut A, port: Port) -> Option<StoppedAndCleared>
    requires room { IsOnWithPortAndDriverMemory port.0 (A.device adapter.old) }
    requires may { PortMayRecover port.0 (A.device adapter.old) }
    requires some_machine_agrees { SomeMachineAgreesWith AnySlotStates (A.device adapter.old) }
    ensures adapter_is_on { IsOn (A.device adapter.new) }
    ensures quiets { IfSome result (λ q. (q.stopped.port ≡ port)
        × StopsAndClears port q.fault.0 q.shown.0 (A.device adapter.old) (A.device adapter.new)) }
    ensures sticks { IfNone result (StopGetsStuck port (A.device adapter.old) (A.device adapter.new)) }
    ensures cost { MakesAtMost STOP_AND_CLEAR_ACCESSES (A.access_count adapter.old) (A.access_count adapter.new) }
{
    law_prerequisites();
    let fault = TaskFile(adapter.read(Reg::Px(port, PortReg::Tfd)));
    let Ok(stopped) = stop(adapter, port) else {
        return None;
    };
    let shown = clear_error_state(adapter, port);
    Some(StoppedAndCleared {
        fault,
        shown,
        stopped,
    })
}

/// Has a port that was quieted, and is idle, work on its command list again.
fn start_again<A: Adapter>(adapter: &mut A, stopped: Stopped) -> Running
    requires may { MayStartAgain stopped.port.0 (A.device adapter.old) }
    ensures names { result.port ≡ stopped.port }
    ensures goes { StartsAgain stopped.port (A.device adapter.old) (A.device adapter.new) }
    ensures cost { MakesAtMost START_ACCESSES (A.access_count adapter.old) (A.access_count adapter.new) }
{
    law_prerequisites();
    let receiving = keep_receiving(adapter, stopped);
    let Ok(running) = start(adapter, receiving) else {
        unreachable!()
    };
    running
}

/// Which of the outstanding queued commands failed, as the disk's log tells.
fn read_log<A: Adapter>(adapter: &mut A, port: Port, outstanding: u32) -> Option<(Slot, u8, u8)>
    requires room { IsOnWithPortAndDriverMemory port.0 (A.device adapter.old) }
    requires may { PortMayAskForPage port.0 (A.device adapter.old) }
    requires some_machine_agrees { SomeMachineAgreesWith (λ uses. AllFree uses port.0) (A.device adapter.old) }
    ensures adapter_is_on { IsOn (A.device adapter.new) }
    ensures some_machine_agrees { SomeMachineAgreesWith AnySlotStates (A.device adapter.new) }
    ensures asks { AsksForLog port outstanding result (A.device adapter.old) (A.device adapter.new) }
    ensures cost { MakesAtMost PAGE_ACCESSES (A.access_count adapter.old) (A.access_count adapter.new) }
{
    let Some(page) = read_page(adapter, port, Page::ErrorLog) else {
        return None;
    };
    let Some((tag, status, error)) = parse_log(&page) else {
        return None;
    };
    if is_set(outstanding, u32::from(tag)) {
        Some((Slot(tag), status, error))
    } else {
        None
    }
}

/// Which plain command failed: the one that is outstanding, with status and error as the task file showed them.
fn fault_of(outstanding: u32, fault: TaskFile) -> Option<(Slot, u8, u8)>
    ensures named { IfSome result (λ failed. (failed.0.0 ≡ 0) × (bit outstanding 0 ≡ true)
        × (failed.1 ≡ fault.0 % 256) × (failed.2 ≡ fault.0 / 256 % 256)) }
    ensures none { IfNone result (bit outstanding 0 ≡ false) }
{
    if !is_set(outstanding, 0) {
        return None;
    }
    Some((Slot(0), fault.status(), fault.error()))
}

/// The outstanding slots without the one that is named.
fn others(outstanding: u32, failed: &Option<(Slot, u8, u8)>) -> u32
    requires small { (slot : ℕ) → IsNamedSlot failed.now slot → slot < 32 }
    requires named { (slot : ℕ) → IsNamedSlot failed.now slot → bit outstanding slot ≡ true }
    ensures { SplitsOutstanding outstanding failed.now result }
{
    match failed {
        Some(named) => without_bit(outstanding, u32::from(named.0.0)),
        None => outstanding,
    }
}

impl StoppedAndCleared {
    /// Goes on with the port: names the plain command that failed, if one is outstanding, and has the port
    /// run again, unless its disk is busy or asks for a transfer.
    fn finish_plain<A: Adapter>(self, adapter: &mut A, outstanding: u32) -> Recovered
        requires resumes { MayFinishRecovery self outstanding false (A.device adapter.old) }
        ensures finishes { FinishesRecovery self outstanding false result (A.device adapter.old)
            (A.device adapter.new) }
        ensures cost { MakesAtMost START_ACCESSES (A.access_count adapter.old) (A.access_count adapter.new) }
    {
        law_prerequisites();
        let failed = fault_of(outstanding, self.fault);
        let again = others(outstanding, &failed);
        if is_bsy_or_drq(self.shown) {
            let next = Next::Restart(self.stopped);
            return Recovered {
                failed,
                again,
                next,
            };
        }
        let next = Next::Running(start_again(adapter, self.stopped));
        Recovered {
            failed,
            again,
            next,
        }
    }

    /// Goes on with the port: has it run again, unless its disk is busy or asks for a transfer, and asks the
    /// log which of the outstanding queued commands failed. Where it names none of them, the port is stopped again.
    fn finish_queued<A: Adapter>(self, adapter: &mut A, outstanding: u32) -> Recovered
        requires resumes { MayFinishRecovery self outstanding true (A.device adapter.old) }
        ensures finishes { FinishesRecovery self outstanding true result (A.device adapter.old) (A.device adapter.new) }
        ensures cost { MakesAtMost FINISH_QUEUED_ACCESSES (A.access_count adapter.old) (A.access_count adapter.new) }
    {
        law_prerequisites();
        if is_bsy_or_drq(self.shown) {
            return unnamed(outstanding, Next::Restart(self.stopped));
        }
        let running = start_again(adapter, self.stopped);
        let port = running.port();
        if let Some(failed) = read_log(adapter, port, outstanding) {
            let failed = Some(failed);
            let again = others(outstanding, &failed);
            let next = Next::Running(running);
            return Recovered {
                failed,
                again,
                next,
            };
        }
        match stop(adapter, port) {
            Ok(stopped) => unnamed(outstanding, Next::Restart(stopped)),
            Err(_) => unnamed(outstanding, Next::Dead),
        }
    }
}

/// Nobody is named: all that is outstanding goes again.
fn unnamed(outstanding: u32, next: Next) -> Recovered
    ensures { result ≡ record { failed = None; again = outstanding; next = next } }
{
    Recovered {
        failed: None,
        again: outstanding,
        next,
    }
}

/// Finds out which command of a port has failed, and has the port run again without COMRESET, where that can be (AHCI
/// 1.3.1, 6.2.2). It is called once PxIS was read with TFES, and then PxSSTS with DET 3, PxCI and PxSACT. `outstanding`
/// are the slots whose commands aren't done, bit k for slot k; `queued` says whether these are queued commands: a plain
/// one is alone, in slot 0.
///
/// PxTFD is read, the port is stopped, PxSERR and PxIS are cleared, and PxTFD is read again. A plain command failed
/// with the status and error that the first reading showed. Where the second shows BSY or DRQ, the port is left
/// stopped, and has to be booted; else ST is set. Of queued commands the disk's log of errors (READ LOG EXT, log 10h)
/// names the one that failed. Where its page doesn't come in 64 readings of PxCI, is refused, or names a slot that
/// isn't outstanding, the port is stopped again, nobody is named, and it has to be booted. Where an engine is stuck for
/// 64 readings of PxCMD, the port is dead, and nobody is named.
pub fn recover<A: Adapter>(adapter: &mut A, port: Port, outstanding: u32, queued: bool) -> Recovered
    requires may_handle_error { MayHandleError port outstanding queued (A.device adapter.old) }
    requires may { PortMayRecover port.0 (A.device adapter.old) }
    ensures adapter_is_on { IsOn (A.device adapter.new) }
    ensures recovers { Recovers port outstanding queued result (A.device adapter.old) (A.device adapter.new) }
    ensures cost { MakesAtMost RECOVER_ACCESSES (A.access_count adapter.old) (A.access_count adapter.new) }
{
    law_prerequisites();
    let Some(quieted) = stop_and_clear(adapter, port) else {
        return unnamed(outstanding, Next::Dead);
    };
    if queued {
        quieted.finish_queued(adapter, outstanding)
    } else {
        quieted.finish_plain(adapter, outstanding)
    }
}

/// Stops a port that an error of its link or of the host's bus has broken, so that it can be booted with COMRESET (AHCI
/// 1.3.1, 6.2.2 and 10.4.2); it may also be one whose device has gone. Of the port's registers PxCMD alone is accessed.
/// `outstanding` are the slots whose commands aren't done, bit k for slot k. Nobody is named. Where its engine is stuck
/// for 64 readings of PxCMD, the port is dead.
pub fn stop_for_reset<A: Adapter>(adapter: &mut A, port: Port, outstanding: u32) -> Recovered
    requires adapter_is_on { IsOn (A.device adapter.old) }
    requires has_port { HasPort (A.device adapter.old) port.0 }
    requires machine_is_related { SomeMachineAgreesWith AnySlotStates (A.device adapter.old) }
    ensures adapter_is_on { IsOn (A.device adapter.new) }
    ensures stops_for_reset { (queued : Bool)
        → StopsOrSticksForReset port outstanding queued result (A.device adapter.old)
        (A.device adapter.new) }
    ensures cost { MakesAtMost STOP_ACCESSES (A.access_count adapter.old) (A.access_count adapter.new) }
{
    law_prerequisites();
    match stop(adapter, port) {
        Ok(halted) => unnamed(outstanding, Next::Restart(halted)),
        Err(_) => unnamed(outstanding, Next::Dead),
    }
}
