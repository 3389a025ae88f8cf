//! Has a disk send a page to the driver: IDENTIFY DEVICE, or the log of errors.
//!
//! The command goes in slot 0, and its page to the port's scratch frame, whatever the other ports
//! do. After `None` the command may be there still, and move its page later: a caller stops the
//! port before it uses the slot again.
#![tactic(auto)]

ghost use Rattle.std.specs.Prelude.{◌≡◌, ◌<◌, ◌+◌, ◌*◌, true, false, None, ℕ};
ghost use Rattle.adapter.specs.{Commands.{command_of}, Device.{Device}, Rules.{IsOn, HasPort}, declared.command.Operation.{Operation}, AccessBounds.{MakesAtMost}};
ghost use Rattle.refinement.specs.{Fragments.{AnySlotStates, IsSimulated, IsSimulatedAlong}, PortFacts.{IsSlotClear}, Slots.{SlotStates}};
ghost use Rattle.disk_page.specs.{PageRequests.{AreSlot0IssuedReadings, GetsPageOrWaitsInVain, IsPxciOrSlot0PageMemoryAccess, MayAwaitPage, MayGetPageInUnusedSlot0, page_operation}, PageWaits.{AsksForPage, IsPageAwaitedOrReceived}, Costs.{ASK_FOR_PAGE_ACCESSES, PAGE_ACCESSES}};

pub mod laws;
mod prerequisites;

use adapter::{Adapter, Command};
use ata_types::{DRIVER_BYTES, IDENTIFY_DEVICE, MOST_READINGS, Port, READ_LOG_EXT, Slot};
use command_table::{scratch_prd, write_table};
use hba_regs::{PortReg, Reg, is_set};
use prerequisites::law_prerequisites;

/// The log of errors of queued commands (ACS-3, 9.14; Serial ATA).
const QUEUED_ERROR_LOG: u64 = 0x10;

/// A page that a disk can be asked for.
#[derive(Clone, Copy, Debug, PartialEq, Eq)]
pub enum Page {
    /// What the disk is: IDENTIFY DEVICE.
    Identity,
    /// Which queued command failed: READ LOG EXT of log 10h, page 0.
    ErrorLog,
}

/// The command that brings the page (ACS-3).
fn command(page: Page) -> Command
    ensures { result ≡ command_of (page_operation page) 0 0 0 }
{
    let (code, count, lba) = match page {
        Page::Identity => (IDENTIFY_DEVICE, 0, 0),
        Page::ErrorLog => (READ_LOG_EXT, 1, QUEUED_ERROR_LOG),
    };
    Command {
        code,
        features: 0,
        count,
        lba,
        device: 0,
    }
}

/// Issues the command that brings the page to the scratch frame, in slot 0.
fn ask<A: Adapter>(adapter: &mut A, port: Port, page: Page)
    requires may { MayGetPageInUnusedSlot0 port (A.device adapter.old) }
    ensures adapter_is_on { IsOn (A.device adapter.new) }
    ensures asks { AsksForPage port page (A.device adapter.old) (A.device adapter.new) }
    ensures cost { MakesAtMost ASK_FOR_PAGE_ACCESSES (A.access_count adapter.old) (A.access_count adapter.new) }
{
    law_prerequisites();
    write_table(adapter, port, Slot(0), &command(page), &[scratch_prd(port)]);
    adapter.write(Reg::Px(port, PortReg::Ci), 1);
}

/// Waits until the command in slot 0 isn't issued any more, for 64 readings of PxCI at most.
fn wait<A: Adapter>(adapter: &mut A, port: Port) -> bool
    requires may { MayAwaitPage port (A.device adapter.old) }
    ensures followed { IsSimulated (IsPxciOrSlot0PageMemoryAccess port) AnySlotStates (A.device adapter.old)
        (A.device adapter.new) }
    ensures adapter_is_on { IsOn (A.device adapter.new) }
    ensures waiting { (o : Operation) (since : ℕ) (uses : SlotStates) (start : Device)
        → IsPageAwaitedOrReceived port o since uses start (A.device adapter.old)
        → IsPageAwaitedOrReceived port o since uses start (A.device adapter.new) }
    ensures over { result ≡ true → (o : Operation) (since : ℕ) (uses : SlotStates) (start : Device)
        → IsPageAwaitedOrReceived port o since uses start (A.device adapter.old)
        → IsSlotClear ((A.device adapter.new).port port.0) 0 }
    ensures vain { result ≡ false
        → (((A.device adapter.new).port port.0).notes.slot0_issued_count ≡ MOST_READINGS)
        × IsSimulatedAlong (AreSlot0IssuedReadings port MOST_READINGS) (IsPxciOrSlot0PageMemoryAccess port)
        AnySlotStates
        (A.device adapter.old)
        (A.device adapter.new) }
    ensures cost { MakesAtMost MOST_READINGS (A.access_count adapter.old) (A.access_count adapter.new) }
{
    law_prerequisites();
    for _reading in 0..MOST_READINGS {
        let issued = adapter.read(Reg::Px(port, PortReg::Ci));
        if !is_set(issued, 0) {
            return true;
        }
    }
    false
}

/// Has the disk send a page, and waits for it: `None` where 64 readings of PxCI showed the command issued still, which
/// may then be taken, and may move its page later. The port runs with slot 0 unused; its other slots aren't touched.
/// Where none of them is used, no fault halts the port once a page has come: the end of READ LOG EXT ends the halt of a
/// queued fault. No page of another command comes.
pub fn read_page<A: Adapter>(adapter: &mut A, port: Port, page: Page) -> Option<[u8; 512]>
    requires may { MayGetPageInUnusedSlot0 port (A.device adapter.old) }
    ensures on { IsOn (A.device adapter.new) }
    ensures gets { GetsPageOrWaitsInVain port page result (A.device adapter.old) (A.device adapter.new) }
    ensures cost { MakesAtMost PAGE_ACCESSES (A.access_count adapter.old) (A.access_count adapter.new) }
{
    law_prerequisites();
    ask(adapter, port, page);
    if !wait(adapter, port) {
        return None;
    }
    let mut bytes = [0; 512];
    adapter.load(scratch_prd(port).address, &mut bytes);
    Some(bytes)
}
