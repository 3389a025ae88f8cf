//! Issues reads and writes in any slot of a port, and finds out which commands are done.
//!
//! (Native command queuing, or plain commands; AHCI 1.3.1, 5.5; ACS-3.) Each call is of one port,
//! whatever the others do. Queued transfers may be prepared one after another (`store_transfer`) and
//! issued together (`issue_all`). The contract on issuing is of a `Task` (`IsIssued`), which may be a
//! trim or a flush as well: `flush_trim` issues those. Clear bits tell that a request has ended only
//! while ST is one, since clearing ST clears them, too. What issuing leaves of the port beside its
//! slot follows from the kinds of its accesses, by laws of `refinement`. It knows no client and no
//! book.
#![tactic(auto)]

ghost use Rattle.std.specs.Prelude.{◌≡◌, ◌≤◌, ◌<◌, ◌*◌, ◌/◌, ◌%◌, List, length, true, false};
ghost use Rattle.adapter.specs.{Commands.{command_of}, Device.{Device}, Rules.{IsOn, HasPort}, AccessBounds.{MakesAtMost}};
ghost use Rattle.refinement.specs.Fragments.{IsSoleBit};
ghost use Rattle.hba_regs.specs.{declared.reg.PortReg.TheVariants.{Ci, Sact}, declared.reg.Reg.TheVariants.{Px}};
ghost use Rattle.ncq.specs.{Batches.{HasExactlySlotBitsOf, IsBatchIssued, IsBatchStored, PlacedTask, StoresTransfer}, Issuing.{IsIssued, MayIssueTransfer, placed_task_of}, Masks.{IsDoneMask, ReadsDone, FindsEachClearSlot}, Tasks.{WritesSactIfQueued, IsReadOrWrite, task_operation}, Costs.{BATCH_WRITE_ACCESSES, DONE_ACCESSES, ISSUE_ACCESSES}};
ghost use Rattle.command_table.specs.Costs.{TABLE_ACCESSES};

pub mod laws;
mod laws_of_done;
mod tasks;

use adapter::{Adapter, Command};
use ata_types::{
    DRIVER_BYTES, MOST_READ_OR_WRITE_SECTORS, MOST_REQUEST_FRAMES, Op, Port, READ_DMA_EXT,
    READ_FPDMA_QUEUED, Slot, WRITE_DMA_EXT, WRITE_FPDMA_QUEUED,
};
use command_table::{prds_in, write_table};
use dma_frames::Loan;
use hba_regs::{PortReg, Reg, with_bit};
use laws::law_ci_write_issues_armed_batch;
use laws_of_done::law_ci_then_sact_reads_find_done_slots;
use refinement::fragments::law_other_ports_are_untouched;
use refinement::laws::law_writes_but_ci_stay_permitted;
use refinement::port_facts::law_adapter_stays_same_and_on_until_ghc_write;
pub use tasks::{Issue, Task};

/// Where a queued command has its tag, which is its slot: bits 7:3 of the count field (ACS-3).
const TAG_FACTOR: u16 = 8;

/// The device field of a command with a 48-bit address (ACS-3).
const LBA: u8 = 0x40;

const SECTOR_BYTES: u32 = 512;

/// Most requests have no more frames. A list of PRDs is cleared whole when it is made, so theirs has room for no more.
const FEW_FRAMES: usize = 8;

/// The command of a transfer in a slot (ACS-3): of a queued one, the features field has the sectors, and the count
/// field the tag.
fn command(transfer: &Task, slot: Slot) -> Command
    requires transfers { IsReadOrWrite transfer.now.op }
    requires few { transfer.now.range.count ≤ MOST_READ_OR_WRITE_SECTORS }
    requires slot { slot.0 < 32 }
    ensures { result ≡ command_of (task_operation transfer.now.queued transfer.now.op) slot.0 transfer.now.range.first.0
        transfer.now.range.count }
{
    let sectors = transfer.range.count as u16;
    let reads = transfer.op == Op::Read;
    let code = match (reads, transfer.queued) {
        (true, true) => READ_FPDMA_QUEUED,
        (true, false) => READ_DMA_EXT,
        (false, true) => WRITE_FPDMA_QUEUED,
        (false, false) => WRITE_DMA_EXT,
    };
    let (features, count) = if transfer.queued {
        (sectors, TAG_FACTOR * u16::from(slot.0))
    } else {
        (0, sectors)
    };
    Command {
        code,
        features,
        count,
        lba: transfer.range.first.0,
        device: LBA,
    }
}

/// The slot's bit of PxCI and PxSACT, alone.
pub fn bit_of(slot: Slot) -> u32
    requires { slot.0 < 32 }
    ensures { IsSoleBit slot.0 result }
{
    with_bit(0, u32::from(slot.0))
}

/// Sets the slot's bit of PxSACT for a queued command; nothing is done for a plain one.
fn arm<A: Adapter>(adapter: &mut A, port: Port, own: u32, queued: bool)
    requires adapter_is_on { IsOn (A.device adapter.old) }
    requires has_port { HasPort (A.device adapter.old) port.0 }
    requires started { ((A.device adapter.old).port port.0).st ≡ true }
    ensures arms { WritesSactIfQueued queued port own (A.device adapter.old) (A.device adapter.new) }
    ensures cost { MakesAtMost 1 (A.access_count adapter.old) (A.access_count adapter.new) }
{
    law_writes_but_ci_stay_permitted();
    if queued {
        adapter.write(Reg::Px(port, PortReg::Sact), own);
    }
}

/// Stores header and table of an unused slot, so that they say the transfer. No register is written: so the device
/// knows nothing of it yet.
pub fn store_transfer<A: Adapter>(adapter: &mut A, port: Port, what: &Issue)
    requires may { MayIssueTransfer port what.now.slot.0 what.now.task what.now.loan.now.frames (A.device adapter.old) }
    ensures stores { StoresTransfer port (placed_task_of what.now) (A.device adapter.old) (A.device adapter.new) }
    ensures cost { MakesAtMost TABLE_ACCESSES (A.access_count adapter.old) (A.access_count adapter.new) }
{
    let meant = command(&what.task, what.slot);
    if what.loan.frames().len() <= FEW_FRAMES {
        store_command::<A, FEW_FRAMES>(adapter, port, what, &meant);
    } else {
        store_command::<A, MOST_REQUEST_FRAMES>(adapter, port, what, &meant);
    }
}

/// Stores header and table of a transfer whose command is `meant`, with a list of PRDs that has room for `ROOM`.
fn store_command<A: Adapter, const ROOM: usize>(
    adapter: &mut A,
    port: Port,
    what: &Issue,
    meant: &Command,
)
    requires is_command { meant.now ≡ command_of (task_operation what.now.task.queued what.now.task.op) what.now.slot.0
        what.now.task.range.first.0 what.now.task.range.count }
    requires may { MayIssueTransfer port what.now.slot.0 what.now.task what.now.loan.now.frames (A.device adapter.old) }
    requires room { length what.now.loan.now.frames ≤ ROOM }
    requires small { ROOM ≤ MOST_REQUEST_FRAMES }
    ensures stores { StoresTransfer port (placed_task_of what.now) (A.device adapter.old) (A.device adapter.new) }
    ensures cost { MakesAtMost TABLE_ACCESSES (A.access_count adapter.old) (A.access_count adapter.new) }
{
    let prds = prds_in::<ROOM>(what.loan, SECTOR_BYTES * what.task.range.count);
    write_table(adapter, port, what.slot, meant, prds.as_slice());
}

/// Issues a transfer in an unused slot of a port that runs: a queued one as READ or WRITE FPDMA QUEUED, for which the
/// slot's bit of PxSACT is set first, and a plain one as READ or WRITE DMA EXT.
pub fn issue<A: Adapter>(adapter: &mut A, port: Port, what: &Issue)
    requires may { MayIssueTransfer port what.now.slot.0 what.now.task what.now.loan.now.frames (A.device adapter.old) }
    ensures issued { IsIssued port what.now.slot.0 what.now.task what.now.loan.now.frames (A.device adapter.old)
        (A.device adapter.new) }
    ensures cost { MakesAtMost ISSUE_ACCESSES (A.access_count adapter.old) (A.access_count adapter.new) }
{
    law_other_ports_are_untouched();
    store_transfer(adapter, port, what);
    let own = bit_of(what.slot);
    arm(adapter, port, own, what.task.queued);
    law_ci_write_issues_armed_batch();
    adapter.write(Reg::Px(port, PortReg::Ci), own);
}

/// Issues the queued transfers whose headers and tables were stored: all bits of PxSACT are written at once, and then
/// all of PxCI.
pub fn issue_all<A: Adapter>(adapter: &mut A, port: Port, mask: u32)
    requires stored { (start : Device) × (tasks : List PlacedTask)
        × IsBatchStored port tasks start (A.device adapter.old) × HasExactlySlotBitsOf tasks mask }
    ensures issued { (start : Device) (tasks : List PlacedTask)
        → IsBatchStored port tasks start (A.device adapter.old) → HasExactlySlotBitsOf tasks mask
        → IsBatchIssued port tasks start (A.device adapter.new) }
    ensures cost { MakesAtMost BATCH_WRITE_ACCESSES (A.access_count adapter.old) (A.access_count adapter.new) }
{
    law_other_ports_are_untouched();
    law_writes_but_ci_stay_permitted();
    adapter.write(Reg::Px(port, PortReg::Sact), mask);
    law_ci_write_issues_armed_batch();
    adapter.write(Reg::Px(port, PortReg::Ci), mask);
}

/// The bits of the mask that are clear in both of the others.
fn clear_in_both(mask: u32, issued: u32, active: u32) -> u32
    ensures { IsDoneMask mask issued active result }
{
    mask & !(issued | active)
}

/// The slots of the mask whose bits are clear in both PxCI and PxSACT, which are read in this order, once each; where
/// one has a command, that is done. Bit k is slot k. While ST is one, the device alone clears these bits; a queued
/// command leaves PxCI when it is taken, and PxSACT when it ends.
pub fn done<A: Adapter>(adapter: &mut A, port: Port, mask: u32) -> u32
    requires adapter_is_on { IsOn (A.device adapter.old) }
    requires has_port { HasPort (A.device adapter.old) port.0 }
    ensures adapter_is_on { IsOn (A.device adapter.new) }
    ensures finds { ReadsDone port mask result (A.device adapter.old) (A.device adapter.new) }
    ensures finds_each_that_was_clear { FindsEachClearSlot port mask result (A.device adapter.old) }
    ensures cost { MakesAtMost DONE_ACCESSES (A.access_count adapter.old) (A.access_count adapter.new) }
{
    law_adapter_stays_same_and_on_until_ghc_write();
    law_ci_then_sact_reads_find_done_slots();
    let issued = adapter.read(Reg::Px(port, PortReg::Ci));
    let active = adapter.read(Reg::Px(port, PortReg::Sact));
    clear_in_both(mask, issued, active)
}
