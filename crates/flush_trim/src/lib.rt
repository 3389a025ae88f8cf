//! Issues the commands that a port has alone, in slot 0: a flush, or a trim.
//!
//! (AHCI 1.3.1, 5.5; ACS-3.) They meet the contract on issuing of `ncq` (`IsIssued`). A trim's
//! block names exactly the sectors of its range, in order, and stands at the head of the port's
//! scratch frame.
#![tactic(auto)]

ghost use Rattle.std.specs.Prelude.{◌≡◌, ◌+◌, ◌^◌, ◌<◌, ◌≤◌, List};
ghost use Rattle.ata_types.specs.{declared.range.Range.{Range}, declared.request.Frame.{Frame}, declared.request.Op.TheVariants.{Trim, Flush}};
ghost use Rattle.adapter.specs.{Commands.{command_of}, Trim.{consecutive, trim_sectors}, AccessBounds.{MakesAtMost}};
ghost use Rattle.adapter.specs.declared.command.Operation.TheVariants as operation;
ghost use Rattle.command_table.specs.Costs.{TABLE_WITH_BLOCK_ACCESSES, TABLE_ACCESSES};
ghost use Rattle.ncq.specs.Issuing.{IsIssued, MayIssueTask};
ghost use Rattle.flush_trim.specs.{TrimBlocks.{IsRangeCut, entry_first, entry_length, wanted_entry_first, wanted_entry_length}, PlainTasks.{flush_task, trim_task}};

use adapter::{Adapter, Command};
use ata_types::{DATA_SET_MANAGEMENT, DRIVER_BYTES, FLUSH_CACHE_EXT, Port, Range, Slot};
use command_table::{write_table, write_table_with_block};
use hba_regs::{PortReg, Reg};
use ncq::bit_of;
use ncq::laws::law_ci_write_issues_stored_plain_task;

/// Bit 0 of the features of DATA SET MANAGEMENT: TRIM (ACS-3).
const TRIM: u16 = 1;

/// The blocks that the command brings.
const BLOCKS: u16 = 1;

/// The slot of a plain command, which is alone on its port.
const SLOT: Slot = Slot(0);

/// Entries of a block.
const ENTRIES: usize = 64;

/// Bytes of an entry: six of its first sector, and two of how many it names.
const ENTRY_BYTES: usize = 8;

/// Sectors that an entry names at most.
const ENTRY_SECTORS: u32 = 65_535;

/// The entry at this place of a block: the range is cut from its front into entries that are full, and a last one.
fn entry_of(range: &Range, place: usize) -> [u8; ENTRY_BYTES]
    requires place { place < 64 }
    requires sectors { 0 < range.now.count → range.now.first.0 + range.now.count ≤ 2 ^ 48 }
    ensures first { entry_first result 0 ≡ wanted_entry_first range.now.first.0 range.now.count place }
    ensures length { entry_length result 0 ≡ wanted_entry_length range.now.count place }
{
    let before = ENTRY_SECTORS * place as u32;
    let length = range.count.saturating_sub(before).min(ENTRY_SECTORS);
    let first = if before < range.count {
        range.first.0 + u64::from(before)
    } else {
        0
    };
    (first + (u64::from(length) << 48)).to_le_bytes()
}

/// The block of a trim of 4,194,240 sectors at most (64 entries of 65,535), each below 2^48. It names exactly them, in
/// order; entries that aren't needed are zero. Where there is no sector, it is zeros, wherever the range begins.
pub fn trim_block(range: Range) -> [u8; 512]
    requires count { range.count ≤ 4194240 }
    requires sectors { 0 < range.count → range.first.0 + range.count ≤ 2 ^ 48 }
    ensures means { trim_sectors result ≡ consecutive range.first.0 range.count }
    ensures cut { IsRangeCut result range.first.0 range.count }
{
    let mut block = [0; ENTRIES * ENTRY_BYTES];
    for place in 0..ENTRIES {
        let at = ENTRY_BYTES * place;
        block[at..at + ENTRY_BYTES].copy_from_slice(&entry_of(&range, place));
    }
    block
}

/// The command of a flush.
fn flush_command() -> Command
    ensures { result ≡ command_of operation.Flush 0 0 0 }
{
    Command {
        code: FLUSH_CACHE_EXT,
        features: 0,
        count: 0,
        lba: 0,
        device: 0,
    }
}

/// The command of a trim: its sectors stand in its block.
fn trim_command() -> Command
    ensures { result ≡ command_of operation.Trim 0 0 0 }
{
    Command {
        code: DATA_SET_MANAGEMENT,
        features: TRIM,
        count: BLOCKS,
        lba: 0,
        device: 0,
    }
}

/// Has the disk of a port that runs write its cache back (FLUSH CACHE EXT), by slot 0, which is unused. A flush names
/// no sectors, so the range of its request is any.
pub fn issue_flush<A: Adapter>(adapter: &mut A, port: Port)
    requires may { MayIssueTask port 0 (A.device adapter.old) }
    ensures issued { (range : Range) (frames : List Frame)
        → IsIssued port 0 (flush_task range) frames (A.device adapter.old) (A.device adapter.new) }
    ensures cost { MakesAtMost (TABLE_ACCESSES + 1) (A.access_count adapter.old) (A.access_count adapter.new) }
{
    law_ci_write_issues_stored_plain_task();
    write_table(adapter, port, SLOT, &flush_command(), &[]);
    let own = bit_of(SLOT);
    adapter.write(Reg::Px(port, PortReg::Ci), own);
}

/// Has the disk of a port that runs forget these sectors (DATA SET MANAGEMENT with TRIM), by slot 0, which is unused:
/// 4,194,240 of them at most, each below 2^48. The block that names them stands in the port's scratch frame.
pub fn issue_trim<A: Adapter>(adapter: &mut A, port: Port, range: Range)
    requires may { MayIssueTask port 0 (A.device adapter.old) }
    requires count { range.count ≤ 4194240 }
    requires sectors { 0 < range.count → range.first.0 + range.count ≤ 2 ^ 48 }
    ensures issued { (frames : List Frame) → IsIssued port 0 (trim_task range) frames (A.device adapter.old)
        (A.device adapter.new) }
    ensures cost { MakesAtMost (TABLE_WITH_BLOCK_ACCESSES + 1) (A.access_count adapter.old)
        (A.access_count adapter.new) }
{
    law_ci_write_issues_stored_plain_task();
    write_table_with_block(adapter, port, &trim_command(), &trim_block(range));
    adapter.write(Reg::Px(port, PortReg::Ci), bit_of(SLOT));
}
