//! Makes command headers and tables, and writes them into a slot of a port.
//!
//! (AHCI 1.3.1, 4.2.2 and 4.2.3.) What stands there is said as the device reads it (`SlotDecodesTo`).
//! Callers use that clause, and that nothing else is stored; what the bytes are is for tests. The
//! slot has to be unused in a machine that agrees with the device in all slots (`SomeMachineAgreesWith`).
#![tactic(auto)]

ghost use Rattle.std.specs.Prelude.{◌≡◌, ℕ, List, [], ◌∷◌, ◌+◌, ◌*◌, ◌/◌, ◌%◌, ◌^◌, ◌<◌, ◌≤◌, length, drop, All};
ghost use Rattle.byteorder.specs.Endian.{little_from};
ghost use Rattle.adapter.specs.{Encoding.{AreZero, EncodesHeader, EncodesPrd, IsAllowedPrd}, Commands.{IsValidMeaning, Meaning, command_of, transfer_sector_count, reads_memory}, Memory.{bytes_at}, Rules.{IsInMemoryNotOwnedByDevice, IsOn, IsStable}, declared.command.Command.{Command}, declared.command.Operation.{Operation}, declared.command.Prd.{Prd}, AccessBounds.{MakesAtMost}};
ghost use Rattle.refinement.specs.{Fragments.{IsSimulated}, MemoryLayout.{command_list_address, scratch_frame_address}, Slots.{SlotDecodesTo}};
ghost use Rattle.command_table.specs.{TableStores.{FitsTable, IsHeaderTableOrBlockStore, IsTable, IsTableFor, IsHeaderOrTableStore, IsSlotStateFree, MayWriteTable, StoresTable}, FrameRuns.{ArePrdsOfFrames, FillFrames, IsLongestRunFromFirst}, BufferBytes.{StoresBytes}, Costs.{TABLE_WITH_BLOCK_ACCESSES, TABLE_ACCESSES}};

pub mod laws;
mod prerequisites;

use adapter::{Adapter, Command, Prd};
use arrayvec::ArrayVec;
use ata_types::{
    DATA_SET_MANAGEMENT, DRIVER_BYTES, DRIVER_BYTES_PER_PORT, DRIVER_FRAMES_PER_PORT, FRAME_BYTES,
    Frame, HEADER_BYTES, LONGEST_TABLE_BYTES, MOST_REQUEST_FRAMES, PRD_BYTES, Port, SCRATCH_FRAME,
    Slot, TABLE_ALIGNMENT, TABLE_BYTES, TABLE_HEAD_BYTES, TABLES_OFFSET, WRITE_DMA_EXT,
    WRITE_FPDMA_QUEUED,
};
use dma_frames::Loan;
use fis::encode_h2d;
use prerequisites::law_prerequisites;
use refinement::fragments::law_other_ports_are_untouched;

const FIS_DWORDS: u32 = 5;

const WRITE_BIT: u32 = 1 << 6;

const BLOCK_BYTES: u32 = 512;

/// Bytes of a command table with eight PRDs.
const SHORT_TABLE: usize = TABLE_HEAD_BYTES as usize + 8 * PRD_BYTES as usize;

/// Writes the bytes into the buffer, from a place on.
fn store_at(buffer: &mut [u8], at: usize, bytes: &[u8])
    requires { at + length bytes.now ≤ length buffer.old }
    ensures { StoresBytes buffer.old buffer.new at bytes.now }
{
    for (i, byte) in bytes.iter().enumerate() {
        buffer[at + i] = *byte;
    }
}

/// The header of a command with so many PRDs in the table at this address. `writes` says that the device reads memory.
pub fn header(writes: bool, entries: u16, table: u32) -> [u8; 32]
    requires { table % TABLE_ALIGNMENT ≡ 0 }
    ensures says { EncodesHeader result writes entries table }
    ensures none_moved { little_from 4 4 result ≡ 0 }
{
    let first = FIS_DWORDS + if writes { WRITE_BIT } else { 0 } + (u32::from(entries) << 16);
    let first = first.to_le_bytes();
    let table = table.to_le_bytes();
    [
        first[0], first[1], first[2], first[3], 0, 0, 0, 0, table[0], table[1], table[2], table[3],
        0, 0, 0, 0, 0, 0, 0, 0, 0, 0, 0, 0, 0, 0, 0, 0, 0, 0, 0, 0,
    ]
}

/// A PRD as its 16 bytes.
fn prd_bytes(prd: &Prd) -> [u8; 16]
    requires { IsAllowedPrd prd.now }
    ensures { EncodesPrd result prd.now }
{
    let address = prd.address.to_le_bytes();
    let count = (prd.bytes - 1).to_le_bytes();
    [
        address[0], address[1], address[2], address[3], 0, 0, 0, 0, 0, 0, 0, 0, count[0], count[1],
        count[2], count[3],
    ]
}

/// The PRDs that cover the first bytes of a loan's frames, in order: one for each longest run of frames whose numbers
/// rise by one, so of 512 KiB at most (AHCI 1.3.1, 4.2.3.3, allows 4 MiB). The last one covers the rest of the bytes.
pub fn prds(loan: &Loan, bytes: u32) -> ArrayVec<Prd, MOST_REQUEST_FRAMES>
    requires { FillFrames loan.now.frames bytes }
    ensures { ArePrdsOfFrames loan.now.frames bytes result.items }
{
    prds_in(loan, bytes)
}

/// The same PRDs, in a list that has room for fewer: a list is cleared whole when it is made, and most requests have
/// few frames.
pub fn prds_in<const ROOM: usize>(loan: &Loan, bytes: u32) -> ArrayVec<Prd, ROOM>
    requires fill { FillFrames loan.now.frames bytes }
    requires room { length loan.now.frames ≤ ROOM }
    ensures { ArePrdsOfFrames loan.now.frames bytes result.items }
{
    prds_of_frames(loan.frames(), bytes)
}

/// The PRDs that cover the first bytes of these frames.
fn prds_of_frames<const ROOM: usize>(frames: &[Frame], bytes: u32) -> ArrayVec<Prd, ROOM>
    requires fill { FillFrames frames.now bytes }
    requires room { length frames.now ≤ ROOM }
    ensures { ArePrdsOfFrames frames.now bytes result.items }
{
    let mut entries = ArrayVec::new();
    let mut covered = 0;
    let mut left = bytes;
    while covered < frames.len() {
        let count = run_length(frames, covered);
        let bytes = left.min(FRAME_BYTES * count as u32);
        entries.push(Prd {
            address: FRAME_BYTES * u32::from(frames[covered].0),
            bytes,
        });
        left -= bytes;
        covered += count;
    }
    entries
}

/// The PRD of the block of 512 bytes at the head of a port's scratch frame: that of a command that moves one block for
/// the driver itself.
pub fn scratch_prd(port: Port) -> Prd
    ensures is { result ≡ record { address = scratch_frame_address port.0; bytes = 512 } }
    ensures allowed { IsAllowedPrd result }
    ensures one_block { (slot : ℕ) (command : Command) (m : Meaning) → IsValidMeaning m
        → command ≡ command_of m.operation slot m.first m.count → transfer_sector_count m.operation m.count ≡ 1
        → IsTableFor slot command (result ∷ []) m (scratch_frame_address port.0 ∷ []) }
{
    let frame = DRIVER_FRAMES_PER_PORT * u16::from(port.0) + SCRATCH_FRAME;
    Prd {
        address: FRAME_BYTES * u32::from(frame),
        bytes: BLOCK_BYTES,
    }
}

/// How many frames from this place on have numbers that rise by one: as many as can be.
fn run_length(frames: &[Frame], from: usize) -> usize
    requires { from < length frames.now }
    ensures { IsLongestRunFromFirst (drop from frames.now) result }
{
    let first = frames[from].0 as usize;
    for count in 1..frames.len() - from {
        if frames[from + count].0 as usize != first + count {
            return count;
        }
    }
    frames.len() - from
}

/// Turns zeros into a command table: the FIS at its head, the PRDs from byte 128 on, and zeros between them. It is made
/// where the caller has it, since it would be copied else.
fn fill_table(bytes: &mut [u8], command: &Command, prds: &[Prd])
    requires zeros { AreZero bytes.old 0 TABLE_HEAD_BYTES }
    requires room { TABLE_HEAD_BYTES + PRD_BYTES * length prds.now ≤ length bytes.old }
    requires lba { command.now.lba < 2 ^ 48 }
    requires allowed { All IsAllowedPrd prds.now }
    ensures { IsTable bytes.new command.now prds.now }
{
    store_at(bytes, 0, &encode_h2d(command));
    for (i, prd) in prds.iter().enumerate() {
        store_at(
            bytes,
            TABLE_HEAD_BYTES as usize + PRD_BYTES as usize * i,
            &prd_bytes(prd),
        );
    }
}

/// Whether the device reads memory to do a command, of those that the driver knows.
fn is_write(command: &Command) -> bool
    ensures { (o : Operation) (slot first count : ℕ) → command.now ≡ command_of o slot first count
        → result ≡ reads_memory o }
{
    matches!(
        command.code,
        DATA_SET_MANAGEMENT | WRITE_DMA_EXT | WRITE_FPDMA_QUEUED
    )
}

/// Stores a command table at a place that is free, in one store: what follows its last PRD isn't stored. Most tables
/// have few PRDs, and for those no buffer is cleared that has room for as many as a request can have frames.
fn store_table<A: Adapter>(adapter: &mut A, at: u32, command: &Command, prds: &[Prd])
    requires free { IsStable (IsInMemoryNotOwnedByDevice at (TABLE_HEAD_BYTES + PRD_BYTES * length prds.now))
        (A.device adapter.old) }
    requires lba { command.now.lba < 2 ^ 48 }
    requires few { length prds.now ≤ MOST_REQUEST_FRAMES }
    requires allowed { All IsAllowedPrd prds.now }
    ensures stores { StoresTable at command.now prds.now (A.device adapter.old) (A.device adapter.new) }
    ensures cost { MakesAtMost 1 (A.access_count adapter.old) (A.access_count adapter.new) }
{
    let size = TABLE_HEAD_BYTES as usize + PRD_BYTES as usize * prds.len();
    if size <= SHORT_TABLE {
        let mut bytes = [0; SHORT_TABLE];
        fill_table(&mut bytes, command, prds);
        adapter.store(at, &bytes[..size]);
    } else {
        let mut bytes = [0; LONGEST_TABLE_BYTES];
        fill_table(&mut bytes, command, prds);
        adapter.store(at, &bytes[..size]);
    }
}

/// Writes the table and then the header of an unused slot, so that they say the command that is meant, with its PRDs,
/// and PRDBC tells that nothing was moved yet; no other byte is stored. The slot's places are this project's own: list
/// and tables stand in the nineteen frames of the port.
pub fn write_table<A: Adapter>(
    adapter: &mut A,
    port: Port,
    slot: Slot,
    command: &Command,
    prds: &[Prd],
)
    requires may { MayWriteTable port.0 slot.0 (A.device adapter.old) }
    requires fits { FitsTable slot.0 command.now prds.now }
    ensures adapter_is_on { IsOn (A.device adapter.new) }
    ensures followed { IsSimulated (IsHeaderOrTableStore port.0 slot.0) (IsSlotStateFree port.0 slot.0)
        (A.device adapter.old)
        (A.device adapter.new) }
    ensures prdbc_is_zero { little_from 4 4
        (bytes_at (A.device adapter.new).memory (command_list_address port.0 + HEADER_BYTES * slot.0) HEADER_BYTES)
        ≡ 0 }
    ensures slot_decodes { (m : Meaning) (places : List ℕ) → IsTableFor slot.0 command.now prds.now m places
        → SlotDecodesTo (A.device adapter.new).memory (command_list_address port.0) port.0 slot.0 m places }
    ensures cost { MakesAtMost TABLE_ACCESSES (A.access_count adapter.old) (A.access_count adapter.new) }
{
    let list = DRIVER_BYTES_PER_PORT * u32::from(port.0);
    let table = list + TABLES_OFFSET + TABLE_BYTES * u32::from(slot.0);
    law_prerequisites();
    store_table(adapter, table, command, prds);
    let head = header(is_write(command), prds.len() as u16, table);
    adapter.store(list + HEADER_BYTES * u32::from(slot.0), &head);
}

/// Writes table and header of slot 0 of a port, which is unused, for a command that takes one block from memory; and
/// then the block, at the head of the port's scratch frame, where the table says it is. The slot's places are as
/// `write_table` has them.
pub fn write_table_with_block<A: Adapter>(
    adapter: &mut A,
    port: Port,
    command: &Command,
    block: &[u8; 512],
)
    requires may { MayWriteTable port.0 0 (A.device adapter.old) }
    requires lba { command.now.lba < 2 ^ 48 }
    ensures adapter_is_on { IsOn (A.device adapter.new) }
    ensures followed { IsSimulated (IsHeaderTableOrBlockStore port.0 0) (IsSlotStateFree port.0 0)
        (A.device adapter.old)
        (A.device adapter.new) }
    ensures slot_decodes { (m : Meaning) → IsValidMeaning m → command.now ≡ command_of m.operation 0 m.first m.count
        → transfer_sector_count m.operation m.count ≡ 1
        → SlotDecodesTo (A.device adapter.new).memory (command_list_address port.0) port.0 0 m
        (scratch_frame_address port.0 ∷ []) }
    ensures block { bytes_at (A.device adapter.new).memory (scratch_frame_address port.0) 512 ≡ block.now }
    ensures cost { MakesAtMost TABLE_WITH_BLOCK_ACCESSES (A.access_count adapter.old) (A.access_count adapter.new) }
{
    law_other_ports_are_untouched();
    law_prerequisites();
    let scratch = scratch_prd(port);
    write_table(adapter, port, Slot(0), command, &[scratch]);
    adapter.store(scratch.address, block);
}
