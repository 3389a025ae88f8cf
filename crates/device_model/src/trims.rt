// Trims: what is left to clear of one, and that it is cleared.
ghost use Rattle.std.specs.Prelude.{◌≡◌, ◌⊎◌, ◌↔◌, ◌+◌, ◌^◌, ◌<◌, ◌≤◌, ℕ, IsTrue, IfSome, IsSomeAnd, None, Some, length, drop, slice_index_or};
ghost use Rattle.adapter.specs.{Decoding.{pieces}, Steps.{IsFinished, device_after}, Steps.DeviceTransition.{Clear as ClearStep}, Trim.{trim_sectors}};
ghost use Rattle.device_model.specs.{TakenBlocks.{brought}, FetchedBytes.{bytes_of}, Finishing.{TapeHasRoom}, Slots.{IsMovedTrimWithSectorsLeftAtLeast, WorksOnIn, IsNextRun}, Trims.{HasRunsLeft, HasClearsLeft, trim_block_after_moves, sectors_left_to_clear, next_uncleared, next_run_length, uncleared}, PortView.{reset_port_without_disk, taken_of}, WholeAdapter.{AllMedia, device_of, all_media_after_clear}, declared.port.TakenCommand.{TakenCommand}};

use crate::clearing::{SectorExtent, count_runs, count_sectors, next_run};
use crate::fetch::{copy_bytes, count_pieces, piece_address_at};
use crate::hardware::Hardware;
use crate::port::TakenCommand;
use crate::slots::working_on;
use crate::steps::record;
use adapter::{Clear, Entry};
use ata_types::{Port, Slot};

/// Whether nothing of a command is left to move or to clear, whose block is this.
pub fn is_finished(command: &TakenCommand, block: &[u8]) -> bool
    requires block { block.now ≡ brought command.now.block }
    requires few { length block.now ≤ 512 }
    ensures { IsTrue result ↔ IsFinished (taken_of command.now) }
{
    command.moved == count_pieces(command.prds.as_slice())
        && (!command.operation.is_trim() || command.cleared == count_sectors(block))
}

/// How many sectors of a trim are left to clear.
fn uncleared_of(command: &TakenCommand, block: &[u8]) -> u32
    requires block { block.now ≡ brought command.now.block }
    requires few { length block.now ≤ 512 }
    ensures { result ≡ length (uncleared (taken_of command.now)) }
{
    count_sectors(block).saturating_sub(command.cleared)
}

/// What is left to clear of a command: so many runs, and in these so many sectors.
#[derive(Clone, Copy, Debug)]
pub struct ClearsLeft {
    pub runs: u32,
    pub sectors: u32,
}

/// What a block brings to clear, of which so many sectors were cleared.
fn clears_of_block(block: &[u8], cleared: u32) -> Option<ClearsLeft>
    requires { length block.now ≤ 512 }
    ensures found { IfSome result (λ clears. HasRunsLeft block.now cleared clears.runs) }
    ensures sectors { IfSome result (λ clears. clears.sectors ≡ length (drop cleared (trim_sectors block.now))) }
    ensures only { (runs : ℕ) → HasRunsLeft block.now cleared runs → IsSomeAnd result (λ clears. clears.runs ≡ runs) }
{
    let sectors = count_sectors(block).checked_sub(cleared)?;
    Some(ClearsLeft {
        runs: count_runs(block, cleared),
        sectors,
    })
}

/// What a trim is going to clear, as `clears_left_unless_too_many_cleared` says. The block that it is going to move is
/// looked at where it is. It is entered for trims alone, since its frame has room for a block.
#[inline(never)]
fn clears_of_trim(command: &TakenCommand, block: &[u8], memory: &[u8]) -> Option<ClearsLeft>
    requires block { block.now ≡ brought command.now.block }
    requires few { length block.now ≤ 512 }
    ensures found { IfSome result (λ clears. HasRunsLeft (trim_block_after_moves (bytes_of memory.now)
        (taken_of command.now))
        command.now.cleared clears.runs) }
    ensures sectors { IfSome result (λ clears. clears.sectors ≡ length (drop command.now.cleared
        (trim_sectors (trim_block_after_moves (bytes_of memory.now) (taken_of command.now))))) }
    ensures only { (runs : ℕ) → HasRunsLeft (trim_block_after_moves (bytes_of memory.now) (taken_of command.now))
        command.now.cleared
        runs → IsSomeAnd result (λ clears. clears.runs ≡ runs) }
{
    let prds = command.prds.as_slice();
    let pieces = count_pieces(prds);
    if command.moved >= pieces {
        return clears_of_block(block, command.cleared);
    }
    let place = piece_address_at(prds, pieces - 1)?;
    let mut bytes = [0; 512];
    copy_bytes(memory, place as usize, &mut bytes);
    clears_of_block(&bytes, command.cleared)
}

/// What is left to clear of a command, whose block is this if it was moved; nothing but of a trim. `None` where more
/// was cleared than the block has, or the trim has no block.
pub fn clears_left_unless_too_many_cleared(
    command: &TakenCommand,
    block: &[u8],
    memory: &[u8],
) -> Option<ClearsLeft>
    requires block { block.now ≡ brought command.now.block }
    requires few { length block.now ≤ 512 }
    ensures found { IfSome result (λ clears. HasClearsLeft command.now.operation (bytes_of
        memory.now)
        (taken_of command.now) clears.runs) }
    ensures sectors { IfSome result (λ clears. clears.sectors ≡ sectors_left_to_clear command.now.operation
        (bytes_of memory.now) (taken_of command.now)) }
    ensures complete { (runs : ℕ) → HasClearsLeft command.now.operation (bytes_of memory.now)
        (taken_of command.now) runs → IsSomeAnd result (λ clears. clears.runs ≡ runs) }
{
    if command.operation.is_trim() {
        clears_of_trim(command, block, memory)
    } else {
        Some(ClearsLeft {
            runs: 0,
            sectors: 0,
        })
    }
}

/// The sectors of a trim, whose block is this, that are cleared at once: of its next so many those that follow one
/// another. `None` where none is left, and where fewer than so many are.
fn run_of_trim(command: &TakenCommand, block: &[u8], most: u32) -> Option<SectorExtent>
    requires block { block.now ≡ brought command.now.block }
    requires few { length block.now ≤ 512 }
    ensures can { IfSome result (λ run. IsMovedTrimWithSectorsLeftAtLeast command.now most) }
    ensures first { IfSome result (λ run. run.first ≡ next_uncleared (taken_of command.now)) }
    ensures count { IfSome result (λ run. run.count ≡ next_run_length most (taken_of command.now)) }
    ensures fits { IfSome result (λ run. command.now.cleared + run.count < 2 ^ 32) }
    ensures none { result ≡ None → IsMovedTrimWithSectorsLeftAtLeast command.now most → ⊥ }
{
    if !command.operation.is_trim() || command.moved != count_pieces(command.prds.as_slice()) {
        return None;
    }
    let run = next_run(block, command.cleared, most.max(1));
    if run.count == 0 {
        return None;
    }
    // Where as many follow one another, as many are left.
    if run.count < most && uncleared_of(command, block) < most {
        return None;
    }
    Some(SectorExtent {
        first: run.first,
        count: run.count.min(most),
    })
}

impl Hardware {
    /// How many sectors are left to clear of a slot's trim.
    pub fn count_uncleared(&self, port: u8, slot: u8) -> u32
        requires port { port < 4 }
        requires slot { slot < 32 }
        ensures { (t : TakenCommand) → WorksOnIn (slice_index_or self.now.ports port reset_port_without_disk) slot t
            → result ≡ length (uncleared (taken_of t)) }
    {
        match working_on(&self.ports, usize::from(port), slot) {
            Some(command) => {
                uncleared_of(command, self.ports[usize::from(port)].taken.block(slot))
            }
            None => 0,
        }
    }

    /// What a slot's trim clears next, of so many sectors.
    pub fn run_to_clear(&self, port: u8, slot: u8, most: u32) -> Option<SectorExtent>
        requires port { port < 4 }
        requires slot { slot < 32 }
        ensures found { IfSome result (λ run. (t : TakenCommand) × IsNextRun self.now port slot most run t) }
        ensures none { result ≡ None → (t : TakenCommand)
            → WorksOnIn (slice_index_or self.now.ports port reset_port_without_disk) slot t
            → IsMovedTrimWithSectorsLeftAtLeast t most → ⊥ }
    {
        let command = working_on(&self.ports, usize::from(port), slot)?;
        let block = self.ports[usize::from(port)].taken.block(slot);
        run_of_trim(command, block, most)
    }

    /// These sectors of a slot's trim were cleared, of so many that were asked for: that is noted on the tape. Where
    /// there are none, though some were asked for, nothing is.
    pub fn note_clear(&mut self, port: u8, slot: u8, run: SectorExtent, asked: u32)
        requires there { (port < 4) × (slot < 32) }
        requires slot_has_command { (t : TakenCommand)
            × WorksOnIn (slice_index_or self.old.ports port reset_port_without_disk) slot t
            × (t.cleared + run.count < 2 ^ 32) }
        requires room { TapeHasRoom self.old 1 }
        ensures none_changes_nothing { run.count ≡ 0 → 1 ≤ asked → self.new ≡ self.old }
        ensures cleared { (1 ≤ run.count) ⊎ (asked ≡ 0) → (o : AllMedia) (t : TakenCommand)
            → WorksOnIn (slice_index_or self.old.ports port reset_port_without_disk) slot t →
            device_of self.new (all_media_after_clear o port run.first run.count)
            ≡ device_after (ClearStep port slot (taken_of t) run.first run.count) (device_of self.old o) }
        ensures room_is_left { (n : ℕ) → TapeHasRoom self.old (n + 1) → TapeHasRoom self.new n }
        ensures starved { self.new.starved ≡ self.old.starved }
    {
        if run.count == 0 && asked > 0 {
            return;
        }
        let entry = Entry::Clear(Clear {
            port: Port(port),
            slot: Slot(slot),
            first: run.first,
            count: run.count,
        });
        let _recorded = record(&mut self.tape, &mut self.starved, entry);
        self.ports[usize::from(port)].clear(slot, run);
    }
}
