// Steps that the hardware does when it is told.
ghost use Rattle.std.specs.{Prelude.{◌≡◌, ◌↔◌, IsTrue, ◌<◌, ◌≤◌, ◌+◌, ◌-◌, ◌*◌, ◌^◌, ◌++◌, ◌∷◌, [], true, false, ℕ, List, None, Some, IfSome, IsSomeAnd, if◌then◌else◌, length, nat_eq, slice_index, slice_index_or}, Vec.{vec_len, vec_capacity}};
ghost use Rattle.adapter.specs.{Commands.{Meaning, is_queued, moves_disk_sectors, reads_memory}, Device.{Disk, FetchedCommand}, Memory.{bytes_at}, Decoding.{pieces}, Steps.{Can, IsFinished, device_after, next_sector}, Steps.DeviceTransition.{Fetch as FetchStep, FetchFault as FetchFaultStep, Move as MoveStep, Done as DoneStep, Fault as FaultStep, Fatal as FatalStep, Unplug as UnplugStep, Plug as PlugStep}};
ghost use Rattle.adapter.specs.AskedSteps.{DoesFatal, DoesFault, DoesFetch, EndsAndPosts, fatal_bit};
ghost use Rattle.device_model.specs.{TakenBlocks.{brought}, WriteCaches.{HasRoomForOldSectors, KeepsSameOldSectors}, PieceTransfers.{IsTransferred, piece_in_memory}, FetchedBytes.{bytes_of}, Finishing.{TapeHasRoom, CacheHasRoomForRestOfCommand, FindsPageCommandAndWhetherItCanEnd, IsInside, PiecesInside, IsCommandBegun, HasMovesLeftInMemory, IsImpossibleOrLacksTape, HasMovesAndTrimRunsLeft, NoneMayFinishOrLacksRoom}, SentFises.{SendsEnd}, Slots.{WorksOnIn, IsNextMove, IsFetchableIfHaltAdmits}, Trims.{sectors_left_to_change}};
ghost use Rattle.device_model.specs.{PortView.{taken_in, bsy_if_disk_left_busy, taken_of, reset_port_without_disk}, WholeAdapter.{AllMedia, device_of, all_media_after_move, all_media_after_end, all_media_after_plug}, declared.port.TakenCommand.{TakenCommand}};

use crate::cache::Cache;
use crate::fetch::{
    PiecePlace, count_pieces, decode_page_command, decodes_command, may_be_page_command, place_at,
    read_command,
};
use crate::hardware::Hardware;
use crate::operations::sectors_to_write;
use crate::port::TakenCommand;
use crate::slots::{FAILED_STATUS, failed_status, is_fetchable_if_halt_admits, working_on};
use crate::trims::{clears_left_unless_too_many_cleared, is_finished};
use adapter::{Done, Entry, FatalError, Fault, Move, Operation, Prd};
use ata_types::{Port, Slot};
use std::snapshot::Snapshot;

/// The error of what means no command: ABRT (ACS-3, 6.2).
const ABORTED: u8 = 0x04;

/// What a command moves next: a sector, or 0 where it names none, and the address that the bytes go to or come from.
/// Its fields have 15 bytes, so that it is copied in two registers for each sector, and not by memory.
#[derive(Clone, Copy, Debug)]
pub struct NextMove {
    pub sector: u64,
    pub address: u32,
    /// How many pieces behind it can be moved without a look for their places: those of its region, if the command
    /// names sectors. (A region has 8,192 pieces at most; AHCI 1.3.1, 4.2.3.3.)
    pub pieces_following: u16,
    pub operation: Operation,
}

/// What is left of a command, but for its end: so many moves, and then so many clears.
#[derive(Clone, Copy, Debug)]
pub struct Remaining {
    pub moves: u32,
    pub clears: u32,
    /// How many sectors of the disk these change: each sector that is written, and each one that is cleared.
    pub changes: usize,
}

/// A command that is to be done to its end.
#[derive(Clone, Copy, Debug)]
pub struct BegunCommand {
    pub remaining: Remaining,
    /// Whether it was taken just now.
    pub is_newly_taken: bool,
}

/// An IDENTIFY DEVICE or READ LOG EXT that the model goes on with by itself.
#[derive(Clone, Copy, Debug)]
pub struct PendingPageCommand {
    pub port: u8,
    pub slot: u8,
    /// Whether it can be done to its end. Else it may be taken, and no more.
    pub can_end: bool,
}

impl NextMove {
    /// Whether it names no sector, or one of so many.
    pub fn is_within_disk_if_it_moves_sectors(self, sectors: u64) -> bool
        ensures { IsTrue result ↔ (moves_disk_sectors self.operation ≡ true → self.sector < sectors) }
    {
        // A sector that is named is on the disk, but for faults, and 0 is where none is named: so one look is enough.
        self.sector < sectors || !self.operation.moves_disk_sectors()
    }

    /// The move of the piece behind it, if that needs no look.
    fn after(self) -> Option<NextMove>
        requires { (self.sector + self.pieces_following < 2 ^ 64)
            × (self.address + 512 * self.pieces_following < 2 ^ 32) }
        ensures { IfSome result (λ n. (1 ≤ self.pieces_following) × (n ≡ record {
          operation = self.operation;
          sector = self.sector + 1;
          address = self.address + 512;
          pieces_following = self.pieces_following - 1;
        })) }
    {
        if self.pieces_following == 0 {
            return None;
        }
        Some(NextMove {
            operation: self.operation,
            sector: self.sector + 1,
            address: self.address + 512,
            pieces_following: self.pieces_following - 1,
        })
    }
}

/// How many pieces behind one can be moved without a look for their places: all of its region (65,535 at most), if such
/// a command names sectors, and each has its place in a memory of this size, and an address of 32 bits; and else none.
fn pieces_following(operation: Operation, place: PiecePlace, size: usize) -> u16
    requires { place.address < 2 ^ 32 }
    ensures few { result ≤ place.pieces_following }
    ensures inside { place.address + 512 ≤ size → place.address + 512 * result + 512 ≤ size }
    ensures low { place.address + 512 * result < 2 ^ 32 }
    ensures moves_sectors { 1 ≤ result → moves_disk_sectors operation ≡ true }
{
    let pieces = u64::from(place.pieces_following).min(u64::from(u16::MAX));
    let end = place.address + 512 * pieces + 512;
    if operation.moves_disk_sectors() && end <= (size as u64).min(1 << 32) {
        pieces as u16
    } else {
        0
    }
}

/// Adds an entry to the tape; `false` says that there was no memory, which is told from then on.
#[inline(always)]
pub fn record(tape: &mut Vec<Entry>, starved: &mut bool, entry: Entry) -> bool
    ensures added { result ≡ true → tape.new.items ≡ tape.old.items ++ entry ∷ [] }
    ensures tape_is_kept { result ≡ false → tape.new.items ≡ tape.old.items }
    ensures room { vec_len tape.old < vec_capacity tape.old → result ≡ true }
    ensures room_is_left { (n : ℕ) → vec_len tape.old + (n + 1) ≤ vec_capacity tape.old
        → vec_len tape.new + n ≤ vec_capacity tape.new }
    ensures starved { result ≡ false → starved.new ≡ true }
    ensures starved_is_kept { result ≡ true → starved.new ≡ starved.old }
{
    let added = tape.push(entry).is_ok();
    if !added {
        *starved = true;
    }
    added
}

/// Whether each piece of a region is in a memory of this size.
fn is_inside(prd: &Prd, size: usize) -> bool
    ensures inside { result ≡ true → IsInside size prd.now }
    ensures only { result ≡ false → IsInside size prd.now → ⊥ }
{
    let pieces = prd.bytes as usize / 512;
    pieces == 0 || prd.address as usize + 512 * pieces <= size
}

/// Whether each piece of some regions is in a memory of this size.
fn are_inside(prds: &[Prd], size: usize) -> bool
    ensures inside { result ≡ true → PiecesInside size (pieces prds.now) }
    ensures only { result ≡ false → PiecesInside size (pieces prds.now) → ⊥ }
{
    for prd in prds {
        if !is_inside(prd, size) {
            return false;
        }
    }
    true
}

/// How many moves are left of a command, if each of its pieces has a place in a memory of this size.
fn moves_left_of(command: &TakenCommand, size: usize) -> Option<u32>
    ensures covered { IfSome result (λ left. HasMovesLeftInMemory (taken_of command.now) size left) }
    ensures only { (left : ℕ) → HasMovesLeftInMemory (taken_of command.now) size left → result ≡ Some left }
{
    let prds = command.prds.as_slice();
    if !are_inside(prds, size) {
        return None;
    }
    count_pieces(prds).checked_sub(command.moved)
}

/// What is left of a command, whose block is this, if each of its moves has a place in the memory.
fn remaining_of(command: &TakenCommand, block: &[u8], memory: &[u8]) -> Option<Remaining>
    requires block { block.now ≡ brought command.now.block }
    requires few { length block.now ≤ 512 }
    ensures rest { IfSome result (λ rest. HasMovesAndTrimRunsLeft command.now memory.now rest.moves rest.clears) }
    ensures changes { IfSome result (λ rest. rest.changes
        ≡ sectors_left_to_change command.now.operation (bytes_of memory.now)
        (taken_of command.now) rest.moves) }
    ensures only { (left clears : ℕ) → HasMovesAndTrimRunsLeft command.now memory.now left clears
        → IsSomeAnd result (λ rest. (rest.moves ≡ left) × (rest.clears ≡ clears)) }
{
    let moves = moves_left_of(command, memory.len())?;
    let clears = clears_left_unless_too_many_cleared(command, block, memory)?;
    Some(Remaining {
        moves,
        clears: clears.runs,
        changes: sectors_to_write(command.operation, moves) as usize + clears.sectors as usize,
    })
}

/// How far what a step notes and keeps has to grow before it is done: the tape by so many entries, and the old bytes by
/// those of so many sectors, where they are kept.
#[derive(Clone, Copy, Debug)]
pub struct Reservations {
    pub entries: usize,
    pub old_sectors: usize,
}

/// What a command needs to be done to its end: an entry of each move and each clear, and one of the end; and the old
/// bytes of each sector that it changes.
fn reservations_of(rest: Remaining) -> Reservations
    ensures entries { result.entries ≡ rest.moves + rest.clears + 1 }
    ensures old_sectors { result.old_sectors ≡ rest.changes }
{
    Reservations {
        entries: rest.moves as usize + rest.clears as usize + 1,
        old_sectors: rest.changes,
    }
}

/// Finds memory for these; `false` says that there was none.
fn reserve_all(tape: &mut Vec<Entry>, cache: &mut Cache, growths: Reservations) -> bool
    ensures items { tape.new.items ≡ tape.old.items }
    ensures kept { vec_capacity tape.old ≤ vec_capacity tape.new }
    ensures same { KeepsSameOldSectors cache.old cache.new }
    ensures room { result ≡ true → vec_len tape.new + growths.entries ≤ vec_capacity tape.new }
    ensures old_room { result ≡ true → HasRoomForOldSectors cache.new growths.old_sectors }
    ensures lacked { result ≡ false → vec_len tape.old + growths.entries ≤ vec_capacity tape.old
        → HasRoomForOldSectors cache.old growths.old_sectors → ⊥ }
    ensures lacks { result ≡ false → vec_len tape.new + growths.entries ≤ vec_capacity tape.new
        → HasRoomForOldSectors cache.new growths.old_sectors → ⊥ }
{
    tape.reserve(growths.entries).is_ok() && cache.reserve(growths.old_sectors)
}

/// Tells that there was no memory, from then on.
fn note_no_memory(starved: &mut bool)
    ensures { starved.new ≡ true }
{
    *starved = true;
}

/// Whether a command that sends a page can be done to its end: whether each of its pieces has a place in a memory of
/// this size, and an address of 32 bits.
fn can_end(command: &TakenCommand, size: usize) -> bool
    ensures ends { result ≡ true → (left : ℕ) × HasMovesLeftInMemory (taken_of command.now) size left
        × PiecesInside (2 ^ 32) (pieces command.now.prds) }
    ensures only { result ≡ false → (left : ℕ) → HasMovesLeftInMemory (taken_of command.now) size left
        → PiecesInside (2 ^ 32) (pieces command.now.prds) → ⊥ }
{
    match moves_left_of(command, size) {
        Some(_left) => are_inside(command.prds.as_slice(), 1 << 32),
        None => false,
    }
}

/// The sector that a command moves next, 0 where it names none.
fn sector_of(command: &TakenCommand) -> u64
    requires { command.now.first < 2 ^ 48 }
    ensures { result ≡ next_sector (taken_of command.now) }
{
    if command.operation.moves_disk_sectors() {
        command.first + u64::from(command.moved)
    } else {
        0
    }
}

/// The bytes of memory that a command moves next.
#[inline(always)]
fn piece_in(memory: &[u8], next: NextMove) -> &[u8; 512]
    requires { next.address + 512 ≤ length memory.now }
    ensures { result.now ≡ bytes_at (bytes_of memory.now) next.address 512 }
{
    let at = next.address as usize;
    let Some(bytes) = memory[at..at + 512].as_array() else {
        unreachable!()
    };
    bytes
}

/// How long the tape was when a disk that is put in last ended a flush, or else when it was first in: as before, if it
/// is the one that was in last, and else as long as it is here.
fn lasting_since(same: bool, was: usize, here: usize) -> usize
    ensures { result ≡ (if same then was else here) }
{
    if same { was } else { here }
}

impl Hardware {
    /// Takes the command that is issued in a slot; `false` says that there is none that may be taken.
    pub fn fetch(&mut self, port: u8, slot: u8) -> bool
        requires port { port < 4 }
        requires slot { slot < 32 }
        ensures did { result ≡ true → (o : AllMedia)
            → DoesFetch port slot (device_of self.old o) (device_of self.new o) }
        ensures refused { result ≡ false → self.new ≡ self.old }
        ensures complete { result ≡ false → (o : AllMedia) (m : Meaning) (places : List ℕ)
            → Can (FetchStep port slot m places) (device_of self.old o) → ⊥ }
        ensures tape { self.new.tape ≡ self.old.tape }
        ensures starved { self.new.starved ≡ self.old.starved }
    {
        is_fetchable_if_halt_admits(&self.ports, usize::from(port), slot)
            && self.fetch_decoded(port, slot)
    }

    /// Takes the command that the bytes of a slot say, which is fetchable if the port's halt admits it; `false` says
    /// that they say none that the model takes now. It is entered only then, since its frame has room for a command.
    #[inline(never)]
    fn fetch_decoded(&mut self, port: u8, slot: u8) -> bool
        requires there { (port < 4) × (slot < 32) }
        requires may { IsFetchableIfHaltAdmits (slice_index_or self.old.ports port reset_port_without_disk) slot }
        ensures did { result ≡ true → (o : AllMedia)
            → DoesFetch port slot (device_of self.old o) (device_of self.new o) }
        ensures refused { result ≡ false → self.new ≡ self.old }
        ensures only { result ≡ false → (o : AllMedia) (m : Meaning) (places : List ℕ)
            → Can (FetchStep port slot m places) (device_of self.old o) → ⊥ }
        ensures tape { self.new.tape ≡ self.old.tape }
        ensures starved { self.new.starved ≡ self.old.starved }
    {
        let place = usize::from(port);
        let list = self.ports[place].addresses.clb;
        let Some(command) = read_command(&self.memory, list, slot) else {
            return false;
        };
        if !self.ports[place].admits_by_halt_and_taken(command.operation) {
            return false;
        }
        self.ports[place].take(slot, &command);
        true
    }

    /// Whether the IDENTIFY DEVICE or READ LOG EXT that the bytes of a slot say, which may be taken, can be done to its
    /// end; `None` where they say none, or a fault or another command keeps it waiting.
    #[inline(never)]
    fn decodes_page(&self, port: usize, slot: u8) -> Option<bool>
        requires port { port < 4 }
        requires slot { slot < 32 }
        requires may { IsFetchableIfHaltAdmits (slice_index_or self.now.ports port reset_port_without_disk) slot }
        ensures { (o : AllMedia) → FindsPageCommandAndWhetherItCanEnd (device_of self.now o) port slot result }
    {
        let list = self.ports[port].addresses.clb;
        let command = decode_page_command(&self.memory, list, slot)?;
        if self.ports[port].admits_by_halt_and_taken(command.operation) {
            Some(can_end(&command, self.memory.len()))
        } else {
            None
        }
    }

    /// Whether the IDENTIFY DEVICE or READ LOG EXT of a slot can be done to its end; `None` where the slot has none
    /// that may be taken, and none that is taken and worked on and can be done to its end.
    fn has_page(&self, port: usize, slot: u8) -> Option<bool>
        requires port { port < 4 }
        requires slot { slot < 32 }
        ensures { (o : AllMedia) → FindsPageCommandAndWhetherItCanEnd (device_of self.now o) port slot result }
    {
        if !self.ports[port].is_issued_or_taken(slot) {
            return None;
        }
        if is_fetchable_if_halt_admits(&self.ports, port, slot) {
            if !may_be_page_command(&self.memory, self.ports[port].addresses.clb, slot) {
                return None;
            }
            return self.decodes_page(port, slot);
        }
        let command = working_on(&self.ports, port, slot)?;
        if !command.operation.sends_page() {
            return None;
        }
        if can_end(command, self.memory.len()) {
            Some(true)
        } else {
            None
        }
    }

    /// The first slot of a port with an IDENTIFY DEVICE or READ LOG EXT that may be taken, or can be done to its end.
    /// It is looked for as far as commands are issued or taken.
    pub fn next_page_command(&self, port: u8) -> Option<PendingPageCommand>
        requires { port < 4 }
        ensures port { IfSome result (λ found. found.port ≡ port) }
        ensures small { IfSome result (λ found. found.slot < 32) }
        ensures found { IfSome result (λ found. (o : AllMedia)
            → FindsPageCommandAndWhetherItCanEnd (device_of self.now o) port found.slot
            (Some found.can_end)) }
        ensures first { IfSome result (λ found. (o : AllMedia) (slot : ℕ) → slot < found.slot
            → FindsPageCommandAndWhetherItCanEnd (device_of self.now o) port slot None) }
        ensures none { result ≡ None → (o : AllMedia) (slot : ℕ) → slot < 32
            → FindsPageCommandAndWhetherItCanEnd (device_of self.now o) port slot None }
    {
        let place = usize::from(port);
        for slot in 0..32 {
            if self.ports[place].none_issued_or_taken_from(slot) {
                return None;
            }
            if let Some(can_end) = self.has_page(place, slot) {
                return Some(PendingPageCommand {
                    port,
                    slot,
                    can_end,
                });
            }
        }
        None
    }

    /// The next move of a slot's command, if one is left and its place is in the memory. It is looked for where it
    /// isn't known.
    #[inline(always)]
    pub fn next_move(&self, port: u8, slot: u8, known: Option<NextMove>) -> Option<NextMove>
        requires port { port < 4 }
        requires slot { slot < 32 }
        requires known { IfSome known (λ n. (t : TakenCommand) × IsNextMove self.now port slot n t) }
        ensures found { IfSome result (λ n. (t : TakenCommand) × IsNextMove self.now port slot n t) }
        ensures none { result ≡ None → (t : TakenCommand)
            → WorksOnIn (slice_index_or self.now.ports port reset_port_without_disk) slot t
            → t.moved < length (pieces t.prds) →
            slice_index (pieces t.prds) t.moved < 2 ^ 32 → slice_index (pieces t.prds) t.moved + 512
            ≤ length self.now.memory.items → ⊥ }
    {
        match known {
            Some(next) => Some(next),
            None => self.find_move(port, slot),
        }
    }

    /// Looks for the next move of a slot's command. It stands in its callers' code, so that a move that is known stays
    /// in registers there: `place_at` alone is called, once for each region.
    #[inline(always)]
    fn find_move(&self, port: u8, slot: u8) -> Option<NextMove>
        requires port { port < 4 }
        requires slot { slot < 32 }
        ensures found { IfSome result (λ n. (t : TakenCommand) × IsNextMove self.now port slot n t) }
        ensures none { result ≡ None → (t : TakenCommand)
            → WorksOnIn (slice_index_or self.now.ports port reset_port_without_disk) slot t
            → t.moved < length (pieces t.prds) →
            slice_index (pieces t.prds) t.moved < 2 ^ 32 → slice_index (pieces t.prds) t.moved + 512
            ≤ length self.now.memory.items → ⊥ }
    {
        let command = working_on(&self.ports, usize::from(port), slot)?;
        let place = place_at(command.prds.as_slice(), command.moved)?;
        if place.address >= 1 << 32 || place.address as usize + 512 > self.memory.len() {
            return None;
        }
        Some(NextMove {
            operation: command.operation,
            sector: sector_of(command),
            address: place.address as u32,
            pieces_following: pieces_following(command.operation, place, self.memory.len()),
        })
    }

    /// Notes that the next piece of a command was moved, which the disk and the memory have exchanged: on the tape, and
    /// of the command. It gives the move after it, if that needs no look.
    #[inline(always)]
    pub fn note_move(&mut self, port: u8, slot: u8, next: NextMove) -> Option<NextMove>
        requires there { (port < 4) × (slot < 32) }
        requires next { (t : TakenCommand) × IsNextMove self.old port slot next t }
        requires room { TapeHasRoom self.old 1 }
        ensures moved { (old : Hardware) (o : AllMedia) (t : TakenCommand) → IsTransferred old self.old next →
            IsNextMove old port slot next t →
            device_of self.new (all_media_after_move o port (taken_of t) (piece_in_memory self.old next))
            ≡ device_after (MoveStep port slot (taken_of t) (piece_in_memory self.old next)) (device_of old o) }
        ensures room_is_left { (n : ℕ) → TapeHasRoom self.old (n + 1) → TapeHasRoom self.new n }
        ensures starved { self.new.starved ≡ self.old.starved }
        ensures after { IfSome result (λ n. (t : TakenCommand) × IsNextMove self.new port slot n t) }
    {
        let entry = Entry::Move(Move {
            port: Port(port),
            slot: Slot(slot),
            operation: next.operation,
            sector: next.sector,
            address: next.address,
            direction: next.operation.direction(),
            bytes: Snapshot::of(piece_in(&self.memory, next)),
        });
        self.tape.push_reserved(entry);
        let model = &mut self.ports[usize::from(port)];
        model.advance(slot, next.operation, piece_in(&self.memory, next));
        next.after()
    }

    /// What the slot's command is, where nothing is left of it to move or to clear.
    fn operation_if_finished(&self, port: u8, slot: u8) -> Option<Operation>
        requires port { port < 4 }
        requires slot { slot < 32 }
        ensures found { IfSome result (λ operation. (t : TakenCommand)
            × WorksOnIn (slice_index_or self.now.ports port reset_port_without_disk) slot t × IsFinished (taken_of t)
            × (operation ≡ t.operation)) }
        ensures none { result ≡ None → (t : TakenCommand)
            → WorksOnIn (slice_index_or self.now.ports port reset_port_without_disk) slot t
            → IsFinished (taken_of t) → ⊥ }
    {
        let command = working_on(&self.ports, usize::from(port), slot)?;
        if is_finished(command, self.ports[usize::from(port)].taken.block(slot)) {
            Some(command.operation)
        } else {
            None
        }
    }

    /// What is left of a slot's command that is taken, if each move and each clear is possible.
    fn remaining_at(&self, port: u8, slot: u8) -> Option<Remaining>
        requires port { port < 4 }
        requires slot { slot < 32 }
        ensures found { IfSome result
            (λ rest. (t : TakenCommand) × WorksOnIn (slice_index_or self.now.ports port reset_port_without_disk)
            slot t
            × HasMovesAndTrimRunsLeft t self.now.memory.items rest.moves rest.clears) }
        ensures changes { IfSome result (λ rest. (t : TakenCommand)
            → WorksOnIn (slice_index_or self.now.ports port reset_port_without_disk) slot t → rest.changes
            ≡ sectors_left_to_change
            t.operation (bytes_of self.now.memory.items) (taken_of t) rest.moves) }
        ensures only { (t : TakenCommand) (left clears : ℕ)
            → WorksOnIn (slice_index_or self.now.ports port reset_port_without_disk) slot t
            → HasMovesAndTrimRunsLeft t self.now.memory.items left clears
            → IsSomeAnd result (λ rest. (rest.moves ≡ left) × (rest.clears ≡ clears)) }
    {
        let command = working_on(&self.ports, usize::from(port), slot)?;
        let block = self.ports[usize::from(port)].taken.block(slot);
        remaining_of(command, block, &self.memory)
    }

    /// Ends a slot's command, of which nothing is left to move or to clear, sends its FIS, and tells what it was.
    /// `None` says that there is none, or that the tape found no memory.
    pub fn done(&mut self, port: u8, slot: u8) -> Option<Operation>
        requires port { port < 4 }
        requires slot { slot < 32 }
        ensures did { IfSome result
            (λ operation. (o : AllMedia) → EndsAndPosts (SendsEnd slot) port slot (device_of self.old o)
            (device_of self.new (all_media_after_end o port operation))) }
        ensures refused { result ≡ None → (o : AllMedia) → device_of self.new o ≡ device_of self.old o }
        ensures step_is_skipped { result ≡ None → (o : AllMedia)
            → IsImpossibleOrLacksTape self.old self.new ((flag : ℕ) × (t : FetchedCommand)
            × Can (DoneStep port slot flag t) (device_of self.old o)) }
        ensures starved_is_kept { IfSome result (λ operation. self.new.starved ≡ self.old.starved) }
    {
        let Some(operation) = self.operation_if_finished(port, slot) else {
            return None;
        };
        let here = self.tape.len();
        let entry = Entry::Done(Done {
            port: Port(port),
            slot: Slot(slot),
            operation,
        });
        if !record(&mut self.tape, &mut self.starved, entry) {
            return None;
        }
        let place = usize::from(port);
        self.ports[place].end(slot, operation, here);
        self.send_end(place, slot, operation);
        Some(operation)
    }

    /// Whether a slot has a queued command that is taken, or a plain one, on an engine that hasn't fallen.
    fn queued_if_running(&self, port: u8, slot: u8) -> Option<bool>
        requires port { port < 4 }
        requires slot { slot < 32 }
        ensures found { IfSome result (λ queued. (t : TakenCommand)
            × (taken_in (slice_index_or self.now.ports port reset_port_without_disk).taken slot ≡ Some t)
            × ((slice_index_or self.now.ports port reset_port_without_disk).cr ≡ true)
            × (queued ≡ is_queued t.operation)) }
        ensures none { result ≡ None → (t : TakenCommand)
            → taken_in (slice_index_or self.now.ports port reset_port_without_disk).taken
            slot ≡ Some t →
            (slice_index_or self.now.ports port reset_port_without_disk).cr ≡ true → ⊥ }
    {
        let command = self.ports[usize::from(port)].taken.get(slot)?;
        if self.ports[usize::from(port)].cr {
            Some(command.operation.is_queued())
        } else {
            None
        }
    }

    /// Fails a slot's command, which is taken, with an error, and leaves its disk busy or not; it tells whether the
    /// command is queued. `None` says that there is none, that the engine has fallen, or that the tape found no memory.
    pub fn fail(&mut self, port: u8, slot: u8, error: u8, busy: bool) -> Option<bool>
        requires port { port < 4 }
        requires slot { slot < 32 }
        ensures did { IfSome result (λ queued. (o : AllMedia)
            → (f : DoesFault port slot error (bsy_if_disk_left_busy busy) (device_of self.old o) (device_of self.new o))
            × (queued ≡ is_queued f.fetched_command.meaning.operation)) }
        ensures refused { result ≡ None → (o : AllMedia) → device_of self.new o ≡ device_of self.old o }
        ensures step_is_skipped { result ≡ None → (o : AllMedia)
            → IsImpossibleOrLacksTape self.old self.new ((t : FetchedCommand)
            × Can (FaultStep port slot error (bsy_if_disk_left_busy busy) t)
            (device_of self.old o)) }
        ensures starved_is_kept { IfSome result (λ _. self.new.starved ≡ self.old.starved) }
    {
        let queued = self.queued_if_running(port, slot)?;
        let entry = Entry::Fault(Fault {
            port: Port(port),
            slot: Slot(slot),
            status: failed_status(busy),
            error,
        });
        if !record(&mut self.tape, &mut self.starved, entry) {
            return None;
        }
        self.ports[usize::from(port)].fail(queued, error, busy);
        Some(queued)
    }

    /// Fails what is issued in a slot, and may be taken, if its bytes mean no command that there is (AHCI 1.3.1, 6.2.2;
    /// ACS-3, 6.2): with ABRT. `false` says that they mean one, that there is none, or that the tape found no memory.
    #[inline(never)]
    pub fn abort_invalid(&mut self, port: u8, slot: u8) -> bool
        requires port { port < 4 }
        requires slot { slot < 32 }
        ensures did { result ≡ true → (o : AllMedia) → Can (FetchFaultStep port slot false 0) (device_of self.old o)
            × (device_of self.new o ≡ device_after (FetchFaultStep port slot false 0) (device_of self.old o)) }
        ensures refused { result ≡ false → (o : AllMedia) → device_of self.new o ≡ device_of self.old o }
        ensures step_is_skipped { result ≡ false → (o : AllMedia)
            → IsImpossibleOrLacksTape self.old self.new (Can (FetchFaultStep port slot false 0)
            (device_of self.old o)) }
        ensures starved_is_kept { result ≡ true → self.new.starved ≡ self.old.starved }
    {
        let place = usize::from(port);
        if !is_fetchable_if_halt_admits(&self.ports, place, slot) {
            return false;
        }
        if !self.ports[place].halting.admits(Operation::Identify) {
            return false;
        }
        let list = self.ports[place].addresses.clb;
        if decodes_command(&self.memory, list, slot) {
            return false;
        }
        let entry = Entry::Fault(Fault {
            port: Port(port),
            slot: Slot(slot),
            status: FAILED_STATUS,
            error: ABORTED,
        });
        if !record(&mut self.tape, &mut self.starved, entry) {
            return false;
        }
        self.ports[place].fail(false, ABORTED, false);
        true
    }

    /// Takes the command that the bytes of a slot say, which is fetchable if the port's halt admits it, where that and
    /// those that are taken do, each of its moves and clears is possible, the tape finds memory for them and the end,
    /// and the cache of the port's disks for what the sectors held that they change. Want of memory is told.
    #[inline(never)]
    fn begin_decoded(&mut self, port: u8, slot: u8, cache: &mut Cache) -> Option<BegunCommand>
        requires port { port < 4 }
        requires slot { slot < 32 }
        requires may { IsFetchableIfHaltAdmits (slice_index_or self.old.ports port reset_port_without_disk) slot }
        ensures begun { IfSome result (λ b. IsCommandBegun port slot b.remaining.moves b.remaining.clears
            b.is_newly_taken self.old self.new) }
        ensures ahead { IfSome result (λ b. (o : AllMedia)
            → CacheHasRoomForRestOfCommand cache.new port slot b.remaining.moves (device_of self.new o)) }
        ensures same { KeepsSameOldSectors cache.old cache.new }
        ensures left { result ≡ None → NoneMayFinishOrLacksRoom port slot self.old self.new cache.old cache.new }
    {
        let model = &mut self.ports[usize::from(port)];
        let list = model.addresses.clb;
        let Some(command) = self.command_buffer.read(&self.memory, list, slot) else {
            return None;
        };
        if !model.admits_by_halt_and_taken(command.operation) {
            return None;
        }
        let remaining = remaining_of(command, &[], &self.memory)?;
        if !reserve_all(&mut self.tape, cache, reservations_of(remaining)) {
            note_no_memory(&mut self.starved);
            return None;
        }
        model.take(slot, command);
        Some(BegunCommand {
            remaining,
            is_newly_taken: true,
        })
    }

    /// Begins to do a slot's command to its end, where each move and each clear that it has left is possible: the tape
    /// finds memory for them and the end, and the cache of the port's disks for what the sectors held that they change,
    /// and the command is taken, unless it is already. Want of memory is told.
    pub fn begin(&mut self, port: u8, slot: u8, cache: &mut Cache) -> Option<BegunCommand>
        requires port { port < 4 }
        requires slot { slot < 32 }
        ensures begun { IfSome result (λ b. IsCommandBegun port slot b.remaining.moves b.remaining.clears
            b.is_newly_taken self.old self.new) }
        ensures ahead { IfSome result (λ b. (o : AllMedia)
            → CacheHasRoomForRestOfCommand cache.new port slot b.remaining.moves (device_of self.new o)) }
        ensures old_sectors_are_kept { KeepsSameOldSectors cache.old cache.new }
        ensures is_unbegun { result ≡ None → NoneMayFinishOrLacksRoom port slot self.old self.new cache.old cache.new }
    {
        let place = usize::from(port);
        if is_fetchable_if_halt_admits(&self.ports, place, slot) {
            return self.begin_decoded(port, slot, cache);
        }
        let remaining = self.remaining_at(port, slot)?;
        if !reserve_all(&mut self.tape, cache, reservations_of(remaining)) {
            self.starved = true;
            return None;
        }
        Some(BegunCommand {
            remaining,
            is_newly_taken: false,
        })
    }

    /// A port meets a fatal error; `false` says that its engine has fallen, or that the tape found no memory.
    pub fn raise_fatal(&mut self, port: u8, error: FatalError) -> bool
        requires { port < 4 }
        ensures did { result ≡ true → (o : AllMedia)
            → DoesFatal port error (device_of self.old o) (device_of self.new o) }
        ensures refused { result ≡ false → (o : AllMedia) → device_of self.new o ≡ device_of self.old o }
        ensures step_is_skipped { result ≡ false → (o : AllMedia)
            → IsImpossibleOrLacksTape self.old self.new (Can (FatalStep port (fatal_bit error))
            (device_of self.old o)) }
        ensures starved_is_kept { result ≡ true → self.new.starved ≡ self.old.starved }
    {
        let place = usize::from(port);
        if !self.ports[place].cr {
            return false;
        }
        if !record(&mut self.tape, &mut self.starved, Entry::Fatal(Port(port))) {
            return false;
        }
        self.ports[place].enter_fatal(error);
        true
    }

    /// The disk is taken out of a port; `false` says that there was none, or that the tape found no memory.
    pub fn unplug(&mut self, port: u8) -> bool
        requires { port < 4 }
        ensures did { result ≡ true → (o : AllMedia) → Can (UnplugStep port) (device_of self.old o)
            × (device_of self.new o ≡ device_after (UnplugStep port) (device_of self.old o)) }
        ensures refused { result ≡ false → (o : AllMedia) → device_of self.new o ≡ device_of self.old o }
        ensures step_is_skipped { result ≡ false → (o : AllMedia)
            → IsImpossibleOrLacksTape self.old self.new (Can (UnplugStep port) (device_of self.old o)) }
        ensures starved_is_kept { result ≡ true → self.new.starved ≡ self.old.starved }
    {
        let place = usize::from(port);
        if !self.ports[place].present {
            return false;
        }
        if !record(&mut self.tape, &mut self.starved, Entry::Unplug(Port(port))) {
            return false;
        }
        self.ports[place].note_disk_out();
        true
    }

    /// A disk is put into a port, the one that was in last or another; `false` says that there was a disk, or that the
    /// tape found no memory.
    pub fn plug(&mut self, port: u8, number: u32, same: bool) -> bool
        requires { port < 4 }
        ensures no_disk_was_in { result ≡ true → (o : AllMedia) → ((device_of self.old o).port port).present ≡ false }
        ensures did { result ≡ true → (o : AllMedia) (disk : Disk) → disk.name ≡ number →
            same ≡ nat_eq disk.name (o.media port).disk.name →
            device_of self.new (all_media_after_plug o port disk) ≡ device_after (PlugStep port disk)
            (device_of self.old o) }
        ensures refused { result ≡ false → (o : AllMedia) → device_of self.new o ≡ device_of self.old o }
        ensures step_is_skipped { result ≡ false → (o : AllMedia)
            → IsImpossibleOrLacksTape self.old self.new (((device_of self.old o).port port).present ≡ false) }
        ensures starved_is_kept { result ≡ true → self.new.starved ≡ self.old.starved }
    {
        let place = usize::from(port);
        if self.ports[place].present {
            return false;
        }
        let here = self.tape.len();
        let lasting_at = lasting_since(same, self.ports[place].lasting_tape_length, here);
        let entry = Entry::Plug(Port(port), number);
        if !record(&mut self.tape, &mut self.starved, entry) {
            return false;
        }
        self.ports[place].note_disk_in_with_det_3(lasting_at);
        true
    }

    /// Finds memory for so many entries of the tape; `false` says that there was none. That something was left out for
    /// that is not told yet.
    pub fn reserve(&mut self, entries: usize) -> bool
        ensures device_is_kept { (o : AllMedia) → device_of self.new o ≡ device_of self.old o }
        ensures room { result ≡ true → TapeHasRoom self.new entries }
        ensures room_is_kept { (n : ℕ) → TapeHasRoom self.old n → TapeHasRoom self.new n }
        ensures enough { TapeHasRoom self.old entries → result ≡ true }
        ensures lacks { result ≡ false → TapeHasRoom self.new entries → ⊥ }
        ensures starved { self.new.starved ≡ self.old.starved }
        ensures rest { self.new ≡ record self.old { tape = self.new.tape } }
    {
        self.tape.reserve(entries).is_ok()
    }
}
