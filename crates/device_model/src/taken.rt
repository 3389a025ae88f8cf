// The commands that a port has taken.
ghost use Rattle.std.specs.Prelude.{◌≡◌, ◌≢◌, ◌<◌, ◌≤◌, ◌+◌, ◌^◌, ◌↔◌, ℕ, IsTrue, IfOk, IfSome, None, Some, is_some, true, length};
ghost use Rattle.adapter.specs.{Commands.{is_queued}, Memory.{changed}, Steps.{snapshot_of_bytes}};
ghost use Rattle.device_model.specs.{TakenBlocks.{brought, taken_in_slot}, PortView.{taken_in}, declared.port.TakenCommand.{TakenCommand}};

use crate::bits::{is_clear_from, with_bit_as};
use crate::port::TakenCommand;
use adapter::Operation;
use ata_types::SLOTS;
use hba_regs::is_set;
use std::alloc::{AllocError, Global};
use std::marker::Model;
use std::snapshot::Snapshot;

/// The commands that a port has taken, each in its slot. Their memory is found once, as they are made.
#[derive(Drop)]
pub struct TakenCommands {
    /// A room for the command of each slot.
    slots: Vec<TakenCommand>,
    /// In which slots a command is taken, by their bits. What else is in a room is none, so that none has to be put
    /// there.
    filled: u32,
    /// The block of the one trim that is taken, where it was moved.
    block: [u8; 512],
}

impl Model for TakenCommands {
    ghost use Rattle.std.specs.Prelude.{◌≡◌, List, Option, length};
    ghost use Rattle.device_model.specs.{TakenBlocks.{BlockIsOfTakenTrim, taken_in_slot, taken_list_from}, declared.port.TakenCommand.{TakenCommand}};

    ghost Value = { List (Option TakenCommand) };

    ghost view = { λ s. taken_list_from 0 s.filled s.slots.items };

    ghost invariant = { λ s. (length s.slots.items ≡ 32)
        × BlockIsOfTakenTrim (taken_in_slot s.filled s.slots.items) s.block };
}

impl TakenCommands {
    /// None is taken.
    pub fn new(alloc: Global) -> Result<TakenCommands, AllocError>
        ensures { IfOk result (λ taken. taken_in taken ≡ (λ slot. None)) }
    {
        let mut slots = Vec::with_capacity(alloc, SLOTS)?;
        for _slot in 0..SLOTS {
            slots.push(TakenCommand::room())?;
        }
        Ok(TakenCommands {
            slots,
            filled: 0,
            block: [0; 512],
        })
    }

    /// The command that is taken in a slot.
    pub fn get(&self, slot: u8) -> Option<&TakenCommand>
        requires { slot < 32 }
        ensures found { IfSome result (λ command. taken_in self.now slot ≡ Some command.now) }
        ensures first_in_range { IfSome result (λ command. command.now.first < 2 ^ 48) }
        ensures none { result ≡ None → taken_in self.now slot ≡ None }
    {
        if is_set(self.filled, u32::from(slot)) {
            Some(&self.slots[usize::from(slot)])
        } else {
            None
        }
    }

    /// Whether a command is taken in a slot: its bit tells.
    pub fn is_taken(&self, slot: u8) -> bool
        requires { slot < 32 }
        ensures { result ≡ is_some (taken_in self.now slot) }
    {
        is_set(self.filled, u32::from(slot))
    }

    /// Whether none is taken in a slot and in those after it.
    pub fn is_empty_from(&self, slot: u8) -> bool
        requires { slot < 32 }
        ensures { IsTrue result ↔ ((k : ℕ) → slot ≤ k → taken_in self.now k ≡ None) }
    {
        is_clear_from(self.filled, u32::from(slot))
    }

    /// A command is taken in a slot, of which nothing was moved yet; a trim alone. No more of it is copied than there
    /// is.
    pub fn put(&mut self, slot: u8, command: &TakenCommand)
        requires slot { slot < 32 }
        requires new { command.now.block ≡ None }
        requires low { command.now.first < 2 ^ 48 }
        requires alone { (other : ℕ) (u : TakenCommand) → other ≢ slot → taken_in self.old other ≡ Some u →
            (command.now.operation ≡ Operation.Trim → ⊥) × (u.operation ≡ Operation.Trim → ⊥) }
        ensures { taken_in self.new ≡ changed (taken_in self.old) slot (Some command.now) }
    {
        let room = &mut self.slots[usize::from(slot)];
        room.operation = command.operation;
        room.first = command.first;
        room.count = command.count;
        room.prds.copy_from(&command.prds);
        room.moved = command.moved;
        room.block = None;
        room.cleared = command.cleared;
        self.filled = with_bit_as(self.filled, u32::from(slot), true);
    }

    /// One more piece of a slot's command was moved.
    pub fn add_moved(&mut self, slot: u8)
        requires slot { slot < 32 }
        requires room { IfSome (taken_in self.old slot) (λ t. t.moved + 1 < 2 ^ 32) }
        ensures { (t : TakenCommand) → taken_in self.old slot ≡ Some t
            → taken_in self.new ≡ changed (taken_in self.old) slot (Some (record t { moved = t.moved + 1 })) }
    {
        if is_set(self.filled, u32::from(slot)) {
            self.slots[usize::from(slot)].moved += 1;
        }
    }

    /// The block of a slot's trim was moved.
    pub fn add_block(&mut self, slot: u8, bytes: &[u8; 512])
        requires slot { slot < 32 }
        requires trim { (t : TakenCommand) × (taken_in self.old slot ≡ Some t) × (t.operation ≡ Operation.Trim)
            × (t.moved + 1 < 2 ^ 32) }
        ensures { (t : TakenCommand) → taken_in self.old slot ≡ Some t →
            taken_in self.new ≡ changed (taken_in self.old) slot
            (Some (record t { moved = t.moved + 1; block = Some (snapshot_of_bytes bytes.now) })) }
    {
        self.block = *bytes;
        let command = &mut self.slots[usize::from(slot)];
        command.moved += 1;
        command.block = Some(Snapshot::of(bytes));
    }

    /// So many more sectors of a slot's trim were cleared.
    pub fn add_cleared(&mut self, slot: u8, count: u32)
        requires slot { slot < 32 }
        requires room { IfSome (taken_in self.old slot) (λ t. t.cleared + count < 2 ^ 32) }
        ensures { (t : TakenCommand) → taken_in self.old slot ≡ Some t
            → taken_in self.new ≡ changed (taken_in self.old) slot (Some (record t { cleared = t.cleared + count })) }
    {
        if is_set(self.filled, u32::from(slot)) {
            self.slots[usize::from(slot)].cleared += count;
        }
    }

    /// The block that a slot's command has brought; none where it hasn't.
    pub fn block(&self, slot: u8) -> &[u8]
        requires { slot < 32 }
        ensures block { (t : TakenCommand) → taken_in self.now slot ≡ Some t → result.now ≡ brought t.block }
        ensures few { length result.now ≤ 512 }
    {
        match self.get(slot) {
            Some(command) if command.block.is_some() => &self.block,
            _ => &[],
        }
    }

    /// A slot's command is taken no more.
    pub fn remove(&mut self, slot: u8)
        requires { slot < 32 }
        ensures { taken_in self.new ≡ changed (taken_in self.old) slot None }
    {
        self.filled = with_bit_as(self.filled, u32::from(slot), false);
    }

    /// No command is taken any more.
    pub fn clear(&mut self)
        ensures { taken_in self.new ≡ (λ slot. None) }
    {
        self.filled = 0;
    }

    /// Whether none is taken.
    pub fn is_empty(&self) -> bool
        ensures { IsTrue result ↔ ((slot : ℕ) → taken_in self.now slot ≡ None) }
    {
        self.filled == 0
    }

    /// Whether each that is taken is queued.
    pub fn are_all_queued(&self) -> bool
        ensures { IsTrue result ↔ ((slot : ℕ) (t : TakenCommand) → taken_in self.now slot ≡ Some t
            → is_queued t.operation ≡ true) }
    {
        self.is_empty() || hold_queued(&self.slots, self.filled)
    }
}

/// Whether each command that is taken, of these rooms, is queued.
fn hold_queued(rooms: &[TakenCommand], filled: u32) -> bool
    requires { length rooms.now ≡ 32 }
    ensures { IsTrue result ↔ ((slot : ℕ) (t : TakenCommand) → taken_in_slot filled rooms.now slot ≡ Some t
        → is_queued t.operation ≡ true) }
{
    for slot in 0..SLOTS {
        if is_set(filled, slot as u32) && !rooms[slot].operation.is_queued() {
            return false;
        }
    }
    true
}
