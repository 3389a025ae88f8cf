//! Which command slots of a port are taken, by queued and by plain commands.
//!
//! `take` and `take_plain` give the lowest free usable one. Which request a slot serves is its port's
//! own table. It knows no register.
#![tactic(auto)]

ghost use Rattle.std.specs.{Prelude.{◌≡◌, ◌↔◌, ℕ, ◌<◌, ◌≤◌, IfSome, IfNone}, Int.{bit_at}};
ghost use Rattle.slots.specs.SlotMasks.{HasOneLess, HasOneMore, IsLowestClear, IsLowestFreeSlot, IsTakenSlot};

use ata_types::{RequestId, Slot};
use std::marker::Model;

/// What a slot is used for: the command of this request.
#[derive(Clone, Copy, Debug, Default, PartialEq, Eq)]
pub struct SlotUse {
    pub id: RequestId,
    /// Whether its command is queued.
    pub queued: bool,
}

/// The slots of a port: 32, of which the lowest `usable` are given out. In a mask bit k stands for slot k, as in PxCI
/// and PxSACT.
#[derive(Drop)]
pub struct Slots {
    usable: u8,
    /// The slots that queued commands have.
    queued: u32,
    /// The slots that plain commands have.
    plain: u32,
}

impl Model for Slots {
    ghost use Rattle.std.specs.Prelude.{◌≤◌};
    ghost use Rattle.slots.specs.SlotMasks.{AreApart, SlotMasks};

    ghost Value = { SlotMasks };

    ghost view = { λ s. record { usable_count = s.usable; queued = s.queued; plain = s.plain } };

    ghost invariant = { λ s. (s.usable ≤ 32) × AreApart s.queued s.plain };
}

impl Slots {
    /// Slots of which none is taken; `usable` of them, 32 at most, may be.
    pub fn new(usable: u8) -> Self
        requires { usable ≤ 32 }
        ensures { result ≡ record { usable_count = usable; queued = 0; plain = 0 } }
    {
        Slots {
            usable,
            queued: 0,
            plain: 0,
        }
    }

    /// Takes the lowest free usable slot for a queued command. `None` if each usable one is taken; then nothing
    /// changes.
    pub fn take(&mut self) -> Option<Slot>
        ensures lowest { IfSome result (λ slot. IsLowestFreeSlot self.old slot.0) }
        ensures taken { IfSome result (λ slot. HasOneMore self.old.queued self.new.queued slot.0) }
        ensures rest { IfSome result (λ slot. self.new ≡ record self.old { queued = self.new.queued }) }
        ensures all_are_taken { IfNone result ((slot : ℕ) → slot < self.old.usable_count → IsTakenSlot self.old slot) }
        ensures unchanged { IfNone result (self.new ≡ self.old) }
    {
        let Some(place) = self.lowest_free() else {
            return None;
        };
        self.queued |= 1u32 << place;
        Some(Slot(place))
    }

    /// Takes the lowest free usable slot for a plain command. `None` if each usable one is taken; then nothing changes.
    pub fn take_plain(&mut self) -> Option<Slot>
        ensures lowest { IfSome result (λ slot. IsLowestFreeSlot self.old slot.0) }
        ensures taken { IfSome result (λ slot. HasOneMore self.old.plain self.new.plain slot.0) }
        ensures rest { IfSome result (λ slot. self.new ≡ record self.old { plain = self.new.plain }) }
        ensures all_are_taken { IfNone result ((slot : ℕ) → slot < self.old.usable_count → IsTakenSlot self.old slot) }
        ensures unchanged { IfNone result (self.new ≡ self.old) }
    {
        let Some(place) = self.lowest_free() else {
            return None;
        };
        self.plain |= 1u32 << place;
        Some(Slot(place))
    }

    /// The lowest free usable slot.
    fn lowest_free(&self) -> Option<u8>
        ensures lowest { IfSome result (λ slot. IsLowestFreeSlot self.now slot) }
        ensures all_are_taken { IfNone result ((slot : ℕ) → slot < self.now.usable_count → IsTakenSlot self.now slot) }
    {
        lowest_clear(self.taken(), self.usable)
    }

    /// Frees a slot.
    pub fn free(&mut self, slot: Slot)
        requires { slot.0 < 32 }
        ensures queued { HasOneLess self.old.queued self.new.queued slot.0 }
        ensures plain { HasOneLess self.old.plain self.new.plain slot.0 }
        ensures usable { self.new.usable_count ≡ self.old.usable_count }
    {
        let others = !(1u32 << slot.0);
        self.queued &= others;
        self.plain &= others;
    }

    /// The slots that queued commands have.
    pub fn queued(&self) -> u32
        ensures { result ≡ self.now.queued }
    {
        self.queued
    }

    /// The slots that plain commands have.
    pub fn plain(&self) -> u32
        ensures { result ≡ self.now.plain }
    {
        self.plain
    }

    /// The slots that are taken.
    pub fn taken(&self) -> u32
        ensures { (slot : ℕ) → (bit_at result slot ≡ 1) ↔ IsTakenSlot self.now slot }
    {
        self.queued | self.plain
    }

    /// How many slots may be used.
    pub fn usable(&self) -> u8
        ensures value { result ≡ self.now.usable_count }
        ensures count_is_allowed { result ≤ 32 }
    {
        self.usable
    }
}

/// The lowest place below `usable` whose bit isn't set: it is found by the lowest bit of the others, and not place by
/// place.
fn lowest_clear(mask: u32, usable: u8) -> Option<u8>
    requires { usable ≤ 32 }
    ensures found { IfSome result (λ s. (s < usable) × IsLowestClear mask s) }
    ensures none { IfNone result ((k : ℕ) → k < usable → bit_at mask k ≡ 1) }
{
    let place = (!mask).trailing_zeros();
    if place < u32::from(usable) {
        return Some(place as u8);
    }
    None
}
