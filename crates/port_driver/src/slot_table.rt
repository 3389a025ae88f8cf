// The command slots of a port, and the request that each serves.
ghost use Rattle.std.specs.{Prelude.{◌≡◌, ◌↔◌, ℕ, ◌<◌, ◌≤◌, length, IfSome, IfNone, Some, None, slice_index_or}, Int.{bit_at}};
ghost use Rattle.slots.specs.{SlotMasks.{IsLowestFreeSlot, IsTakenSlot}, SlotUses.{HasLeastId, IsLowestFree, IsTaken, use_at, with_use}};
ghost use Rattle.port_driver.specs.SlotTables.{HasLeastIdIn, TakesSlot};

use ata_types::{RequestId, SLOTS, Slot};
use hba_regs::is_set;
use slots::{SlotUse, Slots};
use std::marker::Model;

/// The command slots of a port, of which the lowest may be used, and the request that each taken one serves. In a mask
/// bit k stands for slot k, as in PxCI and PxSACT.
#[derive(Drop)]
pub struct SlotTable {
    slots: Slots,
    requests: [Option<RequestId>; SLOTS],
}

impl Model for SlotTable {
    ghost use Rattle.std.specs.Prelude.{◌≡◌, ◌≤◌, length};
    ghost use Rattle.slots.specs.SlotUses.{PortSlots};
    ghost use Rattle.port_driver.specs.SlotTables.{TakenOnesServe, uses_of};

    ghost Value = { PortSlots };

    ghost view = { λ t. record { usable_count = t.slots.usable_count; slot_uses = uses_of t.slots.queued t.requests } };

    ghost invariant = { λ t. (t.slots.usable_count ≤ 32) × (length t.requests ≡ 32)
        × TakenOnesServe t.slots t.requests };
}

impl SlotTable {
    /// Slots of which none is taken; `usable` of them, 32 at most, may be.
    pub(crate) fn new(usable: u8) -> Self
        requires { usable ≤ 32 }
        ensures usable { result.usable_count ≡ usable }
        ensures free { (slot : ℕ) → use_at result slot ≡ None }
    {
        SlotTable {
            slots: Slots::new(usable),
            requests: no_requests(),
        }
    }

    /// Takes the lowest free usable slot for a request's command. `None` if each usable one is taken; then nothing
    /// changes.
    pub(crate) fn take(&mut self, id: RequestId, queued: bool) -> Option<Slot>
        ensures lowest { IfSome result (λ slot. IsLowestFree self.old slot.0) }
        ensures taken { IfSome result
            (λ slot. self.new ≡ with_use self.old slot.0 (Some (record { id = id; queued = queued }))) }
        ensures all_are_allocated { IfNone result ((slot : ℕ) → slot < self.old.usable_count → IsTaken self.old slot) }
        ensures unchanged { IfNone result (self.new ≡ self.old) }
    {
        let Some(slot) = take_slot(&mut self.slots, queued) else {
            return None;
        };
        self.requests[slot.0 as usize] = Some(id);
        Some(slot)
    }

    /// Frees a slot, and returns what it was used for.
    pub(crate) fn free(&mut self, slot: Slot) -> Option<SlotUse>
        requires { slot.0 < 32 }
        ensures previous_use { result ≡ use_at self.old slot.0 }
        ensures freed { self.new ≡ with_use self.old slot.0 None }
    {
        let used = self.used_for(slot);
        self.requests[slot.0 as usize] = None;
        self.slots.free(slot);
        used
    }

    /// What a slot is used for; `None` if it is free.
    pub(crate) fn used_for(&self, slot: Slot) -> Option<SlotUse>
        ensures { result ≡ use_at self.now slot.0 }
    {
        let Some(id) = request_at(&self.requests, slot) else {
            return None;
        };
        let queued = is_set(self.slots.queued(), u32::from(slot.0));
        Some(SlotUse { id, queued })
    }

    /// The slots that are taken.
    pub(crate) fn taken(&self) -> u32
        ensures { (slot : ℕ) → slot < 32 → (bit_at result slot ≡ 1) ↔ IsTaken self.now slot }
    {
        self.slots.taken()
    }

    /// Of the slots that are taken and have their bits set here, the one whose request has the least id. `None` if
    /// there is none.
    pub(crate) fn earliest(&self, mask: u32) -> Option<Slot>
        ensures found { IfSome result (λ slot. HasLeastId self.now mask slot.0) }
        ensures no_such_slot { IfNone result ((slot : ℕ) → slot < 32 → bit_at mask slot ≡ 1
            → use_at self.now slot ≡ None) }
    {
        let Some(place) = earliest_of(&self.requests, mask & self.slots.taken()) else {
            return None;
        };
        Some(Slot(place))
    }

    /// How many slots may be used.
    pub(crate) fn usable(&self) -> u8
        ensures value { result ≡ self.now.usable_count }
        ensures count_is_allowed { result ≤ 32 }
    {
        self.slots.usable()
    }
}

fn no_requests() -> [Option<RequestId>; SLOTS]
    ensures { (slot : ℕ) → slice_index_or result slot None ≡ None }
{
    [None; SLOTS]
}

/// The request of a slot, if it serves one.
fn request_at(requests: &[Option<RequestId>], slot: Slot) -> Option<RequestId>
    ensures { result ≡ slice_index_or requests.now slot.0 None }
{
    match requests.get(slot.0 as usize) {
        Some(request) => *request,
        None => None,
    }
}

/// Takes the lowest free usable slot for a queued command, or for a plain one.
fn take_slot(slots: &mut Slots, queued: bool) -> Option<Slot>
    ensures lowest { IfSome result (λ slot. IsLowestFreeSlot slots.old slot.0) }
    ensures taken { IfSome result (λ slot. TakesSlot queued slot.0 slots.old slots.new) }
    ensures all_are_taken { IfNone result ((slot : ℕ) → slot < slots.old.usable_count → IsTakenSlot slots.old slot) }
    ensures unchanged { IfNone result (slots.new ≡ slots.old) }
{
    if queued {
        return slots.take();
    }
    slots.take_plain()
}

/// Of the slots that serve requests and have their bits set, the one with the least id.
fn earliest_of(requests: &[Option<RequestId>], mask: u32) -> Option<u8>
    requires { length requests.now ≡ 32 }
    ensures found { IfSome result (λ slot. HasLeastIdIn requests.now mask slot) }
    ensures none { IfNone result ((slot : ℕ) → slot < 32 → bit_at mask slot ≡ 1
        → slice_index_or requests.now slot None ≡ None) }
{
    let mut earliest = None;
    let mut least = RequestId(0);
    let mut past = 0u32;
    while past < 32 {
        let left = mask >> past;
        if left == 0 {
            return earliest;
        }
        let place = past + left.trailing_zeros();
        past = place + 1;
        let Some(id) = requests[place as usize] else {
            continue;
        };
        if earliest.is_none() || id.0 < least.0 {
            earliest = Some(place as u8);
            least = id;
        }
    }
    earliest
}
