// Laws of slots that are given up together, and of the slot of a fault: the clause is the theorem. Nothing that runs
// calls these functions.
ghost use Rattle.std.specs.Prelude.{ℕ, true, false, ◌⊎◌, ◌≡◌, ◌≢◌, ◌<◌, ◌++◌, List, Contains};
ghost use Rattle.ata_types.specs.declared.request.RequestId.{RequestId};
ghost use Rattle.adapter.specs.{Device.{Device}, OneCommand.{SlotHasNoCommand}, Rules.{InUse}, declared.tape.Entry.{Entry}};
ghost use Rattle.block_machine.specs.{State.{Pending, Machine}, Steps.{IsIssuedOrKept}};
ghost use Rattle.refinement.specs.{Relation.{StateRelation, ServeDistinctRequests}, Driver.{DriverState, DriverRelation, AllFree, HasNoSlot}, PortFacts.{IsEngineStopped, ShowsFault}, Slots.{SlotStates, Free, Serves}, GivingUp.{AllOverAndNoArmedStateIfSt, ids_in_slots, with_all_parked, IsOutstanding}};

/// Where all slots of a port are over, and none is armed on a running one, as on a port whose engine has stopped, the
/// driver gives them all up at once: what it knows stays known. None of them is used then, other ports' are as they
/// were, and exactly the requests that they served are parked beside those that were. No slot serves one of these then,
/// nor one that none served before.
pub fn law_giving_up_stopped_port_slots_agrees()
    ensures over { (k : DriverState) (m : Machine) (port : ℕ) → DriverRelation m k
        → AllOverAndNoArmedStateIfSt k.slot_states (k.device.port port) port
        → DriverRelation m (with_all_parked k port) }
    ensures engine_stopped { (k : DriverState) (m : Machine) (port : ℕ) → DriverRelation m k
        → IsEngineStopped (k.device.port port)
        → DriverRelation m (with_all_parked k port) }
    ensures given_up_port_is_free { (k : DriverState) (port : ℕ) → AllFree (with_all_parked k port).slot_states port }
    ensures others { (k : DriverState) (port other : ℕ) → other ≢ port
        → ((with_all_parked k port).slot_states other ≡ k.slot_states other)
        × ((with_all_parked k port).awaiting_disposition other ≡ k.awaiting_disposition other) }
    ensures parks { (k : DriverState) (m : Machine) (port slot : ℕ) (id : RequestId)
        → StateRelation k.slot_states m k.device
        → k.slot_states port slot ≡ Serves id → Contains ((with_all_parked k port).awaiting_disposition port) id }
    ensures keeps { (k : DriverState) (port : ℕ) (id : RequestId) → Contains (k.awaiting_disposition port) id
        → Contains ((with_all_parked k port).awaiting_disposition port) id }
    ensures ids_in_slots_are_served { (uses : SlotStates) (port n : ℕ) (id : RequestId)
        → Contains (ids_in_slots uses port n) id
        → (slot : ℕ) × (slot < n) × (uses port slot ≡ Serves id) }
    ensures frees { (k : DriverState) (port slot : ℕ) (id : RequestId) → ServeDistinctRequests k.slot_states
        → k.slot_states port slot ≡ Serves id
        → HasNoSlot (with_all_parked k port).slot_states id }
    ensures leaves { (k : DriverState) (port : ℕ) (id : RequestId) → HasNoSlot k.slot_states id
        → HasNoSlot (with_all_parked k port).slot_states id }
{}

/// What is parked of the port then are the requests that its 32 slots served, and those that were parked before.
pub fn law_given_up_requests_are_parked()
    ensures { (k : DriverState) (port : ℕ)
        → (with_all_parked k port).awaiting_disposition port ≡ ids_in_slots k.slot_states port 32
        ++ k.awaiting_disposition port }
{}

/// Where the machine agrees with the device, a slot in use is outstanding: so is the slot of a fault that the task file
/// shows. Where every other slot is free, it is the one that isn't.
pub fn law_issued_taken_or_faulted_is_outstanding()
    ensures used { (uses : SlotStates) (m : Machine) (d : Device) (port slot : ℕ) → StateRelation uses m d
        → InUse (d.port port) slot
        → IsOutstanding uses m (d.port port) port slot }
    ensures shown { (uses : SlotStates) (m : Machine) (d : Device) (port : ℕ) (entries : List Entry)
        → StateRelation uses m d
        → (s : ShowsFault entries (d.port port) port) → IsOutstanding uses m (d.port port) port s.fault.slot.0 }
    ensures only_used_slot_has_fault { (uses : SlotStates) (m : Machine) (d : Device) (port slot : ℕ)
        (entries : List Entry)
        → StateRelation uses m d
        → (s : ShowsFault entries (d.port port) port) → ((other : ℕ) → other ≢ slot → uses port other ≡ Free)
        → s.fault.slot.0 ≡ slot }
{}

/// Of a port with ST 0 each bit of PxCI and PxSACT is clear. And a slot that serves a request and
/// is over has ended it; or ST is 0, and it was given up unended.
pub fn law_over_slot_is_ended_or_dropped()
    ensures clear { (uses : SlotStates) (m : Machine) (d : Device) (port slot : ℕ) → StateRelation uses m d
        → (d.port port).st ≡ false → ((d.port port).ci slot ≡ false) × ((d.port port).sact slot ≡ false) }
    ensures over_is_ended_or_dropped { (uses : SlotStates) (m : Machine) (d : Device) (port slot : ℕ) (id : RequestId)
        → StateRelation uses m d
        → uses port slot ≡ Serves id → SlotHasNoCommand (d.port port) slot
        → (e : Pending) × IsIssuedOrKept m e × (e.request.id ≡ id)
        × ((e.ended ≡ true) ⊎ (((d.port port).st ≡ false) × (e.ended ≡ false))) }
{}
