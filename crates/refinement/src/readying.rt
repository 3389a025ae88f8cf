// Laws of a slot that is made ready and issued: the clause is the theorem. Nothing that runs calls these functions.
ghost use Rattle.std.specs.Prelude.{ℕ, true, false, ◌≡◌, ◌≢◌, ◌<◌, List, [], ◌∷◌, All, length, not};
ghost use Rattle.ata_types.specs.declared.Port.{Port};
ghost use Rattle.hba_regs.specs.{Bits.{bit}, declared.reg.Reg.TheVariants.{Px}, declared.reg.PortReg.TheVariants.{Clb, Sact, Ci}};
ghost use Rattle.adapter.specs.{Access.{Writes, Access, Does, device_after_write}, Access.Access.{Storing, Writing}, Commands.{Meaning, is_queued}, Device.{Device}, Rules.{IsOn, HasPort, MayWrite, IsStable}, Steps.{Steps}};
ghost use Rattle.block_machine.specs.{DueRequests.{is_plain}, Histories.{IsReachable}, State.{Pending, Machine}, Steps.{Issue, IsEnabled}, declared.due.QueueMode.{QueueMode}};
ghost use Rattle.refinement.specs.{Acts.{Act, AreActsDone, accesses_of}, Relation.{StateRelation}, Fragments.{IsSoleBit}, Driver.{IsRequestPreparedToIssue, DriverState, DriverAdvances, DriverRelation, MissesTableAndHeaderButPrdbc, with_slot_serving}, PreservedParts.{DoesNotWrite}, Slots.{Free, Armed, SlotStates, set_slot_state, MeansRequest, HasBlockIfTrim}, StartedPort.{WritesCmdOnlyWithStSet}};
ghost use Rattle.refinement.specs.ReadySlots.{IsStoredOnPortWithStSet, IsStoredAndArmedIffQueued, IsReadyToIssue, KeepsStoredCommand};

use super::prerequisites::law_prerequisites;

/// While no reset is pending, what is stored for a slot of a running port stays so, whatever the device does, and over
/// each access that doesn't clear ST, doesn't write PxCLB and stores nothing in the slot's header or table. No machine
/// is asked for, but one that agrees.
pub fn law_stored_command_stays_while_st_set()
    ensures steps { (uses : SlotStates) (m : Machine) (port slot : ℕ) (c : Meaning) (places : List ℕ) (old new : Device)
        → IsReachable m → StateRelation uses m old → old.hr ≡ false → Steps old new
        → IsStoredOnPortWithStSet old port slot c places
        → IsStoredOnPortWithStSet new port slot c places }
    ensures access { (uses : SlotStates) (m : Machine) (port : Port) (slot : ℕ) (c : Meaning) (places : List ℕ)
        (access : Access)
        (old new : Device) → IsReachable m → StateRelation uses m old → old.hr ≡ false
        → WritesCmdOnlyWithStSet port access
        → DoesNotWrite (Px port Clb) access
        → ((at : ℕ) (bytes : List ℕ) → access ≡ Storing at bytes
        → MissesTableAndHeaderButPrdbc port.0 slot at (length bytes))
        → Does access old new → IsStoredOnPortWithStSet old port.0 slot c places
        → IsStoredOnPortWithStSet new port.0 slot c places }
{
    law_prerequisites();
}

/// Bits of PxCI of slots that are readied may be written, whatever the device does first. With a request that is due
/// and that the command means, the slot is prepared; and a slot that is prepared is readied.
pub fn law_readied_may_be_issued()
    ensures permitted { (uses : SlotStates) (m : Machine) (d : Device) (port : Port) (v : ℕ)
        → IsReachable m → StateRelation uses m d → IsOn d → HasPort d port.0 → (d.port port.0).st ≡ true
        → ((slot : ℕ) → bit v slot ≡ true → IsReadyToIssue uses d port.0 slot) → IsStable (MayWrite (Px port Ci) v) d }
    ensures prepared { (uses : SlotStates) (m : Machine) (d : Device) (port slot : ℕ) (c : Meaning) (places : List ℕ)
        (mode : QueueMode) (e : Pending)
        (v : ℕ) → IsStoredAndArmedIffQueued uses d port slot c places → IsEnabled m (Issue mode e) → e.request.port.0
        ≡ port
        → slot < mode.usable_slots
        → (is_plain mode e.request.asked.op ≡ true → slot ≡ 0) → MeansRequest port slot e.request c places
        → is_queued c.operation ≡ not (is_plain mode e.request.asked.op)
        → HasBlockIfTrim e.request.asked.op d.memory port e.request → bit v slot ≡ true
        → ((k : ℕ) → k ≢ slot → bit v k ≡ false) → IsRequestPreparedToIssue uses m d port slot mode e v }
    ensures readied { (uses : SlotStates) (m : Machine) (d : Device) (port slot : ℕ) (mode : QueueMode) (e : Pending)
        (v : ℕ)
        → (x : IsRequestPreparedToIssue uses m d port slot mode e v)
        → IsStoredAndArmedIffQueued uses d port slot x.command x.places }
{
    law_prerequisites();
}

/// What one bit of a write does, with no step of the device. A bit of PxSACT arms its free slot on a running port,
/// which is no step of the machine. A bit of PxCI is its request's issue, if the slot is prepared.
pub fn law_one_bit_arms_or_issues_slot()
    ensures arms { (k : DriverState) (m : Machine) (port : Port) (slot v : ℕ) → DriverRelation m k
        → k.slot_states port.0 slot ≡ Free → (k.device.port port.0).st ≡ true → IsSoleBit slot v
        → DriverAdvances k m []
        (record k {
          slot_states = set_slot_state k.slot_states port.0 slot Armed;
          device = device_after_write
              (Px port Sact) v k.device;
        }) }
    ensures issues { (k : DriverState) (m : Machine) (port : Port) (slot : ℕ) (mode : QueueMode) (e : Pending) (v : ℕ)
        → IsReachable m → DriverRelation m k → IsRequestPreparedToIssue k.slot_states m k.device port.0 slot mode e v
        → DriverAdvances k m (Issue mode e ∷ [])
        (with_slot_serving k port.0 slot e.request.id (device_after_write (Px port Ci) v k.device)) }
{}

/// What is stored for a slot stays so over acts whose accesses leave it.
pub fn law_stored_command_stays_over_acts_sparing_it()
    ensures { (port : Port) (slot : ℕ) (c : Meaning) (places : List ℕ) (acts : List Act) (k later : DriverState)
        (m : Machine)
        → IsReachable m → DriverRelation m k → AreActsDone acts k m later
        → All (KeepsStoredCommand port slot) (accesses_of acts)
        → IsOn k.device → IsStoredOnPortWithStSet k.device port.0 slot c places
        → IsStoredOnPortWithStSet later.device port.0 slot c places }
{
    law_prerequisites();
}
