// Laws of the relation, for the crates above: the clause is the theorem. Nothing that runs calls these functions.
ghost use Rattle.std.specs.{List.{list_any}, Prelude.{◌≡◌, ◌+◌, ◌*◌, ◌/◌, ◌%◌, ◌<◌, ◌≤◌, ◌∷◌, ◌++◌, ℕ, Bool, true, false, [], List, length, map, Contains, ◌≢◌, ◌⊎◌, None, Some, All}};
ghost use Rattle.ata_types.specs.{declared.Port.{Port}, declared.memory.TheConstants.{FRAME_BYTES, LIST_BYTES, RECEIVED_FIS_BYTES}, declared.request.ClientId.{ClientId}, declared.request.Frame.{Frame}, declared.request.Outcome.{Outcome}, declared.request.RequestId.{RequestId}};
ghost use Rattle.hba_regs.specs.{Bits.{bit}, declared.reg.PortReg.TheVariants.{Clb, Clbu, Fb, Fbu, Is, Cmd, Ci, Sact}, declared.reg.Reg.TheVariants.{Px}, declared.reg.Reg.{Reg}};
ghost use Rattle.adapter.specs.{Access.{Reads, Writes, Loads, Stores, device_after_write, Access, Does}, Commands.{Meaning}, Device.{DevicePort, Device}, FirstRead.{first_read_device}, Idle.{IsIdle}, Memory.{patched}, OneCommand.{SlotHasNoCommand}, Rules.{IsInMemoryNotOwnedByDevice, IsOn, HasPort, MayStart, MaySetFre, MayStopReceiving, MayWrite, IsStable}, Steps.{Steps}, declared.command.Operation.{Operation}, declared.tape.Entry.{Entry}};
ghost use Rattle.block_machine.specs.{DueRequests.{is_plain, issued_count}, Events.{IsByDevice, AllByDevice, AllEnabled, changes_disk}, Histories.{IsReachable, IsSimulatedBySteps}, Expected.{IsInitial, after, AllStepsFaithful}, Refusals.{MayAccessFrame}, State.{Accepted, Pending, Machine, unanswered}};
ghost use Rattle.block_machine.specs.{Steps.{Step, Accept, Issue, Age, WaitAgain, Answer, Release, Store, Load, IsEnabled, NoneKept, aged_pending, after_step, is_kept_at_answer, IsIssuedOrKept, Revoke}, declared.due.QueueMode.{QueueMode}};
ghost use Rattle.refinement.specs.{Relation.{StateRelation, IsDiskOf, SameClientFrames, SameSectors, HaveSlotsUnlessParked, ServeDistinctRequests, port_at}, Replug.{replug_candidates}, Acts.{IsIssueStep}};
ghost use Rattle.refinement.specs.{Driver.{IsInMemoryOfFreeSlot, KeepsSlotStates, KeepsTablesAndScratchUnlessOwn, DriverState, DriverRelation, TapeBacksSteps, IsBackedByDeviceAlone, DriverAdvances, IsOwnCommandPreparedInSlot0, EndsInOneStep, HasNoSlot, OthersStayParked, ParkedStayUnlessKept, with_slot_freed_and_request_parked, with_slot_freed, idle_driver_state, KeepsOtherCmdBits, MissesTableAndHeaderButPrdbc, MissesScratch}, Simulation.{SimulatesSteps}, PreservedParts.{IsPlugEvent}};
ghost use Rattle.refinement.specs.{MemoryLayout.{command_list_address, scratch_frame_address, received_fis_address}, TrimWitness.{TrimAgrees}, ReadWitness.{PreparedReadWitness, FirstReadWitness, PortDeadReadAgreesServedAndParked, ParkedReadWitness, EndedReadAgrees, OwnCommandAgrees}, TwoReadsWitness.{TwoReadsWitness, TwoStoredReads}};
ghost use Rattle.refinement.specs.{Slots.{SlotState, Free, Armed, Own, Serves, SlotStates, set_slot_state, serving_count, SlotDecodesTo, HasBlockIfTrim, client_operation_of, IsMove}, SparedBook.{IsAsFarOrFurther, AllAsFarOrFurther, KeepsLoansAndPendingsOnlyAdvance, IsNotStepOfPendingRequest}, Tape.{OneAtMost, TellsDeviceSteps}};
ghost use Rattle.hba_regs.specs.declared.reg.Reg.TheVariants as registers;

use super::prerequisites::law_prerequisites;
use block_machine::laws::law_step_lists_compose;

/// Whatever the device does by itself, the machine follows: what the tape gains are steps of the machine that may come,
/// and the two agree again. So it is while a reset of the adapter is pending, too, and after one that is stuck.
pub fn law_device_steps_are_simulated()
    ensures { (uses : SlotStates) (m : Machine) (old new : Device) → IsReachable m → StateRelation uses m old
        → Steps old new
        → SimulatesSteps uses m old new }
{}

/// What the device does by itself is a part of a call, in which it alone makes steps.
pub fn law_device_steps_are_a_call_part()
    ensures { (k : DriverState) (new : Device) → Steps k.device new
        → IsSimulatedBySteps DriverRelation k (record k { device = new }) (IsBackedByDeviceAlone k.device new) }
{}

/// Over any reading of a register the two go on agreeing: the machine makes the device's steps and no others.
pub fn law_register_reading_is_simulated()
    ensures { (k : DriverState) (r : Reg) (v : ℕ) (new : Device) → Reads r v k.device new
        → IsSimulatedBySteps DriverRelation k (record k { device = new }) (IsBackedByDeviceAlone k.device new) }
{}

/// Once ST is clear, an armed slot may be counted free again. A free slot has no bit of PxSACT.
pub fn law_armed_slot_may_be_freed_once_st_clear()
    ensures disarmed { (k : DriverState) (m : Machine) → DriverRelation m k → (port slot : ℕ)
        → (k.device.port port).st ≡ false
        → k.slot_states port slot ≡ Armed → DriverRelation m (with_slot_freed k port slot) }
    ensures free_slot_has_sact_clear { (uses : SlotStates) (m : Machine) (d : Device) → StateRelation uses m d
        → (port slot : ℕ)
        → uses port slot ≡ Free
        → (d.port port).sact slot ≡ false }
{}

/// A client's store into its frame is the machine's.
pub fn law_client_store_is_machine_store()
    ensures { (k : DriverState) (m : Machine) (client : ClientId) (frame : Frame) (offset : ℕ) (bytes : List ℕ)
        (new : Device)
        → IsReachable m → DriverRelation m k → IsEnabled m (Store client frame offset bytes)
        → Stores (FRAME_BYTES * frame.0 + offset) bytes k.device new
        → EndsInOneStep k m (Store client frame offset bytes) (record k { device = new }) }
{
    law_prerequisites();
}

/// A client's load from its frame is the machine's: it gets the bytes that the machine's frame holds.
pub fn law_client_load_is_machine_load()
    ensures { (k : DriverState) (m : Machine) (client : ClientId) (frame : Frame) (offset : ℕ) (bytes : List ℕ)
        (new : Device)
        → IsReachable m → DriverRelation m k → MayAccessFrame m.owner m.lent client frame offset (length bytes)
        → Loads (FRAME_BYTES * frame.0 + offset) bytes k.device new
        → EndsInOneStep k m (Load client frame offset bytes) (record k { device = new }) }
{
    law_prerequisites();
}

/// A step of the driver's own needs nothing of the device.
pub fn law_steps_not_by_device_need_no_backing()
    ensures { (d : Device) (m : Machine) (step : Step) → (IsByDevice step → ⊥) → TapeBacksSteps d d m (step ∷ []) }
{}

/// What backs two fragments backs both; nothing is backed by nothing; and so with what the device does alone.
pub fn law_backing_composes()
    ensures reflexive { (d : Device) (m : Machine) → TapeBacksSteps d d m [] }
    ensures device_parts_join { (old mid new : Device) (m : Machine) (early late : List Step)
        → IsBackedByDeviceAlone old mid m early
        → IsBackedByDeviceAlone mid new (after m early) late → IsBackedByDeviceAlone old new m (late ++ early) }
    ensures backings_join { (old mid new : Device) (m : Machine) (early late : List Step)
        → TapeBacksSteps old mid m early
        → TapeBacksSteps mid new (after m early) late → TapeBacksSteps old new m (late ++ early) }
{}

/// A driver's moves compose in one form: no step, when it knows the same device; one fragment after another; a step of
/// its own; what the device makes alone; an access that ends with a step of its own; and what any access or part of a
/// call adds. What goes so from each machine that agrees is a part of a call. The machine that it leads to is reached.
pub fn law_driver_advances_compose()
    ensures reflexive { (k : DriverState) (m : Machine) → DriverRelation m k → DriverAdvances k m [] k }
    ensures transitive { (a b c : DriverState) (m : Machine) (early late : List Step) → DriverAdvances a m early b
        → DriverAdvances b (after m early) late c → DriverAdvances a m (late ++ early) c }
    ensures same_device { (k later : DriverState) (m : Machine) → later.device ≡ k.device → DriverRelation m later
        → DriverAdvances k m [] later }
    ensures own_step { (k later : DriverState) (m : Machine) (step : Step) → (IsByDevice step → ⊥) → IsEnabled m step
        → later.device ≡ k.device → DriverRelation (after_step m step) later → DriverAdvances k m (step ∷ []) later }
    ensures device { (k later : DriverState) (m : Machine) (steps : List Step) → AllEnabled m steps
        → IsBackedByDeviceAlone k.device later.device m steps → DriverRelation (after m steps) later
        → DriverAdvances k m steps later }
    ensures device_steps { (k : DriverState) (m : Machine) (new : Device) → DriverRelation m k
        → (f : SimulatesSteps k.slot_states m k.device new)
        → DriverAdvances k m f.steps (record k { device = new }) }
    ensures ends_in_step { (k later : DriverState) (m : Machine) (step : Step) → (e : EndsInOneStep k m step later)
        → DriverAdvances k m (step ∷ e.steps) later }
    ensures access { (k later : DriverState) (m : Machine)
        → IsSimulatedBySteps DriverRelation k later (IsBackedByDeviceAlone k.device later.device)
        → IsReachable m → DriverRelation m k → (steps : List Step) × AllByDevice steps
        × DriverAdvances k m steps later }
    ensures simulated_part { (k later : DriverState) (m : Machine)
        → IsSimulatedBySteps DriverRelation k later (TapeBacksSteps k.device later.device)
        → IsReachable m → DriverRelation m k → (steps : List Step) × DriverAdvances k m steps later }
    ensures simulates_each { (k later : DriverState) → ((m : Machine) → IsReachable m → DriverRelation m k
        → (steps : List Step)
        × DriverAdvances k m steps later)
        → IsSimulatedBySteps DriverRelation k later (TapeBacksSteps k.device later.device) }
    ensures reached { (k later : DriverState) (m : Machine) (steps : List Step) → IsReachable m
        → DriverAdvances k m steps later
        → IsReachable (after m steps) }
{}

/// A request that is accepted changes nothing of what the driver knows.
pub fn law_accepting_agrees()
    ensures { (k : DriverState) (m : Machine) (r : Accepted) → DriverRelation m k
        → DriverRelation (after_step m (Accept r)) k }
{}

/// Nor does a tick.
pub fn law_ticking_agrees()
    ensures { (k : DriverState) (m : Machine) (ready : Port → Bool) → DriverRelation m k
        → DriverRelation (after_step m (Age ready)) k }
{}

/// Nor does a client's grant that is revoked.
pub fn law_revoking_grant_agrees()
    ensures { (k : DriverState) (m : Machine) (client : ClientId) (number : ℕ) → DriverRelation m k
        → DriverRelation (after_step m (Revoke client number)) k }
{}

/// A slot whose command is over is given up, and its request is decided on later.
pub fn law_parking_agrees()
    ensures { (k : DriverState) (m : Machine) → DriverRelation m k → (port slot : ℕ)
        → SlotHasNoCommand (k.device.port port) slot
        → (id : RequestId) → k.slot_states port slot ≡ Serves id
        → DriverRelation m (with_slot_freed_and_request_parked k port slot id) }
{}

/// A slot that is put to another use has it, and every other slot goes on as it was used. So a request that no slot
/// serves has none then either, unless the slot is put to it.
pub fn law_setting_changes_one_slot()
    ensures slot_has_new_state { (uses : SlotStates) (port slot : ℕ) (u : SlotState)
        → set_slot_state uses port slot u port slot ≡ u }
    ensures others { (uses : SlotStates) (port slot : ℕ) (u : SlotState) (other_port other_slot : ℕ)
        → (other_port ≡ port → other_slot ≡ slot → ⊥) → set_slot_state uses port slot u other_port other_slot
        ≡ uses other_port
        other_slot }
    ensures unserved { (uses : SlotStates) (port slot : ℕ) (u : SlotState) (id : RequestId) → HasNoSlot uses id
        → ((other : RequestId) → u ≡ Serves other → other ≢ id) → HasNoSlot (set_slot_state uses port slot u) id }
{}

/// Once the slot of a request is parked, no slot serves it, and it is among the parked; nor does a slot then serve a
/// request that none served before.
pub fn law_parking_request_frees_its_slot()
    ensures frees { (k : DriverState) (port slot : ℕ) (id : RequestId) → ServeDistinctRequests k.slot_states
        → k.slot_states port slot ≡ Serves id
        → HasNoSlot (with_slot_freed_and_request_parked k port slot id).slot_states id }
    ensures leaves { (k : DriverState) (port slot : ℕ) (id other : RequestId) → HasNoSlot k.slot_states other
        → HasNoSlot (with_slot_freed_and_request_parked k port slot id).slot_states other }
    ensures parks { (k : DriverState) (port slot : ℕ) (id : RequestId)
        → Contains ((with_slot_freed_and_request_parked k port slot id).awaiting_disposition port) id }
{}

/// A request that no slot serves may be answered: its frames are given back.
pub fn law_answering_slotless_request_agrees()
    ensures { (k : DriverState) (m : Machine) (e : Pending) (outcome : Outcome) (later : ℕ → List RequestId)
        → IsReachable m
        → DriverRelation m k → Contains m.book e → is_kept_at_answer e outcome ≡ false
        → HasNoSlot k.slot_states e.request.id
        → OthersStayParked e.request.id k.awaiting_disposition later
        → DriverRelation (after_step m (Answer e outcome)) (record k { awaiting_disposition = later }) }
{}

/// A request may be answered with its frames kept, in its slot or without one.
pub fn law_answering_with_frames_kept_agrees()
    ensures { (k : DriverState) (m : Machine) (e : Pending) (outcome : Outcome) → IsReachable m → DriverRelation m k
        → Contains m.book e
        → is_kept_at_answer e outcome ≡ true → DriverRelation (after_step m (Answer e outcome)) k }
{}

/// A request that no slot serves may wait again.
pub fn law_slotless_request_waiting_again_agrees()
    ensures { (k : DriverState) (m : Machine) (e : Pending) (later : ℕ → List RequestId) → IsReachable m
        → DriverRelation m k
        → Contains m.book e → HasNoSlot k.slot_states e.request.id
        → OthersStayParked e.request.id k.awaiting_disposition later
        → DriverRelation (after_step m (WaitAgain e)) (record k { awaiting_disposition = later }) }
{}

/// The frames of kept requests may be given back if no slot serves one of them. Those that were parked needn't be
/// parked any more.
pub fn law_releasing_kept_frames_agrees()
    ensures { (k : DriverState) (m : Machine) (later : ℕ → List RequestId) → IsReachable m → DriverRelation m k
        → ((e : Pending) → Contains m.kept e → HasNoSlot k.slot_states e.request.id)
        → ParkedStayUnlessKept m k.awaiting_disposition later
        → DriverRelation (after_step m Release) (record k { awaiting_disposition = later }) }
{}

/// No slot serves a request that waits.
pub fn law_waiting_has_no_slot()
    ensures { (uses : SlotStates) (m : Machine) (d : Device) → IsReachable m → StateRelation uses m d → (e : Pending)
        → Contains m.book e → e.issued ≡ false → HasNoSlot uses e.request.id }
{}

/// If no kept request is on the port, each slot that serves a request serves one of those that are issued there, and no
/// two serve the same. So no more slots serve than requests are issued. There are just as many if each issued request
/// has a slot, and these are below n.
pub fn law_no_more_slots_serve_than_requests_issued()
    ensures no_more_serve { (uses : SlotStates) (m : Machine) (d : Device) → IsReachable m → StateRelation uses m d
        → (port : Port)
        → NoneKept m port → (n : ℕ) → serving_count uses port.0 n ≤ issued_count (map unanswered m.book) port }
    ensures issued { (uses : SlotStates) (m : Machine) (d : Device) → StateRelation uses m d → (port : Port)
        → NoneKept m port
        → (slot : ℕ) (id : RequestId) → uses port.0 slot ≡ Serves id
        → (e : Pending) × Contains m.book e × (e.issued ≡ true) × (e.request.id ≡ id) × (e.request.port ≡ port) }
    ensures as_many_serve { (uses : SlotStates) (m : Machine) (d : Device) → IsReachable m → StateRelation uses m d
        → (port : Port)
        → NoneKept m port → (n : ℕ) → HaveSlotsUnlessParked uses m port.0 []
        → ((slot : ℕ) (id : RequestId) → uses port.0 slot ≡ Serves id → slot < n)
        → serving_count uses port.0 n ≡ issued_count (map unanswered m.book) port }
{}

/// So a request that is due finds a free slot, if slot 0 has no command of the driver's own: a plain one finds slot 0,
/// and a queued one some slot that is usable.
pub fn law_due_finds_free_slot()
    ensures plain { (uses : SlotStates) (m : Machine) (d : Device) → IsReachable m → StateRelation uses m d
        → (mode : QueueMode) (e : Pending) → IsEnabled m (Issue mode e)
        → ((o : Operation) → uses e.request.port.0 0 ≡ Own o → ⊥)
        → ((slot : ℕ) → uses e.request.port.0 slot ≡ Armed → ⊥) → is_plain mode e.request.asked.op ≡ true
        → uses e.request.port.0 0 ≡ Free }
    ensures queued { (uses : SlotStates) (m : Machine) (d : Device) → IsReachable m → StateRelation uses m d
        → (mode : QueueMode) (e : Pending) → IsEnabled m (Issue mode e)
        → ((o : Operation) → uses e.request.port.0 0 ≡ Own o → ⊥)
        → ((slot : ℕ) → uses e.request.port.0 slot ≡ Armed → ⊥) → is_plain mode e.request.asked.op ≡ false
        → (slot : ℕ) × (slot < mode.usable_slots) × (uses e.request.port.0 slot ≡ Free) }
{}

/// While no reset is pending the device leaves alone what no slot uses; so it is over readings, writes and loads. A
/// store leaves of it what it would at once, had the device done nothing first.
pub fn law_tables_and_idle_scratch_are_kept()
    ensures steps { (uses : SlotStates) (m : Machine) (old new : Device) → IsReachable m → StateRelation uses m old
        → old.hr ≡ false
        → Steps old new → KeepsTablesAndScratchUnlessOwn uses old new }
    ensures reads { (uses : SlotStates) (m : Machine) (old new : Device) → IsReachable m → StateRelation uses m old
        → old.hr ≡ false
        → (r : Reg) (v : ℕ) → Reads r v old new → KeepsTablesAndScratchUnlessOwn uses old new }
    ensures loads { (uses : SlotStates) (m : Machine) (old new : Device) → IsReachable m → StateRelation uses m old
        → old.hr ≡ false
        → (at : ℕ) (bytes : List ℕ) → Loads at bytes old new → KeepsTablesAndScratchUnlessOwn uses old new }
    ensures stores { (uses : SlotStates) (m : Machine) (old new : Device) → IsReachable m → StateRelation uses m old
        → old.hr ≡ false
        → (at : ℕ) (bytes : List ℕ) → Stores at bytes old new
        → KeepsTablesAndScratchUnlessOwn uses (record old { memory = patched old.memory at bytes }) new }
    ensures writes { (uses : SlotStates) (m : Machine) (old new : Device) → IsReachable m → StateRelation uses m old
        → old.hr ≡ false
        → (r : Reg) (v : ℕ) → Writes r v old new → KeepsTablesAndScratchUnlessOwn uses old new }
{}

/// A page comes only if slot 0 of its port has that command of the driver's own, and the command hasn't ended. At most
/// one page comes for it, whatever the device does, even while a reset is pending. The same holds over each access.
pub fn law_pages_come_only_for_own_commands()
    ensures steps { (uses : SlotStates) (m : Machine) (old new : Device) (port : ℕ) (o : Operation)
        (gained : List Entry)
        → IsReachable m → StateRelation uses m old → Steps old new → new.tape ≡ old.tape ++ gained
        → client_operation_of o ≡ None
        → (uses port 0 ≡ Own o → SlotHasNoCommand (old.port port) 0) → All (λ e. IsMove port o e → ⊥) gained }
    ensures access { (uses : SlotStates) (m : Machine) (access : Access) (old new : Device) (port : ℕ) (o : Operation)
        (gained : List Entry) → IsReachable m → StateRelation uses m old → Does access old new
        → new.tape ≡ old.tape ++ gained
        → client_operation_of o ≡ None → (uses port 0 ≡ Own o → SlotHasNoCommand (old.port port) 0)
        → All (λ e. IsMove port o e → ⊥) gained }
    ensures one_at_most { (uses : SlotStates) (m : Machine) (old new : Device) (port : ℕ) (o : Operation)
        (gained : List Entry)
        → IsReachable m → StateRelation uses m old → Steps old new → new.tape ≡ old.tape ++ gained
        → client_operation_of o ≡ None
        → OneAtMost (IsMove port o) gained }
    ensures one_at_most_by_access { (uses : SlotStates) (m : Machine) (access : Access) (old new : Device) (port : ℕ)
        (o : Operation)
        (gained : List Entry) → IsReachable m → StateRelation uses m old → Does access old new
        → new.tape ≡ old.tape ++ gained
        → client_operation_of o ≡ None → OneAtMost (IsMove port o) gained }
{
    law_prerequisites();
}

/// So the bytes of a slot that mean a command still mean it, and a trim's block stays if slot 0 has no command of the
/// driver's own. A store beside them leaves them, too, and a store for a free slot is beside what belongs to a slot in
/// use.
pub fn law_stored_commands_stay()
    ensures told { (uses : SlotStates) (old new : Device) → KeepsTablesAndScratchUnlessOwn uses old new
        → (port slot : ℕ) (c : Meaning)
        (places : List ℕ) → port < 4 → slot < 32
        → SlotDecodesTo old.memory (command_list_address port) port slot c places
        → SlotDecodesTo new.memory (command_list_address port) port slot c places }
    ensures block { (uses : SlotStates) (old new : Device) → KeepsTablesAndScratchUnlessOwn uses old new
        → (port : ℕ) (r : Accepted)
        → port < 4
        → ((o : Operation) → uses port 0 ≡ Own o → ⊥) → HasBlockIfTrim r.asked.op old.memory port r
        → HasBlockIfTrim r.asked.op new.memory port r }
    ensures beside { (uses : SlotStates) (at : ℕ) (bytes : List ℕ) (old new : Device)
        → KeepsTablesAndScratchUnlessOwn uses (record old { memory = patched old.memory at bytes }) new
        → (port slot : ℕ) (c : Meaning)
        (places : List ℕ) → port < 4 → slot < 32 → MissesTableAndHeaderButPrdbc port slot at (length bytes)
        → SlotDecodesTo old.memory (command_list_address port) port slot c places
        → SlotDecodesTo new.memory (command_list_address port) port slot c places }
    ensures misses { (uses : SlotStates) (port slot at n : ℕ) → uses port slot ≢ Free → port < 4 → slot < 32
        → IsInMemoryOfFreeSlot uses at n → MissesTableAndHeaderButPrdbc port slot at n }
    ensures block_beside { (uses : SlotStates) (at : ℕ) (bytes : List ℕ) (old new : Device)
        → KeepsTablesAndScratchUnlessOwn uses (record old { memory = patched old.memory at bytes }) new
        → (port : ℕ) (r : Accepted)
        → port < 4 → ((o : Operation) → uses port 0 ≡ Own o → ⊥) → MissesScratch port at (length bytes)
        → HasBlockIfTrim r.asked.op old.memory port r → HasBlockIfTrim r.asked.op new.memory port r }
    ensures misses_scratch { (uses : SlotStates) (port at n : ℕ) → uses port 0 ≢ Free → port < 4
        → IsInMemoryOfFreeSlot uses at n
        → MissesScratch port at n }
{}

/// Requests that may be issued one after another may be so still, whatever the device does first.
pub fn law_enabled_issues_stay()
    ensures { (m : Machine) (steps : List Step) → IsReachable m → AllByDevice steps → AllEnabled m steps
        → (own : List Step) → All IsIssueStep own → AllEnabled m own → AllEnabled (after m steps) own }
{}

/// The device's own steps keep the machine's grants and owners, its loans and its next id. The same requests are
/// unanswered and kept, in the same order, each as far as it was, or further. So what is due is the same. A frame keeps
/// its bytes if it isn't lent to a request that the device may move. If no request of a port is kept, none is kept
/// after them.
pub fn law_requests_only_advance_over_device_steps()
    ensures spares { (m : Machine) (steps : List Step) → AllByDevice steps
        → KeepsLoansAndPendingsOnlyAdvance m (after m steps) }
    ensures reflexive { (m : Machine) → KeepsLoansAndPendingsOnlyAdvance m m }
    ensures transitive { (a b c : Machine) → KeepsLoansAndPendingsOnlyAdvance a b → KeepsLoansAndPendingsOnlyAdvance b c
        → KeepsLoansAndPendingsOnlyAdvance a c }
    ensures due_is_the_same { (old new : List Pending) → AllAsFarOrFurther old new
        → map unanswered new ≡ map unanswered old }
    ensures is_found_later { (old new : List Pending) (e : Pending) → AllAsFarOrFurther old new → Contains old e
        → (x : Pending) × Contains new x × IsAsFarOrFurther e x }
    ensures was_found_before { (old new : List Pending) (e : Pending) → AllAsFarOrFurther old new → Contains new e
        → (x : Pending) × Contains old x × IsAsFarOrFurther x e }
    ensures unlent_frames_keep_bytes { (m : Machine) (steps : List Step) (frame : Frame) → IsReachable m
        → AllByDevice steps
        → AllEnabled m steps
        → ((e : Pending) → IsIssuedOrKept m e → m.lent frame ≡ Some e.request.id → ⊥)
        → (b : ℕ) → (after m steps).memory frame b ≡ m.memory frame b }
    ensures none_quarantined_stays { (m : Machine) (steps : List Step) (port : Port) → AllByDevice steps
        → NoneKept m port
        → NoneKept (after m steps) port }
{}

/// Let entries of the tape be the device's steps among these. Then one of the entries is of a disk of the port that
/// goes or comes exactly if one of the steps takes the port's disk out or puts one in.
pub fn law_plug_events_match_disk_changes()
    ensures steps { (port : Port) (m : Machine) (gained : List Entry) (steps : List Step)
        → TellsDeviceSteps m gained steps
        → (e : Entry) → Contains gained e → IsPlugEvent port.0 e → list_any (changes_disk port) steps ≡ true }
    ensures entry { (port : Port) (m : Machine) (gained : List Entry) (steps : List Step)
        → TellsDeviceSteps m gained steps
        → list_any (changes_disk port) steps ≡ true → (e : Entry) × Contains gained e × IsPlugEvent port.0 e }
    ensures none { (port : Port) (m : Machine) (gained : List Entry) (steps : List Step)
        → TellsDeviceSteps m gained steps
        → list_any (changes_disk port) steps ≡ false → All (λ e. IsPlugEvent port.0 e → ⊥) gained }
{}

/// A machine that is reached leads to others by steps that may come, and lists of such steps join; so do lists of the
/// device's steps, and of faithful ones.
pub fn law_device_and_faithful_step_lists_compose()
    ensures reached { (m : Machine) (steps : List Step) → IsReachable m → AllEnabled m steps
        → IsReachable (after m steps) }
    ensures enabled_steps_join { (m : Machine) (late early : List Step) → AllEnabled m early
        → AllEnabled (after m early) late
        → AllEnabled m (late ++ early) }
    ensures machine_after_joins { (m : Machine) (late early : List Step) → after m (late ++ early)
        ≡ after (after m early) late }
    ensures device_steps_join { (late early : List Step) → AllByDevice late → AllByDevice early
        → AllByDevice (late ++ early) }
    ensures faithful_steps_join { (m : Machine) (late early : List Step) → AllStepsFaithful m early
        → AllStepsFaithful (after m early) late
        → AllStepsFaithful m (late ++ early) }
{
    law_step_lists_compose();
}

/// A bit of PxSACT that is clear stays clear, whatever the device does, over readings, and over all writes except one
/// of PxSACT that sets it.
pub fn law_clear_sact_bits_stay()
    ensures device { (port slot : ℕ) (old new : Device) → Steps old new → (old.port port).sact slot ≡ false
        → (new.port port).sact slot ≡ false }
    ensures reads { (port slot : ℕ) (r : Reg) (v : ℕ) (old new : Device) → Reads r v old new
        → (old.port port).sact slot ≡ false → (new.port port).sact slot ≡ false }
    ensures writes { (port : Port) (slot : ℕ) (r : Reg) (v : ℕ) (old new : Device)
        → (r ≡ Px port Sact → bit v slot ≡ false) → Writes r v old new → (old.port port.0).sact slot ≡ false
        → (new.port port.0).sact slot ≡ false }
{
    law_prerequisites();
}

/// Once slot 0 is over the device owns no byte of the page in its port's scratch frame, whatever it does: it may be
/// loaded.
pub fn law_device_owns_no_scratch_page_once_slot_0_over()
    ensures { (uses : SlotStates) (m : Machine) (d : Device) → IsReachable m → StateRelation uses m d → (port : ℕ)
        → port < 4
        → scratch_frame_address port + 512 ≤ d.memory_size → SlotHasNoCommand (d.port port) 0
        → IsStable (IsInMemoryNotOwnedByDevice (scratch_frame_address port) 512) d }
{
    law_prerequisites();
}

/// The device owns no byte of a client's frame that isn't lent, whatever it does: its owner may load and store it.
pub fn law_device_owns_no_unlent_client_bytes()
    ensures { (uses : SlotStates) (m : Machine) (d : Device) → IsReachable m → StateRelation uses m d
        → (client : ClientId)
        (frame : Frame) (offset n : ℕ) → FRAME_BYTES * frame.0 + FRAME_BYTES ≤ d.memory_size
        → MayAccessFrame m.owner m.lent client frame offset n
        → IsStable (IsInMemoryNotOwnedByDevice (FRAME_BYTES * frame.0 + offset) n) d }
{
    law_prerequisites();
}

/// Bytes that the driver may store are free for it, whatever the device does first.
pub fn law_driver_stores_are_permitted()
    ensures { (uses : SlotStates) (m : Machine) (d : Device) → IsReachable m → StateRelation uses m d → (at n : ℕ)
        → at + n ≤ d.memory_size → IsInMemoryOfFreeSlot uses at n → IsStable (IsInMemoryNotOwnedByDevice at n) d }
{
    law_prerequisites();
}

/// A write that may be made now, of any register but PxCI, may be made whatever the device does first; and, while no
/// reset is pending, one that leaves each slot to its use goes on to.
pub fn law_writes_but_ci_stay_permitted()
    ensures rules { (r : Reg) (v : ℕ) (d : Device) → ((port : Port) → r ≢ Px port Ci) → MayWrite r v d
        → IsStable (MayWrite r v) d }
    ensures uses { (uses : SlotStates) (r : Reg) (v : ℕ) (d : Device) → d.hr ≡ false → KeepsSlotStates uses r v d
        → IsStable (KeepsSlotStates uses r v) d }
{}

/// If a port's engine stands, its command list may be put into its place. If it receives no FISes, the received FIS
/// area may.
pub fn law_clb_fb_writes_are_permitted_if_stopped()
    ensures list { (d : Device) (port : Port) → IsOn d → HasPort d port.0 → (d.port port.0).st ≡ false
        → (d.port port.0).cr ≡ false → command_list_address port.0 + LIST_BYTES ≤ d.memory_size
        → IsStable (MayWrite (Px port Clb) (command_list_address port.0)) d }
    ensures list_upper { (d : Device) (port : Port) → IsOn d → HasPort d port.0 → (d.port port.0).st ≡ false
        → (d.port port.0).cr ≡ false → IsStable (MayWrite (Px port Clbu) 0) d }
    ensures received { (d : Device) (port : Port) → IsOn d → HasPort d port.0 → (d.port port.0).fre ≡ false
        → (d.port port.0).fr ≡ false → received_fis_address port.0 + RECEIVED_FIS_BYTES ≤ d.memory_size
        → IsStable (MayWrite (Px port Fb) (received_fis_address port.0)) d }
    ensures received_upper { (d : Device) (port : Port) → IsOn d → HasPort d port.0 → (d.port port.0).fre ≡ false
        → (d.port port.0).fr ≡ false → IsStable (MayWrite (Px port Fbu) 0) d }
{}

/// PxCMD may be written as it was last read, with other values of ST and FRE: with ST set if the port may start; with
/// ST clear and FRE as it is; with FRE set and ST as it is if the port may receive; and with FRE and ST clear if its
/// engine stands.
pub fn law_pxcmd_st_and_fre_writes_are_permitted()
    ensures start { (port : Port) (was v : ℕ) (d : Device) → IsOn d → HasPort d port.0 → (d.port port.0).notes.last_cmd
        ≡ was
        → MayStart (d.port port.0) → KeepsOtherCmdBits true true was v → IsStable (MayWrite (Px port Cmd) v) d }
    ensures stop { (port : Port) (was v : ℕ) (d : Device) → IsOn d → HasPort d port.0 → (d.port port.0).notes.last_cmd
        ≡ was
        → KeepsOtherCmdBits false (d.port port.0).fre was v → IsStable (MayWrite (Px port Cmd) v) d }
    ensures receive { (port : Port) (was v : ℕ) (d : Device) → IsOn d → HasPort d port.0
        → (d.port port.0).notes.last_cmd ≡ was → MaySetFre (d.port port.0)
        → KeepsOtherCmdBits (d.port port.0).st true was v → IsStable (MayWrite (Px port Cmd) v) d }
    ensures stop_receiving { (port : Port) (was v : ℕ) (d : Device) → IsOn d → HasPort d port.0
        → (d.port port.0).notes.last_cmd ≡ was → MayStopReceiving (d.port port.0) → KeepsOtherCmdBits false false was v
        → IsStable (MayWrite (Px port Cmd) v) d }
{}

/// PxIS is written, and then the port's bit of IS may be, with those of ports whose PxIS was written since it was last
/// read, and since their own bits were.
pub fn law_hba_is_write_after_pxis_is_permitted()
    ensures { (port : Port) (v : ℕ) (old new : Device) → IsOn old → Writes (Px port Is) v old new
        → (ports : ℕ) → ((q : ℕ) → q < 32 → bit ports q ≡ true → (q ≡ port.0)
        ⊎ ((old.port q).notes.acknowledged ≡ true))
        → IsStable (MayWrite registers.Is ports) new }
{}

/// The bit of PxCI of a prepared command of the driver's own may be written, whatever the device does first.
pub fn law_own_issuing_is_permitted()
    ensures { (uses : SlotStates) (m : Machine) (d : Device) → IsReachable m → StateRelation uses m d
        → (port : Port) (o : Operation)
        (v : ℕ) → IsOn d → HasPort d port.0 → IsOwnCommandPreparedInSlot0 uses d port.0 o v
        → IsStable (MayWrite (Px port Ci) v) d }
{
    law_prerequisites();
}

/// A device that is taken over idle agrees with a machine that has nothing in it, if both have the same disks and
/// client frames, and the machine has put aside what these disks may come back with.
pub fn law_idle_device_agrees_with_initial_machine()
    ensures { (m : Machine) (d : Device) → IsInitial m → IsIdle d → ((port : ℕ) → IsDiskOf m (d.port port) port)
        → SameClientFrames m d.memory
        → (d.disks_tell_sectors ≡ true → (port : ℕ) → SameSectors m (d.port port).disk port)
        → (d.disks_tell_sectors ≡ true → (port k : ℕ)
        → m.overwritten_since_flush (port_at port) k ≡ replug_candidates d.tape (d.port port).lasting port k)
        → DriverRelation m (idle_driver_state d) }
{}

/// There is an adapter whose first read is prepared, and a machine that is reached and agrees with it: the write of
/// PxCI is permitted, and issues the read.
pub fn law_prepared_read_example_agrees()
    ensures { PreparedReadWitness }
{
    law_prerequisites();
}

/// There is an adapter with its first read issued, and a machine that is reached and agrees with what its driver knows:
/// so none of these laws is empty.
pub fn law_first_read_example_agrees()
    ensures { FirstReadWitness }
{
    law_prerequisites();
}

/// There is one whose driver has stopped the port of that read, and has taken it from its slot once the engine stood:
/// the read may wait again.
pub fn law_parked_read_example_agrees()
    ensures { ParkedReadWitness }
{
    law_prerequisites();
}

/// There is one that keeps the read: it was answered PortDead, with its frames lent, while the slot serves it still;
/// and once the driver has taken it from there, the frames may be given back.
pub fn law_port_dead_read_example_agrees()
    ensures { PortDeadReadAgreesServedAndParked }
{
    law_prerequisites();
}

/// There is one whose device has done the read: its command has ended, and the request is unanswered still.
pub fn law_ended_read_example_agrees()
    ensures { EndedReadAgrees }
{
    law_prerequisites();
}

/// There is an adapter with two queued reads, into frames that are apart: both are issued, each by a write that is
/// permitted, and the device has taken the one while the other waits. A machine agrees with its driver.
pub fn law_two_queued_reads_example_agrees()
    ensures { TwoReadsWitness }
{
    law_prerequisites();
}

/// And there is one as it was before that: both reads are stored and may be issued, one after the other, and a machine
/// agrees with its driver, who uses no slot.
pub fn law_two_stored_reads_example_agrees()
    ensures { TwoStoredReads }
{}

/// There is an adapter with a trim, which is issued by a write that is permitted, taken, and done to its end; and a
/// machine agrees with it all the way.
pub fn law_trim_example_agrees()
    ensures { TrimAgrees }
{
    law_prerequisites();
}

/// There is an adapter with a command of the driver's own, IDENTIFY DEVICE: prepared, issued by a write that is
/// permitted, and over once its page has come; and a machine agrees with it all the way.
pub fn law_own_command_example_agrees()
    ensures { OwnCommandAgrees }
{
    law_prerequisites();
}
