// Laws of the definitions, for callers: the clause is the theorem. Nothing that runs calls these functions.
ghost use Rattle.std.specs.{Prelude.{ℕ, Bool, true, None, ◌≡◌, ◌≢◌, ◌^◌, ◌<◌, ◌≤◌, ◌/◌, ◌%◌, ◌++◌, List, [], ◌∷◌}, List.{AllZip}};
ghost use Rattle.ata_types.specs.{declared.Port.{Port}, declared.memory.TheConstants.{DRIVER_BYTES}, declared.request.Frame.{Frame}};
ghost use Rattle.hba_regs.specs.{Bits.{bit}, declared.reg.Reg.TheVariants.{Px}, declared.reg.PortReg.TheVariants.{Ci}};
ghost use Rattle.adapter.specs.{Access.{Access, Writes}, Device.{Device}, Rules.{HasPort, IsOn, MayWrite, IsStable}, declared.command.Operation.{Operation}};
ghost use Rattle.block_machine.specs.{Histories.{IsReachable}, State.{Machine, Pending}, declared.due.QueueMode.{QueueMode}};
ghost use Rattle.refinement.specs.{Acts.{DriverSlots, driver_state_of_slots}, Fragments.{AnySlotStates, IsSimulated, IsSoleBit, SomeMachineAgreesWith, AccessesNoOtherPort, GainsNoMove}, Driver.{EndsInOwnStepsAfterDeviceSteps, DriverRelation}, Slots.{Own, client_operation_of}};
ghost use Rattle.ncq.specs.{Batches.{BatchSlotsAreUnused, HasExactlySlotBitsOf, IsBatchIssued, IsBatchStored, IsCommandIssueAccess, IsSlotOf, IssuesBatch, MayServeBatch, PlacedTask, StoresTransfer, issues_newest_first, with_serving_batch}, Issuing.{IsArmedFor, IsIssued, IsPlainTaskStored, MayIssueTransfer}, Masks.{ReadsDone, ReadsCiOrSact}, Tasks.{IsFitTransfer, IsTaskOf, RunsItsList}, Witness.{BatchIssueWitness, TransferIssueWitness}, declared.tasks.Task.{Task}};

use adapter::laws::{law_an_adapter_with_one_read_exists, law_slot_decodes_to_at_most_one_command};
use block_machine::laws::law_issued_was_accepted_and_granted_at_issue;
use refinement::acts::{
    law_acts_advance_driver, law_acts_compose, law_an_access_or_own_step_is_one_act,
};
use refinement::fragments::law_other_ports_are_untouched;
use refinement::laws::{
    law_device_and_faithful_step_lists_compose, law_device_steps_are_a_call_part,
    law_device_steps_are_simulated, law_driver_advances_compose, law_enabled_issues_stay,
    law_prepared_read_example_agrees, law_setting_changes_one_slot, law_stored_commands_stay,
    law_tables_and_idle_scratch_are_kept, law_two_stored_reads_example_agrees,
};
use refinement::port_facts::{
    law_adapter_stays_same_and_on_until_ghc_write, law_port_controls_stay_until_written,
};
use refinement::readying::{
    law_one_bit_arms_or_issues_slot, law_readied_may_be_issued,
    law_stored_command_stays_over_acts_sparing_it, law_stored_command_stays_while_st_set,
};

/// No access that issues commands, or reads what is done, touches a register of another port, nor another port's bit of
/// IS: so what is said of such accesses (`AccessesNoOtherPort`) is so of each.
pub fn law_batch_and_mask_access_spares_other_ports()
    ensures issuing { (port : Port) (access : Access) → IsCommandIssueAccess port access
        → AccessesNoOtherPort port access }
    ensures finding { (port : Port) (access : Access) → ReadsCiOrSact port access → AccessesNoOtherPort port access }
{}

/// Once all is stored that the tasks' commands need, and their slots are armed, the slots' bits of PxCI may be written,
/// and that issues the commands.
pub fn law_ci_write_issues_armed_batch()
    ensures { (port : Port) (queued : Bool) (tasks : List PlacedTask) (own : ℕ) (old armed : Device)
        → IsArmedFor port queued tasks own old armed → IsStable (MayWrite (Px port Ci) own) armed
        × ((new : Device) → Writes (Px port Ci) own armed new → IsBatchIssued port tasks old new) }
{
    law_an_access_or_own_step_is_one_act();
    law_acts_compose();
    law_acts_advance_driver();
    law_adapter_stays_same_and_on_until_ghc_write();
    law_one_bit_arms_or_issues_slot();
    law_port_controls_stay_until_written();
    law_device_steps_are_simulated();
    law_device_steps_are_a_call_part();
    law_enabled_issues_stay();
    law_tables_and_idle_scratch_are_kept();
    law_driver_advances_compose();
    law_device_and_faithful_step_lists_compose();
    law_other_ports_are_untouched();
    law_setting_changes_one_slot();
    law_readied_may_be_issued();
    law_stored_command_stays_while_st_set();
    law_stored_commands_stay();
}

/// Once all is stored that a plain task needs in slot 0, that slot's bit of PxCI may be written, and that issues it.
pub fn law_ci_write_issues_stored_plain_task()
    ensures { (port : Port) (r : Task) (frames : List Frame) (own : ℕ) (old stored : Device)
        → IsPlainTaskStored port r frames old stored → IsSoleBit 0 own → IsStable (MayWrite (Px port Ci) own) stored
        × ((new : Device) → Writes (Px port Ci) own stored new → IsIssued port 0 r frames old new) }
{
    law_ci_write_issues_armed_batch();
}

/// A batch begins empty, on a port that runs. And a queued transfer more may be prepared in a slot of its own that was
/// unused when the batch began, as all of its slots were; that makes it one of the batch.
pub fn law_stored_task_extends_batch()
    ensures empty_batch { (port : Port) (d : Device) → IsOn d → HasPort d port.0 → DRIVER_BYTES ≤ d.memory_size
        → RunsItsList port.0 d → SomeMachineAgreesWith (BatchSlotsAreUnused port.0 []) d → IsBatchStored port [] d d }
    ensures one_more_task { (port : Port) (tasks : List PlacedTask) (t : PlacedTask) (start mid : Device)
        → IsBatchStored port tasks start mid
        → SomeMachineAgreesWith (BatchSlotsAreUnused port.0 (tasks ++ t ∷ [])) start
        → (IsSlotOf tasks t.slot → ⊥) → t.slot < 32 → t.slot ≤ start.cap / 256 % 32
        → IsFitTransfer t.task t.frames → t.task.queued ≡ true
        → MayIssueTransfer port t.slot t.task t.frames mid
        × ((new : Device) → StoresTransfer port t mid new → IsBatchStored port (tasks ++ t ∷ []) start new) }
{
    law_acts_compose();
    law_acts_advance_driver();
    law_driver_advances_compose();
    law_device_and_faithful_step_lists_compose();
    law_other_ports_are_untouched();
    law_setting_changes_one_slot();
    law_stored_commands_stay();
    law_stored_command_stays_over_acts_sparing_it();
}

/// So does its mask, of 32 bits: it begins with none, and has the bit of the task's slot more.
pub fn law_batch_mask_gains_task_slot_bit()
    ensures empty_mask { HasExactlySlotBitsOf [] 0 }
    ensures one_more_bit { (tasks : List PlacedTask) (t : PlacedTask) (mask later : ℕ) → mask < 2 ^ 32 → later < 2 ^ 32
        → HasExactlySlotBitsOf tasks mask → bit later t.slot ≡ true
        → ((k : ℕ) → k < 32 → k ≢ t.slot → bit later k ≡ bit mask k) → HasExactlySlotBitsOf (tasks ++ t ∷ []) later }
{}

/// Issuing a batch is a part of a call. From a machine that agrees with the slots free, and on which requests that are
/// the tasks may be issued one after another: by its two ends it is the device's steps, and then the requests' issues;
/// and no disk sends a page meanwhile, but to a slot 0 that has a command of the driver's own.
pub fn law_batch_issues_come_last()
    ensures ends_in_issues { (port : Port) (tasks : List PlacedTask) (mode : QueueMode) (es : List Pending)
        (old new : Device)
        (s : DriverSlots) (m : Machine) → IssuesBatch port tasks old new
        → AllZip (λ t e. IsTaskOf port t.slot t.task t.frames mode e) tasks es → IsReachable m
        → DriverRelation m (driver_state_of_slots s old) → MayServeBatch port tasks mode es s m
        → EndsInOwnStepsAfterDeviceSteps (driver_state_of_slots s old) m (issues_newest_first mode es)
        (driver_state_of_slots (with_serving_batch port tasks es s) new) }
    ensures no_unasked_page_moves { (port : Port) (tasks : List PlacedTask) (mode : QueueMode) (es : List Pending)
        (old new : Device)
        (s : DriverSlots) (m : Machine) → IssuesBatch port tasks old new
        → AllZip (λ t e. IsTaskOf port t.slot t.task t.frames mode e) tasks es → IsReachable m
        → DriverRelation m (driver_state_of_slots s old) → MayServeBatch port tasks mode es s m
        → (q : ℕ) (o : Operation) → client_operation_of o ≡ None
        → (s.slot_states q 0 ≡ Own o → ⊥) → GainsNoMove q o old new }
{
    law_acts_advance_driver();
}

/// Where a mask was read for what is done, that is simulated, with each slot used as it was.
pub fn law_ci_and_sact_reads_keep_machine_related()
    ensures { (port : Port) (mask done : ℕ) (old new : Device) → ReadsDone port mask done old new
        → IsSimulated (ReadsCiOrSact port) AnySlotStates old new }
{}

/// There is an adapter on which a plain transfer may be issued in slot 0, so that the clauses on issuing speak of
/// something.
pub fn law_an_issuable_transfer_exists()
    ensures { TransferIssueWitness }
{
    law_prepared_read_example_agrees();
    law_slot_decodes_to_at_most_one_command();
    law_an_adapter_with_one_read_exists();
    law_issued_was_accepted_and_granted_at_issue();
}

/// There is one on which a batch of two queued reads is stored and may be issued.
pub fn law_an_issuable_batch_exists()
    ensures { BatchIssueWitness }
{
    law_two_stored_reads_example_agrees();
}
