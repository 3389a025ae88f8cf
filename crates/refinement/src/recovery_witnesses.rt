// What the laws of plain work are about, and what they can't do without: the clause is the theorem. Nothing that runs
// calls these functions.
ghost use Rattle.std.specs.Prelude.{ℕ, true, false, ◌≡◌, Some};
ghost use Rattle.adapter.specs.{Commands.{is_queued}, Device.{FetchedCommand, Device}, Device.Halt.{NotHalted, HaltedByPlain, HaltedByQueued}, FirstRead.{first_read_device}, Steps.{Steps, halt_after_start}};
ghost use Rattle.block_machine.specs.{Histories.{IsReachable}, State.{Machine}};
ghost use Rattle.refinement.specs.{Relation.{StateRelation}, Slots.{SlotStates}, HaltRecovery.{WorksOnUnqueuedCommandsOnly}, LogWitness.{LogEndsHaltWitness}, RecoveryWitness.{CommandMayHaveFailedBySstsRead, RecoveredWitness}, TwoReadsWitness.{two_issued}};

use super::prerequisites::law_prerequisites;

/// There is a port that fails and is stopped, cleared and started again without COMRESET: it runs well.
pub fn law_fault_recovery_example_runs_well()
    ensures { RecoveredWitness }
{
    law_prerequisites();
}

/// There are ports that fail, as their driver looks at them: they are there for a recovery to be asked for. On the one
/// a plain read has failed, and on the other a queued one, in slot 1, while another waits.
pub fn law_a_command_may_have_failed()
    ensures plain { CommandMayHaveFailedBySstsRead first_read_device 0 HaltedByPlain }
    ensures queued { CommandMayHaveFailedBySstsRead two_issued 1 HaltedByQueued }
{}

/// There is a port that takes READ LOG EXT alone, as after a queued fault, with that command prepared: it is issued and
/// comes to its end, and the port runs well.
pub fn law_read_log_ext_can_end_halt()
    ensures { LogEndsHaltWitness }
{
    law_prerequisites();
}

/// That plain work goes on needs the bits of PxSACT, the taken commands, and a machine that agrees. Without the bits of
/// PxSACT a queued command that waits is taken; without the taken commands one that was taken before ST was cleared may
/// fail; and without a machine that agrees, the device may take a queued command from a slot whose bit of PxSACT is
/// clear.
pub fn law_unqueued_needs_sact_taken_and_agreement()
    ensures unarmed { ((uses : SlotStates) (m : Machine) (port : ℕ) (old new : Device) → IsReachable m
        → StateRelation uses m old
        → Steps old new → halt_after_start (old.port port).halt ≡ NotHalted
        → ((slot : ℕ) (t : FetchedCommand) → (old.port port).taken slot ≡ Some t
        → is_queued t.meaning.operation ≡ false)
        → (slot : ℕ) (t : FetchedCommand) → (new.port port).taken slot ≡ Some t
        → is_queued t.meaning.operation ≡ false) → ⊥ }
    ensures plain { ((uses : SlotStates) (m : Machine) (port : ℕ) (old new : Device) → IsReachable m
        → StateRelation uses m old
        → Steps old new → halt_after_start (old.port port).halt ≡ NotHalted
        → ((slot : ℕ) → (old.port port).sact slot ≡ false)
        → halt_after_start (new.port port).halt ≡ NotHalted) → ⊥ }
    ensures agreed { ((port : ℕ) (old new : Device) → Steps old new → WorksOnUnqueuedCommandsOnly (old.port port)
        → WorksOnUnqueuedCommandsOnly (new.port port)) → ⊥ }
{
    law_prerequisites();
}
