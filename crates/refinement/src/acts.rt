// Laws of a part of a call, act by act: the clause is the theorem. Nothing that runs calls these functions.
ghost use Rattle.std.specs.Prelude.{ℕ, All, None, Some, ◌≡◌, ◌++◌, List, [], ◌∷◌};
ghost use Rattle.ata_types.specs.declared.Port.{Port};
ghost use Rattle.hba_regs.specs.{declared.reg.Reg.TheVariants.{Px}, declared.reg.PortReg.TheVariants.{Sact}};
ghost use Rattle.adapter.specs.{Access.{Access, Does, DoesAll}, declared.command.Operation.{Operation}};
ghost use Rattle.block_machine.specs.{Events.{AllByDevice, IsByDevice}, Histories.{IsReachable, IsSimulatedBySteps}, Expected.{after}, State.{Machine}, Steps.{Step, IsEnabled, after_step}};
ghost use Rattle.refinement.specs.{Acts.{Act, IsActDone, AreActsDone, IsAtMostOneStepOrIssuesByPxciWrite, accesses_of, newest_first_steps_of_acts}, Fragments.{GainsNoMove}, Driver.{DriverState, DriverRelation, IsBackedByDeviceAlone, DriverAdvances, EndsInOwnStepsAfterDeviceSteps}, PreservedParts.{DoesNotWrite}, HaltRecovery.{WorksOnUnqueuedCommandsOnly}, Slots.{Own, client_operation_of}};

use super::prerequisites::law_prerequisites;

/// What is one act: an access that the machine follows by the device's steps, or that ends with what the driver
/// decides; and, without an access, a step of the driver's own, or none where it knows of the same device something
/// else.
pub fn law_an_access_or_own_step_is_one_act()
    ensures access { (k later : DriverState) (m : Machine) (access : Access)
        → IsSimulatedBySteps DriverRelation k later (IsBackedByDeviceAlone k.device later.device) → IsReachable m
        → DriverRelation m k
        → Does access k.device later.device → (steps : List Step) × AllByDevice steps
        × IsActDone k m (record { access = Some access; steps = steps; state_after = later }) }
    ensures access_with_own_steps { (k later : DriverState) (m : Machine) (access : Access) (own : List Step)
        → (e : EndsInOwnStepsAfterDeviceSteps k m own later) → IsAtMostOneStepOrIssuesByPxciWrite access own
        → Does access k.device later.device
        → IsActDone k m (record { access = Some access; steps = own ++ e.steps; state_after = later }) }
    ensures own { (k later : DriverState) (m : Machine) (step : Step) → (IsByDevice step → ⊥) → IsEnabled m step
        → later.device ≡ k.device → DriverRelation (after_step m step) later
        → IsActDone k m (record { access = None; steps = step ∷ []; state_after = later }) }
    ensures same_device_is_an_act { (k later : DriverState) (m : Machine) → later.device ≡ k.device
        → DriverRelation m later
        → IsActDone k m (record { access = None; steps = []; state_after = later }) }
{}

/// Parts of a call compose: no act is one, and so is one after another, with the accesses and the steps of both.
pub fn law_acts_compose()
    ensures no_act { (k : DriverState) (m : Machine) → AreActsDone [] k m k }
    ensures acts_join { (early late : List Act) (a b c : DriverState) (m : Machine) → AreActsDone early a m b
        → AreActsDone late b (after m (newest_first_steps_of_acts early)) c → AreActsDone (early ++ late) a m c }
    ensures accesses { (early late : List Act) → accesses_of (early ++ late) ≡ accesses_of early ++ accesses_of late }
    ensures steps { (early late : List Act) → newest_first_steps_of_acts (early ++ late)
        ≡ newest_first_steps_of_acts late ++ newest_first_steps_of_acts early }
{}

/// What acts give: the driver goes by all their steps, and their accesses are made. A port for which slot 0 has no
/// command of an operation, before any of them, is sent no page by it; and where none of them writes its PxSACT, one
/// that works on plain commands alone goes on so.
pub fn law_acts_advance_driver()
    ensures driver_advances { (acts : List Act) (k later : DriverState) (m : Machine) → DriverRelation m k
        → AreActsDone acts k m later
        → DriverAdvances k m (newest_first_steps_of_acts acts) later }
    ensures does { (acts : List Act) (k later : DriverState) (m : Machine) → AreActsDone acts k m later
        → DoesAll (accesses_of acts) k.device later.device }
    ensures gains_no_move { (acts : List Act) (k later : DriverState) (m : Machine) (port : ℕ) (o : Operation)
        → client_operation_of o ≡ None
        → IsReachable m → DriverRelation m k → (k.slot_states port 0 ≡ Own o → ⊥)
        → All (λ act. act.state_after.slot_states port 0 ≡ Own o → ⊥) acts
        → AreActsDone acts k m later → GainsNoMove port o k.device later.device }
    ensures works_plainly_still { (acts : List Act) (k later : DriverState) (m : Machine) (port : Port) → IsReachable m
        → DriverRelation m k
        → All (DoesNotWrite (Px port Sact)) (accesses_of acts) → AreActsDone acts k m later
        → WorksOnUnqueuedCommandsOnly (k.device.port port.0) → WorksOnUnqueuedCommandsOnly (later.device.port port.0) }
{
    law_prerequisites();
}
