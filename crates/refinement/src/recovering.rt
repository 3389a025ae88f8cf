// Laws of how a port runs well again without COMRESET: the clause is the theorem. Nothing that runs calls these
// functions.
ghost use Rattle.std.specs.Prelude.{ℕ, List, All, true, false, ◌≡◌, ◌≢◌, ◌≤◌};
ghost use Rattle.ata_types.specs.declared.Port.{Port};
ghost use Rattle.hba_regs.specs.{Bits.{bit}, declared.reg.Reg.TheVariants.{Px}, declared.reg.PortReg.TheVariants.{Is, Cmd, Sctl, Sact, Ci}};
ghost use Rattle.adapter.specs.{Access.{Reads, Writes, Access, Does}, Device.{DevicePort, Device}, Device.Halt.{NotHalted}, Steps.{Steps}, declared.command.Operation.{Operation}};
ghost use Rattle.block_machine.specs.{Histories.{IsReachable}, State.{Machine}};
ghost use Rattle.refinement.specs.{Relation.{StateRelation}, Acts.{Act, AreActsDone, accesses_of}, Driver.{IsOwnCommandPreparedInSlot0, DriverState, DriverRelation}, Errors.{NoFatalErrors}, PortFacts.{RunsWell, PxisValueTellsNoTrouble, IsCleanToStart}, PreservedParts.{DoesNotWrite, NoPlugEvents}, Slots.{SlotState, SlotStates, Free, Own, set_slot_state}, Staying.{StaysOverStepsIfMachineAgrees, StaysUnlessWrittenIfMachineAgrees}};
ghost use Rattle.refinement.specs.{StartedPort.{IsUpForStart, IsStarted, WritesCmdOnlyWithStSet}, Halting.{HaltFitsTakenCommands, HaltFitsTakenCommandsIfSt}, HaltRecovery.{IsLinked, WorksOnUnqueuedCommandsOnly, RunsLinked, PlainSlot0IsIssuedOrNotHalted, FaultLeavesIssued}};

use super::prerequisites::law_prerequisites;

/// While no reset is pending, a link that is up stays up if the tape has no disk that goes or comes, whatever else the
/// device does, faults and fatal errors included, and over each access except a write of PxSCTL. This holds for a port
/// that was started, and for one whose link came up.
pub fn law_link_stays_online()
    ensures steps { (port : ℕ) (old new : Device) → old.hr ≡ false → NoPlugEvents port old new → Steps old new
        → IsLinked (old.port port) → IsLinked (new.port port) }
    ensures access { (port : Port) (access : Access) (old new : Device) → old.hr ≡ false
        → DoesNotWrite (Px port Sctl) access → NoPlugEvents port.0 old new → Does access old new
        → IsLinked (old.port port.0) → IsLinked (new.port port.0) }
    ensures started_is_linked { (p : DevicePort) → IsStarted p → p.sctl_det ≢ 1 → IsLinked p }
    ensures up { (p : DevicePort) → IsUpForStart p → IsLinked p }
{
    law_prerequisites();
}

/// If the machine agrees with the device, a port that works only on plain commands goes on so, whatever the device
/// does, even over a reset that finishes, and over each access except a write of PxSACT: faults halt it in a way that
/// ends when ST is set. A port that runs without a halt does so exactly if no bit of PxSACT is set. If its link is
/// there, it is up for a start. So if ST is set then, and PxIS is read with no trouble right after that, the port runs
/// well.
pub fn law_port_stays_unqueued_until_sact_written()
    ensures steps { StaysOverStepsIfMachineAgrees WorksOnUnqueuedCommandsOnly }
    ensures access { StaysUnlessWrittenIfMachineAgrees Sact WorksOnUnqueuedCommandsOnly }
    ensures runs { (uses : SlotStates) (m : Machine) (port : ℕ) (d : Device) → StateRelation uses m d
        → (d.port port).st ≡ true
        → (d.port port).halt ≡ NotHalted → ((slot : ℕ) → (d.port port).sact slot ≡ false)
        → WorksOnUnqueuedCommandsOnly (d.port port) }
    ensures link_is_up_for_start { (p : DevicePort) → IsLinked p → WorksOnUnqueuedCommandsOnly p → IsUpForStart p }
    ensures found { (port : Port) (v causes : ℕ) (old mid new : Device) → old.hr ≡ false → (old.port port.0).st ≡ false
        → (old.port port.0).cr ≡ false → bit v 0 ≡ true → IsLinked (old.port port.0)
        → WorksOnUnqueuedCommandsOnly (old.port port.0)
        → Writes (Px port Cmd) v old mid → Reads (Px port Is) causes mid new → PxisValueTellsNoTrouble causes
        → RunsWell (new.port port.0) }
{
    law_prerequisites();
}

/// While ST is one, READ LOG EXT isn't awaited, and a queued command is taken if one has halted the port. This stays so
/// if the machine agrees with the device, whatever the device does, over each access except a write of PxCMD, and over
/// acts without one. It holds without a halt, and for a port that works only on plain commands.
pub fn law_halt_fits_taken_until_pxcmd_written()
    ensures steps { StaysOverStepsIfMachineAgrees HaltFitsTakenCommandsIfSt }
    ensures access { StaysUnlessWrittenIfMachineAgrees Cmd HaltFitsTakenCommandsIfSt }
    ensures acts { (port : Port) (acts : List Act) (k later : DriverState) (m : Machine) → IsReachable m
        → DriverRelation m k
        → AreActsDone acts k m later → All (DoesNotWrite (Px port Cmd)) (accesses_of acts)
        → HaltFitsTakenCommandsIfSt (k.device.port port.0)
        → HaltFitsTakenCommandsIfSt (later.device.port port.0) }
    ensures without_halt { (p : DevicePort) → p.halt ≡ NotHalted → HaltFitsTakenCommands p }
    ensures plain { (p : DevicePort) → WorksOnUnqueuedCommandsOnly p → HaltFitsTakenCommands p }
{
    law_prerequisites();
}

/// If ST is set while the engine stands and the link is up, the port runs, though a queued fault may still halt it. It
/// runs on if the tape has no fatal error of the port and no disk that goes or comes, whatever else the device does,
/// and over each access that neither clears ST nor writes PxSCTL. It is started if no fault halts it.
pub fn law_port_runs_on_without_fatal_or_plug()
    ensures starts { (port : Port) (v : ℕ) (old new : Device) → old.hr ≡ false → (old.port port.0).st ≡ false
        → (old.port port.0).cr ≡ false → bit v 0 ≡ true → NoPlugEvents port.0 old new → Writes (Px port Cmd) v old new
        → IsLinked (old.port port.0) → RunsLinked (new.port port.0) }
    ensures steps { (port : ℕ) (old new : Device) → old.hr ≡ false → NoPlugEvents port old new
        → NoFatalErrors port old new
        → Steps old new → RunsLinked (old.port port) → RunsLinked (new.port port) }
    ensures access { (port : Port) (access : Access) (old new : Device) → old.hr ≡ false
        → WritesCmdOnlyWithStSet port access
        → DoesNotWrite (Px port Sctl) access → NoPlugEvents port.0 old new → NoFatalErrors port.0 old new
        → Does access old new → RunsLinked (old.port port.0) → RunsLinked (new.port port.0) }
    ensures started { (p : DevicePort) → RunsLinked p → p.halt ≡ NotHalted → IsStarted p }
{
    law_prerequisites();
}

/// The write of PxCI issues a command of the driver's own on a port with no other, and its end ends a halt. This stays
/// so, whatever the device does, and over each access that doesn't clear ST, doesn't write PxSACT and leaves no reset
/// pending. After PxCI is read with bit 0 clear, no fault halts the port. If PxIS is read then with no trouble, it runs
/// well.
pub fn law_own_command_end_ends_halt()
    ensures issued { (uses : SlotStates) (m : Machine) (port : Port) (o : Operation) (v : ℕ) (old new : Device)
        → IsReachable m
        → StateRelation uses m old → old.hr ≡ false → ((slot : ℕ) → slot ≢ 0 → uses port.0 slot ≡ Free)
        → IsOwnCommandPreparedInSlot0 uses old port.0 o v → Writes (Px port Ci) v old new
        → PlainSlot0IsIssuedOrNotHalted (set_slot_state uses port.0 0 (Own o)) port.0 new }
    ensures steps { (uses : SlotStates) (m : Machine) (port : ℕ) (old new : Device) → IsReachable m
        → StateRelation uses m old
        → Steps old new → PlainSlot0IsIssuedOrNotHalted uses port old → PlainSlot0IsIssuedOrNotHalted uses port new }
    ensures access { (uses : SlotStates) (m : Machine) (port : Port) (access : Access) (old new : Device)
        → IsReachable m
        → StateRelation uses m old → WritesCmdOnlyWithStSet port access → DoesNotWrite (Px port Sact) access → new.hr
        ≡ false
        → Does access old new → PlainSlot0IsIssuedOrNotHalted uses port.0 old
        → PlainSlot0IsIssuedOrNotHalted uses port.0 new }
    ensures no_halt_once_over { (uses : SlotStates) (m : Machine) (port : Port) (v : ℕ) (old new : Device)
        → IsReachable m
        → StateRelation uses m old → PlainSlot0IsIssuedOrNotHalted uses port.0 old → Reads (Px port Ci) v old new
        → bit v 0 ≡ false
        → (new.port port.0).halt ≡ NotHalted }
    ensures found { (uses : SlotStates) (m : Machine) (port : Port) (v causes : ℕ) (old mid new : Device)
        → IsReachable m
        → StateRelation uses m old → PlainSlot0IsIssuedOrNotHalted uses port.0 old → RunsLinked (old.port port.0)
        → Reads (Px port Ci) v old mid
        → bit v 0 ≡ false → Reads (Px port Is) causes mid new → PxisValueTellsNoTrouble causes
        → RunsWell (new.port port.0) }
{
    law_prerequisites();
}

/// Let ST be set on a quiet port with no slot in use and no bit of PxSACT. From then on, while only slot 0 is used, by
/// a plain command, a fault shows only while that command hasn't ended. This stays so, whatever the device does, when
/// slot 0 is put to use, and over each access that clears no ST, writes neither PxSACT nor PxSCTL and leaves no reset
/// pending. So after PxCI is read with bit 0 clear, TFES is clear: a command that a fault has halted hasn't ended. Then
/// the port runs well if no other bit shows trouble.
pub fn law_unqueued_ci_read_clear_means_tfes_clear()
    ensures starts { (uses : SlotStates) (port : Port) (v : ℕ) (old new : Device) → old.hr ≡ false → bit v 0 ≡ true
        → ((slot : ℕ) → uses port.0 slot ≡ Free) → (old.port port.0).sact 0 ≡ false → IsCleanToStart (old.port port.0)
        → (old.port port.0).st ≡ false → Writes (Px port Cmd) v old new → FaultLeavesIssued uses port.0 new }
    ensures slot_0_may_be_used { (uses : SlotStates) (port : ℕ) (u : SlotState) (d : Device)
        → FaultLeavesIssued uses port d
        → FaultLeavesIssued (set_slot_state uses port 0 u) port d }
    ensures steps { (uses : SlotStates) (m : Machine) (port : ℕ) (old new : Device) → IsReachable m
        → StateRelation uses m old
        → Steps old new → FaultLeavesIssued uses port old → FaultLeavesIssued uses port new }
    ensures access { (uses : SlotStates) (m : Machine) (port : Port) (access : Access) (old new : Device)
        → IsReachable m
        → StateRelation uses m old → WritesCmdOnlyWithStSet port access → DoesNotWrite (Px port Sact) access
        → DoesNotWrite (Px port Sctl) access → new.hr ≡ false → Does access old new
        → FaultLeavesIssued uses port.0 old
        → FaultLeavesIssued uses port.0 new }
    ensures tfes_is_clear_once_over { (uses : SlotStates) (m : Machine) (port : Port) (v : ℕ) (old new : Device)
        → IsReachable m
        → StateRelation uses m old → FaultLeavesIssued uses port.0 old → Reads (Px port Ci) v old new → bit v 0 ≡ false
        → (new.port port.0).is 30 ≡ false }
    ensures runs_well { (p : DevicePort) → RunsLinked p → p.halt ≡ NotHalted → p.is 30 ≡ false → p.serr_n ≡ false
        → p.serr_x ≡ false → ((place : ℕ) → 27 ≤ place → place ≤ 29 → p.is place ≡ false) → RunsWell p }
{
    law_prerequisites();
}
