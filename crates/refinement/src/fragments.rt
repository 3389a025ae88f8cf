// Laws of fragments of accesses, for the crates above: the clause is the theorem. Nothing that runs calls these
// functions.
ghost use Rattle.std.specs.Prelude.{ℕ, false, ◌≡◌, ◌≢◌, ◌++◌, List, Contains, length, None};
ghost use Rattle.ata_types.specs.declared.Port.{Port};
ghost use Rattle.hba_regs.specs.{Bits.{bit}, declared.reg.PortReg.{PortReg}, declared.reg.PortReg.TheVariants.{Cmd, Is, Sctl, Sact, Ci}, declared.reg.Reg.TheVariants.{Ghc, Px}};
ghost use Rattle.adapter.specs.{Access.{Access, Does, Reads, Writes, Loads, Stores}, Device.{DevicePort, Device}, Idle.{IsIdle, DisksAreKnownIfTheyTell}, OneCommand.{SlotHasNoCommand}, Rules.{IsOn, MayWrite, IsStable}, Steps.{Steps}, declared.command.Operation.{Operation}, declared.tape.Entry.{Entry}};
ghost use Rattle.refinement.specs.{Fragments.{AnyAccess, TapeGrows, AnySlotStates, SameSlotStates, SomeMachineAgrees, IsDrivenBy, ReadsPortOrWrites, IsSimulated, IsSimulatedChangingUses, AccessesNoOtherPort, OnlyDeviceChangesPort, NoCommandIsIssuedOrTaken, GainsNoMove}, Driver.{KeepsSlotStates, IsInMemoryOfFreeSlot}, PortFacts.{RecordsFaultsIfSt}, Laws.{TapeLaws}, PreservedParts.{SameAdapter, DoesNotWrite}};
ghost use Rattle.refinement.specs.Slots.{SlotStates, Free, Own, client_operation_of, set_slot_state};

use super::port_facts::{
    law_serr_nx_rise_only_by_plugs_if_no_link_due, law_tape_absence_composes,
    law_undisturbed_has_no_error_or_plug,
};
use super::prerequisites::law_prerequisites;

/// Accesses that touch no register of another port, nor another port's bit of IS (`AccessesNoOtherPort`), leave every
/// other port to the device, with what readings noted of it, and with the record of its faults; and where they are
/// followed, its disk sends no page for which its slot 0 has no command. What is left so in two fragments is left in
/// both. They write neither GHC nor a register of another port, and an adapter that is on stays on. Any accesses leave
/// the adapter what it is, and the tape only gains.
pub fn law_other_ports_are_untouched()
    ensures other_port_is_untouched { (port : Port) (q : ℕ) (old new : Device) → q ≢ port.0 → IsOn old
        → IsDrivenBy (AccessesNoOtherPort port) old new
        → OnlyDeviceChangesPort (old.port q) (new.port q) }
    ensures recorded { (port : Port) (q : ℕ) (old new : Device) → q ≢ port.0
        → IsDrivenBy (AccessesNoOtherPort port) old new
        → RecordsFaultsIfSt old.tape (old.port q) q → RecordsFaultsIfSt new.tape (new.port q) q }
    ensures silent { (port q : Port) (uses : SlotStates) (next : SlotStates → SlotStates) (o : Operation)
        (old new : Device)
        → q.0 ≢ port.0 → IsSimulatedChangingUses (AccessesNoOtherPort port) (SameSlotStates uses) next old new
        → SomeMachineAgrees uses old
        → client_operation_of o ≡ None
        → (uses q.0 0 ≡ Own o → ⊥) → GainsNoMove q.0 o old new }
    ensures reflexive { (p : DevicePort) → OnlyDeviceChangesPort p p }
    ensures transitive { (old mid new : DevicePort) → OnlyDeviceChangesPort old mid → OnlyDeviceChangesPort mid new
        → OnlyDeviceChangesPort old new }
    ensures spares { (port q : Port) (r : PortReg) → q.0 ≢ port.0 → (access : Access) → AccessesNoOtherPort port access
        → DoesNotWrite (Px q r) access }
    ensures spares_host { (port : Port) (access : Access) → AccessesNoOtherPort port access → DoesNotWrite Ghc access }
    ensures adapter_stays_on { (port : Port) (old new : Device) → IsOn old
        → IsDrivenBy (AccessesNoOtherPort port) old new
        → IsOn new }
    ensures adapter_is_same { (old new : Device) → IsDrivenBy AnyAccess old new → SameAdapter old new }
    ensures tape_grows { (old new : Device) → IsDrivenBy AnyAccess old new → (gained : List Entry)
        × (new.tape ≡ old.tape ++ gained) }
{
    law_prerequisites();
}

/// Over accesses that are simulated some machine goes on agreeing with the same uses. So it does once a command of the
/// driver's own that is over has left its slot. And with an idle device, whose disks tell their sectors if the adapter
/// is one that tells, some machine agrees where no slot is used.
pub fn law_some_machine_agrees_after_simulation()
    ensures followed { (uses : SlotStates) (old new : Device)
        → IsSimulated AnyAccess (SameSlotStates uses) old new
        → SomeMachineAgrees uses old → SomeMachineAgrees uses new }
    ensures own_command_over_frees_slot { (uses : SlotStates) (port : ℕ) (o : Operation) (d : Device)
        → uses port 0 ≡ Free
        → SlotHasNoCommand (d.port port) 0 → SomeMachineAgrees (set_slot_state uses port 0 (Own o)) d
        → SomeMachineAgrees uses d }
    ensures idle_device_agrees { (d : Device) → IsIdle d → DisksAreKnownIfTheyTell d
        → SomeMachineAgrees (λ port slot. Free) d }
{}

/// The tape only gains: over none, over each access, and over one fragment after another.
pub fn law_tapes_grow()
    ensures reflexive { (d : Device) → TapeGrows d d }
    ensures access { (access : Access) (old new : Device) → Does access old new → TapeGrows old new }
    ensures transitive { (old mid new : Device) → TapeGrows old mid → TapeGrows mid new → TapeGrows old new }
{}

/// What laws say of the tape, for the proofs of the crates above.
pub fn law_tapes_satisfy_tape_laws()
    ensures { TapeLaws }
{
    law_tapes_grow();
    law_tape_absence_composes();
    law_undisturbed_has_no_error_or_plug();
    law_serr_nx_rise_only_by_plugs_if_no_link_due();
}

/// A write of a register of the port but PxSCTL and PxIS leaves all that is noted of the port: but when ST was set,
/// where PxCMD is written with ST one.
pub fn law_px_writes_but_sctl_pxis_st_keep_notes()
    ensures others { (port : Port) (r : PortReg) (v : ℕ) (old new : Device) → r ≢ Sctl → r ≢ Is
        → (r ≡ Cmd → bit v 0 ≡ false) → Writes (Px port r) v old new
        → (new.port port.0).notes ≡ (old.port port.0).notes }
    ensures start { (port : Port) (v : ℕ) (old new : Device) → Writes (Px port Cmd) v old new
        → (new.port port.0).notes ≡ record (old.port port.0).notes { st_set_at = (new.port port.0).notes.st_set_at } }
{
    law_prerequisites();
}

/// While a port's engine stands, each bit of PxIS that is clear stays so: whatever the device does, and over each
/// access.
pub fn law_stopped_engine_keeps_pxis_bits_clear()
    ensures steps { (port place : ℕ) (old new : Device) → (old.port port).cr ≡ false → Steps old new
        → (old.port port).is place ≡ false → (new.port port).is place ≡ false }
    ensures access { (port : Port) (place : ℕ) (access : Access) (old new : Device) → (old.port port.0).cr ≡ false
        → Does access old new → (old.port port.0).is place ≡ false → (new.port port.0).is place ≡ false }
{}

/// A port none of whose slots has a command moves nothing: whatever the device does, over each access, and over
/// accesses of the port's registers that write no PxCI, after which none has one still. Where none of two parts brings
/// a page, the whole brings none.
pub fn law_port_without_command_gains_no_move()
    ensures steps { (port : ℕ) (o : Operation) (old new : Device) → NoCommandIsIssuedOrTaken (old.port port)
        → Steps old new
        → GainsNoMove port o old new }
    ensures access { (port : ℕ) (o : Operation) (access : Access) (old new : Device)
        → NoCommandIsIssuedOrTaken (old.port port)
        → Does access old new → GainsNoMove port o old new }
    ensures port_accesses_gain_no_move { (port : Port) (o : Operation) (old new : Device)
        → IsDrivenBy (ReadsPortOrWrites (λ r. r ≢ Ci) port) old new → NoCommandIsIssuedOrTaken (old.port port.0)
        → GainsNoMove port.0 o old new × NoCommandIsIssuedOrTaken (new.port port.0) }
    ensures transitive { (port : ℕ) (o : Operation) (old mid new : Device) → GainsNoMove port o old mid
        → GainsNoMove port o mid new → GainsNoMove port o old new }
{
    law_prerequisites();
}
