// Laws of fragments of accesses, whatever their kinds are, for the crates above: the clause is the theorem. A caller
// passes `Brand`, and names its kinds in the proof of its call (`ghosts-law_access_kinds_satisfy_fragment_laws` in its
// Invariants.antt). Nothing
// calls these functions when it runs.
ghost use Rattle.std.specs.Prelude.{ℕ, ⊤, None, false, ◌≡◌, ◌⊎◌, ◌++◌, [], ◌∷◌, List, length};
ghost use Rattle.ata_types.specs.declared.Port.{Port};
ghost use Rattle.hba_regs.specs.{declared.reg.PortReg.{PortReg}, declared.reg.PortReg.TheVariants.{Sact, Ci}, declared.reg.Reg.{Reg}, declared.reg.Reg.TheVariants.{Px}};
ghost use Rattle.adapter.specs.{Access.{Access, Reads, Writes, Loads, Stores}, Access.Access.{Reading, Writing, Loading, Storing}, Device.{Device}, OneCommand.{SlotHasNoCommand}, Rules.{MayWrite, IsStable}, declared.command.Operation.{Operation}};
ghost use Rattle.refinement.specs.{Acts.{ActsByDeviceAlone, AccessesAreSimulatedByActs}, Fragments.{SomeMachineAgrees, ReadsPortOrWrites, IsSimulated, IsSimulatedChangingUses, AccessesNoOtherPort, IsSimulatedAlong, IsSimulatedAlongChangingUses, NoneWrites, GainsNoMove}, Driver.{AllFree, KeepsSlotStates, IsOwnCommandPreparedInSlot0, IsInMemoryOfFreeSlot}, PortFacts.{IsEngineStopped}, GivingUp.{slots_with_all_parked}, Laws.{FragmentLaws}, PreservedParts.{DoesNotWrite}};
ghost use Rattle.refinement.specs.{HaltRecovery.{WorksOnUnqueuedCommandsOnly}, Slots.{SlotStates, Free, Own, client_operation_of, set_slot_state}};

use super::prerequisites::law_prerequisites;
use adapter::laws::law_accesses_compose;
use std::marker::Brand;

/// Sets of a port's registers.
pub trait RegisterSets {
    /// What names a set.
    ghost Set: { Type 0 };
    /// The registers of a set.
    ghost has: { Set → PortReg → Type 0 };
}

/// What stands where a caller names no sets: one, of all registers.
impl RegisterSets for Brand {
    ghost Set = { ⊤ };

    ghost has = { λ set r. ⊤ };
}

/// Kinds of accesses, and the uses of slots with which those of a kind may be made.
pub trait AccessKindsWithSlotUses {
    /// What names a kind.
    ghost Kind: { Type 0 };
    /// The accesses of a kind.
    ghost may: { Kind → Access → Type 0 };
    /// The uses that fit them.
    ghost fits: { Kind → SlotStates → Type 0 };
}

/// What stands where a caller names no kinds: one, of all accesses, which all uses fit.
impl AccessKindsWithSlotUses for Brand {
    ghost Kind = { ⊤ };

    ghost may = { λ kind access. ⊤ };

    ghost fits = { λ kind uses. ⊤ };
}

/// Accesses that read a port's registers and write those of a set are the one or the other. They are of that port
/// (`AccessesNoOtherPort`), spare its other registers, and are so of each wider set.
pub fn law_port_register_accesses_are_of_port<R: RegisterSets>()
    ensures is_reading_or_writing { (set : R.Set) (port : Port) (access : Access)
        → ReadsPortOrWrites (R.has set) port access
        → ((r : PortReg) × (v : ℕ) × (access ≡ Reading (Px port r) v))
        ⊎ ((r : PortReg) × (v : ℕ) × (access ≡ Writing (Px port r) v) × R.has set r) }
    ensures is_of_port { (set : R.Set) (port : Port) (access : Access) → ReadsPortOrWrites (R.has set) port access
        → AccessesNoOtherPort port access }
    ensures spares { (set : R.Set) (port : Port) (r : PortReg) → (R.has set r → ⊥) → (access : Access)
        → ReadsPortOrWrites (R.has set) port access → DoesNotWrite (Px port r) access }
    ensures wider { (set more : R.Set) (port : Port) → ((r : PortReg) → R.has set r → R.has more r) → (access : Access)
        → ReadsPortOrWrites (R.has set) port access → ReadsPortOrWrites (R.has more) port access }
{}

/// What is a fragment that is simulated: no access is; and one of its kind is, where it is a reading, a load, a write
/// that is permitted and leaves each slot to its use, or, while no reset is pending, the issue of a command of the
/// driver's own.
pub fn law_slot_keeping_accesses_are_simulated<K: AccessKindsWithSlotUses>()
    ensures no_access { (kind : K.Kind) (d : Device)
        → IsSimulatedAlong (λ made. made ≡ []) (K.may kind) (K.fits kind) d d }
    ensures reads { (kind : K.Kind) (r : Reg) (v : ℕ) (old new : Device) → K.may kind (Reading r v) → Reads r v old new
        → IsSimulatedAlong (λ made. made ≡ Reading r v ∷ []) (K.may kind) (K.fits kind) old new }
    ensures loads { (kind : K.Kind) (at : ℕ) (bytes : List ℕ) (old new : Device) → K.may kind (Loading at bytes)
        → Loads at bytes old new
        → IsSimulatedAlong (λ made. made ≡ Loading at bytes ∷ []) (K.may kind) (K.fits kind) old new }
    ensures writes { (kind : K.Kind) (r : Reg) (v : ℕ) (old new : Device) → K.may kind (Writing r v)
        → IsStable (MayWrite r v) old → ((uses : SlotStates) → K.fits kind uses → KeepsSlotStates uses r v old)
        → Writes r v old new
        → IsSimulatedAlong (λ made. made ≡ Writing r v ∷ []) (K.may kind) (K.fits kind) old new }
    ensures own_command_is_issued { (kind : K.Kind) (port : Port) (o : Operation) (v : ℕ) (old new : Device)
        → K.may kind (Writing (Px port Ci) v) → old.hr ≡ false
        → ((uses : SlotStates) → K.fits kind uses → IsOwnCommandPreparedInSlot0 uses old port.0 o v)
        → Writes (Px port Ci) v old new
        → IsSimulatedChangingUses (K.may kind) (K.fits kind) (λ uses. set_slot_state uses port.0 0 (Own o)) old new }
{}

/// So is a store into the header or table of a free slot, or into the scratch frame of a port whose slot 0 is free.
pub fn law_free_slot_stores_are_simulated<K: AccessKindsWithSlotUses>()
    ensures { (kind : K.Kind) (at : ℕ) (bytes : List ℕ) (old new : Device) → K.may kind (Storing at bytes)
        → ((uses : SlotStates) → K.fits kind uses → IsInMemoryOfFreeSlot uses at (length bytes))
        → Stores at bytes old new
        → IsSimulated (K.may kind) (K.fits kind) old new }
{}

/// Fragments that are followed compose: by one after another, where the second is of the first's kind or a narrower
/// one, and the uses that the first leads to fit it. One is so with each wider kind whose uses fit it. And a command of
/// the driver's own that was issued meanwhile and is over leaves its slot.
pub fn law_fragments_compose<K: AccessKindsWithSlotUses>()
    ensures fragments_join { (kind then : K.Kind) (first second : SlotStates → SlotStates)
        → ((access : Access) → K.may then access → K.may kind access)
        → ((uses : SlotStates) → K.fits kind uses → K.fits then (first uses)) → (old mid new : Device)
        → (a : IsSimulatedChangingUses (K.may kind) (K.fits kind) first old mid)
        → (b : IsSimulatedChangingUses (K.may then) (K.fits then) second mid new)
        → IsSimulatedAlongChangingUses (λ made. made ≡ a.is_driven.accesses ++ b.is_driven.accesses) (K.may kind)
        (K.fits kind)
        (λ uses. second (first uses)) old new }
    ensures wider { (kind more : K.Kind) (next : SlotStates → SlotStates)
        → ((access : Access) → K.may kind access → K.may more access)
        → ((uses : SlotStates) → K.fits more uses → K.fits kind uses) → (old new : Device)
        → (a : IsSimulatedChangingUses (K.may kind) (K.fits kind) next old new)
        → IsSimulatedAlongChangingUses (λ made. made ≡ a.is_driven.accesses) (K.may more) (K.fits more) next old new }
    ensures own_command_is_over { (kind : K.Kind) (port : Port) (o : Operation) (v : ℕ) (old new : Device)
        → K.may kind (Writing (Px port Ci) v) → ((uses : SlotStates) → K.fits kind uses → uses port.0 0 ≡ Free)
        → SlotHasNoCommand (new.port port.0) 0
        → (a : IsSimulatedChangingUses (K.may kind) (K.fits kind) (λ uses. set_slot_state uses port.0 0 (Own o)) old
        new)
        → IsSimulatedAlong (λ made. made ≡ a.is_driven.accesses) (K.may kind) (K.fits kind) old new }
{}

/// What a fragment that is simulated gives: some machine goes on agreeing, with the uses that it leads to. And a port
/// of which it writes neither PxCI nor PxSACT is sent no page by a command that isn't in its slot 0. One that works on
/// plain commands alone goes on so.
pub fn law_simulated_fragments_keep_agreement<K: AccessKindsWithSlotUses>()
    ensures agreed { (kind : K.Kind) (next : SlotStates → SlotStates) (uses : SlotStates) (old new : Device)
        → K.fits kind uses
        → IsSimulatedChangingUses (K.may kind) (K.fits kind) next old new → SomeMachineAgrees uses old
        → SomeMachineAgrees (next uses) new }
    ensures gains_no_move { (kind : K.Kind) (next : SlotStates → SlotStates) (uses : SlotStates) (port : Port)
        (o : Operation)
        (old new : Device)
        → K.fits kind uses → NoneWrites (K.may kind) (Px port Ci) → NoneWrites (K.may kind) (Px port Sact)
        → client_operation_of o ≡ None → (uses port.0 0 ≡ Own o → ⊥)
        → IsSimulatedChangingUses (K.may kind) (K.fits kind) next old new
        → SomeMachineAgrees uses old → GainsNoMove port.0 o old new }
    ensures works_plainly_still { (kind : K.Kind) (next : SlotStates → SlotStates) (uses : SlotStates) (port : Port)
        (old new : Device)
        → K.fits kind uses → NoneWrites (K.may kind) (Px port Sact)
        → IsSimulatedChangingUses (K.may kind) (K.fits kind) next old
        new → SomeMachineAgrees uses old
        → WorksOnUnqueuedCommandsOnly (old.port port.0) → WorksOnUnqueuedCommandsOnly (new.port port.0) }
{
    law_prerequisites();
}

/// A fragment that is simulated is a part of a call, in which the device alone makes steps. And where a port's engine
/// has stopped after it, the driver may give up all slots of the port, and go on with another fragment, of any kind
/// that a port without a used slot allows: the two are one part, too.
pub fn law_simulated_fragments_are_call_parts<K: AccessKindsWithSlotUses>()
    ensures is_a_part { (kind : K.Kind) (next : SlotStates → SlotStates) (old new : Device)
        → (a : IsSimulatedChangingUses (K.may kind) (K.fits kind) next old new)
        → AccessesAreSimulatedByActs a.is_driven.accesses (λ s m. K.fits kind s.slot_states)
        (λ s. record s { slot_states = next s.slot_states })
        ActsByDeviceAlone
        old new }
    ensures giving_up { (kind then : K.Kind) (next : SlotStates → SlotStates) (port : ℕ) (old mid new : Device)
        → (a : IsSimulated (K.may kind) (K.fits kind) old mid) → IsEngineStopped (mid.port port)
        → ((uses : SlotStates) → AllFree uses port → K.fits then uses)
        → (b : IsSimulatedChangingUses (K.may then) (K.fits then) next mid new)
        → AccessesAreSimulatedByActs (a.is_driven.accesses ++ b.is_driven.accesses)
        (λ s m. K.fits kind s.slot_states)
        (λ s. record (slots_with_all_parked port s) { slot_states = next (slots_with_all_parked port s).slot_states })
        ActsByDeviceAlone old
        new }
{
    law_accesses_compose();
}

/// What these laws say of a crate's kinds, for its proofs.
pub fn law_access_kinds_satisfy_fragment_laws<K: AccessKindsWithSlotUses>()
    ensures { FragmentLaws K.Kind K.may K.fits }
{
    law_slot_keeping_accesses_are_simulated::<K>();
    law_free_slot_stores_are_simulated::<K>();
    law_fragments_compose::<K>();
    law_simulated_fragments_keep_agreement::<K>();
    law_simulated_fragments_are_call_parts::<K>();
}
