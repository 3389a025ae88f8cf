// Laws of the definitions, for callers: the clause is the theorem. Nothing that runs calls these functions.
ghost use Rattle.std.specs.Prelude.{ℕ, true, false, ◌≡◌, ◌+◌, ◌<◌, ◌≤◌, ◌++◌, All, List, length};
ghost use Rattle.ata_types.specs.{declared.Port.{Port}, declared.memory.TheConstants.{DRIVER_BYTES}};
ghost use Rattle.hba_regs.specs.{declared.reg.PortReg.TheVariants.{Cmd, Ie, Sact, Sctl}, declared.reg.Reg.TheVariants.{Ghc, Px}};
ghost use Rattle.adapter.specs.{Access.{Access, DoesAll}, Access.Access.{Loading, Storing}, Device.{Device, DevicePort}, Rules.{IsOn}, declared.command.Operation.TheVariants.{ReadLog}, declared.tape.Fault.{Fault}};
ghost use Rattle.refinement.specs.{Fragments.{TapeGrows, AccessesNoOtherPort, GainsNoMove}, PreservedParts.{DoesNotWrite}};
ghost use Rattle.error_recovery.specs.{Evidence.{BringsLastLogPage, HasFailed, ShowsFatal}, Recovery.{IsRecoveryAccess}, Witness.{MayRecoverWitness, StopWitness}};

use super::prerequisites::law_prerequisites;
use adapter::laws::law_accesses_compose;
use refinement::laws::{
    law_first_read_example_agrees, law_pxcmd_st_and_fre_writes_are_permitted,
    law_setting_changes_one_slot, law_two_queued_reads_example_agrees,
};
use refinement::recovery_witnesses::law_a_command_may_have_failed;

/// Recovery touches no register of another port, nor another port's bit of IS: so what is said of such accesses
/// (`AccessesNoOtherPort`) is so of each of its own. They write no register of the adapter's own, and of the port's
/// none but PxCMD, PxSERR, PxIS and PxCI: neither PxSCTL nor PxIE nor PxSACT. What they load and store lies in the
/// driver's frames.
pub fn law_recovery_accesses_spare_others()
    ensures spares_other_ports { (port : Port) (access : Access) → IsRecoveryAccess port access
        → AccessesNoOtherPort port access }
    ensures ghc_is_unwritten { (port : Port) (access : Access) → IsRecoveryAccess port access
        → DoesNotWrite Ghc access }
    ensures sctl_is_unwritten { (port : Port) (access : Access) → IsRecoveryAccess port access
        → DoesNotWrite (Px port Sctl) access }
    ensures ie_is_unwritten { (port : Port) (access : Access) → IsRecoveryAccess port access
        → DoesNotWrite (Px port Ie) access }
    ensures sact_is_unwritten { (port : Port) (access : Access) → IsRecoveryAccess port access
        → DoesNotWrite (Px port Sact) access }
    ensures loads { (port : Port) (at : ℕ) (bytes : List ℕ) → port.0 < 4 → IsRecoveryAccess port (Loading at bytes)
        → at + length bytes ≤ DRIVER_BYTES }
    ensures stores { (port : Port) (at : ℕ) (bytes : List ℕ) → port.0 < 4 → IsRecoveryAccess port (Storing at bytes)
        → at + length bytes ≤ DRIVER_BYTES }
{
    law_prerequisites();
}

/// What stands behind a fault in a part of a call stands behind it in the whole: a fault on the tape, where PxCMD
/// wasn't written before the part either; and the page of the log, where no other came after the part.
pub fn law_fault_evidence_of_a_part_holds_for_call()
    ensures failed { (port : Port) (early part late : List Access) (start old new end : Device) (fault : Fault)
        → IsOn start → All (DoesNotWrite Ghc) early → All (DoesNotWrite (Px port Cmd)) early
        → DoesAll early start old → DoesAll late new end → HasFailed port part old new fault
        → HasFailed port (early ++ (part ++ late)) start end fault }
    ensures log { (port : Port) (start old new end : Device) (page : List ℕ) → TapeGrows start old
        → GainsNoMove port.0 ReadLog new end → BringsLastLogPage port old new page
        → BringsLastLogPage port start end page }
{
    law_accesses_compose();
    law_prerequisites();
}

/// A port shows a fatal error, unless the bits of all three are clear.
pub fn law_fatal_bits_are_all_clear_or_shown()
    ensures { (p : DevicePort) → (((place : ℕ) → 27 ≤ place → place ≤ 29 → p.is place ≡ false) → ⊥) → ShowsFatal p }
{}

/// What `recover` asks can be met: there is a port with a plain read that failed, and one with a queued read that did.
pub fn law_recover_preconditions_can_be_met()
    ensures plain { MayRecoverWitness false }
    ensures queued { MayRecoverWitness true }
{
    law_a_command_may_have_failed();
    law_first_read_example_agrees();
    law_two_queued_reads_example_agrees();
    law_setting_changes_one_slot();
    law_prerequisites();
}

/// What `stop_for_reset` asks can be met, and what it promises: there is a port that a fatal error has broken while a
/// read is issued, and three accesses stop it.
pub fn law_stop_for_reset_contract_can_be_met()
    ensures { StopWitness }
{
    law_first_read_example_agrees();
    law_pxcmd_st_and_fre_writes_are_permitted();
    law_setting_changes_one_slot();
    law_prerequisites();
}
