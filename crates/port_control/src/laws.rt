// Laws of the definitions, for callers: the clause is the theorem. Nothing that runs calls these functions.
ghost use Rattle.std.specs.Prelude.{ℕ, ◌++◌, List};
ghost use Rattle.ata_types.specs.declared.Port.{Port};
ghost use Rattle.adapter.specs.Access.{Access};
ghost use Rattle.refinement.specs.{Fragments.{ReadsPortOrWrites, AccessesNoOtherPort}, PreservedParts.{DoesNotWrite}};
ghost use Rattle.hba_regs.specs.{declared.reg.PortReg.TheVariants.{Sctl}, declared.reg.Reg.TheVariants.{Px}};
ghost use Rattle.port_control.specs.{Engines.{FailsToStop, FailsToStopReceiving, EngineFalls, EngineSticks}, Ports.{IsCmdOrBaseRegister, IsSctlSerrOrIs, IsCommandRegister}};

use super::prerequisites::law_prerequisites;

/// What accesses tell of a port's engines, they tell with others after them, and with others before them. Those of a
/// call that failed to stop one show that it is stuck.
pub fn law_engine_evidence_shows_in_longer_traces()
    ensures failing_sticks { (port : Port) (accesses : List Access) → FailsToStop port accesses
        → EngineSticks port accesses }
    ensures failing_receiving_sticks { (port : Port) (accesses : List Access) → FailsToStopReceiving port accesses
        → EngineSticks port accesses }
    ensures falls_with_later_accesses { (early late : List Access) (start running : ℕ) (port : Port)
        → EngineFalls start running port early
        → EngineFalls start running port (early ++ late) }
    ensures falls_with_earlier_accesses { (early late : List Access) (start running : ℕ) (port : Port)
        → EngineFalls start running port late
        → EngineFalls start running port (early ++ late) }
    ensures sticks_with_later_accesses { (early late : List Access) (port : Port) → EngineSticks port early
        → EngineSticks port (early ++ late) }
    ensures sticks_with_earlier_accesses { (early late : List Access) (port : Port) → EngineSticks port late
        → EngineSticks port (early ++ late) }
{}

/// No call touches a register of another port, nor another port's bit of IS: so what is said of such accesses
/// (`AccessesNoOtherPort`) is so of each. Those that stop and start, and those that receive FISes, don't write PxSCTL.
pub fn law_port_control_spares_other_ports()
    ensures cmd_access_is_of_port { (port : Port) (access : Access) → ReadsPortOrWrites IsCommandRegister port access
        → AccessesNoOtherPort port access × DoesNotWrite (Px port Sctl) access }
    ensures placing { (port : Port) (access : Access) → ReadsPortOrWrites IsCmdOrBaseRegister port access
        → AccessesNoOtherPort port access × DoesNotWrite (Px port Sctl) access }
    ensures resetting { (port : Port) (access : Access) → ReadsPortOrWrites IsSctlSerrOrIs port access
        → AccessesNoOtherPort port access }
{
    law_prerequisites();
}
