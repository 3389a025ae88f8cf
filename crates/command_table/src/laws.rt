// Laws of the definitions, for callers: the clause is the theorem. These functions do nothing.
ghost use Rattle.std.specs.Prelude.{ℕ};
ghost use Rattle.ata_types.specs.declared.Port.{Port};
ghost use Rattle.hba_regs.specs.declared.reg.Reg.{Reg};
ghost use Rattle.adapter.specs.Access.{Access};
ghost use Rattle.refinement.specs.Fragments.{AccessesNoOtherPort, NoneWrites};
ghost use Rattle.command_table.specs.TableStores.{IsHeaderOrTableStore};

/// The stores of a table touch no register; so what is said of accesses that touch none of another port
/// (`AccessesNoOtherPort`) is so of them, whichever port that is.
pub fn law_table_stores_touch_no_register()
    ensures spares_other_ports { (port : Port) (slot : ℕ) (access : Access) → IsHeaderOrTableStore port.0 slot access
        → AccessesNoOtherPort port access }
    ensures of_any_port { (port : Port) (at slot : ℕ) (access : Access) → IsHeaderOrTableStore at slot access
        → AccessesNoOtherPort port access }
    ensures writes_no_register { (port slot : ℕ) (r : Reg) → NoneWrites (IsHeaderOrTableStore port slot) r }
{}
