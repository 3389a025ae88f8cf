// A law of commands that are found done, for this crate's own use: the clause is the theorem. Nothing comes of calling
// it.
ghost use Rattle.std.specs.Prelude.{ℕ};
ghost use Rattle.ata_types.specs.declared.Port.{Port};
ghost use Rattle.hba_regs.specs.{declared.reg.Reg.TheVariants.{Px}, declared.reg.PortReg.TheVariants.{Ci, Sact}};
ghost use Rattle.adapter.specs.{Access.{Reads}, Device.{Device}, Rules.{IsOn}};
ghost use Rattle.ncq.specs.Masks.{IsDoneMask, ReadsDone, FindsEachClearSlot};

use adapter::laws::law_step_lists_keep_what_steps_keep;
use refinement::acts::law_an_access_or_own_step_is_one_act;
use refinement::laws::{
    law_device_and_faithful_step_lists_compose, law_driver_advances_compose,
    law_register_reading_is_simulated, law_requests_only_advance_over_device_steps,
};
use refinement::port_facts::{
    law_adapter_stays_same_and_on_until_ghc_write, law_port_controls_stay_until_written,
    law_slot_is_clear_iff_ended_while_st_set,
};

/// PxCI and then PxSACT are read: they tell what is done.
pub fn law_ci_then_sact_reads_find_done_slots()
    ensures { (port : Port) (mask done issued active : ℕ) (old mid new : Device) → IsOn old
        → Reads (Px port Ci) issued old mid → Reads (Px port Sact) active mid new → IsDoneMask mask issued active done
        → ReadsDone port mask done old new × FindsEachClearSlot port mask done old }
{
    law_an_access_or_own_step_is_one_act();
    law_adapter_stays_same_and_on_until_ghc_write();
    law_port_controls_stay_until_written();
    law_slot_is_clear_iff_ended_while_st_set();
    law_driver_advances_compose();
    law_device_and_faithful_step_lists_compose();
    law_register_reading_is_simulated();
    law_step_lists_keep_what_steps_keep();
    law_requests_only_advance_over_device_steps();
}
