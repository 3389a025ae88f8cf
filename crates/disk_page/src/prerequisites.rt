// What laws of the crates below say of this crate's accesses, for its proofs. Nothing comes of calling it.
ghost use Rattle.disk_page.specs.Laws.{Laws};

use adapter::laws::{
    law_kept_controls_and_rising_flags_compose, law_port_access_is_steps_then_port_effect,
    law_step_lists_keep_what_steps_keep,
};
use command_table::laws::law_table_stores_touch_no_register;
use refinement::access_kinds::law_access_kinds_satisfy_fragment_laws;
use refinement::fragments::{
    law_other_ports_are_untouched, law_port_without_command_gains_no_move,
    law_some_machine_agrees_after_simulation, law_tapes_satisfy_tape_laws,
};
use refinement::laws::{
    law_device_owns_no_scratch_page_once_slot_0_over, law_own_issuing_is_permitted,
    law_pages_come_only_for_own_commands, law_setting_changes_one_slot,
};
use refinement::port_facts::{
    law_adapter_stays_same_and_on_until_ghc_write, law_ci_read_clear_means_page_has_come,
    law_clear_slots_and_ended_requests_stay_so, law_tape_and_tfd_keep_faults_since_st,
};
use refinement::recovering::law_own_command_end_ends_halt;
use std::marker::Brand;

/// The laws that the proofs of this crate rest on.
pub fn law_prerequisites()
    ensures { Laws }
{
    law_kept_controls_and_rising_flags_compose();
    law_port_access_is_steps_then_port_effect();
    law_step_lists_keep_what_steps_keep();
    law_adapter_stays_same_and_on_until_ghc_write();
    law_tape_and_tfd_keep_faults_since_st();
    law_clear_slots_and_ended_requests_stay_so();
    law_ci_read_clear_means_page_has_come();
    law_access_kinds_satisfy_fragment_laws::<Brand>();
    law_own_issuing_is_permitted();
    law_device_owns_no_scratch_page_once_slot_0_over();
    law_pages_come_only_for_own_commands();
    law_setting_changes_one_slot();
    law_own_command_end_ends_halt();
    law_tapes_satisfy_tape_laws();
    law_port_without_command_gains_no_move();
    law_some_machine_agrees_after_simulation();
    law_other_ports_are_untouched();
    law_table_stores_touch_no_register();
}
