// What laws of the crates below say of the accesses of looks, for their proofs and those above. Nothing comes of
// calling it.
ghost use Rattle.port_control.specs.EventLaws.{Laws};

use adapter::laws::{
    law_port_access_is_steps_then_port_effect, law_step_lists_keep_what_steps_keep,
    law_steps_compose,
};
use refinement::access_kinds::law_access_kinds_satisfy_fragment_laws;
use refinement::disks::law_tfes_or_link_change_read_was_set_or_taped;
use refinement::fragments::{law_other_ports_are_untouched, law_tapes_satisfy_tape_laws};
use refinement::laws::{
    law_clear_sact_bits_stay, law_hba_is_write_after_pxis_is_permitted,
    law_writes_but_ci_stay_permitted,
};
use refinement::port_facts::{
    law_adapter_stays_same_and_on_until_ghc_write, law_clear_error_bits_stay_clear,
    law_clear_pxis_error_bits_mean_no_error, law_link_is_same_or_comes_up_without_plugs,
    law_memory_accesses_change_ports_by_steps, law_no_trouble_shown_means_undisturbed,
    law_noted_reads_change_only_by_read_or_sctl, law_port_controls_stay_until_written,
    law_port_register_read_is_noted_as_last, law_running_well_stays_if_undisturbed,
    law_serr_n_clear_means_no_plug_event, law_set_pxis_serr_nx_bits_stay_until_written,
    law_started_port_without_trouble_runs_well, law_tape_and_tfd_keep_faults_since_st,
    law_tfes_read_set_means_fault_halts_port,
};
use std::marker::Brand;

/// The laws that the proofs on looks rest on.
pub fn law_prerequisites()
    ensures { Laws }
{
    law_port_access_is_steps_then_port_effect();
    law_steps_compose();
    law_step_lists_keep_what_steps_keep();
    law_tfes_or_link_change_read_was_set_or_taped();
    law_adapter_stays_same_and_on_until_ghc_write();
    law_clear_error_bits_stay_clear();
    law_port_controls_stay_until_written();
    law_set_pxis_serr_nx_bits_stay_until_written();
    law_clear_pxis_error_bits_mean_no_error();
    law_tfes_read_set_means_fault_halts_port();
    law_tape_and_tfd_keep_faults_since_st();
    law_running_well_stays_if_undisturbed();
    law_link_is_same_or_comes_up_without_plugs();
    law_memory_accesses_change_ports_by_steps();
    law_port_register_read_is_noted_as_last();
    law_noted_reads_change_only_by_read_or_sctl();
    law_serr_n_clear_means_no_plug_event();
    law_started_port_without_trouble_runs_well();
    law_no_trouble_shown_means_undisturbed();
    law_access_kinds_satisfy_fragment_laws::<Brand>();
    law_hba_is_write_after_pxis_is_permitted();
    law_clear_sact_bits_stay();
    law_writes_but_ci_stay_permitted();
    law_other_ports_are_untouched();
    law_tapes_satisfy_tape_laws();
}
