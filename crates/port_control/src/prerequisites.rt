// What laws of the crates below say of accesses that control a port, for their proofs. Nothing comes of calling it.
ghost use Rattle.port_control.specs.Laws.{Laws};

use adapter::laws::{
    law_accesses_compose, law_port_access_is_steps_then_port_effect,
    law_step_lists_keep_what_steps_keep,
};
use refinement::access_kinds::{
    law_access_kinds_satisfy_fragment_laws, law_port_register_accesses_are_of_port,
};
use refinement::fragments::{
    law_other_ports_are_untouched, law_px_writes_but_sctl_pxis_st_keep_notes,
    law_stopped_engine_keeps_pxis_bits_clear, law_tapes_satisfy_tape_laws,
};
use refinement::giving_up::law_over_slot_is_ended_or_dropped;
use refinement::laws::{
    law_armed_slot_may_be_freed_once_st_clear, law_clb_fb_writes_are_permitted_if_stopped,
    law_clear_sact_bits_stay, law_pxcmd_st_and_fre_writes_are_permitted,
    law_writes_but_ci_stay_permitted,
};
use refinement::port_facts::{
    law_adapter_stays_same_and_on_until_ghc_write, law_cr_read_clear_means_engine_stopped,
    law_det_3_means_up_for_start_if_no_disk_came, law_drq_is_shown_while_link_awaited,
    law_hr_read_clear_means_ports_are_quiescent, law_noted_reads_change_only_by_read_or_sctl,
    law_port_controls_stay_until_written, law_port_register_read_is_noted_as_last,
    law_started_port_without_trouble_runs_well, law_stopped_engine_stays,
    law_tape_and_tfd_keep_faults_since_st, law_tfes_and_drq_clear_mean_clean_to_start,
    law_writes_set_port_controls, law_writing_ones_clears_pxis_and_serr,
};
use refinement::recovering::{law_link_stays_online, law_port_runs_on_without_fatal_or_plug};
use std::marker::Brand;

/// The laws that the proofs on controlling a port rest on.
pub fn law_prerequisites()
    ensures { Laws }
{
    law_accesses_compose();
    law_port_access_is_steps_then_port_effect();
    law_step_lists_keep_what_steps_keep();
    law_adapter_stays_same_and_on_until_ghc_write();
    law_writes_set_port_controls();
    law_port_controls_stay_until_written();
    law_writing_ones_clears_pxis_and_serr();
    law_tape_and_tfd_keep_faults_since_st();
    law_stopped_engine_stays();
    law_det_3_means_up_for_start_if_no_disk_came();
    law_drq_is_shown_while_link_awaited();
    law_port_register_read_is_noted_as_last();
    law_noted_reads_change_only_by_read_or_sctl();
    law_tfes_and_drq_clear_mean_clean_to_start();
    law_hr_read_clear_means_ports_are_quiescent();
    law_started_port_without_trouble_runs_well();
    law_cr_read_clear_means_engine_stopped();
    law_over_slot_is_ended_or_dropped();
    law_access_kinds_satisfy_fragment_laws::<Brand>();
    law_port_register_accesses_are_of_port::<Brand>();
    law_armed_slot_may_be_freed_once_st_clear();
    law_clear_sact_bits_stay();
    law_pxcmd_st_and_fre_writes_are_permitted();
    law_clb_fb_writes_are_permitted_if_stopped();
    law_writes_but_ci_stay_permitted();
    law_link_stays_online();
    law_port_runs_on_without_fatal_or_plug();
    law_stopped_engine_keeps_pxis_bits_clear();
    law_other_ports_are_untouched();
    law_tapes_satisfy_tape_laws();
    law_px_writes_but_sctl_pxis_st_keep_notes();
}
