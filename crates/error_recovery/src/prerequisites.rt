// What laws of the crates below say of this crate's accesses, for its proofs. Nothing comes of calling it.
ghost use Rattle.error_recovery.specs.Laws.{Laws};

use adapter::laws::law_port_access_is_steps_then_port_effect;
use disk_page::laws::{
    law_page_request_spares_other_ports, law_slot_0_wait_in_vain_shows_in_longer_trace,
};
use port_control::laws::law_engine_evidence_shows_in_longer_traces;
use refinement::access_kinds::{
    law_access_kinds_satisfy_fragment_laws, law_port_register_accesses_are_of_port,
};
use refinement::fragments::{
    law_other_ports_are_untouched, law_port_without_command_gains_no_move,
    law_tapes_satisfy_tape_laws,
};
use refinement::giving_up::{
    law_giving_up_stopped_port_slots_agrees, law_issued_taken_or_faulted_is_outstanding,
};
use refinement::laws::law_setting_changes_one_slot;
use refinement::port_facts::{
    law_adapter_stays_same_and_on_until_ghc_write, law_clear_error_bits_stay_clear,
    law_clear_pxis_error_bits_mean_no_error, law_noted_reads_change_only_by_read_or_sctl,
    law_port_controls_stay_until_written, law_serr_n_clear_means_no_plug_event,
    law_started_port_without_trouble_runs_well, law_tape_and_tfd_keep_faults_since_st,
    law_tfes_read_set_means_fault_halts_port,
};
use refinement::recovering::{
    law_link_stays_online, law_port_runs_on_without_fatal_or_plug,
    law_port_stays_unqueued_until_sact_written, law_unqueued_ci_read_clear_means_tfes_clear,
};
use std::marker::Brand;

/// The laws that the proofs of this crate rest on.
pub fn law_prerequisites()
    ensures { Laws }
{
    law_port_access_is_steps_then_port_effect();
    law_adapter_stays_same_and_on_until_ghc_write();
    law_clear_error_bits_stay_clear();
    law_port_controls_stay_until_written();
    law_clear_pxis_error_bits_mean_no_error();
    law_tfes_read_set_means_fault_halts_port();
    law_tape_and_tfd_keep_faults_since_st();
    law_noted_reads_change_only_by_read_or_sctl();
    law_serr_n_clear_means_no_plug_event();
    law_started_port_without_trouble_runs_well();
    law_issued_taken_or_faulted_is_outstanding();
    law_giving_up_stopped_port_slots_agrees();
    law_access_kinds_satisfy_fragment_laws::<Brand>();
    law_port_register_accesses_are_of_port::<Brand>();
    law_setting_changes_one_slot();
    law_port_stays_unqueued_until_sact_written();
    law_unqueued_ci_read_clear_means_tfes_clear();
    law_link_stays_online();
    law_port_runs_on_without_fatal_or_plug();
    law_other_ports_are_untouched();
    law_tapes_satisfy_tape_laws();
    law_port_without_command_gains_no_move();
    law_page_request_spares_other_ports();
    law_slot_0_wait_in_vain_shows_in_longer_trace();
    law_engine_evidence_shows_in_longer_traces();
}
