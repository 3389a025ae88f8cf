// What laws of the crates below say of accesses, for this crate's proofs. Nothing comes of calling it.
ghost use Rattle.driver_history.specs.Laws.{AccessLaws, RunLaws};

use adapter::DeviceStep;
use adapter::laws::{
    law_accesses_compose, law_port_access_is_steps_then_port_effect,
    law_step_lists_keep_what_steps_keep,
};
use block_machine::laws::{
    law_answered_reads_hold_expected, law_request_in_book_or_kept_was_accepted,
    law_run_steps_are_enabled,
};
use error_recovery::laws::law_fatal_bits_are_all_clear_or_shown;
use port_boot::laws::law_undisturbed_port_runs_on_if_controls_stay;
use port_control::laws::law_engine_evidence_shows_in_longer_traces;
use refinement::disks::law_vacancy_stays_where_no_disk_comes;
use refinement::fragments::{law_other_ports_are_untouched, law_tapes_satisfy_tape_laws};
use refinement::laws::law_device_and_faithful_step_lists_compose;
use refinement::port_facts::{
    law_adapter_stays_same_and_on_until_ghc_write, law_clear_error_bits_stay_clear,
    law_clear_pxis_error_bits_mean_no_error, law_link_is_same_or_comes_up_without_plugs,
    law_port_controls_stay_until_written, law_serr_n_clear_means_no_plug_event,
    law_set_pxis_serr_nx_bits_stay_until_written, law_writes_set_port_controls,
};

/// The laws that the proofs on parts of calls rest on.
pub fn law_prerequisites()
    ensures { AccessLaws }
{
    law_accesses_compose();
    law_step_lists_keep_what_steps_keep();
    law_port_access_is_steps_then_port_effect();
    law_adapter_stays_same_and_on_until_ghc_write();
    law_clear_error_bits_stay_clear();
    law_writes_set_port_controls();
    law_port_controls_stay_until_written();
    law_set_pxis_serr_nx_bits_stay_until_written();
    law_clear_pxis_error_bits_mean_no_error();
    law_fatal_bits_are_all_clear_or_shown();
    law_link_is_same_or_comes_up_without_plugs();
    law_serr_n_clear_means_no_plug_event();
    law_other_ports_are_untouched();
    law_tapes_satisfy_tape_laws();
    law_vacancy_stays_where_no_disk_comes();
    law_undisturbed_port_runs_on_if_controls_stay();
    law_engine_evidence_shows_in_longer_traces();
}

/// The laws that the proofs on histories as runs rest on.
pub fn law_run_prerequisites()
    ensures { RunLaws }
{
    law_run_steps_are_enabled::<DeviceStep>();
    law_answered_reads_hold_expected::<DeviceStep>();
    law_device_and_faithful_step_lists_compose();
    law_request_in_book_or_kept_was_accepted();
}
