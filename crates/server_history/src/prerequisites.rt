// What laws of the crates below say, for this crate's proofs. Nothing comes of calling these functions.
ghost use Rattle.server_history.specs.{RecoveryLaws.{RecoveryLaws, PortErrorLaws}, BasicLaws.{AgeLaws, BasicLaws, FrameHolderLaws, SlotLaws}, Prerequisites.{PrerequisiteLaws}, CallLaws.{CallLaws, LookLaws}};

use adapter::laws::law_accesses_compose;
use adapter::laws::law_port_access_is_steps_then_port_effect;
use adapter::laws::law_slot_decodes_to_at_most_one_command;
use adapter::laws::law_step_lists_keep_what_steps_keep;
use adapter::laws::law_steps_never_switch_adapter_on;
use block_machine::laws::law_a_grant_name_is_of_at_most_one_row;
use block_machine::laws::law_accepted_is_granted;
use block_machine::laws::law_book_limits_hold_and_frames_are_lent;
use block_machine::laws::law_due_depends_on_own_port;
use block_machine::laws::law_due_of_port_is_exact;
use block_machine::laws::law_ended_is_issued;
use block_machine::laws::law_issue_requeue_answer_keep_other_ports;
use block_machine::laws::law_issuing_due_in_turn_leaves_none_due;
use block_machine::laws::law_kept_is_not_in_book;
use block_machine::laws::law_lendable_or_accessible_frames_are_owned;
use block_machine::laws::law_lent_frame_is_of_its_request;
use block_machine::laws::law_one_id_is_in_the_book_once;
use block_machine::laws::law_one_id_is_one_request;
use block_machine::laws::law_ready_ports_are_served;
use block_machine::laws::law_request_in_book_or_kept_was_accepted;
use block_machine::laws::law_rows_shrink_and_owners_stay;
use block_machine::laws::law_step_lists_compose;
use driver_history::laws::law_driver_invariant_holds;
use driver_history::laws::law_histories_reach_their_machines;
use driver_history::laws::law_turn_evidence_holds_for_call;
use driver_history::troubles::law_a_fatal_error_of_a_part_is_of_the_whole;
use driver_history::troubles::law_a_fault_alone_in_a_call_is_alone_in_a_turn;
use driver_history::troubles::law_errors_stay_unless_cleared_or_ghc_written;
use driver_history::troubles::law_no_plug_or_error_since_st_is_undisturbed;
use driver_history::troubles::law_st_after_a_stop_was_set_since;
use driver_history::troubles::law_turn_disk_probe_holds_for_call;
use driver_history::troubles::law_turn_error_and_boot_duties_hold_for_call;
use error_recovery::laws::law_fault_evidence_of_a_part_holds_for_call;
use error_recovery::laws::law_recovery_accesses_spare_others;
use host_boot::laws::law_probe_result_backed_until_next_port_boot;
use host_boot::laws::law_reboot_is_of_port_and_backs_result;
use ncq::laws::law_batch_and_mask_access_spares_other_ports;
use ncq::laws::law_batch_issues_come_last;
use ncq::laws::law_ci_and_sact_reads_keep_machine_related;
use port_boot::laws::law_boot_accesses_spare_other_ports;
use port_boot::laws::law_det_3_means_disk_present_is_invariant;
use port_boot::laws::law_undisturbed_port_runs_on_if_controls_stay;
use port_control::events::laws::law_looks_and_services_hide_no_error;
use port_control::events::laws::law_looks_make_only_service_accesses;
use port_control::events::laws::law_looks_see_errors_and_link_changes;
use port_control::events::laws::law_looks_spare_other_ports;
use port_control::events::laws::law_port_event_tells_bits_read;
use port_control::events::laws::law_service_accesses_write_only_is_ci_sact;
use port_control::events::laws::law_services_keep_ports_running;
use port_control::events::laws::law_task_file_error_means_halted;
use port_control::events::prerequisites::law_prerequisites;
use port_control::laws::law_engine_evidence_shows_in_longer_traces;
use refinement::access_kinds::law_access_kinds_satisfy_fragment_laws;
use refinement::acts::law_acts_advance_driver;
use refinement::disks::law_vacancy_stays_where_no_disk_comes;
use refinement::fragments::law_other_ports_are_untouched;
use refinement::giving_up::law_given_up_requests_are_parked;
use refinement::giving_up::law_giving_up_stopped_port_slots_agrees;
use refinement::giving_up::law_issued_taken_or_faulted_is_outstanding;
use refinement::laws::law_accepting_agrees;
use refinement::laws::law_answering_slotless_request_agrees;
use refinement::laws::law_answering_with_frames_kept_agrees;
use refinement::laws::law_backing_composes;
use refinement::laws::law_client_load_is_machine_load;
use refinement::laws::law_client_store_is_machine_store;
use refinement::laws::law_device_owns_no_unlent_client_bytes;
use refinement::laws::law_device_steps_are_a_call_part;
use refinement::laws::law_driver_advances_compose;
use refinement::laws::law_idle_device_agrees_with_initial_machine;
use refinement::laws::law_no_more_slots_serve_than_requests_issued;
use refinement::laws::law_pages_come_only_for_own_commands;
use refinement::laws::law_parking_agrees;
use refinement::laws::law_parking_request_frees_its_slot;
use refinement::laws::law_plug_events_match_disk_changes;
use refinement::laws::law_requests_only_advance_over_device_steps;
use refinement::laws::law_revoking_grant_agrees;
use refinement::laws::law_setting_changes_one_slot;
use refinement::laws::law_slotless_request_waiting_again_agrees;
use refinement::laws::law_steps_not_by_device_need_no_backing;
use refinement::laws::law_ticking_agrees;
use refinement::laws::law_waiting_has_no_slot;
use refinement::port_facts::law_clear_pxis_error_bits_mean_no_error;
use refinement::port_facts::law_clear_slots_and_ended_requests_stay_so;
use refinement::port_facts::law_det_3_if_disk_present_stays;
use refinement::port_facts::law_disk_stays_without_plug_events;
use refinement::port_facts::law_port_register_read_is_noted_as_last;
use refinement::port_facts::law_serr_n_clear_means_no_plug_event;
use refinement::port_facts::law_slot_is_clear_iff_ended_while_st_set;
use refinement::port_facts::law_undisturbed_has_no_error_or_plug;
use refinement::port_facts::law_writing_ghc_switches_on;
use refinement::readying::law_stored_command_stays_over_acts_sparing_it;
use refinement::readying::law_stored_command_stays_while_st_set;
use refinement::recovering::law_halt_fits_taken_until_pxcmd_written;
use request_queue::laws::law_an_id_is_one_request;
use request_queue::laws::law_answers_of_one_outcome_are_one_change;
use request_queue::laws::law_book_changes_match_machine_steps;
use request_queue::laws::law_book_stays_well_formed;
use request_queue::laws::law_entries_stay_well_formed;
use request_queue::laws::law_operations_change_one_request;
use request_queue::laws::law_requests_per_client_agree_with_machine;
use request_queue::laws::law_unanswered_follow_book_operations;
use std::marker::Brand;

/// What steps and accesses do, one after another.
fn law_basics()
    ensures { BasicLaws }
{
    law_step_lists_keep_what_steps_keep();
    law_device_steps_are_a_call_part();
    law_driver_invariant_holds();
    law_ready_ports_are_served();
    law_steps_never_switch_adapter_on();
    law_step_lists_compose();
    law_histories_reach_their_machines();
    law_one_id_is_in_the_book_once();
    law_ended_is_issued();
    law_requests_only_advance_over_device_steps();
    law_accesses_compose();
}

/// What holds of requests that are unanswered, or kept.
pub fn law_frame_holder_prerequisites()
    ensures { FrameHolderLaws }
{
    law_book_limits_hold_and_frames_are_lent();
    law_request_in_book_or_kept_was_accepted();
    law_accepted_is_granted();
    law_rows_shrink_and_owners_stay();
    law_a_grant_name_is_of_at_most_one_row();
    law_lent_frame_is_of_its_request();
    law_one_id_is_one_request();
    law_kept_is_not_in_book();
}

/// What becomes of slots, and of the requests in them.
fn law_slots()
    ensures { SlotLaws }
{
    law_accepting_agrees();
    law_revoking_grant_agrees();
    law_parking_agrees();
    law_parking_request_frees_its_slot();
    law_slot_is_clear_iff_ended_while_st_set();
    law_answering_slotless_request_agrees();
    law_slotless_request_waiting_again_agrees();
    law_answering_with_frames_kept_agrees();
    law_acts_advance_driver();
    law_pages_come_only_for_own_commands();
    law_clear_slots_and_ended_requests_stay_so();
    law_giving_up_stopped_port_slots_agrees();
    law_given_up_requests_are_parked();
    law_setting_changes_one_slot();
    law_waiting_has_no_slot();
    law_slot_decodes_to_at_most_one_command();
    law_stored_command_stays_over_acts_sparing_it();
    law_stored_command_stays_while_st_set();
    law_issued_taken_or_faulted_is_outstanding();
}

/// What becomes of requests that get older.
fn law_ages()
    ensures { AgeLaws }
{
    law_ticking_agrees();
    law_book_changes_match_machine_steps();
    law_book_stays_well_formed();
    law_entries_stay_well_formed();
    law_unanswered_follow_book_operations();
}

/// What looks at ports show, and what they leave.
fn law_looks()
    ensures { LookLaws }
{
    law_port_access_is_steps_then_port_effect();
    law_port_register_read_is_noted_as_last();
    law_det_3_if_disk_present_stays();
    law_access_kinds_satisfy_fragment_laws::<Brand>();
    law_other_ports_are_untouched();
    law_task_file_error_means_halted();
    law_looks_see_errors_and_link_changes();
    law_port_event_tells_bits_read();
    law_looks_and_services_hide_no_error();
    law_looks_make_only_service_accesses();
    law_looks_spare_other_ports();
    law_services_keep_ports_running();
    law_service_accesses_write_only_is_ci_sact();
}

/// What a port's recovery leaves.
fn law_recoveries()
    ensures { RecoveryLaws }
{
    law_no_more_slots_serve_than_requests_issued();
    law_driver_advances_compose();
    law_setting_changes_one_slot();
    law_other_ports_are_untouched();
    law_det_3_means_disk_present_is_invariant();
    law_reboot_is_of_port_and_backs_result();
    law_probe_result_backed_until_next_port_boot();
}

/// What is shown of a port's trouble.
fn law_port_errors()
    ensures { PortErrorLaws }
{
    law_clear_pxis_error_bits_mean_no_error();
    law_serr_n_clear_means_no_plug_event();
    law_undisturbed_has_no_error_or_plug();
    law_disk_stays_without_plug_events();
    law_halt_fits_taken_until_pxcmd_written();
}

/// What a port's turn is to the whole call.
fn law_calls()
    ensures { CallLaws }
{
    law_turn_evidence_holds_for_call();
    law_errors_stay_unless_cleared_or_ghc_written();
    law_a_fault_alone_in_a_call_is_alone_in_a_turn();
    law_turn_error_and_boot_duties_hold_for_call();
    law_turn_disk_probe_holds_for_call();
    law_st_after_a_stop_was_set_since();
    law_a_fatal_error_of_a_part_is_of_the_whole();
    law_no_plug_or_error_since_st_is_undisturbed();
}

/// The laws of the crates below that the proofs of this crate rest on.
pub fn law_history_prerequisites()
    ensures { PrerequisiteLaws }
{
    law_basics();
    law_frame_holder_prerequisites();
    law_slots();
    law_ages();
    law_looks();
    law_recoveries();
    law_port_errors();
    law_calls();
    law_book_changes_match_machine_steps();
    law_requests_per_client_agree_with_machine();
    law_an_id_is_one_request();
    law_book_stays_well_formed();
    law_operations_change_one_request();
    law_entries_stay_well_formed();
    law_answers_of_one_outcome_are_one_change();
    law_backing_composes();
    law_steps_not_by_device_need_no_backing();
    law_unanswered_follow_book_operations();
    law_due_of_port_is_exact();
    law_issuing_due_in_turn_leaves_none_due();
    law_due_depends_on_own_port();
    law_issue_requeue_answer_keep_other_ports();
    law_prerequisites();
    law_batch_issues_come_last();
    law_batch_and_mask_access_spares_other_ports();
    law_ci_and_sact_reads_keep_machine_related();
    law_writing_ghc_switches_on();
    law_other_ports_are_untouched();
    law_undisturbed_port_runs_on_if_controls_stay();
    law_recovery_accesses_spare_others();
    law_boot_accesses_spare_other_ports();
    law_engine_evidence_shows_in_longer_traces();
    law_fault_evidence_of_a_part_holds_for_call();
    law_vacancy_stays_where_no_disk_comes();
    law_plug_events_match_disk_changes();
    law_idle_device_agrees_with_initial_machine();
    law_lendable_or_accessible_frames_are_owned();
    law_client_store_is_machine_store();
    law_client_load_is_machine_load();
    law_device_owns_no_unlent_client_bytes();
}
