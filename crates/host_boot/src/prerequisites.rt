// What laws of the crates below say of this crate's accesses, for its proofs. Nothing comes of calling it.
ghost use Rattle.host_boot.specs.Laws.{Laws};

use adapter::laws::{law_accesses_compose, law_step_lists_keep_what_steps_keep};
use port_boot::laws::{
    law_boot_accesses_spare_other_ports, law_boot_findings_stay_until_next_port_boot,
    law_boots_are_of_boot_accesses, law_det_3_means_disk_present_is_invariant,
    law_undisturbed_port_runs_on_if_controls_stay,
};
use port_control::laws::{
    law_engine_evidence_shows_in_longer_traces, law_port_control_spares_other_ports,
};
use refinement::access_kinds::law_access_kinds_satisfy_fragment_laws;
use refinement::disks::{
    law_hr_read_clear_leaves_adapter_idle, law_vacancy_stays_where_no_disk_comes,
};
use refinement::fragments::{
    law_other_ports_are_untouched, law_some_machine_agrees_after_simulation,
    law_tapes_satisfy_tape_laws,
};
use refinement::laws::law_setting_changes_one_slot;
use refinement::port_facts::{
    law_adapter_stays_same_and_on_until_ghc_write, law_det_3_if_disk_present_stays,
    law_hr_read_clear_means_ports_are_quiescent, law_writing_ghc_switches_on,
};
use refinement::recovering::law_halt_fits_taken_until_pxcmd_written;
use std::marker::Brand;

/// The laws that the proofs of this crate rest on.
pub fn law_prerequisites()
    ensures { Laws }
{
    law_accesses_compose();
    law_step_lists_keep_what_steps_keep();
    law_vacancy_stays_where_no_disk_comes();
    law_adapter_stays_same_and_on_until_ghc_write();
    law_det_3_if_disk_present_stays();
    law_hr_read_clear_means_ports_are_quiescent();
    law_hr_read_clear_leaves_adapter_idle();
    law_writing_ghc_switches_on();
    law_access_kinds_satisfy_fragment_laws::<Brand>();
    law_setting_changes_one_slot();
    law_halt_fits_taken_until_pxcmd_written();
    law_some_machine_agrees_after_simulation();
    law_other_ports_are_untouched();
    law_tapes_satisfy_tape_laws();
    law_boot_accesses_spare_other_ports();
    law_det_3_means_disk_present_is_invariant();
    law_undisturbed_port_runs_on_if_controls_stay();
    law_boots_are_of_boot_accesses();
    law_boot_findings_stay_until_next_port_boot();
    law_port_control_spares_other_ports();
    law_engine_evidence_shows_in_longer_traces();
}
