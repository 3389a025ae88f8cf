// What laws of the crates below say of this crate's accesses, for its proofs. Nothing comes of calling it.
ghost use Rattle.port_boot.specs.Laws.{Laws};

use adapter::laws::law_port_access_is_steps_then_port_effect;
use disk_page::laws::law_page_request_spares_other_ports;
use port_control::laws::law_engine_evidence_shows_in_longer_traces;
use refinement::access_kinds::{
    law_access_kinds_satisfy_fragment_laws, law_port_register_accesses_are_of_port,
};
use refinement::fragments::{
    law_other_ports_are_untouched, law_port_without_command_gains_no_move,
    law_tapes_satisfy_tape_laws,
};
use refinement::laws::law_writes_but_ci_stay_permitted;
use refinement::port_facts::{
    law_adapter_stays_same_and_on_until_ghc_write, law_clear_error_bits_stay_clear,
    law_det_3_means_up_for_start_if_no_disk_came, law_started_port_without_trouble_runs_well,
    law_tape_and_tfd_keep_faults_since_st, law_undisturbed_has_no_error_or_plug,
};
use refinement::recovering::law_halt_fits_taken_until_pxcmd_written;
use std::marker::Brand;

/// The laws that the proofs of this crate rest on.
pub fn law_prerequisites()
    ensures { Laws }
{
    law_port_access_is_steps_then_port_effect();
    law_adapter_stays_same_and_on_until_ghc_write();
    law_clear_error_bits_stay_clear();
    law_tape_and_tfd_keep_faults_since_st();
    law_det_3_means_up_for_start_if_no_disk_came();
    law_undisturbed_has_no_error_or_plug();
    law_started_port_without_trouble_runs_well();
    law_access_kinds_satisfy_fragment_laws::<Brand>();
    law_port_register_accesses_are_of_port::<Brand>();
    law_writes_but_ci_stay_permitted();
    law_halt_fits_taken_until_pxcmd_written();
    law_other_ports_are_untouched();
    law_tapes_satisfy_tape_laws();
    law_port_without_command_gains_no_move();
    law_page_request_spares_other_ports();
    law_engine_evidence_shows_in_longer_traces();
}
