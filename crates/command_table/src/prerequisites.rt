// What laws of the crates below say of stores of tables, for this crate's proofs. Nothing comes of calling it.
ghost use Rattle.command_table.specs.Laws.{Laws};

use adapter::laws::law_memory_reads_back;
use refinement::access_kinds::law_access_kinds_satisfy_fragment_laws;
use refinement::laws::{
    law_driver_stores_are_permitted, law_stored_commands_stay, law_tables_and_idle_scratch_are_kept,
};
use refinement::port_facts::law_adapter_stays_same_and_on_until_ghc_write;
use std::marker::Brand;

/// The laws that the proofs of this crate rest on.
pub fn law_prerequisites()
    ensures { Laws }
{
    law_memory_reads_back();
    law_adapter_stays_same_and_on_until_ghc_write();
    law_driver_stores_are_permitted();
    law_tables_and_idle_scratch_are_kept();
    law_stored_commands_stay();
    law_access_kinds_satisfy_fragment_laws::<Brand>();
}
