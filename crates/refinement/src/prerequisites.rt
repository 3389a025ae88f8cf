// What laws of the crates below say, for this crate's proofs. Nothing comes of calling it.
ghost use Rattle.refinement.specs.StepLaws.{StepLaws};

use adapter::laws::{
    law_port_access_is_steps_then_port_effect, law_step_lists_keep_what_steps_keep,
};
use block_machine::laws::law_step_lists_compose;

/// The laws that the proofs of this crate rest on.
pub fn law_prerequisites()
    ensures { StepLaws }
{
    law_step_lists_keep_what_steps_keep();
    law_port_access_is_steps_then_port_effect();
    law_step_lists_compose();
}
