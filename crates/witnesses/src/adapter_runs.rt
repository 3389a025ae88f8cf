// Laws on runs: the clause is the theorem. Nothing that runs calls these functions.
ghost use Rattle.std.specs.Prelude.{◌≡◌, ◌≢◌, ◌⊎◌, ◌<◌, Bool, false, List, Some, ℕ};
ghost use Rattle.adapter.specs.{Device.{Device, IsValidSector}, Steps.{Can}, Steps.DeviceTransition.{FetchFault as SenselessFetch, Plug}};
ghost use Rattle.witnesses.specs.{AdapterRuns.{StepCanCome, CanComeWithGuardedCommands, FirstHasFailed, ResetIsPendingWithTwoUsedPorts, CommandBytesAreGuarded, TransitionKind, SecondEndsFirst}, AdapterRuns.TransitionKind.{FetchFault}};

use adapter::laws::{
    law_kept_bytes_stay_over_device_steps, law_slot_decodes_to_at_most_one_command,
};

/// Each kind of step of the device can come, in a state to which an idle adapter comes by accesses, each of which the
/// rules allow in the state in which it is made. Its commands stand on bytes that no step changes, except for the step
/// on bytes that mean no command.
pub fn law_each_step_can_come()
    ensures safely { (kind : TransitionKind) → kind ≢ FetchFault → CanComeWithGuardedCommands kind }
    ensures senseless { StepCanCome FetchFault }
{
    law_kept_bytes_stay_over_device_steps();
    law_slot_decodes_to_at_most_one_command();
}

/// If the commands stand on bytes that no step changes, none is taken for no command.
pub fn law_guarded_commands_cannot_fail_fetch()
    ensures { (d : Device) (port slot kept_bits : ℕ) (queued : Bool) → CommandBytesAreGuarded d
        → Can (SenselessFetch port slot queued kept_bits) d → ⊥ }
{}

/// A queued command may end while another, in a lower slot, is taken still.
pub fn law_second_queued_command_may_end_first()
    ensures { SecondEndsFirst }
{
    law_kept_bytes_stay_over_device_steps();
}

/// A queued command may fail beside another.
pub fn law_queued_command_may_fail_beside_another()
    ensures { FirstHasFailed }
{
    law_kept_bytes_stay_over_device_steps();
}

/// A reset of the adapter may be pending while two of its ports are in use.
pub fn law_reset_may_be_pending_with_used_ports()
    ensures { ResetIsPendingWithTwoUsedPorts }
{}

/// A disk that was taken out may come back with each sector as it was when it last ended a flush or, if it ended none,
/// when it was first in, or as it was when it went. So its cache, or a part of it, may be lost (FLUSH CACHE EXT,
/// ACS-3).
pub fn law_replug_may_lose_cache()
    ensures { (d : Device) (port : ℕ) (last lasting told : ℕ → List ℕ) → (d.port port).present ≡ false
        → (d.port port).disk.sectors ≡ Some last → (d.port port).lasting.sectors ≡ Some lasting
        → ((k : ℕ) → (told k ≡ last k) ⊎ (told k ≡ lasting k))
        → ((k : ℕ) → k < (d.port port).disk.sector_count → IsValidSector (told k))
        → Can (Plug port (record (d.port port).disk { sectors = Some told })) d }
{}
