// Laws of the definitions, for callers: the clause is the theorem. These functions do nothing.
ghost use Rattle.std.specs.Prelude.{ℕ, ◌++◌, List};
ghost use Rattle.ata_types.specs.declared.Port.{Port};
ghost use Rattle.adapter.specs.{Access.{Access}, Device.{Device}, OneCommand.{SlotHasNoCommand}, Rules.{IsOn}};
ghost use Rattle.refinement.specs.Fragments.{NoCommandIsIssuedOrTaken, IsDrivenBy, AccessesNoOtherPort};
ghost use Rattle.disk_page.specs.PageRequests.{IsPxciOrSlot0PageMemoryAccess, LeavesPortWhileAsking, WaitsForSlot0InVain};

use super::prerequisites::law_prerequisites;

/// Asking touches no register of another port; so what is said of such accesses (`AccessesNoOtherPort`) is so of it.
/// And accesses of its kinds, in any order, leave the port running; one without a command has none once slot 0's is
/// over.
pub fn law_page_request_spares_other_ports()
    ensures spares_other_ports { (port : Port) (access : Access) → IsPxciOrSlot0PageMemoryAccess port access
        → AccessesNoOtherPort port access }
    ensures leaves_running { (port : Port) (old new : Device) → IsOn old
        → IsDrivenBy (IsPxciOrSlot0PageMemoryAccess port) old new
        → LeavesPortWhileAsking port.0 old new }
    ensures slots_stay_empty { (port : ℕ) (old new : Device) → LeavesPortWhileAsking port old new
        → NoCommandIsIssuedOrTaken (old.port port)
        → SlotHasNoCommand (new.port port) 0 → NoCommandIsIssuedOrTaken (new.port port) }
{
    law_prerequisites();
}

/// What accesses tell of a wait in vain, they tell with others after them, and with others before them.
pub fn law_slot_0_wait_in_vain_shows_in_longer_trace()
    ensures later { (port : Port) (early late : List Access) → WaitsForSlot0InVain port early
        → WaitsForSlot0InVain port (early ++ late) }
    ensures earlier { (port : Port) (early late : List Access) → WaitsForSlot0InVain port late
        → WaitsForSlot0InVain port (early ++ late) }
{}
