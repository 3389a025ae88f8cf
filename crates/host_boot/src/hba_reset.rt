// The adapter is reset (AHCI 1.3.1, 3.1.2 and 10.4.3).
ghost use Rattle.std.specs.Prelude.{IfErr, IfOk};
ghost use Rattle.host_boot.specs.{Resets.{Resets, ResetStaysPending}, Costs.{RESET_ACCESSES}};
ghost use Rattle.adapter.specs.AccessBounds.{MakesAtMost};

use super::prerequisites::law_prerequisites;
use adapter::Adapter;
use ata_types::{AdapterStuck, MOST_READINGS};
use hba_regs::{GlobalControl, Reg};

/// Resets the adapter, and waits until the reset is done, for 64 readings of GHC at most (that many are this project's
/// own). Once it is done the adapter is idle; `AdapterStuck` is told where HR is one still. It may be reset in whatever
/// state it is, also while a reset is pending.
pub fn reset<A: Adapter>(adapter: &mut A) -> Result<(), AdapterStuck>
    ensures reset { IfOk result (λ done. Resets (A.device adapter.old) (A.device adapter.new)) }
    ensures stuck { IfErr result (λ why. ResetStaysPending (A.device adapter.old) (A.device adapter.new)) }
    ensures cost { MakesAtMost RESET_ACCESSES (A.access_count adapter.old) (A.access_count adapter.new) }
{
    law_prerequisites();
    adapter.write(Reg::Ghc, GlobalControl::AE.0 | GlobalControl::HR.0);
    for _reading in 0..MOST_READINGS {
        let shown = GlobalControl(adapter.read(Reg::Ghc));
        if !shown.is_resetting() {
            return Ok(());
        }
    }
    Err(AdapterStuck)
}
