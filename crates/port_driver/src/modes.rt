// How a port takes commands.
ghost use Rattle.std.specs.Prelude.{ℕ, ◌≡◌, ◌≤◌, ◌+◌, ◌/◌, ◌%◌};
ghost use Rattle.hba_regs.specs.Bits.{bit};
ghost use Rattle.port_driver.specs.Modes.{mode_by_slot_count};
ghost use Rattle.server_history.specs.ServerState.{probed_mode};

use ata_types::SLOTS;
use block_machine::QueueMode;
use host_boot::ProbeResult;

/// One plain command at a time.
pub(crate) const PLAIN_MODE: QueueMode = QueueMode {
    queued: false,
    usable_slots: 1,
};

/// How a port that was found so takes commands, by an adapter with 1 to 32 slots a port, which queues or doesn't:
/// queued where adapter and disk both can, in as many slots as both have, 32 at most; else one at a time.
pub fn probed_mode(slots: u8, queued: bool, found: &ProbeResult) -> QueueMode
    ensures mode { result ≡ mode_by_slot_count slots queued found.now }
    ensures mode_is_by_cap { (cap : ℕ) → slots ≡ cap / 256 % 32 + 1 → queued ≡ bit cap 30
        → result ≡ probed_mode cap found.now }
    ensures usable_is_at_most_32 { result.usable_slots ≤ 32 }
{
    match found {
        ProbeResult::Ready(info) if queued && info.ncq => QueueMode {
            queued: true,
            usable_slots: slots.min(info.depth).min(SLOTS as u8),
        },
        _ => PLAIN_MODE,
    }
}
