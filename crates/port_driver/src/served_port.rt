// A port that a server drives, and what all its ports share.
ghost use Rattle.std.specs.Prelude.{◌≡◌, ◌≤◌};
ghost use Rattle.port_driver.specs.PortAndShared.{NotesProbeResult, no_port};
ghost use Rattle.server_history.specs.{ErrorHandling.{HasAllSlotsFreeAndCountOfMode}, ServerState.{last_disk_of, plain_mode}, StuckServer.{found_after_stuck_reset}, Turns.{is_ready}};

use crate::modes::PLAIN_MODE;
use crate::quarantine::Quarantine;
use crate::slot_table::SlotTable;
use ata_types::PortState;
use block_machine::QueueMode;
use dma_frames::FrameTable;
use host_boot::ProbeResult;
use identify::{DiskInfo, Wanted};
use request_queue::Book;

/// A port of the adapter, ready or not. It can't be dropped, since it may keep loans.
pub struct ServedPort {
    /// Which disk is to be served here, if any: it stays so.
    pub wanted: Wanted,
    /// What the port was found to be.
    pub probe_result: ProbeResult,
    /// The disk that it was last ready with, once it isn't ready, or its error was handled, or its adapter was reset.
    pub remembered: Option<DiskInfo>,
    /// How it takes commands.
    pub mode: QueueMode,
    /// Which request each of its command slots serves.
    pub slots: SlotTable,
    /// Of a dead port, the loans of requests that were issued, and then answered: until a reset ends, since the device
    /// may still move their sectors.
    pub kept: Quarantine,
}

/// What the ports of a server share: whose each frame is, and what it is lent to; and the unanswered requests of all
/// ports. It can't be dropped, since it holds loans.
pub struct Shared {
    /// On the heap, since it is large and a server is moved.
    pub table: Box<FrameTable>,
    pub book: Book,
}

impl ServedPort {
    /// A port that isn't served yet, of which this disk is wanted. No slot of it is used, and no disk remembered.
    pub fn new(wanted: Wanted, kept: Quarantine) -> Self
        ensures fields { result ≡ record no_port { wanted = wanted; slots = result.slots; kept = kept } }
        ensures unused { HasAllSlotsFreeAndCountOfMode plain_mode result.slots }
    {
        ServedPort {
            wanted,
            probe_result: ProbeResult::Unserved,
            remembered: None,
            mode: PLAIN_MODE,
            slots: SlotTable::new(PLAIN_MODE.usable_slots),
            kept,
        }
    }

    /// The disk that it is ready with, or was last ready with, if it ever was.
    pub fn last_disk(&self) -> Option<DiskInfo>
        ensures { result ≡ last_disk_of self.now.probe_result self.now.remembered }
    {
        match &self.probe_result {
            ProbeResult::Ready(info) => Some(*info),
            _ => self.remembered,
        }
    }

    /// Whether it is ready.
    pub fn is_ready(&self) -> bool
        ensures { result ≡ is_ready self.now.probe_result }
    {
        match self.probe_result {
            ProbeResult::Ready(_) => true,
            _ => false,
        }
    }

    /// Replaces what it was found to be, by a boot or once its error was handled, and how it takes commands then, in 32
    /// slots at most. The disk that it was last ready with is remembered, and all its slots are freed.
    pub fn replace_probe_result_and_free_slots(&mut self, found: ProbeResult, mode: QueueMode)
        requires { mode.usable_slots ≤ 32 }
        ensures { NotesProbeResult found mode self.old self.new }
    {
        self.remembered = self.last_disk();
        self.probe_result = found;
        self.mode = mode;
        self.slots = SlotTable::new(mode.usable_slots);
    }

    /// Notes that a reset of its adapter got stuck: it is dead, if it is served, its disk is remembered, it takes
    /// plain commands, and no slot of it is used.
    pub fn note_stuck_reset(&mut self)
        ensures { NotesProbeResult (found_after_stuck_reset self.old.probe_result) plain_mode self.old self.new }
    {
        let found = match self.probe_result {
            ProbeResult::Unserved => ProbeResult::Unserved,
            _ => ProbeResult::Unready(PortState::Dead),
        };
        self.replace_probe_result_and_free_slots(found, PLAIN_MODE);
    }

    /// Its loans.
    pub fn into_quarantine(self) -> Quarantine
        ensures { result ≡ self.kept }
    {
        let ServedPort {
            wanted: _,
            probe_result: _,
            remembered: _,
            mode: _,
            slots: _,
            kept,
        } = self;
        kept
    }
}
