// The model as an adapter.
ghost use Rattle.std.specs.{Prelude.{◌≡◌, ◌≢◌, ◌↔◌, ◌<◌, ◌≤◌, ◌+◌, ◌-◌, ◌*◌, ◌^◌, ◌⊎◌, ◌++◌, ◌∷◌, [], ℕ, Bool, List, true, false, is_some, None, Some, ◌&&◌, min, max, map, length, slice_index, slice_index_or, slice_set, IsTrue, IfSome, IfOk, OnOk, OnErr}, Vec.{vec_len, vec_capacity}};
ghost use Rattle.adapter.specs.{Commands.{moves_disk_sectors, reads_memory, sends_page}, Device.{Disk, IsValidSector, FetchedCommand}, Access.{Reads, Writes, Loads, Stores, Shows, device_after_write}, Memory.{bytes_at, patched}, Rules.{MayRead, MayWrite, IsInMemoryNotOwnedByDevice, IsStable}, Steps.{Steps, disk_after, disk_cleared, next_place}, AskedSteps.{DoesOrFailsStep}, OneCommand.{SlotHasNoCommand}};
ghost use Rattle.sector_store.specs.Stores.{HasRecordAndNotesOneMoreFailure};
ghost use Rattle.device_model.specs.{FetchedBytes.{bytes_of}, Disks.{OnlyEndsCommand, ModelHasRoomForOldSectors, OnlyChangesPageSource, numbered_disk, disks_given_for, port_0_alone}, Finishing.{FindsPageCommandAndWhetherItCanEnd, HasFinishablePageCommand, HasMove, TapeHasRoom, HasTakenCommand, MayTakePageCommand}, HeldPorts.{IsPortReleased}, DiskPages.{with_lie, with_logged_error, without_lies}, PageTaking.{TakesPageCommandUnlessOneIsTaken}};
ghost use Rattle.device_model.specs.{StepEffects.{AnswersStep, Completes, OwnStepsKeep, HasCleared, IsPossible, CommandOfStepFails, KeepsRoomForNext, is_step_not_skipped, asked_fault}, ToldDisks.{all_disks_have_known_sectors}, Queue.{BeginsAccess, DoesRead, AppliesEffect}, ModelState.{IsNewBay, IsNewMedia, IsNewModel, all_given_disks_tell, all_bay_stores_are_known, cap_of, device_at, given_disks_tell, media_of, tells}, Slots.{IsNextMove}};
ghost use Rattle.device_model.specs.{declared.port.TakenCommand.{TakenCommand}, ModelOwnSteps.{SendsPages, IsSettled, LeadsBySteps, LeavesPageWithoutTapeRoom, PageCommandWaitsOnlyIfHeldOrStarved}, Trims.{next_run_length, sectors_left_to_write}, WholeAdapter.{HasDisks, HasRegister}};

use crate::bay::{Bay, PAGE_BYTES, add_lie_of, end_lies, log_failed, note_end_of};
use crate::clearing::SectorExtent;
use crate::command_room::CommandBuffer;
use crate::config::{ALL_PORTS, ModelConfig};
use crate::disks::{DiskIndex, Disks, PortDisks};
use crate::hardware::Hardware;
use crate::operations::sectors_to_write;
use crate::port::PortModel;
use crate::steps::{BegunCommand, NextMove, PendingPageCommand};
use adapter::{
    AccessCounter, Adapter, DeviceStep, DiskNumber, DiskPage, Entry, FatalError, Operation, Stepped,
};
use ata_types::{FEWEST_FRAMES, FRAME_BYTES, MOST_FRAMES, NoMemory, PORTS, Port, Slot};
use hba_regs::Reg;
use sector_store::SectorStore;
use sector_store::pages::{Abilities, LoggedError};
use std::alloc::Global;

/// What came of a move or a clear that was to be done.
#[derive(Clone, Copy, Debug)]
enum StepOutcome {
    /// It is left, and nothing is another.
    Skipped,
    /// Its command failed on a sector.
    Failed,
    /// It is done.
    Done,
}

impl StepOutcome {
    /// Whether something came of it.
    fn is_told(self) -> bool
        ensures { result ≡ is_step_not_skipped self }
    {
        match self {
            StepOutcome::Skipped => false,
            StepOutcome::Failed | StepOutcome::Done => true,
        }
    }
}

/// The error of a sector that is past the disk: IDNF (ACS-3, 6.2).
const PAST_THE_DISK: u8 = 0x10;

/// The error of a sector on which the store failed: UNC.
const STORE_FAILED: u8 = 0x40;

/// A step that is done before the access with this number.
#[derive(Clone, Copy, Debug)]
struct QueuedStep {
    access: u64,
    step: DeviceStep,
}

/// A modelled adapter. Each of ports 0 to 3 for which disks are given has disk 0 of them at first, over its store; it
/// can be taken out, and put in again, or disk 1 in its place, over the other store. The other ports have no device. It
/// takes READ DMA EXT, WRITE DMA EXT, READ FPDMA QUEUED, WRITE FPDMA QUEUED, FLUSH CACHE EXT, DATA SET MANAGEMENT with
/// TRIM, IDENTIFY DEVICE and READ LOG EXT.
#[derive(Drop)]
pub struct Model<S> {
    hardware: Hardware,
    /// The disks of each port, those of port 0 first; `None` for a port that has none, ever.
    bays: Vec<Option<Bay<S>>>,
    /// On which of ports 0 to 3 it does nothing by itself.
    held: [bool; PORTS],
    /// In the order in which they were queued.
    queue: Vec<QueuedStep>,
    /// How many accesses were made.
    accesses: AccessCounter,
}

/// Whether a port has disks.
fn has_disks<S>(bays: &[Option<Bay<S>>], port: usize) -> bool
    ensures disks { result ≡ is_some (slice_index_or bays.now port None) }
    ensures there { result ≡ true → port < length bays.now }
{
    match bays.get(port) {
        Some(bay) => bay.is_some(),
        None => false,
    }
}

/// The bay for these disks, if some are given.
fn bay_for<S: SectorStore>(
    alloc: Global,
    disks: Option<PortDisks<S>>,
    config: ModelConfig,
) -> Option<Bay<S>>
    ensures bay { IsNewBay config disks result }
    ensures media { IsNewMedia S.size S.told disks (media_of S.size S.told result) }
    ensures tells { tells S.told result ≡ given_disks_tell S.told disks }
{
    let abilities = Abilities {
        ncq: config.ncq,
        depth: config.depth,
        trim: config.trim,
    };
    match disks {
        Some(disks) => Some(Bay::new(alloc, disks, abilities, config.cache)),
        None => None,
    }
}

/// Adds the bay of the next port, for which there is memory.
fn push_bay<S: SectorStore>(bays: &mut Vec<Option<Bay<S>>>, bay: Option<Bay<S>>)
    requires { vec_len bays.old < vec_capacity bays.old }
    ensures items { bays.new.items ≡ bays.old.items ++ bay ∷ [] }
    ensures left { (n : ℕ) → vec_len bays.old + (n + 1) ≤ vec_capacity bays.old
        → vec_len bays.new + n ≤ vec_capacity bays.new }
{
    let _pushed = bays.push(bay).is_ok();
}

/// The bays of all ports, for which these disks are given.
fn bays_for<S: SectorStore>(
    alloc: Global,
    disks: Disks<S>,
    config: ModelConfig,
) -> Result<Vec<Option<Bay<S>>>, NoMemory>
    ensures bays { IfOk result (λ bays. (port : ℕ)
        → IsNewBay config (disks_given_for disks port) (slice_index_or bays.items port None)) }
    ensures media { IfOk result (λ bays. (port : ℕ) → IsNewMedia S.size S.told (disks_given_for disks port)
        (media_of S.size S.told (slice_index_or bays.items port None))) }
    ensures tells { IfOk result (λ bays. all_bay_stores_are_known S.told bays.items ≡ all_given_disks_tell S.told
        disks) }
{
    let mut bays = Vec::with_capacity(alloc, PORTS)?;
    push_bay(&mut bays, bay_for(alloc, disks.port0, config));
    push_bay(&mut bays, bay_for(alloc, disks.port1, config));
    push_bay(&mut bays, bay_for(alloc, disks.port2, config));
    push_bay(&mut bays, bay_for(alloc, disks.port3, config));
    Ok(bays)
}

impl<S: SectorStore> Model<S> {
    /// An adapter as after its reset, with ports 0 to 3, memory of zeros, and two disks for port 0 alone: `IMAGEDISK`
    /// over the first store, which is in, and `BLANKDISK` over the second one.
    pub fn new(alloc: Global, config: ModelConfig, image: S, blank: S) -> Result<Model<S>, NoMemory>
        requires frames { (FEWEST_FRAMES ≤ config.frames) × (config.frames ≤ MOST_FRAMES) }
        requires slots { (1 ≤ config.slots) × (config.slots ≤ 32) }
        requires depth { (1 ≤ config.depth) × (config.depth ≤ 32) }
        ensures { IfOk result (IsNewModel S.size S.told config ALL_PORTS (port_0_alone image blank)) }
    {
        Model::with_disks(alloc, config, ALL_PORTS, Disks::of_port_0(image, blank))
    }

    /// The same with the ports that are implemented, by the bits of PI, and with these disks, of which those are in
    /// that are first in their ports. It tells its disks' sectors where all of their stores do.
    pub fn with_disks(
        alloc: Global,
        config: ModelConfig,
        implemented: u8,
        disks: Disks<S>,
    ) -> Result<Model<S>, NoMemory>
        requires frames { (FEWEST_FRAMES ≤ config.frames) × (config.frames ≤ MOST_FRAMES) }
        requires ports { (1 ≤ implemented) × (implemented ≤ 15) }
        requires slots { (1 ≤ config.slots) × (config.slots ≤ 32) }
        requires depth { (1 ≤ config.depth) × (config.depth ≤ 32) }
        ensures { IfOk result (IsNewModel S.size S.told config implemented disks) }
    {
        let port0 = PortModel::new(alloc, disks.port0.is_some())?;
        let port1 = PortModel::new(alloc, disks.port1.is_some())?;
        let port2 = PortModel::new(alloc, disks.port2.is_some())?;
        let port3 = PortModel::new(alloc, disks.port3.is_some())?;
        let hardware = Hardware {
            memory: vec![in alloc; 0u8; FRAME_BYTES as usize * usize::from(config.frames)]?,
            ports: [port0, port1, port2, port3],
            cap: capabilities(implemented, config.slots, config.ncq),
            pi: u32::from(implemented),
            hr: false,
            ae: false,
            ie: false,
            tape: Vec::new(alloc),
            starved: false,
            command_buffer: CommandBuffer::new(alloc)?,
        };
        Ok(Model {
            hardware,
            bays: bays_for(alloc, disks, config)?,
            held: [false; PORTS],
            queue: Vec::new(alloc),
            accesses: AccessCounter::none(),
        })
    }

    /// What the device did, the oldest first.
    pub fn tape(&self) -> &[Entry]
        ensures { result.now ≡ (device_at S.size S.told self.now).tape }
    {
        self.hardware.tape.as_slice()
    }

    /// What the memory holds, from address 0 on.
    pub fn memory(&self) -> &[u8]
        ensures bytes { (at : ℕ) → slice_index result.now at ≡ (device_at S.size S.told self.now).memory at }
        ensures length_is_size { length result.now ≡ (device_at S.size S.told self.now).memory_size }
    {
        self.hardware.memory.as_slice()
    }

    /// What a register shows now, of the adapter or of one of its four ports. It is no access: the device does nothing
    /// first, and nothing is noted.
    pub fn shown(&self, r: Reg) -> u32
        requires { HasRegister r }
        ensures { Shows r result (device_at S.size S.told self.now) }
    {
        self.hardware.shown(r)
    }

    /// Whether a step of the device, one that was asked for, that was queued or that the model does by itself, was left
    /// out since memory was refused: to note it on the tape, or to keep what sectors held that it changes. (The
    /// contracts say that there was no room without growing.) From then on this is `true`, and what the model answers
    /// is no longer what an adapter with memory would.
    pub fn starved(&self) -> bool
        ensures { result ≡ self.now.hardware.starved }
    {
        self.hardware.starved
    }

    /// Has the device do a step before the n-th access from now, if it is possible then. The next access is the first;
    /// 0 is read as 1. Steps before one access are done in the order in which they were queued.
    pub fn queue_step(&mut self, n: u64, step: DeviceStep) -> Result<(), NoMemory>
        ensures rest_is_kept { self.new ≡ record self.old { queue = self.new.queue } }
        ensures queued { OnOk result (self.new.queue.items ≡ self.old.queue.items
            ++ record { access = min (self.old.accesses.saturating_count + max n 1) (2 ^ 64 - 1); step = step } ∷ []) }
        ensures queue_is_kept { OnErr result (self.new.queue.items ≡ self.old.queue.items) }
    {
        let access = self.accesses.saturating_count.saturating_add(n.max(1));
        self.queue
            .push(QueuedStep { access, step })
            .map_err(|_full| NoMemory)
    }

    /// Takes the command that is issued in a slot; what means none fails for that.
    fn fetch(&mut self, port: Port, slot: Slot) -> bool
        ensures { AnswersStep S.size S.told S.failures (DeviceStep.Fetch port slot) result self.old self.new }
    {
        if port.0 >= 4 || slot.0 >= 32 {
            return false;
        }
        if self.hardware.fetch(port.0, slot.0) {
            return true;
        }
        if !self.hardware.abort_invalid(port.0, slot.0) {
            return false;
        }
        self.hardware.send_fault(usize::from(port.0), false);
        true
    }

    /// Ends a slot's command, of which nothing is left to move or to clear.
    fn done(&mut self, port: Port, slot: Slot) -> bool
        ensures { AnswersStep S.size S.told S.failures (DeviceStep.Done port slot) result self.old self.new }
    {
        if port.0 >= 4 || slot.0 >= 32 {
            return false;
        }
        let Some(operation) = self.hardware.done(port.0, slot.0) else {
            return false;
        };
        note_end_of(&mut self.bays, usize::from(port.0), operation);
        true
    }

    /// Fails a slot's command, which is taken, with an error, and leaves its disk busy or not. The log names it, if it
    /// is queued.
    fn fail(&mut self, port: Port, slot: Slot, error: u8, busy: bool) -> bool
        ensures { AnswersStep S.size S.told S.failures (asked_fault busy port slot error) result self.old self.new }
    {
        if port.0 >= 4 || slot.0 >= 32 {
            return false;
        }
        let Some(queued) = self.hardware.fail(port.0, slot.0, error, busy) else {
            return false;
        };
        self.hardware.send_fault(usize::from(port.0), queued);
        if queued {
            let tag = slot.0;
            log_failed(
                &mut self.bays,
                usize::from(port.0),
                LoggedError { tag, error },
            );
        }
        true
    }

    /// Has a port meet a fatal error, while its engine runs: the interface's or the host bus's (IFS, HBFS), with a disk
    /// or without. HBDS isn't told, since a driver handles the three alike.
    fn raise_fatal(&mut self, port: Port, error: FatalError) -> bool
        ensures { AnswersStep S.size S.told S.failures (DeviceStep.Fatal port error) result self.old self.new }
    {
        port.0 < 4 && self.hardware.raise_fatal(port.0, error)
    }

    /// Fills the received FIS area of a port that receives FISes with a byte, and PRDBC of each command that is taken.
    fn scribble(&mut self, port: Port, byte: u8) -> bool
        ensures { AnswersStep S.size S.told S.failures (DeviceStep.Scribble port byte) result self.old self.new }
    {
        port.0 < 4 && self.hardware.scribble(port.0, byte)
    }

    /// Takes the disk out of a port.
    fn unplug(&mut self, port: Port) -> bool
        ensures { AnswersStep S.size S.told S.failures (DeviceStep.Unplug port) result self.old self.new }
    {
        port.0 < 4 && self.hardware.unplug(port.0)
    }

    /// Whether a disk may be put into a port: it has disks, and none is in. (A step `LosePlug` asks for nothing else.)
    fn may_plug(&self, port: Port) -> bool
        ensures yes { result ≡ true → (port.0 < length self.now.bays.items)
            × IsPossible (DeviceStep.LosePlug port) (device_at S.size S.told self.now) }
        ensures no { result ≡ false
            → IsPossible (DeviceStep.LosePlug port) (device_at S.size S.told self.now) → ⊥ }
    {
        let place = usize::from(port.0);
        if place >= PORTS || !has_disks(self.bays.as_slice(), place) {
            return false;
        }
        !self.hardware.ports[place].present
    }

    /// Puts one of a port's disks into it, as it was when it was taken out.
    fn plug(&mut self, port: Port, disk: DiskNumber) -> bool
        ensures { AnswersStep S.size S.told S.failures (DeviceStep.Plug port disk) result self.old self.new }
    {
        let place = usize::from(port.0);
        let Some(which) = DiskIndex::of(disk) else {
            return false;
        };
        if !self.may_plug(port) {
            return false;
        }
        let Some(bay) = &mut self.bays[place] else {
            return false;
        };
        if !self
            .hardware
            .plug(port.0, which.number(), which.equals(bay.which))
        {
            return false;
        }
        bay.put_in(which);
        true
    }

    /// Moves the next piece of a slot's command, or fails it, if that is a sector on which the store fails, or one past
    /// the disk. Where a sector is written, what it holds is kept before, if the disks have a cache. The memory is
    /// taken to end at 4 GiB. The move may be known; the one after it is told then. It is entered for each sector, so
    /// it stands in its callers' code, with what it calls for each. So many moves of the command come right behind it.
    #[inline(always)]
    fn move_piece(
        &mut self,
        port: Port,
        slot: Slot,
        known: &mut Option<NextMove>,
        ahead: u32,
    ) -> StepOutcome
        requires small { slot.0 < 32 }
        requires known { IfSome known.old (λ n. (t : TakenCommand) × IsNextMove self.old.hardware port.0 slot.0 n t) }
        ensures answers { AnswersStep S.size S.told S.failures (DeviceStep.Move port slot) (is_step_not_skipped result)
            self.old
            self.new }
        ensures whole { result ≡ StepOutcome.Done
            → Completes S.size S.told S.failures (DeviceStep.Move port slot) self.old
            self.new }
        ensures failed { result ≡ StepOutcome.Failed
            → CommandOfStepFails S.size S.told S.failures (DeviceStep.Move port slot)
            self.old self.new }
        ensures readies { result ≡ StepOutcome.Done → KeepsRoomForNext S.size S.told port.0 slot.0 known.new self.old
            self.new }
        ensures page { (t : FetchedCommand) → ((device_at S.size S.told self.old).port port.0).taken slot.0 ≡ Some t
            → sends_page t.meaning.operation ≡ true →
            result ≡ StepOutcome.Skipped → HasMove (device_at S.size S.told self.old) port.0 slot.0 t
            → next_place t < 2 ^ 32
            → TapeHasRoom self.old.hardware 1 → ⊥ }
    {
        let place = usize::from(port.0);
        if place >= PORTS || place >= self.bays.len() {
            return StepOutcome::Skipped;
        }
        let Some(bay) = &mut self.bays[place] else {
            return StepOutcome::Skipped;
        };
        let Some(next) = self.hardware.next_move(port.0, slot.0, *known) else {
            return StepOutcome::Skipped;
        };
        // A sector that was written can't be taken back, so the memory of its entry is found first.
        let room = self.hardware.reserve(1);
        if !room {
            self.hardware.starved = true;
            return StepOutcome::Skipped;
        }
        if !next.is_within_disk_if_it_moves_sectors(bay.sectors()) {
            let _failed = self.fail(port, slot, PAST_THE_DISK, false);
            return StepOutcome::Failed;
        }
        if !bay.reserve(sectors_to_write(next.operation, 1)) {
            self.hardware.starved = true;
            return StepOutcome::Skipped;
        }
        if !bay.transfer_piece(&mut self.hardware, next, ahead) {
            let _failed = self.fail(port, slot, STORE_FAILED, false);
            return StepOutcome::Failed;
        }
        *known = self.hardware.note_move(port.0, slot.0, next);
        StepOutcome::Done
    }

    /// Moves the next piece alone; `false` says that nothing came of it.
    #[inline(never)]
    fn move_one(&mut self, port: Port, slot: Slot) -> bool
        requires { slot.0 < 32 }
        ensures { AnswersStep S.size S.told S.failures (DeviceStep.Move port slot) result self.old self.new }
    {
        self.move_piece(port, slot, &mut None, 0).is_told()
    }

    /// Clears the next sectors of a slot's trim, so many at the most: those that follow one another. It fails on the
    /// first one past the disk, or on which the store fails, once those before it are cleared. What they hold is kept
    /// before, if the disks have a cache.
    fn clear_run(&mut self, port: Port, slot: Slot, most: u32) -> StepOutcome
        requires { slot.0 < 32 }
        ensures answers { AnswersStep S.size S.told S.failures (DeviceStep.Clear port slot most)
            (is_step_not_skipped result)
            self.old self.new }
        ensures whole { result ≡ StepOutcome.Done
            → HasCleared (device_at S.size S.told self.old) (device_at S.size S.told self.new) port.0 slot.0 most
            × Completes S.size S.told S.failures (DeviceStep.Clear port slot most) self.old self.new }
        ensures failed { result ≡ StepOutcome.Failed
            → CommandOfStepFails S.size S.told S.failures (DeviceStep.Clear port slot most)
            self.old self.new }
        ensures left { result ≡ StepOutcome.Done → (n : ℕ) → TapeHasRoom self.old.hardware (n + 1)
            → TapeHasRoom self.new.hardware n }
        ensures old_room { result ≡ StepOutcome.Done → (t : FetchedCommand)
            → ((device_at S.size S.told self.old).port port.0).taken slot.0 ≡ Some t → (n : ℕ)
            → ModelHasRoomForOldSectors self.old port.0 (next_run_length most t + n)
            → ModelHasRoomForOldSectors self.new port.0 n }
    {
        let place = usize::from(port.0);
        if place >= PORTS || !has_disks(self.bays.as_slice(), place) {
            return StepOutcome::Skipped;
        }
        // A sector that was cleared can't be taken back, so the memory of the entries is found first.
        let room = self.hardware.reserve(2);
        let Some(run) = self.hardware.run_to_clear(port.0, slot.0, most) else {
            return StepOutcome::Skipped;
        };
        if !room {
            self.hardware.starved = true;
            return StepOutcome::Skipped;
        }
        let Some(bay) = &mut self.bays[place] else {
            return StepOutcome::Skipped;
        };
        let on_disk = run.cut(bay.sectors());
        if !bay.reserve(on_disk.count) {
            self.hardware.starved = true;
            return StepOutcome::Skipped;
        }
        let count = bay.clear(on_disk);
        let first = run.first;
        self.hardware
            .note_clear(port.0, slot.0, SectorExtent { first, count }, most);
        if count == run.count {
            return StepOutcome::Done;
        }
        let error = if count < on_disk.count {
            STORE_FAILED
        } else {
            PAST_THE_DISK
        };
        let _failed = self.fail(port, slot, error, false);
        StepOutcome::Failed
    }

    /// Takes a slot's command if it isn't taken, moves and clears all that is left of it, and ends it. The tape's
    /// memory is found first, and that of the old bytes that are kept. A sector on which the store fails, or that is
    /// past the disk, fails it.
    #[inline(never)]
    fn finish(&mut self, port: Port, slot: Slot) -> bool
        requires { slot.0 < 32 }
        ensures answers { AnswersStep S.size S.told S.failures (DeviceStep.Finish port slot) result self.old self.new }
        ensures sends { HasDisks (device_at S.size S.told self.old) port.0
            → (has : HasFinishablePageCommand (device_at S.size S.told self.old) port.0 slot.0) →
            (result ≡ true → SlotHasNoCommand ((device_at S.size S.told self.new).port port.0) slot.0)
            × (result ≡ false → (self.new.hardware.starved ≡ true)
            × (TapeHasRoom self.new.hardware (has.moves_left + 1) → ⊥)) }
    {
        if port.0 >= 4 || !has_disks(self.bays.as_slice(), usize::from(port.0)) {
            return false;
        }
        let Some(bay) = &mut self.bays[usize::from(port.0)] else {
            return false;
        };
        let Some(
            BegunCommand {
                remaining,
                is_newly_taken,
            },
        ) = bay.begin(&mut self.hardware, port.0, slot.0)
        else {
            return false;
        };
        let mut did = is_newly_taken;
        let mut known = None;
        for piece in 0..remaining.moves {
            match self.move_piece(port, slot, &mut known, remaining.moves - piece - 1) {
                StepOutcome::Skipped => return did,
                StepOutcome::Failed => return true,
                StepOutcome::Done => did = true,
            }
        }
        for _run in 0..remaining.clears {
            let most = self.hardware.count_uncleared(port.0, slot.0);
            match self.clear_run(port, slot, most) {
                StepOutcome::Skipped => return did,
                StepOutcome::Failed => return true,
                StepOutcome::Done => did = true,
            }
        }
        self.done(port, slot) || did
    }

    /// Takes the IDENTIFY DEVICE or READ LOG EXT of a slot, unless it is taken. No other one of its port may be taken
    /// then.
    fn take_page(&mut self, port: u8, slot: u8)
        requires port { port < 4 }
        requires small { slot < 32 }
        requires there { MayTakePageCommand (device_at S.size S.told self.old) port slot
            ⊎ HasFinishablePageCommand (device_at S.size S.told self.old) port slot }
        ensures { TakesPageCommandUnlessOneIsTaken S.size S.told port slot self.old self.new }
    {
        let _taken = self.hardware.fetch(port, slot);
    }

    /// The first slot with an IDENTIFY DEVICE or READ LOG EXT that may be taken, or can be done to its end, of a port
    /// that has disks and isn't left out.
    fn next_page_command(&self, left_out: &[bool; PORTS]) -> Option<PendingPageCommand>
        ensures port { IfSome result (λ found. (found.port < 4) × IsPortReleased left_out.now found.port
            × HasDisks (device_at S.size S.told self.now) found.port) }
        ensures small { IfSome result (λ found. found.slot < 32) }
        ensures found { IfSome result (λ found. FindsPageCommandAndWhetherItCanEnd
            (device_at S.size S.told self.now) found.port
            found.slot
            (Some found.can_end)) }
        ensures none { result ≡ None → (port slot : ℕ) → port < 4 → IsPortReleased left_out.now port
            → HasDisks (device_at S.size S.told self.now) port → slot < 32 →
            FindsPageCommandAndWhetherItCanEnd (device_at S.size S.told self.now) port slot None }
    {
        for port in 0..4u8 {
            if !left_out[usize::from(port)] && has_disks(self.bays.as_slice(), usize::from(port)) {
                let found = self.hardware.next_page_command(port);
                if found.is_some() {
                    return found;
                }
            }
        }
        None
    }

    /// Does each IDENTIFY DEVICE and READ LOG EXT that can be done to its end, of each port that isn't held: the lowest
    /// port's first, and of these the lowest slot's. The page that one sends may stand where another's bytes are, also
    /// another port's, so they are looked for anew after each. One that may be taken, and can't be done to its end, or
    /// for which the tape has no memory, is taken, and no more; the others of its port wait for it. Once the tape had
    /// no memory, none is done to its end. Beside another command none is taken.
    fn send_pages(&mut self)
        ensures own { LeadsBySteps (SendsPages self.old.held) (device_at S.size S.told self.old)
            (device_at S.size S.told self.new) }
        ensures settled { (held : List Bool) → IsSettled held (device_at S.size S.told self.old)
            → IsSettled held (device_at S.size S.told self.new) }
        ensures left { PageCommandWaitsOnlyIfHeldOrStarved self.new.held self.new.hardware.starved
            (device_at S.size S.told self.new) }
        ensures rest { OwnStepsKeep S.size self.old self.new }
        ensures told { self.new.hardware.starved ≡ true → (self.old.hardware.starved ≡ true)
            ⊎ LeavesPageWithoutTapeRoom self.new.hardware (device_at S.size S.told self.new) }
        ensures disks { (port : ℕ) (which : DiskIndex)
            → numbered_disk self.new port which ≡ numbered_disk self.old port which }
    {
        let mut left_out = self.held;
        let mut lacks = false;
        while let Some(found) = self.next_page_command(&left_out) {
            if !found.can_end || lacks {
                self.take_page(found.port, found.slot);
                left_out[usize::from(found.port)] = true;
            } else if !self.finish(Port(found.port), Slot(found.slot)) {
                self.take_page(found.port, found.slot);
                left_out[usize::from(found.port)] = true;
                lacks = true;
            }
        }
    }

    /// Has the port's disks lie of a byte of their pages, if a page has such a byte. A port without disks says nothing.
    fn lie(&mut self, port: Port, page: DiskPage, offset: u16, bits: u8) -> bool
        ensures { AnswersStep S.size S.told S.failures (DeviceStep.Lie port page offset bits) result self.old self.new }
    {
        let offset = usize::from(offset);
        if offset >= PAGE_BYTES {
            return false;
        }
        add_lie_of(&mut self.bays, usize::from(port.0), page, offset, bits);
        true
    }

    /// Ends the lies of the port's disks.
    fn tell_truth(&mut self, port: Port) -> bool
        ensures { AnswersStep S.size S.told S.failures (DeviceStep.Truth port) result self.old self.new }
    {
        end_lies(&mut self.bays, usize::from(port.0));
        true
    }

    /// Holds a port, or releases it, if it is one of ports 0 to 3.
    fn hold(&mut self, port: Port, held: bool) -> bool
        ensures holds { held ≡ true → AnswersStep S.size S.told S.failures (DeviceStep.Hold port) result self.old
            self.new }
        ensures releases { held ≡ false → AnswersStep S.size S.told S.failures (DeviceStep.Release port) result self.old
            self.new }
    {
        let place = usize::from(port.0);
        if place >= PORTS {
            return false;
        }
        self.held[place] = held;
        true
    }

    /// Puts the disk of a port that was last in into it again, and what was in its cache is lost: each sector holds
    /// what it held when the disk last ended a flush, or else when it was first in, but for those on which the store
    /// fails. Without a cache it is as it was when it was taken out.
    fn lose_plug(&mut self, port: Port) -> bool
        ensures { AnswersStep S.size S.told S.failures (DeviceStep.LosePlug port) result self.old self.new }
    {
        let place = usize::from(port.0);
        if !self.may_plug(port) {
            return false;
        }
        let Some(bay) = &mut self.bays[place] else {
            return false;
        };
        if !self.hardware.plug(port.0, bay.which.number(), true) {
            return false;
        }
        bay.plug_after_cache_loss();
        true
    }

    /// Has the device do a step.
    #[inline(never)]
    fn do_step(&mut self, s: &DeviceStep) -> bool
        ensures { AnswersStep S.size S.told S.failures s.now result self.old self.new }
    {
        match *s {
            DeviceStep::Fetch(port, slot) => self.fetch(port, slot),
            DeviceStep::Move(port, slot) => slot.0 < 32 && self.move_one(port, slot),
            DeviceStep::Clear(port, slot, most) => {
                slot.0 < 32 && self.clear_run(port, slot, most).is_told()
            }
            DeviceStep::Done(port, slot) => self.done(port, slot),
            DeviceStep::Finish(port, slot) => slot.0 < 32 && self.finish(port, slot),
            DeviceStep::Fault(port, slot, error) => self.fail(port, slot, error, false),
            DeviceStep::FaultBusy(port, slot, error) => self.fail(port, slot, error, true),
            DeviceStep::Fatal(port, error) => self.raise_fatal(port, error),
            DeviceStep::Scribble(port, byte) => self.scribble(port, byte),
            DeviceStep::Lie(port, page, offset, bits) => self.lie(port, page, offset, bits),
            DeviceStep::Truth(port) => self.tell_truth(port),
            DeviceStep::Hold(port) => self.hold(port, true),
            DeviceStep::Release(port) => self.hold(port, false),
            DeviceStep::Unplug(port) => self.unplug(port),
            DeviceStep::Plug(port, disk) => self.plug(port, disk),
            DeviceStep::LosePlug(port) => self.lose_plug(port),
        }
    }

    /// Before an access, the steps that are queued before it, in their order; each leaves the queue, whether it was
    /// possible or not.
    #[inline(always)]
    fn do_queued_steps(&mut self)
        ensures { BeginsAccess S.size S.told S.failures self.old self.new }
    {
        self.accesses.add();
        let mut place = 0;
        for _queued in 0..self.queue.len() {
            let queued = self.queue[place];
            if queued.access > self.accesses.saturating_count {
                place += 1;
            } else {
                self.queue.remove(place);
                let _done = self.do_step(&queued.step);
            }
        }
    }
}

/// CAP: how many ports there are, so many slots, and whether there are queued commands.
fn capabilities(pi: u8, slots: u8, ncq: bool) -> u32
    requires ports { (1 ≤ pi) × (pi ≤ 15) }
    requires slots { (1 ≤ slots) × (slots ≤ 32) }
    ensures { result ≡ cap_of pi slots ncq }
{
    (pi.count_ones() - 1) + 256 * (u32::from(slots) - 1) + (if ncq { 1 << 30 } else { 0 })
}

impl<S: SectorStore> Adapter for Model<S> {
    ghost device = { λ m. device_at S.size S.told m };

    ghost access_count = { λ m. m.accesses.count.made };

    /// Before the value is read, a pending reset ends unless all four ports are held, and ends all holds; and on each
    /// port that isn't held, CR and FR fall if they may, and the link comes up if it may. Then each IDENTIFY DEVICE and
    /// READ LOG EXT of such a port is done that can be done to its end, and one that can't, but may be taken, is taken.
    /// A held port does nothing by itself until a reset ends.
    fn read(&mut self, r: Reg) -> u32
        requires { MayRead r (device_at S.size S.told self.old) }
        ensures reads { Reads r result (device_at S.size S.told self.old) (device_at S.size S.told self.new) }
        ensures counted { self.new.accesses.count.made ≡ self.old.accesses.count.made + 1 }
        ensures settled { IsSettled self.new.held (device_at S.size S.told self.new) }
        ensures page_command_waits_only_if_held_or_starved { PageCommandWaitsOnlyIfHeldOrStarved self.new.held
            self.new.hardware.starved
            (device_at S.size S.told self.new) }
        ensures does_read { DoesRead S.size S.told S.failures r result self.old self.new }
    {
        self.do_queued_steps();
        self.hardware.end_reset_stop_engines_link_up(&mut self.held);
        self.send_pages();
        let value = self.hardware.shown(r);
        self.hardware.update_read_notes(r, value);
        value
    }

    fn write(&mut self, r: Reg, v: u32)
        requires { IsStable (MayWrite r v) (device_at S.size S.told self.old) }
        ensures writes { Writes r v (device_at S.size S.told self.old) (device_at S.size S.told self.new) }
        ensures counted { self.new.accesses.count.made ≡ self.old.accesses.count.made + 1 }
        ensures applies_effect { AppliesEffect S.size S.told S.failures (device_after_write r v) self.old self.new }
    {
        self.do_queued_steps();
        self.hardware.apply_register_write(r, v);
    }

    fn load(&mut self, addr: u32, out: &mut [u8])
        requires { IsStable (IsInMemoryNotOwnedByDevice addr (length out.old)) (device_at S.size S.told self.old) }
        ensures loads { Loads addr out.new (device_at S.size S.told self.old) (device_at S.size S.told self.new) }
        ensures counted { self.new.accesses.count.made ≡ self.old.accesses.count.made + 1 }
        ensures begins_access { BeginsAccess S.size S.told S.failures self.old self.new }
    {
        self.do_queued_steps();
        self.hardware.load(addr as usize, out);
    }

    fn store(&mut self, addr: u32, bytes: &[u8])
        requires { IsStable (IsInMemoryNotOwnedByDevice addr (length bytes.now)) (device_at S.size S.told self.old) }
        ensures stores { Stores addr bytes.now (device_at S.size S.told self.old) (device_at S.size S.told self.new) }
        ensures counted { self.new.accesses.count.made ≡ self.old.accesses.count.made + 1 }
        ensures applies_effect { AppliesEffect S.size S.told S.failures
            (λ d. record d { memory = patched d.memory addr bytes.now })
            self.old self.new }
    {
        self.do_queued_steps();
        self.hardware.store(addr as usize, bytes);
    }

    ghost tells = { λ m. all_disks_have_known_sectors S.size S.told m.bays.items };
}

impl<S: SectorStore> Stepped for Model<S> {
    /// Beside what every such adapter says: it is done if it is possible, no call on a store fails, and there is memory
    /// to note it, and to keep what sectors held that it changes, where disks have a cache; and nothing but what it
    /// asks is another. Disks 0 and 1 alone are put in, and only into a port that has disks.
    fn step(&mut self, s: &DeviceStep) -> bool
        ensures steps { Steps (device_at S.size S.told self.old) (device_at S.size S.told self.new) }
        ensures refused { result ≡ false → device_at S.size S.told self.new ≡ device_at S.size S.told self.old }
        ensures asked { result ≡ true → DoesOrFailsStep s.now (device_at S.size S.told self.old)
            (device_at S.size S.told self.new) }
        ensures counted { self.new.accesses.count.made ≡ self.old.accesses.count.made }
        ensures answers { AnswersStep S.size S.told S.failures s.now result self.old self.new }
    {
        self.do_step(s)
    }
}
