// The slots of a port: which command is taken, and how it goes on.
ghost use Rattle.std.specs.Prelude.{◌≡◌, ◌↔◌, ◌<◌, ◌≤◌, ◌^◌, ◌+◌, ◌||◌, ℕ, IsTrue, None, Some, true, false, is_some, slice_index_or, IfSome, List};
ghost use Rattle.adapter.specs.{Steps.{IsAloneOrAllAreQueued, IsFetchable, IsWorking, admits, port_after_clear, port_after_done_except_lasting, port_after_fault, port_after_fetch, port_with_lasting_after_operation, port_after_move}, declared.command.Operation.{Operation}};
ghost use Rattle.device_model.specs.{WordBits.{word_bits}, FetchedBytes.{IsNewlyTaken}, Slots.{AdmitsByHaltAndTaken, MayTakeIfDecoded, IsFetchableIfHaltAdmits, WorksOnIn}, PortView.{Media, cause_of, halt_of, taken_in, bsy_if_disk_left_busy, media_after_move, media_after_clear, media_after_end, port_of, taken_of, reset_port_without_disk}, declared.port.TakenCommand.{TakenCommand}};

use crate::bits::{is_clear_from, with_bit_as};
use crate::clearing::SectorExtent;
use crate::halt::Halting;
use crate::operations::{end_cause_bit_number, lasting_tape_length_after};
use crate::port::{PortModel, TakenCommand};
use adapter::Operation;
use hba_regs::is_set;

/// The status of a command that failed: DRDY and ERR (ACS-3, 6.3).
pub const FAILED_STATUS: u8 = 0x41;

/// BSY, a bit of the status (ACS-3, 6.3).
const BUSY: u8 = 0x80;

/// The bit of PxIS that a fault sets (AHCI 1.3.1, 3.3.5).
const TFES: u32 = 30;

/// The status that a command leaves that failed: DRDY and ERR, and BSY where its disk is left busy.
pub fn failed_status(busy: bool) -> u8
    ensures { result ≡ 0x41 + bsy_if_disk_left_busy busy }
{
    if busy {
        FAILED_STATUS + BUSY
    } else {
        FAILED_STATUS
    }
}

impl PortModel {
    /// A command is taken in a slot: a queued one leaves PxCI, and a plain one sets BSY.
    pub fn take(&mut self, slot: u8, command: &TakenCommand)
        requires slot { slot < 32 }
        requires new { IsNewlyTaken command.now }
        requires alone { (m : Media) → IsAloneOrAllAreQueued (port_of self.old m) command.now.operation }
        ensures { (m : Media) → port_of self.new m ≡ port_after_fetch (port_of self.old m) slot
            (taken_of command.now).meaning
            (taken_of command.now).places }
    {
        let queued = command.operation.is_queued();
        self.taken.put(slot, command);
        if queued {
            self.ci = with_bit_as(self.ci, u32::from(slot), false);
        } else {
            self.tfd = Some(self.task_file() | 0x80);
        }
    }

    /// A piece of a slot's command was moved, these bytes.
    #[inline(always)]
    pub fn advance(&mut self, slot: u8, operation: Operation, bytes: &[u8; 512])
        requires slot { slot < 32 }
        requires slot_has_command { (t : TakenCommand) × (taken_in self.old.taken slot ≡ Some t)
            × (t.operation ≡ operation)
            × (t.moved + 1 < 2 ^ 32) }
        ensures moved { (m : Media) (t : TakenCommand) → taken_in self.old.taken slot ≡ Some t →
            port_of self.new (media_after_move m (taken_of t) bytes.now)
            ≡ port_after_move (port_of self.old m) slot (taken_of t)
            bytes.now }
        ensures held { (t : TakenCommand) → taken_in self.old.taken slot ≡ Some t
            → (operation ≡ Operation.Trim → ⊥) →
            taken_in self.new.taken slot ≡ Some (record t { moved = t.moved + 1 }) }
        ensures rest { self.new ≡ record self.old { taken = self.new.taken } }
    {
        if operation.is_trim() {
            self.taken.add_block(slot, bytes);
        } else {
            self.taken.add_moved(slot);
        }
    }

    /// Sectors of a slot's trim were cleared.
    pub fn clear(&mut self, slot: u8, run: SectorExtent)
        requires slot { slot < 32 }
        requires room { IfSome (taken_in self.old.taken slot) (λ t. t.cleared + run.count < 2 ^ 32) }
        ensures { (m : Media) (t : TakenCommand) → taken_in self.old.taken slot ≡ Some t →
            port_of self.new (media_after_clear m run.first run.count)
            ≡ port_after_clear (port_of self.old m) slot (taken_of t)
            run.first run.count }
    {
        self.taken.add_cleared(slot, run.count);
    }

    /// The command of a slot ends without error, with the tape so long: a queued one leaves PxSACT, and a plain one
    /// PxCI.
    pub fn end(&mut self, slot: u8, operation: Operation, here: usize)
        requires { slot < 32 }
        ensures { (m : Media) → port_of self.new (media_after_end m
            operation) ≡ port_with_lasting_after_operation
            (port_after_done_except_lasting (port_of self.old m) slot (cause_of operation) operation)
            operation
            here }
    {
        self.lasting_tape_length = lasting_tape_length_after(
            operation,
            self.lasting_tape_length,
            here,
        );
        self.taken.remove(slot);
        self.is = with_bit_as(self.is, end_cause_bit_number(operation), true);
        self.halting = Halting::NotHalted;
        self.tfd = Some(self.task_file() & 0xff7f);
        if operation.is_queued() {
            self.sact = with_bit_as(self.sact, u32::from(slot), false);
        } else {
            self.ci = with_bit_as(self.ci, u32::from(slot), false);
        }
    }

    /// A command failed with this error, a queued one or a plain one (AHCI 1.3.1, 6.2.2): PxTFD shows ERR and DRDY, BSY
    /// where its disk is left busy, and the error, TFES is set, and the port is halted. The bits of its slot stay.
    pub fn fail(&mut self, queued: bool, error: u8, busy: bool)
        ensures { (m : Media) → port_of self.new m ≡ port_after_fault (port_of self.old m) queued error
            (bsy_if_disk_left_busy busy) }
    {
        self.tfd = Some(u16::from(failed_status(busy)) + 256 * u16::from(error));
        self.is = with_bit_as(self.is, TFES, true);
        self.halting = self.halting.after_fault(queued);
    }

    /// Whether a command is issued or taken in a slot.
    pub fn is_issued_or_taken(&self, slot: u8) -> bool
        requires { slot < 32 }
        ensures { result ≡ (word_bits self.now.ci slot || is_some (taken_in self.now.taken slot)) }
    {
        is_set(self.ci, u32::from(slot)) || self.taken.is_taken(slot)
    }

    /// Whether no command is issued or taken in a slot, and in those after it.
    pub fn none_issued_or_taken_from(&self, slot: u8) -> bool
        requires { slot < 32 }
        ensures { IsTrue result ↔ ((k : ℕ) → slot ≤ k
            → (word_bits self.now.ci k ≡ false) × (taken_in self.now.taken k ≡ None)) }
    {
        is_clear_from(self.ci, u32::from(slot)) && self.taken.is_empty_from(slot)
    }

    /// Whether the port works on such commands.
    pub fn is_working_on(&self, operation: Operation) -> bool
        ensures works { result ≡ true → (m : Media) → IsWorking (port_of self.now m) operation }
        ensures complete { result ≡ false → (m : Media)
            → IsWorking (port_of self.now m) operation →
            ⊥ }
    {
        self.cr && self.present && self.fresh && !self.broken && self.halting.admits(operation)
    }

    /// Whether no fault keeps such a command waiting, and it goes beside those that are taken.
    pub fn admits_by_halt_and_taken(&self, operation: Operation) -> bool
        ensures open { result ≡ true → AdmitsByHaltAndTaken self.now operation }
        ensures complete { result ≡ false → (m : Media)
            → admits (halt_of self.now.halting) operation ≡ true
            → IsAloneOrAllAreQueued (port_of self.now m) operation → ⊥ }
    {
        self.halting.admits(operation) && self.is_alone_or_all_are_queued(operation)
    }

    /// Whether such a command may be taken beside those that are: a queued one beside queued ones, and a plain one
    /// alone.
    fn is_alone_or_all_are_queued(&self, operation: Operation) -> bool
        ensures alone { result ≡ true → (m : Media) → IsAloneOrAllAreQueued (port_of self.now m) operation }
        ensures only { result ≡ false → (m : Media) → IsAloneOrAllAreQueued (port_of self.now m) operation →
            ⊥ }
    {
        if operation.is_queued() {
            self.taken.are_all_queued()
        } else {
            self.taken.is_empty()
        }
    }
}

/// Whether a slot has a command that is issued and not taken, on a port that works but for its halt, which isn't looked
/// at: it may be taken, if its bytes say one that the halt and those that are taken admit.
pub fn is_fetchable_if_halt_admits(ports: &[PortModel; 4], port: usize, slot: u8) -> bool
    requires port { port < 4 }
    requires slot { slot < 32 }
    ensures may { result ≡ true
        → IsFetchableIfHaltAdmits (slice_index_or ports.now port reset_port_without_disk) slot }
    ensures complete { result ≡ false → (m : Media) (operation : Operation)
        → MayTakeIfDecoded (port_of (slice_index_or ports.now port reset_port_without_disk) m) slot operation → ⊥ }
    ensures is_not_fetchable { result ≡ false → (m : Media) (operation : Operation)
        → IsFetchable (port_of (slice_index_or ports.now port reset_port_without_disk) m) slot →
        IsWorking (port_of (slice_index_or ports.now port reset_port_without_disk) m) operation → ⊥ }
{
    ports[port].st
        && ports[port].cr
        && ports[port].present
        && ports[port].fresh
        && !ports[port].broken
        && is_set(ports[port].ci, u32::from(slot))
        && ports[port].taken.get(slot).is_none()
}

/// The command in a slot, where the port works on it.
pub fn working_on(ports: &[PortModel; 4], port: usize, slot: u8) -> Option<&TakenCommand>
    requires port { port < 4 }
    requires slot { slot < 32 }
    ensures found { IfSome result (λ t. WorksOnIn (slice_index_or ports.now port reset_port_without_disk) slot t.now) }
    ensures first_in_range { IfSome result (λ t. t.now.first < 2 ^ 48) }
    ensures none { result ≡ None → (t : TakenCommand)
        → WorksOnIn (slice_index_or ports.now port reset_port_without_disk) slot t
        → ⊥ }
{
    let command = ports[port].taken.get(slot)?;
    if ports[port].is_working_on(command.operation) {
        Some(command)
    } else {
        None
    }
}
