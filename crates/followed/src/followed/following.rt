// Has the model go on as the peer shows.
ghost use Rattle.std.specs.Prelude.{◌≡◌, ◌<◌, ℕ, Bool, MatchOption, None, bit_and, is_some, true, slice_set};
ghost use Rattle.ata_types.specs.declared.Port.{Port as PortOf};
ghost use Rattle.adapter.specs.Access.Access.{Reading};
ghost use Rattle.hba_regs.specs.{Bits.{bit}, declared.reg.PortReg.{PortReg as PortRegOf}, declared.reg.PortReg.TheVariants.{Ci, Cmd, Tfd}, declared.reg.Reg.TheVariants.{Px}};
ghost use Rattle.followed.specs.Asking.{GoesOnAsking, KeepsNotes, LooksFirst, NotesFailuresOnly, NotesSlotsOnly, ReplacesByReading};
ghost use Rattle.followed.specs.declared.differing.DifferingSlotMasks.{DifferingSlotMasks as DifferingSlotMasksOf};
ghost use Rattle.followed.specs.DifferingSlots.{EndsOrFails, FailsLowest, ForgetsSlotsOf, GoesOnBySteps, GoesOnNotingSlots, NoSlotsDiffer, IsInFlight, IsLowestBit, LacksBits, NotesFailed, taken_or_all_of};

use super::Followed;
use crate::differences::agrees_in_compared_bits;
use crate::peer::Peer;
use adapter::{DeviceStep, FatalError};
use ata_types::{PORTS, Port, Slot};
use device_model::Inspectable;
use hba_regs::{GlobalControl, PortInterrupts, PortReg, Reg, SataStatus, TaskFile, is_set};

/// Looks at most at a peer that has a command failed, while others of the port may go on there, and how many alike in a
/// row are taken to mean that none does.
const LOOKS: u32 = 4096;

const ALIKE: u32 = 32;

impl<A: Inspectable, P: Peer> Followed<A, P> {
    /// Has a slot's command of the model fail as the peer's has, which shows this task file. It is noted as a queued
    /// one if its bit of PxSACT was set.
    fn fail(&mut self, port: Port, slot: u32, task_file: TaskFile)
        requires port { port.0 < 4 }
        requires slot { slot < 32 }
        ensures goes { GoesOnBySteps (A.device self.old.model) (A.device self.new.model) }
        ensures counted { A.access_count self.new.model ≡ A.access_count self.old.model }
        ensures noted { NotesFailed port.0 slot (((A.device self.old.model).port port.0).sact slot) self.old.differing
            self.new.differing }
        ensures peer { self.new.peer ≡ self.old.peer }
        ensures divergence { self.new.divergence ≡ self.old.divergence }
        ensures asks { GoesOnAsking P.makes P.fails self.old self.new }
        ensures slots { GoesOnNotingSlots port.0 self.old.differing self.new.differing }
        ensures rest { NotesFailuresOnly self.old self.new }
    {
        let step = Slot(slot as u8);
        let queued = is_set(self.model.shown(Reg::Px(port, PortReg::Sact)), slot);
        let _taken = self.go(DeviceStep::Fetch(port, step));
        let _failed = self.go(DeviceStep::Fault(port, step, task_file.error()));
        self.differing.note_failed(port, slot, queued);
    }

    /// Ends the plain command of a slot that has fallen clear, or fails it, if the peer shows an error.
    fn end_plain(&mut self, port: Port, slot: u32)
        requires port { port.0 < 4 }
        requires slot { slot < 32 }
        ensures goes { GoesOnBySteps (A.device self.old.model) (A.device self.new.model) }
        ensures counted { A.access_count self.new.model ≡ A.access_count self.old.model }
        ensures asks { GoesOnAsking P.makes P.fails self.old self.new }
        ensures noted { self.new.divergence ≡ None → (shown : ℕ)
            × P.makes self.old.peer (Reading (Px port Tfd) shown) self.new.peer
            × EndsOrFails (bit shown 0) port.0 slot (((A.device self.old.model).port port.0).sact slot)
            self.old.differing self.new.differing }
        ensures slots { GoesOnNotingSlots port.0 self.old.differing self.new.differing }
        ensures rest { NotesFailuresOnly self.old self.new }
    {
        let Some(task_file) = self.look(port, PortReg::Tfd) else {
            return;
        };
        let task_file = TaskFile(task_file);
        if task_file.has_error() {
            self.fail(port, slot, task_file);
        } else {
            let _ended = self.go(DeviceStep::Finish(port, Slot(slot as u8)));
        }
    }

    /// Goes on with a slot whose bit of PxCI has fallen: a queued command was taken, and a plain one has ended.
    fn leave_issued(&mut self, port: Port, slot: u32)
        requires port { port.0 < 4 }
        requires slot { slot < 32 }
        ensures goes { GoesOnBySteps (A.device self.old.model) (A.device self.new.model) }
        ensures counted { A.access_count self.new.model ≡ A.access_count self.old.model }
        ensures asks { GoesOnAsking P.makes P.fails self.old self.new }
        ensures slots { GoesOnNotingSlots port.0 self.old.differing self.new.differing }
        ensures rest { NotesFailuresOnly self.old self.new }
    {
        if is_set(self.model.shown(Reg::Px(port, PortReg::Sact)), slot) {
            let _taken = self.go(DeviceStep::Fetch(port, Slot(slot as u8)));
        } else {
            self.end_plain(port, slot);
        }
    }

    /// Goes on with a slot whose bit of PxCI or PxSACT has fallen. If it is of PxSACT, a queued command has ended.
    fn leave_slot(&mut self, port: Port, r: PortReg, slot: u32)
        requires port { port.0 < 4 }
        requires slot { slot < 32 }
        ensures goes { GoesOnBySteps (A.device self.old.model) (A.device self.new.model) }
        ensures counted { A.access_count self.new.model ≡ A.access_count self.old.model }
        ensures asks { GoesOnAsking P.makes P.fails self.old self.new }
        ensures slots { GoesOnNotingSlots port.0 self.old.differing self.new.differing }
        ensures rest { NotesFailuresOnly self.old self.new }
    {
        match r {
            PortReg::Ci => self.leave_issued(port, slot),
            _ => {
                let _ended = self.go(DeviceStep::Finish(port, Slot(slot as u8)));
            }
        }
    }

    /// Goes on with a slot so, if its bit has fallen.
    fn leave_slot_if(&mut self, fallen: bool, port: Port, r: PortReg, slot: u32)
        requires port { port.0 < 4 }
        requires slot { slot < 32 }
        ensures goes { GoesOnBySteps (A.device self.old.model) (A.device self.new.model) }
        ensures counted { A.access_count self.new.model ≡ A.access_count self.old.model }
        ensures asks { GoesOnAsking P.makes P.fails self.old self.new }
        ensures slots { GoesOnNotingSlots port.0 self.old.differing self.new.differing }
        ensures rest { NotesFailuresOnly self.old self.new }
    {
        if fallen {
            self.leave_slot(port, r, slot);
        }
    }

    /// Goes on with each slot whose bit of PxCI or PxSACT has fallen. Slots that are known to differ are passed over.
    fn follow_fallen(&mut self, port: Port, r: PortReg, said: u32)
        requires { port.0 < 4 }
        ensures goes { GoesOnBySteps (A.device self.old.model) (A.device self.new.model) }
        ensures counted { A.access_count self.new.model ≡ A.access_count self.old.model }
        ensures asks { GoesOnAsking P.makes P.fails self.old self.new }
        ensures slots { GoesOnNotingSlots port.0 self.old.differing self.new.differing }
        ensures rest { NotesFailuresOnly self.old self.new }
    {
        let known = self.differing.of(Reg::Px(port, r));
        for slot in 0..32 {
            let shown = self.model.shown(Reg::Px(port, r));
            self.leave_slot_if(is_set(shown & !said & !known, slot), port, r, slot);
        }
    }

    /// Which slots of the peer's port are in flight after a command has failed there. If the peer goes on with others,
    /// it waits for those, until this many looks have shown the same.
    fn settled(&mut self, port: Port) -> Option<u32>
        ensures model { self.new.model ≡ self.old.model }
        ensures asks { GoesOnAsking P.makes P.fails self.old self.new }
        ensures told { result ≡ None → is_some self.new.divergence ≡ true }
        ensures notes { KeepsNotes self.old self.new }
    {
        let mut left = self.in_flight(port)?;
        let mut same = 0;
        for _look in 0..LOOKS {
            let now = self.in_flight(port)?;
            same = if now == left {
                u32::saturating_add(same, 1)
            } else {
                0
            };
            left = now;
            if same == ALIKE {
                return Some(left);
            }
        }
        Some(left)
    }

    /// A command has failed: takes the queued ones that the peer has taken, ends those that fell clear, and fails the
    /// lowest of the others.
    fn follow_fault(&mut self, port: Port)
        requires { port.0 < 4 }
        ensures goes { GoesOnBySteps (A.device self.old.model) (A.device self.new.model) }
        ensures counted { A.access_count self.new.model ≡ A.access_count self.old.model }
        ensures asks { GoesOnAsking P.makes P.fails self.old self.new }
        ensures untaken { ReplacesByReading P.makes port self.old.differing.untaken self.new.differing.untaken }
        ensures slots { GoesOnNotingSlots port.0 self.old.differing self.new.differing }
        ensures rest { NotesSlotsOnly self.old self.new }
    {
        let Some(left) = self.settled(port) else {
            return;
        };
        let Some(issued) = self.look(port, PortReg::Ci) else {
            return;
        };
        let Some(task_file) = self.look(port, PortReg::Tfd) else {
            return;
        };
        let queued = self.model.shown(Reg::Px(port, PortReg::Sact));
        if queued == 0 {
            self.fail_lowest(port, self.outstanding(port), TaskFile(task_file));
        } else {
            self.follow_queued_fault(port, queued, left, issued, TaskFile(task_file));
        }
    }

    /// A queued command has failed, while these were queued in the model, and the peer shows those slots in flight, and
    /// these ones of them in PxCI.
    fn follow_queued_fault(
        &mut self,
        port: Port,
        queued: u32,
        left: u32,
        issued: u32,
        task_file: TaskFile,
    )
        requires { port.0 < 4 }
        ensures goes { GoesOnBySteps (A.device self.old.model) (A.device self.new.model) }
        ensures counted { A.access_count self.new.model ≡ A.access_count self.old.model }
        ensures asks { GoesOnAsking P.makes P.fails self.old self.new }
        ensures untaken { self.new.differing.untaken ≡ slice_set self.old.differing.untaken port.0 issued }
        ensures fails { (before : DifferingSlotMasksOf) × (is_queued : ℕ → Bool)
            × FailsLowest port.0 (taken_or_all_of (bit_and queued left) issued) is_queued before self.new.differing }
        ensures slots { GoesOnNotingSlots port.0 self.old.differing self.new.differing }
        ensures rest { NotesSlotsOnly self.old self.new }
    {
        self.follow_fallen(port, PortReg::Ci, issued);
        self.follow_fallen(port, PortReg::Sact, left);
        self.differing.note_untaken(port, issued);
        self.fail_lowest(port, taken_or_all(queued & left, issued), task_file);
    }

    /// Has the command of the lowest of these slots fail.
    fn fail_lowest(&mut self, port: Port, slots: u32, task_file: TaskFile)
        requires { port.0 < 4 }
        ensures goes { GoesOnBySteps (A.device self.old.model) (A.device self.new.model) }
        ensures counted { A.access_count self.new.model ≡ A.access_count self.old.model }
        ensures peer { self.new.peer ≡ self.old.peer }
        ensures divergence { self.new.divergence ≡ self.old.divergence }
        ensures asks { GoesOnAsking P.makes P.fails self.old self.new }
        ensures fails { FailsLowest port.0 slots ((A.device self.old.model).port port.0).sact self.old.differing
            self.new.differing }
        ensures slots { GoesOnNotingSlots port.0 self.old.differing self.new.differing }
        ensures rest { NotesFailuresOnly self.old self.new }
    {
        if let Some(slot) = lowest(slots) {
            self.fail(port, slot, task_file);
        }
    }

    /// Has the port meet a fatal error, if it is so.
    fn meet_if(&mut self, met: bool, port: Port, error: FatalError)
        ensures goes { GoesOnBySteps (A.device self.old.model) (A.device self.new.model) }
        ensures counted { A.access_count self.new.model ≡ A.access_count self.old.model }
        ensures asks { GoesOnAsking P.makes P.fails self.old self.new }
        ensures notes { KeepsNotes self.old self.new }
    {
        if met {
            let _met = self.go(DeviceStep::Fatal(port, error));
        }
    }

    /// Has a command of the port fail, if it is so.
    fn fail_if(&mut self, failed: bool, port: Port)
        requires { port.0 < 4 }
        ensures goes { GoesOnBySteps (A.device self.old.model) (A.device self.new.model) }
        ensures counted { A.access_count self.new.model ≡ A.access_count self.old.model }
        ensures asks { GoesOnAsking P.makes P.fails self.old self.new }
        ensures slots { GoesOnNotingSlots port.0 self.old.differing self.new.differing }
        ensures rest { NotesSlotsOnly self.old self.new }
    {
        if failed {
            self.follow_fault(port);
        }
    }

    /// Goes on by what the peer's PxIS shows: a command has failed, or the port has met a fatal error.
    fn follow_causes(&mut self, port: Port, shown: PortInterrupts, said: PortInterrupts)
        requires { port.0 < 4 }
        ensures goes { GoesOnBySteps (A.device self.old.model) (A.device self.new.model) }
        ensures counted { A.access_count self.new.model ≡ A.access_count self.old.model }
        ensures asks { GoesOnAsking P.makes P.fails self.old self.new }
        ensures slots { GoesOnNotingSlots port.0 self.old.differing self.new.differing }
        ensures rest { NotesSlotsOnly self.old self.new }
    {
        let failed = said.has_task_file_error() && !shown.has_task_file_error();
        let interface = said.has_interface_fatal_error() && !shown.has_interface_fatal_error();
        let host_bus = said.has_host_bus_fatal_error() && !shown.has_host_bus_fatal_error();
        self.fail_if(failed, port);
        self.meet_if(interface, port, FatalError::Interface);
        self.meet_if(host_bus, port, FatalError::HostBus);
    }

    /// Goes on by what the peer's PxSSTS shows: its link came up, or its disk was taken out.
    fn follow_link(&mut self, port: Port, shown: SataStatus, said: SataStatus)
        requires { port.0 < 4 }
        ensures goes { GoesOnBySteps (A.device self.old.model) (A.device self.new.model) }
        ensures counted { A.access_count self.new.model ≡ A.access_count self.old.model }
        ensures asks { GoesOnAsking P.makes P.fails self.old self.new }
        ensures notes { KeepsNotes self.old self.new }
    {
        if said.detection() == SataStatus::DEVICE_WITH_LINK {
            let _released = self.go(DeviceStep::Release(port));
        } else if shown.detection() == SataStatus::DEVICE_WITH_LINK {
            let _taken_out = self.go(DeviceStep::Unplug(port));
        }
    }

    /// Goes on by what the peer's PxTFD shows: it works on a plain command, or has ended it.
    fn follow_task_file(&mut self, port: Port, shown: TaskFile, said: TaskFile)
        requires { port.0 < 4 }
        ensures goes { GoesOnBySteps (A.device self.old.model) (A.device self.new.model) }
        ensures counted { A.access_count self.new.model ≡ A.access_count self.old.model }
        ensures asks { GoesOnAsking P.makes P.fails self.old self.new }
        ensures slots { GoesOnNotingSlots port.0 self.old.differing self.new.differing }
        ensures rest { NotesFailuresOnly self.old self.new }
    {
        let plain = self.model.shown(Reg::Px(port, PortReg::Ci))
            & !self.model.shown(Reg::Px(port, PortReg::Sact));
        if let Some(slot) = lowest(plain) {
            if said.is_busy() && !shown.is_busy() {
                let _taken = self.go(DeviceStep::Fetch(port, Slot(slot as u8)));
            } else if shown.is_busy() && !said.is_busy() {
                self.end_plain(port, slot);
            }
        }
    }

    /// Goes on by what the peer's PxCMD shows, which is noted: an engine fell.
    fn follow_engines(&mut self, port: Port, shown: u32, said: u32)
        requires { port.0 < 4 }
        ensures goes { GoesOnBySteps (A.device self.old.model) (A.device self.new.model) }
        ensures counted { A.access_count self.new.model ≡ A.access_count self.old.model }
        ensures asks { GoesOnAsking P.makes P.fails self.old self.new }
        ensures slots { self.new.differing ≡ self.old.differing }
        ensures met_differences { self.new.met_differences ≡ self.old.met_differences }
        ensures noted { self.new.last_peer_cmd ≡ slice_set self.old.last_peer_cmd port.0 said }
    {
        self.last_peer_cmd[usize::from(port.0)] = said;
        if !agrees_in_compared_bits(Reg::Px(port, PortReg::Cmd), 0, shown, said) {
            // The model's falls before its reading.
            let _released = self.go(DeviceStep::Release(port));
        }
    }

    /// Has the model go on by steps, as a register of the peer's port shows.
    fn follow_port(&mut self, port: Port, r: PortReg, said: u32)
        requires { port.0 < 4 }
        ensures goes { GoesOnBySteps (A.device self.old.model) (A.device self.new.model) }
        ensures counted { A.access_count self.new.model ≡ A.access_count self.old.model }
        ensures asks { GoesOnAsking P.makes P.fails self.old self.new }
        ensures slots { GoesOnNotingSlots port.0 self.old.differing self.new.differing }
        ensures met_differences { self.new.met_differences ≡ self.old.met_differences }
        ensures shows_cmd { r ≡ Cmd → self.new.last_peer_cmd ≡ slice_set self.old.last_peer_cmd port.0 said }
        ensures keeps_cmd { (r ≡ Cmd → ⊥) → self.new.last_peer_cmd ≡ self.old.last_peer_cmd }
    {
        let shown = self.model.shown(Reg::Px(port, r));
        match r {
            PortReg::Ci | PortReg::Sact => self.follow_fallen(port, r, said),
            PortReg::Is => self.follow_causes(port, PortInterrupts(shown), PortInterrupts(said)),
            PortReg::Ssts => self.follow_link(port, SataStatus(shown), SataStatus(said)),
            PortReg::Tfd => self.follow_task_file(port, TaskFile(shown), TaskFile(said)),
            PortReg::Cmd => self.follow_engines(port, shown, said),
            _ => {}
        }
    }

    /// Has the model go on by steps, as a register of the peer shows.
    pub(crate) fn follow(&mut self, r: Reg, said: u32)
        ensures goes { GoesOnBySteps (A.device self.old.model) (A.device self.new.model) }
        ensures counted { A.access_count self.new.model ≡ A.access_count self.old.model }
        ensures asks { GoesOnAsking P.makes P.fails self.old self.new }
        ensures of_port { (port : PortOf) (px : PortRegOf) → r ≡ Px port px
            → GoesOnNotingSlots port.0 self.old.differing self.new.differing }
        ensures of_none { ((port : PortOf) (px : PortRegOf) → r ≡ Px port px → ⊥)
            → self.new.differing ≡ self.old.differing }
        ensures met_differences { self.new.met_differences ≡ self.old.met_differences }
        ensures shows_cmd { (port : PortOf) → r ≡ Px port Cmd → port.0 < 4
            → self.new.last_peer_cmd ≡ slice_set self.old.last_peer_cmd port.0 said }
        ensures keeps_cmd { ((port : PortOf) → r ≡ Px port Cmd → ⊥)
            → self.new.last_peer_cmd ≡ self.old.last_peer_cmd }
    {
        match r {
            Reg::Ghc if !GlobalControl(said).is_resetting() => {
                // A reset that is pending ends before the reading.
                let _released = self.go(DeviceStep::Release(Port(0)));
            }
            Reg::Px(port, r) if port.0 < 4 => self.follow_port(port, r, said),
            _ => {}
        }
    }

    /// Ends what has ended on a port of the peer.
    fn end_ended(&mut self, port: Port)
        requires { port.0 < 4 }
        ensures goes { GoesOnBySteps (A.device self.old.model) (A.device self.new.model) }
        ensures counted { A.access_count self.new.model ≡ A.access_count self.old.model }
        ensures asks { GoesOnAsking P.makes P.fails self.old self.new }
        ensures looks { self.new.divergence ≡ None → (slot : ℕ) → slot < 32
            → IsInFlight ((A.device self.old.model).port port.0) slot
            → LooksFirst P.makes P.fails port self.old.peer self.new.peer }
        ensures slots { GoesOnNotingSlots port.0 self.old.differing self.new.differing }
        ensures rest { NotesFailuresOnly self.old self.new }
    {
        if self.outstanding(port) == 0 {
            return;
        }
        let Some(left) = self.in_flight(port) else {
            return;
        };
        self.follow_fallen(port, PortReg::Sact, left);
        self.follow_fallen(port, PortReg::Ci, left);
    }

    /// Ends what has ended on a port of the peer that is to be stopped, and forgets which of its slots may differ.
    pub(crate) fn drain(&mut self, port: Port)
        requires { port.0 < 4 }
        ensures goes { GoesOnBySteps (A.device self.old.model) (A.device self.new.model) }
        ensures counted { A.access_count self.new.model ≡ A.access_count self.old.model }
        ensures asks { GoesOnAsking P.makes P.fails self.old self.new }
        ensures looks { self.new.divergence ≡ None → (slot : ℕ) → slot < 32
            → IsInFlight ((A.device self.old.model).port port.0) slot
            → LooksFirst P.makes P.fails port self.old.peer self.new.peer }
        ensures forgets { ForgetsSlotsOf port.0 self.old.differing self.new.differing }
        ensures rest { NotesSlotsOnly self.old self.new }
    {
        self.end_ended(port);
        self.differing.forget(port);
    }

    /// Ends what has ended on all ports of the peer.
    pub(crate) fn catch_up_all(&mut self)
        ensures goes { GoesOnBySteps (A.device self.old.model) (A.device self.new.model) }
        ensures counted { A.access_count self.new.model ≡ A.access_count self.old.model }
        ensures asks { GoesOnAsking P.makes P.fails self.old self.new }
        ensures forgets { NoSlotsDiffer self.new.differing }
        ensures rest { NotesSlotsOnly self.old self.new }
    {
        for port in 0..PORTS {
            self.drain(Port(port as u8));
        }
    }
}

/// Of the slots in flight, those that were taken, and aren't shown as issued any more; or all if none was taken.
fn taken_or_all(in_flight: u32, issued: u32) -> u32
    ensures { result ≡ taken_or_all_of in_flight issued }
{
    let taken = in_flight & !issued;
    if taken == 0 { in_flight } else { taken }
}

/// The lowest of these slots.
fn lowest(slots: u32) -> Option<u32>
    ensures { MatchOption result (LacksBits slots) (IsLowestBit slots) }
{
    for slot in 0..32 {
        if is_set(slots, slot) {
            return Some(slot);
        }
    }
    None
}
