// The model, followed beside its peer.
ghost use Rattle.std.specs.Prelude.{◌≡◌, ◌+◌, ◌<◌, ◌≤◌, ◌||◌, ℕ, IfSome, None, OnSome, Some, false, is_some, length, slice_set, true};
ghost use Rattle.adapter.specs.{Access.{Access.{Reading, Storing, Writing}, Loads, Reads, Stores, Writes}, AskedSteps.{DoesOrFailsStep}, Rules.{IsInMemoryNotOwnedByDevice, IsStable, MayRead, MayWrite}, Steps.{Steps}};
ghost use Rattle.hba_regs.specs.{Bits.{bit}, declared.reg.PortReg.{PortReg as PortRegOf}, declared.reg.PortReg.TheVariants.{Ci, Cmd, Sact}, declared.reg.Reg.TheVariants.{Ghc, Px}};
ghost use Rattle.ata_types.specs.declared.Port.{Port as PortOf};
ghost use Rattle.followed.specs.Asking.{AsksUntilDivergence, ComparesPieces, GoesOnAsking, KeepsNotes, LoadsAndCompares, MakesFirst, MakesLast, MakesOrNotesFault, NotesSlotsOnly, ReadsInFlight, ReadsOrNotesFault, StaysStrayed, value_for_peer};
ghost use Rattle.followed.specs.{ComparedBits.{AgreesInComparedBits, shown_difference}, DifferingSlots.{ForgetsSlotsOf, GoesOnBySteps, NoSlotsDiffer, LeavesStarted, NotesSlotsOf, slots_behind_difference, with_difference_met}};

mod following;

use crate::differences::{MetDifferences, agrees_in_compared_bits, shown_difference_of};
use crate::differing::{DifferingSlotMasks, at_port};
use crate::divergence::Divergence;
use crate::memory::first_stray;
use crate::peer::Peer;
use adapter::laws::{law_step_lists_keep_what_steps_keep, law_steps_compose};
use adapter::{Adapter, DeviceStep, Entry, Stepped};
use ata_types::{PORTS, Port, Slot};
use device_model::{Inspectable, TapedAdapter};
use hba_regs::{GlobalControl, PortCommand, PortReg, Reg, is_set};

/// Bytes of memory that are compared at once.
const PIECE_BYTES: usize = 512;

/// Looks at a peer until it has ended a command that a script waits for.
const WAITS: u32 = 100_000;

/// ST and FRE of PxCMD.
const SWITCHES: u32 = 1 << 4 | 1;

/// How many accesses were made on both, and how many looks at the peer alone.
#[derive(Clone, Copy, Debug, PartialEq, Eq)]
pub struct AccessAndLookCounts {
    pub accesses: u64,
    pub looks: u64,
}

/// A model beside a peer: each access is made on both, and what is answered is the model's.
#[derive(Drop)]
pub struct Followed<A, P> {
    model: A,
    peer: P,
    /// Which slots may differ.
    differing: DifferingSlotMasks,
    /// By port, PxCMD as the peer showed it last.
    last_peer_cmd: [u32; PORTS],
    /// What the peer showed last of the register that was read last.
    said: u32,
    /// The known differences that were met.
    met_differences: MetDifferences,
    divergence: Option<Divergence>,
    counts: AccessAndLookCounts,
}

impl<A: Inspectable, P: Peer> Followed<A, P> {
    /// A model and a peer that are as alike as they can be: idle, with the same disks, and with zeros for memory. No
    /// access is made.
    pub fn new(model: A, peer: P) -> Followed<A, P>
        ensures model { result.model ≡ model }
        ensures peer { result.peer ≡ peer }
        ensures has_no_divergence { result.divergence ≡ None }
        ensures has_no_slots { NoSlotsDiffer result.differing }
    {
        Followed {
            model,
            peer,
            differing: DifferingSlotMasks::NONE,
            last_peer_cmd: [0; PORTS],
            said: 0,
            met_differences: MetDifferences::NONE,
            divergence: None,
            counts: AccessAndLookCounts {
                accesses: 0,
                looks: 0,
            },
        }
    }

    /// The model.
    pub fn model(&self) -> &A
        ensures { result.now ≡ self.now.model }
    {
        &self.model
    }

    /// The access on which the two strayed, if they did.
    pub fn divergence(&self) -> Option<Divergence>
        ensures { result ≡ self.now.divergence }
    {
        self.divergence
    }

    /// The known differences that readings of registers met, and that were passed over.
    pub fn met_differences(&self) -> MetDifferences
        ensures { result ≡ self.now.met_differences }
    {
        self.met_differences
    }

    /// How many accesses were made.
    pub fn counts(&self) -> AccessAndLookCounts
        ensures { result ≡ self.now.counts }
    {
        self.counts
    }

    /// What a register of the peer shows; `None` once the two have strayed.
    fn ask(&mut self, r: Reg) -> Option<u32>
        ensures model { self.new.model ≡ self.old.model }
        ensures told { result ≡ None → is_some self.new.divergence ≡ true }
        ensures asks { GoesOnAsking P.makes P.fails self.old self.new }
        ensures stays { StaysStrayed self.old self.new }
        ensures reads { self.old.divergence ≡ None
            → ReadsOrNotesFault P.makes P.fails r result self.old.peer self.new.peer self.new.divergence }
        ensures answered { OnSome result (self.old.divergence ≡ None) }
        ensures notes { KeepsNotes self.old self.new }
    {
        if self.divergence.is_some() {
            return None;
        }
        match self.peer.read(r) {
            Ok(value) => Some(value),
            Err(fault) => {
                self.divergence = Some(Divergence::Silent(fault));
                None
            }
        }
    }

    /// What a register of a port of the peer shows, beside the accesses that are made on both.
    fn look(&mut self, port: Port, r: PortReg) -> Option<u32>
        ensures model { self.new.model ≡ self.old.model }
        ensures told { result ≡ None → is_some self.new.divergence ≡ true }
        ensures asks { GoesOnAsking P.makes P.fails self.old self.new }
        ensures reads { self.old.divergence ≡ None
            → ReadsOrNotesFault P.makes P.fails (Px port r) result self.old.peer self.new.peer self.new.divergence }
        ensures answered { OnSome result (self.old.divergence ≡ None) }
        ensures notes { KeepsNotes self.old self.new }
    {
        self.counts.looks = self.counts.looks.saturating_add(1);
        self.ask(Reg::Px(port, r))
    }

    /// Which slots of the peer's port are in flight: whose bits of PxCI or PxSACT are set.
    fn in_flight(&mut self, port: Port) -> Option<u32>
        ensures model { self.new.model ≡ self.old.model }
        ensures told { result ≡ None → is_some self.new.divergence ≡ true }
        ensures asks { GoesOnAsking P.makes P.fails self.old self.new }
        ensures answered { OnSome result (self.old.divergence ≡ None) }
        ensures reads { IfSome result (λ slots. (self.new.divergence ≡ None)
            × ReadsInFlight P.makes port slots self.old.peer self.new.peer) }
        ensures notes { KeepsNotes self.old self.new }
    {
        let issued = self.look(port, PortReg::Ci)?;
        let active = self.look(port, PortReg::Sact)?;
        Some(issued | active)
    }

    /// Counts an access that is made on both.
    fn count(&mut self)
        ensures model { self.new.model ≡ self.old.model }
        ensures rest { self.new ≡ record self.old { counts = self.new.counts } }
        ensures peer { self.new.peer ≡ self.old.peer }
        ensures divergence { self.new.divergence ≡ self.old.divergence }
        ensures asks { GoesOnAsking P.makes P.fails self.old self.new }
        ensures notes { KeepsNotes self.old self.new }
    {
        self.counts.accesses = self.counts.accesses.saturating_add(1);
    }

    /// Has the model do a step, if it is possible.
    fn go(&mut self, s: DeviceStep) -> bool
        ensures goes { GoesOnBySteps (A.device self.old.model) (A.device self.new.model) }
        ensures counted { A.access_count self.new.model ≡ A.access_count self.old.model }
        ensures rest { self.new ≡ record self.old { model = self.new.model } }
        ensures asks { GoesOnAsking P.makes P.fails self.old self.new }
        ensures notes { KeepsNotes self.old self.new }
    {
        law_steps_compose();
        self.model.step(&s)
    }

    /// Has the model do nothing by itself, on any port.
    fn hold_all(&mut self)
        ensures goes { GoesOnBySteps (A.device self.old.model) (A.device self.new.model) }
        ensures counted { A.access_count self.new.model ≡ A.access_count self.old.model }
        ensures peer { self.new.peer ≡ self.old.peer }
        ensures divergence { self.new.divergence ≡ self.old.divergence }
        ensures asks { GoesOnAsking P.makes P.fails self.old self.new }
        ensures notes { KeepsNotes self.old self.new }
    {
        for port in 0..PORTS {
            let _held = self.go(DeviceStep::Hold(Port(port as u8)));
        }
    }

    /// The slots of the model's port that are in flight.
    fn outstanding(&self, port: Port) -> u32
        requires { port.0 < 4 }
        ensures { result ≡ 0 → (slot : ℕ) → slot < 32
            → (((A.device self.now.model).port port.0).ci slot ≡ false)
            × (((A.device self.now.model).port port.0).sact slot ≡ false) }
    {
        self.model.shown(Reg::Px(port, PortReg::Ci))
            | self.model.shown(Reg::Px(port, PortReg::Sact))
    }

    /// Before a reading: returns what the peer shows of the register, after the model has followed what that means. It
    /// returns `None` if they differ.
    fn prepare_read(&mut self, r: Reg) -> Option<u32>
        ensures goes { GoesOnBySteps (A.device self.old.model) (A.device self.new.model) }
        ensures counted { A.access_count self.new.model ≡ A.access_count self.old.model }
        ensures told { result ≡ None → is_some self.new.divergence ≡ true }
        ensures asks { GoesOnAsking P.makes P.fails self.old self.new }
        ensures asked { IfSome result (λ said. MakesFirst P.makes P.fails (Reading r said) self.old.peer self.new.peer
            self.new.divergence) }
        ensures of_port { (port : PortOf) (px : PortRegOf) → r ≡ Px port px
            → NotesSlotsOf port.0 self.old.differing self.new.differing }
        ensures of_none { ((port : PortOf) (px : PortRegOf) → r ≡ Px port px → ⊥)
            → self.new.differing ≡ self.old.differing }
        ensures met_differences { self.new.met_differences ≡ self.old.met_differences }
        ensures shows_cmd { IfSome result (λ said. (port : PortOf) → r ≡ Px port Cmd → port.0 < 4
            → self.new.last_peer_cmd ≡ slice_set self.old.last_peer_cmd port.0 said) }
        ensures keeps_cmd { ((port : PortOf) → r ≡ Px port Cmd → ⊥)
            → self.new.last_peer_cmd ≡ self.old.last_peer_cmd }
    {
        self.count();
        self.hold_all();
        let said = self.ask(r)?;
        self.follow(r, said);
        Some(said)
    }

    /// Before a write: a port that is to be stopped, or the whole adapter, has first ended what its peer has.
    fn prepare_write(&mut self, r: Reg, v: u32)
        ensures goes { GoesOnBySteps (A.device self.old.model) (A.device self.new.model) }
        ensures counted { A.access_count self.new.model ≡ A.access_count self.old.model }
        ensures asks { GoesOnAsking P.makes P.fails self.old self.new }
        ensures stopped { (port : PortOf) → r ≡ Px port Cmd → port.0 < 4 → bit v 0 ≡ false
            → ForgetsSlotsOf port.0 self.old.differing self.new.differing }
        ensures reset { r ≡ Ghc → bit v 0 ≡ true → NoSlotsDiffer self.new.differing }
        ensures started { LeavesStarted r v → self.new.differing ≡ self.old.differing }
        ensures rest { NotesSlotsOnly self.old self.new }
    {
        match r {
            Reg::Ghc if GlobalControl(v).is_resetting() => self.catch_up_all(),
            Reg::Px(port, PortReg::Cmd) if port.0 < 4 && !PortCommand(v).is_started() => {
                self.drain(port);
            }
            _ => {}
        }
    }

    /// What is written to the peer's register: of PxCMD, ST and FRE as they are written, and its other bits as it
    /// showed them last.
    fn value_for_peer(&self, r: Reg, v: u32) -> u32
        ensures { result ≡ value_for_peer self.now.last_peer_cmd r v }
    {
        match r {
            Reg::Px(port, PortReg::Cmd) => {
                at_port(&self.last_peer_cmd, port) & !SWITCHES | v & SWITCHES
            }
            _ => v,
        }
    }

    /// Writes a register of the peer.
    fn send(&mut self, r: Reg, v: u32)
        ensures model { self.new.model ≡ self.old.model }
        ensures asks { GoesOnAsking P.makes P.fails self.old self.new }
        ensures stays { StaysStrayed self.old self.new }
        ensures writes { self.old.divergence ≡ None → MakesOrNotesFault P.makes P.fails
            (Writing r (value_for_peer self.old.last_peer_cmd r v)) self.old.peer self.new.peer self.new.divergence }
        ensures notes { KeepsNotes self.old self.new }
    {
        self.count();
        if self.divergence.is_some() {
            return;
        }
        let value = self.value_for_peer(r, v);
        if let Err(fault) = self.peer.write(r, value) {
            self.divergence = Some(Divergence::Silent(fault));
        }
    }

    /// Puts bytes into the peer's memory.
    fn send_bytes(&mut self, address: u32, bytes: &[u8])
        ensures model { self.new.model ≡ self.old.model }
        ensures asks { GoesOnAsking P.makes P.fails self.old self.new }
        ensures stays { StaysStrayed self.old self.new }
        ensures stores { self.old.divergence ≡ None → MakesOrNotesFault P.makes P.fails (Storing address bytes.now)
            self.old.peer self.new.peer self.new.divergence }
        ensures notes { KeepsNotes self.old self.new }
    {
        self.count();
        if self.divergence.is_some() {
            return;
        }
        if let Err(fault) = self.peer.store(address, bytes) {
            self.divergence = Some(Divergence::Silent(fault));
        }
    }

    /// Compares what a register showed in both.
    fn compare(&mut self, r: Reg, shown: u32, said: Option<u32>)
        requires told { said ≡ None → is_some self.old.divergence ≡ true }
        ensures model { self.new.model ≡ self.old.model }
        ensures alike { self.new.divergence ≡ None
            → AgreesInComparedBits r (slots_behind_difference r self.new.differing) shown self.new.said }
        ensures passed { self.new.divergence ≡ None → self.new.met_differences.met
            ≡ with_difference_met (shown_difference r
            (slots_behind_difference r self.new.differing) shown self.new.said) self.old.met_differences.met }
        ensures asks { GoesOnAsking P.makes P.fails self.old self.new }
        ensures stays { StaysStrayed self.old self.new }
        ensures peer { self.new.peer ≡ self.old.peer }
        ensures said { self.new.divergence ≡ None → said ≡ Some self.new.said }
        ensures strays { self.old.divergence ≡ None → IfSome self.new.divergence (λ found. (value : ℕ)
            × (said ≡ Some value) × (found ≡ Divergence.Register r shown value)
            × (AgreesInComparedBits r (slots_behind_difference r self.old.differing) shown value → ⊥)
            × (self.new.met_differences ≡ self.old.met_differences)) }
        ensures differing { self.new.differing ≡ self.old.differing }
        ensures last_peer_cmd { self.new.last_peer_cmd ≡ self.old.last_peer_cmd }
        ensures met_stay { is_some self.new.divergence ≡ true → self.new.met_differences ≡ self.old.met_differences }
    {
        let Some(said) = said else {
            return;
        };
        self.said = said;
        if self.divergence.is_some() {
            return;
        }
        let slots = self.differing.of(r);
        if !agrees_in_compared_bits(r, slots, shown, said) {
            self.divergence = Some(Divergence::Register {
                register: r,
                shown,
                said,
            });
        } else if let Some(known) = shown_difference_of(r, slots, shown, said) {
            self.met_differences.add(known);
        }
    }

    /// Compares a few bytes with those of the peer's memory, which is asked for them.
    fn compare_piece(&mut self, address: u32, shown: &[u8])
        requires { length shown.now ≤ 512 }
        ensures model { self.new.model ≡ self.old.model }
        ensures asks { GoesOnAsking P.makes P.fails self.old self.new }
        ensures stays { StaysStrayed self.old self.new }
        ensures compares { self.old.divergence ≡ None → LoadsAndCompares P.makes P.fails address shown.now self.old.peer
            self.new.peer self.new.divergence }
        ensures notes { KeepsNotes self.old self.new }
    {
        if self.divergence.is_some() {
            return;
        }
        let mut said = [0u8; PIECE_BYTES];
        let said = &mut said[..shown.len()];
        match self.peer.load(address, said) {
            Ok(()) => {
                if let Some(place) = first_stray(address, shown, said) {
                    self.divergence = Some(Divergence::Memory {
                        address: address.wrapping_add(place as u32),
                        shown: shown[place],
                        said: said[place],
                    });
                }
            }
            Err(fault) => self.divergence = Some(Divergence::Silent(fault)),
        }
    }

    /// Compares the bytes that were loaded with those of the peer's memory.
    fn compare_bytes(&mut self, address: u32, shown: &[u8])
        ensures model { self.new.model ≡ self.old.model }
        ensures asks { GoesOnAsking P.makes P.fails self.old self.new }
        ensures compares { self.new.divergence ≡ None
            → ComparesPieces P.makes address self.old.peer shown.now self.new.peer }
        ensures notes { KeepsNotes self.old self.new }
    {
        self.count();
        let mut place = address;
        let mut compared = 0;
        while compared < shown.len() {
            let end = shown.len().min(compared + PIECE_BYTES);
            self.compare_piece(place, &shown[compared..end]);
            place = place.wrapping_add((end - compared) as u32);
            compared = end;
        }
    }

    /// Whether the peer has ended a slot's command, which it is waited for: a while, and no longer.
    fn awaits(&mut self, port: Port, slot: Slot) -> bool
        requires { slot.0 < 32 }
        ensures model { self.new.model ≡ self.old.model }
        ensures asks { GoesOnAsking P.makes P.fails self.old self.new }
        ensures ended { result ≡ true → (before : P) × (slots : ℕ)
            × AsksUntilDivergence P.makes P.fails self.old.peer self.old.divergence before None
            × ReadsInFlight P.makes port slots before self.new.peer
            × (bit slots slot.0 ≡ false)
            × (self.new.divergence ≡ None) }
        ensures notes { KeepsNotes self.old self.new }
    {
        for _look in 0..WAITS {
            match self.in_flight(port) {
                Some(left) if is_set(left, u32::from(slot.0)) => {}
                Some(_) => return true,
                None => return false,
            }
        }
        false
    }
}

impl<A: Inspectable, P: Peer> Adapter for Followed<A, P> {
    ghost device = { λ f. A.device f.model };

    ghost access_count = { λ f. A.access_count f.model };

    /// What is answered is the model's. Unless the two have strayed, the peer was asked for the register first of all,
    /// and what it answered agrees. Slots are noted of the register's port alone, and none is forgotten.
    fn read(&mut self, r: Reg) -> u32
        requires { MayRead r (A.device self.old.model) }
        ensures reads { Reads r result (A.device self.old.model) (A.device self.new.model) }
        ensures counted { A.access_count self.new.model ≡ A.access_count self.old.model + 1 }
        ensures alike { self.new.divergence ≡ None
            → AgreesInComparedBits r (slots_behind_difference r self.new.differing) result self.new.said }
        ensures asked { self.new.divergence ≡ None → MakesFirst P.makes P.fails (Reading r self.new.said) self.old.peer
            self.new.peer None }
        ensures asks { AsksUntilDivergence P.makes P.fails self.old.peer self.old.divergence self.new.peer
            self.new.divergence }
        ensures stays { StaysStrayed self.old self.new }
        ensures met { self.new.divergence ≡ None → self.new.met_differences.met
            ≡ with_difference_met (shown_difference r
            (slots_behind_difference r self.new.differing) result self.new.said) self.old.met_differences.met }
        ensures met_stay { is_some self.new.divergence ≡ true → self.new.met_differences ≡ self.old.met_differences }
        ensures of_port { (port : PortOf) (px : PortRegOf) → r ≡ Px port px
            → NotesSlotsOf port.0 self.old.differing self.new.differing }
        ensures of_none { ((port : PortOf) (px : PortRegOf) → r ≡ Px port px → ⊥)
            → self.new.differing ≡ self.old.differing }
        ensures shows_cmd { self.new.divergence ≡ None → (port : PortOf) → r ≡ Px port Cmd → port.0 < 4
            → self.new.last_peer_cmd ≡ slice_set self.old.last_peer_cmd port.0 self.new.said }
        ensures keeps_cmd { ((port : PortOf) → r ≡ Px port Cmd → ⊥)
            → self.new.last_peer_cmd ≡ self.old.last_peer_cmd }
    {
        law_steps_compose();
        law_step_lists_keep_what_steps_keep();
        let said = self.prepare_read(r);
        let shown = self.model.read(r);
        self.compare(r, shown, said);
        shown
    }

    /// Unless the two have strayed, the peer made the write last of all, with the bits of PxCMD as it showed them, but
    /// for ST and FRE. A port's slots are forgotten exactly when its ST goes to zero.
    fn write(&mut self, r: Reg, v: u32)
        requires { IsStable (MayWrite r v) (A.device self.old.model) }
        ensures does { Writes r v (A.device self.old.model) (A.device self.new.model) }
        ensures counted { A.access_count self.new.model ≡ A.access_count self.old.model + 1 }
        ensures asked { self.new.divergence ≡ None → MakesLast P.makes P.fails
            (Writing r (value_for_peer self.old.last_peer_cmd r v)) self.old.peer self.new.peer }
        ensures asks { AsksUntilDivergence P.makes P.fails self.old.peer self.old.divergence self.new.peer
            self.new.divergence }
        ensures stays { StaysStrayed self.old self.new }
        ensures stopped { (port : PortOf) → r ≡ Px port Cmd → port.0 < 4 → bit v 0 ≡ false
            → ForgetsSlotsOf port.0 self.old.differing self.new.differing }
        ensures reset { r ≡ Ghc → bit v 0 ≡ true → NoSlotsDiffer self.new.differing }
        ensures started { LeavesStarted r v → self.new.differing ≡ self.old.differing }
        ensures rest { NotesSlotsOnly self.old self.new }
    {
        law_steps_compose();
        self.prepare_write(r, v);
        self.model.write(r, v);
        self.send(r, v);
    }

    /// Unless the two differ, the peer was asked for these bytes and nothing else, and they count as the same.
    fn load(&mut self, addr: u32, out: &mut [u8])
        requires { IsStable (IsInMemoryNotOwnedByDevice addr (length out.old)) (A.device self.old.model) }
        ensures does { Loads addr out.new (A.device self.old.model) (A.device self.new.model) }
        ensures counted { A.access_count self.new.model ≡ A.access_count self.old.model + 1 }
        ensures asked { self.new.divergence ≡ None
            → ComparesPieces P.makes addr self.old.peer out.new self.new.peer }
        ensures asks { AsksUntilDivergence P.makes P.fails self.old.peer self.old.divergence self.new.peer
            self.new.divergence }
        ensures stays { StaysStrayed self.old self.new }
        ensures notes { KeepsNotes self.old self.new }
    {
        self.model.load(addr, out);
        self.compare_bytes(addr, out);
    }

    /// Unless the two differ, the peer was asked to store the bytes, and for nothing else.
    fn store(&mut self, addr: u32, bytes: &[u8])
        requires { IsStable (IsInMemoryNotOwnedByDevice addr (length bytes.now)) (A.device self.old.model) }
        ensures does { Stores addr bytes.now (A.device self.old.model) (A.device self.new.model) }
        ensures counted { A.access_count self.new.model ≡ A.access_count self.old.model + 1 }
        ensures asked { self.old.divergence ≡ None → MakesOrNotesFault P.makes P.fails (Storing addr bytes.now)
            self.old.peer self.new.peer self.new.divergence }
        ensures asks { AsksUntilDivergence P.makes P.fails self.old.peer self.old.divergence self.new.peer
            self.new.divergence }
        ensures stays { StaysStrayed self.old self.new }
        ensures notes { KeepsNotes self.old self.new }
    {
        self.model.store(addr, bytes);
        self.send_bytes(addr, bytes);
    }

    ghost tells = { λ f. A.tells f.model };
}

impl<A: Inspectable, P: Peer> TapedAdapter for Followed<A, P> {
    ghost ended = { λ f. A.ended f.model || is_some f.divergence };

    fn tape(&self) -> &[Entry] {
        self.model.tape()
    }

    fn is_exhausted(&self) -> bool {
        self.model.is_exhausted() || self.divergence.is_some()
    }
}

impl<A: Inspectable, P: Peer> Stepped for Followed<A, P> {
    /// A `Finish` waits until the peer has ended the slot's command, and then ends it in the model, too. No other
    /// step can be asked for.
    fn step(&mut self, s: &DeviceStep) -> bool
        ensures asked { result ≡ true → DoesOrFailsStep s.now (A.device self.old.model) (A.device self.new.model) }
        ensures steps { Steps (A.device self.old.model) (A.device self.new.model) }
        ensures refused { result ≡ false → A.device self.new.model ≡ A.device self.old.model }
        ensures counted { A.access_count self.new.model ≡ A.access_count self.old.model }
        ensures asks { AsksUntilDivergence P.makes P.fails self.old.peer self.old.divergence self.new.peer
            self.new.divergence }
        ensures stays { StaysStrayed self.old self.new }
        ensures notes { KeepsNotes self.old self.new }
    {
        match *s {
            DeviceStep::Finish(port, slot)
                if port.0 < 4 && slot.0 < 32 && self.awaits(port, slot) => { self.model.step(s) }
            _ => false,
        }
    }
}
