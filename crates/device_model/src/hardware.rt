// The model without its disks.
ghost use Rattle.std.specs.Prelude.{Bool, List, ◌≡◌, ◌≢◌, ◌+◌, ◌<◌, ◌≤◌, ◌++◌, ℕ, true, false, if◌then◌else◌, All, length, take, drop, slice_index_or};
ghost use Rattle.adapter.specs.{Access.{Shows, is_ips_set, device_after_reading, device_after_write, port_after_hba_is_write}, Memory.{patched, bytes_at}, Device.{Device}, Steps.{device_after, port_after_hba_reset}, Steps.DeviceTransition.{ResetEnds}};
ghost use Rattle.hba_regs.specs.Bits.{bit};
ghost use Rattle.device_model.specs.{HeldPorts.{IsPortReleased, all_held}, ModelOwnSteps.{EndsPendingResetUnlessAllHeld, IsSettled, IsSettledPort, LeadsBySteps, Settles, KeepsPortCountHrTapeAndStarved}, PortView.{Media, port_of, reset_port_without_disk}, WholeAdapter.{AllMedia, device_of, HasRegister}};

use crate::bits::bit_if;
use crate::command_room::CommandBuffer;
use crate::port::PortModel;
use adapter::Entry;
use ata_types::PORTS;
use hba_regs::{Reg, is_set};

/// Registers, memory and the tape.
#[derive(Drop)]
pub struct Hardware {
    pub memory: Vec<u8>,
    pub ports: [PortModel; PORTS],
    pub cap: u32,
    pub pi: u32,
    pub hr: bool,
    pub ae: bool,
    pub ie: bool,
    pub tape: Vec<Entry>,
    /// Whether a step was left out since there was no memory to note it, or to keep what sectors held that it changes.
    pub starved: bool,
    /// Where a command is read before it is taken.
    pub command_buffer: CommandBuffer,
}

/// VS: version 1.3.1.
const VERSION: u32 = 0x0001_0301;

/// GHC, by its three bits.
fn global_control(hr: bool, ie: bool, ae: bool) -> u32
    ensures reset { bit result 0 ≡ hr }
    ensures interrupts { bit result 1 ≡ ie }
    ensures enabled { bit result 31 ≡ ae }
{
    bit_if(hr, 0) | bit_if(ie, 1) | bit_if(ae, 31)
}

/// Puts bytes over those from a place on.
pub fn put(memory: &mut [u8], at: usize, bytes: &[u8])
    requires { at + length bytes.now ≤ length memory.old }
    ensures { memory.new ≡ take at memory.old ++ (bytes.now ++ drop (at + length bytes.now) memory.old) }
{
    memory[at..at + bytes.len()].copy_from_slice(bytes);
}

/// Copies the bytes from a place on.
fn copy_from_memory(memory: &[u8], at: usize, out: &mut [u8])
    requires { at + length out.old ≤ length memory.now }
    ensures copied { out.new ≡ take (length out.old) (drop at memory.now) }
    ensures bytes { All (λ byte. byte < 256) out.new }
{
    out.copy_from_slice(&memory[at..at + out.len()]);
}

/// Bits of IS were written.
fn clear_is_bit(ports: &mut [PortModel; 4], value: u32)
    ensures { (m : Media) (port : ℕ) → port_of (slice_index_or ports.new port reset_port_without_disk) m ≡
        (if bit value port then port_after_hba_is_write
        (port_of (slice_index_or ports.old port reset_port_without_disk) m) else
        port_of (slice_index_or ports.old port reset_port_without_disk) m) }
{
    for port in 0..4u32 {
        if is_set(value, port) {
            ports[port as usize].clear_is_bit();
        }
    }
}

/// Each port, where a reset of the adapter has ended.
fn reset_all(ports: &mut [PortModel; 4])
    ensures size { length ports.new ≡ length ports.old }
    ensures each { (m : Media) (port : ℕ) → port_of (slice_index_or ports.new port reset_port_without_disk) m
        ≡ port_after_hba_reset (port_of (slice_index_or ports.old port reset_port_without_disk) m) }
{
    for port in 0..4 {
        ports[port].apply_hba_reset();
    }
}

/// IS: the bits of the four ports (AHCI 1.3.1, 3.1.3).
fn pending(ports: &[PortModel; 4]) -> u32
    ensures { (m : Media) (port : ℕ) → port < 32
        → bit result port ≡ is_ips_set (port_of (slice_index_or ports.now port reset_port_without_disk) m) }
{
    bit_if(ports[0].is_ips_set(), 0)
        | bit_if(ports[1].is_ips_set(), 1)
        | bit_if(ports[2].is_ips_set(), 2)
        | bit_if(ports[3].is_ips_set(), 3)
}

impl Hardware {
    /// What a register shows.
    pub fn shown(&self, r: Reg) -> u32
        requires { HasRegister r }
        ensures { (o : AllMedia) → Shows r result (device_of self.now o) }
    {
        match r {
            Reg::Cap => self.cap,
            Reg::Pi => self.pi,
            Reg::Vs => VERSION,
            Reg::Ghc => global_control(self.hr, self.ie, self.ae),
            Reg::Px(port, r) => self.ports[usize::from(port.0)].shown(r),
            Reg::Is => pending(&self.ports),
            Reg::Cap2 | Reg::Bohc => 0,
        }
    }

    /// Updates the notes of readings by what a register showed.
    pub fn update_read_notes(&mut self, r: Reg, value: u32)
        requires { HasRegister r }
        ensures notes { (o : AllMedia) → device_of self.new o ≡ device_after_reading r value (device_of self.old o) }
        ensures tape { self.new.tape ≡ self.old.tape }
        ensures starved { self.new.starved ≡ self.old.starved }
    {
        if let Reg::Px(port, r) = r {
            self.ports[usize::from(port.0)].update_read_notes(r, value);
        }
    }

    /// GHC is written.
    fn set_global(&mut self, value: u32)
        ensures written { (o : AllMedia)
            → device_of self.new o ≡ device_after_write Reg.Ghc value (device_of self.old o) }
        ensures starved { self.new.starved ≡ self.old.starved }
    {
        self.hr = self.hr || is_set(value, 0);
        self.ae = is_set(value, 31);
        self.ie = is_set(value, 1);
    }

    /// Writes a register.
    pub fn apply_register_write(&mut self, r: Reg, value: u32)
        requires { HasRegister r }
        ensures written { (o : AllMedia)
            → device_of self.new o ≡ device_after_write r value (device_of self.old o) }
        ensures starved { self.new.starved ≡ self.old.starved }
    {
        match r {
            Reg::Ghc => self.set_global(value),
            Reg::Is => clear_is_bit(&mut self.ports, value),
            Reg::Px(port, r) => {
                let tape = self.tape.len();
                self.ports[usize::from(port.0)].write(r, value, tape);
            }
            _ => {}
        }
    }

    /// Copies bytes of memory.
    pub fn load(&self, at: usize, out: &mut [u8])
        requires { at + length out.old ≤ length self.now.memory.items }
        ensures shows { (o : AllMedia) → out.new ≡ bytes_at (device_of self.now o).memory at (length out.new) }
        ensures bytes { All (λ byte. byte < 256) out.new }
    {
        copy_from_memory(&self.memory, at, out);
    }

    /// Puts bytes into memory.
    pub fn store(&mut self, at: usize, bytes: &[u8])
        requires { at + length bytes.now ≤ length self.old.memory.items }
        ensures stored { (o : AllMedia) → device_of self.new o ≡ record (device_of self.old o)
            { memory = patched (device_of self.old o).memory at bytes.now } }
        ensures starved { self.new.starved ≡ self.old.starved }
    {
        put(&mut self.memory, at, bytes);
    }

    /// A reset that is pending ends (AHCI 1.3.1, 10.4.3).
    fn end_reset(&mut self)
        requires { self.old.hr ≡ true }
        ensures resets { (o : AllMedia) → device_of self.new o ≡ device_after ResetEnds (device_of self.old o) }
        ensures ended { self.new.hr ≡ false }
        ensures number { length self.new.ports ≡ length self.old.ports }
        ensures tape { self.new.tape ≡ self.old.tape }
        ensures starved { self.new.starved ≡ self.old.starved }
    {
        self.hr = false;
        self.ae = false;
        self.ie = false;
        reset_all(&mut self.ports);
    }

    /// A reset that is pending ends unless all ports are held, and ends all holds.
    fn end_reset_unless_all_held(&mut self, held: &mut [bool; PORTS])
        ensures resets { (o : AllMedia) → EndsPendingResetUnlessAllHeld held.old held.new (device_of self.old o)
            (device_of self.new o) }
        ensures left { self.new.hr ≡ true → held.new ≡ all_held }
        ensures number { length self.new.ports ≡ length self.old.ports }
        ensures tape { self.new.tape ≡ self.old.tape }
        ensures starved { self.new.starved ≡ self.old.starved }
    {
        if self.hr && *held != [true; PORTS] {
            self.end_reset();
            *held = [false; PORTS];
        }
    }

    /// What one port does by itself: CR and FR fall where they may, and the link comes up, with the disk's first FIS.
    fn settle_port(&mut self, port: usize)
        requires { port < 4 }
        ensures own { (o : AllMedia) (held : List Bool) → IsPortReleased held port
            → LeadsBySteps (Settles held) (device_of self.old o) (device_of self.new o) }
        ensures settled { (o : AllMedia) → IsSettledPort ((device_of self.new o).port port) }
        ensures others { (o : AllMedia) (q : ℕ) → q ≢ port → (device_of self.new o).port q ≡ (device_of self.old o).port
            q }
        ensures spares { KeepsPortCountHrTapeAndStarved self.old self.new }
    {
        self.ports[port].let_cr_and_fr_fall();
        if self.ports[port].link_up_if_possible() {
            self.send_signature(port);
        }
    }

    /// What the adapter does by itself before a register is read: a pending reset ends unless all ports are held, and
    /// ends all holds; then, on each port that isn't held, the engines stop that may, and the link comes up if it may.
    /// Afterwards none of this is possible any more.
    pub fn end_reset_stop_engines_link_up(&mut self, held: &mut [bool; PORTS])
        ensures own { (o : AllMedia) → (reset : Device)
            × EndsPendingResetUnlessAllHeld held.old held.new (device_of self.old o) reset
            × LeadsBySteps (Settles held.new) reset (device_of self.new o) }
        ensures settled { (o : AllMedia) → IsSettled held.new (device_of self.new o) }
        ensures tape { self.new.tape ≡ self.old.tape }
        ensures starved { self.new.starved ≡ self.old.starved }
    {
        self.end_reset_unless_all_held(held);
        for port in 0..PORTS {
            if !held[port] {
                self.settle_port(port);
            }
        }
    }
}
