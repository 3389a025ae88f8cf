// What the device may write as it wants while a port receives FISes: the received FIS area, and PRDBC of each command
// that is taken (AHCI 1.3.1, 4.2.1 and 4.2.2).
ghost use Rattle.std.specs.Prelude.{◌≡◌, ◌+◌, ◌*◌, ◌<◌, ◌≤◌, ◌^◌, ℕ, false, true, if◌then◌else◌, is_some, length, nat_le, replicate, slice_index_or};
ghost use Rattle.ata_types.specs.declared.memory.TheConstants.{HEADER_BYTES};
ghost use Rattle.adapter.specs.{AskedSteps.{DoesScribble, memory_filled_if_all_inside}, Memory.{patched}};
ghost use Rattle.device_model.specs.{FetchedBytes.{bytes_of}, PortView.{reset_port_without_disk, taken_in}, WholeAdapter.{AllMedia, device_of}};

use crate::hardware::{Hardware, put};
use adapter::laws::law_scribbled_memory_is_filled_slot_by_slot;
use ata_types::{HEADER_BYTES, RECEIVED_FIS_BYTES};

/// Where PRDBC stands in a command header, and how many bytes it has (AHCI 1.3.1, 4.2.2).
const COUNT: usize = 4;

const COUNT_BYTES: usize = 4;

/// Puts bytes over those from a place on, if all of these are in the memory.
fn put_within(memory: &mut [u8], at: usize, bytes: &[u8])
    requires { at + length bytes.now < 2 ^ 64 }
    ensures { bytes_of memory.new ≡
        (if nat_le (at + length bytes.now) (length memory.old) then patched (bytes_of memory.old) at bytes.now
        else bytes_of memory.old) }
{
    if at + bytes.len() <= memory.len() {
        put(memory, at, bytes);
    }
}

impl Hardware {
    /// Fills PRDBC of a slot whose command is taken with a byte.
    fn scribble_count(&mut self, port: usize, slot: u8, byte: u8)
        requires port { port < 4 }
        requires slot { slot < 32 }
        ensures filled { bytes_of self.new.memory.items ≡
            (if is_some (taken_in (slice_index_or self.old.ports port reset_port_without_disk).taken slot) then
            memory_filled_if_all_inside (length self.old.memory.items)
            ((slice_index_or self.old.ports port reset_port_without_disk).addresses.clb + HEADER_BYTES * slot + 4) 4
            byte (bytes_of self.old.memory.items) else bytes_of self.old.memory.items) }
        ensures size { length self.new.memory.items ≡ length self.old.memory.items }
        ensures rest { self.new ≡ record self.old { memory = self.new.memory } }
    {
        if self.ports[port].taken.get(slot).is_some() {
            let list = self.ports[port].addresses.clb as usize;
            let at = list + HEADER_BYTES as usize * usize::from(slot) + COUNT;
            put_within(&mut self.memory, at, &[byte; COUNT_BYTES]);
        }
    }

    /// Fills the received FIS area of a port with a byte, and PRDBC of each of its commands that are taken; `false`
    /// says that the port receives no FISes.
    pub fn scribble(&mut self, port: u8, byte: u8) -> bool
        requires { port < 4 }
        ensures did { result ≡ true → (o : AllMedia)
            → DoesScribble port byte (device_of self.old o) (device_of self.new o) }
        ensures left { result ≡ false → (o : AllMedia) → ((device_of self.old o).port port).fre ≡ true → ⊥ }
        ensures refused { result ≡ false → self.new ≡ self.old }
        ensures rest { self.new ≡ record self.old { memory = self.new.memory } }
    {
        let place = usize::from(port);
        if !self.ports[place].fre {
            return false;
        }
        law_scribbled_memory_is_filled_slot_by_slot();
        let area = self.ports[place].addresses.fb as usize;
        put_within(&mut self.memory, area, &[byte; RECEIVED_FIS_BYTES as usize]);
        for slot in 0..32u8 {
            self.scribble_count(place, slot, byte);
        }
        true
    }
}
