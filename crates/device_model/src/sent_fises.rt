// The FISes that the model sends, in the received FIS area of a port (Serial ATA; AHCI 1.3.1, 4.2.1).
ghost use Rattle.std.specs.Prelude.{◌≡◌, ◌+◌, ◌<◌, ◌≤◌, ◌/◌, ◌%◌, true, false, length};
ghost use Rattle.ata_types.specs.declared.memory.TheConstants.{RECEIVED_FIS_BYTES};
ghost use Rattle.device_model.specs.{SentFises.{IsSentOrLost, SendsEnd, SendsFault, SendsDeviceToHost, end_or_failure_d2h_fis, queued_failure_fis, page_setup_fis, signature_fis, ended_tag_fis}, PortView.{Media, cause_of, port_of}, WholeAdapter.{AllMedia, device_of}};

use crate::hardware::{Hardware, put};
use crate::port::PortModel;
use adapter::Operation;
use ata_types::RECEIVED_FIS_BYTES;
use fis::{
    DeviceToHost, PioSetup, SetDeviceBits, encode_d2h, encode_pio_setup, encode_set_device_bits,
};

/// Where a PIO Setup FIS stands in the received FIS area (AHCI 1.3.1, 4.2.1).
const SETUP: usize = 0x20;

/// Where a Register FIS stands there.
const REGISTERS: usize = 0x40;

/// Where a Set Device Bits FIS stands there.
const DEVICE_BITS: usize = 0x58;

/// The bits of a status that a Set Device Bits FIS sets: all but BSY and DRQ.
const SET_STATUS: u8 = 0x77;

/// DRQ, a bit of the status.
const DATA_REQUEST: u8 = 0x08;

impl PortModel {
    /// The status, and the error, that PxTFD shows.
    fn status_and_error(&self) -> (u8, u8)
        ensures { (m : Media) → (result.0 ≡ (port_of self.now m).tfd % 256)
            × (result.1 ≡ (port_of self.now m).tfd / 256) }
    {
        let task_file = self.task_file();
        ((task_file % 256) as u8, (task_file / 256) as u8)
    }

    /// What a PIO Setup FIS tells of a page of 512 bytes that has come.
    fn page_setup_fis(&self) -> PioSetup
        ensures { (m : Media) → result ≡ page_setup_fis (port_of self.now m) }
    {
        let (status, error) = self.status_and_error();
        PioSetup {
            interrupt: true,
            to_host: true,
            status: status | DATA_REQUEST,
            error,
            lba: 0,
            device: 0,
            count: 0,
            ending_status: status,
            transfer_count: 512,
        }
    }

    /// What a Register FIS tells of a command that has ended or failed.
    fn end_registers(&self) -> DeviceToHost
        ensures { (m : Media) → result ≡ end_or_failure_d2h_fis (port_of self.now m) }
    {
        let (status, error) = self.status_and_error();
        DeviceToHost {
            interrupt: true,
            status,
            error,
            lba: 0,
            device: 0,
            count: 0,
        }
    }

    /// What a Set Device Bits FIS tells of the queued command of a slot, which has ended.
    fn ended_tag(&self, slot: u8) -> SetDeviceBits
        requires { slot < 32 }
        ensures { (m : Media) → result ≡ ended_tag_fis slot (port_of self.now m) }
    {
        let (status, error) = self.status_and_error();
        SetDeviceBits {
            interrupt: true,
            status: status & SET_STATUS,
            error,
            tags: 1 << slot,
        }
    }

    /// What a Set Device Bits FIS tells of a queued command that has failed: it names no tag.
    fn failed_bits(&self) -> SetDeviceBits
        ensures { (m : Media) → result ≡ queued_failure_fis (port_of self.now m) }
    {
        let (status, error) = self.status_and_error();
        SetDeviceBits {
            interrupt: true,
            status: status & SET_STATUS,
            error,
            tags: 0,
        }
    }

    /// What the first FIS of an ATA disk tells: its signature.
    fn signature(&self) -> DeviceToHost
        ensures { (m : Media) → result ≡ signature_fis (port_of self.now m) }
    {
        DeviceToHost {
            interrupt: false,
            lba: 1,
            count: 1,
            ..self.end_registers()
        }
    }
}

impl Hardware {
    /// Puts a FIS into the received FIS area of a port, at a place there, if the port receives FISes and its area is in
    /// the memory.
    fn send(&mut self, port: usize, place: usize, fis: &[u8])
        requires port { port < 4 }
        requires place { place + length fis.now ≤ RECEIVED_FIS_BYTES }
        ensures sent { (o : AllMedia) → IsSentOrLost port place fis.now (device_of self.old o) (device_of self.new o) }
        ensures rest { self.new ≡ record self.old { memory = self.new.memory } }
    {
        let area = self.ports[port].addresses.fb as usize;
        if self.ports[port].fre && area + RECEIVED_FIS_BYTES as usize <= self.memory.len() {
            put(&mut self.memory, area + place, fis);
        }
    }

    /// Sends the FIS of a slot's command that has ended: of IDENTIFY DEVICE and READ LOG EXT, whose pages go by PIO, a
    /// PIO Setup FIS; of a queued one a Set Device Bits FIS; and of the others a Register FIS.
    pub fn send_end(&mut self, port: usize, slot: u8, operation: Operation)
        requires port { port < 4 }
        requires slot { slot < 32 }
        ensures sent { (o : AllMedia) → SendsEnd slot port (cause_of operation) operation
            (device_of self.old o) (device_of self.new o) }
        ensures rest { self.new ≡ record self.old { memory = self.new.memory } }
    {
        match operation {
            Operation::Identify | Operation::ReadLog => {
                let fis = encode_pio_setup(&self.ports[port].page_setup_fis());
                self.send(port, SETUP, &fis);
            }
            Operation::ReadQueued | Operation::WriteQueued => {
                let fis = encode_set_device_bits(&self.ports[port].ended_tag(slot));
                self.send(port, DEVICE_BITS, &fis);
            }
            Operation::Read | Operation::Write | Operation::Flush | Operation::Trim => {
                let fis = encode_d2h(&self.ports[port].end_registers());
                self.send(port, REGISTERS, &fis);
            }
        }
    }

    /// Sends the FIS of a command that has failed: of a queued one a Set Device Bits FIS, and else a Register FIS.
    pub fn send_fault(&mut self, port: usize, queued: bool)
        requires { port < 4 }
        ensures sent { (o : AllMedia) → SendsFault queued port (device_of self.old o) (device_of self.new o) }
        ensures rest { self.new ≡ record self.old { memory = self.new.memory } }
    {
        if queued {
            let fis = encode_set_device_bits(&self.ports[port].failed_bits());
            self.send(port, DEVICE_BITS, &fis);
        } else {
            let fis = encode_d2h(&self.ports[port].end_registers());
            self.send(port, REGISTERS, &fis);
        }
    }

    /// Sends the first FIS of a disk, whose link has come up.
    pub fn send_signature(&mut self, port: usize)
        requires { port < 4 }
        ensures sent { (o : AllMedia) → SendsDeviceToHost port (signature_fis ((device_of self.old o).port port))
            (device_of self.old o) (device_of self.new o) }
        ensures rest { self.new ≡ record self.old { memory = self.new.memory } }
    {
        let fis = encode_d2h(&self.ports[port].signature());
        self.send(port, REGISTERS, &fis);
    }
}
