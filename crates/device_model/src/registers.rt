// What the registers of a port show, and what a write does.
ghost use Rattle.std.specs.Prelude.{◌≡◌, ℕ, true, false};
ghost use Rattle.adapter.specs.{AskedSteps.{fatal_bit}, Memory.{changed}, Access.{PortShows, notes_after_reading, port_after_write, port_after_hba_is_write, capped_count_after_reading as count_after, link_wait_count_full_once_linked as expected_link_wait_count}};
ghost use Rattle.device_model.specs.PortView.{Media, port_of};

use crate::bits::{bit_if, with_bit_as, without_ones};
use crate::interrupts::enables_unnamed_causes;
use crate::port::PortModel;
use adapter::FatalError;
use ata_types::MOST_READINGS;
use hba_regs::{PortReg, is_set};

/// One more reading in a row.
fn capped_count_after_reading(again: bool, count: u32) -> u32
    ensures { result ≡ count_after again count }
{
    if again {
        count.min(MOST_READINGS - 1) + 1
    } else {
        0
    }
}

/// How many readings of PxSSTS showed no device, after one more: full once one showed a device.
fn link_wait_count_full_once_linked(det: u32, count: u32) -> u32
    ensures { result ≡ expected_link_wait_count det count }
{
    if det == 3 {
        MOST_READINGS
    } else {
        count.min(MOST_READINGS - 1) + 1
    }
}

/// The bits of PxIS that tell of fatal errors (AHCI 1.3.1, 3.3.5).
const IFS: u32 = 27;

const HBFS: u32 = 29;

/// The bit of PxIS that tells of a fatal error.
fn cause_of(error: FatalError) -> u32
    ensures { result ≡ fatal_bit error }
{
    match error {
        FatalError::Interface => IFS,
        FatalError::HostBus => HBFS,
    }
}

impl PortModel {
    /// What a register shows.
    pub fn shown(&self, r: PortReg) -> u32
        ensures { (m : Media) → PortShows r result (port_of self.now m) }
    {
        match r {
            PortReg::Cmd => {
                bit_if(self.st, 0) | bit_if(self.fre, 4) | bit_if(self.fr, 14) | bit_if(self.cr, 15)
            }
            PortReg::Tfd => u32::from(self.task_file()),
            PortReg::Sig => self.sig.unwrap_or(0xffff_ffff),
            PortReg::Ssts => if self.detected { 3 } else { 0 },
            PortReg::Sctl => u32::from(self.sctl_det) % 16,
            PortReg::Serr => bit_if(self.serr_n, 16) | bit_if(self.serr_x, 26),
            PortReg::Ci => self.ci,
            PortReg::Sact => self.sact,
            PortReg::Is => self.causes(),
            PortReg::Clb => self.addresses.clb,
            PortReg::Fb => self.addresses.fb,
            PortReg::Clbu | PortReg::Fbu => 0,
            PortReg::Ie => self.ie,
        }
    }

    /// Updates the notes of readings by what a register showed.
    pub fn update_read_notes(&mut self, r: PortReg, value: u32)
        ensures { (m : Media) → port_of self.new m ≡ record (port_of self.old m)
            { notes = notes_after_reading r value (port_of self.old m) } }
    {
        let no_comreset = self.sctl_det % 16 == 0;
        match r {
            PortReg::Cmd => {
                let awaited = !self.st && is_set(value, 15) || !self.fre && is_set(value, 14);
                self.readings.last_cmd = value;
                self.readings.engine_wait_count = capped_count_after_reading(
                    awaited,
                    self.readings.engine_wait_count,
                );
            }
            PortReg::Ssts => {
                self.readings.last_ssts = value;
                if no_comreset {
                    self.readings.link_wait_count = link_wait_count_full_once_linked(
                        value % 16,
                        self.readings.link_wait_count,
                    );
                }
            }
            PortReg::Tfd => {
                self.readings.last_tfd = value;
                if no_comreset {
                    let busy = is_set(value, 7) || is_set(value, 3);
                    self.readings.busy_count = capped_count_after_reading(
                        busy,
                        self.readings.busy_count,
                    );
                }
            }
            PortReg::Ci => {
                self.readings.last_ci = value;
                if no_comreset {
                    self.readings.slot0_issued_count = capped_count_after_reading(
                        is_set(value, 0),
                        self.readings.slot0_issued_count,
                    );
                }
            }
            PortReg::Sig => self.readings.last_sig = value,
            PortReg::Sact => self.readings.last_sact = value,
            PortReg::Is => self.readings.acknowledged = false,
            _ => {}
        }
    }

    /// PxCMD is written.
    fn set_command(&mut self, value: u32, tape: usize)
        ensures { (m : Media) → port_of self.new m ≡ port_after_write PortReg.Cmd value tape (port_of self.old m) }
    {
        let st = is_set(value, 0);
        if st && !self.st {
            self.cr = true;
            self.halting = self.halting.after_start();
            self.broken = false;
            self.readings.st_set_at = tape;
        }
        if !st && self.st {
            self.ci = 0;
            self.sact = 0;
        }
        self.st = st;
        self.fre = is_set(value, 4);
        self.fr = self.fre || self.fr;
    }

    /// PxSCTL is written.
    fn set_control(&mut self, value: u32, tape: usize)
        ensures { (m : Media) → port_of self.new m ≡ port_after_write PortReg.Sctl value tape (port_of self.old m) }
    {
        let det = (value % 16) as u8;
        if self.sctl_det % 16 == 1 && det == 0 {
            self.link_due = true;
        }
        if det == 1 {
            self.detected = false;
            self.tfd = Some(0x7f + 256 * (self.task_file() / 256));
        }
        self.sctl_det = det;
        self.readings.sctl_written_at = tape;
        self.readings.link_wait_count = 0;
        self.readings.busy_count = 0;
        self.readings.slot0_issued_count = 0;
    }

    /// Bits of PxSERR are cleared.
    fn clear_errors(&mut self, value: u32)
        ensures { (m : Media) (tape : ℕ) → port_of self.new m ≡ port_after_write PortReg.Serr value tape
            (port_of self.old m) }
    {
        self.latch();
        self.serr_n &= !is_set(value, 16);
        self.serr_x &= !is_set(value, 26);
    }

    /// Bits of PxIS are cleared.
    fn acknowledge(&mut self, value: u32)
        ensures { (m : Media) (tape : ℕ) → port_of self.new m ≡ port_after_write PortReg.Is value tape
            (port_of self.old m) }
    {
        self.latch();
        self.is = without_ones(self.is, value);
        self.readings.acknowledged = true;
    }

    /// PxIE is written.
    fn enable(&mut self, value: u32)
        ensures { (m : Media) (tape : ℕ) → port_of self.new m ≡ port_after_write PortReg.Ie value tape
            (port_of self.old m) }
    {
        self.latch();
        self.other_causes |= enables_unnamed_causes(value);
        self.ie = value;
    }

    /// A register is written.
    pub fn write(&mut self, r: PortReg, value: u32, tape: usize)
        ensures { (m : Media) → port_of self.new m ≡ port_after_write r value tape (port_of self.old m) }
    {
        match r {
            PortReg::Cmd => self.set_command(value, tape),
            PortReg::Sctl => self.set_control(value, tape),
            PortReg::Serr => self.clear_errors(value),
            PortReg::Is => self.acknowledge(value),
            PortReg::Clb => {
                self.addresses.clb = value;
                self.addresses.clb_set = true;
            }
            PortReg::Clbu => self.addresses.clbu_set = true,
            PortReg::Fb => {
                self.addresses.fb = value;
                self.addresses.fb_set = true;
            }
            PortReg::Fbu => self.addresses.fbu_set = true,
            PortReg::Ie => self.enable(value),
            PortReg::Ci => self.ci |= value,
            PortReg::Sact => self.sact |= value,
            _ => {}
        }
    }

    /// The port's bit of IS was written.
    pub fn clear_is_bit(&mut self)
        ensures { (m : Media) → port_of self.new m ≡ port_after_hba_is_write (port_of self.old m) }
    {
        self.ips = false;
        self.other_causes = enables_unnamed_causes(self.ie);
        self.readings.acknowledged = false;
    }

    /// A fatal error stops the port, and PxIS tells of it (AHCI 1.3.1, 6.2.2).
    pub fn enter_fatal(&mut self, error: FatalError)
        ensures { (m : Media) → port_of self.new m ≡ record (port_of self.old m)
            { is = changed (port_of self.old m).is (fatal_bit error) true; broken = true } }
    {
        self.is = with_bit_as(self.is, cause_of(error), true);
        self.broken = true;
    }

    /// The disk is taken out (AHCI 1.3.1, 3.3.10 and 3.3.12).
    pub fn note_disk_out(&mut self)
        ensures { (m : Media) → port_of self.new m ≡ record (port_of self.old m)
            { ssts_det = 0; present = false; fresh = false; serr_n = true } }
    {
        self.detected = false;
        self.present = false;
        self.fresh = false;
        self.serr_n = true;
    }

    /// A disk is put in, and PxSSTS.DET is 3; its first FIS hasn't come (AHCI 1.3.1, 3.3.10 and 3.3.12). The tape was
    /// so long when it last ended a flush, or else when it was first in.
    pub fn note_disk_in_with_det_3(&mut self, lasting_at: usize)
        ensures { (m : Media) → port_of self.new m ≡ record (port_of self.old m) {
          ssts_det = 3;
          present = true;
          fresh = false;
          serr_n = true;
          serr_x = true;
          lasting = record { sectors = m.lasting; tape_length = lasting_at };
        } }
    {
        self.lasting_tape_length = lasting_at;
        self.detected = true;
        self.present = true;
        self.fresh = false;
        self.serr_n = true;
        self.serr_x = true;
    }
}
