// When a port's interrupt is pending (AHCI 1.3.1, 3.1.3, 3.3.5 and 3.3.6).
ghost use Rattle.std.specs.Prelude.{ℕ, ◌≡◌, ◌<◌};
ghost use Rattle.adapter.specs.Access.{enables_unnamed_causes, is_ips_set, raises_cause, raises_interrupt, shown_interrupt};
ghost use Rattle.hba_regs.specs.Bits.{bit};
ghost use Rattle.device_model.specs.PortView.{Media, port_of};

use crate::bits::with_bit_as;
use crate::port::PortModel;
use hba_regs::is_set;

/// The causes in PxIS that the model knows: a command ended with a Register FIS, a PIO Setup FIS or a Set Device Bits
/// FIS; the link changed, or the device did; an error of the interface, of the host's data or of its bus; a command
/// failed.
const DHRS: u32 = 0;

const PSS: u32 = 1;

const SDBS: u32 = 3;

const PCS: u32 = 6;

const PRCS: u32 = 22;

const IFS: u32 = 27;

const HBDS: u32 = 28;

const HBFS: u32 = 29;

const TFES: u32 = 30;

/// The same, as bits of PxIE.
const NAMED_CAUSES: u32 = 0x7840_004b;

/// Whether a value of PxIE enables a cause that the model doesn't know.
pub fn enables_unnamed_causes(enabled: u32) -> bool
    ensures { result ≡ enables_unnamed_causes enabled }
{
    enabled & NAMED_CAUSES != enabled
}

impl PortModel {
    /// PxIS: PCS and PRCS show PxSERR.
    pub fn causes(&self) -> u32
        ensures { (m : Media) (place : ℕ) → bit result place ≡ shown_interrupt (port_of self.now m) place }
    {
        with_bit_as(with_bit_as(self.is, PRCS, self.serr_n), PCS, self.serr_x)
    }

    /// Whether PxIS shows this cause, and PxIE enables it.
    fn raises_cause(&self, place: u32) -> bool
        requires { place < 32 }
        ensures { (m : Media) → result ≡ raises_cause (port_of self.now m) place }
    {
        is_set(self.causes() & self.ie, place)
    }

    /// Whether it raises one of them.
    fn raises_interrupt(&self) -> bool
        ensures { (m : Media) → result ≡ raises_interrupt (port_of self.now m) }
    {
        self.raises_cause(DHRS)
            | self.raises_cause(PSS)
            | self.raises_cause(SDBS)
            | self.raises_cause(PCS)
            | self.raises_cause(PRCS)
            | self.raises_cause(IFS)
            | self.raises_cause(HBDS)
            | self.raises_cause(HBFS)
            | self.raises_cause(TFES)
    }

    /// The port's bit of IS.
    pub fn is_ips_set(&self) -> bool
        ensures { (m : Media) → result ≡ is_ips_set (port_of self.now m) }
    {
        self.ips | self.raises_interrupt()
    }
    /// Causes may go: the port's bit of IS stays (AHCI 1.3.1, 3.1.3).
    pub fn latch(&mut self)
        ensures { (m : Media) → port_of self.new m ≡ record (port_of self.old m)
            { ips_latched = is_ips_set (port_of self.old m) } }
    {
        self.ips = self.is_ips_set();
    }
}
