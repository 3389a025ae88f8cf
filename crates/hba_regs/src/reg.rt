// The registers by name, and where they stand.
ghost use Rattle.std.specs.Prelude.{◌≡◌};
ghost use Rattle.hba_regs.specs.Offsets.{offset_of, port_register_offset};

use ata_types::Port;

/// A register of a port (AHCI 1.3.1, 3.3).
#[derive(Clone, Copy, Debug, PartialEq, Eq)]
pub enum PortReg {
    /// PxCLB, command list base address (3.3.1).
    Clb,
    /// PxCLBU, upper half of the command list's address (3.3.2).
    Clbu,
    /// PxFB, base address of the received FISes (3.3.3).
    Fb,
    /// PxFBU, upper half of the received FISes' address (3.3.4).
    Fbu,
    /// PxIS, interrupt status (3.3.5).
    Is,
    /// PxIE, interrupt enable (3.3.6).
    Ie,
    /// PxCMD, command and status (3.3.7).
    Cmd,
    /// PxTFD, task file data (3.3.8).
    Tfd,
    /// PxSIG, the device's signature (3.3.9).
    Sig,
    /// PxSSTS, the link's status (3.3.10).
    Ssts,
    /// PxSCTL, the link's control (3.3.11).
    Sctl,
    /// PxSERR, the link's errors (3.3.12).
    Serr,
    /// PxSACT, slots whose queued commands are outstanding (3.3.13).
    Sact,
    /// PxCI, slots whose commands are issued (3.3.14).
    Ci,
}

/// A register of the adapter, or of one of its ports (AHCI 1.3.1, 3.1 and 3.3).
#[derive(Clone, Copy, Debug, PartialEq, Eq)]
pub enum Reg {
    /// CAP, what the adapter can do (3.1.1).
    Cap,
    /// GHC, global control (3.1.2).
    Ghc,
    /// IS, the ports with an interrupt pending (3.1.3).
    Is,
    /// PI, the ports that the adapter has (3.1.4).
    Pi,
    /// VS, the version of AHCI (3.1.5).
    Vs,
    /// CAP2, what else the adapter can do (3.1.10).
    Cap2,
    /// BOHC, the hand-off from firmware to operating system (3.1.11).
    Bohc,
    /// A register of this port.
    Px(Port, PortReg),
}

impl PortReg {
    // Its place among the registers of its port, in bytes.
    fn place(self) -> u32
        ensures { result ≡ port_register_offset self }
    {
        match self {
            PortReg::Clb => 0x00,
            PortReg::Clbu => 0x04,
            PortReg::Fb => 0x08,
            PortReg::Fbu => 0x0c,
            PortReg::Is => 0x10,
            PortReg::Ie => 0x14,
            PortReg::Cmd => 0x18,
            PortReg::Tfd => 0x20,
            PortReg::Sig => 0x24,
            PortReg::Ssts => 0x28,
            PortReg::Sctl => 0x2c,
            PortReg::Serr => 0x30,
            PortReg::Sact => 0x34,
            PortReg::Ci => 0x38,
        }
    }
}

impl Reg {
    /// Its distance from the adapter's first register, in bytes. The registers of port n begin at 100h + 80h n
    /// (AHCI 1.3.1, 3.1 and 3.3).
    pub fn offset(self) -> u32
        ensures { result ≡ offset_of self }
    {
        match self {
            Reg::Cap => 0x00,
            Reg::Ghc => 0x04,
            Reg::Is => 0x08,
            Reg::Pi => 0x0c,
            Reg::Vs => 0x10,
            Reg::Cap2 => 0x24,
            Reg::Bohc => 0x28,
            Reg::Px(port, reg) => 0x100 + 0x80 * u32::from(port.0) + reg.place(),
        }
    }
}
