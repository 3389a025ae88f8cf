// Which bits of a register are compared, and which differences are known.
ghost use Rattle.std.specs.Prelude.{◌≡◌, ◌↔◌, ◌<◌, IsTrue, false, slice_index_or, slice_set, true};
ghost use Rattle.followed.specs.ComparedBits.{AgreesInComparedBits, difference_bits, compared_bits, difference_of, modelled_bits, modelled_port_bits, difference_index, shown_difference};

use hba_regs::{PortReg, Reg};
use std::fmt;

/// How many known differences there are.
const KNOWN: usize = 7;

/// A known difference between the model and other adapters. Of the bits that the definitions name only these are
/// ignored, and of memory only a page of IDENTIFY DEVICE that reads the same. The server gets the model's bits. Most of
/// these make no difference to it. By those of `FailedSlots` and `SactOfUntakenSlots` it takes a request for done, so
/// an adapter without a model beside it has to show them as the model does.
#[derive(Clone, Copy, Debug, PartialEq, Eq)]
pub enum KnownDifference {
    /// CAP without NCS and SNCQ: NP, and what an adapter can do. The server reads only NCS, bits 12:8, and SNCQ, bit 30
    /// (AHCI 1.3.1, 3.1.1).
    OtherCapabilities,
    /// PI from bit 4 on: an adapter may have more ports than the four that the server looks for (AHCI 1.3.1, 3.1.4).
    FurtherPorts,
    /// GHC.AE: if an adapter has AHCI mode only (CAP.SAM), it always reads as one, even after a reset (AHCI 1.3.1,
    /// 3.1.2). The server writes it before it uses the adapter, and never reads it.
    AlwaysAhci,
    /// DHRS, PSS and SDBS of PxIS: the server clears them, and reads which slots' bits fell (AHCI 1.3.1, 5.5.3). The
    /// model ends a command when its slot is seen to be clear, which may be after the write of PxIS that cleared its
    /// cause. An adapter may also report a Register FIS behind a page that came by PIO.
    InterruptCauses,
    /// PxTFD without BSY and DRQ, while no plain command has failed on the port: the server uses status and error only
    /// of a failed plain command (AHCI 1.3.1, 6.2.2). For a queued one it asks the log.
    TaskFileWhileNoPlainFailed,
    /// PxCI of a slot whose command has failed: it stays set until ST is zero (AHCI 1.3.1, 3.3.14), but an adapter may
    /// clear that of a plain one, and may set that of a queued one that it has refused. A server that saw this would
    /// take a failed plain command for done.
    FailedSlots,
    /// PxSACT of a slot that was issued, and not taken, when a queued command failed: an adapter may do its command all
    /// the same, and leave its bit of PxCI set. The server takes a slot for done only if both bits are clear, and stops
    /// the port then.
    SactOfUntakenSlots,
}

impl KnownDifference {
    /// All of them.
    const ALL: [KnownDifference; KNOWN] = [
        KnownDifference::OtherCapabilities,
        KnownDifference::FurtherPorts,
        KnownDifference::AlwaysAhci,
        KnownDifference::InterruptCauses,
        KnownDifference::TaskFileWhileNoPlainFailed,
        KnownDifference::FailedSlots,
        KnownDifference::SactOfUntakenSlots,
    ];

    /// Its place among them.
    fn place(self) -> usize
        ensures place { result ≡ difference_index self }
        ensures few { result < 7 }
    {
        match self {
            KnownDifference::OtherCapabilities => 0,
            KnownDifference::FurtherPorts => 1,
            KnownDifference::AlwaysAhci => 2,
            KnownDifference::InterruptCauses => 3,
            KnownDifference::TaskFileWhileNoPlainFailed => 4,
            KnownDifference::FailedSlots => 5,
            KnownDifference::SactOfUntakenSlots => 6,
        }
    }

    /// Returns its bits, if the slots in this mask, of the register's port, are known to differ.
    pub fn bits(self, slot_mask: u32) -> u32
        ensures { result ≡ difference_bits self slot_mask }
    {
        match self {
            KnownDifference::OtherCapabilities => 0xbfff_e0ff,
            KnownDifference::FurtherPorts => 0xffff_fff0,
            KnownDifference::AlwaysAhci => 0x8000_0000,
            KnownDifference::InterruptCauses => 0x0000_000b,
            KnownDifference::TaskFileWhileNoPlainFailed if slot_mask == 0 => 0x0000_ff77,
            KnownDifference::TaskFileWhileNoPlainFailed => 0,
            KnownDifference::FailedSlots | KnownDifference::SactOfUntakenSlots => slot_mask,
        }
    }

    /// The one of a register, if it has one.
    pub fn of(r: Reg) -> Option<KnownDifference>
        ensures { result ≡ difference_of r }
    {
        match r {
            Reg::Cap => Some(KnownDifference::OtherCapabilities),
            Reg::Pi => Some(KnownDifference::FurtherPorts),
            Reg::Ghc => Some(KnownDifference::AlwaysAhci),
            Reg::Px(_, PortReg::Is) => Some(KnownDifference::InterruptCauses),
            Reg::Px(_, PortReg::Tfd) => Some(KnownDifference::TaskFileWhileNoPlainFailed),
            Reg::Px(_, PortReg::Ci) => Some(KnownDifference::FailedSlots),
            Reg::Px(_, PortReg::Sact) => Some(KnownDifference::SactOfUntakenSlots),
            _ => None,
        }
    }
}

/// The bits of a port's register that the definitions name: what a reading shows of the others is open, and the server
/// doesn't use it.
fn modelled_port_bits(r: PortReg) -> u32
    ensures { result ≡ modelled_port_bits r }
{
    match r {
        PortReg::Cmd => 0x0000_c011,
        PortReg::Tfd => 0x0000_ffff,
        PortReg::Ssts | PortReg::Sctl => 0x0000_000f,
        PortReg::Serr => 0x0401_0000,
        PortReg::Is | PortReg::Ie => 0x7840_004b,
        PortReg::Sig | PortReg::Ci | PortReg::Sact => u32::MAX,
        PortReg::Clb | PortReg::Clbu | PortReg::Fb | PortReg::Fbu => u32::MAX,
    }
}

/// The bits of a register that the definitions name. IS isn't compared: a port's bit follows DHRS, PSS and SDBS, too,
/// which are known to differ, and the server never reads it.
fn modelled_bits(r: Reg) -> u32
    ensures { result ≡ modelled_bits r }
{
    match r {
        Reg::Cap | Reg::Pi | Reg::Vs => u32::MAX,
        Reg::Ghc => 0x8000_0003,
        Reg::Is | Reg::Cap2 | Reg::Bohc => 0,
        Reg::Px(_, r) => modelled_port_bits(r),
    }
}

/// The bits of a register that are compared: those that the definitions name, without those of the known difference.
fn compared(r: Reg, slot_mask: u32) -> u32
    ensures { result ≡ compared_bits r slot_mask }
{
    match KnownDifference::of(r) {
        Some(known) => modelled_bits(r) & !known.bits(slot_mask),
        None => modelled_bits(r),
    }
}

/// Whether two values of a register agree, if these slots of its port are known to differ: those whose commands failed;
/// for PxTFD the plain ones of these, and for PxSACT those that were not taken before a queued one failed.
pub fn agrees_in_compared_bits(r: Reg, slot_mask: u32, model_value: u32, peer_value: u32) -> bool
    ensures { IsTrue result ↔ AgreesInComparedBits r slot_mask model_value peer_value }
{
    let bits = compared(r, slot_mask);
    model_value & bits == peer_value & bits
}

/// The known difference that two values of a register show, if they show one.
pub fn shown_difference_of(
    r: Reg,
    slot_mask: u32,
    model_value: u32,
    peer_value: u32,
) -> Option<KnownDifference>
    ensures { result ≡ shown_difference r slot_mask model_value peer_value }
{
    let known = KnownDifference::of(r)?;
    let bits = modelled_bits(r) & known.bits(slot_mask);
    if model_value & bits == peer_value & bits {
        return None;
    }
    Some(known)
}

/// Which known differences were met, and passed over.
#[derive(Clone, Copy, Debug, PartialEq, Eq)]
pub struct MetDifferences {
    /// By the place of each.
    met: [bool; KNOWN],
}

impl MetDifferences {
    /// None was.
    pub const NONE: MetDifferences = MetDifferences {
        met: [false; KNOWN],
    };

    /// Whether this one was.
    pub fn has(&self, known: KnownDifference) -> bool
        ensures { result ≡ slice_index_or self.now.met (difference_index known) false }
    {
        self.met[known.place()]
    }

    /// Notes that this one was.
    pub fn add(&mut self, known: KnownDifference)
        ensures { self.new.met ≡ slice_set self.old.met (difference_index known) true }
    {
        self.met[known.place()] = true;
    }
}

impl fmt::Display for MetDifferences {
    /// Their names, separated by spaces, or `none` if there are none.
    fn fmt<W: fmt::Write>(&self, f: &mut fmt::Formatter<W>) -> fmt::Result {
        let mut is_first = true;
        for known in KnownDifference::ALL {
            if self.has(known) {
                let space = if is_first { "" } else { " " };
                write!(f, "{space}{known:?}")?;
                is_first = false;
            }
        }
        if is_first {
            write!(f, "none")?;
        }
        Ok(())
    }
}
