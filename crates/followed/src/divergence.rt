// An access on which model and peer don't agree.
use crate::peer::PeerFault;
use hba_regs::Reg;
use std::fmt;

/// The first access on which the two strayed: nothing was asked of the peer after it.
#[derive(Clone, Copy, Debug, PartialEq, Eq)]
pub enum Divergence {
    /// A register was read: what the model showed, and what the peer did.
    Register {
        register: Reg,
        shown: u32,
        said: u32,
    },
    /// Memory was loaded: the first byte that differs, in the model and in the peer.
    Memory {
        address: u32,
        shown: u8,
        said: u8,
    },
    /// The peer gave no answer, for this reason: it is gone, it said something else, or memory was refused.
    Silent(PeerFault),
}

impl fmt::Display for Divergence {
    fn fmt<W: fmt::Write>(&self, f: &mut fmt::Formatter<W>) -> fmt::Result {
        match self {
            Divergence::Register {
                register,
                shown,
                said,
            } => write!(
                f,
                "read {register:?} at {:x}h: {shown:08x}h by the model, {said:08x}h by the peer",
                register.offset()
            ),
            Divergence::Memory {
                address,
                shown,
                said,
            } => write!(
                f,
                "load at {address:x}h: {shown:02x}h by the model, {said:02x}h by the peer"
            ),
            Divergence::Silent(PeerFault::Closed) => write!(f, "the peer has gone"),
            Divergence::Silent(PeerFault::Garbled) => write!(f, "the peer answered something else"),
            Divergence::Silent(PeerFault::NoMemory) => write!(f, "no memory"),
        }
    }
}
