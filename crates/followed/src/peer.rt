// Another adapter, which takes the same accesses.
ghost use Rattle.std.specs.Prelude.{IfErr, OnOk, IfOk};
ghost use Rattle.adapter.specs.Access.{Access, Access.{Loading, Reading, Storing, Writing}};
ghost use Rattle.followed.specs.declared.peer.PeerFault.{PeerFault as PeerFaultOf};

use hba_regs::Reg;

/// Why a peer gave no answer.
#[derive(Clone, Copy, Debug, PartialEq, Eq)]
pub enum PeerFault {
    /// It can't be written to, or its answers have ended.
    Closed,
    /// It answered with other words than it was asked for, for example because it refuses.
    Garbled,
    /// Memory was refused.
    NoMemory,
}

/// An adapter with its memory, which takes accesses and says how they went.
///
/// Nothing is proved of what it answers. By its two ghost members contracts say what it was asked for: a proof about
/// any peer has them from calls alone.
pub trait Peer {
    /// From the one state to the other it made this access. Of a reading and a load the access has what it answered.
    ghost makes: { Self → Access → Self → Type 0 };

    /// From the one state to the other it gave no answer, and this is why.
    ghost fails: { Self → PeerFaultOf → Self → Type 0 };

    /// What a register shows.
    fn read(&mut self, r: Reg) -> Result<u32, PeerFault>
        ensures made { IfOk result (λ value. makes self.old (Reading r value) self.new) }
        ensures failed { IfErr result (λ fault. fails self.old fault self.new) };

    /// Writes a register.
    fn write(&mut self, r: Reg, value: u32) -> Result<(), PeerFault>
        ensures made { OnOk result (makes self.old (Writing r value) self.new) }
        ensures failed { IfErr result (λ fault. fails self.old fault self.new) };

    /// Copies bytes of its memory, from an address on.
    fn load(&mut self, address: u32, out: &mut [u8]) -> Result<(), PeerFault>
        ensures made { OnOk result (makes self.old (Loading address out.new) self.new) }
        ensures failed { IfErr result (λ fault. fails self.old fault self.new) };

    /// Puts bytes into its memory, from an address on.
    fn store(&mut self, address: u32, bytes: &[u8]) -> Result<(), PeerFault>
        ensures made { OnOk result (makes self.old (Storing address bytes.now) self.new) }
        ensures failed { IfErr result (λ fault. fails self.old fault self.new) };
}
