// The calls of an adapter, and of an adapter whose device makes steps on request.
ghost use Rattle.std.specs.Prelude.{ℕ, ◌+◌, ◌≡◌, length, true, false};
ghost use Rattle.adapter.specs.{Device.{Device}, AskedSteps.{DoesOrFailsStep}, Idle.{DisksAreKnownIfTheyTell}, Steps.{Steps}, Access.{Reads, Writes, Loads, Stores}, Rules.{MayRead, MayWrite, IsInMemoryNotOwnedByDevice, IsStable}};

use ata_types::{Port, Slot};
use hba_regs::Reg;

/// An AHCI host adapter with its memory and its disks.
///
/// Each call first lets the device make any number of steps, and then has its one effect. The caller has to keep the
/// rules of AHCI 1.3.1 for drivers (`Rules.antt`), and may touch no byte that the device may use. A caller that keeps
/// them gets no error: an implementation makes each access exactly as it is asked, at once, in order, and no other.
pub trait Adapter {
    /// The state of registers, memory, ports and disks.
    ghost device: { Self → Device };

    /// How many accesses were made: readings and writes of registers, loads and stores of bytes.
    ghost access_count: { Self → ℕ };

    /// Reads a register of 32 bits, and returns its value.
    fn read(&mut self, r: Reg) -> u32
        requires { MayRead r (device self.old) }
        ensures does { Reads r result (device self.old) (device self.new) }
        ensures counted { access_count self.new ≡ access_count self.old + 1 };

    /// Writes a value to a register of 32 bits.
    fn write(&mut self, r: Reg, v: u32)
        requires { IsStable (MayWrite r v) (device self.old) }
        ensures does { Writes r v (device self.old) (device self.new) }
        ensures counted { access_count self.new ≡ access_count self.old + 1 };

    /// Copies bytes of the memory into `out`, as many as it has. `addr` is the address of the first byte, and all of
    /// them are within the memory.
    fn load(&mut self, addr: u32, out: &mut [u8])
        requires { IsStable (IsInMemoryNotOwnedByDevice addr (length out.old)) (device self.old) }
        ensures does { Loads addr out.new (device self.old) (device self.new) }
        ensures counted { access_count self.new ≡ access_count self.old + 1 };

    /// Copies bytes into the memory. `addr` is the address of the first one, and all of them are within the memory. The
    /// device sees them before it sees any later write of a register.
    fn store(&mut self, addr: u32, bytes: &[u8])
        requires { IsStable (IsInMemoryNotOwnedByDevice addr (length bytes.now)) (device self.old) }
        ensures does { Stores addr bytes.now (device self.old) (device self.new) }
        ensures counted { access_count self.new ≡ access_count self.old + 1 };

    /// The adapter has disks with specified contents only if each of its disks is such.
    ghost tells: { (a : Self) → DisksAreKnownIfTheyTell (device a) };
}

/// A page of 512 bytes that a disk sends to the driver itself (ACS-3).
#[derive(Clone, Copy, Debug, PartialEq, Eq)]
pub enum DiskPage {
    /// The page of IDENTIFY DEVICE.
    Identity,
    /// The page of log 10h, by READ LOG EXT: which queued command failed, and with which status and error.
    Log,
}

/// A disk that can be put into a port. Disk 0 is the one that the port has at first.
#[derive(Clone, Copy, Debug, PartialEq, Eq)]
pub struct DiskNumber(pub u8);

/// A fatal error of a port. The port does nothing more until its driver starts it anew (AHCI 1.3.1, 6.1 and 6.2.2).
#[derive(Clone, Copy, Debug, PartialEq, Eq)]
pub enum FatalError {
    /// An error on the interface to the disk: PxIS.IFS (AHCI 1.3.1, 3.3.5).
    Interface,
    /// A fatal error of the host's bus, for example because of a bad pointer: PxIS.HBFS (AHCI 1.3.1, 3.3.5).
    HostBus,
}

/// A step that a device can be asked to make.
#[derive(Clone, Copy, Debug, PartialEq, Eq)]
pub enum DeviceStep {
    /// Take the command that is issued in the slot.
    Fetch(Port, Slot),
    /// Move the next 512 bytes of the slot's command.
    Move(Port, Slot),
    /// Clear this many of the next sectors of the slot's trim, whose block was moved. At least one has to be left, even
    /// if 0 are asked for. An adapter may clear fewer of them, but at least one unless 0 are asked for.
    Clear(Port, Slot, u32),
    /// End the slot's command, which has nothing left to move or to clear.
    Done(Port, Slot),
    /// Do all that is left of the slot's command: take it, move, clear and end it. An adapter may stop before the end,
    /// but not before the first of these.
    Finish(Port, Slot),
    /// Fail the slot's command, which is taken, with this error (ACS-3, 6.2). The port is halted then.
    Fault(Port, Slot, u8),
    /// Do the same, and leave BSY set: the disk doesn't get ready again (AHCI 1.3.1, 6.2.2).
    FaultBusy(Port, Slot, u8),
    /// Meet this fatal error on the port, whose engine runs. The port then does nothing for its commands until it is
    /// started anew.
    Fatal(Port, FatalError),
    /// Fill the bytes that the device may write while the port receives FISes with this byte: the received FIS area of
    /// the port, and PRDBC of each slot whose command is taken (AHCI 1.3.1, 4.2.1 and 4.2.2).
    Scribble(Port, u8),
    /// Falsify a page: from now on the disk of the port sends the byte of this page at this offset, below 512, with
    /// these bits inverted. This is for tests. Nothing changes until the page is sent.
    Lie(Port, DiskPage, u16, u8),
    /// Send true pages again.
    Truth(Port),
    /// From now on make no step on the port unasked, until the port is released, or a reset of the adapter finishes.
    Hold(Port),
    /// Make steps on the port unasked again.
    Release(Port),
    /// Lose the disk, because it is taken out.
    Unplug(Port),
    /// Get this disk, because it is put in.
    Plug(Port, DiskNumber),
    /// Get the disk that was in last. It may have lost what its cache held, which is what was written since it last
    /// ended a flush (FLUSH CACHE EXT, ACS-3).
    LosePlug(Port),
}

/// An adapter whose device makes a step on request, if the step is possible then.
pub trait Stepped: Adapter {
    /// Has the device make a step. After `true` the device made the step and no other, or the step's command failed in
    /// its place or on the way, because its bytes mean no command or a disk failed. After `false` nothing has changed.
    fn step(&mut self, s: &DeviceStep) -> bool
        ensures asked { result ≡ true → DoesOrFailsStep s.now (Self.device self.old) (Self.device self.new) }
        ensures steps { Steps (Self.device self.old) (Self.device self.new) }
        ensures refused { result ≡ false → Self.device self.new ≡ Self.device self.old }
        ensures counted { Self.access_count self.new ≡ Self.access_count self.old };
}
