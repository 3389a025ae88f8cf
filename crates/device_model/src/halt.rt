// Whether a fault has halted a port, and what goes on then (AHCI 1.3.1, 6.2.2; ACS-3, 4.15).
ghost use Rattle.std.specs.Prelude.{◌≡◌};
ghost use Rattle.adapter.specs.Steps.{admits, halt_after_fault, halt_after_start};
ghost use Rattle.device_model.specs.PortView.{halt_of};

use adapter::Operation;

/// What a fault has made of a port. A fault needs no disk in, and may come to a port that is halted already: once one
/// was of a queued command, the halt stays one by a queued command.
#[derive(Clone, Copy, Debug)]
pub enum Halting {
    /// No command failed: all go on.
    NotHalted,
    /// A plain command failed: none goes on.
    HaltedByPlain,
    /// A queued one failed: none goes on.
    HaltedByQueued,
    /// A queued one failed, and ST was set again: READ LOG EXT alone goes on.
    LogOnly,
}

impl Halting {
    /// Whether such a command goes on.
    pub fn admits(self, operation: Operation) -> bool
        ensures { result ≡ admits (halt_of self) operation }
    {
        match self {
            Halting::NotHalted => true,
            Halting::LogOnly => matches!(operation, Operation::ReadLog),
            Halting::HaltedByPlain | Halting::HaltedByQueued => false,
        }
    }

    /// What it is once a command has failed, a queued one or a plain one.
    pub fn after_fault(self, queued: bool) -> Halting
        ensures { halt_of result ≡ halt_after_fault (halt_of self) queued }
    {
        match self {
            Halting::HaltedByQueued | Halting::LogOnly => Halting::HaltedByQueued,
            Halting::NotHalted | Halting::HaltedByPlain if queued => Halting::HaltedByQueued,
            Halting::NotHalted | Halting::HaltedByPlain => Halting::HaltedByPlain,
        }
    }

    /// What it is once ST was set again.
    pub fn after_start(self) -> Halting
        ensures { halt_of result ≡ halt_after_start (halt_of self) }
    {
        match self {
            Halting::HaltedByQueued | Halting::LogOnly => Halting::LogOnly,
            Halting::NotHalted | Halting::HaltedByPlain => Halting::NotHalted,
        }
    }
}
