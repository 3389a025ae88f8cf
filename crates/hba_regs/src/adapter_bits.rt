// The bits of the adapter's registers.
ghost use Rattle.std.specs.Prelude.{⊤, ◌≡◌, ◌≢◌, ◌<◌, ◌^◌, ℕ, [], ◌∷◌, codes, true, false};
ghost use Rattle.hba_regs.specs.Bits.{bit, field};

use crate::bit::has;
use bitflags::{Flag, Flags, bitflag_items};

/// CAP: what the adapter can do (AHCI 1.3.1, 3.1.1).
#[derive(Clone, Copy, Debug, PartialEq, Eq)]
pub struct Capabilities(pub u32);

bitflag_items! {
    impl Capabilities: u32 {
        /// It can spin devices up one after another.
        const SSS = 1 << 27;
        /// It takes queued commands.
        const SNCQ = 1 << 30;
        /// Its addresses have 64 bits.
        const S64A = 1 << 31;
    }
}

impl Flags for Capabilities {
    type Bits = u32;

    ghost exact = { ⊤ };

    ghost table = { (codes "SSS", 2 ^ 27) ∷
        (codes "SNCQ", 2 ^ 30) ∷
        (codes "S64A", 2 ^ 31) ∷
        [] };

    ghost set_of = { λ register. register.0 };

    fn flags<'a>() -> &'a [Flag<Capabilities>] {
        Capabilities::FLAGS
    }

    fn bits(&self) -> u32 {
        self.0
    }

    fn from_bits_retain(bits: u32) -> Capabilities {
        Capabilities(bits)
    }
}

impl Capabilities {
    /// The number of ports less one: NP, bits 4:0 (AHCI 1.3.1, 3.1.1).
    pub fn port_count_less_one(self) -> u32
        ensures { result ≡ field self.0 0 5 }
    {
        self.0 & 0x1f
    }

    /// The number of command slots a port less one: NCS, bits 12:8 (AHCI 1.3.1, 3.1.1).
    pub fn last_slot(self) -> u32
        ensures { result ≡ field self.0 8 5 }
    {
        self.0 >> 8 & 0x1f
    }

    /// Whether the adapter takes queued commands: SNCQ (AHCI 1.3.1, 3.1.1).
    pub fn has_ncq(self) -> bool
        ensures { result ≡ bit self.0 30 }
    {
        has(self.0, Self::SNCQ.0)
    }
}

/// GHC: control of the whole adapter (AHCI 1.3.1, 3.1.2).
#[derive(Clone, Copy, Debug, PartialEq, Eq)]
pub struct GlobalControl(pub u32);

bitflag_items! {
    impl GlobalControl: u32 {
        /// Written as one it resets the adapter, and it reads as one until the reset is done.
        const HR = 1 << 0;
        /// Interrupts are sent.
        const IE = 1 << 1;
        /// AHCI is used. It is set before any other register is touched.
        const AE = 1 << 31;
    }
}

impl Flags for GlobalControl {
    type Bits = u32;

    ghost exact = { ⊤ };

    ghost table = { (codes "HR", 2 ^ 0) ∷
        (codes "IE", 2 ^ 1) ∷
        (codes "AE", 2 ^ 31) ∷
        [] };

    ghost set_of = { λ register. register.0 };

    fn flags<'a>() -> &'a [Flag<GlobalControl>] {
        GlobalControl::FLAGS
    }

    fn bits(&self) -> u32 {
        self.0
    }

    fn from_bits_retain(bits: u32) -> GlobalControl {
        GlobalControl(bits)
    }
}

impl GlobalControl {
    /// Whether a reset of the adapter isn't done yet: HR (AHCI 1.3.1, 3.1.2).
    pub fn is_resetting(self) -> bool
        ensures { result ≡ bit self.0 0 }
    {
        has(self.0, Self::HR.0)
    }

    /// Whether the adapter is used as AHCI: AE (AHCI 1.3.1, 3.1.2).
    pub fn is_ahci_enabled(self) -> bool
        ensures { result ≡ bit self.0 31 }
    {
        has(self.0, Self::AE.0)
    }
}
