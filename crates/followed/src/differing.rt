// Which slots of a port may show other bits in the peer than in the model.
ghost use Rattle.std.specs.Prelude.{◌≡◌, ◌+◌, ◌<◌, ◌||◌, slice_index, slice_set, true};
ghost use Rattle.followed.specs.DifferingSlots.{AddsSlotIf, ForgetsSlotsOf, GoesOnNotingSlots, NotesFailed, StaysElsewhere, slots_behind_difference};

use ata_types::{PORTS, Port};
use hba_regs::{PortReg, Reg, with_bit};

/// By port, the slots by which the known differences go, since ST of the port was zero.
#[derive(Clone, Copy, Debug, PartialEq, Eq)]
pub struct DifferingSlotMasks {
    /// Those whose commands have failed.
    failed: [u32; PORTS],
    /// The plain ones of these.
    plain: [u32; PORTS],
    /// Those whose commands were issued, and not taken, when a queued one failed.
    untaken: [u32; PORTS],
}

impl DifferingSlotMasks {
    /// No command has failed.
    pub const NONE: DifferingSlotMasks = DifferingSlotMasks {
        failed: [0; PORTS],
        plain: [0; PORTS],
        untaken: [0; PORTS],
    };

    /// Those of a register.
    pub fn of(&self, r: Reg) -> u32
        ensures { result ≡ slots_behind_difference r self.now }
    {
        match r {
            Reg::Px(port, PortReg::Sact) => at_port(&self.untaken, port),
            Reg::Px(port, PortReg::Tfd) => at_port(&self.plain, port),
            Reg::Px(port, _) => at_port(&self.failed, port),
            _ => 0,
        }
    }

    /// Notes that a slot's command has failed, a queued one or a plain one.
    pub fn note_failed(&mut self, port: Port, slot: u32, queued: bool)
        requires port { port.0 < 4 }
        requires slot { slot < 32 }
        ensures noted { NotesFailed port.0 slot queued self.old self.new }
        ensures goes_on { GoesOnNotingSlots port.0 self.old self.new }
    {
        add_slot(&mut self.failed, port, slot);
        if !queued {
            add_slot(&mut self.plain, port, slot);
        }
    }

    /// Notes which slots were issued, and not taken, when a queued command failed.
    pub fn note_untaken(&mut self, port: Port, slots: u32)
        requires { port.0 < 4 }
        ensures noted { self.new ≡ record self.old { untaken = slice_set self.old.untaken port.0 slots } }
        ensures goes_on { GoesOnNotingSlots port.0 self.old self.new }
    {
        self.untaken[usize::from(port.0)] = slots;
    }

    /// Forgets all of a port: its ST is zero.
    pub fn forget(&mut self, port: Port)
        requires { port.0 < 4 }
        ensures { ForgetsSlotsOf port.0 self.old self.new }
    {
        self.failed[usize::from(port.0)] = 0;
        self.plain[usize::from(port.0)] = 0;
        self.untaken[usize::from(port.0)] = 0;
    }
}

/// What is kept of a port; zero of one that isn't there.
pub fn at_port(values: &[u32; PORTS], port: Port) -> u32
    ensures { result ≡ slice_index values.now port.0 }
{
    values.get(usize::from(port.0)).copied().unwrap_or(0)
}

/// Adds a slot of a port.
fn add_slot(slots: &mut [u32; PORTS], port: Port, slot: u32)
    requires port { port.0 < 4 }
    requires slot { slot < 32 }
    ensures adds { AddsSlotIf true port.0 slot slots.old slots.new }
    ensures elsewhere { StaysElsewhere port.0 slots.old slots.new }
{
    let place = usize::from(port.0);
    slots[place] = with_bit(slots[place], slot);
}
