// The place into which the call that a line asks for is read.
ghost use Rattle.std.specs.Prelude.{◌≡◌};
ghost use Rattle.ata_types.specs.declared.call.Call.TheVariants.{Service};

use adapter::DeviceStep;
use ata_types::Call;
use std::marker::Model;

/// The part of a buffer that has a call.
#[derive(Clone, Copy, Debug, PartialEq, Eq)]
pub enum CallPart {
    /// A read or a write.
    Transfer,
    /// A step of the device.
    Step,
    /// Any other.
    Other,
}

/// Has the call that was read last, and any one until one was. Reads and writes have a part of their own, so that
/// their room for frames is kept from line to line: to clear it for each costs more than to read the line. So have
/// steps of the device, since a step that is put over a call of another kind clears that room, too.
#[derive(Debug, Drop)]
pub struct CallBuffer {
    /// The last read or write, or any other call.
    pub(crate) transfer: Call<DeviceStep>,
    /// The last step of the device, or any other call.
    pub(crate) step: Call<DeviceStep>,
    /// The last call of another kind.
    pub(crate) other: Call<DeviceStep>,
    /// Which of them was read last.
    pub(crate) last: CallPart,
}

impl Model for CallBuffer {
    ghost use Rattle.adapter.specs.declared.access.DeviceStep.{DeviceStep};
    ghost use Rattle.ata_types.specs.declared.call.Call.{Call};
    ghost use Rattle.script.specs.BufferParts.{part_of};

    ghost Value = { Call DeviceStep };

    ghost view = { λ p. part_of p.last p.transfer p.step p.other };
}

impl CallBuffer {
    /// A buffer with a service.
    pub fn new() -> CallBuffer
        ensures { result ≡ Service }
    {
        CallBuffer {
            transfer: Call::Service,
            step: Call::Service,
            other: Call::Service,
            last: CallPart::Other,
        }
    }

    /// The call that was read last.
    pub fn call(&self) -> &Call<DeviceStep>
        ensures { result.now ≡ self.now }
    {
        match self.last {
            CallPart::Transfer => &self.transfer,
            CallPart::Step => &self.step,
            CallPart::Other => &self.other,
        }
    }

    /// That call itself.
    pub fn into_call(self) -> Call<DeviceStep>
        ensures { result ≡ self }
    {
        match self.last {
            CallPart::Transfer => self.transfer,
            CallPart::Step => self.step,
            CallPart::Other => self.other,
        }
    }
}
