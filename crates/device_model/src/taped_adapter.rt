// What can be seen of an adapter in software without an access.
ghost use Rattle.std.specs.Prelude.{◌≡◌, Bool};
ghost use Rattle.adapter.specs.Access.{Shows};
ghost use Rattle.device_model.specs.{ModelState.{is_starved}, WholeAdapter.{HasRegister}};

use crate::model::Model;
use adapter::{Entry, Stepped};
use hba_regs::Reg;
use sector_store::SectorStore;

/// An adapter that tells what its device did, and whether it can go on.
pub trait TapedAdapter: Stepped {
    /// Nothing more is to be asked of it: what it answers isn't what it should be any more.
    ghost ended: { Self → Bool };

    /// What the device did, the oldest first.
    fn tape(&self) -> &[Entry]
        ensures { result.now ≡ (Self.device self.now).tape };

    /// Whether nothing more is to be asked of it.
    fn is_exhausted(&self) -> bool
        ensures { result ≡ ended self.now };
}

/// An adapter whose registers can be looked at without an access.
pub trait Inspectable: TapedAdapter {
    /// What a register shows now, of the adapter or of one of its ports 0 to 3. Nothing is done first, and nothing is
    /// noted.
    fn shown(&self, r: Reg) -> u32
        requires { HasRegister r }
        ensures { Shows r result (Self.device self.now) };
}

/// A model can go on until memory was refused: to note a step, or to keep what sectors held that it changes.
impl<S: SectorStore> TapedAdapter for Model<S> {
    ghost ended = { is_starved };

    fn tape(&self) -> &[Entry] {
        Model::tape(self)
    }

    fn is_exhausted(&self) -> bool {
        self.starved()
    }
}

impl<S: SectorStore> Inspectable for Model<S> {
    fn shown(&self, r: Reg) -> u32 {
        Model::shown(self, r)
    }
}
