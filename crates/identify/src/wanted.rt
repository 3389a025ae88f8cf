// Which disk is wanted.
ghost use Rattle.std.specs.Prelude.{◌≡◌};
ghost use Rattle.identify.specs.Wanted.{serial_of};

/// Which disk is wanted in a port (this project's own).
#[derive(Clone, Copy, PartialEq, Eq, Debug)]
pub enum Wanted {
    /// None: the port isn't used.
    Nothing,
    /// Any disk.
    Any,
    /// The disk with this serial number: 20 characters, filled with spaces.
    Serial([u8; 20]),
}

impl Wanted {
    /// The serial number that the disk has to have, if one is asked for.
    pub fn serial(&self) -> Option<[u8; 20]>
        ensures { result ≡ serial_of self.now }
    {
        match self {
            Wanted::Nothing | Wanted::Any => None,
            Wanted::Serial(serial) => Some(*serial),
        }
    }
}
