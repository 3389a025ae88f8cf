// Why the program ends without having played a script to its end.

ghost use Rattle.std.specs.Prelude.{◌≡◌, ◌≢◌};
ghost use Rattle.follow.specs.declared.error.FollowError.TheVariants.{CommandLine};

use ata_types::NoMemory;
use play::Ended;
use std::alloc::AllocError;
use std::{fmt, io};

/// Why a run of the program doesn't end well.
#[derive(Clone, Copy, Debug, PartialEq, Eq)]
pub enum FollowError {
    /// The words are fewer than six or more than nine, or the fifth is no number of 32 bits.
    CommandLine,
    /// The configuration, the script or an image can't be read.
    Unread,
    /// The configuration has a fault of the kind with this number, 1 to 8.
    Config(u8),
    /// The line of the script with this number is bad.
    Line(u64),
    /// The files of the peer can't be opened.
    PeerUnopened,
    /// Model and peer strayed.
    Diverged,
    /// Memory was refused.
    NoMemory,
    /// Standard output can't be written.
    Unwritten,
}

impl FollowError {
    /// The status with which the program ends: 2 for a bad command line, 1 for each other error.
    pub fn status(self) -> u8
        ensures command_line { self ≡ CommandLine → result ≡ 2 }
        ensures others { self ≢ CommandLine → result ≡ 1 }
    {
        match self {
            FollowError::CommandLine => 2,
            _ => 1,
        }
    }
}

impl From<AllocError> for FollowError {
    fn from(_error: AllocError) -> FollowError {
        FollowError::NoMemory
    }
}

impl From<NoMemory> for FollowError {
    fn from(_error: NoMemory) -> FollowError {
        FollowError::NoMemory
    }
}

/// An end of a play as an error. A play that came to its end is one only if its output couldn't be written.
impl From<Ended> for FollowError {
    fn from(ended: Ended) -> FollowError {
        match ended {
            Ended::Config(number) => FollowError::Config(number),
            Ended::Line(number) => FollowError::Line(number),
            Ended::Done | Ended::Unwritten => FollowError::Unwritten,
            Ended::NoMemory => FollowError::NoMemory,
        }
    }
}

/// `NoMemory` if memory was refused, and this fault if the error is another one.
pub fn no_memory_or(error: &io::Error, fault: FollowError) -> FollowError {
    if error.kind() == io::ErrorKind::OutOfMemory {
        FollowError::NoMemory
    } else {
        fault
    }
}

impl fmt::Display for FollowError {
    fn fmt<W: fmt::Write>(&self, f: &mut fmt::Formatter<W>) -> fmt::Result {
        match self {
            FollowError::CommandLine => write!(f, "bad command line"),
            FollowError::Unread => write!(f, "a file can't be read"),
            FollowError::Config(kind) => write!(f, "config {kind}"),
            FollowError::Line(number) => write!(f, "line {number}: bad"),
            FollowError::PeerUnopened => write!(f, "the peer can't be reached"),
            FollowError::Diverged => write!(f, "model and peer don't agree"),
            FollowError::NoMemory => write!(f, "no memory"),
            FollowError::Unwritten => write!(f, "output"),
        }
    }
}
