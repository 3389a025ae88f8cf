//! Reads the configuration of a server and its model from TOML, checks it, and plans what is served.
//!
//! The format is this project's own (docs/FORMATS.md). If a text has several faults, the one of the
//! least kind is returned, and there is at most one least kind. `Config::check` is for values that
//! didn't come from a text. A `Plan` is what a server serves by a configuration.
#![tactic(auto)]

ghost use Rattle.std.specs.Prelude.{◌≡◌};
ghost use Rattle.configuration.specs.Rules.{kind_number};

mod laws;
mod parse;
mod plan;
mod read;
mod rules;
mod schema;
mod table;

pub use laws::{law_least_fault_kind_is_unique, law_read_text_has_no_fault};
pub use plan::Plan;
pub use schema::{Key, ValueType};
use thiserror::Error;

/// A port that the server serves (a table `[[port]]`).
#[derive(Debug, Drop)]
pub struct PortConfig {
    /// The port, 0 to 3.
    pub number: u64,
    /// The serial number that its disk must have, 1 to 20 printable ASCII characters. `None` allows any disk.
    pub serial: Option<String>,
}

/// A client, and the frames that it owns (a table `[[client]]`).
#[derive(Debug, Drop)]
pub struct ClientConfig {
    /// The client, 1 to 8.
    pub id: u64,
    /// Its first frame, which is above the driver's: `DRIVER_FRAMES` (76) or more.
    pub first_frame: u64,
    /// How many frames it has, 1 or more. The last of them is within the memory.
    pub frames: u64,
}

/// What a client may do with some sectors (a table `[[grant]]`).
#[derive(Debug, Drop)]
pub struct GrantConfig {
    /// The client, 1 to 8.
    pub client: u64,
    /// The number under which the client names the grant, 0 to 63.
    pub number: u64,
    /// The port of the disk, 0 to 3.
    pub port: u64,
    /// The first sector.
    pub first: u64,
    /// How many sectors, 1 or more. The last of them is below 2^48.
    pub count: u64,
    /// What the client may do: some of `r` (read), `w` (write), `t` (trim) and `f` (flush), in this order.
    pub rights: String,
}

/// The configuration of a block server and of the model behind it.
#[derive(Debug, Drop)]
pub struct Config {
    /// How many frames of 4096 bytes the memory has, `FEWEST_FRAMES` (77) to `MOST_FRAMES` (1024).
    pub frames: u64,
    /// How many command slots the adapter has, 1 to 32.
    pub slots: u64,
    /// Whether adapter and disk support native command queuing.
    pub ncq: bool,
    /// The disk's queue depth, 1 to 32.
    pub depth: u64,
    /// The disk's promise on trims: `full`, `weak` or `none`.
    pub trim: String,
    /// Whether the disks have a volatile write cache. If a text has no such key, they have none.
    pub cache: bool,
    /// The ports, each once.
    pub port: Vec<PortConfig>,
    /// The clients, each once. No two of them own the same frame.
    pub client: Vec<ClientConfig>,
    /// The grants, at most 64. No client has two of the same number, and their clients and ports are in the lists.
    pub grant: Vec<GrantConfig>,
}

/// What is wrong with a configuration. If several kinds apply, the one of the least number is returned (this project's
/// own).
#[derive(Clone, Copy, Debug, PartialEq, Eq, Error)]
pub enum FaultKind {
    /// The text isn't a TOML document in UTF-8.
    #[error("the text isn't a TOML document")]
    NotToml,
    /// A key is missing or unknown.
    #[error("a key is missing or unknown")]
    WrongKeys,
    /// A value has another type than its key asks.
    #[error("a value has another type than its key asks")]
    WrongTypes,
    /// A number or text is out of its range, or there are more than 64 grants.
    #[error("a number or text is out of its range, or there are more than 64 grants")]
    OutOfRange,
    /// A port, a client, or the number of a client's grant appears twice.
    #[error("a port, a client, or the number of a client's grant appears twice")]
    Duplicate,
    /// A frame belongs to two clients.
    #[error("a frame belongs to two clients")]
    SharedFrames,
    /// A grant names a client that isn't there.
    #[error("a grant names a client that isn't there")]
    UnknownClient,
    /// A grant names a port that isn't there.
    #[error("a grant names a port that isn't there")]
    UnknownPort,
}

impl FaultKind {
    /// Returns the kind's number, 1 to 8.
    pub fn number(self) -> u8
        ensures { result ≡ kind_number self }
    {
        match self {
            FaultKind::NotToml => 1,
            FaultKind::WrongKeys => 2,
            FaultKind::WrongTypes => 3,
            FaultKind::OutOfRange => 4,
            FaultKind::Duplicate => 5,
            FaultKind::SharedFrames => 6,
            FaultKind::UnknownClient => 7,
            FaultKind::UnknownPort => 8,
        }
    }
}

/// Why no configuration was read from a text.
#[derive(Clone, Copy, Debug, PartialEq, Eq, Error)]
pub enum ConfigFault {
    /// Something is wrong with the configuration.
    #[error("{0}")]
    Refused(FaultKind),
    /// Memory ran out.
    #[error("no memory")]
    NoMemory,
}
