// Why a server can't be made, and why it stops in a list of events.
use configuration::FaultKind;
use thiserror::Error;

/// Why no server was made.
#[derive(Clone, Copy, Debug, PartialEq, Eq, Error)]
pub enum ServerError {
    /// The configuration has a fault of this kind, and none of a lower number.
    #[error("the configuration is refused: {0}")]
    BadConfig(FaultKind),
    /// Memory for it was refused.
    #[error("no memory")]
    NoMemory,
}

/// Memory for what the event `at` can say was refused. The events before it were done, and it wasn't begun.
#[derive(Clone, Copy, Debug, PartialEq, Eq, Error)]
#[error("no memory for what event {at} says")]
pub struct RunStopped {
    /// The place of the event in the list, counted from 0.
    pub at: usize,
}
