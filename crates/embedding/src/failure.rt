// Why the program ends early.
use ata_types::{AdapterStuck, MemFault, NoMemory, NoRow, Refusal};
use block_server::ServerError;
use configuration::ConfigFault;
use std::alloc::AllocError;
use std::io;
use thiserror::Error;

/// Why the program ends early: one variant for each kind of error that it may get.
#[derive(Clone, Copy, Debug, PartialEq, Eq, Error)]
pub enum Failure {
    #[error("the configuration is refused: {0}")]
    Config(ConfigFault),
    #[error("no server could be made")]
    Server(ServerError),
    #[error("a request was refused")]
    Request(Refusal),
    #[error("a client may not reach a frame")]
    Frame(MemFault),
    #[error("a client has no such grant")]
    Grant(NoRow),
    #[error("the adapter did not end its reset")]
    Reset(AdapterStuck),
    #[error("memory was refused")]
    NoMemory,
    #[error("the output failed")]
    Output,
}

impl From<ConfigFault> for Failure {
    fn from(fault: ConfigFault) -> Failure {
        Failure::Config(fault)
    }
}

impl From<Refusal> for Failure {
    fn from(refusal: Refusal) -> Failure {
        Failure::Request(refusal)
    }
}

impl From<MemFault> for Failure {
    fn from(fault: MemFault) -> Failure {
        Failure::Frame(fault)
    }
}

impl From<NoRow> for Failure {
    fn from(missing: NoRow) -> Failure {
        Failure::Grant(missing)
    }
}

impl From<AdapterStuck> for Failure {
    fn from(stuck: AdapterStuck) -> Failure {
        Failure::Reset(stuck)
    }
}

impl From<AllocError> for Failure {
    fn from(_error: AllocError) -> Failure {
        Failure::NoMemory
    }
}

impl From<NoMemory> for Failure {
    fn from(_error: NoMemory) -> Failure {
        Failure::NoMemory
    }
}

impl From<io::Error> for Failure {
    fn from(_error: io::Error) -> Failure {
        Failure::Output
    }
}
