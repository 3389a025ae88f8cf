// What a server is asked, and what it answers: as values, for lists of calls and for the lines of a script.
use crate::{ClientId, Frame, MOST_CALL_BYTES, Port, Request};
use arrayvec::ArrayVec;
use thiserror::Error;

/// A call of the server. `S` are the steps that its device can be told to do.
#[derive(Debug, Drop)]
pub enum Call<S> {
    /// Make this request.
    Submit(Request),
    /// Put bytes into a frame.
    ClientStore {
        client: ClientId,
        frame: Frame,
        /// In bytes, from the frame's first byte on.
        offset: u32,
        bytes: ArrayVec<u8, MOST_CALL_BYTES>,
    },
    /// Show bytes of a frame.
    ClientLoad {
        client: ClientId,
        frame: Frame,
        /// In bytes, from the frame's first byte on.
        offset: u32,
        /// In bytes; above `MOST_CALL_BYTES` it counts as that many.
        length: u32,
    },
    /// Answer what is done, handle errors, and look for disks.
    Service,
    /// Note that a tick has gone by, and restart ports with requests that hang.
    Tick,
    /// Reset the adapter.
    Reset,
    /// Revoke a client's grant.
    Revoke {
        client: ClientId,
        /// The number by which the client's requests name the grant.
        number: u8,
    },
    /// Show the state of a port.
    State(Port),
    /// Have the device do a step.
    Device(S),
}

/// The adapter didn't end its reset.
#[derive(Clone, Copy, PartialEq, Eq, Debug, Error)]
#[error("the adapter didn't end its reset")]
pub struct AdapterStuck;

/// The client has no grant of this number.
#[derive(Clone, Copy, Debug, PartialEq, Eq, Error)]
#[error("the client has no grant of this number")]
pub struct NoRow;
