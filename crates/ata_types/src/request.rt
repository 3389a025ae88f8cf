// What clients ask, and what they are told.
use crate::Sector;
use crate::limits::{MOST_REQUEST_FRAMES, MOST_UNANSWERED_OF_ALL_CLIENTS};
use arrayvec::ArrayVec;

/// A client of the server: 1 to 8.
#[derive(Clone, Copy, Debug, Default, PartialEq, Eq, PartialOrd, Ord, Hash)]
pub struct ClientId(pub u8);

/// A frame of memory, by its number: frame f has the `FRAME_BYTES` bytes from byte `FRAME_BYTES` f on.
#[derive(Clone, Copy, Debug, Default, PartialEq, Eq, PartialOrd, Ord, Hash)]
pub struct Frame(pub u16);

/// The number that an accepted request is answered by. Numbers begin at 1 and rise by one.
#[derive(Clone, Copy, Debug, Default, PartialEq, Eq, PartialOrd, Ord, Hash)]
pub struct RequestId(pub u64);

/// What a request asks of the disk.
#[derive(Clone, Copy, Debug, Default, PartialEq, Eq)]
pub enum Op {
    /// Sectors go from the disk to the lent frames.
    #[default]
    Read,
    /// Sectors go from the lent frames to the disk.
    Write,
    /// Sectors become zero.
    Trim,
    /// What was written is made lasting.
    Flush,
}

/// A request, as a client makes it.
#[derive(Debug, Drop)]
pub struct Request {
    pub client: ClientId,
    /// The number of the client's grant; the port comes from its row.
    pub grant: u8,
    pub op: Op,
    /// Not looked at for a flush.
    pub first: Sector,
    /// In sectors: 0 for a flush.
    pub count: u32,
    /// Frames that are lent until the request is answered, eight sectors to each, in order.
    pub frames: ArrayVec<Frame, MOST_REQUEST_FRAMES>,
}

/// How a request ended.
#[derive(Clone, Copy, Debug, Default, PartialEq, Eq)]
pub enum Outcome {
    /// All of its sectors were moved or cleared, or all of the disk's writes were made lasting.
    #[default]
    Ok,
    /// The disk failed it, with these two bytes of the task file (ACS-3).
    DeviceError { status: u8, error: u8 },
    /// It was issued four times and not done.
    Aborted,
    /// Its disk isn't there any more: it went, is another one, or can't be used once its port was booted anew.
    Unplugged,
    /// Its port can't be stopped, or the adapter can't be reset.
    PortDead,
    /// Its grant was revoked, and it wasn't issued then, or would have been issued again. As with `Aborted` and
    /// `Unplugged`, of one that was issued before some sectors may be done.
    Revoked,
}

/// The answer to an accepted request.
#[derive(Clone, Copy, Debug, Default, PartialEq, Eq)]
pub struct Reply {
    pub id: RequestId,
    pub client: ClientId,
    pub outcome: Outcome,
}

/// The answers of one call. There are never more unanswered requests than it has places.
pub type Replies = ArrayVec<Reply, MOST_UNANSWERED_OF_ALL_CLIENTS>;
