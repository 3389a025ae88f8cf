// Why a request, or a client's access to a frame, is refused.
use crate::PortState;
use thiserror::Error;

/// What is wrong with the frames of a request, with the least place at which it is.
#[derive(Clone, Copy, Debug, PartialEq, Eq, Error)]
pub enum FrameFault {
    /// The client doesn't own the frame.
    #[error("the frame at place {0} isn't the client's")]
    FrameForeign(usize),
    /// The frame stands at an earlier place too.
    #[error("the frame at place {0} stands at an earlier place, too")]
    FrameTwice(usize),
    /// The frame is lent to a request.
    #[error("the frame at place {0} is lent")]
    FrameLent(usize),
}

/// A rule that a request breaks, in the order in which they are told (this project's own).
#[derive(Clone, Copy, Debug, PartialEq, Eq, Error)]
pub enum Rule {
    /// The client has no grant with this number.
    #[error("the client has no grant of this number")]
    NoGrant,
    /// The grant lacks the operation's right.
    #[error("the grant lacks the operation's right")]
    NoRight,
    /// The operation can't have so many sectors.
    #[error("the operation can't have so many sectors")]
    BadCount,
    /// The sectors leave the grant's.
    #[error("the sectors leave the grant's")]
    OutsideGrant,
    /// The sectors don't fit the number of frames.
    #[error("the sectors don't fit the number of frames")]
    FrameCount,
    /// A frame can't be lent.
    #[error("{0}")]
    Frames(FrameFault),
}

/// Why a request isn't accepted, in the order in which it is told (this project's own).
#[derive(Clone, Copy, Debug, PartialEq, Eq, Error)]
pub enum Refusal {
    /// It breaks a rule.
    #[error("{0}")]
    Rule(Rule),
    /// The port isn't ready, but in this state.
    #[error("the port isn't ready")]
    PortNotReady(PortState),
    /// The sectors leave the disk's.
    #[error("the sectors leave the disk's")]
    OutsideDisk,
    /// The disk doesn't promise zeros after a trim.
    #[error("the disk doesn't promise zeros after a trim")]
    TrimUnsupported,
    /// The client has 16 unanswered requests.
    #[error("the client has 16 unanswered requests")]
    ClientFull,
    /// All request numbers are spent.
    #[error("all request numbers are spent")]
    IdsSpent,
}

/// Why a client may not load from, or store into, a frame, in the order in which it is told.
#[derive(Clone, Copy, Debug, PartialEq, Eq, Error)]
pub enum MemFault {
    /// The client doesn't own the frame.
    #[error("the client doesn't own the frame")]
    FrameForeign,
    /// The frame is lent to a request.
    #[error("the frame is lent to a request")]
    FrameLent,
    /// The bytes leave the frame.
    #[error("the bytes leave the frame")]
    OutsideFrame,
}
