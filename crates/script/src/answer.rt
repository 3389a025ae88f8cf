// The lines that answer a script.
ghost use Rattle.std.specs.{Prelude.{◌≡◌, ◌≤◌, ◌+◌, ◌++◌, Some, OnOk, decimal, length}, Io.KnownBytes.{Appends}, List.{flat_map, join_with_byte}};
ghost use Rattle.hex.specs.Hex.{encode_lower};
ghost use Rattle.block_machine.specs.Rules.{refusal_rank};
ghost use Rattle.script.specs.Answer.{answer_line, answer_text, frame_fault_words, moved_word, mem_fault_word, outcome_words, refusal_words, rule_words, state_words};

use adapter::{Clear, Done, Move, Operation};
use arrayvec::ArrayVec;
use ata_types::{
    FrameFault, MOST_CALL_BYTES, MemFault, Outcome, PortState, Refusal, Reply, RequestId, Rule,
};
use std::{fmt, io};

/// One line that is printed.
#[derive(Clone, Copy)]
pub enum Answer<'a> {
    /// The request is accepted, and will be answered by this id.
    Accepted(RequestId),
    /// The request is refused.
    Refused(Refusal),
    /// The bytes were stored.
    Stored,
    /// The client may not load or store there.
    AccessRefused(MemFault),
    /// The bytes that were loaded. More than `MOST_CALL_BYTES` can't be printed.
    Bytes(&'a [u8]),
    /// A request has ended.
    Replied(Reply),
    /// No request has ended.
    Quiet,
    /// The adapter was reset, or a grant was revoked.
    Done,
    /// The adapter didn't end its reset.
    AdapterStuck,
    /// The state of a port.
    State(PortState),
    /// Whether the device did its step.
    Stepped(bool),
    /// 512 bytes were moved.
    Moved(&'a Move),
    /// Sectors were made zero.
    Cleared(Clear),
    /// A flush has ended.
    Flushed(Done),
}

/// At most `MOST_CALL_BYTES` bytes, each as two lower-case hexadecimal digits.
#[derive(Clone, Copy)]
struct Hex<'a>(&'a [u8]);

impl fmt::Display for Hex<'_> {
    ghost output = { λ h. Some (encode_lower h.0.now) };

    fn fmt<W: fmt::Write>(&self, f: &mut fmt::Formatter<W>) -> fmt::Result {
        let mut digits = [0u8; 2 * MOST_CALL_BYTES];
        let digits = digits.get_mut(..2 * self.0.len()).ok_or(fmt::Error)?;
        hex::encode_to_slice(self.0, digits).ok().ok_or(fmt::Error)?;
        let text = str::from_utf8(digits).ok().ok_or(fmt::Error)?;
        write!(f, "{text}")
    }
}

/// A port's state, with the cause for which it is unfit.
#[derive(Clone, Copy)]
struct State(PortState);

impl fmt::Display for State {
    ghost output = { λ s. Some (join_with_byte 32 (state_words s.0)) };

    fn fmt<W: fmt::Write>(&self, f: &mut fmt::Formatter<W>) -> fmt::Result {
        match self.0 {
            PortState::Absent => write!(f, "Absent"),
            PortState::Ready => write!(f, "Ready"),
            PortState::Foreign => write!(f, "Foreign"),
            PortState::Unfit(cause) => write!(f, "Unfit {cause}"),
            PortState::Dead => write!(f, "Dead"),
        }
    }
}

/// How a request ended, with the two bytes of a device's error.
#[derive(Clone, Copy)]
struct Ended(Outcome);

impl fmt::Display for Ended {
    ghost output = { λ e. Some (join_with_byte 32 (outcome_words e.0)) };

    fn fmt<W: fmt::Write>(&self, f: &mut fmt::Formatter<W>) -> fmt::Result {
        match self.0 {
            Outcome::Ok => write!(f, "Ok"),
            Outcome::DeviceError { status, error } => {
                let status = [status];
                let error = [error];
                write!(f, "DeviceError {} {}", Hex(&status), Hex(&error))
            }
            Outcome::Aborted => write!(f, "Aborted"),
            Outcome::Unplugged => write!(f, "Unplugged"),
            Outcome::PortDead => write!(f, "PortDead"),
            Outcome::Revoked => write!(f, "Revoked"),
        }
    }
}

/// A fault of frames, with the place of the frame.
#[derive(Clone, Copy)]
struct Faulty(FrameFault);

impl fmt::Display for Faulty {
    ghost output = { λ x. Some (join_with_byte 32 (frame_fault_words x.0)) };

    fn fmt<W: fmt::Write>(&self, f: &mut fmt::Formatter<W>) -> fmt::Result {
        match self.0 {
            FrameFault::FrameForeign(place) => write!(f, "FrameForeign {place}"),
            FrameFault::FrameTwice(place) => write!(f, "FrameTwice {place}"),
            FrameFault::FrameLent(place) => write!(f, "FrameLent {place}"),
        }
    }
}

/// A rule that is broken.
#[derive(Clone, Copy)]
struct Broken(Rule);

impl fmt::Display for Broken {
    ghost output = { λ b. Some (join_with_byte 32 (rule_words b.0)) };

    fn fmt<W: fmt::Write>(&self, f: &mut fmt::Formatter<W>) -> fmt::Result {
        match self.0 {
            Rule::NoGrant => write!(f, "NoGrant"),
            Rule::NoRight => write!(f, "NoRight"),
            Rule::BadCount => write!(f, "BadCount"),
            Rule::OutsideGrant => write!(f, "OutsideGrant"),
            Rule::FrameCount => write!(f, "FrameCount"),
            Rule::Frames(fault) => write!(f, "{}", Faulty(fault)),
        }
    }
}

/// A refusal's name, with its place or state.
#[derive(Clone, Copy)]
struct Named(Refusal);

impl fmt::Display for Named {
    ghost output = { λ n. Some (join_with_byte 32 (refusal_words n.0)) };

    fn fmt<W: fmt::Write>(&self, f: &mut fmt::Formatter<W>) -> fmt::Result {
        match self.0 {
            Refusal::Rule(rule) => write!(f, "{}", Broken(rule)),
            Refusal::PortNotReady(state) => write!(f, "PortNotReady {}", State(state)),
            Refusal::OutsideDisk => write!(f, "OutsideDisk"),
            Refusal::TrimUnsupported => write!(f, "TrimUnsupported"),
            Refusal::ClientFull => write!(f, "ClientFull"),
            Refusal::IdsSpent => write!(f, "IdsSpent"),
        }
    }
}

/// Returns the number of a refusal, 1 to 13. If several apply, the server answers with the one of the least number.
pub fn refusal_number(refusal: Refusal) -> u8
    ensures { result ≡ (refusal_rank refusal).0 }
{
    match refusal {
        Refusal::Rule(Rule::NoGrant) => 1,
        Refusal::Rule(Rule::NoRight) => 2,
        Refusal::Rule(Rule::BadCount) => 3,
        Refusal::Rule(Rule::OutsideGrant) => 4,
        Refusal::Rule(Rule::FrameCount) => 5,
        Refusal::Rule(Rule::Frames(FrameFault::FrameForeign(_))) => 6,
        Refusal::Rule(Rule::Frames(FrameFault::FrameTwice(_))) => 7,
        Refusal::Rule(Rule::Frames(FrameFault::FrameLent(_))) => 8,
        Refusal::PortNotReady(_) => 9,
        Refusal::OutsideDisk => 10,
        Refusal::TrimUnsupported => 11,
        Refusal::ClientFull => 12,
        Refusal::IdsSpent => 13,
    }
}

/// The word for a fault of a client's load or store.
fn fault_name(fault: MemFault) -> &'static str
    ensures { result.now ≡ mem_fault_word fault }
{
    match fault {
        MemFault::FrameForeign => "FrameForeign",
        MemFault::FrameLent => "FrameLent",
        MemFault::OutsideFrame => "OutsideFrame",
    }
}

/// The word for what a command moves.
fn kind_name(operation: Operation) -> &'static str
    ensures { result.now ≡ moved_word operation }
{
    match operation {
        Operation::Identify => "identify",
        Operation::Read | Operation::ReadQueued => "read",
        Operation::Write | Operation::WriteQueued => "write",
        Operation::Flush => "flush",
        Operation::Trim => "block",
        Operation::ReadLog => "log",
    }
}

impl fmt::Display for Answer<'_> {
    ghost output = { λ a. Some (answer_text a) };

    fn fmt<W: fmt::Write>(&self, f: &mut fmt::Formatter<W>) -> fmt::Result {
        match *self {
            Answer::Accepted(id) => write!(f, "ok {}", id.0),
            Answer::Refused(refusal) => write!(
                f,
                "refused {} {}",
                refusal_number(refusal),
                Named(refusal)
            ),
            Answer::Stored => write!(f, "stored"),
            Answer::AccessRefused(fault) => write!(f, "refused {}", fault_name(fault)),
            Answer::Bytes(bytes) => write!(f, "bytes {}", Hex(bytes)),
            Answer::Replied(reply) => write!(f, "reply {} {}", reply.id.0, Ended(reply.outcome)),
            Answer::Quiet => write!(f, "quiet"),
            Answer::Done => write!(f, "done"),
            Answer::AdapterStuck => write!(f, "stuck"),
            Answer::State(state) => write!(f, "state {}", State(state)),
            Answer::Stepped(true) => write!(f, "did"),
            Answer::Stepped(false) => write!(f, "no"),
            Answer::Moved(moved) => {
                let address = moved.address.to_be_bytes();
                let kind = kind_name(moved.operation);
                write!(
                    f,
                    "move {} {} {kind} {} {}",
                    moved.port.0,
                    moved.slot.0,
                    moved.sector,
                    Hex(&address)
                )
            }
            Answer::Cleared(clear) => {
                write!(
                    f,
                    "clear {} {} {} {}",
                    clear.port.0, clear.slot.0, clear.first, clear.count
                )
            }
            Answer::Flushed(done) => write!(f, "flush {} {}", done.port.0, done.slot.0),
        }
    }
}

/// Room for a short line: two texts, and a number of 20 digits at most.
const SHORT_LINE: usize = 64;

/// Writes a number between two texts, all at once.
fn write_numbered<W: io::Write>(
    out: &mut W,
    before: &[u8],
    number: u64,
    after: &[u8],
) -> io::Result<()>
    requires { length before.now + length after.now ≤ 20 }
    ensures { OnOk result (Appends (W.contents out.old) (W.contents out.new)
        (before.now ++ decimal number ++ after.now)) }
{
    let mut digits = itoa::Buffer::new();
    let mut line: ArrayVec<u8, SHORT_LINE> = ArrayVec::new();
    line.try_extend_from_slice(before).unwrap();
    line.try_extend_from_slice(digits.format(number).as_bytes())
        .unwrap();
    line.try_extend_from_slice(after).unwrap();
    out.write_all(line.as_slice())
}

impl Answer<'_> {
    /// Prints the line, with its line feed. The usual ones are written straight, since a formatter costs more than all
    /// that is written.
    pub fn print<W: io::Write>(&self, out: &mut W) -> io::Result<()>
        ensures { OnOk result (Appends (W.contents out.old) (W.contents out.new) (answer_line self.now)) }
    {
        match *self {
            Answer::Accepted(id) => write_numbered(out, b"ok ", id.0, b"\n"),
            Answer::Replied(
                Reply {
                    id,
                    outcome: Outcome::Ok,
                    ..
                },
            ) => write_numbered(out, b"reply ", id.0, b" Ok\n"),
            Answer::Quiet => out.write_all(b"quiet\n"),
            Answer::Stepped(true) => out.write_all(b"did\n"),
            Answer::State(PortState::Ready) => out.write_all(b"state Ready\n"),
            _ => self.print_formatted(out),
        }
    }

    /// Prints any line so by a formatter. It is entered for the others alone, since its frame has room for what they
    /// write, which is cleared at each entry.
    #[inline(never)]
    fn print_formatted<W: io::Write>(&self, out: &mut W) -> io::Result<()>
        ensures { OnOk result (Appends (W.contents out.old) (W.contents out.new) (answer_line self.now)) }
    {
        writeln!(out, "{self}")
    }
}
