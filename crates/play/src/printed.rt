// What is printed of a call.
ghost use Rattle.std.specs.{Prelude.{◌≡◌, ◌≢◌, ◌≤◌, ℕ, IfErr, OnOk, length, take}, Io.KnownBytes.{Appends}, declared.io.ErrorKind.TheVariants.{Interrupted}, List.{flat_map}};
ghost use Rattle.play.specs.PrintedText.{call_text, line_of_ended_flush_else_empty, entries_text, said_text, trace_text};
ghost use Rattle.script.specs.Answer.{answer_line};

use adapter::{Done, Entry, Operation};
use ata_types::{Refusal, Rule};
use block_server::Said;
use script::Answer;
use std::io;
use thiserror::Error;

/// The output failed.
#[derive(Clone, Copy, Debug, PartialEq, Eq, Error)]
#[error("the output can't be written: {kind}")]
pub struct Unwritten {
    /// How it failed: the error of the write, or `WriteZero` if a write took nothing.
    pub kind: io::ErrorKind,
}

impl Unwritten {
    /// A failure of this kind.
    fn of(kind: io::ErrorKind) -> Unwritten
        ensures { result.kind ≡ kind }
    {
        Unwritten { kind }
    }
}

/// Prints the line of one thing that was said. `Replied` has one only if nobody was answered: each reply has its own.
fn print_one<W: io::Write>(out: &mut W, said: &Said) -> io::Result<()>
    ensures { OnOk result (Appends (W.contents out.old) (W.contents out.new) (said_text said.now)) }
{
    match said {
        Said::Submitted(Ok(id)) => Answer::Accepted(*id).print(out),
        Said::Submitted(Err(refusal)) => Answer::Refused(*refusal).print(out),
        Said::Stored(Ok(())) => Answer::Stored.print(out),
        Said::Loaded(Ok(bytes)) => Answer::Bytes(bytes.as_slice()).print(out),
        Said::Stored(Err(fault)) | Said::Loaded(Err(fault)) => {
            Answer::AccessRefused(*fault).print(out)
        }
        Said::Replied(0) => Answer::Quiet.print(out),
        Said::Replied(_) => Ok(()),
        Said::WasReset(Ok(_)) | Said::WasRevoked(Ok(_)) => Answer::Done.print(out),
        Said::WasReset(Err(_)) => Answer::AdapterStuck.print(out),
        Said::WasRevoked(Err(_)) => Answer::Refused(Refusal::Rule(Rule::NoGrant)).print(out),
        Said::State(state) => Answer::State(*state).print(out),
        Said::Stepped(did) => Answer::Stepped(*did).print(out),
        Said::Reply(reply) => Answer::Replied(*reply).print(out),
    }
}

/// Prints what a call said.
fn print_said<W: io::Write>(out: &mut W, said: &[Said]) -> io::Result<()>
    ensures { OnOk result (Appends (W.contents out.old) (W.contents out.new) (flat_map said_text said.now)) }
{
    for one in said {
        print_one(out, one)?;
    }
    Ok(())
}

/// Prints a line for a command that has ended, if it was a flush.
fn print_end<W: io::Write>(out: &mut W, done: Done) -> io::Result<()>
    ensures { OnOk result (Appends (W.contents out.old) (W.contents out.new) (line_of_ended_flush_else_empty
        done.operation done)) }
{
    match done.operation {
        Operation::Flush => Answer::Flushed(done).print(out),
        _ => Ok(()),
    }
}

/// Prints a line for each move, each clear, and each flush that has ended, in their order.
fn print_entries<W: io::Write>(out: &mut W, gained: &[Entry]) -> io::Result<()>
    ensures { OnOk result (Appends (W.contents out.old) (W.contents out.new) (entries_text gained.now)) }
{
    for entry in gained {
        match entry {
            Entry::Move(moved) => Answer::Moved(moved).print(out)?,
            Entry::Clear(cleared) => Answer::Cleared(*cleared).print(out)?,
            Entry::Done(done) => print_end(out, *done)?,
            Entry::Fault(_) | Entry::Fatal(_) | Entry::Unplug(_) | Entry::Plug(..) => {}
        }
    }
    Ok(())
}

/// With a trace, prints the entries that a tape has past this number of them.
fn print_trace<W: io::Write>(
    out: &mut W,
    trace: bool,
    tape: &[Entry],
    shown: usize,
) -> io::Result<()>
    ensures { OnOk result (Appends (W.contents out.old) (W.contents out.new) (trace_text trace shown tape.now)) }
{
    if !trace {
        return Ok(());
    }
    print_entries(out, tape.get(shown..).unwrap_or_default())
}

/// Puts what is printed of a call into `text`, in place of what it had. With a trace these are the entries of the tape
/// past this number, and then what the call said. It fails only if memory is refused.
pub fn set_call_text(
    text: &mut Vec<u8>,
    trace: bool,
    tape: &[Entry],
    shown: usize,
    said: &[Said],
) -> io::Result<()>
    ensures { OnOk result (text.new.items ≡ call_text trace shown tape.now said.now) }
{
    text.clear();
    print_trace(text, trace, tape, shown)?;
    print_said(text, said)
}

/// Writes bytes. If the output fails, it has taken a beginning of them, which may be empty. A write that a signal
/// interrupts is made again, and counts as no failure.
pub fn write_out<W: io::Write>(out: &mut W, bytes: &[u8]) -> Result<(), Unwritten>
    ensures written { (part : ℕ) × Appends (W.contents out.old) (W.contents out.new) (take part bytes.now)
        × OnOk result (length bytes.now ≤ part) }
    ensures failed { IfErr result (λ unwritten. unwritten.kind ≢ Interrupted) }
{
    let mut written = 0;
    for _turn in 0..u64::MAX {
        if written == bytes.len() {
            return Ok(());
        }
        match out.write(&bytes[written..]) {
            Ok(0) => return Err(Unwritten::of(io::ErrorKind::WriteZero)),
            Ok(count) => written += count,
            Err(error) if error.kind() == io::ErrorKind::Interrupted => {}
            Err(error) => return Err(Unwritten::of(error.kind())),
        }
    }
    // No run is interrupted this often.
    Err(Unwritten::of(io::ErrorKind::TimedOut))
}
