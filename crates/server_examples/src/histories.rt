//! Calls of a new server after which a history of it is proved to exist: each function makes its calls by
//! `Server::run`, compares what they said, and answers yes where that is what was to be shown. Its contract says what
//! is proved then; a test makes the server, and has it answer yes.
ghost use Rattle.std.specs.Prelude.{◌≡◌, IfSome, IsTrue, Ok, Err, true};
ghost use Rattle.ata_types.specs.declared.request.{Reply.{Reply}, RequestId.{RequestId}};
ghost use Rattle.server_examples.specs.ShownHistories.{SaidHasHistory, SaysFrameIsReleased, SaysServedAfterSecondService, SaysServedAtOnce, ReleasesFrame, ShownRunLaws, ServesRead, ServesReadAnew, StartsToldHistory};
ghost use Rattle.block_server.specs.ServerView.{server_of};

use adapter::{DeviceStep, FatalError, Stepped};
use arrayvec::ArrayVec;
use ata_types::{Call, ClientId, Frame, MemFault, Op, Outcome, Port, PortState, Request, Slot};
use block_machine::laws::{law_lent_frame_is_of_accepted_request, law_run_steps_are_enabled};
use block_server::laws::law_said_lists_are_unambiguous;
use block_server::{Event, Said, Server};
use driver_history::troubles::law_services_heed_shown_failures;
use machine_runs::laws::{
    law_accepted_was_asked, law_answers_are_lawful, law_book_issue_counts_match_history,
    law_ok_was_served, law_port_of_unanswered_is_ready_or_reset_stuck, law_replied_was_asked,
    law_sole_book_request_is_issued_if_ready, law_unanswered_was_there_or_just_asked,
};
use std::alloc::Global;

/// What laws say of runs.
fn law_shown_run_prerequisites()
    ensures { ShownRunLaws }
{
    law_run_steps_are_enabled::<DeviceStep>();
    law_lent_frame_is_of_accepted_request();
    law_accepted_was_asked::<DeviceStep>();
    law_replied_was_asked::<DeviceStep>();
    law_answers_are_lawful::<DeviceStep>();
    law_unanswered_was_there_or_just_asked::<DeviceStep>();
    law_ok_was_served::<DeviceStep>();
    law_sole_book_request_is_issued_if_ready::<DeviceStep>();
    law_book_issue_counts_match_history();
    law_port_of_unanswered_is_ready_or_reset_stuck::<DeviceStep>();
    law_services_heed_shown_failures();
    law_said_lists_are_unambiguous();
}

/// What calls of a new server say, one after another; `None` if memory for that is refused. It has the laws on runs.
fn calls<A: Stepped>(alloc: Global, server: &mut Server<A>, asked: &[Event]) -> Option<Vec<Said>>
    requires { StartsToldHistory A.device server.old }
    ensures has_run { IfSome result (λ said. SaidHasHistory A.device server.old server.new asked.now said.items) }
    ensures laws { ShownRunLaws }
{
    law_shown_run_prerequisites();
    let mut said = Vec::new(alloc);
    match server.run(asked, &mut said) {
        Ok(()) => Some(said),
        Err(_) => None,
    }
}

/// Whether the call asks for a read.
fn is_read(call: &Event) -> bool
    ensures { IsTrue result → (asked : Request) × (call.now ≡ Call.Submit asked) × (asked.op ≡ Op.Read) }
{
    matches!(call, Call::Submit(asked) if asked.op == Op::Read)
}

/// Whether the call accepted a request.
fn is_accepted(said: &Said) -> bool
    ensures { IsTrue result → (id : RequestId) × (said.now ≡ Said.Submitted (Ok id)) }
{
    matches!(said, Said::Submitted(Ok(_)))
}

/// Whether the call found a port absent.
fn is_absent(said: &Said) -> bool
    ensures { IsTrue result → said.now ≡ Said.State PortState.Absent }
{
    matches!(said, Said::State(PortState::Absent))
}

/// Whether the device did the step that was asked.
fn is_done(said: &Said) -> bool
    ensures { IsTrue result → said.now ≡ Said.Stepped true }
{
    matches!(said, Said::Stepped(true))
}

/// Whether the call was a service or a tick that answered nobody.
fn is_quiet(said: &Said) -> bool
    ensures { IsTrue result → said.now ≡ Said.Replied 0 }
{
    matches!(said, Said::Replied(0))
}

/// Whether a service or a tick answered one request, with this outcome.
fn is_answered(served: &Said, reply: &Said, outcome: Outcome) -> bool
    ensures { IsTrue result → (one : Reply) × (served.now ≡ Said.Replied 1) × (reply.now ≡ Said.Reply one)
        × (one.outcome ≡ outcome) }
{
    matches!(served, Said::Replied(1))
        && match reply {
            Said::Reply(one) => one.outcome == outcome,
            _ => false,
        }
}

/// Whether a store was refused since its frame is lent.
fn is_refused(said: &Said) -> bool
    ensures { IsTrue result → said.now ≡ Said.Stored (Err MemFault.FrameLent) }
{
    matches!(said, Said::Stored(Err(MemFault::FrameLent)))
}

/// Whether a store was done.
fn is_stored(said: &Said) -> bool
    ensures { IsTrue result → said.now ≡ Said.Stored (Ok tt) }
{
    matches!(said, Said::Stored(Ok(())))
}

/// Whether a reset ended, and answered nobody.
fn is_reset(said: &Said) -> bool
    ensures { IsTrue result → said.now ≡ Said.WasReset (Ok 0) }
{
    matches!(said, Said::WasReset(Ok(0)))
}

/// A read is accepted, its device does all of it, and a service answers it Ok.
pub fn serves_a_read<A: Stepped>(alloc: Global, server: &mut Server<A>, read: Request) -> bool
    requires { StartsToldHistory A.device server.old }
    ensures { IsTrue result → ServesRead (server_of A.device server.old) (server_of A.device server.new) read }
{
    let asked = [
        Call::Submit(read),
        Call::Device(DeviceStep::Finish(Port(0), Slot(0))),
        Call::Service,
    ];
    match calls(alloc, server, &asked) {
        Some(said) => is_read(&asked[0]) && is_served_at_once(&said),
        None => false,
    }
}

/// Whether a request was accepted, the device did the step, and then one request was answered Ok.
fn is_served_at_once(said: &[Said]) -> bool
    ensures { IsTrue result → SaysServedAtOnce said.now }
{
    match said {
        [first, done, served, reply] => {
            is_accepted(first) && is_done(done) && is_answered(served, reply, Outcome::Ok)
        }
        _ => false,
    }
}

/// A read is accepted, its port meets a fatal error of the interface, and a service boots the port anew. Then the
/// device does all of the read, which the next service answers Ok. (No other port is there.)
pub fn serves_a_read_anew<A: Stepped>(alloc: Global, server: &mut Server<A>, read: Request) -> bool
    requires { StartsToldHistory A.device server.old }
    ensures { IsTrue result → ServesReadAnew (server_of A.device server.old) (server_of A.device server.new) read }
{
    let asked = [
        Call::Submit(read),
        Call::State(Port(1)),
        Call::State(Port(2)),
        Call::State(Port(3)),
        Call::Device(DeviceStep::Fatal(Port(0), FatalError::Interface)),
        Call::Service,
        Call::Device(DeviceStep::Finish(Port(0), Slot(0))),
        Call::Service,
    ];
    match calls(alloc, server, &asked) {
        Some(said) => is_read(&asked[0]) && is_served_anew(&said),
        None => false,
    }
}

/// Whether a request was accepted, and three other ports are absent.
fn is_alone(first: &Said, one: &Said, two: &Said, three: &Said) -> bool
    ensures { IsTrue result → (id : RequestId) × (first.now ≡ Said.Submitted (Ok id))
        × (one.now ≡ Said.State PortState.Absent) × (two.now ≡ Said.State PortState.Absent)
        × (three.now ≡ Said.State PortState.Absent) }
{
    is_accepted(first) && is_absent(one) && is_absent(two) && is_absent(three)
}

/// Whether the device did something, and so once more after a service that answered nobody, and the next service
/// answered one request, with Ok.
fn is_mended(failed: &Said, quiet: &Said, done: &Said, served: &Said, reply: &Said) -> bool
    ensures { IsTrue result → (one : Reply) × (one.outcome ≡ Outcome.Ok) × (failed.now ≡ Said.Stepped true)
        × (quiet.now ≡ Said.Replied 0) × (done.now ≡ Said.Stepped true) × (served.now ≡ Said.Replied 1)
        × (reply.now ≡ Said.Reply one) }
{
    is_done(failed) && is_quiet(quiet) && is_done(done) && is_answered(served, reply, Outcome::Ok)
}

/// Whether all that was said in turn.
fn is_served_anew(said: &[Said]) -> bool
    ensures { IsTrue result → SaysServedAfterSecondService said.now }
{
    match said {
        [first, one, two, three, failed, quiet, done, served, reply] => {
            is_alone(first, one, two, three) && is_mended(failed, quiet, done, served, reply)
        }
        _ => false,
    }
}

/// The port of a request doesn't stop, so that the request is told `PortDead`, and its first frame stays lent until a
/// reset ends. (The client stores no bytes into it, which tells whether it is lent.)
pub fn releases_a_frame<A: Stepped>(
    alloc: Global,
    server: &mut Server<A>,
    request: Request,
    client: ClientId,
    frame: Frame,
) -> bool
    requires { StartsToldHistory A.device server.old }
    ensures { IsTrue result → ReleasesFrame (server_of A.device server.old) (server_of A.device server.new) request
        frame }
{
    let asked = [
        Call::Device(DeviceStep::Hold(Port(0))),
        Call::Device(DeviceStep::Fatal(Port(0), FatalError::HostBus)),
        Call::Submit(request),
        Call::Service,
        Call::ClientStore {
            client,
            frame,
            offset: 0,
            bytes: ArrayVec::new(),
        },
        Call::Reset,
        Call::ClientStore {
            client,
            frame,
            offset: 0,
            bytes: ArrayVec::new(),
        },
    ];
    match calls(alloc, server, &asked) {
        Some(said) => is_released(&said),
        None => false,
    }
}

/// Whether the device did two things, and then a request was accepted and answered `PortDead`.
fn is_stuck(held: &Said, failed: &Said, accepted: &Said, served: &Said, reply: &Said) -> bool
    ensures { IsTrue result → (id : RequestId) × (one : Reply) × (one.outcome ≡ Outcome.PortDead)
        × (held.now ≡ Said.Stepped true) × (failed.now ≡ Said.Stepped true)
        × (accepted.now ≡ Said.Submitted (Ok id)) × (served.now ≡ Said.Replied 1) × (reply.now ≡ Said.Reply one) }
{
    is_done(held)
        && is_done(failed)
        && is_accepted(accepted)
        && is_answered(served, reply, Outcome::PortDead)
}

/// Whether a store into a lent frame was done only after a reset.
fn is_freed(refused: &Said, reset: &Said, stored: &Said) -> bool
    ensures { IsTrue result → (refused.now ≡ Said.Stored (Err MemFault.FrameLent)) × (reset.now ≡ Said.WasReset (Ok 0))
        × (stored.now ≡ Said.Stored (Ok tt)) }
{
    is_refused(refused) && is_reset(reset) && is_stored(stored)
}

/// Whether all that was said in turn.
fn is_released(said: &[Said]) -> bool
    ensures { IsTrue result → SaysFrameIsReleased said.now }
{
    match said {
        [
            held,
            failed,
            accepted,
            served,
            reply,
            refused,
            reset,
            stored,
        ] => { is_stuck(held, failed, accepted, served, reply) && is_freed(refused, reset, stored) }
        _ => false,
    }
}
