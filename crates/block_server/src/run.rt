// Events from a list.
ghost use Rattle.std.specs.{Prelude.{◌≡◌, ◌<◌, ◌≤◌, ◌+◌, Ok, IfErr, IfOk, IsOk, OnOk, Err, length, take, min, vec_len}, Vec.{vec_capacity}};
ghost use Rattle.block_server.specs.Said.{SaysResult, most_said_of, most_said_of_all};

use crate::laws::law_calls_that_extend_history_keep_promise;
use crate::said::{MOST_SAID, most_said, say_with_replies};
use crate::{Event, RunStopped, Said, Server};
use adapter::{Adapter, Stepped};
use arrayvec::ArrayVec;
use ata_types::{Call, ClientId, Frame, MOST_CALL_BYTES, MemFault, Replies};

impl<A: Adapter> Server<A> {
    ghost use Rattle.block_machine.specs.Events.{LoadAt, Loaded, Reset, RevokeOf, Service, Tick};
    ghost use Rattle.block_server.specs.{Costs.{MOST_RESET_ACCESSES, MOST_REVOKE_ACCESSES, MOST_SERVICE_ACCESSES, MOST_TICK_ACCESSES}, ServerView.{server_of}};
    ghost use Rattle.server_history.specs.Histories.{ExtendsHistory};
    ghost use Rattle.adapter.specs.AccessBounds.{MakesAtMost};

    /// At most `MOST_CALL_BYTES` of a frame. A function of its own, since its caller would have room for them on its
    /// stack otherwise.
    #[inline(never)]
    fn load_few(
        &mut self,
        client: ClientId,
        frame: Frame,
        offset: u32,
        count: u32,
    ) -> Result<ArrayVec<u8, MOST_CALL_BYTES>, MemFault>
        ensures loaded { IfOk result (λ bytes. ExtendsHistory (server_of A.device self.old)
            (server_of A.device self.new) (LoadAt client frame offset (min count MOST_CALL_BYTES))
            (Loaded (Ok bytes.items))) }
        ensures refused { IfErr result (λ fault. ExtendsHistory (server_of A.device self.old)
            (server_of A.device self.new) (LoadAt client frame offset (min count MOST_CALL_BYTES))
            (Loaded (Err fault))) }
        ensures wanted_is_unchanged { self.new.wanted ≡ self.old.wanted }
        ensures cost { MakesAtMost 1 (A.access_count self.old.adapter) (A.access_count self.new.adapter) }
    {
        let mut buffer = [0; MOST_CALL_BYTES];
        let part = &mut buffer[..(count as usize).min(MOST_CALL_BYTES)];
        self.client_load(client, frame, offset, part)?;
        let mut bytes = ArrayVec::new();
        bytes.try_extend_from_slice(part).unwrap();
        Ok(bytes)
    }

    /// Does a service, and says what it answered. (This function and the next three are functions of their own, since
    /// their caller would have room for all replies on its stack otherwise.)
    #[inline(never)]
    fn say_service(&mut self, out: &mut Vec<Said>)
        requires { vec_len out.old + MOST_SAID ≤ vec_capacity out.old }
        ensures says { SaysResult (server_of A.device self.old) (server_of A.device self.new) Service out.old.items
            out.new.items }
        ensures wanted_is_unchanged { self.new.wanted ≡ self.old.wanted }
        ensures len { vec_len out.new ≤ vec_len out.old + MOST_SAID }
        ensures capacity { vec_capacity out.new ≡ vec_capacity out.old }
        ensures cost { MakesAtMost MOST_SERVICE_ACCESSES (A.access_count self.old.adapter)
            (A.access_count self.new.adapter) }
    {
        let mut replies = Replies::new();
        self.service_into(&mut replies);
        say_with_replies(out, Said::Replied(replies.len()), replies.as_slice());
    }

    /// Does a tick, and says what it answered.
    #[inline(never)]
    fn say_tick(&mut self, out: &mut Vec<Said>)
        requires { vec_len out.old + MOST_SAID ≤ vec_capacity out.old }
        ensures says { SaysResult (server_of A.device self.old) (server_of A.device self.new) Tick out.old.items
            out.new.items }
        ensures wanted_is_unchanged { self.new.wanted ≡ self.old.wanted }
        ensures len { vec_len out.new ≤ vec_len out.old + MOST_SAID }
        ensures capacity { vec_capacity out.new ≡ vec_capacity out.old }
        ensures cost { MakesAtMost MOST_TICK_ACCESSES (A.access_count self.old.adapter)
            (A.access_count self.new.adapter) }
    {
        let mut replies = Replies::new();
        self.tick_into(&mut replies);
        say_with_replies(out, Said::Replied(replies.len()), replies.as_slice());
    }

    /// Does a reset, and says what it answered, or that the adapter got stuck.
    #[inline(never)]
    fn say_reset(&mut self, out: &mut Vec<Said>)
        requires { vec_len out.old + MOST_SAID ≤ vec_capacity out.old }
        ensures says { SaysResult (server_of A.device self.old) (server_of A.device self.new) Reset out.old.items
            out.new.items }
        ensures wanted_is_unchanged { self.new.wanted ≡ self.old.wanted }
        ensures len { vec_len out.new ≤ vec_len out.old + MOST_SAID }
        ensures capacity { vec_capacity out.new ≡ vec_capacity out.old }
        ensures cost { MakesAtMost MOST_RESET_ACCESSES (A.access_count self.old.adapter)
            (A.access_count self.new.adapter) }
    {
        let mut replies = Replies::new();
        match self.reset_into(&mut replies) {
            Ok(()) => {
                say_with_replies(out, Said::WasReset(Ok(replies.len())), replies.as_slice());
            }
            Err(stuck) => out.push_reserved(Said::WasReset(Err(stuck))),
        }
    }

    /// Revokes the client's grant of this number, and says what that answered, or that there is no such grant.
    #[inline(never)]
    fn say_revocation(&mut self, client: ClientId, number: u8, out: &mut Vec<Said>)
        requires { vec_len out.old + MOST_SAID ≤ vec_capacity out.old }
        ensures says { SaysResult (server_of A.device self.old) (server_of A.device self.new) (RevokeOf client number)
            out.old.items out.new.items }
        ensures wanted_is_unchanged { self.new.wanted ≡ self.old.wanted }
        ensures len { vec_len out.new ≤ vec_len out.old + MOST_SAID }
        ensures capacity { vec_capacity out.new ≡ vec_capacity out.old }
        ensures cost { MakesAtMost MOST_REVOKE_ACCESSES (A.access_count self.old.adapter)
            (A.access_count self.new.adapter) }
    {
        let mut replies = Replies::new();
        match self.revoke_into(client, number, &mut replies) {
            Ok(()) => {
                say_with_replies(out, Said::WasRevoked(Ok(replies.len())), replies.as_slice());
            }
            Err(none) => out.push_reserved(Said::WasRevoked(Err(none))),
        }
    }
}

impl<A: Stepped> Server<A> {
    ghost use Rattle.block_server.specs.{Promise.{RunsAsPromised}, AbstractCalls.{abstract_call_of}, ServerView.{server_of}, Costs.{most_accesses_of, most_accesses_of_all}};
    ghost use Rattle.adapter.specs.AccessBounds.{MakesAtMost};

    /// Does what the event asks, and says what it says at the end of `out`, which has room for that.
    fn say_event(&mut self, event: &Event, out: &mut Vec<Said>)
        requires { vec_len out.old + most_said_of event.now ≤ vec_capacity out.old }
        ensures says { SaysResult (server_of A.device self.old) (server_of A.device self.new)
            (abstract_call_of event.now) out.old.items out.new.items }
        ensures wanted_is_unchanged { self.new.wanted ≡ self.old.wanted }
        ensures len { vec_len out.new ≤ vec_len out.old + most_said_of event.now }
        ensures capacity { vec_capacity out.new ≡ vec_capacity out.old }
        ensures cost { MakesAtMost (most_accesses_of event.now)
            (A.access_count self.old.adapter) (A.access_count self.new.adapter) }
    {
        match event {
            Call::Submit(request) => {
                let result = self.submit(request);
                out.push_reserved(Said::Submitted(result));
            }
            Call::ClientStore {
                client,
                frame,
                offset,
                bytes,
            } => {
                let result = self.client_store(*client, *frame, *offset, bytes.as_slice());
                out.push_reserved(Said::Stored(result));
            }
            Call::ClientLoad {
                client,
                frame,
                offset,
                length,
            } => {
                let result = self.load_few(*client, *frame, *offset, *length);
                out.push_reserved(Said::Loaded(result));
            }
            Call::Service => self.say_service(out),
            Call::Tick => self.say_tick(out),
            Call::Reset => self.say_reset(out),
            Call::Revoke { client, number } => self.say_revocation(*client, *number, out),
            Call::State(port) => out.push_reserved(Said::State(self.state(*port))),
            Call::Device(step) => out.push_reserved(Said::Stepped(self.device(step))),
        }
    }

    /// Does what the events ask, in their order, and puts what they say at the end of `out`. A load is of
    /// `MOST_CALL_BYTES` at most.
    ///
    /// Before each event it makes room in `out` for the most that the event can say. If memory for that is refused, it
    /// returns `RunStopped`: the events before `at` were done, and the event `at` wasn't begun. `out` keeps the room
    /// that it had. No other memory is taken.
    pub fn run(&mut self, events: &[Event], out: &mut Vec<Said>) -> Result<(), RunStopped>
        ensures done { OnOk result (RunsAsPromised A.device self.old self.new events.now out.old.items
            out.new.items) }
        ensures stopped { IfErr result (λ e. e.at < length events.now) }
        ensures never_stops_with_room { vec_len out.old + most_said_of_all events.now ≤ vec_capacity out.old
            → IsOk result }
        ensures events_before_stop_are_run { IfErr result
            (λ e. RunsAsPromised A.device self.old self.new (take e.at events.now) out.old.items out.new.items) }
        ensures capacity_does_not_shrink { vec_capacity out.old ≤ vec_capacity out.new }
        ensures cost { MakesAtMost (most_accesses_of_all events.now)
            (A.access_count self.old.adapter) (A.access_count self.new.adapter) }
    {
        law_calls_that_extend_history_keep_promise::<A>();
        for (at, event) in events.iter().enumerate() {
            if out.reserve(most_said(event)).is_err() {
                return Err(RunStopped { at });
            }
            self.say_event(event, out);
        }
        Ok(())
    }
}
