// The server.
ghost use Rattle.std.specs.Prelude.{[], ◌≡◌, false, ◌<◌, ◌+◌, ◌↔◌, IsTrue, IfOk, IfErr, OnOk, Ok, true};

mod client_bytes;
mod revoking;

use crate::ServerError;
use crate::by_port::{
    destroy_quarantines, empty_quarantines, into_quarantines, overdue_ports, ready_ports,
    unserved_ports, wanted_disks,
};
use crate::limits::exceeds_disk;
use crate::resetting::{
    give_all_back, issue_due_on_ports, note_stuck_reset, replace_probe_results_and_free_slots,
    resolve_ports,
};
use adapter::{Adapter, DeviceStep, Stepped};
use ata_types::{
    AdapterStuck, MOST_UNANSWERED_OF_A_CLIENT, MOST_UNANSWERED_OF_ALL_CLIENTS, Op, PORTS, Port,
    PortState, Range, Refusal, Replies, Request, RequestId,
};
use block_machine::laws::law_due_of_port_is_exact;
use configuration::{Config, Plan};
use dma_frames::FrameTable;
use grants::{Grants, decide};
use host_boot::{ProbeResult, reset, take_over};
use identify::DiskInfo;
use port_driver::{ServedPort, Shared};
use request_queue::laws::law_book_stays_well_formed;
use request_queue::{Book, PendingRequest};
use server_history::laws::{
    law_acceptances_extend_history, law_aging_keeps_invariant, law_device_steps_extend_history,
    law_new_server_starts_history, law_refusals_extend_history, law_requests_preserve_invariant,
    law_services_extend_history, law_ticks_extend_history,
};
use server_history::resets::{law_ended_resets_extend_history, law_reset_leads_to_none_due};
use server_history::stuck_server::{
    law_calls_that_end_stuck_extend_history, law_in_call_gives_server_invariant,
    law_quarantined_loans_are_lent, law_stuck_servers_admit_none,
};
use std::alloc::Global;
use std::marker::Model;

/// A server for reads, writes, trims and flushes on up to four ports of an adapter.
///
/// It can't be dropped, because it holds loans of clients' frames. `close` ends it.
pub struct Server<A: Adapter> {
    adapter: A,
    grants: Grants,
    shared: Shared,
    ports: [ServedPort; PORTS],
    /// The last id that was given to a request, or 0.
    last: u64,
    /// Whether the last reset got stuck. If so, the adapter isn't on, each served port is dead, and the next service
    /// has to answer the requests that are left.
    stuck: bool,
}

impl<A: Adapter> Model for Server<A> {
    ghost use Rattle.block_server.specs.{ServerFieldsView.{server_view_of}, ServerView.{ServerView, server_of}};
    ghost use Rattle.server_history.specs.Histories.{InvariantBetweenCalls};

    ghost Value = { ServerView A };

    ghost view = { server_view_of };

    ghost invariant = { λ s. InvariantBetweenCalls s.stuck (server_of A.device (server_view_of s)) };
}

impl<A: Adapter> Server<A> {
    ghost use Rattle.block_machine.specs.{Events.{Reset, Service, Replied, Submit, Submitted, State, PortStateShown, Tick, WasReset}, Refusals.{IsAcceptable, IsFirstRefusal}};
    ghost use Rattle.block_server.specs.{Calls.{AcceptsRequest, IsRequestForPort, Submits, Services, TicksServer}, InitialServer.{IsReadyFor, IsInitialServer, IsLeastFaultOrSoundAndNoMemory}, ServerView.{server_of}, Resetting.{ResetsOrGetsStuck, reset_result}, Costs.{MOST_NEW_ACCESSES, MOST_RESET_ACCESSES, MOST_SERVICE_ACCESSES, MOST_SUBMIT_ACCESSES, MOST_TICK_ACCESSES}};
    ghost use Rattle.configuration.specs.Rules.{LacksEveryFault};
    ghost use Rattle.host_boot.specs.TakeOver.{probe_result_of};
    ghost use Rattle.server_history.specs.{Histories.{ExtendsHistory}, ServerState.{last_disk_of, remembered_at, admission_context, state_of, last_sectors_of, zeroes_after_trim_of}};
    ghost use Rattle.ata_types.specs.declared.PortState.TheVariants.{Ready};
    ghost use Rattle.adapter.specs.AccessBounds.{MakesAtMost};

    /// Makes a server of an idle adapter, and boots each port that the configuration names. The configuration also says
    /// which client owns which frames, and which grants there are.
    ///
    /// The adapter has to be idle: no reset is pending, the engines of all ports stand (ST, CR, FRE, FR, PxCI and
    /// PxSACT are 0), and its memory has the size that the configuration names. `Config::check` finds every fault of a
    /// configuration.
    ///
    /// # Errors
    ///
    /// - `BadConfig`: the configuration breaks a rule. It has the kind of the first fault.
    /// - `NoMemory`: the configuration is sound, and memory was refused.
    ///
    /// In both cases no access was made, and the adapter comes back as it was.
    #[inline(never)]
    pub fn new(alloc: Global, config: Config, mut adapter: A) -> Result<Self, (ServerError, A)>
        requires ready { IsReadyFor config (A.device adapter) }
        ensures made { IfOk result (IsInitialServer A.device config adapter) }
        ensures config_is_sound { OnOk result (LacksEveryFault config) }
        ensures refused { IfErr result (λ e. IsLeastFaultOrSoundAndNoMemory config e.0 × (e.1 ≡ adapter)) }
        ensures cost { IfOk result (λ server. MakesAtMost MOST_NEW_ACCESSES
            (A.access_count adapter) (A.access_count server.adapter)) }
    {
        let plan = match Plan::of(&config) {
            Ok(plan) => plan,
            Err(kind) => return Err((ServerError::BadConfig(kind), adapter)),
        };
        let Ok(grants) = Grants::from_rows(alloc, plan.grants()) else {
            return Err((ServerError::NoMemory, adapter));
        };
        let Ok(table) = FrameTable::boxed(alloc, plan.owners()) else {
            return Err((ServerError::NoMemory, adapter));
        };
        // Loans can't be dropped, nor a book, so these come last of what can be refused.
        let Ok(kept) = empty_quarantines(alloc) else {
            return Err((ServerError::NoMemory, adapter));
        };
        let Ok(book) = Book::new(alloc) else {
            destroy_quarantines(kept);
            return Err((ServerError::NoMemory, adapter));
        };
        let mut ports = unserved_ports(plan.wanted(), kept);
        let host = take_over(&mut adapter, plan.wanted());
        replace_probe_results_and_free_slots(&mut ports, &host);
        law_new_server_starts_history();
        Ok(Server {
            adapter,
            grants,
            shared: Shared { table, book },
            ports,
            last: 0,
            stuck: false,
        })
    }

    /// Returns the adapter behind the server.
    pub fn adapter(&self) -> &A
        ensures { result.now ≡ self.now.adapter }
    {
        &self.adapter
    }

    /// What a port was found to be.
    fn found(&self, port: Port) -> ProbeResult
        ensures { result ≡ probe_result_of self.now.probe_results port.0 }
    {
        match self.ports.get(usize::from(port.0)) {
            Some(its) => its.probe_result,
            None => ProbeResult::Unserved,
        }
    }

    /// Returns what a port is to its clients, as the last call found it. A port that isn't served is `Absent`.
    pub fn state(&self, port: Port) -> PortState
        ensures state { result ≡ state_of (probe_result_of self.now.probe_results port.0) }
        ensures extends_history { ExtendsHistory (server_of A.device self.now) (server_of A.device self.now)
            (State port)
            (PortStateShown result) }
    {
        law_refusals_extend_history();
        let _ = &self.adapter;
        match self.found(port) {
            ProbeResult::Unserved => PortState::Absent,
            ProbeResult::Ready(_) => PortState::Ready,
            ProbeResult::Unready(state) => state,
        }
    }

    /// The disk that a port is ready with, or was last ready with, if it ever was.
    fn last_disk(&self, port: Port) -> Option<DiskInfo>
        ensures { result ≡ last_disk_of (probe_result_of self.now.probe_results port.0)
            (remembered_at self.now.remembered port.0) }
    {
        match self.ports.get(usize::from(port.0)) {
            Some(its) => its.last_disk(),
            None => None,
        }
    }

    /// How many sectors that disk has, or 0 if there is none.
    fn sectors(&self, port: Port) -> u64
        ensures { result
            ≡ last_sectors_of (last_disk_of (probe_result_of self.now.probe_results port.0)
            (remembered_at self.now.remembered port.0)) }
    {
        match self.last_disk(port) {
            Some(info) => info.sectors,
            None => 0,
        }
    }

    /// Whether a request is a trim, and its port has no disk that promises zeros in trimmed sectors. A port that isn't
    /// ready has none.
    fn lacks_trim(&self, r: &Request, port: Port) -> bool
        ensures { IsTrue result
            ↔ ((r.now.op ≡ Op.Trim) × (zeroes_after_trim_of (probe_result_of self.now.probe_results port.0) ≡ false)) }
    {
        let trims = match self.found(port) {
            ProbeResult::Ready(info) => info.trim,
            _ => false,
        };
        r.op == Op::Trim && !trims
    }

    /// Returns the port that the request is for, or the first cause to refuse the request.
    fn admit(&self, r: &Request) -> Result<Port, Refusal>
        ensures admitted { IfOk result (λ port. IsAcceptable (admission_context (server_of A.device self.now)) r.now
            × IsRequestForPort self.now.grants r.now port) }
        ensures refused { IfErr result (λ refusal. IsFirstRefusal
            (admission_context (server_of A.device self.now)) r.now
            refusal) }
    {
        if let Err(rule) = decide(r, &self.grants, &self.shared.table) {
            return Err(Refusal::Rule(rule));
        }
        let Some(row) = self.grants.row(r.client, r.grant) else {
            unreachable!()
        };
        let state = self.state(row.port);
        let PortState::Ready = state else {
            return Err(Refusal::PortNotReady(state));
        };
        if exceeds_disk(r, self.sectors(row.port)) {
            return Err(Refusal::OutsideDisk);
        }
        if self.lacks_trim(r, row.port) {
            return Err(Refusal::TrimUnsupported);
        }
        if self.shared.book.unanswered_count(r.client) >= MOST_UNANSWERED_OF_A_CLIENT {
            return Err(Refusal::ClientFull);
        }
        if self.last >= u64::MAX {
            return Err(Refusal::IdsSpent);
        }
        Ok(row.port)
    }

    /// Puts the request into the book, as its last, and lends it its frames. Then it issues what is due on the port.
    fn accept(&mut self, r: &Request, port: Port) -> RequestId
        requires on { self.old.stuck ≡ false }
        requires acceptable { IsAcceptable (admission_context (server_of A.device self.old)) r.now }
        requires port { IsRequestForPort self.old.grants r.now port }
        ensures on { self.new.stuck ≡ false }
        ensures accepts { AcceptsRequest A.device self.old self.new r.now result }
        ensures extends_history { ExtendsHistory (server_of A.device self.old) (server_of A.device self.new)
            (Submit r.now)
            (Submitted (Ok result)) }
        ensures cost { MakesAtMost MOST_SUBMIT_ACCESSES (A.access_count self.old.adapter)
            (A.access_count self.new.adapter) }
    {
        law_requests_preserve_invariant();
        law_acceptances_extend_history();
        law_due_of_port_is_exact();
        let id = RequestId(self.last + 1);
        let entry = PendingRequest {
            id,
            client: r.client,
            grant: r.grant,
            port,
            op: r.op,
            range: Range {
                first: r.first,
                count: r.count,
            },
            issued: false,
            issue_count: 0,
            age: 0,
            revoked: false,
        };
        self.last = id.0;
        self.ports[usize::from(port.0)].submit(
            &mut self.adapter,
            &mut self.shared,
            entry,
            r.frames.as_slice(),
        );
        id
    }

    /// Asks for a request, and returns its id if it is accepted.
    ///
    /// A later `service`, `tick`, `reset` or `revoke` returns the reply, with this id. Until then the frames of the
    /// request are lent to it, and its client can't load or store their bytes. Ids rise from 1.
    ///
    /// # Errors
    ///
    /// The request is accepted exactly if no `Refusal` applies. Otherwise the first one that applies is returned, and
    /// nothing changes.
    pub fn submit(&mut self, r: &Request) -> Result<RequestId, Refusal>
        ensures submits { Submits A.device self.old self.new r.now result }
        ensures extends_history { ExtendsHistory (server_of A.device self.old) (server_of A.device self.new)
            (Submit r.now)
            (Submitted result) }
        ensures cost { MakesAtMost MOST_SUBMIT_ACCESSES (A.access_count self.old.adapter)
            (A.access_count self.new.adapter) }
    {
        law_refusals_extend_history();
        law_stuck_servers_admit_none();
        let _ = &self.adapter;
        let port = self.admit(r)?;
        Ok(self.accept(r, port))
    }

    /// Looks at all served ports, in rising number, and returns the replies to the requests that have ended.
    ///
    /// | The port | What happens in its turn |
    /// |---|---|
    /// | is ready | Finished requests get `Ok`. Then the port issues what is due. |
    /// | has a failed command (TFES) | It recovers (AHCI 1.3.1, 6.2.2). The failed request gets `DeviceError`. |
    /// | has a fatal error (IFS, HBDS, HBFS) | It is stopped and booted anew. No request gets `DeviceError`. |
    /// | has lost its disk | It is stopped, and booted if a device shows. Unfinished requests get `Unplugged`. |
    /// | is absent | PxSSTS is read. If DET is 3, the port is booted. |
    /// | is unfit or foreign | PxIS and PxSSTS are read. If PCS or PRCS is set, or DET isn't 3, it is booted. |
    /// | is dead | It is left alone. After a reset that got stuck its requests get `PortDead`. |
    ///
    /// After a recovery or a boot, the unfinished requests of the port fare so:
    ///
    /// | The port | Issued requests | Waiting requests |
    /// |---|---|---|
    /// | is ready with the same disk | They are issued again (see below). | They go on waiting. |
    /// | is ready with another disk, or isn't ready | `Unplugged` | `Unplugged` |
    /// | has an engine that doesn't stop | `PortDead`; their frames stay lent until a reset finishes | `PortDead` |
    ///
    /// A request that would be issued again gets `Revoked` if its grant was revoked, and otherwise `Aborted` if it was
    /// issued four times.
    ///
    /// All ports wait while one recovers or boots. Its waits are bounded: the clause `cost` bounds the accesses of the
    /// whole call. The replies are sorted by port, and for each port by acceptance.
    pub fn service(&mut self) -> Replies
        ensures services { Services A.device self.old self.new result.items }
        ensures extends_history { ExtendsHistory (server_of A.device self.old) (server_of A.device self.new) Service
            (Replied result.items) }
        ensures cost { MakesAtMost MOST_SERVICE_ACCESSES (A.access_count self.old.adapter)
            (A.access_count self.new.adapter) }
    {
        let mut replies = Replies::new();
        self.service_into(&mut replies);
        replies
    }

    /// Does what `service` does, and puts the replies into a list of the caller, in place of what the list had.
    pub fn service_into(&mut self, replies: &mut Replies)
        ensures services { Services A.device self.old self.new replies.new.items }
        ensures extends_history { ExtendsHistory (server_of A.device self.old) (server_of A.device self.new) Service
            (Replied replies.new.items) }
        ensures cost { MakesAtMost MOST_SERVICE_ACCESSES (A.access_count self.old.adapter)
            (A.access_count self.new.adapter) }
    {
        law_services_extend_history();
        law_book_stays_well_formed();
        replies.clear();
        if self.stuck {
            return self.fail_all(replies);
        }
        for number in 0..PORTS {
            self.ports[number].service(
                &mut self.adapter,
                &mut self.shared,
                Port(number as u8),
                replies,
            );
        }
    }

    /// Answers all requests with `PortDead`, because the last reset got stuck. The frames of issued requests stay lent.
    fn fail_all(&mut self, replies: &mut Replies)
        requires stuck { self.old.stuck ≡ true }
        requires none { replies.old.items ≡ [] }
        ensures services { Services A.device self.old self.new replies.new.items }
        ensures extends_history { ExtendsHistory (server_of A.device self.old) (server_of A.device self.new) Service
            (Replied replies.new.items) }
        ensures cost { MakesAtMost 0 (A.access_count self.old.adapter) (A.access_count self.new.adapter) }
    {
        law_in_call_gives_server_invariant();
        law_calls_that_end_stuck_extend_history();
        law_book_stays_well_formed();
        resolve_ports(&mut self.ports, &mut self.shared, replies);
    }

    /// Counts a tick, and restarts each ready port that has a request which hangs.
    ///
    /// | The port | What happens in its turn |
    /// |---|---|
    /// | is ready | Each of its issued requests gets one tick older. |
    /// | has a request that is three ticks old | It is stopped and booted anew. Its requests fare as in `service`. |
    /// | isn't ready, or has no request so old | Nothing looks at it. |
    ///
    /// The server reads no clock. The caller calls `tick` in an interval of its choice, and should call `service`
    /// before each tick: a request has between two and three ticks, from its issue until a `service` answers it. A
    /// restart costs each other issued request of the port one of its four issues, and all ports wait meanwhile. A tick
    /// that restarts no port makes no access. The replies are sorted as those of `service` are.
    pub fn tick(&mut self) -> Replies
        ensures ticks { TicksServer A.device self.old self.new result.items }
        ensures extends_history { ExtendsHistory (server_of A.device self.old) (server_of A.device self.new) Tick
            (Replied result.items) }
        ensures cost { MakesAtMost MOST_TICK_ACCESSES (A.access_count self.old.adapter)
            (A.access_count self.new.adapter) }
    {
        let mut replies = Replies::new();
        self.tick_into(&mut replies);
        replies
    }

    /// Does what `tick` does, and puts the replies into a list of the caller, in place of what the list had.
    pub fn tick_into(&mut self, replies: &mut Replies)
        ensures ticks { TicksServer A.device self.old self.new replies.new.items }
        ensures extends_history { ExtendsHistory (server_of A.device self.old) (server_of A.device self.new) Tick
            (Replied replies.new.items) }
        ensures cost { MakesAtMost MOST_TICK_ACCESSES (A.access_count self.old.adapter)
            (A.access_count self.new.adapter) }
    {
        law_aging_keeps_invariant();
        law_ticks_extend_history();
        law_calls_that_end_stuck_extend_history();
        law_book_stays_well_formed();
        replies.clear();
        if self.stuck {
            // No port is ready, so no request gets older.
            return;
        }
        let any_overdue = self.shared.book.tick(&ready_ports(&self.ports));
        let overdue = overdue_ports(&self.shared.book, any_overdue);
        for number in 0..PORTS {
            self.ports[number].tick(
                &mut self.adapter,
                &mut self.shared,
                Port(number as u8),
                overdue[number],
                replies,
            );
        }
    }

    /// Resets the adapter (AHCI 1.3.1, 10.4.3), boots each served port anew, and issues what is due then.
    ///
    /// | What | What becomes of it |
    /// |---|---|
    /// | frames that dead ports kept | They are given back. |
    /// | a port with the disk that it was last ready with | Its requests fare as after a boot in `service`. |
    /// | a port with another disk, or one that isn't ready | All its requests get `Unplugged`. |
    /// | a port whose engine doesn't stop | All its requests get `PortDead`. Frames of issued ones stay lent. |
    /// | a request that had finished without an answer | It fares as an unfinished one. |
    ///
    /// A disk is the same if serial number and size are. So nobody notices a disk that was out and is in again. The
    /// replies are sorted as those of `service` are.
    ///
    /// # Errors
    ///
    /// `AdapterStuck`: HR of GHC was 1 in 64 readings (this number is this project's own). From then on each served
    /// port is dead until a reset finishes. The next `service` answers their requests with `PortDead`, and frames of
    /// issued requests stay lent. A tick does nothing meanwhile.
    pub fn reset(&mut self) -> Result<Replies, AdapterStuck>
        ensures done { IfOk result (λ replies. ResetsOrGetsStuck A.device self.old self.new replies.items (Ok tt)) }
        ensures stuck { IfErr result (λ why. ResetsOrGetsStuck A.device self.old self.new [] (Err why)) }
        ensures adds { IfOk result
            (λ replies. ExtendsHistory (server_of A.device self.old) (server_of A.device self.new)
            Reset (WasReset (Some replies.items))) }
        ensures stuck_extends_history { IfErr result
            (λ why. ExtendsHistory (server_of A.device self.old) (server_of A.device self.new)
            Reset (WasReset None)) }
        ensures cost { MakesAtMost MOST_RESET_ACCESSES (A.access_count self.old.adapter)
            (A.access_count self.new.adapter) }
    {
        let mut replies = Replies::new();
        self.reset_into(&mut replies)?;
        Ok(replies)
    }

    /// Does what `reset` does, and puts the replies into a list of the caller, in place of what the list had.
    pub fn reset_into(&mut self, replies: &mut Replies) -> Result<(), AdapterStuck>
        ensures resets { ResetsOrGetsStuck A.device self.old self.new replies.new.items result }
        ensures extends_history { ExtendsHistory (server_of A.device self.old) (server_of A.device self.new) Reset
            (reset_result result replies.new.items) }
        ensures cost { MakesAtMost MOST_RESET_ACCESSES (A.access_count self.old.adapter)
            (A.access_count self.new.adapter) }
    {
        law_in_call_gives_server_invariant();
        law_quarantined_loans_are_lent();
        law_reset_leads_to_none_due();
        law_ended_resets_extend_history();
        law_calls_that_end_stuck_extend_history();
        law_book_stays_well_formed();
        replies.clear();
        if let Err(stuck) = reset(&mut self.adapter) {
            note_stuck_reset(&mut self.ports);
            self.stuck = true;
            return Err(stuck);
        }
        give_all_back(&mut self.ports, &mut self.shared.table);
        let host = take_over(&mut self.adapter, &wanted_disks(&self.ports));
        replace_probe_results_and_free_slots(&mut self.ports, &host);
        self.stuck = false;
        resolve_ports(&mut self.ports, &mut self.shared, replies);
        issue_due_on_ports(&mut self.ports, &mut self.adapter, &mut self.shared);
        Ok(())
    }

    /// Ends the server, and returns the adapter as it is. Issued commands stay issued, and the device may still move
    /// their data. So the memory of the clients' frames has to stay untouched until the adapter was reset.
    pub fn close(self) -> A
        ensures { result ≡ self.adapter }
    {
        law_in_call_gives_server_invariant();
        law_quarantined_loans_are_lent();
        let Server {
            adapter,
            grants: _,
            shared,
            mut ports,
            last: _,
            stuck: _,
        } = self;
        let Shared { mut table, book } = shared;
        book.give_all_back(&mut table);
        give_all_back(&mut ports, &mut table);
        destroy_quarantines(into_quarantines(ports));
        adapter
    }
}

impl<A: Stepped> Server<A> {
    ghost use Rattle.block_machine.specs.Events.{StepDevice, Stepped};
    ghost use Rattle.block_server.specs.{Calls.{StepsDevice}, ServerView.{server_of}};
    ghost use Rattle.server_history.specs.Histories.{ExtendsHistory};
    ghost use Rattle.adapter.specs.AccessBounds.{MakesAtMost};

    /// Has the device make a step, and returns whether it did. After `false` nothing has changed.
    pub fn device(&mut self, step: &DeviceStep) -> bool
        ensures steps { StepsDevice A.device self.old self.new step.now result }
        ensures extends_history { ExtendsHistory (server_of A.device self.old) (server_of A.device self.new)
            (StepDevice step.now)
            (Stepped result) }
        ensures cost { MakesAtMost 0 (A.access_count self.old.adapter) (A.access_count self.new.adapter) }
    {
        law_device_steps_extend_history();
        self.adapter.step(step)
    }
}
