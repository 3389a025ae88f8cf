// What is due on a port is issued.
ghost use Rattle.std.specs.{Prelude.{◌≡◌, ◌<◌, ◌≤◌, ◌/◌, ◌%◌, [], ◌∷◌, ◌++◌, All, Some, length}, List.{Contains}};
ghost use Rattle.block_machine.specs.DueRequests.{IsDue};
ghost use Rattle.port_driver.specs.{Issuing.{IssuesWhatIsDue, MayIssueDue}, LentSlots.{HasPortToIssue, FitsSlot, with_port_slots}};
ghost use Rattle.ncq.specs.{Issuing.{IsIssued, MayIssueTask}, Costs.{ISSUE_ACCESSES}};
ghost use Rattle.block_machine.specs.Rules.{HasNoFault};
ghost use Rattle.dma_frames.specs.FrameTables.{OwnersAndLoans, SetsLoanOnly, lent_to, owner_of};
ghost use Rattle.request_queue.specs.BookEntries.{BookEntry, IsNewlyAccepted, as_unanswered, entry_count_of_client, unanswered_of, due_ids};
ghost use Rattle.server_history.specs.{IssuingAndAnswering.{IssuesTogether}, ServerState.{ServerState}};
ghost use Rattle.adapter.specs.AccessBounds.{MakesAtMost};

use crate::served_port::{ServedPort, Shared};
use adapter::Adapter;
use ata_types::{Frame, MOST_REQUEST_FRAMES, MOST_UNANSWERED_OF_A_CLIENT, Op, Port, RequestId};
use block_machine::is_plain;
use block_machine::laws::law_issuing_due_in_turn_leaves_none_due;
use flush_trim::{issue_flush, issue_trim};
use hba_regs::with_bit;
use host_boot::ProbeResult;
use ncq::laws::{law_batch_mask_gains_task_slot_bit, law_stored_task_extends_batch};
use ncq::{Issue, Task, issue, issue_all, store_transfer};
use request_queue::laws::{
    law_an_id_is_one_request, law_book_stays_well_formed, law_unanswered_follow_book_operations,
};
use request_queue::{Book, DueIds, PendingRequest};
use server_history::laws::{
    law_a_due_request_finds_a_free_slot, law_due_requests_get_slots,
    law_resolved_errors_keep_in_call_invariant,
};

/// The task of a request, by a queued command or a plain one.
fn task_for(request: &PendingRequest, queued: bool) -> Task
    ensures { result ≡ record { op = request.now.op; range = request.now.range; queued = queued } }
{
    Task {
        op: request.op,
        range: request.range,
        queued,
    }
}

/// Issues a task in a slot that it may go in: the slot's command then says the task.
fn issue_task<A: Adapter>(adapter: &mut A, port: Port, what: &Issue)
    requires may { MayIssueTask port what.now.slot.0 (A.device adapter.old) }
    requires small { what.now.slot.0 < 32 }
    requires usable { what.now.slot.0 ≤ (A.device adapter.old).cap / 256 % 32 }
    requires fits { FitsSlot what.now.task what.now.loan.now.frames what.now.slot.0 }
    ensures issued { IsIssued port what.now.slot.0 what.now.task what.now.loan.now.frames (A.device adapter.old)
        (A.device adapter.new) }
    ensures cost { MakesAtMost ISSUE_ACCESSES (A.access_count adapter.old) (A.access_count adapter.new) }
{
    match what.task.op {
        Op::Read => issue(adapter, port, what),
        Op::Write => issue(adapter, port, what),
        Op::Trim => issue_trim(adapter, port, what.task.range),
        Op::Flush => issue_flush(adapter, port),
    }
}

impl ServedPort {
    /// Issues a due request of the port, which is ready, in the lowest free slot.
    fn issue_one<A: Adapter>(&mut self, adapter: &mut A, book: &mut Book, port: Port, id: RequestId)
        requires may { MayIssueDue A.device port self.old adapter.old book.old }
        requires due { (request : BookEntry) × Contains book.old request × (request.request.id ≡ id)
            × (request.request.port ≡ port)
            × IsDue self.old.mode (unanswered_of book.old) (as_unanswered request.request) }
        ensures issues { (s : ServerState)
            → HasPortToIssue s (A.device adapter.old) book.old self.old.slots port self.old.mode self.old.probe_result
            → IssuesTogether port (id ∷ []) s (with_port_slots s (A.device adapter.new) book.new self.new.slots port) }
        ensures rest { self.new ≡ record self.old { slots = self.new.slots } }
        ensures cost { MakesAtMost ISSUE_ACCESSES (A.access_count adapter.old) (A.access_count adapter.new) }
    {
        law_a_due_request_finds_a_free_slot();
        law_an_id_is_one_request();
        let (entry, loan) = book.entry(id);
        let queued = !is_plain(self.mode, entry.op);
        let Some(slot) = self.slots.take(id, queued) else {
            unreachable!()
        };
        let task = task_for(entry, queued);
        issue_task(adapter, port, &Issue { slot, task, loan });
        book.issue(id);
    }

    /// Accepts a request of the port, which is ready: it is put last into the book, and these frames are lent to it.
    /// Then what is due on the port is issued.
    pub fn submit<A: Adapter>(
        &mut self,
        adapter: &mut A,
        shared: &mut Shared,
        request: PendingRequest,
        frames: &[Frame],
    )
        requires id_is_newest { All (λ e. e.request.id.0 < request.id.0) shared.old.book }
        requires is_newly_accepted { IsNewlyAccepted request }
        requires client_is_valid { (1 ≤ request.client.0) × (request.client.0 ≤ 8) }
        requires client_has_room { entry_count_of_client shared.old.book request.client.0
            < MOST_UNANSWERED_OF_A_CLIENT }
        requires frames_have_no_fault_and_are_few { HasNoFault (owner_of shared.old.table.value)
            (lent_to shared.old.table.value) request.client frames.now × (length frames.now ≤ MOST_REQUEST_FRAMES) }
        requires may_issue_then { (table : OwnersAndLoans)
            → SetsLoanOnly shared.old.table.value table frames.now (Some request.id)
            → MayIssueDue A.device request.port self.old adapter.old
            (shared.old.book ++ record { request = request; frames = frames.now } ∷ []) }
        ensures frames_are_lent_to_request { SetsLoanOnly shared.old.table.value shared.new.table.value frames.now
            (Some request.id) }
        ensures issues_due { IssuesWhatIsDue A.device A.access_count request.port self.old self.new adapter.old
            adapter.new (shared.old.book ++ record { request = request; frames = frames.now } ∷ []) shared.new.book }
    {
        let port = request.port;
        shared.book.accept(request, frames, &mut shared.table);
        self.issue_due(adapter, &mut shared.book, port);
    }

    /// Issues the due requests of the port, which is ready, in order of acceptance. No list of them is made if the book
    /// has no request, or one alone.
    pub(crate) fn issue_due<A: Adapter>(&mut self, adapter: &mut A, book: &mut Book, port: Port)
        requires { MayIssueDue A.device port self.old adapter.old book.old }
        ensures { IssuesWhatIsDue A.device A.access_count port self.old self.new adapter.old adapter.new
            book.old book.new }
    {
        law_issuing_due_in_turn_leaves_none_due();
        law_book_stays_well_formed();
        if book.is_empty() {
            return;
        }
        match book.due_id_if_alone_in_book(self.mode, port) {
            Some(id) => self.issue_one(adapter, book, port, id),
            None => self.issue_listed(adapter, book, port),
        }
    }

    /// The same, by a list of what is due. Room for it is cleared on entry, so that it stands in a function of its own.
    #[inline(never)]
    fn issue_listed<A: Adapter>(&mut self, adapter: &mut A, book: &mut Book, port: Port)
        requires { MayIssueDue A.device port self.old adapter.old book.old }
        ensures { IssuesWhatIsDue A.device A.access_count port self.old self.new adapter.old adapter.new
            book.old book.new }
    {
        law_issuing_due_in_turn_leaves_none_due();
        law_book_stays_well_formed();
        let mut due = DueIds::new();
        book.issuable(self.mode, port, &mut due);
        match due.len() {
            0 => {}
            1 => self.issue_one(adapter, book, port, due[0]),
            _ => self.issue_batch(adapter, book, port, &due),
        }
    }

    /// Issues several due requests of the port together, which are all queued: each is put in the lowest free slot and
    /// stored there, and then one write each of PxSACT and PxCI has the bits of all.
    fn issue_batch<A: Adapter>(
        &mut self,
        adapter: &mut A,
        book: &mut Book,
        port: Port,
        due: &DueIds,
    )
        requires may { MayIssueDue A.device port self.old adapter.old book.old }
        requires due { due.now.items ≡ due_ids self.old.mode port (unanswered_of book.old) }
        requires several { 1 < length due.now.items }
        ensures { IssuesWhatIsDue A.device A.access_count port self.old self.new adapter.old adapter.new
            book.old book.new }
    {
        law_an_id_is_one_request();
        law_batch_mask_gains_task_slot_bit();
        law_stored_task_extends_batch();
        law_issuing_due_in_turn_leaves_none_due();
        law_due_requests_get_slots();
        law_unanswered_follow_book_operations();
        law_book_stays_well_formed();
        let mut mask = 0;
        for place in 0..due.len() {
            let id = due[place];
            let (entry, loan) = book.entry(id);
            let Some(slot) = self.slots.take(id, true) else {
                unreachable!()
            };
            let task = task_for(entry, true);
            store_transfer(adapter, port, &Issue { slot, task, loan });
            book.issue(id);
            mask = with_bit(mask, u32::from(slot.0));
        }
        issue_all(adapter, port, mask);
    }

    /// Issues the due requests of the port, in order of acceptance, if it is ready. On one that isn't none is due.
    pub fn issue_where_ready<A: Adapter>(&mut self, adapter: &mut A, book: &mut Book, port: Port)
        requires server_has_port { (s : ServerState)
            × HasPortToIssue s (A.device adapter.old) book.old self.old.slots port self.old.mode self.old.probe_result }
        ensures { IssuesWhatIsDue A.device A.access_count port self.old self.new adapter.old adapter.new
            book.old book.new }
    {
        law_resolved_errors_keep_in_call_invariant();
        if let ProbeResult::Ready(_) = self.probe_result {
            self.issue_due(adapter, book, port);
        }
    }
}
