// What becomes of the unanswered requests of a port that was stopped, or is dead, and of those that wait under a grant
// that is revoked.
ghost use Rattle.std.specs.Prelude.{◌≡◌, ◌≢◌, ◌++◌, ◌∷◌, Contains, List, filter};
ghost use Rattle.ata_types.specs.{declared.request.Outcome.TheVariants.{Revoked}, declared.request.Reply.{Reply}};
ghost use Rattle.port_driver.specs.LoanRoom.{HasLoanRoomIfIssued, HaveRoomForIssuedLoans, MayAnswerAll, book_and_loans};
ghost use Rattle.dma_frames.specs.Loan.{Lending};
ghost use Rattle.request_queue.specs.{BookEntries.{BookEntry, IsUnanswered, is_of_port, waits_under}, Dispositions.{CompletesAllWith, AreResolved, IsResolved, disposition_of}, declared.disposition.Disposition.TheVariants.{Complete}};

use crate::quarantine::Quarantine;
use crate::served_port::Shared;
use ata_types::{ClientId, Outcome, Port, Replies, Reply, RequestId};
use request_queue::laws::{
    law_an_id_is_one_request, law_answers_of_one_outcome_are_one_change,
    law_book_stays_well_formed, law_entries_stay_well_formed, law_operations_change_one_request,
};
use request_queue::{Disposition, FailedRequest, Revalidation};

/// What decides on the disposition of each request of a port, after an error or a reset.
#[derive(Clone, Copy)]
pub(crate) struct DispositionInputs {
    /// The request whose command failed, where it is known.
    pub(crate) failed: Option<FailedRequest>,
    /// What the port is, once it was booted where it had to be.
    pub(crate) revalidation: Revalidation,
}

impl Shared {
    /// Resolves one request.
    fn resolve_one(
        &mut self,
        kept: &mut Quarantine,
        id: RequestId,
        stopped: &DispositionInputs,
        replies: &mut Replies,
    )
        requires may { MayAnswerAll self.old.table.value self.old.book replies.old.items }
        requires here { (request : BookEntry) × Contains self.old.book request × (request.request.id ≡ id)
            × HasLoanRoomIfIssued request kept.old }
        ensures resolves { (request : BookEntry) → Contains self.old.book request → request.request.id ≡ id
            → (its : List Reply) × (replies.new.items ≡ replies.old.items ++ its)
            × IsResolved request (disposition_of stopped.now.failed stopped.now.revalidation request.request) its
            (book_and_loans self.old.book self.old.table.value kept.old)
            (book_and_loans self.new.book self.new.table.value kept.new) }
        ensures others { (e : BookEntry) → Contains self.old.book e → e.request.id ≢ id → Contains self.new.book e }
        ensures places { (request : BookEntry) (rest : List BookEntry) → Contains self.old.book request
            → request.request.id ≡ id → HaveRoomForIssuedLoans (request ∷ rest) kept.old
            → HaveRoomForIssuedLoans rest kept.new }
        ensures may { MayAnswerAll self.new.table.value self.new.book replies.new.items }
    {
        law_an_id_is_one_request();
        law_entries_stay_well_formed();
        law_operations_change_one_request();
        law_book_stays_well_formed();
        let entry = self.book.request(id);
        match entry.disposition(&stopped.failed, stopped.revalidation) {
            Disposition::Wait => {}
            Disposition::Requeue => self.book.requeue(id),
            Disposition::Complete(outcome) => {
                if entry.keeps_loan(outcome) {
                    let (_, loan) = self.book.answer(id);
                    kept.keep(loan);
                } else {
                    self.book.remove_and_give_back(id, &mut self.table);
                }
                replies.push(Reply {
                    id,
                    client: entry.client,
                    outcome,
                });
            }
        }
    }

    /// Answers a request that waits under a grant that is revoked: it is told so, and its frames are given back.
    fn cancel_revoked_request(&mut self, id: RequestId, replies: &mut Replies)
        requires may { MayAnswerAll self.old.table.value self.old.book replies.old.items }
        requires here { IsUnanswered id self.old.book }
        ensures resolves { (request : BookEntry) (kept : List Lending) → Contains self.old.book request
            → request.request.id ≡ id → (its : List Reply) × (replies.new.items ≡ replies.old.items ++ its)
            × IsResolved request (Complete Revoked) its (book_and_loans self.old.book self.old.table.value kept)
            (book_and_loans self.new.book self.new.table.value kept) }
        ensures others { (e : BookEntry) → Contains self.old.book e → e.request.id ≢ id → Contains self.new.book e }
        ensures may { MayAnswerAll self.new.table.value self.new.book replies.new.items }
    {
        law_an_id_is_one_request();
        law_entries_stay_well_formed();
        law_operations_change_one_request();
        law_book_stays_well_formed();
        let table = &mut *self.table;
        let entry = self.book.remove_and_give_back(id, table);
        replies.push(Reply {
            id,
            client: entry.client,
            outcome: Outcome::Revoked,
        });
    }

    /// Answers the requests that wait under a client's grant, which is revoked, in order of acceptance: each is told
    /// so, and its frames are given back. The replies come after those that there are. A function of its own, since
    /// its caller's frame would have room for their ids else.
    #[inline(never)]
    pub fn complete_waiting_under_grant_as_revoked(
        &mut self,
        client: ClientId,
        number: u8,
        replies: &mut Replies,
    )
        requires { MayAnswerAll self.old.table.value self.old.book replies.old.items }
        ensures { (kept : List Lending) → (its : List Reply) × (replies.new.items ≡ replies.old.items ++ its)
            × CompletesAllWith (waits_under client number) Revoked its (book_and_loans self.old.book
            self.old.table.value kept)
            (book_and_loans self.new.book self.new.table.value kept) }
    {
        law_answers_of_one_outcome_are_one_change();
        let waiting = self.book.waiting_ids_under(client, number);
        for place in 0..waiting.len() {
            self.cancel_revoked_request(waiting[place], replies);
        }
    }

    /// Resolves the unanswered requests of a port, in order of acceptance. The replies come after those that
    /// there are.
    pub(crate) fn resolve(
        &mut self,
        kept: &mut Quarantine,
        port: Port,
        stopped: &DispositionInputs,
        replies: &mut Replies,
    )
        requires all_may_be_answered { MayAnswerAll self.old.table.value self.old.book replies.old.items }
        requires loans_have_room { HaveRoomForIssuedLoans (filter (λ (e : BookEntry).
            is_of_port port e.request) self.old.book)
            kept.old }
        ensures resolves { (its : List Reply) × (replies.new.items ≡ replies.old.items ++ its)
            × AreResolved (disposition_of stopped.now.failed stopped.now.revalidation)
            (filter (λ (e : BookEntry). is_of_port port e.request) self.old.book) its
            (book_and_loans self.old.book self.old.table.value kept.old)
            (book_and_loans self.new.book self.new.table.value kept.new) }
        ensures may { MayAnswerAll self.new.table.value self.new.book replies.new.items }
    {
        let ids = self.book.ids_of(port);
        for place in 0..ids.len() {
            self.resolve_one(kept, ids[place], stopped, replies);
        }
    }
}
