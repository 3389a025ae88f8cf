//! Laws of the definitions, for callers: the clause is the theorem. These functions do nothing.
ghost use Rattle.std.specs.Prelude.{◌≡◌, ◌≢◌, ◌↔◌, ◌++◌, ◌∷◌, ◌<◌, ◌≤◌, [], ℕ, Bool, false, List, Option, None, Some, All, Contains, filter, length, map};
ghost use Rattle.ata_types.specs.{declared.Port.{Port}, declared.request.ClientId.{ClientId}, declared.request.Frame.{Frame}, declared.request.Outcome.{Outcome}, declared.request.Reply.{Reply}, declared.request.RequestId.{RequestId}};
ghost use Rattle.block_machine.specs.{DueRequests.{AreDueInTurnAndLeaveNoneDue, IsDue, IsInOrder, with_issued, without_request, with_waiting}, State.{Machine, unanswered}, declared.due.QueueMode.{QueueMode}, declared.due.Unanswered.{Unanswered}};
ghost use Rattle.dma_frames.specs.FrameTables.{OwnersAndLoans, SetsLoanOnly, lent_to};
ghost use Rattle.request_queue.specs.{BookEntries.{BookEntry, IsWellFormedEntry, IsEarlier, IsNewlyAccepted, BookIsWellFormed, IsUnanswered, IsWaiting, IsIssuedBelowLimit, FramesAreLentToIt, aged_entries, unanswered_of, update_if_id, due_ids, entry_with_id, issued_request, request_with_issued_cleared, with_requests_under_grant_revoked, entry_count_of_client, without_entry}, Dispositions.{CompletesAllWith, BookAndLoans, AreResolved, keeps_loan}};
ghost use Rattle.request_queue.specs.{BookRelation.{BookRelation, EntryRelation}, declared.PendingRequest.{PendingRequest}, declared.disposition.Disposition.TheVariants.{Complete}};
ghost use Rattle.block_machine.specs.State as machine;
ghost use Rattle.block_machine.specs.Steps as steps;

use ata_types::{MOST_UNANSWERED_OF_A_CLIENT, MOST_UNANSWERED_OF_ALL_CLIENTS};
use block_machine::laws::{law_due_of_port_is_exact, law_issuing_due_in_turn_leaves_none_due};

/// Where the machine's book is the book, the machine's due requests are the book's.
pub fn law_book_and_machine_agree_on_due_requests()
    ensures book { (entries : List BookEntry) (pending : List machine.Pending) → BookRelation entries pending
        → map unanswered pending ≡ unanswered_of entries }
    ensures sound { (mode : QueueMode) (port : Port) (entries : List BookEntry) (pending : List machine.Pending)
        (id : RequestId)
        → BookRelation entries pending → Contains (due_ids mode port (unanswered_of entries)) id
        → (p : machine.Pending) × Contains pending p × (p.request.id ≡ id) × (p.request.port ≡ port)
        × IsDue mode (map unanswered pending) (unanswered p) }
    ensures complete { (mode : QueueMode) (port : Port) (entries : List BookEntry) (pending : List machine.Pending)
        (p : machine.Pending)
        → BookRelation entries pending → p.request.port ≡ port → IsDue mode (map unanswered pending) (unanswered p)
        → Contains (due_ids mode port (unanswered_of entries)) p.request.id }
{
    law_due_of_port_is_exact();
}

/// Each step of the machine on requests is a change of the book, or leaves it.
pub fn law_book_changes_match_machine_steps()
    ensures accept { (entries : List BookEntry) (m : Machine) (e : BookEntry) (r : machine.Accepted)
        → BookRelation entries m.book
        → EntryRelation e (steps.newly_accepted r)
        → BookRelation (entries ++ e ∷ []) (steps.after_step m (steps.Accept r)).book }
    ensures issue { (entries : List BookEntry) (m : Machine) (mode : QueueMode) (p : machine.Pending)
        → BookRelation entries m.book
        → BookRelation (map (update_if_id p.request.id issued_request) entries)
        (steps.after_step m (steps.Issue mode p)).book }
    ensures again { (entries : List BookEntry) (m : Machine) (p : machine.Pending) → BookRelation entries m.book
        → BookRelation (map (update_if_id p.request.id request_with_issued_cleared) entries)
        (steps.after_step m (steps.WaitAgain p)).book }
    ensures answer { (entries : List BookEntry) (m : Machine) (p : machine.Pending) (outcome : Outcome)
        → BookRelation entries m.book
        → BookRelation (without_entry p.request.id entries) (steps.after_step m (steps.Answer p outcome)).book }
    ensures age { (entries : List BookEntry) (m : Machine) (ports : Port → Bool) → BookRelation entries m.book
        → BookRelation (aged_entries ports entries) (steps.after_step m (steps.Age ports)).book }
    ensures revoke { (entries : List BookEntry) (m : Machine) (client : ClientId) (grant : ℕ)
        → BookRelation entries m.book
        → BookRelation (with_requests_under_grant_revoked client grant entries)
        (steps.after_step m (steps.Revoke client grant)).book }
    ensures touch { (entries : List BookEntry) (m : Machine) (p : machine.Pending) (i : ℕ) (block : machine.Block)
        → BookRelation entries m.book → BookRelation entries (steps.after_step m (steps.Touch p i block)).book }
    ensures end { (entries : List BookEntry) (m : Machine) (p : machine.Pending) → BookRelation entries m.book
        → BookRelation entries (steps.after_step m (steps.End p)).book }
{}

/// A client has as many requests in the machine's book as in the server's.
pub fn law_requests_per_client_agree_with_machine()
    ensures { (entries : List BookEntry) (pending : List machine.Pending) (client : ClientId)
        → BookRelation entries pending
        → steps.unanswered_count pending client ≡ entry_count_of_client entries client.0 }
{}

/// A due request of the book waits, so that it may be issued; and what the book's operations leave of what says which
/// are due.
pub fn law_unanswered_follow_book_operations()
    ensures waits { (mode : QueueMode) (entries : List BookEntry) (r : Unanswered)
        → IsDue mode (unanswered_of entries) r
        → IsWaiting r.id entries }
    ensures issue { (entries : List BookEntry) (id : RequestId)
        → unanswered_of (map (update_if_id id issued_request) entries)
        ≡ with_issued id (unanswered_of entries) }
    ensures requeue { (entries : List BookEntry) (id : RequestId)
        → unanswered_of (map (update_if_id id request_with_issued_cleared) entries) ≡ with_waiting id
        (unanswered_of entries) }
    ensures answer { (entries : List BookEntry) (id : RequestId)
        → unanswered_of (without_entry id entries) ≡ without_request id (unanswered_of entries) }
    ensures tick { (entries : List BookEntry) (ports : Port → Bool) → unanswered_of (aged_entries ports entries)
        ≡ unanswered_of entries }
    ensures revoked { (entries : List BookEntry) (client : ClientId) (grant : ℕ)
        → unanswered_of (with_requests_under_grant_revoked client grant entries) ≡ unanswered_of entries }
{}

/// The due requests of a port may be issued one after the other: each of them waits when its turn comes; and then none
/// is due.
pub fn law_issuing_due_entries_in_turn_leaves_none_due()
    ensures each_due_is_due_after_those_before { (mode : QueueMode) (port : Port) (entries : List BookEntry)
        → BookIsWellFormed entries
        → AreDueInTurnAndLeaveNoneDue mode port (due_ids mode port (unanswered_of entries)) (unanswered_of entries) }
    ensures first_waits_rest_is_due { (mode : QueueMode) (port : Port) (id : RequestId) (ids : List RequestId)
        (entries : List BookEntry)
        → AreDueInTurnAndLeaveNoneDue mode port (id ∷ ids) (unanswered_of entries)
        → IsWaiting id entries × AreDueInTurnAndLeaveNoneDue mode port ids
        (unanswered_of (map (update_if_id id issued_request) entries)) }
{
    law_issuing_due_in_turn_leaves_none_due();
}

/// Each request of the one book stands in the other.
pub fn law_books_have_the_same_requests()
    ensures entry_has_pending { (entries : List BookEntry) (pending : List machine.Pending) (e : BookEntry)
        → BookRelation entries pending
        → Contains entries e → (p : machine.Pending) × Contains pending p × EntryRelation e p }
    ensures pending_has_entry { (entries : List BookEntry) (pending : List machine.Pending) (p : machine.Pending)
        → BookRelation entries pending → Contains pending p → (e : BookEntry) × Contains entries e × EntryRelation e p }
{}

/// In a book in order an id is one request's, and the request is found by it.
pub fn law_an_id_is_one_request()
    ensures one_request_an_id { (entries : List BookEntry) (a b : BookEntry) → BookIsWellFormed entries
        → Contains entries a
        → Contains entries b
        → a.request.id ≡ b.request.id → a ≡ b }
    ensures found { (entries : List BookEntry) (e : BookEntry) → BookIsWellFormed entries → Contains entries e
        → entry_with_id e.request.id entries ≡ Some e }
    ensures found_has_id { (entries : List BookEntry) (id : RequestId) (e : BookEntry) → entry_with_id id entries
        ≡ Some e
        → Contains entries e × (e.request.id ≡ id) }
    ensures absent_is_not_unanswered { (entries : List BookEntry) (id : RequestId) → entry_with_id id entries ≡ None
        → IsUnanswered id entries
        → ⊥ }
{}

/// What a change of the request with an id leaves of the requests, and what its answer does.
pub fn law_operations_change_one_request()
    ensures changed { (entries : List BookEntry) (id : RequestId) (change : PendingRequest → PendingRequest)
        (e : BookEntry)
        → Contains entries e
        → e.request.id ≡ id
        → Contains (map (update_if_id id change) entries) (record e { request = change e.request }) }
    ensures others_are_unchanged { (entries : List BookEntry) (id : RequestId) (change : PendingRequest
        → PendingRequest)
        (e : BookEntry)
        → Contains entries e
        → e.request.id ≢ id → Contains (map (update_if_id id change) entries) e }
    ensures each_comes_of_an_old_one { (entries : List BookEntry) (id : RequestId) (change : PendingRequest
        → PendingRequest)
        (e : BookEntry)
        → Contains (map (update_if_id id change) entries) e → (old : BookEntry) × Contains entries old
        × (e ≡ update_if_id id change old) }
    ensures answered { (entries : List BookEntry) (id : RequestId) (e : BookEntry)
        → Contains (without_entry id entries) e ↔ (Contains entries e × (e.request.id ≢ id)) }
{}

/// A book stays in order as requests are accepted, issued, wait again, get older and are answered. It has 128 at most.
pub fn law_book_stays_well_formed()
    ensures accepted { (entries : List BookEntry) (e : BookEntry) → BookIsWellFormed entries
        → All (λ x. IsEarlier x e) entries
        → IsNewlyAccepted e.request → 1 ≤ e.request.client.0 → e.request.client.0 ≤ 8
        → entry_count_of_client entries e.request.client.0 < MOST_UNANSWERED_OF_A_CLIENT
        → BookIsWellFormed (entries ++ e ∷ []) }
    ensures issued { (entries : List BookEntry) (id : RequestId) → BookIsWellFormed entries → IsWaiting id entries
        → BookIsWellFormed (map (update_if_id id issued_request) entries) }
    ensures requeued { (entries : List BookEntry) (id : RequestId) → BookIsWellFormed entries
        → IsIssuedBelowLimit id entries
        → BookIsWellFormed (map (update_if_id id request_with_issued_cleared) entries) }
    ensures aged { (entries : List BookEntry) (ports : Port → Bool) → BookIsWellFormed entries
        → BookIsWellFormed (aged_entries ports entries) }
    ensures revoked { (entries : List BookEntry) (client : ClientId) (grant : ℕ) → BookIsWellFormed entries
        → BookIsWellFormed (with_requests_under_grant_revoked client grant entries) }
    ensures answered { (entries : List BookEntry) (id : RequestId) → BookIsWellFormed entries
        → BookIsWellFormed (without_entry id entries) }
    ensures has_128_at_most { (entries : List BookEntry) → BookIsWellFormed entries
        → length entries ≤ MOST_UNANSWERED_OF_ALL_CLIENTS }
    ensures unanswered_are_in_order { (entries : List BookEntry) → BookIsWellFormed entries
        → IsInOrder (unanswered_of entries) }
{}

/// Entries stay well formed while no frame of their own is lent or given back, and as requests are issued, wait again,
/// age, or have their grant revoked. No frame is lent to two of them, and each one's frames are lent to it.
pub fn law_entries_stay_well_formed()
    ensures frames_are_disjoint { (table : OwnersAndLoans) (a b : BookEntry) → a.request.id ≢ b.request.id
        → IsWellFormedEntry table a
        → IsWellFormedEntry table b
        → (f : Frame) → Contains a.frames f → Contains b.frames f → ⊥ }
    ensures disjoint_loans_preserve_it { (old new : OwnersAndLoans) (frames : List Frame) (to : Option RequestId)
        (e : BookEntry)
        → SetsLoanOnly old new frames to → IsWellFormedEntry old e
        → ((f : Frame) → Contains e.frames f → Contains frames f → ⊥)
        → IsWellFormedEntry new e }
    ensures lent { (old new : OwnersAndLoans) (entries : List BookEntry) (frames : List Frame) (to : Option RequestId)
        → SetsLoanOnly old new frames to → All (λ f. lent_to old f ≡ None) frames → All (IsWellFormedEntry old) entries
        → All (IsWellFormedEntry new) entries }
    ensures answered { (old new : OwnersAndLoans) (entries : List BookEntry) (e : BookEntry) → Contains entries e
        → SetsLoanOnly old new e.frames None → All (IsWellFormedEntry old) entries
        → All (IsWellFormedEntry new) (without_entry e.request.id entries) }
    ensures issued { (table : OwnersAndLoans) (entries : List BookEntry) (id : RequestId)
        → All (IsWellFormedEntry table) entries
        → All (IsWellFormedEntry table) (map (update_if_id id issued_request) entries) }
    ensures requeued { (table : OwnersAndLoans) (entries : List BookEntry) (id : RequestId)
        → All (IsWellFormedEntry table) entries
        → All (IsWellFormedEntry table) (map (update_if_id id request_with_issued_cleared) entries) }
    ensures aged { (table : OwnersAndLoans) (entries : List BookEntry) (ports : Port → Bool)
        → All (IsWellFormedEntry table) entries → All (IsWellFormedEntry table) (aged_entries ports entries) }
    ensures revoked { (table : OwnersAndLoans) (entries : List BookEntry) (client : ClientId) (grant : ℕ)
        → All (IsWellFormedEntry table) entries
        → All (IsWellFormedEntry table) (with_requests_under_grant_revoked client grant entries) }
    ensures frames_are_lent_to_all { (table : OwnersAndLoans) (entries : List BookEntry)
        → All (IsWellFormedEntry table) entries
        → All (FramesAreLentToIt table) entries }
{}

/// Where the requests of a book that pass a test are answered one after another, all with one outcome at which no loan
/// is kept, the others are left, and what was lent to those is given back. And where that is so, it may have come about
/// so, to a table that has the same lent.
pub fn law_answers_of_one_outcome_are_one_change()
    ensures one_by_one_is_at_once { (passes : PendingRequest → Bool) (outcome : Outcome)
        → ((e : PendingRequest) → keeps_loan outcome e ≡ false)
        → (old : BookAndLoans) → BookIsWellFormed old.book → All (IsWellFormedEntry old.table) old.book
        → (replies : List Reply)
        (new : BookAndLoans) → AreResolved (λ e. Complete outcome) (filter (λ e. passes e.request) old.book) replies old
        new
        → CompletesAllWith passes outcome replies old new }
    ensures at_once_is_one_by_one { (passes : PendingRequest → Bool) (outcome : Outcome)
        → ((e : PendingRequest) → keeps_loan outcome e ≡ false)
        → (old : BookAndLoans) → BookIsWellFormed old.book → All (IsWellFormedEntry old.table) old.book
        → (replies : List Reply)
        (new : BookAndLoans) → CompletesAllWith passes outcome replies old new
        → (now : BookAndLoans) × AreResolved (λ e. Complete outcome) (filter (λ e. passes e.request) old.book) replies
        old
        now
        × (now.book ≡ new.book) × (now.kept ≡ new.kept) × SetsLoanOnly now.table new.table [] None }
{}
