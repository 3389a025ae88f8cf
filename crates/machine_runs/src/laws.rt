//! Laws over whole histories and runs, and laws that such runs exist. The clause of each function is the law. The
//! functions do nothing, and nothing calls them. `D` is the type of the steps that a device can be asked to make: a law
//! on runs holds for any device.

ghost use Rattle.std.specs.Prelude.{◌≡◌, ◌≢◌, ◌⊎◌, ◌+◌, ◌<◌, ◌≤◌, ◌==◌, ℕ, false, true, List, ◌∷◌, ◌++◌, cond, count_by, Contains};
ghost use Rattle.ata_types.specs.{declared.Port.{Port}, declared.PortState.TheVariants.{Ready, Dead}, declared.request.Frame.{Frame}, declared.request.RequestId.{RequestId}, declared.request.Op.TheVariants.{Flush}, declared.request.Outcome.{Outcome}, declared.request.Outcome.TheVariants.{Ok, Aborted}, declared.request.Reply.{Reply}, declared.grant.GrantRow.{GrantRow}};
ghost use Rattle.block_machine.specs.{DueRequests.{conflict_on_port_by_flush_or_overlap}, State.{Block, Accepted, Pending, Machine, sector_of, newly_unanswered}, Steps.{Step, Answer, HasGrant, after_step, IsInBookOrKept, IsIssuedOrKept}, Expected.{IsInitial, HasTouched, HasTouchedSinceIssue, HasEndedSinceIssue, IsExpectedBlock, after, bytes_when_plugged, disk_number_read}, Confinement.{GrantsNoWriteOrTrim, WasAccepted, MayChangeByte, MayChangeSector}};
ghost use Rattle.block_machine.specs.Events.{AbstractState, AllEnabled, CallRecord, NoneDueWhereReady, Happens, EveryReadHoldsExpected, IsLawfulAnswer, IsRun, LastServiceOrResetIsStuckReset, accepts_id, answers_id, issues_id, gives_id, replies_of, all_replies, WasGivenId, abstract_after_all, steps_of};
ghost use Rattle.machine_runs.specs.{AnswerOrigins.{SubmitsAndIsGivenId, WasUnansweredBefore, CallAnswersOk, WasSubmittedAndGivenId, requeues_id}, RevocationRuns.{RevokesWhileIssued}, ExampleRuns.{FindsFlushedOrLater, WaitsItsTurn, ResetReleasesFrameOfDeadPort, ServiceHandlesTwoFailedPorts, TickAnswersEnded, TickFindsUnplugged, ResetsReissueThenAbort, PortStuckInBootAnswersPortDead, ReadsWrongWithoutKeptRule}};

/// If no grant lets its client write or trim, what is left on a sector for a read is what the disk that the read found
/// there held when it was put in.
pub fn law_expected_is_plugged_if_no_write_trim_grants()
    ensures { (start : Machine) (history : List Step) (read : Accepted) (sector : ℕ) (block : Block)
        → IsInitial start → AllEnabled start history
        → ((row : GrantRow) → Contains start.rows row → GrantsNoWriteOrTrim row)
        → IsExpectedBlock start history read sector block
        → block ≡ bytes_when_plugged start read.port (disk_number_read read sector history) history sector }
{}

/// What is left on a sector is one block.
pub fn law_expected_is_unique()
    ensures { (start : Machine) (history : List Step) (read : Accepted) (sector : ℕ)
        (one other : Block)
        → IsInitial start → AllEnabled start history → IsExpectedBlock start history read sector one
        → IsExpectedBlock start history read sector other → one ≡ other }
{}

/// What is left for a read that was answered stays what it is: no write or trim accepted before it touches the sector
/// any more, however long the run goes on.
pub fn law_expected_stays_once_read_is_answered()
    ensures { (start : Machine) (history : List Step) (step : Step) (read : Accepted)
        (sector disk : ℕ) (block : Block)
        → IsInitial start → AllEnabled start (step ∷ history) → HasTouched read sector disk history
        → ((e : Pending) → IsInBookOrKept (after start history) e → e.request.id ≢ read.id)
        → IsExpectedBlock start history read sector block → IsExpectedBlock start (step ∷ history) read sector block }
{}

/// A run exists in which a third tick issues a request again, a reset is stuck, a service answers the request PortDead,
/// and a later reset, which ends, gives its frame back.
pub fn law_a_run_where_reset_frees_kept_frame_exists()
    ensures { ResetReleasesFrameOfDeadPort }
{}

/// If a run answers a request Ok, each of its sectors was touched, and since then the request wasn't issued again.
pub fn law_ok_was_touched<D>()
    ensures { (first : AbstractState) (run : List (CallRecord D)) (late early : List Step) (e : Pending)
        → IsRun first run → steps_of run ≡ late ++ Answer e Ok ∷ early
        → (i : ℕ) → i < e.request.asked.count
        → HasTouchedSinceIssue e.request (sector_of e.request i) early }
{}

/// Over every run an id is accepted once at most.
pub fn law_accepted_at_most_once<D>()
    ensures { (first : AbstractState) (run : List (CallRecord D)) (id : RequestId) → IsRun first run
        → count_by (accepts_id id) (steps_of run) ≤ 1 }
{}

/// Over every run a request is answered once at most.
pub fn law_answered_at_most_once<D>()
    ensures { (first : AbstractState) (run : List (CallRecord D)) (id : RequestId) → IsRun first run
        → count_by (answers_id id) (steps_of run) ≤ 1 }
{}

/// Each request that a run answers was accepted before.
pub fn law_answered_was_accepted<D>()
    ensures { (first : AbstractState) (run : List (CallRecord D)) (late early : List Step) (e : Pending)
        (outcome : Outcome) → IsRun first run → steps_of run ≡ late ++ Answer e outcome ∷ early
        → WasAccepted first.machine early e.request }
{}

/// Over every run one submit at most gives an id.
pub fn law_ids_are_given_at_most_once<D>()
    ensures { (first : AbstractState) (run : List (CallRecord D)) (id : RequestId) → IsRun first run
        → count_by (λ event. gives_id id event.result) run ≤ 1 }
{}

/// Over every run an id stands in one reply at most.
pub fn law_replied_at_most_once<D>()
    ensures { (first : AbstractState) (run : List (CallRecord D)) (id : RequestId) → IsRun first run
        → count_by (λ reply. reply.id.0 == id.0) (all_replies run) ≤ 1 }
{}

/// Each reply of a call goes to a client, with an id that an earlier submit of that client gave.
pub fn law_replied_id_was_given_to_its_client<D>()
    ensures { (first : AbstractState) (past : List (CallRecord D)) (event : CallRecord D) (reply : Reply)
        → IsRun first (event ∷ past) → Contains (replies_of event.result) reply
        → WasGivenId reply.id reply.client past }
{}

/// Each request that was accepted is one for which a submit of the run asked.
pub fn law_accepted_was_asked<D>()
    ensures { (first : AbstractState) (run : List (CallRecord D)) (r : Accepted) → IsRun first run
        → WasAccepted first.machine (steps_of run) r → WasSubmittedAndGivenId r run }
{}

/// Each reply of a call is an answer of its steps, to a request for which an earlier submit of the run asked.
pub fn law_replied_was_asked<D>()
    ensures { (first : AbstractState) (past : List (CallRecord D)) (event : CallRecord D) (reply : Reply)
        → IsRun first (event ∷ past) → Contains (replies_of event.result) reply
        → (e : Pending) × Contains event.steps (Answer e reply.outcome) × (e.request.id ≡ reply.id)
        × (e.request.asked.client ≡ reply.client) × WasSubmittedAndGivenId e.request past }
{}

/// An unanswered request was there before the last call of a run. That call issues it if it is issued now, and wasn't
/// before. Or that call is the submit which asked for it.
pub fn law_unanswered_was_there_or_just_asked<D>()
    ensures { (first : AbstractState) (past : List (CallRecord D)) (event : CallRecord D) (e : Pending)
        → IsRun first (event ∷ past) → Contains (abstract_after_all first (event ∷ past)).machine.book e
        → WasUnansweredBefore (abstract_after_all first past).machine event.steps e
        ⊎ SubmitsAndIsGivenId e.request event }
{}

/// What a call of a run answers Ok was served before: it was accepted and issued, its sectors were touched, and it has
/// ended. If each read of the run holds what is left, a read that is answered so has it at the call's end.
pub fn law_ok_was_served<D>()
    ensures { (first : AbstractState) (past : List (CallRecord D)) (event : CallRecord D) (e : Pending)
        → IsRun first (event ∷ past) → EveryReadHoldsExpected first (event ∷ past)
        → Contains event.steps (Answer e Ok) → CallAnswersOk first past event e }
{}

/// At each moment of a run the only unanswered request is issued, if its port is ready.
pub fn law_sole_book_request_is_issued_if_ready<D>()
    ensures { (first : AbstractState) (run : List (CallRecord D)) (e : Pending) → IsRun first run
        → Contains (abstract_after_all first run).machine.book e
        → (abstract_after_all first run).ports.state e.request.port ≡ Ready
        → ((other : Pending) → Contains (abstract_after_all first run).machine.book other → other.request.id
        ≡ e.request.id)
        → e.issued ≡ true }
{}

/// What has to stand behind an answer stands behind each that a call of a run gives.
pub fn law_answers_are_lawful<D>()
    ensures { (first : AbstractState) (past : List (CallRecord D)) (event : CallRecord D) (e : Pending)
        (outcome : Outcome)
        → IsRun first (event ∷ past) → Contains event.steps (Answer e outcome)
        → IsLawfulAnswer (abstract_after_all first past) event.evidence event.ports e outcome }
{}

/// A port that is dead after a call was dead when it began, or its engine or the adapter got stuck in it. So this
/// stands behind each request that is answered PortDead.
pub fn law_ports_die_only_when_stuck<D>()
    ensures { (old : AbstractState) (event : CallRecord D) (port : Port) → Happens old event
        → event.ports.state port ≡ Dead
        → (old.ports.state port ≡ Dead) ⊎ Contains event.evidence.stuck port }
{}

/// Over every run a request is issued four times at most, and one that is answered Aborted was issued four times.
pub fn law_issued_four_times_at_most<D>()
    ensures four_at_most { (first : AbstractState) (run : List (CallRecord D)) (id : RequestId) → IsRun first run
        → count_by (issues_id id) (steps_of run) ≤ 4 }
    ensures aborted { (first : AbstractState) (run : List (CallRecord D)) (late early : List Step) (e : Pending)
        → IsRun first run → steps_of run ≡ late ++ Answer e Aborted ∷ early
        → count_by (issues_id e.request.id) (steps_of run) ≡ 4 }
{}

/// If a run answers a request Ok, the device ended it, and since then it wasn't issued again.
pub fn law_ok_was_ended<D>()
    ensures { (first : AbstractState) (run : List (CallRecord D)) (late early : List Step) (e : Pending)
        → IsRun first run → steps_of run ≡ late ++ Answer e Ok ∷ early
        → HasEndedSinceIssue e.request early }
{}

/// After every history an unanswered request was issued as often as it says: if it is issued, once more than it was
/// made to wait again, and otherwise as often.
pub fn law_book_issue_counts_match_history()
    ensures { (start : Machine) (history : List Step) (e : Pending) → IsInitial start → AllEnabled start history
        → Contains (after start history).book e
        → (count_by (issues_id e.request.id) history ≡ e.issue_count)
        × (count_by (issues_id e.request.id) history ≡ count_by (requeues_id e.request.id) history + cond e.issued 1
        0) }
{}

/// A call issues a request once at most.
pub fn law_issued_at_most_once_a_call<D>()
    ensures { (old : AbstractState) (event : CallRecord D) (id : RequestId) → Happens old event
        → count_by (issues_id id) event.steps ≤ 1 }
{}

/// At each moment of a run no request of a ready port is due: calls that issue leave none, and no other makes one due.
pub fn law_none_due_where_ready_between_calls<D>()
    ensures { (first : AbstractState) (run : List (CallRecord D)) → IsRun first run
        → NoneDueWhereReady (abstract_after_all first run) }
{}

/// At each moment of a run the age of an issued request is two at most: the tick that would bring it to three restarts
/// its port.
pub fn law_issued_ages_are_at_most_two<D>()
    ensures { (first : AbstractState) (run : List (CallRecord D)) (e : Pending) → IsRun first run
        → Contains (abstract_after_all first run).machine.book e → e.issued ≡ true → e.age ≤ 2 }
{}

/// At each moment of a run an unanswered request is on a port that is ready, or on one that is dead after a reset that
/// got stuck, if no service, and no reset that finished, came since.
pub fn law_port_of_unanswered_is_ready_or_reset_stuck<D>()
    ensures { (first : AbstractState) (run : List (CallRecord D)) (e : Pending) → IsRun first run
        → Contains (abstract_after_all first run).machine.book e
        → ((abstract_after_all first run).ports.state e.request.port ≡ Ready)
        ⊎ (((abstract_after_all first run).ports.state e.request.port ≡ Dead) × LastServiceOrResetIsStuckReset run) }
{}

/// At each moment of a run the sectors of an unanswered request are sectors that its port's disk showed to have.
pub fn law_unanswered_sectors_are_on_disk<D>()
    ensures { (first : AbstractState) (run : List (CallRecord D)) (e : Pending) → IsRun first run
        → Contains (abstract_after_all first run).machine.book e → e.request.asked.op ≢ Flush
        → e.request.asked.first.0 + e.request.asked.count
        ≤ (abstract_after_all first run).ports.sectors e.request.port }
{}

/// At each moment of a run a kept request is on a dead port: so nothing that is due waits for kept requests.
pub fn law_kept_only_where_dead<D>()
    ensures { (first : AbstractState) (run : List (CallRecord D)) (e : Pending) → IsRun first run
        → Contains (abstract_after_all first run).machine.kept e
        → (abstract_after_all first run).ports.state e.request.port ≡ Dead }
{}

/// A byte of a frame changes only by a touch of a read that the frame is lent to, or by its owner's store while it is
/// lent to none.
pub fn law_frame_bytes_change_only_by_touch_or_store()
    ensures { (start : Machine) (history : List Step) (step : Step) (frame : Frame) (place : ℕ)
        → IsInitial start → AllEnabled start (step ∷ history)
        → (after start (step ∷ history)).memory frame place ≢ (after start history).memory frame place
        → MayChangeByte (after start history) step frame place }
{}

/// A sector of a port's disk changes by a touch of it by a write or trim of the port, or by a disk that is put in.
pub fn law_sectors_change_by_touch_or_plug()
    ensures { (m : Machine) (step : Step) (port : Port) (sector place : ℕ)
        → (after_step m step).disk_bytes port sector place ≢ m.disk_bytes port sector place
        → MayChangeSector step port sector }
{}

/// Of two requests that conflict, the later one may be moved only once the earlier one is neither unanswered nor kept:
/// so the device writes no sector for a request while an earlier trim of the sector may clear it, and clears none that
/// a write accepted after the trim has written.
pub fn law_later_conflicting_waits_for_earlier()
    ensures { (start : Machine) (history : List Step) (earlier later : Pending) → IsInitial start
        → AllEnabled start history
        → IsInBookOrKept (after start history) earlier → IsIssuedOrKept (after start history) later
        → earlier.request.id.0 < later.request.id.0
        → conflict_on_port_by_flush_or_overlap (newly_unanswered earlier.request) (newly_unanswered later.request)
        ≡ true
        → ⊥ }
{}

/// A machine to begin with exists.
pub fn law_an_initial_machine_exists()
    ensures { (m : Machine) × IsInitial m }
{}

/// A run exists in which a read finds a flushed write or a later one, whichever the disk kept while it was out: so the
/// laws on reads and on flushed writes have something to say.
pub fn law_a_replug_run_exists()
    ensures { FindsFlushedOrLater }
{}

/// A run exists in which a request waits for another, and is issued by the call that answers that one.
pub fn law_a_run_with_a_waiting_request_exists()
    ensures { WaitsItsTurn }
{}

/// Between any two calls of a run a request that waits has its grant: it is never due and yet not to be issued.
pub fn law_what_waits_has_its_grant<D>()
    ensures { (first : AbstractState) (run : List (CallRecord D)) (e : Pending) → IsRun first run
        → Contains (abstract_after_all first run).machine.book e → e.issued ≡ false
        → HasGrant (abstract_after_all first run).machine e }
{}

/// A run exists in which a grant is revoked while a request of it is issued and another waits: this one is answered
/// Revoked, and that one Ok. Another run exists in which that one, whose port fails, is answered Revoked in place of
/// being issued again.
pub fn law_a_revoking_run_exists()
    ensures { RevokesWhileIssued }
{}

/// A run exists in which two ports serve requests, the one fails and the other loses its disk, and a fault, an
/// unplugged request, one that is issued anew and one that is aborted are answered as they have to be.
pub fn law_a_run_with_two_failed_ports_exists()
    ensures { ServiceHandlesTwoFailedPorts }
{}

/// A run exists in which a tick answers a request that had ended.
pub fn law_a_run_where_tick_tells_ended_ok_exists()
    ensures { TickAnswersEnded }
{}

/// A run exists in which a tick finds a port hung whose disk was taken out, and answers its requests Unplugged, issued
/// or not.
pub fn law_a_run_where_tick_finds_disk_gone_exists()
    ensures { TickFindsUnplugged }
{}

/// A run exists in which resets issue a request anew, abort it after its fourth issue, and issue one that waited for
/// it.
pub fn law_a_run_where_fourth_reset_aborts_exists()
    ensures { ResetsReissueThenAbort }
{}

/// A run exists in which a port meets a fatal error, is stopped by a service, and gets stuck in its boot.
pub fn law_a_run_with_dead_port_exists()
    ensures { PortStuckInBootAnswersPortDead }
{}

/// Without the rule on kept requests a read may go wrong.
pub fn law_the_kept_rule_is_needed()
    ensures { ReadsWrongWithoutKeptRule }
{}
