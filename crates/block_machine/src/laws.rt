//! Laws about the definitions in specs/. The clause of each function is the law. The functions do nothing, and nothing
//! calls them. `D` is the type of the steps that a device can be asked to make: a law on runs holds for any device.

ghost use Rattle.std.specs.Prelude.{◌≡◌, ◌≢◌, ◌↔◌, ◌<◌, ℕ, Bool, IsTrue, true, false, List, [], ◌∷◌, ◌++◌, ◌≤◌, ◌&&◌, nat_lt, Option, Some, All, length, map, count_by, Contains};
ghost use Rattle.ata_types.specs.{declared.Port.{Port}, declared.PortState.TheVariants.{Ready}, declared.request.ClientId.{ClientId}, declared.request.Frame.{Frame}, declared.request.Request.{Request}, declared.request.RequestId.{RequestId}, declared.grant.GrantRow.{GrantRow}, declared.request.Outcome.{Outcome}, declared.request.Op.TheVariants.{Read}};
ghost use Rattle.block_machine.specs.{declared.due.QueueMode.{QueueMode}, declared.due.Unanswered.{Unanswered}, DueRequests.{IsDue, IsInOrder, is_plain, issued_count, is_due, unblocked_ahead_count, due_ahead_count, free_slots, with_issued, with_waiting, without_request, requests_of_port, due_of, AreDueInTurnAndLeaveNoneDue}, Ports.{Ports, PortsWellFormed}, Refusals.{AdmissionContext, IsAcceptable, MayAccessFrame}, Rules.{HasGrantName}};
ghost use Rattle.block_machine.specs.{State.{Block, Accepted, Pending, Machine, unanswered}, Steps.{Step, Touch, End, Issue, WaitAgain, Answer, Age, after_step, IsEnabled, MayAccept, IsInBookOrKept, AllTouched}, Expected.{IsInitial, AllStepsFaithful, HoldsExpected, after}, Confinement.{IsGranted, IsConfined, FramesAreAsAcceptedOutsideReadRange, HasFrame, KeepsNonFrameRulesAndHoldsFrames, WasAccepted, KeepsLimitsAndHoldsOwnFrames}};
ghost use Rattle.block_machine.specs.{Events.{AbstractState, CallRecord, AllEnabled, IsRun, EveryReadHoldsExpected, abstract_after_all, steps_of}, Histories.{IsReachable}};

/// Over every run of calls whose reads moved their disks' bytes: each read that is answered Ok has, at the end of the
/// call that answers it, sector by sector what the writes and trims accepted before it left, and the rest of its frames
/// is as it was when it was accepted.
pub fn law_answered_reads_hold_expected<D>()
    ensures { (first : AbstractState) (run : List (CallRecord D)) → IsRun first run
        → AllStepsFaithful first.machine (steps_of run)
        → EveryReadHoldsExpected first run }
{}

/// After every history whose reads moved their disks' bytes: an unanswered read with all its sectors touched since its
/// last issue has, sector by sector, what the writes and trims accepted before it left, and the rest of its frames is
/// as it was when it was accepted.
pub fn law_fully_touched_read_holds_expected()
    ensures { (start : Machine) (history : List Step) (read : Pending) → IsInitial start
        → AllEnabled start history
        → AllStepsFaithful start history → Contains (after start history).book read → AllTouched read
        → read.request.asked.op ≡ Read → HoldsExpected start history
        (after start history).memory read.request }
{}

/// Rows only go: each that is there was there at the start. Owners stay what they were.
pub fn law_rows_shrink_and_owners_stay()
    ensures { (start : Machine) (history : List Step)
        → ((row : GrantRow) → Contains (after start history).rows row → Contains start.rows row)
        × ((frame : Frame) → (after start history).owner frame ≡ start.owner frame) }
{}

/// The steps of a run came when they might, and lead to the run's machine: so the laws on histories of steps hold of
/// runs. Among them: each touch of a sector in it is of an accepted request's own sector, at a frame that is lent to
/// it; and each request that it issues was accepted, when it broke no rule, still breaks none by the rows as they are
/// when it is issued, and its frames are lent to it.
pub fn law_run_steps_are_enabled<D>()
    ensures steps_are_enabled { (first : AbstractState) (run : List (CallRecord D)) → IsRun first run
        → IsInitial first.machine × AllEnabled first.machine (steps_of run)
        × ((abstract_after_all first run).machine ≡ after first.machine (steps_of run)) }
    ensures touches { (first : AbstractState) (run : List (CallRecord D)) (late early : List Step) (e : Pending) (i : ℕ)
        (block : Block)
        → IsRun first run → steps_of run ≡ late ++ Touch e i block ∷ early
        → IsConfined first.machine early e.request i }
    ensures issues { (first : AbstractState) (run : List (CallRecord D)) (late early : List Step) (mode : QueueMode)
        (e : Pending)
        → IsRun first run → steps_of run ≡ late ++ Issue mode e ∷ early
        → WasAccepted first.machine early e.request
        × KeepsNonFrameRulesAndHoldsFrames (after first.machine early) e.request }
{}

/// Steps go on from what earlier ones left. After some, and then others, the machine is as after them all, and they may
/// all come if each part may. So a machine that is reached leads to others that are.
pub fn law_step_lists_compose()
    ensures after_joins { (m : Machine) (late early : List Step) → after m (late ++ early)
        ≡ after (after m early) late }
    ensures enabled_steps_join { (m : Machine) (late early : List Step) → AllEnabled m early
        → AllEnabled (after m early) late
        → AllEnabled m (late ++ early) }
    ensures reached { (m : Machine) (steps : List Step) → IsReachable m → AllEnabled m steps
        → IsReachable (after m steps) }
{}

/// No two requests of a book have one id.
pub fn law_one_id_is_in_the_book_once()
    ensures { (m : Machine) (a b : Pending) → IsReachable m → Contains m.book a → Contains m.book b
        → a.request.id.0 ≡ b.request.id.0 → a ≡ b }
{}

/// A request that is kept was answered: none of the book has its id.
pub fn law_kept_is_not_in_book()
    ensures { (m : Machine) (a b : Pending) → IsReachable m → Contains m.book a → Contains m.kept b
        → a.request.id.0 ≢ b.request.id.0 }
{}

/// An unanswered request that has ended is issued.
pub fn law_ended_is_issued()
    ensures { (m : Machine) (e : Pending) → IsReachable m → Contains m.book e → e.ended ≡ true
        → e.issued ≡ true }
{}

/// A frame that is lent to a request which is unanswered or kept is one of its own.
pub fn law_lent_frame_is_of_its_request()
    ensures { (m : Machine) (frame : Frame) (e : Pending) → IsReachable m → IsInBookOrKept m e
        → m.lent frame ≡ Some e.request.id → HasFrame e.request frame }
{}

/// Each touch of a sector is of an accepted request's own sector, at a frame that is lent to it.
pub fn law_touch_is_confined()
    ensures { (start : Machine) (history : List Step) (e : Pending) (i : ℕ) (block : Block)
        → IsInitial start
        → AllEnabled start history → IsEnabled (after start history) (Touch e i block)
        → IsConfined start history e.request i }
{}

/// Each request that is issued was accepted, when it broke no rule. By the rows as they are when it is issued it breaks
/// none on its grant, nor on how many sectors and frames it has; and its frames are lent to it.
pub fn law_issued_was_accepted_and_granted_at_issue()
    ensures { (start : Machine) (history : List Step) (mode : QueueMode) (e : Pending) → IsInitial start
        → AllEnabled start history → IsEnabled (after start history) (Issue mode e)
        → WasAccepted start history e.request × KeepsNonFrameRulesAndHoldsFrames (after start history) e.request }
{}

/// A request that is accepted is within a row of its client.
pub fn law_accepted_is_granted()
    ensures { (m : Machine) (r : Accepted) → MayAccept m r → IsGranted m.rows r }
{}

/// Each request that is unanswered or kept was accepted.
pub fn law_request_in_book_or_kept_was_accepted()
    ensures { (start : Machine) (history : List Step) (e : Pending) → IsInitial start
        → AllEnabled start history
        → IsInBookOrKept (after start history) e → WasAccepted start history e.request }
{}

/// A frame that is lent is lent to an accepted request, and is one of its own.
pub fn law_lent_frame_is_of_accepted_request()
    ensures { (start : Machine) (history : List Step) (frame : Frame) (id : RequestId) → IsInitial start
        → AllEnabled start history → (after start history).lent frame ≡ Some id
        → (r : Accepted) × WasAccepted start history r × (r.id ≡ id) × HasFrame r frame }
{}

/// One id is one request, in the whole history.
pub fn law_one_id_is_one_request()
    ensures { (start : Machine) (history : List Step) (one other : Accepted)
        → WasAccepted start history one
        → WasAccepted start history other → one.id ≡ other.id → one ≡ other }
{}

/// The frames of a request that is unanswered or kept hold what they held when it was accepted, except for the sectors
/// of a read. So the device moves a write's own bytes.
pub fn law_frames_keep_bytes_outside_read_range()
    ensures { (start : Machine) (history : List Step) (e : Pending) → IsInitial start
        → AllEnabled start history
        → IsInBookOrKept (after start history) e → FramesAreAsAcceptedOutsideReadRange (after start history) e.request }
{}

/// In a machine that is reached a client and a number name one row at most.
pub fn law_a_grant_name_is_of_at_most_one_row()
    ensures { (m : Machine) (client : ClientId) (number : ℕ) (a b : GrantRow) → IsReachable m → Contains m.rows a
        → HasGrantName client number a → Contains m.rows b → HasGrantName client number b → a ≡ b }
{}

/// The frames of an acceptable request are its client's, and so is one that a client may access.
pub fn law_lendable_or_accessible_frames_are_owned()
    ensures acceptable { (s : AdmissionContext) (r : Request) → IsAcceptable s r
        → All (λ frame. s.owner frame ≡ Some r.client) r.frames.items }
    ensures accessible { (owner : Frame → Option ClientId) (lent : Frame → Option RequestId) (client : ClientId)
        (frame : Frame) (offset count : ℕ) → MayAccessFrame owner lent client frame offset count
        → owner frame ≡ Some client }
{}

/// A port that is ready is served, and one of the first four.
pub fn law_ready_ports_are_served()
    ensures { (ports : Ports) (port : Port) → PortsWellFormed ports → ports.state port ≡ Ready
        → (ports.served port ≡ true) × (port.0 < 4) }
{}

/// The limits hold after every history; and the frames of each request that is unanswered or kept are its client's, and
/// lent to it.
pub fn law_book_limits_hold_and_frames_are_lent()
    ensures { (start : Machine) (history : List Step) → IsInitial start → AllEnabled start history
        → KeepsLimitsAndHoldsOwnFrames (after start history) }
{}

/// The book stands in order of acceptance.
pub fn law_book_in_order()
    ensures { (start : Machine) (history : List Step) → IsInitial start → AllEnabled start history
        → IsInOrder (map unanswered (after start history).book) }
{}

/// A due request finds a free slot: a plain one a port with nothing issued, a queued one fewer issued than are usable.
pub fn law_due_finds_slot()
    ensures { (mode : QueueMode) (book : List Unanswered) (r : Unanswered) → IsDue mode book r
        → (is_plain mode r.op ≡ true → issued_count book r.port ≡ 0)
        × (is_plain mode r.op ≡ false → issued_count book r.port < mode.usable_slots) }
{}

/// After a due request is issued, another request of its port is due exactly if it was due before.
pub fn law_issue_leaves_others_due_as_before()
    ensures { (mode : QueueMode) (book : List Unanswered) (r other : Unanswered) → IsInOrder book
        → IsDue mode book r
        → Contains book other → other.id ≢ r.id → other.port ≡ r.port
        → IsDue mode book other ↔ IsDue mode (with_issued r.id book) other }
{}

/// A request that is issued isn't due.
pub fn law_issued_is_not_due()
    ensures { (mode : QueueMode) (book : List Unanswered) (r : Unanswered) → r.issued ≡ true
        → ¬ IsDue mode book r }
{}

/// A slot is left for a request whether the earlier ones of its port are counted as clear to go or as due.
pub fn law_counts_ahead_agree_on_slot_left()
    ensures { (mode : QueueMode) (book : List Unanswered) (r : Unanswered) → IsInOrder book
        → Contains book r
        → (unblocked_ahead_count mode book r < free_slots mode book r.port) ↔
        (due_ahead_count mode book r < free_slots mode book r.port) }
{}

/// In a book in order, those that stand before a request are those that were accepted before it.
pub fn law_earlier_ones_stand_before()
    ensures { (passes : Unanswered → Bool) (front back : List Unanswered) (r : Unanswered)
        → IsInOrder (front ++ r ∷ back) → count_by (λ other. nat_lt other.id.0 r.id.0 && passes other)
        (front ++ r ∷ back) ≡ count_by passes front }
{}

/// A request of the book is due exactly if the test says so.
pub fn law_due_test_is_exact()
    ensures { (mode : QueueMode) (book : List Unanswered) (r : Unanswered) → Contains book r
        → IsTrue (is_due mode book r) ↔ IsDue mode book r }
{}

/// A request of the port is due exactly if it is one of the port's due requests, and these are of the port.
pub fn law_due_of_port_is_exact()
    ensures exact { (mode : QueueMode) (port : Port) (book : List Unanswered) (r : Unanswered) → r.port ≡ port
        → Contains (due_of mode port book) r ↔ IsDue mode book r }
    ensures due_are_of_port { (mode : QueueMode) (port : Port) (book : List Unanswered) (r : Unanswered)
        → Contains (due_of mode port book) r → r.port ≡ port }
{}

/// Once a due request is issued, the others of its port that were due are the due ones.
pub fn law_issue_removes_only_that_request_from_due()
    ensures { (mode : QueueMode) (port : Port) (book : List Unanswered) (r : Unanswered) → IsInOrder book
        → IsDue mode book r → r.port ≡ port
        → due_of mode port (with_issued r.id book) ≡ without_request r.id (due_of mode port book) }
{}

/// The due requests of a port may be issued one after the other, each of them due when its turn comes; then none is
/// due.
pub fn law_issuing_due_in_turn_leaves_none_due()
    ensures { (mode : QueueMode) (port : Port) (book : List Unanswered) → IsInOrder book
        → AreDueInTurnAndLeaveNoneDue mode port (map (λ r. r.id) (due_of mode port book)) book }
{}

/// A port that takes plain commands alone has one due request at most, and none while one is issued. It is the first of
/// those that wait.
pub fn law_plain_ports_have_at_most_one_due()
    ensures one_at_most { (mode : QueueMode) (port : Port) (book : List Unanswered) → IsInOrder book → mode.queued
        ≡ false
        → length (due_of mode port book) ≤ 1 }
    ensures none_while_issued { (mode : QueueMode) (port : Port) (book : List Unanswered) (r : Unanswered)
        → mode.queued ≡ false
        → Contains book r → r.port ≡ port → r.issued ≡ true → due_of mode port book ≡ [] }
    ensures is_first_waiting { (mode : QueueMode) (port : Port) (book : List Unanswered) (r : Unanswered)
        → IsInOrder book
        → mode.queued ≡ false → Contains book r → r.port ≡ port
        → ((other : Unanswered) → Contains book other → other.port ≡ port → (other.issued ≡ false)
        × (r.id.0 ≤ other.id.0))
        → due_of mode port book ≡ r ∷ [] }
{}

/// Which requests of a port are due depends on the port's own requests.
pub fn law_due_depends_on_own_port()
    ensures due_list_is_the_same { (mode : QueueMode) (port : Port) (book other : List Unanswered)
        → requests_of_port port book ≡ requests_of_port port other → due_of mode port book ≡ due_of mode port other }
    ensures due_is_the_same { (mode : QueueMode) (port : Port) (book other : List Unanswered) (r : Unanswered)
        → requests_of_port port book ≡ requests_of_port port other → r.port ≡ port
        → IsDue mode book r ↔ IsDue mode other r }
{}

/// A request that is issued, waits again or is answered on one port leaves the requests of another as they are.
pub fn law_issue_requeue_answer_keep_other_ports()
    ensures issued { (port : Port) (book : List Unanswered) (r : Unanswered) → IsInOrder book → Contains book r
        → r.port ≢ port → requests_of_port port (with_issued r.id book) ≡ requests_of_port port book }
    ensures waiting { (port : Port) (book : List Unanswered) (r : Unanswered) → IsInOrder book → Contains book r
        → r.port ≢ port → requests_of_port port (with_waiting r.id book) ≡ requests_of_port port book }
    ensures answered { (port : Port) (book : List Unanswered) (r : Unanswered) → IsInOrder book → Contains book r
        → r.port ≢ port → requests_of_port port (without_request r.id book) ≡ requests_of_port port book }
{}

/// What steps on requests of the book leave of the list that says which are due: an issue, a wait and an answer change
/// it; an ageing, a touch and an end don't.
pub fn law_unanswered_follow_issue_requeue_answer()
    ensures issue { (m : Machine) (mode : QueueMode) (e : Pending)
        → map unanswered (after_step m (Issue mode e)).book ≡ with_issued e.request.id (map unanswered m.book) }
    ensures wait_again { (m : Machine) (e : Pending)
        → map unanswered (after_step m (WaitAgain e)).book ≡ with_waiting e.request.id (map unanswered m.book) }
    ensures answer { (m : Machine) (e : Pending) (outcome : Outcome)
        → map unanswered (after_step m (Answer e outcome)).book ≡ without_request e.request.id (map unanswered m.book) }
    ensures age { (m : Machine) (ports : Port → Bool)
        → map unanswered (after_step m (Age ports)).book ≡ map unanswered m.book }
    ensures touch { (m : Machine) (e : Pending) (i : ℕ) (block : Block)
        → map unanswered (after_step m (Touch e i block)).book ≡ map unanswered m.book }
    ensures end { (m : Machine) (e : Pending)
        → map unanswered (after_step m (End e)).book ≡ map unanswered m.book }
{}
