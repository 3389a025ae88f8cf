// A port's turn in a service, or in a tick.
ghost use Rattle.std.specs.Prelude.{ℕ, ◌≡◌, ◌⊎◌, ◌<◌, ◌≤◌, ◌+◌, ◌↔◌, IsTrue, List, length, true, false};
ghost use Rattle.adapter.specs.{AccessBounds.{MakesAtMost}, OneCommand.{SlotHasNoCommand}};
ghost use Rattle.ata_types.specs.declared.PortState.TheVariants.{Ready};
ghost use Rattle.port_driver.specs.{Costs.{ISSUE_DUE_ACCESSES, TURN_ACCESSES, port_error_accesses}, PortAndShared.{HasNoneDueAndParts, TakesTurn, ServesReadyOrProbesUnready, RestartsOverdueOrRests, with_served_port}, Recovery.{HandlesPortErrorOf, IsInError}};
ghost use Rattle.hba_regs.specs.Bits.{bit};
ghost use Rattle.request_queue.specs.BookEntries.{BookEntry, HasOverdueOn};
ghost use Rattle.server_history.specs.{IssuingAndAnswering.{AnswersDoneAndIssues}, ServerState.{ServerState, InvariantWithNoneDue, state_of}, Turns.{ProbesUnready, ServicesPort, is_ready}};

use crate::answering::answer_done;
use crate::dispositions::DispositionInputs;
use crate::probing::{needs_probe, probe_anew};
use crate::recovery::{error_of, resume_or_reboot, revalidation_of, sort_replies_from};
use crate::served_port::{ServedPort, Shared};
use adapter::Adapter;
use ata_types::{MOST_UNANSWERED_OF_ALL_CLIENTS, Port, PortState, Replies};
use host_boot::ProbeResult;
use ncq::done;
use port_control::events::{PortError, take_event};
use server_history::laws::{
    law_answer_and_issue_leave_none_due, law_handling_look_result_is_a_service_turn,
    law_handling_timeout_is_a_restart_turn, law_looks_preserve_invariant,
    law_probe_of_unready_port_is_a_service_turn, law_resolved_errors_keep_in_call_invariant,
};

impl ServedPort {
    /// Answers the requests of a ready port whose slots were found done (bit k is slot k), in order of acceptance:
    /// their frames are given back. Then what is due on the port is issued.
    fn answer_and_issue<A: Adapter>(
        &mut self,
        adapter: &mut A,
        shared: &mut Shared,
        port: Port,
        finished: u32,
        replies: &mut Replies,
    )
        requires ready { state_of self.old.probe_result ≡ Ready }
        requires none_due { (s : ServerState) × HasNoneDueAndParts s (A.device adapter.old) shared.old port self.old }
        requires over { (slot : ℕ) → slot < 32 → bit finished slot ≡ true
            → SlotHasNoCommand ((A.device adapter.old).port port.0) slot }
        requires room { length replies.old.items + length shared.old.book ≤ MOST_UNANSWERED_OF_ALL_CLIENTS }
        ensures finishes { (s : ServerState) → HasNoneDueAndParts s (A.device adapter.old) shared.old port self.old
            → TakesTurn (AnswersDoneAndIssues port finished) replies.old.items replies.new.items s
            (with_served_port s (A.device adapter.new) shared.new port self.new) }
        ensures room { length replies.new.items + length shared.new.book ≤ MOST_UNANSWERED_OF_ALL_CLIENTS }
        ensures cost { MakesAtMost ISSUE_DUE_ACCESSES (A.access_count adapter.old) (A.access_count adapter.new) }
    {
        law_answer_and_issue_leave_none_due();
        answer_done(
            &mut shared.book,
            &mut shared.table,
            &mut self.slots,
            finished,
            replies,
        );
        self.issue_due(adapter, &mut shared.book, port);
    }

    /// Handles the error of a ready port. What is done is answered. Where a command had failed, it is found out which
    /// one, and the port is had to run again, by a boot where that is needed; where its link or the host's bus had, or
    /// a request is hung, it is booted anew; where its disk was lost, if a device shows. The request whose command
    /// failed is told so. The others wait again where their disk is there still, but are `Revoked` where their grant
    /// was, and `Aborted` after the fourth issue; where it isn't they are `Unplugged`, and where the port is dead
    /// `PortDead`. Then what is due is issued.
    fn handle_error<A: Adapter>(
        &mut self,
        adapter: &mut A,
        shared: &mut Shared,
        port: Port,
        port_error: PortError,
        replies: &mut Replies,
    )
        requires sees { (s : ServerState)
            × IsInError s (A.device adapter.old) shared.old port self.old port_error }
        requires room { length replies.old.items + length shared.old.book ≤ MOST_UNANSWERED_OF_ALL_CLIENTS }
        ensures handles { (s : ServerState) → IsInError s (A.device adapter.old) shared.old port self.old port_error
            → TakesTurn (HandlesPortErrorOf port port_error) replies.old.items replies.new.items s
            (with_served_port s (A.device adapter.new) shared.new port self.new) }
        ensures room { length replies.new.items + length shared.new.book ≤ MOST_UNANSWERED_OF_ALL_CLIENTS }
        ensures cost { MakesAtMost (port_error_accesses port_error)
            (A.access_count adapter.old) (A.access_count adapter.new) }
    {
        law_resolved_errors_keep_in_call_invariant();
        law_handling_look_result_is_a_service_turn();
        law_handling_timeout_is_a_restart_turn();
        let ProbeResult::Ready(was) = self.probe_result else {
            unreachable!()
        };
        let first = replies.len();
        let (failed, next) = self.complete_and_recover(adapter, shared, port, port_error, replies);
        let (found, mode) = resume_or_reboot(
            adapter,
            port_error,
            next,
            &was,
            self.mode,
            &self.wanted,
        );
        self.replace_probe_result_and_free_slots(found, mode);
        let stopped = DispositionInputs {
            failed,
            revalidation: revalidation_of(port_error, &was, &found),
        };
        shared.resolve(&mut self.kept, port, &stopped, replies);
        sort_replies_from(replies, first);
        self.issue_where_ready(adapter, &mut shared.book, port);
    }

    /// Looks at a ready port. Where commands of what it has issued are done, those requests are answered, and then what
    /// is due is issued. Where the look tells an error, it is handled.
    fn service_ready<A: Adapter>(
        &mut self,
        adapter: &mut A,
        shared: &mut Shared,
        port: Port,
        replies: &mut Replies,
    )
        requires ready { state_of self.old.probe_result ≡ Ready }
        requires none_due { (s : ServerState) × HasNoneDueAndParts s (A.device adapter.old) shared.old port self.old }
        requires room { length replies.old.items + length shared.old.book ≤ MOST_UNANSWERED_OF_ALL_CLIENTS }
        ensures serves { (s : ServerState) → HasNoneDueAndParts s (A.device adapter.old) shared.old port self.old
            → TakesTurn (ServicesPort port) replies.old.items replies.new.items s
            (with_served_port s (A.device adapter.new) shared.new port self.new) }
        ensures room { length replies.new.items + length shared.new.book ≤ MOST_UNANSWERED_OF_ALL_CLIENTS }
        ensures cost { MakesAtMost TURN_ACCESSES (A.access_count adapter.old) (A.access_count adapter.new) }
    {
        law_looks_preserve_invariant();
        law_handling_look_result_is_a_service_turn();
        let look = take_event(adapter, port);
        if let Some(port_error) = error_of(look) {
            return self.handle_error(adapter, shared, port, port_error, replies);
        }
        let used = self.slots.taken();
        if used == 0 {
            return;
        }
        let finished = done(adapter, port, used);
        if finished != 0 {
            self.answer_and_issue(adapter, shared, port, finished, replies);
        }
    }

    /// Looks at a port that isn't ready. Where an absent one shows a device, or one whose disk isn't served shows that
    /// it is another by now, or gone, the port is stopped and booted. Nobody waits for it, so that nobody is answered.
    /// A dead port isn't looked at: no access is made.
    fn probe<A: Adapter>(&mut self, adapter: &mut A, port: Port, state: PortState)
        requires unready { self.old.probe_result ≡ ProbeResult.Unready state }
        requires none_due { (s : ServerState) × (shared : Shared)
            × HasNoneDueAndParts s (A.device adapter.old) shared port self.old }
        ensures probes { (s : ServerState) (shared : Shared)
            → HasNoneDueAndParts s (A.device adapter.old) shared port self.old
            → ProbesUnready port s (with_served_port s (A.device adapter.new) shared port self.new)
            × InvariantWithNoneDue (with_served_port s (A.device adapter.new) shared port self.new) }
        ensures dead { state ≡ PortState.Dead → adapter.new ≡ adapter.old }
        ensures cost { MakesAtMost TURN_ACCESSES (A.access_count adapter.old) (A.access_count adapter.new) }
    {
        law_probe_of_unready_port_is_a_service_turn();
        if !needs_probe(adapter, port, state) {
            return;
        }
        let (found, mode) = probe_anew(adapter, port, &self.wanted);
        self.replace_probe_result_and_free_slots(found, mode);
    }

    /// The port's turn in a service: a ready one is served, and another one that is served is probed. Of one that isn't
    /// served, or is dead, no access is made.
    pub fn service<A: Adapter>(
        &mut self,
        adapter: &mut A,
        shared: &mut Shared,
        port: Port,
        replies: &mut Replies,
    )
        requires none_due { (s : ServerState) × HasNoneDueAndParts s (A.device adapter.old) shared.old port self.old }
        requires room { length replies.old.items + length shared.old.book ≤ MOST_UNANSWERED_OF_ALL_CLIENTS }
        ensures turn { (s : ServerState) → HasNoneDueAndParts s (A.device adapter.old) shared.old port self.old
            → TakesTurn (ServesReadyOrProbesUnready self.old.probe_result port) replies.old.items replies.new.items s
            (with_served_port s (A.device adapter.new) shared.new port self.new) }
        ensures no_access_if_unserved_or_dead { (self.old.probe_result ≡ ProbeResult.Unserved)
            ⊎ (self.old.probe_result ≡ ProbeResult.Unready PortState.Dead) → adapter.new ≡ adapter.old }
        ensures room { length replies.new.items + length shared.new.book ≤ MOST_UNANSWERED_OF_ALL_CLIENTS }
        ensures cost { MakesAtMost TURN_ACCESSES (A.access_count adapter.old) (A.access_count adapter.new) }
    {
        match self.probe_result {
            ProbeResult::Ready(_) => self.service_ready(adapter, shared, port, replies),
            ProbeResult::Unready(state) => self.probe(adapter, port, state),
            ProbeResult::Unserved => {}
        }
    }

    /// The port's turn in a tick: a ready one of which a request is overdue is restarted. It isn't looked at, and its
    /// error is a timeout. Another rests, and no access is made of it. `is_overdue` has to be what `Book::has_overdue`
    /// tells of the port once `Book::tick` has made requests older: an issued request is three ticks old (this
    /// project's own limit).
    pub fn tick<A: Adapter>(
        &mut self,
        adapter: &mut A,
        shared: &mut Shared,
        port: Port,
        is_overdue: bool,
        replies: &mut Replies,
    )
        requires none_due { (s : ServerState) × HasNoneDueAndParts s (A.device adapter.old) shared.old port self.old }
        requires room { length replies.old.items + length shared.old.book ≤ MOST_UNANSWERED_OF_ALL_CLIENTS }
        ensures turn { (s : ServerState) (book : List BookEntry) → IsTrue is_overdue ↔ HasOverdueOn port book
            → HasNoneDueAndParts s (A.device adapter.old) shared.old port self.old
            → TakesTurn (RestartsOverdueOrRests self.old.probe_result book port) replies.old.items replies.new.items s
            (with_served_port s (A.device adapter.new) shared.new port self.new) }
        ensures no_access_if_unready_or_not_overdue { (is_ready self.old.probe_result ≡ false) ⊎ (is_overdue ≡ false)
            → adapter.new ≡ adapter.old }
        ensures room { length replies.new.items + length shared.new.book ≤ MOST_UNANSWERED_OF_ALL_CLIENTS }
        ensures cost { MakesAtMost (port_error_accesses PortError.TimedOut)
            (A.access_count adapter.old) (A.access_count adapter.new) }
    {
        law_looks_preserve_invariant();
        law_handling_timeout_is_a_restart_turn();
        let ProbeResult::Ready(_) = self.probe_result else {
            return;
        };
        if is_overdue {
            self.handle_error(adapter, shared, port, PortError::TimedOut, replies);
        }
    }
}
