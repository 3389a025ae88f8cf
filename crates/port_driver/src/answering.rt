// What is done on a port is answered.
ghost use Rattle.std.specs.Prelude.{ℕ, ◌≡◌, ◌≤◌, ◌<◌, ◌+◌, length, None, Some, true};
ghost use Rattle.ata_types.specs.declared.Port.{Port};
ghost use Rattle.port_driver.specs.LentSlots.{AnswersDoneSlots, AnswersSlot, HasPortToAnswer, with_answers};
ghost use Rattle.hba_regs.specs.Bits.{bit};
ghost use Rattle.server_history.specs.ServerState.{ServerState};
ghost use Rattle.slots.specs.{SlotUses.{use_at, with_use}, declared.SlotUse.{SlotUse}};

use crate::slot_table::SlotTable;
use ata_types::{MOST_UNANSWERED_OF_ALL_CLIENTS, Outcome, Replies, Reply, Slot};
use dma_frames::FrameTable;
use request_queue::Book;
use request_queue::laws::{law_an_id_is_one_request, law_operations_change_one_request};
use server_history::laws::{law_a_used_slot_has_its_request, law_requests_preserve_invariant};

/// Answers the request of a used slot, whose command is over: its slot is free then, it leaves the book, and its frames
/// are given back.
fn answer_one(book: &mut Book, table: &mut FrameTable, slots: &mut SlotTable, slot: Slot) -> Reply
    requires lends { (s : ServerState) × (port : Port) × (done : ℕ)
        × HasPortToAnswer s table.old book.old slots.old port done × (bit done slot.0 ≡ true) }
    requires small { slot.0 < 32 }
    requires used { (used : SlotUse) × (use_at slots.old slot.0 ≡ Some used) }
    ensures answers { (s : ServerState) (port : Port) (done : ℕ)
        → HasPortToAnswer s table.old book.old slots.old port done
        → AnswersSlot port slot.0 result s (with_answers s table.new book.new slots.new port) }
    ensures freed { slots.new ≡ with_use slots.old slot.0 None }
    ensures fewer { length book.new < length book.old }
{
    law_a_used_slot_has_its_request();
    law_an_id_is_one_request();
    let Some(used) = slots.free(slot) else {
        unreachable!()
    };
    let entry = book.remove_and_give_back(used.id, table);
    Reply {
        id: used.id,
        client: entry.client,
        outcome: Outcome::Ok,
    }
}

/// Answers the requests of those slots of a ready port that are used and were found done (bit k is slot k), in order of
/// acceptance. The replies come after those that there are.
pub(crate) fn answer_done(
    book: &mut Book,
    table: &mut FrameTable,
    slots: &mut SlotTable,
    done: u32,
    replies: &mut Replies,
)
    requires server_has_port { (s : ServerState) × (port : Port)
        × HasPortToAnswer s table.old book.old slots.old port done }
    requires replies_have_room { length replies.old.items + length book.old ≤ MOST_UNANSWERED_OF_ALL_CLIENTS }
    ensures answers { (s : ServerState) (port : Port) → HasPortToAnswer s table.old book.old slots.old port done
        → AnswersDoneSlots port done replies.old.items replies.new.items s
        (with_answers s table.new book.new slots.new port) }
    ensures lends { (s : ServerState) (port : Port) → HasPortToAnswer s table.old book.old slots.old port done
        → HasPortToAnswer (with_answers s table.new book.new slots.new port) table.new book.new slots.new port done }
    ensures room { length replies.new.items + length book.new ≤ MOST_UNANSWERED_OF_ALL_CLIENTS }
{
    law_a_used_slot_has_its_request();
    law_requests_preserve_invariant();
    law_operations_change_one_request();
    while let Some(slot) = slots.earliest(done) {
        replies.push(answer_one(book, table, slots, slot));
    }
}
