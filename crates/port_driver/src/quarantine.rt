// Loans of a dead port that are kept when their requests are answered, until a reset ends, or the server: the device
// may still move their sectors.
ghost use Rattle.std.specs.Prelude.{◌≡◌, ◌<◌, ◌++◌, ◌∷◌, [], All, AllPairs, Contains, IfOk, length};
ghost use Rattle.server_history.specs.{KeptLoans.{GivesBackLoans}, ServerState.{DifferInRequest, IsLentOut}};

use ata_types::{NoMemory, SLOTS};
use dma_frames::{FrameTable, Loan};
use server_history::laws::law_giving_back_loans_composes;
use std::alloc::Global;
use std::marker::Model;

/// The loans of one port that are kept, 32 at most, in the order in which they came. They can't be dropped:
/// `give_back` ends them, and `destroy_empty` the list.
pub struct Quarantine {
    loans: Vec<Loan>,
}

impl Model for Quarantine {
    ghost use Rattle.std.specs.Prelude.{List, ◌≤◌, length, vec_capacity};
    ghost use Rattle.dma_frames.specs.Loan.{Lending};

    ghost Value = { List Lending };

    ghost view = { λ k. k.loans.items };

    ghost invariant = { λ k. (32 ≤ vec_capacity k.loans) × (length k.loans.items ≤ 32) };
}

impl Quarantine {
    /// No loans, with room for 32. The only error is want of memory, and no other call takes memory.
    pub fn new(alloc: Global) -> Result<Self, NoMemory>
        ensures { IfOk result (λ kept. kept ≡ []) }
    {
        let loans = Vec::with_capacity(alloc, SLOTS)?;
        Ok(Quarantine { loans })
    }

    /// Keeps one more loan.
    pub(crate) fn keep(&mut self, loan: Loan)
        requires { length self.old < 32 }
        ensures { self.new ≡ self.old ++ loan ∷ [] }
    {
        self.loans.push_reserved(loan);
    }

    /// Ends the loans: their frames are lent to none.
    pub fn give_back(&mut self, table: &mut FrameTable)
        requires lent { All (IsLentOut table.old) self.old }
        requires loans_differ_in_request { AllPairs DifferInRequest self.old }
        ensures empty { self.new ≡ [] }
        ensures takes_loans_back { GivesBackLoans table.old table.new (Contains self.old) }
    {
        law_giving_back_loans_composes();
        while let Some(loan) = self.loans.pop() {
            table.give_back(loan);
        }
    }

    /// Ends what has no loans.
    pub fn destroy_empty(self)
        requires { self ≡ [] }
    {
        let Quarantine { loans } = self;
        loans.destroy_empty();
    }
}
