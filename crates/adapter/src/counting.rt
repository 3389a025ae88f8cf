// How many accesses were made: what an adapter keeps so that `access_count` is true of it.
ghost use Rattle.std.specs.{Prelude.{ℕ, ◌≡◌, ◌+◌, ◌-◌, ◌^◌, min}, Borrow.{ftrue}};

use std::marker::{Model, PhantomData};

/// How many accesses were made, as clauses see it. It has no bytes, and so no greatest number.
#[derive(Drop)]
pub struct AccessCount {
    marker: PhantomData<u8>,
    pub ghost made: { ℕ },
}

impl Model for AccessCount {
    ghost also_owns = { λ _. ftrue };
}

impl AccessCount {
    /// None was made.
    fn none() -> AccessCount
        ensures { result.made ≡ 0 }
    {
        AccessCount {
            marker: PhantomData,
        }
    }

    /// One more was made.
    fn more(&self) -> AccessCount
        ensures { result.made ≡ self.now.made + 1 }
    {
        let _ = self;
        AccessCount {
            marker: PhantomData,
        }
    }
}

/// The same, with a number that code can read.
#[derive(Drop)]
pub struct AccessCounter {
    /// Their number, as far as 64 bits have one: it stays at the greatest.
    pub saturating_count: u64,
    /// Their number.
    pub count: AccessCount,
}

impl AccessCounter {
    /// None was made.
    pub fn none() -> AccessCounter
        ensures shown { result.saturating_count ≡ 0 }
        ensures made { result.count.made ≡ 0 }
    {
        AccessCounter {
            saturating_count: 0,
            count: AccessCount::none(),
        }
    }

    /// Counts one more.
    pub fn add(&mut self)
        ensures shown { self.new.saturating_count ≡ min (self.old.saturating_count + 1) (2 ^ 64 - 1) }
        ensures made { self.new.count.made ≡ self.old.count.made + 1 }
    {
        self.saturating_count = self.saturating_count.saturating_add(1);
        self.count = self.count.more();
    }
}
