// Sectors, and ranges of them.
ghost use Rattle.std.specs.Prelude.{◌≡◌, ◌↔◌, IsTrue};
ghost use Rattle.ata_types.specs.Range.{IsSubsetOf, Overlaps, range_end};

/// A sector of a disk, by its number. A sector has 512 bytes.
#[derive(Clone, Copy, Debug, Default, PartialEq, Eq, PartialOrd, Ord, Hash)]
pub struct Sector(pub u64);

/// The sectors from `first` on, `count` of them. The sum doesn't wrap: a range may end past 2^64, where no sector is.
#[derive(Clone, Copy, Debug, Default, PartialEq, Eq, Hash)]
pub struct Range {
    pub first: Sector,
    pub count: u32,
}

impl Range {
    /// The number after the last sector, in a type that it fits.
    fn end(&self) -> u128
        ensures { result ≡ range_end self.now }
    {
        u128::from(self.first.0) + u128::from(self.count)
    }

    /// Whether each sector of this range is one of the other. An empty range is within every range.
    pub fn within(&self, other: &Range) -> bool
        ensures { IsTrue result ↔ IsSubsetOf self.now other.now }
    {
        self.count == 0 || (other.first <= self.first && self.end() <= other.end())
    }

    /// Whether some sector is in both ranges. An empty range overlaps nothing.
    #[tactic(auto, using(crate::proofs::RangeLemmas::meeting))]
    pub fn overlaps(&self, other: &Range) -> bool
        ensures { IsTrue result ↔ Overlaps self.now other.now }
    {
        self.count != 0
            && other.count != 0
            && u128::from(self.first.0) < other.end()
            && u128::from(other.first.0) < self.end()
    }
}
