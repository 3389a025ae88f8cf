// An adapter whose accesses are counted.
ghost use Rattle.std.specs.Prelude.{◌≡◌};

use adapter::{Adapter, DeviceStep, Stepped};
use hba_regs::Reg;

/// How many accesses were made, of each kind.
#[derive(Clone, Copy, Debug, PartialEq, Eq)]
pub struct Counts {
    /// Of a register.
    pub reads: u64,
    /// Of a register.
    pub writes: u64,
    /// Of bytes in memory, each of any length.
    pub stores: u64,
    /// Of bytes in memory, each of any length.
    pub loads: u64,
}

impl Counts {
    pub const NONE: Counts = Counts {
        reads: 0,
        writes: 0,
        stores: 0,
        loads: 0,
    };

    /// Returns the accesses that were made since there were this many.
    pub fn since(self, earlier: Counts) -> Counts {
        Counts {
            reads: self.reads.saturating_sub(earlier.reads),
            writes: self.writes.saturating_sub(earlier.writes),
            stores: self.stores.saturating_sub(earlier.stores),
            loads: self.loads.saturating_sub(earlier.loads),
        }
    }
}

/// An adapter that counts its accesses.
#[derive(Drop)]
pub struct CountingAdapter<A> {
    adapter: A,
    pub counts: Counts,
}

impl<A> CountingAdapter<A> {
    /// None were made yet.
    pub fn new(adapter: A) -> CountingAdapter<A>
        ensures { result.adapter ≡ adapter }
    {
        CountingAdapter {
            adapter,
            counts: Counts::NONE,
        }
    }
}

impl<A: Adapter> Adapter for CountingAdapter<A> {
    ghost device = { λ c. A.device c.adapter };

    ghost access_count = { λ c. A.access_count c.adapter };

    fn read(&mut self, r: Reg) -> u32 {
        self.counts.reads = self.counts.reads.saturating_add(1);
        self.adapter.read(r)
    }

    fn write(&mut self, r: Reg, v: u32) {
        self.counts.writes = self.counts.writes.saturating_add(1);
        self.adapter.write(r, v);
    }

    fn load(&mut self, addr: u32, out: &mut [u8]) {
        self.counts.loads = self.counts.loads.saturating_add(1);
        self.adapter.load(addr, out);
    }

    fn store(&mut self, addr: u32, bytes: &[u8]) {
        self.counts.stores = self.counts.stores.saturating_add(1);
        self.adapter.store(addr, bytes);
    }

    ghost tells = { λ c. A.tells c.adapter };
}

impl<A: Stepped> Stepped for CountingAdapter<A> {
    fn step(&mut self, s: &DeviceStep) -> bool {
        self.adapter.step(s)
    }
}
