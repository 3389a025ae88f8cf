// An adapter of this program's own.
ghost use Rattle.std.specs.Prelude.{◌≡◌};

use adapter::{AccessCounter, Adapter, DeviceStep, Stepped};
use hba_regs::Reg;

/// An adapter that makes each access on another one, and counts it.
#[derive(Drop)]
pub struct Counting<A> {
    adapter: A,
    counter: AccessCounter,
}

impl<A> Counting<A> {
    /// No access was made yet.
    pub fn new(adapter: A) -> Counting<A>
        ensures { result.adapter ≡ adapter }
    {
        Counting {
            adapter,
            counter: AccessCounter::none(),
        }
    }

    /// How many accesses were made.
    pub fn accesses(&self) -> u64
        ensures { result ≡ self.now.counter.saturating_count }
    {
        self.counter.saturating_count
    }
}

impl<A: Adapter> Adapter for Counting<A> {
    ghost device = { λ c. A.device c.adapter };

    ghost access_count = { λ c. c.counter.count.made };

    fn read(&mut self, r: Reg) -> u32 {
        self.counter.add();
        self.adapter.read(r)
    }

    fn write(&mut self, r: Reg, v: u32) {
        self.counter.add();
        self.adapter.write(r, v);
    }

    fn load(&mut self, addr: u32, out: &mut [u8]) {
        self.counter.add();
        self.adapter.load(addr, out);
    }

    fn store(&mut self, addr: u32, bytes: &[u8]) {
        self.counter.add();
        self.adapter.store(addr, bytes);
    }

    ghost tells = { λ c. A.tells c.adapter };
}

/// Steps of the device are no accesses.
impl<A: Stepped> Stepped for Counting<A> {
    fn step(&mut self, s: &DeviceStep) -> bool {
        self.adapter.step(s)
    }
}
