// A modelled adapter that is watched.
ghost use Rattle.std.specs.Prelude.{◌≡◌, ◌≤◌, IfOk};
ghost use Rattle.adapter.specs.Idle.{IsIdle};

use adapter::{Adapter, DeviceStep, DiskPage, Stepped};
use ata_types::{DRIVER_BYTES, FEWEST_FRAMES, PORTS, Port};
use device_model::{Disks, Model, ModelConfig, Trim};
use hba_regs::Reg;
use sector_store::MemStore;
use std::alloc::Global;
use std::test::Fail;

const CONFIG: ModelConfig = ModelConfig {
    frames: FEWEST_FRAMES,
    slots: 32,
    ncq: true,
    depth: 32,
    trim: Trim::Full,
    cache: false,
};

/// An idle adapter with the ports of this PI, and a disk of so many sectors in port 0.
pub fn model(alloc: Global, pi: u8, sectors: u32) -> Result<Model<MemStore>, Fail>
    requires { (1 ≤ pi) × (pi ≤ 15) }
    ensures idle { IfOk result (λ m. IsIdle (⟦<Model<MemStore> as Adapter>⟧.device m)) }
    ensures room { IfOk result (λ m. DRIVER_BYTES ≤ (⟦<Model<MemStore> as Adapter>⟧.device m).memory_size) }
{
    let image = MemStore::new(alloc, sectors)?;
    let disks = Disks::of_port_0(image, MemStore::new(alloc, 0)?);
    Ok(Model::with_disks(alloc, CONFIG, pi, disks)?)
}

/// Bits of a byte of a page, by the byte's offset: a disk lies of them. No bits are no lie.
pub type Lie = (u16, u8);

pub const NO_LIE: Lie = (0, 0);

/// Has the disk lie.
pub fn lie(model: &mut Model<MemStore>, lie: Lie)
    ensures { ⟦<Model<MemStore> as Adapter>⟧.device model.new ≡ ⟦<Model<MemStore> as Adapter>⟧.device model.old }
{
    let (offset, bits) = lie;
    let _done = model.step(&DeviceStep::Lie(Port(0), DiskPage::Identity, offset, bits));
}

/// A call of an adapter.
#[derive(Clone, Copy, Debug, PartialEq, Eq)]
pub enum AdapterCall {
    Read(Reg),
    Write(Reg, u32),
    Load,
    Store,
}

/// The end of what a port's slots 0 to 5 need: their headers from 0 on, and their tables of 880h bytes each from 1000h
/// on, of which the last's 128 entries end here.
pub const NOTED_MEMORY_END: usize = 0x4300;

/// An adapter that notes its calls, and what is stored in the first bytes of memory.
#[derive(Drop)]
pub struct Watched<A> {
    pub adapter: A,
    pub accesses: Vec<AdapterCall>,
    pub low_memory: Vec<u8>,
}

/// The readings of a register.
#[derive(Clone, Copy)]
pub struct RegisterReadings {
    /// How many there were.
    pub total: usize,
    /// How many there were since it was last written.
    pub since_write: usize,
    /// Which access the first was, where the first access has the number 1; 0 if there was none.
    pub first: u64,
    /// Which access the last was.
    pub last: u64,
}

impl<A: Drop> Watched<A> {
    /// An adapter of which nothing is noted yet.
    pub fn new(alloc: Global, adapter: A) -> Result<Watched<A>, Fail>
        ensures { IfOk result (λ w. w.adapter ≡ adapter) }
    {
        Ok(Watched {
            adapter,
            accesses: Vec::new(alloc),
            low_memory: vec![in alloc; 0u8; NOTED_MEMORY_END]?,
        })
    }

    /// The readings of a register so far.
    pub fn readings(&self, r: Reg) -> RegisterReadings {
        let mut readings = RegisterReadings {
            total: 0,
            since_write: 0,
            first: 0,
            last: 0,
        };
        for (place, access) in self.accesses.iter().enumerate() {
            match access {
                AdapterCall::Read(read) if *read == r => {
                    readings.last = (place as u64).saturating_add(1);
                    if readings.total == 0 {
                        readings.first = readings.last;
                    }
                    readings.total = readings.total.saturating_add(1);
                    readings.since_write = readings.since_write.saturating_add(1);
                }
                AdapterCall::Write(written, _) if *written == r => readings.since_write = 0,
                _ => {}
            }
        }
        readings
    }

    /// What was written to registers, in its order.
    pub fn writes(&self, alloc: Global) -> Result<Vec<AdapterCall>, Fail> {
        let mut writes = Vec::new(alloc);
        for access in &self.accesses {
            if let AdapterCall::Write(..) = access {
                writes.push(*access)?;
            }
        }
        Ok(writes)
    }

    /// Of which of the ports 0 to 3 a register was read or written.
    pub fn touched(&self) -> [bool; 4] {
        let mut touched = [false; 4];
        for access in &self.accesses {
            if let AdapterCall::Read(Reg::Px(port, _))
            | AdapterCall::Write(Reg::Px(port, _), _) = access
            {
                if let Some(place) = touched.get_mut(usize::from(port.0)) {
                    *place = true;
                }
            }
        }
        touched
    }
}

impl<A: Adapter> Adapter for Watched<A> {
    ghost device = { λ w. A.device w.adapter };

    ghost access_count = { λ w. A.access_count w.adapter };

    fn read(&mut self, r: Reg) -> u32 {
        let _full = self.accesses.push(AdapterCall::Read(r)).is_err();
        self.adapter.read(r)
    }

    fn write(&mut self, r: Reg, v: u32) {
        let _full = self.accesses.push(AdapterCall::Write(r, v)).is_err();
        self.adapter.write(r, v);
    }

    fn load(&mut self, addr: u32, out: &mut [u8]) {
        let _full = self.accesses.push(AdapterCall::Load).is_err();
        self.adapter.load(addr, out);
    }

    fn store(&mut self, addr: u32, bytes: &[u8]) {
        let _full = self.accesses.push(AdapterCall::Store).is_err();
        for (kept, byte) in self
            .low_memory
            .iter_mut()
            .skip(addr as usize)
            .zip(bytes.iter())
        {
            *kept = *byte;
        }
        self.adapter.store(addr, bytes);
    }

    ghost tells = { λ w. A.tells w.adapter };
}
