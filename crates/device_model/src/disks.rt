// The disks of a port.
ghost use Rattle.std.specs.Prelude.{◌≡◌, ◌≤◌, ◌++◌, ◌∷◌, [], IfSome, Some, None};
ghost use Rattle.adapter.specs.Device.{Disk};
ghost use Rattle.sector_store.specs.{Pages.{IsIdentifyPage}, Stores.{IsSectorBytes}};
ghost use Rattle.device_model.specs.Disks.{disk_number, is_same_index, plugged_as, port_0_alone};

use adapter::DiskNumber;
use sector_store::SectorStore;
use sector_store::pages::{Abilities, identify_page};
use std::snapshot::Snapshot;

/// A serial number: 20 characters in ASCII, of which the last are spaces where it has fewer (ACS-3, 7.12.7).
pub type Serial = [u8; 20];

/// A disk as it is given to a model: its serial number, and the store of its sectors.
#[derive(Drop)]
pub struct ModelDisk<S> {
    pub serial: Serial,
    pub store: S,
}

/// The two disks of a port, of which one is in it at a time.
#[derive(Drop)]
pub struct PortDisks<S> {
    /// Disk 0, which is in at first.
    pub first: ModelDisk<S>,
    /// Disk 1, which can be put in, in its place.
    pub spare: ModelDisk<S>,
}

/// The disks of ports 0 to 3. A port for which none are given has no disk, ever.
#[derive(Drop)]
pub struct Disks<S> {
    pub port0: Option<PortDisks<S>>,
    pub port1: Option<PortDisks<S>>,
    pub port2: Option<PortDisks<S>>,
    pub port3: Option<PortDisks<S>>,
}

/// One of the two disks of a port.
#[derive(Clone, Copy, Debug, PartialEq, Eq)]
pub enum DiskIndex {
    /// The one that is in at first.
    Disk0,
    Disk1,
}

impl DiskIndex {
    /// The disk of this number, if there is one.
    pub fn of(number: DiskNumber) -> Option<DiskIndex>
        ensures found { IfSome result (λ which. disk_number which ≡ number.0) }
        ensures none { result ≡ None → 2 ≤ number.0 }
    {
        match number.0 {
            0 => Some(DiskIndex::Disk0),
            1 => Some(DiskIndex::Disk1),
            _ => None,
        }
    }

    /// Whether it is that one.
    pub fn equals(self, other: DiskIndex) -> bool
        ensures { result ≡ is_same_index self other }
    {
        match self {
            DiskIndex::Disk0 => matches!(other, DiskIndex::Disk0),
            DiskIndex::Disk1 => matches!(other, DiskIndex::Disk1),
        }
    }

    /// Its number, which is its name on the tape.
    pub fn number(self) -> u32
        ensures { result ≡ disk_number self }
    {
        match self {
            DiskIndex::Disk0 => 0,
            DiskIndex::Disk1 => 1,
        }
    }
}

impl<S: SectorStore> ModelDisk<S> {
    /// Its page of IDENTIFY DEVICE, with these abilities.
    pub fn page(&self, abilities: Abilities) -> [u8; 512]
        ensures page { IsIdentifyPage self.now.serial (S.size self.now.store) abilities result }
        ensures bytes { IsSectorBytes result }
    {
        identify_page(&self.serial, self.store.sectors(), abilities)
    }
}

impl<S> Disks<S> {
    /// Disks for port 0 alone: `IMAGEDISK` over the first store, which is in at first, and `BLANKDISK` over the second
    /// one.
    pub fn of_port_0(image: S, blank: S) -> Disks<S>
        ensures { result ≡ port_0_alone image blank }
    {
        Disks {
            port0: Some(PortDisks {
                first: ModelDisk {
                    serial: *b"IMAGEDISK           ",
                    store: image,
                },
                spare: ModelDisk {
                    serial: *b"BLANKDISK           ",
                    store: blank,
                },
            }),
            port1: None,
            port2: None,
            port3: None,
        }
    }
}

/// The disks that were put into a port one after another, each as it was then, for proofs alone: it takes no memory.
#[derive(Drop)]
pub enum PluggedDisks<S> {
    Nothing,
    After {
        before: Snapshot<PluggedDisks<S>>,
        which: DiskIndex,
        store: Snapshot<S>,
    },
}

impl<S> PluggedDisks<S> {
    /// Notes one more.
    pub fn note(&mut self, which: DiskIndex, store: &S)
        ensures { (disk : DiskIndex → S → Disk) → plugged_as disk self.new
            ≡ plugged_as disk self.old ++ disk which store.now ∷ [] }
    {
        let before = Snapshot::of(self);
        *self = PluggedDisks::After {
            before,
            which,
            store: Snapshot::of(store),
        };
    }
}
