// One port of the model.
ghost use Rattle.std.specs.Prelude.{◌≡◌, [], unwrap_or, IfOk};
ghost use Rattle.adapter.specs.{Idle.{IsIdlePort}};
ghost use Rattle.device_model.specs.{ModelState.{HasInitialValues}, PortView.{Media, port_of}};

use crate::halt::Halting;
use crate::prds::PrdTable;
use crate::taken::TakenCommands;
use adapter::Operation;
use std::alloc::{AllocError, Global};
use std::snapshot::Snapshot;

/// Where the driver has put the command list and the received FIS area, and which of these registers it has written.
#[derive(Clone, Copy, Debug, Default)]
pub struct Addresses {
    pub clb: u32,
    pub fb: u32,
    pub clb_set: bool,
    pub clbu_set: bool,
    pub fb_set: bool,
    pub fbu_set: bool,
}

/// What readings gave, and where on the tape two writes stand.
#[derive(Clone, Copy, Debug, Default)]
pub struct Readings {
    pub st_set_at: usize,
    pub sctl_written_at: usize,
    pub last_cmd: u32,
    pub last_ssts: u32,
    pub last_tfd: u32,
    pub last_sig: u32,
    pub last_ci: u32,
    pub last_sact: u32,
    pub engine_wait_count: u32,
    pub link_wait_count: u32,
    pub busy_count: u32,
    pub slot0_issued_count: u32,
    pub acknowledged: bool,
}

/// A command that the device has taken.
#[derive(Drop)]
pub struct TakenCommand {
    pub operation: Operation,
    pub first: u64,
    pub count: u32,
    /// The regions that its sectors go to or come from.
    pub prds: PrdTable,
    /// In pieces of 512 bytes.
    pub moved: u32,
    /// The block that a trim has brought, for proofs alone: the port has its bytes.
    pub block: Option<Snapshot<[u8; 512]>>,
    /// How many of the block's sectors were cleared.
    pub cleared: u32,
}

impl TakenCommand {
    /// Room for a command that is read.
    pub fn room() -> TakenCommand
        ensures { result.prds ≡ [] }
    {
        TakenCommand {
            operation: Operation::Read,
            first: 0,
            count: 0,
            prds: PrdTable::new(),
            moved: 0,
            block: None,
            cleared: 0,
        }
    }
}

/// The registers of a port, and what stands behind them.
#[derive(Drop)]
pub struct PortModel {
    pub addresses: Addresses,
    pub st: bool,
    pub fre: bool,
    pub sctl_det: u8,
    /// PxIE.
    pub ie: u32,
    pub cr: bool,
    pub fr: bool,
    /// PxTFD, where something was written to it since the last reset of the adapter; else it is 7Fh. (So a port that is
    /// all zeros, as one that isn't there, is one as after a reset.)
    pub tfd: Option<u16>,
    /// PxSIG, where the link came up since then; else all its bits are ones.
    pub sig: Option<u32>,
    /// SSTS.DET is 3, or else 0.
    pub detected: bool,
    pub serr_n: bool,
    pub serr_x: bool,
    pub is: u32,
    /// The port's bit of IS, as far as it outlasts its causes.
    pub ips: bool,
    /// PxIE has enabled a cause that the model doesn't know since that bit was last cleared.
    pub other_causes: bool,
    pub ci: u32,
    pub sact: u32,
    pub present: bool,
    pub fresh: bool,
    pub link_due: bool,
    pub halting: Halting,
    /// A fatal error stopped it.
    pub broken: bool,
    pub taken: TakenCommands,
    /// How long the tape was when its disk last ended a flush, or else when that disk was first in, for proofs alone.
    pub lasting_tape_length: usize,
    pub readings: Readings,
}

impl PortModel {
    /// A port as after a reset, with a disk or without.
    pub fn new(alloc: Global, present: bool) -> Result<PortModel, AllocError>
        ensures idle { IfOk result (λ p. (m : Media) → IsIdlePort (port_of p m)) }
        ensures present { IfOk result (λ p. p.present ≡ present) }
        ensures reset { IfOk result (λ p. (m : Media) → HasInitialValues (port_of p m)) }
        ensures lasting { IfOk result (λ p. p.lasting_tape_length ≡ 0) }
    {
        let taken = TakenCommands::new(alloc)?;
        Ok(PortModel {
            addresses: Addresses::default(),
            st: false,
            fre: false,
            sctl_det: 0,
            ie: 0,
            cr: false,
            fr: false,
            tfd: None,
            sig: None,
            detected: false,
            serr_n: false,
            serr_x: false,
            is: 0,
            ips: false,
            other_causes: false,
            ci: 0,
            sact: 0,
            present,
            fresh: false,
            link_due: false,
            halting: Halting::NotHalted,
            broken: false,
            taken,
            lasting_tape_length: 0,
            readings: Readings::default(),
        })
    }

    /// PxTFD (AHCI 1.3.1, 3.3.8).
    pub fn task_file(&self) -> u16
        ensures { result ≡ unwrap_or self.now.tfd 0x7f }
    {
        self.tfd.unwrap_or(0x7f)
    }
}
