// Limits of requests that no grant sets.
ghost use Rattle.std.specs.Prelude.{◌≢◌, ◌<◌, ◌+◌, ◌↔◌, IsTrue};

use ata_types::{Op, Request};

/// Whether a request has sectors past the end of a disk with this many. A flush has no sectors.
pub(crate) fn exceeds_disk(r: &Request, sectors: u64) -> bool
    ensures { IsTrue result ↔ ((r.now.op ≢ Op.Flush) × (sectors < r.now.first.0 + r.now.count)) }
{
    let end = r.first.0 as u128 + r.count as u128;
    r.op != Op::Flush && end > sectors as u128
}
