// How many sectors a request may have, and how many frames it has for them.
ghost use Rattle.std.specs.Prelude.{◌≡◌, ◌↔◌, IsTrue};
ghost use Rattle.block_machine.specs.Rules.{IsAllowedCount, frame_count_for};

use ata_types::{MOST_READ_OR_WRITE_SECTORS, Op};

/// Whether the operation may have this many sectors.
pub fn is_allowed_count(op: Op, count: u32) -> bool
    ensures { IsTrue result ↔ IsAllowedCount op count }
{
    match op {
        Op::Read | Op::Write => 1 <= count && count <= MOST_READ_OR_WRITE_SECTORS,
        Op::Trim => 1 <= count && count <= 4_194_240,
        Op::Flush => count == 0,
    }
}

/// Returns how many frames the operation has for this many sectors: if it moves bytes, one for eight, rounded up.
pub fn frame_count(op: Op, count: u32) -> usize
    ensures { result ≡ frame_count_for op count }
{
    match op {
        Op::Read | Op::Write => (count as usize + 7) / 8,
        Op::Trim | Op::Flush => 0,
    }
}
