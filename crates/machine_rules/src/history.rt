// What is left on a sector, as a plain and slow program over small histories.
ghost use Rattle.std.specs.Prelude.{◌≡◌, ◌≤◌, ◌-◌, ℕ, length, IfSome, IfNone};
ghost use Rattle.block_machine.specs.State.{Block, block_written};
ghost use Rattle.machine_rules.specs.ReferenceHistories.{history_of, step_of, accepted_of, machine_with_sectors_filled_from, IsTouchOfWriter, IsLaterOf, IsLastWriter};
ghost use Rattle.block_machine.specs.Expected as expected_byte;
ghost use Rattle.machine_rules.specs.ReferenceHistories as plain_left;

use ata_types::{Op, Port, Range, RequestId};
use block_machine::changes_sectors;

/// A request of a small history. A write has, in all places of its i-th sector, the byte `fill` + i, modulo 256.
#[derive(Clone, Copy, Debug, Default, PartialEq, Eq)]
pub struct HistoryRequest {
    pub id: RequestId,
    pub port: Port,
    pub op: Op,
    pub range: Range,
    pub fill: u8,
}

/// What happened to a disk.
#[derive(Clone, Copy, Debug, PartialEq, Eq)]
pub enum DiskEvent {
    /// A sector of a request was moved or cleared, by its number in the request.
    Touched(HistoryRequest, u32),
    /// A disk was put in. With `fill` as the number here, it has the byte `fill` + k, modulo 256, in all places of
    /// sector k.
    Plugged(Port, u8),
}

/// How many disks were put in at the port.
fn plug_count(port: Port, history: &[DiskEvent]) -> usize
    ensures count { result ≡ expected_byte.plug_count port (history_of history.now) }
    ensures few { result ≤ length history.now }
{
    match history.split_first() {
        None => 0,
        Some((newest, past)) => {
            let count = plug_count(port, past);
            match newest {
                DiskEvent::Plugged(at, _) if at.0 == port.0 => count + 1,
                _ => count,
            }
        }
    }
}

/// Whether this is a touch of the sector by the request.
fn touches(read: &HistoryRequest, sector: u64, happened: &DiskEvent) -> bool
    ensures { result ≡ expected_byte.touches_sector read.now.id sector (step_of happened.now) }
{
    match happened {
        DiskEvent::Touched(request, number) => {
            let touched = request.range.first.0 as u128 + *number as u128;
            request.id.0 == read.id.0 && touched == sector as u128
        }
        DiskEvent::Plugged(_, _) => false,
    }
}

/// The number of the disk that was in when the read last touched the sector.
fn disk_number_read(read: &HistoryRequest, sector: u64, history: &[DiskEvent]) -> usize
    ensures { result ≡ expected_byte.disk_number_read (accepted_of read.now) sector (history_of history.now) }
{
    match history.split_first() {
        None => 0,
        Some((newest, past)) => {
            if touches(read, sector, newest) {
                plug_count(read.port, past)
            } else {
                disk_number_read(read, sector, past)
            }
        }
    }
}

/// The byte in all places of sector number `number` of what has this fill.
fn sector_fill_byte(fill: u8, number: u64) -> u8
    ensures { result ≡ plain_left.sector_fill_byte fill number }
{
    ((fill as u128 + number as u128) % 256) as u8
}

/// The fill that the disk with this number had when it was put in.
fn fill_when_plugged(start: u8, port: Port, number: usize, history: &[DiskEvent]) -> u8
    ensures { (k b : ℕ)
        → expected_byte.bytes_when_plugged (machine_with_sectors_filled_from start) port number
        (history_of history.now) k b ≡ plain_left.sector_fill_byte result k }
{
    match history.split_first() {
        None => start,
        Some((newest, past)) => match newest {
            DiskEvent::Plugged(at, fill)
                if at.0 == port.0 && plug_count(port, past) + 1 == number => { *fill }
            _ => fill_when_plugged(start, port, number, past),
        },
    }
}

/// Whether this is a touch of the sector of the read by an earlier write or trim of its port.
fn writes(read: &HistoryRequest, sector: u64, happened: &DiskEvent) -> Option<HistoryRequest>
    ensures some { IfSome result (IsTouchOfWriter read.now sector (step_of happened.now)) }
    ensures none { IfNone result ((w : HistoryRequest)
        → IsTouchOfWriter read.now sector (step_of happened.now) w → ⊥) }
{
    match happened {
        DiskEvent::Touched(writer, number) => {
            let touched = writer.range.first.0 as u128 + *number as u128;
            let here = writer.port.0 == read.port.0 && touched == sector as u128;
            if here && changes_sectors(writer.op) && writer.id.0 < read.id.0 {
                Some(*writer)
            } else {
                None
            }
        }
        DiskEvent::Plugged(_, _) => None,
    }
}

/// The later of the two in order of acceptance, or the second if they are one.
fn later(old: Option<HistoryRequest>, new: HistoryRequest) -> HistoryRequest
    ensures { IsLaterOf old new result }
{
    match old {
        Some(old) if new.id.0 < old.id.0 => old,
        _ => new,
    }
}

/// The last in order of acceptance of the writes and trims accepted before the read that touched the sector while the
/// disk with this number was in.
fn last_writer(
    read: &HistoryRequest,
    sector: u64,
    disk: usize,
    history: &[DiskEvent],
) -> Option<HistoryRequest>
    ensures { IsLastWriter read.now.port sector disk read.now.id.0 (history_of history.now) result }
{
    match history.split_first() {
        None => None,
        Some((newest, past)) => {
            let old = last_writer(read, sector, disk, past);
            match writes(read, sector, newest) {
                Some(new) if plug_count(read.port, past) == disk => Some(later(old, new)),
                _ => old,
            }
        }
    }
}

/// What a write or trim puts on the sector: its own byte, or zeros.
fn written(writer: HistoryRequest, sector: u64) -> u8
    ensures { (b : ℕ)
        → block_written writer.op (accepted_of writer).blocks_at_acceptance (sector - writer.range.first.0) b ≡ result }
{
    match writer.op {
        Op::Write => sector_fill_byte(writer.fill, sector.saturating_sub(writer.range.first.0)),
        Op::Read | Op::Trim | Op::Flush => 0,
    }
}

/// What the writes and trims accepted before the read left on the sector, as the byte in all its places. The newest
/// happening stands first, and the disks had the fill `start` before the first.
pub fn expected_byte(start: u8, history: &[DiskEvent], read: &HistoryRequest, sector: u64) -> u8
    ensures { (block : Block) × expected_byte.IsExpectedBlock (machine_with_sectors_filled_from start)
        (history_of history.now)
        (accepted_of read.now) sector block
        × ((b : ℕ) → block b ≡ result) }
{
    let disk = disk_number_read(read, sector, history);
    match last_writer(read, sector, disk, history) {
        Some(writer) => written(writer, sector),
        None => sector_fill_byte(fill_when_plugged(start, read.port, disk, history), sector),
    }
}
