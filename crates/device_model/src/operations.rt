// What the model knows of each operation, beside the adapter's definitions.
ghost use Rattle.std.specs.Prelude.{◌≡◌};
ghost use Rattle.adapter.specs.{Device.{Disk, DurableState}, Steps.{lasting_after}};
ghost use Rattle.device_model.specs.{PortView.{cause_of}, Trims.{sectors_left_to_write}};

use adapter::Operation;

/// The bits of PxIS that the end of a command sets (AHCI 1.3.1, 3.3.5): DHRS for a Register FIS, PSS for a PIO Setup
/// FIS, SDBS for a Set Device Bits FIS.
const DHRS: u32 = 0;

const PSS: u32 = 1;

const SDBS: u32 = 3;

/// How many sectors at most a command writes to the disk, of so many pieces that are left to move.
#[inline]
pub fn sectors_to_write(operation: Operation, left: u32) -> u32
    ensures { result ≡ sectors_left_to_write operation left }
{
    match operation {
        Operation::Write | Operation::WriteQueued => left,
        _ => 0,
    }
}

/// The bit of PxIS that the end of a command sets: PSS where its data go by PIO, SDBS where it was queued, and else
/// DHRS (AHCI 1.3.1, 3.3.5).
pub fn end_cause_bit_number(operation: Operation) -> u32
    ensures { result ≡ cause_of operation }
{
    match operation {
        Operation::Identify | Operation::ReadLog => PSS,
        Operation::ReadQueued | Operation::WriteQueued => SDBS,
        Operation::Read | Operation::Write | Operation::Flush | Operation::Trim => DHRS,
    }
}

/// Once this command has ended, how long the tape was when the disk last ended a flush, or else when it was first in:
/// `here`, the length before the entry of its end, if it is a flush, and else `was`.
pub fn lasting_tape_length_after(operation: Operation, was: usize, here: usize) -> usize
    ensures { (lasting : DurableState) (disk : Disk) → lasting.tape_length ≡ was
        → result ≡ (lasting_after operation lasting disk here).tape_length }
{
    match operation {
        Operation::Flush => here,
        _ => was,
    }
}
