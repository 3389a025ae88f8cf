//! The clause of the function is the law, and the function does nothing. `D` is the type of the steps that a device can
//! be asked to make: the law holds for any device.

ghost use Rattle.std.specs.Prelude.{List};
ghost use Rattle.block_machine.specs.{Expected.{AllStepsFaithful}, Events.{AbstractState, CallRecord, IsRun, steps_of}};
ghost use Rattle.durability.specs.Durable.{EveryReplugFindsFlushedOrLater};

/// This holds for every run of calls on disks with specified contents. Let a write or trim be answered Ok before a
/// flush of its port was accepted, let the flush be answered Ok, and let no disk be taken out in between. Then the same
/// disk has what that put there, or what a later one did, each time that it comes back, whatever its cache lost (FLUSH
/// CACHE EXT, ACS-3).
pub fn law_flushed_writes_survive_replug<D>()
    ensures { (first : AbstractState) (run : List (CallRecord D)) → IsRun first run
        → AllStepsFaithful first.machine (steps_of run)
        → EveryReplugFindsFlushedOrLater first.machine (steps_of run) }
{}
