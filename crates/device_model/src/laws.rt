// Laws of the definitions, for callers: the clause is the theorem. These functions do nothing.
ghost use Rattle.std.specs.Prelude.{◌≡◌, ◌≢◌, ◌+◌, ◌<◌, ◌≤◌, ◌⊎◌, true, false, is_some, ℕ, Bool, List, Some, All};
ghost use Rattle.ata_types.specs.{declared.Port.{Port}, declared.Slot.{Slot}};
ghost use Rattle.adapter.specs.{Commands.{Meaning, is_queued}, Device.{Device, FetchedCommand}, Idle.{DisksAreKnownIfTheyTell}, Steps.{Can, IsFinished, WorksOn, next_place}, Steps.DeviceTransition.{Clear, Fetch, Move}, declared.access.DeviceStep.{DeviceStep}};
ghost use Rattle.device_model.specs.{WriteCaches.{sector_told}, Disks.{bay_of, numbered_disk, lasting_of, disk_index_of}, StepEffects.{DidStep, IsPossible, PutsDiskIntoPort}, Finishing.{HasDisksOrOperationMovesSectors}, HeldPorts.{IsPortHeld}, ModelState.{device_at}, Queue.{AnswersEachStep}, ModelOwnSteps.{DoesSpontaneousSteps}, declared.bay.Bay.{Bay}, declared.disks.DiskIndex.{DiskIndex}};
ghost use Rattle.adapter.specs.declared.access.DeviceStep.TheVariants as asked;

use crate::Model;
use sector_store::SectorStore;

/// The sectors of a model's disks are known if it is one that tells, whatever it did since it was made. Over stores
/// that tell theirs at all times, as those in memory do, each model is one that tells.
pub fn law_disk_sectors_are_known_if_they_tell<S: SectorStore>()
    ensures tells { (m : Model S) → DisksAreKnownIfTheyTell (device_at S.size S.told m) }
    ensures disks_tell_sectors { ((store : S) → is_some (S.told store) ≡ true) → (m : Model S)
        → (device_at S.size S.told m).disks_tell_sectors ≡ true }
{}

/// A move that the device may make, on a port that has a disk, is possible for a model where its piece is in the
/// memory.
pub fn law_moves_within_memory_are_model_possible<S: SectorStore>()
    ensures { (m : Model S) (p : Port) (slot : Slot) (t : FetchedCommand) (bytes : List ℕ) → slot.0 < 32
        → HasDisksOrOperationMovesSectors (device_at S.size S.told m) p.0 t.meaning.operation →
        next_place t + 512 ≤ (device_at S.size S.told m).memory_size
        → Can (Move p.0 slot.0 t bytes) (device_at S.size S.told m)
        → IsPossible (asked.Move p slot) (device_at S.size S.told m) }
{}

/// A clear that the device may make, of a sector at least, is possible for a model.
pub fn law_device_clears_are_model_possible<S: SectorStore>()
    ensures { (m : Model S) (p : Port) (slot : Slot) (t : FetchedCommand) (first count : ℕ) → slot.0 < 32 → 1 ≤ count →
        Can (Clear p.0 slot.0 t first count) (device_at S.size S.told m)
        → IsPossible (asked.Clear p slot count) (device_at S.size S.told m) }
{}

/// Whatever steps are done or left, one after another, that don't put a disk in which isn't in: it stays out, with the
/// sectors that it had. So it has these where it is put in. That holds of the disk that wasn't in last, which a
/// LosePlug doesn't put in, and of the one that was, where none is in.
pub fn law_disk_out_stays_out_unless_put_in<S: SectorStore>()
    ensures other { (steps : List DeviceStep) (old new : Model S) (port : ℕ) (which : DiskIndex)
        → disk_index_of old port ≢ Some which → All (λ s. PutsDiskIntoPort (disk_index_of old port) port which s
        → ⊥) steps →
        AnswersEachStep S.size S.told S.failures steps old new → (disk_index_of new port ≢ Some which)
        × (numbered_disk new port which ≡ numbered_disk old port which) }
    ensures last_in { (steps : List DeviceStep) (old new : Model S) (port : ℕ) (which : DiskIndex)
        → disk_index_of old port ≡ Some which →
        ((device_at S.size S.told old).port port).present ≡ false
        → All (λ s. PutsDiskIntoPort (disk_index_of old port) port which s → ⊥) steps
        → AnswersEachStep S.size S.told S.failures steps old new →
        (disk_index_of new port ≡ Some which → ((device_at S.size S.told new).port port).present ≡ false)
        × (numbered_disk new port which ≡ numbered_disk old port which) }
{}

/// What a model does by itself leaves a held port as it is.
pub fn law_spontaneous_steps_spare_held_ports()
    ensures { (held : List Bool) (old new : Device) (port : ℕ) → IsPortHeld held port
        → DoesSpontaneousSteps held old new
        → new.port port ≡ old.port port }
{}

/// Queued commands go on side by side. One that may be taken beside those that are may be taken still, the same one,
/// once another one was; and one of which nothing is left is taken still, and may end, once another one has ended,
/// whichever of them does first.
pub fn law_queued_commands_go_on_side_by_side<S: SectorStore>()
    ensures taken { (old new : Model S) (p : Port) (slot other : Slot) (m n : Meaning) (xs ys : List ℕ) → slot.0 < 32
        → other.0 < 32 → other.0 ≢ slot.0 →
        p.0 < 4 → is_queued m.operation ≡ true → is_queued n.operation ≡ true →
        Can (Fetch p.0 slot.0 m xs) (device_at S.size S.told old)
        → Can (Fetch p.0 other.0 n ys) (device_at S.size S.told old) →
        IsPossible (asked.Fetch p slot) (device_at S.size S.told old)
        × (DidStep S.size S.told S.failures (asked.Fetch p slot) old new
        → Can (Fetch p.0 other.0 n ys) (device_at S.size S.told new)
        × IsPossible (asked.Fetch p other) (device_at S.size S.told new)) }
    ensures ended { (old new : Model S) (p : Port) (slot other : Slot) (t u : FetchedCommand) → slot.0 < 32
        → other.0 < 32
        → other.0 ≢ slot.0 → p.0 < 4 →
        WorksOn ((device_at S.size S.told old).port p.0) slot.0 t t.meaning.operation →
        WorksOn ((device_at S.size S.told old).port p.0) other.0 u u.meaning.operation → IsFinished t → IsFinished u →
        IsPossible (asked.Done p slot) (device_at S.size S.told old)
        × (DidStep S.size S.told S.failures (asked.Done p slot) old new
        → WorksOn ((device_at S.size S.told new).port p.0)
        other.0 u u.meaning.operation
        × IsPossible (asked.Done p other) (device_at S.size S.told new)) }
{}

/// What a LosePlug leaves on a disk with a cache, of a store that tells its sectors: in each sector what is lasting of
/// it, or what it held, and then some call on the store has failed. So all is lasting where none has. (Which sectors'
/// writes have failed says `RollsBack`.)
pub fn law_lost_caches_leave_what_is_lasting<S: SectorStore>()
    ensures each_sector { (old new : Model S) (p : Port) (a b : Bay S) → bay_of old p.0 ≡ Some a → bay_of new p.0
        ≡ Some b
        → a.cache.is_on ≡ true → DidStep S.size S.told S.failures (asked.LosePlug p) old new → (sector : ℕ)
        → sector < S.size a.disk.store →
        (sector_told (S.told b.disk.store) sector ≡ sector_told (lasting_of S.told a) sector)
        ⊎ ((sector_told (S.told b.disk.store) sector ≡ sector_told (S.told a.disk.store) sector)
        × (S.failures b.disk.store ≢ S.failures a.disk.store)) }
    ensures all_is_lasting_without_failures { (old new : Model S) (p : Port) (a b : Bay S) → bay_of old p.0 ≡ Some a
        → bay_of new p.0 ≡ Some b
        → a.cache.is_on ≡ true → DidStep S.size S.told S.failures (asked.LosePlug p) old new
        → S.failures b.disk.store ≡ S.failures a.disk.store → (sector : ℕ) → sector < S.size a.disk.store →
        sector_told (S.told b.disk.store) sector ≡ sector_told (lasting_of S.told a) sector }
{}
