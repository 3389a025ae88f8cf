// Laws of disks that go, stay away, or show themselves: the clause is the theorem. Nothing that runs calls these
// functions.
ghost use Rattle.std.specs.Prelude.{ℕ, true, false, ◌≡◌, ◌≢◌, ◌≤◌, ◌%◌, ◌⊎◌};
ghost use Rattle.ata_types.specs.declared.Port.{Port};
ghost use Rattle.hba_regs.specs.{Bits.{bit}, declared.reg.Reg.TheVariants.{Ghc, Px}, declared.reg.PortReg.TheVariants.{Is, Sctl, Ssts}};
ghost use Rattle.adapter.specs.{Access.{Reads, Writes, Access, Does}, Device.{DevicePort, Device}, Idle.{IsIdle}, Steps.{Steps}};
ghost use Rattle.refinement.specs.{Errors.{NoDiskComes, NoFaults}, PreservedParts.{NoPlugEvents, HasDet3IfDiskPresent}, Vacant.{IsVacant, HasFirstFisIfDet3}};

use super::prerequisites::law_prerequisites;

/// Where the tape tells of no disk of the port that comes: a port with no disk in has none in then, and one that shows
/// none, none then; and where a device shows, its first FIS has come, if it had where one showed before. Whatever else
/// the device does, also over a reset that ends, and over each access. A reset that has ended shows no device, and so
/// does COMRESET.
pub fn law_vacancy_stays_where_no_disk_comes()
    ensures out_steps { (port : ℕ) (old new : Device) → NoDiskComes port old new → Steps old new
        → (old.port port).present ≡ false → (new.port port).present ≡ false }
    ensures out_access { (port : Port) (access : Access) (old new : Device) → NoDiskComes port.0 old new
        → Does access old new → (old.port port.0).present ≡ false → (new.port port.0).present ≡ false }
    ensures vacant_steps { (port : ℕ) (old new : Device) → NoDiskComes port old new → Steps old new
        → IsVacant (old.port port) → IsVacant (new.port port) }
    ensures vacant_access { (port : Port) (access : Access) (old new : Device) → NoDiskComes port.0 old new
        → Does access old new → IsVacant (old.port port.0) → IsVacant (new.port port.0) }
    ensures fresh_steps { (port : ℕ) (old new : Device) → NoDiskComes port old new → Steps old new
        → HasFirstFisIfDet3 (old.port port) → HasFirstFisIfDet3 (new.port port) }
    ensures fresh_access { (port : Port) (access : Access) (old new : Device) → NoDiskComes port.0 old new
        → Does access old new → HasFirstFisIfDet3 (old.port port.0) → HasFirstFisIfDet3 (new.port port.0) }
    ensures vacant_reset { (v : ℕ) (old new : Device) → old.hr ≡ true → Reads Ghc v old new → bit v 0 ≡ false
        → (port : ℕ) → NoDiskComes port old new → (old.port port).present ≡ false → IsVacant (new.port port) }
    ensures fresh_reset { (v : ℕ) (old new : Device) → old.hr ≡ true → Reads Ghc v old new → bit v 0 ≡ false
        → (port : ℕ) → NoDiskComes port old new → HasFirstFisIfDet3 (new.port port) }
    ensures fresh_comreset { (port : Port) (v : ℕ) (old new : Device) → v % 16 ≡ 1 → Writes (Px port Sctl) v old new
        → HasFirstFisIfDet3 (new.port port.0) }
    ensures det_3_shows_disk_if_in { (port : Port) (v : ℕ) (old new : Device) → Reads (Px port Ssts) v old new
        → v % 16 ≡ 3
        → HasDet3IfDiskPresent (new.port port.0) }
{
    law_prerequisites();
}

/// Once HR is read 0 after a reset, the adapter is idle.
pub fn law_hr_read_clear_leaves_adapter_idle()
    ensures { (v : ℕ) (old new : Device) → old.hr ≡ true → Reads Ghc v old new → bit v 0 ≡ false → IsIdle new }
{
    law_prerequisites();
}

/// What a reading of PxIS or PxSSTS tells of a port while no reset is pending. Each bit of 27 to 30 that is set shows,
/// PRCS shows N and PCS X. Where PxIS shows PRCS or PCS, or PxSSTS no device, and no link was due, N or X was set or no
/// device showed before, or a disk has gone or come. And where PxIS shows TFES, it was set before, or the tape tells of
/// a fault.
pub fn law_tfes_or_link_change_read_was_set_or_taped()
    ensures pxis_shows_set_bits { (port : Port) (v place : ℕ) (old new : Device) → old.hr ≡ false
        → Reads (Px port Is) v old new
        → 27 ≤ place → place ≤ 30 → (old.port port.0).is place ≡ true → bit v place ≡ true }
    ensures pxis_shows_serr_n_and_x { (port : Port) (v : ℕ) (old new : Device) → old.hr ≡ false
        → Reads (Px port Is) v old new
        → ((old.port port.0).serr_n ≡ true → bit v 22 ≡ true) × ((old.port port.0).serr_x ≡ true → bit v 6 ≡ true) }
    ensures link_bits_tell_changes { (port : Port) (v : ℕ) (old new : Device) → old.hr ≡ false
        → (old.port port.0).link_due ≡ false
        → Reads (Px port Is) v old new → (bit v 22 ≡ true) ⊎ (bit v 6 ≡ true)
        → ((old.port port.0).serr_n ≡ true) ⊎ (((old.port port.0).serr_x ≡ true) ⊎ (NoPlugEvents port.0 old new → ⊥)) }
    ensures det_not_3_was_or_plug_event { (port : Port) (v : ℕ) (old new : Device) → old.hr ≡ false
        → (old.port port.0).link_due ≡ false
        → Reads (Px port Ssts) v old new → v % 16 ≢ 3 → ((old.port port.0).ssts_det ≢ 3)
        ⊎ (NoPlugEvents port.0 old new → ⊥) }
    ensures fault { (port : Port) (v : ℕ) (old new : Device) → old.hr ≡ false → Reads (Px port Is) v old new
        → bit v 30 ≡ true → ((old.port port.0).is 30 ≡ true) ⊎ (NoFaults port.0 old new → ⊥) }
{
    law_prerequisites();
}
