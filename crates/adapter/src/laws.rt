// Laws of the definitions, for the crates above: the clause is the theorem. Nothing that runs calls these functions.
ghost use Rattle.std.specs.Prelude.{◌<◌, ◌≡◌, ◌+◌, ◌*◌, ◌≤◌, ◌++◌, ℕ, Some, Bool, true, false, List, All, Contains, if◌then◌else◌, is_some, length, slice_index};
ghost use Rattle.ata_types.specs.{declared.Port.{Port}, declared.memory.TheConstants.{FRAME_BYTES, HEADER_BYTES, RECEIVED_FIS_BYTES}};
ghost use Rattle.hba_regs.specs.{declared.reg.PortReg.{PortReg}, declared.reg.Reg.{Reg}, declared.reg.Reg.TheVariants.{Px}, Bits.{bit}};
ghost use Rattle.adapter.specs.{declared.access.DeviceStep.{DeviceStep}, Access.{Access, ShowsPendingAndPerhapsUnnamedCause, Does, DoesAll, IsDriven, Reads, Writes, is_named_cause, is_ips_set, named_causes_mask, raises_interrupt, shown_interrupt, device_after_write}, AskedSteps.{DoesOrFailsStep, IsScribbled, memory_filled_if_all_inside}, Commands.{Meaning}, Device.{Device, DevicePort}, FirstRead.{first_read_device, first_disk_sector}};
ghost use Rattle.adapter.specs.{Guarded.{PassesTest, MissesRange, IsGuarded, IsKeptOutsideTables}, Idle.{IsIdle, HoldsBytesAndTellsDisks}, KeptBySteps.{KeepsOverSteps, KeepsControlsFlagsRise}, Memory.{bytes_at, patched}, OneCommand.{NoSlotHasCommand, HasOneCommand, IsOutsideCommand, is_read_only, is_not_device_writable, layout_of}, ReadDone.{IsReadDone, IsReadThatCanComplete, read_of}};
ghost use Rattle.adapter.specs.{PendingInterrupts.{LeavesPxIeUnwritten, KeepsIsBit, SetsCause, EnablesNamedCauses, interrupting_port, flush_cause_cleared, flushed, flushing, flush_taken}, Rules.{HasPort, IsOn, IsInMemoryNotOwnedByDevice, IsStable}, Decoding.{DecodesTo, piece_addresses}, RegisterEffects.{PortRegisterWritten, PortRegisterRead}, Steps.{Can, DeviceTransition, Steps, device_after}, declared.tape.Entry.{Entry}};
ghost use Rattle.hba_regs.specs.declared.reg.Reg.TheVariants as adapter;

/// The device may do nothing, and what it does goes on.
pub fn law_steps_compose()
    ensures reflexive { (d : Device) → Steps d d }
    ensures transitive { (old mid new : Device) → Steps old mid → Steps mid new → Steps old new }
{}

/// What a device was asked to do consists of some of its steps.
pub fn law_asked_steps_are_transitions()
    ensures { (s : DeviceStep) (old new : Device) → DoesOrFailsStep s old new → Steps old new }
{}

/// What is put into memory is read again, and every other byte is as it was. Memories that agree on some bytes have the
/// same bytes there. As many are read as were asked for, in order.
pub fn law_memory_reads_back()
    ensures stored_bytes_are_read { (memory : ℕ → ℕ) (at : ℕ) (bytes : List ℕ)
        → bytes_at (patched memory at bytes) at (length bytes) ≡ bytes }
    ensures other_bytes_are_kept { (memory : ℕ → ℕ) (at : ℕ) (bytes : List ℕ) (place : ℕ)
        → (at ≤ place → place < at + length bytes → ⊥) → patched memory at bytes place ≡ memory place }
    ensures equal_bytes_read_equal { (old new : ℕ → ℕ) (at count : ℕ)
        → ((place : ℕ) → at ≤ place → place < at + count → new place ≡ old place)
        → bytes_at new at count ≡ bytes_at old at count }
    ensures length_is { (memory : ℕ → ℕ) (at count : ℕ) → length (bytes_at memory at count) ≡ count }
    ensures byte_at_index { (memory : ℕ → ℕ) (at count i : ℕ) → i < count
        → slice_index (bytes_at memory at count) i ≡ memory (at + i) }
{}

/// A scribble fills the received FIS area, and then PRDBC of one slot after another whose command is taken.
pub fn law_scribbled_memory_is_filled_slot_by_slot()
    ensures received_fis_area { (size byte : ℕ) (p : DevicePort) (old : ℕ → ℕ)
        → IsScribbled 0 size byte p old (memory_filled_if_all_inside size p.bases.fb RECEIVED_FIS_BYTES byte old) }
    ensures prdbc_of_slot { (slot size byte : ℕ) (p : DevicePort) (old before new : ℕ → ℕ)
        → IsScribbled slot size byte p old before
        → new ≡ (if is_some (p.taken slot) then memory_filled_if_all_inside size
        (p.bases.clb + HEADER_BYTES * slot + 4) 4 byte before
        else before)
        → IsScribbled (slot + 1) size byte p old new }
{}

/// What no step of the device changes, no list of steps changes.
pub fn law_step_lists_keep_what_steps_keep()
    ensures { (old new : Device) → Steps old new → KeepsOverSteps old new }
{}

/// By itself the device doesn't switch an adapter on that isn't: as its reset ends, AE falls.
pub fn law_steps_never_switch_adapter_on()
    ensures { (old new : Device) → Steps old new → IsOn new → IsOn old }
{}

/// The bytes of a slot say one command at most, with one list of places.
pub fn law_slot_decodes_to_at_most_one_command()
    ensures { (memory : ℕ → ℕ) (list slot : ℕ) (m n : Meaning) (xs ys : List ℕ) → DecodesTo memory list slot m xs
        → DecodesTo memory list slot n ys → (m ≡ n) × (xs ≡ ys) }
{}

/// Bytes that no command in use may write stay as they are, and the commands in use go on to stand on them.
pub fn law_kept_bytes_stay_over_device_steps()
    ensures { (tables kept : ℕ → Bool) (old new : Device) → IsGuarded (PassesTest tables) (PassesTest kept) old
        → Steps old new → IsGuarded (PassesTest tables) (PassesTest kept) new
        × ((at : ℕ) → PassesTest kept at → new.memory at ≡ old.memory at) }
{}

/// Kept bytes that belong to no table and no header in use may be loaded and stored, whatever the device does first.
pub fn law_device_owns_no_kept_bytes_outside_tables()
    ensures { (tables kept : ℕ → Bool) (at n : ℕ) (d : Device) → IsGuarded (PassesTest tables) (PassesTest kept) d
        → IsKeptOutsideTables (PassesTest tables) (PassesTest kept) at n d
        → IsStable (IsInMemoryNotOwnedByDevice at n) d }
{}

/// A reading of any register leaves kept bytes and guards as the device's steps do.
pub fn law_kept_bytes_stay_over_register_reads()
    ensures { (tables kept : ℕ → Bool) (old new : Device) (r : Reg) (v : ℕ) → Reads r v old new
        → IsGuarded (PassesTest tables) (PassesTest kept) old
        → IsGuarded (PassesTest tables) (PassesTest kept) new × ((at : ℕ) → PassesTest kept at
        → new.memory at ≡ old.memory at) }
{}

/// Accesses go on one after another, and so do lists of them.
pub fn law_accesses_compose()
    ensures reflexive { (d : Device) → IsDriven d d }
    ensures single_access { (access : Access) (old new : Device) → Does access old new → IsDriven old new }
    ensures transitive { (old mid new : Device) → IsDriven old mid → IsDriven mid new → IsDriven old new }
    ensures lists_append { (early late : List Access) (old mid new : Device) → DoesAll early old mid
        → DoesAll late mid new
        → DoesAll (early ++ late) old new }
{}

/// While no reset is pending, a reading of a port's register leaves the adapter as steps of the device do, and the port
/// shows the value and has it noted. A write is steps of the device, and then the port alone has what was written.
pub fn law_port_access_is_steps_then_port_effect()
    ensures register_read { (port : Port) (r : PortReg) (v : ℕ) (old new : Device) → Reads (Px port r) v old new
        → old.hr ≡ false
        → PortRegisterRead port.0 r v old new }
    ensures register_written { (port : Port) (r : PortReg) (v : ℕ) (old new : Device) → Writes (Px port r) v old new
        → old.hr ≡ false
        → PortRegisterWritten port.0 r v old new }
{}

/// What each of two fragments keeps of a port's controls, and of the flags that were set, both keep; and so does
/// nothing.
pub fn law_kept_controls_and_rising_flags_compose()
    ensures reflexive { (p : DevicePort) → KeepsControlsFlagsRise p p }
    ensures transitive { (old mid new : DevicePort) → KeepsControlsFlagsRise old mid → KeepsControlsFlagsRise mid new
        → KeepsControlsFlagsRise old new }
{}

/// The port's interrupt is pending if PxIS shows a cause that PxIE enables. It is pending after each step of the device
/// that raises such a cause: an end of a command, a fault, a fatal error, a disk that comes or goes (AHCI 1.3.1, 3.1.3
/// and 3.3.5). What steps raise is one of the causes that are named, and the mask has the bits of exactly these.
pub fn law_ips_is_set_while_enabled_cause_is_shown()
    ensures named { (place : ℕ) → is_named_cause place ≡ true → bit named_causes_mask place ≡ true }
    ensures no_other_is_named { (place : ℕ) → place < 32 → bit named_causes_mask place ≡ is_named_cause place }
    ensures steps_raise_named_causes_alone { (step : DeviceTransition) (port place : ℕ) (d : Device) → Can step d
        → SetsCause step port place
        → is_named_cause place ≡ true }
    ensures cause_shown_is_pending { (p : DevicePort) (place : ℕ) → is_named_cause place ≡ true
        → shown_interrupt p place ≡ true
        → bit p.ie place ≡ true → is_ips_set p ≡ true }
    ensures cause_raised_is_pending { (step : DeviceTransition) (port place : ℕ) (d : Device) → Can step d
        → SetsCause step port place
        → bit (d.port port).ie place ≡ true → is_ips_set ((device_after step d).port port) ≡ true }
{}

/// What is pending stays so, whatever the device and the driver do, until the port's bit of IS is written or the
/// adapter is reset: until then each reading of IS shows the bit. Once it is written, only what PxIS shows is pending.
pub fn law_ips_stays_set_until_written_or_hba_reset()
    ensures steps { (port : ℕ) (old new : Device) → Steps old new → old.hr ≡ false
        → is_ips_set (old.port port) ≡ true → is_ips_set (new.port port) ≡ true }
    ensures accesses { (port : ℕ) (accesses : List Access) (old new : Device) → DoesAll accesses old new
        → All (KeepsIsBit port) accesses → old.hr ≡ false
        → is_ips_set (old.port port) ≡ true → is_ips_set (new.port port) ≡ true }
    ensures is_reading_shows_pending { (port v : ℕ) (old new : Device) → Reads adapter.Is v old new → HasPort new port
        → ShowsPendingAndPerhapsUnnamedCause (bit v port) (new.port port) }
    ensures is_write_leaves_raised { (port v : ℕ) (old new : Device) → Writes adapter.Is v old new → bit v port ≡ true
        → is_ips_set (new.port port) ≡ raises_interrupt (new.port port) }
{}

/// If PxIE enables each named cause, the port's interrupt is pending after each of these entries of the tape: a command
/// that ended or failed, a fatal error, a disk that went or came. It is still pending at the end of any accesses that
/// write neither PxIE nor the port's bit of IS, and reset nothing (AHCI 1.3.1, 5.5.3).
pub fn law_interrupting_entries_set_ips_until_written()
    ensures { (port : ℕ) (e : Entry) (accesses : List Access) (gained : List Entry)
        (old new : Device) → interrupting_port e ≡ Some port → DoesAll accesses old new → All (KeepsIsBit port) accesses
        → All (LeavesPxIeUnwritten port) accesses → old.hr ≡ false → EnablesNamedCauses (old.port port)
        → new.tape ≡ old.tape ++ gained → Contains gained e
        → is_ips_set (new.port port) ≡ true }
{}

/// There is an interrupt that comes and goes, so the laws above are about something. A flush may end on a port that
/// enables all causes. Then its bit of IS stays set while PxIS shows the cause, even if it is written, and also after
/// PxIS was cleared. Then a write of the bit clears it.
pub fn law_flush_ips_example_clears_pxis_then_is()
    ensures none_is_pending { is_ips_set (flushing.port 0) ≡ false }
    ensures causes_are_enabled { (flushing.hr ≡ false) × EnablesNamedCauses (flushing.port 0) }
    ensures flush_may_end { Can (DeviceTransition.Done 0 0 0 flush_taken) flushing }
    ensures end_is_pending { is_ips_set (flushed.port 0) ≡ true }
    ensures stays_while_cause_shows { is_ips_set ((device_after_write adapter.Is 1 flushed).port 0) ≡ true }
    ensures stays_without_cause { is_ips_set (flush_cause_cleared.port 0) ≡ true }
    ensures goes_by_is_write { is_ips_set ((device_after_write adapter.Is 1 flush_cause_cleared).port 0) ≡ false }
{}

/// If no slot has a command, any bytes that are not of a received FIS area in use are guarded, and no table is needed.
pub fn law_an_adapter_without_commands_is_guarded()
    ensures { (kept : ℕ → Bool) (d : Device) → NoSlotHasCommand d
        → ((port : ℕ) → (d.port port).fre ≡ true
        → MissesRange (PassesTest kept) (d.port port).bases.fb ((d.port port).bases.fb + RECEIVED_FIS_BYTES))
        → IsGuarded (PassesTest (λ _. false)) (PassesTest kept) d }
{}

/// An idle adapter is guarded, whatever bytes are kept; so its driver may load and store any bytes of the memory,
/// whatever the device does first.
pub fn law_idle_adapter_is_guarded_with_no_tables()
    ensures guarded { (kept : ℕ → Bool) (d : Device) → IsIdle d
        → IsGuarded (PassesTest (λ _. false)) (PassesTest kept) d }
    ensures device_owns_no_bytes { (at n : ℕ) (d : Device) → IsIdle d → at + n ≤ d.memory_size
        → IsStable (IsInMemoryNotOwnedByDevice at n) d }
{}

/// An adapter with one command is guarded: what the device only reads for it are the tables, and what it doesn't write
/// is kept. So the driver may load and store all other bytes of the memory, whatever the device does first.
pub fn law_an_adapter_with_one_command_is_guarded()
    ensures guarded { (port slot : ℕ) (d : Device) (c : HasOneCommand d port slot)
        → IsGuarded (PassesTest (is_read_only (layout_of d port slot c.command)))
        (PassesTest (is_not_device_writable (layout_of d port slot c.command))) d }
    ensures device_owns_no_bytes { (port slot at n : ℕ) (d : Device) (c : HasOneCommand d port slot)
        → IsOutsideCommand (layout_of d port slot c.command) at n d → IsStable (IsInMemoryNotOwnedByDevice at n) d }
{}

/// A read that may be fetched can be done, on a disk with specified contents: some steps of its slot's command lead to
/// a state in which each sector is in its piece, and the slot is free.
pub fn law_fetchable_read_can_complete()
    ensures { (port slot first count : ℕ) (places : List ℕ) (told : ℕ → List ℕ) (old : Device)
        → IsReadThatCanComplete old port slot first count places told → (new : Device)
        × IsReadDone old new port slot first count places told }
{}

/// There is an adapter with a command, so that the laws above speak of something: eight sectors from 100 on are to be
/// read into frame 100. It is switched on; its memory and disks are sane; the bytes of the slot say the read; frame 101
/// is free, whatever the device does; and the read can be done.
pub fn law_an_adapter_with_one_read_exists()
    ensures on { IsOn first_read_device }
    ensures holds_bytes { HoldsBytesAndTellsDisks first_read_device }
    ensures command { HasOneCommand first_read_device 0 0 }
    ensures says { DecodesTo first_read_device.memory 0 0 (read_of 100 8) (piece_addresses 0x64000 8) }
    ensures frame_is_free { IsStable (IsInMemoryNotOwnedByDevice 0x65000 FRAME_BYTES) first_read_device }
    ensures read_can_be_done { (new : Device) × IsReadDone first_read_device new 0 0 100 8 (piece_addresses 0x64000 8)
        first_disk_sector }
{}
