// Laws of what a driver learns from the device, for the crates above: the clause is the theorem. Nothing that runs
// calls these functions.
ghost use Rattle.std.specs.Prelude.{ℕ, true, false, ◌≡◌, ◌≢◌, ◌≤◌, ◌+◌, ◌*◌, ◌/◌, ◌%◌, ◌++◌, List, length, drop, Some, None, Contains, All};
ghost use Rattle.ata_types.specs.{declared.Port.{Port}, declared.memory.TheConstants.{DRIVER_FRAMES, FRAME_BYTES}, declared.request.Frame.{Frame}, declared.request.RequestId.{RequestId}};
ghost use Rattle.hba_regs.specs.{Bits.{bit}, declared.reg.Reg.{Reg}, declared.reg.Reg.TheVariants.{Ghc, Px}, declared.reg.PortReg.TheVariants.{Is, Ie, Cmd, Tfd, Sig, Ssts, Sctl, Serr, Ci, Sact, Clb, Clbu, Fb, Fbu}, declared.reg.PortReg.{PortReg}};
ghost use Rattle.adapter.specs.{Access.{Reads, Writes, Loads, Stores, Access, Does, DoesAll, PortShows, notes_after_reading}, Access.Access.{Writing}, Device.{Device, DevicePort}, Device.Halt.{HaltedByPlain}, FirstRead.{first_read_device}, Idle.{IsIdle, IsIdlePort}, OneCommand.{SlotHasNoCommand}, Rules.{IsInMemoryNotOwnedByDevice, IsOn, MayWrite, IsStable}, Steps.{Steps}, declared.command.Operation.{Operation}, declared.tape.Entry.{Entry}};
ghost use Rattle.block_machine.specs.{Events.{AllByDevice}, Histories.{IsReachable, IsSimulatedBySteps}, Expected.{after}, State.{Pending, Machine}, Steps.{Step, Release, IsIssuedOrKept, NoneKept, after_step}};
ghost use Rattle.refinement.specs.{Relation.{StateRelation}, AwaitedPage.{AwaitsOrHasPage}, BootWitness.{BootWitness}, Fragments.{TapeGrows}, Driver.{DriverState, DriverRelation, IsOwnCommandPreparedInSlot0}, Errors.{KeepsSetBitsOfPxisAndSerrNX, NoDiskComes, LinkErrorsRiseByDisks, ErrorBitsStayClear, NoFatalErrors, NoFaults, ErrorBitsRiseByErrors, IsLeftByReset, ShowsResetStateUntilSerrX, IsCompositional, IsEngineWorkOrErrorOf}};
ghost use Rattle.refinement.specs.PortFacts.{IsEngineStopped, IsQuiescentPort, FollowsAndHasPageSinceStSet, DeviceOwnsNoByteOfFrame, CommandsAreOver, RunsWell, Undisturbed, ShowsNoTrouble, PxisValueTellsNoTrouble, ClearsNoTrouble, IsHaltedByPlainOrQueued, ShowsFault, RecordsFaults, RecordsFaultsIfSt, WhileLinkAwaitedCrIsClearAndDrqSet, CrAndTfesAreClear, IsCleanToStart, StartsCleanAndWritesSctlStopped, EndedOnPort, IsSlotClear};
ghost use Rattle.refinement.specs.{PreservedParts.{DoesNotWrite, SameAdapter, ControlsChangeOnlyByTheirWrites, NoPlugEvents, KeepsDisk, LinkIsSameOrComesUp, HasDet3IfDiskPresent}, PortNotes.{NotesChangeOnlyByReadOrSctlWrite, NotesLast}, MemoryLayout.{scratch_frame_address}, Slots.{SlotStates, Free, Own, Serves, PageCameSinceAndStandsInScratch, set_slot_state}, SparedBook.{IsNotStepOfPendingRequest}, Staying.{StaysOverReadings, StaysOverSteps, StaysOverPermittedWritesWithCmdValue}};
ghost use Rattle.refinement.specs.StartedPort.{IsUpForStart, IsStoppedAndUpForStartIfDet3, IsStarted, WritesCmdOnlyWithStClear, WritesCmdOnlyWithStSet};

use super::prerequisites::law_prerequisites;
use adapter::laws::law_step_lists_keep_what_steps_keep;

/// A port that has halted stays so, whatever the device does, also over a reset of the adapter that ends, over
/// readings, and over each write that may be made and doesn't set its ST; and an idle port has halted.
pub fn law_stopped_engine_stays()
    ensures steps { StaysOverSteps IsEngineStopped }
    ensures reads { StaysOverReadings IsEngineStopped }
    ensures writes { StaysOverPermittedWritesWithCmdValue (λ v. bit v 0 ≡ false) IsEngineStopped }
    ensures idle { (p : DevicePort) → IsIdlePort p → IsEngineStopped p }
{
    law_prerequisites();
}

/// ST is 0 and CR is read 0: the port's engine has stopped, and no command is issued or taken.
pub fn law_cr_read_clear_means_engine_stopped()
    ensures { (uses : SlotStates) (m : Machine) (port : Port) (v : ℕ) (old new : Device) → IsReachable m
        → StateRelation uses m old
        → (old.port port.0).st ≡ false → Reads (Px port Cmd) v old new → bit v 15 ≡ false
        → IsEngineStopped (new.port port.0) }
{
    law_prerequisites();
}

/// HR of GHC begins a reset of the adapter, and is read 1 while the reset is pending. After it is read 0, each port is
/// as the reset left it, except for what the device did since; only the device made steps before that, too. Its engines
/// stand, no bit of PxIS is set, and what comes since sets N or X. Its engines go on standing, whatever the device
/// does, over readings, and over each write that may be made and sets neither its ST nor its FRE. A port is as after a
/// reset exactly if it is idle.
pub fn law_hr_read_clear_means_ports_are_quiescent()
    ensures begins { (v : ℕ) (old new : Device) → bit v 0 ≡ true → Writes Ghc v old new → new.hr ≡ true }
    ensures hr_and_ae_are_read { (v : ℕ) (old new : Device) → Reads Ghc v old new → (new.hr ≡ bit v 0)
        × (new.ae ≡ bit v 31) }
    ensures port_is_quiescent { (v : ℕ) (old new : Device) → old.hr ≡ true → Reads Ghc v old new → bit v 0 ≡ false
        → (port : ℕ) → IsQuiescentPort (new.port port) }
    ensures left { (v : ℕ) (old new : Device) → old.hr ≡ true → Reads Ghc v old new → bit v 0 ≡ false
        → (mid : Device) × (mid.hr ≡ false) × ((port : ℕ) → IsLeftByReset (mid.port port)) × Steps mid new
        × Steps old mid }
    ensures cleared { (v : ℕ) (old new : Device) → old.hr ≡ true → Reads Ghc v old new → bit v 0 ≡ false
        → (port : ℕ) → ShowsResetStateUntilSerrX (new.port port) }
    ensures stays { StaysOverSteps IsQuiescentPort }
    ensures reads { StaysOverReadings IsQuiescentPort }
    ensures writes { StaysOverPermittedWritesWithCmdValue (λ v. (bit v 0 ≡ false) × (bit v 4 ≡ false)) IsQuiescentPort }
    ensures idle { (p : DevicePort) → IsIdlePort p → IsQuiescentPort p }
    ensures is_idle { (p : DevicePort) → IsQuiescentPort p → IsIdlePort p }
{
    law_prerequisites();
}

/// A request of the book that has ended is still issued. One that may move and has ended leaves its slot clear, even if
/// ST is 0. On a running port a slot that serves a request and whose bits are both clear has ended it.
pub fn law_slot_is_clear_iff_ended_while_st_set()
    ensures issued { (m : Machine) (e : Pending) → IsReachable m → Contains m.book e → e.ended ≡ true
        → e.issued ≡ true }
    ensures clears { (uses : SlotStates) (m : Machine) (d : Device) (port : Port) (slot : ℕ) (e : Pending)
        → IsReachable m
        → StateRelation uses m d → IsIssuedOrKept m e → e.ended ≡ true → uses port.0 slot ≡ Serves e.request.id
        → IsSlotClear (d.port port.0) slot × EndedOnPort m port e.request.id }
    ensures ends { (uses : SlotStates) (m : Machine) (d : Device) (port : Port) (slot : ℕ) (id : RequestId)
        → StateRelation uses m d
        → uses port.0 slot ≡ Serves id → (d.port port.0).st ≡ true → (d.port port.0).ci slot ≡ false
        → (d.port port.0).sact slot ≡ false → IsSlotClear (d.port port.0) slot × EndedOnPort m port id }
{}

/// A slot's command that is over stays so, and so do its clear bits, whatever the device does, and over each access
/// that doesn't write the slot's bit of PxCI or PxSACT. And a request that was ended stays so over the device's own
/// steps, and over each step that isn't of it, so that several that were found ended are answered one after another;
/// Release alone gives back what is kept.
pub fn law_clear_slots_and_ended_requests_stay_so()
    ensures over { (port slot : ℕ) (old new : Device) → Steps old new → SlotHasNoCommand (old.port port) slot
        → SlotHasNoCommand (new.port port) slot }
    ensures over_access { (port : Port) (slot : ℕ) (access : Access) (old new : Device)
        → ((v : ℕ) → access ≡ Writing (Px port Ci) v → bit v slot ≡ false) → Does access old new
        → SlotHasNoCommand (old.port port.0) slot → SlotHasNoCommand (new.port port.0) slot }
    ensures clear { (port slot : ℕ) (old new : Device) → Steps old new → IsSlotClear (old.port port) slot
        → IsSlotClear (new.port port) slot }
    ensures clear_access { (port : Port) (slot : ℕ) (access : Access) (old new : Device)
        → ((v : ℕ) → access ≡ Writing (Px port Ci) v → bit v slot ≡ false)
        → ((v : ℕ) → access ≡ Writing (Px port Sact) v → bit v slot ≡ false) → Does access old new
        → IsSlotClear (old.port port.0) slot → IsSlotClear (new.port port.0) slot }
    ensures ended { (m : Machine) (steps : List Step) (port : Port) (id : RequestId) → AllByDevice steps
        → EndedOnPort m port id → EndedOnPort (after m steps) port id }
    ensures ended_beside { (m : Machine) (step : Step) (port : Port) (id : RequestId)
        → IsNotStepOfPendingRequest id step
        → step ≢ Release → EndedOnPort m port id → EndedOnPort (after_step m step) port id }
    ensures ended_released { (m : Machine) (port : Port) (id : RequestId) → NoneKept m port → EndedOnPort m port id
        → EndedOnPort (after_step m Release) port id }
{
    law_prerequisites();
}

/// The driver waits for the page of a command of its own, over as many readings as it takes. The write of PxCI begins
/// it; and it goes on, whatever the device does, and over each access that doesn't clear ST and leaves no reset
/// pending. Once PxCI is read with bit 0 clear, the page that stands in the scratch frame was brought since that write;
/// and a load of the frame then gives its bytes.
pub fn law_ci_read_clear_means_page_has_come()
    ensures issued { (uses : SlotStates) (m : Machine) (port : Port) (o : Operation) (v : ℕ) (old new : Device)
        → IsReachable m
        → StateRelation uses m old → old.hr ≡ false → IsOwnCommandPreparedInSlot0 uses old port.0 o v
        → Writes (Px port Ci) v old new
        → AwaitsOrHasPage (set_slot_state uses port.0 0 (Own o)) port.0 o (length new.tape) new }
    ensures steps { (uses : SlotStates) (m : Machine) (port : ℕ) (o : Operation) (since : ℕ) (old new : Device)
        → IsReachable m
        → StateRelation uses m old → Steps old new → AwaitsOrHasPage uses port o since old
        → AwaitsOrHasPage uses port o since new }
    ensures access { (uses : SlotStates) (m : Machine) (port : Port) (o : Operation) (since : ℕ) (access : Access)
        (old new : Device)
        → IsReachable m → StateRelation uses m old → WritesCmdOnlyWithStSet port access → new.hr ≡ false
        → Does access old new
        → AwaitsOrHasPage uses port.0 o since old → AwaitsOrHasPage uses port.0 o since new }
    ensures found { (uses : SlotStates) (m : Machine) (port : Port) (o : Operation) (since v : ℕ) (old new : Device)
        → IsReachable m → StateRelation uses m old → AwaitsOrHasPage uses port.0 o since old
        → Reads (Px port Ci) v old new
        → bit v 0 ≡ false → FollowsAndHasPageSinceStSet uses m port.0 o old new
        × PageCameSinceAndStandsInScratch new.memory new.tape port.0 o since }
    ensures loaded { (uses : SlotStates) (m : Machine) (port : ℕ) (o : Operation) (since : ℕ) (bytes : List ℕ)
        (old new : Device)
        → IsReachable m → StateRelation uses m old → AwaitsOrHasPage uses port o since old
        → SlotHasNoCommand (old.port port) 0
        → Loads (scratch_frame_address port) bytes old new → length bytes ≡ 512
        → (b : PageCameSinceAndStandsInScratch new.memory new.tape port o since) × (bytes ≡ b.move.bytes.value) }
{
    law_prerequisites();
}

/// If the commands of a request have ended, the device uses none of the frames that are lent to it any more, whatever
/// it does, so they may leave the loan. (Only one slot serves a request.) Nor does it use a client's frame that is lent
/// to nobody, or any frame while it is idle. The bytes of such a frame may be loaded and stored.
pub fn law_device_never_owns_frames_out_of_use()
    ensures lent { (uses : SlotStates) (m : Machine) (d : Device) (frame : Frame) (id : RequestId) → IsReachable m
        → StateRelation uses m d → m.lent frame ≡ Some id → CommandsAreOver uses d id
        → IsStable (DeviceOwnsNoByteOfFrame frame) d }
    ensures unlent { (uses : SlotStates) (m : Machine) (d : Device) (frame : Frame) → IsReachable m
        → StateRelation uses m d
        → m.lent frame ≡ None → DRIVER_FRAMES ≤ frame.0 → IsStable (DeviceOwnsNoByteOfFrame frame) d }
    ensures over { (uses : SlotStates) (m : Machine) (d : Device) (port slot : ℕ) (id : RequestId)
        → StateRelation uses m d
        → uses port slot ≡ Serves id → SlotHasNoCommand (d.port port) slot → CommandsAreOver uses d id }
    ensures idle { (d : Device) (frame : Frame) → IsIdle d → IsStable (DeviceOwnsNoByteOfFrame frame) d }
    ensures free { (d : Device) (frame : Frame) (offset n : ℕ) → IsStable (DeviceOwnsNoByteOfFrame frame) d
        → FRAME_BYTES * frame.0 + FRAME_BYTES ≤ d.memory_size → offset + n ≤ FRAME_BYTES
        → IsStable (IsInMemoryNotOwnedByDevice (FRAME_BYTES * frame.0 + offset) n) d }
{}

/// While no reset is pending, a healthy port on which nothing goes wrong stays healthy, whatever else the device does,
/// over readings, and over writes that neither clear ST nor write SCTL. There is such a port.
pub fn law_running_well_stays_if_undisturbed()
    ensures steps { (port : ℕ) (old new : Device) → old.hr ≡ false → Steps old new → Undisturbed port old new
        → RunsWell (old.port port) → RunsWell (new.port port) }
    ensures reads { (port : ℕ) (r : Reg) (v : ℕ) (old new : Device) → old.hr ≡ false → Reads r v old new
        → Undisturbed port old new → RunsWell (old.port port) → RunsWell (new.port port) }
    ensures writes { (port : Port) (r : Reg) (v : ℕ) (old new : Device) → old.hr ≡ false
        → (r ≡ Px port Cmd → bit v 0 ≡ true) → r ≢ Px port Sctl → Writes r v old new → Undisturbed port.0 old new
        → RunsWell (old.port port.0) → RunsWell (new.port port.0) }
    ensures exists { RunsWell (first_read_device.port 0) }
{
    law_prerequisites();
}

/// While no reset is pending, whatever goes wrong on a port sets a bit of PxIS or of PxSERR, which stays until the
/// driver clears it. If none is set, none was, and nothing went wrong. PxIS alone shows each of them, and a healthy
/// port has none. So if PxIS is read with none, or with none of its own and then PxSERR with none, a port that was
/// healthy still is when PxIS is read.
pub fn law_no_trouble_shown_means_undisturbed()
    ensures steps { (port : ℕ) (old new : Device) → old.hr ≡ false → Steps old new → ShowsNoTrouble (new.port port)
        → ShowsNoTrouble (old.port port) × Undisturbed port old new }
    ensures reads { (port : ℕ) (r : Reg) (v : ℕ) (old new : Device) → old.hr ≡ false → Reads r v old new
        → ShowsNoTrouble (new.port port) → ShowsNoTrouble (old.port port) × Undisturbed port old new }
    ensures stores { (port at : ℕ) (bytes : List ℕ) (old new : Device) → old.hr ≡ false → Stores at bytes old new
        → ShowsNoTrouble (new.port port) → ShowsNoTrouble (old.port port) × Undisturbed port old new }
    ensures writes { (port : Port) (r : Reg) (v : ℕ) (old new : Device) → old.hr ≡ false → ClearsNoTrouble port r v
        → Writes r v old new → ShowsNoTrouble (new.port port.0) → ShowsNoTrouble (old.port port.0)
        × Undisturbed port.0 old new }
    ensures none_told_none_shown { (port : Port) (v : ℕ) (old new : Device) → old.hr ≡ false
        → Reads (Px port Is) v old new
        → PxisValueTellsNoTrouble v → ShowsNoTrouble (new.port port.0) }
    ensures tells_what_is_shown { (port : Port) (v : ℕ) (old new : Device) → old.hr ≡ false
        → Reads (Px port Is) v old new
        → ShowsNoTrouble (new.port port.0) → PxisValueTellsNoTrouble v }
    ensures clears_no_trouble { (port : Port) (v : ℕ) → PxisValueTellsNoTrouble v
        → ClearsNoTrouble port (Px port Is) v }
    ensures healthy { (p : DevicePort) → RunsWell p → ShowsNoTrouble p }
    ensures found { (port : Port) (v : ℕ) (old new : Device) → old.hr ≡ false → Reads (Px port Is) v old new
        → PxisValueTellsNoTrouble v → RunsWell (old.port port.0) → Undisturbed port.0 old new
        × RunsWell (new.port port.0) }
    ensures found_by_two_reads { (port : Port) (v errors : ℕ) (old mid new : Device) → old.hr ≡ false
        → Reads (Px port Is) v old mid
        → Reads (Px port Serr) errors mid new → ((place : ℕ) → 27 ≤ place → place ≤ 30 → bit v place ≡ false)
        → bit errors 16 ≡ false → bit errors 26 ≡ false → RunsWell (old.port port.0)
        → Undisturbed port.0 old mid × RunsWell (mid.port port.0) }
{
    law_prerequisites();
}

/// Each error sets bits of its own, which stay until PxIS is written, while no reset is pending. If TFES, bit 30, is
/// clear, it was, and no fault of the port came. If 27 to 29 are clear, they were, and no fatal error came.
pub fn law_clear_pxis_error_bits_mean_no_error()
    ensures fault { (port : ℕ) (old new : Device) → old.hr ≡ false → Steps old new → (new.port port).is 30 ≡ false
        → ((old.port port).is 30 ≡ false) × NoFaults port old new }
    ensures fault_access { (port : Port) (access : Access) (old new : Device) → old.hr ≡ false
        → DoesNotWrite (Px port Is) access → Does access old new → (new.port port.0).is 30 ≡ false
        → ((old.port port.0).is 30 ≡ false) × NoFaults port.0 old new }
    ensures fatal { (port : ℕ) (old new : Device) → old.hr ≡ false → Steps old new
        → ((place : ℕ) → 27 ≤ place → place ≤ 29 → (new.port port).is place ≡ false)
        → ((place : ℕ) → 27 ≤ place → place ≤ 29 → (old.port port).is place ≡ false) × NoFatalErrors port old new }
    ensures fatal_access { (port : Port) (access : Access) (old new : Device) → old.hr ≡ false
        → DoesNotWrite (Px port Is) access → Does access old new
        → ((place : ℕ) → 27 ≤ place → place ≤ 29 → (new.port port.0).is place ≡ false)
        → ((place : ℕ) → 27 ≤ place → place ≤ 29 → (old.port port.0).is place ≡ false) × NoFatalErrors port.0 old new }
{
    law_step_lists_keep_what_steps_keep();
}

/// Consider the time from COMRESET or a reset of the adapter on, while the engine stands and the tape has no disk of
/// the port that comes. If PxSSTS.DET is read 3, the link is up. This holds whatever the device does, even over a reset
/// that finishes, and over each access that doesn't set ST. It also holds while no device shows. While no reset is
/// pending, a link that is up stays up, except over a write of PxSCTL, if no disk goes or comes. Whether the engine
/// stands or runs, it stays up if the tape has no disturbance of the port.
pub fn law_det_3_means_up_for_start_if_no_disk_came()
    ensures comreset { (port : Port) (v : ℕ) (old new : Device) → (old.port port.0).cr ≡ false → v % 16 ≡ 1
        → Writes (Px port Sctl) v old new → IsStoppedAndUpForStartIfDet3 (new.port port.0) }
    ensures reset { (v : ℕ) (old new : Device) → old.hr ≡ true → Reads Ghc v old new → bit v 0 ≡ false
        → (port : ℕ) → NoDiskComes port old new → IsStoppedAndUpForStartIfDet3 (new.port port) }
    ensures unlinked { (p : DevicePort) → p.cr ≡ false → p.ssts_det ≢ 3 → IsStoppedAndUpForStartIfDet3 p }
    ensures steps { (port : ℕ) (old new : Device) → NoDiskComes port old new → Steps old new
        → IsStoppedAndUpForStartIfDet3 (old.port port)
        → IsStoppedAndUpForStartIfDet3 (new.port port) }
    ensures access { (port : Port) (access : Access) (old new : Device) → WritesCmdOnlyWithStClear port access
        → Does access old new
        → NoDiskComes port.0 old new → IsStoppedAndUpForStartIfDet3 (old.port port.0)
        → IsStoppedAndUpForStartIfDet3 (new.port port.0) }
    ensures found { (port : Port) (v : ℕ) (old new : Device) → NoDiskComes port.0 old new
        → Reads (Px port Ssts) v old new
        → v % 16 ≡ 3 → IsStoppedAndUpForStartIfDet3 (old.port port.0) → IsUpForStart (new.port port.0) }
    ensures stays { (port : ℕ) (old new : Device) → old.hr ≡ false → (old.port port).cr ≡ false
        → NoPlugEvents port old new
        → Steps old new → IsUpForStart (old.port port) → IsUpForStart (new.port port) }
    ensures stays_access { (port : Port) (access : Access) (old new : Device) → old.hr ≡ false
        → (old.port port.0).cr ≡ false → WritesCmdOnlyWithStClear port access → DoesNotWrite (Px port Sctl) access
        → NoPlugEvents port.0 old new → Does access old new → IsUpForStart (old.port port.0)
        → IsUpForStart (new.port port.0) }
    ensures undisturbed { (port : ℕ) (old new : Device) → old.hr ≡ false → Undisturbed port old new → Steps old new
        → IsUpForStart (old.port port) → IsUpForStart (new.port port) }
    ensures undisturbed_access { (port : Port) (access : Access) (old new : Device) → old.hr ≡ false
        → DoesNotWrite (Px port Sctl) access → Undisturbed port.0 old new → Does access old new
        → IsUpForStart (old.port port.0) → IsUpForStart (new.port port.0) }
{
    law_prerequisites();
}

/// If ST is set while the engine stands and the link is up, no reset is pending, and the tape has no disk that goes or
/// comes, the port is started. It stays so, unless the tape has a disturbance of the port, whatever else the device
/// does, and over each access that neither clears ST nor writes PxSCTL. If no bit shows trouble, it runs well, and it
/// does if PxIS is read with none. So if ST is set with the link up, and PxIS is read with no trouble right after that,
/// the port runs well, whatever the tape has. A port that was started has its link up, unless COMRESET is being sent.
/// So it may be stopped and started again.
pub fn law_started_port_without_trouble_runs_well()
    ensures starts { (port : Port) (v : ℕ) (old new : Device) → old.hr ≡ false → (old.port port.0).st ≡ false
        → (old.port port.0).cr ≡ false → bit v 0 ≡ true → Writes (Px port Cmd) v old new
        → IsUpForStart (old.port port.0)
        → NoPlugEvents port.0 old new → IsStarted (new.port port.0) }
    ensures steps { (port : ℕ) (old new : Device) → old.hr ≡ false → Undisturbed port old new → Steps old new
        → IsStarted (old.port port) → IsStarted (new.port port) }
    ensures access { (port : Port) (access : Access) (old new : Device) → old.hr ≡ false
        → WritesCmdOnlyWithStSet port access
        → DoesNotWrite (Px port Sctl) access → Undisturbed port.0 old new → Does access old new
        → IsStarted (old.port port.0) → IsStarted (new.port port.0) }
    ensures started_runs_well { (p : DevicePort) → IsStarted p → ShowsNoTrouble p → RunsWell p }
    ensures started { (p : DevicePort) → RunsWell p → IsStarted p }
    ensures started_is_up_for_start { (p : DevicePort) → IsStarted p → p.sctl_det ≢ 1 → IsUpForStart p }
    ensures pxis_read_clear_runs_well { (port : Port) (v : ℕ) (old new : Device) → old.hr ≡ false
        → Reads (Px port Is) v old new
        → PxisValueTellsNoTrouble v → IsStarted (old.port port.0) → RunsWell (new.port port.0) }
    ensures found { (port : Port) (v causes : ℕ) (old mid new : Device) → old.hr ≡ false → (old.port port.0).st ≡ false
        → (old.port port.0).cr ≡ false → bit v 0 ≡ true → IsUpForStart (old.port port.0)
        → Writes (Px port Cmd) v old mid
        → Reads (Px port Is) causes mid new → PxisValueTellsNoTrouble causes → RunsWell (new.port port.0) }
{
    law_prerequisites();
}

/// There is a boot for these laws: COMRESET, the link's coming up, what clears the port's errors, the start, and
/// readings that show these. Each write of it is permitted when it is made.
pub fn law_boot_example_runs_well()
    ensures { BootWitness }
{
    law_prerequisites();
}

/// Consider a port with no link due, as one that runs, while no reset is pending. Each bit that shows trouble and is
/// clear stays clear, unless the tape has a disturbance of the port, whatever else the device does, and over each
/// access. So if none is set, none is set then. Those of PxIS rise only with their own errors, whatever the link does,
/// and even if a reset is pending or finishes: 27 to 29 only if the tape has a fatal error of the port, and 30 only if
/// it has a fault of it.
pub fn law_clear_error_bits_stay_clear()
    ensures steps { (port : ℕ) (old new : Device) → old.hr ≡ false → (old.port port).link_due ≡ false
        → Undisturbed port old new → Steps old new → ErrorBitsStayClear (old.port port) (new.port port) }
    ensures access { (port : Port) (access : Access) (old new : Device) → old.hr ≡ false
        → (old.port port.0).link_due ≡ false → Undisturbed port.0 old new → Does access old new
        → ErrorBitsStayClear (old.port port.0) (new.port port.0) }
    ensures no_trouble_stays { (p new : DevicePort) → ErrorBitsStayClear p new → ShowsNoTrouble p → ShowsNoTrouble new }
    ensures causes { (port : ℕ) (old new : Device) → Steps old new → ErrorBitsRiseByErrors port old new }
    ensures causes_access { (port : Port) (access : Access) (old new : Device) → Does access old new
        → ErrorBitsRiseByErrors port.0 old new }
{
    law_prerequisites();
}

/// If the tape of neither of two parts of a call has such an entry, the tape of the whole has none, and the other way
/// round. This holds for all that goes wrong with a port, its disks that go or come, its disks that come, its fatal
/// errors, and its faults.
pub fn law_tape_absence_composes()
    ensures undisturbed { IsCompositional Undisturbed }
    ensures plugs { IsCompositional NoPlugEvents }
    ensures comes { IsCompositional NoDiskComes }
    ensures fatal { IsCompositional NoFatalErrors }
    ensures fails { IsCompositional NoFaults }
{}

/// If nothing goes wrong with a port, the tape has no disk that goes or comes, no fatal error and no fault. If none
/// goes or comes, none comes.
pub fn law_undisturbed_has_no_error_or_plug()
    ensures plugs { (port : ℕ) (old new : Device) → Undisturbed port old new → NoPlugEvents port old new }
    ensures comes { (port : ℕ) (old new : Device) → NoPlugEvents port old new → NoDiskComes port old new }
    ensures fatal { (port : ℕ) (old new : Device) → Undisturbed port old new → NoFatalErrors port old new }
    ensures fails { (port : ℕ) (old new : Device) → Undisturbed port old new → NoFaults port old new }
{}

/// What the adapter is stays over each access: its memory's size, its capabilities, its ports, and whether its disks
/// have specified contents. It also stays over one fragment after another. An adapter that is on, with no reset
/// pending, stays so over each access except a write of GHC that clears AE or sets HR, and over any accesses that don't
/// write GHC.
pub fn law_adapter_stays_same_and_on_until_ghc_write()
    ensures access_keeps_adapter { (access : Access) (old new : Device) → Does access old new → SameAdapter old new }
    ensures adapter_reflexive { (d : Device) → SameAdapter d d }
    ensures adapter_transitive { (old mid new : Device) → SameAdapter old mid → SameAdapter mid new
        → SameAdapter old new }
    ensures stays_on { (access : Access) (old new : Device) → IsOn old
        → ((v : ℕ) → access ≡ Writing Ghc v → (bit v 31 ≡ true) × (bit v 0 ≡ false)) → Does access old new → IsOn new }
    ensures stays_on_over_all { (accesses : List Access) (old new : Device) → IsOn old → All (DoesNotWrite Ghc) accesses
        → DoesAll accesses old new → IsOn new }
{}

/// While no reset is pending, a write of GHC with AE and without HR switches the adapter on.
pub fn law_writing_ghc_switches_on()
    ensures { (v : ℕ) (old new : Device) → old.hr ≡ false → bit v 31 ≡ true → bit v 0 ≡ false → Writes Ghc v old new
        → IsOn new }
{
    law_prerequisites();
}

/// A load is steps of the device, and a store is such steps with memory changed after them: so what holds of ports and
/// of the tape over the device's steps holds over loads and stores.
pub fn law_memory_accesses_change_ports_by_steps()
    ensures load { (at : ℕ) (bytes : List ℕ) (old new : Device) → Loads at bytes old new → Steps old new }
    ensures store { (at : ℕ) (bytes : List ℕ) (old new : Device) → Stores at bytes old new
        → (mid : Device) × Steps old mid × ((port : ℕ) → new.port port ≡ mid.port port) × (new.tape ≡ mid.tape)
        × (new.hr ≡ mid.hr) }
{}

/// While no reset is pending, what the driver has written of a port's controls stays over each access but a write of
/// the register: ST and FRE, and when ST was set, and a port that runs goes on running; DET of PxSCTL, and when it was
/// written; PxIE; and the addresses.
pub fn law_port_controls_stay_until_written()
    ensures { (port : Port) (access : Access) (old new : Device) → old.hr ≡ false → Does access old new
        → ControlsChangeOnlyByTheirWrites access port (old.port port.0) (new.port port.0) }
{
    law_prerequisites();
}

/// And a write of the register sets it: ST and FRE of PxCMD, and with ST going to 1 also CR, and when it was set; DET
/// of PxSCTL, and when it was written; PxIE; and the addresses.
pub fn law_writes_set_port_controls()
    ensures command { (port : Port) (v : ℕ) (old new : Device) → Writes (Px port Cmd) v old new
        → ((new.port port.0).st ≡ bit v 0) × ((new.port port.0).fre ≡ bit v 4) }
    ensures start { (port : Port) (v : ℕ) (old new : Device) → (old.port port.0).st ≡ false → bit v 0 ≡ true
        → Writes (Px port Cmd) v old new
        → ((new.port port.0).cr ≡ true) × ((new.port port.0).notes.st_set_at ≡ length new.tape) }
    ensures control { (port : Port) (v : ℕ) (old new : Device) → Writes (Px port Sctl) v old new
        → ((new.port port.0).sctl_det ≡ v % 16) × ((new.port port.0).notes.sctl_written_at ≡ length new.tape) }
    ensures interrupts { (port : Port) (v : ℕ) (old new : Device) → Writes (Px port Ie) v old new
        → (new.port port.0).ie ≡ v }
    ensures list { (port : Port) (v : ℕ) (old new : Device) → Writes (Px port Clb) v old new
        → ((new.port port.0).bases.clb ≡ v) × ((new.port port.0).bases.clb_set ≡ true) }
    ensures list_upper { (port : Port) (v : ℕ) (old new : Device) → Writes (Px port Clbu) v old new
        → (new.port port.0).bases.clbu_set ≡ true }
    ensures received { (port : Port) (v : ℕ) (old new : Device) → Writes (Px port Fb) v old new
        → ((new.port port.0).bases.fb ≡ v) × ((new.port port.0).bases.fb_set ≡ true) }
    ensures received_upper { (port : Port) (v : ℕ) (old new : Device) → Writes (Px port Fbu) v old new
        → (new.port port.0).bases.fbu_set ≡ true }
{
    law_prerequisites();
}

/// While no reset is pending, N of PxSERR shows each disk that goes or comes, until PxSERR is written. If N is 0 after
/// the device's steps or an access, or is read 0, no disk of the port went or came, and it was 0 before. A disk that
/// goes and comes between the link's coming up and the clearing of PxSERR sets only N, which the link may have set,
/// too. That is found only if N is read 0 before it is cleared.
pub fn law_serr_n_clear_means_no_plug_event()
    ensures steps { (port : ℕ) (old new : Device) → old.hr ≡ false → Steps old new → (new.port port).serr_n ≡ false
        → ((old.port port).serr_n ≡ false) × NoPlugEvents port old new }
    ensures access { (port : Port) (access : Access) (old new : Device) → old.hr ≡ false
        → DoesNotWrite (Px port Serr) access → Does access old new → (new.port port.0).serr_n ≡ false
        → ((old.port port.0).serr_n ≡ false) × NoPlugEvents port.0 old new }
    ensures read { (port : Port) (v : ℕ) (old new : Device) → old.hr ≡ false → Reads (Px port Serr) v old new
        → bit v 16 ≡ false
        → ((new.port port.0).serr_n ≡ false) × ((old.port port.0).serr_n ≡ false) × NoPlugEvents port.0 old new }
{
    law_prerequisites();
}

/// If the tape has no disk of the port that goes or comes, the same disk is in, or out, whatever else the device does,
/// even over a reset of the adapter that finishes, and over each access.
pub fn law_disk_stays_without_plug_events()
    ensures steps { (port : ℕ) (old new : Device) → Steps old new → NoPlugEvents port old new
        → KeepsDisk (old.port port) (new.port port) }
    ensures access { (port : ℕ) (access : Access) (old new : Device) → Does access old new → NoPlugEvents port old new
        → KeepsDisk (old.port port) (new.port port) }
{
    law_prerequisites();
}

/// If the tape has no disk of the port that goes or comes, and no reset is pending, the port's link stays as it was, or
/// one that was due has come up, whatever else the device does, and over each access except a write of PxSCTL.
pub fn law_link_is_same_or_comes_up_without_plugs()
    ensures steps { (port : ℕ) (old new : Device) → old.hr ≡ false → Steps old new → NoPlugEvents port old new
        → LinkIsSameOrComesUp (old.port port) (new.port port) }
    ensures access { (port : Port) (access : Access) (old new : Device) → old.hr ≡ false
        → DoesNotWrite (Px port Sctl) access → Does access old new → NoPlugEvents port.0 old new
        → LinkIsSameOrComesUp (old.port port.0) (new.port port.0) }
{
    law_prerequisites();
}

/// While no reset is pending, a port whose PxSSTS.DET is 3 or that has no disk in goes on so: a disk that comes shows
/// at once, and so does a link that comes up. Whatever the device does, and over each access but a write of PxSCTL.
pub fn law_det_3_if_disk_present_stays()
    ensures steps { (port : ℕ) (old new : Device) → old.hr ≡ false → Steps old new
        → HasDet3IfDiskPresent (old.port port)
        → HasDet3IfDiskPresent (new.port port) }
    ensures access { (port : Port) (access : Access) (old new : Device) → old.hr ≡ false
        → DoesNotWrite (Px port Sctl) access → Does access old new → HasDet3IfDiskPresent (old.port port.0)
        → HasDet3IfDiskPresent (new.port port.0) }
{
    law_prerequisites();
}

/// The tape has the faults of a port since its ST was set, and the task file shows the last one. This stays so,
/// whatever the device does, over readings, and over each write that may be made, if ST is set only on a port that is
/// clean to start, and PxSCTL is written only while the engine stands. While no reset is pending, what a write needs
/// stays true until it is made, and a write that issues commands needs nothing. Nor does any access that writes neither
/// PxCMD nor PxSCTL of the port. It is so while ST is 0, on a port that runs, and on one that has failed.
pub fn law_tape_and_tfd_keep_faults_since_st()
    ensures steps { (port : ℕ) (old new : Device) → Steps old new → RecordsFaultsIfSt old.tape (old.port port) port
        → RecordsFaultsIfSt new.tape (new.port port) port }
    ensures reads { (port : ℕ) (r : Reg) (v : ℕ) (old new : Device) → Reads r v old new
        → RecordsFaultsIfSt old.tape (old.port port) port → RecordsFaultsIfSt new.tape (new.port port) port }
    ensures writes { (port : ℕ) (r : Reg) (v : ℕ) (old new : Device) → IsStable (MayWrite r v) old
        → IsStable (StartsCleanAndWritesSctlStopped r v) old → Writes r v old new
        → RecordsFaultsIfSt old.tape (old.port port) port
        → RecordsFaultsIfSt new.tape (new.port port) port }
    ensures issues { (port : ℕ) (at : Port) (v : ℕ) (old new : Device) → Writes (Px at Ci) v old new
        → RecordsFaultsIfSt old.tape (old.port port) port → RecordsFaultsIfSt new.tape (new.port port) port }
    ensures access { (port : Port) (access : Access) (old new : Device) → DoesNotWrite (Px port Cmd) access
        → DoesNotWrite (Px port Sctl) access → Does access old new → RecordsFaultsIfSt old.tape (old.port port.0) port.0
        → RecordsFaultsIfSt new.tape (new.port port.0) port.0 }
    ensures asked { (r : Reg) (v : ℕ) (d : Device) → d.hr ≡ false → StartsCleanAndWritesSctlStopped r v d
        → IsStable (StartsCleanAndWritesSctlStopped r v) d }
    ensures idle { (tape : List Entry) (p : DevicePort) (port : ℕ) → p.st ≡ false → RecordsFaultsIfSt tape p port }
    ensures runs { RecordsFaults first_read_device.tape (first_read_device.port 0) 0 }
    ensures failed { (new : Device) × Steps first_read_device new × ((new.port 0).halt ≡ HaltedByPlain)
        × RecordsFaults new.tape (new.port 0) 0 }
{}

/// From COMRESET until the link comes up the engine stands, and the task file shows DRQ. COMRESET begins this, and so
/// does a reset of the adapter. It stays so, whatever the device does, over readings, over each write that may be made
/// and keeps the record of faults, and over each access that writes neither PxCMD nor PxSCTL of the port. It also holds
/// if no link is due and PxSCTL.DET isn't 1, as on a port that runs.
pub fn law_drq_is_shown_while_link_awaited()
    ensures begins { (port : Port) (v : ℕ) (old new : Device) → (old.port port.0).cr ≡ false → v % 16 ≡ 1
        → Writes (Px port Sctl) v old new → WhileLinkAwaitedCrIsClearAndDrqSet (new.port port.0) }
    ensures steps { StaysOverSteps WhileLinkAwaitedCrIsClearAndDrqSet }
    ensures reads { StaysOverReadings WhileLinkAwaitedCrIsClearAndDrqSet }
    ensures writes { (port : ℕ) (r : Reg) (v : ℕ) (old new : Device) → IsStable (MayWrite r v) old
        → IsStable (StartsCleanAndWritesSctlStopped r v) old → Writes r v old new
        → WhileLinkAwaitedCrIsClearAndDrqSet (old.port port)
        → WhileLinkAwaitedCrIsClearAndDrqSet (new.port port) }
    ensures access { (port : Port) (access : Access) (old new : Device) → DoesNotWrite (Px port Cmd) access
        → DoesNotWrite (Px port Sctl) access → Does access old new
        → WhileLinkAwaitedCrIsClearAndDrqSet (old.port port.0)
        → WhileLinkAwaitedCrIsClearAndDrqSet (new.port port.0) }
    ensures reset { (v : ℕ) (old new : Device) → old.hr ≡ true → Reads Ghc v old new → bit v 0 ≡ false
        → (port : ℕ) → WhileLinkAwaitedCrIsClearAndDrqSet (new.port port) }
    ensures undue { (p : DevicePort) → p.link_due ≡ false → p.sctl_det ≢ 1 → WhileLinkAwaitedCrIsClearAndDrqSet p }
    ensures runs { WhileLinkAwaitedCrIsClearAndDrqSet (first_read_device.port 0) }
{
    law_prerequisites();
}

/// A port is clean to start, so that ST may be set and faults go on to be recorded: PxIS is written with TFES while the
/// engine stands, TFD is read without DRQ, and then it stays so, whatever the device does, over readings, and over
/// writes that neither set its ST nor send COMRESET on it.
pub fn law_tfes_and_drq_clear_mean_clean_to_start()
    ensures cleared { (port : Port) (v : ℕ) (old new : Device) → (old.port port.0).cr ≡ false → bit v 30 ≡ true
        → Writes (Px port Is) v old new → CrAndTfesAreClear (new.port port.0) }
    ensures steps { StaysOverSteps CrAndTfesAreClear }
    ensures reads { StaysOverReadings CrAndTfesAreClear }
    ensures writes { (port : Port) (r : Reg) (v : ℕ) (old new : Device) → (r ≡ Px port Cmd → bit v 0 ≡ false)
        → Writes r v old new → CrAndTfesAreClear (old.port port.0) → CrAndTfesAreClear (new.port port.0) }
    ensures found { (port : Port) (v : ℕ) (old new : Device) → WhileLinkAwaitedCrIsClearAndDrqSet (old.port port.0)
        → CrAndTfesAreClear (old.port port.0) → Reads (Px port Tfd) v old new → bit v 3 ≡ false
        → IsCleanToStart (new.port port.0) }
    ensures stays { StaysOverSteps IsCleanToStart }
    ensures stays_read { StaysOverReadings IsCleanToStart }
    ensures stays_written { (port : Port) (r : Reg) (v : ℕ) (old new : Device) → (r ≡ Px port Cmd → bit v 0 ≡ false)
        → (r ≡ Px port Sctl → v % 16 ≢ 1) → Writes r v old new → IsCleanToStart (old.port port.0)
        → IsCleanToStart (new.port port.0) }
    ensures exists { IsCleanToStart (first_read_device.port 1) }
{
    law_prerequisites();
}

/// While no reset is pending: if TFES of PxIS is read 1 of a running port, a fault has halted it, and it stays halted
/// while ST is 1, whatever the device does, over readings, and over writes, PxIS among them. TFD then shows status and
/// error of the port's last fault since ST was set. If the machine agrees with the device, the slot of a fault that the
/// task file shows, which is still in use, isn't a free one.
pub fn law_tfes_read_set_means_fault_halts_port()
    ensures told { (port : Port) (v : ℕ) (old new : Device) → old.hr ≡ false → (old.port port.0).st ≡ true
        → RecordsFaultsIfSt old.tape (old.port port.0) port.0 → Reads (Px port Is) v old new → bit v 30 ≡ true
        → IsHaltedByPlainOrQueued (new.port port.0).halt }
    ensures steps { (port : ℕ) (old new : Device) → old.hr ≡ false → (old.port port).st ≡ true
        → RecordsFaultsIfSt old.tape (old.port port) port → IsHaltedByPlainOrQueued (old.port port).halt → Steps old new
        → IsHaltedByPlainOrQueued (new.port port).halt }
    ensures reads { (port : ℕ) (r : Reg) (v : ℕ) (old new : Device) → old.hr ≡ false → (old.port port).st ≡ true
        → RecordsFaultsIfSt old.tape (old.port port) port → IsHaltedByPlainOrQueued (old.port port).halt
        → Reads r v old new
        → IsHaltedByPlainOrQueued (new.port port).halt }
    ensures writes { (port : ℕ) (r : Reg) (v : ℕ) (old new : Device) → old.hr ≡ false → (old.port port).st ≡ true
        → RecordsFaultsIfSt old.tape (old.port port) port → IsHaltedByPlainOrQueued (old.port port).halt
        → Writes r v old new
        → IsHaltedByPlainOrQueued (new.port port).halt }
    ensures shown { (port : Port) (v : ℕ) (old new : Device) → old.hr ≡ false → (old.port port.0).st ≡ true
        → RecordsFaultsIfSt old.tape (old.port port.0) port.0 → IsHaltedByPlainOrQueued (old.port port.0).halt
        → Reads (Px port Tfd) v old new
        → (s : ShowsFault (drop (new.port port.0).notes.st_set_at new.tape) (new.port port.0) port.0)
        × (v % 256 ≡ s.fault.status) × (v / 256 % 256 ≡ s.fault.error) }
    ensures slot { (uses : SlotStates) (m : Machine) (d : Device) (port : ℕ) (entries : List Entry)
        → StateRelation uses m d
        → (s : ShowsFault entries (d.port port) port) → uses port s.fault.slot.0 ≢ Free }
{
    law_prerequisites();
}

/// While no reset is pending, each bit of PxIS that is set stays so until PxIS is written, and N and X of PxSERR until
/// that is: whatever the device does, and over each access.
pub fn law_set_pxis_serr_nx_bits_stay_until_written()
    ensures steps { (port : ℕ) (old new : Device) → old.hr ≡ false → Steps old new
        → KeepsSetBitsOfPxisAndSerrNX (old.port port) (new.port port) }
    ensures causes { (port : Port) (access : Access) (old new : Device) → old.hr ≡ false
        → DoesNotWrite (Px port Is) access → Does access old new → (place : ℕ) → (old.port port.0).is place ≡ true
        → (new.port port.0).is place ≡ true }
    ensures errors { (port : Port) (access : Access) (old new : Device) → old.hr ≡ false
        → DoesNotWrite (Px port Serr) access → Does access old new
        → ((old.port port.0).serr_n ≡ true → (new.port port.0).serr_n ≡ true)
        × ((old.port port.0).serr_x ≡ true → (new.port port.0).serr_x ≡ true) }
{
    law_prerequisites();
}

/// While no reset is pending and no link of the port is due, N of PxSERR rises only for a disk that goes or comes, and
/// X only for one that comes. If PxSSTS.DET is 3 and no disk has come, it was 3 before, and none has gone. This holds
/// whatever the device does, over each access, and over one fragment after another. No link is due then either, except
/// after a write of PxSCTL.
pub fn law_serr_nx_rise_only_by_plugs_if_no_link_due()
    ensures steps { (port : ℕ) (old new : Device) → old.hr ≡ false → (old.port port).link_due ≡ false → Steps old new
        → LinkErrorsRiseByDisks port old new }
    ensures access { (port : Port) (access : Access) (old new : Device) → old.hr ≡ false
        → (old.port port.0).link_due ≡ false → Does access old new → LinkErrorsRiseByDisks port.0 old new }
    ensures reflexive { (port : ℕ) (d : Device) → LinkErrorsRiseByDisks port d d }
    ensures transitive { (port : ℕ) (old mid new : Device) → TapeGrows old mid → TapeGrows mid new
        → LinkErrorsRiseByDisks port old mid
        → LinkErrorsRiseByDisks port mid new → LinkErrorsRiseByDisks port old new }
    ensures due { (port : ℕ) (old new : Device) → old.hr ≡ false → (old.port port).link_due ≡ false → Steps old new
        → (new.port port).link_due ≡ false }
    ensures no_link_becomes_due_over_access { (port : Port) (access : Access) (old new : Device) → old.hr ≡ false
        → (old.port port.0).link_due ≡ false → DoesNotWrite (Px port Sctl) access → Does access old new
        → (new.port port.0).link_due ≡ false }
{
    law_prerequisites();
}

/// While a port's engine stands, no move, clearing, end, fault or fatal error of the port comes. If no disk comes
/// either, the disk holds what it did. This holds whatever the device does, even over a reset of the adapter that
/// finishes, and over each access, even the write of ST itself.
pub fn law_stopped_engine_records_no_work()
    ensures steps { (port : ℕ) (old new : Device) (gained : List Entry) → (old.port port).cr ≡ false → Steps old new
        → new.tape ≡ old.tape ++ gained → All (λ e. IsEngineWorkOrErrorOf port e → ⊥) gained }
    ensures access { (port : ℕ) (access : Access) (old new : Device) (gained : List Entry) → (old.port port).cr ≡ false
        → Does access old new → new.tape ≡ old.tape ++ gained → All (λ e. IsEngineWorkOrErrorOf port e → ⊥) gained }
    ensures disk { (port : ℕ) (old new : Device) → (old.port port).cr ≡ false → Steps old new → NoDiskComes port old new
        → (new.port port).disk ≡ (old.port port).disk }
    ensures disk_access { (port : ℕ) (access : Access) (old new : Device) → (old.port port).cr ≡ false
        → Does access old new → NoDiskComes port old new → (new.port port).disk ≡ (old.port port).disk }
{
    law_prerequisites();
}

/// A write of PxSCTL with DET 1 sends COMRESET: no device shows in PxSSTS, and the status is 7Fh. While no reset is
/// pending, one with DET 0 after it makes the link due, and no other write of PxSCTL does.
pub fn law_sctl_det_1_sends_comreset()
    ensures comreset { (port : Port) (v : ℕ) (old new : Device) → v % 16 ≡ 1 → Writes (Px port Sctl) v old new
        → ((new.port port.0).ssts_det ≡ 0) × ((new.port port.0).tfd % 256 ≡ 0x7f) }
    ensures due { (port : Port) (v : ℕ) (old new : Device) → old.hr ≡ false → (old.port port.0).sctl_det ≡ 1
        → v % 16 ≡ 0 → Writes (Px port Sctl) v old new → (new.port port.0).link_due ≡ true }
    ensures undue { (port : Port) (v : ℕ) (old new : Device) → old.hr ≡ false → (old.port port.0).link_due ≡ false
        → ((old.port port.0).sctl_det ≡ 1 → v % 16 ≢ 0) → Writes (Px port Sctl) v old new
        → (new.port port.0).link_due ≡ false }
{
    law_prerequisites();
}

/// A write of PxSERR clears N and X if it has their bits, 16 and 26, and a write of PxIS clears each bit that it has.
pub fn law_writing_ones_clears_pxis_and_serr()
    ensures errors { (port : Port) (v : ℕ) (old new : Device) → Writes (Px port Serr) v old new
        → (bit v 16 ≡ true → (new.port port.0).serr_n ≡ false) × (bit v 26 ≡ true → (new.port port.0).serr_x ≡ false) }
    ensures causes { (port : Port) (v : ℕ) (old new : Device) → Writes (Px port Is) v old new → (place : ℕ)
        → bit v place ≡ true → (new.port port.0).is place ≡ false }
{}

/// A reading of a port's register notes the value as the last one read. While no reset is pending it counts the
/// readings in a row, too, as the adapter's notes do, and shows what the port has then.
pub fn law_port_register_read_is_noted_as_last()
    ensures command { NotesLast Cmd (λ n. n.last_cmd) }
    ensures link { NotesLast Ssts (λ n. n.last_ssts) }
    ensures task_file { NotesLast Tfd (λ n. n.last_tfd) }
    ensures issued { NotesLast Ci (λ n. n.last_ci) }
    ensures active { NotesLast Sact (λ n. n.last_sact) }
    ensures signature { NotesLast Sig (λ n. n.last_sig) }
    ensures counts { (port : Port) (r : PortReg) (v : ℕ) (old new : Device) → old.hr ≡ false
        → Reads (Px port r) v old new → (new.port port.0).notes ≡ notes_after_reading r v (old.port port.0) }
    ensures shows { (port : Port) (r : PortReg) (v : ℕ) (old new : Device) → old.hr ≡ false
        → Reads (Px port r) v old new → PortShows r v (new.port port.0) }
{
    law_prerequisites();
}

/// What the readings of a port noted stays, whatever the device does, and over each access: each value, and its count,
/// changes only by a reading of its register; those of the link, of busy and of the command also by a write of PxSCTL.
pub fn law_noted_reads_change_only_by_read_or_sctl()
    ensures steps { (port : ℕ) (old new : Device) → Steps old new → (new.port port).notes ≡ (old.port port).notes }
    ensures access { (port : Port) (access : Access) (old new : Device) → Does access old new
        → NotesChangeOnlyByReadOrSctlWrite access port (old.port port.0).notes (new.port port.0).notes }
{
    law_prerequisites();
}
