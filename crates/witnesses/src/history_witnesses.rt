// Laws of the definitions: the clause is the theorem. These functions do nothing.
ghost use Rattle.witnesses.specs.{ReadyPort.{HistoryBeginsReady}, StuckReset.{StuckResetIsAHistory}, FatalError.{FatalErrorIsAHistory}, HungPort.{HungPortIsAHistory}, Loss.{LossIsAHistory}, QueuedReads.{QueuedReadsEndOutOfOrder}, Recovery.{RecoveryIsAHistory}, Revocation.{RevocationIsAHistory}, Reset.{ResetIsAHistory}, MissingDisk.{MissingDiskIsAHistory}};

/// There is an instant at which a history may begin with ports that are ready.
pub fn law_a_history_may_begin_with_ready_ports()
    ensures { HistoryBeginsReady }
{}

/// There is a history with a service that answers a plain read with its fault, and leaves the port running well. It
/// meets every condition on its calls.
pub fn law_a_fault_recovery_history_exists()
    ensures { RecoveryIsAHistory }
{}

/// There is a history with a service that finds a read done on one port, and loses the disk of another: all that is
/// asked of its calls is met.
pub fn law_a_disk_loss_beside_ok_read_history_exists()
    ensures { LossIsAHistory }
{}

/// There is a history with a reset that doesn't end, and a service that answers the request PortDead: all that is asked
/// of its calls is met.
pub fn law_a_stuck_reset_history_exists()
    ensures { StuckResetIsAHistory }
{}

/// There is a history with two queued reads of one port, of which the second ends first, and is answered first. It
/// meets every condition on its calls.
pub fn law_queued_reads_may_end_out_of_order()
    ensures { QueuedReadsEndOutOfOrder }
{}

/// There is a history with a service that finds a fatal error on a port, gives the port up, and boots it anew. It meets
/// every condition on its calls.
pub fn law_a_fatal_error_history_exists()
    ensures { FatalErrorIsAHistory }
{}

/// There is a history with a read that never ends, and three ticks, of which the third finds its port hung, gives it
/// up, and boots it anew. It meets every condition on its calls.
pub fn law_a_command_timeout_history_exists()
    ensures { HungPortIsAHistory }
{}

/// There is a history in which a grant is revoked while a read of it is issued, which goes on. It meets every condition
/// on its calls.
pub fn law_a_grant_revocation_history_exists()
    ensures { RevocationIsAHistory }
{}

/// There is a history with a reset that finishes, which boots both ports, answers the read that was issued Unplugged,
/// and gives its frame back. It meets every condition on its calls.
pub fn law_an_ended_reset_history_exists()
    ensures { ResetIsAHistory }
{}

/// There is a history in which an unfit disk is taken out, and the service that follows makes its port absent. It meets
/// every condition on its calls.
pub fn law_an_unfit_disk_removal_history_exists()
    ensures { MissingDiskIsAHistory }
{}
