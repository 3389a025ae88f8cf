// Laws of the definitions, for callers: the clause is the theorem. These functions do nothing.
ghost use Rattle.std.specs.{Prelude.{◌≡◌, ◌++◌, List, [], ◌∷◌}, List.{flat_map}};
ghost use Rattle.ata_types.specs.{declared.Port.{Port}, declared.PortState.TheVariants.{Ready}, declared.call.Call.{Call}};
ghost use Rattle.block_machine.specs.Events.{AbstractCallResult};
ghost use Rattle.adapter.specs.{Idle.{IsIdle}, declared.access.DeviceStep.{DeviceStep}};
ghost use Rattle.refinement.specs.PortFacts.{RunsWell, Undisturbed};
ghost use Rattle.configuration.specs.declared.Config.{Config};
ghost use Rattle.host_boot.specs.TakeOver.{probe_result_of};
ghost use Rattle.server_history.specs.{Histories.{ExtendsHistory}, ServerState.{state_of}};
ghost use Rattle.block_server.specs.{Promise.{Simulates}, InitialServer.{IsInitialServer}, AbstractCalls.{abstract_call_of}, Said.{said_of}, ServerView.{ServerView, server_of}, Costs.{MOST_NEW_ACCESSES, MOST_RESET_ACCESSES, MOST_REVOKE_ACCESSES, MOST_SERVICE_ACCESSES, MOST_SUBMIT_ACCESSES, MOST_TICK_ACCESSES}};

use adapter::Stepped;
use driver_history::laws::{
    law_answers_justified, law_device_moves_and_clears_are_confined,
    law_healthy_calls_tell_no_fault_and_issue_due, law_histories_are_runs,
    law_ok_reads_hold_expected_if_sectors_told, law_replugs_keep_flushed_if_sectors_told,
    law_services_answer_where_bits_are_clear,
};
use host_boot::laws::law_ready_ports_run_and_unusable_disks_show;

/// Calls that each add an event to every history that leads to the server before them keep their promise: no call, one
/// call, and calls after others. With them the history is a run of the block machine, in which each read that was
/// answered Ok has what was left, each disk that comes back has what was flushed, and moves and clears keep to their
/// places. Each call does its part for the device on each port, ready or not. Consider a port that is ready and runs
/// well, while it shows no fault and no fatal error, and no disk of it goes or comes. On it each call issues exactly
/// what is due, each service answers what has ended, with Ok, and nothing else, and the port stays as it is, unless a
/// tick restarts it.
pub fn law_calls_that_extend_history_keep_promise<A: Stepped>()
    ensures no_calls { (s : ServerView A) → Simulates A.device s s [] [] }
    ensures one_call { (old new : ServerView A) (call : Call DeviceStep) (one : AbstractCallResult)
        → ExtendsHistory (server_of A.device old) (server_of A.device new) (abstract_call_of call) one
        → new.wanted ≡ old.wanted → Simulates A.device old new (call ∷ []) (one ∷ []) }
    ensures calls_join { (old mid new : ServerView A) (calls further : List (Call DeviceStep))
        (said more : List AbstractCallResult) → Simulates A.device old mid calls said
        → Simulates A.device mid new further more
        → Simulates A.device old new (calls ++ further) (said ++ more) }
{
    law_services_answer_where_bits_are_clear();
    law_healthy_calls_tell_no_fault_and_issue_due();
    law_answers_justified();
    law_device_moves_and_clears_are_confined();
    law_histories_are_runs();
    law_ok_reads_hold_expected_if_sectors_told();
    law_replugs_keep_flushed_if_sectors_told();
}

/// A port that is ready when its server is made runs well then, if nothing went wrong on it since the adapter was idle.
pub fn law_ready_ports_of_new_server_run_if_undisturbed<A: Stepped>()
    ensures { (config : Config) (adapter : A) (server : ServerView A) (port : Port) → IsIdle (A.device adapter)
        → IsInitialServer A.device config adapter server → state_of (probe_result_of server.probe_results port.0)
        ≡ Ready
        → Undisturbed port.0 (A.device adapter) (A.device server.adapter)
        → RunsWell ((A.device server.adapter).port port.0) }
{
    law_ready_ports_run_and_unusable_disks_show();
}

/// What `Server::run` says can be read in one way only: other results are said otherwise.
pub fn law_said_lists_are_unambiguous()
    ensures { (one other : List AbstractCallResult) → flat_map said_of one ≡ flat_map said_of other → one ≡ other }
{}

/// How many accesses the calls make at most, in numbers: by the 64 readings of a wait, 32 slots and four ports.
pub fn law_most_accesses_in_numbers()
    ensures new { MOST_NEW_ACCESSES ≡ 1632 }
    ensures submit { MOST_SUBMIT_ACCESSES ≡ 4 }
    ensures service { MOST_SERVICE_ACCESSES ≡ 2480 }
    ensures tick { MOST_TICK_ACCESSES ≡ 1904 }
    ensures reset { MOST_RESET_ACCESSES ≡ 1961 }
    ensures revoke { MOST_REVOKE_ACCESSES ≡ 66 }
{}
