//! Laws on Syncs: they come in time, so that nothing lapses.

ghost use Rattle.gptp_bmca_machine.specs.SyncLaws.{SyncsBegin, ExpectedSyncsAreKept, ExpectedSyncsComeInTime, WaitIsBounded};
ghost use Rattle.gptp_bmca_machine.specs.SyncLaws.{SyncRunSettles};

use crate::coding::Coding;

/// From when a near system has settled, a Follow_Up that matches comes to each one that follows it a step farther:
/// within the wait from when the lapse timer there started, or from when that one had settled. Before the start that
/// claims nothing. Every step of the machine keeps it: the best sends Sync at its Sync timer, each settled system
/// relays what it hears, and a Relay timer that runs isn't restarted.
pub fn syncs_are_expected<C: Coding>()
    ensures begins { SyncsBegin C.says_sync }
    ensures kept { ExpectedSyncsAreKept C.says C.says_sync }
{}

/// Nothing lapses at a near system, where the wait for the next Sync is below the span of lapse timers. That wait is at
/// most a sync interval and, for each link of the longest path, a residence time and the largest delay.
pub fn syncs_come_in_time<C: Coding>()
    ensures in_time { ExpectedSyncsComeInTime C.says C.says_sync }
    ensures bounded { WaitIsBounded }
{}

/// A run through calm states in which Syncs are told, begun before the start in whichever of them, ends with all near
/// systems and their ports settled, where it ends late enough.
pub fn sync_run_settles<C: Coding>()
    ensures { SyncRunSettles C.says C.says_sync }
{}
